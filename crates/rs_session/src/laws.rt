//! Laws of the definitions. Each contract is the law; the bodies do nothing.

ghost use Rattle.rs_session.specs.Laws.{BringsUp, KeepsTime, EndsOnce, EndsBriefly, UpdatesAreTaken, HearsAsConfigured};

/// An Established session heard an OPEN of the client's AS, then a KEEPALIVE, then only what ends
/// nothing (RFC 4271, 8.2.2).
#[tactic(auto, using(crate::proofs::Lasting::brings_up))]
pub fn open_and_keepalive_bring_up()
    ensures { BringsUp }
{}

/// While a session lasts, at the greatest moment so far, the client was heard within the Hold Time,
/// and a KEEPALIVE fell due within a third of it (RFC 4271, 4.4 and 6.5).
#[tactic(auto, using(crate::proofs::Lasting::keeps_time))]
pub fn sessions_keep_time()
    ensures { KeepsTime }
{}

/// A session ends once, and then nothing more is done until its connection is lost.
#[tactic(auto, using(crate::proofs::Lasting::ends_once))]
pub fn sessions_end_once()
    ensures { EndsOnce }
{}

/// A session ends with a NOTIFICATION that has at most 129 octets of data, or with none
/// (RFC 4271, 6).
#[tactic(auto, using(crate::proofs::Briefs::ends_briefly))]
pub fn sessions_end_briefly()
    ensures { EndsBriefly }
{}

/// While a session lasts, an UPDATE is taken where it is Established and is no session reset, and ends
/// the session else (RFC 4271, 8.2.2).
#[tactic(auto, using(crate::proofs::Updates::updates_are_taken))]
pub fn established_sessions_take_updates()
    ensures { UpdatesAreTaken }
{}

/// What a session has heard, it has heard with what is configured of it.
#[tactic(auto, using(crate::proofs::Phases::hears_as_configured))]
pub fn sessions_hear_as_configured()
    ensures { HearsAsConfigured }
{}
