//! The session of one client: its settings, the greatest moment, and the phase that it is in.

ghost use Rattle.std.specs.Prelude.{◌≡◌, ◌≢◌, ◌<◌, ◌≤◌, ℕ, Bool, true, false, max, List, [], ◌∷◌, IsSome, IfOk, OnErr};

use crate::act::{Act, Busy, State};
use crate::command::Command;
use crate::heard::Heard;
use crate::phase::{OPEN_WAIT, Phase, commanded, first, later, quiet_for, second, ticked, waited};
use crate::settings::Settings;
use rs_attrs::Mode;
use rs_open::{Limit, Open, Short};

/// The session of one client.
#[derive(Clone, Copy, Debug)]
pub struct Session {
    settings: Settings,
    /// The greatest moment so far, in seconds.
    latest: u64,
    phase: Phase,
}

impl Session {
    ghost use Rattle.rs_session.specs.Steps.{message_step, moment_step, command_step};
    ghost use Rattle.rs_session.specs.Items.{Came, Message, Moment, Commanded, Left};
    ghost use Rattle.rs_session.specs.Sessions.{state_of, is_live, agreed_of};
    ghost use Rattle.rs_session.specs.Sessions.{agreed_hold, agreed_mode, agreed_identifier, agreed_limit, ends_at, SaysBriefly};
    ghost use Rattle.rs_session.specs.Hearing.{configured, HasHeard, Whenever, Shows, RespondsTo, Takes, Forgets};

    /// A session of a client with these settings: Idle, and no moment was seen.
    #[tactic(auto, unfolding(crate::specs::Hearing::HasHeard, crate::specs::Hearing::configured))]
    pub fn new(settings: Settings) -> Session
        ensures heard { HasHeard result settings [] }
        ensures configured { configured result ≡ settings }
    {
        Session {
            settings,
            latest: 0,
            phase: Phase::Idle,
        }
    }

    /// What was configured of the client. Only tests call this.
    #[tactic(auto, using(crate::proofs::Phases::settings_heard), unfolding(crate::specs::Hearing::configured))]
    pub fn settings(&self) -> Settings
        ensures configured { result ≡ configured self.now }
        ensures heard { Whenever self.now (λ settings items. result ≡ settings) }
    {
        self.settings
    }

    /// A connection has come. The answer is to say our OPEN.
    #[tactic(auto, using(crate::proofs::Messages::came_hears, crate::proofs::Phases::idle_heard), unfolding(crate::specs::Hearing::configured))]
    pub fn opened(&mut self) -> Result<Act, Busy>
        ensures ok { IfOk result (λ act. RespondsTo self.old self.new Came act) }
        ensures brief { IfOk result SaysBriefly }
        ensures configured { configured self.new ≡ configured self.old }
        ensures busy { OnErr result (self.new ≡ self.old) }
        ensures busy_unless_idle { OnErr result (Whenever self.old (λ settings items.
            state_of settings items ≢ State.Idle)) }
    {
        match self.phase {
            Phase::Idle => {
                self.phase = Phase::OpenSent { since: self.latest };
                Ok(Act::Say(Short::Open))
            }
            Phase::OpenSent { .. } | Phase::Agreed(_) | Phase::Closing => Err(Busy),
        }
    }

    /// A message was heard, or the fault of a header. While there is no session that lasts, it
    /// changes nothing; a session that lasts answers None only where it is Established and has taken
    /// what the message says.
    #[tactic(auto, unfolding(crate::specs::Hearing::configured))]
    pub fn message(&mut self, heard: Heard) -> Act
        ensures hears { RespondsTo self.old self.new (Message heard) result }
        ensures over { Whenever self.old (λ settings items.
            is_live (state_of settings items) ≡ false → self.new ≡ self.old) }
        ensures takes { Takes self.old result }
        ensures brief { SaysBriefly result }
        ensures configured { configured self.new ≡ configured self.old }
    {
        self.hear(heard)
    }

    /// A moment is seen, in seconds; one that is less than an earlier one counts as the greatest
    /// so far.
    #[tactic(auto, unfolding(crate::specs::Hearing::configured))]
    pub fn moment(&mut self, t: u64) -> Act
        ensures hears { RespondsTo self.old self.new (Moment t) result }
        ensures brief { SaysBriefly result }
        ensures configured { configured self.new ≡ configured self.old }
    {
        self.see(t)
    }

    /// The operator gives a command. Where there is no session that lasts, it changes nothing.
    #[tactic(auto, unfolding(crate::specs::Hearing::configured))]
    pub fn command(&mut self, command: Command) -> Act
        ensures hears { RespondsTo self.old self.new (Commanded command) result }
        ensures over { Whenever self.old (λ settings items.
            is_live (state_of settings items) ≡ false → self.new ≡ self.old) }
        ensures brief { SaysBriefly result }
        ensures configured { configured self.new ≡ configured self.old }
    {
        self.obey(command)
    }

    /// The connection is lost. The greatest moment stays, and nothing else of what was heard counts.
    #[tactic(auto, using(crate::proofs::Phases::idle_heard, crate::proofs::Updates::left_forgets), unfolding(crate::specs::Hearing::HasHeard, crate::specs::Hearing::configured))]
    pub fn lost(&mut self)
        ensures heard { Whenever self.old (λ settings items. HasHeard self.new settings (Left ∷ items)) }
        ensures forgotten { Forgets self.old self.new }
        ensures configured { configured self.new ≡ configured self.old }
        ensures idle { Whenever self.old (λ settings items.
            state_of settings items ≡ State.Idle → self.new ≡ self.old) }
    {
        self.phase = Phase::Idle;
    }

    /// The state.
    #[tactic(auto, using(crate::proofs::Phases::state_heard))]
    pub fn state(&self) -> State
        ensures { Shows self.now state_of result }
    {
        match self.phase {
            Phase::Idle => State::Idle,
            Phase::OpenSent { .. } => State::OpenSent,
            Phase::Agreed(peer) if peer.confirmed => State::Established,
            Phase::Agreed(_) => State::OpenConfirm,
            Phase::Closing => State::Closing,
        }
    }

    /// How many octets AS numbers have, by the OPEN that was accepted; None while none is.
    #[tactic(auto, using(crate::proofs::Phases::established_heard))]
    pub fn mode(&self) -> Option<Mode>
        ensures mode { Shows self.now agreed_mode result }
        ensures established { Whenever self.now (λ settings items.
            state_of settings items ≡ State.Established → IsSome result) }
    {
        match self.agreed() {
            Some(Open { four: Some(_), .. }) => Some(Mode::Four),
            Some(Open { four: None, .. }) => Some(Mode::Two),
            None => None,
        }
    }

    /// The BGP Identifier of the OPEN that was accepted; 0, which no such OPEN has, while none is.
    pub fn identifier(&self) -> u32
        ensures { Shows self.now agreed_identifier result }
    {
        match self.agreed() {
            Some(sent) => sent.identifier,
            None => 0,
        }
    }

    /// How long a message to the client may be.
    #[tactic(auto, using(crate::proofs::Phases::settings_heard), unfolding(crate::specs::Hearing::configured))]
    pub fn limit(&self) -> Limit
        ensures limit { Shows self.now agreed_limit result }
        ensures extended { result ≡ Limit.Long → (configured self.now).extended ≡ true }
    {
        match self.agreed() {
            Some(sent) => {
                if self.settings.extended && sent.long {
                    Limit::Long
                } else {
                    Limit::Short
                }
            }
            None => Limit::Short,
        }
    }

    /// The Hold Time used, in seconds (RFC 4271, 4.2), by the OPEN that was accepted; None while none
    /// is, and 0 where there is no hold timer.
    #[tactic(auto, using(crate::proofs::Phases::settings_heard), unfolding(crate::specs::Hearing::configured))]
    pub fn hold(&self) -> Option<u16>
        ensures { Shows self.now agreed_hold result }
    {
        match self.agreed() {
            Some(sent) => Some(self.settings.hold.min(sent.hold)),
            None => None,
        }
    }

    /// The greatest moment that doesn't end the session, should it be seen next (RFC 4271, 6.5);
    /// `u64::MAX` where none does.
    #[tactic(auto, using(crate::proofs::Quiet::quiet_heard, crate::proofs::Quiet::ending_heard))]
    pub fn quiet_until(&self) -> u64
        ensures quiet { Whenever self.now (λ settings items. (t : ℕ) → t ≤ result → ends_at settings items t ≡ false) }
        ensures greatest { Whenever self.now (λ settings items. (t : ℕ) → result < t → t ≤ 18446744073709551615 → ends_at settings items t ≡ true) }
    {
        match self.phase {
            Phase::Idle | Phase::Closing => u64::MAX,
            Phase::OpenSent { since } => quiet_for(OPEN_WAIT, since),
            Phase::Agreed(peer) => quiet_for(
                self.settings.hold.min(peer.sent.hold),
                peer.hold_timer_since,
            ),
        }
    }

    /// The OPEN that was accepted, while the session lasts.
    #[tactic(auto, using(crate::proofs::Phases::agreed_heard))]
    fn agreed(&self) -> Option<Open>
        ensures { Shows self.now agreed_of result }
    {
        match self.phase {
            Phase::Agreed(peer) => Some(peer.sent),
            Phase::Idle | Phase::OpenSent { .. } | Phase::Closing => None,
        }
    }

    /// What a message makes of the phase, and the answer.
    fn hear(&mut self, heard: Heard) -> Act
        ensures phase { (self.new.phase, result)
            ≡ message_step self.old.phase self.old.settings.peer_as self.old.latest heard }
        ensures latest { self.new.latest ≡ self.old.latest }
        ensures settings { self.new.settings ≡ self.old.settings }
    {
        let (phase, act) = match self.phase {
            Phase::Idle | Phase::Closing => (self.phase, Act::None),
            Phase::OpenSent { .. } => first(self.settings.peer_as, self.latest, heard),
            Phase::Agreed(peer) if peer.confirmed => later(peer, self.latest, heard),
            Phase::Agreed(peer) => second(peer, self.latest, heard),
        };
        self.phase = phase;
        act
    }

    /// What a moment makes of the phase, and the answer.
    fn see(&mut self, t: u64) -> Act
        ensures phase { (self.new.phase, result)
            ≡ moment_step self.old.phase self.old.settings.hold self.new.latest }
        ensures latest { self.new.latest ≡ max self.old.latest t }
        ensures settings { self.new.settings ≡ self.old.settings }
    {
        self.latest = self.latest.max(t);
        let (phase, act) = match self.phase {
            Phase::Idle | Phase::Closing => (self.phase, Act::None),
            Phase::OpenSent { since } => waited(since, self.latest),
            Phase::Agreed(peer) => ticked(
                self.settings.hold.min(peer.sent.hold),
                peer,
                self.latest,
            ),
        };
        self.phase = phase;
        act
    }

    /// What a command makes of the phase, and the answer.
    fn obey(&mut self, command: Command) -> Act
        ensures phase { (self.new.phase, result) ≡ command_step self.old.phase command }
        ensures latest { self.new.latest ≡ self.old.latest }
        ensures settings { self.new.settings ≡ self.old.settings }
    {
        let (phase, act) = match self.phase {
            Phase::Idle | Phase::Closing => (self.phase, Act::None),
            Phase::OpenSent { .. } => commanded(self.phase, false, command),
            Phase::Agreed(peer) => commanded(self.phase, peer.confirmed, command),
        };
        self.phase = phase;
        act
    }
}
