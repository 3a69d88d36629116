//! Octets of a client, in any pieces, and moments: what its session hears.

ghost use Rattle.std.specs.Prelude.{◌≡◌, ◌<◌, ◌≤◌, ℕ, true, false, List, ◌∷◌, ◌++◌, Some, length, slice_get, IfOk, OnOk, OnErr};
ghost use Rattle.std.specs.Global.{Vec};

use crate::endings::{Ending, expiry_by};
use crate::route_server::Core;
use rs_octets::{Allowed, Front, read_front};
use rs_policy::Config;
use rs_session::Heard;
use std::alloc::AllocError;
use std::mem;

/// What a header from a client may say.
fn allowed(config: &Config) -> Allowed
    ensures { result ≡ allowed_in config.now }
{
    Allowed {
        long: config.extended(),
        refresh: config.refresh(),
    }
}

/// Fills a buffer up from the front of a piece, until there is no more of it or a message or a refused
/// header stands in the buffer. Answers what is left of the piece.
fn fill_up<'a>(
    buffer: &mut Vec<u8>,
    piece: &'a [u8],
    allowed: Allowed,
) -> Result<&'a [u8], AllocError>
    ensures { IfOk result (λ rest. FillsUp allowed buffer.old.items piece.now buffer.new.items rest.now) }
{
    let mut rest = piece;
    while !rest.is_empty() {
        let Front::Wants(wanted) = read_front(buffer, allowed) else {
            return Ok(rest);
        };
        let (front, behind) = rest.split_at(wanted.min(rest.len()));
        buffer.extend_from_slice(front)?;
        rest = behind;
    }
    Ok(rest)
}

ghost use Rattle.rs_core.specs.Session.Hearing.{allowed_in};
ghost use Rattle.rs_core.specs.Run.Parts.{FillsUp};

impl Core {
    ghost use Rattle.rs_core.specs.Core.{client_count};
    ghost use Rattle.rs_core.specs.Others.{KeepsOthers};
    ghost use Rattle.rs_core.specs.Run.Moves as moves;
    ghost use Rattle.rs_core.specs.Run.Moves.{Move, Saw, Dropped, config_in};
    ghost use Rattle.rs_core.specs.Session.Hearing.{Hearing, hears, sees, state_in};
    ghost use Rattle.rs_core.specs.Run.Meaning.{hearing};
    ghost use Rattle.rs_core.specs.Run.Agreeing.{Agrees, AgreesAt, IsCutShort, Knows, Spares, Waits};
    ghost use Rattle.rs_core.specs.Touched.Altering.{IsAlteredBy};
    ghost use Rattle.rs_core.specs.Ribs.{TouchesOthersAtChange, TouchesOthersJustWhere, TouchesOthersWithin, outlet_in};
    ghost use Rattle.rs_core.specs.Touched.ByRun.{IsChangedBy, MayBeChangedBy, TouchesChanges, TouchesItself, TouchesOthersBetween, TouchesOthersWhere};
    ghost use Rattle.rs_core.specs.Touched.Touches.{KeepsTouches};
    ghost use Rattle.rs_core.specs.Run.Parts.{HasHeardFront, IsBetween, KeepsOwnTouches};
    ghost use Rattle.rs_outlet.specs.Views.{View};
    ghost use Rattle.rs_session.specs.Sessions.{is_live};
    ghost use Rattle.rs_policy.specs.Configuration.{Configuration};

    /// Hears octets of a client. Where memory is refused, its connection counts as lost without them.
    /// Those of a client that is Idle or Closing change nothing.
    ///
    /// # Errors
    ///
    /// `AllocError` where memory was refused.
    pub fn octets(&mut self, c: usize, piece: &[u8]) -> Result<(), AllocError>
        requires { c < client_count self.old }
        ensures count { client_count self.new ≡ client_count self.old }
        ensures heard { OnOk result ((run : List Move) → Agrees self.old run → Agrees self.new (moves.Heard c piece.now ∷ run)) }
        ensures refused { OnErr result ((run : List Move) → Agrees self.old run → Agrees self.new (Dropped c piece.now ∷ run)) }
        ensures touched { OnOk result ((run : List Move) → Agrees self.old run → TouchesOthersWhere (IsAlteredBy (config_in run) c piece.now (hearing c run)) c run self.old self.new) }
        ensures dropped { OnErr result ((run : List Move) → Agrees self.old run → TouchesOthersBetween (IsChangedBy (Dropped c piece.now) run c) (MayBeChangedBy piece.now run c) c run self.old self.new) }
        ensures itself { OnOk result ((run : List Move) → Agrees self.old run → TouchesItself (moves.Heard c piece.now) c run self.old self.new) }
        ensures unheard { (run : List Move) → Agrees self.old run → is_live (state_in (config_in run) c (hearing c run)) ≡ false → (result ≡ Ok tt) × (self.new ≡ self.old) }
    {
        let mut watched = self.watched[c];
        match self.hear(c, piece) {
            Ok(()) => Ok(()),
            Err(refused) => {
                // What was found in these octets does not count.
                watched.end(Some(Ending::Memory));
                self.watched[c] = watched;
                self.forget(c);
                Err(refused)
            }
        }
    }

    /// Hears octets that follow those in the buffer.
    fn hear(&mut self, c: usize, piece: &[u8]) -> Result<(), AllocError>
        requires { c < client_count self.old }
        ensures spares { Spares c self.old self.new }
        ensures heard { OnOk result ((s : Configuration) (h : Hearing) → self.old.ribs.config ≡ s → AgreesAt self.old s c h → AgreesAt self.new s c (hears s c piece.now h)) }
        ensures refused { OnErr result ((s : Configuration) (h : Hearing) → self.old.ribs.config ≡ s → AgreesAt self.old s c h → IsCutShort self.new s c h) }
        ensures others_touched { OnOk result ((s : Configuration) (h : Hearing) → self.old.ribs.config ≡ s → AgreesAt self.old s c h → TouchesOthersJustWhere (IsAlteredBy s c piece.now h) c self.old.ribs self.new.ribs) }
        ensures cut { OnErr result ((s : Configuration) (h : Hearing) → self.old.ribs.config ≡ s → AgreesAt self.old s c h → TouchesOthersWithin (IsAlteredBy s c piece.now h) c self.old.ribs self.new.ribs) }
        ensures keeps { OnOk result ((s : Configuration) (h : Hearing) → self.old.ribs.config ≡ s → AgreesAt self.old s c h → (none : View) → KeepsTouches (outlet_in self.old.ribs c none) (outlet_in self.new.ribs c none)) }
        ensures unheard { (s : Configuration) (h : Hearing) → Knows self.old s c h → is_live (state_in s c h) ≡ false → (result ≡ Ok tt) × (self.new ≡ self.old) }
    {
        if !self.is_live(c) {
            return Ok(());
        }
        if self.buffers[c].is_empty() {
            return self.hear_piece(c, piece);
        }
        let mut buffer = self.take_buffer(c);
        let heard = self.hear_waiting(c, &mut buffer, piece);
        self.put_buffer(c, buffer);
        let rest = heard?;
        if rest.is_empty() {
            return Ok(());
        }
        self.hear_piece(c, rest)
    }

    /// Hears the message that begins in the buffer and goes on in a piece, if it is whole then.
    /// Answers what is left of the piece.
    fn hear_waiting<'a>(
        &mut self,
        c: usize,
        buffer: &mut Vec<u8>,
        piece: &'a [u8],
    ) -> Result<&'a [u8], AllocError>
        requires { c < client_count self.old }
        ensures spares { Spares c self.old self.new }
        ensures buffers { self.new.buffers ≡ self.old.buffers }
        ensures heard { IfOk result (λ rest. (s : Configuration) (h : Hearing) → self.old.ribs.config ≡ s → is_live (state_in s c h) ≡ true → Knows self.old s c h
            → Waits s c buffer.old.items h → HasHeardFront self.new s c h piece.now buffer.new.items rest.now) }
        ensures refused { OnErr result ((s : Configuration) (h : Hearing) → self.old.ribs.config ≡ s → is_live (state_in s c h) ≡ true → Knows self.old s c h
            → Waits s c buffer.old.items h → IsCutShort self.new s c h) }
        ensures cut { OnErr result ((s : Configuration) (h : Hearing) → self.old.ribs.config ≡ s → is_live (state_in s c h) ≡ true → Knows self.old s c h
            → Waits s c buffer.old.items h → TouchesOthersWithin (IsAlteredBy s c piece.now h) c self.old.ribs self.new.ribs) }
        ensures others_touched { TouchesOthersAtChange c self.old.ribs self.new.ribs }
        ensures keeps { KeepsOwnTouches c self.old self.new }
    {
        let allowed = allowed(&self.ribs.config);
        let rest = fill_up(buffer, piece, allowed)?;
        match read_front(buffer, allowed) {
            Front::Wants(_) => {}
            Front::Fault(fault) => {
                self.session_hears(c, Heard::Header(fault));
                buffer.clear();
            }
            Front::Message { kind, body, .. } => {
                self.hear_message(c, kind, body)?;
                buffer.clear();
            }
        }
        Ok(rest)
    }

    /// Hears the messages of a piece while the session lasts, each where it lies; what is no whole
    /// message waits.
    fn hear_piece(&mut self, c: usize, piece: &[u8]) -> Result<(), AllocError>
        requires { c < client_count self.old }
        ensures spares { Spares c self.old self.new }
        ensures heard { OnOk result ((s : Configuration) (h : Hearing) → self.old.ribs.config ≡ s → IsBetween self.old s c h → AgreesAt self.new s c (hears s c piece.now h)) }
        ensures refused { OnErr result ((s : Configuration) (h : Hearing) → self.old.ribs.config ≡ s → IsBetween self.old s c h → IsCutShort self.new s c h) }
        ensures others_touched { OnOk result ((s : Configuration) (h : Hearing) → self.old.ribs.config ≡ s → IsBetween self.old s c h → TouchesOthersJustWhere (IsAlteredBy s c piece.now h) c self.old.ribs self.new.ribs) }
        ensures cut { OnErr result ((s : Configuration) (h : Hearing) → self.old.ribs.config ≡ s → IsBetween self.old s c h → TouchesOthersWithin (IsAlteredBy s c piece.now h) c self.old.ribs self.new.ribs) }
        ensures keeps { OnOk result ((s : Configuration) (h : Hearing) → self.old.ribs.config ≡ s → IsBetween self.old s c h → (none : View) → KeepsTouches (outlet_in self.old.ribs c none) (outlet_in self.new.ribs c none)) }
    {
        let allowed = allowed(&self.ribs.config);
        let mut octets = piece;
        while !octets.is_empty() {
            if !self.is_live(c) {
                return Ok(());
            }
            match read_front(octets, allowed) {
                Front::Wants(_) => {
                    return self.wait(c, octets);
                }
                Front::Fault(fault) => {
                    self.session_hears(c, Heard::Header(fault));
                    return Ok(());
                }
                Front::Message { kind, body, rest } => {
                    self.hear_message(c, kind, body)?;
                    octets = rest;
                }
            }
        }
        Ok(())
    }

    /// Keeps octets that are no whole message yet.
    fn wait(&mut self, c: usize, octets: &[u8]) -> Result<(), AllocError>
        requires { c < client_count self.old }
        ensures count { client_count self.new ≡ client_count self.old }
        ensures sessions { self.new.sessions ≡ self.old.sessions }
        ensures ribs { self.new.ribs ≡ self.old.ribs }
        ensures watched { self.new.watched ≡ self.old.watched }
        ensures behind { OnOk result ((x y : Vec ℕ) → slice_get self.old.buffers.items c ≡ Some x → slice_get self.new.buffers.items c ≡ Some y → y.items ≡ x.items ++ octets.now) }
        ensures others { KeepsOthers c self.old.buffers.items self.new.buffers.items }
    {
        let buffer = &mut self.buffers[c];
        buffer.extend_from_slice(octets)
    }

    /// Takes the octets of a client that wait.
    fn take_buffer(&mut self, c: usize) -> Vec<u8>
        requires { c < client_count self.old }
        ensures count { client_count self.new ≡ client_count self.old }
        ensures sessions { self.new.sessions ≡ self.old.sessions }
        ensures ribs { self.new.ribs ≡ self.old.ribs }
        ensures watched { self.new.watched ≡ self.old.watched }
        ensures taken { slice_get self.old.buffers.items c ≡ Some result }
        ensures others { KeepsOthers c self.old.buffers.items self.new.buffers.items }
    {
        let none = Vec::new(self.alloc);
        let buffer = &mut self.buffers[c];
        mem::replace(buffer, none)
    }

    /// These octets of a client wait now.
    fn put_buffer(&mut self, c: usize, octets: Vec<u8>)
        requires { c < client_count self.old }
        ensures count { client_count self.new ≡ client_count self.old }
        ensures sessions { self.new.sessions ≡ self.old.sessions }
        ensures ribs { self.new.ribs ≡ self.old.ribs }
        ensures watched { self.new.watched ≡ self.old.watched }
        ensures put { (x : Vec ℕ) → slice_get self.new.buffers.items c ≡ Some x → x.items ≡ octets.items }
        ensures others { KeepsOthers c self.old.buffers.items self.new.buffers.items }
    {
        let buffer = &mut self.buffers[c];
        *buffer = octets;
    }

    /// A moment is seen, in seconds. One that is less than an earlier one counts as the greatest so
    /// far.
    pub fn moment(&mut self, t: u64)
        ensures count { client_count self.new ≡ client_count self.old }
        ensures saw { (run : List Move) → Agrees self.old run → Agrees self.new (Saw t ∷ run) }
        ensures touched { (run : List Move) → Agrees self.old run → TouchesChanges (Saw t) run self.old self.new }
    {
        for c in 0..self.count {
            self.see(c, t);
        }
    }

    /// One client's session sees a moment.
    fn see(&mut self, c: usize, t: u64)
        requires { c < client_count self.old }
        ensures spares { Spares c self.old self.new }
        ensures seen { (s : Configuration) (h : Hearing) → AgreesAt self.old s c h → AgreesAt self.new s c (sees s c t h) }
        ensures others_touched { TouchesOthersAtChange c self.old.ribs self.new.ribs }
        ensures keeps { KeepsOwnTouches c self.old self.new }
    {
        let act = self.sessions[c].moment(t);
        self.watched[c].end(expiry_by(act));
        self.act(c, act);
    }
}
