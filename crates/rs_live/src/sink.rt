//! What the core calls, as calls of the ports.

ghost use Rattle.std.specs.Prelude.{◌≡◌, ◌≤◌, ◌∷◌, Some, None, length, IsSome, IsNone};
ghost use Rattle.rs_core.specs.Drives.Steps.{Begin, Offer, End};
ghost use Rattle.rs_live.specs.declared.live_link.Phase.{Phase};
ghost use Rattle.rs_live.specs.declared.ports.Incoming.{Incoming};
ghost use Rattle.rs_live.specs.Operations.{Did};
ghost use Rattle.rs_live.specs.Handled.{Has, AreKept, Keeps, KeepsAfter};
ghost use Rattle.rs_live.specs.Keeping.{all_held, at, held_by, key_come};
ghost use Rattle.rs_live.specs.Leaving.{LeavesRound, SamePorts};

use crate::live_link::{LiveLink, Stage, WIDE};
use crate::ports::{Line, Observed, Ports};
use rs_core::Sink;
use rs_policy::RulesFault;

impl<'a, P: Ports> LiveLink<'a, P> {
    /// The key of the connection of this client that has come, to which the core answers now.
    fn take_come(&mut self, c: usize) -> Option<usize>
        ensures same_ports { SamePorts self.old self.new }
        ensures failed { self.new.has_failed ≡ self.old.has_failed }
        ensures unasked { self.new.ports.now ≡ self.old.ports.now }
        ensures held { all_held self.new ≡ all_held self.old }
        ensures come { result ≡ key_come c self.old.phase }
        ensures answered { IsSome result → self.new.phase ≡ at Stage.Accept self.old.phase }
        ensures same { IsNone result → self.new.phase ≡ self.old.phase }
    {
        let Stage::Come(d, incoming) = self.phase.stage else {
            return None;
        };
        if c != d {
            return None;
        }
        self.phase.stage = Stage::Accept;
        Some(incoming.key)
    }

    /// The connection with this key is the client's; one that is being closed still is closed now.
    fn take_on(&mut self, c: usize, key: usize)
        ensures leaves { LeavesRound self.old self.new }
        ensures begun { (incoming : Incoming) (phase : Phase) → incoming.key ≡ key → Has P.asked self.old.ports.now (AreKept (all_held self.old) (at (Stage.Come c incoming) phase)) → Has P.asked self.new.ports.now (λ operations. AreKept (all_held self.new) (at Stage.Accept phase) (Did (Begin c) ∷ operations)) }
    {
        if let Some(own) = self.connections.get_mut(c) {
            own.closing.close(self.ports);
            own.begin(key, self.phase.told);
        }
    }

    /// Hands octets to a client's connection, and answers how many there was room for.
    fn hand(&mut self, c: usize, octets: &[u8]) -> usize
        ensures leaves { LeavesRound self.old self.new }
        ensures count { result ≤ length octets.now }
        ensures kept { Keeps P.asked self.old → KeepsAfter P.asked (Offer c octets.now (Some result)) self.new }
    {
        let Some(own) = self.connections.get_mut(c) else {
            return 0;
        };
        if !own.live.is_open() {
            return 0;
        }
        own.offer(octets, self.phase.told)
    }

    /// The connection of a client goes where one that is being closed has its place; an earlier one
    /// there is closed now.
    fn retire(&mut self, c: usize)
        ensures leaves { LeavesRound self.old self.new }
        ensures ended { IsSome (held_by c (all_held self.old)).key → Keeps P.asked self.old → KeepsAfter P.asked (End c) self.new }
    {
        if let Some(own) = self.connections.get_mut(c) {
            own.closing.close(self.ports);
            own.retire(self.phase.told);
        }
    }

    /// The session of a client has ended: its connection, if there is one, is to be closed.
    fn end_session(&mut self, c: usize)
        ensures leaves { LeavesRound self.old self.new }
        ensures ended { Keeps P.asked self.old → KeepsAfter P.asked (End c) self.new }
    {
        let Some(_) = self.live_key(c) else {
            return;
        };
        self.note_end(c);
        self.retire(c);
    }
}

impl<'a, P: Ports> Sink for LiveLink<'a, P> {
    fn begin(&mut self, c: usize) {
        self.wide_to = self.phase.told.saturating_add(WIDE);
        self.print(Line::Begin(c));
        if let Some(key) = self.take_come(c) {
            self.take_on(c, key);
        }
    }

    fn busy(&mut self, c: usize) {
        self.print(Line::Busy(c));
        self.note_busy(c);
        if let Some(key) = self.take_come(c) {
            self.ports.close(key);
        }
    }

    fn offer(&mut self, c: usize, octets: &[u8]) -> Option<usize> {
        let count = self.hand(c, octets);
        self.observe(Observed::Sent(c, &octets[..count]));
        Some(count)
    }

    fn memory(&mut self, c: usize) {
        self.print(Line::Memory(c));
        self.note_refused(c);
    }

    fn end(&mut self, c: usize) {
        self.print(Line::Close(c));
        self.end_session(c);
    }

    fn ruled(&mut self, answer: &Result<(), RulesFault>) {
        self.report_rules(*answer);
    }
}
