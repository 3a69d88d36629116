//! What the link notes of each client between two rounds, and shows an operator.

ghost use Rattle.std.specs.Prelude.{◌≡◌, ◌<◌, ◌∷◌, true, false, List, Some, None, slice_get, IfSome};
ghost use Rattle.rs_live.specs.Calls.{Call, Logged};
ghost use Rattle.rs_live.specs.Handled.{Keeps};
ghost use Rattle.rs_live.specs.Leaving.{LeavesClients, LeavesPorts};
ghost use Rattle.rs_reports.specs.Levels.{level_of};

use crate::live_link::{LiveLink, WIDE};
use crate::ports::Ports;
use rs_reports::offers::Offered;
use rs_reports::reports::Report;
use std::mem;

impl<'a, P: Ports> LiveLink<'a, P> {
    /// The address of the first stranger since the last call, and how many there were.
    pub fn take_strangers(&mut self) -> Option<(u32, u64)>
        ensures { LeavesPorts self.old self.new }
    {
        self.strangers.take()
    }

    /// Whether a session of the client has ended since the last call.
    pub fn take_ended(&mut self, c: usize) -> bool
        ensures { LeavesPorts self.old self.new }
    {
        match self.connections.get_mut(c) {
            Some(own) => mem::replace(&mut own.has_ended, false),
            None => false,
        }
    }

    /// What the OPEN of a client's last connection offered, where that came in one piece.
    pub fn offered(&self, c: usize) -> Option<Offered>
        ensures { IfSome (slice_get self.entry.now.connections.now.items c) (λ own. result ≡ own.offered) }
    {
        self.connections.get(c)?.offered
    }

    /// The address of a client, and how many connections beside its own were closed since the last call;
    /// `None` where there were none.
    pub fn take_busy(&mut self, c: usize) -> Option<(u32, u64)>
        ensures leaves { LeavesPorts self.old self.new }
        ensures none { IfSome (slice_get self.old.connections.now.items c) (λ own. own.busy ≡ 0 → result ≡ None) }
        ensures some { IfSome (slice_get self.old.connections.now.items c) (λ own. 0 < own.busy → result ≡ Some (own.peer, own.busy)) }
    {
        match self.connections.get_mut(c) {
            Some(own) => own.take_busy(),
            None => None,
        }
    }

    /// Whether an operator is shown such a report.
    pub(crate) fn shows(&self, report: &Report) -> bool
        ensures { result ≡ P.shown self.entry.now.ports.now (level_of report.now) }
    {
        self.ports.shows(report.level())
    }

    /// Shows an operator a report, where its level was asked for.
    pub fn log(&mut self, report: &Report)
        ensures leaves { LeavesClients self.old self.new }
        ensures shown { P.shown self.old.ports.now (level_of report.now) ≡ true → (calls : List Call) → P.asked self.old.ports.now calls → P.asked self.new.ports.now (Logged report.now ∷ calls) }
        ensures hidden { P.shown self.old.ports.now (level_of report.now) ≡ false → self.new.ports.now ≡ self.old.ports.now }
        ensures handled { Keeps P.asked self.old → Keeps P.asked self.new }
    {
        if self.shows(report) {
            self.ports.log(report);
        }
    }

    /// A session of a client has ended.
    pub(crate) fn note_end(&mut self, c: usize)
        ensures { LeavesPorts self.old self.new }
    {
        self.ended = self.ended.saturating_add(1);
        self.wide_to = self.phase.told.saturating_add(WIDE);
        if let Some(own) = self.connections.get_mut(c) {
            own.end(self.phase.told);
        }
    }

    /// A connection beside the client's own is closed.
    pub(crate) fn note_busy(&mut self, c: usize)
        ensures { LeavesPorts self.old self.new }
    {
        if let Some(own) = self.connections.get_mut(c) {
            own.busy = own.busy.saturating_add(1);
        }
    }

    /// Its address, and how many of its connections were closed since the last call as it is kept down; `None`
    /// where there were none.
    pub fn take_kept_out(&mut self, c: usize) -> Option<(u32, u64)>
        ensures leaves { LeavesPorts self.old self.new }
        ensures none { IfSome (slice_get self.old.connections.now.items c) (λ own. own.kept_out ≡ 0 → result ≡ None) }
        ensures some { IfSome (slice_get self.old.connections.now.items c) (λ own. 0 < own.kept_out → result ≡ Some (own.peer, own.kept_out)) }
    {
        match self.connections.get_mut(c) {
            Some(own) => own.take_kept_out(),
            None => None,
        }
    }

    /// A connection of a client that is kept down is closed.
    pub(crate) fn note_kept_out(&mut self, c: usize)
        ensures { LeavesPorts self.old self.new }
    {
        if let Some(own) = self.connections.get_mut(c) {
            own.kept_out = own.kept_out.saturating_add(1);
        }
    }

    /// The last turn was refused memory for a client.
    pub(crate) fn note_refused(&mut self, c: usize)
        ensures { LeavesPorts self.old self.new }
    {
        if let Some(own) = self.connections.get_mut(c) {
            own.refuse(self.phase.told, self.turns);
        }
    }
}
