//! What the link tells its ports of what happens, so that they can count it.

ghost use Rattle.std.specs.Prelude.{List};
ghost use Rattle.rs_live.specs.Calls.{Call};
ghost use Rattle.rs_live.specs.Leaving.{LeavesClients};

use crate::live_link::{LiveLink, Stage};
use crate::ports::{Observed, Ports};
use rs_core::Event;

impl<'a, P: Ports> LiveLink<'a, P> {
    /// Tells the ports what happens.
    pub(crate) fn observe(&mut self, what: Observed<'_>)
        ensures leaves { LeavesClients self.old self.new }
        ensures asked { (calls : List Call) → P.asked self.old.ports.now calls → P.asked self.new.ports.now calls }
    {
        self.ports.observe(what);
    }

    /// Tells them of an event that the core is given, with what stands in the piece.
    pub(crate) fn observe_event(&mut self, event: Event, piece: &[u8; 4096])
        ensures leaves { LeavesClients self.old self.new }
        ensures asked { (calls : List Call) → P.asked self.old.ports.now calls → P.asked self.new.ports.now calls }
    {
        match event {
            Event::Octets(c, count) if count <= piece.len() => {
                self.observe(Observed::Heard(c, &piece[..count]));
            }
            Event::Turn => self.observe(Observed::TurnBegins),
            _ => {}
        }
    }

    /// Tells them that a turn is over, where it was the last event: then room is given from the first client on.
    pub(crate) fn observe_turn(&mut self)
        ensures leaves { LeavesClients self.old self.new }
        ensures asked { (calls : List Call) → P.asked self.old.ports.now calls → P.asked self.new.ports.now calls }
    {
        if matches!(self.phase.stage, Stage::Room(0)) {
            self.observe(Observed::TurnEnds);
        }
    }
}
