//! What lies between a route server and its clients: where events come from, and where octets go.

ghost use Rattle.std.specs.Prelude.{◌≡◌, ◌≤◌, ℕ, List, length, IfSome};
ghost use Rattle.rs_core.specs.Drives.Steps.{Step, octets_of, Happened, Begin, Busy, Offer, Memory, End, Replaced};

use rs_policy::RulesFault;
use rs_session::Command;

/// An event that comes from a source.
#[derive(Clone, Copy, Debug, PartialEq, Eq)]
pub enum Event {
    /// A connection of a client has come.
    Opened(usize),
    /// So many octets of a client have come.
    Octets(usize, usize),
    /// The moment, in seconds.
    Moment(u64),
    /// The operator commands this of a client's session.
    Commanded(usize, Command),
    /// What is touched is to be decided.
    Turn,
    /// The link of a client has room for so many octets. What is not used is not kept.
    Room(usize, u64),
    /// A connection of a client is lost.
    Lost(usize),
    /// Another text of rules has come.
    Rules,
    /// There are no more events.
    Stop,
}

/// What stands between a route server and its clients, by the steps that it takes.
pub trait Link {
    /// From one link by a step to the next. Where it always holds, nothing is known.
    ghost happens: { Self → Step → Self → Type 0 };
    /// The text of the rules that came last.
    ghost text: { Self → List ℕ };
}

/// Where events come from.
pub trait Source: Link {
    /// The next event; octets are laid at the front of the piece.
    fn next(&mut self, piece: &mut [u8; 4096]) -> Event
        ensures { Self.happens self.old (Happened result (octets_of result piece.new (Self.text self.new))) self.new };

    /// The text of the rules that came last.
    fn rules(&self) -> &[u8]
        ensures { result.now ≡ Self.text self.now };
}

/// Where octets go.
pub trait Sink: Link {
    /// A client's connection is taken.
    fn begin(&mut self, c: usize)
        ensures { Self.happens self.old (Begin c) self.new };

    /// A client's connection is refused, since it has one.
    fn busy(&mut self, c: usize)
        ensures { Self.happens self.old (Busy c) self.new };

    /// Takes a front of the octets and answers its length; `None` where the link failed.
    fn offer(&mut self, c: usize, octets: &[u8]) -> Option<usize>
        ensures front { IfSome result (λ n. n ≤ length octets.now) }
        ensures step { Self.happens self.old (Offer c octets.now result) self.new };

    /// Memory was refused for a client.
    fn memory(&mut self, c: usize)
        ensures { Self.happens self.old (Memory c) self.new };

    /// A client's connection is to be closed.
    fn end(&mut self, c: usize)
        ensures { Self.happens self.old (End c) self.new };

    /// The rules were replaced, or why they weren't.
    fn ruled(&mut self, answer: &Result<(), RulesFault>)
        ensures { Self.happens self.old (Replaced answer.now) self.new };
}
