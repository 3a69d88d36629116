//! Where the lines of a record go.

ghost use Rattle.std.specs.Prelude.{◌≡◌, ℕ, Bool, List, false, []};
ghost use Rattle.rs_record.specs.Tapes.{Takes};

use std::alloc::Global;

/// Takes lines, and never waits. Once it is over it takes nothing more: so what it holds is a front of what
/// it was given, which ends where a call ended.
pub trait Tape {
    ghost holds: { Self → List ℕ };

    ghost is_over: { Self → Bool };

    /// Takes the octets of whole lines: all of them, or none, and is over.
    fn take(&mut self, lines: &[u8])
        ensures { Takes (is_over self.old) (holds self.old) lines.now (is_over self.new) (holds self.new) };
}

/// A tape in memory, from which lines are handed on.
#[derive(Drop)]
pub struct Reel {
    lines: Vec<u8>,
    most: usize,
    is_over: bool,
}

impl Reel {
    /// An empty tape, on which at most so many octets wait, or those of one call.
    pub fn new(alloc: Global, most: usize) -> Reel
        ensures empty { result.lines.items ≡ [] }
        ensures running { result.is_over ≡ false }
    {
        Reel {
            lines: Vec::new(alloc),
            most,
            is_over: false,
        }
    }

    /// The lines that wait, the oldest first.
    pub fn waiting(&self) -> &[u8]
        ensures { result.now ≡ self.now.lines.items }
    {
        self.lines.as_slice()
    }

    /// All lines that waited were handed on.
    pub fn clear(&mut self)
        ensures empty { self.new.lines.items ≡ [] }
        ensures over { self.new.is_over ≡ self.old.is_over }
    {
        self.lines.clear();
        self.lines.shrink_to(self.most);
    }

    /// Lines came for which there was no room, or no memory.
    pub fn is_over(&self) -> bool
        ensures { result ≡ self.now.is_over }
    {
        self.is_over
    }

    /// There is room for so many octets more.
    fn has_room(&self, count: usize) -> bool {
        self.lines.is_empty() || self.lines.len().saturating_add(count) <= self.most
    }
}

impl Tape for Reel {
    ghost holds = { λ reel. reel.lines.items };

    ghost is_over = { λ reel. reel.is_over };

    fn take(&mut self, lines: &[u8]) {
        if self.is_over {
            return;
        }
        if !self.has_room(lines.len()) || self.lines.extend_from_slice(lines).is_err() {
            self.is_over = true;
        }
    }
}
