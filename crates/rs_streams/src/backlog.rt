//! The octets of lines that a stream has not taken yet.

ghost use Rattle.std.specs.Prelude.{◌≡◌, ◌<◌, ◌≤◌, ◌+◌, ◌++◌, [], length, drop, IfOk, IsTrue, IsFalse};

use std::alloc::{AllocError, Global};
use std::marker::Model;

/// The room of a backlog, in octets.
pub const ROOM: usize = 65_536;

/// Octets that wait, at most `ROOM`, for which the memory was taken at the start.
#[derive(Drop)]
pub struct Backlog {
    octets: Vec<u8>,
}

impl Model for Backlog {
    ghost use Rattle.std.specs.Prelude.{ℕ, List, ◌≤◌, length, vec_capacity};

    ghost Value = { List ℕ };

    ghost view = { λ b. b.octets.items };

    ghost invariant = { λ b. (length b.octets.items ≤ 65536) × (65536 ≤ vec_capacity b.octets) };
}

impl Backlog {
    /// An empty backlog.
    pub fn new(alloc: Global) -> Result<Backlog, AllocError>
        ensures { IfOk result (λ b. b ≡ []) }
    {
        Ok(Backlog {
            octets: Vec::with_capacity(alloc, ROOM)?,
        })
    }

    /// For how many octets there is room.
    pub fn room(&self) -> usize
        ensures { result + length self.now ≡ 65536 }
    {
        ROOM - self.octets.len()
    }

    /// Puts in the octets, all or none, and answers whether there was room.
    pub fn put(&mut self, octets: &[u8]) -> bool
        ensures whole { IsTrue result → self.new ≡ self.old ++ octets.now }
        ensures fits { length self.old + length octets.now ≤ 65536 → self.new ≡ self.old ++ octets.now }
        ensures none { IsFalse result → self.new ≡ self.old }
        ensures room { IsFalse result → 65536 < length self.old + length octets.now }
    {
        if octets.len() > self.room() {
            return false;
        }
        self.octets.extend_from_slice(octets).is_ok()
    }

    /// The octets that wait.
    pub fn waiting(&self) -> &[u8]
        ensures { result.now ≡ self.now }
    {
        self.octets.as_slice()
    }

    /// So many of the octets wait no longer.
    pub fn took(&mut self, count: usize)
        ensures { self.new ≡ drop count self.old }
    {
        let count = count.min(self.octets.len());
        self.octets.drain(..count);
    }

    /// Nothing waits.
    pub fn is_empty(&self) -> bool
        ensures { IsTrue result → self.now ≡ [] }
    {
        self.octets.is_empty()
    }
}
