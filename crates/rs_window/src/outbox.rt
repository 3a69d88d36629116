//! The octets of answers that a visitor has not taken yet.

ghost use Rattle.std.specs.Prelude.{◌≡◌, ◌+◌, ◌≤◌, ◌++◌, [], length, drop, IfOk, IsTrue, ◌↔◌};

use std::alloc::{AllocError, Global};
use std::marker::Model;

/// The room of an outbox, in octets: for a piece in its chunk, or for the head of an answer.
pub const ROOM: usize = 34_816;

/// Octets that wait, at most `ROOM`, for which the memory was taken at the start.
#[derive(Drop)]
pub struct Outbox {
    octets: Vec<u8>,
}

impl Model for Outbox {
    ghost use Rattle.std.specs.Prelude.{ℕ, List, ◌≤◌, length, vec_capacity};

    ghost Value = { List ℕ };

    ghost view = { λ o. o.octets.items };

    ghost invariant = { λ o. (length o.octets.items ≤ 34816) × (34816 ≤ vec_capacity o.octets) };
}

impl Outbox {
    /// An empty outbox.
    pub fn new(alloc: Global) -> Result<Outbox, AllocError>
        ensures { IfOk result (λ o. o ≡ []) }
    {
        Ok(Outbox {
            octets: Vec::with_capacity(alloc, ROOM)?,
        })
    }

    /// Puts in the octets, all of them.
    pub fn put(&mut self, octets: &[u8])
        requires { length self.old + length octets.now ≤ 34816 }
        ensures { self.new ≡ self.old ++ octets.now }
    {
        let _ = self.octets.extend_from_slice(octets);
    }

    /// The octets that wait.
    pub fn waiting(&self) -> &[u8]
        ensures { result.now ≡ self.now }
    {
        self.octets.as_slice()
    }

    /// So many of the octets wait no longer.
    pub fn took(&mut self, count: usize)
        ensures { self.new ≡ drop count self.old }
    {
        let count = count.min(self.octets.len());
        self.octets.drain(..count);
    }

    /// Nothing waits.
    pub fn is_empty(&self) -> bool
        ensures { IsTrue result ↔ (self.now ≡ []) }
    {
        self.octets.is_empty()
    }
}
