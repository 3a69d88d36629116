//! Octets of the record that its file has not taken yet.

ghost use Rattle.std.specs.Prelude.{◌≡◌, ◌++◌, [], length, drop, IsOk, IsErr, IsTrue};

use std::alloc::{AllocError, Global};
use std::marker::Model;

/// How many octets the queue keeps room for: a text of rules takes more for a while.
const KEPT: usize = 2_097_152;

/// Octets that wait, in the order in which they came.
#[derive(Drop)]
pub struct RecordQueue {
    octets: Vec<u8>,
    /// How many of them wait no longer.
    taken: usize,
}

impl Model for RecordQueue {
    ghost use Rattle.std.specs.Prelude.{ℕ, List, ◌≤◌, length, drop};

    ghost Value = { List ℕ };

    ghost view = { λ q. drop q.taken q.octets.items };

    ghost invariant = { λ q. q.taken ≤ length q.octets.items };
}

impl RecordQueue {
    /// Nothing waits yet.
    pub fn new(alloc: Global) -> RecordQueue
        ensures { result ≡ [] }
    {
        RecordQueue {
            octets: Vec::new(alloc),
            taken: 0,
        }
    }

    /// Puts in the octets, all of them, or none where memory is refused.
    pub fn put(&mut self, octets: &[u8]) -> Result<(), AllocError>
        ensures whole { IsOk result → self.new ≡ self.old ++ octets.now }
        ensures none { IsErr result → self.new ≡ self.old }
    {
        self.octets.extend_from_slice(octets)?;
        Ok(())
    }

    /// The octets that wait.
    pub fn waiting(&self) -> &[u8]
        ensures { result.now ≡ self.now }
    {
        self.octets.get(self.taken..).unwrap_or(&[])
    }

    /// So many of the octets wait no longer. They are moved up where at least half are such, so that each
    /// octet is moved a few times at most.
    pub fn took(&mut self, count: usize)
        ensures { self.new ≡ drop count self.old }
    {
        let taken = self.taken.saturating_add(count).min(self.octets.len());
        if taken >= self.octets.len() - taken {
            self.octets.drain(..taken);
            self.octets.shrink_to(KEPT);
            self.taken = 0;
        } else {
            self.taken = taken;
        }
    }

    /// How many octets wait.
    pub fn len(&self) -> usize
        ensures { result ≡ length self.now }
    {
        self.octets.len() - self.taken
    }

    /// Nothing waits any more.
    pub fn clear(&mut self)
        ensures { self.new ≡ [] }
    {
        self.octets.clear();
        self.taken = 0;
    }
}
