//! At most one item given in a second: the last that came waits for the next second, and those before it
//! are left out and counted. So nobody can fill a disk by what he does.

ghost use Rattle.std.specs.Prelude.{◌≡◌, ◌≢◌, ◌↔◌, ◌+◌, ◌<◌, ◌-◌, ◌^◌, Some, None, IsSome, IsNone, IsTrue, IfSome};

use std::mem;

/// An item that is given now, and how many were left out since the last that was.
#[derive(Debug, Drop, PartialEq, Eq)]
pub struct Due<T> {
    pub left_out: u64,
    pub item: T,
}

/// When an item of someone was given last, and what waits to be given.
#[derive(Clone, Copy, Debug)]
pub struct RateLimit<T> {
    /// In which second an item was given last.
    second: Option<u64>,
    waits: Option<T>,
    left_out: u64,
}

impl<T: Copy> RateLimit<T> {
    /// Nothing was given yet, and nothing waits.
    pub fn new() -> RateLimit<T>
        ensures second { result.second ≡ None }
        ensures waits { result.waits ≡ None }
        ensures left_out { result.left_out ≡ 0 }
    {
        RateLimit {
            second: None,
            waits: None,
            left_out: 0,
        }
    }

    /// An item has come: it waits, and one that waited is left out.
    pub fn put(&mut self, item: T)
        ensures second { self.new.second ≡ self.old.second }
        ensures waits { self.new.waits ≡ Some item }
        ensures first { IsNone self.old.waits → self.new.left_out ≡ self.old.left_out }
        ensures further { IsSome self.old.waits → self.old.left_out < 2 ^ 64 - 1 → self.new.left_out ≡ self.old.left_out + 1 }
    {
        if self.waits.is_some() {
            self.left_out = self.left_out.saturating_add(1);
        }
        self.waits = Some(item);
    }

    /// No item was given in this second.
    pub fn is_free(&self, second: u64) -> bool
        ensures { IsTrue result ↔ self.now.second ≢ Some second }
    {
        self.second != Some(second)
    }

    /// The item that this second gives: the one that waits, unless one was given in it already.
    pub fn take(&mut self, second: u64) -> Option<Due<T>>
        ensures once { IsSome result → (self.old.second ≢ Some second) × (self.new.second ≡ Some second) }
        ensures waited { IfSome result (λ due. (self.old.waits ≡ Some due.item) × (due.left_out ≡ self.old.left_out)) }
        ensures emptied { IsSome result → (self.new.waits ≡ None) × (self.new.left_out ≡ 0) }
        ensures kept { IsNone result → self.new ≡ self.old }
        ensures due { self.old.second ≢ Some second → IsSome self.old.waits → IsSome result }
    {
        if !self.is_free(second) {
            return None;
        }
        let item = self.waits.take()?;
        self.second = Some(second);
        let left_out = mem::replace(&mut self.left_out, 0);
        Some(Due { left_out, item })
    }
}
