//! The numbers of the prefixes that one client holds, as bits.
#![tactic(auto, unfolding(crate::specs::Held::has_number))]

ghost use Rattle.std.specs.Prelude.{◌≡◌, ◌≤◌, ◌<◌, ◌/◌, ◌+◌, ℕ, true, false, Some, None, length, IfSome, OnOk, OnErr};
ghost use Rattle.std.specs.Int.{bit_at};

use crate::room::make_room;
use std::alloc::{AllocError, Global};

/// A set of numbers: where bit n % 64 of word n / 64 is set, it has n.
#[derive(Drop)]
pub(crate) struct Held {
    words: Vec<u64>,
    count: usize,
    ghost short: { length words.items ≤ 67108864 },
}

/// The least bit of a word that is set, from one on.
fn lowest_from(word: u64, first: u32) -> Option<u32>
    requires { first < 64 }
    ensures found { IfSome result (λ bit. (first ≤ bit) × (bit < 64) × (bit_at word bit ≡ 1) × ((i : ℕ) → first ≤ i → i < bit → bit_at word i ≡ 0)) }
    ensures none { result ≡ None → (i : ℕ) → first ≤ i → i < 64 → bit_at word i ≡ 0 }
{
    let rest = word >> first;
    if rest == 0 {
        return None;
    }
    Some(first + rest.trailing_zeros())
}

impl Held {
    ghost use Rattle.rs_adjin.specs.Held.{has_number, Marks, SameSet, IsNext};

    /// The empty set.
    pub(crate) fn new(alloc: Global) -> Held
        ensures none { (n : ℕ) → has_number result n ≡ false }
        ensures count { result.count ≡ 0 }
    {
        Held {
            words: Vec::new(alloc),
            count: 0,
        }
    }

    pub(crate) fn has(&self, number: u32) -> bool
        ensures { result ≡ has_number self.now number }
    {
        match self.words.get(number as usize / 64) {
            Some(word) => (word >> (number % 64)) & 1 == 1,
            None => false,
        }
    }

    /// How many numbers there are.
    pub(crate) fn count(&self) -> usize
        ensures { result ≡ self.now.count }
    {
        self.count
    }

    /// There is a word for a number.
    fn grow(&mut self, number: u32) -> Result<(), AllocError>
        ensures same { SameSet self.old self.new }
        ensures room { OnOk result (number / 64 < length self.new.words.items) }
    {
        let wanted = number as usize / 64 + 1;
        if wanted <= self.words.len() {
            return Ok(());
        }
        make_room(&mut self.words, wanted)?;
        self.words.resize(wanted, 0)
    }

    /// Adds a number.
    pub(crate) fn add(&mut self, number: u32) -> Result<(), AllocError>
        requires { has_number self.old number ≡ false }
        ensures ok { OnOk result (Marks self.old self.new number true) }
        ensures err { OnErr result (SameSet self.old self.new) }
    {
        let Some(count) = self.count.checked_add(1) else {
            return Err(AllocError);
        };
        self.grow(number)?;
        self.words[number as usize / 64] |= 1u64 << (number % 64);
        self.count = count;
        Ok(())
    }

    /// Takes a number out.
    pub(crate) fn remove(&mut self, number: u32)
        requires there { has_number self.old number ≡ true }
        requires count { 0 < self.old.count }
        ensures { Marks self.old self.new number false }
    {
        self.words[number as usize / 64] &= !(1u64 << (number % 64));
        self.count -= 1;
    }

    /// Takes all numbers out.
    pub(crate) fn clear(&mut self)
        ensures none { (n : ℕ) → has_number self.new n ≡ false }
        ensures count { self.new.count ≡ 0 }
    {
        self.words.clear();
        self.count = 0;
    }

    /// The least number from one on.
    pub(crate) fn first_from(&self, first: usize) -> Option<u32>
        ensures found { IfSome result (IsNext self.now first) }
        ensures none { result ≡ None → (m : ℕ) → first ≤ m → has_number self.now m ≡ false }
    {
        let mut bit = (first % 64) as u32;
        for place in first / 64..self.words.len() {
            if let Some(found) = lowest_from(self.words[place], bit) {
                return Some(place as u32 * 64 + found);
            }
            bit = 0;
        }
        None
    }
}
