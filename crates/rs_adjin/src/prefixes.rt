//! Prefixes with their numbers, one after the other.

ghost use Rattle.std.specs.Prelude.{◌≡◌, ◌<◌, ◌-◌, ℕ, true, length, IsSome};
ghost use Rattle.std.specs.Iterator.{YieldsFirst, item_count};
ghost use Rattle.std.specs.List.{filter};
ghost use Rattle.rs_adjin.specs.Numbers.{prefix_of_in};
ghost use Rattle.rs_adjin.specs.Held.{has_number};
ghost use Rattle.rs_adjin.specs.Listing.{numbered_from};
ghost use Rattle.rs_adjin.specs.Table.{held_prefix};

use crate::held::Held;
use crate::numbers::Numbered;
use crate::rising_prefixes::RisingPrefixes;
use rs_octets::Prefix;
use std::marker::Model;

/// The prefixes with a number that are left, by rising prefix.
#[derive(Drop)]
pub struct NumberedPrefixes<'a> {
    numbers: RisingPrefixes<'a>,
}

impl<'a> Model for NumberedPrefixes<'a> {
    ghost use Rattle.std.specs.Prelude.{ℕ, List};
    ghost use Rattle.rs_octets.specs.Prefixes.{Prefix};

    ghost Value = { List (Prefix × ℕ) };

    ghost view = { λ it. it.numbers };
}

impl<'a> NumberedPrefixes<'a> {
    pub(crate) fn new(numbers: RisingPrefixes<'a>) -> NumberedPrefixes<'a>
        ensures { result ≡ numbers.entry }
    {
        NumberedPrefixes { numbers }
    }
}

impl<'a> Iterator for NumberedPrefixes<'a> {
    type Item = (Prefix, u32);

    ghost next_gives = { YieldsFirst (λ left. left) };

    ghost remaining = { item_count (λ left. left) };

    fn next(&mut self) -> Option<(Prefix, u32)> {
        self.numbers.next()
    }
}

/// The prefixes that a client holds and that are left, by rising prefix.
#[derive(Drop)]
pub struct HeldPrefixes<'a> {
    numbers: RisingPrefixes<'a>,
    held: &'a Held,
}

impl<'a> Model for HeldPrefixes<'a> {
    ghost use Rattle.std.specs.Prelude.{ℕ, List};
    ghost use Rattle.std.specs.List.{filter};
    ghost use Rattle.rs_octets.specs.Prefixes.{Prefix};
    ghost use Rattle.rs_adjin.specs.Held.{has_number};

    ghost Value = { List (Prefix × ℕ) };

    ghost view = { λ it. filter (λ e. has_number it.held.now e.1) it.numbers };
}

impl<'a> HeldPrefixes<'a> {
    pub(crate) fn new(numbers: RisingPrefixes<'a>, held: &'a Held) -> HeldPrefixes<'a>
        ensures { result ≡ filter (λ e. has_number held.now e.1) numbers.entry }
    {
        HeldPrefixes { numbers, held }
    }
}

impl<'a> Iterator for HeldPrefixes<'a> {
    type Item = (Prefix, u32);

    ghost next_gives = { YieldsFirst (λ left. left) };

    ghost remaining = { item_count (λ left. left) };

    fn next(&mut self) -> Option<(Prefix, u32)> {
        while let Some((prefix, number)) = self.numbers.next() {
            if self.held.has(number) {
                return Some((prefix, number));
            }
        }
        None
    }
}

/// The prefixes that a client holds and that are left, by rising number.
#[derive(Drop)]
pub struct HeldByNumber<'a> {
    table: &'a Numbered,
    held: &'a Held,
    first: usize,
}

impl<'a> Model for HeldByNumber<'a> {
    ghost use Rattle.std.specs.Prelude.{◌≡◌, ◌-◌, ℕ, List, true, length, IsSome};
    ghost use Rattle.rs_octets.specs.Prefixes.{Prefix};
    ghost use Rattle.rs_adjin.specs.Numbers.{prefix_of_in};
    ghost use Rattle.rs_adjin.specs.Held.{has_number};
    ghost use Rattle.rs_adjin.specs.Listing.{numbered_from};
    ghost use Rattle.rs_adjin.specs.Table.{held_prefix};

    ghost Value = { List (Prefix × ℕ) };

    ghost view = { λ it. numbered_from (held_prefix it.table.now it.held.now) it.first (length it.table.now.rows.items - it.first) };

    ghost invariant = { λ it. (n : ℕ) → has_number it.held.now n ≡ true → IsSome (prefix_of_in it.table.now n) };
}

impl<'a> HeldByNumber<'a> {
    pub(crate) fn new(table: &'a Numbered, held: &'a Held) -> HeldByNumber<'a>
        requires { (n : ℕ) → has_number held.now n ≡ true → IsSome (prefix_of_in table.now n) }
        ensures { result ≡ numbered_from (held_prefix table.now held.now) 0 (length table.now.rows.items) }
    {
        HeldByNumber {
            table,
            held,
            first: 0,
        }
    }
}

impl<'a> Iterator for HeldByNumber<'a> {
    type Item = (Prefix, u32);

    ghost next_gives = { YieldsFirst (λ left. left) };

    ghost remaining = { item_count (λ left. left) };

    fn next(&mut self) -> Option<(Prefix, u32)> {
        let number = self.held.first_from(self.first)?;
        let prefix = self.table.prefix(number)?;
        self.first = number as usize + 1;
        Some((prefix, number))
    }
}
