//! Rows by number, in blocks.

ghost use Rattle.std.specs.Prelude.{◌≡◌, ◌≢◌, ◌<◌, ◌≤◌, ◌+◌, ◌*◌, ◌/◌, ℕ, [], None, Some, length, nat_eq, option_map, slice_set, IfSome, OnOk};
ghost use Rattle.std.specs.Arc.{arc_value};
ghost use Rattle.rs_rows.specs.Cells.{taken_of};
ghost use Rattle.rs_rows.specs.Rows.{IsPrepared, row_at, shown, written_from};
ghost use Rattle.rs_rows.specs.Places.{lent_row};

use crate::block::{Block, ROWS};
use crate::part::Part;
use crate::place::Lent;
use crate::spread::Spread;
use crate::taken::Taken;
use rs_attrs::Attrs;
use rs_octets::Prefix;
use std::alloc::{AllocError, Global};
use std::marker::Model;
use std::sync::Arc;

/// How many blocks there are at most: as many as numbers of 32 bits have.
const MOST: usize = 268_435_456;

/// Whether the rows of two numbers lie in one block.
pub fn lie_together(number: u32, other: u32) -> bool
    ensures { result ≡ nat_eq (number / 16) (other / 16) }
{
    number as usize / ROWS == other as usize / ROWS
}

/// The rows of a Loc-RIB by number, in blocks of 16 that clients share where they have the same rows.
#[derive(Drop)]
pub struct Blocks {
    alloc: Global,
    parts: Vec<Part>,
    /// The blocks that were prepared since they were shared last.
    prepared: Vec<u32>,
    /// How far apart the rows lie that were prepared of late.
    spread: Spread,
}

impl Model for Blocks {
    ghost use Rattle.std.specs.Prelude.{◌≤◌, length};
    ghost use Rattle.rs_rows.specs.Rows.{Listed};
    ghost use Rattle.rs_rows.specs.Blocks.{listed};

    ghost Value = { Listed };

    ghost view = { λ b. listed b.parts.items };

    ghost invariant = { λ b. length b.parts.items ≤ 268435456 };
}

impl Blocks {
    ghost use Rattle.rs_rows.specs.Blocks.{IsGrown};

    /// There are no rows.
    pub fn new(alloc: Global) -> Blocks
        ensures { result.items ≡ [] }
    {
        Blocks {
            alloc,
            parts: Vec::new(alloc),
            prepared: Vec::new(alloc),
            spread: Spread::none(),
        }
    }

    /// There are no rows, and all memory is given back.
    pub fn clear(&mut self)
        ensures { self.new.items ≡ [] }
    {
        *self = Blocks::new(self.alloc);
    }

    /// How many rows there are.
    pub fn count(&self) -> usize
        ensures rows { result ≡ length self.now.items }
        ensures most { result ≤ 4294967296 }
    {
        self.parts.len() * ROWS
    }

    /// The row of a number, where it has a route.
    #[inline(always)]
    pub fn at(&self, number: usize) -> Option<Lent<'_>>
        ensures { option_map lent_row result ≡ row_at self.now.items number }
    {
        match self.parts.get(number / ROWS) {
            None => None,
            Some(part) => part.at(number % ROWS),
        }
    }

    /// The attributes of the row of a number, where it has a route.
    #[inline(always)]
    pub fn attrs(&self, number: usize) -> Option<&Arc<Attrs>>
        ensures { option_map (λ attrs. arc_value attrs.now) result ≡ shown (row_at self.now.items number) }
    {
        match self.parts.get(number / ROWS) {
            None => None,
            Some(part) => part.attrs(number % ROWS),
        }
    }

    /// How many blocks there are.
    pub fn places(&self) -> usize {
        self.parts.len()
    }

    /// The block at a place, if others may have it too.
    pub fn shared(&self, place: usize) -> Option<&Arc<Block>>
        ensures { IfSome result (λ block. (i : ℕ) → i < 16 → row_at (arc_value block.now).rows.items i ≡ row_at self.now.items (place * 16 + i)) }
    {
        self.parts.get(place)?.shared()
    }

    /// There is a row for each of the first numbers. It is refused where 32 bits don't count them.
    pub fn grow(&mut self, count: usize) -> Result<(), AllocError>
        ensures grown { IsGrown self.old.items self.new.items }
        ensures room { OnOk result (count ≤ length self.new.items) }
    {
        let wanted = count.div_ceil(ROWS);
        if wanted > MOST {
            return Err(AllocError);
        }
        let more = wanted.saturating_sub(self.parts.len());
        self.parts.reserve(more)?;
        for _ in 0..more {
            self.parts.push_reserved(Part::Free);
        }
        Ok(())
    }

    /// The row of a number can be written: its block is this client's own. Where `most` rows of the block are to be
    /// written, what is taken out of them is taken as shares of the block that was.
    pub fn prepare(&mut self, number: u32, most: bool) -> Result<(), AllocError>
        requires { number < length self.old.items }
        ensures rows { self.new.items ≡ self.old.items }
        ensures prepared { OnOk result (IsPrepared self.new.prepared number) }
        ensures kept { (n : ℕ) → IsPrepared self.old.prepared n → IsPrepared self.new.prepared n }
    {
        let place = number as usize / ROWS;
        self.spread.note(place);
        if self.parts[place].can_be_written() {
            return Ok(());
        }
        self.prepared.reserve(1)?;
        self.parts[place].open(self.alloc, most)?;
        self.prepared.push_reserved(place as u32);
        Ok(())
    }

    /// Takes the route out of the row of a number.
    pub fn take(&mut self, number: u32) -> Taken
        requires { IsPrepared self.old.prepared number }
        ensures rows { self.new.items ≡ slice_set self.old.items number None }
        ensures prepared { self.new.prepared ≡ self.old.prepared }
        ensures was { taken_of result ≡ shown (row_at self.old.items number) }
    {
        self.parts[number as usize / ROWS].take(number as usize % ROWS)
    }

    /// Puts a route into the row of a number.
    pub fn put(&mut self, number: u32, prefix: Prefix, attrs: Arc<Attrs>)
        requires { IsPrepared self.old.prepared number }
        ensures rows { self.new.items ≡ slice_set self.old.items number (Some (record { prefix = prefix; attributes = arc_value attrs })) }
        ensures prepared { self.new.prepared ≡ self.old.prepared }
    {
        self.parts[number as usize / ROWS].put(number as usize % ROWS, prefix, attrs);
    }

    /// A block that others may have too stands for the rows of its place.
    pub fn put_block(&mut self, place: u32, block: Arc<Block>)
        requires { place * 16 + 15 < length self.old.items }
        ensures rows { self.new.items ≡ written_from (place * 16) (arc_value block).rows.items self.old.items }
        ensures kept { (n : ℕ) → n / 16 ≢ place → IsPrepared self.old.prepared n → IsPrepared self.new.prepared n }
    {
        self.parts[place as usize] = Part::Shared(block);
    }

    /// Whether what was prepared since this was asked last is better shared later: its rows lie far apart, so that the same
    /// blocks may be written soon again.
    pub fn puts_off(&mut self) -> bool
        ensures { self.new.items ≡ self.old.items }
    {
        let is_wide = self.spread.is_wide();
        self.spread = Spread::none();
        is_wide
    }

    /// Where another client has the rows of a block that was prepared, its block takes this one's place.
    pub fn adopt(&mut self, other: &Blocks)
        ensures { self.new.items ≡ self.old.items }
    {
        for index in 0..self.prepared.len() {
            if let Some(place) = self.prepared.get(index).copied() {
                self.adopt_at(place as usize, other);
            }
        }
    }

    fn adopt_at(&mut self, place: usize, other: &Blocks)
        ensures { self.new.items ≡ self.old.items }
    {
        let Some(theirs) = other.parts.get(place) else {
            return;
        };
        if place < self.parts.len() {
            self.parts[place].adopt(theirs);
        }
    }

    /// Blocks that were prepared can be shared with other clients.
    pub fn settle(&mut self)
        ensures { self.new.items ≡ self.old.items }
    {
        for index in 0..self.prepared.len() {
            if let Some(place) = self.prepared.get(index).copied() {
                self.settle_at(place as usize);
            }
        }
        self.prepared.clear();
    }

    fn settle_at(&mut self, place: usize)
        ensures { self.new.items ≡ self.old.items }
    {
        if place < self.parts.len() {
            self.parts[place].settle(self.alloc);
        }
    }
}
