//! The Loc-RIB of a client: a row for each number that the Adj-RIBs-In gave to a prefix.

ghost use Rattle.std.specs.Prelude.{◌≡◌, ◌≢◌, ◌≤◌, ◌<◌, ◌+◌, ◌*◌, ◌/◌, ℕ, [], Some, None, IfOk, OnOk, length, slice_set, option_map};
ghost use Rattle.std.specs.Arc.{arc_value};
ghost use Rattle.rs_rows.specs.Cells.{taken_of};
ghost use Rattle.rs_rows.specs.Places.{lent_row};
ghost use Rattle.rs_rows.specs.Rows.{IsPrepared, row_at, shown};
ghost use Rattle.rs_outlet.specs.Decided.News.{AreFree, written};
ghost use Rattle.rs_outlet.specs.Decided.Plans.{news_within};
ghost use Rattle.rs_outlet.specs.Inside.{attributes_at, loc_of, numbers_from};

use crate::filled::Whole;
use crate::table::Rows;
use rs_attrs::Attrs;
use rs_octets::Prefix;
use rs_rows::{Blocks, Lent, ROWS, Taken};
use std::alloc::{AllocError, Global};
use std::sync::Arc;

impl Rows {
    pub(crate) fn new(alloc: Global) -> Rows
        ensures rows { result.rows.items ≡ [] }
        ensures used { result.used ≡ 0 }
    {
        Rows {
            rows: Blocks::new(alloc),
            used: 0,
        }
    }

    /// There are no rows, and all memory is given back.
    pub(crate) fn clear(&mut self)
        ensures rows { self.new.rows.items ≡ [] }
        ensures used { self.new.used ≡ 0 }
    {
        self.rows.clear();
        self.used = 0;
    }

    /// How many rows have a route.
    pub(crate) fn used(&self) -> usize
        ensures { result ≡ self.now.used }
    {
        self.used
    }

    /// How many rows there are.
    pub(crate) fn count(&self) -> usize
        ensures rows { result ≡ length self.now.rows.items }
        ensures most { result ≤ 4294967296 }
    {
        self.rows.count()
    }

    /// The row of a number, where it has a route.
    #[inline(always)]
    pub(crate) fn get(&self, number: u32) -> Option<Lent<'_>>
        ensures { option_map lent_row result ≡ row_at self.now.rows.items number }
    {
        self.at(number as usize)
    }

    /// The row at an index, where it has a route.
    #[inline(always)]
    pub(crate) fn at(&self, index: usize) -> Option<Lent<'_>>
        ensures { option_map lent_row result ≡ row_at self.now.rows.items index }
    {
        self.rows.at(index)
    }

    /// What is due by the row of a number.
    #[inline(always)]
    pub(crate) fn attrs(&self, number: u32) -> Option<&Arc<Attrs>>
        ensures { option_map (λ attrs. arc_value attrs.now) result ≡ attributes_at self.now.rows.items number }
    {
        self.rows.attrs(number as usize)
    }

    /// How many of these numbers have a route in their rows. No row that is read here waits for another, so that many are
    /// fetched at once where they lie far apart in memory: what reads them next finds them near.
    #[inline(never)]
    pub(crate) fn count_at(&self, numbers: &[(u32, Prefix)]) -> usize {
        let mut count = 0usize;
        for (number, _) in numbers {
            count = count.saturating_add(usize::from(self.get(*number).is_some()));
        }
        count
    }

    /// There is a row for each of the first numbers. It is refused where 32 bits don't count them.
    pub(crate) fn grow(&mut self, count: usize) -> Result<(), AllocError>
        ensures rows { (n : ℕ) → row_at self.new.rows.items n ≡ row_at self.old.rows.items n }
        ensures loc { loc_of self.new.rows.items ≡ loc_of self.old.rows.items }
        ensures numbers { numbers_from 0 self.new.rows.items ≡ numbers_from 0 self.old.rows.items }
        ensures room { OnOk result (count ≤ length self.new.rows.items) }
        ensures used { self.new.used ≡ self.old.used }
    {
        self.rows.grow(count)
    }

    /// The row of a number can be written. `most` says whether most rows of its block are to be.
    pub(crate) fn prepare(&mut self, number: u32, most: bool) -> Result<(), AllocError>
        requires { number < length self.old.rows.items }
        ensures rows { self.new.rows.items ≡ self.old.rows.items }
        ensures used { self.new.used ≡ self.old.used }
        ensures prepared { OnOk result (IsPrepared self.new.rows.prepared number) }
        ensures kept { (n : ℕ) → IsPrepared self.old.rows.prepared n → IsPrepared self.new.rows.prepared n }
    {
        self.rows.prepare(number, most)
    }

    /// Takes the route out of the row of a number.
    pub(crate) fn take(&mut self, number: u32) -> Taken
        requires number { number < length self.old.rows.items }
        requires prepared { IsPrepared self.old.rows.prepared number }
        ensures rows { self.new.rows.items ≡ slice_set self.old.rows.items number None }
        ensures room { length self.new.rows.items ≡ length self.old.rows.items }
        ensures prepared { self.new.rows.prepared ≡ self.old.rows.prepared }
        ensures was { taken_of result ≡ shown (row_at self.old.rows.items number) }
        ensures used { self.new.used ≤ self.old.used }
    {
        let taken = self.rows.take(number);
        if taken.attrs().is_some() {
            self.used -= 1;
        }
        taken
    }

    /// Puts a route into the free row of a number.
    pub(crate) fn put(&mut self, number: u32, prefix: Prefix, attrs: Arc<Attrs>)
        requires number { number < length self.old.rows.items }
        requires prepared { IsPrepared self.old.rows.prepared number }
        requires free { row_at self.old.rows.items number ≡ None }
        ensures rows { self.new.rows.items ≡ slice_set self.old.rows.items number (Some (record { prefix = prefix; attributes = arc_value attrs })) }
        ensures room { length self.new.rows.items ≡ length self.old.rows.items }
        ensures prepared { self.new.rows.prepared ≡ self.old.rows.prepared }
        ensures used { self.new.used ≡ self.old.used + 1 }
    {
        // for the prover: one more can be counted
        let _count = self.rows.count();
        self.rows.put(number, prefix, attrs);
        self.used += 1;
    }

    /// The free rows of a block have news, as other clients have them: the block is shared.
    pub(crate) fn put_block(&mut self, whole: Whole)
        requires row { whole.place * 16 + 15 < length self.old.rows.items }
        requires free { AreFree self.old.rows.items (news_within whole) }
        ensures rows { self.new.rows.items ≡ written (news_within whole) self.old.rows.items }
        ensures room { length self.new.rows.items ≡ length self.old.rows.items }
        ensures kept { (m : ℕ) → m / 16 ≢ whole.place → IsPrepared self.old.rows.prepared m → IsPrepared self.new.rows.prepared m }
        ensures used { self.new.used ≡ self.old.used + length (news_within whole) }
    {
        let Whole { place, block } = whole;
        // for the prover: as many more can be counted
        let _count = self.rows.count();
        self.rows.put_block(place, block);
        self.used += ROWS;
    }

    /// Whether the blocks that a turn wrote are better shared later.
    pub(crate) fn puts_off(&mut self) -> bool
        ensures rows { self.new.rows.items ≡ self.old.rows.items }
        ensures used { self.new.used ≡ self.old.used }
    {
        self.rows.puts_off()
    }

    /// Where another client has the same rows in a block that a turn wrote, both have one copy.
    pub(crate) fn adopt(&mut self, other: &Rows)
        ensures rows { self.new.rows.items ≡ self.old.rows.items }
        ensures used { self.new.used ≡ self.old.used }
    {
        self.rows.adopt(&other.rows);
    }

    /// Other clients can share the blocks that a turn wrote.
    pub(crate) fn settle(&mut self)
        ensures rows { self.new.rows.items ≡ self.old.rows.items }
        ensures used { self.new.used ≡ self.old.used }
    {
        self.rows.settle();
    }
}
