//! Sixteen rows that lie together, of one client or shared.

ghost use Rattle.std.specs.Prelude.{◌≡◌, ◌<◌, None, Some, is_some, option_map, IfOk, IsTrue, replicate, slice_set};
ghost use Rattle.std.specs.Arc.{arc_value};
ghost use Rattle.arrayvec.specs.ArrayVec.{array_vec_len};
ghost use Rattle.rs_rows.specs.Rows.{joined, row_at, shown};
ghost use Rattle.rs_rows.specs.Places.{lent_row};

use crate::place::{Lent, Place};
use arrayvec::ArrayVec;
use rs_attrs::Attrs;
use rs_octets::Prefix;
use std::alloc::AllocError;
use std::sync::Arc;

/// How many rows lie in a block. Of shorter ones more are alike, longer ones take less beside their rows.
pub const ROWS: usize = 16;

/// So many rows are most of a block.
pub const MOST_OF_BLOCK: usize = ROWS / 2 + 1;

/// The rows of neighbouring numbers, which lie in the block itself. Once it is shared nothing changes them.
#[derive(Drop)]
pub struct Block {
    pub(crate) rows: ArrayVec<Place, ROWS>,
    ghost full: { array_vec_len rows ≡ 16 },
}

impl Block {
    /// A block whose rows are free.
    pub fn free() -> Block
        ensures { result.rows.items ≡ replicate 16 None }
    {
        Block {
            rows: ArrayVec::from_array_in((), Default::default()),
        }
    }

    /// The same rows once more.
    pub(crate) fn copy(&self) -> Result<Block, AllocError>
        ensures { IfOk result (λ block. block.rows.items ≡ self.now.rows.items) }
    {
        let mut rows = ArrayVec::new();
        for place in self.rows.iter() {
            rows.push(place.copy()?);
        }
        Ok(Block { rows })
    }

    /// Where the row at an index lies.
    #[inline(always)]
    pub(crate) fn place(&self, index: usize) -> Option<&Place>
        ensures { joined (option_map (λ place. place.now) result) ≡ row_at self.now.rows.items index }
    {
        self.rows.get(index)
    }

    /// The row at an index, where it has a route.
    #[inline(always)]
    pub fn at(&self, index: usize) -> Option<Lent<'_>>
        ensures { option_map lent_row result ≡ row_at self.now.rows.items index }
    {
        match self.place(index) {
            Some(place) => place.row(),
            None => None,
        }
    }

    /// Whether the row at an index has a route.
    pub fn has_route(&self, index: u8) -> bool
        ensures { result ≡ is_some (shown (row_at self.now.rows.items index)) }
    {
        self.at(index as usize).is_some()
    }

    /// Takes the route out of the row at an index.
    pub(crate) fn take(&mut self, index: usize) -> Option<Arc<Attrs>>
        requires { index < 16 }
        ensures rows { self.new.rows.items ≡ slice_set self.old.rows.items index None }
        ensures was { option_map arc_value result ≡ shown (row_at self.old.rows.items index) }
    {
        self.rows[index].take()
    }

    /// Puts a route into the row at an index.
    pub fn put(&mut self, index: usize, prefix: Prefix, attrs: Arc<Attrs>)
        requires { index < 16 }
        ensures { self.new.rows.items ≡ slice_set self.old.rows.items index (Some (record { prefix = prefix; attributes = arc_value attrs })) }
    {
        self.rows[index] = Place::of(prefix, attrs);
    }

    /// Whether all rows are free.
    pub(crate) fn is_free(&self) -> bool
        ensures { IsTrue result → self.now.rows.items ≡ replicate 16 None }
    {
        for place in self.rows.iter() {
            if !place.is_free() {
                return false;
            }
        }
        true
    }

    /// Whether another block may have the same rows, as far as is seen without a look at attributes.
    fn may_be_same(&self, other: &Block) -> bool {
        for index in 0..ROWS {
            if !self.rows[index].may_be_same(&other.rows[index]) {
                return false;
            }
        }
        true
    }

    /// Whether another block has the same rows.
    pub(crate) fn is_same(&self, other: &Block) -> bool
        ensures { IsTrue result → other.now.rows.items ≡ self.now.rows.items }
    {
        if !self.may_be_same(other) {
            return false;
        }
        for index in 0..ROWS {
            if !self.rows[index].is_same(&other.rows[index]) {
                return false;
            }
        }
        true
    }
}
