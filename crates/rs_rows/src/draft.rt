//! A block of which one client writes most rows.

ghost use Rattle.std.specs.Prelude.{◌≡◌, ◌<◌, None, Some, option_map, IfOk, IsTrue, replicate, slice_set};
ghost use Rattle.std.specs.Arc.{arc_value};
ghost use Rattle.arrayvec.specs.ArrayVec.{array_vec_len};
ghost use Rattle.rs_rows.specs.Rows.{joined, row_at, shown};
ghost use Rattle.rs_rows.specs.Cells.{taken_of};

use crate::block::{Block, ROWS};
use crate::cell::Cell;
use crate::place::Place;
use crate::taken::Taken;
use arrayvec::ArrayVec;
use rs_attrs::Attrs;
use rs_octets::Prefix;
use std::alloc::AllocError;
use std::sync::Arc;

/// The rows of a block as they can be written. What is taken out of one that wasn't written yet is a share of the block.
#[derive(Drop)]
pub(crate) struct Draft {
    pub(crate) cells: ArrayVec<Cell, ROWS>,
    ghost full: { array_vec_len cells ≡ 16 },
}

impl Draft {
    /// The rows of a block once more, each as a share of the block.
    pub(crate) fn over(block: &Arc<Block>) -> Result<Draft, AllocError>
        ensures { IfOk result (λ draft. draft.cells.items ≡ (arc_value block.now).rows.items) }
    {
        let mut cells = ArrayVec::new();
        for index in 0..ROWS {
            cells.push(Cell::within(block, index as u8)?);
        }
        Ok(Draft { cells })
    }

    /// Where the row at an index lies.
    #[inline(never)]
    pub(crate) fn place(&self, index: usize) -> Option<&Place>
        ensures { joined (option_map (λ place. place.now) result) ≡ row_at self.now.cells.items index }
    {
        match self.cells.get(index) {
            Some(cell) => cell.place(),
            None => None,
        }
    }

    /// Takes the route out of the row at an index.
    #[inline(never)]
    pub(crate) fn take(&mut self, index: usize) -> Taken
        requires { index < 16 }
        ensures rows { self.new.cells.items ≡ slice_set self.old.cells.items index None }
        ensures was { taken_of result ≡ shown (row_at self.old.cells.items index) }
    {
        self.cells[index].take()
    }

    /// Puts a route into the row at an index.
    #[inline(never)]
    pub(crate) fn put(&mut self, index: usize, prefix: Prefix, attrs: Arc<Attrs>)
        requires { index < 16 }
        ensures { self.new.cells.items ≡ slice_set self.old.cells.items index (Some (record { prefix = prefix; attributes = arc_value attrs })) }
    {
        self.cells[index] = Cell::of(prefix, attrs);
    }

    /// Whether all rows are free.
    pub(crate) fn is_free(&self) -> bool
        ensures { IsTrue result → self.now.cells.items ≡ replicate 16 None }
    {
        for cell in self.cells.iter() {
            if !cell.is_free() {
                return false;
            }
        }
        true
    }

    /// Whether a block may have the same rows, as far as is seen without a look at attributes.
    fn may_be_same(&self, block: &Block) -> bool {
        for index in 0..ROWS {
            if !self.cells[index].may_be_same(&block.rows[index]) {
                return false;
            }
        }
        true
    }

    /// Whether a block has the same rows.
    pub(crate) fn is_same(&self, block: &Block) -> bool
        ensures { IsTrue result → block.now.rows.items ≡ self.now.cells.items }
    {
        if !self.may_be_same(block) {
            return false;
        }
        for index in 0..ROWS {
            if !self.cells[index].is_same(&block.rows[index]) {
                return false;
            }
        }
        true
    }

    /// A block of the same rows, which can be shared.
    pub(crate) fn close(&self) -> Result<Block, AllocError>
        ensures { IfOk result (λ block. block.rows.items ≡ self.now.cells.items) }
    {
        let mut rows = ArrayVec::new();
        for cell in self.cells.iter() {
            rows.push(cell.copy()?);
        }
        Ok(Block { rows })
    }
}
