//! A block that one client has, or several.

ghost use Rattle.std.specs.Prelude.{◌≡◌, ◌<◌, None, Some, true, option_map, replicate, slice_set, IfOk, IfSome, OnOk};
ghost use Rattle.std.specs.Arc.{arc_value};
ghost use Rattle.rs_rows.specs.Rows.{joined, row_at, shown};
ghost use Rattle.rs_rows.specs.Places.{lent_row};
ghost use Rattle.rs_rows.specs.Cells.{taken_of};

use crate::block::Block;
use crate::draft::Draft;
use crate::place::{Lent, Place};
use crate::taken::Taken;
use rs_attrs::Attrs;
use rs_octets::Prefix;
use std::alloc::{AllocError, Global};
use std::mem;
use std::sync::Arc;

/// The rows of neighbouring numbers, as a client has them.
#[derive(Drop)]
pub(crate) enum Part {
    /// All are free.
    Free,
    /// They can be written.
    Own(Box<Block>),
    /// They can be written, and most are to be.
    Over(Box<Draft>),
    /// Other clients may have them too.
    Shared(Arc<Block>),
}

impl Part {
    ghost use Rattle.rs_rows.specs.Blocks.{is_own, rows_in};

    /// A block that can be shared. Where memory for that is refused, it is one client's still.
    #[inline(never)]
    fn of(alloc: Global, mut block: Box<Block>) -> Part
        ensures { rows_in result ≡ block.value.rows.items }
    {
        if block.is_free() {
            return Part::Free;
        }
        match Arc::new(alloc, Box::replace(&mut block, Block::free())) {
            Ok(shared) => Part::Shared(shared),
            Err(refused) => {
                Box::replace(&mut block, refused.value);
                Part::Own(block)
            }
        }
    }

    /// The same of a block of which most rows were to be written.
    #[inline(never)]
    fn of_draft(alloc: Global, draft: Box<Draft>) -> Part
        ensures { rows_in result ≡ draft.value.cells.items }
    {
        if draft.is_free() {
            return Part::Free;
        }
        let Ok(block) = draft.close() else {
            return Part::Over(draft);
        };
        match Arc::new(alloc, block) {
            Ok(shared) => Part::Shared(shared),
            Err(_) => Part::Over(draft),
        }
    }

    /// Where the row at an index lies, if the block is not free.
    #[inline(always)]
    pub(crate) fn place(&self, index: usize) -> Option<&Place>
        ensures { joined (option_map (λ place. place.now) result) ≡ row_at (rows_in self.now) index }
    {
        match self {
            Part::Free => None,
            Part::Own(block) => block.place(index),
            Part::Over(draft) => draft.place(index),
            Part::Shared(block) => block.place(index),
        }
    }

    /// The row at an index, where it has a route.
    #[inline(always)]
    pub(crate) fn at(&self, index: usize) -> Option<Lent<'_>>
        ensures { option_map lent_row result ≡ row_at (rows_in self.now) index }
    {
        match self.place(index) {
            Some(place) => place.row(),
            None => None,
        }
    }

    /// The attributes of the row at an index, where it has a route.
    #[inline(always)]
    pub(crate) fn attrs(&self, index: usize) -> Option<&Arc<Attrs>>
        ensures { option_map (λ attrs. arc_value attrs.now) result ≡ shown (row_at (rows_in self.now) index) }
    {
        match self.place(index) {
            Some(place) => place.attrs(),
            None => None,
        }
    }

    /// A block whose rows are free and can be written.
    // not inlined: its block, on the stack first, would be made ready by each caller's call
    #[inline(never)]
    fn fresh(alloc: Global) -> Result<Box<Block>, AllocError>
        ensures { IfOk result (λ block. block.value.rows.items ≡ replicate 16 None) }
    {
        Ok(Box::new(alloc, Block::free())?)
    }

    /// The rows of a block that others have too, as they can be written. Where `most` of them are to be, what is taken out
    /// of them is taken as shares of the block that was.
    #[inline(never)]
    fn copy_of(alloc: Global, block: &Arc<Block>, most: bool) -> Result<Part, AllocError>
        ensures own { IfOk result (λ part. is_own part ≡ true) }
        ensures rows { IfOk result (λ part. rows_in part ≡ (arc_value block.now).rows.items) }
    {
        if most {
            return Ok(Part::Over(Box::new(alloc, Draft::over(block)?)?));
        }
        Ok(Part::Own(Box::new(alloc, block.copy()?)?))
    }

    /// The rows of a block, as they can be written: a copy of them, or themselves where nobody else has the block. Where
    /// that is refused, the block is as it was.
    #[inline(never)]
    fn opened(alloc: Global, mut block: Arc<Block>, most: bool) -> (Part, Result<(), AllocError>)
        ensures rows { rows_in result.0 ≡ (arc_value block).rows.items }
        ensures own { OnOk result.1 (is_own result.0 ≡ true) }
    {
        if Arc::strong_count(&block) == 1 {
            let Ok(mut room) = Part::fresh(alloc) else {
                return (Part::Shared(block), Err(AllocError));
            };
            match Arc::try_unwrap(block) {
                Ok(rows) => {
                    Box::replace(&mut room, rows);
                    return (Part::Own(room), Ok(()));
                }
                Err(shared) => block = shared,
            }
        }
        match Part::copy_of(alloc, &block, most) {
            Ok(part) => (part, Ok(())),
            Err(refused) => (Part::Shared(block), Err(refused)),
        }
    }

    /// The block, if others may have it too.
    pub(crate) fn shared(&self) -> Option<&Arc<Block>>
        ensures { IfSome result (λ block. (arc_value block.now).rows.items ≡ rows_in self.now) }
    {
        match self {
            Part::Shared(block) => Some(block),
            _ => None,
        }
    }

    /// Whether the rows can be written.
    #[inline(always)]
    pub(crate) fn can_be_written(&self) -> bool
        ensures { result ≡ is_own self.now }
    {
        match self {
            Part::Own(_) | Part::Over(_) => true,
            Part::Free | Part::Shared(_) => false,
        }
    }

    /// The rows can be written from now on. Where `most` of them are to be, what is taken out of them is taken as shares of
    /// the block that was.
    pub(crate) fn open(&mut self, alloc: Global, most: bool) -> Result<(), AllocError>
        ensures rows { rows_in self.new ≡ rows_in self.old }
        ensures own { OnOk result (is_own self.new ≡ true) }
        ensures kept { is_own self.old ≡ true → is_own self.new ≡ true }
    {
        match mem::replace(self, Part::Free) {
            Part::Free => {
                *self = Part::Own(Part::fresh(alloc)?);
                Ok(())
            }
            Part::Shared(block) => {
                let (part, made) = Part::opened(alloc, block, most);
                *self = part;
                made
            }
            part => {
                *self = part;
                Ok(())
            }
        }
    }

    /// Takes the route out of the row at an index.
    pub(crate) fn take(&mut self, index: usize) -> Taken
        requires own { is_own self.old ≡ true }
        requires index { index < 16 }
        ensures rows { rows_in self.new ≡ slice_set (rows_in self.old) index None }
        ensures own { is_own self.new ≡ true }
        ensures was { taken_of result ≡ shown (row_at (rows_in self.old) index) }
    {
        match self {
            Part::Own(block) => Taken::of(block.take(index)),
            Part::Over(draft) => draft.take(index),
            Part::Free | Part::Shared(_) => unreachable!(),
        }
    }

    /// Puts a route into the row at an index.
    pub(crate) fn put(&mut self, index: usize, prefix: Prefix, attrs: Arc<Attrs>)
        requires own { is_own self.old ≡ true }
        requires index { index < 16 }
        ensures rows { rows_in self.new ≡ slice_set (rows_in self.old) index (Some (record { prefix = prefix; attributes = arc_value attrs })) }
        ensures own { is_own self.new ≡ true }
    {
        match self {
            Part::Own(block) => block.put(index, prefix, attrs),
            Part::Over(draft) => draft.put(index, prefix, attrs),
            Part::Free | Part::Shared(_) => unreachable!(),
        }
    }

    /// Another's block, where it has the same rows as this one, which was written.
    fn same_of(&self, other: &Part) -> Option<Arc<Block>>
        ensures { IfSome result (λ block. (arc_value block).rows.items ≡ rows_in self.now) }
    {
        match (self, other) {
            (Part::Own(own), Part::Shared(shared)) if own.is_same(shared) => shared.clone().ok(),
            (Part::Over(own), Part::Shared(shared)) if own.is_same(shared) => shared.clone().ok(),
            _ => None,
        }
    }

    /// Takes another's block in place of one that was written, where it has the same rows.
    pub(crate) fn adopt(&mut self, other: &Part)
        ensures { rows_in self.new ≡ rows_in self.old }
    {
        if let Some(block) = self.same_of(other) {
            *self = Part::Shared(block);
        }
    }

    /// What was written can be shared.
    pub(crate) fn settle(&mut self, alloc: Global)
        ensures { rows_in self.new ≡ rows_in self.old }
    {
        match mem::replace(self, Part::Free) {
            Part::Own(block) => *self = Part::of(alloc, block),
            Part::Over(draft) => *self = Part::of_draft(alloc, draft),
            part => *self = part,
        }
    }
}
