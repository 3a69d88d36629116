//! Blocks of rows that one outlet lends to the next: most clients of a route server are due the same, so that what one has is
//! a guess at what another gets.
//!
//! It is there only to save time and memory: a block is compared with what is due before it is taken.

ghost use Rattle.rs_adjin.specs.declared.adj_ins.AdjIns.{AdjIns};
ghost use Rattle.rs_outlet.specs.Decided.Due.{Held};
ghost use Rattle.rs_outlet.specs.Decided.Precedents.{IsHandover};

use crate::handover::Handover;
use crate::outlet::Outlet;
use rs_rows::{Block, Blocks};
use std::alloc::{AllocError, Global};
use std::sync::Arc;

/// A share of the block at a place, if others may have it too.
fn share_at(rows: &Blocks, place: usize) -> Result<Option<Arc<Block>>, AllocError> {
    match rows.shared(place) {
        None => Ok(None),
        Some(block) => Ok(Some(block.clone()?)),
    }
}

/// Blocks of another outlet, by their places. Any will do.
#[derive(Drop)]
pub(crate) struct Beside {
    blocks: Vec<Option<Arc<Block>>>,
}

impl Beside {
    /// No block is lent.
    pub(crate) fn none(alloc: Global) -> Beside {
        Beside {
            blocks: Vec::new(alloc),
        }
    }

    /// The blocks of these rows that others may have too.
    fn of(alloc: Global, rows: &Blocks) -> Result<Beside, AllocError> {
        let places = rows.places();
        let mut blocks = Vec::with_capacity(alloc, places)?;
        for place in 0..places {
            blocks.push(share_at(rows, place)?)?;
        }
        Ok(Beside { blocks })
    }

    /// The block that is lent for a place.
    pub(crate) fn at(&self, place: u32) -> Option<&Arc<Block>> {
        self.blocks.get(place as usize)?.as_ref()
    }
}

impl Outlet {
    /// Its blocks are lent to an outlet that is turned next, in place of those that were. Where memory is refused, none are.
    pub fn lend_blocks(&self, handover: &mut Handover)
        ensures { (t : Held) (ins : AdjIns) → IsHandover t ins handover.old → IsHandover t ins handover.new }
    {
        handover.take_back(self.alloc);
        if let Ok(lent) = Beside::of(self.alloc, &self.rows.rows) {
            handover.beside = lent;
        }
    }
}

impl Handover {
    /// No blocks are lent any more.
    pub fn take_back(&mut self, alloc: Global)
        ensures { (t : Held) (ins : AdjIns) → IsHandover t ins self.old → IsHandover t ins self.new }
    {
        self.beside = Beside::none(alloc);
    }
}
