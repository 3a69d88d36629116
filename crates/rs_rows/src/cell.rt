//! A row of a block that is written: one of its own, or as it lies in a block that is shared.

ghost use Rattle.std.specs.Prelude.{◌≡◌, None, Some, option_map, IfOk, IsTrue};
ghost use Rattle.std.specs.Arc.{arc_value};
ghost use Rattle.rs_rows.specs.Cells.{taken_of};
ghost use Rattle.rs_rows.specs.Rows.{joined, row_at, shown};

use crate::block::Block;
use crate::place::Place;
use crate::taken::Taken;
use rs_attrs::Attrs;
use rs_octets::Prefix;
use std::alloc::AllocError;
use std::marker::Model;
use std::mem;
use std::sync::Arc;

/// What lies in a cell.
#[derive(Drop)]
pub(crate) enum Lying {
    /// A row of its own.
    Here(Place),
    /// The row at an index of a block.
    Within { index: u8, block: Arc<Block> },
}

/// A row of a block that is written.
#[derive(Drop)]
pub(crate) struct Cell {
    lying: Lying,
}

impl Model for Cell {
    ghost use Rattle.std.specs.Prelude.{Option};
    ghost use Rattle.rs_rows.specs.Rows.{Row};
    ghost use Rattle.rs_rows.specs.Cells.{cell_row};

    ghost Value = { Option Row };

    ghost view = { λ c. cell_row c.lying };
}

/// A cell is free before a row is put there.
impl Default for Cell {
    fn default() -> Cell
        ensures { result ≡ None }
    {
        Cell::free()
    }
}

impl Cell {
    /// A free row.
    fn free() -> Cell
        ensures { result ≡ None }
    {
        Cell::here(Place::free())
    }

    /// A row of its own.
    fn here(place: Place) -> Cell
        ensures { result ≡ place }
    {
        Cell {
            lying: Lying::Here(place),
        }
    }

    /// A row with this route.
    pub(crate) fn of(prefix: Prefix, attrs: Arc<Attrs>) -> Cell
        ensures { result ≡ Some (record { prefix = prefix; attributes = arc_value attrs }) }
    {
        Cell::here(Place::of(prefix, attrs))
    }

    /// The row at an index of a block, which it shares where there is a route.
    pub(crate) fn within(block: &Arc<Block>, index: u8) -> Result<Cell, AllocError>
        ensures { IfOk result (λ cell. cell ≡ row_at (arc_value block.now).rows.items index) }
    {
        if block.at(index as usize).is_none() {
            return Ok(Cell::free());
        }
        Ok(Cell {
            lying: Lying::Within {
                index,
                block: block.clone()?,
            },
        })
    }

    /// Takes the route out.
    pub(crate) fn take(&mut self) -> Taken
        ensures route { taken_of result ≡ shown self.old }
        ensures free { self.new ≡ None }
    {
        match mem::replace(&mut self.lying, Lying::Here(Place::free())) {
            Lying::Here(mut place) => Taken::of(place.take()),
            Lying::Within { index, block } => Taken::Within { index, block },
        }
    }

    /// The same row once more, in a place of its own.
    pub(crate) fn copy(&self) -> Result<Place, AllocError>
        ensures { IfOk result (λ place. place ≡ self.now) }
    {
        match self.place() {
            None => Ok(Place::free()),
            Some(place) => place.copy(),
        }
    }

    /// Whether there is no route.
    pub(crate) fn is_free(&self) -> bool
        ensures { IsTrue result → self.now ≡ None }
    {
        match self.place() {
            None => true,
            Some(place) => place.is_free(),
        }
    }

    /// Whether a place may have the same row, as far as is seen without a look at attributes.
    pub(crate) fn may_be_same(&self, other: &Place) -> bool {
        match self.place() {
            None => other.is_free(),
            Some(place) => place.may_be_same(other),
        }
    }

    /// Whether a place has the same row.
    pub(crate) fn is_same(&self, other: &Place) -> bool
        ensures { IsTrue result → other.now ≡ self.now }
    {
        match self.place() {
            None => other.is_free(),
            Some(place) => place.is_same(other),
        }
    }

    /// Where the row lies, if it is in a block at all.
    pub(crate) fn place(&self) -> Option<&Place>
        ensures { joined (option_map (λ place. place.now) result) ≡ self.now }
    {
        match &self.lying {
            Lying::Here(place) => Some(place),
            Lying::Within { index, block } => block.rows.get(*index as usize),
        }
    }
}
