//! How far apart the rows lie that are written one after the other.

/// So many blocks make rows that lie far apart.
const MANY: usize = 16;

/// If each has fewer of these rows than so many.
const FEW: usize = 4;

/// How many rows were written, and how often another block than before.
#[derive(Clone, Copy)]
pub(crate) struct Spread {
    rows: usize,
    blocks: usize,
    last: usize,
}

impl Spread {
    /// Nothing was written.
    pub(crate) fn none() -> Spread {
        Spread {
            rows: 0,
            blocks: 0,
            last: 0,
        }
    }

    /// A row of the block at a place is written.
    pub(crate) fn note(&mut self, place: usize) {
        if self.rows == 0 || place != self.last {
            self.blocks = self.blocks.saturating_add(1);
        }
        self.rows = self.rows.saturating_add(1);
        self.last = place;
    }

    /// Whether the rows lie far apart: in many blocks, with few of each.
    pub(crate) fn is_wide(self) -> bool {
        self.blocks >= MANY && self.rows / FEW < self.blocks
    }
}
