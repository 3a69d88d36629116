//! The table of a Loc-RIB: its rows, and how many of them have a route.

ghost use Rattle.std.specs.Prelude.{◌≡◌, is_some, count_by};

use rs_rows::Blocks;

/// A row for each number; a free one has no route.
#[derive(Drop)]
pub(crate) struct Rows {
    pub(crate) rows: Blocks,
    /// How many rows have a route.
    pub(crate) used: usize,
    ghost counted: { count_by is_some rows.items ≡ used },
}
