//! The rows of a Loc-RIB (RFC 4271, 3.2) as they lie in memory: by the number of its prefix, what is due to a client.
//!
//! In come rows by number, one after the other, and the rows of other clients; out goes what a row has. Rows lie in
//! blocks. Where two clients have a block of the same rows, one copy serves both: most clients of a route server are due
//! the same.
//!
//! - `place` is a row as it lies in memory, `block` so many of them, of one client or shared. `draft` is a block of which one
//!   client writes most rows, in `cell`s: rows of its own, or as they lie in the block that was. `part` is a block as a client
//!   has it.
//! - `taken` is what was taken out of a row.
//! - `blocks` has the calls: rows are read by number; before one is written its block is prepared, which takes memory;
//!   and blocks that were prepared are shared with others, where those have the same rows. `spread` tells when that is better
//!   left for later.
#![tactic(auto)]

mod block;
mod blocks;
mod cell;
mod draft;
mod part;
mod place;
mod spread;
mod taken;

pub use block::{Block, MOST_OF_BLOCK, ROWS};
pub use blocks::{Blocks, lie_together};
pub use place::Lent;
pub use taken::Taken;
