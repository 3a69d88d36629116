//! A turn of many outlets by 1 to 16 workers: the same outlets as by one.
//!
//! The tables and the configuration go in, shared and read by all; each outlet is lent to one
//! worker alone. There is no lock, atomic or cell here.
//!
//! - `turning` has the call, `turn_all`: shares of neighbouring outlets, each turned by a thread of
//!   its own where one can be started.
//! - `sharing` has neighbouring outlets share rows that their turns wrote, and lend blocks of rows to one that is decided whole.
//! - `gate` is what a worker passes before it turns its share: nothing, but in a test.
//!
//! The tests stand in `rs_tests`, in `src/workers.rt`.
#![tactic(auto)]

mod gate;
mod sharing;
mod turning;

pub use gate::{Free, Gate};
pub use turning::turn_all;
