//! The choice among the routes for one prefix (RFC 4271, 9.1.2.2).
//!
//! What comes in is the list of the candidates' ranks, what goes out is the place of the best one
//! in that list. Nothing is kept between two calls, and no call takes memory.
//!
//! - `rank` is what the choice looks at in a route.
//! - `choice` has the call, `best`. It is defined by filters over the whole list, one for each of
//!   the standard's steps (`specs/Choice.antt`). The code asks for the first rank by all steps but
//!   c, MULTI_EXIT_DISC, and where that rank loses by c for the first that doesn't.
//! - `exits` tells which ranks lose by c.
//! - `losing` tells by which step a rank loses.
//! - `laws` are contracts of functions that do nothing: the best is unbeaten, and the order of the
//!   list doesn't matter.
//!
//! The tests stand in `rs_wire_tests`, in `src/decision.rt`.
#![tactic(auto)]

mod choice;
mod exits;
mod laws;
mod losing;
mod rank;

pub use choice::best;
pub use laws::{best_ignores_order, best_is_unbeaten};
pub use losing::{Step, lost_by};
pub use rank::Rank;
