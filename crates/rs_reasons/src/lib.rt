//! Why a route is passed from one client to another, or dropped: in the operator's words.
//!
//! A route and the two clients that it is between come in, and out goes the verdict with the reason of
//! each list that was asked: the rule that decided, by its place as the configuration's faults count it
//! and the name of the rules that it uses, or that none matched.
//!
//! - `reason` is what a list did with a route, and why; it writes itself as an operator reads it.
//! - `why` asks both lists.
//!
//! The tests stand in `rs_tests`, in `src/reasons.rt`.
#![tactic(auto)]

mod reason;
mod why;

pub use reason::{Cause, Reason};
pub use why::{Explanation, explain};
