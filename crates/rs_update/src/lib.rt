//! What an UPDATE does (RFC 4271, 4.3 and 6.3; RFC 7606).
//!
//! A body of octets comes in, and out goes a reset of the session, or the prefixes that are
//! withdrawn and those that are announced with their attributes. The definition stands in
//! `rs_attrs`. Nothing is kept between calls.
//!
//! - `fields` takes a body apart into its three fields.
//! - `outcome` has the call, `effect`, and the type of its answer; `prefixes` are the sets of
//!   prefixes in it, as lists in rising order.
//! - `laws` are contracts of functions that do nothing.
//!
//! The tests stand in `rs_wire_tests`, in `src/update`.
#![tactic(auto)]

mod fields;
pub mod laws;
mod outcome;
mod prefixes;

pub use outcome::{Outcome, effect};
