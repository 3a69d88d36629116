//! UPDATE messages, written into slices that are lent (RFC 4271, 4.3).
//!
//! Attributes and prefixes come in, or prefixes alone that are withdrawn; out go the octets of the
//! UPDATE with the longest front of the prefixes that fits into one message, and how many they
//! are. No call takes memory.
//!
//! - `announced` and `withdrawn` have the calls, `packed` is their answer.
//! - `fields` writes the fields of prefixes, and answers how many fit.
//! - `laws` are contracts of functions that do nothing: what is written is one message, and
//!   denotes just these prefixes with these attributes.
//!
//! The tests stand in `rs_wire_tests`, in `src/packer.rt`.
#![tactic(auto)]

mod announced;
mod fields;
pub mod laws;
mod packed;
mod withdrawn;

pub use announced::{fits, pack_announced, try_pack_announced};
pub use packed::Packed;
pub use withdrawn::pack_withdrawn;
