//! What the public calls of the crates whose octets go over the wire do, and those of the choice between
//! routes, by values from outside the program: octets of the RFCs and of other implementations, and answers
//! worked out by hand.
//!
//! A file has the tests of one crate, and its folder those that are many: `octets` those of `rs_octets`,
//! and so on. `common` has what several of them need. Nothing but tests stands here, and they see what any
//! caller sees. A crate that has tests is proved again with them: so these crates stand without.
#![tactic(auto)]

#[cfg(test)]
mod common;
#[cfg(test)]
mod decision;
#[cfg(test)]
mod octets;
#[cfg(test)]
mod open;
#[cfg(test)]
mod packer;
#[cfg(test)]
mod session;
#[cfg(test)]
mod update;
