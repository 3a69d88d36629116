//! What the public calls of the crates below do, by values from outside the program: tables of the RFCs,
//! routes as clients send them, configurations and exchanges worked out by hand.
//!
//! A file has the tests of one crate, and its folder those that are many: `adjin` those of `rs_adjin`,
//! and so on; `route_server` those of `rs_core`. `common` has what several of them need. Nothing but tests
//! stands here, and they see what any caller sees. A crate that has tests is proved again with them: so
//! crates stand without. Those of the small crates stand in `rs_wire_tests`.
#![tactic(auto)]

#[cfg(test)]
mod adjin;
#[cfg(test)]
mod attrs;
#[cfg(test)]
mod command;
#[cfg(test)]
mod common;
#[cfg(test)]
mod outlet;
#[cfg(test)]
mod pages;
#[cfg(test)]
mod policy;
#[cfg(test)]
mod reasons;
#[cfg(test)]
mod record;
#[cfg(test)]
mod route_server;
#[cfg(test)]
mod window;
#[cfg(test)]
mod workers;
