//! What the server shows of its core, and how it counts its lines, for the ports of `rs_sockets`.
//!
//! `shown` is the window and the control socket, with what they show beside the core; that is shown as
//! `core_tables`. A `tally` has how many lines of each kind came.
#![tactic(auto)]

mod core_tables;
pub mod shown;
pub mod tally;
