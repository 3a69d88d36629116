//! The sockets of those who look at the server, and of its operator, under the poll of the server's other
//! sockets. What is said is `rs_window`'s and `rs_control`'s; here are readiness, turns, patience and ends.
//!
//! `window` is a listener, and a `visitor` a connection over HTTP; `control` the control socket, a `caller` a
//! connection to it over a `wire`, and `ask` who calls. In a `round` those of one listener go on.
#![tactic(auto)]

pub mod ask;
mod caller;
pub mod control;
mod round;
mod visitor;
pub mod window;
mod wire;
