//! The route server (RFC 7947): sessions, Adj-RIBs-In and outlets of all clients. Each event is
//! one call.
//!
//! Octets come in by `octets`, are cut into messages and heard by the client's session; an UPDATE
//! changes the Adj-RIBs-In and touches every other client's outlet. A turn decides what is
//! touched. What is due goes out by `writable`. Nothing calls back up. `drive` makes these calls
//! for a link.
//!
//! - `route_server` has the parts of the `Core`, `making` the first one, `ribs` the RIBs of all
//!   clients.
//! - Octets: `connections` are opened and lost; `hearing` cuts what comes; `sessions` hear
//!   messages and `updates` the UPDATEs; `adj_rib_in` puts routes into the Adj-RIBs-In and touches
//!   the outlets.
//! - `commands` for a client's session, and another configuration, come from the operator.
//! - Turns: `turning` decides what is touched, and `sweeping` gives up numbers that nobody uses.
//! - Out: `outlets` has the calls of one client's outlet, `sending` begins messages, lends octets and
//!   counts those taken; `endings` say why a session ended.
//! - `queries` is what a caller can ask, and of the tables `tables`.
//! - `driving` drives all this by a link of `links`: its `offering` offers what is lent, and its `closing`
//!   knows whose connection may be to be closed; `laws` are contracts of functions that do nothing.
#![tactic(auto, unfolding(crate::specs::Core::client_count, crate::specs::Core::lent_octets))]

mod adj_rib_in;
mod commands;
mod connections;
mod driving;
mod endings;
mod hearing;
pub mod laws;
mod links;
mod making;
mod outlets;
mod queries;
mod ribs;
mod route_server;
mod sending;
mod sessions;
mod sweeping;
mod tables;
mod turning;
mod updates;

pub use driving::{drive, drive_with};
pub use endings::{Ending, FaultedUpdates, NOTICE_MAX, Notice};
pub use links::{Event, Link, Sink, Source};
pub use route_server::Core;
pub use turning::Turns;
