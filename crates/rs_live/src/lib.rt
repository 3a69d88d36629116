//! The library of `rs_served`: the live route server, but for how it starts and its ports, which `rs_sockets`
//! has.
//!
//! `serve` is the loop, which gives the core events by a `live_link` over `ports`: `source` chooses which
//! comes next, `orders` those that the operator orders, `sink` turns the core's calls into calls of the ports,
//! `observing` tells them what is to be counted, `notes` are kept for reports.
//! `connections`, `requests` and `outbox` are what the link keeps of each connection, `watch` reports to an operator what
//! happened, within rate limits. A `recording` drives the core where a record is written.
//!
//! The way of a round: `serve` waits; `source` accepts and reads, and gives the core each event, last a moment,
//! a turn and room; the core calls `sink`, which hands its octets to `connections`; these write them; `watch`
//! reports what has become of each client.
#![tactic(auto)]

pub mod connections;
pub mod live_link;
mod observing;
pub mod orders;
pub mod outbox;
pub mod ports;
mod recording;
mod requests;
pub mod serve;
mod sink;
mod source;
pub mod watch;
