//! The ports of the system, over which `rs_served` serves by `rs_live`.
//!
//! `sockets` are those ports, with the listeners of `listeners`, which `listening` opens; `configuration` reads
//! the files of the configuration again, where their watch says that they are to be read. `lines` is standard
//! output, within rate limits. `wording` is standard error: reports in words, each behind a stamp of `stamps`;
//! `names` are the clients' in both. A `record` is the files of a recorded run. What the server shows, and how its
//! lines are counted, is `rs_shown`'s.
#![tactic(auto)]

mod configuration;
pub mod lines;
mod listeners;
pub mod names;
pub mod record;
pub mod sockets;
pub mod stamps;
pub mod wording;
