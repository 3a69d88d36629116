//! What a route server sent to a client, held against what is due to that client.
//!
//! The bodies of UPDATEs come in, or a list of routes; out go the prefixes at which the two tables differ.
//! Nothing is known here of files, of names and of the core.
//!
//! - `routes` has the route of a table, which is a list by rising prefix.
//! - `heard` has the table that UPDATEs mean, and `compared` the comparison of two tables.
//! - `laws` are contracts of functions that do nothing.
#![tactic(auto)]

mod compared;
mod heard;
mod laws;
mod routes;

pub use compared::{Difference, Kind, compare};
pub use heard::Sent;
pub use laws::equal_tables_do_not_differ;
pub use routes::Route;
