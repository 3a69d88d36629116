//! Octets of BGP messages: headers, prefixes with the fields that list them, and the names of
//! error codes and subcodes.
//!
//! The octets of a connection come in; out goes what stands at their front: a whole message with
//! its type and body, a header's fault, or how many octets are still wanted. A field of prefixes
//! comes in; out go its prefixes, and its fault where it has one. Octets are lent, and no call
//! takes memory.
//!
//! - `fronts` is what stands at the front of octets, `heads` a header with its checks.
//! - `prefix` has prefixes, and the fields of messages that list them.
//! - `notification` has the names of error codes and subcodes, `numbers` the numbers that several
//!   crates need, `hold_times` which Hold Times are refused.
//! - `writes` puts octets into a slice.
//! - `laws` are contracts of functions that do nothing: octets are cut into messages in one way.
//!
//! The tests stand in `rs_wire_tests`, in `src/octets.rt`.
#![tactic(auto)]

mod fronts;
mod heads;
mod hold_times;
pub mod laws;
mod notification;
mod numbers;
mod prefix;
mod writes;

pub use fronts::{Front, read_front};
pub use heads::{Allowed, Head, HeaderFault, Kind, header, put_header};
pub use hold_times::is_refused_hold;
pub use notification::Notification;
pub use numbers::{AS_TRANS, longest_message};
pub use prefix::{FieldFault, Prefix, PrefixIter, put_prefix, read_prefixes};
pub use writes::put;
