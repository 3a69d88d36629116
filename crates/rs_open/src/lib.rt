//! OPEN and the short messages (RFC 4271, 4.2, 4.4 and 4.5).
//!
//! The body of a peer's OPEN comes in, and out goes what it says or its first fault; so for the
//! body of a ROUTE-REFRESH. What a session says by itself comes in, and out go the octets of our
//! OPEN, KEEPALIVE or NOTIFICATION.
//!
//! - `open` has what an OPEN says and what can be wrong with one; `reading` reads it by `triples`,
//!   of which parameters and capabilities are made; `codes` has their numbers.
//! - `refresh` reads a ROUTE-REFRESH.
//! - `short` has the messages that a session says by itself, `shutdown` the text that an operator
//!   ends one with, `writing` their octets.
//! - `laws` are contracts of functions that do nothing.
//!
//! The tests stand in `rs_wire_tests`, in `src/open`.
#![tactic(auto)]

mod codes;
mod laws;
mod open;
mod reading;
mod refresh;
mod short;
mod shutdown;
mod triples;
mod writing;

pub use laws::{
    an_open_is_taken_where_it_is_good, an_open_of_ours_is_good, octets_are_one_row_of_triples,
    short_is_a_message,
};
pub use open::{Open, OpenFault};
pub use reading::read_open;
pub use refresh::{AddressFamily, read_refresh};
pub use short::{Limit, Short};
pub use shutdown::{ShutdownText, TEXT_MAX};
pub use writing::{
    MAX_NOTE, MAX_OPEN, ServerOpen, short_size, write_keepalive, write_note, write_open,
    write_short,
};
