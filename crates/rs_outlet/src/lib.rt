//! The Adj-RIB-Out of one client (RFC 4271, 3.2; RFC 7947, 2.3.2): what is due to it, what it was
//! told, and the message in flight.
//!
//! In come the begin and the end of the client's session, the prefixes that others touched, and
//! turns, which read the Adj-RIBs-In and the configuration; out go the octets of the next message,
//! as far as the link takes them, and the routes of the client's Loc-RIB.
//!
//! - `outlet` has the calls that change an `Outlet`, `queries` those that ask it; `answers` is what it
//!   knows of its client, and what a turn answers; `sizes` says how much room a message has.
//! - `touched` is what the next turn decides; `turn` decides it, by `deciding`, which says what is
//!   due at one prefix, and `chosen`, which says whose route is the best; `memo` is what it leaves to the
//!   next prefix, `choices` and `stripped` to the outlets that turn next, as `precedent` does: what was decided for a client serves
//!   others. By that it is `known` what is due to them, and what is news to them is taken as it is (`serving`). All of that is
//!   handed from one to the next by `handover`, in lists that go `by_number`.
//! - What a turn changes is a `plan`: `changes` of the client's own, or what is `news` to several clients in `pieces`, of which
//!   those that are `filled` are a block of rows. It is put into `rows`, the Loc-RIB by number in a `table` of blocks that outlets
//!   share, and into `waiting`, what is to be sent: slots in two `parts`, of which `merging` makes one. `marking` makes all that
//!   was told wait again.
//! - `choosing` says which slots the next UPDATE is about, going along the `chains` of slots with the
//!   same attributes; `sending` and `fill` begin the next message, of what is listed in a `batch`; it may have been `written` for another client.
//! - `sharing` lets outlets that are due the same have one copy of their rows; what lies `beside` is lent by one to the next, so that
//!   this one's rows need not be made first.
//! - `noting` has routes noted by the import lists of a configuration, as a turn wants them.
//! - `routes` shows the Loc-RIB; `laws` are contracts of functions that do nothing.
#![tactic(auto)]

mod answers;
mod batch;
mod beside;
mod by_number;
mod changes;
mod choices;
mod chosen;
mod deciding;
mod fill;
mod filled;
mod handover;
mod known;
pub mod laws;
mod memo;
mod news;
mod noting;
mod ordered;
mod outlet;
mod pieces;
mod plan;
mod precedent;
mod queries;
mod routes;
mod rows;
mod sending;
mod serving;
mod sharing;
mod sizes;
mod stripped;
mod table;
mod touched;
mod turn;
mod waiting;
mod written;

pub use answers::{Last, Speech, Turned};
pub use handover::Handover;
pub use noting::note_all;
pub use outlet::Outlet;
pub use routes::Routes;
pub use written::Written;
