//! What passes between a route server and its link, as the lines of a trace that `rs_trace` replays.
//!
//! - `driving` drives the core as `rs_core` does, and records what happens: by `recorded`, a link around
//!   another.
//! - `recorder` has what is still to be said of the newest event, `event_lines` how an event is said, with
//!   clients by their `client_names`.
//! - `tape` is where the lines go.
//! - `laws` are contracts of functions that do nothing.
//!
//! The tests stand in `rs_tests`, in `src/record.rt`.
#![tactic(auto)]

mod client_names;
mod driving;
mod event_lines;
mod laws;
mod recorded;
mod recorder;
mod tape;

pub use client_names::ClientNames;
pub use driving::{drive_recorded, drive_recorded_with};
pub use event_lines::{RecordFault, put_event};
pub use laws::{lines_say_in_turn, lines_say_their_events, texts_are_said};
pub use recorded::Recorded;
pub use recorder::{Pending, Recorder, UsedRoom};
pub use tape::{Reel, Tape};
