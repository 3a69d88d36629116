//! The session of one client (RFC 4271, 8): what was heard and the moments that are seen go in, what
//! is to be done comes out.
//!
//! In: a connection (`Session::opened`), each message or the fault of a header (`message`, a `Heard`),
//! moments in seconds (`moment`), the operator's commands (`command`), and the loss of the
//! connection (`lost`). Out: an `Act`, which the
//! caller does: our OPEN or a KEEPALIVE to say, the session up, all routes asked for again, or the end
//! with its NOTIFICATION. What the accepted OPEN says is read by `state`, `mode`, `identifier` and
//! `limit`. The server is passive: connections are made by clients.
//!
//! `session.rt` has the calls, `phase.rt` what a message, a moment or a command makes of a session, `faults.rt`
//! the NOTIFICATIONs that end one, `laws.rt` what the definitions come to; `heard.rt`, `command.rt`,
//! `act.rt` and `settings.rt` are what goes in, what comes out and what is configured. Contracts see a session as
//! the list of what befell it (`specs/Items.antt`), and nothing above this crate looks inside one.
//!
//! No call takes memory, and none fails but `opened`, by `Busy`.
//!
//! The tests stand in `rs_wire_tests`, in `src/session`.
#![tactic(auto)]

mod act;
mod command;
mod faults;
mod heard;
pub mod laws;
mod phase;
mod session;
mod settings;

pub use act::{Act, Busy, State};
pub use command::Command;
pub use heard::Heard;
pub use session::Session;
pub use settings::Settings;
