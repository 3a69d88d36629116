//! The command lines of both programs: their words come in; the options, or the status to end with, go out.
//!
//! `replay` has the command line of rs_replay and `serve` that of rs_served; `arguments` are the kinds
//! of arguments that both have, `version` is what both print of themselves, and `asked` reads a command line
//! and has what comes of it. Nothing else of the repository knows `clap`.
#![tactic(auto)]

mod arguments;
mod asked;
pub mod replay;
pub mod serve;
mod version;

pub use asked::{Asked, CommandLine, read_command};
