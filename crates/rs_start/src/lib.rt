//! What both programs start with, and how they end.
//!
//! `configuration` reads the files of the configuration, and `status` has the statuses.
#![tactic(auto)]

pub mod configuration;
mod status;

pub use status::Status;
