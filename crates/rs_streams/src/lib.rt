//! What the live server prints and keeps on disk, and the files that it reads again: octets that wait for
//! `streams`, which keep nobody waiting.
//!
//! A `printer` puts whole lines into a `line_queue`, whose octets wait in a `backlog` until the stream takes
//! them. A `record_file` is what was recorded, with what waits for it in a `record_queue`. `file_watch` says
//! when the files of rules are to be read again.
#![tactic(auto)]

pub mod backlog;
pub mod file_watch;
pub mod line_queue;
pub mod printer;
pub mod record_file;
pub mod record_queue;
pub mod streams;
