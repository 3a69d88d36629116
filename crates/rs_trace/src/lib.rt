//! The library of `rs_replay`: plays recorded sessions to a route server and writes what its clients are
//! sent.
//!
//! A trace comes in by `text` and `lines`; `words`, `number` and `trace` say what each of its lines
//! means, and `trace_lines` what it asks for behind the lines before it; `entries` reads one after the
//! other, `recording` hands that to the core as a link, and `replay` lets the core run, to the end or to
//! a `fault`; `tables` lists a client's Loc-RIB, and `output` says what lines go out, with clients by
//! their `names`. `progress` prints on a terminal how far a long replay is.
#![tactic(auto)]

pub mod entries;
pub mod fault;
pub mod laws;
pub mod lines;
pub mod names;
pub mod number;
pub mod output;
pub mod progress;
pub mod recording;
pub mod replay;
pub mod tables;
pub mod text;
pub mod trace;
pub mod trace_lines;
pub mod words;
