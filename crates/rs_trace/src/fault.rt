//! Why a replay stops for a while, and why it ended early.

use crate::trace::LineFault;
use thiserror::Error;

/// Why a replay ended early.
#[derive(Clone, Copy, Debug, Drop, Error, PartialEq, Eq)]
pub enum ReplayFault {
    /// The line of this number, counted from 1, has this fault.
    #[error("line {0}: {1}")]
    Line(u64, LineFault),
    #[error("out of memory")]
    Memory,
    #[error("reading failed")]
    Reading,
    #[error("writing failed")]
    Writing,
}

/// Why the core was stopped.
#[derive(Clone, Copy, Debug, PartialEq, Eq)]
pub enum Stop {
    /// The text is over.
    End,
    /// The routes of this client are asked for.
    Table(usize),
    /// The replay is over.
    Fault(ReplayFault),
}
