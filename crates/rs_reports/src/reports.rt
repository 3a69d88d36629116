//! What is reported to an operator: what happened and why, so that nobody needs a capture of packets to see it.

ghost use Rattle.std.specs.Prelude.{◌≡◌};
ghost use Rattle.rs_reports.specs.Levels.{level_of};

use crate::logging::Level;
use crate::offers::Offered;
use rs_attrs::{Faulted, Mode};
use rs_core::Ending;
use rs_open::Limit;
use rs_policy::RulesFault;
use rs_streams::file_watch::FileFault;

/// What happened.
#[derive(Clone, Copy, Debug, PartialEq, Eq)]
pub enum Report {
    /// Connections came from addresses that are no client's: the first of them, and how many.
    Strangers {
        address: u32,
        count: u64,
    },
    /// A client's session is Established.
    Up {
        client: usize,
        mode: Mode,
        limit: Limit,
        hold: u16,
    },
    /// A client's session has ended; `None`: before anything was heard of it. What its OPEN offered, where
    /// that came in one piece.
    Down {
        client: usize,
        ending: Option<Ending>,
        offered: Option<Offered>,
    },
    /// So many connections came from a client's address, and were closed since it has one.
    Busy {
        client: usize,
        address: u32,
        count: u64,
        holder: Holder,
    },
    /// So many connections came from the address of a client that the operator keeps down, and were closed.
    KeptOut {
        client: usize,
        address: u32,
        count: u64,
    },
    /// The operator ordered that connections of a client are taken again.
    Enabled {
        client: usize,
    },
    /// UPDATEs of a client were not taken as they came (RFC 7606, 2): how many since the last such
    /// report, and what was wrong with the last.
    Faulted {
        client: usize,
        count: u64,
        last: Faulted,
    },
    /// A client sends routes in MP_REACH_NLRI (RFC 4760, 3), which are passed over.
    PassedOver {
        client: usize,
    },
    /// A text of rules was accepted, or why it was not.
    Rules(Result<(), RulesFault>),
    /// The file of rules was not read.
    File(FileFault),
    /// So many reports of a client were left out, since there was one in that second already.
    LeftOut {
        client: usize,
        count: u64,
    },
}

/// What has the place of a client's connection.
#[derive(Clone, Copy, Debug, PartialEq, Eq)]
pub enum Holder {
    /// A session that is Established.
    Session,
    /// A connection whose session is not Established yet.
    Connection,
    /// Nothing any more.
    Nothing,
}

impl Report {
    /// From which level of the log on it is printed.
    pub fn level(&self) -> Level
        ensures { result ≡ level_of self.now }
    {
        match self {
            Report::Down { .. }
            | Report::Busy { .. }
            | Report::KeptOut { .. }
            | Report::Strangers { .. }
            | Report::Rules(Err(_))
            | Report::File(_)
            | Report::LeftOut { .. } => Level::Error,
            Report::Up { .. } | Report::Enabled { .. } | Report::Rules(Ok(())) => Level::Change,
            Report::Faulted { .. } | Report::PassedOver { .. } => Level::Route,
        }
    }
}
