//! What the lines of the log begin with.

use jiff::Timestamp;
use std::fmt;

/// What a line of the log begins with.
#[derive(Clone, Copy, Debug, Drop)]
pub enum Stamp {
    /// The seconds since the start.
    Seconds(u64),
    /// The seconds since 1970-01-01T00:00:00Z, written as RFC 3339 has it.
    Utc(u64),
}

impl fmt::Display for Stamp {
    fn fmt<W: fmt::Write>(&self, f: &mut fmt::Formatter<W>) -> fmt::Result {
        match self {
            Stamp::Seconds(seconds) => write!(f, "{seconds}"),
            Stamp::Utc(seconds) => match i64::try_from(*seconds).map(Timestamp::from_second) {
                Ok(Ok(time)) => write!(f, "{time}"),
                _ => write!(f, "{seconds}"),
            },
        }
    }
}
