//! How far standard input was read, where it is a regular file.

use rs_trace::progress::{Measure, Share};
use std::fs;
use std::rt::Files;

/// Standard input that is a regular file: where it began and where it ends, in octets; and how many
/// lines are read at most.
#[derive(Clone, Copy, Drop)]
pub(crate) struct StandardInput {
    start: u64,
    end: u64,
    until: Option<u64>,
}

/// At which octet standard input stands, where it has places.
fn place() -> Option<u64> {
    u64::try_from(libc::lseek(libc::STDIN_FILENO, 0, libc::SEEK_CUR)).ok()
}

impl StandardInput {
    /// Before the first line; none where it is no regular file.
    pub(crate) fn new<R: Files>(rt: &R, until: Option<u64>) -> Option<StandardInput> {
        let metadata = fs::metadata(rt, "/dev/stdin").ok()?;
        if !metadata.is_file() {
            return None;
        }
        Some(StandardInput {
            start: place()?,
            end: metadata.len(),
            until,
        })
    }
}

impl Measure for StandardInput {
    fn share(&self, lines: u64) -> Option<Share> {
        let read = Share {
            done: place()?.saturating_sub(self.start),
            whole: self.end.saturating_sub(self.start),
        };
        match self.until {
            Some(until) => Some(read.greater(Share {
                done: lines,
                whole: until,
            })),
            None => Some(read),
        }
    }
}
