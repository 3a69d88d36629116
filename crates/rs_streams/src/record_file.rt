//! A file of the record. What was recorded waits in memory until the file has taken it, so the file has
//! a front of all that was put in, and once everything is written all of it. Where the file takes no more it
//! is cut off behind its last whole line.

ghost use Rattle.std.specs.Prelude.{◌≡◌, ◌≤◌, ◌++◌, [], length, IsOk, IsErr};
ghost use Rattle.rs_streams.specs.Printing.{Goes};

use crate::record_queue::RecordQueue;
use crate::streams::Stream;
use std::alloc::{AllocError, Global};
use std::fs::OpenFile;
use std::io::Write;
use thiserror::Error;

/// How many octets may wait at the end of a round: 1 MiB.
pub const ROOM: usize = 1_048_576;

/// The most octets of one write: 256 KiB.
const STEP: usize = 262_144;

/// Why a record ends before the run does.
#[derive(Clone, Copy, Debug, Drop, Error, PartialEq, Eq)]
pub enum RecordEnd {
    #[error("the file takes no more")]
    File,
    #[error("the next file can't be made")]
    NextFile,
    #[error("out of memory")]
    Memory,
    #[error("rules of more than 64 MiB")]
    Rules,
}

/// What octets are appended to: it takes some of them at once, or none any more.
pub trait Appended: Stream {
    /// Cuts it off behind so many octets.
    fn cut(&mut self, size: u64);
}

/// A file of the system.
#[derive(Drop)]
pub struct AppendedFile<F>(pub F);

impl<F: Write + OpenFile + Drop> Stream for AppendedFile<F> {
    ghost takes = { λ a octets b. Unit {0} };

    fn give(&mut self, octets: &[u8]) -> usize {
        let front = octets.get(..STEP).unwrap_or(octets);
        match self.0.write(front) {
            Ok(count) => count.min(front.len()),
            Err(_) => 0,
        }
    }
}

impl<F: Write + OpenFile + Drop> Appended for AppendedFile<F> {
    fn cut(&mut self, size: u64) {
        // Where it can't be cut off, its last line is not whole, and a replay says so.
        let _ = self.0.set_len(size);
    }
}

/// How many octets of a file are whole lines, where so many were before and it takes these behind all.
fn whole_lines(before: u64, all: u64, octets: &[u8]) -> u64 {
    match octets.iter().rposition(|it| *it == b'\n') {
        Some(at) => all.saturating_add(at as u64).saturating_add(1),
        None => before,
    }
}

/// A file, and what waits for it.
#[derive(Drop)]
pub struct RecordFile<S> {
    file: S,
    queue: RecordQueue,
    /// How many octets the file has taken, and how many of these are whole lines.
    taken: u64,
    whole: u64,
}

impl<S: Appended> RecordFile<S> {
    /// A file that is empty.
    pub fn new(alloc: Global, file: S) -> RecordFile<S>
        ensures file { result.file ≡ file }
        ensures queue { result.queue ≡ [] }
    {
        RecordFile {
            file,
            queue: RecordQueue::new(alloc),
            taken: 0,
            whole: 0,
        }
    }

    /// Whole lines are recorded, all of them, or none where memory is refused.
    pub fn put(&mut self, lines: &[u8]) -> Result<(), AllocError>
        ensures file { self.new.file ≡ self.old.file }
        ensures whole { IsOk result → self.new.queue ≡ self.old.queue ++ lines.now }
        ensures none { IsErr result → self.new.queue ≡ self.old.queue }
    {
        self.queue.put(lines)
    }

    /// How many octets the file has once nothing waits.
    pub fn size(&self) -> u64 {
        self.taken.saturating_add(self.queue.len() as u64)
    }

    /// Writes a step of what waits, and further until at most so many octets wait.
    ///
    /// # Errors
    ///
    /// `File` where the file takes nothing: what it hasn't taken still waits.
    pub fn write_to(&mut self, most: usize) -> Result<(), RecordEnd>
        ensures goes { Goes S.takes self.old.file self.old.queue self.new.file self.new.queue }
        ensures fine { IsOk result → length self.new.queue ≤ most }
    {
        for _ in 0..u64::MAX {
            if self.queue.len() == 0 {
                return Ok(());
            }
            self.step()?;
            if self.queue.len() <= most {
                return Ok(());
            }
        }
        Err(RecordEnd::File)
    }

    /// Writes a step of what waits.
    fn step(&mut self) -> Result<(), RecordEnd>
        ensures goes { Goes S.takes self.old.file self.old.queue self.new.file self.new.queue }
    {
        let waiting = self.queue.waiting();
        let count = self.file.give(waiting);
        let given = waiting.get(..count).unwrap_or(&[]);
        self.whole = whole_lines(self.whole, self.taken, given);
        self.taken = self.taken.saturating_add(count as u64);
        self.queue.took(count);
        if count == 0 {
            return Err(RecordEnd::File);
        }
        Ok(())
    }

    /// Ends the file with a last line, where it takes that: all that waits is written before it, or what the
    /// file has taken of a line is cut off.
    pub fn end(&mut self, line: &[u8]) {
        if self.write_to(0).is_err() {
            self.queue.clear();
            self.file.cut(self.whole);
        }
        if self.file.give(line) < line.len() {
            self.file.cut(self.whole);
        }
    }
}
