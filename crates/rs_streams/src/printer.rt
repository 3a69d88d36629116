//! Values as lines for a stream that nobody may read.

use crate::line_queue::LineQueue;
use crate::streams::Stream;
use std::alloc::{AllocError, Global};
use std::fmt::Display;

/// The room for a line that is taken at the start, in octets.
const LINE: usize = 4096;

/// A queue of lines, and the line that is made next.
#[derive(Drop)]
pub struct Printer<S> {
    queue: LineQueue<S>,
    line: String,
}

impl<S: Stream> Printer<S> {
    /// Nothing was printed yet.
    pub fn new(alloc: Global, stream: S) -> Result<Printer<S>, AllocError> {
        let mut line = String::new(alloc);
        line.reserve(LINE)?;
        Ok(Printer {
            queue: LineQueue::new(alloc, stream)?,
            line,
        })
    }

    /// Prints a value as a line. It is dropped and counted where the queue has no room, and where there is
    /// no memory for its text.
    pub fn print<T: Display + Drop>(&mut self, value: T) {
        self.line.clear();
        match writeln!(self.line, "{value}") {
            Ok(()) => self.queue.put(self.line.as_bytes()),
            Err(_) => self.queue.drop_line(),
        }
    }

    /// Gives the stream what waits.
    pub fn flush(&mut self) {
        self.queue.flush();
    }
}
