//! Lines on their way to a stream, which may take nothing for as long as it likes: a line that doesn't
//! fit is dropped and counted, and the count is a line of its own before the next that fits.

ghost use Rattle.std.specs.Prelude.{◌≡◌, ◌≢◌, ◌<◌, ◌+◌, ◌++◌, [], length, IfOk, IsTrue, IsFalse};
ghost use Rattle.rs_streams.specs.Printing.{Goes, Comes, count_line};

use crate::backlog::Backlog;
use crate::streams::Stream;
use itoa::Buffer;
use std::alloc::{AllocError, Global};

/// How often in a row a stream is given what waits.
const GIVEN: usize = 64;

/// Lines that a stream has not taken yet, and how many were dropped since the last that fitted.
#[derive(Drop)]
pub struct LineQueue<S> {
    stream: S,
    waiting: Backlog,
    dropped: u64,
}

impl<S: Stream> LineQueue<S> {
    /// No line has come yet.
    pub fn new(alloc: Global, stream: S) -> Result<LineQueue<S>, AllocError>
        ensures stream { IfOk result (λ q. q.stream ≡ stream) }
        ensures waiting { IfOk result (λ q. q.waiting ≡ []) }
        ensures dropped { IfOk result (λ q. q.dropped ≡ 0) }
    {
        Ok(LineQueue {
            stream,
            waiting: Backlog::new(alloc)?,
            dropped: 0,
        })
    }

    /// A line comes, with its end: it waits and goes out, or is dropped and counted.
    pub fn put(&mut self, line: &[u8])
        ensures { Comes S.takes line.now self.old self.new }
    {
        self.flush();
        if self.put_counted(line) {
            self.dropped = 0;
            self.flush();
        } else {
            self.drop_line();
        }
    }

    /// Counts a line that is dropped.
    pub fn drop_line(&mut self)
        ensures stream { self.new.stream ≡ self.old.stream }
        ensures waiting { self.new.waiting ≡ self.old.waiting }
        ensures dropped { self.old.dropped < 18446744073709551615 → self.new.dropped ≡ self.old.dropped + 1 }
    {
        self.dropped = self.dropped.saturating_add(1);
    }

    /// Puts in a line after the count of those that were dropped, both or none; answers whether they fit.
    #[tactic(auto, using(crate::proofs::Printing::counted_none))]
    fn put_counted(&mut self, line: &[u8]) -> bool
        ensures stream { self.new.stream ≡ self.old.stream }
        ensures dropped { self.new.dropped ≡ self.old.dropped }
        ensures whole { IsTrue result → self.new.waiting ≡ self.old.waiting ++ (count_line self.old.dropped ++ line.now) }
        ensures none { IsFalse result → self.new.waiting ≡ self.old.waiting }
        ensures room { IsFalse result → 65536 < length self.old.waiting + length (count_line self.old.dropped ++ line.now) }
    {
        if self.dropped == 0 {
            return self.waiting.put(line);
        }
        self.put_behind_count(line)
    }

    /// The same where some were dropped.
    #[tactic(auto, using(crate::proofs::Printing::counted_length, crate::proofs::Printing::counted_parts))]
    fn put_behind_count(&mut self, line: &[u8]) -> bool
        requires { self.old.dropped ≢ 0 }
        ensures stream { self.new.stream ≡ self.old.stream }
        ensures dropped { self.new.dropped ≡ self.old.dropped }
        ensures whole { IsTrue result → self.new.waiting ≡ self.old.waiting ++ (count_line self.old.dropped ++ line.now) }
        ensures none { IsFalse result → self.new.waiting ≡ self.old.waiting }
        ensures room { IsFalse result → 65536 < length self.old.waiting + length (count_line self.old.dropped ++ line.now) }
    {
        let mut buffer = Buffer::new();
        let digits = buffer.format(self.dropped).as_bytes();
        if digits.len() + 9 + line.len() > self.waiting.room() {
            return false;
        }
        self.waiting.put(b"dropped ");
        self.waiting.put(digits);
        self.waiting.put(b"\n");
        self.waiting.put(line)
    }

    /// Gives the stream what waits, until it takes no more.
    pub fn flush(&mut self)
        ensures goes { Goes S.takes self.old.stream self.old.waiting self.new.stream self.new.waiting }
        ensures dropped { self.new.dropped ≡ self.old.dropped }
    {
        for _ in 0..GIVEN {
            if self.waiting.is_empty() {
                return;
            }
            let count = self.stream.give(self.waiting.waiting());
            self.waiting.took(count);
            if count == 0 {
                return;
            }
        }
    }
}
