//! The two ends of a replay: a text that is read and a text that is written, each with a count of
//! the calls that failed. Nothing else of the crate reads or writes.

ghost use Rattle.std.specs.Prelude.{◌≡◌, ◌≤◌, ◌<◌, ◌+◌, ◌++◌, ℕ, List, [], min, take, length, IfOk, IsOk, IsErr};
ghost use Rattle.std.specs.Io.KnownBytes.{Consumes, Appends, IsAtEnd};
ghost use Rattle.std.proofs.KnownBytes.{Consumes-nil, Consumes-trans, Appends-nil, Appends-trans};
ghost use Rattle.rs_trace.specs.Texts.{IsKnown, none_left};

use std::io::{Read, Write};

/// A call failed.
#[derive(Clone, Copy, Debug, PartialEq, Eq)]
pub struct Failed;

/// Counts a call that failed.
fn counted(failures: &mut u64) -> Failed
    ensures { failures.new ≡ min (failures.old + 1) 18446744073709551615 }
{
    *failures = failures.saturating_add(1);
    Failed
}

/// A text that is read. `takes a octets b` says that the calls between `a` and `b` took these
/// octets, and `at_end a` that no more come, where what is left is known.
///
/// `failures` counts the calls that failed. At `u64::MAX` it stays, and each further call fails.
pub trait TextIn {
    ghost failures: { Self → ℕ };

    ghost takes: { Self → List ℕ → Self → Type 0 };

    ghost at_end: { Self → Type 0 };

    ghost is_known: { Self → Type 0 };

    /// Reads some octets to the front of `room`, and answers how many. 0 for some room is the end of
    /// the text. A call that fails takes nothing.
    fn read(&mut self, room: &mut [u8]) -> Result<usize, Failed>
        ensures count { IfOk result (λ n. n ≤ length room.old) }
        ensures octets { IfOk result (λ n. takes self.old (take n room.new) self.new) }
        ensures end { IfOk result (λ n. n ≡ 0 → 0 < length room.old → at_end self.new) }
        ensures none_taken { IsErr result → takes self.old [] self.new }
        ensures ok { IsOk result → failures self.new ≡ failures self.old }
        ensures err { IsErr result → failures self.new ≡ min (failures self.old + 1) 18446744073709551615 };

    ghost takes_none: { (a : Self) → takes a [] a };

    ghost takes_on: { (a b c : Self) (xs ys : List ℕ) → takes a xs b → takes b ys c → takes a (xs ++ ys) c };

    ghost none_behind_end: { (a b : Self) (xs : List ℕ) → is_known a → at_end a → takes a xs b → xs ≡ [] };
}

/// A text that is written. `puts a octets b` says that the calls between `a` and `b` put these octets.
///
/// `failures` counts the calls that failed. At `u64::MAX` it stays, and each further call fails.
pub trait TextOut {
    ghost failures: { Self → ℕ };

    ghost puts: { Self → List ℕ → Self → Type 0 };

    /// Writes a front of the octets, and answers its length: at least 1 of some octets. A call that
    /// fails puts nothing.
    fn write(&mut self, octets: &[u8]) -> Result<usize, Failed>
        ensures count { IfOk result (λ n. n ≤ length octets.now) }
        ensures some { IfOk result (λ n. min 1 (length octets.now) ≤ n) }
        ensures octets { IfOk result (λ n. puts self.old (take n octets.now) self.new) }
        ensures none_put { IsErr result → puts self.old [] self.new }
        ensures ok { IsOk result → failures self.new ≡ failures self.old }
        ensures err { IsErr result → failures self.new ≡ min (failures self.old + 1) 18446744073709551615 };

    ghost puts_none: { (a : Self) → puts a [] a };

    ghost puts_on: { (a b c : Self) (xs ys : List ℕ) → puts a xs b → puts b ys c → puts a (xs ++ ys) c };
}

/// A reader of std's as a text.
#[derive(Drop)]
pub struct OverRead<R> {
    pub reader: R,
    failures: u64,
}

impl<R: Read> OverRead<R> {
    /// No call has failed yet.
    pub fn new(reader: R) -> OverRead<R>
        ensures reader { result.reader ≡ reader }
        ensures count { ⟦<OverRead<R> as TextIn>⟧.failures result ≡ 0 }
    {
        OverRead {
            reader,
            failures: 0,
        }
    }
}

impl<R: Read> TextIn for OverRead<R> {
    ghost failures = { λ a. a.failures };

    ghost takes = { λ a octets b. Consumes (R.remaining a.reader) (R.remaining b.reader) octets };

    ghost at_end = { λ a. IsAtEnd (R.remaining a.reader) };

    ghost is_known = { λ a. IsKnown (R.remaining a.reader) };

    ghost takes_none = { λ a. Consumes-nil (R.remaining a.reader) };

    ghost takes_on = { λ a b c xs ys. Consumes-trans (R.remaining a.reader) (R.remaining b.reader) (R.remaining c.reader) xs ys };

    ghost none_behind_end = { λ a b xs known end taken. none_left (R.remaining a.reader) (R.remaining b.reader) xs known end taken };

    fn read(&mut self, room: &mut [u8]) -> Result<usize, Failed> {
        if self.failures < u64::MAX
            && let Ok(n) = self.reader.read(room)
        {
            return Ok(n);
        }
        Err(counted(&mut self.failures))
    }
}

/// A writer of std's as a text.
#[derive(Drop)]
pub struct OverWrite<W> {
    pub writer: W,
    failures: u64,
}

impl<W: Write> OverWrite<W> {
    /// No call has failed yet.
    pub fn new(writer: W) -> OverWrite<W>
        ensures writer { result.writer ≡ writer }
        ensures count { ⟦<OverWrite<W> as TextOut>⟧.failures result ≡ 0 }
    {
        OverWrite {
            writer,
            failures: 0,
        }
    }

    /// Hands on what the writer holds back. It counts as `write` does.
    pub fn flush(&mut self) -> Result<(), Failed>
        ensures ok { IsOk result → ⟦<OverWrite<W> as TextOut>⟧.failures self.new ≡ ⟦<OverWrite<W> as TextOut>⟧.failures self.old }
        ensures err { IsErr result → ⟦<OverWrite<W> as TextOut>⟧.failures self.new ≡ min (⟦<OverWrite<W> as TextOut>⟧.failures self.old + 1) 18446744073709551615 }
    {
        if self.failures < u64::MAX && self.writer.flush().is_ok() {
            return Ok(());
        }
        Err(counted(&mut self.failures))
    }
}

impl<W: Write> TextOut for OverWrite<W> {
    ghost failures = { λ a. a.failures };

    ghost puts = { λ a octets b. Appends (W.contents a.writer) (W.contents b.writer) octets };

    ghost puts_none = { λ a. Appends-nil (W.contents a.writer) };

    ghost puts_on = { λ a b c xs ys. Appends-trans (W.contents a.writer) (W.contents b.writer) (W.contents c.writer) xs ys };

    fn write(&mut self, octets: &[u8]) -> Result<usize, Failed> {
        if self.failures < u64::MAX
            && let Ok(n) = self.writer.write(octets)
            && (n > 0 || octets.is_empty())
        {
            return Ok(n);
        }
        Err(counted(&mut self.failures))
    }
}
