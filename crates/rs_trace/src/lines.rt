//! A text as lines, one after the other, in bounded memory. It reads by `TextIn` alone and knows
//! nothing of what a line says.

ghost use Rattle.std.specs.Prelude.{◌≡◌, ◌≤◌, ◌<◌, ◌+◌, ◌-◌, ◌++◌, ℕ, List, [], true, false, min, length, take, drop, IfOk, IsOk, IsErr, OnOk, OnErr};
ghost use Rattle.std.specs.Bool.{OnTrue, OnFalse};
ghost use Rattle.std.specs.List.{slice_range};
ghost use Rattle.rs_trace.specs.Lines.{IsFirstLine, IsStep, Fills};

use crate::text::{Failed, TextIn};
use crate::trace::LONGEST_LINE;
use crate::words::first_place;
use std::alloc::{AllocError, Global};
use std::marker::Model;

/// The octets that are held: a line that is too long, and about as much again to read into.
const ROOM: usize = 16384;

/// Reads lines: it shows the one that it came to, and holds what it has read after it.
#[derive(Drop)]
pub struct Lines {
    buffer: Vec<u8>,
    line_start: usize,
    line_end: usize,
    rest_start: usize,
    rest_end: usize,
    is_over: bool,
}

impl Model for Lines {
    ghost use Rattle.std.specs.Prelude.{◌≡◌, ◌≤◌, vec_len};
    ghost use Rattle.std.specs.List.{slice_range};
    ghost use Rattle.rs_trace.specs.Lines.{Reading};

    ghost Value = { Reading };

    ghost view = { λ l. record { line = slice_range l.buffer.items l.line_start l.line_end; rest = slice_range l.buffer.items l.rest_start l.rest_end; is_over = l.is_over } };

    ghost invariant = { λ l. (l.line_start ≤ l.line_end) × (l.line_end ≤ 16384) × (l.rest_start ≤ l.rest_end) × (l.rest_end ≤ 16384) × (vec_len l.buffer ≡ 16384) };
}

/// Moves a part of the octets to their front.
fn move_to_front(octets: &mut [u8], start: usize, end: usize)
    requires order { start ≤ end }
    requires within { end ≤ length octets.old }
    ensures { take (end - start) octets.new ≡ slice_range octets.old start end }
{
    octets.copy_within(start..end, 0);
}

/// Reads to the octets after a front, which stays, and answers how many octets that took.
fn read_behind<R: TextIn>(reader: &mut R, octets: &mut [u8], front: usize) -> Result<usize, Failed>
    requires { front ≤ length octets.old }
    ensures within { IfOk result (λ n. front + n ≤ length octets.old) }
    ensures ok { IfOk result (λ n. R.takes reader.old (slice_range octets.new front (front + n)) reader.new) }
    ensures end { IfOk result (λ n. n ≡ 0 → front < length octets.old → R.at_end reader.new) }
    ensures kept { take front octets.new ≡ take front octets.old }
    ensures err { OnErr result (R.takes reader.old [] reader.new) }
    ensures counted { IsOk result → R.failures reader.new ≡ R.failures reader.old }
    ensures failed { IsErr result → R.failures reader.new ≡ min (R.failures reader.old + 1) 18446744073709551615 }
{
    reader.read(&mut octets[front..])
}

impl Lines {
    /// Before the first line of a text.
    pub fn new(alloc: Global) -> Result<Lines, AllocError>
        ensures { IfOk result (λ l. l ≡ record { line = []; rest = []; is_over = false }) }
    {
        Ok(Lines {
            buffer: Vec::from_elem(alloc, 0, ROOM)?,
            line_start: 0,
            line_end: 0,
            rest_start: 0,
            rest_end: 0,
            is_over: false,
        })
    }

    /// The line that the last step came to, without its end. Of a line of more than
    /// `LONGEST_LINE` octets it is a front that is longer than that.
    pub fn line(&self) -> &[u8]
        ensures { result.now ≡ self.now.line }
    {
        &self.buffer[self.line_start..self.line_end]
    }

    /// Makes the next `size` octets the line, and leaves out as many after them as its end has.
    fn take_line(&mut self, size: usize, end: usize)
        requires { size + end ≤ length self.old.rest }
        ensures line { self.new.line ≡ take size self.old.rest }
        ensures rest { self.new.rest ≡ drop (size + end) self.old.rest }
        ensures over { self.new.is_over ≡ self.old.is_over }
    {
        self.line_start = self.rest_start;
        self.line_end = self.rest_start + size;
        self.rest_start += size + end;
    }

    /// Whether what waits begins with a line, which is then taken.
    fn take_first_line(&mut self) -> bool
        ensures some { OnTrue result (IsFirstLine self.old.rest self.new) }
        ensures over { self.new.is_over ≡ self.old.is_over }
        ensures none { OnFalse result (self.new ≡ self.old) }
        ensures short { OnFalse result (length self.old.rest ≤ 8240) }
        ensures ended { OnFalse result (self.old.is_over ≡ true → self.old.rest ≡ []) }
    {
        let size = self.rest_end - self.rest_start;
        let most = size.min(LONGEST_LINE + 1);
        let front = &self.buffer[self.rest_start..self.rest_start + most];
        if let Some(end) = first_place(b'\n', front) {
            self.take_line(end, 1);
            return true;
        }
        if size > LONGEST_LINE {
            self.take_line(most, 0);
            return true;
        }
        if self.is_over && size > 0 {
            self.take_line(most, 0);
            return true;
        }
        false
    }

    /// Reads more, which is put after what waits.
    fn read_more<R: TextIn>(&mut self, reader: &mut R) -> Result<(), Failed>
        requires { length self.old.rest ≤ 8240 }
        ensures ok { OnOk result ((taken : List ℕ) × R.takes reader.old taken reader.new × Fills self.old self.new taken) }
        ensures ended { OnOk result (self.new.is_over ≡ true → R.at_end reader.new) }
        ensures kept { OnErr result ((self.new.rest ≡ self.old.rest) × R.takes reader.old [] reader.new) }
        ensures counted { IsOk result → R.failures reader.new ≡ R.failures reader.old }
        ensures failed { IsErr result → R.failures reader.new ≡ min (R.failures reader.old + 1) 18446744073709551615 }
    {
        let size = self.rest_end - self.rest_start;
        let octets = self.buffer.as_mut_slice();
        move_to_front(octets, self.rest_start, self.rest_end);
        self.line_start = 0;
        self.line_end = 0;
        self.rest_start = 0;
        self.rest_end = size;
        let taken = read_behind(reader, octets, size)?;
        self.rest_end = size + taken;
        self.is_over = taken == 0;
        Ok(())
    }

    /// Steps to the next line, and answers whether there is one. Where a call fails, what was read
    /// waits.
    pub fn advance<R: TextIn>(&mut self, reader: &mut R) -> Result<bool, Failed>
        ensures step { IfOk result (λ is_line. (taken : List ℕ) × R.takes reader.old taken reader.new × IsStep is_line self.old self.new taken) }
        ensures ended { OnOk result ((self.old.is_over ≡ true → R.at_end reader.old) → self.new.is_over ≡ true → R.at_end reader.new) }
        ensures kept { OnErr result ((taken : List ℕ) × R.takes reader.old taken reader.new × (self.new.rest ≡ self.old.rest ++ taken) × (self.old.is_over ≡ true → taken ≡ [])) }
        ensures counted { IsOk result → R.failures reader.new ≡ R.failures reader.old }
        ensures failed { IsErr result → R.failures reader.new ≡ min (R.failures reader.old + 1) 18446744073709551615 }
    {
        while !self.take_first_line() {
            if self.is_over {
                return Ok(false);
            }
            self.read_more(reader)?;
        }
        Ok(true)
    }
}
