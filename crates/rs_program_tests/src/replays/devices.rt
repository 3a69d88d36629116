//! A reader and a writer that give and take little at a time, and fail from a chosen call on.

ghost use Rattle.std.specs.Prelude.{Some};
ghost use Rattle.std.specs.Io.KnownBytes.{Consumes, Appends, IsAtEnd};
ghost use Rattle.std.proofs.KnownBytes.{Consumes-nil, Consumes-trans, Appends-nil, Appends-trans};
ghost use Rattle.rs_trace.specs.Texts.{IsKnown, none_left};

use super::MEMBERS;
use crate::common::{holds_of, is, is_of, play_over};
use rs_trace::fault::ReplayFault;
use rs_trace::text::{Failed, OverWrite, TextIn, TextOut};
use rs_trace::trace::LineFault;
use std::alloc::Global;
use std::process::Abort;
use std::sync::Wait;
use std::thread::Threads;

#[derive(Drop)]
struct FailingIn<'a> {
    text: &'a [u8],
    good_calls: u64,
    failures: u64,
}

impl TextIn for FailingIn<'_> {
    ghost failures = { λ a. a.failures };

    ghost takes = { λ a octets b. Consumes (Some a.text.now) (Some b.text.now) octets };

    ghost at_end = { λ a. IsAtEnd (Some a.text.now) };

    ghost is_known = { λ a. IsKnown (Some a.text.now) };

    ghost takes_none = { λ a. Consumes-nil (Some a.text.now) };

    ghost takes_on = { λ a b c xs ys. Consumes-trans (Some a.text.now) (Some b.text.now) (Some c.text.now) xs ys };

    ghost none_behind_end = { λ a b xs known end taken. none_left (Some a.text.now) (Some b.text.now) xs known end taken };

    fn read(&mut self, room: &mut [u8]) -> Result<usize, Failed> {
        if self.failures < u64::MAX && self.good_calls > 0 {
            self.good_calls -= 1;
            let size = self.text.len().min(room.len()).min(7);
            let (front, rest) = self.text.split_at(size);
            room[..size].copy_from_slice(front);
            self.text = rest;
            return Ok(size);
        }
        self.failures = self.failures.saturating_add(1);
        Err(Failed)
    }
}

#[derive(Drop)]
struct FailingOut {
    text: Vec<u8>,
    good_calls: u64,
    failures: u64,
}

impl TextOut for FailingOut {
    ghost failures = { λ a. a.failures };

    ghost puts = { λ a octets b. Appends (Some a.text.items) (Some b.text.items) octets };

    ghost puts_none = { λ a. Appends-nil (Some a.text.items) };

    ghost puts_on = { λ a b c xs ys. Appends-trans (Some a.text.items) (Some b.text.items) (Some c.text.items) xs ys };

    fn write(&mut self, octets: &[u8]) -> Result<usize, Failed> {
        if self.failures < u64::MAX && self.good_calls > 0 {
            self.good_calls -= 1;
            let size = octets.len().min(5);
            if self.text.extend_from_slice(&octets[..size]).is_ok() {
                return Ok(size);
            }
        }
        self.failures = self.failures.saturating_add(1);
        Err(Failed)
    }
}

/// Two members come up, a's route goes to b, and a line with a fault.
const TRACE: &[u8] = b"open a
octets a ffffffffffffffffffffffffffffffff00250104fbf0005ac000020b08020641040000fbf0
octets a ffffffffffffffffffffffffffffffff001304
room a 1000
open b
octets b ffffffffffffffffffffffffffffffff00250104fbf1005ac000020c08020641040000fbf1
octets b ffffffffffffffffffffffffffffffff001304
room b 1000
octets a ffffffffffffffffffffffffffffffff002f02000000144001010040020602010000fbf0400304c000020b18c63364
turn
room b 5000

# end
open a
turns
turn
";

const WRITTEN: &[u8] =
    b"sent a ffffffffffffffffffffffffffffffff00250104fbf4005ac000020108020641040000fbf4
sent a ffffffffffffffffffffffffffffffff001304
sent b ffffffffffffffffffffffffffffffff00250104fbf4005ac000020108020641040000fbf4
sent b ffffffffffffffffffffffffffffffff001304
sent b ffffffffffffffffffffffffffffffff002f02000000144001010040020602010000fbf0400304c000020b18c63364
busy a
line 15: unknown word
";

/// So many readings of seven octets take the text up to its fault, and so many writings of five what is written.
const READINGS: u64 = 64;

const WRITINGS: u64 = 82;

/// Reading fails after so many calls, or writing does, where the trace needs more; all is written, where no call
/// that wrote failed, and else the front of it.
fn fails<R: Threads + Wait + Sync + Abort>(rt: &R, alloc: Global, readings: u64, writings: u64) {
    let mut reader = FailingIn {
        text: TRACE,
        good_calls: readings,
        failures: 0,
    };
    let mut writer = FailingOut {
        text: Vec::new(alloc),
        good_calls: writings,
        failures: 0,
    };
    let played = play_over(rt, alloc, MEMBERS, &mut reader, &mut writer);
    let number = readings.min(writings);
    let (no_reading, no_writing) = (readings < READINGS, writings < WRITINGS);
    is_of(rt, reader.failures > 0, no_reading, number);
    is_of(rt, writer.failures, u64::from(no_writing), number);
    let wanted = if no_reading {
        ReplayFault::Reading
    } else if no_writing {
        ReplayFault::Writing
    } else {
        ReplayFault::Line(15, LineFault::UnknownWord)
    };
    is_of(rt, played, Err(wanted), number);
    let text = writer.text.as_slice();
    let is_whole = !no_reading && !no_writing;
    let is_front = WRITTEN.starts_with(text);
    let is_so = is_front && (!is_whole || text.len() == WRITTEN.len());
    holds_of(rt, is_so, "what is written", number);
}

#[test]
fn each_call_failing(rt: HostRuntime) {
    for good_calls in 0..100u64 {
        fails(&rt, rt.alloc(), good_calls, 100);
        fails(&rt, rt.alloc(), 100, good_calls);
    }
}

#[test]
fn counts_that_are_full(rt: HostRuntime) {
    let mut reader = FailingIn {
        text: TRACE,
        good_calls: 100,
        failures: u64::MAX,
    };
    let mut written = Vec::new(rt.alloc());
    let mut writer = OverWrite::new(&mut written);
    let played = play_over(&rt, rt.alloc(), MEMBERS, &mut reader, &mut writer);
    is(&rt, played, Err(ReplayFault::Reading), "the replay");
    is(&rt, reader.failures, u64::MAX, "failures of the reader");
    is(&rt, reader.text, TRACE, "what is left to be read");
}
