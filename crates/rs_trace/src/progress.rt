//! What is printed of a long replay while it runs: how many lines were read, how many UPDATEs were
//! heard and, where that is known, which part of the trace that is and how long the rest takes. It sees
//! each line that was read, and has no part in what is read and written.

ghost use Rattle.std.specs.Prelude.{◌≡◌, ◌≢◌, ◌≤◌, ◌<◌, ◌↔◌, ◌+◌, ◌-◌, ◌*◌, ◌/◌, ◌^◌, ◌⊎◌, Some, None, IsTrue, IfSome, MatchOption};

use crate::trace::Entry;
use std::alloc::{AllocError, Global};
use std::time::{Clock, Instant};

/// How far a replay is, is printed once in so many lines.
const LINES: u64 = 65536;

/// Who sees what a replay reads.
pub trait Watch {
    /// The line of this number was read. Octets that it gives stand at the front of the piece.
    fn line_read(&mut self, number: u64, entry: Option<Entry>, piece: &[u8; 4096]);

    /// A connection of a client begins: so do its messages.
    fn begun(&mut self, c: usize);
}

/// Nobody watches.
#[derive(Clone, Copy, Drop)]
pub struct Unwatched;

impl Watch for Unwatched {
    fn line_read(&mut self, _number: u64, _entry: Option<Entry>, _piece: &[u8; 4096]) {}

    fn begun(&mut self, _c: usize) {}
}

/// The octets of the message that a client is in (RFC 4271, 4.1): how many have come, and the length
/// and the type that its header gives.
#[derive(Clone, Copy)]
pub struct Message {
    came: usize,
    length: usize,
    kind: u8,
}

/// How many octets a message's header has.
const HEADER: usize = 19;

/// The type of an UPDATE.
const UPDATE: u8 = 2;

impl Message {
    /// None has come.
    pub fn new() -> Message {
        Message {
            came: 0,
            length: HEADER,
            kind: 0,
        }
    }

    /// The next octet, and whether it is the last of an UPDATE.
    fn take(&mut self, octet: u8) -> bool {
        match self.came {
            16 => self.length = usize::from(octet) * 256,
            17 => self.length = self.length.saturating_add(usize::from(octet)),
            18 => self.kind = octet,
            _ => {}
        }
        self.came = self.came.saturating_add(1);
        if self.came < HEADER || self.came < self.length {
            return false;
        }
        let is_update = self.kind == UPDATE;
        *self = Message::new();
        is_update
    }

    /// How many UPDATEs end within the octets that come next.
    pub fn take_all(&mut self, octets: &[u8]) -> u64 {
        let mut updates: u64 = 0;
        for octet in octets {
            if self.take(*octet) {
                updates = updates.saturating_add(1);
            }
        }
        updates
    }
}

/// How much of a whole is done.
#[derive(Clone, Copy, Debug, PartialEq, Eq)]
pub struct Share {
    pub done: u64,
    pub whole: u64,
}

impl Share {
    /// The share in parts of a thousand, rounded down.
    pub fn thousandths(self) -> u64
        ensures all { self.whole ≤ self.done → result ≡ 1000 }
        ensures part { self.done < self.whole → result ≡ self.done * 1000 / self.whole }
    {
        if self.whole <= self.done {
            return 1000;
        }
        thousandths_of(self.done, self.whole)
    }

    /// Whether less is done of this than of another.
    fn is_less(self, other: Share) -> bool
        ensures { IsTrue result ↔ self.done * other.whole < other.done * self.whole }
    {
        u128::from(self.done) * u128::from(other.whole)
            < u128::from(other.done) * u128::from(self.whole)
    }

    /// That of two of which more is done.
    pub fn greater(self, other: Share) -> Share
        ensures this { other.done * self.whole ≤ self.done * other.whole → result ≡ self }
        ensures other { self.done * other.whole < other.done * self.whole → result ≡ other }
    {
        if self.is_less(other) { other } else { self }
    }

    /// How many seconds the rest takes, where what is done took so many thousandths of a second:
    /// unknown where nothing is done.
    pub fn seconds_left(self, millis: u64) -> Option<u64>
        ensures none { self.done ≡ 0 → result ≡ None }
        ensures some { IfSome result (λ seconds. seconds ≡ (self.whole - self.done) * millis / (self.done * 1000)) }
    {
        if self.done == 0 {
            return None;
        }
        let rest = u128::from(self.whole.saturating_sub(self.done));
        let seconds = rest * u128::from(millis) / (u128::from(self.done) * 1000);
        u64::try_from(seconds).ok()
    }
}

/// Parts of a thousand of a whole, of which not all is done.
fn thousandths_of(done: u64, whole: u64) -> u64
    requires { done < whole }
    ensures { result ≡ done * 1000 / whole }
{
    (u128::from(done) * 1000 / u128::from(whole)) as u64
}

/// A time in the unit that it is told in: in seconds up to 99, in minutes up to 100, and in hours, both
/// rounded up.
fn in_units(seconds: u64) -> (u64, &'static str) {
    if seconds < 100 {
        (seconds, "s")
    } else if seconds <= 6000 {
        (seconds.div_ceil(60), "min")
    } else {
        (seconds.div_ceil(3600), "h")
    }
}

/// The part of a hundred that is done, as `12.5 %`, and the time that is left, as `3 min left`, where
/// what is done took so many thousandths of a second. Blanks follow, so that it hides a longer one.
pub fn share_text(alloc: Global, share: Share, millis: u64) -> Result<String, AllocError> {
    let part = share.thousandths();
    let (whole, tenth) = (part / 10, part % 10);
    let Some(seconds) = share.seconds_left(millis) else {
        return format!(in alloc; "{whole}.{tenth} %");
    };
    let (count, unit) = in_units(seconds);
    let left = format!(in alloc; "{count} {unit} left")?;
    format!(in alloc; "{whole}.{tenth} %, {left:<12}")
}

/// Who knows how much of a trace was read.
pub trait Measure {
    /// How much was read, where so many lines were; unknown is none.
    fn share(&self, lines: u64) -> Option<Share>;
}

/// Of a trace whose end isn't known, as one from a pipe.
#[derive(Clone, Copy, Drop)]
pub struct Unmeasured;

impl Measure for Unmeasured {
    fn share(&self, _lines: u64) -> Option<Share> {
        None
    }
}

/// Prints on standard error how far a replay is: at the first moment of each second, and once in
/// `LINES` lines.
#[derive(Drop)]
pub struct Progress<'a, R, M> {
    rt: &'a R,
    alloc: Global,
    measure: M,
    /// When the replay began, where the clock said so.
    start: Option<Instant>,
    /// The message that each client is in.
    messages: Vec<Message>,
    updates: u64,
    /// The line at which that was printed last, and the second that it is.
    reported_at: u64,
    second: Option<u64>,
}

impl<'a, R: Eprint + Clock, M: Measure + Drop> Progress<'a, R, M> {
    /// Before the first line of a replay with so many clients.
    pub fn new(
        rt: &'a R,
        alloc: Global,
        measure: M,
        clients: usize,
    ) -> Result<Progress<'a, R, M>, AllocError> {
        Ok(Progress {
            rt,
            alloc,
            measure,
            start: Instant::now(rt).ok(),
            messages: Vec::from_elem(alloc, Message::new(), clients)?,
            updates: 0,
            reported_at: 0,
            second: None,
        })
    }

    /// A client says these octets.
    fn hear(&mut self, c: usize, octets: &[u8]) {
        if let Some(message) = self.messages.get_mut(c) {
            self.updates = self.updates.saturating_add(message.take_all(octets));
        }
    }

    /// How far the replay is, was printed last `LINES` lines ago, or more.
    fn is_due(&self, number: u64) -> bool
        ensures { IsTrue result ↔ self.now.reported_at + 65536 ≤ number }
    {
        self.reported_at
            .checked_add(LINES)
            .is_some_and(|next| next <= number)
    }

    /// The moment comes to this second, and answers whether it is another than before.
    fn pass(&mut self, second: u64) -> bool
        ensures other { IsTrue result ↔ self.old.second ≢ Some second }
        ensures second { self.new.second ≡ Some second }
    {
        let is_other = self.second != Some(second);
        self.second = Some(second);
        is_other
    }

    /// Which part of the trace so many lines are, and the time that is left, where both are known.
    fn share(&self, lines: u64) -> Option<String> {
        let share = self.measure.share(lines)?;
        let took = self.start?.elapsed(self.rt).ok()?;
        let millis = u64::try_from(took.as_millis()).ok()?;
        share_text(self.alloc, share, millis).ok()
    }

    /// Prints how far the replay is, in the place of what was printed before.
    fn report(&mut self, number: u64) {
        self.reported_at = number;
        let updates = self.updates;
        // Where standard error is closed nobody can read it.
        let _ = match self.share(number) {
            Some(share) => {
                eprint!(self.rt; "\r{number} lines read, {updates} UPDATEs heard, {share}")
            }
            None => eprint!(self.rt; "\r{number} lines read, {updates} UPDATEs heard"),
        };
    }

    /// Ends the line, where something was printed.
    pub fn finish(&self) {
        if self.reported_at > 0 {
            let _ = eprintln!(self.rt);
        }
    }
}

impl<R: Eprint + Clock, M: Measure + Drop> Watch for Progress<'_, R, M> {
    fn line_read(&mut self, number: u64, entry: Option<Entry>, piece: &[u8; 4096]) {
        let is_another_second = match entry {
            Some(Entry::Octets(c, size)) => {
                self.hear(c, &piece[..size.min(4096)]);
                false
            }
            Some(Entry::Moment(second)) => self.pass(second),
            _ => false,
        };
        if is_another_second || self.is_due(number) {
            self.report(number);
        }
    }

    fn begun(&mut self, c: usize) {
        if let Some(message) = self.messages.get_mut(c) {
            *message = Message::new();
        }
    }
}
