//! The lines of a trace, with the text of rules that several of them give.

ghost use Rattle.std.specs.Prelude.{◌≡◌, ◌≤◌, ◌<◌, ◌++◌, ◌⊎◌, ℕ, [], false, length, suc, IfOk, IfErr, OnOk};

use crate::fault::{ReplayFault, Stop};
use crate::lines::Lines;
use crate::names::Names;
use crate::progress::Watch;
use crate::text::TextIn;
use crate::trace::{Entry, LONGEST_TEXT, LineFault, read_line};
use rs_core::Event;
use std::alloc::{AllocError, Global};
use std::mem;

/// A reader of lines, and what it keeps of a text of rules.
#[derive(Drop)]
pub struct TraceLines {
    pub(crate) lines: Lines,
    /// The octets of the lines `more` since the last line `rules`.
    text: Vec<u8>,
    /// The text of the last line `rules`.
    rules: Vec<u8>,
}

impl TraceLines {
    ghost use Rattle.rs_trace.specs.Entries.{line_meant};
    ghost use Rattle.rs_trace.specs.TakingUp.{TakesUp};
    ghost use Rattle.rs_trace.specs.Played.{failures_read, failures_written};
    ghost use Rattle.rs_trace.specs.Replays.{ReadsOn, place_in, meanings_in, stop_of};
    ghost use Rattle.rs_trace.specs.declared.fault.ReplayFault.TheVariants as faults;
    ghost use Rattle.rs_trace.specs.declared.fault.Stop.TheVariants as stops;

    /// Before the first line.
    pub fn new(alloc: Global) -> Result<TraceLines, AllocError>
        ensures { IfOk result (λ t. (t.lines.rest ≡ []) × (t.lines.is_over ≡ false) × (t.text.items ≡ [])) }
    {
        Ok(TraceLines {
            lines: Lines::new(alloc)?,
            text: Vec::new(alloc),
            rules: Vec::new(alloc),
        })
    }

    /// The text of rules that came last.
    pub fn rules(&self) -> &[u8]
        ensures { result.now ≡ self.now.rules.items }
    {
        self.rules.as_slice()
    }

    /// A line of this number goes on with the text. It is refused where the text has more than `LONGEST_TEXT`
    /// octets then.
    fn go_on(&mut self, number: u64, octets: &[u8]) -> Result<(), Stop>
        ensures lines { self.new.lines ≡ self.old.lines }
        ensures ok { OnOk result (self.new.text.items ≡ self.old.text.items ++ octets.now) }
        ensures short { OnOk result (length (self.old.text.items ++ octets.now) ≤ 67108864) }
        ensures err { IfErr result (λ stop. (stop ≡ stops.Fault faults.Memory) ⊎ ((stop ≡ stops.Fault (faults.Line number LineFault.TextTooLong)) × (67108864 < length (self.old.text.items ++ octets.now)))) }
    {
        if self.text.len().saturating_add(octets.len()) > LONGEST_TEXT {
            let fault = LineFault::TextTooLong;
            return Err(Stop::Fault(ReplayFault::Line(number, fault)));
        }
        match self.text.extend_from_slice(octets) {
            Ok(()) => Ok(()),
            Err(_) => Err(Stop::Fault(ReplayFault::Memory)),
        }
    }

    /// What the line of this number asks for, as an event, where it asks for one; octets that it gives stand
    /// at the front of the piece. A text of rules is kept until its last line.
    fn event_of(
        &mut self,
        number: u64,
        entry: Option<Entry>,
        piece: &[u8; 4096],
    ) -> Result<Option<Event>, Stop>
        ensures lines { self.new.lines ≡ self.old.lines }
        ensures takes_up { TakesUp self.old.text.items (line_meant piece.now entry) number piece.now result self.new.text.items self.new.rules.items }
    {
        let octets: &[u8] = piece;
        match entry {
            None => Ok(None),
            Some(Entry::Open(c)) => Ok(Some(Event::Opened(c))),
            Some(Entry::Octets(c, size)) => Ok(Some(Event::Octets(c, size))),
            Some(Entry::Room(c, room)) => Ok(Some(Event::Room(c, room))),
            Some(Entry::Moment(second)) => Ok(Some(Event::Moment(second))),
            Some(Entry::Turn) => Ok(Some(Event::Turn)),
            Some(Entry::Lost(c)) => Ok(Some(Event::Lost(c))),
            Some(Entry::Commanded(c, command)) => Ok(Some(Event::Commanded(c, command))),
            Some(Entry::Table(c)) => Err(Stop::Table(c)),
            Some(Entry::More(size)) => {
                self.go_on(number, &octets[..size.min(4096)])?;
                Ok(None)
            }
            Some(Entry::Rules(size)) => {
                self.go_on(number, &octets[..size.min(4096)])?;
                mem::swap(&mut self.text, &mut self.rules);
                self.text.clear();
                Ok(Some(Event::Rules))
            }
        }
    }

    /// Reads a line, and the event that it asks for: none where it asks for none, and a stop where it asks for
    /// routes. `number` counts the lines.
    pub(crate) fn read_event<R: TextIn, P: Watch>(
        &mut self,
        names: &Names,
        number: &mut u64,
        reader: &mut R,
        watch: &mut P,
        piece: &mut [u8; 4096],
    ) -> Result<Option<Event>, Stop>
        ensures on { ReadsOn R.takes R.at_end (place_in names.now) reader.old number.old self.old reader.new number.new self.new (meanings_in piece.new self.new.rules.items result) (stop_of result) }
        ensures reads { R.failures reader.new ≡ failures_read (stop_of result) (R.failures reader.old) }
        ensures unwritten { (n : ℕ) → n ≡ failures_written (stop_of result) n }
        ensures line { OnOk result (number.new ≡ suc number.old) }
    {
        if *number >= u64::MAX - 1 {
            // The number of a further line has no room.
            return Err(Stop::Fault(ReplayFault::Memory));
        }
        match self.lines.advance(reader) {
            Ok(true) => {}
            Ok(false) => return Err(Stop::End),
            Err(_) => return Err(Stop::Fault(ReplayFault::Reading)),
        }
        *number += 1;
        match read_line(names, self.lines.line(), piece) {
            Ok(entry) => {
                watch.line_read(*number, entry, piece);
                self.event_of(*number, entry, piece)
            }
            Err(fault) => Err(Stop::Fault(ReplayFault::Line(*number, fault))),
        }
    }
}
