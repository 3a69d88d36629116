//! A recorded session as the core's link: events come from the lines of a text, and what the core
//! does becomes lines of another. The core stops where a line asks for routes, where the text is
//! over, and where something failed.

ghost use Rattle.std.specs.Prelude.{◌≡◌, ◌≤◌, ◌++◌, ◌∷◌, ℕ, List, [], Some, None, false, length, take, codes, Err, IfOk, IfSome, OnOk, Option};
ghost use Rattle.rs_trace.specs.Output.{fault_line};
ghost use Rattle.rs_trace.specs.Trace.{LineMeaning};
ghost use Rattle.rs_trace.specs.Played.{Puts, failed, failures_read, failures_written};
ghost use Rattle.rs_trace.specs.Replays.{Adds, AreNamesOf, FailsOn, IsOver, Plays, name_in, place_in};
ghost use Rattle.rs_trace.specs.declared.fault.Stop.TheVariants as stops;
ghost use Rattle.rs_trace.specs.declared.fault.ReplayFault.TheVariants as faults;

use crate::entries::next_event;
use crate::fault::{ReplayFault, Stop};
use crate::names::Names;
use crate::output;
use crate::progress::Watch;
use crate::text::{TextIn, TextOut};
use crate::trace::LineFault;
use crate::trace_lines::TraceLines;
use rs_core::{Event, Link, Sink, Source};
use rs_policy::{Config, RulesFault};
use std::alloc::{AllocError, Global};

/// Whether nothing is to be written any more.
fn has_failed(stop: Option<Stop>) -> bool
    ensures { result ≡ failed stop }
{
    match stop {
        Some(Stop::Fault(ReplayFault::Line(_, _))) => false,
        Some(Stop::Fault(_)) => true,
        _ => false,
    }
}

/// Writes a line, where there was memory for it and nothing has failed, and answers why the core
/// is stopped then.
fn write_line<W: TextOut>(
    writer: &mut W,
    stop: Option<Stop>,
    made: Result<(), AllocError>,
    line: &[u8],
) -> Option<Stop>
    ensures put { (to : W) (octets wanted : List ℕ) → OnOk made (line.now ≡ wanted) → Puts (λ xs. W.puts to xs writer.old) octets stop → Puts (λ xs. W.puts to xs writer.new) (octets ++ wanted) result }
    ensures fails { FailsOn stop result }
    ensures reads { (n : ℕ) → failures_read result n ≡ failures_read stop n }
    ensures writes { (n : ℕ) → W.failures writer.old ≡ failures_written stop n → W.failures writer.new ≡ failures_written result n }
{
    if has_failed(stop) {
        return stop;
    }
    if made.is_err() {
        return Some(Stop::Fault(ReplayFault::Memory));
    }
    match output::put(writer, line) {
        Ok(()) => stop,
        Err(_) => Some(Stop::Fault(ReplayFault::Writing)),
    }
}

/// What a recording reads by, and the buffers that it fills. The recording itself owns nothing: so
/// where it ends, its reader and its writer are known to be what it left them.
#[derive(Drop)]
pub struct Kept {
    names: Names,
    lines: TraceLines,
    /// The line that is written.
    line: Vec<u8>,
}

impl Kept {
    /// Before the first line. It has the clients of the configuration.
    pub fn new(alloc: Global, config: &Config) -> Result<Kept, AllocError>
        ensures names { IfOk result (λ kept. AreNamesOf kept.names config.now) }
        ensures fresh { IfOk result (λ kept. (kept.lines.lines.rest ≡ []) × (kept.lines.lines.is_over ≡ false) × (kept.lines.text.items ≡ [])) }
    {
        Ok(Kept {
            names: Names::new(alloc, config)?,
            lines: TraceLines::new(alloc)?,
            line: Vec::new(alloc),
        })
    }
}

/// Reads a trace, and writes what comes of it.
#[derive(Drop)]
pub struct Recording<'a, R, W, P> {
    alloc: Global,
    names: &'a Names,
    lines: &'a mut TraceLines,
    /// How many lines were read.
    number: u64,
    line: &'a mut Vec<u8>,
    stop: Option<Stop>,
    reader: &'a mut R,
    writer: &'a mut W,
    watch: &'a mut P,
}

impl<'a, R: TextIn, W: TextOut, P: Watch> Recording<'a, R, W, P> {
    /// Before the first line.
    pub fn new(
        alloc: Global,
        kept: &'a mut Kept,
        reader: &'a mut R,
        writer: &'a mut W,
        watch: &'a mut P,
    ) -> Recording<'a, R, W, P>
        ensures names { result.names.now ≡ kept.old.names }
        ensures lines { result.lines.now ≡ kept.old.lines }
        ensures reader { result.reader.ghost_name ≡ reader.entry.ghost_name }
        ensures writer { result.writer.ghost_name ≡ writer.entry.ghost_name }
        ensures given { result.reader.now ≡ reader.old }
        ensures lent { result.writer.now ≡ writer.old }
        ensures fresh { (result.number ≡ 0) × (result.stop ≡ None) }
    {
        Recording {
            alloc,
            names: &kept.names,
            lines: &mut kept.lines,
            number: 0,
            line: &mut kept.line,
            stop: None,
            reader,
            writer,
            watch,
        }
    }

    /// Why the core was stopped.
    pub fn stop(&self) -> Option<Stop>
        ensures { result ≡ self.now.stop }
    {
        self.stop
    }

    /// Goes on after a stop.
    pub fn resume(&mut self)
        ensures { self.new ≡ record self.old { stop = None } }
    {
        self.stop = None;
    }

    /// The name of a client.
    pub fn name(&self, c: usize) -> &[u8]
        ensures { result.now ≡ name_in self.now.names.now c }
    {
        self.names.name(c)
    }

    /// Writes the line, where there was memory to make it and nothing has failed.
    fn write(&mut self, made: Result<(), AllocError>)
        ensures { (wanted : List ℕ) → OnOk made (self.old.line.now.items ≡ wanted) → Adds R.takes R.at_end R.failures W.puts W.failures self.old.names.now self.old.reader.ghost_name self.old.writer.ghost_name self.old.reader.now self.old.writer.now self.old.lines.now self.old.number self.old.stop wanted self.new.names.now self.new.reader.ghost_name self.new.writer.ghost_name self.new.reader.now self.new.writer.now self.new.lines.now self.new.number self.new.stop }
    {
        self.stop = write_line(self.writer, self.stop, made, self.line);
    }

    /// Writes a client's routes, in these lines, where there was memory for them.
    pub fn list_routes(&mut self, lines: &Result<Vec<u8>, AllocError>)
        ensures { (listed_lines : List ℕ) → IfOk lines.now (λ made. made.items ≡ listed_lines) → Adds R.takes R.at_end R.failures W.puts W.failures self.old.names.now self.old.reader.ghost_name self.old.writer.ghost_name self.old.reader.now self.old.writer.now self.old.lines.now self.old.number self.old.stop listed_lines self.new.names.now self.new.reader.ghost_name self.new.writer.ghost_name self.new.reader.now self.new.writer.now self.new.lines.now self.new.number self.new.stop }
    {
        match lines {
            Ok(lines) => self.stop = write_line(self.writer, self.stop, Ok(()), lines),
            Err(_) => self.stop = write_line(self.writer, self.stop, Err(AllocError), &[]),
        }
    }

    /// The replay is over by a fault: that of a line is written as the last line. Answers why it is over then.
    pub fn end_at(&mut self, fault: ReplayFault) -> ReplayFault
        requires { self.old.stop ≡ Some (stops.Fault fault) }
        ensures reader { self.new.reader.ghost_name ≡ self.old.reader.ghost_name }
        ensures writer { self.new.writer.ghost_name ≡ self.old.writer.ghost_name }
        ensures over { (first : R) (to : W) (meanings : List LineMeaning) (octets : List ℕ) → Plays R.takes R.at_end R.failures W.puts W.failures (place_in self.old.names.now) first to meanings octets self.old.reader.now self.old.writer.now self.old.lines.now self.old.number self.old.stop → IsOver R.takes R.at_end W.puts (place_in self.old.names.now) first to meanings octets self.new.reader.now self.new.writer.now (Err result) }
        ensures reads { (n : ℕ) → R.failures self.old.reader.now ≡ failures_read self.old.stop n → R.failures self.new.reader.now ≡ failures_read (Some (stops.Fault result)) n }
        ensures writes { (n : ℕ) → W.failures self.old.writer.now ≡ failures_written self.old.stop n → W.failures self.new.writer.now ≡ failures_written (Some (stops.Fault result)) n }
    {
        match fault {
            ReplayFault::Line(number, fault) => self.end_at_line(number, fault),
            ReplayFault::Memory => ReplayFault::Memory,
            ReplayFault::Reading => ReplayFault::Reading,
            ReplayFault::Writing => ReplayFault::Writing,
        }
    }

    /// Writes the fault of a line as the last line, and answers why the replay is over.
    fn end_at_line(&mut self, number: u64, fault: LineFault) -> ReplayFault
        requires { self.old.stop ≡ Some (stops.Fault (faults.Line number fault)) }
        ensures reader { self.new.reader.ghost_name ≡ self.old.reader.ghost_name }
        ensures writer { self.new.writer.ghost_name ≡ self.old.writer.ghost_name }
        ensures over { (first : R) (to : W) (meanings : List LineMeaning) (octets : List ℕ) → Plays R.takes R.at_end R.failures W.puts W.failures (place_in self.old.names.now) first to meanings octets self.old.reader.now self.old.writer.now self.old.lines.now self.old.number self.old.stop → IsOver R.takes R.at_end W.puts (place_in self.old.names.now) first to meanings octets self.new.reader.now self.new.writer.now (Err result) }
        ensures reads { (n : ℕ) → R.failures self.old.reader.now ≡ failures_read self.old.stop n → R.failures self.new.reader.now ≡ failures_read (Some (stops.Fault result)) n }
        ensures writes { (n : ℕ) → W.failures self.old.writer.now ≡ failures_written self.old.stop n → W.failures self.new.writer.now ≡ failures_written (Some (stops.Fault result)) n }
    {
        let made = output::faulty(self.alloc, self.line, number, fault);
        self.stop = write_line(self.writer, self.stop, made, self.line);
        match self.stop {
            Some(Stop::Fault(failure)) => failure,
            _ => ReplayFault::Line(number, fault),
        }
    }
}

impl<'a, R: TextIn, W: TextOut, P: Watch> Link for Recording<'a, R, W, P> {
    ghost use Rattle.rs_trace.specs.Replays.{Happens};

    ghost happens = { λ old step new. Happens R.takes R.at_end R.failures W.puts W.failures old.names.now old.reader.ghost_name old.writer.ghost_name old.reader.now old.writer.now old.lines.now old.number old.stop step new.names.now new.reader.ghost_name new.writer.ghost_name new.reader.now new.writer.now new.lines.now new.number new.stop };

    ghost text = { λ r. r.lines.now.rules.items };
}

impl<'a, R: TextIn, W: TextOut, P: Watch> Source for Recording<'a, R, W, P> {
    fn next(&mut self, piece: &mut [u8; 4096]) -> Event {
        if self.stop.is_some() {
            return Event::Stop;
        }
        let (names, lines, number) = (self.names, &mut *self.lines, &mut self.number);
        match next_event(names, lines, number, self.reader, self.watch, piece) {
            Ok(event) => event,
            Err(stop) => {
                self.stop = Some(stop);
                Event::Stop
            }
        }
    }

    fn rules(&self) -> &[u8] {
        self.lines.rules()
    }
}

impl<'a, R: TextIn, W: TextOut, P: Watch> Sink for Recording<'a, R, W, P> {
    fn begin(&mut self, c: usize) {
        self.watch.begun(c);
    }

    fn busy(&mut self, c: usize) {
        let made = output::busy(self.line, self.names.name(c));
        self.write(made);
    }

    fn offer(&mut self, c: usize, octets: &[u8]) -> Option<usize> {
        let made = output::sent(self.alloc, self.line, self.names.name(c), octets);
        self.write(made);
        Some(octets.len())
    }

    fn memory(&mut self, c: usize) {
        let made = output::memory(self.line, self.names.name(c));
        self.write(made);
    }

    fn end(&mut self, c: usize) {
        let made = output::closed(self.line, self.names.name(c));
        self.write(made);
    }

    fn ruled(&mut self, answer: &Result<(), RulesFault>) {
        let made = output::ruled(self.line, answer);
        self.write(made);
    }
}
