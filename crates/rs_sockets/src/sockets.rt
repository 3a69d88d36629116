//! The ports that are sockets of the system, its clock, the files of the configuration, and the
//! standard streams.

ghost use Rattle.rs_reports.specs.Levels.{is_shown};

mod listening;

use crate::configuration::Configuration;
use crate::lines::Lines;
use crate::listeners::{Accepted, Listeners};
use crate::names::Names;
use crate::record::Record;
pub use crate::sockets::listening::ListenFault;
use crate::sockets::listening::{FIRST_LISTENER, Listening};
use crate::stamps::Stamp;
use crate::wording::Worded;
use mio::net::TcpStream;
use mio::{Events, Interest, Poll, Token};
use rs_control::order::Order;
use rs_control::orders::Reloaded;
use rs_core::Core;
use rs_live::orders;
use rs_live::ports::{Incoming, Line, Observed, PortFault, Ports};
use rs_live::serve::ServeFault;
use rs_reports::logging::{Level, Log};
use rs_reports::reports::Report;
use rs_shown::shown::Shown;
use rs_streams::file_watch::{FileFault, FileWatch};
use rs_streams::printer::Printer;
use rs_streams::record_file::RecordEnd;
use rs_streams::streams::Descriptor;
use rs_visitors::control::{Control, remove};
use rs_visitors::window::Window;
use slab::Slab;
use std::alloc::Global;
use std::io::{ErrorKind, Read, Write};
use std::net::{IpAddr, Net, SocketAddr};
use std::rt::{Clock, Files};
use std::time::{Duration, Instant, SystemTime, UNIX_EPOCH};
use std::{fmt, io, mem};

/// The tokens of the window lie above those of listeners.
const WINDOW: usize = 1 << 33;

/// The tokens of the control socket lie above those of the window.
const CONTROL: usize = 1 << 34;

/// A connection, and whether something may be there to read.
#[derive(Drop)]
struct Connected {
    stream: TcpStream,
    is_ready: bool,
}

/// How many connections that can't be kept one call of `accept` passes over.
const UNKEPT: usize = 64;

/// Listeners and connections under one poll.
#[derive(Drop)]
pub struct Sockets<'a, R: Files> {
    rt: &'a R,
    alloc: Global,
    configuration: Configuration<'a, R>,
    watch: FileWatch,
    names: &'a Names,
    lines: Lines<'a>,
    output: Printer<Descriptor>,
    errors: Printer<Descriptor>,
    /// What is told on standard error, and how.
    log: Log,
    poll: Poll,
    events: Events,
    listeners: Listeners,
    streams: Slab<Connected>,
    shown: Shown,
    /// The path of the control socket, where there is one.
    control: Option<&'a str>,
    /// The configuration is to be read at once.
    is_hurried: bool,
    start: Instant,
    /// The second for which it was marked what may be there.
    marked: Option<u64>,
    /// The record of the run, while it goes on.
    record: Option<Record<'a, R>>,
}

/// The time of day, in seconds since 1970-01-01T00:00:00Z; `None` where the system doesn't say it.
fn time_of_day<R: Clock>(rt: &R) -> Option<u64> {
    let time = SystemTime::now(rt).ok()?;
    let since = time.duration_since(UNIX_EPOCH).ok()?;
    Some(since.as_secs())
}

impl<'a, R: Net + Clock + Files> Sockets<'a, R> {
    /// Listens at these addresses and says so, a line each. No descriptor may have been opened before and
    /// be open still.
    pub fn listen(
        rt: &'a R,
        alloc: Global,
        paths: &'a [String],
        names: &'a Names,
        log: Log,
        addresses: &[(u32, u16)],
    ) -> Result<Sockets<'a, R>, ListenFault> {
        let start = Instant::now(rt)?;
        let shown = Shown::new(alloc, names.count(), time_of_day(rt).unwrap_or(0))?;
        let lines = Lines::new(alloc, names)?;
        let mut streams = Slab::new(alloc);
        streams.reserve(names.count().saturating_mul(2).saturating_add(1))?;
        let errors = Printer::new(alloc, Descriptor::stderr())?;
        let Listening {
            poll,
            events,
            listeners,
            output,
        } = Listening::open(rt, alloc, addresses)?;
        Ok(Sockets {
            rt,
            alloc,
            configuration: Configuration { rt, alloc, paths },
            watch: FileWatch::new(),
            names,
            lines,
            output,
            errors,
            log,
            poll,
            events,
            listeners,
            streams,
            shown,
            control: None,
            is_hurried: false,
            start,
            marked: None,
            record: None,
        })
    }

    /// From now on the run is recorded, where there is a record.
    pub fn record_on(&mut self, record: Option<Record<'a, R>>) {
        self.record = record;
    }

    /// Opens the window at an address, and says so, a line.
    pub fn open_window(&mut self, address: SocketAddr) -> io::Result<()> {
        let window = Window::open(self.rt, self.alloc, &self.poll, WINDOW, address)?;
        self.shown.open_window(window);
        self.output.print(format_args!("window {address}"));
        Ok(())
    }

    /// Takes commands at the Unix socket at this path, and says so, a line.
    pub fn open_control(&mut self, path: &'a str) -> io::Result<()> {
        let control = Control::open(self.rt, self.alloc, &self.poll, CONTROL, path)?;
        self.shown.open_control(control);
        self.control = Some(path);
        self.output.print(format_args!("control {path}"));
        Ok(())
    }

    /// Prints all lines that wait, and why the server ended, where that was a fault; the record is written
    /// to its end, and the control socket removed.
    pub fn finish(&mut self, served: &Result<(), ServeFault>) {
        if let Some(path) = self.control {
            remove(self.rt, path);
        }
        if let Some(record) = &mut self.record
            && let Err(why) = record.finish()
        {
            self.end_record(why);
        }
        self.lines.print_waiting(&mut self.output, u64::MAX);
        if let Err(fault) = served {
            self.errors.print(*fault);
        }
    }

    /// The milliseconds since the start.
    fn passed_milliseconds(&self) -> u64 {
        match self.start.elapsed(self.rt) {
            Ok(passed) => u64::try_from(passed.as_millis()).unwrap_or(u64::MAX),
            Err(_) => 0,
        }
    }

    /// The microseconds since the start.
    fn passed_microseconds(&self) -> u64 {
        match self.start.elapsed(self.rt) {
            Ok(passed) => u64::try_from(passed.as_micros()).unwrap_or(u64::MAX),
            Err(_) => 0,
        }
    }

    /// Where a member can't be accepted for want of descriptors, those of visitors or operators are given up.
    /// Answers whether there were any.
    fn give_up_shown(&mut self) -> bool {
        if !self.listeners.take_lack() {
            return false;
        }
        let now = self.passed_milliseconds();
        self.shown.give_up(&self.poll, now)
    }

    /// The seconds since the start.
    fn passed(&self) -> u64 {
        match self.start.elapsed(self.rt) {
            Ok(passed) => passed.as_secs(),
            Err(_) => 0,
        }
    }

    /// Marks where something may be there to read or to accept, after at most so many seconds.
    fn mark_ready(&mut self, most: u64) -> io::Result<()> {
        self.poll
            .poll(&mut self.events, Some(Duration::from_secs(most)))?;
        for event in self.events.iter() {
            let token = event.token().0;
            if token >= CONTROL {
                self.shown.note_control(token);
            } else if token >= WINDOW {
                self.shown.note(token);
            } else if token >= FIRST_LISTENER {
                self.listeners.mark_ready(token - FIRST_LISTENER);
            } else if let Some(stream) = self.streams.get_mut(token) {
                stream.is_ready = true;
            }
        }
        Ok(())
    }

    /// Prints the lines that wait for this second, and goes on with those that a stream has not taken.
    fn print_waiting(&mut self) {
        let second = self.passed();
        self.lines.print_waiting(&mut self.output, second);
        self.output.flush();
        self.errors.flush();
    }

    /// Says what came of a reload that an operator ordered, where a line says it.
    fn tell_reload(&mut self, line: &Line) {
        let names = self.names;
        match line {
            Line::Rules(Ok(())) => self.shown.tell(Reloaded::Replaced),
            Line::Rules(answer) => {
                self.refuse_reload(Worded(&Report::Rules(*answer), names));
            }
            Line::File(fault) => {
                self.refuse_reload(Worded(&Report::File(*fault), names));
            }
            _ => {}
        }
    }

    /// Says why a reload that an operator ordered was not done.
    fn refuse_reload<D: fmt::Display + Drop>(&mut self, why: D) {
        if self.shown.is_reloading() {
            let text = format!(in self.alloc; "{why}").unwrap_or(String::new(self.alloc));
            self.shown.tell(Reloaded::Refused(text));
        }
    }

    /// Puts the text of the configuration in place of what stands there, at once or where it is time.
    fn read_text(&mut self, text: &mut Vec<u8>) -> Result<bool, FileFault> {
        let second = self.passed();
        if !mem::replace(&mut self.is_hurried, false) {
            return self.watch.take_up(&mut self.configuration, second, text);
        }
        let is_read = self.watch.take_now(&mut self.configuration, second, text)?;
        if !is_read {
            self.refuse_reload("rules refused: a file changed while it was read");
        }
        Ok(is_read)
    }

    /// What a line of the log begins with now.
    fn stamp(&self) -> Stamp {
        if self.log.has_utc
            && let Some(second) = time_of_day(self.rt)
        {
            return Stamp::Utc(second);
        }
        Stamp::Seconds(self.passed())
    }

    /// The record ends before the run: its file says why, where it can be written, and so do both streams.
    fn end_record(&mut self, why: RecordEnd) {
        if let Some(mut record) = self.record.take() {
            record.end(why);
        }
        self.output.print(format_args!("record ended: {why}"));
        if self.log.shows(Level::Error) {
            let stamp = self.stamp();
            self.errors
                .print(format_args!("{stamp} record ended: {why}"));
        }
    }

    /// Records lines, after which the record may end.
    fn take_lines(&mut self, lines: &[u8], end: Option<RecordEnd>) -> Result<(), RecordEnd> {
        let second = time_of_day(self.rt);
        if let Some(record) = &mut self.record {
            record.take(second, lines)?;
        }
        match end {
            Some(why) => Err(why),
            None => Ok(()),
        }
    }

    /// Keeps an accepted connection, under a key; `None` where it can't be kept.
    fn keep(&mut self, accepted: Accepted) -> Option<Incoming> {
        let Accepted {
            listener,
            mut stream,
            from,
        } = accepted;
        let IpAddr::V4(address) = from.ip() else {
            return None;
        };
        let _ = stream.set_nodelay(true);
        let token = Token(self.streams.vacant_key());
        let both = Interest::READABLE | Interest::WRITABLE;
        self.poll
            .registry()
            .register(&mut stream, token, both)
            .ok()?;
        let key = self
            .streams
            .insert(Connected {
                stream,
                is_ready: true,
            })
            .ok()?;
        Some(Incoming {
            listener,
            address: u32::from(address),
            key,
        })
    }
}

impl<'a, R: Net + Clock + Files> Ports for Sockets<'a, R> {
    ghost asked = { λ ports calls. Unit {0} };

    ghost shown = { λ ports level. is_shown ports.log.level level };

    fn wait(&mut self, pause: bool) -> Result<(), PortFault> {
        let most = if pause { 1 } else { 0 };
        if self.mark_ready(most).is_err() {
            return Err(PortFault);
        }
        self.listeners.ask_all();
        self.print_waiting();
        Ok(())
    }

    fn accept(&mut self) -> Result<Option<Incoming>, PortFault> {
        for _ in 0..UNKEPT {
            match self.listeners.accept()? {
                Some(accepted) => {
                    if let Some(incoming) = self.keep(accepted) {
                        return Ok(Some(incoming));
                    }
                }
                None if self.give_up_shown() => self.listeners.ask_all(),
                None => return Ok(None),
            }
        }
        Ok(None)
    }

    fn read(&mut self, key: usize, piece: &mut [u8; 4096]) -> Result<Option<usize>, PortFault> {
        let Some(stream) = self.streams.get_mut(key) else {
            return Ok(None);
        };
        if !stream.is_ready {
            return Ok(None);
        }
        match (&stream.stream).read(piece) {
            Ok(n) => Ok(Some(n)),
            Err(error) if error.kind() == ErrorKind::WouldBlock => {
                stream.is_ready = false;
                Ok(None)
            }
            Err(_) => Err(PortFault),
        }
    }

    fn write(&mut self, key: usize, octets: &[u8]) -> Result<Option<usize>, PortFault> {
        let Some(stream) = self.streams.get(key) else {
            return Ok(None);
        };
        match (&stream.stream).write(octets) {
            Ok(0) => Ok(None),
            Ok(n) => Ok(Some(n)),
            Err(error) if error.kind() == ErrorKind::WouldBlock => Ok(None),
            Err(_) => Err(PortFault),
        }
    }

    fn close(&mut self, key: usize) {
        if let Some(mut gone) = self.streams.try_remove(key) {
            let _ = self.poll.registry().deregister(&mut gone.stream);
        }
    }

    fn seconds(&mut self) -> u64 {
        let second = self.passed();
        if self.marked != Some(second) {
            // What came while the process stood still is marked after the clock was asked: a wait that was
            // broken off has not seen it.
            self.marked = Some(second);
            let _ = self.mark_ready(0);
        }
        second
    }

    fn text(&mut self, text: &mut Vec<u8>) -> Result<bool, FileFault> {
        let is_read = self.read_text(text)?;
        if is_read
            && let Some(record) = &mut self.record
            && let Err(why) = record.note_text(text)
        {
            self.end_record(why);
        }
        Ok(is_read)
    }

    fn command(&mut self, clients: usize) -> Option<Order> {
        let order = self.shown.take_order()?;
        // One to reload hurries.
        self.is_hurried |= order == Order::Reload;
        orders::of(order, clients)
    }

    fn print(&mut self, line: &Line) {
        let second = self.passed();
        self.tell_reload(line);
        self.lines.print(&mut self.output, second, line);
        if let Line::Rules(Ok(())) = line
            && let Some(record) = &mut self.record
        {
            record.replace();
        }
        self.shown.note_line(line, second);
    }

    fn show(&mut self, core: &Core, is_busy: bool) -> bool {
        if self.shown.is_reloading() && !self.is_hurried {
            // It was read, and nothing was printed of it.
            self.shown.tell(Reloaded::Same);
        }
        let now = self.passed_milliseconds();
        self.shown.go_on(&self.poll, self.alloc, core, is_busy, now)
    }

    fn observe(&mut self, what: Observed<'_>) {
        if self.shown.is_open() {
            let now = self.passed_microseconds();
            self.shown.observe(what, now);
        }
    }

    fn shows(&self, level: Level) -> bool {
        self.log.shows(level)
    }

    fn log(&mut self, report: &Report) {
        let stamp = self.stamp();
        Worded(report, self.names).print(&mut self.errors, stamp);
    }

    fn record(&mut self, lines: &[u8], end: Option<RecordEnd>) -> bool {
        if self.record.is_none() {
            return false;
        }
        match self.take_lines(lines, end) {
            Ok(()) => true,
            Err(why) => {
                self.end_record(why);
                false
            }
        }
    }
}
