//! Tests of `rs_record`: each kind of event by its lines, and a link that is recorded: what it was recorded by
//! replays to the octets that it took.

use crate::common::{equals, is_of, is_so, put};
use rs_core::{Core, Event, Link, Sink, Source};
use rs_open::ShutdownText;
use rs_policy::{Config, RulesFault};
use rs_record::{ClientNames, RecordFault, Recorder, Reel, Tape, drive_recorded, put_event};
use rs_session::Command;
use rs_trace::progress::Unwatched;
use rs_trace::replay::replay;
use rs_trace::text::{OverRead, OverWrite};
use std::alloc::Global;
use std::process::Abort;
use std::sync::Wait;
use std::thread::Threads;

const TWO: &str = "as = 64500\nidentifier = \"192.0.2.1\"\nhold = 90\n\
[[client]]\nname = \"a\"\nas = 64496\nlisten = \"127.0.0.1:17901\"\npeer = \"192.0.2.11\"\n\
[[client]]\nname = \"member-2\"\nas = 64497\nlisten = \"127.0.0.1:17902\"\npeer = \"192.0.2.12\"\n";

/// The same, and the second member is sent nothing.
const CLOSED: &[u8] = b"as = 64500\nidentifier = \"192.0.2.1\"\nhold = 90\n\
[[client]]\nname = \"a\"\nas = 64496\nlisten = \"127.0.0.1:17901\"\npeer = \"192.0.2.11\"\n\
[[client]]\nname = \"member-2\"\nas = 64497\nlisten = \"127.0.0.1:17902\"\npeer = \"192.0.2.12\"\n\
export = [{ action = \"drop\" }]\n";

const OPEN_A: &[u8] =
    b"\xff\xff\xff\xff\xff\xff\xff\xff\xff\xff\xff\xff\xff\xff\xff\xff\x00\x25\x01\x04\xfb\xf0\x00\x5a\xc0\x00\x02\x0b\x08\x02\x06\x41\x04\x00\x00\xfb\xf0";

const OPEN_B: &[u8] =
    b"\xff\xff\xff\xff\xff\xff\xff\xff\xff\xff\xff\xff\xff\xff\xff\xff\x00\x25\x01\x04\xfb\xf1\x00\x5a\xc0\x00\x02\x0c\x08\x02\x06\x41\x04\x00\x00\xfb\xf1";

const KEEPALIVE: &[u8] =
    b"\xff\xff\xff\xff\xff\xff\xff\xff\xff\xff\xff\xff\xff\xff\xff\xff\x00\x13\x04";

/// a's route to 198.51.100.0/24.
const UPDATE: &[u8] =
    b"\xff\xff\xff\xff\xff\xff\xff\xff\xff\xff\xff\xff\xff\xff\xff\xff\x00\x2f\x02\x00\x00\x00\x14\x40\x01\x01\x00\x40\x02\x06\x02\x01\x00\x00\xfb\xf0\x40\x03\x04\xc0\x00\x02\x0b\x18\xc6\x33\x64";

/// It is withdrawn.
static WITHDRAWN: &[u8] =
    b"\xff\xff\xff\xff\xff\xff\xff\xff\xff\xff\xff\xff\xff\xff\xff\xff\x00\x1b\x02\x00\x04\x18\xc6\x33\x64\x00\x00";

/// The configuration of both members.
fn two(rt: &impl Abort, alloc: Global) -> Config {
    Config::read(alloc, TWO).expect(rt, "a configuration")
}

/// Their names.
fn names(rt: &impl Abort, alloc: Global) -> ClientNames {
    let config = two(rt, alloc);
    ClientNames::new(alloc, &config).expect(rt, "names")
}

/// An event with a piece that begins with ff001b, and a text of rules, by its lines.
fn is_said(rt: &impl Abort, alloc: Global, names: &ClientNames, event: Event, lines: &str) {
    let mut piece = [0u8; 4096];
    piece[..3].copy_from_slice(&[0xff, 0x00, 0x1b]);
    let mut line = Vec::new(alloc);
    let put = put_event(&mut line, names, event, &piece, b"as\n");
    is_so(rt, put.is_ok(), "lines");
    is_of(rt, line.as_slice(), lines.as_bytes(), &event);
}

/// Events, each with its lines.
static EVENTS: [(Event, &str); 19] = [
    (Event::Opened(0), "open a\n"),
    (Event::Opened(1), "open member-2\n"),
    (Event::Opened(2), ""),
    (Event::Octets(0, 3), "octets a ff001b\n"),
    (Event::Octets(1, 0), "octets member-2 \n"),
    (Event::Octets(2, 3), ""),
    (Event::Octets(0, 4097), ""),
    (Event::Moment(0), "moment 0\n"),
    (Event::Moment(u64::MAX), "moment 18446744073709551615\n"),
    (Event::Turn, "turn\n"),
    (Event::Room(1, 65_536), "room member-2 65536\n"),
    (Event::Room(2, 1), ""),
    (Event::Lost(0), "lost a\n"),
    (Event::Lost(2), ""),
    (
        Event::Commanded(0, Command::Stop(ShutdownText::NONE)),
        "shutdown a\n",
    ),
    (Event::Commanded(1, Command::Refresh), "refresh member-2\n"),
    (Event::Commanded(2, Command::Refresh), ""),
    (Event::Rules, "rules 61730a\n"),
    (Event::Stop, ""),
];

#[test]
fn each_event_by_its_lines(rt: HostRuntime) {
    let names = names(&rt, rt.alloc());
    for (event, lines) in &EVENTS {
        is_said(&rt, rt.alloc(), &names, *event, lines);
    }
    let text = ShutdownText::of(b"bye").expect(&rt, "a text");
    let event = Event::Commanded(1, Command::Stop(text));
    is_said(&rt, rt.alloc(), &names, event, "shutdown member-2 627965\n");
}

/// How many octets the lines of a text of so many octets `a` have.
fn lines_of_text(rt: &impl Abort, alloc: Global, size: usize) -> Result<usize, RecordFault> {
    let names = names(rt, alloc);
    let text = Vec::from_elem(alloc, b'a', size).expect(rt, "a text");
    let mut lines = Vec::new(alloc);
    put_event(&mut lines, &names, Event::Rules, &[0; 4096], &text)?;
    Ok(lines.len())
}

/// Texts of so many octets, and what their lines have: the last `rules `, two digits for each octet, and an end; those of 4,096 octets
/// before it `more ` in place of `rules `. An empty text is said as an empty line.
static TEXTS: [(usize, usize); 5] = [
    (0, 6 + 2 + 1),
    (1, 6 + 2 + 1),
    (4096, 6 + 8192 + 1),
    (4097, 5 + 8192 + 1 + 6 + 2 + 1),
    (8193, 2 * (5 + 8192 + 1) + 6 + 2 + 1),
];

#[test]
fn texts_of_any_size(rt: HostRuntime) {
    for (size, want) in &TEXTS {
        is_of(&rt, lines_of_text(&rt, rt.alloc(), *size), Ok(*want), size);
    }
    let over = lines_of_text(&rt, rt.alloc(), 64 * 1024 * 1024 + 1);
    equals(&rt, over, Err(RecordFault::TextTooLong));
}

/// A link that gives the core events with their octets, and of what it is offered after each takes so many
/// octets; from some offer on it fails once.
#[derive(Drop)]
struct Script<'a> {
    events: &'a [(Event, &'a [u8])],
    at: usize,
    grain: usize,
    left: usize,
    failing: u64,
    sent_a: Vec<u8>,
    sent_b: Vec<u8>,
}

impl Link for Script<'_> {
    ghost use Rattle.std.specs.Prelude.{ℕ, List};
    ghost use Rattle.rs_tests.specs.declared.record.TheConstants.{CLOSED};

    ghost happens = { λ old step new. Unit {0} };

    ghost text = { λ link. CLOSED.now };
}

impl Source for Script<'_> {
    fn next(&mut self, piece: &mut [u8; 4096]) -> Event {
        self.left = self.grain;
        let Some((event, octets)) = self.events.get(self.at) else {
            return Event::Stop;
        };
        self.at = self.at.saturating_add(1);
        let size = octets.len().min(4096);
        piece[..size].copy_from_slice(&octets[..size]);
        *event
    }

    fn rules(&self) -> &[u8] {
        CLOSED
    }
}

impl Sink for Script<'_> {
    fn begin(&mut self, _c: usize) {}

    fn busy(&mut self, _c: usize) {}

    fn offer(&mut self, c: usize, octets: &[u8]) -> Option<usize> {
        self.failing = self.failing.saturating_sub(1);
        if self.failing == 1 {
            return None;
        }
        let size = octets.len().min(self.left);
        self.left -= size;
        let sent = if c == 0 {
            &mut self.sent_a
        } else {
            &mut self.sent_b
        };
        match sent.extend_from_slice(&octets[..size]) {
            Ok(()) => Some(size),
            Err(_) => None,
        }
    }

    fn memory(&mut self, _c: usize) {}

    fn end(&mut self, _c: usize) {}

    fn ruled(&mut self, _answer: &Result<(), RulesFault>) {}
}

static SESSION: [(Event, &[u8]); 29] = [
    (Event::Opened(0), b""),
    (Event::Octets(0, 37), OPEN_A),
    (Event::Octets(0, 19), KEEPALIVE),
    (Event::Room(0, u64::MAX), b""),
    (Event::Room(0, u64::MAX), b""),
    (Event::Room(0, u64::MAX), b""),
    (Event::Opened(1), b""),
    (Event::Octets(1, 37), OPEN_B),
    (Event::Octets(1, 19), KEEPALIVE),
    (Event::Room(1, u64::MAX), b""),
    (Event::Room(1, u64::MAX), b""),
    (Event::Octets(0, 47), UPDATE),
    (Event::Moment(1), b""),
    (Event::Turn, b""),
    (Event::Room(1, u64::MAX), b""),
    (Event::Room(1, u64::MAX), b""),
    (Event::Commanded(1, Command::Refresh), b""),
    (Event::Room(1, u64::MAX), b""),
    (Event::Opened(1), b""),
    (Event::Octets(2, 19), KEEPALIVE),
    (Event::Rules, b""),
    (Event::Turn, b""),
    (Event::Room(1, u64::MAX), b""),
    (Event::Room(1, u64::MAX), b""),
    (Event::Room(1, u64::MAX), b""),
    (Event::Commanded(0, Command::Stop(ShutdownText::NONE)), b""),
    (Event::Room(0, u64::MAX), b""),
    (Event::Lost(0), b""),
    (Event::Turn, b""),
];

/// What is recorded of a new route server that a link drives.
fn recorded<R: Wait + Abort>(rt: &R, alloc: Global, link: &mut Script<'_>) -> Reel {
    let config = two(rt, alloc);
    let mut recorder = Recorder::new(alloc, &config).expect(rt, "a recorder");
    let mut core = Core::new(alloc, config).expect(rt, "a route server");
    let mut reel = Reel::new(alloc, 1 << 20);
    drive_recorded(rt, &mut core, link, &mut recorder, &mut reel);
    is_so(rt, recorder.fault().is_none(), "no fault");
    is_so(rt, !reel.is_over(), "room on the reel");
    reel
}

/// What the replay of a record writes.
fn replayed<R: Threads + Wait + Sync + Abort>(rt: &R, alloc: Global, record: &[u8]) -> Vec<u8> {
    let config = two(rt, alloc);
    let mut output = Vec::new(alloc);
    let mut reader = OverRead::new(record);
    let mut writer = OverWrite::new(&mut output);
    let played = replay(
        rt,
        alloc,
        &mut reader,
        &mut writer,
        &mut Unwatched,
        config,
        1,
    );
    equals(rt, played, Ok(()));
    output
}

/// A replay's output has just these octets of a client, in lines that begin so.
fn has_sent(rt: &impl Abort, alloc: Global, output: &[u8], front: &[u8], want: &[u8]) {
    let mut octets = Vec::new(alloc);
    for line in output.split(|octet| *octet == b'\n') {
        if let Some(digits) = line.strip_prefix(front) {
            let sent = hex::decode(alloc, digits).expect(rt, "octets");
            put(rt, &mut octets, &sent);
        }
    }
    equals(rt, octets.as_slice(), want);
}

/// The session is recorded of a link that takes so many octets after each event and fails at this offer, if any,
/// and replays to the octets that it took.
fn is_replayed<R: Threads + Wait + Sync + Abort>(
    rt: &R,
    alloc: Global,
    grain: usize,
    failing: u64,
) {
    let mut link = Script {
        events: &SESSION,
        at: 0,
        grain,
        left: 0,
        failing,
        sent_a: Vec::new(alloc),
        sent_b: Vec::new(alloc),
    };
    let reel = recorded(rt, alloc, &mut link);
    let output = replayed(rt, alloc, reel.waiting());
    has_sent(rt, alloc, &output, b"sent a ", &link.sent_a);
    has_sent(rt, alloc, &output, b"sent member-2 ", &link.sent_b);
    let is_withdrawn = failing > 0 || link.sent_b.ends_with(WITHDRAWN);
    is_of(rt, is_withdrawn, true, &grain);
}

/// After each event so many octets are taken, and at this offer, if any, the link fails.
static GRAINS: [(usize, u64); 7] = [
    (4096, 0),
    (50, 0),
    (41, 0),
    (30, 0),
    (4096, 6),
    (30, 7),
    (30, 4),
];

#[test]
fn what_was_recorded_replays(rt: HostRuntime) {
    for (grain, failing) in &GRAINS {
        is_replayed(&rt, rt.alloc(), *grain, *failing);
    }
}

#[test]
fn a_reel_is_over(rt: HostRuntime) {
    let mut reel = Reel::new(rt.alloc(), 12);
    reel.take(b"open a\n");
    reel.take(b"turn\n");
    equals(&rt, reel.waiting(), b"open a\nturn\n".as_slice());
    reel.clear();
    // One event's lines find room on an empty reel, and nothing behind them.
    reel.take(b"open member-2\n");
    is_so(&rt, !reel.is_over(), "room on the reel");
    reel.take(b"turn\n");
    is_so(&rt, reel.is_over(), "over");
    reel.clear();
    reel.take(b"turn\n");
    is_so(&rt, reel.waiting().is_empty(), "nothing is taken");
}
