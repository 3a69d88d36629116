//! Ports in memory: members that say what a script has, and a call that fails where it is wanted.

ghost use Rattle.std.specs.Prelude.{◌≤◌};
ghost use Rattle.rs_reports.specs.Levels.{is_shown};

use crate::common::{is, put};
use rs_control::order::Order;
use rs_core::Core;
use rs_live::orders;
use rs_live::ports::{Incoming, Line, Observed, PortFault, Ports};
use rs_reports::logging::{Level, Log};
use rs_reports::reports::Report;
use rs_streams::file_watch::FileFault;
use rs_streams::record_file::RecordEnd;
use std::alloc::Global;
use std::process::Abort;

/// A connection from an address that is nobody's.
const STRANGER: Incoming = Incoming {
    listener: 0,
    address: 0xcb00_7101,
    key: usize::MAX,
};

/// Octets that a member says once it was sent so many.
#[derive(Clone, Copy)]
pub struct Said {
    pub octets: &'static [u8],
    pub behind: usize,
}

/// A member, as a script has it.
#[derive(Clone, Copy)]
pub struct Member {
    pub listener: usize,
    pub address: u32,
    pub says: &'static [Said],
    /// It closes once it has said all and was sent so many octets, and not before the round `stays`.
    pub until: usize,
    pub stays: u64,
    /// It comes in this round, after each member before it.
    pub comes: u64,
    /// What it says in or after this round, once it has said all else.
    pub later: Option<(u64, &'static [u8])>,
    /// From this round on it takes no octets.
    pub deaf: u64,
}

/// A connection of a member.
#[derive(Drop)]
pub struct Wire {
    member: Member,
    given: usize,
    pub heard: Vec<u8>,
    pub is_open: bool,
}

/// An order, and the round in which it is given.
#[derive(Clone, Copy)]
struct DueOrder {
    round: u64,
    order: Order,
}

/// The call that failed.
#[derive(Clone, Copy, Debug, PartialEq, Eq)]
pub enum Broken {
    Wait,
    Accept,
    /// A read of the connection with this key.
    Read(usize),
    /// A write to it.
    Write(usize),
}

/// Ports whose `failing`th call of those that can fail does.
#[derive(Drop)]
pub struct Script {
    alloc: Global,
    pub wires: Vec<Wire>,
    accepted: usize,
    /// Behind them strangers come without end.
    pub is_flooded: bool,
    /// How many connections this round has accepted, and the most that any has.
    accepts: u64,
    pub most_accepts: u64,
    calls: u64,
    pub failing: u64,
    pub broken: Option<Broken>,
    /// It failed while members may still be sent something, and not in the round in which all close.
    pub is_early: bool,
    /// In this round all members close.
    pub end: u64,
    /// How many seconds pass in each round, and how many more before this one.
    pub pace: u64,
    pub stall: Option<(u64, u64)>,
    pub rounds: u64,
    /// What the operator orders, and how much of it was given.
    orders: Vec<DueOrder>,
    ordered: usize,
    pub text: &'static [u8],
    /// What the text is from this round on.
    pub later: Option<(u64, &'static [u8])>,
    /// Why the file is not read at its next reading.
    pub unread: Option<FileFault>,
    pub said: Vec<Line>,
    pub log: Log,
    pub reports: Vec<Report>,
    /// What was recorded, where anything is to be, and why the record ended.
    pub record: Option<Vec<u8>>,
    pub record_end: Option<RecordEnd>,
}

impl Script {
    pub fn new(alloc: Global) -> Script {
        Script {
            alloc,
            wires: Vec::new(alloc),
            accepted: 0,
            is_flooded: false,
            accepts: 0,
            most_accepts: 0,
            calls: 0,
            failing: 0,
            broken: None,
            is_early: false,
            end: u64::MAX,
            pace: 0,
            stall: None,
            rounds: 0,
            orders: Vec::new(alloc),
            ordered: 0,
            text: b"",
            later: None,
            unread: None,
            said: Vec::new(alloc),
            log: Log {
                level: Some(Level::Route),
                has_utc: false,
            },
            reports: Vec::new(alloc),
            record: None,
            record_end: None,
        }
    }

    /// This member has a connection.
    pub fn join(&mut self, rt: &impl Abort, member: Member) {
        let wire = Wire {
            member,
            given: 0,
            heard: Vec::new(self.alloc),
            is_open: false,
        };
        self.wires.push(wire).expect(rt, "a connection");
    }

    /// The operator orders this in this round, after all before.
    pub fn order(&mut self, rt: &impl Abort, round: u64, order: Order) {
        let due = DueOrder { round, order };
        self.orders.push(due).expect(rt, "an order");
    }

    /// What was sent on a connection.
    pub fn heard(&self, key: usize) -> &[u8] {
        match self.wires.get(key) {
            Some(wire) => &wire.heard,
            None => &[],
        }
    }

    /// What the server says first is this.
    pub fn says_first(&self, rt: &impl Abort, lines: &[Line]) {
        let found = self.said.get(..lines.len());
        assert!(rt; found == Some(lines), "what the server says first");
    }

    /// On a connection these messages were sent, one behind the other, and nothing else.
    pub fn hears(&self, rt: &impl Abort, key: usize, messages: &[&[u8]]) {
        let mut want = Vec::new(self.alloc);
        for message in messages {
            put(rt, &mut want, message);
        }
        is(rt, self.heard(key), want.as_slice(), "what was sent");
    }

    /// All connections are closed.
    pub fn are_closed(&self, rt: &impl Abort) {
        for wire in &self.wires {
            assert!(rt; !wire.is_open, "a connection is closed");
        }
    }

    /// How often this was reported.
    pub fn reported(&self, wanted: &Report) -> usize {
        let mut count = 0usize;
        for report in &self.reports {
            if report == wanted {
                count = count.saturating_add(1);
            }
        }
        count
    }

    /// How often the server says this line.
    pub fn says(&self, wanted: Line) -> usize {
        let mut count = 0usize;
        for line in &self.said {
            if *line == wanted {
                count = count.saturating_add(1);
            }
        }
        count
    }

    /// Lets it go in one call, which is one step of a test, and not one for each of its lists.
    pub fn let_go(self) {}

    /// Counts a call, and answers whether it fails.
    fn fails(&mut self, call: Broken) -> bool {
        self.calls = self.calls.saturating_add(1);
        let fails = self.calls == self.failing;
        if fails {
            self.broken = Some(call);
            self.is_early = self.rounds < self.end;
        }
        fails
    }
}

/// Lays octets at the front of a piece, and answers how many.
fn lay(piece: &mut [u8; 4096], octets: &[u8]) -> usize
    ensures { result ≤ 4096 }
{
    let count = octets.len().min(4096);
    piece[..count].copy_from_slice(&octets[..count]);
    count
}

impl Ports for Script {
    ghost asked = { λ ports calls. Unit {0} };

    ghost shown = { λ ports level. is_shown ports.log.level level };

    fn wait(&mut self, _pause: bool) -> Result<(), PortFault> {
        self.rounds = self.rounds.saturating_add(1);
        self.accepts = 0;
        if self.fails(Broken::Wait) {
            return Err(PortFault);
        }
        Ok(())
    }

    fn accept(&mut self) -> Result<Option<Incoming>, PortFault> {
        if self.fails(Broken::Accept) {
            return Err(PortFault);
        }
        let incoming = match self.wires.get_mut(self.accepted) {
            None if self.is_flooded => STRANGER,
            None => return Ok(None),
            Some(wire) if self.rounds < wire.member.comes => return Ok(None),
            Some(wire) => {
                let key = self.accepted;
                self.accepted = key.saturating_add(1);
                wire.is_open = true;
                Incoming {
                    listener: wire.member.listener,
                    address: wire.member.address,
                    key,
                }
            }
        };
        self.accepts = self.accepts.saturating_add(1);
        self.most_accepts = self.most_accepts.max(self.accepts);
        Ok(Some(incoming))
    }

    fn read(&mut self, key: usize, piece: &mut [u8; 4096]) -> Result<Option<usize>, PortFault> {
        if self.fails(Broken::Read(key)) {
            return Err(PortFault);
        }
        let Some(wire) = self.wires.get_mut(key) else {
            return Ok(None);
        };
        if self.rounds >= self.end {
            return Ok(Some(0));
        }
        let Some(said) = wire.member.says.get(wire.given) else {
            if let Some((round, octets)) = wire.member.later
                && self.rounds >= round
            {
                wire.member.later = None;
                return Ok(Some(lay(piece, octets)));
            }
            let is_done = wire.heard.len() >= wire.member.until && self.rounds >= wire.member.stays;
            return Ok(if is_done { Some(0) } else { None });
        };
        if wire.heard.len() < said.behind {
            return Ok(None);
        }
        wire.given = wire.given.saturating_add(1);
        Ok(Some(lay(piece, said.octets)))
    }

    fn write(&mut self, key: usize, octets: &[u8]) -> Result<Option<usize>, PortFault> {
        if self.fails(Broken::Write(key)) {
            return Err(PortFault);
        }
        let Some(wire) = self.wires.get_mut(key) else {
            return Ok(None);
        };
        if self.rounds >= wire.member.deaf {
            return Ok(None);
        }
        match wire.heard.extend_from_slice(octets) {
            Ok(()) => Ok(Some(octets.len())),
            Err(_) => Err(PortFault),
        }
    }

    fn close(&mut self, key: usize) {
        if let Some(wire) = self.wires.get_mut(key) {
            wire.is_open = false;
        }
    }

    fn seconds(&mut self) -> u64 {
        let stalled = match self.stall {
            Some((round, seconds)) if self.rounds >= round => seconds,
            _ => 0,
        };
        self.rounds
            .saturating_mul(self.pace)
            .saturating_add(stalled)
    }

    fn text(&mut self, text: &mut Vec<u8>) -> Result<bool, FileFault> {
        if let Some(fault) = self.unread.take() {
            return Err(fault);
        }
        let octets = match self.later {
            Some((round, octets)) if self.rounds >= round => octets,
            _ => self.text,
        };
        text.clear();
        match text.extend_from_slice(octets) {
            Ok(()) => Ok(true),
            Err(_) => Err(FileFault::Memory),
        }
    }

    fn command(&mut self, clients: usize) -> Option<Order> {
        let due = self.orders.get(self.ordered)?;
        if self.rounds < due.round {
            return None;
        }
        self.ordered = self.ordered.saturating_add(1);
        orders::of(due.order, clients)
    }

    fn print(&mut self, line: &Line) {
        let _ = self.said.push(*line);
    }

    fn show(&mut self, _core: &Core, _is_busy: bool) -> bool {
        false
    }

    fn observe(&mut self, _what: Observed<'_>) {}

    fn shows(&self, level: Level) -> bool {
        self.log.shows(level)
    }

    fn log(&mut self, report: &Report) {
        let _ = self.reports.push(*report);
    }

    fn record(&mut self, lines: &[u8], end: Option<RecordEnd>) -> bool {
        let Some(record) = &mut self.record else {
            return false;
        };
        self.record_end = end;
        record.extend_from_slice(lines).is_ok() && end.is_none()
    }
}
