//! The ports as a link of the core: what the ports answer becomes events, one at a time (`source`), and
//! what the core calls goes to the ports (`sink`). Where a connection fails the core hears of its loss at
//! once.

ghost use Rattle.std.specs.Prelude.{◌≡◌, ◌≤◌, ◌+◌, ◌∷◌, false, ℕ, List, [], None, IsTrue, IsFalse};
ghost use Rattle.rs_live.specs.Calls.{Call, Closed, Printed, IsFailedAccept};
ghost use Rattle.rs_live.specs.Handled.{Has, EndBy, EndByWait, IsAskedFor, Keeps};
ghost use Rattle.rs_live.specs.Keeping.{Agrees, IsApart, IsFairBy, IsPlain, all_held, before, change, held_by, with_down, with_live};
ghost use Rattle.rs_live.specs.Leaving.{LeavesClients, LeavesRound, SamePorts};
ghost use Rattle.rs_live.specs.Operations.{Operation};
ghost use Rattle.rs_live.specs.Orders.{IsAtEnd};

mod notes;

use crate::connections::ClientConnections;
use crate::ports::{Incoming, Line, Ports};
use rs_control::order::Order;
use rs_core::Core;
use rs_policy::RulesFault;
use rs_reports::reports::Report;
use rs_streams::file_watch::FileFault;
use rs_streams::record_file::RecordEnd;
use std::mem;

/// For so many seconds after a connection began, a session ended, or rules were replaced all workers turn:
/// a whole table may be to decide then, for one client or for all.
pub(crate) const WIDE: u64 = 2;

/// How many seconds a server that is to end has for its connections to be closed.
pub(crate) const PARTING: u64 = 5;

/// What a round does next.
#[derive(Clone, Copy)]
pub(crate) enum Stage {
    /// Gives the core the text of rules that was read.
    Rules,
    /// Gives it the first moment of the round.
    Start,
    /// Gives it what the operator orders; the ports were asked so often.
    Orders(u32),
    Accept,
    /// A connection of this client has come, and the core is to answer.
    Come(usize, Incoming),
    Read,
    Moment,
    Turn,
    /// Gives room to the connections from this client's on.
    Room(usize),
    /// Writes what this client's connection was handed.
    Handed(usize),
    Over,
}

/// The server is to end.
#[derive(Clone, Copy)]
pub(crate) struct Stopping {
    /// What the clock answered in the round in which it was ordered.
    pub(crate) since: u64,
    /// The core was told to stop each client below this one.
    pub(crate) told: usize,
}

/// How far a round has come.
#[derive(Clone, Copy)]
pub(crate) struct Phase {
    pub(crate) stage: Stage,
    /// What the clock answered in this round.
    pub(crate) clock: u64,
    /// The moment up to which no session ends, as the core answered then.
    pub(crate) quiet: u64,
    /// The moment that the core was given last.
    pub(crate) told: u64,
    /// Each client below this one that has a connection was read since.
    pub(crate) read_to: usize,
    /// Whether the server is to end.
    pub(crate) stopping: Option<Stopping>,
}

impl Stopping {
    /// The time is up that connections have to be closed.
    fn is_late(&self, clock: u64) -> bool
        ensures { IsTrue result → self.now.since + 5 ≤ clock }
    {
        clock.saturating_sub(self.since) >= PARTING
    }
}

impl Phase {
    /// No round has begun yet.
    pub(crate) const BEFORE: Phase = Phase {
        stage: Stage::Over,
        clock: 0,
        quiet: 0,
        told: 0,
        read_to: 0,
        stopping: None,
    };

    /// The moment to give to the core now, beside so many clients. While one of them was not read since
    /// the clock answered, its KEEPALIVE may lie there: until then no moment is given that ends a session.
    pub(crate) fn fair_moment(&self, clients: usize) -> u64
        ensures { IsFairBy clients self.now result }
    {
        if self.clock <= self.quiet || clients <= self.read_to {
            self.clock
        } else {
            self.quiet
        }
    }
}

/// The ports as a link of the core.
#[derive(Drop)]
pub struct LiveLink<'a, P> {
    pub(crate) ports: &'a mut P,
    pub(crate) connections: &'a mut Vec<ClientConnections>,
    pub(crate) phase: Phase,
    /// How many connections the round has accepted.
    pub(crate) accepted: u32,
    /// The client whose connection is read next.
    pub(crate) reading: usize,
    /// How many pieces the round has read, and whether one since it began with the first client again.
    pub(crate) pieces: u32,
    pub(crate) has_heard: bool,
    /// How many octets were read since the last turn.
    pub(crate) octets_heard: usize,
    /// How many turns there were.
    pub(crate) turns: u64,
    /// All workers turn; and up to which moment they do, however little was heard.
    pub(crate) is_wide: bool,
    pub(crate) wide_to: u64,
    /// Something was left undone, so that the next round doesn't wait.
    pub(crate) has_more: bool,
    pub(crate) ended: u64,
    /// A call of `accept` failed.
    pub(crate) has_failed: bool,
    /// The text of rules that was handed over last, and the one that was read.
    pub(crate) text: &'a mut Vec<u8>,
    pub(crate) read: &'a mut Vec<u8>,
    pub(crate) has_text: bool,
    /// The address of the first stranger that was not reported yet, and how many there were.
    pub(crate) strangers: Option<(u32, u64)>,
}

impl<'a, P: Ports> LiveLink<'a, P> {
    /// A link over ports, with the place of each client.
    pub fn new(
        ports: &'a mut P,
        connections: &'a mut Vec<ClientConnections>,
        text: &'a mut Vec<u8>,
        read: &'a mut Vec<u8>,
    ) -> LiveLink<'a, P>
        ensures same_ports { result.ports.ghost_name ≡ ports.entry.ghost_name }
        ensures value { result.ports.now ≡ ports.old }
        ensures connections { result.connections.now ≡ connections.old }
        ensures phase { result.phase ≡ before }
        ensures fine { result.has_failed ≡ false }
    {
        LiveLink {
            ports,
            connections,
            phase: Phase::BEFORE,
            accepted: 0,
            reading: 0,
            pieces: 0,
            has_heard: false,
            octets_heard: 0,
            turns: 0,
            is_wide: false,
            wide_to: 0,
            has_more: false,
            ended: 0,
            has_failed: false,
            text,
            read,
            has_text: false,
            strangers: None,
        }
    }

    /// Waits for the ports, and begins a round; up to the moment `quiet` no session ends. Answers
    /// whether the wait succeeded.
    pub fn begin_round(&mut self, quiet: u64) -> bool
        ensures same_ports { SamePorts self.old self.new }
        ensures failed { self.new.has_failed ≡ self.old.has_failed }
        ensures stage { self.new.phase.stage ≡ Stage.Start }
        ensures ready { IsTrue result → self.old.phase.stage ≡ Stage.Over → Keeps P.asked self.old → Keeps P.asked self.new }
        ensures broken { IsFalse result → self.old.phase.stage ≡ Stage.Over → Keeps P.asked self.old → Has P.asked self.new.ports.now EndByWait }
    {
        self.phase.stage = Stage::Start;
        self.accepted = 0;
        self.reading = 0;
        self.pieces = 0;
        self.has_heard = false;
        let pause = !mem::replace(&mut self.has_more, false);
        match self.ports.wait(pause) {
            Ok(()) => {
                self.phase.read_to = 0;
                self.phase.quiet = quiet;
                self.phase.clock = self.ports.seconds();
                true
            }
            Err(_) => false,
        }
    }

    /// Asks for the text of the file of rules; where it is another than before, the core is given it in this
    /// round.
    pub fn read_rules(&mut self)
        ensures same_ports { SamePorts self.old self.new }
        ensures failed { self.new.has_failed ≡ self.old.has_failed }
        ensures handled { self.old.phase.stage ≡ Stage.Start → Keeps P.asked self.old → Keeps P.asked self.new }
        ensures ordered { (asked : ℕ) → self.old.phase.stage ≡ Stage.Orders asked → IsAskedFor P.asked Order.Reload self.old → Keeps P.asked self.new }
    {
        if !self.fetch() {
            return;
        }
        if self.has_text && self.read.as_slice() == self.text.as_slice() {
            return;
        }
        mem::swap(self.read, self.text);
        self.has_text = true;
        self.phase.stage = Stage::Rules;
    }

    /// Asks for the text of the file of rules, and answers whether there is one; why it was not read is
    /// printed and reported.
    fn fetch(&mut self) -> bool
        ensures leaves { LeavesClients self.old self.new }
        ensures handled { Keeps P.asked self.old → Keeps P.asked self.new }
        ensures ordered { IsAskedFor P.asked Order.Reload self.old → Keeps P.asked self.new }
    {
        match self.ask_text() {
            Ok(is_new) => is_new,
            Err(fault) => {
                self.report_file(fault);
                false
            }
        }
    }

    /// Asks for the text of the file of rules.
    fn ask_text(&mut self) -> Result<bool, FileFault>
        ensures leaves { LeavesClients self.old self.new }
        ensures handled { Keeps P.asked self.old → Keeps P.asked self.new }
        ensures ordered { IsAskedFor P.asked Order.Reload self.old → Keeps P.asked self.new }
    {
        self.ports.text(self.read)
    }

    /// Prints and reports why the file of rules was not read.
    fn report_file(&mut self, fault: FileFault)
        ensures leaves { LeavesClients self.old self.new }
        ensures handled { Keeps P.asked self.old → Keeps P.asked self.new }
    {
        self.print(Line::File(fault));
        self.log(&Report::File(fault));
    }

    /// Prints and reports that rules were accepted, or why they weren't.
    pub(crate) fn report_rules(&mut self, answer: Result<(), RulesFault>)
        ensures leaves { LeavesClients self.old self.new }
        ensures handled { Keeps P.asked self.old → Keeps P.asked self.new }
    {
        if answer.is_ok() {
            self.wide_to = self.phase.told.saturating_add(WIDE);
        }
        self.print(Line::Rules(answer));
        self.log(&Report::Rules(answer));
    }

    /// The round is over.
    pub fn is_over(&self) -> bool
        ensures { IsTrue result → self.entry.now.phase.stage ≡ Stage.Over }
    {
        matches!(self.phase.stage, Stage::Over)
    }

    /// The turn that comes next is one for all workers. The core's loop turns with as many workers as it
    /// was called with, and how much was heard is known only before the turn. So the link stops the loop
    /// there, and `serve` goes on with another one: to drive with all workers always would start threads
    /// for each small turn.
    pub fn is_wide(&self) -> bool {
        self.is_wide
    }

    /// A call of `accept` failed.
    pub fn has_failed(&self) -> bool
        ensures { result ≡ self.entry.now.has_failed }
    {
        self.has_failed
    }

    /// How many sessions have ended.
    pub fn ended(&self) -> u64 {
        self.ended
    }

    /// No connection is being closed.
    pub fn has_closed_all(&self) -> bool {
        !self.connections.iter().any(|own| own.closing.is_open())
    }

    /// A client has a connection, or one that is being closed.
    fn has_connection(&self, c: usize) -> bool
        ensures { IsFalse result → IsApart (held_by c (all_held self.entry.now)) }
    {
        match self.connections.get(c) {
            Some(own) => own.live.is_open() || own.closing.is_open(),
            None => false,
        }
    }

    /// No client has one.
    fn is_alone(&self) -> bool
        ensures { IsTrue result → (c : ℕ) → IsApart (held_by c (all_held self.entry.now)) }
    {
        for c in 0..self.connections.len() {
            if self.has_connection(c) {
                return false;
            }
        }
        true
    }

    /// The server may end as it was ordered: no client has a connection any more, or the time for that is up.
    pub fn is_at_end(&self) -> bool
        ensures { IsTrue result → (operations : List Operation) → Agrees (all_held self.entry.now) self.entry.now.phase operations → IsAtEnd operations }
    {
        match self.phase.stopping {
            Some(stopping) => self.is_alone() || stopping.is_late(self.phase.clock),
            None => false,
        }
    }

    /// The seconds since the start, at the last moment that the core was given.
    pub fn now(&self) -> u64 {
        self.phase.told
    }

    /// Records lines of the run, after which the record may end; answers whether it goes on.
    pub(crate) fn record(&mut self, lines: &[u8], end: Option<RecordEnd>) -> bool
        ensures leaves { LeavesClients self.old self.new }
        ensures handled { Keeps P.asked self.old → Keeps P.asked self.new }
        ensures halted { Has P.asked self.old.ports.now (EndBy IsFailedAccept) → Has P.asked self.new.ports.now (EndBy IsFailedAccept) }
    {
        self.ports.record(lines, end)
    }

    /// Goes on with those who look at the server. Where something was left undone, the next round doesn't
    /// wait.
    pub fn show(&mut self, core: &Core)
        ensures leaves { LeavesClients self.old self.new }
        ensures handled { Keeps P.asked self.old → Keeps P.asked self.new }
    {
        let is_unfinished = self.ports.show(core, self.has_more);
        self.has_more |= is_unfinished;
    }

    /// Prints a line.
    pub(crate) fn print(&mut self, line: Line)
        ensures leaves { LeavesClients self.old self.new }
        ensures asked { (calls : List Call) → P.asked self.old.ports.now calls → P.asked self.new.ports.now (Printed line ∷ calls) }
        ensures handled { IsPlain (Printed line) → Keeps P.asked self.old → Keeps P.asked self.new }
    {
        self.ports.print(&line);
    }

    /// A client is kept down.
    pub(crate) fn is_down(&self, c: usize) -> bool
        ensures { result ≡ (held_by c (all_held self.entry.now)).is_down }
    {
        match self.connections.get(c) {
            Some(own) => own.is_down,
            None => false,
        }
    }

    /// From now on a client is kept down, or no longer.
    pub(crate) fn keep_down(&mut self, c: usize, is_down: bool)
        ensures leaves { LeavesRound self.old self.new }
        ensures held { all_held self.new ≡ change c (with_down is_down) (all_held self.old) }
        ensures unasked { self.new.ports.now ≡ self.old.ports.now }
    {
        if let Some(own) = self.connections.get_mut(c) {
            own.is_down = is_down;
        }
    }

    /// The connection of a client with this key is lost: a line says so, and it is closed. The core is to
    /// hear of it next.
    pub(crate) fn lose(&mut self, c: usize, key: usize)
        ensures leaves { LeavesRound self.old self.new }
        ensures held { all_held self.new ≡ change c (with_live None []) (all_held self.old) }
        ensures asked { (calls : List Call) → P.asked self.old.ports.now calls → P.asked self.new.ports.now (Closed key ∷ Printed (Line.Lost c) ∷ calls) }
    {
        self.ports.print(&Line::Lost(c));
        self.ports.close(key);
        self.forget(c);
        self.note_end(c);
    }

    /// The key of a client's connection.
    pub(crate) fn live_key(&self, c: usize) -> Option<usize>
        ensures { result ≡ (held_by c (all_held self.entry.now)).key }
    {
        self.connections.get(c)?.live.key()
    }

    /// Forgets the connection of a client.
    fn forget(&mut self, c: usize)
        ensures leaves { LeavesRound self.old self.new }
        ensures held { all_held self.new ≡ change c (with_live None []) (all_held self.old) }
        ensures unasked { self.new.ports.now ≡ self.old.ports.now }
    {
        if let Some(own) = self.connections.get_mut(c) {
            own.live.forget();
            own.refused = None;
        }
    }
}
