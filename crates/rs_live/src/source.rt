//! The events of a round, one at a time. A round gives a moment, what the operator has ordered, accepts the
//! connections that have come, then reads one piece of each connection that is ready, and again while there is
//! more and few were ready. Once much was heard, and at the end, come a moment, a turn, and room for each
//! connection. So turns stay short: while one goes on, nothing is read.

ghost use Rattle.std.specs.Prelude.{◌≡◌, ◌+◌, ◌<◌, ◌≤◌, ◌∷◌, ℕ, List, min, length, Some, None, IfSome, IfErr, IsOk, IsSome, IsNone, false};
ghost use Rattle.rs_live.specs.Calls.{Call, Closed, Printed};
ghost use Rattle.rs_live.specs.Handled.{HasAccepted, IsBroken, IsRunning, Keeps, Follows, Answers, AnswersFrom};
ghost use Rattle.rs_live.specs.Keeping.{all_held, held_by, passed};
ghost use Rattle.rs_live.specs.Leaving.{KeepsOn, LeavesClients, LeavesPorts, LeavesRound, SamePorts};

use crate::live_link::{LiveLink, Stage};
use crate::ports::{Incoming, Line, Ports};
use rs_core::{Event, Link, Source};

/// How many connections a round accepts. More wait for the next round, which comes at once: so nobody
/// who connects over and over keeps the server from those that are connected.
const ACCEPTED: u32 = 64;

/// Where a round has read so many pieces, it begins with the first connection no more: what came since it began is
/// read in the next one, and waits for one who sends without end no longer than a turn takes.
const PIECES: u32 = 3;

/// While at most so many octets were heard since the last turn, more is read before the next: so it is at most
/// three pieces of 4,096 octets, which name some 3,000 prefixes of 24 bits.
const OCTETS_A_TURN: usize = 8192;

/// From so many octets heard since the last turn on, times the clients for whom it is to be decided what they name, all workers
/// turn; else one does, for most turns are short, and to start threads costs more than that saves.
const MUCH: usize = 400_000;

impl<'a, P: Ports> LiveLink<'a, P> {
    /// The client whose connection this is.
    fn client_of(&self, incoming: &Incoming) -> Option<usize>
        ensures { IfSome result (λ c. c < length (all_held self.entry.now)) }
    {
        self.connections.iter().position(|own| own.listener == incoming.listener
            && own.peer == incoming.address)
    }

    /// Closes a connection that has come and is nobody's.
    fn refuse(&mut self, incoming: &Incoming)
        ensures leaves { LeavesClients self.old self.new }
        ensures asked { (calls : List Call) → P.asked self.old.ports.now calls → P.asked self.new.ports.now (Closed incoming.now.key ∷ Printed Line.Stranger ∷ calls) }
    {
        self.ports.print(&Line::Stranger);
        self.ports.close(incoming.key);
        let (address, count) = self.strangers.unwrap_or((incoming.address, 0));
        self.strangers = Some((address, count.saturating_add(1)));
    }

    /// Closes the connection with this key, which has come, of a client that is kept down.
    fn keep_out(&mut self, c: usize, key: usize)
        ensures leaves { LeavesClients self.old self.new }
        ensures asked { (calls : List Call) → P.asked self.old.ports.now calls → P.asked self.new.ports.now (Closed key ∷ Printed (Line.Disabled c) ∷ calls) }
    {
        self.ports.print(&Line::Disabled(c));
        self.ports.close(key);
        self.note_kept_out(c);
    }

    /// The client whose connection has come, where it is to be taken; any other is closed.
    fn welcome(&mut self, incoming: &Incoming) -> Option<usize>
        ensures leaves { LeavesClients self.old self.new }
        ensures client { IfSome result (λ c. c < length (all_held self.old)) }
        ensures up { IfSome result (λ c. (held_by c (all_held self.old)).is_down ≡ false) }
        ensures unasked { IsSome result → self.new.ports.now ≡ self.old.ports.now }
        ensures closed { IsNone result → self.old.phase.stage ≡ Stage.Accept → HasAccepted P.asked incoming.now self.old → Keeps P.asked self.new }
    {
        let Some(c) = self.client_of(incoming) else {
            self.refuse(incoming);
            return None;
        };
        if self.is_down(c) {
            self.keep_out(c, incoming.key);
            return None;
        }
        Some(c)
    }

    /// Accepts until a client's connection comes, none is left, or the round has accepted enough.
    fn accepted(&mut self) -> Option<Event>
        ensures same_ports { SamePorts self.old self.new }
        ensures answers { (piece : List ℕ) → AnswersFrom P.asked Stage.Accept result piece self.old self.new }
    {
        for _ in self.accepted..ACCEPTED {
            match self.ports.accept() {
                Err(_) => {
                    self.has_failed = true;
                    return Some(Event::Stop);
                }
                Ok(None) => {
                    self.phase.stage = Stage::Read;
                    return None;
                }
                Ok(Some(incoming)) => {
                    self.accepted = self.accepted.saturating_add(1);
                    if let Some(c) = self.welcome(&incoming) {
                        self.phase.stage = Stage::Come(c, incoming);
                        return Some(Event::Opened(c));
                    }
                }
            }
        }
        self.has_more = true;
        self.phase.stage = Stage::Read;
        None
    }

    /// Reads a piece of the client whose turn it is; `None` where nothing is there. At the end of its
    /// input the connection is lost, as where the read fails.
    fn piece(&mut self, piece: &mut [u8; 4096]) -> Option<Event>
        ensures same_ports { SamePorts self.old self.new }
        ensures stage { self.new.phase.stage ≡ self.old.phase.stage }
        ensures answers { AnswersFrom P.asked Stage.Read result piece.new self.old self.new }
    {
        let c = self.reading;
        self.pass_on(c);
        let Some(key) = self.live_key(c) else {
            return None;
        };
        match self.ports.read(key, piece) {
            Ok(None) => None,
            Ok(Some(count)) => {
                if count == 0 {
                    self.lose(c, key);
                    return Some(Event::Lost(c));
                }
                self.heard(c, &piece[..count]);
                Some(Event::Octets(c, count))
            }
            Err(_) => {
                self.lose(c, key);
                Some(Event::Lost(c))
            }
        }
    }

    /// The client whose turn it is rests, and no session may end by the moment of this round.
    fn rests(&self) -> bool {
        match self.connections.get(self.reading) {
            Some(own) => self.phase.clock < own.rests_to && self.phase.clock <= self.phase.quiet,
            None => false,
        }
    }

    /// This client is read, and the next one is to be.
    fn pass_on(&mut self, c: usize)
        ensures same_ports { SamePorts self.old self.new }
        ensures failed { self.new.has_failed ≡ self.old.has_failed }
        ensures held { all_held self.new ≡ all_held self.old }
        ensures phase { self.new.phase ≡ passed c self.old.phase }
        ensures unasked { self.new.ports.now ≡ self.old.ports.now }
    {
        self.reading = c.saturating_add(1);
        if c == self.phase.read_to {
            self.phase.read_to = self.reading;
        }
    }

    /// Counts octets that were read of a client.
    fn heard(&mut self, c: usize, octets: &[u8])
        ensures { LeavesPorts self.old self.new }
    {
        self.has_heard = true;
        self.pieces = self.pieces.saturating_add(1);
        self.octets_heard = self.octets_heard.saturating_add(octets.len());
        let now = self.phase.clock;
        if let Some(own) = self.connections.get_mut(c) {
            own.hear(octets);
            own.pace(octets, now);
        }
    }

    /// Reads on, until enough was heard for a turn or nothing is left.
    fn read_on(&mut self, piece: &mut [u8; 4096]) -> Option<Event>
        ensures same_ports { SamePorts self.old self.new }
        ensures answers { AnswersFrom P.asked Stage.Read result piece.new self.old self.new }
    {
        if self.octets_heard <= OCTETS_A_TURN {
            for _ in 0..self.connections.len() {
                if !self.has_to_read() {
                    break;
                }
                if self.rests() {
                    self.reading = self.reading.saturating_add(1);
                    continue;
                }
                match self.piece(piece) {
                    Some(event) => return Some(event),
                    None => {}
                }
            }
        }
        self.phase.stage = Stage::Moment;
        None
    }

    /// Whether a connection is to be read in this round: after the last one the first is the next, where
    /// there was something to read and the round has read little.
    fn has_to_read(&mut self) -> bool
        ensures { LeavesPorts self.old self.new }
    {
        if self.reading < self.connections.len() {
            return true;
        }
        if self.has_heard && self.pieces < PIECES {
            self.has_heard = false;
            self.reading = 0;
            return !self.connections.is_empty();
        }
        false
    }

    /// The first moment of the round.
    fn start(&mut self) -> Option<Event>
        ensures same_ports { SamePorts self.old self.new }
        ensures answers { (piece : List ℕ) → AnswersFrom P.asked Stage.Start result piece self.old self.new }
    {
        let clients = self.connections.len();
        self.phase.stage = Stage::Orders(0);
        self.phase.told = self.phase.fair_moment(clients);
        Some(Event::Moment(self.phase.told))
    }

    fn moment(&mut self) -> Option<Event>
        ensures same_ports { SamePorts self.old self.new }
        ensures answers { (piece : List ℕ) → AnswersFrom P.asked Stage.Moment result piece self.old self.new }
    {
        let clients = self.connections.len();
        self.phase.stage = Stage::Turn;
        self.phase.told = self.phase.fair_moment(clients);
        Some(Event::Moment(self.phase.told))
    }

    /// A turn; or a stop before it, where other workers are to do it.
    fn turn(&mut self) -> Option<Event>
        ensures same_ports { SamePorts self.old self.new }
        ensures answers { (piece : List ℕ) → AnswersFrom P.asked Stage.Turn result piece self.old self.new }
    {
        let much = self.octets_heard.saturating_mul(self.connections.len());
        let is_wide = much >= MUCH || self.phase.told < self.wide_to;
        if is_wide != self.is_wide {
            self.is_wide = is_wide;
            return Some(Event::Stop);
        }
        self.octets_heard = 0;
        self.turns = self.turns.saturating_add(1);
        self.phase.stage = Stage::Room(0);
        Some(Event::Turn)
    }

    /// The next client from this one on that has a connection.
    fn next_live(&self, from: usize) -> Option<usize>
        ensures found { IfSome result (λ c. (from ≤ c) × ((d : ℕ) → from ≤ d → d < c → (held_by d (all_held self.entry.now)).key ≡ None)) }
        ensures none { IsNone result → (d : ℕ) → from ≤ d → (held_by d (all_held self.entry.now)).key ≡ None }
    {
        for c in from..self.connections.len() {
            if self.live_key(c).is_some() {
                return Some(c);
            }
        }
        None
    }

    /// Gives room to the next connection from this client's on.
    fn room(&mut self, from: usize) -> Option<Event>
        ensures same_ports { SamePorts self.old self.new }
        ensures answers { (piece : List ℕ) → AnswersFrom P.asked (Stage.Room from) result piece self.old self.new }
    {
        if let Some(c) = self.next_live(from) {
            self.phase.stage = Stage::Handed(c);
            return Some(Event::Room(c, u64::MAX));
        }
        if self.has_to_read() {
            self.phase.stage = Stage::Read;
        } else if self.has_to_stop() {
            self.phase.stage = Stage::Orders(0);
        } else if self.phase.told != self.phase.clock {
            self.phase.stage = Stage::Moment;
        } else {
            self.has_more |= self.has_heard;
            self.phase.stage = Stage::Over;
            self.finish_closing();
        }
        None
    }

    /// Writes what a client's connection was handed, and answers whether it was full and no longer is;
    /// where a write fails the error is the key.
    fn write_on(&mut self, c: usize) -> Result<bool, usize>
        ensures leaves { LeavesRound self.old self.new }
        ensures ok { IsOk result → Keeps P.asked self.old → Keeps P.asked self.new }
        ensures broke { IfErr result (λ key. Keeps P.asked self.old → IsBroken P.asked c key self.new) }
    {
        let Some(own) = self.connections.get_mut(c) else {
            return Ok(false);
        };
        let was_full = own.live.is_full();
        match own.live.write(self.ports, self.phase.told) {
            Ok(()) => Ok(was_full && own.live.is_empty()),
            Err(key) => Err(key),
        }
    }

    /// The key of a client's connection whose octets have waited too long, or to whose client nothing could
    /// be told for too long.
    fn overdue(&self, c: usize) -> Option<usize>
        ensures { IfSome result (λ key. (held_by c (all_held self.entry.now)).key ≡ Some key) }
    {
        let own = self.connections.get(c)?;
        let now = self.phase.told;
        if !own.live.is_over(now) && !own.is_stale(now, self.turns) {
            return None;
        }
        own.live.key()
    }

    /// Writes what a connection was handed.
    fn handed(&mut self, c: usize) -> Option<Event>
        ensures same_ports { SamePorts self.old self.new }
        ensures answers { (piece : List ℕ) → AnswersFrom P.asked (Stage.Handed c) result piece self.old self.new }
    {
        self.phase.stage = Stage::Room(c.saturating_add(1));
        match self.write_on(c) {
            Err(key) => {
                self.lose(c, key);
                Some(Event::Lost(c))
            }
            Ok(is_free) => self.written(c, is_free),
        }
    }

    /// A client's connection was written; where it was full and no longer is, the next round follows at once.
    /// So nobody who takes much keeps others from being heard.
    fn written(&mut self, c: usize, is_free: bool) -> Option<Event>
        ensures same_ports { SamePorts self.old self.new }
        ensures answers { (piece : List ℕ) → AnswersFrom P.asked (Stage.Room (min (c + 1) usize.MAX)) result piece self.old self.new }
    {
        if let Some(key) = self.overdue(c) {
            self.lose(c, key);
            return Some(Event::Lost(c));
        }
        self.has_more |= is_free;
        None
    }

    /// Goes on with the connections that are being closed.
    fn finish_closing(&mut self)
        ensures { KeepsOn P.asked self.old self.new }
    {
        for c in 0..self.connections.len() {
            self.finish(c);
        }
    }

    /// Goes on with a client's connection that is being closed.
    fn finish(&mut self, c: usize)
        ensures { KeepsOn P.asked self.old self.new }
    {
        if let Some(own) = self.connections.get_mut(c) {
            own.closing.finish(self.ports, self.phase.told);
        }
    }

    /// What the round does next, and the event that comes of it.
    fn step(&mut self, piece: &mut [u8; 4096]) -> Option<Event>
        ensures same_ports { SamePorts self.old self.new }
        ensures answers { IsRunning P.asked self.old → Answers P.asked result piece.new self.new }
    {
        match self.phase.stage {
            Stage::Rules => {
                self.phase.stage = Stage::Start;
                Some(Event::Rules)
            }
            Stage::Start => self.start(),
            Stage::Orders(asked) => self.ordered(asked),
            Stage::Accept => self.accepted(),
            Stage::Come(_, incoming) => {
                self.refuse(&incoming);
                self.phase.stage = Stage::Accept;
                None
            }
            Stage::Read => self.read_on(piece),
            Stage::Moment => self.moment(),
            Stage::Turn => self.turn(),
            Stage::Room(from) => self.room(from),
            Stage::Handed(c) => self.handed(c),
            Stage::Over => Some(Event::Stop),
        }
    }
}

impl<'a, P: Ports> Link for LiveLink<'a, P> {
    ghost happens = { λ old step new. (new.ports.ghost_name ≡ old.ports.ghost_name) × (old.has_failed ≡ false → Keeps P.asked old → Follows P.asked step new new.has_failed) };

    ghost text = { λ link. link.text.now.items };
}

impl<'a, P: Ports> Source for LiveLink<'a, P> {
    fn next(&mut self, piece: &mut [u8; 4096]) -> Event {
        self.observe_turn();
        for _ in 0..8 {
            match self.step(piece) {
                Some(event) => {
                    self.observe_event(event, piece);
                    return event;
                }
                None => {}
            }
        }
        Event::Stop
    }

    fn rules(&self) -> &[u8] {
        self.text.as_slice()
    }
}
