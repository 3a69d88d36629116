//! A link in memory: it tells a script of events, and keeps what it was told. Nothing is known of it, as
//! of one over sockets.

use crate::common::{equals, is_of, push};
use crate::route_server::exchange::{KEEPALIVE, message, messages};
use rs_core::{Event, Link, Sink, Source};
use rs_policy::RulesFault;
use std::alloc::Global;
use std::process::Abort;

/// What a link was told.
#[derive(Clone, Copy, Debug, PartialEq)]
pub enum Said {
    Begin(usize),
    Busy(usize),
    /// So many octets of an offer were taken.
    Took(usize, usize),
    Memory(usize),
    End(usize),
    /// The rules were replaced, or not.
    Ruled(bool),
}

/// A link in memory, of two clients.
#[derive(Drop)]
pub struct Tape {
    alloc: Global,
    /// What it tells, each event with its octets. Behind the last it stops.
    events: Vec<(Event, Vec<u8>)>,
    told: usize,
    said: Vec<Said>,
    /// What each client was sent.
    sent: [Vec<u8>; 2],
    /// The text of the rules.
    pub text: Vec<u8>,
    /// Memory was refused to it.
    pub is_full: bool,
}

impl Tape {
    pub fn new(alloc: Global) -> Tape {
        Tape {
            alloc,
            events: Vec::new(alloc),
            told: 0,
            said: Vec::new(alloc),
            sent: [Vec::new(alloc), Vec::new(alloc)],
            text: Vec::new(alloc),
            is_full: false,
        }
    }

    /// It will tell this event, too.
    pub fn add(&mut self, rt: &impl Abort, event: Event) {
        let nothing = Vec::new(self.alloc);
        push(rt, &mut self.events, (event, nothing));
    }

    /// It will tell that this message of a client has come.
    pub fn hear(&mut self, rt: &impl Abort, c: usize, digits: &str) {
        let octets = message(rt, self.alloc, digits);
        let event = Event::Octets(c, octets.len());
        push(rt, &mut self.events, (event, octets));
    }

    /// A connection of a client will come, its OPEN and its KEEPALIVE, and there is room for what it is
    /// sent.
    pub fn come_up(&mut self, rt: &impl Abort, c: usize, open: &str) {
        self.add(rt, Event::Opened(c));
        self.hear(rt, c, open);
        self.hear(rt, c, KEEPALIVE);
        self.add(rt, Event::Room(c, 1000));
    }

    /// It was told just this.
    pub fn was_told(&self, rt: &impl Abort, want: &[Said]) {
        equals(rt, self.said.as_slice(), want);
    }

    /// A client was sent just these messages.
    pub fn was_sent(&self, rt: &impl Abort, c: usize, all: &[&str]) {
        let want = messages(rt, self.alloc, all);
        let sent = self.sent.get(c).expect(rt, "a client");
        is_of(rt, sent.as_slice(), want.as_slice(), &("client", c));
    }

    fn say(&mut self, what: Said) {
        if self.said.push(what).is_err() {
            self.is_full = true;
        }
    }
}

impl Link for Tape {
    ghost happens = { λ old step new. Unit {0} };

    ghost text = { λ tape. tape.text.items };
}

impl Source for Tape {
    fn next(&mut self, piece: &mut [u8; 4096]) -> Event {
        let Some((event, octets)) = self.events.get(self.told) else {
            return Event::Stop;
        };
        self.told = self.told.saturating_add(1);
        let count = octets.len().min(piece.len());
        piece[..count].copy_from_slice(&octets[..count]);
        *event
    }

    fn rules(&self) -> &[u8] {
        self.text.as_slice()
    }
}

impl Sink for Tape {
    fn begin(&mut self, c: usize) {
        self.say(Said::Begin(c));
    }

    fn busy(&mut self, c: usize) {
        self.say(Said::Busy(c));
    }

    fn offer(&mut self, c: usize, octets: &[u8]) -> Option<usize> {
        self.say(Said::Took(c, octets.len()));
        let sent = self.sent.get_mut(c)?;
        if sent.extend_from_slice(octets).is_err() {
            self.is_full = true;
        }
        Some(octets.len())
    }

    fn memory(&mut self, c: usize) {
        self.say(Said::Memory(c));
    }

    fn end(&mut self, c: usize) {
        self.say(Said::End(c));
    }

    fn ruled(&mut self, answer: &Result<(), RulesFault>) {
        self.say(Said::Ruled(answer.is_ok()));
    }
}
