//! A place for each client: where its connection comes from, the one that it has, and an earlier one
//! that the server is closing.

ghost use Rattle.std.specs.Prelude.{◌≡◌, ◌≤◌, ◌<◌, ◌++◌, ◌↔◌, ℕ, List, [], true, false, length, take, drop, IfOk, IfErr, IsOk, IsSome, IsTrue};
ghost use Rattle.rs_live.specs.Calls.{Call};
ghost use Rattle.rs_live.specs.declared.live_link.Phase.{Phase};
ghost use Rattle.rs_live.specs.Handled.{Has, AreKept};
ghost use Rattle.rs_live.specs.Keeping.{Held, change, held_by, held_in, held_of, nothing, with_live, with_rest};
ghost use Rattle.rs_reports.specs.Offers.{IsOffered};
ghost use Rattle.rs_live.specs.Sending.{Broke, Sent};

use crate::outbox::Outbox;
use crate::ports::Ports;
use crate::requests::Requests;
use rs_policy::Config;
use rs_reports::offers::Offered;
use std::alloc::{AllocError, Global};
use std::mem;

/// For how many seconds octets may wait before a connection counts as lost, where its socket takes
/// none of them: the send hold timer (RFC 9687).
pub const SEND_HOLD: u64 = 480;

/// After how many seconds in which each turn was refused memory for a client its connection counts as lost:
/// what it was told may be long out of date, and its loss gives memory back.
pub const STALE: u64 = 10;

/// How many seconds a connection that the server closes has for what waits still.
pub const CLOSING: u64 = 1;

/// A connection that lasted less than so many seconds was short: after two in a row the client's next one rests.
pub const SHORT: u64 = 60;

/// For how many seconds it rests: it is read only where a session might end else. So a client that comes and goes
/// costs the others one table in that time (RFC 4271, 8.1.1: DampPeerOscillations).
pub const REST: u64 = 2;

/// A connection, or the place of one.
#[derive(Drop)]
pub struct Connection {
    /// Its key in the ports; `None` where there is none.
    key: Option<usize>,
    out: Outbox,
    /// Since when what waits has waited, or since when the connection is being closed.
    since: u64,
    is_closing: bool,
}

impl Connection {
    fn new(alloc: Global) -> Result<Connection, AllocError>
        ensures { IfOk result (λ it. (it.key ≡ None) × (it.out ≡ [])) }
    {
        Ok(Connection {
            key: None,
            out: Outbox::new(alloc)?,
            since: 0,
            is_closing: false,
        })
    }

    /// A connection begins here.
    pub fn begin(&mut self, key: usize)
        ensures key { self.new.key ≡ Some key }
        ensures empty { self.new.out ≡ [] }
    {
        self.key = Some(key);
        self.out.clear();
        self.is_closing = false;
    }

    pub fn key(&self) -> Option<usize>
        ensures { result ≡ self.now.key }
    {
        self.key
    }

    /// There is a connection.
    pub fn is_open(&self) -> bool
        ensures { IsTrue result ↔ IsSome self.now.key }
    {
        self.key.is_some()
    }

    /// Nothing waits for its socket.
    pub fn is_empty(&self) -> bool {
        self.out.is_empty()
    }

    /// There is no room left.
    pub fn is_full(&self) -> bool {
        self.out.is_full()
    }

    /// It is handed few octets in a round from now on, or as many as there is room for.
    pub fn narrow(&mut self, takes_few: bool)
        ensures key { self.new.key ≡ self.old.key }
        ensures out { self.new.out ≡ self.old.out }
    {
        self.out.narrow(takes_few);
    }

    /// It is to be closed once nothing waits.
    pub fn close_from(&mut self, now: u64)
        ensures key { self.new.key ≡ self.old.key }
        ensures out { self.new.out ≡ self.old.out }
    {
        self.since = now;
        self.is_closing = true;
    }

    /// Its time is up: its octets have waited too long, or it was closed long enough ago.
    pub fn is_over(&self, now: u64) -> bool {
        let waited = now.saturating_sub(self.since);
        if self.is_closing {
            self.out.is_empty() || waited >= CLOSING
        } else {
            !self.out.is_empty() && waited >= SEND_HOLD
        }
    }

    /// Hands octets to the connection, as much as there is room for, and answers how many: they wait
    /// until all before them is written.
    pub fn offer(&mut self, octets: &[u8], now: u64) -> usize
        ensures count { result ≤ length octets.now }
        ensures some { self.old.out ≡ [] → result ≡ 0 → octets.now ≡ [] }
        ensures key { self.new.key ≡ self.old.key }
        ensures behind { self.new.out ≡ self.old.out ++ take result octets.now }
    {
        if self.out.is_empty() {
            self.since = now;
        }
        self.out.put(octets)
    }

    /// Writes what waits, until the socket takes no more; where that fails the error is the key.
    pub fn write<P: Ports>(&mut self, ports: &mut P, now: u64) -> Result<(), usize>
        ensures key { self.new.key ≡ self.old.key }
        ensures sent { IsOk result → (calls : List Call) → P.asked ports.old calls → Sent P.asked self.old.key calls self.old.out ports.new (λ waiting. self.new.out ≡ waiting) }
        ensures broke { IfErr result (λ key. (calls : List Call) → P.asked ports.old calls → Broke P.asked key self.old.key calls self.old.out ports.new self.new.out) }
    {
        let Some(key) = self.key else {
            return Ok(());
        };
        for _ in 0..u16::MAX {
            if self.out.is_empty() {
                return Ok(());
            }
            match ports.write(key, self.out.waiting()) {
                Ok(None) => return Ok(()),
                Ok(Some(count)) => self.took(count, now),
                Err(_) => return Err(key),
            }
        }
        Ok(())
    }

    /// The socket took so many of the octets that wait.
    fn took(&mut self, count: usize, now: u64)
        ensures key { self.new.key ≡ self.old.key }
        ensures rest { self.new.out ≡ drop count self.old.out }
    {
        if !self.is_closing {
            self.since = now;
        }
        self.out.took(count);
    }

    /// Forgets the connection, and answers its key, if there is one.
    pub fn forget(&mut self) -> Option<usize>
        ensures was { result ≡ self.old.key }
        ensures now { self.new.key ≡ None }
        ensures empty { self.new.out ≡ [] }
    {
        self.out.clear();
        self.key.take()
    }

    /// Closes the connection, if there is one.
    pub fn close<P: Ports>(&mut self, ports: &mut P)
        ensures key { self.new.key ≡ None }
        ensures kept { (c : ℕ) (held : List Held) (phase : Phase) → c < length held → (held_by c held).rest_key ≡ self.old.key → (held_by c held).rest ≡ self.old.out → Has P.asked ports.old (AreKept held phase) → Has P.asked ports.new (AreKept (change c (with_rest self.new.key self.new.out) held) phase) }
    {
        if let Some(key) = self.key {
            self.forget();
            ports.close(key);
        }
    }

    /// Goes on with a connection that is being closed: what waits is written, and it is closed where
    /// nothing waits any more, where its time is up, and where a write fails.
    pub fn finish<P: Ports>(&mut self, ports: &mut P, now: u64)
        ensures kept { (c : ℕ) (held : List Held) (phase : Phase) → c < length held → (held_by c held).rest_key ≡ self.old.key → (held_by c held).rest ≡ self.old.out → Has P.asked ports.old (AreKept held phase) → Has P.asked ports.new (AreKept (change c (with_rest self.new.key self.new.out) held) phase) }
    {
        match self.write(ports, now) {
            Err(key) => {
                self.forget();
                ports.close(key);
            }
            Ok(()) if self.is_over(now) => self.close(ports),
            Ok(()) => {}
        }
    }
}

/// Turns one after the other that were refused memory for a client.
#[derive(Clone, Copy)]
pub struct Refused {
    /// The moment of the first.
    since: u64,
    /// Which turn was the last, counted from the start.
    turn: u64,
}

/// The place of a client.
#[derive(Drop)]
pub struct ClientConnections {
    /// Which of the distinct `listen` addresses is its own, counted from 0.
    pub listener: usize,
    /// The address that its connections come from.
    pub peer: u32,
    pub live: Connection,
    pub closing: Connection,
    /// A session of the client has ended, and nobody has asked yet.
    pub has_ended: bool,
    /// Nothing was heard on its last connection.
    pub is_silent: bool,
    /// What the OPEN of its last connection offered, where that came in one piece.
    pub offered: Option<Offered>,
    /// How many connections beside its own were closed since somebody has asked.
    pub busy: u64,
    /// The last turns that were refused memory for the client.
    pub refused: Option<Refused>,
    /// The operator keeps the client down: no connection of its is taken.
    pub is_down: bool,
    /// How many were closed for that since somebody has asked.
    pub kept_out: u64,
    /// When its last connection began, whether the last that has ended was short, and up to when one rests.
    pub began: u64,
    pub was_short: bool,
    pub rests_to: u64,
    /// How often it asks for all its routes again.
    requests: Requests,
}

impl ClientConnections {
    /// The place of a client that has no connection yet.
    fn new(alloc: Global, listener: usize, peer: u32) -> Result<ClientConnections, AllocError>
        ensures { IfOk result (λ own. held_in own ≡ nothing) }
    {
        Ok(ClientConnections {
            listener,
            peer,
            live: Connection::new(alloc)?,
            closing: Connection::new(alloc)?,
            has_ended: false,
            is_silent: true,
            offered: None,
            busy: 0,
            refused: None,
            is_down: false,
            kept_out: 0,
            began: 0,
            was_short: false,
            rests_to: 0,
            requests: Requests::new(),
        })
    }

    /// A connection begins, and nothing was heard on it.
    pub(crate) fn begin(&mut self, key: usize, now: u64)
        ensures key { self.new.live.key ≡ Some key }
        ensures empty { self.new.live.out ≡ [] }
        ensures closing { self.new.closing ≡ self.old.closing }
        ensures down { self.new.is_down ≡ self.old.is_down }
        ensures silent { (self.new.is_silent ≡ true) × (self.new.offered ≡ None) }
    {
        self.live.begin(key);
        self.is_silent = true;
        self.offered = None;
        self.began = now;
        self.requests.begin();
    }

    /// The connection has ended: where it was short, as the one before was, the next one rests.
    pub(crate) fn end(&mut self, now: u64)
        ensures { held_in self.new ≡ held_in self.old }
    {
        self.has_ended = true;
        let is_short = now.saturating_sub(self.began) < SHORT;
        if is_short && self.was_short {
            self.rests_to = now.saturating_add(REST);
        }
        self.was_short = is_short;
    }

    /// The client says these octets: a connection begins with its OPEN.
    pub(crate) fn hear(&mut self, octets: &[u8])
        ensures held { held_in self.new ≡ held_in self.old }
        ensures silent { self.new.is_silent ≡ false }
        ensures first { self.old.is_silent ≡ true → IsOffered octets.now self.new.offered }
        ensures later { self.old.is_silent ≡ false → self.new.offered ≡ self.old.offered }
    {
        if mem::replace(&mut self.is_silent, false) {
            self.offered = Offered::at_front(octets);
        }
    }

    /// Where these octets ask for all its routes too often, the client rests.
    pub(crate) fn pace(&mut self, octets: &[u8], now: u64)
        ensures { held_in self.new ≡ held_in self.old }
    {
        if let Some(rests_to) = self.requests.hear(octets, now) {
            self.rests_to = rests_to;
        }
    }

    /// Hands octets to its connection, as much as there is room for, and answers how many: few while it asks for
    /// all its routes again.
    pub(crate) fn offer(&mut self, octets: &[u8], now: u64) -> usize
        ensures count { result ≤ length octets.now }
        ensures some { self.old.live.out ≡ [] → result ≡ 0 → octets.now ≡ [] }
        ensures key { self.new.live.key ≡ self.old.live.key }
        ensures behind { self.new.live.out ≡ self.old.live.out ++ take result octets.now }
        ensures held { held_in self.new ≡ with_live self.new.live.key self.new.live.out (held_in self.old) }
    {
        self.live.narrow(self.requests.asks(now));
        self.live.offer(octets, now)
    }

    /// Its address, and how many connections beside its own were closed since the last call; `None` where
    /// there were none.
    pub(crate) fn take_busy(&mut self) -> Option<(u32, u64)>
        ensures held { held_in self.new ≡ held_in self.old }
        ensures taken { self.new.busy ≡ 0 }
        ensures none { self.old.busy ≡ 0 → result ≡ None }
        ensures some { 0 < self.old.busy → result ≡ Some (self.old.peer, self.old.busy) }
    {
        match mem::replace(&mut self.busy, 0) {
            0 => None,
            count => Some((self.peer, count)),
        }
    }

    /// Its address, and how many of its connections were closed since the last call as it is kept down; `None`
    /// where there were none.
    pub(crate) fn take_kept_out(&mut self) -> Option<(u32, u64)>
        ensures held { held_in self.new ≡ held_in self.old }
        ensures taken { self.new.kept_out ≡ 0 }
        ensures none { self.old.kept_out ≡ 0 → result ≡ None }
        ensures some { 0 < self.old.kept_out → result ≡ Some (self.old.peer, self.old.kept_out) }
    {
        match mem::replace(&mut self.kept_out, 0) {
            0 => None,
            count => Some((self.peer, count)),
        }
    }

    /// This turn was refused memory for the client.
    pub(crate) fn refuse(&mut self, now: u64, turn: u64)
        ensures { held_in self.new ≡ held_in self.old }
    {
        let since = match self.refused {
            Some(before) if before.turn.saturating_add(1) >= turn => before.since,
            _ => now,
        };
        self.refused = Some(Refused { since, turn });
    }

    /// So was each turn for as long as the client may be told nothing, up to this one.
    pub(crate) fn is_stale(&self, now: u64, turn: u64) -> bool {
        match self.refused {
            Some(last) => last.turn == turn && now.saturating_sub(last.since) >= STALE,
            None => false,
        }
    }

    /// The connection, if there is one, is to be closed: it goes where one that is being closed has its
    /// place.
    pub(crate) fn retire(&mut self, now: u64)
        ensures key { self.new.live.key ≡ None }
        ensures empty { self.new.live.out ≡ [] }
        ensures rest_key { self.new.closing.key ≡ self.old.live.key }
        ensures rest { self.new.closing.out ≡ self.old.live.out }
        ensures down { self.new.is_down ≡ self.old.is_down }
    {
        mem::swap(&mut self.live, &mut self.closing);
        self.live.forget();
        self.closing.close_from(now);
    }
}

/// The distinct `listen` addresses, in the order of the configuration.
pub fn listen_addresses(alloc: Global, config: &Config) -> Result<Vec<(u32, u16)>, AllocError> {
    let mut all = Vec::new(alloc);
    for c in 0..config.clients() {
        let listen = config.listen(c);
        if !all.contains(&listen) {
            all.push(listen)?;
        }
    }
    Ok(all)
}

/// Which of the distinct `listen` addresses this is.
fn place(listen_addresses: &[(u32, u16)], address: (u32, u16)) -> usize {
    let found = listen_addresses.iter().position(|it| *it == address);
    found.unwrap_or(0)
}

/// A place for each client of the configuration.
pub fn connections(alloc: Global, config: &Config) -> Result<Vec<ClientConnections>, AllocError>
    ensures { IfOk result (λ all. (c : ℕ) → held_by c (held_of all.items) ≡ nothing) }
{
    let listen_addresses = listen_addresses(alloc, config)?;
    let mut all = Vec::with_capacity(alloc, config.clients())?;
    for c in 0..config.clients() {
        let listener = place(&listen_addresses, config.listen(c));
        all.push(ClientConnections::new(alloc, listener, config.peer(c))?)?;
    }
    Ok(all)
}
