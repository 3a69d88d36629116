//! A talk: the course of one connection of an operator.

ghost use Rattle.std.specs.Prelude.{◌≡◌, ◌≤◌, ◌+◌, [], None, false, length, min, take, drop, vec_capacity, IfOk, IfSome, if◌then◌else◌, ◌∷◌};

use crate::answers::{LONG_LINE, NO_MEMORY};
use crate::fronts::{Front, behind_line, front_of, has_line};
use crate::lines::LINE;
use crate::order::Order;
use crate::orders::Orders;
use crate::steps::{Outcome, Owed, Server, done, step};
use rs_policy::Config;
use rs_window::outbox::{Outbox, ROOM};
use rs_window::page::{Page, Pages, Piece};
use std::alloc::{AllocError, Global};

/// How many milliseconds an operator may be silent, and the taking of each piece of an answer may last.
pub const PATIENCE: u64 = 60_000;

/// The most octets that are kept of what was heard: a line and its end.
const HEARD: usize = LINE + 1;

/// The end of a line, or nothing.
fn line_end(is_end: bool) -> &'static [u8]
    ensures value { result.now ≡ (if is_end then 10 ∷ [] else []) }
    ensures bound { length result.now ≤ 1 }
{
    if is_end { b"\n" } else { b"" }
}

/// A talk.
#[derive(Drop)]
pub struct Talk {
    /// What was said and not answered.
    heard: Vec<u8>,
    /// The rest of a line that is too long is passed over.
    is_passing: bool,
    outbox: Outbox,
    /// The page that is being written.
    page: Option<Page>,
    owed: Option<Owed>,
    /// The server ends, which is what the operator waits for.
    is_ending: bool,
    /// The answer on its way is the last.
    is_last: bool,
    /// The operator says nothing more.
    has_ended: bool,
    /// What was heard was read, and is no whole line.
    is_read: bool,
    /// When the operator was left to speak, or was given what waits, in milliseconds.
    since: u64,
    ghost bound: { length heard.items ≤ 1025 },
    ghost capacity: { 1025 ≤ vec_capacity heard },
}

impl Talk {
    ghost use Rattle.rs_control.specs.Answers.{no_memory};
    ghost use Rattle.rs_control.specs.Fronts.{front_in};
    ghost use Rattle.rs_control.specs.Orders.{due};
    ghost use Rattle.rs_control.specs.Talks.{Begins, Ends, GoesOn, Hears, IsAnswered, IsBusy, IsFresh, Obeys, Pays, Takes, TakesUp, has_ended, is_last, owed_of, page_of, said, unsent};

    /// A talk that begins now.
    pub fn new(alloc: Global, now: u64) -> Result<Talk, AllocError>
        ensures { IfOk result IsFresh }
    {
        Ok(Talk {
            heard: Vec::with_capacity(alloc, HEARD)?,
            is_passing: false,
            outbox: Outbox::new(alloc)?,
            page: None,
            owed: None,
            is_ending: false,
            is_last: false,
            has_ended: false,
            is_read: false,
            since: now,
        })
    }

    /// An answer is owed or on its way.
    fn is_busy(&self) -> bool {
        self.page.is_some() || self.owed.is_some() || !self.outbox.is_empty()
    }

    /// How many octets more are heard: none while an answer is owed or on its way.
    pub fn room(&self) -> usize {
        if self.is_last || self.has_ended || self.is_busy() {
            0
        } else {
            HEARD - self.heard.len()
        }
    }

    /// The operator said this; what there is no room for is passed over, and what is left of a line that is
    /// too long.
    pub fn hear(&mut self, octets: &[u8], now: u64)
        ensures { Hears octets.now self.old self.new }
    {
        self.since = now;
        self.is_read = false;
        let octets = if self.is_passing {
            self.is_passing = !has_line(octets);
            behind_line(octets)
        } else {
            octets
        };
        let room = HEARD - self.heard.len();
        let (front, _) = octets.split_at(room.min(octets.len()));
        let _ = self.heard.extend_from_slice(front);
    }

    /// The operator says nothing more. What was heard is answered still.
    pub fn end(&mut self)
        ensures { Ends self.old self.new }
    {
        self.has_ended = true;
        self.is_read = false;
    }

    /// What waits to be sent.
    pub fn waiting(&self) -> &[u8]
        ensures { result.now ≡ unsent self.now }
    {
        self.outbox.waiting()
    }

    /// So many of those octets were sent, now.
    pub fn took(&mut self, count: usize, now: u64)
        ensures { Takes count self.old self.new }
    {
        self.outbox.took(count);
        if count > 0 {
            self.since = now;
        }
    }

    /// Nothing more is to be sent or heard.
    pub fn is_done(&self) -> bool {
        self.is_last && !self.is_busy() && !self.is_ending
    }

    /// Something can come of it to go on: what was put was sent, and there is a page to write, or a line to
    /// read, or what an answer waits for may have come.
    pub fn can_advance(&self) -> bool {
        self.outbox.is_empty()
            && self.owed.is_none()
            && (self.page.is_some() || !self.is_last && !self.is_read)
    }

    /// The operator was silent for too long, or took nothing of what waits.
    pub fn is_late(&self, now: u64) -> bool {
        now.saturating_sub(self.since) > PATIENCE && !self.is_ending && self.owed.is_none()
    }

    /// Goes on where nothing waits to be sent, by one line, one piece of a page, or an answer that is owed.
    /// Answers whether something is to be sent, or the talk is over.
    pub fn advance<P: Pages>(
        &mut self,
        server: &Server<'_, P>,
        orders: &mut Orders,
        piece: &mut Piece,
    ) -> bool
        ensures begins { unsent self.old ≡ [] → page_of self.old ≡ None → owed_of self.old ≡ None → is_last self.old ≡ false → Begins (P.finds server.now.pages.now) server.now.config.now (front_in (said self.old) (has_ended self.old)) orders.old orders.new self.old self.new }
        ensures goes_on { unsent self.old ≡ [] → IfSome (page_of self.old) (λ page. GoesOn (P.writes server.now.pages.now page) self.old self.new) }
        ensures pays { unsent self.old ≡ [] → page_of self.old ≡ None → IfSome (owed_of self.old) (λ owed. Pays orders.old owed self.old self.new) }
        ensures busy { IsBusy self.old → due orders.new ≡ due orders.old }
    {
        if !self.outbox.is_empty() {
            return false;
        }
        if let Some(page) = self.page {
            self.go_on(server.pages, page, piece);
            return true;
        }
        if let Some(owed) = self.owed {
            return self.pay(server.alloc, server.config, orders, owed);
        }
        if self.is_last {
            return false;
        }
        self.begin(server, orders)
    }

    /// Writes the next piece of the page, without its ends of lines; the answer is one line.
    fn go_on<P: Pages>(&mut self, pages: &P, page: Page, piece: &mut Piece)
        requires { unsent self.old ≡ [] }
        ensures { GoesOn (P.writes pages.now page) self.old self.new }
    {
        piece.clear();
        let Ok(next) = pages.write(page, piece) else {
            self.is_last = true;
            self.page = None;
            return;
        };
        piece.join_lines();
        self.outbox.put(piece.octets());
        self.outbox.put(line_end(next.is_end()));
        self.is_last |= next.is_cut();
        self.page = next.page();
    }

    /// Answers an order, once it was given and it is known what came of it.
    fn pay(&mut self, alloc: Global, config: &Config, orders: &Orders, owed: Owed) -> bool
        requires { unsent self.old ≡ [] }
        ensures { Pays orders.now owed self.old self.new }
    {
        if !orders.is_given(owed.number) || owed.order == Order::Reload && orders.is_reloading() {
            return false;
        }
        self.owed = None;
        self.is_ending |= owed.order == Order::End;
        match done(alloc, config, orders, owed.order) {
            Ok(text) => self.put(&text),
            Err(_) => self.put_no_memory(),
        }
        true
    }

    /// Puts an answer into the outbox; one that has no room there is the last.
    fn put(&mut self, text: &[u8])
        requires { unsent self.old ≡ [] }
        ensures answered { IsAnswered text.now self.new }
        ensures said { said self.new ≡ said self.old }
        ensures owed { owed_of self.new ≡ owed_of self.old }
    {
        if text.len() > ROOM {
            self.is_last = true;
        } else {
            self.outbox.put(text);
        }
    }

    /// Puts the answer where memory was refused.
    fn put_no_memory(&mut self)
        requires { unsent self.old ≡ [] }
        ensures text { unsent self.new ≡ no_memory }
        ensures answered { IsAnswered no_memory self.new }
        ensures said { said self.new ≡ said self.old }
        ensures owed { owed_of self.new ≡ owed_of self.old }
    {
        self.outbox.put(NO_MEMORY);
    }

    /// Answers the line that was heard, if it is whole.
    fn begin<P: Pages>(&mut self, server: &Server<'_, P>, orders: &mut Orders) -> bool
        requires { unsent self.old ≡ [] }
        ensures { Begins (P.finds server.now.pages.now) server.now.config.now (front_in (said self.old) (has_ended self.old)) orders.old orders.new self.old self.new }
    {
        match front_of(self.heard.as_slice(), self.has_ended) {
            Front::Part => {
                self.is_read = true;
                self.is_last = self.has_ended;
                self.is_last
            }
            Front::Long => {
                self.heard.clear();
                self.is_passing = true;
                self.outbox.put(LONG_LINE);
                true
            }
            Front::Line(count) => {
                self.answer(server, orders, count);
                true
            }
        }
    }

    /// Answers the line of so many octets that stands in front.
    fn answer<P: Pages>(&mut self, server: &Server<'_, P>, orders: &mut Orders, count: usize)
        requires empty { unsent self.old ≡ [] }
        requires within { count ≤ length (said self.old) }
        ensures obeys { Obeys (P.finds server.now.pages.now) server.now.config.now (take count (said self.old)) orders.old orders.new self.new }
        ensures said { said self.new ≡ drop (min (count + 1) (length (said self.old))) (said self.old) }
    {
        let (line, _) = self.heard.as_slice().split_at(count);
        let next = step(server, orders, line);
        let len = self.heard.len();
        self.heard.drain(..(count + 1).min(len));
        match next {
            Ok(outcome) => self.take_up(outcome),
            Err(_) => self.put_no_memory(),
        }
    }

    /// What came of a line is answered, or owed.
    fn take_up(&mut self, outcome: Outcome)
        requires { unsent self.old ≡ [] }
        ensures taken { TakesUp outcome self.new }
        ensures said { said self.new ≡ said self.old }
    {
        match outcome {
            Outcome::Page(page) => self.page = Some(page),
            Outcome::Text(text) => self.put(&text),
            Outcome::Fixed(text) => self.put(text),
            Outcome::Owed(owed) => self.owed = Some(owed),
        }
    }
}
