//! A visit: the course of one connection to the window.

ghost use Rattle.std.specs.Prelude.{◌≡◌, ◌≢◌, ◌≤◌, ◌-◌, [], None, true, false, length, vec_capacity, IfOk, IfSome, IsTrue, IsFalse};

use crate::answers::{put_found, put_not_found, put_refusal};
use crate::chunks::put_piece;
use crate::outbox::Outbox;
use crate::page::{Next, Page, Pages, Piece};
use crate::request::{HEAD, Heard, Refusal, Request, read_request};
use std::alloc::{AllocError, Global};

/// How many milliseconds a head may take, and the taking of each piece of an answer.
pub const PATIENCE: u64 = 10_000;

/// A visit.
#[derive(Drop)]
pub struct Visit {
    /// What the visitor said and was not answered.
    heard: Vec<u8>,
    outbox: Outbox,
    /// The page that is being written.
    page: Option<Page>,
    /// It is written in chunks.
    is_chunked: bool,
    /// The answer on its way is the last.
    is_last: bool,
    /// The visitor says nothing more.
    has_ended: bool,
    /// What was heard was read, and is no whole head.
    is_read: bool,
    /// When the visitor was left to speak, or was given what waits, in milliseconds.
    since: u64,
    ghost bound: { length heard.items ≤ 8192 },
    ghost capacity: { 8192 ≤ vec_capacity heard },
}

impl Visit {
    ghost use Rattle.rs_window.specs.Requests.{IsAskedBy};
    ghost use Rattle.rs_window.specs.Visits.{IsFresh, Hears, Ends, Takes, GoesOn, Answers, Begins, unsent, page_of, is_last, said};

    /// A visit that begins now.
    pub fn new(alloc: Global, now: u64) -> Result<Visit, AllocError>
        ensures { IfOk result IsFresh }
    {
        Ok(Visit {
            heard: Vec::with_capacity(alloc, HEAD)?,
            outbox: Outbox::new(alloc)?,
            page: None,
            is_chunked: false,
            is_last: false,
            has_ended: false,
            is_read: false,
            since: now,
        })
    }

    /// How many octets more are heard: none while an answer is on its way.
    pub fn room(&self) -> usize
        ensures { result ≤ 8192 - length (said self.now) }
    {
        if self.is_last || self.has_ended || self.is_busy() {
            0
        } else {
            HEAD - self.heard.len()
        }
    }

    /// An answer is on its way.
    fn is_busy(&self) -> bool
        ensures sent { IsFalse result → unsent self.now ≡ [] }
        ensures written { IsFalse result → page_of self.now ≡ None }
    {
        self.page.is_some() || !self.outbox.is_empty()
    }

    /// The visitor said this; what there is no room for is passed over.
    pub fn hear(&mut self, octets: &[u8])
        ensures { Hears octets.now self.old self.new }
    {
        let room = HEAD - self.heard.len();
        let (front, _) = octets.split_at(room.min(octets.len()));
        let _ = self.heard.extend_from_slice(front);
        self.is_read = false;
    }

    /// The visitor says nothing more. What was heard is answered still.
    pub fn end(&mut self)
        ensures { Ends self.old self.new }
    {
        self.has_ended = true;
        self.is_read = false;
    }

    /// What waits to be sent.
    pub fn waiting(&self) -> &[u8]
        ensures { result.now ≡ unsent self.now }
    {
        self.outbox.waiting()
    }

    /// So many of those octets were sent, now.
    pub fn took(&mut self, count: usize, now: u64)
        ensures { Takes count self.old self.new }
    {
        self.outbox.took(count);
        if !self.is_busy() {
            self.since = now;
        }
    }

    /// Nothing more is to be sent or heard.
    pub fn is_done(&self) -> bool
        ensures last { IsTrue result → is_last self.now ≡ true }
        ensures sent { IsTrue result → unsent self.now ≡ [] }
        ensures written { IsTrue result → page_of self.now ≡ None }
    {
        self.is_last && !self.is_busy()
    }

    /// Something can come of it to go on: what was put was sent, and there is a page to write, or a head
    /// to read.
    pub fn can_advance(&self) -> bool {
        self.outbox.is_empty() && (self.page.is_some() || !self.is_last && !self.is_read)
    }

    /// The visitor is too slow to speak, or to take what waits.
    pub fn is_late(&self, now: u64) -> bool {
        now.saturating_sub(self.since) > PATIENCE && !self.can_advance()
    }

    /// Goes on where nothing waits to be sent, by one head or one piece. Answers whether something is to be
    /// sent, or the visit is over.
    pub fn advance<P: Pages>(&mut self, pages: &P, piece: &mut Piece, now: u64) -> bool
        ensures waits { unsent self.old ≢ [] → self.new ≡ self.old }
        ensures over { page_of self.old ≡ None → is_last self.old ≡ true → self.new ≡ self.old }
        ensures goes_on { unsent self.old ≡ [] → IfSome (page_of self.old) (λ page. GoesOn (P.writes pages.now page) self.old self.new) }
        ensures begins { unsent self.old ≡ [] → page_of self.old ≡ None → is_last self.old ≡ false → Begins (P.finds pages.now) self.old self.new }
    {
        if !self.outbox.is_empty() {
            return false;
        }
        match self.page {
            Some(page) => {
                self.go_on(pages, page, piece, now);
                true
            }
            None if self.is_last => false,
            None => self.begin(pages, now),
        }
    }

    /// Writes the next piece of the page; where memory is refused, the page is cut off.
    fn go_on<P: Pages>(&mut self, pages: &P, page: Page, piece: &mut Piece, now: u64)
        requires { unsent self.old ≡ [] }
        ensures { GoesOn (P.writes pages.now page) self.old self.new }
    {
        self.since = now;
        piece.clear();
        let Ok(next) = pages.write(page, piece) else {
            self.is_last = true;
            self.page = None;
            return;
        };
        put_piece(
            &mut self.outbox,
            piece.octets(),
            self.is_chunked,
            next.is_end(),
        );
        self.is_last |= next.is_cut();
        self.page = next.page();
    }

    /// Answers the request that was heard, if it is whole.
    fn begin<P: Pages>(&mut self, pages: &P, now: u64) -> bool
        requires empty { unsent self.old ≡ [] }
        requires none { page_of self.old ≡ None }
        requires on { is_last self.old ≡ false }
        ensures { Begins (P.finds pages.now) self.old self.new }
    {
        match read_request(self.heard.as_slice()) {
            Heard::Part => {
                self.is_read = true;
                self.is_last = self.has_ended;
                self.is_last
            }
            Heard::Refused(refusal, is_head) => {
                self.since = now;
                self.is_last = true;
                put_refusal(&mut self.outbox, refusal, is_head);
                true
            }
            Heard::Asked(request) => {
                self.since = now;
                self.answer(pages, request);
                true
            }
        }
    }

    /// Begins the answer of a request.
    fn answer<P: Pages>(&mut self, pages: &P, request: Request)
        requires empty { unsent self.old ≡ [] }
        requires none { page_of self.old ≡ None }
        requires asked { IsAskedBy (said self.old) request }
        ensures { Answers (P.finds pages.now) request self.old self.new }
    {
        let found = pages.find(request.target.of(self.heard.as_slice()));
        self.heard.drain(..request.len);
        self.is_last = !request.stays;
        self.is_chunked = request.knows_chunks;
        match found {
            Some(page) => {
                put_found(
                    &mut self.outbox,
                    page.kind,
                    request.knows_chunks,
                    request.stays,
                );
                self.page = if request.is_head { None } else { found };
            }
            None => put_not_found(&mut self.outbox, request.is_head, request.stays),
        }
    }
}
