//! Visits over octets in memory: what is answered to requests that come whole, in parts and many at once. The answers are
//! written by hand from RFC 9110 and RFC 9112. What is refused is played: by `tools/plays/requests.py`.

use crate::common::{equals, is_of, is_so, put};
use rs_window::page::{Kind, Next, Page, Pages, Piece};
use rs_window::visit::{PATIENCE, Visit};
use std::alloc::{AllocError, Global};
use std::process::Abort;

/// Pages of letters: `/0` to `/9` have their number, `/letters` has two pieces, `/cut` is cut off after one.
struct Letters;

const TEXT: Page = Page {
    which: 0,
    kind: Kind::Text,
    place: 0,
    member: 0,
    at: 0,
    left: 0,
    most: 0,
    counted: 0,
};

const LETTERS: u32 = 10;

const CUT: u32 = 11;

impl Pages for Letters {
    ghost finds = { λ pages target page. Unit {0} };

    ghost writes = { λ pages page octets next. Unit {0} };

    fn find(&self, target: &[u8]) -> Option<Page> {
        let which = match target {
            b"/letters" => LETTERS,
            b"/cut" => CUT,
            [b'/', digit @ b'0'..=b'9'] => u32::from(*digit - b'0'),
            _ => return None,
        };
        Some(Page { which, ..TEXT })
    }

    fn write(&self, page: Page, piece: &mut Piece) -> Result<Next, AllocError> {
        Ok(match (page.which, page.at) {
            (CUT, 0) => {
                piece.put(b"abcde");
                Next::More(Page { at: 1, ..page })
            }
            (CUT, _) => Next::Cut,
            (LETTERS, 0) => {
                piece.put(b"abcdefghijklmnopq");
                Next::More(Page { at: 1, ..page })
            }
            (LETTERS, 1) => Next::More(Page { at: 2, ..page }),
            (LETTERS, _) => {
                piece.put(b"rst");
                Next::Last
            }
            (which, _) => {
                piece.put(&[b'0' + (which % 10) as u8]);
                Next::Last
            }
        })
    }
}

/// A visit, what its visitor was sent, and the pieces of pages.
#[derive(Drop)]
struct Play {
    visit: Visit,
    piece: Piece,
    sent: Vec<u8>,
}

impl Play {
    fn new(rt: &impl Abort, alloc: Global) -> Play {
        Play {
            visit: Visit::new(alloc, 0).expect(rt, "a visit"),
            piece: Piece::new(alloc).expect(rt, "a piece"),
            sent: Vec::new(alloc),
        }
    }

    /// Goes on until nothing comes of it, and the visitor takes so many octets at a time.
    fn go_on(&mut self, rt: &impl Abort, most: usize) {
        for _ in 0..100_000 {
            let waiting = self.visit.waiting();
            let count = waiting.len().min(most);
            put(rt, &mut self.sent, &waiting[..count]);
            self.visit.took(count, 0);
            if self.visit.can_advance() {
                self.visit.advance(&Letters, &mut self.piece, 0);
            } else if self.visit.waiting().is_empty() {
                break;
            }
        }
    }

    /// The visitor says this, as there is room for it.
    fn say(&mut self, rt: &impl Abort, octets: &[u8], most: usize) {
        let mut rest = octets;
        for _ in 0..octets.len() {
            let (front, behind) = rest.split_at(self.visit.room().min(rest.len()));
            self.visit.hear(front);
            rest = behind;
            self.go_on(rt, most);
            if rest.is_empty() {
                break;
            }
        }
    }

    /// The visitor was sent just this, and the connection is closed after it or not.
    fn was_sent(&self, rt: &impl Abort, want: &[u8], is_done: bool) {
        equals(rt, self.sent.as_slice(), want);
        equals(rt, self.visit.is_done(), is_done);
    }

    /// The visitor is late so many seconds after the start, and not before.
    fn is_late_at(&self, rt: &impl Abort, at: u64) {
        is_so(rt, !self.visit.is_late(at.saturating_sub(1)), "in time");
        is_so(rt, self.visit.is_late(at), "late");
    }

    /// Lets it go in one call, which is one step of a test, and not one for each of its parts.
    fn let_go(self) {}
}

static LETTERS_ASKED: &[u8] = b"GET /letters HTTP/1.1\r\nHost: localhost:8080\r\n\r\n";

static HEAD: &[u8] = b"HTTP/1.1 200 OK\r\nContent-Type: text/plain; charset=utf-8\r\n";

const CHUNKED: &[u8] = b"Transfer-Encoding: chunked\r\n";

static GUARDS: &[u8] =
    b"Cache-Control: no-store\r\nX-Content-Type-Options: nosniff\r\nReferrer-Policy: no-referrer\r\nContent-Security-Policy: default-src 'none'; style-src 'unsafe-inline'; form-action 'self'; base-uri 'none'; frame-ancestors 'none'\r\n";

/// The whole of a text with these fields and this behind its head.
fn text(rt: &impl Abort, alloc: Global, fields: &[u8], body: &[u8]) -> Vec<u8> {
    let mut whole = Vec::new(alloc);
    put(rt, &mut whole, HEAD);
    put(rt, &mut whole, GUARDS);
    put(rt, &mut whole, fields);
    put(rt, &mut whole, b"\r\n");
    put(rt, &mut whole, body);
    whole
}

/// The letters are asked for in two parts by a visitor who takes seven octets at a time.
fn is_answered_in_parts(rt: &impl Abort, alloc: Global, cut: usize, want: &[u8]) {
    assert!(rt; cut <= LETTERS_ASKED.len());
    let (front, behind) = LETTERS_ASKED.split_at(cut);
    let mut play = Play::new(rt, alloc);
    play.say(rt, front, 7);
    play.say(rt, behind, 7);
    is_of(rt, play.sent.as_slice(), want, &("cut at", cut));
    is_so(rt, !play.visit.is_done(), "the visit goes on");
    play.let_go();
}

#[test]
fn a_request_in_two_parts_gets_one_answer(rt: HostRuntime) {
    let body = b"0011\r\nabcdefghijklmnopq\r\n0003\r\nrst\r\n0\r\n\r\n";
    let want = text(&rt, rt.alloc(), CHUNKED, body);
    for cut in 0..=LETTERS_ASKED.len() {
        is_answered_in_parts(&rt, rt.alloc(), cut, &want);
    }
}

/// Requests, and the fields and the body of the answer, behind which the connection is closed.
static ANSWERED: [(&[u8], &[u8], &[u8]); 2] = [
    // an older visitor gets a page without chunks
    (
        b"GET /letters HTTP/1.0\r\n\r\n",
        b"Connection: close\r\n",
        b"abcdefghijklmnopqrst",
    ),
    // a page that is cut off has no end
    (
        b"GET /cut HTTP/1.1\r\nHost: localhost\r\n\r\n",
        CHUNKED,
        b"0005\r\nabcde\r\n",
    ),
];

#[test]
fn requests_behind_which_the_connection_is_closed(rt: HostRuntime) {
    for (said, fields, body) in &ANSWERED {
        let mut play = Play::new(&rt, rt.alloc());
        play.say(&rt, said, 1000);
        play.was_sent(&rt, &text(&rt, rt.alloc(), fields, body), true);
        play.let_go();
    }
}

#[test]
fn head_has_no_body_and_the_next_is_answered(rt: HostRuntime) {
    let said =
        b"HEAD /letters HTTP/1.1\r\nHost: [::1]\r\n\r\nGET /7 HTTP/1.1\r\nHost: 127.0.0.1\r\nConnection: x, Close\r\n\r\n";
    let mut want = text(&rt, rt.alloc(), CHUNKED, b"");
    let fields = b"Transfer-Encoding: chunked\r\nConnection: close\r\n";
    let second = text(&rt, rt.alloc(), fields, b"0001\r\n7\r\n0\r\n\r\n");
    put(&rt, &mut want, &second);
    let mut play = Play::new(&rt, rt.alloc());
    play.say(&rt, said, 1000);
    play.was_sent(&rt, &want, true);
    play.let_go();
}

#[test]
fn a_thousand_requests_at_once_are_answered_in_order(rt: HostRuntime) {
    let mut said = Vec::new(rt.alloc());
    let mut want = Vec::new(rt.alloc());
    for at in 0..1000_usize {
        let digit = b'0' + (at * 7 % 10) as u8;
        put(&rt, &mut said, b"GET /");
        put(&rt, &mut said, &[digit]);
        put(&rt, &mut said, b" HTTP/1.1\r\nHost: localhost\r\n\r\n");
        let body = [b'0', b'0', b'0', b'1', b'\r', b'\n', digit];
        put(&rt, &mut want, &text(&rt, rt.alloc(), CHUNKED, &body));
        put(&rt, &mut want, b"\r\n0\r\n\r\n");
    }
    let mut play = Play::new(&rt, rt.alloc());
    play.say(&rt, &said, 1000);
    play.was_sent(&rt, &want, false);
    play.let_go();
}

#[test]
fn what_was_said_before_the_end_is_answered(rt: HostRuntime) {
    let want = text(&rt, rt.alloc(), CHUNKED, b"0001\r\n3\r\n0\r\n\r\n");
    let mut play = Play::new(&rt, rt.alloc());
    play.visit
        .hear(b"GET /3 HTTP/1.1\r\nHost: localhost\r\n\r\nGET /4 HT");
    play.visit.end();
    play.go_on(&rt, 1000);
    play.was_sent(&rt, &want, true);
    play.let_go();
}

#[test]
fn a_slow_visitor_is_late(rt: HostRuntime) {
    let mut play = Play::new(&rt, rt.alloc());
    play.say(&rt, b"GET /3 HT", 1);
    play.is_late_at(&rt, PATIENCE + 1);
    play.visit.hear(b"TP/1.1\r\nHost: localhost\r\n\r\n");
    is_so(&rt, !play.visit.is_late(PATIENCE + 1), "in time");
    play.visit.advance(&Letters, &mut play.piece, PATIENCE);
    play.is_late_at(&rt, 2 * PATIENCE + 1);
    play.let_go();
}
