//! A visitor: a connection, the visit over it, and how it ends.

use crate::round::Round;
use crate::wire::{INPUT, Wire};
use mio::net::TcpStream;
use mio::{Interest, Poll, Token};
use rs_window::page::Pages;
use rs_window::visit::Visit;
use std::alloc::Global;
use std::io;
use std::net::Shutdown;

/// How often a visitor is read, and written, in a round.
const STEPS: usize = 4;

/// For how many milliseconds octets that come after the last answer are passed over. A connection that is
/// closed while some lie there is reset, and the visitor may lose that answer.
const LINGER: u64 = 1000;

/// How far a visitor has come.
#[derive(Clone, Copy)]
enum Stage {
    Visits,
    /// The last answer was sent: what comes is passed over, up to this moment.
    Lingers(u64),
    Gone,
}

/// A visitor.
#[derive(Drop)]
pub(crate) struct Visitor {
    wire: Wire<TcpStream>,
    visit: Visit,
    stage: Stage,
}

impl Visitor {
    /// A visitor who has come now, under this token.
    pub(crate) fn admit(
        alloc: Global,
        poll: &Poll,
        token: Token,
        mut stream: TcpStream,
        now: u64,
    ) -> io::Result<Visitor> {
        let visit = Visit::new(alloc, now)?;
        let both = Interest::READABLE | Interest::WRITABLE;
        poll.registry().register(&mut stream, token, both)?;
        Ok(Visitor {
            wire: Wire::new(stream),
            visit,
            stage: Stage::Visits,
        })
    }

    /// The poll is to forget the connection.
    pub(crate) fn dismiss(&mut self, poll: &Poll) {
        let _ = poll.registry().deregister(&mut self.wire.stream);
    }

    /// Something may have become of the connection.
    pub(crate) fn note(&mut self) {
        self.wire.note();
    }

    /// The connection is to be closed.
    pub(crate) fn is_gone(&self) -> bool {
        self.wire.is_broken || matches!(self.stage, Stage::Gone)
    }

    /// Reads once what the visitor says. Answers whether more may be there.
    fn read(&mut self, input: &mut [u8; INPUT]) -> bool {
        let most = self.visit.room().min(INPUT);
        let Some(room) = input.get_mut(..most) else {
            return false;
        };
        match self.wire.read(room) {
            None => false,
            Some(0) => {
                self.visit.end();
                false
            }
            Some(count) => {
                self.visit.hear(input.get(..count).unwrap_or(&[]));
                true
            }
        }
    }

    /// Writes once what waits. Answers whether something was taken.
    fn write(&mut self, now: u64) -> bool {
        let count = self.wire.write(self.visit.waiting());
        if count > 0 {
            self.visit.took(count, now);
        }
        count > 0
    }

    /// Passes over what comes after the last answer.
    fn linger(&mut self, round: &mut Round, until: u64) {
        if round.now >= until {
            self.stage = Stage::Gone;
        }
        for _ in 0..STEPS {
            match self.wire.read(&mut round.input) {
                None => return,
                Some(0) => self.stage = Stage::Gone,
                Some(_) => {}
            }
        }
    }

    /// Goes on with the visit, by at most so many heads and pieces; takes off those that were written.
    fn visit<P: Pages>(&mut self, pages: &P, round: &mut Round) {
        for _ in 0..STEPS {
            let has_read = self.read(&mut round.input);
            let may_advance = round.pieces > 0 && self.visit.can_advance();
            if may_advance && self.visit.advance(pages, &mut round.piece, round.now) {
                round.take_piece();
            }
            let has_written = self.write(round.now);
            if self.wire.is_broken || !(has_read || may_advance || has_written) {
                break;
            }
        }
        self.end_visit(round.now);
    }

    /// Where the visit is over, the connection is half closed; where the visitor is too slow, closed.
    fn end_visit(&mut self, now: u64) {
        if self.wire.is_broken {
            return;
        }
        if self.visit.is_done() {
            let _ = self.wire.stream.shutdown(Shutdown::Write);
            self.stage = Stage::Lingers(now.saturating_add(LINGER));
        } else if self.visit.is_late(now) {
            self.stage = Stage::Gone;
        }
    }

    /// Goes on by a bounded amount of work. Answers whether something was left undone.
    pub(crate) fn go_on<P: Pages>(&mut self, pages: &P, round: &mut Round) -> bool {
        match self.stage {
            Stage::Visits => self.visit(pages, round),
            Stage::Lingers(until) => self.linger(round, until),
            Stage::Gone => {}
        }
        self.is_undone()
    }

    /// Something can be done without waiting for the visitor.
    fn is_undone(&self) -> bool {
        match self.stage {
            _ if self.is_gone() => false,
            Stage::Visits => {
                self.visit.can_advance()
                    || self.wire.is_writable && !self.visit.waiting().is_empty()
                    || self.wire.is_readable && self.visit.room() > 0
            }
            Stage::Lingers(_) => self.wire.is_readable,
            Stage::Gone => false,
        }
    }
}
