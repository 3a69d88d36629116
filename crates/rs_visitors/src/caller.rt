//! A caller: a connection of an operator to the control socket, and the talk over it.

ghost use Rattle.std.specs.Prelude.{IfOk};
ghost use Rattle.rs_control.specs.Courses.{Course, Listens, Sends};
ghost use Rattle.rs_control.specs.Talks.{IsFresh};

use crate::round::Round;
use crate::wire::{INPUT, Wire};
use mio::net::UnixStream;
use mio::{Interest, Poll, Token};
use rs_control::orders::Orders;
use rs_control::steps::Server;
use rs_control::talk::Talk;
use rs_window::page::Pages;
use std::alloc::Global;
use std::io;

/// How often a caller is read, and written, in a round.
const STEPS: usize = 4;

/// A caller.
#[derive(Drop)]
pub(crate) struct Caller {
    wire: Wire<UnixStream>,
    talk: Talk,
}

impl Caller {
    /// A caller who has come now, under this token.
    pub(crate) fn admit(
        alloc: Global,
        poll: &Poll,
        token: Token,
        mut stream: UnixStream,
        now: u64,
    ) -> io::Result<Caller>
        ensures { IfOk result (λ caller. IsFresh caller.talk) }
    {
        let talk = Talk::new(alloc, now)?;
        let both = Interest::READABLE | Interest::WRITABLE;
        poll.registry().register(&mut stream, token, both)?;
        Ok(Caller {
            wire: Wire::new(stream),
            talk,
        })
    }

    /// The poll is to forget the connection.
    pub(crate) fn dismiss(&mut self, poll: &Poll) {
        let _ = poll.registry().deregister(&mut self.wire.stream);
    }

    /// Something may have become of the connection.
    pub(crate) fn note(&mut self) {
        self.wire.note();
    }

    /// The connection is to be closed.
    pub(crate) fn is_gone(&self, now: u64) -> bool {
        self.wire.is_broken || self.talk.is_done() || self.talk.is_late(now)
    }

    /// Reads once what the caller says. Answers whether more may be there.
    fn read(&mut self, input: &mut [u8; INPUT], now: u64) -> bool
        ensures { Listens self.old.talk self.new.talk }
    {
        let most = self.talk.room().min(INPUT);
        let Some(room) = input.get_mut(..most) else {
            return false;
        };
        match self.wire.read(room) {
            None => false,
            Some(0) => {
                self.talk.end();
                false
            }
            Some(count) => {
                self.talk.hear(input.get(..count).unwrap_or(&[]), now);
                true
            }
        }
    }

    /// Writes once what waits. Answers whether something was taken.
    fn write(&mut self, now: u64) -> bool
        ensures { Sends self.old.talk self.new.talk }
    {
        let count = self.wire.write(self.talk.waiting());
        self.talk.took(count, now);
        count > 0
    }

    /// Goes on with the talk, where pieces are left. Answers whether something came of it.
    fn advance<P: Pages>(
        &mut self,
        server: &Server<'_, P>,
        orders: &mut Orders,
        round: &mut Round,
    ) -> bool
        ensures { Course (P.finds server.now.pages.now) (P.writes server.now.pages.now) server.now.config.now orders.old self.old.talk orders.new self.new.talk }
    {
        let pieces = round.pieces;
        if pieces == 0 {
            return false;
        }
        if !self.talk.advance(server, orders, &mut round.piece) {
            return false;
        }
        round.take_piece();
        true
    }

    /// Goes on by a bounded amount of work: reads, advances and writes, while something comes of it.
    pub(crate) fn go_on<P: Pages>(
        &mut self,
        server: &Server<'_, P>,
        orders: &mut Orders,
        round: &mut Round,
    )
        ensures { Course (P.finds server.now.pages.now) (P.writes server.now.pages.now) server.now.config.now orders.old self.old.talk orders.new self.new.talk }
    {
        for _ in 0..STEPS {
            let has_read = self.read(&mut round.input, round.now);
            let has_advanced = self.advance(server, orders, round);
            let has_written = self.write(round.now);
            let goes_on = !self.wire.is_broken & (has_read | has_advanced | has_written);
            if !goes_on {
                return;
            }
        }
    }

    /// Something was left undone, and can be done without waiting for the caller.
    pub(crate) fn is_undone(&self) -> bool {
        if self.wire.is_broken {
            return false;
        }
        self.talk.can_advance()
            || self.wire.is_writable && !self.talk.waiting().is_empty()
            || self.wire.is_readable && self.talk.room() > 0
    }
}
