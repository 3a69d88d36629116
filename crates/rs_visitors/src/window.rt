//! The window: its listener, and those who have come.

use crate::round::Round;
use crate::visitor::Visitor;
use crate::wire::{PIECES, SHUT};
use mio::net::TcpListener;
use mio::{Interest, Poll, Token};
use rs_window::page::Pages;
use slab::Slab;
use std::alloc::{AllocError, Global};
use std::io;
use std::io::ErrorKind;
use std::net::{Net, SocketAddr};

/// The most visitors; others wait until one has gone.
const VISITORS: usize = 16;

/// The window, under a poll that knows its listener by one token, and its visitors by those that follow.
#[derive(Drop)]
pub struct Window {
    first: usize,
    listener: TcpListener,
    /// Somebody may have come.
    is_ready: bool,
    visitors: Slab<Visitor>,
    /// The visitor who goes on first.
    next: usize,
    /// Up to which moment nobody is let in.
    shut_to: u64,
    round: Round,
}

impl Window {
    /// A window at this address, for tokens from `first` on.
    pub fn open<R: Net>(
        rt: &R,
        alloc: Global,
        poll: &Poll,
        first: usize,
        address: SocketAddr,
    ) -> io::Result<Window> {
        let mut listener = TcpListener::bind(rt, address)?;
        poll.registry()
            .register(&mut listener, Token(first), Interest::READABLE)?;
        Ok(Window::new(alloc, first, listener)?)
    }

    /// A window that was opened, to which nobody has come.
    fn new(alloc: Global, first: usize, listener: TcpListener) -> Result<Window, AllocError> {
        let mut visitors = Slab::new(alloc);
        visitors.reserve(VISITORS)?;
        Ok(Window {
            first,
            listener,
            is_ready: true,
            visitors,
            next: 0,
            shut_to: 0,
            round: Round::new(alloc)?,
        })
    }

    /// Something may have become of the socket with this token.
    pub fn note(&mut self, token: usize) {
        match token.saturating_sub(self.first).checked_sub(1) {
            None => self.is_ready = true,
            Some(key) => {
                if let Some(visitor) = self.visitors.get_mut(key) {
                    visitor.note();
                }
            }
        }
    }

    /// Closes all connections, so that others can have their descriptors, and lets nobody in for some time.
    /// Answers whether there were any.
    pub fn give_up(&mut self, poll: &Poll, now: u64) -> bool {
        self.shut_to = now.saturating_add(SHUT);
        let mut has_given = false;
        for key in 0..VISITORS {
            has_given |= self.dismiss(poll, key);
        }
        has_given
    }

    /// Closes the connection with this key, and answers whether there was one.
    fn dismiss(&mut self, poll: &Poll, key: usize) -> bool {
        match self.visitors.try_remove(key) {
            Some(mut visitor) => {
                visitor.dismiss(poll);
                true
            }
            None => false,
        }
    }

    /// Lets in those who have come, while there is room.
    fn let_in(&mut self, poll: &Poll, alloc: Global, now: u64) {
        for _ in 0..VISITORS {
            if !self.is_ready || self.visitors.len() >= VISITORS || now < self.shut_to {
                return;
            }
            match self.listener.accept() {
                Ok((stream, _)) => {
                    let token = self.first.saturating_add(1);
                    let token = Token(token.saturating_add(self.visitors.vacant_key()));
                    if let Ok(visitor) = Visitor::admit(alloc, poll, token, stream, now) {
                        let _ = self.visitors.insert(visitor);
                    }
                }
                Err(error) if error.kind() == ErrorKind::WouldBlock => self.is_ready = false,
                Err(error) if error.kind() == ErrorKind::ConnectionAborted => {}
                // Where descriptors are wanting, the next is for a member.
                Err(_) => self.shut_to = now.saturating_add(SHUT),
            }
        }
    }

    /// Goes on with all visitors, in turn, by a bounded amount of work; while the server is busy no page is
    /// written. Answers whether something was left undone.
    pub fn go_on<P: Pages>(
        &mut self,
        poll: &Poll,
        alloc: Global,
        pages: &P,
        is_busy: bool,
        now: u64,
    ) -> bool {
        self.let_in(poll, alloc, now);
        self.round.begin(if is_busy { 0 } else { PIECES }, now);
        let mut is_unfinished = false;
        let first = self.next;
        for turn in 0..VISITORS {
            let key = first.wrapping_add(turn) % VISITORS;
            is_unfinished |= self.go_on_with(poll, pages, key);
        }
        is_unfinished
    }

    /// Goes on with the visitor with this key.
    fn go_on_with<P: Pages>(&mut self, poll: &Poll, pages: &P, key: usize) -> bool {
        let Some(visitor) = self.visitors.get_mut(key) else {
            return false;
        };
        let had = self.round.pieces;
        let is_unfinished = visitor.go_on(pages, &mut self.round);
        if self.round.pieces < had {
            self.next = key.wrapping_add(1) % VISITORS;
        }
        if visitor.is_gone() {
            self.dismiss(poll, key);
        }
        is_unfinished
    }
}
