//! The control socket: its file, its listener, and those who have come.

ghost use Rattle.std.specs.Prelude.{◌≡◌, ◌++◌, [], option_to_list, IsNone};

use crate::caller::Caller;
use crate::round::Round;
use crate::wire::{PIECES, SHUT};
use mio::net::{UnixListener, UnixStream as Connection};
use mio::{Interest, Poll, Token};
use rs_control::order::Order;
use rs_control::orders::{Orders, Reloaded};
use rs_control::steps::Server;
use rs_window::page::Pages;
use slab::Slab;
use std::alloc::Global;
use std::io::ErrorKind;
use std::net::Net;
use std::os::unix::fs::{FileTypeExt, PermissionsExt};
use std::os::unix::net::UnixStream;
use std::rt::Files;
use std::{fs, io};

/// The most callers; others wait until one has gone.
const CALLERS: usize = 4;

/// How many connections that were made before the file had its mode are closed at most.
const EARLY: usize = 4096;

/// The control socket, under a poll that knows its listener by one token, and its callers by those that follow.
#[derive(Drop)]
pub struct Control {
    first: usize,
    listener: UnixListener,
    /// Somebody may have come.
    is_ready: bool,
    callers: Slab<Caller>,
    /// The caller who goes on first.
    next: usize,
    /// Up to which moment nobody is let in.
    shut_to: u64,
    orders: Orders,
    round: Round,
}

/// Removes the file of a socket at which nobody listens any more. Where somebody does, or the file is none of a
/// socket, it stays, and to listen there fails.
fn remove_stale<R: Net + Files>(rt: &R, path: &str) {
    if let Err(error) = UnixStream::connect(rt, path)
        && error.kind() == ErrorKind::ConnectionRefused
    {
        remove(rt, path);
    }
}

/// Removes the file of a socket.
pub fn remove<R: Files>(rt: &R, path: &str) {
    if let Ok(found) = fs::symlink_metadata(rt, path)
        && found.file_type().is_socket()
    {
        let _ = fs::remove_file(rt, path);
    }
}

impl Control {
    ghost use Rattle.rs_control.specs.Courses.{AreOfThese, Serves};
    ghost use Rattle.rs_control.specs.Orders.{due};
    ghost use Rattle.rs_visitors.specs.Callers.{talks_at};
    ghost use Rattle.rs_visitors.specs.Dues.{due_at};

    /// A control socket at this path, for tokens from `first` on. Its file has the mode 0600.
    pub fn open<R: Net + Files>(
        rt: &R,
        alloc: Global,
        poll: &Poll,
        first: usize,
        path: &str,
    ) -> io::Result<Control> {
        remove_stale(rt, path);
        let mut listener = UnixListener::bind(rt, path)?;
        fs::set_permissions(rt, path, PermissionsExt::from_mode(0o600))?;
        // Before, others may have connected where the folder can be entered by them.
        for _ in 0..EARLY {
            if listener.accept().is_err() {
                break;
            }
        }
        poll.registry()
            .register(&mut listener, Token(first), Interest::READABLE)?;
        let mut callers = Slab::new(alloc);
        callers.reserve(CALLERS)?;
        Ok(Control {
            first,
            listener,
            is_ready: true,
            callers,
            next: 0,
            shut_to: 0,
            orders: Orders::new(alloc)?,
            round: Round::new(alloc)?,
        })
    }

    /// A reload was given of which it is not known what came of it.
    pub fn is_reloading(&self) -> bool {
        self.orders.is_reloading()
    }

    /// The order that has waited longest, which waits no longer; `None` where none waits.
    pub fn take_order(&mut self) -> Option<Order>
        ensures due { due_at self.old ≡ option_to_list result ++ due_at self.new }
        ensures none { IsNone result → due_at self.old ≡ [] }
    {
        self.orders.take()
    }

    /// This came of all reloads that were given.
    pub fn tell(&mut self, reloaded: Reloaded)
        ensures { due_at self.new ≡ due_at self.old }
    {
        self.orders.tell(reloaded);
    }

    /// Something may have become of the socket with this token.
    pub fn note(&mut self, token: usize)
        ensures { self.new.orders ≡ self.old.orders }
    {
        match token.saturating_sub(self.first).checked_sub(1) {
            None => self.is_ready = true,
            Some(key) => {
                if let Some(caller) = self.callers.get_mut(key) {
                    caller.note();
                }
            }
        }
    }

    /// Closes all connections, so that others can have their descriptors, and lets nobody in for some time.
    /// Answers whether there were any.
    pub fn give_up(&mut self, poll: &Poll, now: u64) -> bool
        ensures { self.new.orders ≡ self.old.orders }
    {
        self.shut_to = now.saturating_add(SHUT);
        let mut has_given = false;
        for key in 0..CALLERS {
            has_given |= self.dismiss(poll, key);
        }
        has_given
    }

    /// Closes the connection with this key, and answers whether there was one.
    fn dismiss(&mut self, poll: &Poll, key: usize) -> bool
        ensures orders { self.new.orders ≡ self.old.orders }
        ensures talks { AreOfThese (talks_at self.old) (talks_at self.new) }
    {
        match self.callers.try_remove(key) {
            Some(mut caller) => {
                caller.dismiss(poll);
                true
            }
            None => false,
        }
    }

    /// Lets one in who has come, where that can be.
    fn admit(&mut self, poll: &Poll, alloc: Global, stream: Connection, now: u64)
        ensures orders { self.new.orders ≡ self.old.orders }
        ensures talks { AreOfThese (talks_at self.old) (talks_at self.new) }
    {
        let token = self.first.saturating_add(1);
        let token = Token(token.saturating_add(self.callers.vacant_key()));
        if let Ok(caller) = Caller::admit(alloc, poll, token, stream, now) {
            let _ = self.callers.insert(caller);
        }
    }

    /// Lets in those who have come, while there is room.
    fn let_in(&mut self, poll: &Poll, alloc: Global, now: u64)
        ensures orders { self.new.orders ≡ self.old.orders }
        ensures talks { AreOfThese (talks_at self.old) (talks_at self.new) }
    {
        for _ in 0..CALLERS {
            if !self.is_ready || self.callers.len() >= CALLERS || now < self.shut_to {
                return;
            }
            match self.listener.accept() {
                Ok((stream, _)) => self.admit(poll, alloc, stream, now),
                Err(error) if error.kind() == ErrorKind::WouldBlock => self.is_ready = false,
                Err(error) if error.kind() == ErrorKind::ConnectionAborted => {}
                // Where descriptors are wanting, the next is for a member.
                Err(_) => self.shut_to = now.saturating_add(SHUT),
            }
        }
    }

    /// Goes on with all callers, in turn, by a bounded amount of work, also while the server is busy. Answers
    /// whether something was left undone.
    pub fn go_on<P: Pages>(&mut self, poll: &Poll, server: &Server<'_, P>, now: u64) -> bool
        ensures { Serves (P.finds server.now.pages.now) (P.writes server.now.pages.now) server.now.config.now self.old.orders (talks_at self.old) self.new.orders (talks_at self.new) }
    {
        self.let_in(poll, server.alloc, now);
        self.round.begin(PIECES, now);
        let mut is_unfinished = false;
        let first = self.next;
        for turn in 0..CALLERS {
            let key = first.wrapping_add(turn) % CALLERS;
            is_unfinished |= self.go_on_with(poll, server, key);
        }
        is_unfinished || self.orders.has_waiting()
    }

    /// Goes on with the caller with this key.
    fn go_on_with<P: Pages>(&mut self, poll: &Poll, server: &Server<'_, P>, key: usize) -> bool
        ensures { Serves (P.finds server.now.pages.now) (P.writes server.now.pages.now) server.now.config.now self.old.orders (talks_at self.old) self.new.orders (talks_at self.new) }
    {
        let Some(caller) = self.callers.get_mut(key) else {
            return false;
        };
        let had = self.round.pieces;
        caller.go_on(server, &mut self.orders, &mut self.round);
        let is_unfinished = caller.is_undone();
        let is_gone = caller.is_gone(self.round.now);
        self.pass_on(key, self.round.pieces < had);
        self.let_go(poll, key, is_gone);
        is_unfinished
    }

    /// Where this caller was answered, the next one goes on first.
    fn pass_on(&mut self, key: usize, was_answered: bool)
        ensures orders { self.new.orders ≡ self.old.orders }
        ensures callers { self.new.callers ≡ self.old.callers }
    {
        if was_answered {
            self.next = key.wrapping_add(1) % CALLERS;
        }
    }

    /// Closes the connection with this key, where it is to be closed.
    fn let_go(&mut self, poll: &Poll, key: usize, is_gone: bool)
        ensures orders { self.new.orders ≡ self.old.orders }
        ensures talks { AreOfThese (talks_at self.old) (talks_at self.new) }
    {
        if is_gone {
            self.dismiss(poll, key);
        }
    }
}
