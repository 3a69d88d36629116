//! The listeners, which take turns, so that none that is much asked for keeps the others waiting.

use mio::net::{TcpListener, TcpStream};
use rs_live::ports::PortFault;
use std::alloc::{AllocError, Global};
use std::io::ErrorKind;
use std::net::SocketAddr;
use std::{io, mem};

/// How many connections that were given up one call passes over.
const GIVEN_UP: usize = 64;

/// Linux's numbers of the errors that a descriptor is none, and that it is no socket.
const EBADF: i32 = 9;

const ENOTSOCK: i32 = 88;

/// Why there is no connection to accept (accept(2)).
#[derive(Clone, Copy)]
enum NoConnection {
    Nothing,
    /// The one that was there was given up, or can't be reached.
    Gone,
    /// For the one that is there is no room now, as where all descriptors are taken: it waits.
    NoRoom,
    /// The listener is none.
    Broken,
}

fn why_none(error: &io::Error) -> NoConnection {
    match error.kind() {
        ErrorKind::WouldBlock => NoConnection::Nothing,
        ErrorKind::ConnectionAborted
        | ErrorKind::Interrupted
        | ErrorKind::HostUnreachable
        | ErrorKind::NetworkDown
        | ErrorKind::NetworkUnreachable => NoConnection::Gone,
        ErrorKind::InvalidInput => NoConnection::Broken,
        _ if matches!(error.raw_os_error(), Some(EBADF | ENOTSOCK)) => NoConnection::Broken,
        _ => NoConnection::NoRoom,
    }
}

/// A listener, and whether a connection may be there.
#[derive(Drop)]
struct Listener {
    listener: TcpListener,
    is_ready: bool,
}

impl Listener {
    fn accept(&mut self) -> Result<(TcpStream, SocketAddr), NoConnection> {
        if !self.is_ready {
            return Err(NoConnection::Nothing);
        }
        match self.listener.accept() {
            Ok(accepted) => Ok(accepted),
            Err(error) => {
                let why = why_none(&error);
                self.is_ready = !matches!(why, NoConnection::Nothing);
                Err(why)
            }
        }
    }
}

/// A connection, the listener at which it came, and the address that it came from.
#[derive(Drop)]
pub struct Accepted {
    pub listener: usize,
    pub stream: TcpStream,
    pub from: SocketAddr,
}

/// The listeners, in the order in which they were added.
#[derive(Drop)]
pub struct Listeners {
    listeners: Vec<Listener>,
    /// The one that is asked next.
    next: usize,
    /// How many are to be asked still before there is no connection.
    unasked: usize,
    /// For a connection that is there was no room.
    lacks_room: bool,
}

impl Listeners {
    pub fn new(alloc: Global) -> Listeners {
        Listeners {
            listeners: Vec::new(alloc),
            next: 0,
            unasked: 0,
            lacks_room: false,
        }
    }

    pub fn add(&mut self, listener: TcpListener) -> Result<(), AllocError> {
        self.listeners.push(Listener {
            listener,
            is_ready: true,
        })?;
        Ok(())
    }

    /// At this listener a connection may have come.
    pub fn mark_ready(&mut self, listener: usize) {
        if let Some(asked) = self.listeners.get_mut(listener) {
            asked.is_ready = true;
        }
    }

    /// Whether for a connection there was no room since the last call.
    pub fn take_lack(&mut self) -> bool {
        mem::replace(&mut self.lacks_room, false)
    }

    /// Each listener is to be asked anew.
    pub fn ask_all(&mut self) {
        self.unasked = self.listeners.len();
    }

    /// The listener whose turn it is; `None` where each was asked since the last connection.
    fn next_listener(&mut self) -> Option<usize> {
        self.unasked = self.unasked.checked_sub(1)?;
        let at = self.next;
        let next = at.saturating_add(1);
        self.next = if next < self.listeners.len() { next } else { 0 };
        Some(at)
    }

    /// The next connection that has come; `None` where none has, or there is no room for it now.
    pub fn accept(&mut self) -> Result<Option<Accepted>, PortFault> {
        for _ in 0..self.listeners.len().saturating_add(GIVEN_UP) {
            let Some(listener) = self.next_listener() else {
                return Ok(None);
            };
            let Some(asked) = self.listeners.get_mut(listener) else {
                return Ok(None);
            };
            match asked.accept() {
                Ok((stream, from)) => {
                    self.ask_all();
                    return Ok(Some(Accepted {
                        listener,
                        stream,
                        from,
                    }));
                }
                Err(NoConnection::Gone) => self.ask_all(),
                Err(NoConnection::Nothing) => {}
                Err(NoConnection::NoRoom) => self.lacks_room = true,
                Err(NoConnection::Broken) => return Err(PortFault),
            }
        }
        Ok(None)
    }
}
