//! A stream under the poll, and what the poll has said of it.

use std::io::{ErrorKind, Read, Write};

/// The most octets that are read at once.
pub(crate) const INPUT: usize = 4096;

/// The most heads, lines and pieces that are answered in a round, for all who came to one listener together:
/// what a member says in the meantime waits for as long.
pub(crate) const PIECES: usize = 1;

/// For how many milliseconds nobody is let in after descriptors were wanting.
pub(crate) const SHUT: u64 = 5000;

/// A connection of a visitor or of an operator.
#[derive(Drop)]
pub(crate) struct Wire<S> {
    pub(crate) stream: S,
    pub(crate) is_readable: bool,
    pub(crate) is_writable: bool,
    /// It failed, and is to be closed.
    pub(crate) is_broken: bool,
}

impl<S: Read + Write + Drop> Wire<S> {
    /// A stream of which nothing is known.
    pub(crate) fn new(stream: S) -> Wire<S> {
        Wire {
            stream,
            is_readable: true,
            is_writable: true,
            is_broken: false,
        }
    }

    /// Something may have become of it.
    pub(crate) fn note(&mut self) {
        self.is_readable = true;
        self.is_writable = true;
    }

    /// Reads once into this room, where something may be there. `None`: nothing is there now.
    pub(crate) fn read(&mut self, room: &mut [u8]) -> Option<usize> {
        if !self.is_readable || room.is_empty() {
            return None;
        }
        match self.stream.read(room) {
            Ok(count) => Some(count),
            Err(error) if error.kind() == ErrorKind::WouldBlock => {
                self.is_readable = false;
                None
            }
            Err(_) => {
                self.is_broken = true;
                None
            }
        }
    }

    /// Writes once, where there is something and it may be taken. Answers how many octets were taken.
    pub(crate) fn write(&mut self, octets: &[u8]) -> usize {
        if !self.is_writable || octets.is_empty() {
            return 0;
        }
        match self.stream.write(octets) {
            Ok(count) => count,
            Err(error) if error.kind() == ErrorKind::WouldBlock => {
                self.is_writable = false;
                0
            }
            Err(_) => {
                self.is_broken = true;
                0
            }
        }
    }
}
