//! A round in which the connections of one listener go on: the room that they share, and what they may still do.

use crate::wire::INPUT;
use rs_window::page::Piece;
use std::alloc::{AllocError, Global};

/// A round of a listener. Its room is made once, and begun with anew in each.
#[derive(Drop)]
pub(crate) struct Round {
    /// What is read is put here.
    pub(crate) input: [u8; INPUT],
    /// A piece of a page is written here.
    pub(crate) piece: Piece,
    /// How many heads, lines and pieces may still be answered.
    pub(crate) pieces: usize,
    /// The moment, in milliseconds.
    pub(crate) now: u64,
}

impl Round {
    /// A round that has not begun.
    pub(crate) fn new(alloc: Global) -> Result<Round, AllocError> {
        Ok(Round {
            input: [0; INPUT],
            piece: Piece::new(alloc)?,
            pieces: 0,
            now: 0,
        })
    }

    /// Begins at this moment, with so many heads, lines and pieces.
    pub(crate) fn begin(&mut self, pieces: usize, now: u64) {
        self.pieces = pieces;
        self.now = now;
    }

    /// One head, line or piece was answered.
    pub(crate) fn take_piece(&mut self) {
        self.pieces = self.pieces.saturating_sub(1);
    }
}
