//! How many routes of each client its import rules drop, for the operator alone. No contract says that it
//! is so many: it goes with the notes of the routes.

use rs_adjin::AdjIns;
use std::alloc::{AllocError, Global};

/// The note of a route that the import rules drop.
pub(crate) const DROPPED: u32 = 0;

/// Of each client how many of its routes have this note.
#[derive(Drop)]
pub(crate) struct Dropped {
    counts: Vec<usize>,
}

impl Dropped {
    /// None of so many clients.
    pub(crate) fn new(alloc: Global, clients: usize) -> Result<Dropped, AllocError> {
        Ok(Dropped {
            counts: vec![in alloc; 0; clients]?,
        })
    }

    /// How many of a client's are dropped.
    pub(crate) fn count(&self, c: usize) -> usize {
        self.counts.get(c).copied().unwrap_or(0)
    }

    /// A client's route was dropped or not, and is now or isn't.
    pub(crate) fn note(&mut self, c: usize, was: bool, is: bool) {
        if let Some(count) = self.counts.get_mut(c) {
            *count = count
                .saturating_add(usize::from(is))
                .saturating_sub(usize::from(was));
        }
    }

    /// A client has no routes.
    pub(crate) fn clear(&mut self, c: usize) {
        if let Some(count) = self.counts.get_mut(c) {
            *count = 0;
        }
    }

    /// All routes have their notes anew.
    pub(crate) fn count_all(&mut self, tables: &AdjIns) {
        for c in 0..tables.clients() {
            self.clear(c);
        }
        for (_, number) in tables.iter() {
            for holder in tables.at_number(number) {
                self.note(holder.client, false, holder.note == DROPPED);
            }
        }
    }
}
