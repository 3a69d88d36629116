//! Which numbers are swept next: those of prefixes whose last route went, the last of them first, and where none is listed
//! one after the other. It is there only to save time: a number that is not listed is found all the same.

ghost use Rattle.std.specs.Prelude.{◌<◌};
ghost use Rattle.rs_adjin.specs.AdjIns.{client_count};

use crate::sweeping::SWEEP;
use rs_adjin::AdjIns;
use std::alloc::{AllocError, Global};

/// Numbers of prefixes that nobody held when they were listed: as many at most as a sweep goes over, so that none asks for
/// memory.
#[derive(Drop)]
pub(crate) struct Unheld {
    listed: Vec<u32>,
    /// The number that is swept next where none is listed.
    next: u32,
}

impl Unheld {
    /// None is listed.
    pub(crate) fn new(alloc: Global) -> Result<Unheld, AllocError> {
        Ok(Unheld {
            listed: Vec::with_capacity(alloc, SWEEP)?,
            next: 0,
        })
    }

    /// Lists a number, if there is room for it.
    fn push(&mut self, number: u32) {
        if self.listed.len() < self.listed.capacity() {
            self.listed.push_reserved(number);
        }
    }

    /// Lists the number of a prefix that lost a route, if none is left.
    pub(crate) fn list(&mut self, tables: &AdjIns, number: u32) {
        if tables.at_number(number).is_empty() {
            self.push(number);
        }
    }

    /// Lists numbers of the prefixes that this client holds and no other one, which it is about to lose, while there is room.
    pub(crate) fn list_held(&mut self, tables: &AdjIns, c: usize)
        requires { c < client_count tables.now }
    {
        for (_prefix, number) in tables.held_by_number(c) {
            if self.listed.len() == self.listed.capacity() {
                return;
            }
            if tables.at_number(number).len() == 1 {
                self.push(number);
            }
        }
    }

    /// The number that is swept next. After the greatest it begins again.
    pub(crate) fn next(&mut self, tables: &AdjIns) -> u32 {
        if let Some(number) = self.listed.pop() {
            return number;
        }
        let number = if (self.next as usize) < tables.numbers() {
            self.next
        } else {
            0
        };
        self.next = number.wrapping_add(1);
        number
    }
}
