//! What the live server knows beside its tables: when, and what was counted.

use crate::counts::{Counts, Direction};
use rs_page_parts::tables::Tables;
use rs_page_parts::traffic::Traffic;
use std::alloc::{AllocError, Global};

/// When what is shown happened. Seconds are those since the start, but for `start`.
#[derive(Clone, Copy, Debug)]
pub struct Moments<'a> {
    /// When the server started, in seconds since 1970-01-01T00:00:00Z.
    pub start: u64,
    pub now: u64,
    /// When a text of rules was accepted last.
    pub rules: u64,
    /// When the session of each member was seen to come up or to end.
    pub changes: &'a Changes,
}

/// When the session of a member was last seen to come up or to end, and which; whether an operator keeps it
/// down.
#[derive(Clone, Copy, Debug)]
struct Change {
    is_up: bool,
    second: u64,
    is_disabled: bool,
}

/// When the session of each member was last seen to come up or to end, and who is kept down; and what was
/// counted since the start.
#[derive(Debug, Drop)]
pub struct Changes {
    all: Vec<Change>,
    pub counts: Counts,
}

impl Changes {
    /// Nothing was seen yet of so many members.
    pub fn new(alloc: Global, count: usize) -> Result<Changes, AllocError> {
        let nothing = Change {
            is_up: false,
            second: 0,
            is_disabled: false,
        };
        Ok(Changes {
            all: vec![in alloc; nothing; count]?,
            counts: Counts::new(alloc, count)?,
        })
    }

    /// Looks at the members in this second.
    pub fn look<T: Tables>(&mut self, tables: &T, second: u64) {
        for (client, change) in self.all.iter_mut().enumerate() {
            let is_up = tables.is_established(client);
            if is_up != change.is_up {
                change.is_up = is_up;
                change.second = second;
            }
        }
    }

    /// An operator keeps a member down, or no longer.
    pub fn keep_down(&mut self, client: usize, is_disabled: bool) {
        if let Some(change) = self.all.get_mut(client) {
            change.is_disabled = is_disabled;
        }
    }

    /// An operator keeps a member down.
    fn is_disabled(&self, client: usize) -> bool {
        match self.all.get(client) {
            Some(change) => change.is_disabled,
            None => false,
        }
    }

    /// In which second a member's session was seen to come up or to end; 0 where it was not.
    fn second(&self, client: usize) -> u64 {
        match self.all.get(client) {
            Some(change) => change.second,
            None => 0,
        }
    }
}

impl Moments<'_> {
    /// The time of day in this second, in seconds since 1970-01-01T00:00:00Z.
    pub(crate) fn time(&self, second: u64) -> u64 {
        self.start.saturating_add(second)
    }

    /// What went in a direction of a member's sessions.
    pub(crate) fn traffic(&self, direction: Direction, client: usize) -> Traffic {
        self.changes.counts.traffic(direction, client)
    }

    /// In which second a member's session was seen to come up or to end.
    pub(crate) fn change(&self, client: usize) -> u64 {
        self.changes.second(client)
    }

    /// An operator keeps a member down.
    pub(crate) fn is_disabled(&self, client: usize) -> bool {
        self.changes.is_disabled(client)
    }

    /// For how many seconds a member's session is as it is.
    pub(crate) fn since(&self, client: usize) -> u64 {
        self.now.saturating_sub(self.change(client))
    }
}
