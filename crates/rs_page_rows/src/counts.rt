//! What is counted while the server runs: octets and UPDATEs of each member, the time that turns take, and what
//! was refused. A count that is full stays so.

use rs_page_parts::histogram::Histogram;
use rs_page_parts::traffic::Traffic;
use std::alloc::{AllocError, Global};

/// What was heard of a member, and what was sent to it.
#[derive(Clone, Copy, Debug)]
struct MemberCounts {
    heard: Traffic,
    sent: Traffic,
}

/// A direction in which octets go.
#[derive(Clone, Copy, Debug, PartialEq, Eq)]
pub enum Direction {
    /// From the member.
    Heard,
    /// To it.
    Sent,
}

/// What is counted of each member, and of the server.
#[derive(Debug, Drop)]
pub struct Counts {
    members: Vec<MemberCounts>,
    turns: Histogram,
    refusals: u64,
    strangers: u64,
}

impl Counts {
    /// Nothing has happened yet to so many members.
    pub fn new(alloc: Global, count: usize) -> Result<Counts, AllocError> {
        let nothing = MemberCounts {
            heard: Traffic::new(),
            sent: Traffic::new(),
        };
        Ok(Counts {
            members: vec![in alloc; nothing; count]?,
            turns: Histogram::new(),
            refusals: 0,
            strangers: 0,
        })
    }

    /// A session of a member begins.
    pub fn begin(&mut self, member: usize) {
        if let Some(counts) = self.members.get_mut(member) {
            counts.heard = counts.heard.begun();
            counts.sent = counts.sent.begun();
        }
    }

    /// Octets of a member's session were heard, or sent.
    pub fn pass(&mut self, direction: Direction, member: usize, octets: &[u8]) {
        if let Some(counts) = self.members.get_mut(member) {
            match direction {
                Direction::Heard => counts.heard.take(octets),
                Direction::Sent => counts.sent.take(octets),
            }
        }
    }

    /// A turn took so many microseconds.
    pub fn turn(&mut self, micros: u64) {
        self.turns.observe(micros);
    }

    /// Memory was refused for a member.
    pub fn refuse_memory(&mut self) {
        self.refusals = self.refusals.saturating_add(1);
    }

    /// A connection that is nobody's was closed.
    pub fn refuse_stranger(&mut self) {
        self.strangers = self.strangers.saturating_add(1);
    }

    /// What went in a direction of a member's sessions.
    pub(crate) fn traffic(&self, direction: Direction, member: usize) -> Traffic {
        match (self.members.get(member), direction) {
            (Some(counts), Direction::Heard) => counts.heard,
            (Some(counts), Direction::Sent) => counts.sent,
            (None, _) => Traffic::new(),
        }
    }

    /// How long turns took.
    pub(crate) fn turns(&self) -> &Histogram {
        &self.turns
    }

    /// How often memory was refused.
    pub(crate) fn refusals(&self) -> u64 {
        self.refusals
    }

    /// How many connections were nobody's.
    pub(crate) fn strangers(&self) -> u64 {
        self.strangers
    }
}
