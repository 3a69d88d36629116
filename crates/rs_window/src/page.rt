//! Pages, which are written a piece at a time.

ghost use Rattle.std.specs.Prelude.{◌≡◌, ◌==◌, ◌+◌, ◌≤◌, ◌<◌, ◌++◌, filter, not, ℕ, List, [], length, Option, IfOk, IsTrue, IsFalse};
ghost use Rattle.rs_window.specs.declared.page.Next.{Next};
ghost use Rattle.rs_window.specs.declared.page.Page.{Page};
ghost use Rattle.rs_window.specs.Pages.{page_behind, is_end, is_cut};

use std::alloc::{AllocError, Global};
use std::marker::Model;

/// The most octets of a piece.
pub const PIECE: usize = 32_768;

/// A page that is being written: which one, and how far it is. All but `kind` is in terms of the pages.
#[derive(Clone, Copy, Debug, PartialEq, Eq)]
pub struct Page {
    pub which: u32,
    pub kind: Kind,
    /// Whose page it is, as a member's place; 0 where it is nobody's.
    pub place: usize,
    /// The member that comes next, where it goes over members.
    pub member: usize,
    /// Where its next piece begins: a key to go on from, and no index, since what is shown may change
    /// between two pieces.
    pub at: u64,
    /// How many items are still to come, at most.
    pub left: u32,
    /// How many it has at most.
    pub most: u32,
    /// How many were counted so far, where it counts.
    pub counted: u64,
}

/// What a page is.
#[derive(Clone, Copy, Debug, PartialEq, Eq)]
pub enum Kind {
    Html,
    Json,
    Metrics,
    Text,
}

/// What comes behind a piece of a page.
#[derive(Clone, Copy, Debug, PartialEq, Eq)]
pub enum Next {
    /// The page with what comes behind.
    More(Page),
    /// Nothing: it was the last.
    Last,
    /// The page can't go on: what was written is not all of it.
    Cut,
}

impl Next {
    /// The page with what comes behind.
    pub fn page(self) -> Option<Page>
        ensures { result ≡ page_behind self }
    {
        match self {
            Next::More(page) => Some(page),
            Next::Last | Next::Cut => None,
        }
    }

    /// The page is whole.
    pub fn is_end(self) -> bool
        ensures { result ≡ is_end self }
    {
        matches!(self, Next::Last)
    }

    /// The page is cut off.
    pub fn is_cut(self) -> bool
        ensures { result ≡ is_cut self }
    {
        matches!(self, Next::Cut)
    }
}

/// Octets of a page, at most `PIECE` of them, in room that was made at the start.
#[derive(Drop)]
pub struct Piece {
    octets: Vec<u8>,
}

impl Model for Piece {
    ghost use Rattle.std.specs.Prelude.{ℕ, List, ◌≤◌, length, vec_capacity};

    ghost Value = { List ℕ };

    ghost view = { λ p. p.octets.items };

    ghost invariant = { λ p. (length p.octets.items ≤ 32768) × (32768 ≤ vec_capacity p.octets) };
}

impl Piece {
    /// An empty piece.
    pub fn new(alloc: Global) -> Result<Piece, AllocError>
        ensures { IfOk result (λ p. p ≡ []) }
    {
        Ok(Piece {
            octets: Vec::with_capacity(alloc, PIECE)?,
        })
    }

    /// Forgets its octets.
    pub fn clear(&mut self)
        ensures { self.new ≡ [] }
    {
        self.octets.clear();
    }

    /// Leaves out the ends of its lines.
    pub fn join_lines(&mut self)
        ensures { self.new ≡ filter (λ octet. not (octet == 10)) self.old }
    {
        self.octets.retain(|octet| *octet != b'\n');
    }

    /// What stands in it.
    pub fn octets(&self) -> &[u8]
        ensures value { result.now ≡ self.now }
        ensures bound { length result.now ≤ 32768 }
    {
        self.octets.as_slice()
    }

    /// How many octets more there is room for.
    pub fn room(&self) -> usize
        ensures { result + length self.now ≡ 32768 }
    {
        PIECE - self.octets.len()
    }

    /// Puts in the octets, all or none, and answers whether there was room.
    pub fn put(&mut self, octets: &[u8]) -> bool
        ensures whole { IsTrue result → self.new ≡ self.old ++ octets.now }
        ensures fits { length self.old + length octets.now ≤ 32768 → self.new ≡ self.old ++ octets.now }
        ensures none { IsFalse result → self.new ≡ self.old }
        ensures room { IsFalse result → 32768 < length self.old + length octets.now }
    {
        if octets.len() > self.room() {
            return false;
        }
        self.octets.extend_from_slice(octets).is_ok()
    }
}

/// The pages that there are. `finds pages target page` says what is found at a target, and
/// `writes pages page octets next` what is written next of a page, and what comes behind; where they always
/// hold, nothing is known.
pub trait Pages {
    ghost finds: { Self → List ℕ → Option Page → Type 0 };

    ghost writes: { Self → Page → List ℕ → Next → Type 0 };

    /// The page of a target, as it stands in a request, with its query; `None` where there is none.
    fn find(&self, target: &[u8]) -> Option<Page>
        ensures { finds self.now target.now result };

    /// Puts the next piece of a page into `piece`, and answers what comes behind.
    fn write(&self, page: Page, piece: &mut Piece) -> Result<Next, AllocError>
        requires { piece.old ≡ [] }
        ensures { IfOk result (λ next. writes self.now page piece.new next) };
}
