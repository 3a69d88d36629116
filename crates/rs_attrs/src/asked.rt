//! Which communities rules ask for, by their first parts: of most routes it is told at once that they have none of these.

ghost use Rattle.std.specs.Prelude.{◌≡◌, true};
ghost use Rattle.rs_attrs.specs.Tagged.{AsksFor, AsksForLarge, KeepsAsked, KeepsFirsts, has_first, has_part};

use crate::marks::{TagMarks, part_marks};
use crate::patterns::{CommunityPattern, LargeCommunityPattern};

/// So many first parts are told apart. Where more are asked for, their marks alone tell.
const MOST: usize = 8;

/// The first parts of communities (RFC 1997) that are asked for, or the Global Administrators of large ones (RFC 8092).
#[derive(Clone, Copy, Debug)]
pub(crate) struct Firsts {
    numbers: [u32; MOST],
    count: usize,
    /// Any may be asked for.
    pub(crate) all: bool,
}

impl Firsts {
    /// None is asked for.
    fn none() -> Firsts {
        let numbers = [0; MOST];
        Firsts {
            numbers,
            count: 0,
            all: false,
        }
    }

    /// Whether this one is asked for.
    pub(crate) fn has(&self, number: u32) -> bool
        ensures { result ≡ has_first self.now number }
    {
        self.all || self.numbers[..self.count.min(MOST)].contains(&number)
    }

    /// Any may be asked for.
    fn any(self) -> Firsts
        ensures kept { KeepsFirsts self result }
        ensures all { result.all ≡ true }
    {
        let mut any = self;
        any.all = true;
        any
    }

    /// This one is asked for too.
    fn and_number(self, number: u32) -> Firsts
        ensures kept { KeepsFirsts self result }
        ensures has { has_first result number ≡ true }
    {
        if self.has(number) {
            return self;
        }
        if self.count >= MOST {
            return self.any();
        }
        let mut numbers = self.numbers;
        numbers[self.count] = number;
        Firsts {
            numbers,
            count: self.count + 1,
            all: false,
        }
    }

    /// A part that is given is asked for too; any, where it may be any.
    fn and(self, part: Option<u32>) -> Firsts
        ensures kept { KeepsFirsts self result }
        ensures has { has_part result part ≡ true }
    {
        match part {
            Some(number) => self.and_number(number),
            None => self.any(),
        }
    }
}

/// The communities and large communities that rules ask for, by their first parts.
#[derive(Clone, Copy, Debug)]
pub struct AskedTags {
    pub(crate) marks: TagMarks,
    pub(crate) firsts: Firsts,
    pub(crate) globals: Firsts,
}

impl AskedTags {
    /// Nothing is asked for.
    pub fn none() -> AskedTags {
        AskedTags {
            marks: TagMarks::none(),
            firsts: Firsts::none(),
            globals: Firsts::none(),
        }
    }

    /// Those that are like this pattern are asked for too.
    #[must_use]
    pub fn and(self, pattern: &CommunityPattern) -> AskedTags
        ensures kept { KeepsAsked self result }
        ensures asked { AsksFor result pattern.now }
    {
        AskedTags {
            marks: self.marks.and(pattern),
            firsts: self.firsts.and(pattern.high),
            globals: self.globals,
        }
    }

    /// The large ones that are like this pattern are asked for too.
    #[must_use]
    pub fn and_large(self, pattern: &LargeCommunityPattern) -> AskedTags
        ensures kept { KeepsAsked self result }
        ensures asked { AsksForLarge result pattern.now }
    {
        AskedTags {
            marks: self.marks.and_large(pattern),
            firsts: self.firsts,
            globals: self.globals.and(pattern.global),
        }
    }
}
