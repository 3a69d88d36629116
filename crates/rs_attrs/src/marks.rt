//! Marks of a path's AS numbers and of communities, by which most that a route lacks are known at once.

ghost use Rattle.std.specs.Prelude.{◌≡◌};
ghost use Rattle.rs_attrs.specs.Marks.{AreLargeMarked, AreMarked, AreNumbersMarked, IsPathMarked, KeepsMarks};
ghost use Rattle.rs_attrs.specs.Marks as marks;
ghost use Rattle.rs_attrs.specs.Patterns.{large_communities_in};
ghost use Rattle.rs_attrs.specs.Paths.{quads};
ghost use Rattle.rs_attrs.specs.Tagged.{KeepsTagMarks, part_marks};

use crate::patterns::{CommunityPattern, LargeCommunities, LargeCommunityPattern};
use crate::segments::{Numbers, Segments};

/// All marks.
const ALL: u32 = 0xffff_ffff;

/// Marks of communities by their first 16 bits (RFC 1997), and of large ones by their Global Administrators (RFC 8092): of
/// those that a route has, or of those that rules ask for.
#[derive(Clone, Copy, Debug)]
pub(crate) struct TagMarks {
    pub(crate) communities: u32,
    pub(crate) large: u32,
}

/// A number's mark, one of 32.
pub(crate) fn mark_of(number: u32) -> u32
    ensures { result ≡ marks.mark_of number }
{
    1 << (number % 32)
}

/// The marks, and those of more numbers.
fn with_marks_of(before: u32, numbers: Numbers<'_>) -> u32
    ensures kept { KeepsMarks before result }
    ensures marked { AreNumbersMarked result numbers.entry }
{
    let mut marks = before;
    for number in numbers {
        marks |= mark_of(number);
    }
    marks
}

/// The marks of a path's numbers.
pub(crate) fn path_marks_of(path: Segments<'_>) -> u32
    ensures { IsPathMarked result path.entry }
{
    let mut marks = 0;
    for segment in path {
        marks = with_marks_of(marks, segment.numbers());
    }
    marks
}

/// The marks of communities.
fn high_marks_of(communities: &[u8]) -> u32
    ensures { AreMarked result (quads communities.now) }
{
    let mut marks = 0;
    for community in Numbers::of(communities) {
        marks |= mark_of(community / 65536);
    }
    marks
}

/// The marks of large communities.
fn global_marks_of(communities: &[u8]) -> u32
    ensures { AreLargeMarked result (large_communities_in communities.now) }
{
    let mut marks = 0;
    for community in LargeCommunities::of(communities) {
        marks |= mark_of(community.global);
    }
    marks
}

/// The marks of a part that is given; all, where it may be any.
pub(crate) fn part_marks(part: Option<u32>) -> u32
    ensures { result ≡ part_marks part }
{
    match part {
        Some(number) => mark_of(number),
        None => ALL,
    }
}

impl TagMarks {
    /// Of values of COMMUNITIES and of LARGE_COMMUNITY.
    pub(crate) fn of(communities: &[u8], large: &[u8]) -> TagMarks
        ensures communities { AreMarked result.communities (quads communities.now) }
        ensures large { AreLargeMarked result.large (large_communities_in large.now) }
    {
        TagMarks {
            communities: high_marks_of(communities),
            large: global_marks_of(large),
        }
    }

    /// Nothing is asked for.
    pub(crate) fn none() -> TagMarks {
        TagMarks {
            communities: 0,
            large: 0,
        }
    }

    /// These are asked for too.
    pub(crate) fn and(self, pattern: &CommunityPattern) -> TagMarks
        ensures kept { KeepsTagMarks self result }
        ensures asked { KeepsMarks (part_marks pattern.now.high) result.communities }
    {
        TagMarks {
            communities: self.communities | part_marks(pattern.high),
            large: self.large,
        }
    }

    /// These large ones are asked for too.
    pub(crate) fn and_large(self, pattern: &LargeCommunityPattern) -> TagMarks
        ensures kept { KeepsTagMarks self result }
        ensures asked { KeepsMarks (part_marks pattern.now.global) result.large }
    {
        TagMarks {
            communities: self.communities,
            large: self.large | part_marks(pattern.global),
        }
    }
}
