//! The segments of a path and the numbers in them, read from their octets as they are asked for.
//!
//! `first_segment` takes the segment off the front, for AS numbers in two or four octets; all that
//! goes over a path goes by it.

ghost use Rattle.std.specs.Prelude.{◌≡◌, ℕ, ◌<◌, ◌≤◌, ◌+◌, ◌*◌, ◌^◌, ◌==◌, true, [], length, slice_index, is_some, MatchOption, IfSome};
ghost use Rattle.std.specs.Iterator.{YieldsFirst, item_count};
ghost use Rattle.std.specs.List.{list_any};
ghost use Rattle.rs_attrs.specs.Paths.{four_octets, octets_each, quads, segments_of, segment_length, path_length, segment_origin};
ghost use Rattle.rs_attrs.specs.Table.{is_path, size_in};
ghost use Rattle.rs_attrs.specs.Walking.{segment_kinds};
ghost use Rattle.rs_attrs.specs.Merging.{segments_in, is_whole_behind, IsWhole, IsCut};
ghost use Rattle.rs_attrs.specs.Writing.{path_in, needs_four_octets};

use crate::mode::Mode;
use crate::types::{AS_CONFED_SEQUENCE, AS_CONFED_SET, AS_SEQUENCE, AS_SET};
use std::marker::Model;

/// A segment as it stands at the front of a path, and what follows it.
#[derive(Clone, Copy)]
pub(crate) struct RawSegment<'a> {
    pub(crate) kind: u8,
    pub(crate) count: u8,
    pub(crate) numbers: &'a [u8],
    pub(crate) rest: &'a [u8],
}

/// How many octets an AS number has.
pub(crate) fn number_size(mode: Mode) -> usize
    ensures value { result ≡ octets_each (size_in mode) }
    ensures most { result < 5 }
{
    match mode {
        Mode::Two => 2,
        Mode::Four => 4,
    }
}

/// Whether a path may have segments of this type, those of a confederation too or not.
pub(crate) fn is_segment_kind(kind: u8, confederations: bool) -> bool
    ensures { result ≡ segment_kinds confederations kind }
{
    kind == AS_SET
        || kind == AS_SEQUENCE
        || confederations && (kind == AS_CONFED_SEQUENCE || kind == AS_CONFED_SET)
}

/// The segment at the front of octets, where a whole one of these kinds stands there.
pub(crate) fn first_segment(path: &[u8], mode: Mode, confederations: bool) -> Option<RawSegment<'_>>
    ensures whole { is_some (segments_of (size_in mode) (segment_kinds confederations) path.now) ≡ (is_whole_behind (size_in mode) confederations path.now result) }
    ensures segment { IsWhole (size_in mode) confederations path.now → MatchOption result (segments_in (size_in mode) confederations path.now ≡ []) (λ s. IsCut (size_in mode) confederations path.now s) }
    ensures shorter { IfSome result (λ s. length s.numbers.now + length s.rest.now + 2 ≤ length path.now) }
    ensures octets { IfSome result (λ s. (i : ℕ) → slice_index s.numbers.now i < 256) }
    ensures byte { IfSome result (λ s. s.count < 256) }
{
    if path.len() < 2 {
        return None;
    }
    let kind = path[0];
    let count = path[1];
    let (_, behind) = path.split_at(2);
    let size = number_size(mode) * usize::from(count);
    if !is_segment_kind(kind, confederations) || count == 0 || behind.len() < size {
        return None;
    }
    let (numbers, rest) = behind.split_at(size);
    Some(RawSegment {
        kind,
        count,
        numbers,
        rest,
    })
}

/// The numbers that octets spell, four octets each.
#[derive(Debug, Drop)]
pub struct Numbers<'a> {
    octets: &'a [u8],
}

impl<'a> Model for Numbers<'a> {
    ghost use Rattle.std.specs.Prelude.{List, ℕ};

    ghost Value = { List ℕ };

    ghost use Rattle.rs_attrs.specs.Paths.{quads};

    ghost view = { λ n. quads n.octets.now };
}

impl<'a> Numbers<'a> {
    pub(crate) fn of(octets: &'a [u8]) -> Numbers<'a>
        ensures numbers { result ≡ quads octets.now }
        ensures short { 4 * length result < 2 ^ 64 }
    {
        // Numbers take four octets each, whose number is a usize.
        let _octets = octets.len();
        Numbers { octets }
    }
}

impl Iterator for Numbers<'_> {
    type Item = u32;

    ghost next_gives = { YieldsFirst (λ numbers. numbers) };

    ghost remaining = { item_count (λ numbers. numbers) };

    fn next(&mut self) -> Option<u32> {
        if self.octets.len() < 4 {
            return None;
        }
        let (number, rest) = self.octets.split_at(4);
        self.octets = rest;
        Some(u32::from_be_bytes([number[0], number[1], number[2], number[3]]))
    }
}

/// A segment of a path, a set or a sequence (RFC 4271, 4.3).
#[derive(Debug, Drop)]
pub struct PathSegment<'a> {
    kind: u8,
    numbers: &'a [u8],
}

impl<'a> Model for PathSegment<'a> {
    ghost use Rattle.rs_attrs.specs.Paths.{Segment, quads};

    ghost Value = { Segment };

    ghost view = { λ s. record { kind = s.kind; numbers = quads s.numbers.now } };
}

impl PathSegment<'_> {
    /// Its type, AS_SET or AS_SEQUENCE.
    pub(crate) fn kind(&self) -> u8
        ensures { result ≡ self.now.kind }
    {
        self.kind
    }

    /// How many numbers it has.
    pub(crate) fn count(&self) -> usize
        ensures { result ≡ length self.now.numbers }
    {
        self.numbers.len() / 4
    }

    /// Its AS numbers.
    pub fn numbers(&self) -> Numbers<'_>
        ensures { result ≡ self.now.numbers }
    {
        Numbers::of(self.numbers)
    }

    /// Whether a number needs four octets.
    pub(crate) fn needs_four(&self) -> bool
        ensures { result ≡ list_any needs_four_octets self.now.numbers }
    {
        Numbers::of(self.numbers).any(|n| n > 65535)
    }

    /// What it adds to the length of its path: a set counts 1 (RFC 4271, 9.1.2.2, a).
    pub(crate) fn path_len(&self) -> usize
        ensures { result ≡ segment_length self.now }
    {
        if self.kind == AS_SET {
            1
        } else {
            self.numbers.len() / 4
        }
    }

    /// Whether the number stands in it.
    pub(crate) fn has(&self, number: u32) -> bool
        ensures { result ≡ list_any (λ n. n == number) self.now.numbers }
    {
        Numbers::of(self.numbers).any(|n| n == number)
    }

    /// The last number of a sequence.
    pub(crate) fn origin(&self) -> Option<u32>
        ensures { result ≡ segment_origin (Some self.now) }
    {
        if self.kind == AS_SEQUENCE {
            Numbers::of(self.numbers).last()
        } else {
            None
        }
    }
}

/// The segments of a well-formed path with AS numbers in four octets.
#[derive(Debug, Drop)]
pub struct Segments<'a> {
    octets: &'a [u8],
}

impl<'a> Model for Segments<'a> {
    ghost use Rattle.std.specs.Prelude.{◌≡◌, List, true};
    ghost use Rattle.rs_attrs.specs.Paths.{Segment, four_octets};
    ghost use Rattle.rs_attrs.specs.Table.{is_path};
    ghost use Rattle.rs_attrs.specs.Writing.{path_in};

    ghost Value = { List Segment };

    ghost view = { λ s. path_in s.octets.now };

    ghost invariant = { λ s. is_path four_octets s.octets.now ≡ true };
}

impl<'a> Segments<'a> {
    pub(crate) fn of(value: &'a [u8]) -> Segments<'a>
        requires { is_path four_octets value.now ≡ true }
        ensures segments { result ≡ path_in value.now }
        ensures short { path_length result < 2 ^ 64 }
    {
        // A path is no longer than its octets, whose number is a usize.
        let _octets = value.len();
        Segments { octets: value }
    }
}

impl<'a> Iterator for Segments<'a> {
    type Item = PathSegment<'a>;

    ghost next_gives = { YieldsFirst (λ segments. segments) };

    ghost remaining = { item_count (λ segments. segments) };

    fn next(&mut self) -> Option<PathSegment<'a>> {
        let segment = first_segment(self.octets, Mode::Four, false)?;
        self.octets = segment.rest;
        Some(PathSegment {
            kind: segment.kind,
            numbers: segment.numbers,
        })
    }
}
