//! Which values are well formed, and what comes of an attribute.

ghost use Rattle.std.specs.Prelude.{◌≡◌, ◌<◌, is_some};
ghost use Rattle.rs_attrs.specs.Spellings.{has_flag};
ghost use Rattle.rs_attrs.specs.Paths.{segments_of};
ghost use Rattle.rs_attrs.specs.Table;
ghost use Rattle.rs_attrs.specs.Table.{size_in};
ghost use Rattle.rs_attrs.specs.Walking.{spelling_in, segment_kinds, head_at};
ghost use Rattle.rs_attrs.specs.Meaning;

use crate::heads::{Flags, Head};
use crate::mode::Mode;
use crate::reading::field::Found;
use crate::segments::{first_segment, number_size};
use crate::table::{Class, Outcome, Partial, Shape, partial_in, row_of};

fn is_optional(flags: u8) -> bool
    ensures { result ≡ has_flag 0x80 flags }
{
    flags & 0x80 != 0
}

fn is_transitive(flags: u8) -> bool
    ensures { result ≡ has_flag 0x40 flags }
{
    flags & 0x40 != 0
}

pub(crate) fn fits_class(class: Class, flags: u8) -> bool
    ensures { result ≡ Table.fits_class class flags }
{
    match class {
        Class::WellKnown => !is_optional(flags) && is_transitive(flags),
        Class::OptionalTransitive => is_optional(flags) && is_transitive(flags),
        Class::OptionalNonTransitive => is_optional(flags) && !is_transitive(flags),
        Class::Any => true,
    }
}

/// A row of segments, of a confederation too where that is said.
fn is_whole_path(value: &[u8], mode: Mode, confederations: bool) -> bool
    ensures { result ≡ is_some (segments_of (size_in mode) (segment_kinds confederations) value.now) }
{
    let mut rest = value;
    while let Some(segment) = first_segment(rest, mode, confederations) {
        rest = segment.rest;
    }
    rest.is_empty()
}

fn is_origin(value: &[u8]) -> bool
    ensures { result ≡ Table.is_origin value.now }
{
    value.len() == 1 && value[0] <= 2
}

fn is_well_formed(mode: Mode, shape: Shape, value: &[u8]) -> bool
    ensures { result ≡ Table.is_well_formed mode shape value.now }
{
    match shape {
        Shape::Origin => is_origin(value),
        Shape::AsPath => is_whole_path(value, mode, false),
        Shape::Aggregator => value.len() == number_size(mode) + 4,
        Shape::As4Path => !value.is_empty() && is_whole_path(value, Mode::Four, true),
        Shape::Length(octets) => value.len() == usize::from(octets),
        Shape::Communities => !value.is_empty() && value.len() % 4 == 0,
        Shape::ExtendedCommunities => !value.is_empty() && value.len() % 8 == 0,
        Shape::LargeCommunities => !value.is_empty() && value.len() % 12 == 0,
        Shape::Never => false,
    }
}

/// What comes of the attribute that counts of its type.
pub(crate) fn outcome_of(mode: Mode, found: &Found<'_>) -> Outcome
    ensures { result ≡ Table.outcome_of mode (spelling_in found.now) }
{
    let Some(row) = row_of(mode, found.kind) else {
        return if is_optional(found.flags) {
            Outcome::Kept
        } else {
            Outcome::Unknown
        };
    };
    if !fits_class(row.class, found.flags) {
        return Outcome::Withdraw;
    }
    if is_well_formed(mode, row.shape, found.value) {
        Outcome::Kept
    } else {
        row.otherwise
    }
}

/// The partial bit that the attribute has from here on.
fn partial_of(found: &Found<'_>) -> bool
    ensures { result ≡ Meaning.partial_of (spelling_in found.now) }
{
    match partial_in(found.kind) {
        Partial::Never => false,
        Partial::AsReceived => found.flags & 0x20 != 0,
        Partial::Unrecognized => is_transitive(found.flags) || found.flags & 0x20 != 0,
    }
}

/// The head of the attribute, with a value of this length.
pub(crate) fn head_of(found: &Found<'_>, len: u32) -> Head
    ensures { result ≡ head_at (spelling_in found.now) len }
{
    let flags = Flags {
        optional: is_optional(found.flags),
        transitive: is_transitive(found.flags),
        partial: partial_of(found),
    };
    Head::new(found.kind, flags, len)
}
