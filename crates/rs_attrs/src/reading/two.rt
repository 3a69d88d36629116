//! The values of a two-octet peer with AS numbers in four octets: AS_PATH with what AS4_PATH
//! gives, AGGREGATOR with what AS4_AGGREGATOR gives (RFC 6793, 4.2.3).

ghost use Rattle.std.specs.Prelude.{◌≡◌, ℕ, ◌<◌, slice_index, ◌+◌, ◌*◌, ◌≤◌, ◌++◌, true, false, [], length, MatchOption, IfSome, OnOk, option_map};
ghost use Rattle.std.specs.Option.{ForSome};
ghost use Rattle.std.specs.List.{flat_map};
ghost use Rattle.rs_attrs.specs.Paths;
ghost use Rattle.rs_attrs.specs.Paths.{two_octets, four_octets, number_octets, pairs, segment_octets, path_octets, leading};
ghost use Rattle.rs_attrs.specs.declared.mode.Mode.TheVariants.{Two};
ghost use Rattle.rs_attrs.specs.Table.{size_in};
ghost use Rattle.rs_attrs.specs.Meaning;
ghost use Rattle.rs_attrs.specs.Meaning.{aggregator_by, merged_with, value_by_two};
ghost use Rattle.rs_attrs.specs.Walking.{spelling_in, noted, AreKept};
ghost use Rattle.rs_attrs.specs.Merging.{segments_in, IsWhole, plain, as4_value};

use crate::mode::Mode;
use crate::reading::field::Found;
use crate::segments::{first_segment, is_segment_kind};
use crate::types::{AGGREGATOR, AS_PATH, AS_SEQUENCE, AS_SET, AS4_AGGREGATOR, AS4_PATH};
use rs_octets::AS_TRANS;
use std::alloc::AllocError;

/// The length of a well-formed path, of its sets and sequences alone.
fn path_length(path: &[u8], mode: Mode, confederations: bool) -> usize
    requires { IsWhole (size_in mode) confederations path.now }
    ensures { result ≡ Paths.path_length (plain (segments_in (size_in mode) confederations path.now)) }
{
    let mut length = 0;
    let mut rest = path;
    while let Some(segment) = first_segment(rest, mode, confederations) {
        length += match segment.kind {
            AS_SET => 1,
            AS_SEQUENCE => usize::from(segment.count),
            _ => 0,
        };
        rest = segment.rest;
    }
    length
}

/// Puts numbers of two octets each behind, with four octets each.
fn push_widened(values: &mut Vec<u8>, numbers: &[u8]) -> Result<(), AllocError>
    ensures { OnOk result (values.new.items ≡ values.old.items ++ flat_map (number_octets four_octets) (pairs numbers.now)) }
{
    let mut rest = numbers;
    while rest.len() >= 2 {
        let (number, after) = rest.split_at(2);
        values.extend_from_slice(&[0, 0, number[0], number[1]])?;
        rest = after;
    }
    Ok(())
}

/// Puts a segment behind, its numbers with four octets each.
fn push_segment(values: &mut Vec<u8>, kind: u8, count: u8, numbers: &[u8]) -> Result<(), AllocError>
    requires { length numbers.now ≡ 2 * count }
    ensures { OnOk result (values.new.items ≡ values.old.items ++ segment_octets four_octets (record { kind = kind; numbers = pairs numbers.now })) }
{
    values.extend_from_slice(&[kind, count])?;
    push_widened(values, numbers)
}

/// Puts the leading part of this length behind, of a path with two octets to a number. A sequence
/// may be cut.
fn push_leading(values: &mut Vec<u8>, path: &[u8], keep: usize) -> Result<(), AllocError>
    requires { IsWhole two_octets false path.now }
    ensures { OnOk result (values.new.items ≡ values.old.items ++ path_octets four_octets (leading keep (segments_in two_octets false path.now))) }
{
    let mut left = keep;
    let mut rest = path;
    while let Some(segment) = first_segment(rest, Mode::Two, false) {
        if left == 0 {
            return Ok(());
        }
        let length = if segment.kind == AS_SET {
            1
        } else {
            usize::from(segment.count)
        };
        if left < length {
            let (numbers, _) = segment.numbers.split_at(2 * left);
            return push_segment(values, segment.kind, left as u8, numbers);
        }
        push_segment(values, segment.kind, segment.count, segment.numbers)?;
        left -= length;
        rest = segment.rest;
    }
    Ok(())
}

/// Puts the sets and sequences of AS4_PATH behind.
fn push_as4_path(values: &mut Vec<u8>, path: &[u8]) -> Result<(), AllocError>
    requires { IsWhole four_octets true path.now }
    ensures { OnOk result (values.new.items ≡ values.old.items ++ path_octets four_octets (plain (segments_in four_octets true path.now))) }
{
    let mut rest = path;
    while let Some(segment) = first_segment(rest, Mode::Four, true) {
        if is_segment_kind(segment.kind, false) {
            values.extend_from_slice(&[segment.kind, segment.count])?;
            values.extend_from_slice(segment.numbers)?;
        }
        rest = segment.rest;
    }
    Ok(())
}

/// Puts AS_PATH behind, with AS4_PATH in the place of its last numbers where that is no longer.
pub(crate) fn push_path(
    values: &mut Vec<u8>,
    path: &[u8],
    as4_path: &[u8],
) -> Result<(), AllocError>
    requires path { IsWhole two_octets false path.now }
    requires as4_path { IsWhole four_octets true as4_path.now }
    ensures { OnOk result (values.new.items ≡ values.old.items ++ path_octets four_octets (merged_with (segments_in two_octets false path.now) (plain (segments_in four_octets true as4_path.now)))) }
{
    let length = path_length(path, Mode::Two, false);
    let as4_length = path_length(as4_path, Mode::Four, true);
    if length < as4_length {
        return push_leading(values, path, length);
    }
    push_leading(values, path, length - as4_length)?;
    push_as4_path(values, as4_path)
}

/// AGGREGATOR and AS4_AGGREGATOR are both there, and the first doesn't stand for the second.
fn ignores_as4(aggregator: Option<Found<'_>>, as4_aggregator: Option<Found<'_>>) -> bool
    requires { ForSome aggregator (λ f. 2 ≤ length f.value.now) }
    ensures { result ≡ Meaning.ignores_as4 (option_map spelling_in aggregator.entry) (option_map spelling_in as4_aggregator.entry) }
{
    match (aggregator, as4_aggregator) {
        (Some(found), Some(_)) => u16::from_be_bytes([found.value[0], found.value[1]]) != AS_TRANS,
        _ => false,
    }
}

/// The value of AS4_PATH, where it is there and not ignored.
fn as4_path_value<'a>(ignores: bool, as4_path: Option<Found<'a>>) -> &'a [u8]
    ensures { result.now ≡ as4_value ignores (option_map spelling_in as4_path.entry) }
{
    match as4_path {
        Some(found) => { if ignores { &[] } else { found.value } }
        None => &[],
    }
}

/// Puts AGGREGATOR behind, or what AS4_AGGREGATOR has in its place.
fn push_aggregator(
    values: &mut Vec<u8>,
    value: &[u8],
    ignores: bool,
    as4_aggregator: Option<Found<'_>>,
) -> Result<(), AllocError>
    ensures { OnOk result (values.new.items ≡ values.old.items ++ aggregator_by ignores (option_map spelling_in as4_aggregator.entry) value.now) }
{
    if !ignores {
        if let Some(found) = as4_aggregator {
            return values.extend_from_slice(found.value);
        }
    }
    values.extend_from_slice(&[0, 0])?;
    values.extend_from_slice(value)
}

/// The attribute of this type.
fn kept_of<'a>(kept: &[Found<'a>], kind: u8) -> Option<Found<'a>>
    ensures { option_map spelling_in result ≡ noted kept.now kind }
{
    for found in kept {
        if found.kind == kind {
            return Some(*found);
        }
    }
    None
}

/// Puts the value of a two-octet peer's attribute behind others, with AS numbers in four octets.
pub(crate) fn push_value_by_two(
    values: &mut Vec<u8>,
    kept: &[Found<'_>],
    found: &Found<'_>,
) -> Result<(), AllocError>
    requires kept { AreKept Two kept.now }
    requires here { noted kept.now found.now.kind ≡ Some (spelling_in found.now) }
    ensures { OnOk result (values.new.items ≡ values.old.items ++ value_by_two (noted kept.now) (spelling_in found.now)) }
{
    if found.kind != AS_PATH && found.kind != AGGREGATOR {
        return values.extend_from_slice(found.value);
    }
    let as4_aggregator = kept_of(kept, AS4_AGGREGATOR);
    let ignores = ignores_as4(kept_of(kept, AGGREGATOR), as4_aggregator);
    if found.kind == AS_PATH {
        push_path(
            values,
            found.value,
            as4_path_value(ignores, kept_of(kept, AS4_PATH)),
        )
    } else {
        push_aggregator(values, found.value, ignores, as4_aggregator)
    }
}
