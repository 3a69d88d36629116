//! Values for two-octet peers: AS numbers in two octets (RFC 6793, 4.2.2).

ghost use Rattle.std.specs.Prelude.{◌≡◌, ◌+◌, ◌<◌, ◌≤◌, length, true};
ghost use Rattle.std.specs.List.{flat_map};
ghost use Rattle.rs_octets.specs.Writes.{Writes};
ghost use Rattle.rs_attrs.specs.Paths.{two_octets, four_octets, number_octets, segment_octets};
ghost use Rattle.rs_attrs.specs.Table.{is_path};
ghost use Rattle.rs_attrs.specs.Writing.{as_trans_or, narrowed_segment, path_needs_four_octets, aggregator_in};
ghost use Rattle.rs_attrs.specs.Parts.{narrow_path, narrow_aggregator};

use crate::segments::{Numbers, PathSegment, Segments};
use rs_octets::{AS_TRANS, put};

/// The AS number in two octets, or AS_TRANS.
fn narrow(number: u32) -> u16
    ensures { result ≡ as_trans_or number }
{
    if number > 65535 {
        AS_TRANS
    } else {
        number as u16
    }
}

fn put_numbers(out: &mut [u8], at: usize, numbers: Numbers<'_>) -> usize
    requires { at + length (flat_map (λ n. number_octets two_octets (as_trans_or n)) numbers) ≤ length out.old }
    ensures end { result ≡ at + length (flat_map (λ n. number_octets two_octets (as_trans_or n)) numbers.entry) }
    ensures octets { Writes at (flat_map (λ n. number_octets two_octets (as_trans_or n)) numbers.entry) out.old out.new }
{
    let mut at = at;
    for number in numbers {
        at = put(out, at, &narrow(number).to_be_bytes());
    }
    at
}

fn put_segment(out: &mut [u8], at: usize, segment: &PathSegment<'_>) -> usize
    requires short { length segment.now.numbers < 256 }
    requires fits { at + length (segment_octets two_octets (narrowed_segment segment.now)) ≤ length out.old }
    ensures end { result ≡ at + length (segment_octets two_octets (narrowed_segment segment.now)) }
    ensures octets { Writes at (segment_octets two_octets (narrowed_segment segment.now)) out.old out.new }
{
    let numbers_at = put(out, at, &[segment.kind(), segment.count() as u8]);
    put_numbers(out, numbers_at, segment.numbers())
}

/// Writes a path with AS numbers in two octets.
pub(crate) fn put_path(out: &mut [u8], at: usize, path: &[u8]) -> usize
    requires path { is_path four_octets path.now ≡ true }
    requires fits { at + length (narrow_path path.now) ≤ length out.old }
    ensures end { result ≡ at + length (narrow_path path.now) }
    ensures octets { Writes at (narrow_path path.now) out.old out.new }
{
    let mut at = at;
    for segment in Segments::of(path) {
        at = put_segment(out, at, &segment);
    }
    at
}

/// The octets of a path with AS numbers in two octets.
pub(crate) fn narrow_path_size(path: &[u8]) -> usize
    requires path { is_path four_octets path.now ≡ true }
    ensures value { result ≡ length (narrow_path path.now) }
    ensures most { result ≤ length path.now }
{
    let mut size = 0;
    for segment in Segments::of(path) {
        size += 2 + 2 * segment.count();
    }
    size
}

/// Whether a number of the path needs four octets.
pub(crate) fn needs_four(path: &[u8]) -> bool
    requires path { is_path four_octets path.now ≡ true }
    ensures { result ≡ path_needs_four_octets path.now }
{
    Segments::of(path).any(|segment| segment.needs_four())
}

/// The AS number of AGGREGATOR.
pub(crate) fn aggregator(value: &[u8]) -> u32
    requires { 4 ≤ length value.now }
    ensures { result ≡ aggregator_in value.now }
{
    u32::from_be_bytes([value[0], value[1], value[2], value[3]])
}

/// Writes the value of AGGREGATOR with the AS number in two octets.
pub(crate) fn put_aggregator(out: &mut [u8], at: usize, value: &[u8]) -> usize
    requires size { length value.now ≡ 8 }
    requires fits { at + length (narrow_aggregator value.now) ≤ length out.old }
    ensures end { result ≡ at + length (narrow_aggregator value.now) }
    ensures octets { Writes at (narrow_aggregator value.now) out.old out.new }
{
    let (_, address) = value.split_at(4);
    let address_at = put(out, at, &narrow(aggregator(value)).to_be_bytes());
    put(out, address_at, address)
}
