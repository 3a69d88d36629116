//! The attributes of a route, as birdwatcher's JSON and the pages for people have them.
//!
//! Of a list of numbers the first 256 are shown, so that a row has room in a piece; `"cut"`, or three points
//! for people, says that there are more.

ghost use Rattle.std.specs.Prelude.{◌≡◌, length};

use crate::parts::{Part, put_parts};
use byteorder::{BigEndian, ByteOrder};
use rs_attrs::{Attrs, EXTENDED_COMMUNITIES, LARGE_COMMUNITY};
use rs_page_parts::texts::{put_hex, put_number};
use std::alloc::{AllocError, Global};

/// As many items of a list are shown.
const MOST: usize = 256;

/// How lists of numbers are written.
#[derive(Clone, Copy)]
struct Style {
    /// Round an AS number.
    quote: &'static [u8],
    /// Before a community, between its numbers, and behind it.
    open: &'static [u8],
    point: &'static [u8],
    close: &'static [u8],
    /// Between two items of a list.
    between: &'static [u8],
}

/// As in JSON.
const JSON: Style = Style {
    quote: b"\"",
    open: b"[",
    point: b",",
    close: b"]",
    between: b",",
};

/// As operators write them.
const PLAIN: Style = Style {
    quote: b"",
    open: b"",
    point: b":",
    close: b"",
    between: b" ",
};

impl Style {
    /// Puts what stands between two items, before each but the first.
    fn put_between(&self, text: &mut Vec<u8>, index: usize) -> Result<(), AllocError> {
        if index == 0 {
            Ok(())
        } else {
            text.extend_from_slice(self.between)
        }
    }
}

/// The name of an ORIGIN (RFC 4271, 5.1.1).
fn origin_name(origin: u8) -> &'static [u8] {
    match origin {
        0 => b"IGP",
        1 => b"EGP",
        _ => b"Incomplete",
    }
}

/// Puts the AS numbers of AS_PATH, one behind the other, sets and sequences alike; answers whether all were
/// put.
fn put_path(text: &mut Vec<u8>, attrs: &Attrs, style: &Style) -> Result<bool, AllocError> {
    let mut count = 0;
    for segment in attrs.path() {
        for number in segment.numbers() {
            if count >= MOST {
                return Ok(false);
            }
            style.put_between(text, count)?;
            text.extend_from_slice(style.quote)?;
            put_number(text, u64::from(number))?;
            text.extend_from_slice(style.quote)?;
            count += 1;
        }
    }
    Ok(true)
}

/// Puts a community as its two numbers.
fn put_community(text: &mut Vec<u8>, community: u32, style: &Style) -> Result<(), AllocError> {
    text.extend_from_slice(style.open)?;
    put_number(text, u64::from(community / 65536))?;
    text.extend_from_slice(style.point)?;
    put_number(text, u64::from(community % 65536))?;
    text.extend_from_slice(style.close)
}

/// Puts the communities (RFC 1997), each as its two numbers; answers whether all were put.
fn put_communities(text: &mut Vec<u8>, attrs: &Attrs, style: &Style) -> Result<bool, AllocError> {
    let mut count = 0;
    for community in attrs.communities() {
        if count >= MOST {
            return Ok(false);
        }
        style.put_between(text, count)?;
        put_community(text, community, style)?;
        count += 1;
    }
    Ok(true)
}

/// Puts a large community, twelve octets, as its three numbers.
fn put_large_community(
    text: &mut Vec<u8>,
    community: &[u8],
    style: &Style,
) -> Result<(), AllocError>
    requires { length community.now ≡ 12 }
{
    text.extend_from_slice(style.open)?;
    put_number(text, u64::from(BigEndian::read_u32(&community[0..4])))?;
    text.extend_from_slice(style.point)?;
    put_number(text, u64::from(BigEndian::read_u32(&community[4..8])))?;
    text.extend_from_slice(style.point)?;
    put_number(text, u64::from(BigEndian::read_u32(&community[8..12])))?;
    text.extend_from_slice(style.close)
}

/// Puts the large communities (RFC 8092), each as its three numbers; answers whether all were put.
fn put_large_communities(
    text: &mut Vec<u8>,
    value: &[u8],
    style: &Style,
) -> Result<bool, AllocError> {
    for (index, community) in value.chunks_exact(12).enumerate() {
        if index >= MOST {
            return Ok(false);
        }
        style.put_between(text, index)?;
        put_large_community(text, community, style)?;
    }
    Ok(true)
}

/// Puts an extended community, eight octets, as `generic` and its octets in two numbers.
fn put_extended_community(text: &mut Vec<u8>, community: &[u8]) -> Result<(), AllocError>
    requires { length community.now ≡ 8 }
{
    text.extend_from_slice(b"[\"generic\",\"")?;
    put_hex(text, BigEndian::read_u32(&community[0..4]))?;
    text.extend_from_slice(b"\",\"")?;
    put_hex(text, BigEndian::read_u32(&community[4..8]))?;
    text.extend_from_slice(b"\"]")
}

/// Puts the extended communities (RFC 4360); answers whether all were put.
fn put_extended_communities(text: &mut Vec<u8>, value: &[u8]) -> Result<bool, AllocError> {
    for (index, community) in value.chunks_exact(8).enumerate() {
        if index >= MOST {
            return Ok(false);
        }
        JSON.put_between(text, index)?;
        put_extended_community(text, community)?;
    }
    Ok(true)
}

/// The value of the attribute of a type, empty where there is none.
fn value(attrs: &Attrs, kind: u8) -> &[u8] {
    match attrs.get(kind) {
        Some(attribute) => attribute.value,
        None => &[],
    }
}

/// Puts ORIGIN, AS_PATH, NEXT_HOP and MULTI_EXIT_DISC as members of an object; answers whether all of AS_PATH
/// was put.
fn put_path_members(text: &mut Vec<u8>, attrs: &Attrs) -> Result<bool, AllocError> {
    let front = [
        Part::Plain(b"\"origin\":\""),
        Part::Plain(origin_name(attrs.origin().unwrap_or(2))),
        Part::Plain(b"\",\"as_path\":["),
    ];
    put_parts(text, &front)?;
    let has_path = put_path(text, attrs, &JSON)?;
    let behind = [
        Part::Plain(b"],\"next_hop\":\""),
        Part::Address(attrs.next_hop().unwrap_or(0)),
        Part::Plain(b"\",\"med\":\""),
        Part::Number(u64::from(attrs.med().unwrap_or(0))),
        Part::Plain(b"\""),
    ];
    put_parts(text, &behind)?;
    Ok(has_path)
}

/// Puts communities of each kind as members of an object; answers whether all were put.
fn put_community_members(text: &mut Vec<u8>, attrs: &Attrs) -> Result<bool, AllocError> {
    text.extend_from_slice(b"\"communities\":[")?;
    let has_communities = put_communities(text, attrs, &JSON)?;
    text.extend_from_slice(b"],\"large_communities\":[")?;
    let has_large = put_large_communities(text, value(attrs, LARGE_COMMUNITY), &JSON)?;
    text.extend_from_slice(b"],\"ext_communities\":[")?;
    let has_extended = put_extended_communities(text, value(attrs, EXTENDED_COMMUNITIES))?;
    text.extend_from_slice(b"]")?;
    Ok(has_communities && has_large && has_extended)
}

/// Puts the object `bgp`: ORIGIN, AS_PATH, NEXT_HOP, MULTI_EXIT_DISC, the preference, and communities.
fn put_bgp(text: &mut Vec<u8>, attrs: &Attrs) -> Result<(), AllocError> {
    text.extend_from_slice(b"{")?;
    let has_path = put_path_members(text, attrs)?;
    text.extend_from_slice(b",\"local_pref\":\"100\",")?;
    let has_communities = put_community_members(text, attrs)?;
    if has_path && has_communities {
        text.extend_from_slice(b"}")
    } else {
        text.extend_from_slice(b",\"cut\":true}")
    }
}

/// The text of the object `bgp`.
pub fn bgp_text(alloc: Global, attrs: &Attrs) -> Result<Vec<u8>, AllocError> {
    let mut text = Vec::new(alloc);
    put_bgp(&mut text, attrs)?;
    Ok(text)
}

/// Puts communities and large communities as a cell has them; answers whether all were put.
fn put_community_cell(text: &mut Vec<u8>, attrs: &Attrs) -> Result<bool, AllocError> {
    let has_communities = put_communities(text, attrs, &PLAIN)?;
    let large = value(attrs, LARGE_COMMUNITY);
    if !large.is_empty() {
        text.extend_from_slice(b" ")?;
    }
    let has_large = put_large_communities(text, large, &PLAIN)?;
    Ok(has_communities && has_large)
}

/// Puts the cells of a row in HTML behind NEXT_HOP: AS_PATH, MULTI_EXIT_DISC, communities and large communities.
fn put_cells(text: &mut Vec<u8>, attrs: &Attrs) -> Result<(), AllocError> {
    text.extend_from_slice(b"<td>")?;
    let has_path = put_path(text, attrs, &PLAIN)?;
    text.extend_from_slice(b"<td class=number>")?;
    if let Some(med) = attrs.med() {
        put_number(text, u64::from(med))?;
    }
    text.extend_from_slice(b"<td>")?;
    let has_communities = put_community_cell(text, attrs)?;
    if has_path && has_communities {
        Ok(())
    } else {
        text.extend_from_slice(b" ...")
    }
}

/// The text of those cells.
pub fn cells_text(alloc: Global, attrs: &Attrs) -> Result<Vec<u8>, AllocError> {
    let mut text = Vec::new(alloc);
    put_cells(&mut text, attrs)?;
    Ok(text)
}
