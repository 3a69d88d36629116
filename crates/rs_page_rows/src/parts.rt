//! The parts of which a page is put together.

use crate::moments::Moments;
use crate::times::put_time;
use rs_octets::Prefix;
use rs_page_parts::texts::{put_address, put_html, put_json, put_number, put_prefix};
use std::alloc::{AllocError, Global};

/// A part of a page.
#[derive(Clone, Copy)]
pub(crate) enum Part<'a> {
    /// Octets as they are.
    Plain(&'a [u8]),
    /// Octets as the inside of a string of JSON.
    Json(&'a [u8]),
    /// Octets as text or an attribute's value of HTML.
    Html(&'a [u8]),
    /// A number in decimal.
    Number(u64),
    /// An address, `192.0.2.1`.
    Address(u32),
    /// A prefix, `192.0.2.0/24`.
    Prefix(Prefix),
    /// A time of day, in seconds since 1970-01-01T00:00:00Z.
    Time(Global, u64),
}

/// The time of day in this second since the start.
pub(crate) fn time<'a>(alloc: Global, moments: &Moments<'_>, second: u64) -> Part<'a> {
    Part::Time(alloc, moments.time(second))
}

/// Puts a part.
fn put_part(text: &mut Vec<u8>, part: &Part<'_>) -> Result<(), AllocError> {
    match part {
        Part::Plain(octets) => text.extend_from_slice(octets),
        Part::Json(octets) => put_json(text, octets),
        Part::Html(octets) => put_html(text, octets),
        Part::Number(number) => put_number(text, *number),
        Part::Address(address) => put_address(text, *address),
        Part::Prefix(prefix) => put_prefix(text, prefix),
        Part::Time(alloc, seconds) => put_time(text, *alloc, *seconds),
    }
}

/// Puts parts, one behind the other.
pub(crate) fn put_parts(text: &mut Vec<u8>, parts: &[Part<'_>]) -> Result<(), AllocError> {
    for part in parts {
        put_part(text, part)?;
    }
    Ok(())
}
