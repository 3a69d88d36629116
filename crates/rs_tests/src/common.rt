//! What the tests of several crates need: octets, prefixes, and the attributes of a route.

use rs_attrs::{Attrs, Mode, read};
use rs_octets::Prefix;
use std::alloc::Global;
use std::fmt::Debug;
use std::process::Abort;
use std::sync::Arc;

/// ORIGIN IGP, AS_PATH 64496, NEXT_HOP 192.0.2.11, as a four-octet peer spells them.
pub(crate) const ROUTE: [u8; 20] = [
    0x40, 1, 1, 0, 0x40, 2, 6, 2, 1, 0, 0, 0xfb, 0xf0, 0x40, 3, 4, 192, 0, 2, 11,
];

/// A value is the one that is wanted.
pub(crate) fn equals<T: Debug + PartialEq + Drop>(rt: &impl Abort, found: T, want: T) {
    assert_eq!(rt; found, want);
}

/// A value is the one that is wanted of this.
pub(crate) fn is<T: Debug + PartialEq + Drop>(rt: &impl Abort, found: T, want: T, of: &str) {
    assert_eq!(rt; found, want, "{of}");
}

/// The same of what is no text: a number, a pattern, or a word and a number.
pub(crate) fn is_of<T: Debug + PartialEq + Drop, W: Debug>(
    rt: &impl Abort,
    found: T,
    want: T,
    of: &W,
) {
    assert_eq!(rt; found, want, "{of:?}");
}

/// This holds, which a test says of something.
pub(crate) fn is_so(rt: &impl Abort, holds: bool, of: &str) {
    assert!(rt; holds, "{of}");
}

/// Puts a value behind others.
pub(crate) fn push<T: Drop>(rt: &impl Abort, values: &mut Vec<T>, value: T) {
    values.push(value).expect(rt, "memory");
}

/// These texts, one behind the other.
pub(crate) fn text_of(rt: &impl Abort, alloc: Global, parts: &[&str]) -> String {
    let mut text = String::new(alloc);
    for part in parts {
        text.push_str(part).expect(rt, "a text");
    }
    text
}

/// The parts of a row before its first ` | ` and behind it.
pub(crate) fn parts(row: &str) -> (&str, &str) {
    row.split_once(" | ").unwrap_or((row, ""))
}

/// Puts octets behind others.
pub(crate) fn put(rt: &impl Abort, octets: &mut Vec<u8>, more: &[u8]) {
    octets.extend_from_slice(more).expect(rt, "octets");
}

/// What a hexadecimal digit is worth.
fn worth(digit: u8) -> Option<u8> {
    match digit {
        b'0'..=b'9' => Some(digit - b'0'),
        b'a'..=b'f' => Some(digit - b'a' + 10),
        _ => None,
    }
}

/// Puts the octet that a digit makes behind another, or keeps the digit.
fn put_digit(rt: &impl Abort, octets: &mut Vec<u8>, high: Option<u8>, digit: u8) -> Option<u8> {
    match high {
        None => Some(digit),
        Some(high) => {
            put(rt, octets, &[high << 4 | digit]);
            None
        }
    }
}

/// The octets that a text of hexadecimal digits and blanks spells, in which `A` stands for `ROUTE`.
pub(crate) fn octets(rt: &impl Abort, alloc: Global, text: &str) -> Vec<u8> {
    let mut octets = Vec::new(alloc);
    let mut high = None;
    for digit in text.bytes() {
        if digit == b'A' {
            put(rt, &mut octets, &ROUTE);
        } else if let Some(digit) = worth(digit) {
            high = put_digit(rt, &mut octets, high, digit);
        }
    }
    octets
}

/// The prefix of this length, 0 to 32, with these bits.
pub(crate) fn prefix(rt: &impl Abort, bits: u32, len: u8) -> Prefix {
    Prefix::new(bits, len).expect(rt, "a length of at most 32")
}

/// The attributes that a four-octet peer spells so.
pub(crate) fn attrs(rt: &impl Abort, alloc: Global, field: &[u8]) -> Attrs {
    read(alloc, field, Mode::Four)
        .expect(rt, "attributes")
        .attrs
}

/// The same for several routes.
pub(crate) fn shared(rt: &impl Abort, alloc: Global, field: &[u8]) -> Arc<Attrs> {
    Arc::new(alloc, attrs(rt, alloc, field)).expect(rt, "attributes")
}

/// Prints a line.
pub(crate) fn say<R: Abort + Print>(rt: &R, line: &str) {
    println!(rt; "{line}").expect(rt, "a line");
}

/// From here on no memory is to be asked for. `tools/plays/without_memory.py` counts what is.
pub(crate) fn from_here<R: Abort + Print>(rt: &R) {
    say(rt, "no memory is asked for from here");
}

/// Up to here no memory was to be asked for.
pub(crate) fn to_here<R: Abort + Print>(rt: &R) {
    say(rt, "no memory is asked for to here");
}
