//! Prefixes as texts, by which they are asked for, and the parameters of a query.

use rs_octets::Prefix;
use rs_page_parts::keys::read_number;

/// What stands before the first such octet and behind it; nothing behind it where there is none.
pub(crate) fn parted(text: &[u8], mark: u8) -> (&[u8], &[u8]) {
    match text.iter().position(|octet| *octet == mark) {
        None => (text, &[]),
        Some(at) => (&text[..at], &text[at + 1..]),
    }
}

/// The address that four numbers with points between spell.
pub(crate) fn read_address(text: &[u8]) -> Option<u32> {
    let (first, rest) = parted(text, b'.');
    let (second, rest) = parted(rest, b'.');
    let (third, fourth) = parted(rest, b'.');
    let first = read_number(first, 255)?;
    let second = read_number(second, 255)?;
    let third = read_number(third, 255)?;
    let fourth = read_number(fourth, 255)?;
    Some((first * 16_777_216 + second * 65_536 + third * 256 + fourth) as u32)
}

/// What stands before a slash and behind it, which may be spelt `%2F`, as a form of HTML does.
fn parted_at_slash(text: &[u8]) -> (&[u8], &[u8]) {
    let (before, behind) = parted(text, b'%');
    match behind
        .strip_prefix(b"2F".as_slice())
        .or(behind.strip_prefix(b"2f".as_slice()))
    {
        Some(len) => (before, len),
        None => parted(text, b'/'),
    }
}

/// The prefix that a text spells, `192.0.2.0/24`, or the address alone; none that has bits behind its length.
pub(crate) fn read_prefix(text: &[u8]) -> Option<Prefix> {
    let (address, len) = parted_at_slash(text);
    let bits = read_address(address)?;
    let len = if len.is_empty() {
        32
    } else {
        read_number(len, 32)?
    };
    let prefix = Prefix::new(bits, len as u8)?;
    if prefix.bits() == bits {
        Some(prefix)
    } else {
        None
    }
}

/// The value of a parameter of a query, `a=1&b=2`; the first of that name.
pub(crate) fn parameter<'a>(query: &'a [u8], name: &[u8]) -> Option<&'a [u8]> {
    for pair in query.split(|octet| *octet == b'&') {
        let (key, value) = parted(pair, b'=');
        if key == name {
            return Some(value);
        }
    }
    None
}
