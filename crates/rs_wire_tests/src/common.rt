//! What the tests of several crates need: a comparison, octets from hexadecimal digits, prefixes, the
//! attributes of a route, and the messages that announce and withdraw prefixes.

use rs_attrs::{Attrs, Mode, read};
use rs_octets::Prefix;
use rs_packer::{Packed, pack_withdrawn, try_pack_announced};
use std::alloc::{AllocError, Global};
use std::fmt::Debug;
use std::process::Abort;

/// ORIGIN IGP, AS_PATH 64496, NEXT_HOP 192.0.2.11, as a four-octet peer spells them.
pub(crate) static ROUTE: [u8; 20] = [
    0x40, 1, 1, 0, 0x40, 2, 6, 2, 1, 0, 0, 0xfb, 0xf0, 0x40, 3, 4, 192, 0, 2, 11,
];

/// This is found, and this was wanted, of what the text names.
pub(crate) fn is<T: Debug + PartialEq + Drop>(rt: &impl Abort, found: T, want: T, of: &str) {
    assert_eq!(rt; found, want, "{of}");
}

/// What is shown is this text.
pub(crate) fn is_shown(rt: &impl Abort, shown: Result<String, AllocError>, want: &str) {
    is(rt, shown.expect(rt, "a text").as_str(), want, "a text");
}

/// Puts octets behind others.
pub(crate) fn put(rt: &impl Abort, octets: &mut Vec<u8>, more: &[u8]) {
    octets.extend_from_slice(more).expect(rt, "octets");
}

/// The octets that a text of hexadecimal digits and blanks spells, in which `A` stands for `ROUTE` and
/// `M` for the marker of a message.
pub(crate) fn octets(rt: &impl Abort, alloc: Global, text: &str) -> Vec<u8> {
    let mut octets = Vec::new(alloc);
    for word in text.split_whitespace() {
        match word {
            "A" => put(rt, &mut octets, &ROUTE),
            "M" => put(rt, &mut octets, &[0xff; 16]),
            _ => {
                let spelt = hex::decode(alloc, word).expect(rt, "hexadecimal digits");
                put(rt, &mut octets, &spelt);
            }
        }
    }
    octets
}

/// The prefix of this length, 0 to 32, with these bits.
pub(crate) fn prefix(rt: &impl Abort, bits: u32, len: u8) -> Prefix {
    Prefix::new(bits, len).expect(rt, "a length of at most 32")
}

/// The attributes that a four-octet peer spells so.
pub(crate) fn attrs(rt: &impl Abort, alloc: Global, field: &[u8]) -> Attrs {
    read(alloc, field, Mode::Four).expect(rt, "memory").attrs
}

/// What is announced of the prefixes, where there are some and the first fits.
pub(crate) fn announced(
    mode: Mode,
    attrs: &Attrs,
    prefixes: &[Prefix],
    out: &mut [u8],
) -> Option<Packed> {
    if out.len() > 65535 {
        return None;
    }
    try_pack_announced(attrs, mode, prefixes, out)
}

/// What is withdrawn of the prefixes, where there are some.
pub(crate) fn withdrawn(prefixes: &[Prefix], out: &mut [u8]) -> Option<Packed> {
    if prefixes.is_empty() || out.len() > 65535 || out.len() < 28 {
        return None;
    }
    Some(pack_withdrawn(prefixes, out))
}
