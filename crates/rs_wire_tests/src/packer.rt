//! Messages and their numbers from outside.

use crate::common::{ROUTE, announced, attrs, is, octets, prefix, put, withdrawn};
use rs_attrs::{Attrs, Mode};
use rs_octets::Prefix;
use rs_packer::{Packed, fits, pack_announced};
use std::alloc::Global;
use std::process::Abort;

/// So many prefixes of length 24, from 10.0.0.0/24 on.
fn prefixes(rt: &impl Abort, alloc: Global, count: u32) -> Vec<Prefix> {
    let mut all = Vec::new(alloc);
    for i in 0..count {
        let next = prefix(rt, 0x0a00_0000 | (i << 8), 24);
        all.push(next).expect(rt, "a prefix");
    }
    all
}

/// So many octets and prefixes were packed.
fn has(rt: &impl Abort, packed: Option<Packed>, octets: usize, prefixes: usize) {
    is(rt, packed, Some(Packed { octets, prefixes }), "packed");
}

/// The octets that this text spells stand at the front.
fn begins(rt: &impl Abort, alloc: Global, out: &[u8], text: &str) {
    let want = octets(rt, alloc, text);
    is(rt, out.get(..want.len()), Some(want.as_slice()), text);
}

#[test]
fn writes_announcements(rt: HostRuntime) {
    let prefix = prefix(&rt, 0xc633_6400, 24);
    let mut out = [7; 4096];
    let route = attrs(&rt, rt.alloc(), &ROUTE);
    assert!(rt; fits(&route, Mode::Four, &prefix, 4096));
    let packed = pack_announced(&route, Mode::Four, &[prefix], &mut out);
    has(&rt, Some(packed), 47, 1);
    let text = "M 002f 02 0000 0014 A 18c63364 07";
    begins(&rt, rt.alloc(), &out, text);
    // ORIGIN, AS_PATH 64496 4200000000, NEXT_HOP, and in place of the second number AS_TRANS and AS4_PATH
    let field = "40010100 40020a 0202 0000fbf0 fa56ea00 400304c000020b";
    let field = octets(&rt, rt.alloc(), field);
    let route = attrs(&rt, rt.alloc(), &field);
    let mut out = [7; 4096];
    let packed = announced(Mode::Two, &route, &[prefix], &mut out);
    has(&rt, packed, 60, 1);
    let text = "M 003c 02 0000 0021 40010100 400206 0202 fbf0 5ba0 400304c000020b \
                c0110a 0202 0000fbf0 fa56ea00 18c63364 07";
    begins(&rt, rt.alloc(), &out, text);
}

#[test]
fn writes_a_withdrawal(rt: HostRuntime) {
    let mut out = [7; 4096];
    let packed = withdrawn(&[prefix(&rt, 0xc633_6400, 24)], &mut out);
    has(&rt, packed, 27, 1);
    let text = "M 001b 02 0004 18c63364 0000 07";
    begins(&rt, rt.alloc(), &out, text);
}

#[test]
fn announces_the_longest_front(rt: HostRuntime) {
    let route = attrs(&rt, rt.alloc(), &ROUTE);
    let mut list = prefixes(&rt, rt.alloc(), 1014);
    let mut out = [0; 4096];
    let packed = announced(Mode::Four, &route, &list, &mut out);
    has(&rt, packed, 4095, 1013);
    // 0.0.0.0/0 before the last, which needs one octet
    let last = list.pop().unwrap_or(prefix(&rt, 0, 0));
    list.extend_from_slice(&[prefix(&rt, 0, 0), last])
        .expect(&rt, "prefixes");
    let packed = announced(Mode::Four, &route, &list, &mut out);
    has(&rt, packed, 4096, 1014);
    // long messages
    let mut out = Vec::from_elem(rt.alloc(), 0, 65535).expect(&rt, "room");
    let list = prefixes(&rt, rt.alloc(), 16379);
    let packed = announced(Mode::Four, &route, &list, &mut out);
    has(&rt, packed, 65535, 16373);
    has(&rt, withdrawn(&list, &mut out), 65535, 16378);
}

#[test]
fn announces_only_where_the_first_fits(rt: HostRuntime) {
    let route = attrs(&rt, rt.alloc(), &ROUTE);
    let list = prefixes(&rt, rt.alloc(), 3);
    let mut short = [7; 46];
    let packed = announced(Mode::Four, &route, &list, &mut short);
    is(&rt, (packed, short), (None, [7; 46]), "packed");
    let mut exact = [7; 47];
    let packed = announced(Mode::Four, &route, &[], &mut exact);
    is(&rt, packed, None, "packed of none");
    let packed = announced(Mode::Four, &route, &list, &mut exact);
    has(&rt, packed, 47, 1);
    let mut out = [7; 54];
    let packed = announced(Mode::Four, &route, &list, &mut out);
    has(&rt, packed, 51, 2);
    let text = "M 0033 02 0000 0014 A 180a0000 180a0001 070707";
    begins(&rt, rt.alloc(), &out, text);
}

/// ORIGIN IGP, a path of 700 times 4200000000 in sequences of 255, 255 and 190, NEXT_HOP 192.0.2.11.
fn long_path(rt: &impl Abort, alloc: Global) -> Vec<u8> {
    let mut field = octets(rt, alloc, "40010100 50020af6");
    for count in [255, 255, 190] {
        put(rt, &mut field, &[2, count]);
        for _ in 0..count {
            put(rt, &mut field, b"\xfa\x56\xea\x00");
        }
    }
    put(rt, &mut field, b"\x40\x03\x04\xc0\x00\x02\x0b");
    field
}

#[test]
fn a_long_path_needs_a_long_message(rt: HostRuntime) {
    let field = long_path(&rt, rt.alloc());
    is(&rt, field.len(), 2821, "octets of the path");
    let path = attrs(&rt, rt.alloc(), &field);
    let list = [prefix(&rt, 0xc633_6400, 24)];
    let mut out = Vec::from_elem(rt.alloc(), 0, 65535).expect(&rt, "room");
    let packed = announced(Mode::Four, &path, &list, &mut out);
    has(&rt, packed, 2848, 1);
    let packed = announced(Mode::Two, &path, &list, &mut out);
    has(&rt, packed, 4258, 1);
    begins(&rt, rt.alloc(), &out, "M 10a2 02 0000 1087");
}

#[test]
fn fits_up_to_the_limit(rt: HostRuntime) {
    let prefix = prefix(&rt, 0xc633_6400, 24);
    let route = attrs(&rt, rt.alloc(), &ROUTE);
    for (octets, want) in [(50, true), (47, true), (46, false), (0, false)] {
        let found = fits(&route, Mode::Four, &prefix, octets);
        is(&rt, (octets, found), (octets, want), "whether it fits");
    }
    let path = attrs(&rt, rt.alloc(), &long_path(&rt, rt.alloc()));
    for (mode, octets, want) in [
        (Mode::Four, 4096, true),
        (Mode::Two, 4096, false),
        (Mode::Two, 4257, false),
        (Mode::Two, 4258, true),
        (Mode::Two, 65535, true),
    ] {
        let found = fits(&path, mode, &prefix, octets);
        is(&rt, (octets, found), (octets, want), "whether it fits");
    }
}
