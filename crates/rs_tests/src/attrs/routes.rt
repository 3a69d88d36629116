//! Routes as clients send them, and what is asked of their attributes. What is asked of paths and communities is played: by
//! `tools/plays/matching.py`.

use super::stripping::NOTHING;
use super::{ROUTE, attrs_of, route_with};
use crate::common::equals;
use rs_attrs::{Attrs, Mode, Strip, read, size, size_at_most, stripped};
use std::cmp::Ordering;
use std::hash::{DefaultHasher, Hash, Hasher};
use std::process::Abort;

/// Attributes are those of `ROUTE`, with this MED.
fn is_route(rt: &impl Abort, attrs: &Attrs, med: Option<u32>) {
    let values = (attrs.origin(), attrs.next_hop(), attrs.med());
    equals(rt, values, (Some(0), Some(0xc000_020b), med));
    let path = (attrs.path_len(), attrs.origin_as());
    equals(rt, path, (1, Some(64496)));
    let has = (attrs.path_has(64496), attrs.path_has(64497));
    equals(rt, has, (true, false));
}

#[test]
fn a_route_of_three_attributes(rt: HostRuntime) {
    is_route(&rt, &attrs_of(&rt, rt.alloc(), &ROUTE), None);
    let med = b"\x80\x04\x04\x00\x00\x00\x0a";
    is_route(&rt, &route_with(&rt, rt.alloc(), med), Some(10));
}

/// Fields, and the first mandatory attribute that each lacks.
static MISSING: [(&[u8], Option<u8>); 5] = [
    (&ROUTE, None),
    (
        &[0x40, 1, 1, 0, 0x40, 2, 6, 2, 1, 0, 0, 0xfb, 0xf0],
        Some(3),
    ),
    (&[0x40, 3, 4, 192, 0, 2, 11], Some(1)),
    (&[0x40, 1, 1, 0], Some(2)),
    (&[], Some(1)),
];

#[test]
fn the_first_mandatory_attribute_that_is_missing(rt: HostRuntime) {
    for (field, missing) in &MISSING {
        let attrs = attrs_of(&rt, rt.alloc(), field);
        equals(&rt, attrs.missing(), *missing);
        equals(&rt, attrs.has_mandatory(), missing.is_none());
    }
}

#[test]
fn sizes(rt: HostRuntime) {
    let attrs = attrs_of(&rt, rt.alloc(), &ROUTE);
    // an octet more for each of the three where each length has two octets
    for (mode, count, at_most) in [(Mode::Four, 20, 23), (Mode::Two, 18, 18)] {
        equals(&rt, size(&attrs, mode), count);
        equals(&rt, size_at_most(&attrs, mode), at_most);
    }
}

fn hash_of(attrs: &Attrs) -> u64 {
    let mut state = DefaultHasher::new();
    attrs.hash(&mut state);
    state.finish()
}

/// Attributes that are equal are ordered and hashed so, and keep one hash; of others the order is that of the other way round, reversed, and
/// the hash that is kept is another.
fn compares(rt: &impl Abort, left: &Attrs, right: &Attrs, equal: bool) {
    equals(rt, left == right, equal);
    let order = left.cmp(right);
    equals(rt, order == Ordering::Equal, equal);
    equals(rt, right.cmp(left), order.reverse());
    equals(rt, left.partial_cmp(right), Some(order));
    equals(rt, hash_of(left) == hash_of(right), equal);
    equals(rt, left.kept_hash() == right.kept_hash(), equal);
}

/// What stands behind the attributes of two routes, and whether they are equal.
static PAIRS: [(&[u8], &[u8], bool); 5] = [
    // the partial bit of an unknown transitive type is set in any case, that of COMMUNITIES stays
    (b"\xc0\x63\x00", b"\xe0\x63\x00", true),
    (
        b"\xc0\x08\x04\xfb\xf0\x00\x01",
        b"\xe0\x08\x04\xfb\xf0\x00\x01",
        false,
    ),
    (
        b"\xc0\x08\x04\xfb\xf0\x00\x01",
        b"\xc0\x08\x04\xfb\xf0\x00\x02",
        false,
    ),
    (
        b"\x80\x04\x04\x00\x00\x00\x0a",
        b"\x80\x04\x04\x00\x00\x00\x0b",
        false,
    ),
    (b"\xc0\x63\x00", b"", false),
];

#[test]
fn equal_by_meaning(rt: HostRuntime) {
    for (left, right, equal) in &PAIRS {
        let left = route_with(&rt, rt.alloc(), left);
        let right = route_with(&rt, rt.alloc(), right);
        compares(&rt, &left, &right, *equal);
    }
}

/// The route in another order with a length of two octets, in two octets an AS number, copied, and with communities that are taken out.
#[test]
fn one_route_in_several_forms(rt: HostRuntime) {
    let alloc = rt.alloc();
    let route = attrs_of(&rt, alloc, &ROUTE);
    let again =
        b"\x50\x03\x00\x04\xc0\x00\x02\x0b\x40\x02\x06\x02\x01\x00\x00\xfb\xf0\x40\x01\x01\x00";
    compares(&rt, &route, &attrs_of(&rt, alloc, again), true);
    let two = b"\x40\x01\x01\x00\x40\x02\x04\x02\x01\xfb\xf0\x40\x03\x04\xc0\x00\x02\x0b";
    let of_two = read(alloc, two, Mode::Two).expect(&rt, "attributes");
    compares(&rt, &route, &of_two.attrs, true);
    compares(&rt, &route, &route.clone().expect(&rt, "a copy"), true);
    let strip = Strip {
        all_communities: true,
        ..NOTHING
    };
    let community = route_with(&rt, alloc, b"\xc0\x08\x04\xfb\xf0\x00\x01");
    let rest = stripped(alloc, &community, &strip).expect(&rt, "attributes");
    compares(&rt, &route, &rest, true);
}
