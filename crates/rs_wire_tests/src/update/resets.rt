//! UPDATEs that reset the session, by each cause and by the first of two.

use super::*;

static OF_RESETS: [Row; 16] = [
    ("no octets", "", "03 01"),
    ("half a length", "0000 00", "03 01"),
    (
        "the first length goes past the end",
        "0005 18c63364",
        "03 01",
    ),
    (
        "no room for the second length",
        "0005 18c6336400 00",
        "03 01",
    ),
    (
        "the second length goes past the end",
        "0000 0015 A",
        "03 01",
    ),
    ("a withdrawn prefix is cut off", "0002 18c6 0000", "03 0a"),
    (
        "a withdrawn prefix has 33 bits",
        "0006 21c633640000 0000",
        "03 0a",
    ),
    (
        "an announced prefix is cut off",
        "0000 0014 A 18c63364 18c6",
        "03 0a",
    ),
    (
        "an announced prefix has 33 bits",
        "0000 001a A 800403000000 21 c633640000",
        "03 0a",
    ),
    (
        "MP_REACH_NLRI stands twice",
        "0000 0006 800e00 800e00",
        "03 01",
    ),
    (
        "MP_UNREACH_NLRI stands twice",
        "0000 001a A 800f00 800f00 18c63364",
        "03 01",
    ),
    ("a bad ORIGIN without NLRI", "0000 0004 40010500", "03 01"),
    (
        "an ORIGIN of an unknown value without NLRI",
        "0000 0014 40010103 40020602010000fbf0 400304c000020b",
        "03 01",
    ),
    (
        "a bad ORIGIN beside a withdrawn prefix alone",
        "0004 18c63364 0004 40010500",
        "03 01",
    ),
    (
        "an unrecognized well-known attribute",
        "0000 0003 406300",
        "03 02",
    ),
    (
        "an unrecognized well-known attribute beside a route",
        "0000 0017 A 406300 18c63364",
        "03 02",
    ),
];

#[test]
fn each_reset(rt: HostRuntime) {
    hold(&rt, rt.alloc(), Mode::Four, &OF_RESETS);
}

static OF_TWO_RESETS: [Row; 10] = [
    (
        "lengths before a cut prefix",
        "0002 18c6 0005 4001",
        "03 01",
    ),
    (
        "lengths before an unrecognized attribute",
        "0000 0009 406300",
        "03 01",
    ),
    (
        "a cut prefix before MP_REACH_NLRI twice",
        "0002 18c6 0006 800e00 800e00",
        "03 0a",
    ),
    (
        "a cut prefix before a bad ORIGIN",
        "0002 18c6 0004 40010500",
        "03 0a",
    ),
    (
        "a cut withdrawn prefix before an unrecognized attribute",
        "0002 18c6 0003 406300",
        "03 0a",
    ),
    (
        "a cut announced prefix before an unrecognized attribute",
        "0000 0003 406300 18c6",
        "03 0a",
    ),
    (
        "MP_REACH_NLRI twice and a bad ORIGIN",
        "0000 000a 800e00 800e00 40010500",
        "03 01",
    ),
    (
        "MP_REACH_NLRI twice before an unrecognized attribute",
        "0000 0009 406300 800e00 800e00",
        "03 01",
    ),
    (
        "a bad ORIGIN without NLRI before an unrecognized attribute",
        "0000 0007 40010500 406300",
        "03 01",
    ),
    (
        "an unrecognized attribute where a bad ORIGIN only withdraws",
        "0000 0007 40010103 406300 18c63364",
        "03 02",
    ),
];

#[test]
fn the_first_of_two_resets(rt: HostRuntime) {
    hold(&rt, rt.alloc(), Mode::Four, &OF_TWO_RESETS);
}
