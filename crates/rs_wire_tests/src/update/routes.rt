//! UPDATEs that announce and withdraw routes.

use super::*;

static OF_ONE_ROUTE: [Row; 17] = [
    ("no field holds anything", "0000 0000", ""),
    (
        "a withdrawn prefix",
        "0004 18c63364 0000",
        "0004 18c63364 0000",
    ),
    ("a discarded attribute", "0000 0003 800e00", ""),
    ("attributes without NLRI", "0000 0014 A", ""),
    (
        "ORIGIN of no octets",
        "0000 0004 40010500 18c63364",
        "0004 18c63364 0000",
    ),
    (
        "ORIGIN of an unknown value",
        "0000 0014 40010103 40020602010000fbf0 400304c000020b 18c63364",
        "0004 18c63364 0000",
    ),
    (
        "MULTI_EXIT_DISC of three octets",
        "0000 001a A 800403000000 18c63364",
        "0004 18c63364 0000",
    ),
    (
        "no ORIGIN",
        "0000 0010 40020602010000fbf0 400304c000020b 18c63364",
        "0004 18c63364 0000",
    ),
    (
        "no AS_PATH",
        "0000 000b 40010100 400304c000020b 18c63364",
        "0004 18c63364 0000",
    ),
    (
        "no NEXT_HOP",
        "0000 000d 40010100 40020602010000fbf0 18c63364",
        "0004 18c63364 0000",
    ),
    (
        "NLRI without attributes",
        "0000 0000 18c63364",
        "0004 18c63364 0000",
    ),
    (
        "an AS_PATH without segments",
        "0000 000e 40010100 400200 400304c000020b 18c63364",
        "0000 000e 40010100 400200 400304c000020b 18c63364",
    ),
    (
        "a length of two octets",
        "0000 0015 5001000100 40020602010000fbf0 400304c000020b 18c63364",
        "0000 0014 A 18c63364",
    ),
    (
        "bits behind a prefix's length",
        "0000 0014 A 19c63364ff",
        "0000 0014 A 19c6336480",
    ),
    (
        "the second MULTI_EXIT_DISC, LOCAL_PREF and a short AGGREGATOR are discarded",
        "0000 0031 A 8004040000000a 80040400000014 400504000000c8 c007050000fbf0c0 18c63364",
        "0000 001b A 8004040000000a 18c63364",
    ),
    (
        "unknown optional attributes",
        "0000 001c A c06302abcd 806400 18c63364",
        "0000 001c A e06302abcd 806400 18c63364",
    ),
    (
        "an AS number of four octets",
        "0000 0018 40010100 40020a02020000fbf0fa56ea00 400304c000020b 18c63364",
        "0000 0018 40010100 40020a02020000fbf0fa56ea00 400304c000020b 18c63364",
    ),
];

#[test]
fn one_route_by_its_attributes(rt: HostRuntime) {
    hold(&rt, rt.alloc(), Mode::Four, &OF_ONE_ROUTE);
}

static OF_SETS: [Row; 13] = [
    (
        "a prefix in both fields",
        "0004 18c63364 0014 A 18c63364",
        "0000 0014 A 18c63364",
    ),
    (
        "one of two withdrawn prefixes in both fields",
        "0008 18c63364 18cb0071 0014 A 18c63364",
        "0004 18cb0071 0000 0000 0014 A 18c63364",
    ),
    (
        "in both fields, with other bits behind the length",
        "0005 19c63364ff 0014 A 19c6336480",
        "0000 0014 A 19c6336480",
    ),
    (
        "withdrawn twice",
        "0008 18c63364 18c63364 0000",
        "0004 18c63364 0000",
    ),
    (
        "withdrawn twice, with other bits behind the length",
        "000a 19c63364ff 19c6336480 0000",
        "0005 19c6336480 0000",
    ),
    (
        "announced twice",
        "0000 0014 A 18c63364 18c63364",
        "0000 0014 A 18c63364",
    ),
    (
        "announced twice, with other bits behind the length",
        "0000 0014 A 19c63364ff 18cb0071 19c6336480",
        "0000 0014 A 19c6336480 18cb0071",
    ),
    (
        "the same bits at two lengths",
        "0000 0014 A 19c6336400 18c63364",
        "0000 0014 A 18c63364 19c6336400",
    ),
    (
        "falling prefixes",
        "0008 18cb0071 18c63364 0000",
        "0008 18c63364 18cb0071 0000",
    ),
    (
        "NLRI treated as withdrawn beside a withdrawn field",
        "0004 18cb0071 0004 40010500 18c63364",
        "0008 18c63364 18cb0071 0000",
    ),
    (
        "NLRI treated as withdrawn, of a prefix in both fields",
        "0004 18c63364 0004 40010500 18c63364",
        "0004 18c63364 0000",
    ),
    (
        "a prefix withdrawn without NEXT_HOP beside it, and another in the NLRI",
        "0004 18cb0071 000d 40010100 40020602010000fbf0 18c63364",
        "0008 18c63364 18cb0071 0000",
    ),
    ("the prefix of no bits", "0000 0014 A 00", "0000 0014 A 00"),
];

#[test]
fn each_prefix_once_in_one_list(rt: HostRuntime) {
    hold(&rt, rt.alloc(), Mode::Four, &OF_SETS);
}

static OF_TWO_OCTET_PEERS: [Row; 4] = [
    (
        "AS4_PATH behind the front of AS_PATH",
        "0000 0023 40010100 4002080203fbf05ba05ba0 400304c000020b c0110a0202fa56ea00fa56ea01 18c63364",
        "0000 001e 40010100 40021002010000fbf00202fa56ea00fa56ea01 400304c000020b 18c63364",
    ),
    (
        "AS4_AGGREGATOR in place of AGGREGATOR",
        "0000 0026 40010100 4002040201fbf0 400304c000020b c007065ba0c000020b c01208fa56ea00c000020c 18c63364",
        "0000 001f A c00708fa56ea00c000020c 18c63364",
    ),
    (
        "AS numbers of four octets",
        "0000 0018 40010100 40020a02020000fbf0fa56ea00 400304c000020b 18c63364",
        "0004 18c63364 0000",
    ),
    ("a bad ORIGIN without NLRI", "0000 0004 40010500", "03 01"),
];

#[test]
fn routes_of_two_octet_peers(rt: HostRuntime) {
    hold(&rt, rt.alloc(), Mode::Two, &OF_TWO_OCTET_PEERS);
}

#[test]
fn the_longest_field_of_the_shortest_prefixes(rt: HostRuntime) {
    let mut body = octets(&rt, rt.alloc(), "fffb");
    body.resize(65_535, 0).expect(&rt, "octets");
    let outcome = effect(rt.alloc(), &body, Mode::Four).expect(&rt, "memory");
    let found = spelt(&rt, rt.alloc(), &outcome);
    is(&rt, found.as_slice(), &[0, 1, 0, 0, 0], "0.0.0.0/0 alone");
}
