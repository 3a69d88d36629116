//! What is noted of UPDATEs that are taken, but not as they came.

use super::*;
use rs_attrs::{AttributeFault, Cause, Faulted};

const NOTHING: Faulted = Faulted {
    withdraw: None,
    discard: None,
    mp_reach: false,
};

const NO_ORIGIN: Faulted = Faulted {
    withdraw: Some(AttributeFault {
        kind: 1,
        cause: Cause::Missing,
    }),
    ..NOTHING
};

const NO_NEXT_HOP: Faulted = Faulted {
    withdraw: Some(AttributeFault {
        kind: 3,
        cause: Cause::Missing,
    }),
    ..NOTHING
};

const MP_REACH: Faulted = Faulted {
    mp_reach: true,
    ..NOTHING
};

/// What a row shows, a body in hex and what is noted.
static NOTED: [(&str, &str, Faulted); 13] = [
    (
        "no ORIGIN",
        "0000 0010 40020602010000fbf0 400304c000020b 18c63364",
        NO_ORIGIN,
    ),
    (
        "no AS_PATH",
        "0000 000b 40010100 400304c000020b 18c63364",
        Faulted {
            withdraw: Some(AttributeFault {
                kind: 2,
                cause: Cause::Missing,
            }),
            ..NOTHING
        },
    ),
    (
        "no NEXT_HOP",
        "0000 000d 40010100 40020602010000fbf0 18c63364",
        NO_NEXT_HOP,
    ),
    (
        "no attribute at all, beside a withdrawn prefix",
        "0004 18cb0071 0000 18c63364",
        NO_ORIGIN,
    ),
    (
        "an ORIGIN that is none, and no NEXT_HOP",
        "0000 000d 40010103 40020602010000fbf0 18c63364",
        Faulted {
            withdraw: Some(AttributeFault {
                kind: 1,
                cause: Cause::Value,
            }),
            ..NOTHING
        },
    ),
    (
        "a short MULTI_EXIT_DISC, and no ORIGIN",
        "0000 0016 40020602010000fbf0 400304c000020b 800403000000 18c63364",
        Faulted {
            withdraw: Some(AttributeFault {
                kind: 4,
                cause: Cause::Length,
            }),
            ..NOTHING
        },
    ),
    (
        "no NEXT_HOP beside an attribute that is discarded",
        "0000 0011 40010100 40020602010000fbf0 40060100 18c63364",
        Faulted {
            discard: Some(AttributeFault {
                kind: 6,
                cause: Cause::Length,
            }),
            ..NO_NEXT_HOP
        },
    ),
    // nothing is missing where nothing is announced, or with all that is mandatory
    ("nothing", "0000 0000", NOTHING),
    ("a withdrawn prefix", "0004 18c63364 0000", NOTHING),
    ("attributes alone", "0000 0004 40010100", NOTHING),
    ("a route", "0000 0014 A 18c63364", NOTHING),
    // 2001:db8::/32
    (
        "a route of IPv6 beside one of IPv4",
        "0000 0031 A 800e1a 0002 01 10 20010db8000000000000000000000001 00 2020010db8 18c63364",
        MP_REACH,
    ),
    (
        "a route of IPv6 alone",
        "0000 001d 800e1a 0002 01 10 20010db8000000000000000000000001 00 2020010db8",
        MP_REACH,
    ),
];

#[test]
fn what_is_noted_of_updates(rt: HostRuntime) {
    for (shows, body, want) in &NOTED {
        let body = octets(&rt, rt.alloc(), body);
        let outcome = effect(rt.alloc(), &body, Mode::Four).expect(&rt, "memory");
        let Outcome::Change { faulted, .. } = &outcome else {
            return assert!(rt; false, "{shows}: a reset");
        };
        is(&rt, *faulted, *want, shows);
    }
}
