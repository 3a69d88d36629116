//! Octets of BGP messages, taken apart by hand.

use crate::common::{is, is_shown, prefix};
use rs_octets::{
    AS_TRANS, Allowed, FieldFault, Front, Head, HeaderFault, Kind, Notification, Prefix, header,
    laws, put, put_header, put_prefix, read_front, read_prefixes,
};
use std::cmp::Ordering;

const PLAIN: Allowed = Allowed {
    long: false,
    refresh: false,
};

const ALL: Allowed = Allowed {
    long: true,
    refresh: true,
};

/// What stands behind the marker of headers, and what is read of them.
static HEADERS: [([u8; 3], Allowed, Result<Head, HeaderFault>); 13] = [
    (
        [0, 37, 1],
        PLAIN,
        Ok(Head {
            length: 37,
            kind: Kind::Open,
        }),
    ),
    (
        [0, 47, 2],
        PLAIN,
        Ok(Head {
            length: 47,
            kind: Kind::Update,
        }),
    ),
    (
        [0, 21, 3],
        PLAIN,
        Ok(Head {
            length: 21,
            kind: Kind::Note,
        }),
    ),
    (
        [0, 19, 4],
        PLAIN,
        Ok(Head {
            length: 19,
            kind: Kind::Keepalive,
        }),
    ),
    (
        [0, 23, 5],
        ALL,
        Ok(Head {
            length: 23,
            kind: Kind::Refresh,
        }),
    ),
    (
        [255, 255, 2],
        ALL,
        Ok(Head {
            length: 65535,
            kind: Kind::Update,
        }),
    ),
    ([16, 1, 2], PLAIN, Err(HeaderFault::Length(4097))),
    ([0, 20, 4], PLAIN, Err(HeaderFault::Length(20))),
    ([0, 19, 5], PLAIN, Err(HeaderFault::Kind(5))),
    ([16, 1, 4], ALL, Err(HeaderFault::Length(4097))),
    ([16, 1, 1], ALL, Err(HeaderFault::Length(4097))),
    ([0, 24, 5], ALL, Err(HeaderFault::Length(24))),
    ([16, 1, 9], PLAIN, Err(HeaderFault::Length(4097))),
];

#[test]
fn reads_headers(rt: HostRuntime) {
    let mut octets = [255; 19];
    for ([high, low, number], allowed, want) in &HEADERS {
        octets[16] = *high;
        octets[17] = *low;
        octets[18] = *number;
        is(&rt, header(&octets, *allowed), *want, "a header");
    }
    octets[15] = 0;
    let marker = Err(HeaderFault::Marker);
    is(&rt, header(&octets, PLAIN), marker, "a header");
}

/// Types, each with its number and the least and the greatest length.
static TYPES: [(Kind, u8, u16, u16); 5] = [
    (Kind::Open, 1, 29, 4096),
    (Kind::Update, 2, 23, 65535),
    (Kind::Note, 3, 21, 65535),
    (Kind::Keepalive, 4, 19, 19),
    (Kind::Refresh, 5, 23, 23),
];

#[test]
fn writes_headers(rt: HostRuntime) {
    for (kind, number, least, greatest) in TYPES {
        let found = (
            kind.number(),
            kind.least_length(),
            kind.greatest_length(ALL),
        );
        is(&rt, found, (number, least, greatest), "a type");
        let mut out = [7; 19];
        let size = put_header(&mut out, least, kind);
        is(&rt, size, 19, "the octets of a header");
        let want = Head {
            length: least,
            kind,
        };
        is(&rt, header(&out, ALL), Ok(want), "a header");
    }
    let greatest = Kind::Update.greatest_length(PLAIN);
    is(&rt, greatest, 4096, "the greatest length");
    is(&rt, AS_TRANS, 23456, "AS_TRANS");
}

/// A KEEPALIVE, the withdrawal of 198.51.100.0/24, and 18 octets of the next header.
const THREE: &[u8] = b"\xff\xff\xff\xff\xff\xff\xff\xff\xff\xff\xff\xff\xff\xff\xff\xff\x00\x13\x04\
\xff\xff\xff\xff\xff\xff\xff\xff\xff\xff\xff\xff\xff\xff\xff\xff\x00\x1b\x02\x00\x04\x18\xc6\x33\x64\x00\x00\
\xff\xff\xff\xff\xff\xff\xff\xff\xff\xff\xff\xff\xff\xff\xff\xff\x00\x13";

/// The messages in front of octets, each with its type and body.
static MESSAGES: [(Kind, &[u8]); 2] = [
    (Kind::Keepalive, b""),
    (Kind::Update, b"\x00\x04\x18\xc6\x33\x64\x00\x00"),
];

/// How many octets more are wanted, where the octets are the front of a message.
fn wanted(octets: &[u8], allowed: Allowed) -> Option<usize> {
    match read_front(octets, allowed) {
        Front::Wants(more) => Some(more),
        Front::Message { .. } | Front::Fault(_) => None,
    }
}

#[test]
fn reads_messages_from_the_front(rt: HostRuntime) {
    let mut octets = THREE;
    for want in &MESSAGES {
        let Front::Message { kind, body, rest } = read_front(octets, PLAIN) else {
            return assert!(rt; false, "a message");
        };
        is(&rt, (kind, body), *want, "a message");
        octets = rest;
    }
    is(&rt, wanted(octets, PLAIN), Some(1), "of the third");
}

#[test]
fn wants_the_header_and_then_the_message(rt: HostRuntime) {
    let update = &THREE[19..46];
    for come in 0..27 {
        let more = if come < 19 { 19 - come } else { 27 - come };
        is(&rt, wanted(&update[..come], PLAIN), Some(more), "octets");
    }
    // a ROUTE-REFRESH, towards a peer that may send it and one that may not
    let mut refresh = [255; 19];
    let _ = put_header(&mut refresh, 23, Kind::Refresh);
    is(&rt, wanted(&refresh, ALL), Some(4), "octets");
    let Front::Fault(fault) = read_front(&refresh, PLAIN) else {
        return assert!(rt; false, "a fault");
    };
    is(&rt, fault, HeaderFault::Kind(5), "the type is none");
}

#[test]
fn faults_have_texts(rt: HostRuntime) {
    let of_headers = [
        (HeaderFault::Marker, "the marker is not sixteen octets ff"),
        (HeaderFault::Length(4097), "bad message length 4097"),
        (HeaderFault::Kind(5), "bad message type 5"),
    ];
    for (fault, text) in of_headers {
        is_shown(&rt, format!(in rt.alloc(); "{fault}"), text);
    }
    let of_fields = [
        (FieldFault::TooLong, "a prefix is longer than 32 bits"),
        (FieldFault::Cut, "a prefix runs over the end of its field"),
    ];
    for (fault, text) in of_fields {
        is_shown(&rt, format!(in rt.alloc(); "{fault}"), text);
    }
}

/// Names, each with its error code and subcode and its text.
static NAMES: [(Notification, u8, u8, &str); 7] = [
    (
        Notification::ConnectionNotSynchronized,
        1,
        1,
        "Message Header Error, Connection Not Synchronized (1, 1)",
    ),
    (
        Notification::OpenMessageError,
        2,
        0,
        "OPEN Message Error (2, 0)",
    ),
    (
        Notification::BadPeerAs,
        2,
        2,
        "OPEN Message Error, Bad Peer AS (2, 2)",
    ),
    (
        Notification::InvalidNetworkField,
        3,
        10,
        "UPDATE Message Error, Invalid Network Field (3, 10)",
    ),
    (
        Notification::HoldTimerExpired,
        4,
        0,
        "Hold Timer Expired (4, 0)",
    ),
    (
        Notification::FiniteStateMachineError,
        5,
        0,
        "Finite State Machine Error (5, 0)",
    ),
    (
        Notification::MaximumPrefixesReached,
        6,
        1,
        "Cease, Maximum Number of Prefixes Reached (6, 1)",
    ),
];

#[test]
fn names_notifications(rt: HostRuntime) {
    for (name, code, sub, text) in &NAMES {
        is(&rt, (name.code(), name.sub()), (*code, *sub), text);
        is(&rt, Notification::named(*code, *sub), Some(*name), text);
        is_shown(&rt, format!(in rt.alloc(); "{name}"), text);
    }
    is(&rt, Notification::named(2, 5), None, "(2, 5)");
    is(&rt, Notification::named(9, 0), None, "(9, 0)");
}

/// Bits and lengths that are given, and the bits of the prefix and the octets that spell it.
static PREFIXES: [(u32, u8, u32, usize); 5] = [
    (0xffff_ffff, 0, 0, 1),
    // 198.51.100.255/25 is 198.51.100.128/25
    (0xc633_64ff, 25, 0xc633_6480, 5),
    (0xc633_64ff, 24, 0xc633_6400, 4),
    (0x0a01_0203, 8, 0x0a00_0000, 2),
    (0xc000_0201, 32, 0xc000_0201, 5),
];

/// Bits and lengths of prefixes in rising order.
static RISING: [(u32, u8); 6] = [
    (0, 0),
    (0, 8),
    (0x0a00_0000, 8),
    (0x0a00_0000, 24),
    (0x0a00_0100, 24),
    (0xc000_0000, 2),
];

#[test]
fn makes_and_orders_prefixes(rt: HostRuntime) {
    for (given, len, bits, size) in &PREFIXES {
        let made = prefix(&rt, *given, *len);
        let found = (made.bits(), made.len(), made.size());
        is(&rt, found, (*bits, *len, *size), "a prefix");
    }
    is(&rt, Prefix::new(0, 33), None, "a length of 33");
    is(&rt, Prefix::new(0, 255), None, "a length of 255");
    let mut before = None;
    for (bits, len) in &RISING {
        let next = prefix(&rt, *bits, *len);
        if let Some(before) = before {
            let order = laws::order_of(&before, &next);
            is(&rt, (order, before < next), (Ordering::Less, true), "less");
        }
        before = Some(next);
    }
}

#[test]
fn reads_fields(rt: HostRuntime) {
    // 198.51.100.0/24, 198.51.100.128/25 with a bit behind its length, 0.0.0.0/0, and a length of 33
    let field = b"\x18\xc6\x33\x64\x19\xc6\x33\x64\xff\x00\x21\xc6\x18\xc6\x33\x64";
    let mut items = read_prefixes(field);
    for (bits, len) in [(0xc633_6400, 24), (0xc633_6480, 25), (0, 0)] {
        let want = Some(Ok(prefix(&rt, bits, len)));
        is(&rt, items.next(), want, "a prefix");
    }
    let too_long = Some(Err(FieldFault::TooLong));
    for want in [too_long, None, None] {
        is(&rt, items.next(), want, "a fault, and nothing behind it");
    }
    let mut items = read_prefixes(b"\x18\xc6");
    for want in [Some(Err(FieldFault::Cut)), None] {
        is(&rt, items.next(), want, "a cut prefix");
    }
    is(&rt, read_prefixes(b"").next(), None, "nothing in no field");
}

#[test]
fn writes_prefixes(rt: HostRuntime) {
    let mut out = [7; 12];
    let mut end = put(&mut out, 0, b"\xfe");
    if let Some(prefix) = Prefix::new(0xc633_6480, 25) {
        end = put_prefix(&mut out, 1, &prefix);
    }
    if let Some(prefix) = Prefix::new(0x0a00_0000, 8) {
        let _ = put_prefix(&mut out, 6, &prefix);
    }
    is(&rt, end, 6, "the end of the first prefix");
    let want = *b"\xfe\x19\xc6\x33\x64\x80\x08\x0a\x07\x07\x07\x07";
    is(&rt, out, want, "the octets");
}
