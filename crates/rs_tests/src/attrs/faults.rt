//! What is noted of fields that are not well formed.

use super::octets;
use crate::common::{equals, is, parts, text_of};
use rs_attrs::{AttributeFault, Cause, Faulted, Mode, attribute_name, read};
use std::alloc::{AllocError, Global};
use std::process::Abort;

// Each line: what it shows, a field, and the two faults that are noted.

const ROWS: &str = "nothing |  | none; none
a good field | 40010100 40020602010000fbf0 400304c000020b | none; none
an unrecognized optional one | c06302abcd | none; none
LOCAL_PREF and MP_REACH_NLRI | 400504000000c8 800e00 | none; none
ORIGIN 3 | 40010103 | 1 Value; none
ORIGIN of two octets | 4001020000 | 1 Length; none
ORIGIN optional | c0010100 | 1 Flags; none
the flags before the value | c00105 | 1 Position; none
the flags and the value | c0010105 | 1 Flags; none
AS_PATH that runs over | 40020502010000fb | 2 Value; none
AS_PATH of a confederation | 40020603010000fbf0 | 2 Value; none
NEXT_HOP of 3 octets | 400303c00002 | 3 Length; none
COMMUNITIES of no octet | c00800 | 8 Length; none
AGGREGATOR of 6 octets | c00706fbf0c0000201 | none; 7 Length
AGGREGATOR well-known | 400708fbf00000c0000201 | 7 Flags; none
MED twice | 80040400000005 80040400000006 | none; 4 Twice
MED a third time, and ORIGIN before it | 80040400000005 40010103 80040400000006 | 1 Value; 4 Twice
the first of two in the order of the field | c00800 40010103 | 8 Length; none
the first of two that are discarded | 40060100 c00706fbf0c0000201 | none; 6 Length
a rest of one octet | 40010100 40 | 0 Position; none
a rest behind a bad attribute | 40010103 4002ff | 1 Value; none
a value that runs past the end | 40010100 c0080400 | 8 Position; none";

const OF_TWO_OCTET_PEERS: &str = "AS4_PATH of no segment | c01100 | none; 17 Value
AS4_PATH well-known | 40110602010000fbf0 | 17 Flags; none
AS4_AGGREGATOR of 6 octets | c01206fbf0c0000201 | none; 18 Length
AGGREGATOR of 8 octets | c007080000fbf0c0000201 | none; 7 Length";

fn in_words(alloc: Global, fault: Option<AttributeFault>) -> Result<String, AllocError> {
    match fault {
        None => String::from_str(alloc, "none"),
        Some(it) => format!(in alloc; "{} {:?}", it.kind, it.cause),
    }
}

/// What is noted of a field.
fn noted(rt: &impl Abort, alloc: Global, mode: Mode, field: &str) -> Faulted {
    let octets = octets(rt, alloc, field);
    read(alloc, &octets, mode).expect(rt, "attributes").faulted
}

/// The two faults of a field that are noted.
fn holds(rt: &impl Abort, alloc: Global, mode: Mode, row: &str) {
    let (_, fields) = parts(row);
    let (field, answer) = parts(fields);
    let faulted = noted(rt, alloc, mode, field);
    let withdraw = in_words(alloc, faulted.withdraw).expect(rt, "a text");
    let discard = in_words(alloc, faulted.discard).expect(rt, "a text");
    let both = text_of(rt, alloc, &[withdraw.as_str(), "; ", discard.as_str()]);
    is(rt, both.as_str(), answer, row);
}

#[test]
fn the_first_attributes_at_fault_are_noted(rt: HostRuntime) {
    for (mode, rows) in [(Mode::Four, ROWS), (Mode::Two, OF_TWO_OCTET_PEERS)] {
        for row in rows.lines() {
            holds(&rt, rt.alloc(), mode, row);
        }
    }
}

// Each line: a field, and the text of what is noted of it.

const TEXTS: &str = "40010100
40010103 | ORIGIN (1) treated as withdraw: malformed value
c00706fbf0c0000201 | AGGREGATOR (7) discarded: wrong length
40010100 c0100800000000000000 | EXTENDED COMMUNITIES (16) treated as withdraw: cut off
c01000 40060100 | EXTENDED COMMUNITIES (16) treated as withdraw: wrong length; ATOMIC_AGGREGATE (6) discarded: wrong length
80200c000000000000000000000000 | LARGE_COMMUNITY (32) treated as withdraw: wrong flags
80040400000005 80040400000006 | MULTI_EXIT_DISC (4) discarded: there twice
c06300 c06300 | attribute 99 discarded: there twice
40 | attribute 0 treated as withdraw: cut off";

/// What is noted has this text.
fn is_shown(rt: &impl Abort, alloc: Global, faulted: &Faulted, text: &str) {
    let shown = format!(in alloc; "{faulted}").expect(rt, "a text");
    equals(rt, shown.as_str(), text);
}

#[test]
fn what_is_noted_as_text(rt: HostRuntime) {
    for row in TEXTS.lines() {
        let (field, text) = parts(row);
        let faulted = noted(&rt, rt.alloc(), Mode::Four, field);
        is_shown(&rt, rt.alloc(), &faulted, text);
    }
    let missing = Faulted {
        withdraw: Some(AttributeFault {
            kind: 3,
            cause: Cause::Missing,
        }),
        discard: None,
        mp_reach: false,
    };
    let text = "NEXT_HOP (3) treated as withdraw: missing";
    is_shown(&rt, rt.alloc(), &missing, text);
}

// The types by number, as RFC 4271, RFC 1997, RFC 4456, RFC 4760, RFC 4360, RFC 6793 and RFC 8092 call them.

static NAMES: [(u8, &str); 16] = [
    (1, "ORIGIN"),
    (2, "AS_PATH"),
    (3, "NEXT_HOP"),
    (4, "MULTI_EXIT_DISC"),
    (5, "LOCAL_PREF"),
    (6, "ATOMIC_AGGREGATE"),
    (7, "AGGREGATOR"),
    (8, "COMMUNITIES"),
    (9, "ORIGINATOR_ID"),
    (10, "CLUSTER_LIST"),
    (14, "MP_REACH_NLRI"),
    (15, "MP_UNREACH_NLRI"),
    (16, "EXTENDED COMMUNITIES"),
    (17, "AS4_PATH"),
    (18, "AS4_AGGREGATOR"),
    (32, "LARGE_COMMUNITY"),
];

#[test]
fn each_type_by_name(rt: HostRuntime) {
    for (kind, name) in &NAMES {
        is(&rt, attribute_name(*kind), Some(*name), name);
    }
    let mut named = 0_usize;
    for kind in 0..=255 {
        named = named.saturating_add(usize::from(attribute_name(kind).is_some()));
    }
    equals(&rt, named, NAMES.len());
}
