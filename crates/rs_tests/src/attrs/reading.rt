//! What fields mean: each type with good and bad values, and the rules that join them.

use super::{octets, put, spelt};
use crate::common::{equals, is};
use rs_attrs::{Faults, Mode, read};
use std::alloc::Global;
use std::process::Abort;

// Tables, with a row in each line: a name, a field, what is kept of it as a four-octet peer spells it (`=`: just that), and
// the faults.

const WELL_KNOWN: &str = "no attribute | | |
ORIGIN 0 | 40010100 | = |
ORIGIN 2 | 40010102 | = |
ORIGIN 3 | 40010103 | | withdraw
ORIGIN of no octet | 400100 | | withdraw
ORIGIN of two octets | 4001020000 | | withdraw
ORIGIN optional | c0010100 | | withdraw
ORIGIN not transitive | 00010100 | | withdraw
ORIGIN optional, not transitive | 80010100 | | withdraw
ORIGIN partial | 60010100 | 40010100 |
ORIGIN with low flags | 4f010100 | 40010100 |
ORIGIN with a long length | 5001000100 | 40010100 |
NEXT_HOP | 400304c000020b | = |
NEXT_HOP of 3 octets | 400303c00002 | | withdraw
NEXT_HOP of 5 octets | 400305c000020b00 | | withdraw
NEXT_HOP optional | 800304c000020b | | withdraw
ATOMIC_AGGREGATE | 400600 | = |
ATOMIC_AGGREGATE of an octet | 40060100 | | discard
ATOMIC_AGGREGATE optional | c00600 | | withdraw";

const PATHS: &str = "AS_PATH of no segment | 400200 | = |
AS_PATH of a sequence | 40020602010000fbf0 | = |
AS_PATH of a set and a sequence | 40020c01010000fbf0 02010000fbf1 | = |
AS_PATH of a confederation | 40020603010000fbf0 | | withdraw
AS_PATH of a set of a confederation | 40020604010000fbf0 | | withdraw
AS_PATH of type 0 | 40020600010000fbf0 | | withdraw
AS_PATH of count 0 | 4002020200 | | withdraw
AS_PATH that runs over | 40020502010000fb | | withdraw
AS_PATH with an octet left | 40020702010000fbf002 | | withdraw
AS_PATH optional | c0020602010000fbf0 | | withdraw
AS_PATH partial | 60020602010000fbf0 | 40020602010000fbf0 |
AS4_PATH of a four-octet peer | c0110602010000fbf0 | | discard
AS4_PATH of a four-octet peer, well-known | 401100 | | discard";

const OPTIONAL: &str = "MED | 80040400000005 | = |
MED of 3 octets | 800403000000 | | withdraw
MED of 5 octets | 8004050000000005 | | withdraw
MED well-known | 40040400000005 | | withdraw
MED transitive | c0040400000005 | | withdraw
MED partial | a0040400000005 | 80040400000005 |
COMMUNITIES | c00804fbf00001 | = |
COMMUNITIES partial | e00808fbf00001fbf00002 | = |
COMMUNITIES of no octet | c00800 | | withdraw
COMMUNITIES of 3 octets | c00803fbf000 | | withdraw
COMMUNITIES not transitive | 800804fbf00001 | | withdraw
EXTENDED COMMUNITIES | c010080002fbf000000001 | = |
EXTENDED COMMUNITIES of no octet | c01000 | | withdraw
EXTENDED COMMUNITIES of 4 octets | c010040002fbf0 | | withdraw
LARGE_COMMUNITY | c0200c0000fbf00000000100000002 | = |
LARGE_COMMUNITY of no octet | c02000 | | withdraw
LARGE_COMMUNITY of 8 octets | c020080000fbf000000001 | | withdraw";

const DISCARDED: &str = "LOCAL_PREF | 400504000000c8 | | discard
LOCAL_PREF with other flags and length | c00500 | | discard
ORIGINATOR_ID | 800904c000020b | | discard
CLUSTER_LIST | 800a04c000020b | | discard
CLUSTER_LIST well-known | 400a00 | | discard
MP_REACH_NLRI | 800e00 | | discard
MP_UNREACH_NLRI | 800f00 | | discard
MP_REACH_NLRI and MP_UNREACH_NLRI | 800e00 800f00 | | discard
MP_REACH_NLRI twice | 800e00 800e00 | | mp_twice discard
MP_UNREACH_NLRI twice | 800f00 40010103 800f00 | | mp_twice withdraw discard
MP_REACH_NLRI and one cut off | 800e00 800e05 | | withdraw discard";

const AGGREGATORS: &str = "AGGREGATOR | c007080000fbf0c000020b | = |
AGGREGATOR partial | e007080000fbf0c000020b | = |
AGGREGATOR of 6 octets | c00706fbf0c000020b | | discard
AGGREGATOR not transitive | 8007080000fbf0c000020b | | withdraw
AS4_AGGREGATOR of a four-octet peer | c012080000fbf0c000020b | | discard";

const UNRECOGNIZED: &str = "unrecognized, well-known | 406300 | | unknown
unrecognized, well-known, not transitive | 006300 | | unknown
unrecognized, transitive | c06302abcd | e06302abcd |
unrecognized, not transitive | 806400 | = |
unrecognized, not transitive, partial | a06400 | = |
types 0 and 255 | 800000 80ff0101 | = |
flags alone | 40 | | withdraw
no length | 4001 | | withdraw
half of a long length | 500100 | | withdraw
a value that runs over | 40010200 | | withdraw
a rest behind an attribute | 400600 4001 | 400600 | withdraw";

const JOINED: &str = "the first MED counts | 8004040000000a 80040400000014 | 8004040000000a |
the first is discarded | 40060100 400600 | | discard
the first is malformed | 40010103 40010100 | | withdraw
a later one that runs over | 40010100 40010500 | 40010100 | withdraw
by rising type | 806400 400304c000020b 40010100 | 40010100 400304c000020b 806400 |
withdraw and unknown | 40010103 406300 400304c000020b | 400304c000020b | withdraw unknown
a route | 40010100 40020602010000fbf0 400304c000020b | = |
a route with what is left out | 40010100 40020602010000fbf0 400304c000020b 8004040000000a 80040400000014 400504000000c8 c007050000fbf0c0 | 40010100 40020602010000fbf0 400304c000020b 8004040000000a | discard
a route with unrecognized types | 40010100 40020602010000fbf0 400304c000020b c06302abcd 806400 | 40010100 40020602010000fbf0 400304c000020b e06302abcd 806400 |";

const PATHS_OF_TWO: &str = "AS_PATH in two octets | 4002040201fbf0 | 40020602010000fbf0 |
AS_PATH in two octets, of no segment | 400200 | = |
AS_PATH in two octets, of count 0 | 4002020200 | | withdraw
AS_PATH in two octets that runs over | 4002030201fb | | withdraw
AS_PATH in two octets with an octet left | 4002050201fbf002 | | withdraw
AS_PATH in two octets of a confederation | 4002040301fbf0 | | withdraw
AS4_PATH alone | c0110602010000fbf0 | |
AS4_PATH of no octet | c01100 | | discard
AS4_PATH of odd length | c01103020100 | | discard
AS4_PATH of type 5 | c0110605010000fbf0 | | discard
AS4_PATH of count 0 | c011020200 | | discard
AS4_PATH well-known | 40110602010000fbf0 | | withdraw
AS4_PATH behind the first AS | 40010100 4002080203fbf05ba05ba0 400304c000020b c0110a0202fa56ea00fa56ea01 | 40010100 40021002010000fbf00202fa56ea00fa56ea01 400304c000020b |
AS4_PATH that is longer | 40020402015ba0 c0110a0202fa56ea00fa56ea01 | 400206020100005ba0 |
AS4_PATH of the same length | 40020402015ba0 c011060201fa56ea00 | 4002060201fa56ea00 |
AS4_PATH behind a set | 40020a0102fbf0fbf102015ba0 c011060201fa56ea00 | 40021001020000fbf00000fbf10201fa56ea00 |
AS4_PATH of a confederation alone | 40020402015ba0 c011060301fa56ea00 | 400206020100005ba0 |
AS4_PATH with a confederation | 4002060202fbf05ba0 c0110c0301000000010201fa56ea00 | 40020c02010000fbf00201fa56ea00 |";

const AGGREGATORS_OF_TWO: &str =
    "AGGREGATOR in two octets | c00706fbf0c000020b | c007080000fbf0c000020b |
AGGREGATOR in two octets, of 8 octets | c007080000fbf0c000020b | | discard
AS4_AGGREGATOR alone | c01208fa56ea00c000020c | |
AS4_AGGREGATOR of 7 octets | c01207fa56ea00c00002 | | discard
AS4_AGGREGATOR well-known | 401208fa56ea00c000020c | | withdraw
AS4_AGGREGATOR for AS_TRANS | 4002040201fbf0 c007065ba0c000020b c01208fa56ea00c000020c | 40020602010000fbf0 c00708fa56ea00c000020c |
AGGREGATOR of another AS | 4002040201fbf0 c00706fbf0c000020b c01208fa56ea00c000020c | 40020602010000fbf0 c007080000fbf0c000020b |
AGGREGATOR of another AS, and AS4_PATH | 40020402015ba0 c00706fbf0c000020b c011060201fa56ea00 c01208fa56ea00c000020c | 400206020100005ba0 c007080000fbf0c000020b |
AS4_PATH of a malformed AGGREGATOR | 40020402015ba0 c00705fbf0c00002 c01208fa56ea00c000020c c011060201fa56ea00 | 4002060201fa56ea00 | discard";

fn faults_by(names: &str) -> Faults {
    Faults {
        mp_twice: names.contains("mp_twice"),
        withdraw: names.contains("withdraw"),
        unknown: names.contains("unknown"),
        discard: names.contains("discard"),
    }
}

/// A row behind its name: a field, what is kept of it, and the faults.
fn fields_of(row: &str) -> [&str; 3] {
    let mut parts = row.split('|').skip(1);
    let field = parts.next().unwrap_or("");
    let kept = parts.next().unwrap_or("");
    let kept = if kept.contains("=") { field } else { kept };
    [field, kept, parts.next().unwrap_or("")]
}

/// A field is read as what is kept of it, with these faults.
fn is_read(rt: &impl Abort, alloc: Global, mode: Mode, row: &str, fields: [&str; 3]) {
    let [field, kept, faults] = fields;
    let field = octets(rt, alloc, field);
    let wanted = octets(rt, alloc, kept);
    let parsed = read(alloc, &field, mode).expect(rt, "attributes");
    let spelt = spelt(rt, alloc, &parsed);
    is(rt, spelt, wanted, row);
    is(rt, parsed.faults, faults_by(faults), row);
}

/// The tables, of four-octet peers and then of two-octet peers.
static TABLES: [(Mode, &str); 9] = [
    (Mode::Four, WELL_KNOWN),
    (Mode::Four, PATHS),
    (Mode::Four, OPTIONAL),
    (Mode::Four, DISCARDED),
    (Mode::Four, AGGREGATORS),
    (Mode::Four, UNRECOGNIZED),
    (Mode::Four, JOINED),
    (Mode::Two, PATHS_OF_TWO),
    (Mode::Two, AGGREGATORS_OF_TWO),
];

#[test]
fn fields_are_read(rt: HostRuntime) {
    for (mode, table) in &TABLES {
        for row in table.lines() {
            is_read(&rt, rt.alloc(), *mode, row, fields_of(row));
        }
    }
}

/// An AS_PATH of three segments of 255 numbers, with its length in these two octets and these octets in
/// front of the two low ones of each number.
fn full_path(rt: &impl Abort, alloc: Global, length: [u8; 2], high: &[u8]) -> Vec<u8> {
    let mut field = Vec::new(alloc);
    put(rt, &mut field, &[0x50, 2]);
    put(rt, &mut field, &length);
    for _ in 0..3 {
        put(rt, &mut field, &[2, 255]);
        for number in 0..255u8 {
            put(rt, &mut field, high);
            put(rt, &mut field, &[0xfb, number]);
        }
    }
    field
}

#[test]
fn a_path_of_three_full_segments(rt: HostRuntime) {
    let two = full_path(&rt, rt.alloc(), [0x06, 0x00], &[]);
    let four = full_path(&rt, rt.alloc(), [0x0b, 0xfa], &[0, 0]);
    let of_two = read(rt.alloc(), &two, Mode::Two).expect(&rt, "attributes");
    let of_four = read(rt.alloc(), &four, Mode::Four).expect(&rt, "attributes");
    equals(&rt, of_two.faults, faults_by(""));
    equals(&rt, of_four.faults, faults_by(""));
    equals(&rt, of_four.attrs.path_len(), 765);
    equals(&rt, of_four.attrs, of_two.attrs);
}
