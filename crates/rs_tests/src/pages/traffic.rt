//! What is counted of members' traffic and of turns.

use crate::common::equals;
use crate::pages::{let_go, says_times, server};
use rs_page_parts::traffic::Traffic;
use rs_page_rows::counts::{Counts, Direction};

/// OPEN, KEEPALIVE, UPDATE without routes, UPDATE that withdraws 192.0.2.0/24, KEEPALIVE, and the first UPDATE again
/// (RFC 4271, 4.1 to 4.4).
static SESSION: [u8; 140] = [
    0xff, 0xff, 0xff, 0xff, 0xff, 0xff, 0xff, 0xff, 0xff, 0xff, 0xff, 0xff, 0xff, 0xff, 0xff, 0xff,
    0, 29, 1, 4, 0xfb, 0xf0, 0, 90, 192, 0, 2, 11, 0, //
    0xff, 0xff, 0xff, 0xff, 0xff, 0xff, 0xff, 0xff, 0xff, 0xff, 0xff, 0xff, 0xff, 0xff, 0xff, 0xff,
    0, 19, 4, //
    0xff, 0xff, 0xff, 0xff, 0xff, 0xff, 0xff, 0xff, 0xff, 0xff, 0xff, 0xff, 0xff, 0xff, 0xff, 0xff,
    0, 23, 2, 0, 0, 0, 0, //
    0xff, 0xff, 0xff, 0xff, 0xff, 0xff, 0xff, 0xff, 0xff, 0xff, 0xff, 0xff, 0xff, 0xff, 0xff, 0xff,
    0, 27, 2, 0, 4, 24, 192, 0, 2, 0, 0, //
    0xff, 0xff, 0xff, 0xff, 0xff, 0xff, 0xff, 0xff, 0xff, 0xff, 0xff, 0xff, 0xff, 0xff, 0xff, 0xff,
    0, 19, 4, //
    0xff, 0xff, 0xff, 0xff, 0xff, 0xff, 0xff, 0xff, 0xff, 0xff, 0xff, 0xff, 0xff, 0xff, 0xff, 0xff,
    0, 23, 2, 0, 0, 0, 0,
];

/// Counts what happened where alpha said all that, beta was sent the first of its octets, and turns took 1 ms, a
/// little more, and 3 seconds.
pub(super) fn count(counts: &mut Counts) {
    let front = SESSION.get(..100).unwrap_or(&[]);
    counts.begin(0);
    counts.begin(1);
    counts.pass(Direction::Heard, 0, &SESSION);
    counts.pass(Direction::Sent, 1, front);
    counts.turn(1_000);
    counts.turn(1_001);
    counts.turn(3_000_000);
    counts.refuse_memory();
    counts.refuse_stranger();
    counts.refuse_stranger();
}

/// What /metrics says of it, each once.
static COUNTED: [&str; 24] = [
    "# TYPE rs_prefixes gauge\nrs_prefixes 2\n",
    "# TYPE rs_attribute_sets gauge\nrs_attribute_sets 1\n",
    "rs_member_waiting_prefixes{member=\"alpha\"} 0\n",
    "rs_member_waiting_prefixes{member=\"beta\"} 1\n",
    "rs_member_refused_prefixes{member=\"alpha\"} 0\n",
    "# TYPE rs_member_received_updates_total counter\n",
    "rs_member_received_updates_total{member=\"alpha\"} 3\n",
    "rs_member_received_updates_total{member=\"beta\"} 0\n",
    "rs_member_sent_updates_total{member=\"alpha\"} 0\n",
    "rs_member_sent_updates_total{member=\"beta\"} 2\n",
    "rs_member_received_bytes_total{member=\"alpha\"} 140\n",
    "rs_member_sent_bytes_total{member=\"alpha\"} 0\n",
    "rs_member_sent_bytes_total{member=\"beta\"} 100\n",
    "# TYPE rs_memory_refused_total counter\nrs_memory_refused_total 1\n",
    "rs_stranger_connections_total 2\n",
    "# TYPE rs_turn_duration_seconds histogram\n",
    "rs_turn_duration_seconds_bucket{le=\"0.001\"} 1\n",
    "rs_turn_duration_seconds_bucket{le=\"0.0025\"} 2\n",
    "rs_turn_duration_seconds_bucket{le=\"0.25\"} 2\n",
    "rs_turn_duration_seconds_bucket{le=\"1\"} 2\n",
    "rs_turn_duration_seconds_bucket{le=\"2.5\"} 2\n",
    "rs_turn_duration_seconds_bucket{le=\"+Inf\"} 3\n",
    "rs_turn_duration_seconds_sum 3.002001\n",
    "rs_turn_duration_seconds_count 3\n",
];

#[test]
fn counts_are_told(rt: HostRuntime) {
    let tables = server(&rt, rt.alloc(), 2);
    for said in &COUNTED {
        says_times(&rt, rt.alloc(), &tables, "/metrics", said, 1);
    }
    let_go(tables);
}

/// The session's UPDATEs are counted octet by octet, and none behind a refused header.
#[test]
fn updates_are_counted_in_pieces(rt: HostRuntime) {
    let mut traffic = Traffic::new();
    for octet in &SESSION {
        traffic.take(&[*octet]);
    }
    equals(&rt, (traffic.octets(), traffic.updates()), (140, 3));
    traffic.take(&[0; 19]);
    traffic.take(&SESSION);
    equals(&rt, (traffic.octets(), traffic.updates()), (299, 3));
    let mut next = traffic.begun();
    next.take(&SESSION);
    equals(&rt, (next.octets(), next.updates()), (439, 6));
}
