//! A member that announces and withdraws ever new prefixes.

use crate::common::{ROUTE, equals, is_so, put};
use crate::route_server::exchange::{A, B, Exchange};
use std::alloc::Global;
use std::process::Abort;

/// How many prefixes one of its UPDATEs names.
const EACH: u32 = 1000;

/// The front of an UPDATE that announces so many prefixes of 24 bits, before 20 octets of attributes, and of one that withdraws
/// them: length, type, octets of withdrawn routes, and octets of attributes.
const ANNOUNCES: [u8; 7] = [0x0f, 0xcb, 2, 0, 0, 0, 20];

const WITHDRAWS: [u8; 5] = [0x0f, 0xb7, 2, 0x0f, 0xa0];

/// Puts the prefixes of an UPDATE, from a number on.
fn put_prefixes(rt: &impl Abort, octets: &mut Vec<u8>, first: u32) {
    for n in first..first.saturating_add(EACH) {
        let [_, a, b, c] = n.to_be_bytes();
        put(rt, octets, &[24, a, b, c]);
    }
}

/// An UPDATE that announces prefixes from a number on, and one that withdraws them.
fn updates(rt: &impl Abort, alloc: Global, first: u32) -> [Vec<u8>; 2] {
    let mut announced = Vec::new(alloc);
    put(rt, &mut announced, &[0xff; 16]);
    put(rt, &mut announced, &ANNOUNCES);
    put(rt, &mut announced, &ROUTE);
    put_prefixes(rt, &mut announced, first);
    let mut withdrawn = Vec::new(alloc);
    put(rt, &mut withdrawn, &[0xff; 16]);
    put(rt, &mut withdrawn, &WITHDRAWS);
    put_prefixes(rt, &mut withdrawn, first);
    put(rt, &mut withdrawn, &[0, 0]);
    [announced, withdrawn]
}

/// The member announces prefixes from a number on, of which the other is told, and withdraws them. All have one set of attributes.
fn cycle(rt: &impl Abort, exchange: &mut Exchange, first: u32) {
    let [announced, withdrawn] = updates(rt, exchange.alloc, first);
    exchange.hear_octets(rt, A, &announced);
    exchange.core.turn();
    is_so(rt, !exchange.sent(rt, B, 5_000).is_empty(), "b is told");
    equals(rt, exchange.core.attribute_sets(), 1);
    exchange.hear_octets(rt, A, &withdrawn);
    exchange.core.turn();
    exchange.sent(rt, B, 5_000);
    equals(rt, exchange.core.attribute_sets(), 0);
}

#[test]
fn cycled_prefixes_make_no_table_grow(rt: HostRuntime) {
    let mut exchange = Exchange::of_both(&rt, rt.alloc(), "");
    for round in 0..20u32 {
        let first = round.wrapping_mul(EACH).wrapping_add(0x0a_0000);
        cycle(&rt, &mut exchange, first);
    }
    // Two rounds' prefixes may have numbers at once: a number is given up after the turn.
    is_so(&rt, exchange.core.rows() <= 2 * EACH as usize, "few rows");
    assert!(&rt; A < exchange.core.clients());
    is_so(&rt, exchange.core.is_established(A), "established");
    exchange.let_go();
}

/// The member announces prefixes from a number on.
fn announce(rt: &impl Abort, exchange: &mut Exchange, first: u32) {
    let [announced, _withdrawn] = updates(rt, exchange.alloc, first);
    exchange.hear_octets(rt, A, &announced);
}

/// The member withdraws prefixes from a number on.
fn withdraw(rt: &impl Abort, exchange: &mut Exchange, first: u32) {
    let [_announced, withdrawn] = updates(rt, exchange.alloc, first);
    exchange.hear_octets(rt, A, &withdrawn);
}

/// The member announces more prefixes than one sweep goes over: six UPDATEs of them from a number on.
fn announce_many(rt: &impl Abort, exchange: &mut Exchange, first: u32) {
    for round in 0..6u32 {
        announce(rt, exchange, round.wrapping_mul(EACH).wrapping_add(first));
    }
    exchange.core.turn();
}

#[test]
fn withdrawn_prefixes_leave_their_numbers_at_the_next_turn(rt: HostRuntime) {
    let mut exchange = Exchange::of_both(&rt, rt.alloc(), "");
    announce_many(&rt, &mut exchange, 0x0a_0000);
    let rows = exchange.core.rows();
    is_so(&rt, 6 * EACH as usize <= rows, "each has a row");
    withdraw(&rt, &mut exchange, 0x0a_0000 + 5 * EACH);
    exchange.core.turn();
    announce(&rt, &mut exchange, 0x0b_0000);
    equals(&rt, exchange.core.rows(), rows);
    equals(&rt, exchange.core.prefixes(), 6 * EACH as usize);
    exchange.let_go();
}

#[test]
fn more_prefixes_than_are_listed_leave_their_numbers_within_three_turns(rt: HostRuntime) {
    let mut exchange = Exchange::of_both(&rt, rt.alloc(), "");
    announce_many(&rt, &mut exchange, 0x0a_0000);
    let rows = exchange.core.rows();
    for round in 0..6u32 {
        withdraw(
            &rt,
            &mut exchange,
            round.wrapping_mul(EACH).wrapping_add(0x0a_0000),
        );
    }
    // One sweep goes over those listed, two over all numbers.
    for _ in 0..3 {
        exchange.core.turn();
    }
    announce_many(&rt, &mut exchange, 0x0b_0000);
    equals(&rt, exchange.core.rows(), rows);
    equals(&rt, exchange.core.prefixes(), 6 * EACH as usize);
    exchange.let_go();
}
