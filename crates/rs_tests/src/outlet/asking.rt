//! Calls that take no memory. What counts their requests for it stands outside the program:
//! `tools/plays/without_memory.py` runs these tests, and wants none between two lines that they print.

use super::{Exchange, all, begin, change, decided, drain, is_drained, let_go, prefix, some};
use crate::common::{equals, from_here, to_here};
use rs_open::Short;
use rs_outlet::Outlet;
use std::alloc::Global;
use std::process::Abort;
use std::sync::Arc;

/// Takes the octets of one message.
fn take(exchange: &mut Exchange, outlet: &mut Outlet) {
    outlet.fill(&exchange.tables, &mut exchange.written);
    outlet.took(outlet.lent().len());
}

/// Takes all that waits, and no more than 1,000 messages.
fn take_all(exchange: &mut Exchange, outlet: &mut Outlet) {
    for _ in 0..1_000u32 {
        take(exchange, outlet);
    }
}

/// An exchange of so many routes, and the outlet of a client that was told all, in scattered order.
fn told(rt: &impl Abort, alloc: Global, count: u32) -> (Exchange, Outlet) {
    let (mut exchange, mut outlet) = decided(rt, alloc, count);
    drain(rt, &mut exchange, &mut outlet);
    (exchange, outlet)
}

#[test]
fn a_message_behind_two_turns(rt: HostRuntime) {
    let (mut exchange, mut outlet) = told(&rt, rt.alloc(), 60);
    change(&rt, &mut exchange, &mut outlet, 0..30);
    change(&rt, &mut exchange, &mut outlet, 30..60);
    from_here(&rt);
    begin(&mut exchange, &mut outlet);
    to_here(&rt);
    take(&mut exchange, &mut outlet);
    is_drained(&rt, &outlet);
    let_go(exchange, outlet);
}

#[test]
fn messages_of_a_client_that_takes_one_behind_each_turn(rt: HostRuntime) {
    let (mut exchange, mut outlet) = told(&rt, rt.alloc(), 6_000);
    // A message has up to 1,013 of these prefixes.
    for turn in 0..4u32 {
        let first = turn * 1_500;
        change(&rt, &mut exchange, &mut outlet, first..first + 1_500);
        from_here(&rt);
        take(&mut exchange, &mut outlet);
        to_here(&rt);
    }
    let_go(exchange, outlet);
}

#[test]
fn a_message_of_a_client_that_took_none(rt: HostRuntime) {
    let (mut exchange, mut outlet) = told(&rt, rt.alloc(), 6_000);
    for turn in 0..6u32 {
        let first = turn * 1_000;
        change(&rt, &mut exchange, &mut outlet, first..first + 1_000);
    }
    from_here(&rt);
    take_all(&mut exchange, &mut outlet);
    to_here(&rt);
    is_drained(&rt, &outlet);
    let_go(exchange, outlet);
}

#[test]
fn all_again(rt: HostRuntime) {
    let (mut exchange, mut outlet) = told(&rt, rt.alloc(), 3_000);
    from_here(&rt);
    outlet.again();
    take(&mut exchange, &mut outlet);
    outlet.again();
    to_here(&rt);
    change(&rt, &mut exchange, &mut outlet, 500..1_000);
    from_here(&rt);
    outlet.again();
    take_all(&mut exchange, &mut outlet);
    to_here(&rt);
    is_drained(&rt, &outlet);
    let_go(exchange, outlet);
}

#[test]
fn touches_and_the_end_of_a_session(rt: HostRuntime) {
    let (mut exchange, mut outlet) = told(&rt, rt.alloc(), 3_000);
    from_here(&rt);
    outlet.say_keepalive();
    take(&mut exchange, &mut outlet);
    exchange.touch(&rt, &mut outlet, 0..3_000, 1);
    exchange.touch(&rt, &mut outlet, 0..3_000, 1);
    outlet.touch_all();
    outlet.finish(Some(Short::Keepalive));
    take(&mut exchange, &mut outlet);
    outlet.clear();
    to_here(&rt);
    let_go(exchange, outlet);
}

/// How many owners the attributes have that the client is due for the first prefix.
fn owners(rt: &impl Abort, exchange: &Exchange, outlet: &Outlet) -> usize {
    let attrs = outlet.route(&prefix(rt, 0), &exchange.tables);
    Arc::strong_count(attrs.expect(rt, "a route"))
}

/// The first prefix has the attributes of 60 rows, which turns wrote anew, and which are given up.
#[test]
fn rows_of_another_in_place_of_the_same(rt: HostRuntime) {
    let (mut exchange, mut first) = decided(&rt, rt.alloc(), 60);
    let mut alike = exchange.outlet(&rt);
    exchange.decides(&rt, &mut alike, all(60));
    change(&rt, &mut exchange, &mut first, 0..60);
    exchange.touch(&rt, &mut alike, 0..60, 1);
    exchange.decides(&rt, &mut alike, some(60));
    first.settle();
    let before = owners(&rt, &exchange, &alike);
    from_here(&rt);
    alike.adopt(&first);
    to_here(&rt);
    let given_up = before.saturating_sub(owners(&rt, &exchange, &alike));
    equals(&rt, given_up, 60);
    let_go(exchange, first);
}
