//! Calls of the core that take no memory. What counts their requests for it stands outside the program:
//! `tools/plays/without_memory.py` runs these tests, and wants none between two lines that they print.

use crate::common::{ROUTE, from_here, put, to_here};
use crate::route_server::exchange::{A, B, Exchange, message};
use rs_core::Core;
use rs_open::ShutdownText;
use rs_session::Command;
use std::alloc::Global;
use std::process::Abort;

/// A ROUTE-REFRESH for IPv4 unicast (RFC 2918, 3).
const REFRESH: &str = "00170500010001";

/// An UPDATE of a: 30 prefixes from 10.0.`third`.0/24 to 10.29.`third`.0/24.
fn update(rt: &impl Abort, alloc: Global, third: u8) -> Vec<u8> {
    let mut octets = Vec::new(alloc);
    put(rt, &mut octets, &[0xff; 16]);
    put(rt, &mut octets, &[0, 163, 2, 0, 0, 0, 20]);
    put(rt, &mut octets, &ROUTE);
    for second in 0..30u8 {
        put(rt, &mut octets, &[24, 10, second, third]);
    }
    octets
}

/// A member announces 30 prefixes, and what is touched is decided.
fn announce(rt: &impl Abort, exchange: &mut Exchange, third: u8) {
    let octets = update(rt, exchange.alloc, third);
    exchange.hear_octets(rt, A, &octets);
    exchange.core.turn();
}

/// A client's link takes all that it is lent next.
fn take(rt: &impl Abort, core: &mut Core, c: usize) {
    assert!(rt; c < core.clients());
    let count = core.writable(c).len();
    core.took(c, count);
}

#[test]
fn what_is_lent_behind_two_turns(rt: HostRuntime) {
    let mut exchange = Exchange::of_both(&rt, rt.alloc(), "");
    announce(&rt, &mut exchange, 0);
    announce(&rt, &mut exchange, 1);
    from_here(&rt);
    take(&rt, &mut exchange.core, B);
    to_here(&rt);
    exchange.sends(&rt, B, &[]);
    exchange.let_go();
}

#[test]
fn a_refresh(rt: HostRuntime) {
    let mut exchange = Exchange::of_both(&rt, rt.alloc(), "refresh = true");
    for third in 0..4u8 {
        announce(&rt, &mut exchange, third);
    }
    exchange.sent(&rt, B, 5_000);
    let refresh = message(&rt, rt.alloc(), REFRESH);
    from_here(&rt);
    exchange.hear_octets(&rt, B, &refresh);
    take(&rt, &mut exchange.core, B);
    to_here(&rt);
    exchange.let_go();
}

#[test]
fn how_a_session_begins_and_ends(rt: HostRuntime) {
    let mut exchange = Exchange::of_both(&rt, rt.alloc(), "");
    announce(&rt, &mut exchange, 0);
    announce(&rt, &mut exchange, 1);
    from_here(&rt);
    exchange.lose(&rt, B);
    exchange.open(&rt, B);
    take(&rt, &mut exchange.core, B);
    exchange.command(&rt, B, Command::Stop(ShutdownText::NONE));
    exchange.command(&rt, A, Command::Refresh);
    exchange.core.moment(1_000);
    take(&rt, &mut exchange.core, A);
    exchange.lose(&rt, A);
    to_here(&rt);
    exchange.let_go();
}
