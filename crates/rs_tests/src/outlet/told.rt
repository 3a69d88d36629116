//! How many octets clients are told of the same routes, by the mode that they speak and by the longest message that they take; and
//! of 100,000 routes at once.

use super::{CLIENT, Exchange, change, decided, drain, is_drained, let_go};
use crate::common::is_of;
use rs_attrs::Mode;
use rs_open::Limit;
use rs_outlet::Outlet;
use std::process::Abort;

/// How many octets a client of this mode is told that takes messages of this length.
///
/// 3,000 prefixes of 4 octets, 1,500 for each of two sets of attributes: two messages of up to 1,013 prefixes for each set, or one. A
/// message has 23 octets more, and 20 or 18 of attributes.
static LENGTHS: [(Mode, Limit, usize); 4] = [
    (Mode::Four, Limit::Short, 12_000 + 4 * 43),
    (Mode::Four, Limit::Long, 12_000 + 2 * 43),
    (Mode::Two, Limit::Short, 12_000 + 4 * 41),
    (Mode::Two, Limit::Long, 12_000 + 2 * 41),
];

/// A client is told so many octets in its first turn.
fn is_told(rt: &impl Abort, exchange: &mut Exchange, (mode, limit, want): (Mode, Limit, usize)) {
    let mut outlet = Outlet::new(exchange.alloc, CLIENT, true).expect(rt, "an outlet");
    outlet.up(mode, limit);
    exchange.turn(rt, &mut outlet).expect(rt, "a turn");
    let octets = drain(rt, exchange, &mut outlet);
    is_of(rt, octets.len(), want, &(mode, limit));
}

#[test]
fn messages_are_as_long_as_the_client_takes(rt: HostRuntime) {
    let mut exchange = Exchange::with_routes(&rt, rt.alloc(), 3_000);
    for row in &LENGTHS {
        is_told(&rt, &mut exchange, *row);
    }
}

#[test]
fn turns_go_on_while_100_000_wait(rt: HostRuntime) {
    let (mut exchange, mut outlet) = decided(&rt, rt.alloc(), 100_000);
    change(&rt, &mut exchange, &mut outlet, 0..1_000);
    change(&rt, &mut exchange, &mut outlet, 1_000..2_000);
    // Each prefix is told once, as it is due at last: 49,000 of each of the first two sets in 49
    // messages, and the 2,000 that changed in two.
    let told = drain(&rt, &mut exchange, &mut outlet);
    is_of(&rt, told.len(), 400_000 + (49 + 49 + 2) * 43, &"all");
    is_drained(&rt, &outlet);
    let_go(exchange, outlet);
}
