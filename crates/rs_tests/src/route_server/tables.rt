//! What is asked of the tables: of who announced what, and of what is due. What members are sent of each other's routes is in
//! recorded sessions (`examples/sessions`): `first_route`, `origin_out_of_range_withdraws`, `flap_between_takings`,
//! `lost_in_mid_message`, `new_route_in_place_of_the_old`, `route_refresh`, `rules_replaced`, `hold_timer_runs_out`.

use crate::common::{equals, is_so, prefix};
use crate::route_server::exchange::{A, B, Exchange, NO_ROUTE, ROUTE, ROUTE_B, text};
use rs_outlet::{Last, Turned};
use std::process::Abort;

/// The bits of 198.51.100.0/24, which a announces, and of 203.0.113.0/24 of b.
const OF_A: u32 = 0xc633_6400;

const OF_B: u32 = 0xcb00_7100;

/// How many routes a client is known to hold and how many are due to it, and the first of both from a prefix of 24 bits on.
fn tables_are(
    rt: &impl Abort,
    exchange: &Exchange,
    (c, from): (usize, u32),
    counts: (usize, usize),
    first: (Option<u32>, Option<u32>),
) {
    let core = &exchange.core;
    assert!(rt; c < core.clients());
    equals(rt, (core.received_count(c), core.routes_count(c)), counts);
    let from = prefix(rt, from, 24);
    let mut bits = (None, None);
    for (prefix, _) in core.received_from(c, from).take(1) {
        bits.0 = Some(prefix.bits());
    }
    for (prefix, _) in core.routes_from(c, from).take(1) {
        bits.1 = Some(prefix.bits());
    }
    equals(rt, bits, first);
}

#[test]
fn routes_from_a_prefix_on(rt: HostRuntime) {
    let mut exchange = Exchange::with_a_route(&rt, rt.alloc(), "");
    exchange.hear_in_turn(&rt, B, ROUTE_B);
    let (of_a, of_b) = (Some(OF_A), Some(OF_B));
    tables_are(&rt, &exchange, (A, OF_A), (1, 1), (of_a, of_b));
    tables_are(&rt, &exchange, (A, OF_B), (1, 1), (None, of_b));
    tables_are(&rt, &exchange, (B, OF_B), (1, 1), (of_b, None));
    exchange.hear_in_turn(&rt, A, NO_ROUTE);
    tables_are(&rt, &exchange, (A, OF_A), (0, 1), (None, of_b));
    // The last turn decided one prefix, which was withdrawn before b was sent it.
    let one = Turned {
        decided: 1,
        whole: false,
    };
    assert!(&rt; B < exchange.core.clients());
    equals(&rt, exchange.core.last(B), Last::Done(one));
    is_so(&rt, exchange.core.is_drained(B), "nothing waits");
    exchange.let_go();
}

/// Behind a message of a so many of its routes are dropped by its own import rules.
fn drops_behind(rt: &impl Abort, exchange: &mut Exchange, digits: &str, of_a: usize) {
    exchange.hear_in_turn(rt, A, digits);
    equals(rt, exchange.core.dropped_count(A), of_a);
}

/// The import rules of a are replaced by these, by which so many of its routes are dropped.
fn drops_by(rt: &impl Abort, exchange: &mut Exchange, rules: &str, of_a: usize) {
    let text = text(rt, exchange.alloc, "", rules, "");
    is_so(rt, exchange.core.rules(text.as_bytes()).is_ok(), "good");
    equals(rt, exchange.core.dropped_count(A), of_a);
}

#[test]
fn routes_that_import_rules_drop_are_counted(rt: HostRuntime) {
    let drop_all = "import = [{ action = \"drop\" }]";
    let mut exchange = Exchange::with_a_route(&rt, rt.alloc(), "");
    exchange.hear_in_turn(&rt, B, ROUTE_B);
    equals(&rt, exchange.core.dropped_count(A), 0);
    drops_by(&rt, &mut exchange, drop_all, 1);
    for (digits, of_a) in [(ROUTE, 1), (NO_ROUTE, 0), (ROUTE, 1)] {
        drops_behind(&rt, &mut exchange, digits, of_a);
    }
    drops_by(&rt, &mut exchange, "", 0);
    drops_by(&rt, &mut exchange, drop_all, 1);
    equals(&rt, exchange.core.dropped_count(B), 0);
    exchange.lose(&rt, A);
    equals(&rt, exchange.core.dropped_count(A), 0);
    exchange.let_go();
}

#[test]
fn who_holds_a_prefix(rt: HostRuntime) {
    let exchange = Exchange::with_a_route(&rt, rt.alloc(), "");
    let mut holders = 0u32;
    for candidate in exchange.core.candidates_at(prefix(&rt, OF_A, 24)) {
        holders = holders.saturating_add(1);
        // by the OPEN and the route of a
        let found = (candidate.client, candidate.identifier);
        equals(&rt, found, (A, 0xc000_020b));
        equals(&rt, candidate.attrs.next_hop(), Some(0xc000_020b));
    }
    equals(&rt, holders, 1);
    equals(&rt, exchange.core.config().server_as(), 64_500);
    exchange.let_go();
}
