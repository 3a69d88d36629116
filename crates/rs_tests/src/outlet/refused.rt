//! A turn that memory is refused to. What refuses it stands outside the program:
//! `tools/plays/without_memory.py` runs this test once for each request for memory, and refuses that
//! one.

use super::{Exchange, SENDER, all, begin, drain, let_go, prefix, some};
use crate::common::{equals, is_so, push, say};
use rs_octets::Prefix;
use rs_outlet::{Last, Outlet};
use std::process::Abort;

/// How many prefixes the sender announced before the first turn, and how many before the second.
const BEFORE: u32 = 600;

const NOW: u32 = 900;

impl Exchange {
    /// The sender withdraws a prefix. Answers whether it had announced it.
    fn withdraw(&mut self, rt: &impl Abort, prefix: Prefix) -> bool {
        assert!(rt; SENDER < self.tables.clients());
        self.tables.withdraw(SENDER, prefix)
    }
}

/// The sender withdraws 50 prefixes from this one on.
fn withdraw(rt: &impl Abort, exchange: &mut Exchange, first: u32) {
    for n in first..first.saturating_add(50) {
        is_so(rt, exchange.withdraw(rt, prefix(rt, n)), "it was announced");
    }
}

/// An outlet that told some of what was due at its first turn; the rest waits. 500 prefixes are
/// touched: some were withdrawn since, some are due as before, and some are new.
fn half_told(rt: &impl Abort, before: &mut Exchange, now: &Exchange) -> Outlet {
    let mut outlet = before.outlet(rt);
    before.decides(rt, &mut outlet, all(600));
    begin(before, &mut outlet);
    outlet.took(outlet.lent().len());
    begin(before, &mut outlet);
    now.touch(rt, &mut outlet, BEFORE - 200..BEFORE + 300, 1);
    outlet
}

/// The prefixes that an outlet has a route for.
fn listed(rt: &impl Abort, exchange: &Exchange, outlet: &Outlet) -> Vec<Prefix> {
    let mut prefixes = Vec::new(exchange.alloc);
    for (prefix, _) in outlet.routes(&exchange.tables).take(10_000) {
        push(rt, &mut prefixes, prefix);
    }
    prefixes
}

/// Two outlets have answered the same, and have and tell the same routes.
fn are_alike(rt: &impl Abort, exchange: &mut Exchange, one: &mut Outlet, other: &mut Outlet) {
    equals(rt, one.last(), other.last());
    let of_one = listed(rt, exchange, one);
    let of_other = listed(rt, exchange, other);
    equals(rt, of_one, of_other);
    let told_one = drain(rt, exchange, one);
    let told_other = drain(rt, exchange, other);
    equals(rt, told_one, told_other);
}

#[test]
fn a_refused_turn_changes_nothing_but_last(rt: HostRuntime) {
    let mut before = Exchange::with_routes(&rt, rt.alloc(), BEFORE);
    let mut now = Exchange::with_routes(&rt, rt.alloc(), NOW);
    withdraw(&rt, &mut now, BEFORE - 200);
    let mut other = half_told(&rt, &mut before, &now);
    let mut outlet = half_told(&rt, &mut before, &now);
    let routes = listed(&rt, &now, &outlet);
    now.decides(&rt, &mut other, some(500));
    if now.turn(&rt, &mut outlet).is_err() {
        say(&rt, "memory was refused to a turn");
        equals(&rt, outlet.last(), Last::Refused);
        equals(&rt, listed(&rt, &now, &outlet), routes);
        equals(&rt, outlet.lent(), other.lent());
        now.decides(&rt, &mut outlet, some(500));
    }
    are_alike(&rt, &mut now, &mut outlet, &mut other);
    let_go(before, other);
    let_go(now, outlet);
}
