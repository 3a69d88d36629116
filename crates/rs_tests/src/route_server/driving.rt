//! A route server that is driven by a link in memory.

use crate::common::{is_so, put};
use crate::route_server::exchange::{
    A, B, KEEPALIVE, OPEN_A, OPEN_B, OPEN_SERVER, ROUTE, server, text,
};
use crate::route_server::link::{Said, Tape};
use crate::workers::Both;
use rs_core::{Core, Event, drive, drive_with};
use rs_workers::{Free, Gate};
use std::alloc::Global;
use std::process::Abort;
use std::sync::Wait;
use std::thread::Threads;

/// A link by which both members come up, a announces its route, and what is touched is decided; b has room for a part of it, and then for all.
fn with_a_route(rt: &impl Abort, alloc: Global) -> Tape {
    let mut link = Tape::new(alloc);
    link.come_up(rt, A, OPEN_A);
    link.come_up(rt, B, OPEN_B);
    link.hear(rt, A, ROUTE);
    link.add(rt, Event::Turn);
    link.add(rt, Event::Room(B, 20));
    link.add(rt, Event::Room(B, 5_000));
    link
}

/// Lets both go in one call, which is one step of a test, and not one for each of their lists.
fn let_go(_core: Core, _link: Tape) {}

/// What a link is told where a route goes over it, by the octets of our OPEN, of KEEPALIVEs and of the UPDATE in two parts.
static OF_A_ROUTE: [Said; 8] = [
    Said::Begin(A),
    Said::Took(A, 37),
    Said::Took(A, 19),
    Said::Begin(B),
    Said::Took(B, 37),
    Said::Took(B, 19),
    Said::Took(B, 20),
    Said::Took(B, 27),
];

#[test]
fn a_route_goes_over_a_link(rt: HostRuntime) {
    let mut link = with_a_route(&rt, rt.alloc());
    let mut core = server(&rt, rt.alloc(), "", "");
    drive(&rt, &mut core, &mut link);
    link.was_told(&rt, &OF_A_ROUTE);
    link.was_sent(&rt, A, &[OPEN_SERVER, KEEPALIVE]);
    link.was_sent(&rt, B, &[OPEN_SERVER, KEEPALIVE, ROUTE]);
    is_so(&rt, !link.is_full, "memory for the link");
    let_go(core, link);
}

/// What a link is told of ends and rules.
static OF_ENDS_AND_RULES: [Said; 8] = [
    Said::Begin(A),
    Said::Took(A, 37),
    Said::Took(A, 19),
    Said::Busy(A),
    Said::Ruled(true),
    Said::Took(A, 20),
    Said::Took(A, 1),
    Said::End(A),
];

#[test]
fn a_link_is_told_of_ends_and_rules(rt: HostRuntime) {
    let mut link = Tape::new(rt.alloc());
    link.come_up(&rt, A, OPEN_A);
    link.add(&rt, Event::Opened(A));
    let rules = text(&rt, rt.alloc(), "", "", "export = [{ action = \"drop\" }]");
    put(&rt, &mut link.text, rules.as_bytes());
    link.add(&rt, Event::Rules);
    // an OPEN is not expected any more (RFC 4271, 6.6)
    link.hear(&rt, A, OPEN_A);
    link.add(&rt, Event::Room(A, 20));
    link.add(&rt, Event::Room(A, 5_000));
    let mut core = server(&rt, rt.alloc(), "", "");
    drive(&rt, &mut core, &mut link);
    link.was_told(&rt, &OF_ENDS_AND_RULES);
    let_go(core, link);
}

/// a's route goes over a link to b with turns by so many workers.
fn goes_by<R: Threads + Wait + Sync + Abort, G: Gate>(
    rt: &R,
    alloc: Global,
    workers: usize,
    gate: &G,
) {
    let mut link = with_a_route(rt, alloc);
    let mut core = server(rt, alloc, "", "");
    assert!(rt; 0 < workers && workers <= 16);
    drive_with(rt, workers, gate, &mut core, &mut link);
    link.was_sent(rt, B, &[OPEN_SERVER, KEEPALIVE, ROUTE]);
    let_go(core, link);
}

#[test]
fn both_shares_run_by_a_link(rt: HostRuntime) {
    let gate = Both::new();
    goes_by(&rt, rt.alloc(), 2, &gate);
    is_so(&rt, !gate.has_failed(), "both run");
}

#[test]
fn many_workers_drive_a_link(rt: HostRuntime) {
    goes_by(&rt, rt.alloc(), 2, &Free);
    goes_by(&rt, rt.alloc(), 16, &Free);
}
