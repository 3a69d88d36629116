//! Turns by workers.

use crate::common::{equals, is_so};
use crate::route_server::exchange::{A, B, Exchange, ROUTE};
use crate::workers::Both;
use rs_workers::{Free, Gate};
use std::alloc::Global;
use std::process::Abort;
use std::sync::Wait;
use std::thread::Threads;

/// An exchange to which a announces its route, turned by so many workers; b is sent it.
fn turns_by<R: Threads + Wait + Sync + Abort, G: Gate>(
    rt: &R,
    alloc: Global,
    workers: usize,
    gate: &G,
) {
    let mut exchange = Exchange::of_both(rt, alloc, "");
    exchange.hear(rt, A, ROUTE);
    assert!(rt; 0 < workers && workers <= 16);
    let turns = exchange.core.turn_with(rt, workers, gate);
    equals(rt, turns.done, 2);
    equals(rt, turns.refused, 0);
    exchange.sends(rt, B, &[ROUTE]);
    exchange.let_go();
}

#[test]
fn both_shares_run(rt: HostRuntime) {
    let gate = Both::new();
    turns_by(&rt, rt.alloc(), 2, &gate);
    is_so(&rt, !gate.has_failed(), "both run");
}

#[test]
fn many_workers_turn(rt: HostRuntime) {
    turns_by(&rt, rt.alloc(), 2, &Free);
    turns_by(&rt, rt.alloc(), 16, &Free);
}
