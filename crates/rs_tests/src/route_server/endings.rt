//! Why sessions end, and which UPDATEs are not taken as they come.

use crate::common::{equals, is_of};
use crate::route_server::exchange::{
    A, B, BAD_ROUTE, Exchange, IPV6_ROUTE, NO_NEXT_HOP, NO_ROUTE, OPEN_A, OPEN_B, ROUTE,
};
use rs_attrs::{AttributeFault, Cause, Faulted};
use rs_core::{Ending, Notice};
use rs_open::{Short, ShutdownText};
use rs_session::Command;
use std::process::Abort;

/// The last session of a client ended so, or none has ended.
fn has_ended(rt: &impl Abort, exchange: &Exchange, c: usize, want: Option<Ending>) {
    assert!(rt; c < exchange.core.clients());
    is_of(rt, exchange.core.ending(c), want, &("client", c));
}

#[test]
fn sessions_end_by_notifications_of_ours(rt: HostRuntime) {
    let mut exchange = Exchange::of_both(&rt, rt.alloc(), "");
    has_ended(&rt, &exchange, A, None);
    // Finite State Machine Error (RFC 4271, 6.6); the connection is lost after the end
    exchange.hear(&rt, A, OPEN_A);
    exchange.lose(&rt, A);
    has_ended(&rt, &exchange, A, Some(Ending::Said(Short::note(5, 0))));
    // Bad Message Type, with the type as its data (RFC 4271, 6.1)
    exchange.hear(&rt, B, "001309");
    let unknown = Ending::Said(Short::note_1(1, 3, 9));
    has_ended(&rt, &exchange, B, Some(unknown));
    // Administrative Shutdown with a text (RFC 9003, 2)
    let text = ShutdownText::of(b"back at 9").expect(&rt, "a text");
    exchange.come_up(&rt, A, OPEN_A);
    exchange.command(&rt, A, Command::Stop(text));
    has_ended(&rt, &exchange, A, Some(Ending::Said(Short::shutdown(text))));
    exchange.let_go();
}

#[test]
fn sessions_end_otherwise(rt: HostRuntime) {
    let mut exchange = Exchange::of_both(&rt, rt.alloc(), "");
    // Administrative Shutdown, with a text of two octets behind its length (RFC 9003, 2)
    exchange.hear(&rt, A, "0018030602026f6b");
    let mut data = [0; 64];
    data[..3].copy_from_slice(&[2, 0x6f, 0x6b]);
    let shutdown = Ending::Heard(Notice {
        code: 6,
        sub: 2,
        data,
        count: 3,
    });
    has_ended(&rt, &exchange, A, Some(shutdown));
    exchange.lose(&rt, B);
    has_ended(&rt, &exchange, B, Some(Ending::Lost));
    exchange.come_up(&rt, B, OPEN_B);
    exchange.core.moment(89);
    has_ended(&rt, &exchange, B, Some(Ending::Lost));
    exchange.core.moment(90);
    has_ended(&rt, &exchange, B, Some(Ending::HoldTimer));
    exchange.let_go();
}

/// Messages of a; how many of its UPDATEs were at fault then, why the last one was, and how many had routes in MP_REACH_NLRI.
static HEARD: [(&str, u64, Option<(u8, Cause)>, u64); 7] = [
    (BAD_ROUTE, 1, Some((1, Cause::Value)), 0),
    (ROUTE, 1, Some((1, Cause::Value)), 0),
    (NO_NEXT_HOP, 2, Some((3, Cause::Missing)), 0),
    // What only withdraws misses nothing.
    (NO_ROUTE, 2, Some((3, Cause::Missing)), 0),
    (IPV6_ROUTE, 2, Some((3, Cause::Missing)), 1),
    (IPV6_ROUTE, 2, Some((3, Cause::Missing)), 2),
    (BAD_ROUTE, 3, Some((1, Cause::Value)), 2),
];

/// So many UPDATEs of a were at fault, the last one so, and so many had routes in MP_REACH_NLRI.
fn has_faulted(
    rt: &impl Abort,
    exchange: &Exchange,
    count: u64,
    last: Option<(u8, Cause)>,
    mp_reach: u64,
) {
    assert!(rt; A < exchange.core.clients());
    let faulted = exchange.core.faulted(A);
    equals(rt, (faulted.count, faulted.mp_reach), (count, mp_reach));
    let want = Faulted {
        withdraw: last.map(|(kind, cause)| AttributeFault { kind, cause }),
        discard: None,
        mp_reach: false,
    };
    equals(rt, faulted.last, want);
}

/// They are counted over all sessions.
#[test]
fn updates_at_fault_are_counted(rt: HostRuntime) {
    let mut exchange = Exchange::of_both(&rt, rt.alloc(), "");
    for (digits, count, last, mp_reach) in &HEARD {
        exchange.hear(&rt, A, digits);
        has_faulted(&rt, &exchange, *count, *last, *mp_reach);
    }
    exchange.lose(&rt, A);
    exchange.come_up(&rt, A, OPEN_A);
    exchange.hear(&rt, A, BAD_ROUTE);
    has_faulted(&rt, &exchange, 4, Some((1, Cause::Value)), 2);
    exchange.let_go();
}
