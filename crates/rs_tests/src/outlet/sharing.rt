//! Outlets that are due the same have one copy of their rows: by blocks that turns wrote, or that one lends to the next.

use super::alike::{
    SETS, STRIPPED, announce, attrs, have_owners, host_of, turn_three, turned, turned_beside,
    waiting,
};
use super::{CLIENT, Exchange, SENDER, decided, drain, let_go, prefix, some};
use crate::common::{equals, is_of};
use rs_attrs::Attrs;
use rs_outlet::Outlet;
use std::process::Abort;
use std::sync::Arc;

/// Outlets that have the same rows share them, and one that has others keeps its own: of each set one has two rows then.
#[test]
fn outlets_share_the_same_rows_alone(rt: HostRuntime) {
    let mut exchange = Exchange::of(&rt, rt.alloc(), STRIPPED);
    let mut first = waiting(&rt, &exchange, CLIENT);
    let mut alike = waiting(&rt, &exchange, CLIENT + 1);
    let mut other = waiting(&rt, &exchange, CLIENT + 2);
    announce(&rt, &mut exchange, SETS, 2, false);
    let count = u32::from(SETS) * 2;
    turn_three(&rt, &exchange, count, &mut first, &mut alike, &mut other);
    share_rows(&mut first, &mut alike);
    other.adopt(&first);
    other.settle();
    have_owners(&rt, &exchange, &first, SETS, 2);
    have_owners(&rt, &exchange, &alike, SETS, 2);
    have_owners(&rt, &exchange, &other, SETS, 2);
    let_go(exchange, first);
}

/// An outlet whose session comes up takes the blocks that another lends where they have just what is due to it, and no others.
#[test]
fn lent_blocks_are_taken_where_they_have_what_is_due(rt: HostRuntime) {
    let mut exchange = Exchange::of(&rt, rt.alloc(), STRIPPED);
    announce(&rt, &mut exchange, SETS, 2, false);
    let mut handover = exchange.handover();
    let first = turned(&rt, &exchange, CLIENT, &mut handover);
    let alike = turned_beside(&rt, &exchange, CLIENT + 1, &first, &mut handover);
    let other = turned_beside(&rt, &exchange, CLIENT + 2, &first, &mut handover);
    drop(handover);
    have_owners(&rt, &exchange, &first, SETS, 2);
    have_owners(&rt, &exchange, &alike, SETS, 2);
    have_owners(&rt, &exchange, &other, SETS, 2);
    let_go(exchange, first);
}

/// What one of two outlets that share rows is due later, the other is not.
#[test]
fn shared_rows_are_written_apart(rt: HostRuntime) {
    let mut exchange = Exchange::of(&rt, rt.alloc(), STRIPPED);
    announce(&rt, &mut exchange, SETS, 2, false);
    let mut handover = exchange.handover();
    let mut first = turned(&rt, &exchange, CLIENT, &mut handover);
    let alike = turned_beside(&rt, &exchange, CLIENT + 1, &first, &mut handover);
    drop(handover);
    let changed = attrs(&rt, exchange.alloc, SETS, 3);
    exchange.announce(&rt, 0, &changed);
    exchange.touch(&rt, &mut first, 0..1, 1);
    exchange.decides(&rt, &mut first, some(1));
    equals(&rt, host_of(&rt, &exchange, &first), u32::from(SETS));
    equals(&rt, host_of(&rt, &exchange, &alike), 0);
    let_go(exchange, first);
}

/// Of how many blocks a turn writes so many rows each, and whether their blocks are shared later.
static APART: [(u32, u32, bool); 5] = [
    (15, 1, false),
    (16, 1, true),
    (16, 3, true),
    (16, 4, false),
    (16, 16, false),
];

/// A turn that writes few rows of each of many blocks has them shared later. The next one that writes nothing doesn't.
#[test]
fn rows_that_lie_far_apart_are_shared_later(rt: HostRuntime) {
    for (blocks, rows, want) in &APART {
        let (mut exchange, mut outlet) = decided(&rt, rt.alloc(), 256);
        is_of(&rt, outlet.puts_off_sharing(), false, &"a whole table");
        outlet.settle();
        let changed = attrs(&rt, exchange.alloc, SETS, 3);
        for block in 0..*blocks {
            for row in 0..*rows {
                let n = block * 16 + row;
                exchange.announce(&rt, n, &changed);
                exchange.touch(&rt, &mut outlet, n..n + 1, 1);
            }
        }
        exchange.decides(&rt, &mut outlet, some((blocks * rows) as usize));
        is_of(&rt, outlet.puts_off_sharing(), *want, &(blocks, rows));
        is_of(&rt, outlet.puts_off_sharing(), false, &(blocks, rows));
        let_go(exchange, outlet);
    }
}

/// Both outlets have one copy of the rows that are the same.
fn share_rows(first: &mut Outlet, alike: &mut Outlet) {
    first.settle();
    alike.adopt(first);
    alike.settle();
}

/// Another owner of what the client is due for the first prefix.
fn owner(rt: &impl Abort, exchange: &Exchange, outlet: &Outlet) -> Arc<Attrs> {
    let attrs = outlet.route(&prefix(rt, 0), &exchange.tables);
    attrs.expect(rt, "a route").clone().expect(rt, "an owner")
}

/// The sender takes back so many prefixes.
fn take_back(rt: &impl Abort, exchange: &mut Exchange, count: u32) {
    for n in 0..count {
        assert!(rt; SENDER < exchange.tables.clients());
        exchange.tables.withdraw(SENDER, prefix(rt, n));
    }
}

/// While two members wait to be told that routes are gone, what they were told lies in the blocks that they shared: each set has
/// an owner there for each of its two prefixes, and one here. Once they are told, there is the one alone.
#[test]
fn what_two_were_told_is_there_once(rt: HostRuntime) {
    let mut exchange = Exchange::of(&rt, rt.alloc(), STRIPPED);
    announce(&rt, &mut exchange, SETS, 2, false);
    let mut handover = exchange.handover();
    let mut first = turned(&rt, &exchange, CLIENT, &mut handover);
    let mut alike = turned_beside(&rt, &exchange, CLIENT + 1, &first, &mut handover);
    drop(handover);
    let told = owner(&rt, &exchange, &first);
    drain(&rt, &mut exchange, &mut first);
    drain(&rt, &mut exchange, &mut alike);
    exchange.forget_written(&rt);
    let count = u32::from(SETS) * 2;
    exchange.touch(&rt, &mut first, 0..count, 1);
    exchange.touch(&rt, &mut alike, 0..count, 1);
    take_back(&rt, &mut exchange, count);
    exchange.decides(&rt, &mut first, some(count as usize));
    exchange.decides(&rt, &mut alike, some(count as usize));
    share_rows(&mut first, &mut alike);
    equals(&rt, Arc::strong_count(&told), 3);
    drain(&rt, &mut exchange, &mut first);
    drain(&rt, &mut exchange, &mut alike);
    equals(&rt, Arc::strong_count(&told), 1);
    drop(alike);
    let_go(exchange, first);
}
