//! Turns of a small exchange by several workers, against the same turns by one. Both shares of two workers run.

ghost use Rattle.rs_workers.specs.Turned.{ArePlaced};

use crate::common::{self, ROUTE, equals, is_of, is_so, shared, text_of};
use rs_adjin::AdjIns;
use rs_attrs::{Attrs, Mode};
use rs_octets::Prefix;
use rs_open::Limit;
use rs_outlet::{Last, Outlet, Turned, Written, note_all};
use rs_policy::Config;
use rs_workers::{Free, Gate, turn_all};
use std::alloc::{AllocError, Global};
use std::process::Abort;
use std::sync::atomic::{AtomicBool, AtomicU64, Ordering};
use std::sync::{Arc, Wait};
use std::thread;
use std::thread::Threads;

/// Holds each of shares 0 and 1 until the other has entered.
#[derive(Drop)]
pub(crate) struct Both {
    entered: [AtomicBool; 2],
    failed: AtomicBool,
}

impl Both {
    pub(crate) fn new() -> Both {
        Both {
            entered: [AtomicBool::new(false), AtomicBool::new(false)],
            failed: AtomicBool::new(false),
        }
    }

    /// One of them was waited for in vain.
    pub(crate) fn has_failed(&self) -> bool {
        self.failed.load(Ordering::SeqCst)
    }
}

impl Gate for Both {
    fn enter(&self, share: usize) {
        if share >= 2 {
            return;
        }
        self.entered[share].store(true, Ordering::SeqCst);
        for _ in 0..1_000_000u32 {
            if self.entered[1 - share].load(Ordering::SeqCst) {
                return;
            }
            thread::yield_now();
        }
        self.failed.store(true, Ordering::SeqCst);
    }
}

/// Counts the entries of each share.
#[derive(Drop)]
struct Counting {
    shares: Vec<AtomicU64>,
}

impl Counting {
    /// None of 16 shares has entered.
    fn new(rt: &impl Abort, alloc: Global) -> Counting {
        let mut shares = Vec::new(alloc);
        for _ in 0..16u8 {
            shares.push(AtomicU64::new(0)).expect(rt, "a share");
        }
        Counting { shares }
    }
}

impl Gate for Counting {
    fn enter(&self, share: usize) {
        if let Some(count) = self.shares.get(share) {
            count.fetch_add(1, Ordering::SeqCst);
        }
    }
}

/// The configuration of so many members, AS 64512 and greater ones.
fn configuration(rt: &impl Abort, alloc: Global, members: u8) -> Config {
    let mut text = text_of(rt, alloc, &["as = 64500\nidentifier = \"192.0.2.1\"\n"]);
    for n in 0..members {
        let number = 64512 + u32::from(n);
        let member = format!(in alloc;
            "[[client]]\nname = \"m{n}\"\nas = {number}\nlisten = \"127.0.0.1:17901\"\npeer = \"127.0.1.{n}\"\n"
        );
        let member = member.expect(rt, "a member");
        text.push_str(member.as_str()).expect(rt, "a member");
    }
    Config::read(alloc, text.as_str()).expect(rt, "a configuration")
}

/// `ROUTE` with NEXT_HOP 192.0.2.`host`.
fn attrs(rt: &impl Abort, alloc: Global, host: u8) -> Arc<Attrs> {
    let mut field = ROUTE;
    field[19] = host;
    shared(rt, alloc, &field)
}

/// One of 65,536 prefixes of 24 bits from 10.0.0.0 on.
fn prefix(rt: &impl Abort, n: u32) -> Prefix {
    common::prefix(rt, 0x0a00_0000 | (n & 0xffff) << 8, 24)
}

/// A member announces the prefix of a number.
fn announce(rt: &impl Abort, tables: &mut AdjIns, member: usize, n: u32, attrs: &Arc<Attrs>) {
    let prefix = prefix(rt, n);
    assert!(rt; member < tables.clients());
    let shared = tables.share(attrs).expect(rt, "a set");
    assert!(rt; shared.attrs.has_mandatory());
    tables
        .put(member, prefix, &shared.attrs, 0, shared.set)
        .expect(rt, "a route");
}

/// Of all members routes for their share of so many prefixes, by three sets of attributes.
fn tables(rt: &impl Abort, alloc: Global, config: &Config, prefixes: u32) -> AdjIns {
    let mut made = AdjIns::new(alloc, config.clients()).expect(rt, "tables");
    let sets = [
        attrs(rt, alloc, 11),
        attrs(rt, alloc, 12),
        attrs(rt, alloc, 13),
    ];
    for n in 0..prefixes {
        let from = n as usize % config.clients().max(1);
        let set = &sets[n as usize / 100 % 3];
        announce(rt, &mut made, from, n, set);
    }
    made
}

/// The outlets of all members, each up.
fn outlets(alloc: Global, config: &Config) -> Result<Vec<Outlet>, AllocError> {
    let mut all = Vec::new(alloc);
    for client in 0..config.clients() {
        let mut outlet = Outlet::new(alloc, client, false)?;
        outlet.up(Mode::Four, Limit::Short);
        all.push(outlet)?;
    }
    Ok(all)
}

/// The same outlets: each is of a client of the configuration.
fn placed(rt: &impl Abort, alloc: Global, config: &Config, all: Vec<Outlet>) -> Vec<Outlet>
    ensures { ArePlaced config.now result.items }
{
    let mut same = Vec::new(alloc);
    for outlet in all {
        assert!(rt; outlet.client() < config.clients());
        same.push(outlet).expect(rt, "an outlet");
    }
    same
}

/// The members' configuration, and what they announce.
#[derive(Drop)]
struct Exchange {
    alloc: Global,
    config: Config,
    tables: AdjIns,
}

impl Exchange {
    /// One of so many members, which announce so many prefixes.
    fn new(rt: &impl Abort, alloc: Global, members: u8, prefixes: u32) -> Exchange {
        let config = configuration(rt, alloc, members);
        let tables = tables(rt, alloc, &config, prefixes);
        Exchange {
            alloc,
            config,
            tables,
        }
    }

    /// The outlets of all members, turned by so many workers.
    fn turned<R: Threads + Wait + Sync + Abort, G: Gate>(
        &mut self,
        rt: &R,
        workers: usize,
        gate: &G,
    ) -> Vec<Outlet> {
        let all = outlets(self.alloc, &self.config).expect(rt, "outlets");
        self.turned_again(rt, workers, gate, all)
    }

    /// These outlets, turned once more.
    fn turned_again<R: Threads + Wait + Sync + Abort, G: Gate>(
        &mut self,
        rt: &R,
        workers: usize,
        gate: &G,
        all: Vec<Outlet>,
    ) -> Vec<Outlet> {
        assert!(rt; workers > 0);
        assert!(rt; workers <= 16);
        assert!(rt; self.tables.clients() == self.config.clients());
        note_all(&mut self.tables, &self.config);
        let mut all = placed(rt, self.alloc, &self.config, all);
        turn_all(
            rt,
            self.alloc,
            workers,
            &self.tables,
            &self.config,
            all.as_mut_slice(),
            gate,
        );
        all
    }
}

/// Each of so many outlets has decided all prefixes, which are so many.
fn have_decided(rt: &impl Abort, all: &[Outlet], count: usize, decided: usize) {
    let done = Last::Done(Turned {
        decided,
        whole: true,
    });
    equals(rt, all.len(), count);
    for outlet in all {
        equals(rt, outlet.last(), done);
    }
}

/// Two outlets send the same messages, until both are drained.
fn send_the_same(
    rt: &impl Abort,
    alloc: Global,
    tables: &AdjIns,
    one: &mut Outlet,
    other: &mut Outlet,
) {
    let mut of_one = Written::new(alloc).expect(rt, "room for messages");
    let mut of_other = Written::new(alloc).expect(rt, "room for messages");
    for _ in 0..100_000u32 {
        one.begin(tables, &mut of_one);
        other.begin(tables, &mut of_other);
        is_so(rt, one.lent() == other.lent(), "the same message");
        let count = one.lent().len();
        one.took(count);
        let count = other.lent().len();
        other.took(count);
        if one.is_drained() {
            break;
        }
    }
    is_so(rt, one.is_drained() && other.is_drained(), "both drained");
}

#[test]
fn both_shares_run(rt: HostRuntime) {
    let gate = Both::new();
    let mut exchange = Exchange::new(&rt, rt.alloc(), 2, 10);
    let all = exchange.turned(&rt, 2, &gate);
    is_so(&rt, !gate.has_failed(), "both run");
    have_decided(&rt, &all, 2, 10);
}

/// The outlets of so many members are turned by so many workers in so many shares.
fn has_shares<R: Threads + Wait + Sync + Abort>(
    rt: &R,
    alloc: Global,
    members: u8,
    workers: usize,
    shares: usize,
) {
    let gate = Counting::new(rt, alloc);
    let mut exchange = Exchange::new(rt, alloc, members, 10);
    exchange.turned(rt, workers, &gate);
    for (share, entries) in gate.shares.iter().enumerate() {
        let count = entries.load(Ordering::SeqCst);
        let want = u64::from(share < shares);
        is_of(rt, count, want, &(share, members, workers));
    }
}

#[test]
fn shares_are_as_long_as_said(rt: HostRuntime) {
    // members, workers, shares
    for (members, workers, shares) in [(1, 16, 1), (5, 4, 3), (16, 16, 16), (7, 2, 2), (6, 1, 1)] {
        has_shares(&rt, rt.alloc(), members, workers, shares);
    }
}

/// So many workers turn the outlets of five members, of which the first announces 64 prefixes with one set of attributes.
/// Answers how many owners more the set has then.
fn owners_more<R: Threads + Wait + Sync + Abort>(rt: &R, alloc: Global, workers: usize) -> usize {
    let mut exchange = Exchange::new(rt, alloc, 5, 0);
    let set = attrs(rt, alloc, 11);
    for n in 0..64 {
        announce(rt, &mut exchange.tables, 0, n, &set);
    }
    let before = Arc::strong_count(&set);
    let all = exchange.turned(rt, workers, &Free);
    have_decided(rt, &all, 5, 64);
    Arc::strong_count(&set).saturating_sub(before)
}

/// Four outlets are due the same 64 rows. Outlets of one share have one copy of them.
#[test]
fn outlets_of_a_share_have_one_copy_of_their_rows(rt: HostRuntime) {
    // workers, copies
    for (workers, copies) in [(1, 1), (2, 2), (4, 3), (16, 4)] {
        is_of(
            &rt,
            owners_more(&rt, rt.alloc(), workers),
            copies * 64,
            &workers,
        );
    }
}

/// How many rows lie in a block.
const BLOCK: u32 = 16;

/// The first member announces one prefix of each of so many blocks with another set of attributes, and all outlets are touched
/// there.
fn change(
    rt: &impl Abort,
    exchange: &mut Exchange,
    all: &mut [Outlet],
    blocks: u32,
    set: &Arc<Attrs>,
) {
    assert!(rt; blocks <= 16);
    for block in 0..blocks {
        let n = block * BLOCK;
        announce(rt, &mut exchange.tables, 0, n, set);
        let prefix = prefix(rt, n);
        let number = exchange.tables.number(prefix).expect(rt, "its number");
        for outlet in all.iter_mut() {
            outlet.touch(number, prefix, 1);
        }
    }
}

/// In how many blocks a turn changes one row each, and how many copies four outlets have of these blocks after it, and after a
/// turn with nothing to decide.
static CHANGED: [(u32, [usize; 2]); 2] = [(15, [1, 1]), (16, [4, 1])];

/// Four outlets have one copy of the rows that a turn changed, or where these lie far apart, each its own until a turn with
/// nothing to decide.
#[test]
fn rows_changed_far_apart_are_shared_by_a_quiet_turn(rt: HostRuntime) {
    for (blocks, copies) in &CHANGED {
        let mut exchange = Exchange::new(&rt, rt.alloc(), 5, 0);
        let set = attrs(&rt, exchange.alloc, 11);
        for n in 0..16 * BLOCK {
            announce(&rt, &mut exchange.tables, 0, n, &set);
        }
        let mut all = exchange.turned(&rt, 1, &Free);
        let changed = attrs(&rt, exchange.alloc, 12);
        change(&rt, &mut exchange, &mut all, *blocks, &changed);
        let before = Arc::strong_count(&changed);
        for count in copies {
            all = exchange.turned_again(&rt, 1, &Free, all);
            let more = Arc::strong_count(&changed).saturating_sub(before);
            let want = count.saturating_mul(*blocks as usize);
            is_of(&rt, more, want, &(blocks, count));
        }
    }
}

/// An outlet sends all that waits.
fn drain(rt: &impl Abort, alloc: Global, tables: &AdjIns, outlet: &mut Outlet) {
    let mut written = Written::new(alloc).expect(rt, "room for messages");
    for _ in 0..100_000u32 {
        outlet.begin(tables, &mut written);
        let count = outlet.lent().len();
        outlet.took(count);
        if outlet.is_drained() {
            break;
        }
    }
    is_so(rt, outlet.is_drained(), "drained");
}

/// The first member withdraws so many prefixes, and all is decided anew.
fn withdraw(rt: &impl Abort, exchange: &mut Exchange, all: &mut [Outlet], prefixes: u32) {
    for n in 0..prefixes {
        assert!(rt; exchange.tables.clients() > 0);
        let prefix = prefix(rt, n);
        is_so(rt, exchange.tables.withdraw(0, prefix), "a route");
    }
    for outlet in all {
        outlet.touch_all();
    }
}

/// How many prefixes go, and how many owners of their attributes the next turn lets go of.
static GONE: [(u32, usize); 2] = [(1600, 0), (16_400, 16_400)];

/// What was told of prefixes that went is let go of once all is told that they went, or where they are many by the next turn.
#[test]
fn what_was_told_of_many_is_let_go_of_by_the_next_turn(rt: HostRuntime) {
    for (prefixes, owners) in &GONE {
        let mut exchange = Exchange::new(&rt, rt.alloc(), 2, 0);
        let set = attrs(&rt, exchange.alloc, 11);
        for n in 0..*prefixes {
            announce(&rt, &mut exchange.tables, 0, n, &set);
        }
        let mut all = exchange.turned(&rt, 1, &Free);
        for outlet in &mut all {
            drain(&rt, exchange.alloc, &exchange.tables, outlet);
        }
        withdraw(&rt, &mut exchange, &mut all, *prefixes);
        let mut all = exchange.turned_again(&rt, 1, &Free, all);
        for outlet in &mut all {
            drain(&rt, exchange.alloc, &exchange.tables, outlet);
        }
        let before = Arc::strong_count(&set);
        let all = exchange.turned_again(&rt, 1, &Free, all);
        let less = before.saturating_sub(Arc::strong_count(&set));
        is_of(&rt, less, *owners, prefixes);
        equals(&rt, all.len(), 2);
    }
}

/// Turns by so many workers leave all seven outlets as turns by one do.
fn is_the_same<R: Threads + Wait + Sync + Abort>(rt: &R, exchange: &mut Exchange, workers: usize) {
    let mut alone = exchange.turned(rt, 1, &Free);
    let mut all = exchange.turned(rt, workers, &Free);
    have_decided(rt, &all, 7, 10_000);
    for (one, other) in alone.iter_mut().zip(all.iter_mut()) {
        equals(rt, one.last(), other.last());
        send_the_same(rt, exchange.alloc, &exchange.tables, one, other);
    }
}

#[test]
fn any_number_of_workers_gives_the_same(rt: HostRuntime) {
    let mut exchange = Exchange::new(&rt, rt.alloc(), 7, 10_000);
    for workers in [2, 3, 16] {
        is_the_same(&rt, &mut exchange, workers);
    }
}
