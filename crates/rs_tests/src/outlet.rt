//! An outlet of a small exchange: touches up to their bound. `told` is how much clients are told by what they take,
//! `alike` what clients share to which the same rules apply, `refused` turns that memory was refused to, `asking` calls
//! that take none. What clients are told by the rules, and what is
//! told again, is in recorded sessions: `examples/sessions`, of which `rule_hides_a_path_from_one`, `route_too_long_for_one`,
//! `community_stripped`, `strip_large_of_one`, `route_refresh` and `told_again_by_the_operator` show it.

ghost use Rattle.rs_adjin.specs.AdjIns.{AreNoted};
ghost use Rattle.rs_outlet.specs.Decided.HeldBy.{tables_of};
ghost use Rattle.rs_outlet.specs.Decided.Precedents.{IsHandover};
ghost use Rattle.rs_policy.specs.Noted.{note_of_import};

mod alike;
mod asking;
mod refused;
mod sharing;
mod told;

use crate::common::{self, equals, is_so, put, shared};
use rs_adjin::AdjIns;
use rs_attrs::{Attrs, Mode};
use rs_octets::Prefix;
use rs_open::Limit;
use rs_outlet::{Handover, Last, Outlet, Turned, Written};
use rs_policy::{Config, import_note};
use std::alloc::{AllocError, Global};
use std::ops::Range;
use std::process::Abort;
use std::sync::Arc;

/// The member that announces, and the one whose outlet it is.
const SENDER: usize = 0;

const CLIENT: usize = 1;

/// The configuration of these two.
const TWO_MEMBERS: &str = concat!(
    "as = 64500\nidentifier = \"192.0.2.1\"\n",
    "[[client]]\nname = \"a\"\nas = 64512\nlisten = \"127.0.0.1:17901\"\npeer = \"127.0.1.1\"\n",
    "[[client]]\nname = \"b\"\nas = 64513\nlisten = \"127.0.0.1:17901\"\npeer = \"127.0.1.2\"\n",
);

/// ORIGIN IGP, AS_PATH 64512 and NEXT_HOP 192.0.2.`host`.
fn attrs(rt: &impl Abort, alloc: Global, host: u8) -> Arc<Attrs> {
    let field = [
        0x40, 1, 1, 0, 0x40, 2, 6, 2, 1, 0, 0, 0xfc, 0, 0x40, 3, 4, 0xc0, 0, 2, host,
    ];
    shared(rt, alloc, &field)
}

/// One of 131,072 prefixes of 24 bits from 10.0.0.0 on, in scattered order.
fn prefix(rt: &impl Abort, n: u32) -> Prefix {
    let bits = 0x0a00_0000 | (n % 131_072 * 32_003 % 131_072) << 8;
    common::prefix(rt, bits, 24)
}

/// A turn that went over so many touched prefixes.
fn some(decided: usize) -> Turned {
    Turned {
        decided,
        whole: false,
    }
}

/// A turn that went over all prefixes, which are so many.
fn all(decided: usize) -> Turned {
    Turned {
        decided,
        whole: true,
    }
}

/// The members' configuration, and what they announce.
#[derive(Drop)]
struct Exchange {
    alloc: Global,
    config: Config,
    tables: AdjIns,
    written: Written,
    ghost noted: { AreNoted (note_of_import config) tables },
}

impl Exchange {
    /// The members of a configuration, none of which has announced anything.
    fn of(rt: &impl Abort, alloc: Global, text: &str) -> Exchange {
        let config = Config::read(alloc, text).expect(rt, "a configuration");
        let tables = AdjIns::new(alloc, config.clients()).expect(rt, "tables");
        Exchange {
            alloc,
            config,
            tables,
            written: Written::new(alloc).expect(rt, "room for messages"),
        }
    }

    /// The messages that were written last, which own their attributes, are forgotten.
    fn forget_written(&mut self, rt: &impl Abort) {
        self.written = Written::new(self.alloc).expect(rt, "room for messages");
    }

    /// Two members, of which the sender announces so many prefixes, by two sets of attributes.
    fn with_routes(rt: &impl Abort, alloc: Global, count: u32) -> Exchange {
        let mut made = Exchange::of(rt, alloc, TWO_MEMBERS);
        let sets = [attrs(rt, alloc, 11), attrs(rt, alloc, 12)];
        for n in 0..count {
            made.announce(rt, n, &sets[n as usize % 2]);
        }
        made
    }

    /// The sender announces the prefix of a number with a set of attributes.
    fn announce(&mut self, rt: &impl Abort, n: u32, attrs: &Arc<Attrs>) {
        assert!(rt; SENDER < self.config.clients());
        assert!(rt; SENDER < self.tables.clients());
        let prefix = prefix(rt, n);
        let shared = self.tables.share(attrs).expect(rt, "a set");
        assert!(rt; shared.attrs.has_mandatory());
        let note = import_note(&self.config, SENDER, &prefix, &shared.attrs);
        self.tables
            .put(SENDER, prefix, &shared.attrs, note, shared.set)
            .expect(rt, "a route");
    }

    /// The outlet of the client, which speaks four octets and takes messages of up to 4,096.
    fn outlet(&self, rt: &impl Abort) -> Outlet {
        let mut outlet = Outlet::new(self.alloc, CLIENT, false).expect(rt, "an outlet");
        outlet.up(Mode::Four, Limit::Short);
        outlet
    }

    /// Touches these prefixes, as of so many together.
    fn touch(&self, rt: &impl Abort, outlet: &mut Outlet, prefixes: Range<u32>, together: usize) {
        for n in prefixes {
            let prefix = prefix(rt, n);
            let number = self.tables.number(prefix).expect(rt, "its number");
            outlet.touch(number, prefix, together);
        }
    }

    /// What is handed over to the first outlet: nothing.
    fn handover(&self) -> Handover
        ensures { IsHandover (tables_of self.now.config self.now.tables) self.now.tables result }
    {
        Handover::new(self.alloc)
    }

    /// What a turn answers.
    fn turn(&self, rt: &impl Abort, outlet: &mut Outlet) -> Result<Turned, AllocError> {
        assert!(rt; outlet.client() < self.config.clients());
        assert!(rt; self.tables.clients() == self.config.clients());
        let mut handover = self.handover();
        outlet.turn(&self.tables, &self.config, &mut handover)
    }

    /// A turn decides so much.
    fn decides(&self, rt: &impl Abort, outlet: &mut Outlet, want: Turned) {
        let turned = self.turn(rt, outlet).expect(rt, "a turn");
        equals(rt, turned, want);
    }
}

/// Lets an exchange and an outlet go in one call, which is one step of a test, and not one for each
/// of their lists.
fn let_go(_exchange: Exchange, _outlet: Outlet) {}

/// Begins the next message.
fn begin(exchange: &mut Exchange, outlet: &mut Outlet) {
    outlet.begin(&exchange.tables, &mut exchange.written);
}

/// Takes all messages that wait, and answers their octets.
fn drain(rt: &impl Abort, exchange: &mut Exchange, outlet: &mut Outlet) -> Vec<u8> {
    let mut taken = Vec::new(exchange.alloc);
    for _ in 0..1_000u32 {
        begin(exchange, outlet);
        put(rt, &mut taken, outlet.lent());
        let count = outlet.lent().len();
        outlet.took(count);
        if outlet.is_drained() {
            break;
        }
    }
    taken
}

/// An exchange of so many routes, and an outlet for which all are decided.
fn decided(rt: &impl Abort, alloc: Global, count: u32) -> (Exchange, Outlet) {
    let exchange = Exchange::with_routes(rt, alloc, count);
    let mut outlet = exchange.outlet(rt);
    exchange.decides(rt, &mut outlet, all(count as usize));
    (exchange, outlet)
}

/// The sender announces these prefixes with other attributes, and they are decided.
fn change(rt: &impl Abort, exchange: &mut Exchange, outlet: &mut Outlet, prefixes: Range<u32>) {
    let set = attrs(rt, exchange.alloc, 13);
    let count = prefixes.len();
    for n in prefixes.start..prefixes.end {
        exchange.announce(rt, n, &set);
    }
    exchange.touch(rt, outlet, prefixes, 1);
    exchange.decides(rt, outlet, some(count));
}

/// The first so many prefixes are touched, each twice.
#[test]
fn more_than_4096_touched_are_all(rt: HostRuntime) {
    let whole = all(5_000);
    let (exchange, mut outlet) = decided(&rt, rt.alloc(), 5_000);
    for (touched, want) in [(1, some(1)), (4_096, some(4_096)), (4_097, whole)] {
        exchange.touch(&rt, &mut outlet, 0..touched, 1);
        exchange.touch(&rt, &mut outlet, 0..touched, 1);
        exchange.decides(&rt, &mut outlet, want);
    }
    equals(&rt, outlet.last(), Last::Done(whole));
    let_go(exchange, outlet);
}

/// A list of touches is full with 5,120 of them. Where no more than half of all are touched together, it grows.
#[test]
fn all_is_touched_where_most_are_touched_together(rt: HostRuntime) {
    let (exchange, mut outlet) = decided(&rt, rt.alloc(), 12_000);
    for (together, is_all) in [(6_000, false), (6_001, true)] {
        exchange.touch(&rt, &mut outlet, 0..5_121, together);
        equals(&rt, outlet.is_all_touched(), is_all);
        exchange.decides(&rt, &mut outlet, all(12_000));
    }
    let_go(exchange, outlet);
}

/// Nothing waits.
fn is_drained(rt: &impl Abort, outlet: &Outlet) {
    is_so(rt, outlet.is_drained(), "drained");
}
