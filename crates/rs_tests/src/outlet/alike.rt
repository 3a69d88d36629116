//! Clients to which the same rules apply are told of one copy of what these leave of a route, and what was decided for one serves others.

ghost use Rattle.rs_outlet.specs.Decided.Precedents.{IsHandover};
ghost use Rattle.rs_outlet.specs.Decided.HeldBy.{tables_of};

use super::{CLIENT, Exchange, SENDER, all, let_go, prefix, some};
use crate::common::{equals, shared};
use rs_attrs::{Attrs, Mode};
use rs_open::Limit;
use rs_outlet::{Handover, Outlet};
use std::alloc::Global;
use std::ops::Range;
use std::process::Abort;
use std::sync::Arc;

/// A sender, two members to which a rule takes 64512:1 out of each route, and one to which another takes 64512:2 out.
pub(super) const STRIPPED: &str = concat!(
    "as = 64500\nidentifier = \"192.0.2.1\"\n",
    "[[client]]\nname = \"a\"\nas = 64512\nlisten = \"127.0.0.1:17901\"\npeer = \"127.0.1.1\"\n",
    "[[client]]\nname = \"b\"\nas = 64513\nlisten = \"127.0.0.1:17901\"\npeer = \"127.0.1.2\"\n",
    "export = [{ action = \"pass\", strip = [\"64512:1\"] }]\n",
    "[[client]]\nname = \"c\"\nas = 64514\nlisten = \"127.0.0.1:17901\"\npeer = \"127.0.1.3\"\n",
    "export = [{ action = \"pass\", strip = [\"64512:1\"] }]\n",
    "[[client]]\nname = \"d\"\nas = 64515\nlisten = \"127.0.0.1:17901\"\npeer = \"127.0.1.4\"\n",
    "export = [{ action = \"pass\", strip = [\"64512:2\"] }]\n",
);

/// The same members, but that two use the same rules, so that they are decided alike.
const DECIDED_ALIKE: &str = concat!(
    "as = 64500\nidentifier = \"192.0.2.1\"\n",
    "[[rules]]\nname = \"one\"\nrules = [{ action = \"pass\", strip = [\"64512:1\"] }]\n",
    "[[client]]\nname = \"a\"\nas = 64512\nlisten = \"127.0.0.1:17901\"\npeer = \"127.0.1.1\"\n",
    "[[client]]\nname = \"b\"\nas = 64513\nlisten = \"127.0.0.1:17901\"\npeer = \"127.0.1.2\"\n",
    "export = [{ use = \"one\" }]\n",
    "[[client]]\nname = \"c\"\nas = 64514\nlisten = \"127.0.0.1:17901\"\npeer = \"127.0.1.3\"\n",
    "export = [{ use = \"one\" }]\n",
    "[[client]]\nname = \"d\"\nas = 64515\nlisten = \"127.0.0.1:17901\"\npeer = \"127.0.1.4\"\n",
    "export = [{ action = \"pass\", strip = [\"64512:2\"] }]\n",
);

/// A sender, and three members that use the same rules, which name the receiver.
const NAMING_THE_RECEIVER: &str = concat!(
    "as = 64500\nidentifier = \"192.0.2.1\"\n",
    "[[rules]]\nname = \"actions\"\nrules = [{ community = \"0:peer\", action = \"drop\" }, ",
    "{ action = \"pass\", strip = [\"64512:1\"] }]\n",
    "[[client]]\nname = \"a\"\nas = 64512\nlisten = \"127.0.0.1:17901\"\npeer = \"127.0.1.1\"\n",
    "[[client]]\nname = \"b\"\nas = 64513\nlisten = \"127.0.0.1:17901\"\npeer = \"127.0.1.2\"\n",
    "export = [{ use = \"actions\" }]\n",
    "[[client]]\nname = \"c\"\nas = 64514\nlisten = \"127.0.0.1:17901\"\npeer = \"127.0.1.3\"\n",
    "export = [{ use = \"actions\" }]\n",
    "[[client]]\nname = \"d\"\nas = 64515\nlisten = \"127.0.0.1:17901\"\npeer = \"127.0.1.4\"\n",
    "export = [{ use = \"actions\" }]\n",
);

/// A sender, and three members, each with a rule of its own that asks for a community.
const ASKING_APART: &str = concat!(
    "as = 64500\nidentifier = \"192.0.2.1\"\n",
    "[[client]]\nname = \"a\"\nas = 64512\nlisten = \"127.0.0.1:17901\"\npeer = \"127.0.1.1\"\n",
    "[[client]]\nname = \"b\"\nas = 64513\nlisten = \"127.0.0.1:17901\"\npeer = \"127.0.1.2\"\n",
    "export = [{ community = \"1:64513\", action = \"drop\" }]\n",
    "[[client]]\nname = \"c\"\nas = 64514\nlisten = \"127.0.0.1:17901\"\npeer = \"127.0.1.3\"\n",
    "export = [{ community = \"2:64514\", action = \"drop\" }]\n",
    "[[client]]\nname = \"d\"\nas = 64515\nlisten = \"127.0.0.1:17901\"\npeer = \"127.0.1.4\"\n",
    "export = [{ community = \"3:64515\", action = \"drop\" }]\n",
);

/// A sender, and a member to which 18 rules take 64512:1 out of routes with another community, by patterns of their own.
const MANY_STRIPS: &str = concat!(
    "as = 64500\nidentifier = \"192.0.2.1\"\n",
    "[[client]]\nname = \"a\"\nas = 64512\nlisten = \"127.0.0.1:17901\"\npeer = \"127.0.1.1\"\n",
    "[[client]]\nname = \"b\"\nas = 64513\nlisten = \"127.0.0.1:17901\"\npeer = \"127.0.1.2\"\n",
    "export = [\n",
    "{ community = \"64512:100\", action = \"pass\", strip = [\"64512:1\", \"64513:100\"] },\n",
    "{ community = \"64512:101\", action = \"pass\", strip = [\"64512:1\", \"64513:101\"] },\n",
    "{ community = \"64512:102\", action = \"pass\", strip = [\"64512:1\", \"64513:102\"] },\n",
    "{ community = \"64512:103\", action = \"pass\", strip = [\"64512:1\", \"64513:103\"] },\n",
    "{ community = \"64512:104\", action = \"pass\", strip = [\"64512:1\", \"64513:104\"] },\n",
    "{ community = \"64512:105\", action = \"pass\", strip = [\"64512:1\", \"64513:105\"] },\n",
    "{ community = \"64512:106\", action = \"pass\", strip = [\"64512:1\", \"64513:106\"] },\n",
    "{ community = \"64512:107\", action = \"pass\", strip = [\"64512:1\", \"64513:107\"] },\n",
    "{ community = \"64512:108\", action = \"pass\", strip = [\"64512:1\", \"64513:108\"] },\n",
    "{ community = \"64512:109\", action = \"pass\", strip = [\"64512:1\", \"64513:109\"] },\n",
    "{ community = \"64512:110\", action = \"pass\", strip = [\"64512:1\", \"64513:110\"] },\n",
    "{ community = \"64512:111\", action = \"pass\", strip = [\"64512:1\", \"64513:111\"] },\n",
    "{ community = \"64512:112\", action = \"pass\", strip = [\"64512:1\", \"64513:112\"] },\n",
    "{ community = \"64512:113\", action = \"pass\", strip = [\"64512:1\", \"64513:113\"] },\n",
    "{ community = \"64512:114\", action = \"pass\", strip = [\"64512:1\", \"64513:114\"] },\n",
    "{ community = \"64512:115\", action = \"pass\", strip = [\"64512:1\", \"64513:115\"] },\n",
    "{ community = \"64512:116\", action = \"pass\", strip = [\"64512:1\", \"64513:116\"] },\n",
    "{ community = \"64512:117\", action = \"pass\", strip = [\"64512:1\", \"64513:117\"] },\n",
    "]\n",
);

/// How many sets of attributes the sender announces to members that are alike, and how many to the one with many strips.
pub(super) const SETS: u8 = 40;

const STRIPS: u8 = 18;

/// How many prefixes have their rows in the first block.
const BLOCK: u32 = 16;

/// ORIGIN IGP, AS_PATH 64512, NEXT_HOP 192.0.2.`host`, and the communities 64512:1 and 64512:`other`.
pub(super) fn attrs(rt: &impl Abort, alloc: Global, host: u8, other: u8) -> Arc<Attrs> {
    let field = [
        0x40, 1, 1, 0, 0x40, 2, 6, 2, 1, 0, 0, 0xfc, 0, 0x40, 3, 4, 0xc0, 0, 2, host, 0xc0, 8, 8,
        0xfc, 0, 0, 1, 0xfc, 0, 0, other,
    ];
    shared(rt, alloc, &field)
}

/// The sender announces two prefixes with each of so many sets, whose other community is one number or rises from it.
pub(super) fn announce(rt: &impl Abort, exchange: &mut Exchange, sets: u8, other: u8, rises: bool) {
    for host in 0..sets {
        let other = if rises {
            other.saturating_add(host)
        } else {
            other
        };
        let set = attrs(rt, exchange.alloc, host, other);
        exchange.announce(rt, u32::from(host) * 2, &set);
        exchange.announce(rt, u32::from(host) * 2 + 1, &set);
    }
}

/// A turn of an outlet, to which those before it hand this over.
fn turn_by(rt: &impl Abort, exchange: &Exchange, outlet: &mut Outlet, handover: &mut Handover)
    requires { IsHandover (tables_of exchange.now.config exchange.now.tables) exchange.now.tables handover.old }
    ensures { IsHandover (tables_of exchange.now.config exchange.now.tables) exchange.now.tables handover.new }
{
    assert!(rt; outlet.client() < exchange.config.clients());
    assert!(rt; exchange.tables.clients() == exchange.config.clients());
    outlet
        .turn(&exchange.tables, &exchange.config, handover)
        .expect(rt, "a turn");
}

/// The outlet of a client whose session began.
fn begun(rt: &impl Abort, exchange: &Exchange, client: usize) -> Outlet {
    let mut outlet = Outlet::new(exchange.alloc, client, false).expect(rt, "an outlet");
    outlet.up(Mode::Four, Limit::Short);
    outlet
}

/// The outlet of a client, turned once.
pub(super) fn turned(
    rt: &impl Abort,
    exchange: &Exchange,
    client: usize,
    handover: &mut Handover,
) -> Outlet
    requires { IsHandover (tables_of exchange.now.config exchange.now.tables) exchange.now.tables handover.old }
    ensures { IsHandover (tables_of exchange.now.config exchange.now.tables) exchange.now.tables handover.new }
{
    let mut outlet = begun(rt, exchange, client);
    turn_by(rt, exchange, &mut outlet, handover);
    outlet
}

/// The outlet of a client, turned once beside one that lends its blocks.
pub(super) fn turned_beside(
    rt: &impl Abort,
    exchange: &Exchange,
    client: usize,
    lender: &Outlet,
    handover: &mut Handover,
) -> Outlet
    requires { IsHandover (tables_of exchange.now.config exchange.now.tables) exchange.now.tables handover.old }
    ensures { IsHandover (tables_of exchange.now.config exchange.now.tables) exchange.now.tables handover.new }
{
    lender.lend_blocks(handover);
    turned(rt, exchange, client, handover)
}

/// The outlet of a client for which all was decided while nothing was announced.
pub(super) fn waiting(rt: &impl Abort, exchange: &Exchange, client: usize) -> Outlet {
    let mut outlet = begun(rt, exchange, client);
    exchange.decides(rt, &mut outlet, all(0));
    outlet
}

/// Each route of so many sets that the client is due has so many owners.
pub(super) fn have_owners(
    rt: &impl Abort,
    exchange: &Exchange,
    outlet: &Outlet,
    sets: u8,
    want: usize,
) {
    have_owners_in(rt, exchange, outlet, 0..u32::from(sets) * 2, want);
}

/// The route that the client is due for each of these prefixes has so many owners.
fn have_owners_in(
    rt: &impl Abort,
    exchange: &Exchange,
    outlet: &Outlet,
    prefixes: Range<u32>,
    want: usize,
) {
    for n in prefixes {
        let attrs = outlet.route(&prefix(rt, n), &exchange.tables);
        equals(rt, Arc::strong_count(attrs.expect(rt, "a route")), want);
    }
}

/// The last octet of NEXT_HOP that the client is due for the first prefix.
pub(super) fn host_of(rt: &impl Abort, exchange: &Exchange, outlet: &Outlet) -> u32 {
    let attrs = outlet.route(&prefix(rt, 0), &exchange.tables);
    let address = attrs.expect(rt, "a route").next_hop();
    address.expect(rt, "NEXT_HOP") % 256
}

/// Two prefixes have each set of attributes, and each client that is told of it is one owner more for each of them.
#[test]
fn clients_share_what_rules_left(rt: HostRuntime) {
    let mut exchange = Exchange::of(&rt, rt.alloc(), STRIPPED);
    announce(&rt, &mut exchange, SETS, 2, false);
    let mut handover = exchange.handover();
    let first = turned(&rt, &exchange, CLIENT, &mut handover);
    let alike = turned(&rt, &exchange, CLIENT + 1, &mut handover);
    let other = turned(&rt, &exchange, CLIENT + 2, &mut handover);
    drop(handover);
    have_owners(&rt, &exchange, &first, SETS, 4);
    have_owners(&rt, &exchange, &alike, SETS, 4);
    have_owners(&rt, &exchange, &other, SETS, 2);
    let_go(exchange, first);
}

/// The turns of three outlets, all touched at so many prefixes, of which one turn hands over to the next.
pub(super) fn turn_three(
    rt: &impl Abort,
    exchange: &Exchange,
    count: u32,
    first: &mut Outlet,
    alike: &mut Outlet,
    other: &mut Outlet,
) {
    exchange.touch(rt, first, 0..count, 1);
    exchange.touch(rt, alike, 0..count, 1);
    exchange.touch(rt, other, 0..count, 1);
    let mut handover = exchange.handover();
    turn_by(rt, exchange, first, &mut handover);
    turn_by(rt, exchange, alike, &mut handover);
    turn_by(rt, exchange, other, &mut handover);
}

/// What was decided at touched prefixes for one client serves the next one, which has the very same blocks of rows, but not one
/// to which other rules apply: each set that is left has an owner for each of its two prefixes, in these blocks or the other's.
#[test]
fn what_was_decided_serves_those_alike(rt: HostRuntime) {
    let mut exchange = Exchange::of(&rt, rt.alloc(), DECIDED_ALIKE);
    let mut first = waiting(&rt, &exchange, CLIENT);
    let mut alike = waiting(&rt, &exchange, CLIENT + 1);
    let mut other = waiting(&rt, &exchange, CLIENT + 2);
    announce(&rt, &mut exchange, SETS, 2, false);
    let count = u32::from(SETS) * 2;
    turn_three(&rt, &exchange, count, &mut first, &mut alike, &mut other);
    have_owners(&rt, &exchange, &first, SETS, 2);
    have_owners(&rt, &exchange, &alike, SETS, 2);
    have_owners(&rt, &exchange, &other, SETS, 2);
    let_go(exchange, first);
}

/// A client to which something waits to be sent has what was decided for another in rows of its own: each set has two owners more.
#[test]
fn what_was_decided_serves_one_that_has_not_been_told_all(rt: HostRuntime) {
    let mut exchange = Exchange::of(&rt, rt.alloc(), DECIDED_ALIKE);
    let mut first = waiting(&rt, &exchange, CLIENT);
    let mut alike = waiting(&rt, &exchange, CLIENT + 1);
    let mut other = waiting(&rt, &exchange, CLIENT + 2);
    announce(&rt, &mut exchange, SETS, 2, false);
    let count = u32::from(SETS) * 2;
    let set = attrs(&rt, exchange.alloc, 200, 2);
    exchange.announce(&rt, count, &set);
    exchange.touch(&rt, &mut alike, count..count + 1, 1);
    exchange.decides(&rt, &mut alike, some(1));
    turn_three(&rt, &exchange, count, &mut first, &mut alike, &mut other);
    have_owners(&rt, &exchange, &first, SETS, 4);
    have_owners(&rt, &exchange, &alike, SETS, 4);
    have_owners(&rt, &exchange, &other, SETS, 2);
    let_go(exchange, first);
}

/// The turns of two outlets, touched at these prefixes, of which the first hands over to the second.
fn turn_two(
    rt: &impl Abort,
    exchange: &Exchange,
    first: &mut Outlet,
    to_first: Range<u32>,
    alike: &mut Outlet,
    to_alike: Range<u32>,
) {
    exchange.touch(rt, first, to_first, 1);
    exchange.touch(rt, alike, to_alike, 1);
    let mut handover = exchange.handover();
    turn_by(rt, exchange, first, &mut handover);
    turn_by(rt, exchange, alike, &mut handover);
}

/// One that was touched at fewer prefixes, as who announced the others is, has the blocks of all that it was touched at.
#[test]
fn what_was_decided_serves_one_that_was_touched_at_fewer(rt: HostRuntime) {
    let mut exchange = Exchange::of(&rt, rt.alloc(), DECIDED_ALIKE);
    let mut first = waiting(&rt, &exchange, CLIENT);
    let mut alike = waiting(&rt, &exchange, CLIENT + 1);
    announce(&rt, &mut exchange, SETS, 2, false);
    let count = u32::from(SETS) * 2;
    turn_two(
        &rt,
        &exchange,
        &mut first,
        0..count,
        &mut alike,
        BLOCK..count,
    );
    have_owners(&rt, &exchange, &first, SETS, 2);
    have_owners_in(&rt, &exchange, &alike, BLOCK..count, 2);
    equals(
        &rt,
        alike.route(&prefix(&rt, 0), &exchange.tables).is_none(),
        true,
    );
    let_go(exchange, first);
}

/// One that was touched at more has the blocks that the one before it has, and its own for the others.
#[test]
fn what_was_decided_serves_one_that_was_touched_at_more(rt: HostRuntime) {
    let mut exchange = Exchange::of(&rt, rt.alloc(), DECIDED_ALIKE);
    let mut first = waiting(&rt, &exchange, CLIENT);
    let mut alike = waiting(&rt, &exchange, CLIENT + 1);
    announce(&rt, &mut exchange, SETS, 2, false);
    let count = u32::from(SETS) * 2;
    turn_two(
        &rt,
        &exchange,
        &mut first,
        BLOCK..count,
        &mut alike,
        0..count,
    );
    have_owners(&rt, &exchange, &alike, SETS, 2);
    have_owners_in(&rt, &exchange, &first, BLOCK..count, 2);
    let_go(exchange, first);
}

/// One that was touched at fewer, but at some of which nothing is known, has the blocks of the others, and these beside them.
#[test]
fn what_is_not_known_is_decided_beside_what_is(rt: HostRuntime) {
    let mut exchange = Exchange::of(&rt, rt.alloc(), DECIDED_ALIKE);
    let mut first = waiting(&rt, &exchange, CLIENT);
    let mut alike = waiting(&rt, &exchange, CLIENT + 1);
    announce(&rt, &mut exchange, SETS, 2, false);
    let count = u32::from(SETS) * 2;
    turn_two(
        &rt,
        &exchange,
        &mut first,
        BLOCK..count,
        &mut alike,
        0..2 * BLOCK,
    );
    have_owners_in(&rt, &exchange, &alike, 0..2 * BLOCK, 2);
    have_owners_in(&rt, &exchange, &first, BLOCK..count, 2);
    let_go(exchange, first);
}

/// What was decided for one serves those whose rules ask for other communities, where the routes have none of them.
#[test]
fn what_was_decided_serves_those_that_ask_for_other_communities(rt: HostRuntime) {
    let mut exchange = Exchange::of(&rt, rt.alloc(), ASKING_APART);
    let mut first = waiting(&rt, &exchange, CLIENT);
    let mut alike = waiting(&rt, &exchange, CLIENT + 1);
    let mut other = waiting(&rt, &exchange, CLIENT + 2);
    announce(&rt, &mut exchange, SETS, 2, false);
    let held = exchange.tables.route(SENDER, prefix(&rt, 0));
    let before = Arc::strong_count(held.expect(&rt, "a route"));
    let count = u32::from(SETS) * 2;
    turn_three(&rt, &exchange, count, &mut first, &mut alike, &mut other);
    have_owners(&rt, &exchange, &first, SETS, before.saturating_add(2));
    have_owners(&rt, &exchange, &alike, SETS, before.saturating_add(2));
    have_owners(&rt, &exchange, &other, SETS, before.saturating_add(2));
    let_go(exchange, first);
}

/// What was decided by rules that name the receiver serves the next one where no community does.
#[test]
fn what_was_decided_serves_those_whom_no_community_names(rt: HostRuntime) {
    let mut exchange = Exchange::of(&rt, rt.alloc(), NAMING_THE_RECEIVER);
    let mut first = waiting(&rt, &exchange, CLIENT);
    let mut alike = waiting(&rt, &exchange, CLIENT + 1);
    let mut other = waiting(&rt, &exchange, CLIENT + 2);
    announce(&rt, &mut exchange, SETS, 2, false);
    let count = u32::from(SETS) * 2;
    turn_three(&rt, &exchange, count, &mut first, &mut alike, &mut other);
    have_owners(&rt, &exchange, &first, SETS, 2);
    have_owners(&rt, &exchange, &alike, SETS, 2);
    have_owners(&rt, &exchange, &other, SETS, 2);
    let_go(exchange, first);
}

/// A route with one community, by this configuration, is due to two members, turned before and behind the one to which it is
/// not; what is due to that one elsewhere is.
fn is_kept_from_the_second(rt: &impl Abort, alloc: Global, text: &str, community: [u8; 4]) {
    let mut exchange = Exchange::of(rt, alloc, text);
    let mut first = waiting(rt, &exchange, CLIENT);
    let mut second = waiting(rt, &exchange, CLIENT + 1);
    let mut other = waiting(rt, &exchange, CLIENT + 2);
    announce(rt, &mut exchange, SETS, 2, false);
    let [a, b, c, d] = community;
    let field = [
        0x40, 1, 1, 0, 0x40, 2, 6, 2, 1, 0, 0, 0xfc, 0, 0x40, 3, 4, 0xc0, 0, 2, 200, 0xc0, 8, 4, a,
        b, c, d,
    ];
    let set = shared(rt, exchange.alloc, &field);
    exchange.announce(rt, 0, &set);
    let count = u32::from(SETS) * 2;
    turn_three(rt, &exchange, count, &mut first, &mut second, &mut other);
    equals(rt, host_of(rt, &exchange, &first), 200);
    equals(rt, host_of(rt, &exchange, &other), 200);
    equals(
        rt,
        second.route(&prefix(rt, 0), &exchange.tables).is_none(),
        true,
    );
    equals(
        rt,
        second.route(&prefix(rt, 1), &exchange.tables).is_none(),
        false,
    );
    let_go(exchange, first);
}

/// 0:64514 names the second.
#[test]
fn whom_a_community_names_is_decided_alone(rt: HostRuntime) {
    is_kept_from_the_second(&rt, rt.alloc(), NAMING_THE_RECEIVER, [0, 0, 0xfc, 2]);
}

/// 2:64514 is what the second asks for.
#[test]
fn who_asks_for_a_community_is_decided_alone_where_it_is(rt: HostRuntime) {
    is_kept_from_the_second(&rt, rt.alloc(), ASKING_APART, [0, 2, 0xfc, 2]);
}

/// However many strips there are, prefixes of one set share what is left of it.
#[test]
fn prefixes_share_what_any_of_many_strips_left(rt: HostRuntime) {
    let mut exchange = Exchange::of(&rt, rt.alloc(), MANY_STRIPS);
    announce(&rt, &mut exchange, STRIPS, 100, true);
    let mut handover = exchange.handover();
    let outlet = turned(&rt, &exchange, CLIENT, &mut handover);
    drop(handover);
    have_owners(&rt, &exchange, &outlet, STRIPS, 2);
    let_go(exchange, outlet);
}
