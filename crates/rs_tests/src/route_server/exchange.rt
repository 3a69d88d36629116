//! An exchange of members a and b, AS 64496 and 64497, beside the server's AS 64500.

use crate::common::{self, is_of, is_so, put, text_of};
use rs_core::Core;
use rs_policy::Config;
use rs_session::Command;
use std::alloc::Global;
use std::process::Abort;

pub const A: usize = 0;

pub const B: usize = 1;

/// The OPENs of a and b, with capability 65, and the server's.
pub const OPEN_A: &str = "00250104fbf0005ac000020b08020641040000fbf0";

pub const OPEN_B: &str = "00250104fbf1005ac000020c08020641040000fbf1";

pub const OPEN_SERVER: &str = "00250104fbf4005ac000020108020641040000fbf4";

pub const KEEPALIVE: &str = "001304";

/// 198.51.100.0/24 with ORIGIN IGP, AS_PATH 64496 and NEXT_HOP 192.0.2.11; it is withdrawn again; and
/// with an ORIGIN of 3, which there is not.
pub const ROUTE: &str = "002f02000000144001010040020602010000fbf0400304c000020b18c63364";

pub const NO_ROUTE: &str = "001b02000418c633640000";

pub const BAD_ROUTE: &str = "002f02000000144001010340020602010000fbf0400304c000020b18c63364";

/// The same route without NEXT_HOP.
pub const NO_NEXT_HOP: &str = "0028020000000d4001010040020602010000fbf018c63364";

/// 2001:db8::/32 in MP_REACH_NLRI, and no route of IPv4.
pub const IPV6_ROUTE: &str =
    "0034020000001d800e1a0002011020010db8000000000000000000000001002020010db8";

/// 203.0.113.0/24 of b.
pub const ROUTE_B: &str = "002f02000000144001010040020602010000fbf1400304c000020c18cb0071";

/// The messages that these hexadecimal digits spell, each behind a marker (RFC 4271, 4.1), one after the other.
pub fn messages(rt: &impl Abort, alloc: Global, all: &[&str]) -> Vec<u8> {
    let mut octets = Vec::new(alloc);
    for digits in all {
        put(rt, &mut octets, &[0xff; 16]);
        put(rt, &mut octets, &common::octets(rt, alloc, digits));
    }
    octets
}

/// One message.
pub fn message(rt: &impl Abort, alloc: Global, digits: &str) -> Vec<u8> {
    messages(rt, alloc, &[digits])
}

/// The top of the configuration and both members' tables.
const TOP: &str = "as = 64500\nidentifier = \"192.0.2.1\"\nhold = 90\n";

const MEMBER_A: &str =
    "\n[[client]]\nname = \"a\"\nas = 64496\nlisten = \"127.0.0.1:17901\"\npeer = \"192.0.2.11\"\n";

const MEMBER_B: &str =
    "\n[[client]]\nname = \"b\"\nas = 64497\nlisten = \"127.0.0.1:17902\"\npeer = \"192.0.2.12\"\n";

/// The text of the configuration, with these lines more for the server, for a and for b.
pub fn text(rt: &impl Abort, alloc: Global, server: &str, of_a: &str, of_b: &str) -> String {
    text_of(
        rt,
        alloc,
        &[TOP, server, MEMBER_A, of_a, MEMBER_B, of_b, "\n"],
    )
}

/// A route server with these lines in its configuration, for the server and for a.
pub fn server(rt: &impl Abort, alloc: Global, lines: &str, of_a: &str) -> Core {
    let text = text(rt, alloc, lines, of_a, "");
    let config = Config::read(alloc, text.as_str()).expect(rt, "a configuration");
    Core::new(alloc, config).expect(rt, "a route server")
}

/// A client's link takes what it is lent next, as far as there is room for it. Answers how much.
fn take(rt: &impl Abort, core: &mut Core, c: usize, room: usize, taken: &mut Vec<u8>) -> usize {
    assert!(rt; c < core.clients());
    let lent = core.writable(c);
    let count = lent.len().min(room);
    put(rt, taken, &lent[..count]);
    core.took(c, count);
    count
}

/// A route server with its members.
#[derive(Drop)]
pub struct Exchange {
    pub alloc: Global,
    pub core: Core,
}

impl Exchange {
    /// One with these lines in its configuration, to which nobody has come yet.
    pub fn new(rt: &impl Abort, alloc: Global, lines: &str, of_a: &str) -> Exchange {
        let core = server(rt, alloc, lines, of_a);
        Exchange { alloc, core }
    }

    /// One with these lines for the server, to which both members have come.
    pub fn of_both(rt: &impl Abort, alloc: Global, lines: &str) -> Exchange {
        let mut made = Exchange::new(rt, alloc, lines, "");
        made.come_up(rt, A, OPEN_A);
        made.come_up(rt, B, OPEN_B);
        made
    }

    /// The same, and a has announced its route.
    pub fn with_a_route(rt: &impl Abort, alloc: Global, lines: &str) -> Exchange {
        let mut made = Exchange::of_both(rt, alloc, lines);
        made.hear_in_turn(rt, A, ROUTE);
        made
    }

    /// Lets it go in one call, which is one step of a test, and not one for each of its lists.
    pub fn let_go(self) {}

    /// A message of a client comes, in one piece.
    pub fn hear(&mut self, rt: &impl Abort, c: usize, digits: &str) {
        let octets = message(rt, self.alloc, digits);
        self.hear_octets(rt, c, &octets);
    }

    /// Octets of a client come.
    pub fn hear_octets(&mut self, rt: &impl Abort, c: usize, octets: &[u8]) {
        assert!(rt; c < self.core.clients());
        self.core.octets(c, octets).expect(rt, "octets");
    }

    /// A message of a client comes, and what it touches is decided.
    pub fn hear_in_turn(&mut self, rt: &impl Abort, c: usize, digits: &str) {
        self.hear(rt, c, digits);
        self.core.turn();
    }

    /// The operator commands this of a client's session.
    pub fn command(&mut self, rt: &impl Abort, c: usize, command: Command) {
        assert!(rt; c < self.core.clients());
        self.core.command(c, command);
    }

    /// A connection of a client is lost.
    pub fn lose(&mut self, rt: &impl Abort, c: usize) {
        assert!(rt; c < self.core.clients());
        self.core.lost(c);
    }

    /// The connection of a client that has none is taken.
    pub fn open(&mut self, rt: &impl Abort, c: usize) {
        assert!(rt; c < self.core.clients());
        is_so(rt, self.core.opened(c).is_ok(), "taken");
    }

    /// A session of a client comes up, and its link takes what it is sent.
    pub fn come_up(&mut self, rt: &impl Abort, c: usize, open: &str) {
        self.open(rt, c);
        self.hear(rt, c, open);
        self.hear(rt, c, KEEPALIVE);
        self.sent(rt, c, 1_000);
    }

    /// What the link of a client takes, up to so many octets.
    pub fn sent(&mut self, rt: &impl Abort, c: usize, room: usize) -> Vec<u8> {
        let mut taken = Vec::new(self.alloc);
        for _ in 0..room {
            let left = room.saturating_sub(taken.len());
            if take(rt, &mut self.core, c, left, &mut taken) == 0 {
                break;
            }
        }
        taken
    }

    /// A client is sent these messages, and no more.
    pub fn sends(&mut self, rt: &impl Abort, c: usize, all: &[&str]) {
        let octets = self.sent(rt, c, 5_000);
        let want = messages(rt, self.alloc, all);
        is_of(rt, octets, want, &("client", c));
    }
}
