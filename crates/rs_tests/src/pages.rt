//! Tests of `rs_pages`, `rs_page_rows` and `rs_page_parts`: pages over tables in memory, piece by piece.

mod counted;
mod prefixes;
mod room;
mod targets;
mod traffic;

use crate::common::{is_so, prefix, push, put, shared, text_of};
use crate::pages::traffic::count;
use rs_attrs::{Attrs, Mode};
use rs_octets::Prefix;
use rs_open::Limit;
use rs_outlet::Speech;
use rs_page_parts::keys::key;
use rs_page_parts::tables::{Ended, Faults, Holder, Rib, Tables};
use rs_page_rows::moments::{Changes, Moments};
use rs_pages::server_pages::ServerPages;
use rs_policy::Config;
use rs_window::page::{Page, Pages, Piece};
use std::alloc::{AllocError, Global};
use std::process::Abort;
use std::sync::Arc;

const CONFIG: &str = "as = 64500
identifier = \"192.0.2.1\"
hold = 90
[[client]]
name = \"alpha\"
as = 64496
listen = \"127.0.0.1:17901\"
peer = \"192.0.2.11\"
import = [{ prefix = \"198.51.102.0/24\", action = \"drop\" }]
[[client]]
name = \"beta\"
as = 64497
listen = \"127.0.0.1:17902\"
peer = \"192.0.2.12\"
export = [{ prefix = \"198.51.100.0/24\", action = \"drop\" }]
";

/// ORIGIN IGP, AS_PATH 64496, NEXT_HOP 192.0.2.11, MED 7, community 64500:1.
static ATTRIBUTES: [u8; 34] = [
    0x40, 1, 1, 0, 0x40, 2, 6, 2, 1, 0, 0, 0xfb, 0xf0, 0x40, 3, 4, 192, 0, 2, 11, 0x80, 4, 4, 0, 0,
    0, 7, 0xc0, 8, 4, 0xfb, 0xf4, 0, 1,
];

/// Tables in memory: alpha has announced so many prefixes of 24 bits from 198.51.100.0/24 on, by rising
/// prefix, and beta is due all but the first; beta has announced its own. Messages have this limit.
#[derive(Drop)]
struct Memory {
    config: Config,
    routes: Vec<(Prefix, Arc<Attrs>)>,
    others: Vec<(Prefix, Arc<Attrs>)>,
    limit: Limit,
}

impl Memory {
    /// The routes of a table, by rising prefix.
    fn routes(&self, rib: Rib, member: usize) -> &[(Prefix, Arc<Attrs>)] {
        match (rib, member) {
            (Rib::Received, 0) => &self.routes,
            (Rib::Received, 1) => &self.others,
            (Rib::Sent, 1) => self.routes.get(1..).unwrap_or(&[]),
            _ => &[],
        }
    }
}

impl Tables for Memory {
    ghost first = { λ tables rib member at route. Unit {0} };

    ghost configured = { λ tables config. Unit {0} };

    ghost holders = { λ tables prefix held. Unit {0} };

    ghost speaks = { λ tables member speech. Unit {0} };

    fn config(&self) -> &Config {
        &self.config
    }

    fn is_established(&self, member: usize) -> bool {
        member < 2
    }

    fn speech(&self, _member: usize) -> Option<Speech> {
        Some(Speech {
            mode: Mode::Four,
            limit: self.limit,
        })
    }

    fn first_from(&self, rib: Rib, member: usize, at: u64) -> Option<(Prefix, &Arc<Attrs>)> {
        for (prefix, attrs) in self.routes(rib, member) {
            if key(prefix) >= at {
                return Some((*prefix, attrs));
            }
        }
        None
    }

    fn count(&self, rib: Rib, member: usize) -> usize {
        self.routes(rib, member).len()
    }

    fn dropped(&self, member: usize) -> usize {
        let third = self.routes.get(2..3).unwrap_or(&[]);
        if member == 0 { third.len() } else { 0 }
    }

    fn holders_of<'b>(
        &'b self,
        alloc: Global,
        prefix: &Prefix,
    ) -> Result<Vec<Holder<'b>>, AllocError> {
        let mut holders = Vec::new(alloc);
        for member in 0..2_usize {
            for (held, attrs) in self.routes(Rib::Received, member) {
                if held == prefix {
                    holders.push(Holder {
                        member,
                        identifier: 0xc000_020b_u32.wrapping_add(member as u32),
                        attrs,
                    })?;
                }
            }
        }
        Ok(holders)
    }

    fn ended(&self, member: usize) -> Option<Ended> {
        if member == 1 {
            Some(Ended::Heard(6, 2))
        } else {
            None
        }
    }

    fn faults(&self, _member: usize) -> Faults {
        Faults {
            at_fault: 0,
            passed_over: 3,
        }
    }

    fn rows(&self) -> usize {
        self.routes.len()
    }

    fn prefixes(&self) -> usize {
        self.routes.len()
    }

    fn attribute_sets(&self) -> usize {
        self.routes.len().div_ceil(2)
    }

    fn waiting(&self, member: usize) -> usize {
        member
    }
}

/// Puts a route behind the others: this many 24-bit prefixes behind 198.51.100.0/24.
fn announce(
    rt: &impl Abort,
    alloc: Global,
    routes: &mut Vec<(Prefix, Arc<Attrs>)>,
    at: u32,
    attributes: &[u8],
) {
    let prefix = prefix(rt, 0xc633_6400_u32.wrapping_add(at << 8), 24);
    let attrs = shared(rt, alloc, attributes);
    push(rt, routes, (prefix, attrs));
}

fn server(rt: &impl Abort, alloc: Global, count: u32) -> Memory {
    let config = Config::read(alloc, CONFIG).expect(rt, "a configuration");
    let mut routes = Vec::new(alloc);
    for at in 0..count {
        announce(rt, alloc, &mut routes, at, &ATTRIBUTES);
    }
    Memory {
        config,
        routes,
        others: Vec::new(alloc),
        limit: Limit::Short,
    }
}

/// The octets of a page, and in how many pieces they were written.
fn written<P: Pages>(
    rt: &impl Abort,
    alloc: Global,
    pages: &P,
    first: Option<Page>,
) -> (Vec<u8>, usize) {
    let mut text = Vec::new(alloc);
    let mut piece = Piece::new(alloc).expect(rt, "a piece");
    let mut next = first;
    for pieces in 0..10_000 {
        let Some(page) = next else {
            return (text, pieces);
        };
        piece.clear();
        let behind = pages.write(page, &mut piece).expect(rt, "memory");
        is_so(rt, !behind.is_cut(), "a whole page");
        put(rt, &mut text, piece.octets());
        next = behind.page();
    }
    (text, 10_000)
}

/// What was seen of two members in the fifth second, and counted since the start.
fn seen(rt: &impl Abort, alloc: Global, tables: &Memory) -> Changes {
    let mut changes = Changes::new(alloc, 2).expect(rt, "memory");
    changes.look(tables, 5);
    count(&mut changes.counts);
    changes
}

/// When these happened: the server started at 2001-09-09T01:46:40Z, 65 seconds ago.
fn moments(changes: &Changes) -> Moments<'_> {
    Moments {
        start: 1_000_000_000,
        now: 65,
        rules: 0,
        changes,
    }
}

/// The whole page at a target, and in how many pieces it was written; the text is empty where there is none.
fn page(rt: &impl Abort, alloc: Global, tables: &Memory, target: &str) -> (String, usize) {
    let changes = seen(rt, alloc, tables);
    let moments = moments(&changes);
    let pages = ServerPages::new(alloc, tables, &moments);
    let first = pages.find(target.as_bytes());
    let (octets, pieces) = written(rt, alloc, &pages, first);
    (String::from_utf8(octets).expect(rt, "UTF-8"), pieces)
}

/// From which number on the page of the routes for a prefix goes, where the text spells one.
fn found(rt: &impl Abort, alloc: Global, tables: &Memory, prefix: &str) -> Option<u64> {
    let changes = seen(rt, alloc, tables);
    let moments = moments(&changes);
    let pages = ServerPages::new(alloc, tables, &moments);
    let target = text_of(rt, alloc, &["/routes/prefix?prefix=", prefix]);
    let page = pages.find(target.as_bytes())?;
    Some(page.at)
}

/// The page at a target says this.
fn says(rt: &impl Abort, alloc: Global, tables: &Memory, target: &str, said: &str) {
    let (text, _) = page(rt, alloc, tables, target);
    assert!(rt; text.contains(said), "{target} is {text}");
}

/// The page at a target says this so often.
fn says_times(
    rt: &impl Abort,
    alloc: Global,
    tables: &Memory,
    target: &str,
    said: &str,
    count: usize,
) {
    let (text, _) = page(rt, alloc, tables, target);
    assert!(rt; text.matches(said).count() == count, "{target} is {text}");
}

/// Lets tables go in one call, which is one step of a test, and not one for each of their lists.
fn let_go(_tables: Memory) {}
