//! Prefixes as texts within a target, and as numbers by which a page goes on.

use crate::common::is;
use crate::pages::{found, let_go, server};
use rs_page_parts::keys::prefix_at;

/// Texts of prefixes, and what they spell: bits and length.
static PREFIXES: [(&str, Option<(u32, u8)>); 12] = [
    ("0.0.0.0/0", Some((0, 0))),
    ("192.0.2.0/24", Some((0xc000_0200, 24))),
    ("192.0.2.0%2f24", Some((0xc000_0200, 24))),
    ("192.0.2.1", Some((0xc000_0201, 32))),
    ("255.255.255.255/32", Some((u32::MAX, 32))),
    ("192.0.2.1/24", None),
    ("192.0.2/24", None),
    ("192.0.2.256/32", None),
    ("192.0.2.0/33", None),
    ("192.0.2.0.0/24", None),
    ("2001:db8::/32", None),
    ("", None),
];

/// The page of a prefix goes on from the number of the prefix that the text spells; there is no page where it spells none.
#[test]
fn prefixes_are_read(rt: HostRuntime) {
    let tables = server(&rt, rt.alloc(), 0);
    for (text, want) in &PREFIXES {
        let at = found(&rt, rt.alloc(), &tables, text);
        let prefix = at.map(|at| prefix_at(at));
        is(&rt, prefix.map(|it| (it.bits(), it.len())), *want, text);
    }
    let_go(tables);
}
