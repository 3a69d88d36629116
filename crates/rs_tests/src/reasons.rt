//! Reasons worked out by hand from a configuration's rules.

use crate::common::{ROUTE, attrs, equals, prefix, text_of};
use rs_policy::Config;
use rs_reasons::explain;
use std::alloc::Global;
use std::process::Abort;

/// Of alpha's routes its import list takes 203.0.113.0/24, drops what has the community 64500:666, and
/// uses `bogons`; beta is sent nothing with 64511 in its path, nor what `bogons` drops.
const CONFIG: &str = "as = 64500
identifier = \"192.0.2.1\"
[[rules]]
name = \"empty\"
rules = []
[[rules]]
name = \"bogons\"
rules = [
    { prefix = \"10.0.0.0/8\", max = 32, action = \"drop\" },
    { prefix = \"192.168.0.0/16\", max = 32, action = \"drop\" },
]
[[client]]
name = \"alpha\"
as = 64496
listen = \"127.0.0.1:17901\"
peer = \"192.0.2.11\"
import = [
    { prefix = \"203.0.113.0/24\", action = \"pass\", strip = \"all\" },
    { community = \"64500:666\", action = \"drop\" },
    { use = \"empty\" },
    { use = \"bogons\" },
]
[[client]]
name = \"beta\"
as = 64497
listen = \"127.0.0.1:17902\"
peer = \"192.0.2.12\"
export = [{ path_has = 64511, action = \"drop\" }, { use = \"bogons\" }, { prefix = \"100.64.0.0/10\", action = \"pass\" }]
";

/// `ROUTE` with AS_PATH 64496 64511.
const FAR: [u8; 24] = [
    0x40, 1, 1, 0, 0x40, 2, 10, 2, 2, 0, 0, 0xfb, 0xf0, 0, 0, 0xfb, 0xff, 0x40, 3, 4, 192, 0, 2, 11,
];

/// `ROUTE` with the community 64500:666.
const HOLED: [u8; 27] = [
    0x40, 1, 1, 0, 0x40, 2, 6, 2, 1, 0, 0, 0xfb, 0xf0, 0x40, 3, 4, 192, 0, 2, 11, 0xc0, 8, 4, 0xfb,
    0xf4, 2, 0x9a,
];

/// A prefix with attributes from alpha to beta, and the reasons.
type Reasons = (u32, u8, &'static [u8], &'static str);

static REASONS: [Reasons; 9] = [
    // 192.168.1.0/24
    (
        0xc0a8_0100,
        24,
        &ROUTE,
        "import rule 4 of alpha (uses bogons, rule 2): drop",
    ),
    // 10.0.0.0/8
    (
        0x0a00_0000,
        8,
        &ROUTE,
        "import rule 4 of alpha (uses bogons, rule 1): drop",
    ),
    // the first rule that matches decides: 10.1.0.0/16 with the community
    (0x0a01_0000, 16, &HOLED, "import rule 2 of alpha: drop"),
    // 203.0.113.0/24 passes before the community is asked for
    (
        0xcb00_7100,
        24,
        &HOLED,
        "import rule 1 of alpha: pass; no export rule of beta matches: pass",
    ),
    // it passes the import list, which takes all communities away, and the export list drops it
    (
        0xcb00_7100,
        24,
        &FAR,
        "import rule 1 of alpha: pass; export rule 1 of beta: drop",
    ),
    // 198.51.100.0/24
    (
        0xc633_6400,
        24,
        &ROUTE,
        "no import rule of alpha matches: pass; no export rule of beta matches: pass",
    ),
    (
        0xc633_6400,
        24,
        &FAR,
        "no import rule of alpha matches: pass; export rule 1 of beta: drop",
    ),
    (0xc633_6400, 24, &HOLED, "import rule 2 of alpha: drop"),
    // 100.64.0.0/10
    (
        0x6440_0000,
        10,
        &ROUTE,
        "no import rule of alpha matches: pass; export rule 3 of beta: pass",
    ),
];

/// From the client of one place to that of the other the route has these reasons.
fn is_said(
    rt: &impl Abort,
    alloc: Global,
    config: &Config,
    (from, to): (usize, usize),
    (bits, len, octets, want): Reasons,
) {
    let prefix = prefix(rt, bits, len);
    let attrs = attrs(rt, alloc, octets);
    assert!(rt; from < config.clients() && to < config.clients());
    let answer = explain(config, from, to, &prefix, &attrs);
    let text = format!(in alloc; "{answer}").expect(rt, "a text");
    equals(rt, text.as_str(), want);
}

#[test]
fn each_list_tells_its_rule(rt: HostRuntime) {
    let config = Config::read(rt.alloc(), CONFIG).expect(&rt, "a configuration");
    for row in &REASONS {
        is_said(&rt, rt.alloc(), &config, (0, 1), *row);
    }
}

/// Where the default drops, between two clients.
static BY_DEFAULT: [((usize, usize), Reasons); 2] = [
    // beta's own routes go by no import rule
    (
        (1, 0),
        (
            0xcb00_7100,
            24,
            &ROUTE,
            "no import rule of beta matches: drop",
        ),
    ),
    (
        (0, 1),
        (
            0xcb00_7100,
            24,
            &ROUTE,
            "import rule 1 of alpha: pass; no export rule of beta matches: drop",
        ),
    ),
];

#[test]
fn the_default_is_told(rt: HostRuntime) {
    let text = text_of(&rt, rt.alloc(), &["default = \"drop\"\n", CONFIG]);
    let config = Config::read(rt.alloc(), text.as_str()).expect(&rt, "a configuration");
    for (ends, row) in &BY_DEFAULT {
        is_said(&rt, rt.alloc(), &config, *ends, *row);
    }
}
