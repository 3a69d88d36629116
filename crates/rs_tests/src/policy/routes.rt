//! Routes and what the rules make of them. Attributes are given as the octets of an UPDATE.

use super::*;
use crate::common::{ROUTE, attrs, prefix};
use rs_attrs::{Attrs, CommunityPattern, Strip};

/// `ROUTE` with the communities 64500:1 and 64500:2.
static COLOURED: &[u8] = &[
    0x40, 1, 1, 0, 0x40, 2, 6, 2, 1, 0, 0, 0xfb, 0xf0, 0x40, 3, 4, 192, 0, 2, 11, 0xc0, 8, 8, 0xfb,
    0xf4, 0, 1, 0xfb, 0xf4, 0, 2,
];

/// A configuration of a and b with this at its top, in a's import list and in b's export list.
fn config(rt: &impl Abort, alloc: Global, rules: (&str, &str, &str)) -> Config {
    let (top, import, export) = rules;
    let parts = [
        TOP,
        top,
        CLIENT,
        "import = [",
        import,
        "]\n",
        OTHER,
        "export = [",
        export,
        "]\n",
    ];
    read_parts(rt, alloc, &parts)
}

/// The preference with which a route is passed, and what is taken away.
fn passed<'a>(verdict: &Verdict<'a>) -> Option<(u32, Strip<'a>)> {
    match verdict {
        Verdict::Drop => None,
        Verdict::Pass { preference, strip } => Some((*preference, *strip)),
    }
}

/// What the rules make of 198.51.100.0/24 with these attributes on its way from a to b; they pass it with the same preference where the
/// import list was asked before.
fn judged<'a>(rt: &impl Abort, config: &'a Config, attrs: &Attrs) -> Option<(u32, Strip<'a>)> {
    assert!(rt; config.clients() == 2);
    let prefix = prefix(rt, 0xc633_6400, 24);
    let note = import_note(config, 0, &prefix, attrs);
    let found = passed(&judge_noted(config, 0, 1, &prefix, attrs, note));
    let alone = passed(&judge(config, 0, 1, &prefix, attrs));
    equals(rt, alone.map(|it| it.0), found.map(|it| it.0));
    found
}

/// By these rules a route of a goes to b with this preference, or not at all.
pub(super) fn goes(
    rt: &impl Abort,
    alloc: Global,
    attrs: &Attrs,
    rules: (&str, &str, &str),
    want: Option<u32>,
) {
    let config = config(rt, alloc, rules);
    let found = judged(rt, &config, attrs).map(|it| it.0);
    is_of(rt, found, want, &rules);
    let_go(config);
}

/// Import and export rules, each pair with the preference of the route.
static LISTS: [(&str, &str, Option<u32>); 14] = [
    (
        "{ action = \"pass\", preference = 1 }, { action = \"drop\" }",
        "",
        Some(1),
    ),
    ("{ action = \"drop\" }, { action = \"pass\" }", "", None),
    (
        "{ path_has = 64999, action = \"drop\" }, { action = \"pass\", preference = 2 }",
        "",
        Some(2),
    ),
    // the preference of the export rule goes before that of the import rule
    (
        "{ action = \"pass\", preference = 200 }",
        "{ action = \"pass\", preference = 50 }",
        Some(50),
    ),
    (
        "{ action = \"pass\", preference = 200 }",
        "{ action = \"pass\" }",
        Some(200),
    ),
    (
        "{ action = \"pass\" }",
        "{ action = \"pass\", preference = 0 }",
        Some(0),
    ),
    (
        "{ action = \"pass\", preference = 4294967295 }",
        "",
        Some(4294967295),
    ),
    // names of clients; in an import list the sender is always the client itself
    ("{ from = \"a\", action = \"drop\" }", "", None),
    ("{ from = \"b\", action = \"drop\" }", "", Some(100)),
    ("", "{ from = \"a\", action = \"drop\" }", None),
    ("", "{ from = \"b\", action = \"drop\" }", Some(100)),
    // a rule matches where all of its tests hold
    (
        "{ from = \"a\", path_has = 64496, prefix = \"198.51.100.0/24\", action = \"drop\" }",
        "",
        None,
    ),
    (
        "{ from = \"a\", path_has = 64497, prefix = \"198.51.100.0/24\", action = \"drop\" }",
        "",
        Some(100),
    ),
    (
        "{ from = \"a\", path_has = 64496, prefix = \"198.51.101.0/24\", action = \"drop\" }",
        "",
        Some(100),
    ),
];

/// The same with a default: the text at the top, import and export rules, and the preference of the route.
static DEFAULTS: [(&str, &str, &str, Option<u32>); 7] = [
    ("", "", "", Some(100)),
    ("default = \"drop\"\n", "", "", None),
    ("default = \"drop\"\n", "{ action = \"pass\" }", "", None),
    ("default = \"drop\"\n", "", "{ action = \"pass\" }", None),
    (
        "default = \"drop\"\n",
        "{ action = \"pass\" }",
        "{ action = \"pass\" }",
        Some(100),
    ),
    ("", "{ action = \"drop\" }", "", None),
    ("", "", "{ action = \"drop\" }", None),
];

/// Without rules the default decides, and else the first rule that matches.
#[test]
fn the_first_rule_that_matches_decides(rt: HostRuntime) {
    let route = attrs(&rt, rt.alloc(), &ROUTE);
    for (top, import, export, want) in &DEFAULTS {
        goes(&rt, rt.alloc(), &route, (top, import, export), *want);
    }
    for (import, export, want) in &LISTS {
        goes(&rt, rt.alloc(), &route, ("", import, export), *want);
    }
}

/// 64500:1.
const ONE: CommunityPattern = CommunityPattern {
    high: Some(64500),
    low: Some(1),
};

/// 64500:2.
const TWO: CommunityPattern = CommunityPattern {
    high: Some(64500),
    low: Some(2),
};

/// 1:*.
const OTHERS: CommunityPattern = CommunityPattern {
    high: Some(1),
    low: None,
};

/// What the import and the export rules below take away together.
static OF_BOTH: Strip<'static> = Strip {
    communities: [&[ONE], &[TWO, OTHERS]],
    all_communities: false,
    large: [&[], &[]],
    all_large: false,
};

/// By these rules the coloured route goes with this preference, and all communities are taken away, but not all large ones; or by the lists
/// above.
fn loses(
    rt: &impl Abort,
    alloc: Global,
    rules: (&str, &str, &str),
    (preference, all): (u32, bool),
) {
    let config = config(rt, alloc, rules);
    let coloured = attrs(rt, alloc, COLOURED);
    let (found, strip) = judged(rt, &config, &coloured).expect(rt, "a route that goes to b");
    equals(rt, found, preference);
    equals(rt, (strip.all_communities, strip.all_large), (all, false));
    equals(rt, strip.is_same(&OF_BOTH), !all);
    let_go(config);
}

#[test]
fn both_rules_take_communities_away(rt: HostRuntime) {
    // the export rule sees the community that the import rule takes away
    let import = "{ action = \"pass\", strip = [\"64500:1\"] }";
    let export =
        "{ community = \"64500:1\", action = \"pass\", strip = [\"64500:2\", \"1:*\"], preference = 7 }";
    loses(&rt, rt.alloc(), ("", import, export), (7, false));
    let all = "{ action = \"pass\", strip = \"all\" }";
    loses(&rt, rt.alloc(), ("", all, import), (100, true));
    loses(&rt, rt.alloc(), ("", import, all), (100, true));
}
