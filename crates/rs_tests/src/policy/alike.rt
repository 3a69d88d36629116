//! Clients to which the same becomes of each route, and routes of which the same becomes on their way to a client.

use super::*;
use crate::common::{ROUTE, attrs};
use rs_attrs::Attrs;

/// A list of prefixes, rules that ask for the prefix, and rules that don't.
const NAMED: &str = concat!(
    "[[list]]\nname = \"l\"\nprefixes = [\"198.51.100.0/24\"]\nases = [64497]\n",
    "[[rules]]\nname = \"r\"\nrules = [{ path_has = 64999, action = \"drop\" }, { prefix = \"198.51.100.0/24\", action = \"drop\" }]\n",
    "[[rules]]\nname = \"s\"\nrules = [{ community = \"64496:1\", action = \"drop\" }, { origin_in = \"l\", action = \"drop\" }]\n",
);

/// Export lists, and whether none of their rules asks for the prefix.
static EXPORTS: [(&str, bool); 7] = [
    ("", true),
    ("{ action = \"drop\" }", true),
    (
        "{ community = \"64496:1\", action = \"drop\" }, { path_has = 64999, action = \"pass\" }",
        true,
    ),
    (
        "{ community = \"64496:1\", action = \"drop\" }, { prefix = \"198.51.100.0/24\", action = \"drop\" }",
        false,
    ),
    ("{ prefix_in = \"l\", action = \"drop\" }", false),
    ("{ action = \"pass\" }, { use = \"r\" }", false),
    ("{ use = \"s\" }, { action = \"pass\" }", true),
];

#[test]
fn routes_are_judged_alike_where_no_rule_asks_for_the_prefix(rt: HostRuntime) {
    for (list, want) in &EXPORTS {
        let parts = [TOP, CLIENT, OTHER, "export = [", list, "]\n", NAMED];
        let config = read_parts(&rt, rt.alloc(), &parts);
        assert!(&rt; config.clients() > 1);
        is_of(&rt, judges_prefixes_alike(&config, 1), *want, list);
        // the other client has no export rules
        is_of(&rt, judges_prefixes_alike(&config, 0), true, list);
        is_of(&rt, judges_alike(&config, 0, 1), list.is_empty(), list);
        let_go(config);
    }
}

/// Rules that name the receiver, beside those above.
const NAMING: &str =
    "[[rules]]\nname = \"p\"\nrules = [{ community = \"0:peer\", action = \"drop\" }]\n";

/// The export lists of two clients, whether they have the same rules, and whether the same becomes of each route on its way to
/// both, as far as is told.
static PAIRS: [(&str, &str, bool, bool); 8] = [
    ("", "", true, true),
    ("{ use = \"s\" }", "{ use = \"s\" }", true, true),
    (
        "{ use = \"s\" }, { use = \"r\" }",
        "{ use = \"s\" }, { use = \"r\" }",
        true,
        true,
    ),
    (
        "{ use = \"s\" }, { use = \"r\" }",
        "{ use = \"r\" }, { use = \"s\" }",
        false,
        false,
    ),
    (
        "{ use = \"s\" }, { use = \"r\" }",
        "{ use = \"s\" }",
        false,
        false,
    ),
    ("{ use = \"s\" }", "", false, false),
    ("{ use = \"p\" }", "{ use = \"p\" }", true, false),
    (
        "{ use = \"s\" }, { use = \"p\" }",
        "{ use = \"s\" }, { use = \"p\" }",
        true,
        false,
    ),
];

#[test]
fn clients_that_use_the_same_rules_are_judged_alike(rt: HostRuntime) {
    for (one, other, same, alike) in &PAIRS {
        let parts = [
            TOP,
            CLIENT,
            "export = [",
            one,
            "]\n",
            OTHER,
            "export = [",
            other,
            "]\n",
            NAMED,
            NAMING,
        ];
        let config = read_parts(&rt, rt.alloc(), &parts);
        assert!(&rt; config.clients() > 1);
        let lists = (*one, *other);
        is_of(&rt, config.has_same_exports(0, 1), *same, &lists);
        is_of(&rt, judges_alike(&config, 0, 1), *alike, &lists);
        let_go(config);
    }
}

/// The export rules of an exchange, which name the receiver in communities and in large ones.
const ACTIONS: &str = concat!(
    "[[rules]]\nname = \"actions\"\nrules = [{ community = \"0:peer\", action = \"drop\" }, ",
    "{ large_community = \"64500:0:peer\", action = \"drop\" }, { community = \"0:64500\", action = \"drop\" }]\n",
);

/// The attributes of `ROUTE`, and behind them what these octets spell, if anything.
fn with_communities(rt: &impl Abort, alloc: Global, octets: &[u8]) -> Attrs {
    let mut field = Vec::from_slice(alloc, &ROUTE).expect(rt, "octets");
    field.extend_from_slice(octets).expect(rt, "more octets");
    attrs(rt, alloc, &field)
}

/// Attributes of communities, whether it may count by those rules who a route with them goes to, and whether first parts alone tell
/// that it doesn't.
static ASKING: [(&[u8], bool, bool); 8] = [
    (&[], false, true),
    // 64500:1, and 1:64500
    (&[0xc0, 8, 4, 0xfb, 0xf4, 0, 1], false, true),
    (&[0xc0, 8, 4, 0, 1, 0xfb, 0xf4], false, true),
    // 32:7, whose first part has the mark of 0
    (&[0xc0, 8, 4, 0, 32, 0, 7], false, true),
    // 0:64497, a member, and 0:7, none, beside 64500:1
    (&[0xc0, 8, 4, 0, 0, 0xfb, 0xf1], true, false),
    (&[0xc0, 8, 8, 0xfb, 0xf4, 0, 1, 0, 0, 0, 7], true, false),
    // 64500:0:65551, and 64500:1:65551
    (
        &[0xc0, 32, 12, 0, 0, 0xfb, 0xf4, 0, 0, 0, 0, 0, 1, 0, 0x0f],
        true,
        false,
    ),
    (
        &[0xc0, 32, 12, 0, 0, 0xfb, 0xf4, 0, 0, 0, 1, 0, 1, 0, 0x0f],
        false,
        false,
    ),
];

#[test]
fn it_counts_who_a_route_goes_to_where_a_community_names_a_receiver(rt: HostRuntime) {
    let uses = "export = [{ use = \"actions\" }]\n";
    let parts = [TOP, CLIENT, OTHER, uses, ACTIONS];
    let config = read_parts(&rt, rt.alloc(), &parts);
    assert!(&rt; config.clients() > 1);
    let named = asked_of_receivers(&config, 1);
    // the other client has no export rules
    let none = asked_of_receivers(&config, 0);
    for (octets, want, told) in &ASKING {
        let attrs = with_communities(&rt, rt.alloc(), octets);
        is_of(&rt, may_ask_receiver(&config, 1, &attrs), *want, octets);
        is_of(&rt, may_ask_receiver(&config, 0, &attrs), false, octets);
        is_of(&rt, attrs.lacks(&named), *told, octets);
        is_of(&rt, attrs.lacks(&none), true, octets);
    }
    let_go(config);
}

/// Rules of which each asks for a community.
const ASKED: &str =
    "[[rules]]\nname = \"q\"\nrules = [{ community = \"64496:1\", path_has = 64999, action = \"drop\" }, { large_community = \"64500:0:peer\", action = \"drop\" }]\n";

/// 64496:2
const SHORT: &[u8] = &[0xc0, 8, 4, 0xfb, 0xf0, 0, 2];

/// 64499:1 and 64500:1
const OTHERS: &[u8] = &[0xc0, 8, 8, 0xfb, 0xf3, 0, 1, 0xfb, 0xf4, 0, 1];

/// 64500:1:65551
const LARGE: &[u8] = &[0xc0, 32, 12, 0, 0, 0xfb, 0xf4, 0, 0, 0, 1, 0, 1, 0, 0x0f];

/// 64528:1 and 64532:0:65551, whose first parts have the marks of 64496 and of 64500
const MARKED: &[u8] = &[
    0xc0, 8, 4, 0xfc, 0x10, 0, 1, 0xc0, 32, 12, 0, 0, 0xfc, 0x14, 0, 0, 0, 0, 0, 1, 0, 0x0f,
];

/// Rules that ask for communities of eight first parts; with one more, of a ninth, first parts are told by their marks alone.
const EIGHT: &str = concat!(
    "{ community = \"64496:1\", action = \"drop\" }, { community = \"1:1\", action = \"drop\" }, ",
    "{ community = \"2:1\", action = \"drop\" }, { community = \"3:1\", action = \"drop\" }, ",
    "{ community = \"4:1\", action = \"drop\" }, { community = \"5:1\", action = \"drop\" }, ",
    "{ community = \"6:1\", action = \"drop\" }, { community = \"6:2\", action = \"drop\" }, { community = \"7:1\", action = \"drop\" }",
);

const NINE: &str = concat!(
    "{ community = \"64496:1\", action = \"drop\" }, { community = \"1:1\", action = \"drop\" }, ",
    "{ community = \"2:1\", action = \"drop\" }, { community = \"3:1\", action = \"drop\" }, ",
    "{ community = \"4:1\", action = \"drop\" }, { community = \"5:1\", action = \"drop\" }, ",
    "{ community = \"6:1\", action = \"drop\" }, { community = \"7:1\", action = \"drop\" }, { community = \"8:1\", action = \"drop\" }",
);

/// What no rule decides, an export list, and attributes of communities: whether first parts tell of a route with them that the list
/// asks for none; None where a rule asks for something else, or what no rule decides is dropped.
static UNASKED: [(&str, &str, &[u8], Option<bool>); 18] = [
    ("pass", "", &[], Some(true)),
    ("pass", "", LARGE, Some(true)),
    ("drop", "", &[], None),
    ("pass", "{ action = \"drop\" }", &[], None),
    ("pass", "{ use = \"s\" }", &[], None),
    ("pass", "{ use = \"q\" }", &[], Some(true)),
    // by the first part alone
    ("pass", "{ use = \"q\" }", SHORT, Some(false)),
    ("pass", "{ use = \"q\" }", OTHERS, Some(true)),
    ("pass", "{ use = \"q\" }", LARGE, Some(false)),
    ("pass", "{ use = \"q\" }", MARKED, Some(true)),
    ("pass", EIGHT, MARKED, Some(true)),
    ("pass", EIGHT, SHORT, Some(false)),
    ("pass", NINE, MARKED, Some(false)),
    ("pass", NINE, LARGE, Some(true)),
    ("drop", "{ use = \"q\" }", OTHERS, None),
    (
        "pass",
        "{ use = \"q\" }, { prefix_in = \"l\", action = \"drop\" }",
        OTHERS,
        None,
    ),
    // the receiver is 64497
    (
        "pass",
        "{ community = \"peer:1\", action = \"drop\" }",
        SHORT,
        Some(true),
    ),
    (
        "pass",
        "{ community = \"peer:1\", action = \"drop\" }, { community = \"64499:*\", action = \"drop\" }",
        OTHERS,
        Some(false),
    ),
];

#[test]
fn a_route_without_the_communities_that_are_asked_for_is_known(rt: HostRuntime) {
    for (default, list, octets, want) in &UNASKED {
        let parts = [
            TOP,
            "default = \"",
            default,
            "\"\n",
            CLIENT,
            OTHER,
            "export = [",
            list,
            "]\n",
            NAMED,
            ASKED,
        ];
        let config = read_parts(&rt, rt.alloc(), &parts);
        assert!(&rt; config.clients() > 1);
        let attrs = with_communities(&rt, rt.alloc(), octets);
        let answer = asked_by_exports(&config, 1).map(|asked| attrs.lacks(&asked));
        is_of(&rt, answer, *want, &(default, list, octets));
        let_go(config);
    }
}
