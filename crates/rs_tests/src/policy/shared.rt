//! Rules that others use: what they make of a route.

use super::routes::goes;
use super::*;
use crate::common::{ROUTE, attrs};

/// The rules of `r` and the tables of a list, each pair with the preference of a route from 64496.
static WRITTEN_OUT: [(&str, &str, Option<u32>); 8] = [
    ("{ action = \"drop\" }", "{ use = \"r\" }", None),
    ("", "{ use = \"r\" }", Some(100)),
    (
        "{ path_has = 64999, action = \"drop\" }",
        "{ use = \"r\" }",
        Some(100),
    ),
    // in the order in which they stand
    (
        "{ path_has = 64999, action = \"drop\" }, { action = \"pass\", preference = 2 }",
        "{ use = \"r\" }, { action = \"drop\" }",
        Some(2),
    ),
    (
        "{ path_has = 64999, action = \"drop\" }",
        "{ use = \"r\" }, { action = \"pass\", preference = 3 }",
        Some(3),
    ),
    (
        "{ action = \"drop\" }",
        "{ path_has = 64999, action = \"pass\" }, { use = \"r\" }, { action = \"pass\" }",
        None,
    ),
    (
        "{ action = \"drop\" }",
        "{ action = \"pass\", preference = 4 }, { use = \"r\" }",
        Some(4),
    ),
    // more than once
    (
        "{ path_has = 64999, action = \"drop\" }",
        "{ use = \"r\" }, { use = \"r\" }, { action = \"pass\", preference = 5 }",
        Some(5),
    ),
];

/// Other rules, and the front of `r`.
const BEFORE: &str =
    "[[rules]]\nname = \"q\"\nrules = [{ action = \"drop\" }]\n[[rules]]\nname = \"r\"\nrules = [";

/// The rules pass the route with this preference or drop it, from the import list and from the export list.
#[test]
fn rules_are_written_out_where_they_are_used(rt: HostRuntime) {
    let route = attrs(&rt, rt.alloc(), &ROUTE);
    for (rules, list, want) in &WRITTEN_OUT {
        let shared = text_of(&rt, rt.alloc(), &[BEFORE, rules, "]\n"]);
        goes(&rt, rt.alloc(), &route, (shared.as_str(), list, ""), *want);
        goes(&rt, rt.alloc(), &route, (shared.as_str(), "", list), *want);
    }
}
