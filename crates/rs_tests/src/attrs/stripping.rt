//! What a strip takes away of the communities of a route, and which communities a route has.

use super::{ROUTE, attrs_of, route_with};
use crate::common::is_of;
use rs_attrs::{Attrs, CommunityPattern, LargeCommunityPattern, OwnedStrip, Strip, stripped};
use std::alloc::Global;
use std::process::Abort;

// 64496:1, 64496:2, 64496:1, with the partial bit; 64496:1:2, 64496:1:3; and an unknown attribute behind them
const SENT: &[u8] =
    b"\xe0\x08\x0c\xfb\xf0\x00\x01\xfb\xf0\x00\x02\xfb\xf0\x00\x01\xc0\x20\x18\x00\x00\xfb\xf0\x00\x00\x00\x01\x00\x00\x00\x02\x00\x00\xfb\xf0\x00\x00\x00\x01\x00\x00\x00\x03\xc0\x63\x02\xab\xcd";

const WITHOUT_1: &[u8] =
    b"\xe0\x08\x04\xfb\xf0\x00\x02\xc0\x20\x18\x00\x00\xfb\xf0\x00\x00\x00\x01\x00\x00\x00\x02\x00\x00\xfb\xf0\x00\x00\x00\x01\x00\x00\x00\x03\xc0\x63\x02\xab\xcd";

const WITHOUT_COMMUNITIES: &[u8] =
    b"\xc0\x20\x18\x00\x00\xfb\xf0\x00\x00\x00\x01\x00\x00\x00\x02\x00\x00\xfb\xf0\x00\x00\x00\x01\x00\x00\x00\x03\xc0\x63\x02\xab\xcd";

const WITHOUT_1_2: &[u8] =
    b"\xe0\x08\x0c\xfb\xf0\x00\x01\xfb\xf0\x00\x02\xfb\xf0\x00\x01\xc0\x20\x0c\x00\x00\xfb\xf0\x00\x00\x00\x01\x00\x00\x00\x03\xc0\x63\x02\xab\xcd";

const WITHOUT_LARGE: &[u8] =
    b"\xe0\x08\x0c\xfb\xf0\x00\x01\xfb\xf0\x00\x02\xfb\xf0\x00\x01\xc0\x63\x02\xab\xcd";

const WITHOUT_ANY: &[u8] = b"\xc0\x63\x02\xab\xcd";

pub(super) const NOTHING: Strip<'static> = Strip {
    communities: [&[], &[]],
    all_communities: false,
    large: [&[], &[]],
    all_large: false,
};

/// 64496:1
const C_1: CommunityPattern = CommunityPattern {
    high: Some(64496),
    low: Some(1),
};

/// 64496:2
const C_2: CommunityPattern = CommunityPattern {
    high: Some(64496),
    low: Some(2),
};

/// 64496:3
const C_3: CommunityPattern = CommunityPattern {
    high: Some(64496),
    low: Some(3),
};

/// 64496:*
const C_ANY: CommunityPattern = CommunityPattern {
    high: Some(64496),
    low: None,
};

/// 64497:1
const C_OTHER: CommunityPattern = CommunityPattern {
    high: Some(64497),
    low: Some(1),
};

/// *:3
const C_3_OF_ANY: CommunityPattern = CommunityPattern {
    high: None,
    low: Some(3),
};

/// 64496:1:2
const L_1_2: LargeCommunityPattern = LargeCommunityPattern {
    global: Some(64496),
    first: Some(1),
    second: Some(2),
};

/// 64496:1:*
const L_1_ANY: LargeCommunityPattern = LargeCommunityPattern {
    global: Some(64496),
    first: Some(1),
    second: None,
};

/// 64496:2:*
const L_2_ANY: LargeCommunityPattern = LargeCommunityPattern {
    global: Some(64496),
    first: Some(2),
    second: None,
};

/// 64497:1:2
const L_OTHER: LargeCommunityPattern = LargeCommunityPattern {
    global: Some(64497),
    first: Some(1),
    second: Some(2),
};

/// What is stripped, and what is left of the communities sent.
static STRIPPED: [(Strip<'static>, &[u8]); 13] = [
    (NOTHING, SENT),
    (
        Strip {
            communities: [&[C_3], &[C_3]],
            ..NOTHING
        },
        SENT,
    ),
    (
        Strip {
            communities: [&[C_1], &[]],
            ..NOTHING
        },
        WITHOUT_1,
    ),
    (
        Strip {
            communities: [&[], &[C_3, C_1]],
            ..NOTHING
        },
        WITHOUT_1,
    ),
    (
        Strip {
            communities: [&[C_2], &[C_1]],
            ..NOTHING
        },
        WITHOUT_COMMUNITIES,
    ),
    (
        Strip {
            communities: [&[C_ANY], &[]],
            ..NOTHING
        },
        WITHOUT_COMMUNITIES,
    ),
    (
        Strip {
            communities: [&[C_3], &[]],
            all_communities: true,
            ..NOTHING
        },
        WITHOUT_COMMUNITIES,
    ),
    (
        Strip {
            large: [&[L_2_ANY], &[]],
            ..NOTHING
        },
        SENT,
    ),
    (
        Strip {
            large: [&[L_1_2], &[]],
            ..NOTHING
        },
        WITHOUT_1_2,
    ),
    (
        Strip {
            large: [&[], &[L_2_ANY, L_1_2]],
            ..NOTHING
        },
        WITHOUT_1_2,
    ),
    (
        Strip {
            large: [&[L_2_ANY], &[L_1_ANY]],
            ..NOTHING
        },
        WITHOUT_LARGE,
    ),
    (
        Strip {
            all_large: true,
            ..NOTHING
        },
        WITHOUT_LARGE,
    ),
    (
        Strip {
            communities: [&[C_1], &[C_2]],
            large: [&[L_1_ANY], &[]],
            ..NOTHING
        },
        WITHOUT_ANY,
    ),
];

/// A strip leaves just this of attributes, and says whether that is less.
fn leaves(rt: &impl Abort, alloc: Global, strip: &Strip<'_>, attrs: &Attrs, left: &Attrs) {
    is_of(rt, strip.changes(attrs), left != attrs, strip);
    let outcome = stripped(alloc, attrs, strip).expect(rt, "attributes");
    is_of(rt, &outcome, left, strip);
}

/// A route without any communities is left as it is.
#[test]
fn strips_communities(rt: HostRuntime) {
    let sent = route_with(&rt, rt.alloc(), SENT);
    let route = attrs_of(&rt, rt.alloc(), &ROUTE);
    for (strip, left) in &STRIPPED {
        let left = route_with(&rt, rt.alloc(), left);
        leaves(&rt, rt.alloc(), strip, &sent, &left);
        leaves(&rt, rt.alloc(), strip, &route, &route);
    }
}

/// A strip that owns its patterns leaves the same.
#[test]
fn strips_by_patterns_of_its_own(rt: HostRuntime) {
    let sent = route_with(&rt, rt.alloc(), SENT);
    for (strip, left) in &STRIPPED {
        let left = route_with(&rt, rt.alloc(), left);
        let owned = OwnedStrip::of(rt.alloc(), strip).expect(&rt, "a strip");
        leaves(&rt, rt.alloc(), &owned.lent(), &sent, &left);
    }
}

/// Patterns, and whether a community that was sent is like each.
static ASKED: [(CommunityPattern, bool); 4] = [
    (C_1, true),
    (C_2, true),
    (C_3, false),
    (C_ANY, true),
];

/// The same of large communities.
static ASKED_LARGE: [(LargeCommunityPattern, bool); 3] = [
    (L_1_2, true),
    (L_1_ANY, true),
    (L_2_ANY, false),
];

/// A route without any communities has none like a pattern.
#[test]
fn has_communities_like_patterns(rt: HostRuntime) {
    let sent = route_with(&rt, rt.alloc(), SENT);
    let route = attrs_of(&rt, rt.alloc(), &ROUTE);
    for (pattern, want) in &ASKED {
        is_of(&rt, sent.tags().has_community_like(pattern), *want, pattern);
        is_of(
            &rt,
            route.tags().has_community_like(pattern),
            false,
            pattern,
        );
    }
    for (pattern, want) in &ASKED_LARGE {
        is_of(
            &rt,
            sent.tags().has_large_community_like(pattern),
            *want,
            pattern,
        );
        is_of(
            &rt,
            route.tags().has_large_community_like(pattern),
            false,
            pattern,
        );
    }
}

/// Patterns, and whether it is told of each by its first part alone that no community that was sent is like it.
static LACKED: [(CommunityPattern, bool); 4] = [
    (C_1, false),
    (C_3, false),
    (C_OTHER, true),
    (C_3_OF_ANY, false),
];

/// The same of large communities.
static LACKED_LARGE: [(LargeCommunityPattern, bool); 3] = [
    (L_1_2, false),
    (L_2_ANY, false),
    (L_OTHER, true),
];

/// Of a route without any communities it is told wherever a pattern has a first part.
#[test]
fn lacks_communities_by_their_first_parts(rt: HostRuntime) {
    let sent = route_with(&rt, rt.alloc(), SENT);
    let route = attrs_of(&rt, rt.alloc(), &ROUTE);
    for (pattern, want) in &LACKED {
        is_of(
            &rt,
            sent.tags().lacks_community_like(pattern),
            *want,
            pattern,
        );
        let has_first = pattern.high.is_some();
        is_of(
            &rt,
            route.tags().lacks_community_like(pattern),
            has_first,
            pattern,
        );
    }
    for (pattern, want) in &LACKED_LARGE {
        is_of(
            &rt,
            sent.tags().lacks_large_community_like(pattern),
            *want,
            pattern,
        );
        let has_first = pattern.global.is_some();
        is_of(
            &rt,
            route.tags().lacks_large_community_like(pattern),
            has_first,
            pattern,
        );
    }
}

/// Of these strips each is the same as itself, and as no other.
#[test]
fn strips_by_the_same_patterns(rt: HostRuntime) {
    for (place, (strip, _)) in STRIPPED.iter().enumerate() {
        for (at, (other, _)) in STRIPPED.iter().enumerate() {
            is_of(&rt, strip.is_same(other), place == at, &(place, at));
        }
    }
}
