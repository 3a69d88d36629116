//! Worked choices, whose values come from the standard's rules and not from the program.

ghost use Rattle.std.specs.Prelude.{◌≢◌};

use crate::common::{is, is_shown};
use rs_decision::{Rank, Step, best, lost_by};
use std::process::Abort;

const EQUAL: Rank = Rank {
    preference: 100,
    path_len: 2,
    origin: 1,
    med: Some(10),
    neighbour: 64496,
    identifier: 20,
    address: 30,
    place: 0,
};

/// The ranks have different places.
fn differ(rt: &impl Abort, first: Rank, second: Rank)
    ensures { first.place ≢ second.place }
{
    assert!(rt; first.place != second.place);
}

/// The best of two ranks of different places.
fn best_of_two(rt: &impl Abort, first: Rank, second: Rank) -> Option<usize> {
    differ(rt, first, second);
    best(&[first, second])
}

/// The best of three, each of another place.
fn best_of_three(rt: &impl Abort, first: Rank, second: Rank, third: Rank) -> Option<usize> {
    differ(rt, first, second);
    differ(rt, first, third);
    differ(rt, second, third);
    best(&[first, second, third])
}

/// Worse than `EQUAL` in all but its preference.
const WORSE: Rank = Rank {
    preference: 100,
    path_len: 3,
    origin: 2,
    med: Some(11),
    neighbour: 64496,
    identifier: 21,
    address: 31,
    place: 1,
};

/// Two ranks, of which the first is better.
static BETTER: [(&str, Rank, Rank); 10] = [
    // better than `EQUAL` in one respect alone, and worse in all that come behind it
    (
        "preference",
        Rank {
            preference: 101,
            ..WORSE
        },
        EQUAL,
    ),
    (
        "AS_PATH",
        Rank {
            path_len: 1,
            ..WORSE
        },
        EQUAL,
    ),
    (
        "ORIGIN",
        Rank {
            path_len: 2,
            origin: 0,
            ..WORSE
        },
        EQUAL,
    ),
    (
        "MULTI_EXIT_DISC",
        Rank {
            path_len: 2,
            origin: 1,
            med: Some(9),
            ..WORSE
        },
        EQUAL,
    ),
    (
        "identifier",
        Rank {
            path_len: 2,
            origin: 1,
            med: Some(10),
            identifier: 19,
            ..WORSE
        },
        EQUAL,
    ),
    (
        "address",
        Rank {
            path_len: 2,
            origin: 1,
            med: Some(10),
            identifier: 20,
            address: 29,
            ..WORSE
        },
        EQUAL,
    ),
    ("place", EQUAL, Rank { place: 1, ..EQUAL }),
    // MED is not compared across neighbouring AS (RFC 4271, 9.1.2.2 c): the identifier decides
    (
        "MULTI_EXIT_DISC of two neighbours",
        Rank {
            identifier: 1,
            ..EQUAL
        },
        Rank {
            med: Some(0),
            neighbour: 64497,
            identifier: 2,
            place: 1,
            ..EQUAL
        },
    ),
    // a missing MED counts 0: it is lower than 1, and equal to 0
    (
        "no MULTI_EXIT_DISC beside 1",
        Rank {
            med: None,
            identifier: 21,
            ..EQUAL
        },
        Rank {
            med: Some(1),
            place: 1,
            ..EQUAL
        },
    ),
    (
        "no MULTI_EXIT_DISC beside 0",
        Rank {
            med: Some(0),
            place: 1,
            ..EQUAL
        },
        Rank {
            med: None,
            identifier: 21,
            ..EQUAL
        },
    ),
];

#[test]
fn the_better_of_two_is_best_whichever_comes_first(rt: HostRuntime) {
    for (respect, better, worse) in &BETTER {
        let found = best_of_two(&rt, *better, *worse);
        is(&rt, found, Some(0), respect);
        let found = best_of_two(&rt, *worse, *better);
        is(&rt, found, Some(1), respect);
    }
    is(&rt, best(&[]), None, "of none");
    is(&rt, best(&[EQUAL]), Some(0), "of one");
}

const FIRST: Rank = Rank {
    identifier: 1,
    ..EQUAL
};

const SECOND: Rank = Rank {
    med: Some(0),
    neighbour: 64497,
    identifier: 2,
    place: 1,
    ..EQUAL
};

const THIRD: Rank = Rank {
    med: Some(5),
    identifier: 3,
    place: 2,
    ..EQUAL
};

/// Three ranks and the place of the best among them.
static OF_THREE: [(Rank, Rank, Rank, usize); 7] = [
    // Two at a time the first beats the second and the third beats the first, but the first is out by the third's
    // MED before identifiers are compared: the second is best of the whole set.
    (FIRST, SECOND, THIRD, 1),
    (FIRST, THIRD, SECOND, 2),
    (SECOND, FIRST, THIRD, 0),
    (SECOND, THIRD, FIRST, 0),
    (THIRD, FIRST, SECOND, 2),
    (THIRD, SECOND, FIRST, 1),
    // the lowest place of equals
    (
        Rank { place: 3, ..EQUAL },
        Rank { place: 1, ..EQUAL },
        Rank { place: 2, ..EQUAL },
        1,
    ),
];

#[test]
fn the_best_of_three(rt: HostRuntime) {
    for (first, second, third, want) in &OF_THREE {
        let found = best_of_three(&rt, *first, *second, *third);
        is(&rt, found, Some(*want), "of three");
    }
}

/// The first in all but MED is out by two that share a lower one, of which the lower identifier wins. A longer
/// path's MED, lower still, puts out neither.
#[test]
fn the_lowest_med_of_a_level_may_be_shared(rt: HostRuntime) {
    let longer = Rank {
        path_len: 3,
        med: Some(0),
        identifier: 1,
        place: 0,
        ..EQUAL
    };
    let higher = Rank {
        med: Some(5),
        identifier: 2,
        place: 1,
        ..EQUAL
    };
    let late = Rank {
        med: Some(4),
        identifier: 9,
        place: 2,
        ..EQUAL
    };
    let early = Rank {
        med: Some(4),
        identifier: 8,
        place: 3,
        ..EQUAL
    };
    differ(&rt, longer, higher);
    differ(&rt, longer, late);
    differ(&rt, longer, early);
    differ(&rt, higher, late);
    differ(&rt, higher, early);
    differ(&rt, late, early);
    is(
        &rt,
        best(&[longer, higher, late, early]),
        Some(3),
        "early last",
    );
    is(
        &rt,
        best(&[early, late, higher, longer]),
        Some(0),
        "early first",
    );
}

/// By which step the second of two ranks of different places loses.
fn second_lost_by(rt: &impl Abort, first: Rank, second: Rank) -> Option<Step> {
    differ(rt, first, second);
    lost_by(&[first, second], 1)
}

/// Ranks that lose beside `EQUAL`, each worse in one respect and better in those that come later, but for the place.
static LOSERS: [(Rank, Step, &str); 7] = [
    (
        Rank {
            preference: 99,
            path_len: 1,
            origin: 0,
            med: Some(0),
            neighbour: 64496,
            identifier: 1,
            address: 1,
            place: 1,
        },
        Step::Preference,
        "lower preference",
    ),
    (
        Rank {
            path_len: 3,
            origin: 0,
            med: Some(0),
            identifier: 1,
            address: 1,
            place: 1,
            ..EQUAL
        },
        Step::Path,
        "longer AS_PATH",
    ),
    (
        Rank {
            origin: 2,
            med: Some(0),
            identifier: 1,
            address: 1,
            place: 1,
            ..EQUAL
        },
        Step::Origin,
        "higher ORIGIN",
    ),
    (
        Rank {
            med: Some(11),
            identifier: 1,
            address: 1,
            place: 1,
            ..EQUAL
        },
        Step::Med,
        "higher MULTI_EXIT_DISC",
    ),
    // of another neighbouring AS it isn't compared
    (
        Rank {
            med: Some(11),
            neighbour: 64497,
            identifier: 21,
            address: 1,
            place: 1,
            ..EQUAL
        },
        Step::Identifier,
        "higher BGP Identifier",
    ),
    (
        Rank {
            address: 31,
            place: 1,
            ..EQUAL
        },
        Step::Address,
        "higher address",
    ),
    (
        Rank { place: 1, ..EQUAL },
        Step::Place,
        "later place in the configuration",
    ),
];

#[test]
fn a_loser_knows_its_step(rt: HostRuntime) {
    for (loser, step, text) in &LOSERS {
        let found = second_lost_by(&rt, EQUAL, *loser);
        is(&rt, found, Some(*step), text);
        is(&rt, second_lost_by(&rt, *loser, EQUAL), None, text);
        is_shown(&rt, format!(in rt.alloc(); "{step}"), text);
    }
}

/// The first precedes the best by its BGP Identifier, but is out before by the second's MULTI_EXIT_DISC.
#[test]
fn a_rank_is_lost_to_one_that_loses(rt: HostRuntime) {
    let second = Rank { place: 1, ..THIRD };
    let best = Rank {
        med: Some(20),
        place: 2,
        ..SECOND
    };
    differ(&rt, FIRST, second);
    differ(&rt, FIRST, best);
    differ(&rt, second, best);
    let ranks = [FIRST, second, best];
    is(&rt, lost_by(&ranks, 0), Some(Step::Med), "the first");
    let step = Some(Step::Identifier);
    is(&rt, lost_by(&ranks, 1), step, "the second");
    is(&rt, lost_by(&ranks, 2), None, "the best");
}
