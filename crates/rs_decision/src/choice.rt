//! The best of the candidates, by the steps of RFC 4271, 9.1.1 and 9.1.2.2 a to g.
//!
//! All steps but c put any two ranks in one order. Step c, MULTI_EXIT_DISC, looks only at ranks of
//! the same neighbouring AS, so it says whether a rank loses among all, and not which of two is
//! better.

ghost use Rattle.std.specs.Prelude.{◌≡◌, ◌<◌, ◌==◌, ◌&&◌, ◌||◌, false, true, [], length, nat_lt, ◌≤◌, IsNone, IsSome, IfSome, IsTrue, ◌↔◌, All, Contains, slice_get, option_and_then};
ghost use Rattle.std.specs.List.{EachIndex, list_any, position};
ghost use Rattle.std.specs.Option.{ForSome};
ghost use Rattle.rs_decision.specs.Choice.{med_of, best_of};
ghost use Rattle.rs_decision.specs.Best.{HasDistinctPlaces, IsOnlyOneLeft};
ghost use Rattle.rs_decision.specs.Exits.{is_left, AreGrouped};
ghost use Rattle.rs_decision.specs.Rank.{is_level, has_lower_med, precedes, precedes_any, rank_at, IsFirst, IsFirstAmong, IsNextAfter};

use crate::exits::{Exit, gather, group, is_left};
use crate::rank::Rank;

/// As many ranks are chosen among in order: a configuration has no more clients.
const MOST: usize = 512;

/// A missing MULTI_EXIT_DISC counts as the lowest.
pub(crate) fn med_of(rank: &Rank) -> u32
    ensures { result ≡ med_of rank.now }
{
    rank.med.unwrap_or(0)
}

/// Whether two ranks are alike by the steps before c.
pub(crate) fn is_level(a: &Rank, b: &Rank) -> bool
    ensures { result ≡ is_level a.now b.now }
{
    a.preference == b.preference && a.path_len == b.path_len && a.origin == b.origin
}

/// Whether a comes before b by all steps but c.
fn precedes(a: &Rank, b: &Rank) -> bool
    ensures { result ≡ precedes a.now b.now }
{
    // 9.1.1: the highest degree of preference.
    if a.preference != b.preference {
        return b.preference < a.preference;
    }
    // 9.1.2.2 a: the shortest AS_PATH.
    if a.path_len != b.path_len {
        return a.path_len < b.path_len;
    }
    // 9.1.2.2 b: the lowest ORIGIN.
    if a.origin != b.origin {
        return a.origin < b.origin;
    }
    // 9.1.2.2 d and e, external routes and interior cost: alike for all clients of a route server.
    // 9.1.2.2 f: the lowest BGP Identifier of the sender.
    if a.identifier != b.identifier {
        return a.identifier < b.identifier;
    }
    // 9.1.2.2 g: the lowest address of the sender.
    if a.address != b.address {
        return a.address < b.address;
    }
    // The route server's own: the lowest place in the configuration, which no two share.
    a.place < b.place
}

/// Whether a rank loses by step c: another one of the same neighbouring AS, alike by the steps
/// before c, has a lower MULTI_EXIT_DISC.
pub(crate) fn loses_by_med(ranks: &[Rank], rank: &Rank) -> bool
    ensures { result ≡ list_any (λ r. has_lower_med r rank.now) ranks.now }
{
    ranks.iter().any(|r| r.neighbour == rank.neighbour
        && med_of(r) < med_of(rank)
        && is_level(r, rank))
}

/// Where the first rank by all steps but c stands. None of an empty list alone.
fn first(ranks: &[Rank]) -> Option<usize>
    ensures none { IsNone result ↔ (ranks.now ≡ []) }
    ensures first { IfSome result (IsFirst ranks.now) }
{
    if ranks.is_empty() {
        return None;
    }
    let mut first = 0;
    for (i, rank) in ranks.iter().enumerate() {
        if precedes(rank, &ranks[first]) {
            first = i;
        }
    }
    Some(first)
}

/// Where any rank stands that comes after this one, by all steps but c.
fn one_after(ranks: &[Rank], from: &Rank) -> Option<usize>
    ensures { result ≡ position (λ r. precedes from.now r) ranks.now }
{
    ranks.iter().position(|rank| precedes(from, rank))
}

/// Where the rank stands that comes next after this one, by all steps but c.
fn next_after(ranks: &[Rank], from: &Rank) -> Option<usize>
    ensures none { IsNone result → list_any (λ r. precedes from.now r) ranks.now ≡ false }
    ensures next { IfSome result (IsNextAfter ranks.now from.now) }
{
    let start = one_after(ranks, from)?;
    let mut next = start;
    for i in start + 1..ranks.len() {
        let rank = &ranks[i];
        if precedes(rank, &ranks[next]) && precedes(from, rank) {
            next = i;
        }
    }
    Some(next)
}

/// Where the best rank stands, by a search: from the first rank on to the next that doesn't lose by
/// step c. Quadratic, and so only for longer lists than `MOST`, which no configuration leads to.
fn best_in_turn(ranks: &[Rank], first: usize) -> Option<usize>
    requires distinct { HasDistinctPlaces ranks.now }
    requires first { IsFirst ranks.now first }
    ensures some { IsSome result }
    ensures left { IfSome result (IsOnlyOneLeft ranks.now) }
{
    let mut turn = first;
    while loses_by_med(ranks, &ranks[turn]) {
        turn = next_after(ranks, &ranks[turn])?;
    }
    Some(turn)
}

/// Whether a rank comes before the one at this index, by all steps but c; also where there is none.
fn precedes_any(ranks: &[Rank], rank: &Rank, other: Option<usize>) -> bool
    requires { ForSome other (λ i. i < length ranks.now) }
    ensures { result ≡ precedes_any ranks.now rank.now other }
{
    match other {
        Some(i) => precedes(rank, &ranks[i]),
        None => true,
    }
}

/// Where the first rank stands, by all steps but c, of those that are level with this one and to
/// which no exit is lower.
fn first_left(ranks: &[Rank], level: &Rank, exits: &[Exit]) -> Option<usize>
    requires { AreGrouped exits.now }
    ensures none { IsNone result → list_any (is_left exits.now level.now) ranks.now ≡ false }
    ensures first { IfSome result (IsFirstAmong (is_left exits.now level.now) ranks.now) }
{
    let mut left = None;
    for (i, rank) in ranks.iter().enumerate() {
        if is_left(exits, level, rank) && precedes_any(ranks, rank, left) {
            left = Some(i);
        }
    }
    left
}

/// Where the best rank stands, by putting exits in order: some n log n steps.
fn best_in_order(ranks: &[Rank], first: usize) -> Option<usize>
    requires distinct { HasDistinctPlaces ranks.now }
    requires few { length ranks.now ≤ MOST }
    requires first { IsFirst ranks.now first }
    ensures some { IsSome result }
    ensures left { IfSome result (IsOnlyOneLeft ranks.now) }
{
    let level = &ranks[first];
    let mut room = [Exit {
        neighbour: 0,
        med: 0,
    }; MOST];
    let count = gather(ranks, level, &mut room);
    let exits = &mut room[..count];
    group(exits);
    first_left(ranks, level, exits)
}

/// The index of the best rank. None of an empty list alone.
///
/// It is the first rank by all other steps among those that don't lose by step c.
pub fn best(ranks: &[Rank]) -> Option<usize>
    requires { HasDistinctPlaces ranks.now }
    ensures none { IsNone result ↔ (ranks.now ≡ []) }
    ensures left { IfSome result (IsOnlyOneLeft ranks.now) }
    ensures value { option_and_then (slice_get ranks.now) result ≡ best_of ranks.now }
{
    let best = first(ranks)?;
    if !loses_by_med(ranks, &ranks[best]) {
        return Some(best);
    }
    if ranks.len() > MOST {
        return best_in_turn(ranks, best);
    }
    best_in_order(ranks, best)
}
