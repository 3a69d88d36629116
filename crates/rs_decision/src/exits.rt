//! Step c of the choice for a whole level at once: the exits are put in order by neighbouring AS and
//! MULTI_EXIT_DISC, so that a search tells whether a rank loses.

ghost use Rattle.std.specs.Prelude.{◌≡◌, ◌≤◌, length, map, filter, take};
ghost use Rattle.std.specs.List.{list_any};
ghost use Rattle.std.specs.List.Sorted.{IsPermutation};
ghost use Rattle.rs_decision.specs.Exits.{exit_of, is_left, is_lower, AreGrouped};
ghost use Rattle.rs_decision.specs.Rank.{is_level};

use crate::choice::{is_level, med_of};
use crate::rank::Rank;

/// What step c looks at in a rank.
#[derive(Clone, Copy)]
pub(crate) struct Exit {
    pub(crate) neighbour: u32,
    pub(crate) med: u32,
}

/// What step c looks at in this rank.
fn exit_of(rank: &Rank) -> Exit
    ensures { result ≡ exit_of rank.now }
{
    Exit {
        neighbour: rank.neighbour,
        med: med_of(rank),
    }
}

/// Writes the exits of the ranks that are level with this one, and answers how many there are.
pub(crate) fn gather(ranks: &[Rank], level: &Rank, exits: &mut [Exit]) -> usize
    requires { length ranks.now ≤ length exits.old }
    ensures within { result ≤ length exits.new }
    ensures listed { take result exits.new ≡ map exit_of (filter (λ r. is_level r level.now) ranks.now) }
{
    let mut count = 0;
    for rank in ranks {
        if is_level(rank, level) {
            exits[count] = exit_of(rank);
            count += 1;
        }
    }
    count
}

/// Puts exits in order: by neighbouring AS, and the lowest MULTI_EXIT_DISC of each first.
pub(crate) fn group(exits: &mut [Exit])
    ensures same { IsPermutation exits.old exits.new }
    ensures grouped { AreGrouped exits.new }
{
    exits.sort_unstable_by_key(|exit| (exit.neighbour, exit.med));
}

/// Whether an exit to the rank's neighbouring AS has a lower MULTI_EXIT_DISC, by a search.
fn has_lower(exits: &[Exit], rank: &Rank) -> bool
    requires { AreGrouped exits.now }
    ensures { result ≡ list_any (λ e. is_lower e rank.now) exits.now }
{
    let start = exits.partition_point(|exit| exit.neighbour < rank.neighbour);
    if start == exits.len() {
        return false;
    }
    let lowest = exits[start];
    lowest.neighbour == rank.neighbour && lowest.med < med_of(rank)
}

/// Whether a rank is level with this one and no exit is lower.
pub(crate) fn is_left(exits: &[Exit], level: &Rank, rank: &Rank) -> bool
    requires { AreGrouped exits.now }
    ensures { result ≡ is_left exits.now level.now rank.now }
{
    is_level(rank, level) && !has_lower(exits, rank)
}
