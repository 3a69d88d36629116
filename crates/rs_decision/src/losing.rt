//! By which step of the choice a candidate lost.

ghost use Rattle.std.specs.Prelude.{◌≡◌, ◌<◌, ◌↔◌, length, IsNone, Some};
ghost use Rattle.rs_decision.specs.Best.{HasDistinctPlaces};
ghost use Rattle.rs_decision.specs.Choice.{best_of};
ghost use Rattle.rs_decision.specs.Losing.{lost_by, lost_to};
ghost use Rattle.rs_decision.specs.Rank.{rank_at};

use crate::choice::{best, loses_by_med};
use crate::rank::Rank;
use std::fmt;

/// A step of the choice, at which the better of two ranks stays.
#[derive(Clone, Copy, Debug, PartialEq, Eq)]
pub enum Step {
    /// The degree of preference (RFC 4271, 9.1.1).
    Preference,
    /// The length of AS_PATH (RFC 4271, 9.1.2.2 a).
    Path,
    /// ORIGIN (RFC 4271, 9.1.2.2 b).
    Origin,
    /// MULTI_EXIT_DISC (RFC 4271, 9.1.2.2 c).
    Med,
    /// The sender's BGP Identifier (RFC 4271, 9.1.2.2 f).
    Identifier,
    /// The sender's address (RFC 4271, 9.1.2.2 g).
    Address,
    /// The sender's place in the configuration, which the standard doesn't have.
    Place,
}

impl fmt::Display for Step {
    fn fmt<W: fmt::Write>(&self, f: &mut fmt::Formatter<W>) -> fmt::Result {
        f.write_str(match self {
            Step::Preference => "lower preference",
            Step::Path => "longer AS_PATH",
            Step::Origin => "higher ORIGIN",
            Step::Med => "higher MULTI_EXIT_DISC",
            Step::Identifier => "higher BGP Identifier",
            Step::Address => "higher address",
            Step::Place => "later place in the configuration",
        })
    }
}

/// By which step a rank loses, beside the best one.
fn lost_to(ranks: &[Rank], rank: &Rank, best: &Rank) -> Option<Step>
    ensures { result ≡ lost_to ranks.now rank.now best.now }
{
    if rank.preference != best.preference {
        return Some(Step::Preference);
    }
    if rank.path_len != best.path_len {
        return Some(Step::Path);
    }
    if rank.origin != best.origin {
        return Some(Step::Origin);
    }
    if loses_by_med(ranks, rank) {
        return Some(Step::Med);
    }
    if rank.identifier != best.identifier {
        return Some(Step::Identifier);
    }
    if rank.address != best.address {
        return Some(Step::Address);
    }
    if rank.place != best.place {
        return Some(Step::Place);
    }
    None
}

/// By which step the rank at this index loses: the first whose filter takes it out of the set. None
/// for the best alone. It takes as long as `best`, and no memory.
pub fn lost_by(ranks: &[Rank], candidate: usize) -> Option<Step>
    requires distinct { HasDistinctPlaces ranks.now }
    requires within { candidate < length ranks.now }
    ensures step { result ≡ lost_by ranks.now (rank_at ranks.now candidate) }
    ensures none { IsNone result ↔ (best_of ranks.now ≡ Some (rank_at ranks.now candidate)) }
{
    let best = best(ranks)?;
    lost_to(ranks, &ranks[candidate], &ranks[best])
}
