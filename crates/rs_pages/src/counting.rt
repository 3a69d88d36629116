//! Which member's route for a prefix is the best of those that import lists pass.

ghost use Rattle.std.specs.Prelude.{◌≡◌, ◌<◌, map, IfOk, IfSome};
ghost use Rattle.rs_decision.specs.Best.{HasDistinctPlaces};
ghost use Rattle.rs_page_parts.specs.Holders.{holding};
ghost use Rattle.rs_pages.specs.Counting.{import_rank, import_ranks, is_preferred};

use crate::candidates::{push_rising, rank_with};
use crate::judging::is_accepted;
use rs_decision::{Rank, best};
use rs_octets::Prefix;
use rs_page_parts::tables::Holder;
use rs_policy::Config;
use std::alloc::{AllocError, Global};

/// The preference of each route, which its row shows as `local_pref`.
const PREFERENCE: u32 = 100;

/// The rank of a route that its import list passes.
fn import_rank(config: &Config, prefix: &Prefix, holder: &Holder<'_>) -> Option<Rank>
    ensures value { result ≡ import_rank config.now prefix.now (holding holder.now) }
    ensures bound { IfSome result (λ r. r.place < usize.MAX) }
{
    let member = holder.member;
    if member >= config.clients() || !is_accepted(config, member, prefix, holder.attrs) {
        return None;
    }
    Some(rank_with(config, holder, PREFERENCE))
}

/// The ranks of the routes for a prefix that their import lists pass.
fn import_ranks(
    alloc: Global,
    config: &Config,
    prefix: &Prefix,
    holders: &[Holder<'_>],
) -> Result<Vec<Rank>, AllocError>
    ensures distinct { IfOk result (λ ranks. HasDistinctPlaces ranks.items) }
    ensures value { IfOk result (λ ranks. ranks.items ≡ import_ranks config.now prefix.now (map holding holders.now)) }
{
    let mut ranks = Vec::new(alloc);
    let mut next = 0;
    for holder in holders {
        next = push_rising(&mut ranks, next, import_rank(config, prefix, holder))?;
    }
    Ok(ranks)
}

/// A member's route is the best of those for a prefix that import lists pass.
pub(crate) fn is_preferred(
    alloc: Global,
    config: &Config,
    prefix: &Prefix,
    holders: &[Holder<'_>],
    member: usize,
) -> Result<bool, AllocError>
    ensures { IfOk result (λ preferred. preferred ≡ is_preferred config.now prefix.now (map holding holders.now) member) }
{
    let ranks = import_ranks(alloc, config, prefix, holders)?;
    match best(&ranks) {
        Some(best) => Ok(ranks[best].place == member),
        None => Ok(false),
    }
}
