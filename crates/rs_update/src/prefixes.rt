//! Sets of prefixes, as lists in rising order.

ghost use Rattle.std.specs.Prelude.{◌≡◌, ◌&&◌, ◌||◌, ℕ, not, true, false, IfOk, MatchOption, is_err};
ghost use Rattle.std.specs.List.{list_any};
ghost use Rattle.std.specs.List.Sorted.{IsStrictlySortedBy};
ghost use Rattle.rs_octets.specs.Prefixes.{prefix_order};
ghost use Rattle.rs_octets.specs.PrefixFields.{prefixes_of};
ghost use Rattle.rs_attrs.specs.Effects.{has_prefix, is_faulty, prefixes_in};
ghost use Rattle.rs_update.specs.Changes.{SameMembers, LacksMembers};

use rs_octets::{Prefix, read_prefixes};
use std::alloc::{AllocError, Global};

/// The prefixes of a field, as they stand there; none where the field is faulty (RFC 4271, 6.3).
pub(crate) fn prefixes(alloc: Global, field: &[u8]) -> Result<Option<Vec<Prefix>>, AllocError>
    ensures { IfOk result (λ found. MatchOption found (is_faulty field.now ≡ true) (λ ps. (is_faulty field.now ≡ false) × (ps.items ≡ prefixes_in field.now))) }
{
    let mut found = Vec::new(alloc);
    for item in read_prefixes(field) {
        match item {
            Ok(prefix) => found.push(prefix)?,
            Err(_) => return Ok(None),
        }
    }
    Ok(Some(found))
}

/// Puts the prefixes in rising order, each once.
pub(crate) fn make_rising(prefixes: &mut Vec<Prefix>)
    ensures rising { IsStrictlySortedBy prefix_order prefixes.new.items }
    ensures members { SameMembers prefixes.old.items prefixes.new.items }
{
    prefixes.sort_unstable();
    prefixes.dedup();
}

/// Whether a prefix stands in a list in rising order.
fn stands_in(prefixes: &[Prefix], prefix: &Prefix) -> bool
    requires { IsStrictlySortedBy prefix_order prefixes.now }
    ensures { result ≡ has_prefix prefix.now prefixes.now }
{
    prefixes.binary_search(prefix).is_ok()
}

/// Takes away those prefixes that stand in the other list, which is in rising order.
pub(crate) fn take_away(prefixes: &mut Vec<Prefix>, others: &[Prefix])
    requires rising { IsStrictlySortedBy prefix_order prefixes.old.items }
    requires others { IsStrictlySortedBy prefix_order others.now }
    ensures rising { IsStrictlySortedBy prefix_order prefixes.new.items }
    ensures members { LacksMembers prefixes.old.items others.now prefixes.new.items }
{
    prefixes.retain(|prefix| !stands_in(others, prefix));
}
