//! The number of each prefix, in many small trees: a prefix stands in that of its first bits.
//!
//! A search walks down one of them, which is a few levels high where one tree of all prefixes would be many. The trees
//! rise one behind the other, so that a walk through all of them is one through all prefixes in their order.
#![tactic(auto)]

ghost use Rattle.std.specs.Prelude.{◌≡◌, ◌<◌, ℕ, Some, None, length, IsSome, All, Contains, IsTrue, ◌↔◌, IfOk, OnErr};
ghost use Rattle.std.specs.List.Sorted.{IsStrictlySortedBy};
ghost use Rattle.std.specs.Map.{keys_of};
ghost use Rattle.std.proofs.Props.{props};
ghost use Rattle.rs_octets.specs.Prefixes.{Prefix, prefix_order};
ghost use Rattle.rs_adjin.specs.Onward.{is_from};
ghost use Rattle.rs_adjin.specs.declared.prefix_numbers.TheConstants.{TREES};
ghost use Rattle.rs_adjin.specs.PrefixTrees.{AreInPlace, place_for};

use crate::giving::find_or_give;
use crate::rising_prefixes::RisingPrefixes;
use rs_octets::Prefix;
use std::alloc::{AllocError, Global};
use std::collections::BTreeMap;

/// How many trees there are: one for each value of the first 12 bits.
const TREES: usize = 4096;

/// Prefixes with their numbers.
#[derive(Drop)]
pub(crate) struct PrefixNumbers {
    /// By the first 12 bits of the prefixes in them.
    trees: Vec<BTreeMap<Prefix, u32>>,
    /// How many prefixes are in them.
    count: usize,
    ghost all: { length trees.items ≡ TREES },
    ghost standing: { AreInPlace trees.items } by { Prim.hlevel props },
}

/// The place of the tree for a prefix.
fn place_of(prefix: Prefix) -> usize
    ensures place { result ≡ place_for prefix }
    ensures within { result < TREES }
{
    (prefix.bits() >> 20) as usize
}

impl PrefixNumbers {
    ghost use Rattle.rs_adjin.specs.Numbering.{number_by, Writes};

    /// No prefix has a number.
    pub(crate) fn new(alloc: Global) -> Result<PrefixNumbers, AllocError>
        ensures { IfOk result (λ numbers. (p : Prefix) → number_by numbers p ≡ None) }
    {
        let mut trees = Vec::with_capacity(alloc, TREES)?;
        for _ in 0..TREES {
            trees.push(BTreeMap::new(alloc))?;
        }
        Ok(PrefixNumbers { trees, count: 0 })
    }

    /// How many prefixes have a number.
    pub(crate) fn len(&self) -> usize {
        self.count
    }

    /// The number of a prefix.
    pub(crate) fn get(&self, prefix: Prefix) -> Option<u32>
        ensures { result ≡ number_by self.now prefix }
    {
        self.trees[place_of(prefix)].get(&prefix).copied()
    }

    /// The number that a prefix has. Where it has none, it has this one from now on, and none is answered.
    pub(crate) fn find_or_give(
        &mut self,
        prefix: Prefix,
        number: u32,
    ) -> Result<Option<u32>, AllocError>
        ensures found { IfOk result (λ found. found ≡ number_by self.old prefix) }
        ensures given { IfOk result (λ found. found ≡ None → Writes self.old self.new prefix (Some number)) }
        ensures kept { IfOk result (λ found. (n : ℕ) → found ≡ Some n → (p : Prefix) → number_by self.new p ≡ number_by self.old p) }
        ensures err { OnErr result ((p : Prefix) → number_by self.new p ≡ number_by self.old p) }
    {
        let place = place_of(prefix);
        let found = find_or_give(&mut self.trees[place], prefix, number)?;
        self.count = self.count.saturating_add(usize::from(found.is_none()));
        Ok(found)
    }

    /// A prefix has no number from now on.
    pub(crate) fn remove(&mut self, prefix: Prefix)
        ensures { Writes self.old self.new prefix None }
    {
        let place = place_of(prefix);
        let had = self.trees[place].remove(&prefix).is_some();
        self.count = self.count.saturating_sub(usize::from(had));
    }

    /// The prefixes that have a number, rising, with it.
    pub(crate) fn iter(&self) -> RisingPrefixes<'_>
        ensures rising { IsStrictlySortedBy prefix_order (keys_of result) }
        ensures numbers { All (λ e. number_by self.now e.0 ≡ Some e.1) result }
        ensures all { (p : Prefix) → IsSome (number_by self.now p) → Contains (keys_of result) p }
    {
        RisingPrefixes::new(self.trees[0].range(..), &self.trees[1..])
    }

    /// Of these those that are not before a prefix. The others are not walked over.
    pub(crate) fn iter_from(&self, from: Prefix) -> RisingPrefixes<'_>
        ensures rising { IsStrictlySortedBy prefix_order (keys_of result) }
        ensures numbers { All (λ e. number_by self.now e.0 ≡ Some e.1) result }
        ensures all { (p : Prefix) → Contains (keys_of result) p ↔ (IsTrue (is_from from p) × IsSome (number_by self.now p)) }
    {
        let place = place_of(from);
        RisingPrefixes::new(self.trees[place].range(from..), &self.trees[place + 1..])
    }
}
