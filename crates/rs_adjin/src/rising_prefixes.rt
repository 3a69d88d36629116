//! A walk through trees of prefixes, one behind the other.

ghost use Rattle.std.specs.Prelude.{◌≡◌, ◌++◌};
ghost use Rattle.std.specs.Iterator.{YieldsFirst, item_count};
ghost use Rattle.rs_adjin.specs.PrefixTrees.{entries_of};

use rs_octets::Prefix;
use std::collections::BTreeMap;
use std::collections::btree_map::Range;
use std::marker::Model;

/// The prefixes that are left, with their numbers.
#[derive(Drop)]
pub(crate) struct RisingPrefixes<'a> {
    /// What is left of the tree that the walk is in.
    here: Range<'a, Prefix, u32>,
    /// The trees behind it.
    trees: &'a [BTreeMap<Prefix, u32>],
}

impl<'a> Model for RisingPrefixes<'a> {
    ghost use Rattle.std.specs.Prelude.{◌++◌, ℕ, List};
    ghost use Rattle.rs_octets.specs.Prefixes.{Prefix};
    ghost use Rattle.rs_adjin.specs.PrefixTrees.{entries_of};

    ghost Value = { List (Prefix × ℕ) };

    ghost view = { λ it. it.here ++ entries_of it.trees.now };
}

impl<'a> RisingPrefixes<'a> {
    pub(crate) fn new(
        here: Range<'a, Prefix, u32>,
        trees: &'a [BTreeMap<Prefix, u32>],
    ) -> RisingPrefixes<'a>
        ensures { result ≡ here.entry ++ entries_of trees.now }
    {
        RisingPrefixes { here, trees }
    }
}

impl<'a> Iterator for RisingPrefixes<'a> {
    type Item = (Prefix, u32);

    ghost next_gives = { YieldsFirst (λ left. left) };

    ghost remaining = { item_count (λ left. left) };

    fn next(&mut self) -> Option<(Prefix, u32)> {
        loop {
            if let Some((prefix, number)) = self.here.next() {
                return Some((*prefix, *number));
            }
            let (tree, trees) = self.trees.split_first()?;
            self.here = tree.range(..);
            self.trees = trees;
        }
    }
}
