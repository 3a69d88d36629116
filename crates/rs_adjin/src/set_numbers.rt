//! The number of each set of attributes, in many small trees: a set stands in that of the rest of its hash.
//!
//! A search walks down one of them, which is a few levels high where one tree of all sets would be many.
#![tactic(auto)]

ghost use Rattle.std.specs.Prelude.{◌≡◌, ◌<◌, ◌≤◌, ◌%◌, ℕ, List, None, Some, length, IfOk, OnOk, OnErr};
ghost use Rattle.std.specs.Arc.{arc_value};
ghost use Rattle.rs_attrs.specs.Meaning.{Attribute};
ghost use Rattle.rs_attrs.specs.Comparing.{attributes_hash};
ghost use Rattle.rs_adjin.specs.SetNumbering.{number_by, Writes};

use crate::giving::find_or_give;
use rs_attrs::Attrs;
use std::alloc::{AllocError, Global};
use std::collections::BTreeMap;
use std::sync::Arc;

/// How many trees there are from the first set on.
const TREES: usize = 4096;

/// Sets of attributes with their numbers.
#[derive(Drop)]
pub(crate) struct SetNumbers {
    /// By the rest that the hash leaves; none before the first set.
    trees: Vec<BTreeMap<(u32, Arc<Attrs>), u32>>,
    alloc: Global,
}

/// By what attributes are found in a tree: their hash, and they themselves.
fn key_of(attrs: Arc<Attrs>) -> (u32, Arc<Attrs>)
    ensures hash { result.0 ≡ attributes_hash (arc_value attrs) }
    ensures attrs { result.1 ≡ attrs }
{
    (attrs.kept_hash(), attrs)
}

/// The place of the tree for a hash.
fn place_of(hash: u32) -> usize
    ensures place { result ≡ hash % TREES }
    ensures within { result < TREES }
{
    hash as usize % TREES
}

impl SetNumbers {
    /// No attributes have a number.
    pub(crate) fn new(alloc: Global) -> SetNumbers
        ensures { (m : List Attribute) → number_by result m ≡ None }
    {
        SetNumbers {
            trees: Vec::new(alloc),
            alloc,
        }
    }

    /// The number of these attributes. It is an `Err` only where no more can share them.
    pub(crate) fn get(&self, attrs: &Arc<Attrs>) -> Result<Option<u32>, AllocError>
        ensures { IfOk result (λ number. number ≡ number_by self.now (arc_value attrs.now)) }
    {
        let key = key_of(attrs.clone()?);
        match self.trees.get(place_of(key.0)) {
            Some(tree) => Ok(tree.get(&key).copied()),
            None => Ok(None),
        }
    }

    /// Makes the trees that there are not yet.
    fn make_trees(&mut self) -> Result<(), AllocError>
        ensures same { (m : List Attribute) → number_by self.new m ≡ number_by self.old m }
        ensures all { OnOk result (TREES ≤ length self.new.trees.items) }
    {
        while self.trees.len() < TREES {
            self.trees.push(BTreeMap::new(self.alloc))?;
        }
        Ok(())
    }

    /// The number that these attributes have. Where they have none, they have this one from now on, and none is answered.
    pub(crate) fn find_or_give(
        &mut self,
        attrs: Arc<Attrs>,
        number: u32,
    ) -> Result<Option<u32>, AllocError>
        ensures found { IfOk result (λ found. found ≡ number_by self.old (arc_value attrs)) }
        ensures given { IfOk result (λ found. found ≡ None → Writes (number_by self.old) (number_by self.new) (arc_value attrs) (Some number)) }
        ensures kept { IfOk result (λ found. (n : ℕ) → found ≡ Some n → (m : List Attribute) → number_by self.new m ≡ number_by self.old m) }
        ensures err { OnErr result ((m : List Attribute) → number_by self.new m ≡ number_by self.old m) }
    {
        self.make_trees()?;
        let key = key_of(attrs);
        let place = place_of(key.0);
        find_or_give(&mut self.trees[place], key, number)
    }

    /// These attributes have no number from now on.
    pub(crate) fn remove(&mut self, attrs: Arc<Attrs>)
        ensures { Writes (number_by self.old) (number_by self.new) (arc_value attrs) None }
    {
        let key = key_of(attrs);
        if let Some(tree) = self.trees.get_mut(place_of(key.0)) {
            tree.remove(&key);
        }
    }
}
