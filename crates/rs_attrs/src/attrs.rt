//! The attributes of a route: how they lie in memory, and their equality, order and hash.
//!
//! A head for each attribute, by rising type, and one run of octets, their values one after the
//! other: two heap blocks, however many attributes there are. Whatever makes an `Attrs` proves that
//! the heads have the lengths of the values and that the attributes are legal. Their hash and the
//! marks of their path and communities are made with them, and kept.

ghost use Rattle.std.specs.Prelude.{◌≡◌, ◌↔◌, ◌+◌, ◌≤◌, IsTrue, length, take, drop, nat_eq, refl};
ghost use Rattle.std.specs.Ordering.{as_partial_cmp};
ghost use Rattle.std.specs.Cmp.{po};
ghost use Rattle.std.specs.Cmp.Lexicographic.{pointwise};
ghost use Rattle.std.specs.Cmp;
ghost use Rattle.rs_attrs.specs.Comparing.{same_attributes, attributes_cmp, attributes_writes, attributes_hash};
ghost use Rattle.rs_attrs.specs.ComparisonLaws.{same_attributes_equiv, attributes_cmp_total, attributes_ties, same_attributes_writes};
ghost use Rattle.rs_attrs.specs.Held.{attributes_in, values_size};
ghost use Rattle.rs_attrs.specs.Writing.{IsLegal};

use crate::getters::{path_in, value_or_none};
use crate::heads::Head;
use crate::marks::{TagMarks, path_marks_of};
use crate::types::{COMMUNITIES, LARGE_COMMUNITY};
use std::alloc::AllocError;
use std::cmp::Ordering;
use std::hash::{FoldHasher, Hash, Hasher};
use std::marker::Model;
use std::simd::prelude::*;

/// The attributes of a route, one of each type at most, with AS numbers in four octets whatever
/// the peer spells; always legal (RFC 4271, 5; RFC 7606).
#[derive(Debug, Drop)]
pub struct Attrs {
    pub(crate) heads: Vec<Head>,
    pub(crate) values: Vec<u8>,
    /// The hash of all of them, computed once, where they are made.
    hash: u32,
    /// The marks of AS_PATH's numbers, set there too.
    pub(crate) path_marks: u32,
    /// The marks of its communities, likewise.
    pub(crate) tag_marks: TagMarks,
}

impl Model for Attrs {
    ghost use Rattle.std.specs.Prelude.{List};
    ghost use Rattle.rs_attrs.specs.Meaning.{Attribute};

    ghost Value = { List Attribute };

    ghost use Rattle.rs_attrs.specs.Held.{attributes_in, IsHeld};

    ghost view = { λ a. attributes_in a.heads.items a.values.items };

    ghost invariant = { λ a. IsHeld a.heads.items a.values.items a.hash a.path_marks a.tag_marks };
}

/// The hash of the attributes that lie so.
fn hash_of(heads: &[Head], values: &[u8]) -> u32
    requires { values_size heads.now ≡ length values.now }
    ensures { result ≡ attributes_hash (attributes_in heads.now values.now) }
{
    let mut state = FoldHasher::default();
    heads.hash(&mut state);
    state.write(values);
    (state.finish() % 0x1_0000_0000) as u32
}

impl Attrs {
    /// The attributes that lie so. It hashes them, and marks the numbers of AS_PATH and the communities.
    pub(crate) fn of(heads: Vec<Head>, values: Vec<u8>) -> Attrs
        requires size { values_size heads.items ≡ length values.items }
        requires legal { IsLegal (attributes_in heads.items values.items) }
        ensures { result ≡ attributes_in heads.items values.items }
    {
        let hash = hash_of(&heads, &values);
        let path_marks = path_marks_of(path_in(&heads, &values));
        let tag_marks = TagMarks::of(
            value_or_none(&heads, &values, COMMUNITIES),
            value_or_none(&heads, &values, LARGE_COMMUNITY),
        );
        Attrs {
            heads,
            values,
            hash,
            path_marks,
            tag_marks,
        }
    }

    /// The hash of all of them, of four octets, as it was computed where they were made. Equal
    /// attributes have one hash; others may have it too.
    pub fn kept_hash(&self) -> u32
        ensures { result ≡ attributes_hash self.now }
    {
        self.hash
    }
}

/// How many octets are compared at once.
const LANES: usize = 16;

/// Whether the sixteen octets from there on are the same in both.
#[inline(always)]
fn are_same_at(one: &[u8], other: &[u8], at: usize) -> bool
    requires one { at + 16 ≤ length one.now }
    requires other { at + 16 ≤ length other.now }
    ensures { IsTrue result ↔ (take 16 (drop at one.now) ≡ take 16 (drop at other.now)) }
{
    let here = u8x16::from_slice(&one[at..]);
    let there = u8x16::from_slice(&other[at..]);
    !here.simd_ne(there).any()
}

/// Whether both have the same octets, compared sixteen at a time. The last sixteen may have been
/// seen in part already.
fn have_same_octets(one: &[u8], other: &[u8]) -> bool
    ensures { result ≡ pointwise nat_eq one.now other.now }
{
    if one.len() != other.len() {
        return false;
    }
    if one.len() < LANES {
        return one == other;
    }
    let last = one.len() - LANES;
    let mut at = 0;
    while at < last {
        if !are_same_at(one, other, at) {
            return false;
        }
        at += LANES;
    }
    are_same_at(one, other, last)
}

impl Clone for Attrs {
    ghost is_clone = { λ attrs copy. copy ≡ attrs };

    fn clone(&self) -> Result<Attrs, AllocError> {
        Ok(Attrs {
            heads: self.heads.clone()?,
            values: self.values.clone()?,
            hash: self.hash,
            path_marks: self.path_marks,
            tag_marks: self.tag_marks,
        })
    }
}

/// Equal where both have the same types, with the same flags and values. Most that differ are told
/// apart by their hashes.
impl PartialEq for Attrs {
    ghost eq = { same_attributes };

    ghost laws = { Cmp.partial_equiv_from_equiv same_attributes_equiv };

    fn eq(&self, other: &Attrs) -> bool
        ensures value { result ≡ same_attributes self.now other.now }
        ensures decides { IsTrue result ↔ (self.now ≡ other.now) }
    {
        if self.hash != other.hash {
            return false;
        }
        self.heads == other.heads && have_same_octets(&self.values, &other.values)
    }
}

impl Eq for Attrs {
    ghost laws = { same_attributes_equiv };
}

impl PartialOrd for Attrs {
    ghost partial_cmp = { as_partial_cmp attributes_cmp };

    ghost laws = { po attributes_cmp_total attributes_ties };

    fn partial_cmp(&self, other: &Attrs) -> Option<Ordering> {
        Some(self.cmp(other))
    }
}

/// First by the types, flags and lengths of all attributes, then by the octets of their values.
impl Ord for Attrs {
    ghost cmp = { attributes_cmp };

    ghost total = { attributes_cmp_total };

    ghost matches_partial_cmp = { λ x y. refl };

    ghost matches_eq = { attributes_ties };

    fn cmp(&self, other: &Attrs) -> Ordering {
        match self.heads.cmp(&other.heads) {
            Ordering::Equal => self.values.cmp(&other.values),
            unequal => unequal,
        }
    }
}

impl Hash for Attrs {
    ghost hash_input = { attributes_writes };

    ghost respects_eq = { same_attributes_writes };

    fn hash<H: Hasher>(&self, state: &mut H) {
        self.heads.hash(state);
        state.write(&self.values);
    }
}
