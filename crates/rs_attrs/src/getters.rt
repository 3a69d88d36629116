//! What the attributes of a route say. No call takes memory.

ghost use Rattle.std.specs.Prelude.{◌≡◌, ◌≤◌, ◌<◌, ◌^◌, ◌/◌, [], IfSome, IsTrue, length, is_some, option_map, sum_by, true, not, unwrap_or};
ghost use Rattle.std.specs.List.{list_any};
ghost use Rattle.std.specs.Int.{w32, from_be_bytes};
ghost use Rattle.rs_attrs.specs.Held.{attributes_in, values_size};
ghost use Rattle.rs_attrs.specs.Effects.{lacks_mandatory, missing_of};
ghost use Rattle.rs_attrs.specs.Meaning.{get};
ghost use Rattle.rs_attrs.specs.Paths.{segment_length};
ghost use Rattle.rs_attrs.specs.declared.patterns.LargeCommunity.{LargeCommunity};
ghost use Rattle.rs_attrs.specs.Tagged.{LacksAsked, LacksFirsts, LacksGlobals, has_first};
ghost use Rattle.rs_attrs.specs.Writing.{IsLegal};
ghost use Rattle.rs_attrs.specs.Getters.{attribute_at, IsWellFormedAs, value_of, origin_of, path_of, next_hop_of, med_of, communities_of, large_communities_of, path_length_of, path_has_of, origin_as_of, tagged, large_tagged};

use crate::asked::{AskedTags, Firsts};
use crate::attrs::Attrs;
use crate::heads::Head;
use crate::marks::{TagMarks, mark_of};
use crate::patterns::LargeCommunities;
use crate::segments::{Numbers, Segments};
use crate::tags::Tags;
use crate::types::{AS_PATH, COMMUNITIES, LARGE_COMMUNITY, MULTI_EXIT_DISC, NEXT_HOP, ORIGIN};

/// An attribute as it stands in `Attrs`: its type, its flags (RFC 4271, 4.3) and its value, with AS
/// numbers in four octets.
#[derive(Clone, Copy, Debug)]
pub struct AttributeRef<'a> {
    pub kind: u8,
    pub optional: bool,
    pub transitive: bool,
    pub partial: bool,
    pub value: &'a [u8],
}

/// The attribute of a type, where one of the heads is of that type.
fn find<'a>(heads: &[Head], values: &'a [u8], kind: u8) -> Option<AttributeRef<'a>>
    requires { values_size heads.now ≤ length values.now }
    ensures { option_map attribute_at result ≡ get kind (attributes_in heads.now values.now) }
{
    let mut values = values;
    for head in heads {
        let (value, rest) = values.split_at(head.len() as usize);
        if head.kind() == kind {
            return Some(AttributeRef {
                kind,
                optional: head.optional(),
                transitive: head.transitive(),
                partial: head.partial(),
                value,
            });
        }
        values = rest;
    }
    None
}

/// The value of the attribute of a type, which is well formed.
fn value_in<'a>(heads: &[Head], values: &'a [u8], kind: u8) -> Option<&'a [u8]>
    requires size { values_size heads.now ≤ length values.now }
    requires legal { IsLegal (attributes_in heads.now values.now) }
    ensures value { option_map (λ value. value.now) result ≡ value_of kind (attributes_in heads.now values.now) }
    ensures form { IfSome result (λ value. IsWellFormedAs kind value.now) }
{
    Some(find(heads, values, kind)?.value)
}

/// The value of the attribute of a type, no octets where there is none.
pub(crate) fn value_or_none<'a>(heads: &[Head], values: &'a [u8], kind: u8) -> &'a [u8]
    requires size { values_size heads.now ≤ length values.now }
    requires legal { IsLegal (attributes_in heads.now values.now) }
    ensures { result.now ≡ unwrap_or (value_of kind (attributes_in heads.now values.now)) [] }
{
    value_in(heads, values, kind).unwrap_or(&[])
}

/// The segments of AS_PATH, none where there is no AS_PATH.
pub(crate) fn path_in<'a>(heads: &[Head], values: &'a [u8]) -> Segments<'a>
    requires size { values_size heads.now ≤ length values.now }
    requires legal { IsLegal (attributes_in heads.now values.now) }
    ensures segments { result ≡ path_of (attributes_in heads.now values.now) }
    ensures short { path_length_of (attributes_in heads.now values.now) < 2 ^ 64 }
{
    match value_in(heads, values, AS_PATH) {
        Some(value) => Segments::of(value),
        None => Segments::of(&[]),
    }
}

/// The number that four octets spell.
#[tactic(auto, using(crate::proofs::WellFormed::four_cells))]
fn number(value: &[u8]) -> u32
    requires { length value.now ≡ 4 }
    ensures { result ≡ from_be_bytes w32 value.now }
{
    u32::from_be_bytes([value[0], value[1], value[2], value[3]])
}

fn path_length(segments: Segments<'_>) -> usize
    requires { sum_by segment_length segments < 2 ^ 64 }
    ensures { result ≡ sum_by segment_length segments.entry }
{
    segments.map(|segment| segment.path_len()).sum()
}

impl Attrs {
    /// The attribute of this type; None where there is none.
    pub fn get(&self, kind: u8) -> Option<AttributeRef<'_>>
        ensures attribute { option_map attribute_at result ≡ get kind self.now }
        ensures value { option_map (λ a. a.value.now) result ≡ value_of kind self.now }
    {
        find(&self.heads, &self.values, kind)
    }

    /// The value of the attribute of this type, which is well formed.
    pub(crate) fn value(&self, kind: u8) -> Option<&[u8]>
        ensures value { option_map (λ value. value.now) result ≡ value_of kind self.now }
        ensures form { IfSome result (λ value. IsWellFormedAs kind value.now) }
    {
        value_in(&self.heads, &self.values, kind)
    }

    /// ORIGIN: 0 for IGP, 1 for EGP, 2 for INCOMPLETE (RFC 4271, 5.1.1).
    pub fn origin(&self) -> Option<u8>
        ensures { result ≡ origin_of self.now }
    {
        let value = self.value(ORIGIN)?;
        Some(value[0])
    }

    /// NEXT_HOP, the address as a number (RFC 4271, 5.1.3).
    pub fn next_hop(&self) -> Option<u32>
        ensures { result ≡ next_hop_of self.now }
    {
        Some(number(self.value(NEXT_HOP)?))
    }

    /// MULTI_EXIT_DISC (RFC 4271, 5.1.4).
    pub fn med(&self) -> Option<u32>
        ensures { result ≡ med_of self.now }
    {
        Some(number(self.value(MULTI_EXIT_DISC)?))
    }

    /// The segments of AS_PATH, none where there is no AS_PATH.
    pub fn path(&self) -> Segments<'_>
        ensures segments { result ≡ path_of self.now }
        ensures short { path_length_of self.now < 2 ^ 64 }
    {
        path_in(&self.heads, &self.values)
    }

    /// The length of AS_PATH: each number of a sequence counts 1, and each set (RFC 4271, 9.1.2.2, a).
    /// It is 0 where there is no AS_PATH.
    pub fn path_len(&self) -> usize
        ensures { result ≡ path_length_of self.now }
    {
        path_length(self.path())
    }

    /// Whether the AS number stands in AS_PATH, in a set or in a sequence.
    pub fn path_has(&self, number: u32) -> bool
        ensures { result ≡ path_has_of number self.now }
    {
        if self.path_marks & mark_of(number) == 0 {
            return false;
        }
        self.path().any(|segment| segment.has(number))
    }

    /// The AS that the route comes from: the last number of AS_PATH, where its last segment is a
    /// sequence.
    pub fn origin_as(&self) -> Option<u32>
        ensures { result ≡ origin_as_of self.now }
    {
        self.path().last()?.origin()
    }

    /// The first of ORIGIN, AS_PATH and NEXT_HOP, which each route has (RFC 4271, 5), that is not
    /// there.
    pub fn missing(&self) -> Option<u8>
        ensures first { result ≡ missing_of self.now }
        ensures lacks { is_some result ≡ lacks_mandatory self.now }
    {
        if self.get(ORIGIN).is_none() {
            Some(ORIGIN)
        } else if self.get(AS_PATH).is_none() {
            Some(AS_PATH)
        } else if self.get(NEXT_HOP).is_none() {
            Some(NEXT_HOP)
        } else {
            None
        }
    }

    /// Whether ORIGIN, AS_PATH and NEXT_HOP are there, as in each route (RFC 4271, 5).
    pub fn has_mandatory(&self) -> bool
        ensures { result ≡ not (lacks_mandatory self.now) }
    {
        self.missing().is_none()
    }

    /// The communities, none where there is no COMMUNITIES (RFC 1997).
    pub fn communities(&self) -> Numbers<'_>
        ensures { result ≡ communities_of self.now }
    {
        match self.value(COMMUNITIES) {
            Some(value) => Numbers::of(value),
            None => Numbers::of(&[]),
        }
    }

    /// The large communities, none where there is no LARGE_COMMUNITY (RFC 8092).
    pub(crate) fn large_communities(&self) -> LargeCommunities<'_>
        ensures { result ≡ large_communities_of self.now }
    {
        match self.value(LARGE_COMMUNITY) {
            Some(value) => LargeCommunities::of(value),
            None => LargeCommunities::of(&[]),
        }
    }

    /// The communities and the large communities (RFC 1997; RFC 8092), none where the attribute isn't there.
    pub fn tags(&self) -> Tags<'_>
        ensures communities { tagged result ≡ communities_of self.now }
        ensures large { large_tagged result ≡ large_communities_of self.now }
    {
        let communities = value_or_none(&self.heads, &self.values, COMMUNITIES);
        let large = value_or_none(&self.heads, &self.values, LARGE_COMMUNITY);
        Tags::of(communities, large, self.tag_marks)
    }

    /// Whether a community has one of these first parts.
    fn has_first_of(&self, firsts: &Firsts) -> bool
        ensures { result ≡ list_any (λ c. has_first firsts.now (c / 65536)) (communities_of self.now) }
    {
        self.communities()
            .any(|community| firsts.has(community / 65536))
    }

    /// Whether a large community has one of these Global Administrators.
    fn has_global_of(&self, globals: &Firsts) -> bool
        ensures { result ≡ list_any (λ (c : LargeCommunity). has_first globals.now c.global) (large_communities_of self.now) }
    {
        self.large_communities()
            .any(|community| globals.has(community.global))
    }

    /// Whether no community has a first part that is asked for. Marks tell of most routes; else each is looked at.
    fn lacks_firsts(&self, asked: &AskedTags) -> bool
        ensures { IsTrue result → LacksFirsts asked.now self.now }
    {
        if self.tag_marks.communities & asked.marks.communities == 0 {
            return true;
        }
        if asked.firsts.all {
            return false;
        }
        !self.has_first_of(&asked.firsts)
    }

    /// The same of large ones and their Global Administrators.
    fn lacks_globals(&self, asked: &AskedTags) -> bool
        ensures { IsTrue result → LacksGlobals asked.now self.now }
    {
        if self.tag_marks.large & asked.marks.large == 0 {
            return true;
        }
        if asked.globals.all {
            return false;
        }
        !self.has_global_of(&asked.globals)
    }

    /// Whether it is told by first parts that no community and no large one is as these ask.
    pub fn lacks(&self, asked: &AskedTags) -> bool
        ensures { IsTrue result → LacksAsked asked.now self.now }
    {
        self.lacks_firsts(asked) && self.lacks_globals(asked)
    }
}
