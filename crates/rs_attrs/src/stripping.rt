//! Communities that are taken out of a route before it is passed on.

ghost use Rattle.std.specs.Prelude.{◌≡◌, ◌≢◌, ℕ, false, ◌||◌, ◌<◌, ◌≤◌, ◌*◌, ◌^◌, ◌++◌, length, map, IsTrue, IfOk};
ghost use Rattle.std.specs.List.{flat_map, list_any};
ghost use Rattle.std.specs.Int.{w32, to_be_bytes};
ghost use Rattle.rs_attrs.specs.declared.patterns.LargeCommunity.{LargeCommunity};
ghost use Rattle.rs_attrs.specs.Held.{attribute_by, attributes_in, values_size};
ghost use Rattle.rs_attrs.specs.Getters.{communities_of, large_communities_of};
ghost use Rattle.rs_attrs.specs.Meaning.{get};
ghost use Rattle.rs_attrs.specs.Paths.{quads};
ghost use Rattle.rs_attrs.specs.Patterns.{large_communities_in, parts_of};
ghost use Rattle.rs_attrs.specs.Types as types;
ghost use Rattle.rs_attrs.specs.Stripping.{is_stripped, is_stripped_large, left_of, numbers_left, stripped_of, taken_by, taken_by_owner, unstripped, unstripped_large};

use crate::attrs::Attrs;
use crate::heads::Head;
use crate::patterns::{
    CommunityPattern, LargeCommunities, LargeCommunity, LargeCommunityPattern, fits_any,
    large_fits_any,
};
use crate::segments::Numbers;
use crate::types::{COMMUNITIES, LARGE_COMMUNITY};
use std::alloc::{AllocError, Global};

/// What is taken out of COMMUNITIES (RFC 1997) and out of LARGE_COMMUNITY (RFC 8092): of each what is
/// like a pattern of either list, or all.
#[derive(Clone, Copy, Debug)]
pub struct Strip<'a> {
    /// Taken out of COMMUNITIES.
    pub communities: [&'a [CommunityPattern]; 2],
    /// All of COMMUNITIES is, whatever the patterns say.
    pub all_communities: bool,
    /// Taken out of LARGE_COMMUNITY.
    pub large: [&'a [LargeCommunityPattern]; 2],
    /// All of LARGE_COMMUNITY is, whatever the patterns say.
    pub all_large: bool,
}

/// Whether two lists of patterns are the same.
fn is_same_list(some: &[CommunityPattern], other: &[CommunityPattern]) -> bool
    ensures { IsTrue result → some.now ≡ other.now }
{
    some == other
}

/// Whether two lists of patterns of large communities are the same.
fn is_same_large_list(some: &[LargeCommunityPattern], other: &[LargeCommunityPattern]) -> bool
    ensures { IsTrue result → some.now ≡ other.now }
{
    some == other
}

/// Whether two pairs of lists are the same.
fn are_same(some: &[&[CommunityPattern]; 2], others: &[&[CommunityPattern]; 2]) -> bool
    ensures { IsTrue result → map (λ patterns. patterns.now) some.now ≡ map (λ patterns. patterns.now) others.now }
{
    is_same_list(some[0], others[0]) && is_same_list(some[1], others[1])
}

/// Whether two pairs of lists of patterns of large communities are the same.
fn are_same_large(
    some: &[&[LargeCommunityPattern]; 2],
    others: &[&[LargeCommunityPattern]; 2],
) -> bool
    ensures { IsTrue result → map (λ patterns. patterns.now) some.now ≡ map (λ patterns. patterns.now) others.now }
{
    is_same_large_list(some[0], others[0]) && is_same_large_list(some[1], others[1])
}

impl Strip<'_> {
    /// Whether no community is taken out, whatever it is.
    fn takes_none(&self) -> bool
        ensures { IsTrue result → (community : ℕ) → is_stripped (taken_by self.now) community ≡ false }
    {
        !self.all_communities && self.communities.iter().all(|patterns| patterns.is_empty())
    }

    /// Whether no large community is taken out, whatever it is.
    fn takes_none_large(&self) -> bool
        ensures { IsTrue result → (community : LargeCommunity) → is_stripped_large (taken_by self.now) community ≡ false }
    {
        !self.all_large && self.large.iter().all(|patterns| patterns.is_empty())
    }

    /// Whether both take out by the same patterns.
    pub fn is_same(&self, other: &Strip<'_>) -> bool
        ensures { IsTrue result → taken_by self.now ≡ taken_by other.now }
    {
        if self.all_communities != other.all_communities {
            return false;
        }
        if self.all_large != other.all_large {
            return false;
        }
        are_same(&self.communities, &other.communities) && are_same_large(&self.large, &other.large)
    }

    /// Whether this community is taken out.
    fn takes(&self, community: u32) -> bool
        ensures { result ≡ is_stripped (taken_by self.now) community }
    {
        self.all_communities
            || self
                .communities
                .iter()
                .any(|patterns| fits_any(community, patterns))
    }

    /// Whether this large community is taken out.
    fn takes_large(&self, community: LargeCommunity) -> bool
        ensures { result ≡ is_stripped_large (taken_by self.now) community }
    {
        self.all_large
            || self
                .large
                .iter()
                .any(|patterns| large_fits_any(community, patterns))
    }

    /// Whether a community of these attributes is taken out.
    fn changes_communities(&self, attrs: &Attrs) -> bool
        ensures { result ≡ list_any (is_stripped (taken_by self.now)) (communities_of attrs.now) }
    {
        if self.takes_none() {
            return false;
        }
        attrs.communities().any(|community| self.takes(community))
    }

    /// Whether a large community of these attributes is taken out.
    fn changes_large(&self, attrs: &Attrs) -> bool
        ensures { result ≡ list_any (is_stripped_large (taken_by self.now)) (large_communities_of attrs.now) }
    {
        if self.takes_none_large() {
            return false;
        }
        attrs
            .large_communities()
            .any(|community| self.takes_large(community))
    }

    /// Whether something is taken out of these attributes. Where nothing is, `stripped` copies them.
    pub fn changes(&self, attrs: &Attrs) -> bool
        ensures value { result ≡ (list_any (is_stripped (taken_by self.now)) (communities_of attrs.now) || list_any (is_stripped_large (taken_by self.now)) (large_communities_of attrs.now)) }
        ensures same { result ≡ false → stripped_of (taken_by self.now) attrs.now ≡ attrs.now }
    {
        let _legal = &attrs.heads;
        self.changes_communities(attrs) || self.changes_large(attrs)
    }
}

/// A `Strip` that owns its patterns.
#[derive(Debug, Drop)]
pub struct OwnedStrip {
    communities: Vec<CommunityPattern>,
    more_communities: Vec<CommunityPattern>,
    all_communities: bool,
    large: Vec<LargeCommunityPattern>,
    more_large: Vec<LargeCommunityPattern>,
    all_large: bool,
}

impl OwnedStrip {
    /// A copy of the patterns.
    ///
    /// # Errors
    ///
    /// `AllocError` where memory was refused.
    pub fn of(alloc: Global, strip: &Strip<'_>) -> Result<OwnedStrip, AllocError>
        ensures { IfOk result (λ owned. taken_by_owner owned ≡ taken_by strip.now) }
    {
        Ok(OwnedStrip {
            communities: Vec::from_slice(alloc, strip.communities[0])?,
            more_communities: Vec::from_slice(alloc, strip.communities[1])?,
            all_communities: strip.all_communities,
            large: Vec::from_slice(alloc, strip.large[0])?,
            more_large: Vec::from_slice(alloc, strip.large[1])?,
            all_large: strip.all_large,
        })
    }

    /// The patterns, lent.
    pub fn lent(&self) -> Strip<'_>
        ensures { taken_by result ≡ taken_by_owner self.now }
    {
        Strip {
            communities: [&self.communities, &self.more_communities],
            all_communities: self.all_communities,
            large: [&self.large, &self.more_large],
            all_large: self.all_large,
        }
    }
}

/// How many octets are left of a value of COMMUNITIES, or of LARGE_COMMUNITY.
fn left_size(kind: u8, value: &[u8], strip: &Strip<'_>) -> usize
    ensures size { result ≡ 4 * length (numbers_left (taken_by strip.now) kind (quads value.now)) }
    ensures most { result ≤ length value.now }
{
    if kind == COMMUNITIES {
        4 * Numbers::of(value)
            .filter(|community| !strip.takes(*community))
            .count()
    } else {
        12 * LargeCommunities::of(value)
            .filter(|community| !strip.takes_large(*community))
            .count()
    }
}

/// How many attributes of this type go, and how many octets of their values.
fn freed(kind: u8, attrs: &Attrs, strip: &Strip<'_>) -> (usize, usize)
    ensures { result.0 ≤ 1 }
{
    match attrs.value(kind) {
        Some(value) => {
            let left = left_size(kind, value, strip);
            (usize::from(left == 0), value.len() - left)
        }
        None => (0, 0),
    }
}

/// Appends the communities of a value that stay.
fn push_communities(values: &mut Vec<u8>, value: &[u8], strip: &Strip<'_>) -> Result<(), AllocError>
    ensures { IfOk result (λ _. values.new.items ≡ values.old.items ++ flat_map (to_be_bytes w32) (unstripped (taken_by strip.now) (quads value.now))) }
{
    for community in Numbers::of(value) {
        if !strip.takes(community) {
            values.extend_from_slice(&community.to_be_bytes())?;
        }
    }
    Ok(())
}

/// Appends the large communities of a value that stay.
fn push_large_communities(
    values: &mut Vec<u8>,
    value: &[u8],
    strip: &Strip<'_>,
) -> Result<(), AllocError>
    ensures { IfOk result (λ _. values.new.items ≡ values.old.items ++ flat_map (to_be_bytes w32) (flat_map parts_of (unstripped_large (taken_by strip.now) (large_communities_in value.now)))) }
{
    for community in LargeCommunities::of(value) {
        if !strip.takes_large(community) {
            values.extend_from_slice(&community.global.to_be_bytes())?;
            values.extend_from_slice(&community.first.to_be_bytes())?;
            values.extend_from_slice(&community.second.to_be_bytes())?;
        }
    }
    Ok(())
}

/// Appends what is left of a value of COMMUNITIES, or of LARGE_COMMUNITY.
fn push_value(
    values: &mut Vec<u8>,
    kind: u8,
    value: &[u8],
    strip: &Strip<'_>,
) -> Result<(), AllocError>
    ensures { IfOk result (λ _. values.new.items ≡ values.old.items ++ flat_map (to_be_bytes w32) (numbers_left (taken_by strip.now) kind (quads value.now))) }
{
    if kind == COMMUNITIES {
        push_communities(values, value, strip)
    } else {
        push_large_communities(values, value, strip)
    }
}

/// Appends what is left of an attribute.
fn push_left(
    heads: &mut Vec<Head>,
    values: &mut Vec<u8>,
    head: &Head,
    value: &[u8],
    strip: &Strip<'_>,
) -> Result<(), AllocError>
    requires value { head.now.len ≡ length value.now }
    requires fits { head.now.len < 2 ^ 32 }
    requires size { values_size heads.old.items ≡ length values.old.items }
    ensures size { IfOk result (λ _. values_size heads.new.items ≡ length values.new.items) }
    ensures left { IfOk result (λ _. attributes_in heads.new.items values.new.items ≡ attributes_in heads.old.items values.old.items ++ left_of (taken_by strip.now) (attribute_by head.now value.now)) }
{
    let kind = head.kind();
    if kind != COMMUNITIES && kind != LARGE_COMMUNITY {
        heads.push(*head)?;
        values.extend_from_slice(value)?;
        return Ok(());
    }
    let size = left_size(kind, value, strip);
    if size > 0 {
        heads.push(head.with_len(size as u32))?;
        push_value(values, kind, value, strip)?;
    }
    Ok(())
}

/// The attributes without the communities that are taken out. COMMUNITIES and LARGE_COMMUNITY keep
/// their flags, and go where no community is left.
///
/// # Errors
///
/// `AllocError` where memory was refused.
pub fn stripped(alloc: Global, attrs: &Attrs, strip: &Strip<'_>) -> Result<Attrs, AllocError>
    ensures value { IfOk result (λ a. a ≡ stripped_of (taken_by strip.now) attrs.now) }
    ensures communities { IfOk result (λ a. communities_of a ≡ unstripped (taken_by strip.now) (communities_of attrs.now)) }
    ensures large { IfOk result (λ a. large_communities_of a ≡ unstripped_large (taken_by strip.now) (large_communities_of attrs.now)) }
    ensures others { IfOk result (λ a. (kind : ℕ) → kind ≢ types.communities → kind ≢ types.large_community → get kind a ≡ get kind attrs.now) }
{
    let (goes, octets) = freed(COMMUNITIES, attrs, strip);
    let (large_goes, large_octets) = freed(LARGE_COMMUNITY, attrs, strip);
    let heads_left = attrs.heads.len().saturating_sub(goes + large_goes);
    let octets_left = attrs.values.len().saturating_sub(octets);
    let mut heads = Vec::with_capacity(alloc, heads_left)?;
    let mut values = Vec::with_capacity(alloc, octets_left.saturating_sub(large_octets))?;
    let mut rest: &[u8] = &attrs.values;
    for head in &attrs.heads {
        let (value, after) = rest.split_at(head.len() as usize);
        push_left(&mut heads, &mut values, head, value, strip)?;
        rest = after;
    }
    Ok(Attrs::of(heads, values))
}
