//! Communities and large communities, and the patterns that they are like.

ghost use Rattle.std.specs.Prelude.{◌≡◌, ◌*◌, ◌<◌, ◌^◌, length};
ghost use Rattle.std.specs.List.{list_any};
ghost use Rattle.std.specs.Iterator.{YieldsFirst, item_count};
ghost use Rattle.rs_attrs.specs.Patterns.{is_like, is_like_large, large_communities_in, part_is};

use crate::segments::Numbers;
use std::marker::Model;

/// Communities of one form (RFC 1997): its first and its last 16 bits; a part that is not given may
/// be any.
#[derive(Clone, Copy, Debug, PartialEq, Eq)]
pub struct CommunityPattern {
    pub high: Option<u32>,
    pub low: Option<u32>,
}

/// Large communities of one form (RFC 8092, 3): the Global Administrator and the two parts of local
/// data; a part that is not given may be any.
#[derive(Clone, Copy, Debug, PartialEq, Eq)]
pub struct LargeCommunityPattern {
    pub global: Option<u32>,
    pub first: Option<u32>,
    pub second: Option<u32>,
}

/// A large community (RFC 8092, 3): the Global Administrator and the two parts of local data.
#[derive(Clone, Copy)]
pub(crate) struct LargeCommunity {
    pub(crate) global: u32,
    pub(crate) first: u32,
    pub(crate) second: u32,
}

/// Whether a number is the part that is given, if one is.
fn is_part(part: Option<u32>, number: u32) -> bool
    ensures { result ≡ part_is part number }
{
    match part {
        Some(part) => number == part,
        None => true,
    }
}

impl CommunityPattern {
    /// Whether this community is like it.
    pub(crate) fn fits(&self, community: u32) -> bool
        ensures { result ≡ is_like self.now community }
    {
        is_part(self.high, community / 65536) && is_part(self.low, community % 65536)
    }
}

impl LargeCommunityPattern {
    /// Whether this large community is like it.
    pub(crate) fn fits(&self, community: LargeCommunity) -> bool
        ensures { result ≡ is_like_large self.now community }
    {
        is_part(self.global, community.global)
            && is_part(self.first, community.first)
            && is_part(self.second, community.second)
    }
}

/// Whether a community is like one of these patterns.
pub(crate) fn fits_any(community: u32, patterns: &[CommunityPattern]) -> bool
    ensures { result ≡ list_any (λ p. is_like p community) patterns.now }
{
    patterns.iter().any(|pattern| pattern.fits(community))
}

/// Whether a large community is like one of these patterns.
pub(crate) fn large_fits_any(community: LargeCommunity, patterns: &[LargeCommunityPattern]) -> bool
    ensures { result ≡ list_any (λ p. is_like_large p community) patterns.now }
{
    patterns.iter().any(|pattern| pattern.fits(community))
}

/// The large communities that octets spell, three numbers of four octets each.
#[derive(Drop)]
pub(crate) struct LargeCommunities<'a> {
    numbers: Numbers<'a>,
}

impl<'a> Model for LargeCommunities<'a> {
    ghost use Rattle.std.specs.Prelude.{List};
    ghost use Rattle.rs_attrs.specs.declared.patterns.LargeCommunity.{LargeCommunity};
    ghost use Rattle.rs_attrs.specs.Patterns.{triples};

    ghost Value = { List LargeCommunity };

    ghost view = { λ c. triples c.numbers };
}

impl<'a> LargeCommunities<'a> {
    pub(crate) fn of(octets: &'a [u8]) -> LargeCommunities<'a>
        ensures communities { result ≡ large_communities_in octets.now }
        ensures short { 12 * length result < 2 ^ 64 }
    {
        LargeCommunities {
            numbers: Numbers::of(octets),
        }
    }
}

impl Iterator for LargeCommunities<'_> {
    type Item = LargeCommunity;

    ghost next_gives = { YieldsFirst (λ communities. communities) };

    ghost remaining = { item_count (λ communities. communities) };

    fn next(&mut self) -> Option<LargeCommunity> {
        let global = self.numbers.next()?;
        let first = self.numbers.next()?;
        let second = self.numbers.next()?;
        Some(LargeCommunity {
            global,
            first,
            second,
        })
    }
}
