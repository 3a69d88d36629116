//! The communities of a route, found once for many tests.

ghost use Rattle.std.specs.Prelude.{◌≡◌, false, IsTrue};
ghost use Rattle.std.specs.List.{list_any};
ghost use Rattle.std.proofs.Props.{props};
ghost use Rattle.rs_attrs.specs.Marks.{AreLargeMarked, AreMarked};
ghost use Rattle.rs_attrs.specs.Patterns.{is_like, is_like_large, large_communities_in};
ghost use Rattle.rs_attrs.specs.Paths.{quads};

use crate::marks::{TagMarks, mark_of};
use crate::patterns::{CommunityPattern, LargeCommunities, LargeCommunityPattern};
use crate::segments::Numbers;

/// The communities and the large communities of a route, found once for many tests. What their first parts are is
/// marked, so that most tests for another one look at no community.
#[derive(Clone, Copy, Debug)]
pub struct Tags<'a> {
    communities: &'a [u8],
    large: &'a [u8],
    marks: TagMarks,
    ghost marked: { AreMarked marks.communities (quads communities.now) } by { Prim.hlevel props },
    ghost large_marked: { AreLargeMarked marks.large (large_communities_in large.now) } by { Prim.hlevel props },
}

impl<'a> Tags<'a> {
    ghost use Rattle.rs_attrs.specs.Getters.{tagged, large_tagged};

    /// Of values of COMMUNITIES and of LARGE_COMMUNITY, which have these marks.
    pub(crate) fn of(communities: &'a [u8], large: &'a [u8], marks: TagMarks) -> Tags<'a>
        requires marked { AreMarked marks.communities (quads communities.now) }
        requires large_marked { AreLargeMarked marks.large (large_communities_in large.now) }
        ensures communities { tagged result ≡ quads communities.now }
        ensures large { large_tagged result ≡ large_communities_in large.now }
    {
        Tags {
            communities,
            large,
            marks,
        }
    }

    /// Whether the marks tell that no community is like this: none has its first part.
    pub fn lacks_community_like(&self, pattern: &CommunityPattern) -> bool
        ensures { IsTrue result → list_any (is_like pattern.now) (tagged self.now) ≡ false }
    {
        if let Some(high) = pattern.high
            && self.marks.communities & mark_of(high) == 0
        {
            return true;
        }
        false
    }

    /// Whether the marks tell that no large community is like this: none has its Global Administrator.
    pub fn lacks_large_community_like(&self, pattern: &LargeCommunityPattern) -> bool
        ensures { IsTrue result → list_any (is_like_large pattern.now) (large_tagged self.now) ≡ false }
    {
        if let Some(global) = pattern.global
            && self.marks.large & mark_of(global) == 0
        {
            return true;
        }
        false
    }

    /// Whether there is a community like this (RFC 1997).
    pub fn has_community_like(&self, pattern: &CommunityPattern) -> bool
        ensures { result ≡ list_any (is_like pattern.now) (tagged self.now) }
    {
        if self.lacks_community_like(pattern) {
            return false;
        }
        Numbers::of(self.communities).any(|community| pattern.fits(community))
    }

    /// Whether there is a large community like this (RFC 8092).
    pub fn has_large_community_like(&self, pattern: &LargeCommunityPattern) -> bool
        ensures { result ≡ list_any (is_like_large pattern.now) (large_tagged self.now) }
    {
        if self.lacks_large_community_like(pattern) {
            return false;
        }
        LargeCommunities::of(self.large).any(|community| pattern.fits(community))
    }
}
