//! A route as rules are asked of it.

ghost use Rattle.std.specs.Prelude.{◌≡◌, true, []};
ghost use Rattle.rs_attrs.specs.Getters.{communities_of, large_communities_of, large_tagged, tagged};

use rs_attrs::{Attrs, Tags};
use rs_octets::Prefix;

/// A route as its sender announced it.
#[derive(Clone, Copy)]
pub(super) struct Offer<'p, 'a> {
    /// The sender's place, from 0.
    pub(super) from: usize,
    /// The sender's address.
    pub(super) peer: u32,
    /// The sender's AS number.
    pub(super) peer_as: u32,
    pub(super) prefix: &'p Prefix,
    pub(super) attrs: &'a Attrs,
    /// The route's communities, for which many rules ask.
    pub(super) tags: Tags<'a>,
    /// It has no community at all.
    pub(super) lacks_communities: bool,
    /// It has no large one at all.
    pub(super) lacks_large: bool,
    /// The AS number of the client to which it goes.
    pub(super) to_as: u32,
    ghost communities: { tagged tags ≡ communities_of attrs.now },
    ghost large: { large_tagged tags ≡ large_communities_of attrs.now },
    ghost none: { lacks_communities ≡ true → communities_of attrs.now ≡ [] },
    ghost none_large: { lacks_large ≡ true → large_communities_of attrs.now ≡ [] },
}
