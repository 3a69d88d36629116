//! What the choice looks at in a route.

/// What the choice looks at in a route, in the order in which it looks.
#[derive(Clone, Copy, Debug, PartialEq, Eq)]
pub struct Rank {
    /// The degree of preference (RFC 4271, 9.1.1): the highest wins.
    pub preference: u32,
    /// The AS numbers in AS_PATH, a set counting one (RFC 4271, 9.1.2.2 a): the shortest wins.
    pub path_len: usize,
    /// ORIGIN (RFC 4271, 9.1.2.2 b): the lowest wins.
    pub origin: u8,
    /// MULTI_EXIT_DISC (RFC 4271, 9.1.2.2 c), compared with those of the same neighbouring AS: the
    /// lowest wins, and a missing one counts 0.
    pub med: Option<u32>,
    /// The AS that the route was learnt from.
    pub neighbour: u32,
    /// The sender's BGP Identifier (RFC 4271, 9.1.2.2 f): the lowest wins.
    pub identifier: u32,
    /// The sender's address (RFC 4271, 9.1.2.2 g): the lowest wins.
    pub address: u32,
    /// The sender's place in the configuration: the lowest wins.
    pub place: usize,
}
