//! The numbers of the types of path attributes that are known, and of those of a path's segments.

/// The type of ORIGIN (RFC 4271, 5.1.1).
pub const ORIGIN: u8 = 1;

/// The type of AS_PATH (RFC 4271, 5.1.2).
pub const AS_PATH: u8 = 2;

/// The type of NEXT_HOP (RFC 4271, 5.1.3).
pub const NEXT_HOP: u8 = 3;

/// The type of MULTI_EXIT_DISC (RFC 4271, 5.1.4).
pub const MULTI_EXIT_DISC: u8 = 4;

/// The type of LOCAL_PREF (RFC 4271, 5.1.5).
pub const LOCAL_PREF: u8 = 5;

/// The type of ATOMIC_AGGREGATE (RFC 4271, 5.1.6).
pub const ATOMIC_AGGREGATE: u8 = 6;

/// The type of AGGREGATOR (RFC 4271, 5.1.7).
pub const AGGREGATOR: u8 = 7;

/// The type of COMMUNITIES (RFC 1997).
pub const COMMUNITIES: u8 = 8;

/// The type of ORIGINATOR_ID (RFC 4456, 8).
pub const ORIGINATOR_ID: u8 = 9;

/// The type of CLUSTER_LIST (RFC 4456, 8).
pub const CLUSTER_LIST: u8 = 10;

/// The type of MP_REACH_NLRI (RFC 4760, 3).
pub const MP_REACH_NLRI: u8 = 14;

/// The type of MP_UNREACH_NLRI (RFC 4760, 4).
pub const MP_UNREACH_NLRI: u8 = 15;

/// The type of EXTENDED COMMUNITIES (RFC 4360, 2).
pub const EXTENDED_COMMUNITIES: u8 = 16;

/// The type of AS4_PATH (RFC 6793, 3).
pub const AS4_PATH: u8 = 17;

/// The type of AS4_AGGREGATOR (RFC 6793, 3).
pub const AS4_AGGREGATOR: u8 = 18;

/// The type of LARGE_COMMUNITY (RFC 8092, 3).
pub const LARGE_COMMUNITY: u8 = 32;

// ---- segments of a path

/// RFC 4271, 4.3.
pub(crate) const AS_SET: u8 = 1;

pub(crate) const AS_SEQUENCE: u8 = 2;

/// RFC 5065, 3.
pub(crate) const AS_CONFED_SEQUENCE: u8 = 3;

pub(crate) const AS_CONFED_SET: u8 = 4;
