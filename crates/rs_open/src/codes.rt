//! The numbers of an OPEN's parts.

// ---- an OPEN (RFC 4271, 4.2)

/// The version of BGP that is spoken (RFC 4271).
pub(crate) const VERSION: u8 = 4;

/// The type of a parameter that holds capabilities (RFC 5492, 4).
pub(crate) const CAPABILITIES: u8 = 2;

// ---- codes of capabilities

/// Multiprotocol extensions (RFC 4760, 8).
pub(crate) const MULTIPROTOCOL: u8 = 1;

/// Route refresh (RFC 2918, 2).
pub(crate) const ROUTE_REFRESH: u8 = 2;

/// Extended messages (RFC 8654, 3).
pub(crate) const EXTENDED_MESSAGE: u8 = 6;

/// Four-octet AS numbers (RFC 6793, 3).
pub(crate) const FOUR_OCTET_AS: u8 = 65;

/// The value of the capability for multiprotocol extensions: address family 1, a reserved octet and
/// subsequent address family 1 (RFC 4760, 8).
pub(crate) const IPV4_UNICAST: [u8; 4] = [0, 1, 0, 1];
