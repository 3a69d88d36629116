//! What a session hears.

use rs_octets::HeaderFault;
use rs_open::{Open, OpenFault};

/// A message that has come, or the fault of a header.
#[derive(Clone, Copy, Debug, PartialEq, Eq)]
pub enum Heard {
    Open(Result<Open, OpenFault>),
    /// An UPDATE, with the error code and the subcode of its session reset where it is one
    /// (RFC 7606, 2; RFC 4486, 4).
    Update(Option<(u8, u8)>),
    /// A ROUTE-REFRESH message (RFC 2918, 3).
    Refresh { afi: u16, safi: u8 },
    /// A NOTIFICATION.
    Note,
    Keepalive,
    Header(HeaderFault),
}
