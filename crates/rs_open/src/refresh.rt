//! Reading the body of a ROUTE-REFRESH (RFC 2918, 3).

ghost use Rattle.std.specs.Prelude.{◌≡◌, ◌≤◌, length};
ghost use Rattle.rs_open.specs.Refreshes.{family_of};

use byteorder::{BigEndian, ByteOrder};

/// The address family whose routes a ROUTE-REFRESH asks for.
#[derive(Clone, Copy, Debug, PartialEq, Eq)]
pub struct AddressFamily {
    /// The Address Family Identifier: 1 is IPv4.
    pub afi: u16,
    /// The Subsequent Address Family Identifier: 1 is unicast.
    pub safi: u8,
}

/// Reads the body of a ROUTE-REFRESH, the octets behind its header: at least 4, as each has whose
/// header is good.
pub fn read_refresh(body: &[u8]) -> AddressFamily
    requires { 4 ≤ length body.now }
    ensures { result ≡ family_of body.now }
{
    AddressFamily {
        afi: BigEndian::read_u16(body),
        safi: body[3],
    }
}
