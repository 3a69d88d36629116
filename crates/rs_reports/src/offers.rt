//! What a client's OPEN offered, for the report where it is refused.

ghost use Rattle.std.specs.Prelude.{◌≡◌, ◌≤◌, length};
ghost use Rattle.rs_reports.specs.Offers;
ghost use Rattle.rs_reports.specs.Offers.{IsOffered, offered_by};

use byteorder::{BigEndian, ByteOrder};
use rs_octets::{Allowed, Front, Kind, read_front};
use rs_open::{OpenFault, read_open};

/// What an OPEN says (RFC 4271, 4.2), with the AS number that counts (RFC 6793).
#[derive(Clone, Copy, Debug, PartialEq, Eq)]
pub struct Offered {
    pub version: u8,
    pub number: u32,
    pub hold: u16,
    pub identifier: u32,
}

/// What may be sent before an OPEN is answered.
const AT_FIRST: Allowed = Allowed {
    long: false,
    refresh: false,
};

/// The AS number that counts in the body of an OPEN: the capability's where it is there, else My AS.
fn number_in(body: &[u8]) -> u32
    requires { 10 ≤ length body.now }
    ensures { result ≡ Offers.number_in body.now }
{
    let four = match read_open(body) {
        Ok(open) => open.four,
        Err(OpenFault::Hold { four, .. } | OpenFault::Identifier { four, .. }) => four,
        Err(_) => None,
    };
    match four {
        Some(number) => number,
        None => u32::from(BigEndian::read_u16(&body[1..])),
    }
}

impl Offered {
    /// What the body of an OPEN says.
    fn by(body: &[u8]) -> Offered
        requires { 10 ≤ length body.now }
        ensures { result ≡ offered_by body.now }
    {
        Offered {
            version: body[0],
            number: number_in(body),
            hold: BigEndian::read_u16(&body[3..]),
            identifier: BigEndian::read_u32(&body[5..]),
        }
    }

    /// What the OPEN at the front of octets says; `None` where no whole one stands there.
    pub fn at_front(octets: &[u8]) -> Option<Offered>
        ensures { IsOffered octets.now result }
    {
        match read_front(octets, AT_FIRST) {
            Front::Message {
                kind: Kind::Open,
                body,
                ..
            } => Some(Offered::by(body)),
            _ => None,
        }
    }
}
