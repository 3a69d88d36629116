//! Message headers and their checks (RFC 4271, 4.1 and 6.1).

ghost use Rattle.std.specs.Prelude.{◌≡◌, ◌==◌, ◌≤◌, length, IfOk};
ghost use Rattle.std.specs.List.{list_all};
ghost use Rattle.std.specs.Int.{is_in_range};
ghost use Rattle.rs_octets.specs.Headers;
ghost use Rattle.rs_octets.specs.Headers.{type_number, kind_numbered, least_length, greatest_length, HasLengthOfType, header_of, header_octets};
ghost use Rattle.rs_octets.specs.Writes.{Writes};

use crate::numbers::{LONGEST_MESSAGE, longest_message};
use crate::writes::put;
use thiserror::Error;

/// The type of a message (RFC 4271, 4.1; RFC 2918, 3).
#[derive(Clone, Copy, Debug, PartialEq, Eq)]
pub enum Kind {
    /// Type 1, OPEN.
    Open,
    /// Type 2, UPDATE.
    Update,
    /// Type 3, NOTIFICATION.
    Note,
    /// Type 4, KEEPALIVE.
    Keepalive,
    /// Type 5, ROUTE-REFRESH.
    Refresh,
}

/// What stands in a good header: the length of the whole message in octets, and its type.
#[derive(Clone, Copy, Debug, PartialEq, Eq)]
pub struct Head {
    pub length: u16,
    pub kind: Kind,
}

/// What a peer may send beyond RFC 4271.
#[derive(Clone, Copy, Debug, PartialEq, Eq)]
pub struct Allowed {
    /// UPDATE and NOTIFICATION of up to 65,535 octets, in place of 4,096 (RFC 8654).
    pub long: bool,
    /// ROUTE-REFRESH (RFC 2918).
    pub refresh: bool,
}

/// The first check that a header fails (RFC 4271, 6.1).
#[derive(Clone, Copy, Debug, PartialEq, Eq, Error)]
pub enum HeaderFault {
    /// An octet of the marker is not `ff`.
    #[error("the marker is not sixteen octets ff")]
    Marker,
    /// The length, which no message has, or none of this type.
    #[error("bad message length {0}")]
    Length(u16),
    /// The type, which is not known.
    #[error("bad message type {0}")]
    Kind(u8),
}

impl Kind {
    /// The number of the type.
    pub fn number(self) -> u8
        ensures { result ≡ type_number self }
    {
        match self {
            Kind::Open => 1,
            Kind::Update => 2,
            Kind::Note => 3,
            Kind::Keepalive => 4,
            Kind::Refresh => 5,
        }
    }

    /// The type that a number stands for.
    fn numbered(number: u8, allowed: Allowed) -> Option<Kind>
        ensures { result ≡ kind_numbered allowed number }
    {
        match number {
            1 => Some(Kind::Open),
            2 => Some(Kind::Update),
            3 => Some(Kind::Note),
            4 => Some(Kind::Keepalive),
            5 if allowed.refresh => Some(Kind::Refresh),
            _ => None,
        }
    }

    /// The least length of a message of this type.
    pub fn least_length(self) -> u16
        ensures { result ≡ least_length self }
    {
        match self {
            Kind::Open => 29,
            Kind::Update => 23,
            Kind::Note => 21,
            Kind::Keepalive => 19,
            Kind::Refresh => 23,
        }
    }

    /// The greatest length of a message of this type.
    pub fn greatest_length(self, allowed: Allowed) -> u16
        ensures { result ≡ greatest_length allowed self }
    {
        match self {
            Kind::Open => LONGEST_MESSAGE,
            Kind::Update | Kind::Note => longest_message(allowed.long),
            Kind::Keepalive | Kind::Refresh => self.least_length(),
        }
    }
}

fn is_within(least: u16, greatest: u16, length: u16) -> bool
    ensures { result ≡ is_in_range least greatest length }
{
    least <= length && length <= greatest
}

fn is_marker(octets: &[u8]) -> bool
    ensures { result ≡ list_all (λ b. b == 255) octets.now }
{
    octets.iter().all(|octet| *octet == 255)
}

/// The last two checks of a header: its type is known, and its length one of that type.
fn head_of_type(length: u16, number: u8, allowed: Allowed) -> Result<Head, HeaderFault>
    ensures value { result ≡ Headers.head_of_type allowed (kind_numbered allowed number) length number }
    ensures length { IfOk result (λ head. HasLengthOfType allowed head) }
{
    let Some(kind) = Kind::numbered(number, allowed) else {
        return Err(HeaderFault::Kind(number));
    };
    if !is_within(kind.least_length(), kind.greatest_length(allowed), length) {
        return Err(HeaderFault::Length(length));
    }
    Ok(Head { length, kind })
}

/// Reads a message's header: the marker, the length, the type and the length of that type are
/// checked in this order, and the first check that fails is the fault.
pub fn header(octets: &[u8; 19], allowed: Allowed) -> Result<Head, HeaderFault>
    ensures value { result ≡ header_of allowed octets.now }
    ensures length { IfOk result (λ head. HasLengthOfType allowed head) }
{
    if !is_marker(&octets[..16]) {
        return Err(HeaderFault::Marker);
    }
    let length = u16::from_be_bytes([octets[16], octets[17]]);
    if !is_within(19, longest_message(allowed.long), length) {
        return Err(HeaderFault::Length(length));
    }
    head_of_type(length, octets[18], allowed)
}

/// Writes a message's header at the front of a slice, and answers where it ends. `total` is the
/// length of the whole message.
pub fn put_header(out: &mut [u8], total: u16, kind: Kind) -> usize
    requires { 19 ≤ length out.old }
    ensures end { result ≡ 19 }
    ensures octets { Writes 0 (header_octets total kind) out.old out.new }
{
    let end = put(out, 0, &[0xff; 16]);
    let end = put(out, end, &total.to_be_bytes());
    put(out, end, &[kind.number()])
}
