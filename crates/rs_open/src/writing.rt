//! Writing the messages that a session says, into slices that are lent.

ghost use Rattle.std.specs.Prelude.{◌≡◌, ◌+◌, ◌<◌, ◌≤◌, [], ◌∷◌, length, take, if◌then◌else◌};
ghost use Rattle.std.specs.List.{flat_map};
ghost use Rattle.rs_octets.specs.Writes.{Writes};
ghost use Rattle.rs_open.specs.Triples.{triple_octets};
ghost use Rattle.rs_open.specs.Walk.{open_front, capability_octets};
ghost use Rattle.rs_open.specs.Writing.{keepalive, notification, capabilities_said, my_as_said, server_open, short_octets};

use crate::codes::{
    CAPABILITIES, EXTENDED_MESSAGE, FOUR_OCTET_AS, IPV4_UNICAST, MULTIPROTOCOL, ROUTE_REFRESH,
    VERSION,
};
use crate::short::Short;
use rs_octets::{AS_TRANS, Kind, put, put_header};

/// The most octets that an OPEN of the server has.
pub const MAX_OPEN: usize = 47;

/// The most octets that a NOTIFICATION of the server has.
pub const MAX_NOTE: usize = 150;

/// What the server's OPEN says (RFC 4271, 4.2).
#[derive(Clone, Copy, Debug, PartialEq, Eq)]
pub struct ServerOpen {
    pub server_as: u32,
    /// The Hold Time, in seconds.
    pub hold: u16,
    /// The BGP Identifier.
    pub identifier: u32,
    /// Says that it speaks IPv4 unicast (RFC 4760, 8), as the first capability.
    pub multiprotocol: bool,
    /// Says that it takes messages of up to 65,535 octets (RFC 8654, 3).
    pub extended: bool,
    /// Says that it takes ROUTE-REFRESH (RFC 2918, 2).
    pub refresh: bool,
}

impl ServerOpen {
    /// The field My Autonomous System.
    fn my_as(&self) -> u16
        ensures { result ≡ my_as_said self.now.server_as }
    {
        u16::try_from(self.server_as).unwrap_or(AS_TRANS)
    }

    /// The octets of the capabilities.
    fn capabilities_size(&self) -> u8
        ensures { result ≡ length (flat_map triple_octets (capabilities_said self.now)) }
    {
        let multiprotocol = if self.multiprotocol { 6 } else { 0 };
        let extended = if self.extended { 2 } else { 0 };
        let refresh = if self.refresh { 2 } else { 0 };
        6 + multiprotocol + extended + refresh
    }
}

/// Writes a KEEPALIVE, and answers its octets.
pub fn write_keepalive(out: &mut [u8]) -> usize
    requires { length keepalive ≤ length out.old }
    ensures end { result ≡ length keepalive }
    ensures octets { Writes 0 keepalive out.old out.new }
{
    put_header(out, 19, Kind::Keepalive)
}

/// The octets of a NOTIFICATION with the first `count` octets of `extra` as its data.
fn note_size(extra: [u8; 129], count: u8) -> usize
    ensures exact { result ≡ 21 + length (take count extra) }
    ensures most { result ≤ MAX_NOTE }
{
    21 + extra.len().min(usize::from(count))
}

/// Writes a NOTIFICATION with the first `count` octets of `extra` as its data, and answers its octets.
pub fn write_note(code: u8, sub: u8, extra: [u8; 129], count: u8, out: &mut [u8]) -> usize
    requires { length (notification code sub (take count extra)) ≤ length out.old }
    ensures end { result ≡ length (notification code sub (take count extra)) }
    ensures octets { Writes 0 (notification code sub (take count extra)) out.old out.new }
{
    let size = note_size(extra, count);
    let end = put_header(out, size as u16, Kind::Note);
    let end = put(out, end, &[code, sub]);
    put(out, end, &extra[..size - end])
}

/// Writes what stands in an OPEN before the capabilities, and answers where it ends.
fn put_open_front(said: &ServerOpen, capabilities: u8, out: &mut [u8]) -> usize
    requires room { 31 ≤ length out.old }
    requires small { capabilities < 254 }
    ensures end { result ≡ 31 }
    ensures octets { Writes 0 (open_front said.now capabilities) out.old out.new }
{
    let end = put_header(out, 31 + u16::from(capabilities), Kind::Open);
    let end = put(out, end, &[VERSION]);
    let end = put(out, end, &said.my_as().to_be_bytes());
    let end = put(out, end, &said.hold.to_be_bytes());
    let end = put(out, end, &said.identifier.to_be_bytes());
    put(out, end, &[2 + capabilities, CAPABILITIES, capabilities])
}

/// Writes a capability from `at` on where it is wanted, and answers where it ends.
fn put_capability(out: &mut [u8], at: usize, wanted: bool, code: u8, value: &[u8]) -> usize
    requires small { length value.now < 256 }
    requires room { at + length (capability_octets wanted code value.now) ≤ length out.old }
    ensures end { result ≡ at + length (capability_octets wanted code value.now) }
    ensures octets { Writes at (capability_octets wanted code value.now) out.old out.new }
{
    if !wanted {
        return at;
    }
    let end = put(out, at, &[code, value.len() as u8]);
    put(out, end, value)
}

/// Writes the server's OPEN, and answers its octets, `MAX_OPEN` at most.
pub fn write_open(said: &ServerOpen, out: &mut [u8]) -> usize
    requires { length (server_open said.now) ≤ length out.old }
    ensures end { result ≡ length (server_open said.now) }
    ensures octets { Writes 0 (server_open said.now) out.old out.new }
{
    let end = put_open_front(said, said.capabilities_size(), out);
    let end = put_capability(out, end, said.multiprotocol, MULTIPROTOCOL, &IPV4_UNICAST);
    let end = put_capability(out, end, true, FOUR_OCTET_AS, &said.server_as.to_be_bytes());
    let end = put_capability(out, end, said.extended, EXTENDED_MESSAGE, &[]);
    put_capability(out, end, said.refresh, ROUTE_REFRESH, &[])
}

/// The octets of a message that a session says.
pub fn short_size(short: &Short, said: &ServerOpen) -> usize
    ensures exact { result ≡ length (short_octets said.now short.now) }
    ensures most { result ≤ MAX_NOTE }
    ensures open { short.now ≡ Short.Open → result ≤ MAX_OPEN }
{
    match short {
        Short::Open => 31 + usize::from(said.capabilities_size()),
        Short::Keepalive => 19,
        Short::Note { extra, count, .. } => note_size(*extra, *count),
    }
}

/// Writes a message that a session says, and answers its octets.
///
/// The outlet knows at each place which kind it writes, and so calls [`write_open`],
/// [`write_keepalive`] or [`write_note`]; only tests call this.
pub fn write_short(short: &Short, said: &ServerOpen, out: &mut [u8]) -> usize
    requires { length (short_octets said.now short.now) ≤ length out.old }
    ensures end { result ≡ length (short_octets said.now short.now) }
    ensures octets { Writes 0 (short_octets said.now short.now) out.old out.new }
{
    match short {
        Short::Open => write_open(said, out),
        Short::Keepalive => write_keepalive(out),
        Short::Note {
            code,
            sub,
            extra,
            count,
        } => write_note(*code, *sub, *extra, *count, out),
    }
}
