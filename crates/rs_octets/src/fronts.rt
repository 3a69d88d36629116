//! What stands at the front of the octets that have come: a whole message, a header that is refused,
//! or the beginning of a message (RFC 4271, 4.1 and 6.1).

ghost use Rattle.std.specs.Prelude.{◌≡◌};

use crate::heads::{Allowed, HeaderFault, Kind, header};

/// What stands at the front of octets.
#[derive(Clone, Copy, Debug)]
pub enum Front<'a> {
    /// A whole message: its type, what stands behind its header, and the octets behind it.
    Message {
        kind: Kind,
        body: &'a [u8],
        rest: &'a [u8],
    },
    /// A header that is refused.
    Fault(HeaderFault),
    /// The beginning of a message. So many octets more, at least one, are wanted to the end of its
    /// header or, where that is there, of the message; with fewer there is nothing new to see.
    Wants(usize),
}

ghost use Rattle.rs_octets.specs.Fronts.{IsFront, HasSizes};

/// What stands at the front of octets.
pub fn read_front(octets: &[u8], allowed: Allowed) -> Front<'_>
    ensures front { IsFront allowed octets.now result }
    ensures sizes { HasSizes octets.now result }
{
    let Some(head) = octets.first_chunk::<19>() else {
        return Front::Wants(19 - octets.len());
    };
    let head = match header(head, allowed) {
        Ok(head) => head,
        Err(fault) => return Front::Fault(fault),
    };
    let length = usize::from(head.length);
    if octets.len() < length {
        return Front::Wants(length - octets.len());
    }
    let (message, rest) = octets.split_at(length);
    Front::Message {
        kind: head.kind,
        body: &message[19..],
        rest,
    }
}
