//! Numbers of the protocol that several crates need.

ghost use Rattle.std.specs.Prelude.{◌≡◌};
ghost use Rattle.rs_octets.specs.Numbers.{longest_where};

/// The AS number that stands for one that two octets can't hold (RFC 6793, 9).
pub const AS_TRANS: u16 = 23456;

/// The octets of the longest message (RFC 4271, 4.1).
pub(crate) const LONGEST_MESSAGE: u16 = 4096;

/// The octets of the longest message where longer ones are taken (RFC 8654, 4).
const LONGEST_EXTENDED_MESSAGE: u16 = 65535;

/// The octets of the longest message, where longer ones are taken (`extended`, RFC 8654) or not.
pub fn longest_message(extended: bool) -> u16
    ensures { result ≡ longest_where extended }
{
    if extended {
        LONGEST_EXTENDED_MESSAGE
    } else {
        LONGEST_MESSAGE
    }
}
