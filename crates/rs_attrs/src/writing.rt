//! Attributes as octets, as a two-octet or a four-octet peer wants them (RFC 4271, 4.3; RFC 6793,
//! 4.2.2). No call takes memory.

mod head;
mod narrow;
mod parts;

ghost use Rattle.std.specs.Prelude.{◌≡◌, ◌+◌, ◌≤◌, length};
ghost use Rattle.rs_octets.specs.Writes.{Writes};
ghost use Rattle.rs_attrs.specs.Writing.{spelt, HasSpelling};

use crate::attrs::Attrs;
use crate::heads::Head;
use crate::mode::Mode;
use crate::writing::head::{LONGEST_HEAD, attribute_size};
use crate::writing::parts::Parts;

/// The octets that the attributes are spelt in. A value of more than 65,535 octets, which has no
/// spelling, counts with a head of four octets.
pub fn size(attrs: &Attrs, mode: Mode) -> usize
    ensures { result ≡ length (spelt attrs.now mode) }
{
    let mut size = 0;
    for part in Parts::of(attrs, mode) {
        size += attribute_size(part.len());
    }
    size
}

/// At least the octets that the attributes are spelt in, and at most one more for each of them. For
/// a four-octet peer it is known without going over them.
pub fn size_at_most(attrs: &Attrs, mode: Mode) -> usize
    ensures most { length (spelt attrs.now mode) ≤ result }
    ensures near { result ≤ length (spelt attrs.now mode) + length attrs.now }
{
    match mode {
        Mode::Four => {
            let (heads, values): (&[Head], &[u8]) = (&attrs.heads, &attrs.values);
            LONGEST_HEAD * heads.len() + values.len()
        }
        Mode::Two => size(attrs, mode),
    }
}

/// Writes the attributes, and answers how many octets that took. What lies behind them stays.
pub fn write_into(attrs: &Attrs, mode: Mode, out: &mut [u8]) -> usize
    requires spelling { HasSpelling attrs.now mode }
    requires fits { length (spelt attrs.now mode) ≤ length out.old }
    ensures end { result ≡ length (spelt attrs.now mode) }
    ensures octets { Writes 0 (spelt attrs.now mode) out.old out.new }
{
    let mut at = 0;
    for part in Parts::of(attrs, mode) {
        at = part.put(out, at);
    }
    at
}
