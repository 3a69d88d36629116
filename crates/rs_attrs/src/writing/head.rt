//! What stands before the value of an attribute: flags, type and length.

ghost use Rattle.std.specs.Prelude.{◌≡◌, ◌+◌, ◌^◌, ◌<◌, ◌≤◌, length, nat_lt};
ghost use Rattle.rs_octets.specs.Writes.{Writes};
ghost use Rattle.rs_attrs.specs.Writing.{bit, flags_with};
ghost use Rattle.rs_attrs.specs.Held.{head_spelling};
ghost use Rattle.rs_attrs.specs.Parts.{octets_of_length};

use crate::heads::Head;
use rs_octets::put;

/// The most octets before a value: flags, type, and two for the length.
pub(crate) const LONGEST_HEAD: usize = 4;

fn flag(worth: u8, is_set: bool) -> u8
    ensures value { result ≡ bit worth is_set }
    ensures most { result ≤ worth }
{
    if is_set { worth } else { 0 }
}

fn flags(head: &Head) -> u8
    ensures { result ≡ flags_with head.now.optional head.now.transitive head.now.partial (nat_lt 255 head.now.len) }
{
    flag(0x80, head.optional())
        + flag(0x40, head.transitive())
        + flag(0x20, head.partial())
        + flag(0x10, head.len() > 255)
}

/// Writes what stands before a value.
pub(crate) fn put_head(out: &mut [u8], at: usize, head: &Head) -> usize
    requires len { head.now.len < 65536 }
    requires fits { at + length (head_spelling head.now) ≤ length out.old }
    ensures end { result ≡ at + length (head_spelling head.now) }
    ensures octets { Writes at (head_spelling head.now) out.old out.new }
{
    let flags = flags(head);
    if head.len() > 255 {
        let [high, low] = (head.len() as u16).to_be_bytes();
        put(out, at, &[flags, head.kind(), high, low])
    } else {
        put(out, at, &[flags, head.kind(), head.len() as u8])
    }
}

/// The octets of an attribute whose value has this many.
pub(crate) fn attribute_size(len: usize) -> usize
    requires { len < 2 ^ 32 }
    ensures { result ≡ octets_of_length len }
{
    if len > 255 { 4 + len } else { 3 + len }
}
