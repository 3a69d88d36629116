//! Messages that announce prefixes with their attributes.

ghost use Rattle.std.specs.Prelude.{◌≡◌, ◌+◌, ◌<◌, ◌≤◌, [], ◌∷◌, length, take, nat_le, IfSome, IfNone};
ghost use Rattle.rs_octets.specs.Writes.{Writes};
ghost use Rattle.rs_attrs.specs.Writing.{spelt, HasSpelling};
ghost use Rattle.rs_octets.specs.PrefixFields.{prefix_octets};
ghost use Rattle.rs_packer.specs.Packed.{announcement, IsLongestFront, IsPacked};
ghost use Rattle.rs_packer.specs.Parts.{announced_front};

use crate::fields::{longest_front, put_prefixes};
use crate::packed::Packed;
use rs_attrs::{Attrs, Mode, size, size_at_most, write_into};
use rs_octets::{Kind, Prefix, put, put_header};

/// Whether a prefix beside attributes of this size has room in a message of at most `limit` octets.
fn has_room(size: usize, prefix: &Prefix, limit: usize) -> bool
    ensures { result ≡ nat_le (23 + size + length (prefix_octets prefix.now)) limit }
{
    let others = 23 + prefix.size();
    others <= limit && size <= limit - others
}

/// Whether a message that announces this prefix alone, with these attributes as the mode spells
/// them, has at most `limit` octets.
pub fn fits(attrs: &Attrs, mode: Mode, prefix: &Prefix, limit: usize) -> bool
    ensures { result ≡ nat_le (length (announcement attrs.now mode (prefix.now ∷ []))) limit }
{
    if has_room(size_at_most(attrs, mode), prefix, limit) {
        return true;
    }
    has_room(size(attrs, mode), prefix, limit)
}

/// Writes what stands before the attributes of a message that withdraws nothing.
fn put_announced_front(out: &mut [u8], total: u16, size: u16) -> usize
    requires { 23 ≤ length out.old }
    ensures end { result ≡ 23 }
    ensures octets { Writes 0 (announced_front total size) out.old out.new }
{
    let end = put_header(out, total, Kind::Update);
    let end = put(out, end, &[0, 0]);
    put(out, end, &size.to_be_bytes())
}

/// Writes attributes from `at` on, and answers where they end.
fn put_attributes(out: &mut [u8], at: usize, attrs: &Attrs, mode: Mode) -> usize
    requires spelling { HasSpelling attrs.now mode }
    requires fits { at + length (spelt attrs.now mode) ≤ length out.old }
    ensures end { result ≡ at + length (spelt attrs.now mode) }
    ensures octets { Writes at (spelt attrs.now mode) out.old out.new }
{
    at + write_into(attrs, mode, &mut out[at..])
}

/// Writes the message that announces the longest front of the prefixes that fits, with these
/// attributes, whose octets in this mode are counted already.
fn pack_sized(attrs: &Attrs, mode: Mode, size: usize, prefixes: &[Prefix], out: &mut [u8]) -> Packed
    requires size { size ≡ length (spelt attrs.now mode) }
    requires limit { length out.old ≤ 65535 }
    requires some { 0 < length prefixes.now }
    requires fits { length (announcement attrs.now mode (take 1 prefixes.now)) ≤ length out.old }
    ensures { IsPacked (announcement attrs.now mode) prefixes.now out.old out.new result }
{
    let (count, octets) = longest_front(prefixes, out.len() - 23 - size);
    let total = 23 + size + octets;
    let end = put_announced_front(out, total as u16, size as u16);
    let end = put_attributes(out, end, attrs, mode);
    let _ = put_prefixes(out, end, &prefixes[..count]);
    Packed {
        octets: total,
        prefixes: count,
    }
}

/// Writes the message that announces the longest front of the prefixes that fits, with these
/// attributes as the mode spells them. The slice's length is the message's limit: 4,096 octets, or
/// 65,535 towards a peer that takes long messages (RFC 8654). What stands behind the message stays.
///
/// There is a first prefix, and it fits: see [`fits`], or [`try_pack_announced`] where that isn't
/// known. What the message denotes to its receiver: [`crate::laws::announcement_denotes`].
pub fn pack_announced(attrs: &Attrs, mode: Mode, prefixes: &[Prefix], out: &mut [u8]) -> Packed
    requires limit { length out.old ≤ 65535 }
    requires some { 0 < length prefixes.now }
    requires fits { length (announcement attrs.now mode (take 1 prefixes.now)) ≤ length out.old }
    ensures some { 0 < result.prefixes }
    ensures longest { IsLongestFront (announcement attrs.now mode) (length out.old) prefixes.now result.prefixes }
    ensures length { result.octets ≡ length (announcement attrs.now mode (take result.prefixes prefixes.now)) }
    ensures octets { Writes 0 (announcement attrs.now mode (take result.prefixes prefixes.now)) out.old out.new }
{
    pack_sized(attrs, mode, size(attrs, mode), prefixes, out)
}

/// As [`pack_announced`], for whoever doesn't know that the first prefix fits: there is an answer
/// just where there is one and it does, and without one nothing is written. The size of the
/// attributes is computed once. The outlet has asked [`fits`] before a route is due, so only tests
/// call this.
pub fn try_pack_announced(
    attrs: &Attrs,
    mode: Mode,
    prefixes: &[Prefix],
    out: &mut [u8],
) -> Option<Packed>
    requires limit { length out.old ≤ 65535 }
    ensures some { IfSome result (IsPacked (announcement attrs.now mode) prefixes.now out.old out.new) }
    ensures none { IfNone result (0 < length prefixes.now → length out.old < length (announcement attrs.now mode (take 1 prefixes.now))) }
    ensures stays { IfNone result (out.new ≡ out.old) }
{
    let first = prefixes.first()?;
    let size = size(attrs, mode);
    if !has_room(size, first, out.len()) {
        return None;
    }
    Some(pack_sized(attrs, mode, size, prefixes, out))
}
