//! Messages that withdraw prefixes.

ghost use Rattle.std.specs.Prelude.{◌≡◌, ◌+◌, ◌<◌, ◌≤◌, length, take};
ghost use Rattle.rs_octets.specs.Writes.{Writes};
ghost use Rattle.rs_packer.specs.Packed.{withdrawal, IsLongestFront};
ghost use Rattle.rs_packer.specs.Parts.{withdrawn_front};

use crate::fields::{longest_front, put_prefixes};
use crate::packed::Packed;
use rs_octets::{Kind, Prefix, put, put_header};

/// Writes what stands before the prefixes of a message that announces none.
fn put_withdrawn_front(out: &mut [u8], total: u16, size: u16) -> usize
    requires { 21 ≤ length out.old }
    ensures end { result ≡ 21 }
    ensures octets { Writes 0 (withdrawn_front total size) out.old out.new }
{
    let end = put_header(out, total, Kind::Update);
    put(out, end, &size.to_be_bytes())
}

/// Writes the message that withdraws the longest front of the prefixes that fits. The slice's
/// length is the message's limit: 4,096 octets, or 65,535 towards a peer that takes long messages
/// (RFC 8654). What stands behind the message stays.
///
/// There is a first prefix. It fits, since it never needs more than 28 octets. What the message
/// denotes to its receiver: [`crate::laws::withdrawal_denotes`].
pub fn pack_withdrawn(prefixes: &[Prefix], out: &mut [u8]) -> Packed
    requires limit { length out.old ≤ 65535 }
    requires some { 0 < length prefixes.now }
    requires fits { 28 ≤ length out.old }
    ensures some { 0 < result.prefixes }
    ensures longest { IsLongestFront withdrawal (length out.old) prefixes.now result.prefixes }
    ensures length { result.octets ≡ length (withdrawal (take result.prefixes prefixes.now)) }
    ensures octets { Writes 0 (withdrawal (take result.prefixes prefixes.now)) out.old out.new }
{
    let (count, octets) = longest_front(prefixes, out.len() - 23);
    let total = 23 + octets;
    let end = put_withdrawn_front(out, total as u16, octets as u16);
    let end = put_prefixes(out, end, &prefixes[..count]);
    let _ = put(out, end, &[0, 0]);
    Packed {
        octets: total,
        prefixes: count,
    }
}
