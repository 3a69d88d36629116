//! Fields of prefixes: how many fit, and their octets.

ghost use Rattle.std.specs.Prelude.{◌≡◌, ◌+◌, ◌<◌, ◌≤◌, length, take, sum_by};
ghost use Rattle.rs_octets.specs.Writes.{Writes};
ghost use Rattle.rs_packer.specs.Packed.{prefixes_octets};
ghost use Rattle.rs_packer.specs.Parts.{prefix_size};

use rs_octets::{Prefix, put_prefix};

/// How many of the prefixes fit into the room, from the first on, and their octets.
pub(crate) fn longest_front(prefixes: &[Prefix], room: usize) -> (usize, usize)
    requires { room ≤ 65535 }
    ensures within { result.0 ≤ length prefixes.now }
    ensures size { result.1 ≡ sum_by prefix_size (take result.0 prefixes.now) }
    ensures fits { result.1 ≤ room }
    ensures full { result.0 < length prefixes.now → room < sum_by prefix_size (take (result.0 + 1) prefixes.now) }
{
    let mut size = 0;
    for (i, prefix) in prefixes.iter().enumerate() {
        let more = size + prefix.size();
        if more > room {
            return (i, size);
        }
        size = more;
    }
    (prefixes.len(), size)
}

/// Writes prefixes from `at` on, and answers where they end.
pub(crate) fn put_prefixes(out: &mut [u8], at: usize, prefixes: &[Prefix]) -> usize
    requires { at + length (prefixes_octets prefixes.now) ≤ length out.old }
    ensures end { result ≡ at + length (prefixes_octets prefixes.now) }
    ensures octets { Writes at (prefixes_octets prefixes.now) out.old out.new }
{
    let mut end = at;
    for prefix in prefixes {
        end = put_prefix(out, end, prefix);
    }
    end
}
