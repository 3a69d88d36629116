//! How much room a message has.

ghost use Rattle.std.specs.Prelude.{◌≡◌, ◌≤◌, ◌<◌, ◌-◌};
ghost use Rattle.rs_open.specs.Notes.{limit_octets};
ghost use Rattle.rs_octets.specs.Numbers.{longest_where};

use rs_octets::longest_message;
use rs_open::Limit;

/// The octets of the longest message.
pub(crate) fn room(extended: bool) -> usize
    ensures value { result ≡ longest_where extended }
    ensures most { result ≤ 65535 }
{
    usize::from(longest_message(extended))
}

/// The octets of an UPDATE without prefixes and attributes: its header and two lengths.
const EMPTY_UPDATE: usize = 23;

/// The most prefixes that a message of this limit holds: each takes an octet at least.
pub(crate) fn most_prefixes(limit: Limit) -> usize
    ensures value { result ≡ limit_octets limit - 23 }
    ensures some { 0 < result }
{
    limit.octets() - EMPTY_UPDATE
}

/// More than a message of this limit holds of prefixes of 17 to 24 bits, as most are, with a few shorter ones among them: a
/// sixteenth more than of those alone.
pub(crate) fn usual_prefixes(limit: Limit) -> usize
    ensures most { result ≤ limit_octets limit - 23 }
    ensures some { 0 < result }
{
    let most = most_prefixes(limit);
    most / 4 + most / 64 + 1
}
