//! Takes a field of path attributes apart, from the front.

ghost use Rattle.std.specs.Prelude.{◌≡◌, ◌≤◌, ◌<◌, length, MatchOption, IfSome};
ghost use Rattle.rs_attrs.specs.Spellings.{is_long, head_size, value_size, spelling_size};
ghost use Rattle.rs_attrs.specs.Walking.{spelling_in, Stops, Steps};

/// An attribute as it stands in a field.
#[derive(Clone, Copy, Default)]
pub(crate) struct Found<'a> {
    pub(crate) flags: u8,
    pub(crate) kind: u8,
    pub(crate) value: &'a [u8],
}

fn has_long_size(flags: u8) -> bool
    ensures { result ≡ is_long flags }
{
    flags & 0x10 != 0
}

/// The octets of the type and the length.
fn size_of_head(flags: u8) -> usize
    ensures value { result ≡ head_size flags }
    ensures most { result ≤ 3 }
    ensures least { 2 ≤ result }
{
    if has_long_size(flags) { 3 } else { 2 }
}

fn size_of_value(flags: u8, octets: &[u8]) -> usize
    requires { head_size flags ≤ length octets.now }
    ensures value { result ≡ value_size flags octets.now }
    ensures most { result ≤ 65535 }
{
    if has_long_size(flags) {
        usize::from(u16::from_be_bytes([octets[1], octets[2]]))
    } else {
        usize::from(octets[1])
    }
}

/// The attribute that octets begin with, and what follows it.
pub(crate) fn next_spelling(octets: &[u8]) -> Option<(Found<'_>, &[u8])>
    ensures step { MatchOption result (Stops octets.now) (λ x. Steps octets.now (spelling_in x.0) x.1.now) }
    ensures shorter { IfSome result (λ x. length x.1.now < length octets.now) }
    ensures byte { IfSome result (λ x. x.0.kind < 256) }
{
    let (&flags, octets) = octets.split_first()?;
    let head = size_of_head(flags);
    if octets.len() < head {
        return None;
    }
    let size = size_of_value(flags, octets);
    if octets.len() < head + size {
        return None;
    }
    let kind = octets[0];
    let (_, behind) = octets.split_at(head);
    let (value, rest) = behind.split_at(size);
    Some((Found { flags, kind, value }, rest))
}
