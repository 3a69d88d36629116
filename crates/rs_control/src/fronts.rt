//! What stands at the front of what an operator said.

ghost use Rattle.std.specs.Prelude.{◌≡◌, ◌<◌, ◌==◌, Some, None, IfSome, length, nat_lt, if◌then◌else◌};
ghost use Rattle.std.specs.List.{after_first, position_or_len};
ghost use Rattle.rs_control.specs.Fronts.{IsWithin, is_end, front_in, front_without};

use crate::lines::LINE;

/// What stands at the front of what was heard.
#[derive(Clone, Copy)]
pub(crate) enum Front {
    /// No whole line.
    Part,
    /// A line of so many octets, without its end.
    Line(usize),
    /// More than a line may have.
    Long,
}

/// An end of a line stands in it.
pub(crate) fn has_line(octets: &[u8]) -> bool {
    octets.contains(&b'\n')
}

/// Where this octet stands first.
pub(crate) fn position(octets: &[u8], wanted: u8) -> Option<usize>
    ensures place { let at = position_or_len (λ octet. octet == wanted) octets.now in result ≡ (if nat_lt at (length octets.now) then Some at else None) }
    ensures within { IfSome result (λ at. at < length octets.now) }
{
    octets.iter().position(|octet| *octet == wanted)
}

/// What stands behind the first end of a line; nothing where there is none.
pub(crate) fn behind_line(octets: &[u8]) -> &[u8]
    ensures { result.now ≡ after_first is_end octets.now }
{
    match position(octets, b'\n') {
        Some(at) => &octets[at + 1..],
        None => &[],
    }
}

/// What stands in so many octets that have no end of a line; where nothing more comes, a line needs none.
fn front_without(count: usize, has_ended: bool) -> Front
    ensures value { result ≡ front_without count has_ended }
    ensures within { IsWithin count result }
{
    if count > LINE {
        Front::Long
    } else if has_ended && count > 0 {
        Front::Line(count)
    } else {
        Front::Part
    }
}

/// What stands at the front of what was heard.
pub(crate) fn front_of(heard: &[u8], has_ended: bool) -> Front
    ensures value { result ≡ front_in heard.now has_ended }
    ensures within { IsWithin (length heard.now) result }
{
    match position(heard, b'\n') {
        Some(at) => Front::Line(at),
        None => front_without(heard.len(), has_ended),
    }
}
