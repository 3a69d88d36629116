//! Triples of a type, a length of one octet and a value (RFC 4271, 4.2; RFC 5492, 4).

ghost use Rattle.std.specs.Prelude.{◌≡◌, ◌<◌, length, MatchOption, IfSome};
ghost use Rattle.rs_open.specs.Triples.{row_of, no_triple};
ghost use Rattle.rs_open.specs.Walk.{row_from};

/// A parameter of an OPEN, or a capability.
#[derive(Clone, Copy)]
pub(crate) struct Triple<'a> {
    pub(crate) kind: u8,
    pub(crate) value: &'a [u8],
}

/// The triple that octets begin with, and the octets behind it.
pub(crate) fn first_triple(octets: &[u8]) -> Option<(Triple<'_>, &[u8])>
    ensures row { MatchOption result (row_of octets.now ≡ no_triple octets.now)
        (λ found. row_of octets.now ≡ row_from found.0 found.1.now) }
    ensures shorter { IfSome result (λ found. length found.1.now < length octets.now) }
{
    let [kind, length, behind @ ..] = octets else {
        return None;
    };
    let length = usize::from(*length);
    if behind.len() < length {
        return None;
    }
    let (value, rest) = behind.split_at(length);
    Some((Triple { kind: *kind, value }, rest))
}
