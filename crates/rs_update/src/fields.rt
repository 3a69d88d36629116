//! The three fields of an UPDATE's body (RFC 4271, 4.3).

ghost use Rattle.std.specs.Prelude.{◌≡◌, option_map};
ghost use Rattle.rs_attrs.specs.Effects.{cut, fields_of};
ghost use Rattle.rs_update.specs.Changes.{cut_in, fields_in};

#[derive(Clone, Copy)]
pub(crate) struct Fields<'a> {
    pub(crate) withdrawn: &'a [u8],
    pub(crate) attributes: &'a [u8],
    pub(crate) nlri: &'a [u8],
}

/// A field behind its length in two octets, and what follows it.
fn cut_field(octets: &[u8]) -> Option<(&[u8], &[u8])>
    ensures { option_map cut_in result ≡ cut octets.now }
{
    if octets.len() < 2 {
        return None;
    }
    let (length, behind) = octets.split_at(2);
    let size = usize::from(u16::from_be_bytes([length[0], length[1]]));
    if behind.len() < size {
        return None;
    }
    Some(behind.split_at(size))
}

/// The fields of a body, where its two lengths do not exceed it.
pub(crate) fn cut_body(body: &[u8]) -> Option<Fields<'_>>
    ensures { option_map fields_in result ≡ fields_of body.now }
{
    let (withdrawn, behind) = cut_field(body)?;
    let (attributes, nlri) = cut_field(behind)?;
    Some(Fields {
        withdrawn,
        attributes,
        nlri,
    })
}
