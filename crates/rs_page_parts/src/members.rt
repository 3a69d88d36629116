//! A member, and the counts of its routes.

ghost use Rattle.std.specs.Prelude.{◌≡◌, ◌<◌, ◌++◌, is_some, IfSome, OnOk};
ghost use Rattle.rs_page_parts.specs.Members.{IsGiven, counts_text, is_client, numbered};

use crate::tables::Tables;
use crate::texts::put_number;
use std::alloc::AllocError;

/// A member, as the configuration has it.
#[derive(Clone, Copy)]
pub struct Member<'a> {
    pub place: usize,
    pub name: &'a [u8],
    pub client_as: u32,
    pub peer: u32,
}

/// The member at a place; `None` where it is none of the configuration.
pub fn member_at<T: Tables>(tables: &T, place: usize) -> Option<Member<'_>>
    ensures given { IsGiven (T.configured tables.now) (λ s. is_client s place) (is_some result) }
    ensures place { IfSome result (λ member. member.place ≡ place) }
    ensures bound { IfSome result (λ member. place < usize.MAX) }
{
    let config = tables.config();
    if place >= config.clients() {
        return None;
    }
    Some(Member {
        place,
        name: config.name(place).as_bytes(),
        client_as: config.client_as(place),
        peer: config.peer(place),
    })
}

/// Puts a name and a number.
fn put_numbered(text: &mut Vec<u8>, name: &[u8], number: u64) -> Result<(), AllocError>
    ensures { OnOk result (text.new.items ≡ text.old.items ++ numbered name.now number) }
{
    text.extend_from_slice(name)?;
    put_number(text, number)
}

/// Puts how many routes a member has, as birdwatcher has it.
#[tactic(auto, unfolding(crate::specs::Members::counts_text))]
pub fn put_counts(
    text: &mut Vec<u8>,
    imported: u64,
    filtered: u64,
    exported: u64,
    preferred: u64,
) -> Result<(), AllocError>
    ensures { OnOk result (text.new.items ≡ text.old.items ++ counts_text imported filtered exported preferred) }
{
    put_numbered(text, b"\"routes\":{\"imported\":", imported)?;
    put_numbered(text, b",\"filtered\":", filtered)?;
    put_numbered(text, b",\"exported\":", exported)?;
    put_numbered(text, b",\"preferred\":", preferred)?;
    text.extend_from_slice(b"}}\n")
}
