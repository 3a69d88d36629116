//! The targets of the pages that answer lines.

ghost use Rattle.std.specs.Prelude.{◌≡◌, ◌++◌, codes, IfOk};

use std::alloc::{AllocError, Global};

/// The page of all members.
pub(crate) const MEMBERS: &[u8] = b"/protocols/bgp";

/// That of one member.
pub(crate) fn member_target(alloc: Global, name: &str) -> Result<Vec<u8>, AllocError>
    ensures { IfOk result (λ target. target.items ≡ codes "/protocols/bgp/" ++ name.now) }
{
    let mut target = Vec::from_slice(alloc, b"/protocols/bgp/")?;
    target.extend_from_slice(name.as_bytes())?;
    Ok(target)
}

/// That of why this member is sent what it is for a prefix.
pub(crate) fn why_target(alloc: Global, name: &str, prefix: &[u8]) -> Result<Vec<u8>, AllocError>
    ensures { IfOk result (λ target. target.items ≡ codes "/why?to=" ++ name.now ++ codes "&prefix=" ++ prefix.now) }
{
    let mut target = Vec::from_slice(alloc, b"/why?to=")?;
    target.extend_from_slice(name.as_bytes())?;
    target.extend_from_slice(b"&prefix=")?;
    target.extend_from_slice(prefix)?;
    Ok(target)
}
