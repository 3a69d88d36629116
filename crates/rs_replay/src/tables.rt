//! The clients whose routes are listed at the end: lines that ask for that, after those of the trace.

ghost use Rattle.std.specs.Prelude.{◌≡◌, ◌++◌, ◌∷◌, [], codes, IfOk, string_bytes};
ghost use Rattle.std.specs.List.{flat_map};

use rs_policy::Config;
use std::alloc::{AllocError, Global};

/// The first of these names that no client has.
pub(crate) fn unknown_table<'a>(config: &Config, names: &'a [String]) -> Option<&'a str> {
    for name in names {
        if config.place(name).is_none() {
            return Some(name);
        }
    }
    None
}

/// A line `table` for each of these names. What stands before the first may lack its end, so that each
/// begins with one.
pub(crate) fn table_lines(alloc: Global, names: &[String]) -> Result<Vec<u8>, AllocError>
    ensures { IfOk result (λ lines. lines.items ≡ flat_map (λ name. (10 ∷ codes "table ") ++ string_bytes name ++ (10 ∷ [])) names.now) }
{
    let mut lines = Vec::new(alloc);
    for name in names {
        lines.extend_from_slice(b"\ntable ")?;
        lines.extend_from_slice(name.as_bytes())?;
        lines.extend_from_slice(b"\n")?;
    }
    Ok(lines)
}
