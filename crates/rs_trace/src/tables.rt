//! The routes of a client's Loc-RIB, as lines. It asks the core, and knows nothing of traces.

ghost use Rattle.std.specs.Prelude.{◌≡◌, List, ℕ, IfOk};
ghost use Rattle.rs_attrs.specs.Writing.{spelt};
ghost use Rattle.rs_core.specs.Run.Agreeing.{Agrees};
ghost use Rattle.rs_core.specs.Core.{client_count};
ghost use Rattle.rs_core.specs.Run.Moves.{Move};
ghost use Rattle.rs_trace.specs.Tables.{ListsOf};

use crate::output;
use rs_attrs::{Attrs, Mode, size, write_into};
use rs_core::Core;
use std::alloc::{AllocError, Global};

/// The longest spelling of attributes that a message holds.
const LONGEST_SPELLING: usize = 65535;

/// Attributes as they are spelt for a client. Those that no message holds, which are due to nobody, are
/// refused as if there were no memory for them.
fn spelling(alloc: Global, attrs: &Attrs, mode: Mode) -> Result<Vec<u8>, AllocError>
    ensures { IfOk result (λ octets. octets.items ≡ spelt attrs.now mode) }
{
    let size = size(attrs, mode);
    if size > LONGEST_SPELLING {
        return Err(AllocError);
    }
    let mut octets = Vec::from_elem(alloc, 0, size)?;
    write_into(attrs, mode, &mut octets);
    Ok(octets)
}

/// The lines of a client's routes, by rising prefix: none where it is not Established, and before the
/// first turn of its session.
pub fn route_lines(alloc: Global, core: &Core, c: usize, name: &[u8]) -> Result<Vec<u8>, AllocError>
    ensures { (run : List Move) → Agrees core.now run → (listed_lines : List ℕ) × ListsOf (client_count core.now) run c name.now listed_lines × IfOk result (λ lines. lines.items ≡ listed_lines) }
{
    let mut lines = Vec::new(alloc);
    if c >= core.clients() {
        return Ok(lines);
    }
    let Some(mode) = core.mode(c) else {
        return Ok(lines);
    };
    for (prefix, attrs) in core.routes(c) {
        let octets = spelling(alloc, attrs, mode)?;
        lines.extend_from_slice(&output::route(alloc, name, &prefix, &octets)?)?;
    }
    Ok(lines)
}
