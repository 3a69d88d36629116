//! Where the steps to a value lead to in a text.

ghost use Rattle.std.specs.Prelude.{◌≡◌, true, IfOk, IfSome};
ghost use Rattle.rs_places.specs.Positions.{stands_at};

use crate::marks::{Spot, tried};
use crate::steps::Step;
use std::alloc::{AllocError, Global};

/// Where the steps lead to in a text, as it was found. It is tried first: None where it isn't there.
pub fn spot(
    alloc: Global,
    text: &str,
    steps: &[Step<'_>],
    found: Option<Spot>,
) -> Result<Option<Spot>, AllocError>
    ensures { IfOk result (λ o. IfSome o (λ s. stands_at text.now steps.now s ≡ true)) }
{
    let Some(spot) = found else {
        return Ok(None);
    };
    tried(alloc, text, steps, spot)
}
