//! Room for what one message tells of. Messages begin one after the other, so one such room serves all clients.

ghost use Rattle.std.specs.Prelude.{◌≤◌, ◌+◌};
ghost use Rattle.std.specs.Vec.{vec_capacity};
ghost use Rattle.rs_open.specs.Notes.{limit_octets};
ghost use Rattle.rs_open.specs.declared.short.Limit.TheVariants as limits;

use crate::sizes::most_prefixes;
use rs_octets::Prefix;
use rs_open::Limit;
use std::alloc::{AllocError, Global};

/// The prefixes of the next message, and the slots where they wait, with room for those of the longest (RFC 8654).
#[derive(Drop)]
pub(crate) struct Batch {
    pub(crate) front: Vec<Prefix>,
    pub(crate) chosen: Vec<usize>,
    ghost front_fits: { limit_octets limits.Long ≤ 23 + vec_capacity front },
    ghost chosen_fits: { limit_octets limits.Long ≤ 23 + vec_capacity chosen },
}

impl Batch {
    /// Room in which nothing lies yet.
    pub(crate) fn new(alloc: Global) -> Result<Batch, AllocError> {
        let most = most_prefixes(Limit::Long);
        Ok(Batch {
            front: Vec::with_capacity(alloc, most)?,
            chosen: Vec::with_capacity(alloc, most)?,
        })
    }
}
