//! Reads a field of path attributes: what it means, and what is wrong with it.

pub(crate) mod field;
mod gathering;
mod two;
pub(crate) mod values;

ghost use Rattle.std.specs.Prelude.{◌≡◌, ◌++◌, IfOk, OnOk};
ghost use Rattle.rs_attrs.specs.Flaws.{faulted_of};
ghost use Rattle.rs_attrs.specs.Meaning.{Reads, is_as4, value_meant};
ghost use Rattle.rs_attrs.specs.Writing.{IsLegal};
ghost use Rattle.rs_attrs.specs.Walking.{noted, meant_by, spelling_in, AreRising, AreKept, AreShort};

use crate::attrs::Attrs;
use crate::faults::{Faulted, Faults};
use crate::mode::Mode;
use crate::reading::field::Found;
use crate::reading::gathering::gather;
use crate::reading::two::push_value_by_two;
use crate::reading::values::head_of;
use crate::types::{AGGREGATOR, AS_PATH, AS4_AGGREGATOR, AS4_PATH};
use smallvec::SmallVec;
use std::alloc::{AllocError, Global};

/// AS4_PATH and AS4_AGGREGATOR mean nothing of themselves.
fn has_no_meaning(kind: u8) -> bool
    ensures { result ≡ is_as4 kind }
{
    kind == AS4_PATH || kind == AS4_AGGREGATOR
}

/// How much memory the attributes take.
#[derive(Clone, Copy)]
struct Room {
    heads: usize,
    values: usize,
}

/// Just what a four-octet peer's attributes take. A two-octet peer's path may take less than this:
/// AS4_PATH stands for a part of it.
fn room_for(mode: Mode, kept: &[Found<'_>]) -> Room {
    let mut room = Room {
        heads: 0,
        values: 0,
    };
    for found in kept {
        if !has_no_meaning(found.kind) {
            room.heads = room.heads.saturating_add(1);
        }
        let len = found.value.len();
        room.values = room.values.saturating_add(match (mode, found.kind) {
            (Mode::Two, AS_PATH) => len.saturating_mul(2),
            (Mode::Two, AGGREGATOR) => len.saturating_add(2),
            (Mode::Two, AS4_AGGREGATOR) => 0,
            _ => len,
        });
    }
    room
}

/// Puts a value behind others, with AS numbers in four octets.
fn push_value(
    values: &mut Vec<u8>,
    mode: Mode,
    kept: &[Found<'_>],
    found: &Found<'_>,
) -> Result<(), AllocError>
    requires kept { AreKept mode kept.now }
    requires here { noted kept.now found.now.kind ≡ Some (spelling_in found.now) }
    ensures { OnOk result (values.new.items ≡ values.old.items ++ value_meant mode (noted kept.now) (spelling_in found.now)) }
{
    match mode {
        Mode::Four => values.extend_from_slice(found.value),
        Mode::Two => push_value_by_two(values, kept, found),
    }
}

/// The attributes that are kept, by rising type.
fn attributes_of(alloc: Global, mode: Mode, kept: &[Found<'_>]) -> Result<Attrs, AllocError>
    requires rising { AreRising kept.now }
    requires kept { AreKept mode kept.now }
    requires short { AreShort mode kept.now }
    requires legal { IsLegal (meant_by mode kept.now) }
    ensures { IfOk result (λ a. a ≡ meant_by mode kept.now) }
{
    let room = room_for(mode, kept);
    let mut heads = Vec::with_capacity(alloc, room.heads)?;
    let mut values = Vec::with_capacity(alloc, room.values)?;
    for found in kept {
        if !has_no_meaning(found.kind) {
            let before = values.len();
            push_value(&mut values, mode, kept, found)?;
            let len = values.len() - before;
            heads.push(head_of(found, len as u32))?;
        }
    }
    Ok(Attrs::of(heads, values))
}

/// What a field means, and what is wrong with it.
#[derive(Debug, Drop)]
pub struct Parsed {
    /// What is kept.
    pub attrs: Attrs,
    /// What comes of the attributes that aren't.
    pub faults: Faults,
    /// The first attributes at fault, for the log.
    pub faulted: Faulted,
}

/// Reads a field of path attributes (RFC 4271, 4.3; RFC 7606) of a peer of this kind. Octets that
/// are faulty are no error: `faults` says what is wrong, and what is kept is legal all the same.
///
/// # Errors
///
/// `AllocError` where memory was refused.
pub fn read(alloc: Global, field: &[u8], mode: Mode) -> Result<Parsed, AllocError>
    ensures reads { IfOk result (λ p. Reads field.now mode p.attrs p.faults) }
    ensures faults_noted { IfOk result (λ p. p.faulted ≡ faulted_of field.now mode) }
{
    let mut kept = SmallVec::new(alloc);
    let (faults, faulted) = gather(&mut kept, field, mode)?;
    let attrs = attributes_of(alloc, mode, kept.as_slice())?;
    Ok(Parsed {
        attrs,
        faults,
        faulted,
    })
}
