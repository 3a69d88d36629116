//! Goes over a field of path attributes once: which are kept, and what is wrong with the others.

ghost use Rattle.std.specs.Prelude.{◌≡◌, ℕ, ◌&&◌, ◌||◌, ◌==◌, [], not, OnOk, IfOk};
ghost use Rattle.rs_attrs.specs.Spellings.{spellings_of, rest_of};
ghost use Rattle.rs_attrs.specs.Table;
ghost use Rattle.rs_attrs.specs.Table.{is_kept};
ghost use Rattle.rs_attrs.specs.Meaning.{faults_of};
ghost use Rattle.rs_attrs.specs.Types as types;
ghost use Rattle.rs_attrs.specs.Flaws.{faulted_of, flaw_by, with_flaw};
ghost use Rattle.rs_attrs.specs.Walking.{spelling_in, noted, noted_with, faults_with, AreRising, IsPlaceOf, Keeps};

use crate::faults::{Faulted, Faults, flaw_of, flaw_of_rest, noting};
use crate::mode::Mode;
use crate::reading::field::{Found, next_spelling};
use crate::reading::values::outcome_of;
use crate::table::Outcome;
use crate::types::{MP_REACH_NLRI, MP_UNREACH_NLRI};
use smallvec::SmallVec;
use std::alloc::AllocError;

/// The attributes that are kept, by rising type. Those of a usual route take no memory.
pub(crate) type Kept<'a> = SmallVec<Found<'a>, 12>;

const NO_FAULTS: Faults = Faults {
    mp_twice: false,
    withdraw: false,
    unknown: false,
    discard: false,
};

const NOTHING_NOTED: Faulted = Faulted {
    withdraw: None,
    discard: None,
    mp_reach: false,
};

/// MP_REACH_NLRI or MP_UNREACH_NLRI.
fn is_mp(kind: u8) -> bool
    ensures { result ≡ (kind == types.mp_reach_nlri || kind == types.mp_unreach_nlri) }
{
    kind == MP_REACH_NLRI || kind == MP_UNREACH_NLRI
}

/// Notes what comes of an attribute, where one of its type came before or not.
fn take_note(faults: &mut Faults, mode: Mode, came_before: bool, found: &Found<'_>)
    ensures { faults.new ≡ faults_with mode faults.old came_before (spelling_in found.now) }
{
    if came_before {
        faults.mp_twice = faults.mp_twice || is_mp(found.kind);
    } else {
        match outcome_of(mode, found) {
            Outcome::Kept => {}
            Outcome::Withdraw => faults.withdraw = true,
            Outcome::Discard => faults.discard = true,
            Outcome::Unknown => faults.unknown = true,
        }
    }
}

/// What was noted, and what is wrong with an attribute, where one of its type came before or not.
fn noting_found(faulted: Faulted, mode: Mode, came_before: bool, found: &Found<'_>) -> Faulted
    ensures { result ≡ with_flaw faulted (flaw_by mode came_before (spelling_in found.now)) }
{
    noting(faulted, flaw_of(mode, came_before, found))
}

/// Of a type that stands more than once the first attribute counts.
fn counts(mode: Mode, came_before: bool, found: &Found<'_>) -> bool
    ensures { result ≡ (not came_before && is_kept (Table.outcome_of mode (spelling_in found.now))) }
{
    !came_before && matches!(outcome_of(mode, found), Outcome::Kept)
}

/// How many of these attributes come before one of this type.
fn place_of(kept: &[Found<'_>], kind: u8) -> usize
    ensures { IsPlaceOf kind kept.now result }
{
    let mut at = kept.len();
    while at > 0 {
        if kept[at - 1].kind < kind {
            return at;
        }
        at -= 1;
    }
    at
}

/// Puts an attribute of a new type among those that are kept.
fn keep<'a>(kept: &mut Kept<'a>, found: Found<'a>) -> Result<(), AllocError>
    requires rising { AreRising kept.old.items }
    requires new { noted kept.old.items found.kind ≡ None }
    ensures rising { OnOk result (AreRising kept.new.items) }
    ensures noted { OnOk result ((kind : ℕ) → noted kept.new.items kind ≡ noted_with (spelling_in found.entry) (noted kept.old.items) kind) }
{
    let at = place_of(kept.as_slice(), found.kind);
    kept.insert(at, found)?;
    Ok(())
}

/// Keeps what counts of a field, and notes what is wrong with the rest of it.
pub(crate) fn gather<'a>(
    kept: &mut Kept<'a>,
    field: &'a [u8],
    mode: Mode,
) -> Result<(Faults, Faulted), AllocError>
    requires { kept.old.items ≡ [] }
    ensures kept { OnOk result (Keeps mode kept.new.items (spellings_of field.now)) }
    ensures faults { IfOk result (λ noted. noted.0 ≡ faults_of mode (spellings_of field.now) (rest_of field.now)) }
    ensures faulted { IfOk result (λ noted. noted.1 ≡ faulted_of field.now mode) }
{
    let mut came = [false; 256];
    let mut faults = NO_FAULTS;
    let mut faulted = NOTHING_NOTED;
    let mut rest = field;
    while let Some((found, after)) = next_spelling(rest) {
        let place = usize::from(found.kind);
        if counts(mode, came[place], &found) {
            keep(kept, found)?;
        } else {
            take_note(&mut faults, mode, came[place], &found);
            faulted = noting_found(faulted, mode, came[place], &found);
        }
        came[place] = true;
        rest = after;
    }
    if !rest.is_empty() {
        faults.withdraw = true;
    }
    let faulted = Faulted {
        mp_reach: came[usize::from(MP_REACH_NLRI)],
        ..noting(faulted, flaw_of_rest(rest))
    };
    Ok((faults, faulted))
}
