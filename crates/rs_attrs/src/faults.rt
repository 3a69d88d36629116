//! What is wrong with a field of path attributes: what comes of it (RFC 7606, 2), and what goes into
//! the log of it, the first attribute for which the UPDATE is treated as withdraw and the first that
//! is discarded. Whether one is missing is asked of `Attrs`.

ghost use Rattle.std.specs.Prelude.{◌≡◌, option_map};
ghost use Rattle.rs_attrs.specs.Flaws.{value_cause, cause_in, flaw_by, cut_off, with_flaw};
ghost use Rattle.rs_attrs.specs.Walking.{spelling_in};

use crate::mode::Mode;
use crate::reading::field::Found;
use crate::reading::values::{fits_class, outcome_of};
use crate::table::{Outcome, Shape, attribute_name, row_of};
use std::fmt;

/// What is wrong with a field of path attributes, of which each type's first attribute counts
/// (RFC 7606, 2 and 3).
#[derive(Clone, Copy, Debug, PartialEq, Eq)]
pub struct Faults {
    /// MP_REACH_NLRI or MP_UNREACH_NLRI stands twice (RFC 7606, 3, g).
    pub mp_twice: bool,
    /// An attribute asks for treat-as-withdraw, or the field ends within one.
    pub withdraw: bool,
    /// There is a well-known attribute of a type that is not known (RFC 4271, 6.3).
    pub unknown: bool,
    /// An attribute is discarded.
    pub discard: bool,
}

/// Why an attribute is treated as withdraw, or discarded.
#[derive(Clone, Copy, Debug, PartialEq, Eq)]
pub enum Cause {
    /// The optional or the transitive flag is not that of its type (RFC 7606, 3, c).
    Flags,
    /// Its value is too long or too short for its type (RFC 7606, 7).
    Length,
    /// Its value is none of its type's, as an ORIGIN over 2 or a path whose segments do not fill it
    /// (RFC 7606, 7.1 and 7.2).
    Value,
    /// It runs past the end of the field, or is cut off before its length (RFC 7606, 4).
    Position,
    /// One of its type came before: it is passed over (RFC 7606, 3, g).
    Twice,
    /// It is well-known and mandatory, and is not there (RFC 7606, 3, d).
    Missing,
}

/// An attribute at fault, or missing: its type and why. The type is 0 where the field ends before
/// the type.
#[derive(Clone, Copy, Debug, PartialEq, Eq)]
pub struct AttributeFault {
    pub kind: u8,
    pub cause: Cause,
}

/// What goes into the log of an UPDATE: the first attribute that is treated as withdraw, and the first
/// that is discarded. A type that is discarded whatever it says, as LOCAL_PREF, is none of them. Of an
/// UPDATE that announces routes, where no attribute of its own is treated as withdraw, the first is the
/// mandatory one that is missing; a field of attributes alone misses none.
#[derive(Clone, Copy, Debug, PartialEq, Eq)]
pub struct Faulted {
    /// For which the UPDATE is treated as withdraw.
    pub withdraw: Option<AttributeFault>,
    /// That is discarded.
    pub discard: Option<AttributeFault>,
    /// MP_REACH_NLRI is there (RFC 4760, 3), whose routes are passed over. That is no fault.
    pub mp_reach: bool,
}

impl Cause {
    /// How the log words it.
    fn text(self) -> &'static str {
        match self {
            Cause::Flags => "wrong flags",
            Cause::Length => "wrong length",
            Cause::Value => "malformed value",
            Cause::Position => "cut off",
            Cause::Twice => "there twice",
            Cause::Missing => "missing",
        }
    }
}

/// Puts the name and the number of a type.
fn put_kind<W: fmt::Write>(f: &mut fmt::Formatter<W>, kind: u8) -> fmt::Result {
    match attribute_name(kind) {
        Some(name) => write!(f, "{name} ({kind})"),
        None => write!(f, "attribute {kind}"),
    }
}

impl AttributeFault {
    /// Puts the attribute, what came of it and why.
    fn put<W: fmt::Write>(&self, f: &mut fmt::Formatter<W>, outcome: &str) -> fmt::Result {
        put_kind(f, self.kind)?;
        write!(f, " {outcome}: {}", self.cause.text())
    }
}

/// As in `ORIGIN (1) treated as withdraw: missing; AGGREGATOR (7) discarded: wrong length`. A type
/// without a name is written as in `attribute 99`.
impl fmt::Display for Faulted {
    fn fmt<W: fmt::Write>(&self, f: &mut fmt::Formatter<W>) -> fmt::Result {
        if let Some(fault) = self.withdraw {
            fault.put(f, "treated as withdraw")?;
            if self.discard.is_some() {
                f.write_str("; ")?;
            }
        }
        match self.discard {
            Some(fault) => fault.put(f, "discarded"),
            None => Ok(()),
        }
    }
}

/// An attribute at fault, and what comes of it.
#[derive(Clone, Copy)]
pub(crate) struct Flaw {
    pub(crate) outcome: Outcome,
    pub(crate) fault: AttributeFault,
}

/// Why a value that is not well formed is not.
fn cause_of_value(shape: Shape, value: &[u8]) -> Option<Cause>
    ensures { result ≡ value_cause shape value.now }
{
    match shape {
        Shape::Origin => Some(if value.len() == 1 {
            Cause::Value
        } else {
            Cause::Length
        }),
        Shape::AsPath | Shape::As4Path => Some(Cause::Value),
        Shape::Never => None,
        _ => Some(Cause::Length),
    }
}

/// Why an attribute that is not kept is not.
fn cause_of(mode: Mode, found: &Found<'_>) -> Option<Cause>
    ensures { result ≡ cause_in mode (spelling_in found.now) }
{
    let row = row_of(mode, found.kind)?;
    if fits_class(row.class, found.flags) {
        cause_of_value(row.shape, found.value)
    } else {
        Some(Cause::Flags)
    }
}

/// What is wrong with an attribute, where one of its type came before or not.
pub(crate) fn flaw_of(mode: Mode, came_before: bool, found: &Found<'_>) -> Option<Flaw>
    ensures { result ≡ flaw_by mode came_before (spelling_in found.now) }
{
    let kind = found.kind;
    if came_before {
        return Some(Flaw {
            outcome: Outcome::Discard,
            fault: AttributeFault {
                kind,
                cause: Cause::Twice,
            },
        });
    }
    match outcome_of(mode, found) {
        Outcome::Kept => None,
        outcome => {
            let cause = cause_of(mode, found)?;
            Some(Flaw {
                outcome,
                fault: AttributeFault { kind, cause },
            })
        }
    }
}

/// What is wrong with a rest that begins with no attribute.
pub(crate) fn flaw_of_rest(rest: &[u8]) -> Option<Flaw>
    ensures { result ≡ cut_off rest.now }
{
    let kind = match rest {
        [] => return None,
        [_] => 0,
        [_, kind, ..] => *kind,
    };
    Some(Flaw {
        outcome: Outcome::Withdraw,
        fault: AttributeFault {
            kind,
            cause: Cause::Position,
        },
    })
}

/// With a flaw more, after those that were noted.
pub(crate) fn noting(faulted: Faulted, flaw: Option<Flaw>) -> Faulted
    ensures { result ≡ with_flaw faulted flaw }
{
    let Some(flaw) = flaw else {
        return faulted;
    };
    match (flaw.outcome, faulted.withdraw, faulted.discard) {
        (Outcome::Withdraw, None, _) => Faulted {
            withdraw: Some(flaw.fault),
            ..faulted
        },
        (Outcome::Discard, _, None) => Faulted {
            discard: Some(flaw.fault),
            ..faulted
        },
        _ => faulted,
    }
}
