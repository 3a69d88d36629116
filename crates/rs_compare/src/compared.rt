//! Where a table that was sent differs from the one that is due: a walk over both, in step.

ghost use Rattle.std.specs.Prelude.{◌≡◌, ◌++◌, T, [], Some, IfOk, OnOk, IsNone, IfSome};
ghost use Rattle.std.specs.FinMap.{is_sorted};
ghost use Rattle.rs_octets.specs.Prefixes.{prefix_order};
ghost use Rattle.rs_compare.specs.Differences.{AreDifferences, entries_of, kind_of, listed_at, reports_of};
ghost use Rattle.rs_compare.specs.Merging.{IsStep, reported};

use crate::routes::Route;
use rs_attrs::Attrs;
use rs_octets::Prefix;
use std::alloc::{AllocError, Global};
use std::cmp::Ordering;

/// How the table that was sent differs at a prefix.
#[derive(Clone, Copy, Debug, PartialEq, Eq)]
pub enum Kind {
    /// A route is due, and none was sent.
    Missing,
    /// A route was sent, and none is due.
    NotDue,
    /// Other attributes were sent than are due.
    OtherAttributes,
}

/// A prefix at which the tables differ.
#[derive(Clone, Copy, Debug, PartialEq, Eq)]
pub struct Difference {
    pub prefix: Prefix,
    pub kind: Kind,
}

/// What the walk finds at the least prefix of both tables, and what is left of them behind it.
#[derive(Clone, Copy)]
struct Step<'a> {
    prefix: Prefix,
    kind: Option<Kind>,
    due: &'a [Route],
    sent: &'a [Route],
}

/// How two attributes of a prefix differ, if they do.
fn kind_of(due: &Attrs, sent: &Attrs) -> Option<Kind>
    ensures { result ≡ kind_of (Some due.now) (Some sent.now) }
{
    if due == sent {
        None
    } else {
        Some(Kind::OtherAttributes)
    }
}

/// Looks at the least prefix of both tables; there is none where both are empty.
fn first_step<'a>(due: &'a [Route], sent: &'a [Route]) -> Option<Step<'a>>
    ensures none { IsNone result → (due.now ≡ []) × (sent.now ≡ []) }
    ensures some { IfSome result (IsStep due.now sent.now) }
{
    match (due.split_first(), sent.split_first()) {
        (None, None) => None,
        (Some((first, due)), None) => Some(Step {
            prefix: first.prefix,
            kind: Some(Kind::Missing),
            due,
            sent,
        }),
        (None, Some((first, sent))) => Some(Step {
            prefix: first.prefix,
            kind: Some(Kind::NotDue),
            due,
            sent,
        }),
        (Some((first, due_left)), Some((other, sent_left))) => {
            Some(match first.prefix.cmp(&other.prefix) {
                Ordering::Less => Step {
                    prefix: first.prefix,
                    kind: Some(Kind::Missing),
                    due: due_left,
                    sent,
                },
                Ordering::Greater => Step {
                    prefix: other.prefix,
                    kind: Some(Kind::NotDue),
                    due,
                    sent: sent_left,
                },
                Ordering::Equal => Step {
                    prefix: first.prefix,
                    kind: kind_of(&first.attrs, &other.attrs),
                    due: due_left,
                    sent: sent_left,
                },
            })
        }
    }
}

/// Notes a difference at a prefix, if there is one.
fn note(found: &mut Vec<Difference>, prefix: Prefix, kind: Option<Kind>) -> Result<(), AllocError>
    ensures { OnOk result (reports_of found.new.items ≡ reports_of found.old.items ++ reported prefix kind) }
{
    if let Some(kind) = kind {
        found.push(Difference { prefix, kind })?;
    }
    Ok(())
}

/// The prefixes at which the table that was sent differs from the one that is due, each once and by
/// rising prefix.
///
/// # Errors
///
/// `AllocError` where memory was refused.
pub fn compare(alloc: Global, due: &[Route], sent: &[Route]) -> Result<Vec<Difference>, AllocError>
    requires due { T (is_sorted prefix_order (entries_of due.now)) }
    requires sent { T (is_sorted prefix_order (entries_of sent.now)) }
    ensures { IfOk result (λ found. AreDifferences (listed_at (entries_of due.now)) (listed_at (entries_of sent.now)) (reports_of found.items)) }
{
    let mut found = Vec::new(alloc);
    let mut due = due;
    let mut sent = sent;
    while let Some(step) = first_step(due, sent) {
        note(&mut found, step.prefix, step.kind)?;
        due = step.due;
        sent = step.sent;
    }
    Ok(found)
}
