//! What became of a route that was decided last: the same becomes of the next one where it differs in its prefix alone.

ghost use Rattle.std.specs.Prelude.{◌≡◌, ℕ, IfOk, IfSome, IsTrue, option_map};
ghost use Rattle.std.specs.Arc.{arc_value};
ghost use Rattle.rs_octets.specs.Prefixes.{Prefix};
ghost use Rattle.rs_policy.specs.Configuration.{Configuration};
ghost use Rattle.rs_policy.specs.Noted.{note_of_import};
ghost use Rattle.rs_policy.specs.Verdicts.{verdict};
ghost use Rattle.rs_outlet.specs.Decided.Due.{passed_on};
ghost use Rattle.rs_outlet.specs.Decided.Memo.{IsMemo};
ghost use Rattle.rs_outlet.specs.Decided.Passing.{attributes_passed};

use crate::deciding::{Passed, copied};
use rs_adjin::Holder;
use rs_attrs::Attrs;
use std::alloc::AllocError;
use std::sync::Arc;

/// What became of a route of a client.
#[derive(Drop)]
pub(crate) struct Judged<'a> {
    from: usize,
    note: u32,
    whole: &'a Arc<Attrs>,
    passed: Option<Passed<'a>>,
}

impl<'a> Judged<'a> {
    /// This became of a route.
    pub(crate) fn of(
        holder: &Holder<'a>,
        passed: &Option<Passed<'a>>,
    ) -> Result<Judged<'a>, AllocError>
        ensures from { IfOk result (λ judged. judged.from ≡ holder.now.client) }
        ensures note { IfOk result (λ judged. judged.note ≡ holder.now.note) }
        ensures whole { IfOk result (λ judged. arc_value judged.whole.now ≡ arc_value holder.now.attrs.now) }
        ensures passed { IfOk result (λ judged. option_map attributes_passed judged.passed ≡ option_map attributes_passed passed.now) }
    {
        Ok(Judged {
            from: holder.client,
            note: holder.note,
            whole: holder.attrs,
            passed: copied(passed)?,
        })
    }

    /// Whether a route is of the same client, with the same attributes and note.
    fn is_like(&self, holder: &Holder<'_>) -> bool
        ensures from { IsTrue result → self.now.from ≡ holder.now.client }
        ensures note { IsTrue result → self.now.note ≡ holder.now.note }
        ensures attrs { IsTrue result → arc_value self.now.whole.now ≡ arc_value holder.now.attrs.now }
    {
        self.from == holder.client && self.note == holder.note && **self.whole == **holder.attrs
    }
}

/// What became of the last route, where this one is like it.
pub(crate) fn recall<'m, 'a>(
    memo: &'m Option<Judged<'a>>,
    holder: &Holder<'_>,
) -> Option<&'m Option<Passed<'a>>>
    ensures { (s : Configuration) (to : ℕ) (p : Prefix) → IsMemo s to memo.now → holder.now.note ≡ note_of_import s holder.now.client p (arc_value holder.now.attrs.now) → IfSome result (λ passed. option_map attributes_passed passed.now ≡ passed_on (arc_value holder.now.attrs.now) (verdict s holder.now.client to p (arc_value holder.now.attrs.now))) }
{
    match memo {
        Some(judged) if judged.is_like(holder) => Some(&judged.passed),
        _ => None,
    }
}
