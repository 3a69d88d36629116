//! The changes of a turn carried out: the rows have what is due, and what the client was not told so waits.

ghost use Rattle.std.specs.Prelude.{◌≡◌, ◌≢◌, ◌<◌, ◌≤◌, ◌+◌, ◌++◌, ℕ, [], Option, None, Some, true, nat_eq, option_map, length, take, vec_len, if◌then◌else◌, IfSome, OnOk};
ghost use Rattle.std.specs.List.{IsDistinct};
ghost use Rattle.std.specs.Arc.{arc_value};
ghost use Rattle.std.specs.FinMap as fin;
ghost use Rattle.std.specs.Ordering.{eq_by_cmp};
ghost use Rattle.rs_octets.specs.Prefixes.{Prefix, prefix_order};
ghost use Rattle.rs_attrs.specs.Comparing.{attributes_hash};
ghost use Rattle.rs_adjin.specs.declared.adj_ins.AdjIns.{AdjIns};
ghost use Rattle.rs_adjin.specs.AdjIns.{number_of};
ghost use Rattle.rs_outlet.specs.Views.{HaveNumbers};
ghost use Rattle.rs_rows.specs.Cells.{taken_of};
ghost use Rattle.rs_rows.specs.Rows.{IsPrepared};
ghost use Rattle.std.specs.Vec.{vec_capacity};
ghost use Rattle.rs_outlet.specs.Pending.Slots.{open_count, withdrawn_count};
ghost use Rattle.rs_outlet.specs.Pending.CarriedOut.{AreCarriedOut};
ghost use Rattle.rs_outlet.specs.Pending.Owed.{IsBeside, IsCarriedOut, IsOpenAt, IsOwed, listed, prefixes_of};
ghost use Rattle.rs_outlet.specs.declared.answers.Speech.{Speech};
ghost use Rattle.rs_outlet.specs.declared.waiting.Due.{Due};
ghost use Rattle.rs_outlet.specs.Inside.{AreBacked, AreBelow, AreChained, AreOwn, FitsAlone, HaveRows, IsOwn, RowsFit, attributes_at, numbers_of, row_at, loc_of, numbers_from};

use crate::table::Rows;
use crate::waiting::{Due, Sorting, Told, Wait, Waits};
use rs_adjin::AdjIns;
use rs_attrs::Attrs;
use rs_octets::Prefix;
use rs_rows::{MOST_OF_BLOCK, Taken, lie_together};
use std::alloc::{AllocError, Global};
use std::sync::Arc;

/// A prefix at which something else is due than before.
#[derive(Drop)]
pub(crate) struct Change {
    pub(crate) number: u32,
    pub(crate) prefix: Prefix,
    pub(crate) due: Option<Arc<Attrs>>,
}

/// What waits at a prefix that is due no more, where this was told.
fn withdrawn_wait(prefix: Prefix, told: Taken, marked: bool) -> Option<Wait>
    ensures owed { IsOwed result None (taken_of told) marked }
    ensures due { IfSome result (λ w. w.due ≡ Due.Withdrawn) }
    ensures slot { IfSome result (IsOpenAt prefix) }
{
    if told.attrs().is_none() {
        return None;
    }
    Some(Wait {
        prefix,
        due: Due::Withdrawn,
        told: Told::of(told),
        marked,
        open: true,
    })
}

/// What is known of what was told, beside what is due: none where nothing waits.
fn told_beside(due: &Arc<Attrs>, told: Taken, marked: bool) -> Option<Told>
    ensures { IsBeside result (arc_value due.now) (taken_of told) marked }
{
    let Some(attrs) = told.attrs() else {
        return Some(Told::Nothing);
    };
    if *attrs != **due {
        return Some(Told::of(told));
    }
    if marked { Some(Told::Same) } else { None }
}

/// What waits at a prefix where this is due and this was told.
fn announced_wait(
    number: u32,
    prefix: Prefix,
    due: &Arc<Attrs>,
    told: Taken,
    marked: bool,
) -> Option<Wait>
    ensures owed { IsOwed result (Some (arc_value due.now)) (taken_of told) marked }
    ensures due { IfSome result (λ w. w.due ≡ Due.Announced number (attributes_hash (arc_value due.now))) }
    ensures slot { IfSome result (IsOpenAt prefix) }
{
    let told = told_beside(due, told, marked)?;
    let hash = due.kept_hash();
    Some(Wait {
        prefix,
        due: Due::Announced { number, hash },
        told,
        marked,
        open: true,
    })
}

/// Lists what waits, if anything does. There is room for it.
fn list_wait(fresh: &mut Vec<Wait>, wait: Option<Wait>)
    requires { vec_len fresh.old < vec_capacity fresh.old }
    ensures items { fresh.new.items ≡ fresh.old.items ++ listed wait }
    ensures capacity { vec_capacity fresh.new ≡ vec_capacity fresh.old }
{
    if let Some(wait) = wait {
        fresh.push_reserved(wait);
    }
}

/// Carries out one change: its row has what is due, and what waits there then is listed.
fn carry_out(rows: &mut Rows, waits: &mut Waits, fresh: &mut Vec<Wait>, change: Change)
    requires number { change.number < length rows.old.rows.items }
    requires prepared { IsPrepared rows.old.rows.prepared change.number }
    requires own { IsOwn (row_at rows.old.rows.items change.number) change.prefix }
    requires more { vec_len fresh.old < vec_capacity fresh.old }
    ensures room { length rows.new.rows.items ≡ length rows.old.rows.items }
    ensures prepared { rows.new.rows.prepared ≡ rows.old.rows.prepared }
    ensures loc { (ins : AdjIns) → number_of ins change.prefix ≡ Some change.number → HaveNumbers (numbers_from 0 rows.old.rows.items) ins → (q : Prefix) → fin.get (loc_of rows.new.rows.items) q ≡ (if eq_by_cmp prefix_order q change.prefix then option_map arc_value change.due else fin.get (loc_of rows.old.rows.items) q) }
    ensures numbered { (ins : AdjIns) → number_of ins change.prefix ≡ Some change.number → HaveNumbers (numbers_from 0 rows.old.rows.items) ins → HaveNumbers (numbers_from 0 rows.new.rows.items) ins }
    ensures others { (n : ℕ) → n ≢ change.number → row_at rows.new.rows.items n ≡ row_at rows.old.rows.items n }
    ensures fit { (speech : Speech) → IfSome change.due (λ attrs. FitsAlone speech change.prefix (arc_value attrs)) → RowsFit speech rows.old.rows.items → RowsFit speech rows.new.rows.items }
    ensures waits { IsCarriedOut change (attributes_at rows.old.rows.items change.number) rows.new.rows.items waits.old.slots.items fresh.old.items waits.new.slots.items fresh.new.items }
    ensures chained { AreBacked rows.old.rows.items waits.old.slots.items → AreChained rows.old.rows.items (take waits.old.sorted waits.old.slots.items) waits.old.chains.items → AreChained rows.new.rows.items (take waits.new.sorted waits.new.slots.items) waits.new.chains.items }
    ensures count { open_count waits.new.slots.items ≤ open_count waits.old.slots.items }
    ensures most { rows.new.used + (withdrawn_count waits.new.slots.items + withdrawn_count fresh.new.items) ≤ rows.old.used + (withdrawn_count waits.old.slots.items + withdrawn_count fresh.old.items) + 1 }
    ensures capacity { vec_capacity waits.new.slots ≡ vec_capacity waits.old.slots }
    ensures fresh { vec_capacity fresh.new ≡ vec_capacity fresh.old }
{
    let Change {
        number,
        prefix,
        due,
    } = change;
    let was = rows.take(number);
    let (told, marked) = waits.take_told(&prefix, was);
    match due {
        None => list_wait(fresh, withdrawn_wait(prefix, told, marked)),
        Some(due) => {
            list_wait(fresh, announced_wait(number, prefix, &due, told, marked));
            rows.put(number, prefix, due);
        }
    }
}

/// Whether the changes from an index on, which go by number, are of most rows of a block.
fn are_most_of_block(changes: &[Change], index: usize) -> bool {
    match (
        changes.get(index),
        changes.get(index.saturating_add(MOST_OF_BLOCK - 1)),
    ) {
        (Some(first), Some(last)) => lie_together(first.number, last.number),
        _ => false,
    }
}

/// Prepares the rows of changes.
pub(crate) fn prepare(rows: &mut Rows, changes: &[Change]) -> Result<(), AllocError>
    requires { AreBelow changes.now (length rows.old.rows.items) }
    ensures rows { rows.new.rows.items ≡ rows.old.rows.items }
    ensures used { rows.new.used ≡ rows.old.used }
    ensures prepared { OnOk result (HaveRows changes.now rows.new.rows) }
{
    for (index, change) in changes.iter().enumerate() {
        rows.prepare(change.number, are_most_of_block(changes, index))?;
    }
    Ok(())
}

/// Carries out the changes, for which there is room. Without a change all stays as it is. What waits then is sorted as it
/// was for the outlets before, if it came in the same order.
pub(crate) fn commit(
    rows: &mut Rows,
    waits: &mut Waits,
    changes: Vec<Change>,
    mut fresh: Vec<Wait>,
    sorting: &mut Sorting,
)
    requires rows { HaveRows changes.items rows.old.rows }
    requires once { IsDistinct (eq_by_cmp prefix_order) (prefixes_of changes.items) }
    requires numbers { IsDistinct nat_eq (numbers_of changes.items) }
    requires own { AreOwn changes.items rows.old.rows.items }
    requires none { fresh.items ≡ [] }
    requires fresh { vec_len changes ≤ vec_capacity fresh }
    requires waits { open_count waits.old.slots.items + vec_len changes ≤ vec_capacity waits.old.slots }
    requires all { rows.old.used + withdrawn_count waits.old.slots.items + vec_len changes ≤ vec_capacity waits.old.slots }
    ensures done { AreCarriedOut changes.items rows.old waits.old rows.new waits.new }
    ensures none { changes.items ≡ [] → (rows.new ≡ rows.old) × (waits.new ≡ waits.old) }
{
    if changes.is_empty() {
        return;
    }
    for change in changes {
        carry_out(rows, waits, &mut fresh, change);
    }
    waits.add(fresh, sorting);
}
