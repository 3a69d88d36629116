//! What a turn changes, made room for and carried out.

ghost use Rattle.std.specs.Prelude.{◌≡◌, ◌≤◌, ◌<◌, ◌+◌, ℕ, [], Option, IfOk, IfSome, OnOk, true, nat_eq, length, take};
ghost use Rattle.std.specs.List.{IsDistinct};
ghost use Rattle.std.specs.Ordering.{eq_by_cmp};
ghost use Rattle.std.specs.Vec.{vec_capacity};
ghost use Rattle.rs_octets.specs.Prefixes.{prefix_order};
ghost use Rattle.rs_outlet.specs.Decided.Plans.{HasRoom, IsFor, changes_of, is_none};
ghost use Rattle.rs_outlet.specs.Pending.CarriedOut.{AreCarriedOut};
ghost use Rattle.rs_outlet.specs.Pending.Owed.{prefixes_of};
ghost use Rattle.rs_outlet.specs.Pending.Slots.{open_count, withdrawn_count};
ghost use Rattle.rs_outlet.specs.Inside.{AreBelow, AreOwn, loc_of, numbers_from, numbers_of, row_at};

use crate::changes::{self, Change};
use crate::pieces::{self, Piece};
use crate::table::Rows;
use crate::waiting::{Sorting, Wait, Waits};
use std::alloc::{AllocError, Global};

/// Changes that were decided for the client, or news that serve several clients and are carried out where nothing waits.
#[derive(Drop)]
pub(crate) enum Plan {
    Own(Vec<Change>),
    Shared(Vec<Piece>),
}

/// Room for so many slots that may wait beside others: as much as serves these best, or just as much as they take.
fn room_beside(alloc: Global, waits: &Waits, count: usize) -> Result<Vec<Wait>, AllocError>
    ensures none { IfOk result (λ fresh. fresh.items ≡ []) }
    ensures room { IfOk result (λ fresh. count ≤ vec_capacity fresh) }
{
    let best = waits.room_for(count);
    match Vec::with_capacity(alloc, best) {
        Err(_) if count < best => Vec::with_capacity(alloc, count),
        made => made,
    }
}

impl Plan {
    /// Whether nothing is to be changed.
    pub(crate) fn is_empty(&self) -> bool
        ensures { result ≡ is_none self.now }
    {
        match self {
            Plan::Own(changes) => changes.is_empty(),
            Plan::Shared(pieces) => pieces.is_empty(),
        }
    }

    /// How many changes there are; none where they are too many to be counted.
    fn count(&self) -> Option<usize>
        ensures { IfSome result (λ count. count ≡ length (changes_of self.now)) }
    {
        match self {
            Plan::Own(changes) => Some(changes.len()),
            Plan::Shared(pieces) => pieces::count(pieces),
        }
    }

    /// Prepares the rows of the changes.
    fn prepare(&self, rows: &mut Rows) -> Result<(), AllocError>
        requires { AreBelow (changes_of self.now) (length rows.old.rows.items) }
        ensures rows { rows.new.rows.items ≡ rows.old.rows.items }
        ensures used { rows.new.used ≡ rows.old.used }
        ensures prepared { OnOk result (HasRoom rows.new.rows self.now) }
    {
        match self {
            Plan::Own(changes) => changes::prepare(rows, changes),
            Plan::Shared(pieces) => pieces::prepare(rows, pieces),
        }
    }

    /// Makes room for the changes, at numbers below one, and for all that may wait then.
    pub(crate) fn make_room(
        &self,
        alloc: Global,
        rows: &mut Rows,
        waits: &mut Waits,
        numbers: usize,
    ) -> Result<Vec<Wait>, AllocError>
        requires { AreBelow (changes_of self.now) numbers }
        ensures rows { (n : ℕ) → row_at rows.new.rows.items n ≡ row_at rows.old.rows.items n }
        ensures loc { loc_of rows.new.rows.items ≡ loc_of rows.old.rows.items }
        ensures numbers { numbers_from 0 rows.new.rows.items ≡ numbers_from 0 rows.old.rows.items }
        ensures waits { waits.new.slots.items ≡ waits.old.slots.items }
        ensures chains { waits.new.chains.items ≡ waits.old.chains.items }
        ensures sorted { waits.new.sorted ≡ waits.old.sorted }
        ensures room { OnOk result (HasRoom rows.new.rows self.now) }
        ensures none { IfOk result (λ fresh. fresh.items ≡ []) }
        ensures fresh { IfOk result (λ fresh. length (changes_of self.now) ≤ vec_capacity fresh) }
        ensures more { OnOk result (open_count waits.old.slots.items + length (changes_of self.now) ≤ vec_capacity waits.new.slots) }
        ensures all { OnOk result (rows.new.used + withdrawn_count waits.new.slots.items + length (changes_of self.now) ≤ vec_capacity waits.new.slots) }
        ensures used { rows.new.used ≡ rows.old.used }
        ensures capacity { vec_capacity waits.old.slots ≤ vec_capacity waits.new.slots }
    {
        let Some(changes) = self.count() else {
            return Err(AllocError);
        };
        rows.grow(numbers)?;
        self.prepare(rows)?;
        let Some(more) = rows.used().checked_add(changes) else {
            return Err(AllocError);
        };
        let Some(count) = waits.len().checked_add(more) else {
            return Err(AllocError);
        };
        waits.reserve(count)?;
        let fresh = room_beside(alloc, waits, changes)?;
        Ok(fresh)
    }

    /// Carries out the changes, for which there is room. Without a change all stays as it is. What waits then is sorted as it
    /// was for the outlets before, if it came in the same order.
    pub(crate) fn carry_out(
        self,
        rows: &mut Rows,
        waits: &mut Waits,
        fresh: Vec<Wait>,
        sorting: &mut Sorting,
    )
        requires rows { HasRoom rows.old.rows self }
        requires once { IsDistinct (eq_by_cmp prefix_order) (prefixes_of (changes_of self)) }
        requires numbers { IsDistinct nat_eq (numbers_of (changes_of self)) }
        requires own { AreOwn (changes_of self) rows.old.rows.items }
        requires fitting { IsFor rows.old.rows.items (nat_eq (open_count waits.old.slots.items) 0) self }
        requires none { fresh.items ≡ [] }
        requires fresh { length (changes_of self) ≤ vec_capacity fresh }
        requires waits { open_count waits.old.slots.items + length (changes_of self) ≤ vec_capacity waits.old.slots }
        requires all { rows.old.used + withdrawn_count waits.old.slots.items + length (changes_of self) ≤ vec_capacity waits.old.slots }
        ensures done { AreCarriedOut (changes_of self) rows.old waits.old rows.new waits.new }
        ensures none { is_none self ≡ true → (rows.new ≡ rows.old) × (waits.new ≡ waits.old) }
    {
        match self {
            Plan::Own(changes) => changes::commit(rows, waits, changes, fresh, sorting),
            Plan::Shared(pieces) => pieces::commit(rows, waits, pieces, fresh, sorting),
        }
    }
}
