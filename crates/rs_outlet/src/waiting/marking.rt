//! A client asks for everything again: what was told waits to be told again (RFC 2918, 4).

ghost use Rattle.std.specs.Prelude.{◌≡◌, ◌≤◌, ◌<◌, ◌+◌, ℕ, None, Some, IfSome, IsSome, IsTrue, [], true, false, map, take, vec_len};
ghost use Rattle.std.specs.FinMap as fin;
ghost use Rattle.std.specs.List.{list_any};
ghost use Rattle.std.specs.List.Sorted.{IsStrictlySortedBy};
ghost use Rattle.std.specs.Ordering.{eq_by_cmp};
ghost use Rattle.std.specs.Vec.{vec_capacity};
ghost use Rattle.rs_octets.specs.Prefixes.{Prefix, prefix_order};
ghost use Rattle.rs_outlet.specs.Pending.Slots.{AreApart, open_at, prefixes_at, withdrawn_count};
ghost use Rattle.rs_outlet.specs.Pending.Parts.{AreParts};
ghost use Rattle.rs_outlet.specs.Inside.{AreBacked, loc_of, row_at};
ghost use Rattle.rs_rows.specs.Rows.{Row};
ghost use Rattle.rs_rows.specs.Places.{lent_row};
ghost use Rattle.rs_outlet.specs.Pending.Marking.{AreReopened, IsAgain, IsOfRow, MayAddRow, MayBeReopened, MayReopen, MayWaitAgain, is_told, remarked};

use crate::table::Rows;
use crate::waiting::parts::{drop_shut, open_in};
use crate::waiting::{Due, Told, Wait, Waits, count_open, put_in_order};
use rs_octets::Prefix;
use rs_rows::Lent;

impl Waits {
    /// Everything that was told waits to be told again: each row, and what waits already. It takes no
    /// memory.
    pub(crate) fn mark_all(&mut self, rows: &Rows)
        requires { rows.now.used + withdrawn_count self.old.slots.items ≤ vec_capacity self.old.slots }
        ensures again { (q : Prefix) → MayWaitAgain (fin.get (loc_of rows.now.rows.items) q) (open_at q self.old.slots.items) (open_at q self.new.slots.items) }
        ensures all { AreBacked rows.now.rows.items self.old.slots.items → (q : Prefix) → IsSome (fin.get (loc_of rows.now.rows.items) q) → IsSome (open_at q self.new.slots.items) }
        ensures withdrawn { withdrawn_count self.new.slots.items ≤ withdrawn_count self.old.slots.items }
        ensures capacity { vec_capacity self.new.slots ≡ vec_capacity self.old.slots }
        ensures chains { self.new.chains.items ≡ [] }
        ensures backed { AreBacked rows.now.rows.items self.old.slots.items → AreBacked rows.now.rows.items self.new.slots.items }
    {
        self.reopen(rows);
        self.make_one_part(None);
        if self.has_each(rows) {
            self.mark_slots();
        } else {
            self.mark_rows(rows);
        }
    }

    /// What was told at slots that wait no more waits again, where it stands, if it is due still.
    fn reopen(&mut self, rows: &Rows)
        ensures again { (q : Prefix) → MayReopen (fin.get (loc_of rows.now.rows.items) q) (open_at q self.old.slots.items) (open_at q self.new.slots.items) }
        ensures withdrawn { withdrawn_count self.new.slots.items ≤ withdrawn_count self.old.slots.items }
        ensures capacity { vec_capacity self.new.slots ≡ vec_capacity self.old.slots }
        ensures chains { self.new.chains.items ≡ [] }
        ensures backed { AreBacked rows.now.rows.items self.old.slots.items → AreBacked rows.now.rows.items self.new.slots.items }
    {
        reopen_slots(&mut self.slots, self.sorted, rows);
        self.waiting = count_open(&self.slots);
        self.chains.clear();
        self.gone = 0;
        self.news = 0;
    }

    /// Whether the prefix of each row waits. Rows of rising numbers have rising prefixes where a member announced
    /// them so, and then each is looked for right behind the one before.
    fn has_each(&self, rows: &Rows) -> bool
        ensures { IsTrue result → (n : ℕ) (row : Row) → row_at rows.now.rows.items n ≡ Some row → IsSome (open_at row.prefix self.now.slots.items) }
    {
        let mut slot = 0;
        for index in 0..rows.count() {
            if let Some(row) = rows.at(index) {
                let Some(found) = self.find_from(slot, &row.prefix) else {
                    return false;
                };
                slot = found.saturating_add(1);
            }
        }
        true
    }

    /// A slot where a prefix waits: this one, or another.
    fn find_from(&self, slot: usize, prefix: &Prefix) -> Option<usize>
        ensures { IsSome result → IsSome (open_at prefix.now self.now.slots.items) }
    {
        if let Some(wait) = self.slots.get(slot) {
            if wait.open && wait.prefix == *prefix {
                return Some(slot);
            }
        }
        self.find(prefix)
    }

    /// Marks the slots at which something was told.
    fn mark_slots(&mut self)
        ensures slots { self.new.slots.items ≡ map remarked self.old.slots.items }
        ensures capacity { vec_capacity self.new.slots ≡ vec_capacity self.old.slots }
        ensures chains { self.new.chains.items ≡ [] }
    {
        mark_told(&mut self.slots);
        self.chains.clear();
        self.gone = 0;
        self.news = 0;
    }

    /// Marks what was told in the one part that there is, with a slot for each row at which nothing waits.
    fn mark_rows(&mut self, rows: &Rows)
        requires rises { IsStrictlySortedBy prefix_order (prefixes_at self.old.slots.items) }
        requires room { rows.now.used + withdrawn_count self.old.slots.items ≤ vec_capacity self.old.slots }
        ensures again { (q : Prefix) → MayWaitAgain (fin.get (loc_of rows.now.rows.items) q) (open_at q self.old.slots.items) (open_at q self.new.slots.items) }
        ensures all { AreBacked rows.now.rows.items self.old.slots.items → (q : Prefix) → IsSome (fin.get (loc_of rows.now.rows.items) q) → IsSome (open_at q self.new.slots.items) }
        ensures withdrawn { withdrawn_count self.new.slots.items ≤ withdrawn_count self.old.slots.items }
        ensures capacity { vec_capacity self.new.slots ≡ vec_capacity self.old.slots }
        ensures chains { self.new.chains.items ≡ [] }
        ensures backed { AreBacked rows.now.rows.items self.old.slots.items → AreBacked rows.now.rows.items self.new.slots.items }
    {
        add_rows(&mut self.slots, rows);
        self.waiting = count_open(&self.slots);
        self.sorted = self.slots.len();
        self.ready = false;
        self.chains.clear();
        self.gone = 0;
        self.news = 0;
    }
}

impl Told {
    fn is_told(&self) -> bool
        ensures { result ≡ is_told self.now }
    {
        match self {
            Told::Nothing => false,
            Told::Same | Told::Other(_) => true,
            Told::Within { index, block } => block.has_route(*index),
        }
    }
}

/// Drops the slots that wait no more, marks those at which something was told, and adds the rows at
/// which nothing waits. There is room for these: each slot that is left is to be withdrawn, or has a row.
fn add_rows(slots: &mut Vec<Wait>, rows: &Rows)
    requires rises { IsStrictlySortedBy prefix_order (prefixes_at slots.old.items) }
    requires room { rows.now.used + withdrawn_count slots.old.items ≤ vec_capacity slots.old }
    ensures rises { IsStrictlySortedBy prefix_order (prefixes_at slots.new.items) }
    ensures again { (q : Prefix) → MayWaitAgain (fin.get (loc_of rows.now.rows.items) q) (open_at q slots.old.items) (open_at q slots.new.items) }
    ensures all { AreBacked rows.now.rows.items slots.old.items → (q : Prefix) → IsSome (fin.get (loc_of rows.now.rows.items) q) → IsSome (open_at q slots.new.items) }
    ensures withdrawn { withdrawn_count slots.new.items ≤ withdrawn_count slots.old.items }
    ensures capacity { vec_capacity slots.new ≡ vec_capacity slots.old }
    ensures backed { AreBacked rows.now.rows.items slots.old.items → AreBacked rows.now.rows.items slots.new.items }
{
    drop_shut(slots);
    mark_told(slots);
    let waited = slots.len();
    for slot in 0..rows.count() {
        if let Some(row) = rows.at(slot) {
            add_row(slots, waited, slot as u32, &row);
        }
    }
    put_in_order(slots);
}

/// Marks the slots at which something was told.
fn mark_told(slots: &mut Vec<Wait>)
    ensures items { slots.new.items ≡ map remarked slots.old.items }
    ensures capacity { vec_capacity slots.new ≡ vec_capacity slots.old }
{
    for wait in slots.iter_mut() {
        wait.marked = wait.told.is_told();
    }
}

/// Adds a slot for the row of a number, where its prefix stands at none of the first slots.
fn add_row(slots: &mut Vec<Wait>, waited: usize, number: u32, row: &Lent<'_>)
    requires waited { waited ≤ vec_len slots.old }
    requires rises { IsStrictlySortedBy prefix_order (prefixes_at (take waited slots.old.items)) }
    ensures again { MayAddRow (take waited slots.old.items) number (lent_row row.now) slots.old.items slots.new.items }
    ensures listed { vec_len slots.old < vec_capacity slots.old → list_any (eq_by_cmp prefix_order row.now.prefix) (prefixes_at slots.new.items) ≡ true }
    ensures capacity { vec_capacity slots.new ≡ vec_capacity slots.old }
{
    if slots.capacity() <= slots.len() {
        return;
    }
    if has_prefix(&slots[..waited], &row.prefix) {
        return;
    }
    slots.push_reserved(wait_of_row(number, row));
}

/// The slot at which what the row of a number has is told again.
fn wait_of_row(number: u32, row: &Lent<'_>) -> Wait
    ensures { IsOfRow number (lent_row row.now) result }
{
    Wait {
        prefix: row.prefix,
        due: Due::Announced {
            number,
            hash: row.attrs.kept_hash(),
        },
        told: Told::Same,
        marked: true,
        open: true,
    }
}

/// The slot at which what was told at this one is told again; none where it waits still, or the row that
/// it led to has its prefix no more.
fn wait_again(rows: &Rows, wait: &Wait) -> Option<Wait>
    ensures { IfSome result (IsAgain rows.now.rows.items wait.now) }
{
    if wait.open {
        return None;
    }
    let Due::Announced { number, .. } = wait.due else {
        return None;
    };
    let Some(row) = rows.get(number) else {
        return None;
    };
    if row.prefix != wait.prefix {
        return None;
    }
    Some(wait_of_row(number, &row))
}

/// A slot of the first part waits again, where what was told there is due and its prefix doesn't wait in the
/// late part.
fn reopen_slot(slots: &mut Vec<Wait>, sorted: usize, slot: usize, rows: &Rows)
    requires parts { AreParts sorted (prefixes_at slots.old.items) }
    requires within { slot < sorted }
    ensures reopened { MayBeReopened rows.now.rows.items slot slots.old.items slots.new.items }
    ensures capacity { vec_capacity slots.new ≡ vec_capacity slots.old }
{
    let Some(wait) = wait_again(rows, &slots[slot]) else {
        return;
    };
    if open_in(&slots[sorted..], &wait.prefix).is_none() {
        slots[slot] = wait;
    }
}

/// Slots of the first part wait again, where what was told there is due and doesn't wait in the late part.
fn reopen_slots(slots: &mut Vec<Wait>, sorted: usize, rows: &Rows)
    requires parts { AreParts sorted (prefixes_at slots.old.items) }
    requires apart { AreApart slots.old.items }
    ensures reopened { AreReopened rows.now.rows.items slots.old.items slots.new.items }
    ensures capacity { vec_capacity slots.new ≡ vec_capacity slots.old }
{
    for slot in 0..sorted {
        reopen_slot(slots, sorted, slot, rows);
    }
}

/// Whether one of the slots has a prefix.
fn has_prefix(slots: &[Wait], prefix: &Prefix) -> bool
    requires { IsStrictlySortedBy prefix_order (prefixes_at slots.now) }
    ensures absent { result ≡ false → open_at prefix.now slots.now ≡ None }
    ensures listed { result ≡ true → list_any (eq_by_cmp prefix_order prefix.now) (prefixes_at slots.now) ≡ true }
{
    slots
        .binary_search_by_key(prefix, |wait| wait.prefix)
        .is_ok()
}
