//! Which slots the next UPDATE is about, and that they wait no more once it is begun.

ghost use Rattle.std.specs.Prelude.{◌≡◌, ◌≤◌, ◌<◌, ◌+◌, ◌++◌, ◌∷◌, ◌⊎◌, [], IfSome, ℕ, length, take, true, List, Option, None, Some, false, IsTrue, vec_len, option_map, slice_get, if◌then◌else◌};
ghost use Rattle.std.specs.Arc.{arc_value};
ghost use Rattle.std.specs.List.{AllWithin, HoldsAt, list_any};
ghost use Rattle.std.specs.Ordering.{eq_by_cmp};
ghost use Rattle.std.specs.Vec.{vec_capacity};
ghost use Rattle.rs_octets.specs.Prefixes.{Prefix, prefix_order};
ghost use Rattle.rs_attrs.specs.Meaning.{Attribute};
ghost use Rattle.rs_attrs.specs.Comparing.{attributes_hash};
ghost use Rattle.rs_rows.specs.Rows.{Row};
ghost use Rattle.rs_outlet.specs.declared.waiting.Wait.{Wait};
ghost use Rattle.rs_outlet.specs.Pending.Slots.{IsShut, open_at, is_withdrawal, is_withdrawn, is_announced, rising, withdrawn_count};
ghost use Rattle.rs_outlet.specs.Pending.Choosing.{HasRow, HaveRoom, IsChosen, IsLeast, IsLesser, AreChosen, WaitsFor, passing, shares};
ghost use Rattle.rs_outlet.specs.Inside.{AreBacked, AreChained, IsBacked, row_by, shown};
ghost use Rattle.rs_outlet.specs.Message.Next.{has_attributes};
ghost use Rattle.rs_rows.specs.Places.{lent_row};
ghost use Rattle.rs_open.specs.Notes.{limit_octets};
ghost use Rattle.rs_open.specs.declared.short.Limit.TheVariants as limits;

use crate::batch::Batch;
use crate::table::Rows;
use crate::waiting::{Due, Wait, Waits};
use rs_attrs::Attrs;
use rs_octets::Prefix;
use rs_rows::Lent;
use std::cmp::Ordering;
use std::sync::Arc;

impl Waits {
    /// The slot of the least prefix that is to be withdrawn.
    pub(crate) fn first_withdrawn(&mut self) -> Option<usize>
        ensures slots { self.new.slots.items ≡ self.old.slots.items }
        ensures sorted { self.new.sorted ≡ self.old.sorted }
        ensures chains { self.new.chains.items ≡ self.old.chains.items }
        ensures capacity { vec_capacity self.new.slots ≡ vec_capacity self.old.slots }
        ensures first { IsLeast is_withdrawn self.old.slots.items result }
    {
        if self.waiting == 0 {
            return None;
        }
        self.gone = next_withdrawn(&self.slots[..self.sorted], self.gone);
        let late = next_withdrawn(&self.slots, self.sorted);
        self.lesser(self.gone, late)
    }

    /// The slot of the least prefix that is to be announced.
    pub(crate) fn first_announced(&mut self) -> Option<usize>
        ensures slots { self.new.slots.items ≡ self.old.slots.items }
        ensures sorted { self.new.sorted ≡ self.old.sorted }
        ensures chains { self.new.chains.items ≡ self.old.chains.items }
        ensures capacity { vec_capacity self.new.slots ≡ vec_capacity self.old.slots }
        ensures first { IsLeast is_announced self.old.slots.items result }
    {
        if self.waiting == 0 {
            return None;
        }
        self.news = next_announced(&self.slots[..self.sorted], self.news);
        let late = next_announced(&self.slots, self.sorted);
        self.lesser(self.news, late)
    }

    /// Of a slot of the first part and one of the late part the one with the lesser prefix; none where both
    /// parts end there.
    fn lesser(&self, first: usize, late: usize) -> Option<usize>
        ensures within { IfSome result (λ n. n < vec_len self.now.slots) }
        ensures either { IfSome result (λ n. ((n ≡ first) × (n < self.now.sorted)) ⊎ (n ≡ late)) }
        ensures least { IfSome result (λ n. IsLesser self.now.sorted first late self.now.slots.items n) }
        ensures none { result ≡ None → (self.now.sorted ≤ first) × (vec_len self.now.slots ≤ late) }
    {
        if self.sorted <= first {
            return if late < self.slots.len() {
                Some(late)
            } else {
                None
            };
        }
        if self.slots.len() <= late {
            return Some(first);
        }
        match self.slots[late].prefix.cmp(&self.slots[first].prefix) {
            Ordering::Less => Some(late),
            Ordering::Equal => Some(first),
            Ordering::Greater => Some(first),
        }
    }

    /// Lists what is to be withdrawn and nothing else, from the least prefix on: so many at most.
    pub(crate) fn choose_withdrawn(&self, most: usize, batch: &mut Batch)
        requires { most + 23 ≤ limit_octets limits.Long }
        ensures are { (rows : List (Option Row)) → AreChosen rows self.now.slots.items None batch.new.chosen.items batch.new.front.items }
        ensures all { batch.new.front.items ≡ take most (passing is_withdrawn (rising self.now.slots.items)) }
    {
        batch.chosen.clear();
        batch.front.clear();
        self.collect_withdrawn(most, &mut batch.chosen, &mut batch.front);
    }

    /// Lists what is to be withdrawn, from the least prefix on, as much as there is room for.
    fn collect_withdrawn(&self, room: usize, chosen: &mut Vec<usize>, front: &mut Vec<Prefix>)
        requires room { (room ≤ vec_capacity chosen.old) × (room ≤ vec_capacity front.old) }
        requires none { (chosen.old.items ≡ []) × (front.old.items ≡ []) }
        ensures chosen { vec_capacity chosen.new ≡ vec_capacity chosen.old }
        ensures front { vec_capacity front.new ≡ vec_capacity front.old }
        ensures are { (rows : List (Option Row)) → AreChosen rows self.now.slots.items None chosen.new.items front.new.items }
        ensures all { front.new.items ≡ take room (passing is_withdrawn (rising self.now.slots.items)) }
    {
        let mut first = self.gone;
        let mut late = self.sorted;
        for _ in 0..self.slots.len() {
            if room <= front.len() {
                return;
            }
            let Some(slot) = self.lesser(first, late) else {
                return;
            };
            self.list_withdrawn(slot, chosen, front);
            if slot < self.sorted {
                first = slot + 1;
            } else {
                late = slot + 1;
            }
        }
    }

    /// Lists the prefix of a slot, if it is to be withdrawn.
    fn list_withdrawn(&self, slot: usize, chosen: &mut Vec<usize>, front: &mut Vec<Prefix>)
        requires slot { slot < vec_len self.now.slots }
        requires room { HaveRoom chosen.old front.old }
        ensures chosen { vec_capacity chosen.new ≡ vec_capacity chosen.old }
        ensures front { vec_capacity front.new ≡ vec_capacity front.old }
        ensures are { (rows : List (Option Row)) → AreChosen rows self.now.slots.items None chosen.old.items front.old.items → AreChosen rows self.now.slots.items None chosen.new.items front.new.items }
        ensures all { HoldsAt (λ w. front.new.items ≡ front.old.items ++ passing is_withdrawn (w ∷ [])) self.now.slots.items slot }
    {
        let wait = &self.slots[slot];
        if wait.is_withdrawn() {
            // for the prover: it is legal
            let _len = wait.prefix.len();
            list_slot(slot, wait.prefix, chosen, front);
        }
    }

    /// The row of what is due at a slot.
    pub(crate) fn row_for<'a>(&self, rows: &'a Rows, slot: usize) -> Option<Lent<'a>>
        requires { slot < vec_len self.now.slots }
        ensures { HoldsAt (λ w. option_map lent_row result ≡ row_by rows.now.rows.items w.due) self.now.slots.items slot }
    {
        match self.slots[slot].due {
            Due::Withdrawn => None,
            Due::Announced { number, .. } => rows.get(number),
        }
    }

    /// Lists the prefixes that wait for these attributes and nothing else, from the least on: so many at
    /// most. One slot is `known` to have them. Notes what was passed over for it.
    pub(crate) fn choose_announced(
        &mut self,
        rows: &Rows,
        known: usize,
        attrs: &Arc<Attrs>,
        most: usize,
        batch: &mut Batch,
    )
        requires most { most + 23 ≤ limit_octets limits.Long }
        requires known { HoldsAt (WaitsFor rows.now.rows.items (arc_value attrs.now)) self.old.slots.items known }
        requires backed { AreBacked rows.now.rows.items self.old.slots.items }
        requires chained { AreChained rows.now.rows.items (take self.old.sorted self.old.slots.items) self.old.chains.items }
        ensures are { AreChosen rows.now.rows.items self.old.slots.items (Some (arc_value attrs.now)) batch.new.chosen.items batch.new.front.items }
        ensures all { batch.new.front.items ≡ take most (passing (shares rows.now.rows.items (arc_value attrs.now)) (rising self.old.slots.items)) }
        ensures slots { self.new.slots.items ≡ self.old.slots.items }
        ensures chained { AreChained rows.now.rows.items (take self.new.sorted self.new.slots.items) self.new.chains.items }
        ensures capacity { vec_capacity self.new.slots ≡ vec_capacity self.old.slots }
    {
        batch.chosen.clear();
        batch.front.clear();
        let (passed, walked) = self.collect_announced(
            rows,
            known,
            attrs,
            most,
            &mut batch.chosen,
            &mut batch.front,
        );
        self.note_passed(passed);
        self.note_walked(walked, passed);
    }

    /// Lists the prefixes that wait for these attributes, from the least on, as many as there is room for; one slot is
    /// `known` to have them. Answers how many slots of their hash it passed over, and how many of the first part it went
    /// through that don't wait for them.
    fn collect_announced(
        &self,
        rows: &Rows,
        known: usize,
        attrs: &Attrs,
        room: usize,
        chosen: &mut Vec<usize>,
        front: &mut Vec<Prefix>,
    ) -> (usize, usize)
        requires room { (room ≤ vec_capacity chosen.old) × (room ≤ vec_capacity front.old) }
        requires none { (chosen.old.items ≡ []) × (front.old.items ≡ []) }
        requires known { HoldsAt (WaitsFor rows.now.rows.items attrs.now) self.now.slots.items known }
        requires backed { AreBacked rows.now.rows.items self.now.slots.items }
        requires chained { AreChained rows.now.rows.items (take self.now.sorted self.now.slots.items) self.now.chains.items }
        ensures chosen { vec_capacity chosen.new ≡ vec_capacity chosen.old }
        ensures front { vec_capacity front.new ≡ vec_capacity front.old }
        ensures are { AreChosen rows.now.rows.items self.now.slots.items (Some attrs.now) chosen.new.items front.new.items }
        ensures all { front.new.items ≡ take room (passing (shares rows.now.rows.items attrs.now) (rising self.now.slots.items)) }
    {
        let hash = attrs.kept_hash();
        let mut first = self.news;
        let mut late = self.sorted;
        let mut passed: usize = 0;
        let mut walked: usize = 0;
        for _ in 0..self.slots.len() {
            if room <= front.len() {
                return (passed, walked);
            }
            let Some(slot) = self.lesser(first, late) else {
                return (passed, walked);
            };
            let listed = self.list_announced(rows, slot, known, attrs, hash, chosen, front);
            if slot < self.sorted {
                if !listed {
                    passed = passed.saturating_add(usize::from(self.is_passed(slot, hash, listed)));
                    walked = walked.saturating_add(1);
                }
                first = self.next_slot(slot, hash, listed);
            } else {
                late = slot + 1;
            }
        }
        (passed, walked)
    }

    /// Lists the prefix of a slot, if it waits for these attributes, of which this is the hash, as the one that is `known`
    /// does. Answers whether it does.
    fn list_announced(
        &self,
        rows: &Rows,
        slot: usize,
        known: usize,
        attrs: &Attrs,
        hash: u32,
        chosen: &mut Vec<usize>,
        front: &mut Vec<Prefix>,
    ) -> bool
        requires slot { slot < vec_len self.now.slots }
        requires known { HoldsAt (WaitsFor rows.now.rows.items attrs.now) self.now.slots.items known }
        requires hash { attributes_hash attrs.now ≡ hash }
        requires backed { AreBacked rows.now.rows.items self.now.slots.items }
        requires room { HaveRoom chosen.old front.old }
        ensures waits { IsTrue result → HoldsAt (λ w. (w.open ≡ true) × (shown (row_by rows.now.rows.items w.due) ≡ Some attrs.now)) self.now.slots.items slot }
        ensures chosen { vec_capacity chosen.new ≡ vec_capacity chosen.old }
        ensures front { vec_capacity front.new ≡ vec_capacity front.old }
        ensures are { AreChosen rows.now.rows.items self.now.slots.items (Some attrs.now) chosen.old.items front.old.items → AreChosen rows.now.rows.items self.now.slots.items (Some attrs.now) chosen.new.items front.new.items }
        ensures all { HoldsAt (λ w. front.new.items ≡ front.old.items ++ passing (shares rows.now.rows.items attrs.now) (w ∷ [])) self.now.slots.items slot }
    {
        let wait = &self.slots[slot];
        if !wait.open {
            return false;
        }
        if !waits_for(rows, wait, attrs, hash, slot == known) {
            return false;
        }
        // for the prover: it is legal
        let _len = wait.prefix.len();
        list_slot(slot, wait.prefix, chosen, front);
        true
    }

    /// These slots wait no more. Once none does, they are dropped: by the next turn where they are many, so that nothing that is
    /// to be sent waits for it.
    pub(crate) fn give_up(&mut self, chosen: &[usize])
        ensures chained { (rows : List (Option Row)) → AreChained rows (take self.old.sorted self.old.slots.items) self.old.chains.items → AreChained rows (take self.new.sorted self.new.slots.items) self.new.chains.items }
        ensures withdrawn { withdrawn_count self.new.slots.items ≤ withdrawn_count self.old.slots.items }
        ensures capacity { vec_capacity self.new.slots ≡ vec_capacity self.old.slots }
        ensures slots { (rows : List (Option Row)) (said : Option (List Attribute)) (ps : List Prefix) → AreChosen rows self.old.slots.items said chosen.now ps → (q : Prefix) → open_at q self.new.slots.items ≡ (if list_any (eq_by_cmp prefix_order q) ps then None else open_at q self.old.slots.items) }
    {
        self.give_up_all(chosen);
        self.shed_few();
    }

    /// These slots wait no more.
    fn give_up_all(&mut self, chosen: &[usize])
        ensures chained { (rows : List (Option Row)) → AreChained rows (take self.old.sorted self.old.slots.items) self.old.chains.items → AreChained rows (take self.new.sorted self.new.slots.items) self.new.chains.items }
        ensures withdrawn { withdrawn_count self.new.slots.items ≤ withdrawn_count self.old.slots.items }
        ensures capacity { vec_capacity self.new.slots ≡ vec_capacity self.old.slots }
        ensures slots { (rows : List (Option Row)) (said : Option (List Attribute)) (ps : List Prefix) → AreChosen rows self.old.slots.items said chosen.now ps → (q : Prefix) → open_at q self.new.slots.items ≡ (if list_any (eq_by_cmp prefix_order q) ps then None else open_at q self.old.slots.items) }
    {
        for slot in chosen {
            self.give_up_one(*slot);
        }
    }

    /// A slot waits no more.
    fn give_up_one(&mut self, slot: usize)
        ensures chained { (rows : List (Option Row)) → AreChained rows (take self.old.sorted self.old.slots.items) self.old.chains.items → AreChained rows (take self.new.sorted self.new.slots.items) self.new.chains.items }
        ensures withdrawn { withdrawn_count self.new.slots.items ≤ withdrawn_count self.old.slots.items }
        ensures capacity { vec_capacity self.new.slots ≡ vec_capacity self.old.slots }
        ensures slots { IsShut slot self.old.slots.items self.new.slots.items }
    {
        if slot < self.slots.len() {
            self.shut(slot);
        }
    }
}

/// The first slot from here on that is to be withdrawn; where there is none, the end of the slots.
fn next_withdrawn(slots: &[Wait], from: usize) -> usize
    ensures later { from ≤ length slots.now → from ≤ result }
    ensures before { AllWithin (λ w. is_withdrawn w ≡ false) slots.now from result }
    ensures there { result < length slots.now → HoldsAt (λ w. is_withdrawn w ≡ true) slots.now result }
{
    for slot in from..slots.len() {
        if slots[slot].is_withdrawn() {
            return slot;
        }
    }
    slots.len()
}

/// The first slot from here on that is to be announced; where there is none, the end of the slots.
fn next_announced(slots: &[Wait], from: usize) -> usize
    ensures later { from ≤ length slots.now → from ≤ result }
    ensures before { AllWithin (λ w. is_announced w ≡ false) slots.now from result }
    ensures there { result < length slots.now → HoldsAt (λ w. is_announced w ≡ true) slots.now result }
{
    for slot in from..slots.len() {
        if slots[slot].is_announced() {
            return slot;
        }
    }
    slots.len()
}

/// Lists a slot and its prefix, for which there is room.
fn list_slot(slot: usize, prefix: Prefix, chosen: &mut Vec<usize>, front: &mut Vec<Prefix>)
    requires { HaveRoom chosen.old front.old }
    ensures chosen { vec_capacity chosen.new ≡ vec_capacity chosen.old }
    ensures front { vec_capacity front.new ≡ vec_capacity front.old }
    ensures prefix { front.new.items ≡ front.old.items ++ prefix ∷ [] }
    ensures are { (rows : List (Option Row)) (ws : List Wait) (said : Option (List Attribute)) → AreChosen rows ws said chosen.old.items front.old.items → IsChosen rows ws said slot prefix → AreChosen rows ws said chosen.new.items front.new.items }
{
    chosen.push_reserved(slot);
    front.push_reserved(prefix);
}

/// Whether an open slot waits for these attributes, of which this is the hash. One of which that is known is not looked
/// at; each other one has the row of its prefix, so that no prefix is compared.
fn waits_for(rows: &Rows, wait: &Wait, attrs: &Attrs, hash: u32, is_known: bool) -> bool
    requires known { IsTrue is_known → WaitsFor rows.now.rows.items attrs.now wait.now }
    requires hash { attributes_hash attrs.now ≡ hash }
    requires backed { IsBacked rows.now.rows.items wait.now.prefix wait.now.due }
    ensures said { IsTrue result → is_withdrawal wait.now.due ≡ false }
    ensures row { IsTrue result → HasRow rows.now.rows.items wait.now.prefix attrs.now }
    ensures due { IsTrue result → shown (row_by rows.now.rows.items wait.now.due) ≡ Some attrs.now }
    ensures just { result ≡ has_attributes (shown (row_by rows.now.rows.items wait.now.due)) attrs.now }
{
    if is_known {
        return true;
    }
    let Due::Announced { number, hash: own } = wait.due else {
        return false;
    };
    if own != hash {
        return false;
    }
    let Some(due) = rows.attrs(number) else {
        return false;
    };
    **due == *attrs
}
