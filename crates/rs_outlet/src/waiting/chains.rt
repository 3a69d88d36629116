//! The chains of the slots that wait: each slot that is to be announced leads to the next one that may have
//! its attributes, so that a message goes along a chain and meets few others.
//!
//! Slots of one hash are chained, which each has already, so that no attributes are compared: by a table (`linking`),
//! or where that doesn't do, or slots are many, put in order by their hash and by place. A member can choose
//! attributes that share one hash: where a message passed over many slots of its hash, slots are from then on put in order by
//! the number of the set of their attributes, which the Adj-RIBs-In found by order when they were heard.
//! Attributes of no such set, as rules make them, are put in order by themselves.

ghost use Rattle.std.specs.Prelude.{◌≡◌, ◌<◌, ◌≤◌, ◌++◌, ◌∷◌, [], ℕ, suc, List, Option, Some, IfSome, IsSome, IsTrue, false, true, nat_lt, slice_get, length, take, vec_len, if◌then◌else◌};
ghost use Rattle.std.specs.Arc.{arc_value};
ghost use Rattle.std.specs.List.{HoldsAt};
ghost use Rattle.std.specs.List.Sorted.{IsPermutation};
ghost use Rattle.std.specs.Vec.{vec_capacity};
ghost use Rattle.rs_attrs.specs.Meaning.{Attribute};
ghost use Rattle.rs_adjin.specs.AdjIns.{set_of};
ghost use Rattle.rs_attrs.specs.Comparing.{attributes_cmp, attributes_hash};
ghost use Rattle.rs_rows.specs.Rows.{Row};
ghost use Rattle.rs_outlet.specs.declared.waiting.Wait.{Wait};
ghost use Rattle.rs_outlet.specs.Inside.{AreBacked, AreChained, row_at, row_by, shown};
ghost use Rattle.rs_outlet.specs.Pending.Slots.{AreByHash, hash_of};
ghost use Rattle.rs_outlet.specs.Pending.Chains.{AreInOrder, AreKeyed, AreLinked, IsBefore, due_by, due_there, key_by, or_none};
ghost use Rattle.rs_outlet.specs.Pending.Choosing.{shares};

use crate::table::Rows;
use crate::waiting::digits::sort_by_rank;
use crate::waiting::linking::chain_by_hash;
use crate::waiting::{Due, Wait, Waits};
use rs_adjin::AdjIns;
use rs_attrs::Attrs;
use std::cmp::Ordering;
use std::sync::Arc;

/// No slot.
const END: u32 = 0xffff_ffff;

/// The key of attributes of no set.
const NO_SET: u32 = 0xffff_ffff;

/// A slot that is to be announced, and the key by which it is chained.
#[derive(Clone, Copy)]
pub(crate) struct Keyed {
    pub(crate) key: u32,
    pub(crate) slot: u32,
}

/// The key of a slot that is to be announced, by the hash that it says: the hash, or where slots are chained
/// by their very attributes the number of the set of those in its row.
fn key_at(exact: bool, ins: &AdjIns, rows: &Rows, number: u32, hash: u32) -> Option<u32>
    ensures { IfSome result (λ key. key ≡ key_by exact (set_of ins.now) (or_none (shown (row_at rows.now.rows.items number))) hash) }
{
    if !exact {
        return Some(hash);
    }
    match ins.set_by(number, rows.attrs(number)?) {
        Ok(Some(set)) => Some(set),
        Ok(None) => Some(NO_SET),
        Err(_) => None,
    }
}

/// Adds where a slot leads to, if there is room for it.
fn put_chain(chains: &mut Vec<u32>, chain: u32)
    ensures items { chains.new.items ≡ (if nat_lt (vec_len chains.old) (vec_capacity chains.old) then chains.old.items ++ chain ∷ [] else chains.old.items) }
{
    if chains.len() < chains.capacity() {
        chains.push_reserved(chain);
    }
}

/// Lists a slot, if it is to be announced. Answers whether there was room for it, and a key.
fn list_keyed(
    exact: bool,
    ins: &AdjIns,
    rows: &Rows,
    slots: &[Wait],
    slot: usize,
    order: &mut Vec<Keyed>,
) -> bool
    requires { slot < length slots.now }
    ensures { IsTrue result → AreKeyed exact (set_of ins.now) rows.now.rows.items slots.now slot order.old.items → AreKeyed exact (set_of ins.now) rows.now.rows.items slots.now (suc slot) order.new.items }
{
    let wait = &slots[slot];
    if !wait.open {
        return true;
    }
    let Due::Announced { number, hash } = wait.due else {
        return true;
    };
    if order.capacity() <= order.len() {
        return false;
    }
    let Ok(slot) = u32::try_from(slot) else {
        return false;
    };
    let Some(key) = key_at(exact, ins, rows, number, hash) else {
        return false;
    };
    order.push_reserved(Keyed { key, slot });
    true
}

/// Lists the slots that are to be announced. Answers whether there was room for all, and a key for each.
fn list_all(exact: bool, ins: &AdjIns, rows: &Rows, slots: &[Wait], order: &mut Vec<Keyed>) -> bool
    ensures { IsTrue result → AreKeyed exact (set_of ins.now) rows.now.rows.items slots.now (length slots.now) order.new.items }
{
    order.clear();
    for slot in 0..slots.len() {
        if !list_keyed(exact, ins, rows, slots, slot, order) {
            return false;
        }
    }
    true
}

/// The attributes that are due at a slot.
fn due_at<'a>(rows: &'a Rows, slots: &[Wait], entry: &Keyed) -> Option<&'a Arc<Attrs>>
    ensures { IfSome result (λ attrs. arc_value attrs.now ≡ due_there rows.now.rows.items slots.now entry.now) }
{
    let wait = slots.get(entry.slot as usize)?;
    let Due::Announced { number, .. } = wait.due else {
        return None;
    };
    rows.attrs(number)
}

/// The order of what is due at two slots.
fn compare_due(rows: &Rows, slots: &[Wait], a: &Keyed, b: &Keyed) -> Option<Ordering>
    ensures { IfSome result (λ order. order ≡ attributes_cmp (due_there rows.now.rows.items slots.now a.now) (due_there rows.now.rows.items slots.now b.now)) }
{
    let first = due_at(rows, slots, a)?;
    let second = due_at(rows, slots, b)?;
    Some(first.cmp(second))
}

/// The order of what tells slots of one key apart: what is due at them where they have no set, else nothing.
#[tactic(auto, unfolding(crate::specs::Pending::Chains::due_by))]
fn compare_by(exact: bool, rows: &Rows, slots: &[Wait], a: &Keyed, b: &Keyed) -> Option<Ordering>
    requires { b.now.key ≡ a.now.key }
    ensures { IfSome result (λ order. order ≡ attributes_cmp (due_by exact rows.now.rows.items slots.now a.now) (due_by exact rows.now.rows.items slots.now b.now)) }
{
    if exact && a.key == NO_SET {
        compare_due(rows, slots, a, b)
    } else {
        Some(Ordering::Equal)
    }
}

/// The order of slots: by key, by attributes where they have no set, and by place where these are equal.
fn compare(rows: &Rows, slots: &[Wait], a: &Keyed, b: &Keyed) -> Ordering {
    if a.key != b.key {
        return a.key.cmp(&b.key);
    }
    match compare_by(true, rows, slots, a, b) {
        None | Some(Ordering::Equal) => a.slot.cmp(&b.slot),
        Some(order) => order,
    }
}

/// Where a slot leads to if this is the next one in order: there, if nothing tells them apart. It is none
/// where the next one does not come after it.
fn leads_to(exact: bool, rows: &Rows, slots: &[Wait], entry: &Keyed, next: &Keyed) -> Option<u32>
    ensures rises { IsSome result → IsBefore (due_by exact rows.now.rows.items slots.now) entry.now next.now }
    ensures leads { IfSome result (λ chain. next.now.key ≡ entry.now.key → due_by exact rows.now.rows.items slots.now next.now ≡ due_by exact rows.now.rows.items slots.now entry.now → chain ≤ next.now.slot) }
{
    if entry.key < next.key {
        return Some(END);
    }
    if entry.key != next.key {
        return None;
    }
    match compare_by(exact, rows, slots, entry, next)? {
        Ordering::Less => Some(END),
        Ordering::Equal => {
            if entry.slot < next.slot {
                Some(next.slot)
            } else {
                None
            }
        }
        Ordering::Greater => None,
    }
}

/// Where the slot at a place of the order leads to. It is none where the next one does not come after
/// it.
fn chain_at(exact: bool, rows: &Rows, slots: &[Wait], order: &[Keyed], place: usize) -> Option<u32>
    requires { place < length order.now }
    ensures rises { IsSome result → (e f : Keyed) → slice_get order.now place ≡ Some e → slice_get order.now (suc place) ≡ Some f → IsBefore (due_by exact rows.now.rows.items slots.now) e f }
    ensures leads { IfSome result (λ chain. (e f : Keyed) → slice_get order.now place ≡ Some e → slice_get order.now (suc place) ≡ Some f → f.key ≡ e.key → due_by exact rows.now.rows.items slots.now f ≡ due_by exact rows.now.rows.items slots.now e → chain ≤ f.slot) }
{
    if order.len() - place <= 1 {
        return Some(END);
    }
    leads_to(exact, rows, slots, &order[place], &order[place + 1])
}

/// Chains the slot at a place of the order. Answers whether the next one comes after it.
fn chain_one(
    exact: bool,
    rows: &Rows,
    slots: &[Wait],
    order: &[Keyed],
    place: usize,
    chains: &mut Vec<u32>,
) -> bool
    requires { place < length order.now }
    ensures rises { IsTrue result → AreInOrder (due_by exact rows.now.rows.items slots.now) order.now place → AreInOrder (due_by exact rows.now.rows.items slots.now) order.now (suc place) }
    ensures linked { AreLinked (due_by exact rows.now.rows.items slots.now) order.now chains.old.items → AreLinked (due_by exact rows.now.rows.items slots.now) order.now chains.new.items }
{
    let Some(chain) = chain_at(exact, rows, slots, order, place) else {
        return false;
    };
    if let Some(at) = chains.get_mut(order[place].slot as usize) {
        *at = chain;
    }
    true
}

/// Chains the slots, which are in order. Answers whether they are.
fn chain_all(
    exact: bool,
    rows: &Rows,
    slots: &[Wait],
    order: &[Keyed],
    chains: &mut Vec<u32>,
) -> bool
    ensures rise { IsTrue result → AreInOrder (due_by exact rows.now.rows.items slots.now) order.now (length order.now) }
    ensures linked { IsTrue result → AreLinked (due_by exact rows.now.rows.items slots.now) order.now chains.new.items }
{
    chains.clear();
    for _ in 0..slots.len() {
        put_chain(chains, 0);
    }
    for place in 0..order.len() {
        if !chain_one(exact, rows, slots, order, place, chains) {
            return false;
        }
    }
    true
}

/// Puts slots in order: by key, by attributes if these count, and by place.
fn put_keyed_in_order(exact: bool, rows: &Rows, slots: &[Wait], order: &mut Vec<Keyed>)
    ensures { IsPermutation order.old.items order.new.items }
{
    if exact {
        order.sort_unstable_by(|a, b| compare(rows, slots, a, b));
    } else {
        sort_by_rank(order);
    }
}

/// Chains the slots that are to be announced: by a table of their hashes, or else put in order; without room for it none is
/// chained.
fn chain_slots(
    exact: bool,
    ins: &AdjIns,
    rows: &Rows,
    slots: &[Wait],
    order: &mut Vec<Keyed>,
    chains: &mut Vec<u32>,
)
    ensures chained { AreChained rows.now.rows.items slots.now chains.new.items }
    ensures by_hash { exact ≡ false → AreByHash slots.now chains.new.items }
{
    if !exact && chain_by_hash(slots, order, chains) {
        return;
    }
    if !list_all(exact, ins, rows, slots, order) {
        chains.clear();
        return;
    }
    put_keyed_in_order(exact, rows, slots, order);
    if !chain_all(exact, rows, slots, order, chains) {
        chains.clear();
    }
}

/// Messages go so many times over what waits, slot by slot, till the parts are made one and chained anew.
const WALKS: usize = 8;

/// The same where slots are chained by their very attributes, since that takes some ten times as long.
const EXACT_WALKS: usize = 128;

/// A slot of the same hash counts for so many others, since its attributes are compared in full.
const COMPARED: usize = 16;

/// A message that passed over more slots of its hash than these was put among attributes that share it.
const MANY_OF_ONE_HASH: usize = 64;

impl Waits {
    /// Chains the slots of the first part that are to be announced. It takes no memory.
    pub(crate) fn chain(&mut self, rows: &Rows, ins: &AdjIns)
        ensures items { self.new.slots.items ≡ self.old.slots.items }
        ensures sorted { self.new.sorted ≡ self.old.sorted }
        ensures capacity { vec_capacity self.new.slots ≡ vec_capacity self.old.slots }
        ensures chained { AreChained rows.now.rows.items (take self.new.sorted self.new.slots.items) self.new.chains.items }
    {
        chain_slots(
            self.exact,
            ins,
            rows,
            &self.slots[..self.sorted],
            &mut self.order,
            &mut self.chains,
        );
    }

    /// A message passed over so many slots of its hash that have other attributes. Where they are many, the
    /// chains are dropped, and slots are chained by their very attributes from now on, until none waits.
    pub(crate) fn note_passed(&mut self, passed: usize)
        ensures slots { self.new.slots.items ≡ self.old.slots.items }
        ensures sorted { self.new.sorted ≡ self.old.sorted }
        ensures capacity { vec_capacity self.new.slots ≡ vec_capacity self.old.slots }
        ensures chained { (rows : List (Option Row)) → AreChained rows (take self.old.sorted self.old.slots.items) self.old.chains.items → AreChained rows (take self.new.sorted self.new.slots.items) self.new.chains.items }
    {
        if self.exact || passed <= MANY_OF_ONE_HASH {
            return;
        }
        self.exact = true;
        self.chains.clear();
    }

    /// A message went through so many slots of the first part, and passed over so many of its hash.
    /// Attributes that a turn added to the late part have no chain there: where messages went over many
    /// slots for such, the next one finds one part.
    pub(crate) fn note_walked(&mut self, walked: usize, passed: usize)
        ensures slots { self.new.slots.items ≡ self.old.slots.items }
        ensures sorted { self.new.sorted ≡ self.old.sorted }
        ensures chains { self.new.chains.items ≡ self.old.chains.items }
        ensures capacity { vec_capacity self.new.slots ≡ vec_capacity self.old.slots }
    {
        if walked == 0 {
            return;
        }
        let cost = walked.saturating_add(passed.saturating_mul(COMPARED));
        self.walked = self.walked.saturating_add(cost);
        let walks = if self.exact { EXACT_WALKS } else { WALKS };
        if self.slots.len().saturating_mul(walks) < self.walked {
            self.walked = 0;
            self.ready = false;
        }
    }

    /// The next slot of the first part that may have the attributes of a message, of which this is the hash,
    /// where this one has them or not.
    pub(crate) fn next_slot(&self, slot: usize, hash: u32, has: bool) -> usize
        requires { slot < self.now.sorted }
        ensures later { slot < result }
        ensures within { result ≤ self.now.sorted }
        ensures between { (rows : List (Option Row)) (m : List Attribute) → AreChained rows (take self.now.sorted self.now.slots.items) self.now.chains.items → AreBacked rows self.now.slots.items → attributes_hash m ≡ hash → (IsTrue has → HoldsAt (λ w. (w.open ≡ true) × (shown (row_by rows w.due) ≡ Some m)) self.now.slots.items slot) → (n : ℕ) (z : Wait) → slice_get self.now.slots.items n ≡ Some z → slot < n → n < result → shares rows m z ≡ false }
    {
        if !has && (self.exact || !self.slots[slot].has_hash(hash)) {
            return slot + 1;
        }
        match self.chains.get(slot) {
            None => slot + 1,
            Some(chain) => (slot + 1).max(*chain as usize).min(self.sorted),
        }
    }

    /// Whether a message of this hash passes over a slot that waits for other attributes of the hash.
    pub(crate) fn is_passed(&self, slot: usize, hash: u32, has: bool) -> bool
        requires { slot < vec_len self.now.slots }
        ensures just { IsTrue result → (has ≡ false) × HoldsAt (λ w. (w.open ≡ true) × (hash_of w.due ≡ Some hash)) self.now.slots.items slot }
        ensures all { has ≡ false → HoldsAt (λ w. (w.open ≡ true) × (hash_of w.due ≡ Some hash)) self.now.slots.items slot → IsTrue result }
    {
        let wait = &self.slots[slot];
        !has && wait.open && wait.has_hash(hash)
    }
}
