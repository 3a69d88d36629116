//! What waits to be sent to a client: the prefixes at which it was not told what is due, or that it
//! asked for again. Each has a slot. The slots stand in two `parts`, each in rising order, so that a turn
//! does not go over all that waits for a client that takes nothing, or little.
//!
//! Before the first message one part is made of both. From the second message on, or from the first where the client
//! took all that waited before, once nothing is to be withdrawn, each slot of the first part that is to be announced is
//! chained to the next one that may have the same attributes (`chains`, `linking`). A message is read off along such a chain and slot
//! by slot in the late part, the lesser prefix first. `sorting` is how new slots come into order, for several outlets.

ghost use Rattle.std.specs.Prelude.{List, ◌≡◌, ◌≤◌, ◌<◌, ◌+◌, ℕ, nat_eq, Option, None, Some, [], true, false, drop, length, take, vec_len, slice_get, slice_set, option_map, if◌then◌else◌, IfSome, IsTrue, OnOk, ◌++◌};
ghost use Rattle.std.specs.List.{AllWithin, Contains, IsDistinct, list_any};
ghost use Rattle.std.specs.Arc.{arc_value};
ghost use Rattle.std.specs.Ordering.{eq_by_cmp};
ghost use Rattle.std.specs.List.Sorted.{IsStrictlySortedBy};
ghost use Rattle.std.proofs.Props.{props};
ghost use Rattle.std.specs.Vec.{vec_capacity};
ghost use Rattle.rs_octets.specs.Prefixes.{Prefix, prefix_order};
ghost use Rattle.rs_attrs.specs.Meaning.{Attribute};
ghost use Rattle.rs_rows.specs.Cells.{taken_of};
ghost use Rattle.rs_outlet.specs.declared.waiting.Wait.{Wait};
ghost use Rattle.rs_outlet.specs.Pending.Slots.{AreApart, AreByHash, AreFresh, IsOpenSlot, IsShut, hash_of, prefixes_at, open_count, withdrawn_count, is_withdrawn, is_announced, open_at, told_of, told_by, marked_by};

mod chains;
mod choosing;
mod digits;
mod linking;
mod marking;
mod merging;
mod parts;
mod sorting;

use crate::waiting::chains::Keyed;
use crate::waiting::linking::table_size;
use crate::waiting::parts::{open_in, sort_from};
pub(crate) use crate::waiting::sorting::Sorting;
use rs_attrs::Attrs;
use rs_octets::Prefix;
use rs_rows::{Block, Taken};
use std::alloc::{AllocError, Global};
use std::sync::Arc;

/// What the client was told of a prefix that waits. Beside the tag an index takes no octets, where a `Taken` in a variant
/// would take eight more.
#[derive(Drop)]
pub(crate) enum Told {
    Nothing,
    /// Just what is due: it asked for that again.
    Same,
    Other(Arc<Attrs>),
    /// What the row at an index of a block has.
    Within { index: u8, block: Arc<Block> },
}

/// What is due at a prefix that waits: the number of its row and the hash of its attributes. Or it is
/// to be withdrawn.
#[derive(Clone, Copy)]
pub(crate) enum Due {
    Withdrawn,
    Announced { number: u32, hash: u32 },
}

/// A prefix that waits. Its fields lie so that it takes 40 octets.
#[derive(Drop)]
pub(crate) struct Wait {
    pub(crate) prefix: Prefix,
    pub(crate) due: Due,
    /// It is to be told again, even if what was told becomes due.
    pub(crate) marked: bool,
    /// It waits still.
    pub(crate) open: bool,
    pub(crate) told: Told,
}

/// What waits, in two parts by rising prefix. A prefix waits at one slot; another one of it in the other
/// part waits no more.
#[derive(Drop)]
pub(crate) struct Waits {
    pub(crate) alloc: Global,
    pub(crate) slots: Vec<Wait>,
    /// How many slots are in the first part.
    pub(crate) sorted: usize,
    /// A message began since the first part was made.
    pub(crate) ready: bool,
    /// All that waited was taken since the last first message: so much is taken of what waits next, too.
    pub(crate) eager: bool,
    /// For each slot of the first part the next one that may have its attributes; none where slots are not chained.
    pub(crate) chains: Vec<u32>,
    /// Room for chaining slots: a table of their hashes, or those that are to be announced, put in order.
    pub(crate) order: Vec<Keyed>,
    /// Slots are chained by their very attributes, and not by the hash of these.
    pub(crate) exact: bool,
    /// What messages went through slot by slot since the first part was made, in slots.
    pub(crate) walked: usize,
    /// No slot of the first part before it is to be withdrawn.
    pub(crate) gone: usize,
    /// No slot of the first part before it is to be announced.
    pub(crate) news: usize,
    /// The most slots that there were since their memory was given back, as often as none of them waited.
    pub(crate) most: usize,
    /// How many are open.
    pub(crate) waiting: usize,
    ghost counted: { open_count slots.items ≡ waiting },
    ghost withdrawn: { AllWithin (λ w. is_withdrawn w ≡ false) (take sorted slots.items) 0 gone },
    ghost announced: { AllWithin (λ w. is_announced w ≡ false) (take sorted slots.items) 0 news },
    ghost within: { sorted ≤ vec_len slots },
    ghost first: { IsStrictlySortedBy prefix_order (take sorted (prefixes_at slots.items)) } by { Prim.hlevel props },
    ghost late: { IsStrictlySortedBy prefix_order (drop sorted (prefixes_at slots.items)) } by { Prim.hlevel props },
    ghost apart: { AreApart slots.items },
    ghost by_hash: { exact ≡ false → AreByHash (take sorted slots.items) chains.items },
}

impl Waits {
    ghost use Rattle.rs_rows.specs.Rows.{Row};
    ghost use Rattle.rs_outlet.specs.Inside.{AreChained};

    pub(crate) fn new(alloc: Global) -> Waits
        ensures slots { result.slots.items ≡ [] }
        ensures chains { result.chains.items ≡ [] }
    {
        Waits {
            alloc,
            slots: Vec::new(alloc),
            sorted: 0,
            ready: false,
            eager: false,
            chains: Vec::new(alloc),
            order: Vec::new(alloc),
            exact: false,
            walked: 0,
            gone: 0,
            news: 0,
            most: 0,
            waiting: 0,
        }
    }

    /// Nothing waits, and all memory is given back.
    pub(crate) fn clear(&mut self)
        ensures slots { self.new.slots.items ≡ [] }
        ensures chains { self.new.chains.items ≡ [] }
    {
        *self = Waits::new(self.alloc);
    }

    /// How many prefixes wait.
    pub(crate) fn len(&self) -> usize
        ensures { result ≡ open_count self.now.slots.items }
    {
        self.waiting
    }

    /// Whether no prefix waits.
    pub(crate) fn is_idle(&self) -> bool
        ensures { result ≡ nat_eq (open_count self.now.slots.items) 0 }
    {
        self.waiting == 0
    }

    /// Makes room for so many slots.
    pub(crate) fn reserve(&mut self, count: usize) -> Result<(), AllocError>
        ensures items { self.new.slots.items ≡ self.old.slots.items }
        ensures chains { self.new.chains.items ≡ self.old.chains.items }
        ensures sorted { self.new.sorted ≡ self.old.sorted }
        ensures room { OnOk result (count ≤ vec_capacity self.new.slots) }
        ensures kept { vec_capacity self.old.slots ≤ vec_capacity self.new.slots }
    {
        let places = count.max(table_size(count));
        let more = places.saturating_sub(self.order.len());
        self.order.reserve(more)?;
        let more = count.saturating_sub(self.chains.len());
        self.chains.reserve(more)?;
        let more = count.saturating_sub(self.slots.len());
        self.slots.reserve(more)
    }

    /// The slot where a prefix waits.
    pub(crate) fn find(&self, prefix: &Prefix) -> Option<usize>
        ensures found { IfSome result (λ slot. IsOpenSlot prefix.now self.now.slots.items slot) }
        ensures absent { result ≡ None → open_at prefix.now self.now.slots.items ≡ None }
    {
        if let Some(slot) = open_in(&self.slots[..self.sorted], prefix) {
            return Some(slot);
        }
        match open_in(&self.slots[self.sorted..], prefix) {
            None => None,
            Some(slot) => Some(self.sorted + slot),
        }
    }

    /// A slot waits no more. What was told there is kept with it until it is dropped.
    pub(crate) fn shut(&mut self, slot: usize)
        requires { slot < vec_len self.old.slots }
        ensures shut { IsShut slot self.old.slots.items self.new.slots.items }
        ensures chained { (rows : List (Option Row)) → AreChained rows (take self.old.sorted self.old.slots.items) self.old.chains.items → AreChained rows (take self.new.sorted self.new.slots.items) self.new.chains.items }
        ensures withdrawn { withdrawn_count self.new.slots.items ≤ withdrawn_count self.old.slots.items }
        ensures capacity { vec_capacity self.new.slots ≡ vec_capacity self.old.slots }
    {
        let wait = &mut self.slots[slot];
        let waited = wait.open;
        wait.open = false;
        self.waiting -= usize::from(waited);
    }

    /// A slot waits no more. Answers what was told there, and whether it was to be told again.
    pub(crate) fn close(&mut self, slot: usize) -> (Told, bool)
        requires { slot < vec_len self.old.slots }
        ensures prefixes { prefixes_at self.new.slots.items ≡ prefixes_at self.old.slots.items }
        ensures shut { IsShut slot self.old.slots.items self.new.slots.items }
        ensures slots { (w : Wait) → slice_get self.old.slots.items slot ≡ Some w → w.open ≡ true → (q : Prefix) → open_at q self.new.slots.items ≡ (if eq_by_cmp prefix_order q w.prefix then None else open_at q self.old.slots.items) }
        ensures told { (w : Wait) → slice_get self.old.slots.items slot ≡ Some w → (result.0 ≡ w.told) × (result.1 ≡ w.marked) }
        ensures chained { (rows : List (Option Row)) → AreChained rows (take self.old.sorted self.old.slots.items) self.old.chains.items → AreChained rows (take self.new.sorted self.new.slots.items) self.new.chains.items }
        ensures count { open_count self.new.slots.items ≤ open_count self.old.slots.items }
        ensures withdrawn { withdrawn_count self.new.slots.items ≤ withdrawn_count self.old.slots.items }
        ensures capacity { vec_capacity self.new.slots ≡ vec_capacity self.old.slots }
    {
        let wait = &mut self.slots[slot];
        let waited = wait.open;
        wait.open = false;
        let told = std::mem::replace(&mut wait.told, Told::Nothing);
        let marked = wait.marked;
        self.waiting -= usize::from(waited);
        (told, marked)
    }

    /// Takes a prefix out, where it waits: what was told there, and whether it is to be told again.
    /// Where it doesn't wait, what was due was told.
    pub(crate) fn take_told(&mut self, prefix: &Prefix, was_due: Taken) -> (Taken, bool)
        ensures told { taken_of result.0 ≡ told_by (open_at prefix.now self.old.slots.items) (taken_of was_due) }
        ensures marked { result.1 ≡ marked_by (open_at prefix.now self.old.slots.items) }
        ensures slots { (q : Prefix) → open_at q self.new.slots.items ≡ (if eq_by_cmp prefix_order q prefix.now then None else open_at q self.old.slots.items) }
        ensures chained { (rows : List (Option Row)) → AreChained rows (take self.old.sorted self.old.slots.items) self.old.chains.items → AreChained rows (take self.new.sorted self.new.slots.items) self.new.chains.items }
        ensures count { open_count self.new.slots.items ≤ open_count self.old.slots.items }
        ensures withdrawn { withdrawn_count self.new.slots.items ≤ withdrawn_count self.old.slots.items }
        ensures capacity { vec_capacity self.new.slots ≡ vec_capacity self.old.slots }
    {
        if self.slots.is_empty() {
            return (was_due, false);
        }
        match self.find(prefix) {
            None => (was_due, false),
            Some(slot) => {
                let (told, marked) = self.close(slot);
                (told.or_due(was_due), marked)
            }
        }
    }
}

impl Wait {
    /// Whether it is to be withdrawn.
    pub(crate) fn is_withdrawn(&self) -> bool
        ensures { result ≡ is_withdrawn self.now }
    {
        self.open && matches!(self.due, Due::Withdrawn)
    }

    /// Whether it is due to be announced, with attributes of this hash.
    pub(crate) fn has_hash(&self, hash: u32) -> bool
        ensures due { IsTrue result → hash_of self.now.due ≡ Some hash }
        ensures all { hash_of self.now.due ≡ Some hash → IsTrue result }
    {
        match self.due {
            Due::Withdrawn => false,
            Due::Announced { hash: own, .. } => own == hash,
        }
    }

    /// Whether it is to be announced.
    pub(crate) fn is_announced(&self) -> bool
        ensures { result ≡ is_announced self.now }
    {
        self.open && matches!(self.due, Due::Announced { .. })
    }
}

impl Told {
    /// What was told, as it was taken out of a row.
    pub(crate) fn of(taken: Taken) -> Told
        ensures { (due : Option (List Attribute)) → told_of result due ≡ taken_of taken }
    {
        match taken {
            Taken::Nothing => Told::Nothing,
            Taken::One(attrs) => Told::Other(attrs),
            Taken::Within { index, block } => Told::Within { index, block },
        }
    }

    /// What was told at a slot, where this is due.
    fn or_due(self, due: Taken) -> Taken
        ensures { taken_of result ≡ told_of self (taken_of due) }
    {
        match self {
            Told::Nothing => Taken::Nothing,
            Told::Same => due,
            Told::Other(told) => Taken::One(told),
            Told::Within { index, block } => Taken::Within { index, block },
        }
    }
}

/// How many slots wait.
pub(crate) fn count_open(slots: &[Wait]) -> usize
    ensures { result ≡ open_count slots.now }
{
    slots.iter().filter(|wait| wait.open).count()
}

/// Puts the slots in order. A prefix has one slot. It takes no memory.
pub(crate) fn put_in_order(slots: &mut Vec<Wait>)
    ensures rises { IsStrictlySortedBy prefix_order (prefixes_at slots.new.items) }
    ensures from { (w : Wait) → Contains slots.new.items w → Contains slots.old.items w }
    ensures all { (q : Prefix) → list_any (eq_by_cmp prefix_order q) (prefixes_at slots.new.items) ≡ list_any (eq_by_cmp prefix_order q) (prefixes_at slots.old.items) }
    ensures withdrawn { withdrawn_count slots.new.items ≤ withdrawn_count slots.old.items }
    ensures capacity { vec_capacity slots.new ≡ vec_capacity slots.old }
{
    sort_from(None, slots, 0);
    slots.dedup_by_key(|wait| wait.prefix);
}
