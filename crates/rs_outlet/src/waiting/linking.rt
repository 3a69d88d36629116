//! Slots are chained by the hash of their attributes in one pass, from the last slot to the first: a table has
//! for each hash the slot of it that was met last, to which the next one before leads.
//!
//! The place of a hash in the table is the first free one, or the one that it has already, of a few that are tried one after
//! the other. Where others have all these, as a member can have it that chooses hashes, nothing is chained so.

ghost use Rattle.std.specs.Prelude.{◌≡◌, ◌<◌, ◌-◌, suc, length, bit_and, slice_set, IsTrue};
ghost use Rattle.rs_outlet.specs.Pending.Slots.{AreByHash};
ghost use Rattle.rs_outlet.specs.Pending.Linking.{AreMet, is_for, next_in, place_of};

use crate::waiting::chains::Keyed;
use crate::waiting::{Due, Wait};

/// No slot.
const NONE: u32 = 0xffff_ffff;

/// A place of the table that no hash has.
const FREE: Keyed = Keyed { key: 0, slot: NONE };

/// So many places are tried for a hash.
const TRIES: usize = 32;

/// No more slots than these are chained by a table.
const MOST: usize = 16_384;

/// The room of a table for so many slots: at least twice as many places; none where they are too many.
pub(crate) fn table_size(slots: usize) -> usize {
    if slots > MOST {
        return 0;
    }
    (2 * slots).next_power_of_two()
}

/// Whether a place is free, or has this hash.
fn is_for(hash: u32, entry: &Keyed) -> bool
    ensures { result ≡ is_for hash entry.now }
{
    entry.slot == NONE || entry.key == hash
}

/// The place that is tried for a hash behind another one.
fn next_place(size: usize, place: usize) -> usize
    ensures { result ≡ next_in size place }
{
    if place < size.saturating_sub(1) {
        place + 1
    } else {
        0
    }
}

/// The place of a hash; none where others have all that are tried for it.
fn place_of(table: &[Keyed], hash: u32) -> Option<usize>
    ensures { result ≡ place_of table.now hash }
{
    let mut place = hash as usize & table.len().saturating_sub(1);
    let mut left = TRIES;
    while left > 0 {
        let Some(entry) = table.get(place) else {
            return None;
        };
        if is_for(hash, entry) {
            return Some(place);
        }
        place = next_place(table.len(), place);
        left -= 1;
    }
    None
}

/// Chains a slot, if it is to be announced: it leads to the one of its hash that was met last. Answers whether there was a
/// place for its hash.
fn link(slots: &[Wait], slot: usize, table: &mut [Keyed], chains: &mut [u32]) -> bool
    requires { slot < length slots.now }
    ensures met { IsTrue result → AreMet slots.now (suc slot) table.old → AreMet slots.now slot table.new }
    ensures by_hash { IsTrue result → AreMet slots.now (suc slot) table.old → AreByHash slots.now chains.old → AreByHash slots.now chains.new }
{
    let wait = &slots[slot];
    if !wait.open {
        return true;
    }
    let Due::Announced { hash, .. } = wait.due else {
        return true;
    };
    let Some(place) = place_of(table, hash) else {
        return false;
    };
    if slot >= NONE as usize || place >= table.len() || slot >= chains.len() {
        return false;
    }
    chains[slot] = table[place].slot;
    table[place] = Keyed {
        key: hash,
        slot: slot as u32,
    };
    true
}

/// Chains slots, where none is yet. Answers whether each had a place for its hash.
fn link_all(slots: &[Wait], table: &mut [Keyed], chains: &mut [u32]) -> bool
    requires met { AreMet slots.now (length slots.now) table.old }
    requires by_hash { AreByHash slots.now chains.old }
    ensures { IsTrue result → AreByHash slots.now chains.new }
{
    let mut slot = slots.len();
    while slot > 0 {
        slot -= 1;
        if !link(slots, slot, table, chains) {
            return false;
        }
    }
    true
}

/// Chains the slots that are to be announced by their hashes. Answers whether they are chained. It takes no memory.
pub(crate) fn chain_by_hash(slots: &[Wait], table: &mut Vec<Keyed>, chains: &mut Vec<u32>) -> bool
    ensures { IsTrue result → AreByHash slots.now chains.new.items }
{
    let size = table_size(slots.len());
    if table.capacity() < size || chains.capacity() < slots.len() {
        return false;
    }
    table.clear();
    chains.clear();
    if table.resize(size, FREE).is_err() || chains.resize(slots.len(), 0).is_err() {
        return false;
    }
    link_all(slots, table, chains)
}
