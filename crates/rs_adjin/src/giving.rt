//! A key's number, found or given by one search.

ghost use Rattle.std.specs.Prelude.{◌≡◌, ℕ, None, Some, IfOk, OnErr};
ghost use Rattle.std.specs.BTreeMap.{get, insert_entry, IsOrdered, IsUnchanged, Updates};

use std::alloc::AllocError;
use std::collections::BTreeMap;
use std::collections::btree_map::Entry;

/// The number that a key has. Where it has none, it has this one from now on, and none is answered.
pub(crate) fn find_or_give<K: Ord + Drop>(
    numbers: &mut BTreeMap<K, u32>,
    key: K,
    number: u32,
) -> Result<Option<u32>, AllocError>
    ensures found { IfOk result (λ found. found ≡ get K.cmp numbers.old key) }
    ensures given { IfOk result (λ found. found ≡ None → Updates K.cmp numbers.old numbers.new key (Some number)) }
    ensures entries { IfOk result (λ found. found ≡ None → numbers.new.entries ≡ insert_entry K.cmp numbers.old.entries key number) }
    ensures ordered { IfOk result (λ found. found ≡ None → IsOrdered K.cmp numbers.new) }
    ensures kept { IfOk result (λ found. (n : ℕ) → found ≡ Some n → IsUnchanged numbers.old numbers.new) }
    ensures err { OnErr result (IsUnchanged numbers.old numbers.new) }
{
    match numbers.entry(key) {
        Err(_) => Err(AllocError),
        Ok(Entry::Occupied(entry)) => Ok(Some(*entry.get())),
        Ok(Entry::Vacant(entry)) => {
            entry.insert(number);
            Ok(None)
        }
    }
}
