//! Arrays of tables, and the keys of a table.

ghost use Rattle.std.specs.Prelude.{◌≡◌, ◌<◌, ◌≤◌, length, option_map, IfOk, string_bytes};
ghost use Rattle.std.specs.List.{list_all};
ghost use Rattle.std.specs.Map.{keys_of};
ghost use Rattle.toml.specs.Data.{as_array};
ghost use Rattle.toml.specs.View.{view};
ghost use Rattle.rs_policy.specs.Keys.{key_text, is_among};
ghost use Rattle.rs_policy.specs.Seen.{data_of, seen};
ghost use Rattle.rs_policy.specs.Rules.{is_longer};
ghost use Rattle.rs_policy.specs.Values.{list_of, is_table, needed_tables_at, tables_in, tables_at, some_tables_at, has_only, stranger};

use crate::config::values::find;
use crate::faults::{ConfigFault, Key, Place};
use crate::keys::is_among;
use toml::value::{Table, Value};

#[tactic(auto, using(crate::proofs::Reading::Documents::list_of_view))]
pub(crate) fn array_in(value: &Value) -> Option<&[Value]>
    ensures { option_map (λ vs. data_of vs.now) result ≡ option_map list_of (as_array (view value.now)) }
{
    match value.as_array() {
        None => None,
        Some(values) => Some(values.as_slice()),
    }
}

/// Whether a value is an array of more values than these.
#[tactic(auto, using(crate::proofs::Reading::Documents::length_seen))]
pub(crate) fn is_longer(value: &Value, most: usize) -> bool
    ensures { result ≡ is_longer most (option_map list_of (as_array (view value.now))) }
{
    match array_in(value) {
        None => false,
        Some(values) => values.len() > most,
    }
}

fn are_tables(values: &[Value]) -> bool
    ensures { result ≡ list_all (λ v. is_table (view v)) values.now }
{
    for value in values {
        if !value.is_table() {
            return false;
        }
    }
    true
}

#[tactic(auto, using(crate::proofs::Reading::Documents::list_all_seen))]
fn tables_in(value: &Value, most: usize, place: Place) -> Result<&[Value], ConfigFault>
    ensures tables { seen result ≡ tables_in most place (view value.now) }
    ensures few { IfOk result (λ ds. length ds.now ≤ most) }
{
    let Some(values) = array_in(value) else {
        return Err(ConfigFault::BadValue(place));
    };
    if values.len() > most {
        return Err(ConfigFault::TooMany(place));
    }
    if !are_tables(values) {
        return Err(ConfigFault::BadValue(place));
    }
    Ok(values)
}

/// An array of tables that may be left out.
#[tactic(auto, unfolding(crate::specs::Values::tables_at))]
pub(crate) fn tables(
    table: &Value,
    most: usize,
    here: Place,
    key: Key,
) -> Result<&[Value], ConfigFault>
    ensures tables { seen result ≡ tables_at most here key (view table.now) }
    ensures few { IfOk result (λ ds. length ds.now ≤ most) }
{
    match find(table, key) {
        None => Ok(&[]),
        Some(value) => tables_in(value, most, Place { key, ..here }),
    }
}

/// An array of tables that has to be there.
#[tactic(auto, unfolding(crate::specs::Values::needed_tables_at))]
pub(crate) fn needed_tables(
    table: &Value,
    most: usize,
    here: Place,
    key: Key,
) -> Result<&[Value], ConfigFault>
    ensures { seen result ≡ needed_tables_at most here key (view table.now) }
{
    match find(table, key) {
        None => Err(ConfigFault::Missing(Place { key, ..here })),
        Some(value) => tables_in(value, most, Place { key, ..here }),
    }
}

/// An array of tables that has to be there and to hold one.
#[tactic(auto, unfolding(crate::specs::Values::some_tables_at))]
pub(crate) fn some_tables(
    table: &Value,
    most: usize,
    here: Place,
    key: Key,
) -> Result<&[Value], ConfigFault>
    ensures tables { seen result ≡ some_tables_at most here key (view table.now) }
    ensures some { IfOk result (λ ds. 0 < length ds.now) }
    ensures few { IfOk result (λ ds. length ds.now ≤ most) }
{
    match tables(table, most, here, key)? {
        [] => Err(ConfigFault::Missing(Place { key, ..here })),
        found => Ok(found),
    }
}

fn are_among(entries: &Table, keys: &[Key]) -> bool
    ensures { result ≡ list_all (λ k. is_among keys.now (string_bytes k)) (keys_of entries.now.entries) }
{
    entries.keys().all(|key| is_among(keys, key.as_str()))
}

/// Whether a table has these keys alone.
#[tactic(auto, using(crate::proofs::Reading::Documents::are_among_view), unfolding(crate::specs::Values::has_only))]
fn has_only(table: &Value, keys: &[Key]) -> bool
    ensures { result ≡ has_only keys.now (view table.now) }
{
    match table.as_table() {
        None => true,
        Some(entries) => are_among(entries, keys),
    }
}

/// Refuses a table with another key than these.
pub(crate) fn refuse_others(table: &Value, here: Place, keys: &[Key]) -> Result<(), ConfigFault>
    ensures { result ≡ stranger keys.now here (view table.now) }
{
    if !has_only(table, keys) {
        return Err(ConfigFault::BadValue(Place {
            key: Key::Other,
            ..here
        }));
    }
    Ok(())
}
