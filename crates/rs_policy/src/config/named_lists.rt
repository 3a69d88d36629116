//! The lists that rules name.

ghost use Rattle.std.specs.Prelude.{◌≡◌, ◌≤◌, length, IfOk, option_map};
ghost use Rattle.std.specs.List.{list_any};
ghost use Rattle.toml.specs.Data.{as_array};
ghost use Rattle.toml.specs.View.{view};
ghost use Rattle.rs_policy.specs.Seen.{data_of, seen};
ghost use Rattle.rs_policy.specs.declared.faults.Key.TheVariants as Key;
ghost use Rattle.rs_policy.specs.Values.{answer, Answers, AnswersItems, array_at, entries_from, list_of};
ghost use Rattle.rs_policy.specs.Verdicts.{has_as, has_prefix};
ghost use Rattle.rs_policy.specs.NamedLists.{ases_at, entries_needed, is_same_name, named_list_checks, named_list_from, named_lists_checks, named_lists_from, prefixes_at};

use crate::config::arrays::{array_in, refuse_others};
use crate::config::clients::name_in;
use crate::config::indexed::{Ases, Prefixes};
use crate::config::top::TOP;
use crate::config::values::{AsEntry, Kind, PrefixEntry, find};
use crate::faults::{ConfigFault, Key, Place, Table};
use crate::keys::LIST_KEYS;
use rs_octets::Prefix;
use std::alloc::Global;
use std::marker::Model;
use toml::value::Value;

/// The most entries of an array.
const MOST: usize = 1_048_576;

/// A list that rules name.
#[derive(Drop)]
pub(crate) struct NamedList {
    pub(crate) name: String,
    pub(crate) prefixes: Option<Prefixes>,
    pub(crate) ases: Option<Ases>,
}

impl Model for NamedList {
    ghost use Rattle.std.specs.Prelude.{string_bytes};
    ghost use Rattle.rs_policy.specs.Configuration.{NamedList};

    ghost Value = { NamedList };

    ghost view = { λ l. record { name = string_bytes l.name; prefixes = l.prefixes; ases = l.ases } };
}

/// The array at a key of a list, at most so long.
#[tactic(auto, using(crate::proofs::Reading::Documents::length_seen))]
fn array_of(value: &Value, list: usize, key: Key) -> Result<&[Value], ConfigFault>
    ensures array { seen result ≡ array_at list key (option_map list_of (as_array (view value.now))) }
    ensures few { IfOk result (λ vs. length vs.now ≤ 1048576) }
{
    let place = Place {
        table: Table::List(list),
        key,
    };
    let Some(values) = array_in(value) else {
        return Err(ConfigFault::BadValue(place));
    };
    if values.len() > MOST {
        return Err(ConfigFault::TooMany(place));
    }
    Ok(values)
}

/// What each entry of such an array is, or the place of the first that is none.
fn entries_of<K: Kind + Drop>(
    alloc: Global,
    values: &[Value],
    list: usize,
    key: Key,
    kind: K,
) -> Result<Vec<K::Out>, ConfigFault>
where
    K::Out: Drop,
    ensures entries { AnswersItems result (entries_from (K.reads kind) list key 1 (data_of values.now)) }
    ensures count { IfOk result (λ v. length v.items ≡ length values.now) }
{
    let mut entries = Vec::with_capacity(alloc, values.len())?;
    for (index, value) in values.iter().enumerate() {
        let Some(entry) = kind.read(value) else {
            return Err(ConfigFault::BadValue(Place {
                table: Table::Entry(list, index + 1),
                key,
            }));
        };
        entries.push(entry)?;
    }
    Ok(entries)
}

#[tactic(auto, unfolding(crate::specs::Values::entries_at))]
fn prefixes_in(alloc: Global, table: &Value, list: usize) -> Result<Option<Prefixes>, ConfigFault>
    ensures { Answers result (prefixes_at list (view table.now)) }
{
    let Some(value) = find(table, Key::Prefixes) else {
        return Ok(None);
    };
    let values = array_of(value, list, Key::Prefixes)?;
    let ranges = entries_of(alloc, values, list, Key::Prefixes, PrefixEntry)?;
    Ok(Some(Prefixes::of(alloc, ranges)?))
}

#[tactic(auto, unfolding(crate::specs::Values::entries_at))]
fn ases_in(alloc: Global, table: &Value, list: usize) -> Result<Option<Ases>, ConfigFault>
    ensures { Answers result (ases_at list (view table.now)) }
{
    let Some(value) = find(table, Key::Ases) else {
        return Ok(None);
    };
    let values = array_of(value, list, Key::Ases)?;
    let ranges = entries_of(alloc, values, list, Key::Ases, AsEntry)?;
    Ok(Some(Ases::of(alloc, ranges)?))
}

/// Refuses a list that has neither prefixes nor AS numbers.
#[tactic(auto, unfolding(crate::specs::NamedLists::entries_needed))]
fn need_entries(table: &Value, list: usize) -> Result<(), ConfigFault>
    ensures { result ≡ entries_needed list (view table.now) }
{
    if find(table, Key::Prefixes).is_none() && find(table, Key::Ases).is_none() {
        return Err(ConfigFault::Missing(Place {
            table: Table::List(list),
            key: Key::Prefixes,
        }));
    }
    Ok(())
}

impl NamedList {
    fn is_same_name(&self, other: &NamedList) -> bool
        ensures { result ≡ is_same_name self.now other.now }
    {
        self.name.as_str() == other.name.as_str()
    }

    fn is_among(&self, others: &[NamedList]) -> bool
        ensures { result ≡ list_any (is_same_name self.now) others.now }
    {
        for other in others {
            if self.is_same_name(other) {
                return true;
            }
        }
        false
    }

    /// Whether a range of the list takes the prefix.
    pub(crate) fn has_prefix(&self, prefix: &Prefix) -> bool
        ensures { result ≡ has_prefix self.now prefix.now }
    {
        match &self.prefixes {
            None => false,
            Some(prefixes) => prefixes.has(prefix),
        }
    }

    /// Whether a range of the list has the AS number.
    pub(crate) fn has_as(&self, number: u32) -> bool
        ensures { result ≡ has_as self.now number }
    {
        match &self.ases {
            None => false,
            Some(ases) => ases.has(number),
        }
    }

    /// What the table of a list sets, or its first fault.
    #[tactic(auto, unfolding(crate::specs::Values::answer, crate::specs::NamedLists::named_list_checks, crate::specs::NamedLists::named_list_from))]
    fn read(
        alloc: Global,
        table: &Value,
        number: usize,
        earlier: &[NamedList],
    ) -> Result<NamedList, ConfigFault>
        ensures { Answers result
            (answer (named_list_checks number earlier.now (view table.now)) (named_list_from number (view table.now))) }
    {
        let here = Place {
            table: Table::List(number),
            ..TOP
        };
        let name = name_in(table, here)?;
        need_entries(table, number)?;
        let prefixes = prefixes_in(alloc, table, number)?;
        let ases = ases_in(alloc, table, number)?;
        refuse_others(table, here, &LIST_KEYS)?;
        let list = NamedList {
            name: String::from_str(alloc, name)?,
            prefixes,
            ases,
        };
        if list.is_among(earlier) {
            return Err(ConfigFault::TwiceList(number));
        }
        Ok(list)
    }
}

/// The lists of a configuration, or their first fault.
pub(crate) fn read_named_lists(
    alloc: Global,
    tables: &[Value],
) -> Result<Vec<NamedList>, ConfigFault>
    ensures { AnswersItems result
        (answer (named_lists_checks (data_of tables.now)) (named_lists_from (data_of tables.now))) }
{
    let mut lists = Vec::with_capacity(alloc, tables.len())?;
    for (index, table) in tables.iter().enumerate() {
        let list = NamedList::read(alloc, table, index + 1, &lists)?;
        lists.push(list)?;
    }
    Ok(lists)
}
