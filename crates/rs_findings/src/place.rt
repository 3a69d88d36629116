//! The steps to a place of a configuration, and where they lead to in its text.

use crate::find::{find, if_there};
use rs_places::{Spot, Step, value_at};
use rs_policy::{Key, List, Place, Table};
use std::alloc::{AllocError, Global};
use toml::value::Value;

/// Goes on to a table of an array, which is counted from 1.
fn go_on<'a>(steps: &mut Vec<Step<'a>>, key: Key, number: usize) -> Result<(), AllocError> {
    steps.push(Step::Key(key.text()))?;
    steps.push(Step::Item(number.saturating_sub(1)))?;
    Ok(())
}

/// The array of tables at the top that a table is in, and the table's number there.
fn array_of(table: Table) -> Option<(Key, usize)> {
    match table {
        Table::Top => None,
        Table::Client(number) | Table::Rule(number, List::Import | List::Export, _) => {
            Some((Key::Client, number))
        }
        Table::Rules(number) | Table::Rule(number, List::Shared, _) => Some((Key::Rules, number)),
        Table::List(number) | Table::Entry(number, _) => Some((Key::List, number)),
    }
}

/// The array in such a table that a rule is in.
fn list_key(list: List) -> Key {
    match list {
        List::Import => Key::Import,
        List::Export => Key::Export,
        List::Shared => Key::Rules,
    }
}

/// The steps to a table.
pub(crate) fn steps_to_table<'a>(alloc: Global, table: Table) -> Result<Vec<Step<'a>>, AllocError> {
    let mut steps = Vec::new(alloc);
    if let Some((key, number)) = array_of(table) {
        go_on(&mut steps, key, number)?;
    }
    if let Table::Rule(_, list, rule) = table {
        go_on(&mut steps, list_key(list), rule)?;
    }
    Ok(steps)
}

/// The steps to the value at a key of a table.
pub(crate) fn steps_to_key<'a>(
    alloc: Global,
    table: Table,
    key: &'a str,
) -> Result<Vec<Step<'a>>, AllocError> {
    let mut steps = steps_to_table(alloc, table)?;
    steps.push(Step::Key(key))?;
    Ok(steps)
}

/// The steps to the value at a place.
pub(crate) fn steps_to<'a>(alloc: Global, place: &Place) -> Result<Vec<Step<'a>>, AllocError> {
    let mut steps = steps_to_key(alloc, place.table, place.key.text())?;
    if let Table::Entry(_, entry) = place.table {
        steps.push(Step::Item(entry.saturating_sub(1)))?;
    }
    Ok(steps)
}

/// The content of a table of a document.
pub(crate) fn entries_of<'d>(
    alloc: Global,
    document: &'d Value,
    table: Table,
) -> Result<Option<&'d toml::Table>, AllocError> {
    let steps = steps_to_table(alloc, table)?;
    match value_at(document, &steps) {
        None => Ok(None),
        Some(value) => Ok(value.as_table()),
    }
}

/// Where the steps lead to in a text, as it is looked for.
pub(crate) fn found(
    alloc: Global,
    text: &str,
    steps: &[Step<'_>],
) -> Result<Option<Spot>, AllocError> {
    if_there(find(alloc, text, steps))
}
