//! The text of a configuration with a fault mended, by which the next one is found.

use crate::forms::strangers;
use crate::place::{entries_of, found, steps_to, steps_to_key, steps_to_table};
use rs_places::{Spot, Step, with};
use rs_policy::{ConfigFault, Key, Place, Table};
use std::alloc::{AllocError, Global};
use toml::value::Value;
use toml_parser::text::{first, skip_blank};

/// A client, where there is none.
const CLIENT: &str =
    "\n[[client]]\nname = \"mended-1\"\nas = 1\nlisten = \"0.0.0.0:1\"\npeer = \"0.0.0.0\"\n";

/// Where the comma behind a value ends, or else the value.
fn behind_comma(text: &str, stop: usize) -> usize {
    let Some(rest) = text.get(stop..) else {
        return stop;
    };
    let blank = skip_blank(rest, true);
    if first(blank) == b',' {
        text.len().saturating_sub(blank.len()).saturating_add(1)
    } else {
        stop
    }
}

/// The text without the pair of a key and a value that the steps lead to.
fn without(alloc: Global, text: &str, steps: &[Step<'_>]) -> Result<Option<String>, AllocError> {
    match found(alloc, text, steps)? {
        Some(Spot::Value { key, start, stop }) if key < start => {
            with(alloc, text, key, behind_comma(text, stop), "")
        }
        _ => Ok(None),
    }
}

/// The text without this key of a table.
fn without_key(
    alloc: Global,
    text: &str,
    table: Table,
    key: &str,
) -> Result<Option<String>, AllocError> {
    let steps = steps_to_key(alloc, table, key)?;
    without(alloc, text, &steps)
}

/// The text with another value where the steps lead to.
fn replaced(
    alloc: Global,
    text: &str,
    steps: &[Step<'_>],
    value: &str,
) -> Result<Option<String>, AllocError> {
    match found(alloc, text, steps)? {
        Some(
            Spot::Value {
                key: _,
                start,
                stop,
            },
        ) => with(alloc, text, start, stop, value),
        _ => Ok(None),
    }
}

/// Where a pair of a key and a value has room in a table, and what stands before and behind it there.
#[derive(Clone, Copy)]
struct Room {
    front: usize,
    before: &'static str,
    behind: &'static str,
}

/// The room in a table; None where it isn't found.
fn room_in(alloc: Global, text: &str, table: Table) -> Result<Option<Room>, AllocError> {
    if table == Table::Top {
        return Ok(Some(Room {
            front: 0,
            before: "",
            behind: "\n",
        }));
    }
    let steps = steps_to_table(alloc, table)?;
    match found(alloc, text, &steps)? {
        Some(Spot::Header { stop, .. }) => Ok(Some(Room {
            front: stop,
            before: "\n",
            behind: "\n",
        })),
        Some(Spot::Value { start, .. }) => Ok(Some(Room {
            front: start.saturating_add(1),
            before: "",
            behind: ", ",
        })),
        None => Ok(None),
    }
}

/// The text with a pair of a key and a value more in a table.
fn inserted(
    alloc: Global,
    text: &str,
    table: Table,
    key: Key,
    value: &str,
) -> Result<Option<String>, AllocError> {
    let Some(room) = room_in(alloc, text, table)? else {
        return Ok(None);
    };
    let (before, behind) = (room.before, room.behind);
    let pair = format!(in alloc; "{before}{} = {value}{behind}", key.text())?;
    with(alloc, text, room.front, room.front, pair.as_str())
}

/// The number of a table among its like, or of an entry of a list.
fn number_of(table: Table) -> usize {
    match table {
        Table::Top => 0,
        Table::Client(number) | Table::List(number) | Table::Rules(number) => number,
        Table::Rule(_, _, rule) => rule,
        Table::Entry(_, entry) => entry,
    }
}

/// A good value at a place that has to have one, where it is the same for each table; None where the key may
/// be left out.
fn usual_value(place: &Place) -> Option<&'static str> {
    match (place.table, place.key) {
        (Table::Entry(_, _), Key::Ases) => Some("0"),
        (Table::Entry(_, _), _) | (_, Key::Prefix) => Some("\"0.0.0.0/0\""),
        (_, Key::As) => Some("1"),
        (_, Key::Identifier) => Some("\"192.0.2.1\""),
        (_, Key::Peer) => Some("\"0.0.0.0\""),
        (_, Key::Prefixes | Key::Ases) | (Table::Rules(_), Key::Rules) => Some("[]"),
        (_, Key::Action) => Some("\"pass\""),
        _ => None,
    }
}

/// A good value at a place that has to have one; None where the key may be left out.
fn good_value(alloc: Global, place: &Place) -> Result<Option<String>, AllocError> {
    let number = number_of(place.table);
    let value = match (place.key, usual_value(place)) {
        (_, Some(value)) => String::from_str(alloc, value),
        (Key::Name, None) => format!(in alloc; "\"mended-{number}\""),
        (Key::Listen, None) => format!(in alloc; "\"0.0.0.0:{}\"", number.clamp(1, 65535)),
        _ => return Ok(None),
    };
    Ok(Some(value?))
}

/// The text without a key that its table hasn't.
fn without_stranger(
    alloc: Global,
    text: &str,
    document: &Value,
    table: Table,
) -> Result<Option<String>, AllocError> {
    let entries = entries_of(alloc, document, table)?;
    let strangers = strangers(alloc, table, entries)?;
    match strangers.first() {
        None => Ok(None),
        Some(first) => without_key(alloc, text, table, first),
    }
}

/// The text with the value at a place mended, or without it.
fn with_good_value(alloc: Global, text: &str, place: &Place) -> Result<Option<String>, AllocError> {
    let steps = steps_to(alloc, place)?;
    match good_value(alloc, place)? {
        Some(value) => replaced(alloc, text, &steps, value.as_str()),
        None => without(alloc, text, &steps),
    }
}

/// The text with a name in a table that no other has, and for a client another pair of `listen` and `peer`.
fn with_own_name(alloc: Global, text: &str, table: Table) -> Result<Option<String>, AllocError> {
    let name = Place {
        table,
        key: Key::Name,
    };
    let Some(named) = with_good_value(alloc, text, &name)? else {
        return Ok(None);
    };
    match table {
        Table::Client(_) => {
            let listen = Place {
                table,
                key: Key::Listen,
            };
            with_good_value(alloc, named.as_str(), &listen)
        }
        _ => Ok(Some(named)),
    }
}

/// The text of a document with its first fault mended; None where it isn't known how.
pub fn mended(
    alloc: Global,
    text: &str,
    document: &Value,
    fault: &ConfigFault,
) -> Result<Option<String>, AllocError> {
    match fault {
        ConfigFault::BadValue(place) if place.key == Key::Other => {
            without_stranger(alloc, text, document, place.table)
        }
        ConfigFault::BadValue(place) | ConfigFault::TooMany(place) => {
            with_good_value(alloc, text, place)
        }
        ConfigFault::Missing(place) if place.key == Key::Client => {
            with(alloc, text, text.len(), text.len(), CLIENT)
        }
        ConfigFault::Missing(place) => match good_value(alloc, place)? {
            Some(value) => inserted(alloc, text, place.table, place.key, value.as_str()),
            None => Ok(None),
        },
        ConfigFault::Twice(client) => with_own_name(alloc, text, Table::Client(*client)),
        ConfigFault::TwiceList(list) => with_own_name(alloc, text, Table::List(*list)),
        ConfigFault::TwiceRules(rules) => with_own_name(alloc, text, Table::Rules(*rules)),
        ConfigFault::Syntax | ConfigFault::OutOfMemory => Ok(None),
    }
}
