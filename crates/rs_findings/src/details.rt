//! The line that says more of a fault: where it is, what stands there, and what is expected.

use crate::files::{Files, Position, Source};
use crate::forms::{form, strangers, uses_others};
use crate::place::{entries_of, found, steps_to, steps_to_key, steps_to_table};
use rs_places::place::spot;
use rs_places::{Spot, Step, value_at};
use rs_policy::{ConfigFault, Key, Place, Table, known_keys};
use std::alloc::{AllocError, Global};
use std::fmt;
use toml::value::Value;

/// How many characters of a value are shown.
const SHOWN: usize = 60;

/// Where octets are no UTF-8: behind so many.
pub fn not_utf_8_line(
    alloc: Global,
    files: &Files<'_>,
    front: usize,
) -> Result<String, AllocError> {
    let at = files.position(front);
    format!(in alloc; "{at}not UTF-8")
}

/// Where a text is no TOML document, and why.
pub fn syntax_line(
    alloc: Global,
    files: &Files<'_>,
    error: &toml::de::Error,
) -> Result<String, AllocError> {
    let Some(span) = error.span() else {
        return Err(AllocError);
    };
    let at = files.position(span.start);
    format!(in alloc; "{at}{}", error.message())
}

/// A text up to the end of its line or another character that a terminal would obey, or to as many as are shown.
#[derive(Drop)]
struct Shown<'a>(&'a str);

impl fmt::Display for Shown<'_> {
    fn fmt<W: fmt::Write>(&self, f: &mut fmt::Formatter<W>) -> fmt::Result {
        for (index, character) in self.0.chars().enumerate() {
            if index == SHOWN || character.is_control() && character != '\t' {
                return f.write_str("..");
            }
            f.write_char(character)?;
        }
        Ok(())
    }
}

/// Keys, a space before each.
#[derive(Drop)]
struct Keys<'a>(&'a [Key]);

impl fmt::Display for Keys<'_> {
    fn fmt<W: fmt::Write>(&self, f: &mut fmt::Formatter<W>) -> fmt::Result {
        for key in self.0 {
            f.write_char(' ')?;
            f.write_str(key.text())?;
        }
        Ok(())
    }
}

/// Where something stands in a text.
fn position_at<'a>(source: &Source<'a>, spot: Option<Spot>) -> Position<'a> {
    match spot {
        None => Position::Unknown,
        Some(spot) => source.files.position(spot.start()),
    }
}

/// Where that stands which the steps lead to.
pub(crate) fn position_of<'a>(
    alloc: Global,
    source: &Source<'a>,
    steps: &[Step<'_>],
) -> Result<Position<'a>, AllocError> {
    let found = found(alloc, source.text, steps)?;
    let spot = spot(alloc, source.text, steps, found)?;
    Ok(position_at(source, spot))
}

/// A value as it stands in the text, if it was found there.
fn standing(text: &str, spot: Option<Spot>) -> Option<&str> {
    match spot? {
        Spot::Value { start, stop, .. } => text.get(start..stop),
        Spot::Header { .. } => None,
    }
}

/// A value, as it is printed; nothing where there is none.
fn printed(alloc: Global, value: Option<&Value>) -> Result<String, AllocError> {
    match value {
        None => Ok(String::new(alloc)),
        Some(value) => format!(in alloc; "{value}"),
    }
}

/// Whether two values are there and the same.
fn is_same(a: Option<&Value>, b: Option<&Value>) -> bool {
    match (a, b) {
        (Some(a), Some(b)) => a == b,
        _ => false,
    }
}

/// Whether two tables have the same values at these keys.
fn agree_at(keys: &[&str], a: &Value, b: &Value) -> bool {
    keys.iter().all(|key| is_same(a.get(*key), b.get(*key)))
}

/// The number of the first table of an array that has the same values at these keys as this one.
fn earlier(tables: &[Value], number: usize, keys: &[&str]) -> Option<usize> {
    let index = number.checked_sub(1)?;
    let own = tables.get(index)?;
    let same = tables.iter().position(|table| agree_at(keys, table, own))?;
    if same < index {
        Some(same.saturating_add(1))
    } else {
        None
    }
}

/// What a table of an array has that an earlier one has too: what such tables are called, the number of that one,
/// and what both have.
fn twice(document: &Value, table: Table) -> Option<(&'static str, usize, &'static str)> {
    let (array, number) = match table {
        Table::Client(number) => ("client", number),
        Table::List(number) => ("list", number),
        Table::Rules(number) => ("rules", number),
        _ => return None,
    };
    let tables = document.get(array)?.as_array()?;
    if let Some(same) = earlier(tables, number, &["name"]) {
        return Some((array, same, "name"));
    }
    let same = earlier(tables, number, &["listen", "peer"])?;
    Some((array, same, "listen and peer"))
}

/// A text, and the document that it was read as.
#[derive(Clone, Copy)]
struct Parsed<'a> {
    source: &'a Source<'a>,
    document: &'a Value,
}

impl<'a> Parsed<'a> {
    /// Where a table stands.
    fn table(&self, alloc: Global, table: Table) -> Result<Position<'a>, AllocError> {
        let steps = steps_to_table(alloc, table)?;
        position_of(alloc, self.source, &steps)
    }

    /// The value that stands at a place, and the form that is expected there.
    fn value_line(&self, alloc: Global, place: &Place) -> Result<String, AllocError> {
        let steps = steps_to(alloc, place)?;
        let found = found(alloc, self.source.text, &steps)?;
        let spot = spot(alloc, self.source.text, &steps, found)?;
        let at = position_at(self.source, spot);
        match standing(self.source.text, spot) {
            Some(text) => expected_line(alloc, at, place, text),
            None => {
                let value = printed(alloc, value_at(self.document, &steps))?;
                expected_line(alloc, at, place, value.as_str())
            }
        }
    }

    /// Where a key of a table stands, or the table where there is no key.
    fn key(
        &self,
        alloc: Global,
        table: Table,
        key: Option<&&str>,
    ) -> Result<Position<'a>, AllocError> {
        match key {
            None => self.table(alloc, table),
            Some(key) => position_of(alloc, self.source, &steps_to_key(alloc, table, key)?),
        }
    }

    /// The keys of a table that it may not have, and those that it may.
    fn unknown_line(&self, alloc: Global, table: Table) -> Result<String, AllocError> {
        let entries = entries_of(alloc, self.document, table)?;
        let strangers = strangers(alloc, table, entries)?;
        let at = self.key(alloc, table, strangers.first())?;
        let known = known_keys(table, uses_others(entries));
        strangers_line(alloc, at, &strangers, known)
    }

    /// What is missing in a table, and its form.
    fn missing_line(&self, alloc: Global, place: &Place) -> Result<String, AllocError> {
        let at = self.table(alloc, place.table)?;
        format!(in alloc; "{at}expected: {} = {}", place.key.text(), form(place))
    }

    /// How many values an array has, and how many it may have.
    fn many_line(&self, alloc: Global, place: &Place) -> Result<String, AllocError> {
        let steps = steps_to(alloc, place)?;
        let at = position_of(alloc, self.source, &steps)?;
        let count = length_of(value_at(self.document, &steps));
        format!(in alloc;
            "{at}{} has {count}; expected: {}",
            place.key.text(),
            form(place)
        )
    }

    /// What a table of an array has that an earlier one has too.
    fn twice_line(&self, alloc: Global, table: Table) -> Result<String, AllocError> {
        let at = self.table(alloc, table)?;
        match twice(self.document, table) {
            Some((array, same, what)) => format!(in alloc;
                "{at}{array} {same} has this {what} too"
            ),
            None => format!(in alloc; "{at}"),
        }
    }
}

/// How many values an array has; none where there is no array.
fn length_of(array: Option<&Value>) -> usize {
    match array {
        Some(Value::Array(values)) => values.len(),
        _ => 0,
    }
}

/// What stands before the value at a place in its line: its key, but for an entry of a list.
fn lead(place: &Place) -> (&'static str, &'static str) {
    match place.table {
        Table::Entry(_, _) => ("", ""),
        _ => (place.key.text(), " = "),
    }
}

/// What stands at a place, and the form that is expected there.
fn expected_line(
    alloc: Global,
    at: Position<'_>,
    place: &Place,
    value: &str,
) -> Result<String, AllocError> {
    let (key, equals) = lead(place);
    format!(in alloc;
        "{at}{key}{equals}{}; expected: {}",
        Shown(value),
        form(place)
    )
}

/// Texts, a space before each.
fn spaced(alloc: Global, texts: &[&str]) -> Result<String, AllocError> {
    let mut line = String::new(alloc);
    for text in texts {
        line.push(' ')?;
        line.push_str(text)?;
    }
    Ok(line)
}

/// The keys that a table may not have, and those that it may.
fn strangers_line(
    alloc: Global,
    at: Position<'_>,
    strangers: &[&str],
    known: &[Key],
) -> Result<String, AllocError> {
    let unknown = spaced(alloc, strangers)?;
    format!(in alloc;
        "{at}not known here:{}; known:{}",
        Shown(unknown.as_str()),
        Keys(known)
    )
}

/// The line about a fault of a text that is a document.
pub fn line_about(
    alloc: Global,
    source: &Source<'_>,
    document: &Value,
    fault: &ConfigFault,
) -> Result<String, AllocError> {
    let parsed = Parsed { source, document };
    match fault {
        ConfigFault::BadValue(place) if place.key == Key::Other => {
            parsed.unknown_line(alloc, place.table)
        }
        ConfigFault::BadValue(place) => parsed.value_line(alloc, place),
        ConfigFault::Missing(place) => parsed.missing_line(alloc, place),
        ConfigFault::TooMany(place) => parsed.many_line(alloc, place),
        ConfigFault::Twice(client) => parsed.twice_line(alloc, Table::Client(*client)),
        ConfigFault::TwiceList(list) => parsed.twice_line(alloc, Table::List(*list)),
        ConfigFault::TwiceRules(rules) => parsed.twice_line(alloc, Table::Rules(*rules)),
        ConfigFault::Syntax | ConfigFault::OutOfMemory => Ok(String::new(alloc)),
    }
}
