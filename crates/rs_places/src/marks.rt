//! Whether the steps to a value lead to what stands somewhere in a text: a mark is put there, and the text
//! read again.

ghost use Rattle.std.specs.Prelude.{◌≡◌, true, string_bytes, option_map, IfOk, IfSome};
ghost use Rattle.toml.specs.Data.{table};
ghost use Rattle.toml.specs.Parse.{parse_document};
ghost use Rattle.toml.specs.View.{view};
ghost use Rattle.rs_places.specs.Positions.{data_in, has_mark, is_mark, mark, mark_pair, stands_at, with};

use crate::steps::{Step, value_at};
use std::alloc::{AllocError, Global};
use toml::value::Value;

/// What is put in the place of a value, and the pair that is put in a table, to see whether they are there.
const MARK: &str = "\"?\"";

const MARK_PAIR: &str = "\n\"?\" = \"?\"\n";

/// Where something stands in a text. All are numbers of octets before it.
#[derive(Clone, Copy)]
pub enum Spot {
    /// A value and its key. A value of an array has no key, and `key` is where it begins.
    Value {
        key: usize,
        start: usize,
        stop: usize,
    },
    /// The header of a table.
    Header {
        start: usize,
        stop: usize,
    },
}

impl Spot {
    /// Where it begins: a value behind its key.
    pub fn start(&self) -> usize {
        match self {
            Spot::Value { start, .. } | Spot::Header { start, .. } => *start,
        }
    }
}

/// A text with another in place of some octets; None where they aren't whole characters.
pub fn with(
    alloc: Global,
    text: &str,
    start: usize,
    stop: usize,
    new: &str,
) -> Result<Option<String>, AllocError>
    ensures { IfOk result (λ o. IfSome o (λ s. string_bytes s ≡ with text.now start stop new.now)) }
{
    let Some((front, _)) = text.split_at_checked(start) else {
        return Ok(None);
    };
    let Some((_, back)) = text.split_at_checked(stop) else {
        return Ok(None);
    };
    let mut other = String::from_str(alloc, front)?;
    other.push_str(new)?;
    other.push_str(back)?;
    Ok(Some(other))
}

/// Whether a value is the mark.
fn is_mark(value: Option<&Value>) -> bool
    ensures { result ≡ is_mark (option_map (λ v. view v.now) value.entry) }
{
    match value {
        None => false,
        Some(value) => match value.as_str() {
            None => false,
            Some(text) => text == "?",
        },
    }
}

/// Whether a value is a table in which the pair of the mark is.
fn has_mark(value: Option<&Value>) -> bool
    ensures { result ≡ has_mark (option_map (λ v. view v.now) value.entry) }
{
    match value {
        None => false,
        Some(value) => is_mark(value.get("?")),
    }
}

/// The document of a text, if it is one.
pub fn document_of(alloc: Global, text: &str) -> Result<Option<Value>, AllocError>
    ensures { IfOk result (λ o. option_map view o ≡ option_map table (parse_document text.now)) }
{
    match toml::table_from_str(alloc, text) {
        Ok(document) => Ok(Some(Value::Table(document))),
        Err(error) if error.is_memory() => Err(AllocError),
        Err(_) => Ok(None),
    }
}

/// Whether the mark that is put in the place of some octets is what the steps lead to.
fn is_value(
    alloc: Global,
    text: &str,
    steps: &[Step<'_>],
    start: usize,
    stop: usize,
) -> Result<bool, AllocError>
    ensures { IfOk result (λ b. b ≡ true → is_mark (data_in steps.now (with text.now start stop mark)) ≡ true) }
{
    let Some(other) = with(alloc, text, start, stop, MARK)? else {
        return Ok(false);
    };
    match document_of(alloc, other.as_str())? {
        None => Ok(false),
        Some(document) => Ok(is_mark(value_at(&document, steps))),
    }
}

/// Whether a pair that is put behind so many octets is in the table that the steps lead to. None where it
/// can't be put there.
fn is_within(
    alloc: Global,
    text: &str,
    steps: &[Step<'_>],
    front: usize,
) -> Result<Option<bool>, AllocError>
    ensures { IfOk result (λ o. IfSome o (λ b. b ≡ has_mark (data_in steps.now (with text.now front front mark_pair)))) }
{
    let Some(other) = with(alloc, text, front, front, MARK_PAIR)? else {
        return Ok(None);
    };
    match document_of(alloc, other.as_str())? {
        None => Ok(Some(false)),
        Some(document) => Ok(Some(has_mark(value_at(&document, steps)))),
    }
}

/// Whether the steps lead to the header between these places.
fn is_header(
    alloc: Global,
    text: &str,
    steps: &[Step<'_>],
    start: usize,
    stop: usize,
) -> Result<bool, AllocError>
    ensures { IfOk result (λ b. b ≡ true → stands_at text.now steps.now (Spot.Header start stop) ≡ true) }
{
    let is_behind = matches!(is_within(alloc, text, steps, stop)?, Some(true));
    Ok(is_behind && matches!(is_within(alloc, text, steps, start)?, Some(false)))
}

/// Whether the steps lead to what stands there.
fn is_there(alloc: Global, text: &str, steps: &[Step<'_>], spot: Spot) -> Result<bool, AllocError>
    ensures { IfOk result (λ b. b ≡ true → stands_at text.now steps.now spot ≡ true) }
{
    match spot {
        Spot::Value { start, stop, .. } => is_value(alloc, text, steps, start, stop),
        Spot::Header { start, stop } => is_header(alloc, text, steps, start, stop),
    }
}

/// What was found, where the steps lead to it; else None.
pub fn tried(
    alloc: Global,
    text: &str,
    steps: &[Step<'_>],
    spot: Spot,
) -> Result<Option<Spot>, AllocError>
    ensures { IfOk result (λ o. IfSome o (λ s. stands_at text.now steps.now s ≡ true)) }
{
    let is_there = is_there(alloc, text, steps, spot)?;
    if is_there { Ok(Some(spot)) } else { Ok(None) }
}
