//! Where a value of a document stands in its text. The text was read as a document before, so what
//! isn't found here is spelt in another way than configurations are.

use rs_places::{Spot, Step};
use std::alloc::{AllocError, AllocFailed, Global};
use toml_parser::text::{byte_at, first, skip, skip_blank, skip_ws};
use toml_parser::{Key, ParseError, dotted_key, quoted, starts_string, unquoted};

/// Why nothing is found.
#[derive(Clone, Copy)]
pub(crate) enum Lost {
    Memory,
    Nowhere,
}

impl From<ParseError> for Lost {
    fn from(error: ParseError) -> Lost {
        match error {
            ParseError::OutOfMemory => Lost::Memory,
            ParseError::At(_, _, _) => Lost::Nowhere,
        }
    }
}

impl From<AllocError> for Lost {
    fn from(_error: AllocError) -> Lost {
        Lost::Memory
    }
}

impl<T: Drop> From<AllocFailed<T>> for Lost {
    fn from(_error: AllocFailed<T>) -> Lost {
        Lost::Memory
    }
}

/// What was found, if anything.
pub(crate) fn if_there<T: Drop>(found: Result<T, Lost>) -> Result<Option<T>, AllocError> {
    match found {
        Ok(it) => Ok(Some(it)),
        Err(Lost::Nowhere) => Ok(None),
        Err(Lost::Memory) => Err(AllocError),
    }
}

/// What follows an ASCII character.
fn behind_octet(s: &str) -> Result<&str, Lost> {
    match first(s) {
        0 | 128.. => Err(Lost::Nowhere),
        _ => Ok(skip(s, 1)),
    }
}

/// What follows the text in quotation marks that begins here; None where none does.
fn behind_string<'t>(alloc: Global, s: &'t str) -> Result<Option<&'t str>, Lost> {
    if !starts_string(s) {
        return Ok(None);
    }
    let (_, rest) = quoted(alloc, s)?;
    Ok(Some(rest))
}

/// What follows a value that has neither quotation marks nor brackets.
fn behind_word<'t>(alloc: Global, s: &'t str) -> Result<&'t str, Lost> {
    let (_, rest) = unquoted(alloc, s)?;
    Ok(rest)
}

/// What follows the bracket that closes the first one.
fn behind_brackets<'t>(alloc: Global, s: &'t str) -> Result<&'t str, Lost> {
    let mut rest = s;
    let mut open: usize = 0;
    for _ in 0..s.len() {
        let start = skip_blank(rest, true);
        if let Some(behind) = behind_string(alloc, start)? {
            rest = behind;
            continue;
        }
        open = match first(start) {
            b'[' | b'{' => open.saturating_add(1),
            b']' | b'}' => open.saturating_sub(1),
            _ => open,
        };
        rest = behind_octet(start)?;
        if open == 0 {
            return Ok(rest);
        }
    }
    Err(Lost::Nowhere)
}

/// What follows a value.
fn behind_value<'t>(alloc: Global, s: &'t str) -> Result<&'t str, Lost> {
    if let Some(rest) = behind_string(alloc, s)? {
        return Ok(rest);
    }
    match first(s) {
        b'[' | b'{' => behind_brackets(alloc, s),
        _ => behind_word(alloc, s),
    }
}

/// What follows a value of several and the comma behind it.
fn behind_item<'t>(alloc: Global, s: &'t str) -> Result<&'t str, Lost> {
    let rest = skip_blank(behind_value(alloc, s)?, true);
    if first(rest) == b',' {
        behind_octet(rest)
    } else {
        Err(Lost::Nowhere)
    }
}

/// Whether the key of a pair is this one, without a dot; and the text from its value on.
fn value_of<'t>(alloc: Global, s: &'t str, wanted: Option<&str>) -> Result<(bool, &'t str), Lost> {
    let (key, rest) = dotted_key(alloc, s)?;
    if first(rest) != b'=' {
        return Err(Lost::Nowhere);
    }
    let is_wanted = key.path.is_empty() && wanted == Some(key.last.as_str());
    Ok((is_wanted, skip_ws(behind_octet(rest)?)))
}

/// What follows a pair of a key and a value.
pub(crate) fn behind_pair<'t>(alloc: Global, s: &'t str) -> Result<&'t str, Lost> {
    let (_, value) = value_of(alloc, s, None)?;
    behind_value(alloc, value)
}

/// A value of an array, counted from 0: the text from it on.
fn item<'t>(alloc: Global, s: &'t str, number: usize) -> Result<&'t str, Lost> {
    let mut rest = behind_octet(s)?;
    for _ in 0..number {
        rest = behind_item(alloc, skip_blank(rest, true))?;
    }
    let value = skip_blank(rest, true);
    if first(value) == b']' {
        return Err(Lost::Nowhere);
    }
    Ok(value)
}

/// The value at a key of an inline table: the text from the key on, and from the value on.
fn member<'t>(alloc: Global, s: &'t str, wanted: &str) -> Result<(&'t str, &'t str), Lost> {
    let mut rest = behind_octet(s)?;
    for _ in 0..s.len() {
        let start = skip_blank(rest, true);
        let (is_wanted, value) = value_of(alloc, start, Some(wanted))?;
        if is_wanted {
            return Ok((start, value));
        }
        rest = behind_item(alloc, value)?;
    }
    Err(Lost::Nowhere)
}

/// Where the value stands in a text that the steps lead to from a pair of a key and a value.
fn within(alloc: Global, text: &str, pair: (&str, &str), steps: &[Step<'_>]) -> Result<Spot, Lost> {
    let mut at = pair;
    for step in steps {
        at = match (step, first(at.1)) {
            (Step::Item(number), b'[') => {
                let value = item(alloc, at.1, *number)?;
                (value, value)
            }
            (Step::Key(key), b'{') => member(alloc, at.1, key)?,
            _ => return Err(Lost::Nowhere),
        };
    }
    Ok(Spot::Value {
        key: before(text, at.0),
        start: before(text, at.1),
        stop: before(text, behind_value(alloc, at.1)?),
    })
}

/// The section of a document that a text is in, beside the steps to a value: a key and a number in turn.
#[derive(Clone, Copy)]
struct Section {
    /// How many of the steps lead to the section; None where it lies aside.
    made: Option<usize>,
    /// How many headers of the arrays on the way were seen.
    seen: [usize; 2],
}

impl Section {
    /// Counts a header of the array that so many steps lead to, and forgets those of the arrays in it.
    fn count(&mut self, made: usize) {
        let [outer, inner] = self.seen;
        self.seen = if made < 2 {
            [outer.saturating_add(1), 0]
        } else {
            [outer, inner.saturating_add(1)]
        };
    }

    /// Goes on by a part of a header's key; a header of an array adds a table where it ends.
    fn go_on(&mut self, steps: &[Step<'_>], part: &str, adds: bool) {
        let Some(made) = self.made else {
            return;
        };
        self.made = None;
        match steps.get(made) {
            Some(Step::Key(key)) if *key == part => {}
            _ => return,
        }
        let Some(Step::Item(number)) = steps.get(made.saturating_add(1)) else {
            self.made = Some(made.saturating_add(1));
            return;
        };
        if adds {
            self.count(made);
        }
        let [outer, inner] = self.seen;
        let seen = if made < 2 { outer } else { inner };
        if seen == number.saturating_add(1) {
            self.made = Some(made.saturating_add(2));
        }
    }

    /// Goes into the section of a header with this key.
    fn follow(&mut self, steps: &[Step<'_>], key: &Key, is_array: bool) {
        self.made = Some(0);
        for part in &key.path {
            self.go_on(steps, part.as_str(), false);
        }
        self.go_on(steps, key.last.as_str(), is_array);
    }

    /// Goes into the section of the header at the front of a text, and answers what follows it.
    fn enter<'t>(
        &mut self,
        alloc: Global,
        s: &'t str,
        steps: &[Step<'_>],
    ) -> Result<&'t str, Lost> {
        let is_array = byte_at(s, 1) == b'[';
        let (key, rest) = dotted_key(alloc, skip_ws(behind_bracket(s, is_array)?))?;
        self.follow(steps, &key, is_array);
        behind_bracket(rest, is_array)
    }

    /// The key that a pair in it has, if the steps go on by it.
    fn key<'a>(&self, steps: &[Step<'a>]) -> Option<&'a str> {
        match steps.get(self.made?)? {
            Step::Key(key) => Some(key),
            Step::Item(_) => None,
        }
    }

    /// The steps behind that key.
    fn left<'a>(&self, steps: &'a [Step<'a>]) -> &'a [Step<'a>] {
        let made = self.made.unwrap_or(0);
        steps.get(made.saturating_add(1)..).unwrap_or(&[])
    }
}

/// What follows the bracket of a header, or both of an array's.
fn behind_bracket(s: &str, is_array: bool) -> Result<&str, Lost> {
    let rest = behind_octet(s)?;
    if is_array {
        behind_octet(rest)
    } else {
        Ok(rest)
    }
}

/// What follows the header at the front of a text.
pub(crate) fn behind_header<'t>(alloc: Global, s: &'t str) -> Result<&'t str, Lost> {
    let mut section = Section {
        made: None,
        seen: [0, 0],
    };
    section.enter(alloc, s, &[])
}

/// How many octets of a text stand before its end.
fn before(text: &str, end: &str) -> usize {
    text.len().saturating_sub(end.len())
}

/// Where the value that some steps lead to stands in a text.
pub(crate) fn find(alloc: Global, text: &str, steps: &[Step<'_>]) -> Result<Spot, Lost> {
    let mut section = Section {
        made: Some(0),
        seen: [0, 0],
    };
    let mut rest = text.strip_prefix('\u{feff}').unwrap_or(text);
    for _ in 0..text.len() {
        let start = skip_blank(rest, true);
        if first(start) == b'[' {
            rest = section.enter(alloc, start, steps)?;
            if section.made == Some(steps.len()) {
                return Ok(Spot::Header {
                    start: before(text, start),
                    stop: before(text, rest),
                });
            }
            continue;
        }
        let (is_wanted, value) = value_of(alloc, start, section.key(steps))?;
        if is_wanted {
            return within(alloc, text, (start, value), section.left(steps));
        }
        rest = behind_value(alloc, value)?;
    }
    Err(Lost::Nowhere)
}
