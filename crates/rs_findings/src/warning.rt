//! What is good in a configuration but likely wrong, and the line that tells it.

use crate::details::position_of;
use crate::files::Source;
use crate::place::{steps_to, steps_to_table};
use rs_places::Step;
use rs_policy::{Key, List, Place, Table};
use std::alloc::{AllocError, Global};
use std::fmt;

/// Something that is good but likely wrong. Tables are counted from 1.
#[derive(Clone, Copy)]
pub enum Warning {
    MultiprotocolOff,
    NoImportRules(usize),
    /// A rule of a list of rules, of a client or of the rules of this number, behind one that matches every route.
    Unreached(usize, List, usize),
    Unused(usize),
    UnusedRules(usize),
}

/// What has a list of rules, and how that is named there.
fn list_texts(list: List) -> (&'static str, &'static str) {
    match list {
        List::Import => ("client", "import"),
        List::Export => ("client", "export"),
        List::Shared => ("rules", "rules"),
    }
}

/// Writes what is to say of the table or the rule that has this number.
fn write_of<W: fmt::Write>(
    f: &mut fmt::Formatter<W>,
    what: &str,
    number: usize,
    text: &str,
) -> fmt::Result {
    write!(f, "{what} {number} {text}")
}

impl fmt::Display for Warning {
    fn fmt<W: fmt::Write>(&self, f: &mut fmt::Formatter<W>) -> fmt::Result {
        match self {
            Warning::MultiprotocolOff => {
                f.write_str("multiprotocol is off, and BIRD and OpenBGPD need it")
            }
            Warning::NoImportRules(client) => {
                write_of(f, "client", *client, "has no import rules")
            }
            Warning::Unreached(number, list, rule) => {
                let (owner, list) = list_texts(*list);
                write!(f, "{owner} {number} ")?;
                let why = "is never reached: a rule before it matches every route";
                write_of(f, list, *rule, why)
            }
            Warning::Unused(list) => write_of(f, "list", *list, "is named by no rule"),
            Warning::UnusedRules(rules) => write_of(f, "rules", *rules, "are used by no client"),
        }
    }
}

impl Warning {
    /// The steps to what it is about.
    fn steps<'a>(&self, alloc: Global) -> Result<Vec<Step<'a>>, AllocError> {
        match self {
            Warning::MultiprotocolOff => steps_to(
                alloc,
                &Place {
                    table: Table::Top,
                    key: Key::Multiprotocol,
                },
            ),
            Warning::NoImportRules(client) => steps_to_table(alloc, Table::Client(*client)),
            Warning::Unreached(number, list, rule) => {
                steps_to_table(alloc, Table::Rule(*number, *list, *rule))
            }
            Warning::Unused(list) => steps_to_table(alloc, Table::List(*list)),
            Warning::UnusedRules(rules) => steps_to_table(alloc, Table::Rules(*rules)),
        }
    }

    /// The line that tells it.
    pub fn line(&self, alloc: Global, source: &Source<'_>) -> Result<String, AllocError> {
        let steps = self.steps(alloc)?;
        let at = position_of(alloc, source, &steps)?;
        format!(in alloc; "warning: {at}{self}")
    }
}
