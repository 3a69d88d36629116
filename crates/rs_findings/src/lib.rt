//! What is found in the files of a configuration: the line about a fault or a warning, and the text with a
//! fault mended.
//!
//! `files` knows in which file a place of the text lies that they are together, and `strays` what belongs to
//! a table of the file before its own. `find` looks for a value in the text of a document, and `place` for the
//! one at a place of a configuration. `forms` has the keys and the forms of their values, `details` the line about
//! a fault, before which `rs_places` tries what was found, `warning` the one about what is good but likely
//! wrong, `mending` the text without a fault, and `news` says which faults come of others.
//!
//! The tests are those of `rs_check`.
#![tactic(auto)]

mod details;
mod files;
mod find;
mod forms;
mod mending;
mod news;
mod place;
mod strays;
mod warning;

pub use details::{line_about, not_utf_8_line, syntax_line};
pub use files::{Files, Source};
pub use mending::mended;
pub use news::is_new;
pub use strays::{stray_line, strays_of};
pub use warning::Warning;
