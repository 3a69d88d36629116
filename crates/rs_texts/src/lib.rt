//! Texts of several files, which are joined to one text of a configuration: in their order, each on lines
//! of its own. One text is joined to itself.
//!
//! `text` is what can be joined, `joined` joins it and says in which text a place of the whole lies, and
//! `laws` are contracts of functions that do nothing.
#![tactic(auto)]

mod joined;
mod laws;
mod text;

pub use joined::{JoinFault, Joined, MOST_TEXTS, join};
pub use laws::{ended_lines_follow, one_text_is_itself};
pub use text::{MOST, Text, end_lines, read_on};
