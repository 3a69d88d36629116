//! The configuration of a route server and the rules by which it passes routes on.
//!
//! The text of a configuration comes in, and out go its settings, or the first fault with its
//! place. A route and the two clients that it is between come in, and out goes the verdict of the
//! rules: the route is dropped, or is passed with a preference and without some communities; and to
//! whoever asks, which rules decided.
//!
//! - `config` and its folder read a text: `top` the keys at its top, `clients` and `policies` its
//!   tables, `rule_tables` the rules, `named_lists` the lists, which are searched as `indexed` has them, all by `arrays`,
//!   `values` and `texts`; `replacing` says which configuration can take the place of one that is in use.
//! - `rules` are rules as values; of `rules/` `matching` says which routes a rule matches, `verdict` what
//!   becomes of a route, `noting` keeps the import list's part of it as a number, and `reasons` says which
//!   rules decided; `alike` says of which clients and of which routes the same becomes, `receivers` where it may
//!   count who is sent a route, and `asked` which communities an export list asks for.
//! - `faults` says what can be wrong and where, and writes it in words; `faults/line` is such a
//!   line; `keys` are those that each table may have.
//! - `laws` are contracts of functions that do nothing.
#![tactic(auto)]

mod config;
mod faults;
mod keys;
pub mod laws;
mod rules;

pub use config::Config;
pub use faults::{ConfigFault, Key, List, Place, RulesFault, Table};
pub use keys::{is_known, known_keys};
pub use rules::alike::{judges_alike, judges_prefixes_alike};
pub use rules::asked::asked_by_exports;
pub use rules::noting::{import_note, is_plain_note, judge_noted};
pub use rules::reasons::{Decider, Reasons, reasons_for};
pub use rules::receivers::{asked_of_receivers, may_ask_receiver};
pub use rules::verdict::{Fate, Verdict, judge};
