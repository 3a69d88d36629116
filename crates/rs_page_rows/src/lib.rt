//! What stands on the pages of the window: heads, rows and cells, of what `rs_page_parts` has.
//!
//! `moments` is what the loop of a route server knows beside its tables, with its `counts`. `targets` reads a target
//! to a page, and `queries` what it asks for. `heads` stand before the items in JSON, `attributes` are those of a
//! route, `members` what is known of each, `people` the pages in HTML and `metrics` those for Prometheus. `parts` are
//! put one behind the other, `times` among them.
//!
//! The tests stand in `rs_tests`, in `src/pages.rt`.
#![tactic(auto)]

pub mod attributes;
pub mod counts;
pub mod heads;
pub mod members;
pub mod metrics;
pub mod moments;
mod parts;
pub mod people;
mod queries;
pub mod targets;
mod times;
