//! What the pages of the window are made of, as far as it is proved.
//!
//! All is made of `tables`, a trait that a route server has. `traffic` counts the UPDATEs of each member, and
//! `histogram` how long turns took. `views` number the pages; `keys` are prefixes as numbers, by which a page goes
//! on, `members` those of the configuration, and `texts` are put by all. `rs_page_rows` puts them on pages.
//!
//! The tests stand in `rs_tests`, in `src/pages.rt`.
#![tactic(auto)]

pub mod histogram;
pub mod keys;
pub mod members;
pub mod tables;
pub mod texts;
pub mod traffic;
pub mod views;
