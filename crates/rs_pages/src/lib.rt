//! The pages of the window: what an operator, Alice-LG and Prometheus are shown of the server.
//!
//! `server_pages` writes a page an item at a time, of what `rs_page_rows` has, and `course` says how it goes on:
//! `routes` are rows of a table, of which `judging` finds those that the rules drop and `counting` those that are
//! preferred, and `reasons` why a member is sent what it is of the `candidates`.
//!
//! The tests stand in `rs_tests`, in `src/pages.rt`.
#![tactic(auto)]

mod candidates;
mod counting;
mod judging;
mod reasons;
mod routes;
pub mod server_pages;
