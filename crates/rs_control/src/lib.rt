//! What an operator says to the running server: a line in, an object of JSON in a line out. It has no sockets
//! and no clock.
//!
//! `lines` reads a line to what it asks for, `order` is what changes the server, `orders` are those that wait
//! for its loop, `answers` the answers that are no pages, `pages` the targets of those that are, `steps` is
//! what comes of a line, `fronts` what stands in front of what was heard, and `talk` the course of one connection.
#![tactic(auto)]

mod answers;
mod fronts;
pub mod lines;
pub mod order;
pub mod orders;
mod pages;
pub mod steps;
pub mod talk;
