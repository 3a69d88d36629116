//! Where the values of a document stand in its text, as far as that is proved: whoever looks for one has
//! what was found tried here.
//!
//! `steps` leads to a value of a document, `marks` tries whether the steps to it lead to what stands somewhere
//! in the text, by which `place` says where it stands, and `lines` counts lines and columns. It knows no configuration.
#![tactic(auto)]

mod lines;
mod marks;
pub mod place;
mod steps;

pub use lines::line_and_column;
pub use marks::{Spot, document_of, tried, with};
pub use steps::{Step, value_at};
