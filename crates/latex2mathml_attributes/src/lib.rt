//! Names and attributes of elements, and the text of each in markup.
//!
//! They are those of the definitions in `latex2mathml_elements`. The crate `latex2mathml_builder` makes elements with them.
#![tactic(auto)]

pub mod around;
pub mod attributes;
pub mod columns;
pub mod extent;
pub mod line;
pub mod listed;
pub mod tag;
