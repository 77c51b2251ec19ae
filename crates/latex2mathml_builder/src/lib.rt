//! Builds elements of MathML and writes them.
//!
//! The elements are those of the definitions in `latex2mathml_elements`. A [`builder::Builder`] holds open elements on a
//! stack: a new element is pushed on it, or is made of those on top.
#![tactic(auto)]

pub mod builder;
mod part;
mod rows;
mod texts;
pub mod works;
mod write;
