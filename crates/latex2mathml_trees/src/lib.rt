//! The trees of formulas, the writers of the texts in their markup, and laws of widths and markup.
//!
//! The trees are only definitions. No code here makes one: see `latex2mathml_nodes` for trees made by hand, and
//! `latex2mathml_parts` for those of formulas.
#![tactic(auto)]

pub mod append;
pub mod laws;
pub mod text;
pub mod width;
