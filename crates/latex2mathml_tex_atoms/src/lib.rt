//! The atoms of a formula: what they are to their neighbours, and the elements that each construct makes of them.
//!
//! The elements are on the stack of a `Builder`. An atom, an operand or a row says how many of the top elements are its own.
//! The parser, in the crate `latex2mathml_tex`, calls these.
#![tactic(auto)]

pub mod arrows;
pub mod atoms;
pub mod boxes;
pub mod delimiters;
pub mod diagrams;
pub mod fonts;
pub mod fractions;
pub mod heights;
mod operands;
pub mod outlines;
pub mod rests;
pub mod rows;
pub mod shapes;
pub mod signs;
mod spaces;
pub mod widths;
pub mod words;
