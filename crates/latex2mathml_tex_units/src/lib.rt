//! What a formula is made of, before anything is read: the units of its text, what macros make of them, delimiters and
//! environments, and what takes names, columns and lengths from units.
//!
//! The crate `latex2mathml_tex` reads formulas by these, and re-exports what its callers need.
#![tactic(auto)]

pub mod braces;
mod columns;
pub mod delimiters;
pub mod dots;
pub mod environments;
pub mod error;
pub mod input;
pub mod lexer;
pub mod ligatures;
pub mod macros;
pub mod passing;
pub mod position;
pub mod repetitions;
mod row_lines;
pub mod scanning;
pub mod unit;
