//! The tables of LaTeX as authors write it: what commands, signs, colors and lengths mean, and the letters of alphabets.
//!
//! The crate `latex2mathml_tex_units` has everything else that comes before the parser.
#![tactic(auto)]

pub mod alphabets;
pub mod colors;
pub mod commands;
pub mod diagrams;
pub mod lengths;
pub mod meaning;
pub mod named;
pub mod operands;
pub mod signs;
pub mod splitting;
pub mod text_commands;
