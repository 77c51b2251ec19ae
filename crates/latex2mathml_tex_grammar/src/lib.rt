//! What LaTeX as authors write it means: definitions, and laws of them.
//!
//! No type of the code appears here. The code of `latex2mathml_tex_units`, `latex2mathml_tex_atoms` and
//! `latex2mathml_tex` is proved to meet these definitions.
#![tactic(auto)]

pub mod laws;
