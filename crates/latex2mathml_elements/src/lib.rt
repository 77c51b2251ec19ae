//! Elements of MathML and how they are written: only definitions, and their laws.
//!
//! No code here makes an element: see `latex2mathml_builder`.
#![tactic(auto)]

pub mod laws;
