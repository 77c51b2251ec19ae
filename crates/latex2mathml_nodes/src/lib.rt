//! Nodes: trees of formulas that are made by hand.
//!
//! The crate `latex2mathml` re-exports what its callers need from this one.
#![tactic(auto)]

pub mod ast;
pub mod laws;
