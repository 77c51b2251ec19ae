//! What a formula means: how its text is spelled as tokens, and what the grammar reads of them. Definitions and their laws.
//!
//! This crate has no type of the lexer or the parser. The crate `latex2mathml_parser` has the code that is proved to
//! meet these definitions.
#![tactic(auto)]

pub mod laws;
