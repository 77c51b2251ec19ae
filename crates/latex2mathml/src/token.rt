//! Tokens of formulas, as refusals name them and the command table lists them.

pub use latex2mathml_tokens::token::Token;
