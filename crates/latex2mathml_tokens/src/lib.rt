//! Tokens of formulas, with the command table, the attributes of markup, and refusals.
//!
//! The crate `latex2mathml` re-exports what its callers need from this one.
#![tactic(auto)]

ghost use Rattle.std.specs.Prelude.{Some};

pub mod attribute;
mod error;
pub mod lexeme;
pub mod names;
pub mod token;

pub use error::LatexError;
use std::fmt;

/// How a formula is set: in a block of its own, or in a line of text.
#[derive(Debug, Clone, Copy, PartialEq, Eq)]
pub enum DisplayStyle {
    Block,
    Inline,
}

/// Prints `block` or `inline`, the value of the attribute `display`.
impl fmt::Display for DisplayStyle {
    ghost use Rattle.latex2mathml_tokens.specs.Attributes.{display_text};

    ghost output = { λ display. Some (display_text display) };

    fn fmt<W: fmt::Write>(&self, f: &mut fmt::Formatter<W>) -> fmt::Result {
        f.write_str(match self {
            DisplayStyle::Block => "block",
            DisplayStyle::Inline => "inline",
        })
    }
}
