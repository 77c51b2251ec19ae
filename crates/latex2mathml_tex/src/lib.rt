//! LaTeX as authors write it, turned into MathML.
//!
//! - [`tex_to_mathml`] converts a formula to a `math` element.
//! - [`tex_to_mathml_with_source`] also includes the text of the formula.
//! - [`Macros`] are the macros that a formula may use.
//! - [`Converter`] converts one formula after another, and reuses its memory.
//! - [`TexError`] says why a formula is refused, and where.
//!
//! The crate `latex2mathml_tex_grammar` defines what each formula means, and states laws about that.
#![tactic(auto)]

mod annotation;
mod convert;
mod parse;

pub use convert::{Converter, tex_to_mathml, tex_to_mathml_with_source};
pub use latex2mathml_tex_units::error::{TexError, TexErrorKind};
pub use latex2mathml_tex_units::macros::table::Macros;
pub use latex2mathml_tex_units::position::Position;
pub use latex2mathml_tokens::DisplayStyle;
