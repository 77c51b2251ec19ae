//! A proved converter of LaTeX formulas to MathML.
//!
//! - [`latex_to_mathml`] converts one formula to one `math` element.
//! - [`replace`] converts each formula of a document.
//! - [`convert_html`] converts the documents under a path.
//!
//! Every call that may allocate takes the allocator: as its first argument, or after `self`, the runtime or the site. It
//! returns a `Result`, and [`latex_to_mathml_counted`] returns one together with the counts.
#![tactic(auto)]

ghost use Rattle.std.specs.Prelude.{IfOk, string_bytes};
ghost use Rattle.latex2mathml.specs.{Conversions.IsKept, Documents.IsAnswer, Documents.IsRefusal};
ghost use Rattle.latex2mathml_grammar.specs.Dollars.{IsDollarFree};
ghost use Rattle.latex2mathml_tokens.specs.Refusal.{IfRefused};

pub mod ast;
mod document;
mod error;
mod files;
mod input;
pub mod laws;
mod stream;
pub mod token;

pub use error::{FileFault, WriteCause};
pub use files::{Disk, Listing, PathKind, Site, Unconverted, convert_html, convert_site};
pub use input::{Reading, read_document, read_text};
pub use latex2mathml_parser::{Steps, latex_to_mathml, latex_to_mathml_counted};
pub use latex2mathml_tokens::{DisplayStyle, LatexError, attribute};
use std::alloc::Global;
pub use stream::{Sink, Source, Stream, write_document, write_text};

/// Returns the document with each formula replaced by its `math` element.
///
/// A formula is between single dollar signs, such as `$x$`, for a line of text, or between double dollar signs, such as
/// `$$x$$`, for a block of its own. All other text is prose, and is kept byte for byte, except for `\$`.
///
/// A backslash and the next character belong together, so the dollar sign of `\$` neither begins nor ends a formula. In a
/// formula it is the letter `$`, and in prose it becomes `&#x24;`. The result contains no dollar sign. For example, `\$5 $x$`
/// becomes `&#x24;5 ` and the `math` element of `x`.
///
/// # Errors
///
/// - [`LatexError::InvalidNumberOfDollarSigns`] if the other dollar signs do not pair or a formula is empty, whatever the
///   formulas are.
/// - Otherwise the refusal of the first formula that [`latex_to_mathml`] refuses.
/// - [`LatexError::OutOfMemory`] may replace any other result.
pub fn replace(alloc: Global, input: &str) -> Result<String, LatexError>
    ensures answer { IfOk result (λ answer. IsAnswer input.now (string_bytes answer)) }
    ensures refusal { IfRefused result (IsRefusal input.now) }

    // An answer contains no dollar sign, and a document without one is its own answer, unless the call is out of memory.
    ensures dollar_free { IfOk result (λ answer. IsDollarFree (string_bytes answer)) }
    ensures unchanged { IsDollarFree input.now → IsKept input.now result }
{
    laws::renderings();
    document::convert::convert(alloc, input)
}
