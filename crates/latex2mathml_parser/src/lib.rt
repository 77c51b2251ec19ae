//! One formula, from its text to its markup.
//!
//! The crate `latex2mathml_grammar` defines what each formula means, and has laws about it. The crate `latex2mathml`
//! re-exports what its callers need from this one.
#![tactic(auto)]

ghost use Rattle.std.specs.Prelude.{◌≢◌, ◌≤◌, IfOk, is_ok, length, string_bytes};
ghost use Rattle.std.specs.Str.{chars};
ghost use Rattle.latex2mathml_grammar.specs.{Counts.IsComparisonCount, Counts.IsRefusalCount, Counts.IsTokenCount, Openers.IsFrameCount};
ghost use Rattle.latex2mathml_trees.specs.MathSchema.{IsMathElement};
ghost use Rattle.latex2mathml_tokens.specs.Refusal.{IfRefused, InvalidNumberOfDollarSigns};
ghost use Rattle.latex2mathml_grammar.specs.Rendering.{IsRendering, IsFormulaRefusal};

mod formula;
mod lexer;
mod parse;

pub use formula::Converter;
use latex2mathml_tokens::{DisplayStyle, LatexError};
use parse::Parser;
use std::alloc::Global;

/// Returns the `math` element of a formula.
///
/// A character or a command that has no meaning is not refused: it appears in the markup as
/// `<mtext>[PARSE ERROR: ..]</mtext>`. An `Err` leaves nothing behind. It is one of these:
///
/// - [`LatexError::UnexpectedToken`]: a group is open at the end of the text, or no parenthesis follows a size.
/// - [`LatexError::MissingParensethis`]: no fence follows `\left` or `\right`, or what follows `\middle` does not stretch.
/// - [`LatexError::UnknownEnvironment`]: `\begin` names an environment that does not exist.
/// - [`LatexError::OutOfMemory`]: an allocation failed.
///
/// [`LatexError::InvalidNumberOfDollarSigns`] is never returned: it is a refusal of documents.
///
/// Neither reading nor printing recurses, however deeply the formula is nested: nesting takes memory for a list.
///
/// `x<y`, inline, is
/// `<math xmlns="http://www.w3.org/1998/Math/MathML" display="inline"><mi>x</mi><mo>&lt;</mo><mi>y</mi></math>`.
pub fn latex_to_mathml(
    alloc: Global,
    latex: &str,
    display: DisplayStyle,
) -> Result<String, LatexError>
    ensures rendering { IfOk result (λ markup.
        IsRendering latex.now display (string_bytes markup)) }
    ensures element { IfOk result (λ markup. IsMathElement (string_bytes markup)) }
    ensures refusal { IfRefused result (IsFormulaRefusal latex.now) }
    ensures dollars { IfRefused result (λ refusal. refusal ≢ InvalidNumberOfDollarSigns) }
{
    let (result, _) = latex_to_mathml_counted(alloc, latex, display);
    result
}

/// How many steps a reading took.
#[derive(Debug, Clone, Copy, PartialEq, Eq)]
pub struct Steps {
    /// How many tokens were taken from the text: at most as many as it has bytes.
    pub tokens: u128,
    /// How many names of the command table were compared, for all commands that were taken.
    pub comparisons: u128,
    /// The greatest number of frames that the parser's stack held at once.
    pub frames: u128,
}

/// Returns the `math` element of a formula, as [`latex_to_mathml`] does, and how many steps the reading took. The steps are those
/// up to an `Err`, if there is one.
#[tactic(auto, using(crate::proofs::Accounts::refused, crate::proofs::Accounts::refusal_count))]
pub fn latex_to_mathml_counted(
    alloc: Global,
    latex: &str,
    display: DisplayStyle,
) -> (Result<String, LatexError>, Steps)
    ensures rendering { IfOk result.0 (λ markup.
        IsRendering latex.now display (string_bytes markup)) }
    ensures element { IfOk result.0 (λ markup. IsMathElement (string_bytes markup)) }
    ensures refusal { IfRefused result.0 (IsFormulaRefusal latex.now) }
    ensures dollars { IfRefused result.0 (λ refusal. refusal ≢ InvalidNumberOfDollarSigns) }
    ensures tokens { IsTokenCount (chars latex.now) (is_ok result.0) result.1.tokens }
    ensures refused_within { IfRefused result.0 (IsRefusalCount (chars latex.now) result.1.tokens) }
    ensures length { result.1.tokens ≤ length latex.now }
    ensures comparisons { IsComparisonCount (chars latex.now) result.1.tokens result.1.comparisons }
    ensures frames { IsFrameCount (chars latex.now) result.1.tokens result.1.frames }
{
    let mut parser = Parser::new(alloc, latex);
    let result = formula::math(&mut parser, display);
    (result, parser.steps())
}
