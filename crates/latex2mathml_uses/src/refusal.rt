//! Refusals, and what an author has to correct.
ghost use Rattle.std.specs.Prelude.{◌≡◌, ◌≢◌, ◌↔◌, Some, ℕ, List, IfOk, MatchOption};
ghost use Rattle.latex2mathml.specs.Documents.{HasNoCut, IsAnswer, IsRefusal};
ghost use Rattle.latex2mathml.specs.Formulas.{Refusal, IsFormulaRefusal, IsRendering, Inline};
ghost use Rattle.latex2mathml_uses.specs.{Mistakes.mistake_of, declared.refusal.Mistake.TheVariants.Dollars};

use latex2mathml::{DisplayStyle, LatexError, latex_to_mathml, laws, replace};
use std::alloc::{AllocError, Global};

/// What an author has to correct.
#[derive(Debug, Clone, Copy, PartialEq, Eq)]
pub enum Mistake {
    /// A group that is not closed, or a size without a parenthesis.
    Unfinished,
    /// A missing fence, or a missing operator to stretch.
    Fence,
    /// An unknown environment.
    Environment,
    /// Dollar signs that do not pair.
    Dollars,
}

/// Returns the mistake in a formula, or `None` if the formula has markup. It is never [`Mistake::Dollars`]. The only error is
/// out of memory.
pub fn in_formula(alloc: Global, formula: &str) -> Result<Option<Mistake>, AllocError>
    ensures told { IfOk result (λ found. MatchOption found
        ((markup : List ℕ) × IsRendering formula.now Inline markup)
        (λ mistake. (refusal : Refusal) × IsFormulaRefusal formula.now refusal
        × (mistake ≡ mistake_of refusal))) }
    ensures never { IfOk result (λ found. found ≢ Some Dollars) }
{
    match latex_to_mathml(alloc, formula, DisplayStyle::Inline) {
        Ok(_) => Ok(None),
        Err(LatexError::UnexpectedToken { .. }) => Ok(Some(Mistake::Unfinished)),
        Err(LatexError::MissingParensethis { .. }) => Ok(Some(Mistake::Fence)),
        Err(LatexError::UnknownEnvironment(_)) => Ok(Some(Mistake::Environment)),
        Err(LatexError::InvalidNumberOfDollarSigns) => unreachable!(),
        Err(LatexError::OutOfMemory) => Err(AllocError),
    }
}

/// Returns the first mistake in a document, or `None` if the document has an answer. It is [`Mistake::Dollars`] exactly if the
/// document cannot be cut into prose and formulas. The only error is out of memory.
pub fn in_document(alloc: Global, document: &str) -> Result<Option<Mistake>, AllocError>
    ensures told { IfOk result (λ found. MatchOption found
        ((answer : List ℕ) × IsAnswer document.now answer)
        (λ mistake. (refusal : Refusal) × IsRefusal document.now refusal
        × (mistake ≡ mistake_of refusal))) }
    ensures dollars { IfOk result (λ found. (found ≡ Some Dollars) ↔ HasNoCut document.now) }
{
    laws::answers();
    match replace(alloc, document) {
        Ok(_) => Ok(None),
        Err(LatexError::UnexpectedToken { .. }) => Ok(Some(Mistake::Unfinished)),
        Err(LatexError::MissingParensethis { .. }) => Ok(Some(Mistake::Fence)),
        Err(LatexError::UnknownEnvironment(_)) => Ok(Some(Mistake::Environment)),
        Err(LatexError::InvalidNumberOfDollarSigns) => Ok(Some(Mistake::Dollars)),
        Err(LatexError::OutOfMemory) => Err(AllocError),
    }
}
