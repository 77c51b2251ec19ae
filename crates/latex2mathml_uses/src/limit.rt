//! A limit on the size of formulas.
ghost use Rattle.std.specs.Prelude.{ℕ, ◌<◌, ◌≤◌, IfOk, IfSome, MatchOption, string_bytes};
ghost use Rattle.latex2mathml.specs.Formulas.{IfRefused, IsFormulaRefusal, IsRendering};
ghost use Rattle.latex2mathml_uses.specs.Limited.{HasTokenCount};

use latex2mathml::{DisplayStyle, LatexError, latex_to_mathml_counted};
use std::alloc::Global;

/// Returns the markup of a formula of at most `most` tokens, or `None` if the formula has more. An error is the refusal of the
/// formula, or out of memory.
pub fn convert(
    alloc: Global,
    formula: &str,
    display: DisplayStyle,
    most: u128,
) -> Result<Option<String>, LatexError>
    ensures rendering { IfOk result (λ taken. IfSome taken (λ markup.
        IsRendering formula.now display (string_bytes markup))) }

    // There is markup exactly if the formula has at most `most` tokens.
    ensures limit { IfOk result (λ taken. (count : ℕ) × HasTokenCount formula.now count
        × MatchOption taken (most < count) (λ _. count ≤ most)) }
    ensures refusal { IfRefused result (IsFormulaRefusal formula.now) }
{
    let (answer, steps) = latex_to_mathml_counted(alloc, formula, display);
    let markup = answer?;
    if steps.tokens > most {
        return Ok(None);
    }
    Ok(Some(markup))
}
