//! A bound on the cost of reading a formula, known before it is read.
ghost use Rattle.std.specs.Prelude.{◌<◌, ◌≤◌, IfOk, IfSome, MatchOption, length, string_bytes};
ghost use Rattle.latex2mathml.specs.Formulas.{IsRendering};
ghost use Rattle.latex2mathml_uses.specs.Budgets.{IsWithin};

use latex2mathml::{DisplayStyle, LatexError, Steps, latex_to_mathml_counted};
use std::alloc::Global;

/// Converts a formula of at most `most` bytes, and returns the result and the steps that it took, or `None` if the formula is
/// longer. It takes at most `most` tokens, has at most `most` frames at once, and compares at most nine times as many names.
pub fn convert(
    alloc: Global,
    formula: &str,
    display: DisplayStyle,
    most: usize,
) -> Option<(Result<String, LatexError>, Steps)>
    ensures rendering { IfSome result (λ done. IfOk done.0 (λ markup.
        IsRendering formula.now display (string_bytes markup))) }
    ensures steps { IfSome result (λ done. IsWithin most done.1) }
    ensures limit { MatchOption result (most < length formula.now)
        (λ _. length formula.now ≤ most) }
{
    if formula.len() > most {
        return None;
    }
    Some(latex_to_mathml_counted(alloc, formula, display))
}
