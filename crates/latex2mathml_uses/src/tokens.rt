//! How many tokens a formula has.
ghost use Rattle.std.specs.Prelude.{◌≡◌, List, None, IfOk, length};
ghost use Rattle.std.specs.Str.{chars};
ghost use Rattle.latex2mathml.specs.{Formulas.IfRefused, Grammar.Refuses, Spelling.HasTokens, Tok.Tok};
ghost use Rattle.latex2mathml_uses.specs.Read.{IsRead};

use latex2mathml::{DisplayStyle, LatexError, latex_to_mathml_counted, laws};
use std::alloc::Global;

/// Returns how many tokens a readable formula has. A formula has only one list of tokens, so the number, the reading and the
/// refusal are those of every such list.
pub fn count(alloc: Global, formula: &str) -> Result<u128, LatexError>
    ensures read { IfOk result (λ count. (ts : List Tok) → HasTokens None (chars formula.now) ts
        → IsRead ts × (count ≡ length ts)) }
    ensures refused { IfRefused result (λ refusal. (ts : List Tok)
        → HasTokens None (chars formula.now) ts → Refuses ts refusal) }
{
    laws::one_reading(formula);
    let (answer, steps) = latex_to_mathml_counted(alloc, formula, DisplayStyle::Inline);
    answer?;
    Ok(steps.tokens)
}
