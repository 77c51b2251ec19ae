//! Formulas that are checked when they are written, and shown later.
ghost use Rattle.std.specs.Prelude.{◌↔◌, IfOk, IsTrue, string_bytes};
ghost use Rattle.latex2mathml.specs.Formulas.{IfRefused};
ghost use Rattle.latex2mathml_uses.specs.{Cached.IsOnlyRendering, Checked.HasRendering};

use latex2mathml::{DisplayStyle, LatexError, latex_to_mathml, laws};
use std::alloc::{AllocError, Global};

/// Returns whether the formula has markup.
pub fn has_markup(alloc: Global, formula: &str, display: DisplayStyle) -> Result<bool, AllocError>
    ensures { IfOk result (λ has. IsTrue has ↔ HasRendering formula.now display) }
{
    laws::one_rendering(formula, display);
    match latex_to_mathml(alloc, formula, display) {
        Ok(_) => Ok(true),
        Err(error) => {
            if error == LatexError::OutOfMemory {
                return Err(AllocError);
            }
            Ok(false)
        }
    }
}

/// Returns the markup of a formula that has some. The formula has no other, and no error is a refusal.
pub fn markup(alloc: Global, formula: &str, display: DisplayStyle) -> Result<String, LatexError>
    requires { HasRendering formula.now display }
    ensures markup { IfOk result (λ markup.
        IsOnlyRendering formula.now display (string_bytes markup)) }
    ensures never_refused { IfRefused result (λ refusal. ⊥) }
{
    laws::one_rendering(formula, display);
    latex_to_mathml(alloc, formula, display)
}
