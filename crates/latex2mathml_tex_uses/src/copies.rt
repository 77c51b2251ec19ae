//! Formulas that readers copy.
ghost use Rattle.std.specs.Prelude.{IfOk, string_bytes};
ghost use Rattle.latex2mathml_elements.specs.Characters.{IsAllowed};
ghost use Rattle.latex2mathml_tex_units.specs.Errors.{IfRefused};
ghost use Rattle.latex2mathml_tex.specs.Answers.{IsAnswerWithSource, IsRefusal, style_in};
ghost use Rattle.latex2mathml_tex_grammar.specs.UsualMacros.{usual_macros};

use latex2mathml_tex::{DisplayStyle, Macros, TexError, tex_to_mathml_with_source};
use std::alloc::Global;

/// Returns the markup of a formula, which can be used in XML. A reader who copies it gets its LaTeX too. The usual macros hold.
/// An error is the refusal of the formula, or out of memory.
pub fn formula(alloc: Global, tex: &str, display: DisplayStyle) -> Result<String, TexError>
    ensures markup { IfOk result (λ markup.
        IsAnswerWithSource usual_macros tex.now (style_in display) (string_bytes markup)) }
    ensures xml { IfOk result (λ markup. IsAllowed (string_bytes markup)) }
    ensures refusal { IfRefused result (IsRefusal usual_macros tex.now (style_in display)) }
{
    let macros = Macros::new(alloc);
    tex_to_mathml_with_source(alloc, &macros, tex, display)
}
