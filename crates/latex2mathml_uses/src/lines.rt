//! A formula that is broken over two lines.
ghost use Rattle.std.specs.Prelude.{◌++◌, IfOk, string_bytes};
ghost use Rattle.latex2mathml.specs.Formulas.{IfRefused, IsFormulaRefusal, IsRendering};
ghost use Rattle.latex2mathml_uses.specs.Lines.{IsBreak};

use latex2mathml::{DisplayStyle, LatexError, latex_to_mathml, laws};
use std::alloc::Global;

/// Returns the markup of a formula whose two halves are on two lines. If the line may end between them, the result is that of
/// the formula on one line.
pub fn convert(
    alloc: Global,
    first: &str,
    second: &str,
    display: DisplayStyle,
) -> Result<String, LatexError>
    ensures rendering { IsBreak first.now second.now → IfOk result (λ markup.
        IsRendering (first.now ++ second.now) display (string_bytes markup)) }
    ensures refusal { IsBreak first.now second.now →
        IfRefused result (IsFormulaRefusal (first.now ++ second.now)) }
{
    laws::white_space(first, "\n", second);
    let formula = format!(in alloc; "{first}\n{second}")?;
    latex_to_mathml(alloc, formula.as_str(), display)
}
