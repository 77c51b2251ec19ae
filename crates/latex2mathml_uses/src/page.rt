//! A formula in a page.
ghost use Rattle.std.specs.Prelude.{◌≡◌, ℕ, List, ◌++◌, IfOk, codes, string_bytes};
ghost use Rattle.latex2mathml.specs.Formulas.{IfRefused, error_text, refusal_of, IsFormulaRefusal, IsRendering, Block};
ghost use Rattle.latex2mathml_uses.specs.Shown.{IsShown, reason_print};

use latex2mathml::ast::Node;
use latex2mathml::{DisplayStyle, LatexError, latex_to_mathml};
use std::alloc::{AllocError, Global};

/// Returns a paragraph with the formula in a block of its own. An error is the refusal of the formula, or out of memory.
pub fn paragraph(alloc: Global, formula: &str) -> Result<String, LatexError>
    ensures paragraph { IfOk result (λ page. (markup : List ℕ)
        × IsRendering formula.now Block markup
        × (string_bytes page ≡ codes "<p>" ++ (markup ++ codes "</p>"))) }
    ensures refusal { IfRefused result (IsFormulaRefusal formula.now) }
{
    let markup = latex_to_mathml(alloc, formula, DisplayStyle::Block)?;
    Ok(format!(in alloc; "<p>{markup}</p>")?)
}

/// Returns what a page shows for a user-supplied formula: its markup for a line of text or, if it is refused, the escaped
/// reason. The only error is out of memory.
pub fn show(alloc: Global, formula: &str) -> Result<String, LatexError>
    ensures { IfOk result (λ shown. IsShown formula.now (string_bytes shown)) }
{
    match latex_to_mathml(alloc, formula, DisplayStyle::Inline) {
        Ok(markup) => Ok(markup),
        Err(LatexError::OutOfMemory) => Err(LatexError::OutOfMemory),
        Err(refusal) => Ok(reason(alloc, &refusal)?),
    }
}

/// Returns the text of a refusal as markup.
fn reason(alloc: Global, refusal: &LatexError) -> Result<String, AllocError>
    ensures { IfOk result (λ shown.
        string_bytes shown ≡ reason_print (error_text (refusal_of refusal.now))) }
{
    let text = format!(in alloc; "{refusal}")?;
    let node = Node::Undefined(text);
    format!(in alloc; "<math>{node}</math>")
}
