//! A page that grows at its end, and a document in a page.
ghost use Rattle.std.specs.Prelude.{◌≡◌, ℕ, List, [], ◌++◌, IfOk, OnErr, OnOk, codes, string_bytes};
ghost use Rattle.latex2mathml.specs.{Documents.IsAnswer, Documents.IsRefusal, DocumentLaws.HasElements};
ghost use Rattle.latex2mathml.specs.{Surroundings.HasBalancedProse, Surroundings.HasPageProse, Elements.IsBalanced, Elements.IsPage};
ghost use Rattle.latex2mathml.specs.Formulas.{IfRefused, IsFormulaRefusal, IsRendering};

use latex2mathml::{DisplayStyle, LatexError, latex_to_mathml, laws, replace};
use std::alloc::Global;

/// Returns an empty page.
pub fn blank(alloc: Global) -> String
    ensures empty { string_bytes result ≡ [] }
    ensures balanced { IsBalanced (string_bytes result) }
{
    laws::joined_markup();
    String::new(alloc)
}

/// Appends a user-supplied formula to a page whose tags balance. They balance afterwards, whatever the formula is. On an error,
/// which is the refusal of the formula or out of memory, the page is unchanged.
pub fn insert(
    alloc: Global,
    page: &mut String,
    formula: &str,
    display: DisplayStyle,
) -> Result<(), LatexError>
    requires { IsBalanced (string_bytes page.old) }
    ensures balanced { IsBalanced (string_bytes page.new) }
    ensures inserted { OnOk result ((markup : List ℕ) × IsRendering formula.now display markup
        × (string_bytes page.new ≡ string_bytes page.old ++ markup)) }
    ensures unchanged { OnErr result (string_bytes page.new ≡ string_bytes page.old) }
    ensures refusal { IfRefused result (IsFormulaRefusal formula.now) }
{
    laws::joined_markup();
    let markup = latex_to_mathml(alloc, formula, display)?;
    page.push_str(markup.as_str())?;
    Ok(())
}

/// Returns a converted document as an article of a page. If the prose around the formulas is that of a page, so is the
/// article: its tags balance, and each `math` element in it obeys the child table.
pub fn article(alloc: Global, document: &str) -> Result<String, LatexError>
    requires { HasPageProse document.now }
    ensures answer { IfOk result (λ article. (answer : List ℕ) × IsAnswer document.now answer
        × (string_bytes article ≡ codes "<article>" ++ (answer ++ codes "</article>"))) }
    ensures page { IfOk result (λ article. IsPage (string_bytes article)) }
    ensures refusal { IfRefused result (IsRefusal document.now) }
{
    laws::answers();
    laws::joined_markup();
    let answer = replace(alloc, document)?;
    Ok(format!(in alloc; "<article>{answer}</article>")?)
}

/// Returns the answer of a document as a quotation. Each formula in it is one `math` element. The tags of the prose balance
/// around the formulas, so those of the quotation balance too.
pub fn quotation(alloc: Global, document: &str) -> Result<String, LatexError>
    requires { HasBalancedProse document.now }
    ensures elements { IfOk result (λ quotation. (answer : List ℕ) × HasElements document.now answer
        × (string_bytes quotation ≡ codes "<blockquote>" ++ (answer ++ codes "</blockquote>"))) }
    ensures balanced { IfOk result (λ quotation. IsBalanced (string_bytes quotation)) }
    ensures refusal { IfRefused result (IsRefusal document.now) }
{
    laws::answers();
    laws::joined_markup();
    let answer = replace(alloc, document)?;
    Ok(format!(in alloc; "<blockquote>{answer}</blockquote>")?)
}
