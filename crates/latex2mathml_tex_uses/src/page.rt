//! Pages whose preamble may define macros.
ghost use Rattle.std.specs.Prelude.{IfErr, IfOk, string_bytes};
ghost use Rattle.latex2mathml_elements.specs.Characters.{IsAllowed};
ghost use Rattle.latex2mathml_tex_units.specs.{Errors.IfRefused, MacroTables.AreDefined, MacroTables.macros_in};
ghost use Rattle.latex2mathml_tex.specs.Answers.{IsAnswer, style_in};
ghost use Rattle.latex2mathml_tex_grammar.specs.{Macros.SameMacros, Macros.Table};
ghost use Rattle.latex2mathml_tex_uses.specs.Pages.{HoldOnPage, IsPreambleRefusal, IsUnshown};

use latex2mathml_tex::{DisplayStyle, Macros, TexError, tex_to_mathml};
use std::alloc::Global;

/// Why a formula of a page has no markup.
#[derive(Debug, Drop)]
pub enum PageError {
    /// The preamble is refused, or memory ran out for it.
    Preamble(TexError),
    /// The formula is refused, or memory ran out for it.
    Formula(TexError),
}

/// Returns the markup of a formula of a page, which can be used in XML. The macros that the page's preamble defines hold, or
/// the usual ones if the page has no preamble. An error is the refusal of the preamble or of the formula, or out of memory.
pub fn formula<'a>(
    alloc: Global,
    preamble: Option<&'a str>,
    tex: &'a str,
    display: DisplayStyle,
) -> Result<String, PageError>
    ensures markup { IfOk result (λ markup. (table : Table)
        × HoldOnPage preamble.entry table
        × IsAnswer table tex.now (style_in display) (string_bytes markup)) }
    ensures xml { IfOk result (λ markup. IsAllowed (string_bytes markup)) }
    ensures refusal { IfErr result (IsUnshown preamble.entry tex.now (style_in display)) }
{
    let macros = match macros_of(alloc, preamble) {
        Ok(macros) => macros,
        Err(error) => return Err(PageError::Preamble(error)),
    };
    match tex_to_mathml(alloc, &macros, tex, display) {
        Ok(markup) => Ok(markup),
        Err(error) => Err(PageError::Formula(error)),
    }
}

/// Returns the macros that hold on a page with this preamble.
fn macros_of<'a>(alloc: Global, preamble: Option<&'a str>) -> Result<Macros<'a>, TexError>
    ensures hold { IfOk result (λ macros. (table : Table)
        × HoldOnPage preamble.entry table
        × SameMacros table (macros_in macros)) }
    ensures defined { IfOk result AreDefined }
    ensures refusal { IfRefused result (IsPreambleRefusal preamble.entry) }
{
    match preamble {
        None => Ok(Macros::new(alloc)),
        Some(text) => Macros::read(alloc, text),
    }
}
