//! Converts a formula in LaTeX as authors write it.
ghost use Rattle.std.specs.Prelude.{◌≡◌, IfOk, Some, string_bytes};
ghost use Rattle.latex2mathml_c.specs.TexTexts.{IsMarkup, IsRead, IsTold};
ghost use Rattle.latex2mathml_tex_units.specs.{Errors.IfRefused, Errors.refusal_of, MacroTables.AreDefined, MacroTables.Holding};
ghost use Rattle.latex2mathml_tex.specs.Answers.{IsRefusal, style_in};
ghost use Rattle.latex2mathml_tex_grammar.specs.Refusal.{Refusal};

use crate::Status;
use latex2mathml_tex::{
    DisplayStyle, Macros, TexError, TexErrorKind, tex_to_mathml, tex_to_mathml_with_source,
};
use std::alloc::{AllocError, Global};

/// A text, its status, and the place of what is refused, or 0 if nothing is refused.
#[derive(Drop)]
pub(crate) struct Told {
    pub(crate) status: Status,
    pub(crate) text: String,
    pub(crate) place: usize,
}

/// Returns the markup of a formula that may use macros of these definitions, or the reason why it or a definition is refused.
/// If an annotation is requested, the markup contains the text of the formula. The only `Err` is out of memory.
pub(crate) fn read<'a>(
    alloc: Global,
    definitions: &'a str,
    tex: &'a str,
    display: DisplayStyle,
    is_annotated: bool,
) -> Result<Told, AllocError>
    ensures { IfOk result (λ told. IsRead is_annotated definitions.now tex.now display
        told.place told.status (string_bytes told.text)) }
{
    let macros = match Macros::read(alloc, definitions) {
        Ok(macros) => macros,
        Err(error) => return refusal(alloc, Status::DefinitionRefused, &error),
    };
    match markup(alloc, &macros, tex, display, is_annotated) {
        Ok(text) => Ok(Told {
            status: Status::Done,
            text,
            place: 0,
        }),
        Err(error) => refusal(alloc, Status::Refused, &error),
    }
}

/// Returns the markup of a formula, with the text of the formula if an annotation is requested.
fn markup<'a>(
    alloc: Global,
    macros: &Macros<'a>,
    tex: &'a str,
    display: DisplayStyle,
    is_annotated: bool,
) -> Result<String, TexError>
    ensures markup { AreDefined macros.now → Holding macros.now (λ table. IfOk result (λ markup.
        IsMarkup is_annotated table tex.now display (string_bytes markup))) }
    ensures refusal { Holding macros.now (λ table.
        IfRefused result (IsRefusal table tex.now (style_in display))) }
{
    if is_annotated {
        tex_to_mathml_with_source(alloc, macros, tex, display)
    } else {
        tex_to_mathml(alloc, macros, tex, display)
    }
}

/// Returns the text of an error with this status, and its place. The only `Err` is out of memory.
fn refusal(alloc: Global, status: Status, error: &TexError) -> Result<Told, AllocError>
    ensures { IfOk result (λ told. (told.status ≡ status) × ((refusal : Refusal)
        × (refusal_of error.now ≡ Some refusal)
        × IsTold refusal told.place (string_bytes told.text))) }
{
    if matches!(error.kind, TexErrorKind::OutOfMemory) {
        return Err(AllocError);
    }
    let text = error.to_string(alloc)?;
    Ok(Told {
        status,
        text,
        place: error.place,
    })
}
