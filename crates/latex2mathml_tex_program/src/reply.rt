//! Makes what is written for formulas.
ghost use Rattle.std.specs.Prelude.{◌≡◌, ℕ, ◌++◌, ◌∷◌, [], codes, IfErr, IfOk, IfSome, List, OnOk, string_bytes};
ghost use Rattle.latex2mathml_tex_units.specs.{ErrorTexts.error_text, Errors.refusal_of, MacroTables.Holding};
ghost use Rattle.latex2mathml_tex_program.specs.Replies.{AreFormulas, AreReplies, HoldsFormula, IsLine, IsMarkup, IsNoMarkup, IsReply};

use crate::request::{Display, Format};
use crate::texts::first_text;
use latex2mathml_tex::{
    Converter, DisplayStyle, Macros, TexError, tex_to_mathml, tex_to_mathml_with_source,
};
use std::alloc::{AllocError, Global};
use std::fmt::Write;

/// Returns the markup of the formula that a text holds, with a line feed.
///
/// # Errors
///
/// The errors are those of [`tex_to_mathml`].
pub fn line<'a>(
    alloc: Global,
    macros: &Macros<'a>,
    text: &'a str,
    format: Format,
) -> Result<String, TexError>
    ensures line { Holding macros.now (λ table. IfOk result (λ line.
        IsLine table text.now format (string_bytes line))) }
    ensures refusal { Holding macros.now (λ table. IfErr result (λ error.
        IfSome (refusal_of error) (IsNoMarkup table text.now format))) }
{
    let mut line = markup(alloc, macros, text, format)?;
    line.push('\n')?;
    Ok(line)
}

/// Returns the markup of the formula that a text holds.
fn markup<'a>(
    alloc: Global,
    macros: &Macros<'a>,
    text: &'a str,
    format: Format,
) -> Result<String, TexError>
    ensures markup { Holding macros.now (λ table. IfOk result (λ markup.
        IsMarkup table text.now format (string_bytes markup))) }
    ensures refusal { Holding macros.now (λ table. IfErr result (λ error.
        IfSome (refusal_of error) (IsNoMarkup table text.now format))) }
{
    let (tex, display) = formula_in(text, format.display);
    if format.is_annotated {
        tex_to_mathml_with_source(alloc, macros, tex, display)
    } else {
        tex_to_mathml(alloc, macros, tex, display)
    }
}

/// Returns the formula that a text holds, and its display style.
fn formula_in<'a>(text: &'a str, display: Display) -> (&'a str, DisplayStyle)
    ensures { HoldsFormula text.now display result.1 result.0.now }
{
    match display {
        Display::All(style) => (text, style),
        Display::Each => {
            if let Some(tex) = text.strip_prefix("block\n") {
                return (tex, DisplayStyle::Block);
            }
            if let Some(tex) = text.strip_prefix("inline\n") {
                return (tex, DisplayStyle::Inline);
            }
            (text, DisplayStyle::Inline)
        }
    }
}

/// Returns a reply to each formula of a text, in turn. In the text, a NUL ends each formula. After the last one it may be
/// missing. A reply is a line that says `mathml` or `error`, then the markup, or why the formula is refused, and a NUL.
///
/// The only `Err` is out of memory.
pub fn replies<'a>(
    alloc: Global,
    macros: &Macros<'a>,
    texts: &'a str,
    format: Format,
) -> Result<String, AllocError>
    ensures { Holding macros.now (λ table. IfOk result (λ replies.
        (formulas : List (List ℕ)) × AreFormulas texts.now formulas
        × AreReplies table formulas format (string_bytes replies))) }
{
    let mut converter = Converter::new(alloc);
    let mut room = String::new(alloc);
    let mut replies = String::new(alloc);
    let mut rest = texts;
    'formulas: while !rest.is_empty() {
        let (tex, more) = first_text(rest);
        append_reply(&mut converter, &mut room, macros, tex, format, &mut replies)?;
        rest = more;
    }
    Ok(replies)
}

/// Appends the reply to the formula that a text holds. The reply is first written to `room`.
fn append_reply<'a>(
    converter: &mut Converter<'a>,
    room: &mut String,
    macros: &Macros<'a>,
    text: &'a str,
    format: Format,
    replies: &mut String,
) -> Result<(), AllocError>
    ensures { Holding macros.now (λ table. OnOk result ((reply : List ℕ)
        × IsReply table text.now format reply
        × (string_bytes replies.new ≡ string_bytes replies.old ++ reply))) }
{
    room.clear();
    room.push_str("mathml\n")?;
    match append_markup(converter, room, macros, text, format) {
        Ok(()) => {
            room.push('\0')?;
            replies.push_str(room.as_str())?;
            Ok(())
        }
        Err(error) => append_refusal(replies, &error, room),
    }
}

/// Appends the markup of the formula that a text holds.
fn append_markup<'a>(
    converter: &mut Converter<'a>,
    said: &mut String,
    macros: &Macros<'a>,
    text: &'a str,
    format: Format,
) -> Result<(), TexError>
    ensures markup { Holding macros.now (λ table. OnOk result ((markup : List ℕ)
        × IsMarkup table text.now format markup
        × (string_bytes said.new ≡ string_bytes said.old ++ markup))) }
    ensures refusal { Holding macros.now (λ table. IfErr result (λ error.
        IfSome (refusal_of error) (IsNoMarkup table text.now format))) }
{
    let (tex, display) = formula_in(text, format.display);
    if format.is_annotated {
        converter.append_with_source(said, macros, tex, display)
    } else {
        converter.append(said, macros, tex, display)
    }
}

/// Appends the reply that says why a formula is refused. The message is first written to `room`.
#[cold]
fn append_refusal(
    replies: &mut String,
    error: &TexError,
    room: &mut String,
) -> Result<(), AllocError>
    ensures { OnOk result (string_bytes replies.new
        ≡ string_bytes replies.old ++ (codes "error\n" ++ (error_text error.now ++ 0 ∷ []))) }
{
    room.clear();
    if write!(room, "{error}").is_err() {
        return Err(AllocError);
    }
    replies.push_str("error\n")?;
    replies.push_str(room.as_str())?;
    replies.push('\0')?;
    Ok(())
}
