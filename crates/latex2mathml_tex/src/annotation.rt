//! The text of a formula, as an annotation next to what is shown, and as its alternative text.
ghost use Rattle.std.specs.Prelude.{◌≡◌, ◌++◌, OnOk, string_bytes};
ghost use Rattle.std.specs.{Char.encode_utf8, Str.chars};
ghost use Rattle.latex2mathml_elements.specs.Annotated.{alternative, annotation_print};
ghost use Rattle.latex2mathml_tokens.specs.Escape.{content};
ghost use Rattle.latex2mathml_tex_grammar.specs.Formulas.{source_character, source_text};

use latex2mathml_tex_units::lexer::characters::is_forbidden;
use latex2mathml_trees::append::append_content_char;
use std::alloc::AllocError;

/// Appends the text of a formula as its alternative text.
pub(crate) fn append_alternative(tex: &str, out: &mut String) -> Result<(), AllocError>
    ensures { OnOk result (string_bytes out.new
        ≡ string_bytes out.old ++ alternative (source_text (chars tex.now))) }
{
    for c in tex.chars() {
        append_alternative_char(source_character(c), out)?;
    }
    Ok(())
}

/// Appends a character of an alternative text, in which quotation marks are escaped as well.
fn append_alternative_char(c: char, out: &mut String) -> Result<(), AllocError>
    ensures { OnOk result (string_bytes out.new
        ≡ string_bytes out.old ++ alternative (encode_utf8 c)) }
{
    if c == '"' {
        return out.push_str("&quot;");
    }
    append_content_char(c, out)
}

/// Appends the text of a formula as an annotation.
pub(crate) fn append_annotation(tex: &str, out: &mut String) -> Result<(), AllocError>
    ensures { OnOk result (string_bytes out.new
        ≡ string_bytes out.old ++ annotation_print (source_text (chars tex.now))) }
{
    out.push_str("<annotation encoding=\"application/x-tex\">")?;
    append_source(tex, out)?;
    out.push_str("</annotation>")?;
    Ok(())
}

/// Appends the text of a formula as content.
fn append_source(tex: &str, out: &mut String) -> Result<(), AllocError>
    ensures { OnOk result (string_bytes out.new
        ≡ string_bytes out.old ++ content (source_text (chars tex.now))) }
{
    for c in tex.chars() {
        append_content_char(source_character(c), out)?;
    }
    Ok(())
}

/// Returns the character, or U+FFFD in place of one that XML forbids.
fn source_character(c: char) -> char
    ensures { result ≡ source_character c }
{
    if is_forbidden(c) {
        char::REPLACEMENT_CHARACTER
    } else {
        c
    }
}
