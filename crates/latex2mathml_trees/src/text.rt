//! Writes texts in markup: as contents, as values of attributes, and marked as errors. An `Err` of a function is one that the
//! formatter's writer returned.
ghost use Rattle.std.specs.Prelude.{◌≡◌, ◌++◌, codes};
ghost use Rattle.std.specs.{Char.encode_utf8, Fmt.WritesOnOk};
ghost use Rattle.latex2mathml_tokens.specs.Escape.{content, content_char, is_escaped, quoted, value};
ghost use Rattle.latex2mathml_trees.specs.{Print.error_print, Texts.escaped};

use std::fmt;

/// Writes the text of a token that has no meaning where it is, marked as an error.
pub fn write_undefined<W: fmt::Write>(text: &str, f: &mut fmt::Formatter<W>) -> fmt::Result
    ensures { WritesOnOk W.write_str_gives f.old result
        (error_print (codes "Undefined(" ++ (quoted text.now ++ codes ")"))) f.new }
{
    f.write_str("<mtext>[PARSE ERROR: Undefined(\"")?;
    write_escaped(Place::Quoted, text, f)?;
    f.write_str("\")]</mtext>")
}

/// Writes a text as contents. A text in which nothing is escaped is written whole.
pub fn write_content<W: fmt::Write>(text: &str, f: &mut fmt::Formatter<W>) -> fmt::Result
    ensures { WritesOnOk W.write_str_gives f.old result (content text.now) f.new }
{
    match text.find(|c: char| needs_escape(c)) {
        Some(_) => write_escaped(Place::Content, text, f),
        None => f.write_str(text),
    }
}

pub(crate) fn needs_escape(c: char) -> bool
    ensures { result ≡ is_escaped c }
{
    c == '&' || c == '<' || c == '>' || c == '$'
}

/// Where a text is in the markup: what is escaped there depends on it.
#[derive(Clone, Copy)]
pub(crate) enum Place {
    Content,
    Value,
    /// Between quotation marks, in contents.
    Quoted,
}

/// Writes a text that is at this place, character by character. It is inlined, so that no place is looked at when it runs.
#[inline(always)]
pub(crate) fn write_escaped<W: fmt::Write>(
    place: Place,
    text: &str,
    f: &mut fmt::Formatter<W>,
) -> fmt::Result
    ensures { WritesOnOk W.write_str_gives f.old result (escaped place text.now) f.new }
{
    for c in text.chars() {
        write_char(place, c, f)?;
    }
    Ok(())
}

/// Writes a character of a text that is at this place.
#[inline(always)]
#[tactic(auto, using(latex2mathml_tokens::proofs::Escapes::others))]
fn write_char<W: fmt::Write>(place: Place, c: char, f: &mut fmt::Formatter<W>) -> fmt::Result
    ensures { WritesOnOk W.write_str_gives f.old result (escaped place (encode_utf8 c)) f.new }
{
    match (place, c) {
        (Place::Value, '"') => f.write_str("&quot;"),
        (Place::Value, '$') => f.write_str("$"),
        (Place::Quoted, '"') => f.write_str("\\\""),
        (Place::Quoted, '\\') => f.write_str("\\\\"),
        _ => write_content_char(c, f),
    }
}

/// Writes a character as contents.
#[tactic(auto, using(latex2mathml_tokens::proofs::Escapes::others))]
pub fn write_content_char<W: fmt::Write>(c: char, f: &mut fmt::Formatter<W>) -> fmt::Result
    ensures { WritesOnOk W.write_str_gives f.old result (content_char c) f.new }
{
    match c {
        '&' => f.write_str("&amp;"),
        '<' => f.write_str("&lt;"),
        '>' => f.write_str("&gt;"),
        '$' => f.write_str("&#x24;"),
        _ => f.write_char(c),
    }
}

/// Writes a text as the value of an attribute.
pub fn write_value<W: fmt::Write>(text: &str, f: &mut fmt::Formatter<W>) -> fmt::Result
    ensures { WritesOnOk W.write_str_gives f.old result (value text.now) f.new }
{
    write_escaped(Place::Value, text, f)
}
