//! Leaves, each as one element.
ghost use Rattle.std.specs.Prelude.{◌≡◌, ◌++◌, ◌<◌, [], IsTrue};
ghost use Rattle.latex2mathml_trees.specs.{Print.print, Texts.Appends};
ghost use Rattle.latex2mathml_trees.specs.Tree.{letter, number, operator};
ghost use Rattle.latex2mathml_parts.specs.{Parts.arity, Parts.put, Parts.top};
ghost use Rattle.latex2mathml_parts.specs.Plain.{IsPlain, plain_print};
ghost use Rattle.latex2mathml_parts.specs.Shapes.{styled_print, upright_print};
ghost use Rattle.latex2mathml_tokens.specs.{Escape.content, Escape.content_char};
ghost use Rattle.latex2mathml_tokens.specs.declared.attribute.Variant.TheVariants.{Italic};

use crate::kind::Kind;
use crate::write::fences::paren_markup;
use crate::write::tables::{
    function_markup, greek_markup, letter_open, limit_markup, size_open, space_markup,
};
use latex2mathml_tokens::attribute::Variant;
use latex2mathml_trees::append::{append_content, append_content_char, append_space};
use std::alloc::AllocError;

/// Writes a part that has no operands and is in no list.
#[inline(always)]
pub fn write_leaf(kind: Kind, out: &mut String) -> Result<(), AllocError>
    requires { arity kind ≡ 0 }
    ensures { Appends out.old out.new (print (top (put kind.entry []))) result }
{
    match kind {
        Kind::Letter(c, variant) => write_letter(c, variant, out),
        Kind::Operator(c) => write_operator(c, out),
        Kind::Number(digits) => write_number(digits, out),
        Kind::Paren(paren) => out.push_str(paren_markup(paren)),
        Kind::Ampersand => out.push_str("<mtext>[PARSE ERROR: Ampersand]</mtext>"),
        Kind::NewLine => out.push_str("<mtext>[PARSE ERROR: NewLine]</mtext>"),
        Kind::Space(width) => match space_markup(width) {
            Some(markup) => out.push_str(markup),
            None => append_space(width, out),
        },
        Kind::Function(name) => out.push_str(function_markup(name)),
        Kind::Limit(name) => out.push_str(limit_markup(name)),
        Kind::SizedParen(size, paren) => {
            write_text(size_open(size), paren.text(), "</mo></mrow>", out)
        }
        _ => unreachable!(),
    }
}

/// Writes a letter.
#[inline(never)]
pub(crate) fn write_letter(c: char, variant: Variant, out: &mut String) -> Result<(), AllocError>
    ensures { Appends out.old out.new (print (letter c variant)) result }
{
    if let Variant::Italic = variant {
        if is_plain(c) {
            return write_plain(b'i', c as u8, out);
        }
        return write_other_letter(c, out);
    }
    write_variant(c, variant, out)
}

/// Writes a letter that has a style.
#[inline(never)]
fn write_variant(c: char, variant: Variant, out: &mut String) -> Result<(), AllocError>
    ensures { Appends out.old out.new (styled_print c variant) result }
{
    write_char(letter_open(variant), c, "</mi>", out)
}

/// Writes any italic letter.
#[inline(never)]
fn write_other_letter(c: char, out: &mut String) -> Result<(), AllocError>
    ensures { Appends out.old out.new (print (letter c Italic)) result }
{
    match greek_markup(c) {
        Some(markup) => out.push_str(markup),
        None => write_char("<mi>", c, "</mi>", out),
    }
}

/// Writes an operator.
#[inline(never)]
#[tactic(auto, unfolding(crate::proofs::Encoding::encode_utf8))]
pub(crate) fn write_operator(c: char, out: &mut String) -> Result<(), AllocError>
    ensures { Appends out.old out.new (print (operator c)) result }
{
    if is_plain(c) {
        return write_plain(b'o', c as u8, out);
    }
    match c {
        '<' => out.push_str("<mo>&lt;</mo>"),
        '>' => out.push_str("<mo>&gt;</mo>"),
        _ => write_other_operator(c, out),
    }
}

/// Writes any operator.
#[inline(never)]
#[tactic(auto, unfolding(crate::proofs::Encoding::encode_utf8))]
fn write_other_operator(c: char, out: &mut String) -> Result<(), AllocError>
    ensures { Appends out.old out.new (print (operator c)) result }
{
    match c {
        '±' => out.push_str("<mo>±</mo>"),
        '·' => out.push_str("<mo>·</mo>"),
        '×' => out.push_str("<mo>×</mo>"),
        '→' => out.push_str("<mo>→</mo>"),
        '∈' => out.push_str("<mo>∈</mo>"),
        '−' => out.push_str("<mo>−</mo>"),
        '∗' => out.push_str("<mo>∗</mo>"),
        '≠' => out.push_str("<mo>≠</mo>"),
        '≤' => out.push_str("<mo>≤</mo>"),
        '≥' => out.push_str("<mo>≥</mo>"),
        '∂' => out.push_str("<mo mathvariant=\"italic\">∂</mo>"),
        _ => write_rare_operator(c, out),
    }
}

/// Writes any operator that is not in italics.
#[inline(never)]
fn write_rare_operator(c: char, out: &mut String) -> Result<(), AllocError>
    ensures { Appends out.old out.new (upright_print c) result }
{
    out.push_str("<mo>")?;
    append_content_char(c, out)?;
    out.push_str("</mo>")
}

/// Writes a number.
#[inline(never)]
pub(crate) fn write_number(digits: &str, out: &mut String) -> Result<(), AllocError>
    ensures { Appends out.old out.new (print (number digits.now)) result }
{
    match digits.as_bytes() {
        [a] if is_plain(char::from(*a)) => write_plain(b'n', *a, out),
        _ => write_digits(digits, out),
    }
}

/// Writes a number of several digits.
#[inline(never)]
fn write_digits(digits: &str, out: &mut String) -> Result<(), AllocError>
    ensures { Appends out.old out.new (print (number digits.now)) result }
{
    write_text("<mn>", digits, "</mn>", out)
}

/// Whether the character is ASCII, and contents hold it as it is.
#[inline(always)]
#[tactic(auto, unfolding(crate::proofs::Encoding::encode_utf8))]
fn is_plain(c: char) -> bool
    ensures { IsTrue result → IsPlain c }
{
    c.is_ascii() && !matches!(c, '&' | '<' | '>' | '$')
}

/// Writes an element without attributes that holds an ASCII character. Its name is `m` and this letter. One push of all
/// takes less time than one for each of its three pieces.
#[inline(always)]
#[tactic(auto, using(crate::proofs::Plain::plain_is_text))]
fn write_plain(letter: u8, c: u8, out: &mut String) -> Result<(), AllocError>
    requires letter { letter < 128 }
    requires ascii { c < 128 }
    ensures { Appends out.old out.new (plain_print letter c) result }
{
    let bytes = [b'<', b'm', letter, b'>', c, b'<', b'/', b'm', letter, b'>'];
    out.push_str(unsafe { str::from_utf8_unchecked(&bytes) })
}

/// Writes a text as contents, between two tags.
pub(crate) fn write_text(
    before: &str,
    text: &str,
    after: &str,
    out: &mut String,
) -> Result<(), AllocError>
    ensures { Appends out.old out.new (before.now ++ (content text.now ++ after.now)) result }
{
    out.push_str(before)?;
    append_content(text, out)?;
    out.push_str(after)
}

/// Writes a character as contents, between two tags.
pub(crate) fn write_char(
    before: &str,
    c: char,
    after: &str,
    out: &mut String,
) -> Result<(), AllocError>
    ensures { Appends out.old out.new (before.now ++ (content_char c ++ after.now)) result }
{
    out.push_str(before)?;
    append_content_char(c, out)?;
    out.push_str(after)
}
