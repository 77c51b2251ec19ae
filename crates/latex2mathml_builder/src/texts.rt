//! Writes elements that hold texts.
ghost use Rattle.std.specs.Prelude.{◌≡◌, ◌∷◌, ◌++◌, [], IsTrue, OnOk, codes, string_bytes};
ghost use Rattle.std.specs.Str.{IsAscii, IsUtf8};
ghost use Rattle.latex2mathml_elements.specs.Attributes.{plain};
ghost use Rattle.latex2mathml_elements.specs.Element.{Mo, token};
ghost use Rattle.latex2mathml_elements.specs.Print.{print};
ghost use Rattle.latex2mathml_attributes.specs.Names.{attributes_if_any, attributes_of, token_of};
ghost use Rattle.latex2mathml_tokens.specs.Escape.{content};
ghost use Rattle.latex2mathml_builder.specs.Names.{short_end, short_start};

use crate::write::start_with_attributes;
use latex2mathml_attributes::attributes::Attributes;
use latex2mathml_attributes::tag::Token;
use latex2mathml_trees::append::append_content;
use std::alloc::AllocError;

/// Appends an element that holds this text.
#[inline(always)]
pub(crate) fn write_token(
    tag: Token,
    attributes: &Option<Attributes>,
    text: &str,
    out: &mut String,
) -> Result<(), AllocError>
    ensures { OnOk result (string_bytes out.new ≡ string_bytes out.old
        ++ print (token (token_of tag) (attributes_if_any attributes.now) text.now)) }
{
    match attributes {
        None => write_plain(tag, text, out),
        Some(attributes) => match tag {
            Token::Mo => write_operator(attributes, text, out),
            _ => write_with_attributes(tag, attributes, text, out),
        },
    }
}

/// Appends an element with attributes that holds this text. Most of these are operators, which `write_operator` appends faster.
#[inline(never)]
#[tactic(auto, using(std::proofs::lemmas::Grind::common_steps))]
fn write_with_attributes(
    tag: Token,
    attributes: &Attributes,
    text: &str,
    out: &mut String,
) -> Result<(), AllocError>
    ensures { OnOk result (string_bytes out.new ≡ string_bytes out.old
        ++ print (token (token_of tag) (attributes_of attributes.now) text.now)) }
{
    start_with_attributes(tag.start(), attributes, out)?;
    append_content(text, out)?;
    out.push_str(tag.end())
}

/// Appends an operator with attributes.
#[inline(never)]
#[tactic(auto, using(std::proofs::lemmas::Grind::common_steps))]
fn write_operator(attributes: &Attributes, text: &str, out: &mut String) -> Result<(), AllocError>
    ensures { OnOk result (string_bytes out.new ≡ string_bytes out.old
        ++ print (token Mo (attributes_of attributes.now) text.now)) }
{
    match attributes.usual_operator() {
        Some(whole) => out.push_str(whole)?,
        None => start_with_attributes("<mo", attributes, out)?,
    }
    end_operator(text, out)
}

/// Appends the text of an operator and its end tag. Most texts are one character.
#[inline(always)]
fn end_operator(text: &str, out: &mut String) -> Result<(), AllocError>
    ensures { OnOk result (string_bytes out.new ≡ string_bytes out.old
        ++ (content text.now ++ codes "</mo>")) }
{
    match text.as_bytes() {
        [a] if is_kept(*a) => push_bytes(&[*a, b'<', b'/', b'm', b'o', b'>'], out),
        [a, b, c] if is_kept(*a) && is_kept(*b) && is_kept(*c) => push_bytes(
            &[*a, *b, *c, b'<', b'/', b'm', b'o', b'>'],
            out,
        ),
        _ => {
            append_content(text, out)?;
            out.push_str("</mo>")
        }
    }
}

/// Appends an element without attributes that holds this text.
#[inline(always)]
fn write_plain(tag: Token, text: &str, out: &mut String) -> Result<(), AllocError>
    ensures { OnOk result (string_bytes out.new ≡ string_bytes out.old
        ++ print (token (token_of tag) plain text.now)) }
{
    match tag {
        Token::Mi => write_short(b'i', text, out),
        Token::Mn => write_short(b'n', text, out),
        Token::Mo => write_short(b'o', text, out),
        Token::Mtext => write_mtext(text, out),
    }
}

/// Appends an `mtext` element without attributes.
#[inline(never)]
fn write_mtext(text: &str, out: &mut String) -> Result<(), AllocError>
    ensures { OnOk result (string_bytes out.new ≡ string_bytes out.old
        ++ (codes "<mtext>" ++ (content text.now ++ codes "</mtext>"))) }
{
    out.push_str("<mtext>")?;
    append_content(text, out)?;
    out.push_str("</mtext>")
}

/// Appends an element without attributes that holds this text. Its name is `m` and this letter. Most texts are one character,
/// of which no byte is escaped. One push of all takes less time than one for each of its three pieces.
#[inline(always)]
fn write_short(letter: u8, text: &str, out: &mut String) -> Result<(), AllocError>
    requires { IsAscii (letter ∷ []) }
    ensures { OnOk result (string_bytes out.new ≡ string_bytes out.old
        ++ (short_start letter ++ (content text.now ++ short_end letter))) }
{
    match text.as_bytes() {
        [a] if is_kept(*a) => push_bytes(
            &[b'<', b'm', letter, b'>', *a, b'<', b'/', b'm', letter, b'>'],
            out,
        ),
        [a, b] if is_kept(*a) && is_kept(*b) => push_bytes(
            &[
                b'<', b'm', letter, b'>', *a, *b, b'<', b'/', b'm', letter, b'>',
            ],
            out,
        ),
        _ => write_long(letter, text, out),
    }
}

/// The same for any text. Most others are a character of three bytes.
#[inline(never)]
fn write_long(letter: u8, text: &str, out: &mut String) -> Result<(), AllocError>
    requires { IsAscii (letter ∷ []) }
    ensures { OnOk result (string_bytes out.new ≡ string_bytes out.old
        ++ (short_start letter ++ (content text.now ++ short_end letter))) }
{
    if let [a, b, c] = text.as_bytes() {
        if is_kept(*a) && is_kept(*b) && is_kept(*c) {
            let bytes = [
                b'<', b'm', letter, b'>', *a, *b, *c, b'<', b'/', b'm', letter, b'>',
            ];
            return push_bytes(&bytes, out);
        }
    }
    push_bytes(&[b'<', b'm', letter, b'>'], out)?;
    append_content(text, out)?;
    push_bytes(&[b'<', b'/', b'm', letter, b'>'], out)
}

/// Appends bytes that are a text.
#[inline(always)]
fn push_bytes(bytes: &[u8], out: &mut String) -> Result<(), AllocError>
    requires { IsUtf8 bytes.now }
    ensures { OnOk result (string_bytes out.new ≡ string_bytes out.old ++ bytes.now) }
{
    out.push_str(unsafe { str::from_utf8_unchecked(bytes) })
}

/// Whether contents keep the byte as it is.
#[inline(always)]
fn is_kept(byte: u8) -> bool
    ensures { IsTrue result → content (byte ∷ []) ≡ byte ∷ [] }
{
    !matches!(byte, b'&' | b'<' | b'>' | b'$')
}
