//! The texts of words. The elements of words are the top elements of the builder.
ghost use Rattle.std.specs.Prelude.{◌≡◌, ◌≤◌, IfOk, None, length};
ghost use Rattle.latex2mathml_builder.specs.Built.{elements_in};
ghost use Rattle.latex2mathml_tex_grammar.specs.{Makes.text, Words.with_accent_ended, Words.with_character};
ghost use Rattle.latex2mathml_tex_atoms.specs.Models.{font_of};
ghost use Rattle.latex2mathml_tex_atoms.specs.Wording.{Replaces, lengthened};

use crate::atoms::Words;
use crate::fonts::Font;
use latex2mathml_attributes::tag::Token;
use latex2mathml_builder::builder::Builder;
use std::alloc::AllocError;

impl Words {
    /// Returns words of this many elements, the last of which is no text that characters make longer.
    pub fn of(count: usize) -> Words
        ensures { result ≡ record { count = count; last = None; accent = None } }
    {
        Words {
            count,
            last: None,
            accent: None,
        }
    }
}

/// Appends a character in this font to words, with their accent on it if there is one. Returns the words with it.
pub fn put_character(
    builder: &mut Builder,
    words: Words,
    font: Font,
    c: char,
) -> Result<Words, AllocError>
    requires { words.count ≤ length (elements_in builder.old) }
    ensures { IfOk result (Replaces (λ ws. with_character (font_of font) ws (text c)) words
        builder.old builder.new) }
{
    let with_c = put_text(builder, words, font, c)?;
    match words.accent {
        None => Ok(with_c),
        Some(accent) => {
            let with_accent = put_text(builder, with_c, font, accent)?;
            Ok(Words {
                accent: None,
                ..with_accent
            })
        }
    }
}

/// Puts the accent of words, if they have one, on a space, since no character follows it. Returns the words without it.
pub fn end_accent(builder: &mut Builder, words: Words) -> Result<Words, AllocError>
    requires { words.count ≤ length (elements_in builder.old) }
    ensures { IfOk result (Replaces with_accent_ended words builder.old builder.new) }
{
    match words.accent {
        None => Ok(words),
        Some(_) => put_character(builder, words, words.last_font(), '\u{a0}'),
    }
}

/// Appends a character in this font to words. Their accent stays.
fn put_text(builder: &mut Builder, words: Words, font: Font, c: char) -> Result<Words, AllocError>
    requires { words.count ≤ length (elements_in builder.old) }
    ensures { IfOk result (Replaces (lengthened (font_of font) (text c)) words
        builder.old builder.new) }
{
    if words.is_in(font) && words.count > 0 && builder.push(c)? {
        return Ok(words);
    }
    builder.character(Token::Mtext, font.attributes(), c)?;
    // all elements of words are among those of the builder, so their number fits in a `usize`
    let _ = builder.len();
    Ok(Words {
        count: words.count + 1,
        last: Some(font),
        ..words
    })
}
