//! The text of a token, as refusals and marked errors name it.
ghost use Rattle.std.specs.Prelude.{Some};
ghost use Rattle.std.specs.{Char.encode_utf8, Fmt.WritesOnOk, List.flat_map};
ghost use Rattle.latex2mathml_tokens.specs.{Escape.quoted, Escape.quoted_byte, Escape.quoted_char, Tok.tok};
ghost use Rattle.latex2mathml_tokens.specs.{TokenContents.contents_text, Tok.accent_name, Tok.token_text, Tok.variant_name};

use crate::attribute::{Accent, Variant};
use crate::token::Token;
use std::fmt;

/// A character within quotation marks.
#[derive(Drop)]
struct QuotedPart(char);

impl fmt::Display for QuotedPart {
    ghost output = { λ part. Some (flat_map quoted_byte (encode_utf8 part.0)) };

    #[tactic(auto, using(crate::proofs::Escapes::others))]
    fn fmt<W: fmt::Write>(&self, f: &mut fmt::Formatter<W>) -> fmt::Result {
        match self.0 {
            '"' => f.write_str("\\\""),
            '\\' => f.write_str("\\\\"),
            c => f.write_char(c),
        }
    }
}

/// A text in quotation marks.
#[derive(Drop)]
struct Quoted<'a>(&'a str);

impl fmt::Display for Quoted<'_> {
    ghost output = { λ text. Some (quoted text.0.now) };

    fn fmt<W: fmt::Write>(&self, f: &mut fmt::Formatter<W>) -> fmt::Result {
        let text = self.0;
        // The contract of this call says that the text is UTF-8, which the proof of the loop needs.
        let _ = text.as_bytes();
        f.write_str("\"")?;
        for c in text.chars() {
            write!(f, "{}", QuotedPart(c))?;
        }
        f.write_str("\"")
    }
}

/// A character in apostrophes.
#[derive(Drop)]
struct QuotedChar(char);

impl fmt::Display for QuotedChar {
    ghost output = { λ c. Some (quoted_char c.0) };

    fn fmt<W: fmt::Write>(&self, f: &mut fmt::Formatter<W>) -> fmt::Result {
        match self.0 {
            '\'' => f.write_str("'\\''"),
            '\\' => f.write_str("'\\\\'"),
            c => write!(f, "'{c}'"),
        }
    }
}

/// The name of a variant, as it is written in the code.
#[derive(Drop)]
struct VariantName(Variant);

impl fmt::Display for VariantName {
    ghost output = { λ name. Some (variant_name name.0) };

    fn fmt<W: fmt::Write>(&self, f: &mut fmt::Formatter<W>) -> fmt::Result {
        f.write_str(match self.0 {
            Variant::Normal => "Normal",
            Variant::Italic => "Italic",
            Variant::Bold => "Bold",
            Variant::BoldItalic => "BoldItalic",
            Variant::DoubleStruck => "DoubleStruck",
            Variant::BoldFraktur => "BoldFraktur",
            Variant::Script => "Script",
            Variant::BoldScript => "BoldScript",
            Variant::Fraktur => "Fraktur",
            Variant::SansSerif => "SansSerif",
            Variant::BoldSansSerif => "BoldSansSerif",
            Variant::SansSerifItalic => "SansSerifItalic",
            Variant::SansSerifBoldItalic => "SansSerifBoldItalic",
            Variant::Monospace => "Monospace",
        })
    }
}

/// The name of an accent, as it is written in the code.
#[derive(Drop)]
struct AccentName(Accent);

impl fmt::Display for AccentName {
    ghost output = { λ name. Some (accent_name name.0) };

    fn fmt<W: fmt::Write>(&self, f: &mut fmt::Formatter<W>) -> fmt::Result {
        f.write_str(match self.0 {
            Accent::True => "True",
            Accent::False => "False",
        })
    }
}

/// What a token contains, which its text has in parentheses.
#[derive(Clone, Copy)]
pub(crate) enum Contents<'a> {
    Nothing,
    Character(char),
    Text(&'a str),
    Width(i32),
    Style(Variant),
    Sign(char, Accent),
    Letter(char, Variant),
}

/// The text of a token, such as `Operator('<')` or `Command("foo")`.
#[derive(Drop)]
pub struct TokenText<'a>(pub &'a Token);

impl fmt::Display for TokenText<'_> {
    ghost output = { λ text. Some (token_text (tok text.0.now)) };

    fn fmt<W: fmt::Write>(&self, f: &mut fmt::Formatter<W>) -> fmt::Result {
        let (name, contents) = self.0.parts();
        f.write_str(name)?;
        write_contents(contents, f)
    }
}

fn write_contents<W: fmt::Write>(contents: Contents<'_>, f: &mut fmt::Formatter<W>) -> fmt::Result
    ensures { WritesOnOk W.write_str_gives f.old result (contents_text contents.entry) f.new }
{
    match contents {
        Contents::Nothing => Ok(()),
        Contents::Character(c) => write!(f, "({})", QuotedChar(c)),
        Contents::Text(text) => write!(f, "({})", Quoted(text)),
        Contents::Width(width) => write!(f, "({width})"),
        Contents::Style(variant) => write!(f, "({})", VariantName(variant)),
        Contents::Sign(c, accent) => write!(f, "({}, {})", QuotedChar(c), AccentName(accent)),
        Contents::Letter(c, variant) => {
            write!(f, "({}, {})", QuotedChar(c), VariantName(variant))
        }
    }
}
