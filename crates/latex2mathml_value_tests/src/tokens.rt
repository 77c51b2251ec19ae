//! Tests of tokens made by hand: their texts, as refusals name them, their copies and their equality.

use crate::checks::{equals, prints_around};
use latex2mathml_tokens::attribute::{Accent, Variant};
use latex2mathml_tokens::lexeme::Lexeme;
use latex2mathml_tokens::token::Token;
use latex2mathml_tokens::{DisplayStyle, LatexError};
use std::alloc::{AllocError, Global};
use std::test::Fail;

/// Whether the token has this text.
fn has_text(alloc: Global, token: Token, text: &str) -> Result<bool, AllocError> {
    let refusal = LatexError::UnexpectedToken {
        expected: token,
        got: Token::EOF,
    };
    let after = "\" is expected, but the token \"EOF\" is found.\"";
    prints_around(alloc, refusal, "The token \"", text, after)
}

/// A token as plain values, which can be in a table.
#[derive(Clone, Copy)]
enum Sample {
    Of(Lexeme<'static>),
    Paren(&'static str),
    Lim(&'static str),
    Big(&'static str),
    Function(&'static str),
}

impl Sample {
    fn token(self, alloc: Global) -> Result<Token, AllocError> {
        match self {
            Sample::Of(lexeme) => lexeme.token(alloc),
            Sample::Paren(text) => Ok(Token::Paren(text)),
            Sample::Lim(text) => Ok(Token::Lim(text)),
            Sample::Big(text) => Ok(Token::Big(text)),
            Sample::Function(text) => Ok(Token::Function(text)),
        }
    }
}

/// The tokens without contents.
static BARE: [(Sample, &str); 19] = [
    (Sample::Of(Lexeme::EOF), "EOF"),
    (Sample::Of(Lexeme::Begin), "Begin"),
    (Sample::Of(Lexeme::End), "End"),
    (Sample::Of(Lexeme::Ampersand), "Ampersand"),
    (Sample::Of(Lexeme::NewLine), "NewLine"),
    (Sample::Of(Lexeme::Left), "Left"),
    (Sample::Of(Lexeme::Right), "Right"),
    (Sample::Of(Lexeme::Middle), "Middle"),
    (Sample::Of(Lexeme::LBrace), "LBrace"),
    (Sample::Of(Lexeme::RBrace), "RBrace"),
    (Sample::Of(Lexeme::Frac), "Frac"),
    (Sample::Of(Lexeme::Underscore), "Underscore"),
    (Sample::Of(Lexeme::Circumflex), "Circumflex"),
    (Sample::Of(Lexeme::Overset), "Overset"),
    (Sample::Of(Lexeme::Underset), "Underset"),
    (Sample::Of(Lexeme::Sqrt), "Sqrt"),
    (Sample::Of(Lexeme::OperatorName), "OperatorName"),
    (Sample::Of(Lexeme::Slashed), "Slashed"),
    (Sample::Of(Lexeme::Text), "Text"),
];

/// Each kind that holds one character, with two of them.
static OF_CHARACTERS: [(Sample, &str); 12] = [
    (Sample::Of(Lexeme::Illegal('\0')), "Illegal('\0')"),
    (Sample::Of(Lexeme::Illegal('"')), "Illegal('\"')"),
    (Sample::Of(Lexeme::Overbrace('⏞')), "Overbrace('⏞')"),
    (Sample::Of(Lexeme::Overbrace('\'')), "Overbrace('\\'')"),
    (Sample::Of(Lexeme::Underbrace('⏟')), "Underbrace('⏟')"),
    (Sample::Of(Lexeme::Underbrace('⏞')), "Underbrace('⏞')"),
    (Sample::Of(Lexeme::Integral('∫')), "Integral('∫')"),
    (Sample::Of(Lexeme::Integral('∮')), "Integral('∮')"),
    (Sample::Of(Lexeme::Operator('<')), "Operator('<')"),
    (Sample::Of(Lexeme::Operator('\'')), "Operator('\\'')"),
    (Sample::Of(Lexeme::BigOp('∑')), "BigOp('∑')"),
    (Sample::Of(Lexeme::BigOp('\\')), "BigOp('\\\\')"),
];

/// Each kind that holds a text, with two of them.
static OF_TEXTS: [(Sample, &str); 12] = [
    (Sample::Paren("("), "Paren(\"(\")"),
    (Sample::Paren(""), "Paren(\"\")"),
    (Sample::Lim("lim"), "Lim(\"lim\")"),
    (Sample::Lim("lim sup"), "Lim(\"lim sup\")"),
    (Sample::Big("1.2em"), "Big(\"1.2em\")"),
    (Sample::Big("\"\\'"), "Big(\"\\\"\\\\'\")"),
    (Sample::Function("sin"), "Function(\"sin\")"),
    (Sample::Function("lim"), "Function(\"lim\")"),
    (Sample::Of(Lexeme::Number("1")), "Number(\"1\")"),
    (Sample::Of(Lexeme::Number("3.14")), "Number(\"3.14\")"),
    (Sample::Of(Lexeme::Command("1")), "Command(\"1\")"),
    (
        Sample::Of(Lexeme::Command("\"\\'")),
        "Command(\"\\\"\\\\'\")",
    ),
];

/// Each other kind, with contents that differ in only one part.
static OF_PARTS: [(Sample, &str); 17] = [
    (Sample::Of(Lexeme::Binom(None)), "Binom(None)"),
    (
        Sample::Of(Lexeme::Binom(Some(DisplayStyle::Block))),
        "Binom(Some(Block))",
    ),
    (
        Sample::Of(Lexeme::Binom(Some(DisplayStyle::Inline))),
        "Binom(Some(Inline))",
    ),
    (Sample::Of(Lexeme::Space(0)), "Space(0)"),
    (Sample::Of(Lexeme::Space(3)), "Space(3)"),
    (Sample::Of(Lexeme::Space(-3)), "Space(-3)"),
    (Sample::Of(Lexeme::Space(i32::MAX)), "Space(2147483647)"),
    (Sample::Of(Lexeme::Space(i32::MIN)), "Space(-2147483648)"),
    (
        Sample::Of(Lexeme::Over('^', Accent::True)),
        "Over('^', True)",
    ),
    (
        Sample::Of(Lexeme::Over('^', Accent::False)),
        "Over('^', False)",
    ),
    (
        Sample::Of(Lexeme::Over('\'', Accent::True)),
        "Over('\\'', True)",
    ),
    (
        Sample::Of(Lexeme::Under('_', Accent::True)),
        "Under('_', True)",
    ),
    (
        Sample::Of(Lexeme::Under('_', Accent::False)),
        "Under('_', False)",
    ),
    (
        Sample::Of(Lexeme::Under('^', Accent::True)),
        "Under('^', True)",
    ),
    (
        Sample::Of(Lexeme::Letter('x', Variant::Italic)),
        "Letter('x', Italic)",
    ),
    (
        Sample::Of(Lexeme::Letter('x', Variant::Normal)),
        "Letter('x', Normal)",
    ),
    (
        Sample::Of(Lexeme::Letter('\\', Variant::Italic)),
        "Letter('\\\\', Italic)",
    ),
];

/// A style of each variant.
static OF_VARIANTS: [(Sample, &str); 14] = [
    (Sample::Of(Lexeme::Style(Variant::Normal)), "Style(Normal)"),
    (Sample::Of(Lexeme::Style(Variant::Italic)), "Style(Italic)"),
    (Sample::Of(Lexeme::Style(Variant::Bold)), "Style(Bold)"),
    (
        Sample::Of(Lexeme::Style(Variant::BoldItalic)),
        "Style(BoldItalic)",
    ),
    (
        Sample::Of(Lexeme::Style(Variant::DoubleStruck)),
        "Style(DoubleStruck)",
    ),
    (
        Sample::Of(Lexeme::Style(Variant::BoldFraktur)),
        "Style(BoldFraktur)",
    ),
    (Sample::Of(Lexeme::Style(Variant::Script)), "Style(Script)"),
    (
        Sample::Of(Lexeme::Style(Variant::BoldScript)),
        "Style(BoldScript)",
    ),
    (
        Sample::Of(Lexeme::Style(Variant::Fraktur)),
        "Style(Fraktur)",
    ),
    (
        Sample::Of(Lexeme::Style(Variant::SansSerif)),
        "Style(SansSerif)",
    ),
    (
        Sample::Of(Lexeme::Style(Variant::BoldSansSerif)),
        "Style(BoldSansSerif)",
    ),
    (
        Sample::Of(Lexeme::Style(Variant::SansSerifItalic)),
        "Style(SansSerifItalic)",
    ),
    (
        Sample::Of(Lexeme::Style(Variant::SansSerifBoldItalic)),
        "Style(SansSerifBoldItalic)",
    ),
    (
        Sample::Of(Lexeme::Style(Variant::Monospace)),
        "Style(Monospace)",
    ),
];

type Samples = Vec<(Token, &'static str)>;

/// Returns tokens of each kind, all of them different, and the text of each.
fn samples(alloc: Global) -> Result<Samples, AllocError> {
    let mut samples = Vec::new(alloc);
    for table in [
        &BARE[..],
        &OF_CHARACTERS[..],
        &OF_TEXTS[..],
        &OF_PARTS[..],
        &OF_VARIANTS[..],
    ] {
        for (sample, text) in table {
            samples.push((sample.token(alloc)?, *text))?;
        }
    }
    Ok(samples)
}

#[test]
fn each_kind_has_its_text(rt: HostRuntime) -> Result<(), Fail> {
    for (token, text) in samples(rt.alloc())? {
        assert!(rt; has_text(rt.alloc(), token, text)?, "{text}");
    }
    Ok(())
}

#[test]
fn copies_are_equal(rt: HostRuntime) -> Result<(), Fail> {
    let samples = samples(rt.alloc())?;
    for (token, text) in &samples {
        assert!(rt; equals(token.clone(rt.alloc())?, token), "{text}");
    }
    Ok(())
}

#[test]
fn different_tokens_differ(rt: HostRuntime) -> Result<(), Fail> {
    let samples = samples(rt.alloc())?;
    for (i, (a, first)) in samples.iter().enumerate() {
        for (j, (b, second)) in samples.iter().enumerate() {
            assert!(rt; (*a == *b) == (i == j), "{first} {second}");
        }
    }
    Ok(())
}
