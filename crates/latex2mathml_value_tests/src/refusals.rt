//! Tests of refusals made by hand: their texts, copies and equality.

use crate::checks::{equals, prints};
use latex2mathml_tokens::LatexError;
use latex2mathml_tokens::token::Token;
use std::alloc::{AllocError, Global};
use std::test::Fail;

type Samples = Vec<(LatexError, &'static str)>;

/// A token of a refusal, as a plain value.
#[derive(Clone, Copy)]
enum Named {
    Eof,
    LBrace,
    RBrace,
    Left,
    Right,
    Middle,
    LessThan,
    NoParenthesis,
}

impl Named {
    fn token(self) -> Token {
        match self {
            Named::Eof => Token::EOF,
            Named::LBrace => Token::LBrace,
            Named::RBrace => Token::RBrace,
            Named::Left => Token::Left,
            Named::Right => Token::Right,
            Named::Middle => Token::Middle,
            Named::LessThan => Token::Operator('<'),
            Named::NoParenthesis => Token::Paren(""),
        }
    }
}

/// A refusal as plain values.
#[derive(Clone, Copy)]
enum Sample {
    /// What is expected, and what is found.
    Unexpected(Named, Named),
    /// A parenthesis without text is expected, and a number is found.
    UnexpectedNumber(&'static str),
    /// Where a parenthesis is missing, and what is found.
    Missing(Named, Named),
    Environment(&'static str),
    Dollars,
    OutOfMemory,
}

impl Sample {
    fn refusal(self, alloc: Global) -> Result<LatexError, AllocError> {
        Ok(match self {
            Sample::Unexpected(expected, got) => LatexError::UnexpectedToken {
                expected: expected.token(),
                got: got.token(),
            },
            Sample::UnexpectedNumber(digits) => LatexError::UnexpectedToken {
                expected: Token::Paren(""),
                got: Token::Number(String::from_str(alloc, digits)?),
            },
            Sample::Missing(location, got) => LatexError::MissingParensethis {
                location: location.token(),
                got: got.token(),
            },
            Sample::Environment(name) => {
                LatexError::UnknownEnvironment(String::from_str(alloc, name)?)
            }
            Sample::Dollars => LatexError::InvalidNumberOfDollarSigns,
            Sample::OutOfMemory => LatexError::OutOfMemory,
        })
    }
}

/// Refusals of each kind, all of them different, and the text of each.
static SAMPLES: [(Sample, &str); 18] = [
    (
        Sample::Unexpected(Named::RBrace, Named::Eof),
        "The token \"RBrace\" is expected, but the token \"EOF\" is found.\"",
    ),
    (
        Sample::Unexpected(Named::RBrace, Named::LBrace),
        "The token \"RBrace\" is expected, but the token \"LBrace\" is found.\"",
    ),
    (
        Sample::Unexpected(Named::LBrace, Named::Eof),
        "The token \"LBrace\" is expected, but the token \"EOF\" is found.\"",
    ),
    (
        Sample::Unexpected(Named::Left, Named::Eof),
        "The token \"Left\" is expected, but the token \"EOF\" is found.\"",
    ),
    (
        Sample::Unexpected(Named::NoParenthesis, Named::Eof),
        "The token \"Paren(\"\")\" is expected, but the token \"EOF\" is found.\"",
    ),
    (
        Sample::UnexpectedNumber("1"),
        "The token \"Paren(\"\")\" is expected, but the token \"Number(\"1\")\" is found.\"",
    ),
    (
        Sample::Missing(Named::Left, Named::LessThan),
        "There must be a parenthesis after \"Left\", but not found. Insted, \"Operator('<')\" is found.",
    ),
    (
        Sample::Missing(Named::Middle, Named::Eof),
        "There must be a parenthesis after \"Middle\", but not found. Insted, \"EOF\" is found.",
    ),
    (
        Sample::Missing(Named::Left, Named::Eof),
        "There must be a parenthesis after \"Left\", but not found. Insted, \"EOF\" is found.",
    ),
    (
        Sample::Missing(Named::Right, Named::Eof),
        "There must be a parenthesis after \"Right\", but not found. Insted, \"EOF\" is found.",
    ),
    (
        Sample::Missing(Named::Left, Named::Right),
        "There must be a parenthesis after \"Left\", but not found. Insted, \"Right\" is found.",
    ),
    (
        Sample::Environment("foo"),
        "An unknown environment \"foo\" is found",
    ),
    (
        Sample::Environment(""),
        "An unknown environment \"\" is found",
    ),
    (
        Sample::Environment("<\"\\&"),
        "An unknown environment \"<\"\\&\" is found",
    ),
    (
        Sample::Environment("a"),
        "An unknown environment \"a\" is found",
    ),
    (
        Sample::Environment("b"),
        "An unknown environment \"b\" is found",
    ),
    (
        Sample::Dollars,
        "The number of dollar sings found is invalid.",
    ),
    (Sample::OutOfMemory, "Memory could not be found."),
];

fn samples(alloc: Global) -> Result<Samples, AllocError> {
    let mut samples = Vec::new(alloc);
    for (sample, text) in &SAMPLES {
        samples.push((sample.refusal(alloc)?, *text))?;
    }
    Ok(samples)
}

#[test]
fn each_has_its_text(rt: HostRuntime) -> Result<(), Fail> {
    for (refusal, text) in &samples(rt.alloc())? {
        assert!(rt; prints(rt.alloc(), refusal, text)?, "{text}");
    }
    Ok(())
}

#[test]
fn copies_are_equal(rt: HostRuntime) -> Result<(), Fail> {
    for (refusal, text) in &samples(rt.alloc())? {
        assert!(rt; equals(refusal.clone(rt.alloc())?, refusal), "{text}");
    }
    Ok(())
}

#[test]
fn different_refusals_differ(rt: HostRuntime) -> Result<(), Fail> {
    let samples = samples(rt.alloc())?;
    for (i, (a, first)) in samples.iter().enumerate() {
        for (j, (b, second)) in samples.iter().enumerate() {
            assert!(rt; (*a == *b) == (i == j), "{first} {second}");
        }
    }
    Ok(())
}
