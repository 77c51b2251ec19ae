//! Tests of each ASCII character, and of others of each length, in each text that is printed.

use crate::checks::prints_around;
use crate::commands::is_itself;
use latex2mathml_nodes::ast::Node;
use latex2mathml_samples::samples::Words;
use latex2mathml_tokens::LatexError;
use latex2mathml_tokens::attribute::Variant;
use latex2mathml_tokens::token::Token;
use std::alloc::{AllocError, Global};
use std::test::Fail;

/// Characters of two, three and four bytes: the first and the last of each length, and some that formulas have.
const WIDE: [char; 10] = [
    '\u{80}',
    'é',
    '\u{7FF}',
    '\u{800}',
    '∞',
    '\u{2028}',
    '\u{FFFF}',
    '\u{10000}',
    '𝑥',
    '\u{10FFFF}',
];

/// Returns the character as contents.
fn content(c: char, room: &mut [u8; 4]) -> &str {
    match c {
        '&' => "&amp;",
        '<' => "&lt;",
        '>' => "&gt;",
        '$' => "&#x24;",
        c => c.encode_utf8(room),
    }
}

/// Returns the character in quotation marks, as contents.
fn quoted_content(c: char, room: &mut [u8; 4]) -> &str {
    match c {
        '"' => "\\\"",
        '\\' => "\\\\",
        c => content(c, room),
    }
}

/// Returns the character in quotation marks.
fn quote(c: char, room: &mut [u8; 4]) -> &str {
    match c {
        '"' => "\\\"",
        '\\' => "\\\\",
        c => c.encode_utf8(room),
    }
}

/// Returns the character in apostrophes.
fn in_apostrophes(c: char, room: &mut [u8; 4]) -> &str {
    match c {
        '\'' => "\\'",
        '\\' => "\\\\",
        c => c.encode_utf8(room),
    }
}

/// Whether the letter prints as the contents with this tag before them.
fn letter_prints(
    alloc: Global,
    c: char,
    variant: Variant,
    tag: &str,
    contents: &str,
) -> Result<bool, AllocError> {
    prints_around(alloc, Node::Letter(c, variant), tag, contents, "</mi>")
}

/// Whether the character alone prints as expected.
fn stands_for_itself(alloc: Global, c: char) -> Result<bool, AllocError> {
    let mut room = [0; 4];
    let contents = content(c, &mut room);
    Ok(
        letter_prints(alloc, c, Variant::Italic, "<mi>", contents)?
            && letter_prints(
                alloc,
                c,
                Variant::Bold,
                "<mi mathvariant=\"bold\">",
                contents,
            )?
            && prints_around(alloc, Node::Operator(c), "<mo>", contents, "</mo>")?,
    )
}

/// Whether such a node with this text prints as the contents with these texts around them.
fn words_print(
    alloc: Global,
    kind: Words,
    text: &str,
    before: &str,
    contents: &str,
    after: &str,
) -> Result<bool, AllocError> {
    prints_around(alloc, kind.of(alloc, text)?, before, contents, after)
}

/// Whether a text that contains the character prints as expected.
fn stands_in_texts(alloc: Global, c: char) -> Result<bool, AllocError> {
    let mut room = [0; 4];
    let contents = content(c, &mut room);
    let text = format!(in alloc; "1{c}2")?;
    let text = text.as_str();
    Ok(
        words_print(alloc, Words::Number, text, "<mn>1", contents, "2</mn>")?
            && words_print(alloc, Words::Function, text, "<mi>1", contents, "2</mi>")?,
    )
}

/// Whether a marked error shows the character.
fn stands_in_errors(alloc: Global, c: char) -> Result<bool, AllocError> {
    let mut room = [0; 4];
    let text = format!(in alloc; "{c}z")?;
    words_print(
        alloc,
        Words::Undefined,
        text.as_str(),
        "<mtext>[PARSE ERROR: Undefined(\"",
        quoted_content(c, &mut room),
        "z\")]</mtext>",
    )
}

/// Whether an unknown command that contains the character is itself.
fn command_is_itself(alloc: Global, c: char) -> Result<bool, AllocError> {
    let name = format!(in alloc; "zz{c}")?;
    is_itself(alloc, name.as_str())
}

/// Whether a refusal shows the character alone.
fn refusal_tells_character(alloc: Global, c: char) -> Result<bool, AllocError> {
    let mut room = [0; 4];
    let refusal = LatexError::UnexpectedToken {
        expected: Token::Illegal(c),
        got: Token::EOF,
    };
    let after = "')\" is expected, but the token \"EOF\" is found.\"";
    prints_around(
        alloc,
        refusal,
        "The token \"Illegal('",
        in_apostrophes(c, &mut room),
        after,
    )
}

/// Whether a refusal shows the character in a text.
fn refusal_tells_text(alloc: Global, c: char) -> Result<bool, AllocError> {
    let mut room = [0; 4];
    let name = format!(in alloc; "{c}")?;
    let refusal = LatexError::UnexpectedToken {
        expected: Token::EOF,
        got: Token::Command(name),
    };
    let before = "The token \"EOF\" is expected, but the token \"Command(\"";
    prints_around(
        alloc,
        refusal,
        before,
        quote(c, &mut room),
        "\")\" is found.\"",
    )
}

fn is_told(alloc: Global, c: char) -> Result<bool, AllocError> {
    Ok(
        stands_for_itself(alloc, c)?
            && stands_in_texts(alloc, c)?
            && stands_in_errors(alloc, c)?
            && command_is_itself(alloc, c)?
            && refusal_tells_character(alloc, c)?
            && refusal_tells_text(alloc, c)?,
    )
}

#[test]
fn ascii_characters(rt: HostRuntime) -> Result<(), Fail> {
    for byte in 0..128u8 {
        assert!(rt; is_told(rt.alloc(), char::from(byte))?, "{byte}");
    }
    Ok(())
}

#[test]
fn wide_characters(rt: HostRuntime) -> Result<(), Fail> {
    for c in WIDE {
        assert!(rt; is_told(rt.alloc(), c)?, "{c}");
    }
    Ok(())
}
