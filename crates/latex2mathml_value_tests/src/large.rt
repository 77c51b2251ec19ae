//! Tests of large values: deeply nested nodes, nodes with many members, and each call that allocates, at small and at large
//! sizes. Each call succeeds if there is memory.

use crate::checks::{are_equal, equals};
use latex2mathml_nodes::ast::Node;
use latex2mathml_samples::places::{PLACES, Place, nested};
use latex2mathml_samples::samples::{Words, leaf};
use latex2mathml_tokens::LatexError;
use latex2mathml_tokens::attribute::{ColumnAlign, Variant};
use latex2mathml_tokens::token::Token;
use std::alloc::{AllocError, Global};
use std::fmt::Display;
use std::test::Fail;

/// Returns the given number of copies of the character.
fn repeat(alloc: Global, c: char, count: usize) -> Result<String, AllocError> {
    let mut text = String::new(alloc);
    for _ in 0..count {
        text.push(c)?;
    }
    Ok(text)
}

/// How deeply a node is nested in others of its kind, where each kind is copied and compared.
const NESTED: usize = 60;

fn print_alike<T: Display>(alloc: Global, one: &T, other: &T) -> Result<bool, AllocError> {
    Ok(one.to_string(alloc)? == other.to_string(alloc)?)
}

/// Whether the value equals its source, and prints as its source does.
fn is_like<T: Display + PartialEq + Drop>(
    alloc: Global,
    value: T,
    source: &T,
) -> Result<bool, AllocError> {
    Ok(value == *source && print_alike(alloc, &value, source)?)
}

/// Whether the node equals its copy, and prints as its copy does.
fn equals_its_copy(alloc: Global, node: &Node) -> Result<bool, AllocError> {
    is_like(alloc, node.clone(alloc)?, node)
}

/// Whether the node, nested in this place, differs from that around another letter, and equals its copy.
fn nest_is_whole(alloc: Global, place: Place, node: &Node) -> Result<bool, AllocError> {
    let other = nested(alloc, place, NESTED, 'y')?;
    Ok(!equals(other, node) && equals_its_copy(alloc, node)?)
}

/// Whether nodes nested in this place equal their copy, differ from those around another letter, and print as their copy does.
/// Each operation looks at an inner node once. Looking twice would double the time with each level, and would not end.
fn is_whole(alloc: Global, place: Place) -> Result<bool, AllocError> {
    let node = nested(alloc, place, NESTED, 'x')?;
    nest_is_whole(alloc, place, &node)
}

#[test]
fn each_kind_in_itself(rt: HostRuntime) -> Result<(), Fail> {
    for (name, place) in &PLACES {
        assert!(rt; is_whole(rt.alloc(), *place)?, "{name}");
    }
    Ok(())
}

/// Returns this many letters.
fn letters(alloc: Global, count: usize) -> Result<Vec<Node>, AllocError> {
    let mut letters = Vec::new(alloc);
    for _ in 0..count {
        letters.push(leaf('x'))?;
    }
    Ok(letters)
}

/// Returns a row of this many letters, followed by the leaf of `last`.
fn wide_row(alloc: Global, count: usize, last: char) -> Result<Node, AllocError> {
    let mut members = letters(alloc, count)?;
    members.push(leaf(last))?;
    Ok(Node::Row(members))
}

const BOLD_LETTER: &str = "<mi mathvariant=\"bold\">x</mi>";

/// Whether a text consists of these parts, with `part` repeated `count` times.
fn is_repeated(text: &str, before: &str, part: &str, count: usize, after: &str) -> bool {
    let Some(mut rest) = text.strip_prefix(before) else {
        return false;
    };
    for _ in 0..count {
        match rest.strip_prefix(part) {
            Some(behind) => rest = behind,
            None => return false,
        }
    }
    rest == after
}

/// Whether the value prints as these texts, with `part` repeated `count` times between them.
fn prints_repeated<T: Display + Drop>(
    alloc: Global,
    value: T,
    before: &str,
    part: &str,
    count: usize,
    after: &str,
) -> Result<bool, AllocError> {
    let printed = value.to_string(alloc)?;
    Ok(is_repeated(printed.as_str(), before, part, count, after))
}

/// Whether a row of letters prints, where each letter prints as `letter`.
fn row_prints<T: Display + Drop>(
    alloc: Global,
    row: T,
    letter: &str,
    count: usize,
) -> Result<bool, AllocError> {
    prints_repeated(alloc, row, "<mrow>", letter, count, "<mo>&lt;</mo></mrow>")
}

/// Whether the row differs from a row that differs in the last member, equals its copy, and prints.
fn wide_row_is_whole(alloc: Global, row: &Node, count: usize) -> Result<bool, AllocError> {
    let other = wide_row(alloc, count, '>')?;
    Ok(
        !equals(other, row)
            && equals_its_copy(alloc, row)?
            && row_prints(alloc, row, "<mi>x</mi>", count)?,
    )
}

/// Whether a row of `count` members and one more equals its copy, differs from a row that differs in the last member, and
/// prints. All of them are then dropped.
fn row_is_whole(alloc: Global, count: usize) -> Result<bool, AllocError> {
    let row = wide_row(alloc, count, '<')?;
    wide_row_is_whole(alloc, &row, count)
}

/// Returns the node in bold.
fn in_bold(mut node: Node) -> Node {
    node.set_variant(Variant::Bold);
    node
}

/// Whether such a row prints in bold once it has that style.
fn row_is_styled(alloc: Global, count: usize) -> Result<bool, AllocError> {
    let row = wide_row(alloc, count, '<')?;
    row_prints(alloc, in_bold(row), BOLD_LETTER, count)
}

/// Whether a matrix of one row that has the given number of letters in one cell prints.
fn matrix_is_printed(alloc: Global, count: usize) -> Result<bool, AllocError> {
    let matrix = Node::Matrix(letters(alloc, count)?, ColumnAlign::Center);
    let before = "<mtable><mtr><mtd>";
    let after = "</mtd></mtr></mtable>";
    prints_repeated(alloc, matrix, before, "<mi>x</mi>", count, after)
}

#[test]
fn wide_rows(rt: HostRuntime) -> Result<(), Fail> {
    for count in [60_000, 1 << 20] {
        assert!(rt; row_is_whole(rt.alloc(), count)?, "{count}");
        assert!(rt; row_is_styled(rt.alloc(), count)?, "{count}");
        assert!(rt; matrix_is_printed(rt.alloc(), count)?, "{count}");
    }
    Ok(())
}

const ROWS: usize = 64;

/// Whether the nested rows print with a bold letter.
fn rows_print<T: Display + Drop>(alloc: Global, rows: T) -> Result<bool, AllocError> {
    let markup = rows.to_string(alloc)?;
    let length = ROWS * "<mrow></mrow>".len() + BOLD_LETTER.len();
    Ok(markup.as_str().contains(BOLD_LETTER) && markup.len() == length)
}

/// Whether a copy equals the nested row, and a copy prints with its letter in bold once it has that style.
fn copies_are_whole(alloc: Global, row: &Node) -> Result<bool, AllocError> {
    let is_copied = equals(row.clone(alloc)?, row);
    Ok(is_copied && rows_print(alloc, in_bold(row.clone(alloc)?))?)
}

/// Whether a nested row equals its copy, and prints with its letter in bold once it has that style. Each operation looks at a
/// member once. Looking twice would double the time with each level, and would not end.
fn nested_row_is_whole(alloc: Global) -> Result<bool, AllocError> {
    let row = nested(alloc, Place::Row(None, None), ROWS, 'x')?;
    copies_are_whole(alloc, &row)
}

#[test]
fn nested_rows(rt: HostRuntime) -> Result<(), Fail> {
    assert!(rt; nested_row_is_whole(rt.alloc())?);
    Ok(())
}

/// Sizes around a page of memory, and beyond what a buffer or a limit would hold.
const SIZES: [usize; 4] = [1, 4096, 4097, 8 << 20];

fn is_copied(alloc: Global, token: &Token) -> Result<bool, AllocError> {
    Ok(equals(token.clone(alloc)?, token))
}

/// Whether a command with a name of this length is itself, and is copied. `\z` is not a command of the table.
fn command_is_whole(alloc: Global, size: usize) -> Result<bool, AllocError> {
    let name = repeat(alloc, 'z', size)?;
    let token = Token::from_command(alloc, name.as_str())?;
    Ok(is_copied(alloc, &token)? && are_equal(token, Token::Command(name)))
}

fn number_is_copied(alloc: Global, size: usize) -> Result<bool, AllocError> {
    is_copied(alloc, &Token::Number(repeat(alloc, '7', size)?))
}

#[test]
fn tokens(rt: HostRuntime) -> Result<(), Fail> {
    for size in SIZES {
        assert!(rt; command_is_whole(rt.alloc(), size)?, "{size}");
        assert!(rt; number_is_copied(rt.alloc(), size)?, "{size}");
    }
    Ok(())
}

/// Whether the node prints as `size` letters between these texts, and equals its copy.
fn letters_are_whole(
    alloc: Global,
    node: &Node,
    size: usize,
    before: &str,
    after: &str,
) -> Result<bool, AllocError> {
    Ok(prints_repeated(alloc, node, before, "z", size, after)? && equals_its_copy(alloc, node)?)
}

/// Whether such a node with a text of this length is copied, and prints.
fn node_is_whole(
    alloc: Global,
    kind: Words,
    size: usize,
    before: &str,
    after: &str,
) -> Result<bool, AllocError> {
    let text = repeat(alloc, 'z', size)?;
    let node = kind.of(alloc, text.as_str())?;
    letters_are_whole(alloc, &node, size, before, after)
}

#[test]
fn nodes(rt: HostRuntime) -> Result<(), Fail> {
    for (kind, before, after) in [
        (Words::Number, "<mn>", "</mn>"),
        (Words::Function, "<mi>", "</mi>"),
        (
            Words::Undefined,
            "<mtext>[PARSE ERROR: Undefined(\"",
            "\")]</mtext>",
        ),
    ] {
        for size in SIZES {
            assert!(rt;
                node_is_whole(rt.alloc(), kind, size, before, after)?,
                "{size}"
            );
        }
    }
    Ok(())
}

/// Returns a refusal with a text of this length.
fn refusal(alloc: Global, size: usize) -> Result<LatexError, AllocError> {
    Ok(LatexError::UnexpectedToken {
        expected: Token::EOF,
        got: Token::Command(repeat(alloc, 'z', size)?),
    })
}

fn refusal_is_copied(alloc: Global, size: usize) -> Result<bool, AllocError> {
    let refusal = refusal(alloc, size)?;
    let copy = refusal.clone(alloc)?;
    Ok(are_equal(copy, refusal))
}

/// Whether a refusal with a text of this length prints.
fn refusal_is_told(alloc: Global, size: usize) -> Result<bool, AllocError> {
    let before = "The token \"EOF\" is expected, but the token \"Command(\"";
    let after = "\")\" is found.\"";
    prints_repeated(alloc, refusal(alloc, size)?, before, "z", size, after)
}

#[test]
fn refusals(rt: HostRuntime) -> Result<(), Fail> {
    for size in SIZES {
        assert!(rt; refusal_is_copied(rt.alloc(), size)?, "{size}");
        assert!(rt; refusal_is_told(rt.alloc(), size)?, "{size}");
    }
    Ok(())
}
