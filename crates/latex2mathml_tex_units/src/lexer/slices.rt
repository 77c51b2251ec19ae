//! The slice at the start of a text, and the piece that it is.
ghost use Rattle.std.specs.Prelude.{◌≡◌, ◌∷◌, IsFalse};
ghost use Rattle.std.specs.{Str.byte, Str.chars};
ghost use Rattle.latex2mathml_tex_grammar.specs.Units;
ghost use Rattle.latex2mathml_tex_grammar.specs.Units.{is_special};
ghost use Rattle.latex2mathml_tex_units.specs.Taking.{IsCommentEnd, IsNear, IsStart};

use crate::lexer::characters::{
    Class, before, first_char, is_forbidden, is_space, skip_run, skip_space, split_letters,
};
use crate::unit::{Fault, Piece};

/// What is at the start of a text.
#[derive(Clone, Copy)]
pub(crate) enum Start<'a> {
    /// Nothing: the text is empty.
    Empty,
    /// A piece, and what follows it.
    Piece(Piece<'a>, &'a str),
    /// A comment, and what follows it.
    Comment(&'a str),
    /// What is no unit, this many bytes after the start.
    Fault(Fault, usize),
}

/// Finds what is at the start of the text.
#[inline(always)]
pub(crate) fn front(text: &str) -> Start<'_>
    ensures start { IsStart (chars text.now) result }
    ensures near { IsNear result }
{
    let Some((c, after)) = first_char(text) else {
        return Start::Empty;
    };
    match c {
        '{' => Start::Piece(Piece::Open, after),
        '}' => Start::Piece(Piece::Close, after),
        '%' => Start::Comment(skip_comment(after)),
        '\\' => command(after),
        c => {
            if is_space(c) {
                Start::Piece(Piece::Space, skip_space(after))
            } else {
                character(c, after)
            }
        }
    }
}

/// Finds what is at the start of a text that begins with this character, which begins no other unit.
fn character<'a>(c: char, after: &'a str) -> Start<'a>
    requires { IsFalse (is_special c) }
    ensures start { IsStart (c ∷ chars after.now) result }
    ensures near { IsNear result }
{
    if is_forbidden(c) {
        Start::Fault(Fault::Forbidden(c), 0)
    } else {
        Start::Piece(Piece::Character(c), after)
    }
}

/// Returns what follows a comment. The text begins after the `%` of the comment.
fn skip_comment(text: &str) -> &str
    ensures { IsCommentEnd (chars text.now) (chars result.now) }
{
    let end = skip_run(Class::Line, text);
    match first_char(end) {
        Some((_, after)) => after,
        None => end,
    }
}

/// Finds what is at the start of a text that consists of a backslash and this text.
#[inline(always)]
pub(crate) fn command(text: &str) -> Start<'_>
    ensures start { IsStart (byte "\\" ∷ chars text.now) result }
    ensures near { IsNear result }
{
    let (name, behind) = split_letters(text);
    if !name.is_empty() {
        return Start::Piece(Piece::Command(name), skip_space(behind));
    }
    let Some((c, after)) = first_char(text) else {
        return Start::Fault(Fault::LoneBackslash, 0);
    };
    if is_forbidden(c) {
        return Start::Fault(Fault::Forbidden(c), 1);
    }
    Start::Piece(Piece::Command(symbol_name(c, text, after)), after)
}

/// Returns the name of a command that is this one character. The text is the character followed by `after`.
fn symbol_name<'a>(c: char, text: &'a str, after: &str) -> &'a str
    requires { chars text.now ≡ c ∷ chars after.now }
    ensures { result.now ≡ Units.symbol_name c }
{
    if is_space(c) {
        return " ";
    }
    before(text, after)
}
