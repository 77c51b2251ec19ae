//! The slice at the start of a text, and the lexeme that it is.
ghost use Rattle.std.specs.Prelude.{◌≡◌, ◌≢◌, ◌≤◌, ◌<◌, ◌+◌, ◌^◌, ◌∷◌, ◌||◌, [], Bool, false, not, IsFalse, Some, MatchOption};
ghost use Rattle.std.specs.{Char.is_ascii_digit, Str.byte, Str.chars};
ghost use Rattle.latex2mathml_grammar.specs.{Characters.Begins, Characters.is_space, Spelling.begins_longer, Spelling.character_token};
ghost use Rattle.latex2mathml_grammar.specs.Beginnings.{BeginsWith, BeginsWithNumber};
ghost use Rattle.latex2mathml_parser.specs.Lexing.{BeginsWithName, IsStart};
ghost use Rattle.latex2mathml_parser.specs.Lexing;
ghost use Rattle.latex2mathml_tokens.specs.{Lexemes.lexeme_tok, Tok.takes_digit};

use crate::lexer::characters::{
    Class, after_char, after_one, before, first_ascii, first_char, is_space, skip_run, skip_space,
};
use latex2mathml_tokens::attribute::Variant;
use latex2mathml_tokens::lexeme::Lexeme;
use latex2mathml_tokens::names::Paren;

/// Where the next slice of a text begins.
#[derive(Clone, Copy)]
pub(crate) struct Start<'a> {
    /// The text from there.
    pub(crate) text: &'a str,
    /// Whether a digit there is a number of its own.
    pub(crate) alone: bool,
    /// The slice's first character and what follows it, or `None` where only white space is left.
    pub(crate) first: Option<(char, &'a str)>,
}

/// Finds where the next slice of the text begins, after white space. `takes` says that a digit at the front of the text
/// is a number of its own.
#[inline(always)]
pub(crate) fn find_start<'a>(text: &'a str, takes: bool) -> Start<'a>
    ensures start { IsStart takes (chars text.now) (chars result.text.now) result.alone }
    ensures first { MatchOption result.first (chars result.text.now ≡ [])
        (λ found. chars result.text.now ≡ found.0 ∷ chars found.1.now) }
{
    let first = first_char(text);
    if let Some((c, after)) = first {
        if is_space(c) {
            let behind = skip_space(after);
            return Start {
                text: behind,
                alone: false,
                first: first_char(behind),
            };
        }
    }
    Start {
        text,
        alone: takes,
        first,
    }
}

/// Writes the lexeme at the start of the text, and returns what follows it, where the text is `c` followed by `after`, and
/// `c` is not a backslash. `alone` says that a digit is a number of its own.
pub(crate) fn slice_at<'a>(
    text: &'a str,
    c: char,
    after: &'a str,
    alone: bool,
    lexeme: &mut Lexeme<'a>,
) -> &'a str
    requires starts { chars text.now ≡ c ∷ chars after.now }
    requires no_space { IsFalse (is_space c) }
    requires no_backslash { c ≢ byte "\\" }
    ensures lexeme { BeginsWith alone (chars text.now) (lexeme_tok lexeme.new) (chars result.now) }
    ensures no_digit { IsFalse (takes_digit (Some (lexeme_tok lexeme.new))) }
{
    if c.is_ascii_digit() {
        if is_lone(after, alone) {
            *lexeme = Lexeme::Number(before(text, after));
            return after;
        }
        let rest = skip_number(text);
        *lexeme = Lexeme::Number(before(text, rest));
        return rest;
    }
    if c == ':' {
        return match after_char(after, '=') {
            Some(rest) => {
                *lexeme = Lexeme::Paren(Paren::Assign);
                rest
            }
            None => {
                *lexeme = Lexeme::Operator(':');
                after
            }
        };
    }
    character(c, lexeme);
    after
}

/// Whether the character is a slice, whatever surrounds it.
pub(crate) fn stands_alone(c: char) -> bool
    ensures { result ≡ not (begins_longer c || is_space c) }
{
    // Each character with a greater code point than the backslash does, and most characters are such.
    c > '\\' || !(c.is_ascii_digit() || c == '\\' || c == ':' || is_space(c))
}

/// Writes the lexeme of a character that is a token by itself.
#[inline(always)]
pub(crate) fn character(c: char, lexeme: &mut Lexeme<'_>)
    requires { IsFalse (begins_longer c) }
    ensures lexeme { lexeme_tok lexeme.new ≡ character_token c }
    ensures no_digit { IsFalse (takes_digit (Some (lexeme_tok lexeme.new))) }
{
    match c {
        '=' | '<' | '>' | '+' | '-' | '*' | '/' => *lexeme = Lexeme::Operator(c),
        ';' | ',' | '.' | '!' | '\'' => *lexeme = Lexeme::Operator(c),
        '(' => *lexeme = Lexeme::Paren(Paren::LeftRound),
        ')' => *lexeme = Lexeme::Paren(Paren::RightRound),
        '[' => *lexeme = Lexeme::Paren(Paren::LeftSquare),
        ']' => *lexeme = Lexeme::Paren(Paren::RightSquare),
        '|' => *lexeme = Lexeme::Paren(Paren::Bar),
        '{' => *lexeme = Lexeme::LBrace,
        '}' => *lexeme = Lexeme::RBrace,
        '_' => *lexeme = Lexeme::Underscore,
        '^' => *lexeme = Lexeme::Circumflex,
        '&' => *lexeme = Lexeme::Ampersand,
        '\u{0}' => *lexeme = Lexeme::Illegal('\u{0}'),
        c if c.is_ascii_alphabetic() => *lexeme = Lexeme::Letter(c, Variant::Italic),
        c => *lexeme = Lexeme::Letter(c, Variant::Normal),
    }
}

/// Whether a digit is a number by itself, where `after` follows it. `alone` says that any digit is.
#[inline(always)]
pub(crate) fn is_lone(after: &str, alone: bool) -> bool
    ensures { result ≡ Lexing.is_lone alone (chars after.now) }
{
    if alone {
        return true;
    }
    let Some((c, _)) = first_ascii(after) else {
        return true;
    };
    !(c.is_ascii_digit() || c == '.')
}

/// Returns what follows the number at the start of the text.
#[inline(never)]
fn skip_number(text: &str) -> &str
    requires { Begins is_ascii_digit (chars text.now) }
    ensures { BeginsWithNumber (chars text.now) (chars result.now) }
{
    let behind = skip_run(Class::Digit, text);
    match after_char(behind, '.') {
        Some(after) => skip_run(Class::Digit, after),
        None => behind,
    }
}

/// Writes the lexeme of the command, what follows it, and whether a digit that directly follows is a number of its own,
/// and counts how many names were compared. The text begins after the backslash.
#[inline(never)]
pub(crate) fn command<'a>(
    text: &'a str,
    lexeme: &mut Lexeme<'a>,
    rest: &mut &'a str,
    alone: &mut bool,
    comparisons: &mut u128,
)
    requires room { comparisons.old + 9 < 2 ^ 128 }
    ensures lexeme { (any : Bool) → BeginsWith any
        (byte "\\" ∷ chars text.now) (lexeme_tok lexeme.new) (chars rest.new.now) }
    ensures alone { alone.new ≡ takes_digit (Some (lexeme_tok lexeme.new)) }
    ensures at_least { comparisons.old + 1 ≤ comparisons.new }
    ensures at_most { comparisons.new ≤ comparisons.old + 9 }
{
    let behind = skip_command_name(text);
    let name = before(text, behind);
    // Written before the look-up, which then has fewer values to keep.
    *rest = behind;
    let (found, compared) = Lexeme::of_command(name);
    *alone = found.takes_digit();
    *comparisons += u128::from(compared);
    *lexeme = found;
}

/// Returns what follows the name of the command. The text begins after the backslash.
fn skip_command_name(text: &str) -> &str
    ensures { BeginsWithName (chars text.now) (chars result.now) }
{
    if let Some(after) = after_one(Class::Letter, text) {
        return skip_run(Class::Letter, after);
    }
    match first_char(text) {
        Some((_, after)) => after,
        None => text,
    }
}
