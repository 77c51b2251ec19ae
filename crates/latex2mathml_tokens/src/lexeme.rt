//! Tokens that borrow their texts. The lexer and the parser pass them by value, and a refusal makes a [`Token`] of a lexeme.
ghost use Rattle.std.specs.Prelude.{◌≡◌, ◌≤◌, IfOk, IsFalse, IsOk, Some};
ghost use Rattle.latex2mathml_tokens.specs.{Commands.command_token, Lexemes.lexeme_tok, Lexemes.owns_text, Tok.takes_digit, Tok.tok};

use crate::DisplayStyle;
use crate::attribute::{Accent, Variant};
use crate::names::{FunctionName, LimitName, Paren, Size};
use crate::token::search::look_up;
use crate::token::{Token, with_kinds};
use std::alloc::{AllocError, Global};

/// The token of a lexeme, with a text of its own.
macro_rules! owned {
    ($lexeme:ident, $alloc:ident;
     $($bare:ident)*; $($character:ident)*; $($one:ident)*; $($named:ident)*; $($two:ident)*; $($text:ident)*) => {
        match $lexeme {
            $(Lexeme::$bare => Token::$bare,)*
            $(Lexeme::$character(c) => Token::$character(c),)*
            $(Lexeme::$one(x) => Token::$one(x),)*
            $(Lexeme::$named(name) => Token::$named(name.text()),)*
            $(Lexeme::$two(x, y) => Token::$two(x, y),)*
            $(Lexeme::$text(text) => Token::$text(String::from_str($alloc, text)?),)*
        }
    };
}

/// What a slice of a formula represents, like [`Token`], but without memory of its own. It has the variants of `Token`, which says
/// what they mean, with names in place of the texts that have one.
#[derive(Clone, Copy)]
pub enum Lexeme<'a> {
    Illegal(char),
    EOF,
    Begin,
    End,
    Ampersand,
    NewLine,
    Left,
    Right,
    Middle,
    Paren(Paren),
    LBrace,
    RBrace,
    Frac,
    Underscore,
    Circumflex,
    Binom(Option<DisplayStyle>),
    Overset,
    Underset,
    Overbrace(char),
    Underbrace(char),
    Sqrt,
    Integral(char),
    Lim(LimitName),
    Space(i32),
    Style(Variant),
    Big(Size),
    Over(char, Accent),
    Under(char, Accent),
    Operator(char),
    BigOp(char),
    Letter(char, Variant),
    Number(&'a str),
    Function(FunctionName),
    OperatorName,
    Slashed,
    Text,
    Command(&'a str),
}

impl<'a> Lexeme<'a> {
    /// Returns the lexeme of the command with this name, which is given without its backslash, and how many names of the
    /// command table were compared with it.
    #[tactic(auto, unfolding(crate::specs::Commands::command_token))]
    pub fn of_command(name: &'a str) -> (Lexeme<'a>, u64)
        ensures lexeme { lexeme_tok result.0 ≡ command_token name.now }
        ensures at_least { 1 ≤ result.1 }
        ensures at_most { result.1 ≤ 9 }
    {
        let (found, comparisons) = look_up(name);
        let lexeme = match found {
            Some(lexeme) => lexeme,
            None => Lexeme::Command(name),
        };
        (lexeme, comparisons)
    }

    /// Whether a digit that directly follows the lexeme is a number of its own.
    pub fn takes_digit(self) -> bool
        ensures { result ≡ takes_digit (Some (lexeme_tok self.entry)) }
    {
        match self {
            Lexeme::Sqrt | Lexeme::Frac | Lexeme::Binom(_) | Lexeme::Style(_) => true,
            _ => false,
        }
    }

    /// Returns the token, with texts of its own, or an `Err` if memory runs out for a text. An `Err` leaves nothing allocated.
    pub fn token(self, alloc: Global) -> Result<Token, AllocError>
        ensures token { IfOk result (λ token. tok token ≡ lexeme_tok self.entry) }
        ensures no_text { IsFalse (owns_text (lexeme_tok self.entry)) → IsOk result }
    {
        let token = with_kinds!(owned, self, alloc);
        Ok(token)
    }
}
