//! Tokens, and the tokens of commands.
ghost use Rattle.std.specs.Prelude.{◌≡◌, ◌≤◌, ◌++◌, ◌↔◌, IsOk, IsSome, IsTrue, IfOk};
ghost use Rattle.latex2mathml_tokens.specs.Commands.{command_entries, command_token, entry_token};
ghost use Rattle.latex2mathml_tokens.specs.{Discreteness.same_tok, Discreteness.tok-discrete, Same.same_laws};
ghost use Rattle.latex2mathml_tokens.specs.{Tok.tok, Tok.token_text, TokenContents.contents_text};

pub(crate) mod search;
mod table;
pub mod text;

use crate::DisplayStyle;
use crate::attribute::{Accent, Variant};
use crate::lexeme::Lexeme;
use crate::token::text::Contents;
use std::alloc::{AllocError, Global};

/// Calls a macro with the kinds of tokens: those that contain nothing, a character, another value, a text that has a name, two
/// values, and a text of their own.
macro_rules! with_kinds {
    ($called:ident, $($value:ident),*) => {
        $called!($($value),*;
            EOF Begin End Ampersand NewLine Left Right Middle LBrace RBrace Frac Underscore Circumflex
            Overset Underset Sqrt OperatorName Slashed Text;
            Illegal Overbrace Underbrace Integral Operator BigOp;
            Binom Space Style;
            Paren Lim Big Function;
            Over Under Letter;
            Number Command
        )
    };
}

pub(crate) use with_kinds;

/// A token with the same contents, with a text of its own.
macro_rules! copied {
    ($token:ident, $alloc:ident;
     $($bare:ident)*; $($character:ident)*; $($one:ident)*; $($named:ident)*; $($two:ident)*; $($text:ident)*) => {
        match $token {
            $(Token::$bare => Token::$bare,)*
            $(Token::$character(c) => Token::$character(*c),)*
            $(Token::$one(x) => Token::$one(*x),)*
            $(Token::$named(text) => Token::$named(text),)*
            $(Token::$two(x, y) => Token::$two(*x, *y),)*
            $(Token::$text(text) => Token::$text(String::from_str($alloc, text)?),)*
        }
    };
}

/// Whether two tokens are of the same kind and have the same contents.
macro_rules! alike {
    ($a:ident, $b:ident;
     $($bare:ident)*; $($character:ident)*; $($one:ident)*; $($named:ident)*; $($two:ident)*; $($text:ident)*) => {
        match $a {
            $(Token::$bare => matches!($b, Token::$bare),)*
            $(Token::$character(c) => matches!($b, Token::$character(other) if c == other),)*
            $(Token::$one(x) => matches!($b, Token::$one(other) if x == other),)*
            $(Token::$named(text) => matches!($b, Token::$named(other) if text == other),)*
            $(Token::$two(x, y) => matches!($b, Token::$two(z, other) if x == z && y == other),)*
            $(Token::$text(text) => matches!($b, Token::$text(other) if text == other),)*
        }
    };
}

/// The name of the kind of a token, and what it contains.
macro_rules! named_parts {
    ($token:ident;
     $($bare:ident)*; $($character:ident)*; $($one:ident)*; $($named:ident)*; $($two:ident)*; $($text:ident)*) => {
        match $token {
            $(Token::$bare => (stringify!($bare), Contents::Nothing),)*
            $(Token::$character(c) => (stringify!($character), Contents::Character(*c)),)*
            Token::Binom(None) => ("Binom(None)", Contents::Nothing),
            Token::Binom(Some(DisplayStyle::Block)) => ("Binom(Some(Block))", Contents::Nothing),
            Token::Binom(Some(DisplayStyle::Inline)) => ("Binom(Some(Inline))", Contents::Nothing),
            Token::Space(width) => ("Space", Contents::Width(*width)),
            Token::Style(variant) => ("Style", Contents::Style(*variant)),
            $(Token::$named(text) => (stringify!($named), Contents::Text(text)),)*
            Token::Over(c, accent) => ("Over", Contents::Sign(*c, *accent)),
            Token::Under(c, accent) => ("Under", Contents::Sign(*c, *accent)),
            Token::Letter(c, variant) => ("Letter", Contents::Letter(*c, *variant)),
            $(Token::$text(text) => (stringify!($text), Contents::Text(text)),)*
        }
    };
}

/// What a slice of a formula represents.
#[derive(Debug, Drop)]
pub enum Token {
    /// A character without a meaning: the NUL.
    Illegal(char),
    /// The end of the formula. No slice of a text is this token: it appears in refusals and marked
    /// errors only.
    EOF,
    /// The beginning of an environment.
    Begin,
    /// The end of an environment.
    End,
    /// `&`
    Ampersand,
    /// The end of a row of a matrix.
    NewLine,
    /// Before an opening fence.
    Left,
    /// Before a closing fence.
    Right,
    /// Before an operator that is stretched.
    Middle,
    /// A parenthesis, or `:=`.
    Paren(&'static str),
    /// `{`
    LBrace,
    /// `}`
    RBrace,
    /// A fraction.
    Frac,
    /// `_`
    Underscore,
    /// `^`
    Circumflex,
    /// A binomial coefficient, and the style in which it is set, if the command names one.
    Binom(Option<DisplayStyle>),
    /// Before two operands: the first is set over the second.
    Overset,
    /// Before two operands: the first is set under the second.
    Underset,
    /// A brace over what follows.
    Overbrace(char),
    /// A brace under what follows.
    Underbrace(char),
    /// A root.
    Sqrt,
    /// An integral, whose limits are scripts.
    Integral(char),
    /// The name of a function that takes a limit under it.
    Lim(&'static str),
    /// A space, in eighteenths of an em.
    Space(i32),
    /// The style of what follows.
    Style(Variant),
    /// The size of the bracket that follows, in ems with their unit.
    Big(&'static str),
    /// A sign over what follows.
    Over(char, Accent),
    /// A sign under what follows.
    Under(char, Accent),
    /// An operator of one character.
    Operator(char),
    /// An operator that takes limits under and over it.
    BigOp(char),
    /// A letter, or any other character that represents itself, and its style.
    Letter(char, Variant),
    /// Digits, with at most one period.
    Number(String),
    /// The name of a function.
    Function(&'static str),
    /// Before the name of a function that is spelled out.
    OperatorName,
    /// Before what a slash strikes through.
    Slashed,
    /// Before words.
    Text,
    /// A command that is not in the command table, by its name without the backslash.
    Command(String),
}

impl Token {
    /// Returns the token of the command with this name, which is given without its backslash.
    ///
    /// A name in the command table needs no memory, so the result is always `Ok`. Any other name becomes a
    /// [`Token::Command`] with that name, or an `Err` if memory runs out. An `Err` leaves nothing allocated.
    pub fn from_command(alloc: Global, command: &str) -> Result<Token, AllocError>
        ensures token { IfOk result (λ token. tok token ≡ command_token command.now) }
        ensures in_table { IsSome (entry_token command_entries command.now) → IsOk result }
    {
        let mut compared = 0;
        Token::from_command_counted(alloc, command, &mut compared)
    }

    /// Does the same as [`Token::from_command`], and sets `compared` to the number of names of the command table that were
    /// compared, even for an `Err`.
    #[tactic(auto, using(crate::proofs::Order::no_text))]
    pub fn from_command_counted(
        alloc: Global,
        command: &str,
        compared: &mut u128,
    ) -> Result<Token, AllocError>
        ensures token { IfOk result (λ token. tok token ≡ command_token command.now) }
        ensures in_table { IsSome (entry_token command_entries command.now) → IsOk result }
        ensures at_least { 1 ≤ compared.new }
        ensures at_most { compared.new ≤ 9 }
    {
        let (lexeme, comparisons) = Lexeme::of_command(command);
        *compared = u128::from(comparisons);
        lexeme.token(alloc)
    }

    /// Returns a token with the same contents, or an `Err` if memory runs out for its text. An `Err` leaves nothing allocated.
    pub fn clone(&self, alloc: Global) -> Result<Token, AllocError>
        ensures { IfOk result (λ copy. tok copy ≡ tok self.now) }
    {
        let token = with_kinds!(copied, self, alloc);
        Ok(token)
    }

    /// Returns the name of the kind of the token, and what it contains. The style of a binomial coefficient is in the name.
    pub(crate) fn parts(&self) -> (&'static str, Contents<'_>)
        ensures { result.0.now ++ contents_text result.1 ≡ token_text (tok self.now) }
    {
        with_kinds!(named_parts, self)
    }
}

/// Two tokens are equal if their contents are. This is not derived, so that the contract can say so.
impl PartialEq for Token {
    ghost eq = { λ a b. same_tok (tok a) (tok b) };

    ghost laws = { same_laws tok-discrete tok };

    fn eq(&self, other: &Token) -> bool
        ensures answer { result ≡ same_tok (tok self.now) (tok other.now) }
        ensures contents { IsTrue result ↔ (tok self.now ≡ tok other.now) }
    {
        same_contents(self, other)
    }
}

fn same_contents(a: &Token, b: &Token) -> bool
    ensures { IsTrue result ↔ (tok a.now ≡ tok b.now) }
{
    with_kinds!(alike, a, b)
}
