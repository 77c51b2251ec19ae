//! The lexemes of a text, taken one at a time. White space in front of a lexeme is skipped when the lexeme is taken or
//! looked for.
ghost use Rattle.std.specs.Prelude.{◌≡◌, ◌≢◌, ◌∷◌, ℕ, List, IfOk, MatchBool, MatchOption, Some, codes, string_bytes};
ghost use Rattle.latex2mathml_grammar.specs.{Counts.backslashes, Grammar.first};
ghost use Rattle.latex2mathml_parser.specs.Marks.{IsSeen, MarkStands, rest_of, sign_token};
ghost use Rattle.latex2mathml_parser.specs.Unread.{GoesOn, Takes, TakesName, slices_in, token_list};
ghost use Rattle.latex2mathml_tokens.specs.{Lexemes.lexeme_tok, Tok.Letter, Tok.Paren};
ghost use Rattle.latex2mathml_tokens.specs.declared.attribute.Variant.TheVariants.{Italic};

pub(crate) mod characters;
pub(crate) mod mark;
mod slices;

use crate::lexer::characters::{before, first_ascii, is_space};
use crate::lexer::mark::{Mark, Sign};
use crate::lexer::slices::{character, command, find_start, is_lone, slice_at, stands_alone};
use latex2mathml_tokens::attribute::Variant;
use latex2mathml_tokens::lexeme::Lexeme;
use std::alloc::{AllocError, Global};
use std::marker::Model;

/// The rest of a text. Contracts see the list of the tokens that are left, and the counts that go with it.
#[derive(Drop)]
pub(crate) struct Lexer<'a> {
    rest: &'a str,
    /// Whether a digit that directly follows is a number of its own.
    takes_digit: bool,
    tokens: u64,
    comparisons: u128,
}

impl<'a> Model for Lexer<'a> {
    ghost use Rattle.std.specs.Prelude.{◌+◌, ◌*◌, ◌<◌, ◌^◌, length};
    ghost use Rattle.std.specs.Str.{chars};
    ghost use Rattle.latex2mathml_grammar.specs.Cutting.{slices_of};
    ghost use Rattle.latex2mathml_parser.specs.Unread.{Unread, unread_in};

    ghost Value = { Unread };

    ghost view = { λ r. unread_in (slices_of r.takes_digit (chars r.rest.now)) r.tokens r.comparisons };

    ghost invariant = { λ r. (r.tokens + length (chars r.rest.now) < 2 ^ 64)
        × (r.comparisons + 9 * length (chars r.rest.now) < 2 ^ 68) };
}

impl<'a> Lexer<'a> {
    /// Returns a lexer of a whole text.
    #[tactic(auto, using(crate::proofs::Starts::fits))]
    pub(crate) fn new(text: &'a str) -> Lexer<'a>
        ensures slices { result.slices ≡ slices_in text.now }
        ensures list { result.list ≡ token_list (slices_in text.now) }
        ensures tokens { result.tokens ≡ 0 }
        ensures backslashes { result.backslashes ≡ backslashes (slices_in text.now) }
        ensures comparisons { result.comparisons ≡ 0 }
    {
        Lexer {
            rest: text,
            takes_digit: false,
            tokens: 0,
            comparisons: 0,
        }
    }

    /// Takes the next lexeme and counts it, if it is an ASCII letter that no white space precedes.
    #[inline(always)]
    pub(crate) fn take_letter(&mut self) -> Option<char>
        ensures { MatchOption result (self.new ≡ self.old)
            (λ c. Takes (Letter c Italic) self.old self.new) }
    {
        let (c, after) = first_ascii(self.rest)?;
        if !c.is_ascii_alphabetic() {
            return None;
        }
        self.rest = after;
        self.takes_digit = false;
        self.tokens += 1;
        Some(c)
    }

    /// Takes the next lexeme and counts it, or returns `EOF` if none is left.
    #[inline(always)]
    pub(crate) fn take(&mut self) -> Lexeme<'a>
        ensures { Takes (lexeme_tok result) self.old self.new }
    {
        let mut lexeme = Lexeme::EOF;
        self.take_into(&mut lexeme);
        lexeme
    }

    /// Takes the next lexeme and counts it, or writes `EOF` if none is left. A lexeme that is returned is copied in each function
    /// that returns it, so this writes it where it is wanted.
    #[inline(always)]
    pub(crate) fn take_into(&mut self, lexeme: &mut Lexeme<'a>)
        ensures { Takes (lexeme_tok lexeme.new) self.old self.new }
    {
        // Letters come most often.
        match self.take_letter() {
            Some(c) => *lexeme = Lexeme::Letter(c, Variant::Italic),
            None => self.take_other(lexeme),
        }
    }

    /// Does the same, whatever comes next.
    #[inline(never)]
    pub(crate) fn take_other(&mut self, lexeme: &mut Lexeme<'a>)
        ensures { Takes (lexeme_tok lexeme.new) self.old self.new }
    {
        if let Some((c, after)) = first_ascii(self.rest) {
            if c == '\\' {
                self.tokens += 1;
                command(
                    after,
                    lexeme,
                    &mut self.rest,
                    &mut self.takes_digit,
                    &mut self.comparisons,
                );
                return;
            }
            if stands_alone(c) {
                self.rest = after;
                self.takes_digit = false;
                self.tokens += 1;
                character(c, lexeme);
                return;
            }
            if c.is_ascii_digit() && is_lone(after, self.takes_digit) {
                *lexeme = Lexeme::Number(before(self.rest, after));
                self.rest = after;
                self.takes_digit = false;
                self.tokens += 1;
                return;
            }
        }
        self.take_any(lexeme);
    }

    /// Does the same as `take_other`, also where white space, a colon, a longer number or a character that is not ASCII
    /// comes next.
    #[inline(never)]
    fn take_any(&mut self, lexeme: &mut Lexeme<'a>)
        ensures { Takes (lexeme_tok lexeme.new) self.old self.new }
    {
        let start = find_start(self.rest, self.takes_digit);
        let Some((c, after)) = start.first else {
            *lexeme = Lexeme::EOF;
            return;
        };
        self.tokens += 1;
        if c == '\\' {
            command(
                after,
                lexeme,
                &mut self.rest,
                &mut self.takes_digit,
                &mut self.comparisons,
            );
            return;
        }
        self.rest = slice_at(start.text, c, after, start.alone, lexeme);
        self.takes_digit = false;
    }

    /// Skips the next token, if one is left.
    pub(crate) fn skip(&mut self)
        ensures list { self.new.list ≡ rest_of self.old.list }
        ensures counts { GoesOn self.old self.new }
    {
        let _ = self.take();
    }

    /// Returns the mark that comes next, if one does, without taking it.
    pub(crate) fn mark(&mut self) -> Option<Mark>
        ensures mark { MarkStands result (first self.old.list) }
        ensures list { self.new.list ≡ self.old.list }
        ensures counts { GoesOn self.old self.new }
    {
        match self.first_char()? {
            '\'' => Some(Mark::Prime),
            '_' => Some(Mark::Script(Sign::Sub)),
            '^' => Some(Mark::Script(Sign::Sup)),
            _ => None,
        }
    }

    /// Takes the next token if it is this sign, and returns whether it was.
    pub(crate) fn take_if(&mut self, sign: Sign) -> bool
        ensures list { MatchBool result
            (self.old.list ≡ sign_token sign ∷ self.new.list)
            ((first self.old.list ≢ Some (sign_token sign)) × (self.new.list ≡ self.old.list)) }
        ensures counts { GoesOn self.old self.new }
    {
        let stands = match self.first_char() {
            Some('_') => matches!(sign, Sign::Sub),
            Some('^') => matches!(sign, Sign::Sup),
            _ => false,
        };
        if stands {
            self.skip();
        }
        stands
    }

    /// Takes the next token if it is `[`, and returns whether it was.
    pub(crate) fn take_bracket(&mut self) -> bool
        ensures list { MatchBool result
            (self.old.list ≡ Paren (codes "[") ∷ self.new.list)
            ((first self.old.list ≢ Some (Paren (codes "["))) × (self.new.list ≡ self.old.list)) }
        ensures counts { GoesOn self.old self.new }
    {
        let stands = matches!(self.first_char(), Some('['));
        if stands {
            self.skip();
        }
        stands
    }

    /// Takes a name: any token, letters, and any token.
    pub(crate) fn name(&mut self, alloc: Global) -> Result<String, AllocError>
        ensures name { IfOk result (λ name. TakesName (string_bytes name) self.old self.new) }
        ensures counts { GoesOn self.old self.new }
    {
        self.skip();
        let mut name = String::new(alloc);
        while let Lexeme::Letter(c, _) = self.take() {
            name.push(c)?;
        }
        Ok(name)
    }

    /// Skips a name.
    pub(crate) fn skip_name(&mut self)
        ensures name { (bytes : List ℕ) × TakesName bytes self.old self.new }
        ensures counts { GoesOn self.old self.new }
    {
        self.skip();
        while let Lexeme::Letter(_, _) = self.take() {}
    }

    /// Returns the number of tokens that were taken.
    pub(crate) fn tokens(&self) -> u128
        ensures { result ≡ self.now.tokens }
    {
        u128::from(self.tokens)
    }

    /// Returns the number of names that were compared.
    pub(crate) fn comparisons(&self) -> u128
        ensures same { result ≡ self.now.comparisons }
        ensures left { self.now.backslashes ≡ backslashes self.now.slices }
    {
        self.comparisons
    }

    /// Returns the first character of the next lexeme, if one is left, and skips the white space before it.
    #[inline(always)]
    fn first_char(&mut self) -> Option<char>
        ensures sight { IsSeen result self.old.list }
        ensures same { self.new ≡ self.old }
    {
        if self.rest.is_empty() {
            return None;
        }
        // Usually nothing precedes it, or one space.
        if let Some((c, after)) = first_ascii(self.rest) {
            if !is_space(c) {
                return Some(c);
            }
            if let Some((second, _)) = first_ascii(after) {
                if !is_space(second) {
                    self.rest = after;
                    self.takes_digit = false;
                    return Some(second);
                }
            }
        }
        self.find_first_char()
    }

    /// Does the same as `first_char`, also where white space or a character that is not ASCII comes next.
    #[inline(never)]
    #[tactic(auto, using(crate::proofs::Starts::same_slices))]
    fn find_first_char(&mut self) -> Option<char>
        ensures sight { IsSeen result self.old.list }
        ensures same { self.new ≡ self.old }
    {
        let start = find_start(self.rest, self.takes_digit);
        self.rest = start.text;
        self.takes_digit = start.alone;
        let (c, _) = start.first?;
        Some(c)
    }
}
