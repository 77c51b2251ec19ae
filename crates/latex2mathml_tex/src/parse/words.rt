//! Words: what is in `\text` and the like.
ghost use Rattle.std.specs.Prelude.{◌≡◌, ◌≢◌, ◌==◌, ◌||◌, OnOk, IfSome, Option, Some, None, option_map, take};
ghost use Rattle.std.specs.Str.{byte};
ghost use Rattle.latex2mathml_tex_grammar.specs.Makes;
ghost use Rattle.latex2mathml_tex_grammar.specs.Makes.{core};
ghost use Rattle.latex2mathml_tex_grammar.specs.Words.{Formula, Shown, alphabet_behind, font_in, size_after, text_atom, word_rule};
ghost use Rattle.latex2mathml_tex_grammar.specs.Symbols;
ghost use Rattle.latex2mathml_tex_grammar.specs.Words as words;
ghost use Rattle.latex2mathml_tex_grammar.specs.Refusal.{CommandInWords, refusal_at};
ghost use Rattle.latex2mathml_tex_grammar.specs.{Rows.single, Rules.formula_in_words, Rules.gives, Rules.meaning_rule, Symbols.InText, Units.Character, Units.Close, Units.Command};
ghost use Rattle.latex2mathml_tex_units.specs.{Errors.refusal_of, Taking.piece_of};
ghost use Rattle.latex2mathml_tex_commands.specs.Meanings.{alphabet_of, meaning_of, symbol_of, text_size_of};
ghost use Rattle.latex2mathml_tex_atoms.specs.Models.{context_of};
ghost use Rattle.latex2mathml_tex.specs.WordCommands.{word_of};
ghost use Rattle.latex2mathml_tex.specs.Steps.{Begins, BeginsWordOf, CanMake, ChangesWords, EndsGroupOf, GoesOnInBraces, GoesOnInSize, HoldsIn, IsChange, Advances, LeadsOn, Ready, ShowsAtomOf, WordGiven, core_made, elements_of, words_made};

use crate::parse::endings::Ending;
use crate::parse::frames::Frame;
use crate::parse::ligatures::ligature_start;
use crate::parse::symbols::put_symbol;
use crate::parse::word_commands::{InBraces, WordChange, WordCommand, in_braces};
use crate::parse::{Parser, State};
use latex2mathml_attributes::attributes::Attributes;
use latex2mathml_attributes::tag::Token;
use latex2mathml_tex_atoms::atoms::{Context, Core, Kind, Row, Words};
use latex2mathml_tex_atoms::fonts::Font;
use latex2mathml_tex_atoms::heights::Height;
use latex2mathml_tex_atoms::rests::put_resized;
use latex2mathml_tex_atoms::rows::put_row;
use latex2mathml_tex_atoms::shapes::with_atom;
use latex2mathml_tex_atoms::words::{end_accent, put_character};
use latex2mathml_tex_commands::alphabets::in_alphabet;
use latex2mathml_tex_commands::meaning::{Alphabet, Class, Meaning, Style, Symbol, TextSize};
use latex2mathml_tex_units::error::TexErrorKind;
use latex2mathml_tex_units::unit::{Next, Piece, Unit};
use std::alloc::AllocError;

impl<'a> Parser<'a> {
    /// Reads one part of words after these, in this context.
    pub(crate) fn word(
        &mut self,
        words: Words,
        place: usize,
        context: Context,
        next: &mut State,
    ) -> Result<(), AllocError>
        requires { Ready self.old (State.Word words place context) }
        ensures holds { LeadsOn
            (HoldsIn (State.Word words place context))
            self.old self.new next.new result }
        ensures step { Advances 1 self.old self.new next.new result }
    {
        match self.input.peek() {
            Next::Fault(fault, at) => {
                *next = self.refuse_fault(fault, at);
                Ok(())
            }
            Next::End(_) => {
                *next = self.refuse(TexErrorKind::MissingArgument, place);
                Ok(())
            }
            Next::Unit(unit) => {
                if let Piece::Close = unit.piece {
                    *next = self.refuse(TexErrorKind::MissingArgument, place);
                    return Ok(());
                }
                self.input.advance();
                self.begin_word(words, unit, context, next)
            }
        }
    }

    /// Begins a part of words with this unit, which was taken.
    fn begin_word(
        &mut self,
        words: Words,
        unit: Unit<'a>,
        context: Context,
        next: &mut State,
    ) -> Result<(), AllocError>
        requires can { CanMake words_made words.count self.old }
        requires some { piece_of unit.piece ≢ Close }
        ensures holds { LeadsOn
            (BeginsWordOf words (piece_of unit.entry.piece) unit.entry.place (context_of context))
            self.old self.new next.new result }
        ensures step { Advances 13 self.old self.new next.new result }
    {
        match unit.piece {
            Piece::Open => self.words_in_braces(words, unit.place, context, next),
            Piece::Space => self.show(words, context.alphabet, '\u{a0}', next),
            Piece::Character(c) => self.character_in_words(words, c, unit.place, context, next),
            Piece::Command(name) => self.word_command(words, name, unit.place, context, next),
            Piece::Close => unreachable!(),
        }
    }

    /// Goes on with words in braces, which began at this place, in this context.
    fn words_in_braces(
        &mut self,
        words: Words,
        place: usize,
        context: Context,
        next: &mut State,
    ) -> Result<(), AllocError>
        requires { CanMake words_made words.count self.old }
        ensures holds { LeadsOn
            (GoesOnInBraces words place (context_of context))
            self.old self.new next.new result }
        ensures step { Advances 13 self.old self.new next.new result }
    {
        self.frames.push(Frame::Words(place, context))?;
        *next = State::Words(words);
        Ok(())
    }

    /// Begins a part of words with a character.
    fn character_in_words(
        &mut self,
        words: Words,
        c: char,
        place: usize,
        context: Context,
        next: &mut State,
    ) -> Result<(), AllocError>
        requires { CanMake words_made words.count self.old }
        ensures holds { LeadsOn
            (BeginsWordOf words (Character c) place (context_of context))
            self.old self.new next.new result }
        ensures step { Advances 13 self.old self.new next.new result }
    {
        if c == '$' {
            let words = end_accent(&mut self.builder, words)?;
            return self.open(
                Frame::Row(
                    Ending::Formula(words.count),
                    place,
                    formula_context(context),
                    Row::begun(),
                ),
                next,
            );
        }
        if c == '~' {
            return self.show(words, context.alphabet, '\u{a0}', next);
        }
        if is_no_word(c) {
            *next = self.refuse(TexErrorKind::CharacterInWords(c), place);
            return Ok(());
        }
        self.show(
            words,
            context.alphabet,
            word_character(context.alphabet, c),
            next,
        )
    }

    /// Begins a part of words with a command.
    fn word_command(
        &mut self,
        words: Words,
        name: &'a str,
        place: usize,
        context: Context,
        next: &mut State,
    ) -> Result<(), AllocError>
        requires { CanMake words_made words.count self.old }
        ensures holds { LeadsOn
            (BeginsWordOf words (Command name.now) place (context_of context))
            self.old self.new next.new result }
        ensures step { Advances 13 self.old self.new next.new result }
    {
        match WordCommand::of(name) {
            WordCommand::Character(c) => self.show(words, context.alphabet, c, next),
            WordCommand::Accent(accent) => {
                let words = end_accent(&mut self.builder, words)?;
                *next = State::Words(Words {
                    accent: Some(accent),
                    ..words
                });
                Ok(())
            }
            WordCommand::Space => self.show(words, context.alphabet, '\u{a0}', next),
            WordCommand::Sign(symbol) => self.show_symbol(words, symbol, next),
            WordCommand::Words(alphabet) => {
                self.input.skip_space();
                *next = State::Word(
                    words,
                    place,
                    Context {
                        alphabet,
                        ..context
                    },
                );
                Ok(())
            }
            WordCommand::Change(_) => {
                *next = State::Words(words);
                Ok(())
            }
            WordCommand::Atom(meaning) => self.atom_in_words(words, meaning, place, context, next),
            WordCommand::Box(_) | WordCommand::Forbidden => self.refuse_command(name, place, next),
            WordCommand::Unknown => {
                let name = String::from_str(self.alloc, name)?;
                *next = self.refuse(TexErrorKind::UnknownCommand(name), place);
                Ok(())
            }
        }
    }

    /// Begins an atom after these words, which a command of this meaning makes in this context.
    fn atom_in_words(
        &mut self,
        words: Words,
        meaning: Meaning,
        place: usize,
        context: Context,
        next: &mut State,
    ) -> Result<(), AllocError>
        requires { CanMake words_made words.count self.old }
        ensures holds { LeadsOn
            (ShowsAtomOf words (meaning_rule place (context_of context) (meaning_of meaning)))
            self.old self.new next.new result }
        ensures step { Advances 13 self.old self.new next.new result }
    {
        let words = end_accent(&mut self.builder, words)?;
        self.frames
            .push(Frame::AtomInWords(words.count, place, context))?;
        self.meaning(meaning, place, context, next)
    }

    /// Refuses a command that cannot appear in words.
    #[cold]
    fn refuse_command(
        &mut self,
        name: &str,
        place: usize,
        next: &mut State,
    ) -> Result<(), AllocError>
        ensures state { OnOk result (next.new ≡ State.Refused) }
        ensures refusal { OnOk result
            (refusal_of self.new.refusal ≡ Some (refusal_at (CommandInWords name.now) place)) }
        ensures parser { self.new ≡ record self.old { refusal = self.new.refusal } }
    {
        let name = String::from_str(self.alloc, name)?;
        *next = self.refuse(TexErrorKind::CommandInWords(name), place);
        Ok(())
    }

    /// Gives the innermost frame these words.
    pub(crate) fn deliver_words(&mut self, words: Words, next: &mut State) -> Result<(), AllocError>
        requires { Ready self.old (State.Words words) }
        ensures holds { LeadsOn (HoldsIn (State.Words words)) self.old self.new next.new result }
        ensures step { Advances 2 self.old self.new next.new result }
    {
        match self.frames.innermost(self.style) {
            Frame::Text => {
                let _ = self.frames.take(self.style);
                let words = end_accent(&mut self.builder, words)?;
                self.end_text(words.count, next)
            }
            Frame::Resized(before, size, context) => {
                let _ = self.frames.take(self.style);
                let words = put_resized(&mut self.builder, size, context, words.count, before)?;
                *next = State::Words(words);
                Ok(())
            }
            Frame::Words(place, context) => match self.input.peek() {
                Next::Unit(unit) => match unit.piece {
                    Piece::Close => {
                        self.input.advance();
                        let _ = self.frames.take(self.style);
                        self.end_group(words, next)
                    }
                    piece => match in_braces(piece) {
                        InBraces::Change(change) => {
                            self.input.advance();
                            let _ = self.frames.take(self.style);
                            self.change_words(words, place, context, change, next)
                        }
                        InBraces::Box(word_box) => {
                            self.input.advance();
                            self.begin_box(words, word_box, unit.place, context, next)
                        }
                        InBraces::Word => match ligature_start(
                            words.accent,
                            context.alphabet,
                            piece,
                        ) {
                            Some(first) => {
                                self.input.advance();
                                self.join(words, first, context.alphabet, next)
                            }
                            None => self.word(words, place, context, next),
                        },
                    },
                },
                Next::End(_) => {
                    *next = self.refuse(TexErrorKind::UnclosedBrace, place);
                    Ok(())
                }
                Next::Fault(_, _) => {
                    *next = State::Word(words, place, context);
                    Ok(())
                }
            },
            _ => unreachable!(),
        }
    }

    /// Goes on with words in braces, which began at this place and were read in this context, behind a change of them.
    fn change_words(
        &mut self,
        words: Words,
        place: usize,
        context: Context,
        change: WordChange,
        next: &mut State,
    ) -> Result<(), AllocError>
        requires { CanMake words_made words.count self.old }
        ensures holds { LeadsOn
            (ChangesWords words place (context_of context) (word_of change))
            self.old self.new next.new result }
        ensures step { Advances 17 self.old self.new next.new result }
    {
        match change {
            WordChange::ToAlphabet(alphabet) => {
                let changed = Context {
                    alphabet: Some(alphabet),
                    ..context
                };
                self.words_in_braces(words, place, changed, next)
            }
            WordChange::ToSize(size) => self.words_in_size(words, place, size, context, next),
        }
    }

    /// Goes on in this size with words in braces, which began at this place, after those that were read in this context.
    fn words_in_size(
        &mut self,
        words: Words,
        place: usize,
        size: TextSize,
        context: Context,
        next: &mut State,
    ) -> Result<(), AllocError>
        requires { CanMake words_made words.count self.old }
        ensures holds { LeadsOn
            (GoesOnInSize words place (text_size_of size) (context_of context))
            self.old self.new next.new result }
        ensures step { Advances 17 self.old self.new next.new result }
    {
        let words = end_accent(&mut self.builder, words)?;
        self.frames
            .push(Frame::Resized(words.count, size, context))?;
        self.words_in_braces(Words::of(0), place, context.sized(size), next)
    }

    /// Appends a character to words, in the font of this alphabet.
    pub(crate) fn show(
        &mut self,
        words: Words,
        alphabet: Option<Alphabet>,
        c: char,
        next: &mut State,
    ) -> Result<(), AllocError>
        requires { CanMake words_made words.count self.old }
        ensures holds { LeadsOn
            (WordGiven words (Shown (font_in (option_map alphabet_of alphabet)) (Makes.text c)))
            self.old self.new next.new result }
        ensures step { Advances 13 self.old self.new next.new result }
    {
        let font = Font::of_words(alphabet);
        *next = State::Words(put_character(&mut self.builder, words, font, c)?);
        Ok(())
    }

    /// Appends a sign or a letter to words.
    fn show_symbol(
        &mut self,
        words: Words,
        symbol: Symbol,
        next: &mut State,
    ) -> Result<(), AllocError>
        requires { CanMake words_made words.count self.old }
        ensures holds { LeadsOn
            (WordGiven words
            (Formula (single InText (Makes.symbol InText None (symbol_of symbol)).atom).element))
            self.old self.new next.new result }
        ensures step { Advances 13 self.old self.new next.new result }
    {
        let words = end_accent(&mut self.builder, words)?;
        let core = put_symbol(&mut self.builder, Context::new(Style::InText, None), symbol)?;
        let row = with_atom(&mut self.builder, Style::InText, Row::empty(), core)?;
        put_row(&mut self.builder, row.count)?;
        let _ = self.builder.len();
        *next = State::Words(Words::of(words.count + 1));
        Ok(())
    }

    /// Ends words in braces, whose closing brace was taken.
    fn end_group(&mut self, words: Words, next: &mut State) -> Result<(), AllocError>
        requires { CanMake words_made words.count self.old }
        ensures holds { LeadsOn (EndsGroupOf words) self.old self.new next.new result }
        ensures step { Advances 6 self.old self.new next.new result }
    {
        *next = State::Words(end_accent(&mut self.builder, words)?);
        Ok(())
    }

    /// Makes the elements of words the atom of their command.
    fn end_text(&mut self, count: usize, next: &mut State) -> Result<(), AllocError>
        requires { CanMake core_made count self.old }
        ensures holds { LeadsOn
            (Begins (gives (core (text_atom (take count (elements_of self.old))))) count)
            self.old self.new next.new result }
        ensures step { Advances 6 self.old self.new next.new result }
    {
        if count == 0 {
            self.builder.token(Token::Mtext, Attributes::plain())?;
        } else {
            put_row(&mut self.builder, count)?;
        }
        *next = State::Core(Core::new(Kind::Plain(Class::Ordinary), Height::Low));
        Ok(())
    }
}

/// Whether the character cannot appear in words.
fn is_no_word(c: char) -> bool
    ensures { result ≡ (c == byte "^" || c == byte "&" || c == byte "#") }
{
    matches!(c, '^' | '&' | '#')
}

/// Returns a character of words in an alphabet, if there is one. Quotation marks are as in print.
pub(crate) fn word_character(alphabet: Option<Alphabet>, c: char) -> char
    ensures { result ≡ words.word_character (option_map alphabet_of alphabet) c }
{
    match c {
        '`' => '‘',
        '\'' => '’',
        c => letter_in(alphabet, c),
    }
}

/// Returns the context of the formulas in words that are read in this context. They are bold italic after `\boldmath`, and otherwise in
/// no alphabet.
fn formula_context(context: Context) -> Context
    ensures { context_of result ≡ formula_in_words (context_of context) }
{
    let alphabet = match context.alphabet {
        Some(Alphabet::BoldItalic) => context.alphabet,
        _ => None,
    };
    Context {
        style: Style::InText,
        alphabet,
        ..context
    }
}

/// Returns a letter or a digit in an alphabet, if there is one. A typewriter has them as they are, and bold italic is only for
/// formulas.
fn letter_in(alphabet: Option<Alphabet>, c: char) -> char
    ensures { result ≡ words.letter_in (option_map alphabet_of alphabet) c }
{
    match alphabet {
        None | Some(Alphabet::Monospace) | Some(Alphabet::BoldItalic) => c,
        Some(alphabet) => in_alphabet(alphabet, c),
    }
}
