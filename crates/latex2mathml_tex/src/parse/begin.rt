//! How the rule of each unit begins.
ghost use Rattle.std.specs.Prelude.{option_map};
ghost use Rattle.latex2mathml_attributes.specs.Names.{size_of};
ghost use Rattle.latex2mathml_tex_grammar.specs.Makes;
ghost use Rattle.latex2mathml_tex_grammar.specs.{Meaning.Left};
ghost use Rattle.latex2mathml_tex_grammar.specs.Rules.{a_negation, a_root, a_sized_delimiter, an_operator_name, character_rule, command_rule, dots_before, gives, meaning_rule, reads_words, some_dots};
ghost use Rattle.latex2mathml_tex_grammar.specs.{Makes.core, Words.words_atom};
ghost use Rattle.latex2mathml_tex_commands.specs.Meanings.{class_of, style_of, meaning_of};
ghost use Rattle.latex2mathml_tex_atoms.specs.Models.{context_of};
ghost use Rattle.latex2mathml_tex.specs.Steps.{AwaitsCore, Begins, BeginsIn, BeginsUnit, CanBegin, HoldsIn, Advances, LeadsOn, Ready};

use crate::parse::endings::Ending;
use crate::parse::frames::{First, Frame, Last};
use crate::parse::symbols::put_letter;
use crate::parse::{Parser, State};
use latex2mathml_attributes::attributes::{Attributes, Size};
use latex2mathml_attributes::tag::Token;
use latex2mathml_tex_atoms::atoms::{Context, Core, Kind, Row, Words};
use latex2mathml_tex_atoms::delimiters::put_big;
use latex2mathml_tex_atoms::heights::Height;
use latex2mathml_tex_commands::commands;
use latex2mathml_tex_commands::meaning::{Alphabet, Class, LimitPlace, Meaning, Style, Symbol};
use latex2mathml_tex_units::dots::CENTERED_DOTS;
use latex2mathml_tex_units::error::TexErrorKind;
use latex2mathml_tex_units::scanning::{LengthEnd, Spot};
use latex2mathml_tex_units::unit::{Next, Piece, Unit};
use std::alloc::AllocError;

impl<'a> Parser<'a> {
    /// Begins the atom without scripts that this place takes.
    pub(crate) fn next_core(&mut self, place: usize, next: &mut State) -> Result<(), AllocError>
        requires ready { Ready self.old State.Next }
        requires due { AwaitsCore place self.old }
        ensures holds { LeadsOn (HoldsIn State.Next) self.old self.new next.new result }
        ensures step { Advances 1 self.old self.new next.new result }
    {
        self.input.skip_space();
        match self.input.peek() {
            Next::Fault(fault, at) => {
                *next = self.refuse_fault(fault, at);
                Ok(())
            }
            Next::End(_) => {
                *next = self.refuse(TexErrorKind::MissingArgument, place);
                Ok(())
            }
            Next::Unit(unit) => {
                self.input.advance();
                self.begin(unit, next)
            }
        }
    }

    /// Begins the rule of a unit, which was taken. If the atom is whole then, gives it to the innermost frame.
    #[inline(always)]
    pub(crate) fn begin_whole(&mut self, unit: Unit<'a>, next: &mut State) -> Result<(), AllocError>
        requires begin { CanBegin 0 self.old }
        ensures holds { LeadsOn (BeginsUnit unit.entry) self.old self.new next.new result }
        ensures step { Advances 13 self.old self.new next.new result }
    {
        if let Piece::Character(c) = unit.piece
            && !c.is_ascii_digit()
            && c.is_ascii_alphabetic()
        {
            let context = self.frames.innermost(self.style).context();
            let letter = put_letter(&mut self.builder, context.alphabet, c)?;
            return self.deliver_core(letter, next);
        }
        self.begin(unit, next)?;
        if let State::Core(core) = *next {
            return self.deliver_core(core, next);
        }
        Ok(())
    }

    /// Begins the rule of a unit, which was taken.
    pub(crate) fn begin(&mut self, unit: Unit<'a>, next: &mut State) -> Result<(), AllocError>
        requires begin { CanBegin 0 self.old }
        ensures holds { LeadsOn (BeginsUnit unit.entry) self.old self.new next.new result }
        ensures step { Advances 13 self.old self.new next.new result }
    {
        let context = self.frames.innermost(self.style).context();
        match unit.piece {
            Piece::Character(c) => self.character(c, unit.place, context, next),
            Piece::Command(name) => {
                self.command(commands::look_up(name), name, unit.place, context, next)
            }
            Piece::Open => {
                self.open(
                    Frame::Row(Ending::Group, unit.place, context, Row::empty()),
                    next,
                )
            }
            Piece::Close => {
                *next = self.refuse(TexErrorKind::UnopenedBrace, unit.place);
                Ok(())
            }
            Piece::Space => {
                *next = self.refuse(TexErrorKind::MissingArgument, unit.place);
                Ok(())
            }
        }
    }

    /// Begins the rule of a character.
    pub(crate) fn character(
        &mut self,
        c: char,
        place: usize,
        context: Context,
        next: &mut State,
    ) -> Result<(), AllocError>
        requires begin { CanBegin 0 self.old }
        ensures holds { LeadsOn
            (BeginsIn context (character_rule (context_of context) c place) 0)
            self.old self.new next.new result }
        ensures step { Advances 13 self.old self.new next.new result }
    {
        if c.is_ascii_digit() {
            *next = State::Core(self.number(context.alphabet, c)?);
            return Ok(());
        }
        if c.is_ascii_alphabetic() {
            return self.letter(context.alphabet, c, next);
        }
        match c {
            '.' => self.point(context, next),
            '~' => self.space(6, next),
            '&' => {
                *next = self.refuse(TexErrorKind::OutsideTable, place);
                Ok(())
            }
            '#' | '$' | '_' | '^' | '\'' => {
                *next = self.refuse(TexErrorKind::MisplacedCharacter(c), place);
                Ok(())
            }
            _ => self.other_character(context, c, next),
        }
    }

    /// Begins the rule of a command, for which the table has this meaning or none.
    pub(crate) fn command(
        &mut self,
        found: Option<Meaning>,
        name: &str,
        place: usize,
        context: Context,
        next: &mut State,
    ) -> Result<(), AllocError>
        requires begin { CanBegin 0 self.old }
        ensures holds { LeadsOn
            (BeginsIn context
            (command_rule place (context_of context) name.now (option_map meaning_of found)) 0)
            self.old self.new next.new result }
        ensures step { Advances 13 self.old self.new next.new result }
    {
        if let Some(meaning) = found {
            return self.meaning(meaning, place, context, next);
        }
        let name = String::from_str(self.alloc, name)?;
        *next = self.refuse(TexErrorKind::UnknownCommand(name), place);
        Ok(())
    }

    /// Begins the rule of a command with this meaning.
    pub(crate) fn meaning(
        &mut self,
        meaning: Meaning,
        place: usize,
        context: Context,
        next: &mut State,
    ) -> Result<(), AllocError>
        requires begin { CanBegin 0 self.old }
        ensures holds { LeadsOn
            (BeginsIn context (meaning_rule place (context_of context) (meaning_of meaning)) 0)
            self.old self.new next.new result }
        ensures step { Advances 13 self.old self.new next.new result }
    {
        match meaning {
            Meaning::Shows(symbol) => self.symbol(context, symbol, next),
            Meaning::FunctionName(limits, name) => self.function_name(limits, name, next),
            Meaning::Dots => self.dots(context, next),
            Meaning::CenteredDots => self.dots_before(context, '⋯', next),
            Meaning::VerticalDots => self.vertical_dots(next),
            Meaning::Implication(sign) => self.implication(sign, next),
            Meaning::Spacing(width) => self.space(width, next),
            Meaning::Skip => self.skip(Spot::InLength(LengthEnd::AtUnit), place, context, next),
            Meaning::SkipInBraces => self.skip_in_braces(place, context, next),
            Meaning::Boxed(operand_box) => self.open_box(operand_box, place, context, next),
            Meaning::Smash => self.smash(place, context, next),
            Meaning::Raise => self.raise(place, context, next),
            Meaning::InColor => self.in_color(place, context, next),
            Meaning::Highlight => self.highlight(place, context, next),
            Meaning::Rectangle => self.rectangle(place, context, next),
            Meaning::Arrow(sign) => self.arrow(sign, place, context, next),
            Meaning::Styled(alphabet) => self.open(
                Frame::Last(
                    Last::Group,
                    place,
                    Context {
                        alphabet: Some(alphabet),
                        ..context
                    },
                ),
                next,
            ),
            Meaning::Words(alphabet) => self.text(
                place,
                Context {
                    alphabet,
                    ..context
                },
                next,
            ),
            Meaning::Fraction(rule, own) => self.open_fraction(rule, own, place, context, next),
            Meaning::ContinuedFraction => self.continued_fraction(place, context, next),
            Meaning::GeneralFraction => self.general_fraction(place, context, next),
            Meaning::Root => self.root(place, context, next),
            Meaning::Accent(side, mark, stretch) => {
                self.open(
                    Frame::Last(Last::Accent(side, mark, stretch), place, context),
                    next,
                )
            }
            Meaning::Brace(side, mark) => {
                self.open(Frame::Last(Last::Brace(side, mark), place, context), next)
            }
            Meaning::Choice => self.open(Frame::First(First::InBlock, place, context), next),
            Meaning::Stack(side) => self.open(
                Frame::First(First::Stack(side), place, context.styled(Style::InScript)),
                next,
            ),
            Meaning::StackedRelation => self.open(
                Frame::First(
                    First::StackedRelation,
                    place,
                    context.styled(Style::InScript),
                ),
                next,
            ),
            Meaning::OperatorName => self.operator_name(place, context, next),
            Meaning::Negation => self.negation(place, context, next),
            Meaning::Slash => self.open(Frame::Last(Last::Slash, place, context), next),
            Meaning::Sized(size, class) => self.sized(context.style, size, class, next),
            Meaning::Left => self.left(place, context, next),
            Meaning::Middle => {
                *next = self.refuse(TexErrorKind::MiddleWithoutLeft, place);
                Ok(())
            }
            Meaning::Right => {
                *next = self.refuse(TexErrorKind::RightWithoutLeft, place);
                Ok(())
            }
            Meaning::Limits | Meaning::NoLimits => {
                *next = self.refuse(TexErrorKind::LimitsWithoutOperator, place);
                Ok(())
            }
            Meaning::Classed(class) => {
                self.open(
                    Frame::Last(Last::Classed(class, context.style), place, context),
                    next,
                )
            }
            Meaning::Changes(_) => {
                *next = self.refuse(TexErrorKind::ChangeAsArgument, place);
                Ok(())
            }
            Meaning::BeginTable => self.begin_table(place, context, next),
            Meaning::EndTable => {
                *next = self.refuse(TexErrorKind::EndWithoutBegin, place);
                Ok(())
            }
            Meaning::LineBreak => {
                *next = self.refuse(TexErrorKind::OutsideTable, place);
                Ok(())
            }
            Meaning::Substack => self.begin_substack(place, context, next),
        }
    }

    /// Begins dots, in the middle of the line if what comes next asks for that.
    fn dots(&mut self, context: Context, next: &mut State) -> Result<(), AllocError>
        requires begin { CanBegin 0 self.old }
        ensures holds { LeadsOn
            (BeginsIn context (some_dots (context_of context)) 0)
            self.old self.new next.new result }
        ensures step { Advances 13 self.old self.new next.new result }
    {
        if self.input.centers_dots() {
            return self.symbol(context, CENTERED_DOTS, next);
        }
        self.dots_before(context, '…', next)
    }

    /// Begins such dots, with a thin space after them if what comes next asks for that.
    fn dots_before(
        &mut self,
        context: Context,
        dots: char,
        next: &mut State,
    ) -> Result<(), AllocError>
        requires begin { CanBegin 0 self.old }
        ensures holds { LeadsOn (Begins (dots_before (context_of context) dots) 0)
            self.old self.new next.new result }
        ensures step { Advances 13 self.old self.new next.new result }
    {
        if self.input.closes_dots(dots) {
            return self.spaced_dots(dots, next);
        }
        self.symbol(context, Symbol::Sign(Class::Inner, dots), next)
    }

    /// Begins a root, with its degree if one comes next in square brackets.
    fn root(&mut self, place: usize, context: Context, next: &mut State) -> Result<(), AllocError>
        requires begin { CanBegin 0 self.old }
        ensures holds { LeadsOn
            (BeginsIn context (a_root place (context_of context)) 0)
            self.old self.new next.new result }
        ensures step { Advances 13 self.old self.new next.new result }
    {
        if self.input.take_character('[') {
            return self.open(
                Frame::Row(
                    Ending::Degree,
                    place,
                    context.styled(Style::InScript),
                    Row::empty(),
                ),
                next,
            );
        }
        self.open(Frame::Last(Last::SquareRoot, place, context), next)
    }

    /// Begins the name of an operator, in upright letters. With a star, it has limits.
    fn operator_name(
        &mut self,
        place: usize,
        context: Context,
        next: &mut State,
    ) -> Result<(), AllocError>
        requires begin { CanBegin 0 self.old }
        ensures holds { LeadsOn
            (BeginsIn context (an_operator_name place (context_of context)) 0)
            self.old self.new next.new result }
        ensures step { Advances 13 self.old self.new next.new result }
    {
        let limits = if self.input.take_character('*') {
            LimitPlace::ByStyle
        } else {
            LimitPlace::Beside
        };
        self.open(
            Frame::Last(
                Last::OperatorName(limits),
                place,
                Context {
                    alphabet: Some(Alphabet::Named),
                    ..context
                },
            ),
            next,
        )
    }

    /// Begins a negated relation, which has a sign of its own, or else a stroke.
    fn negation(
        &mut self,
        place: usize,
        context: Context,
        next: &mut State,
    ) -> Result<(), AllocError>
        requires begin { CanBegin 0 self.old }
        ensures holds { LeadsOn
            (BeginsIn context (a_negation place (context_of context)) 0)
            self.old self.new next.new result }
        ensures step { Advances 13 self.old self.new next.new result }
    {
        if let Some(sign) = self.input.take_negated() {
            self.builder
                .character(Token::Mo, Attributes::plain(), sign)?;
            *next = State::Core(Core::new(Kind::SignOf(Class::Relation), Height::Low));
            return Ok(());
        }
        self.open(Frame::Negation(place, context), next)
    }

    /// Begins the words that a command takes, in this context. White space before them is skipped.
    pub(crate) fn text(
        &mut self,
        place: usize,
        context: Context,
        next: &mut State,
    ) -> Result<(), AllocError>
        requires begin { CanBegin 0 self.old }
        ensures holds { LeadsOn
            (Begins (reads_words place (context_of context)
            (λ ws. gives (core (words_atom ws)))) 0)
            self.old self.new next.new result }
        ensures step { Advances 6 self.old self.new next.new result }
    {
        self.frames.push(Frame::Text)?;
        self.input.skip_space();
        *next = State::Word(Words::of(0), place, context);
        Ok(())
    }

    /// Begins a row between delimiters, of which the opening one must come next.
    fn left(&mut self, place: usize, context: Context, next: &mut State) -> Result<(), AllocError>
        requires begin { CanBegin 0 self.old }
        ensures holds { LeadsOn
            (BeginsIn context (meaning_rule place (context_of context) Left) 0)
            self.old self.new next.new result }
        ensures step { Advances 13 self.old self.new next.new result }
    {
        let Some(opening) = self.input.take_delimiter() else {
            *next = self.refuse_delimiter();
            return Ok(());
        };
        self.open(
            Frame::Row(Ending::Delimiters(opening), place, context, Row::begun()),
            next,
        )
    }

    /// Puts a delimiter of this size. The delimiter must come next, in braces or without.
    fn sized(
        &mut self,
        style: Style,
        size: Size,
        class: Class,
        next: &mut State,
    ) -> Result<(), AllocError>
        requires begin { CanBegin 0 self.old }
        ensures holds { LeadsOn
            (Begins (a_sized_delimiter
            (λ text. gives (Makes.sized (style_of style) (size_of size) (class_of class) text))) 0)
            self.old self.new next.new result }
        ensures step { Advances 13 self.old self.new next.new result }
    {
        let Some(delimiter) = self.input.take_sized_delimiter() else {
            *next = self.refuse_delimiter();
            return Ok(());
        };
        put_big(&mut self.builder, style, size, class, delimiter)?;
        *next = State::Core(Core::new(Kind::Plain(class), Height::of_size(size)));
        Ok(())
    }
}
