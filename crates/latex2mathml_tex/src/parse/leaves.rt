//! The atoms that are one element: letters, numbers, signs, names and spaces.
ghost use Rattle.std.specs.Prelude.{◌≡◌, ◌+◌, ◌<◌, ◌∷◌, [], IfOk, OnOk, option_map};
ghost use Rattle.latex2mathml_builder.specs.{Built.elements_in, Stacks.lengthened};
ghost use Rattle.latex2mathml_tex_grammar.specs.Heights.{Low};
ghost use Rattle.latex2mathml_tex_grammar.specs.Makes;
ghost use Rattle.latex2mathml_tex_grammar.specs.SpacedSigns;
ghost use Rattle.latex2mathml_tex_grammar.specs.Makes.{core, digits_in};
ghost use Rattle.latex2mathml_tex_grammar.specs.Next.{digits_next};
ghost use Rattle.latex2mathml_tex_grammar.specs.{Atoms.Plain, Atoms.atom, Symbols.Ordinary};
ghost use Rattle.latex2mathml_tex_grammar.specs.Rules.{a_symbol, gives};
ghost use Rattle.latex2mathml_tex_grammar.specs.Commands.{symbol_of};
ghost use Rattle.latex2mathml_tex_atoms.specs.Models.{context_of};
ghost use Rattle.latex2mathml_elements.specs.{Element.Element};
ghost use Rattle.latex2mathml_tex_units.specs.Left.{units_at};
ghost use Rattle.latex2mathml_tex_commands.specs.Meanings.{alphabet_of, limit_place_of};
ghost use Rattle.latex2mathml_tex.specs.Frames.{Start};
ghost use Rattle.latex2mathml_tex_atoms.specs.Models.{core_with};
ghost use Rattle.latex2mathml_tex_commands.specs.Meanings;
ghost use Rattle.latex2mathml_tex.specs.Numbers.{after_point, digit_in};
ghost use Rattle.latex2mathml_tex.specs.Steps.{Begins, CanBegin, Follows, Holds, Advances, LeadsOn, NumberBegins, to_do};

use crate::parse::symbols::{put_letter, put_symbol, put_upright_letter};
use crate::parse::{Parser, State};
use latex2mathml_attributes::attributes::Attributes;
use latex2mathml_attributes::tag::Token;
use latex2mathml_builder::builder::Builder;
use latex2mathml_tex_atoms::arrows::put_implication;
use latex2mathml_tex_atoms::atoms::{Context, Core, Kind};
use latex2mathml_tex_atoms::boxes::{put_spaced_dots, put_vertical_dots};
use latex2mathml_tex_atoms::heights::Height;
use latex2mathml_tex_commands::alphabets::in_alphabet;
use latex2mathml_tex_commands::meaning::{Alphabet, Class, LimitPlace, Symbol};
use latex2mathml_tex_commands::signs::symbol_of;
use latex2mathml_tex_units::input::Input;
use std::alloc::AllocError;

impl<'a> Parser<'a> {
    /// Puts a symbol. Letters are in the alphabet of the context.
    #[inline(always)]
    pub(crate) fn symbol(
        &mut self,
        context: Context,
        symbol: Symbol,
        next: &mut State,
    ) -> Result<(), AllocError>
        requires { CanBegin 0 self.old }
        ensures holds { LeadsOn
            (Begins (gives
            (Makes.symbol (context_of context).style (context_of context).alphabet
            (Meanings.symbol_of symbol))) 0)
            self.old self.new next.new result }
        ensures step { Advances 13 self.old self.new next.new result }
    {
        *next = State::Core(put_symbol(&mut self.builder, context, symbol)?);
        Ok(())
    }

    /// Puts a letter that is italic by default.
    pub(crate) fn letter(
        &mut self,
        alphabet: Option<Alphabet>,
        c: char,
        next: &mut State,
    ) -> Result<(), AllocError>
        requires { CanBegin 0 self.old }
        ensures holds { LeadsOn
            (Begins (gives (core (Makes.letter (option_map alphabet_of alphabet) c))) 0)
            self.old self.new next.new result }
        ensures step { Advances 13 self.old self.new next.new result }
    {
        *next = State::Core(put_letter(&mut self.builder, alphabet, c)?);
        Ok(())
    }

    /// Puts a letter that is upright by default.
    pub(crate) fn upright_letter(
        &mut self,
        alphabet: Option<Alphabet>,
        c: char,
        next: &mut State,
    ) -> Result<(), AllocError>
        requires { CanBegin 0 self.old }
        ensures holds { LeadsOn
            (Begins (gives (core (Makes.upright_letter (option_map alphabet_of alphabet) c))) 0)
            self.old self.new next.new result }
        ensures step { Advances 13 self.old self.new next.new result }
    {
        *next = State::Core(put_upright_letter(&mut self.builder, alphabet, c)?);
        Ok(())
    }

    /// Puts the name of a function.
    pub(crate) fn function_name(
        &mut self,
        limits: LimitPlace,
        name: &'static str,
        next: &mut State,
    ) -> Result<(), AllocError>
        requires { CanBegin 0 self.old }
        ensures holds { LeadsOn
            (Begins (gives (Makes.function_name (limit_place_of limits) name.now)) 0)
            self.old self.new next.new result }
        ensures step { Advances 13 self.old self.new next.new result }
    {
        self.builder.text(Token::Mi, Attributes::plain(), name)?;
        *next = State::Core(Core {
            kind: Kind::Unspaced(Class::Operator),
            height: Height::Low,
            limits,
        });
        Ok(())
    }

    /// Puts a space of this width, in eighteenths of an em.
    pub(crate) fn space(&mut self, width: i8, next: &mut State) -> Result<(), AllocError>
        requires { CanBegin 0 self.old }
        ensures holds { LeadsOn
            (Begins (gives (core (Makes.spacing width))) 0)
            self.old self.new next.new result }
        ensures step { Advances 13 self.old self.new next.new result }
    {
        self.builder.space(i32::from(width))?;
        *next = State::Core(Core::new(Kind::Blank, Height::Low));
        Ok(())
    }

    /// Puts the number that begins with this digit: digits, and a point between digits.
    pub(crate) fn number(
        &mut self,
        alphabet: Option<Alphabet>,
        digit: char,
    ) -> Result<Core, AllocError>
        requires begin { CanBegin 0 self.old }
        requires digit { digit < 128 }
        ensures holds { (s : Start) → NumberBegins alphabet digit s self.old
            → IfOk result (λ core. Holds s self.new (State.Core core)) }
        ensures step { IfOk result (λ core.
            Follows (to_do self.old + 13) self.new (State.Core core)) }
        ensures frames { (self.new.frames ≡ self.old.frames)
            × (self.new.style ≡ self.old.style) }
    {
        begin_number(&mut self.builder, alphabet, digit)?;
        digits(&mut self.input, &mut self.builder, alphabet)?;
        if let Some(next) = self.input.take_point() {
            append_digit(&mut self.builder, alphabet, '.')?;
            append_digit(&mut self.builder, alphabet, next)?;
            digits(&mut self.input, &mut self.builder, alphabet)?;
        }
        Ok(number())
    }

    /// Puts dots with a thin space after them.
    pub(crate) fn spaced_dots(&mut self, dots: char, next: &mut State) -> Result<(), AllocError>
        requires { CanBegin 0 self.old }
        ensures holds { LeadsOn (Begins (gives (SpacedSigns.spaced_dots dots)) 0)
            self.old self.new next.new result }
        ensures step { Advances 13 self.old self.new next.new result }
    {
        put_spaced_dots(&mut self.builder, dots)?;
        *next = State::Core(Core::new(Kind::SignOf(Class::Inner), Height::Low));
        Ok(())
    }

    /// Puts the dots of a column.
    pub(crate) fn vertical_dots(&mut self, next: &mut State) -> Result<(), AllocError>
        requires { CanBegin 0 self.old }
        ensures holds { LeadsOn (Begins (gives SpacedSigns.vertical_dots) 0)
            self.old self.new next.new result }
        ensures step { Advances 13 self.old self.new next.new result }
    {
        put_vertical_dots(&mut self.builder)?;
        *next = State::Core(Core::new(Kind::Plain(Class::Ordinary), Height::VeryTall));
        Ok(())
    }

    /// Puts a long arrow with a thick space at each side.
    pub(crate) fn implication(&mut self, sign: char, next: &mut State) -> Result<(), AllocError>
        requires { CanBegin 0 self.old }
        ensures holds { LeadsOn (Begins (gives (SpacedSigns.implication sign)) 0)
            self.old self.new next.new result }
        ensures step { Advances 13 self.old self.new next.new result }
    {
        put_implication(&mut self.builder, sign)?;
        *next = State::Core(Core::new(Kind::Unspaced(Class::Relation), Height::Low));
        Ok(())
    }

    /// Puts a character that is a sign or a letter. Any other character is put as a letter.
    #[inline(always)]
    pub(crate) fn other_character(
        &mut self,
        context: Context,
        c: char,
        next: &mut State,
    ) -> Result<(), AllocError>
        requires begin { CanBegin 0 self.old }
        ensures holds { LeadsOn (Begins (a_symbol (context_of context) c (symbol_of c)) 0)
            self.old self.new next.new result }
        ensures step { Advances 13 self.old self.new next.new result }
    {
        match symbol_of(c) {
            Some(symbol) => self.symbol(context, symbol, next),
            None => self.upright_letter(context.alphabet, c, next),
        }
    }

    /// Puts a point, which was taken, or the number that it begins if a digit comes next.
    pub(crate) fn point(&mut self, context: Context, next: &mut State) -> Result<(), AllocError>
        requires { CanBegin 0 self.old }
        ensures holds { LeadsOn
            (Begins (after_point (context_of context)) 0) self.old self.new next.new result }
        ensures step { Advances 13 self.old self.new next.new result }
    {
        let Some(digit) = self.input.take_digit() else {
            return self.other_character(context, '.', next);
        };
        begin_number(&mut self.builder, context.alphabet, '.')?;
        append_digit(&mut self.builder, context.alphabet, digit)?;
        digits(&mut self.input, &mut self.builder, context.alphabet)?;
        *next = State::Core(number());
        Ok(())
    }
}

/// Returns what a number is to its neighbours.
pub(crate) fn number() -> Core
    ensures { (x : Element) → core_with result x ≡ core (atom (Plain Ordinary) Low x) }
{
    Core::new(Kind::Plain(Class::Ordinary), Height::Low)
}

/// Puts a number of one digit.
#[inline(always)]
pub(crate) fn begin_number(
    builder: &mut Builder,
    alphabet: Option<Alphabet>,
    digit: char,
) -> Result<(), AllocError>
    requires { digit < 128 }
    ensures { OnOk result (elements_in builder.new
        ≡ (Makes.number (option_map alphabet_of alphabet) (digit ∷ [])).element
        ∷ elements_in builder.old) }
{
    let digit = digit_in(alphabet, digit);
    builder.character(Token::Mn, Attributes::plain(), digit)
}

/// Appends a digit or a point to the unfinished number.
fn append_digit(
    builder: &mut Builder,
    alphabet: Option<Alphabet>,
    digit: char,
) -> Result<(), AllocError>
    requires { digit < 128 }
    ensures { OnOk result (elements_in builder.new
        ≡ lengthened (digits_in (option_map alphabet_of alphabet) (digit ∷ []))
        (elements_in builder.old)) }
{
    builder.push(digit_in(alphabet, digit))?;
    Ok(())
}

/// Appends the digits that come next in the input to the unfinished number.
#[inline(always)]
fn digits(
    input: &mut Input,
    builder: &mut Builder,
    alphabet: Option<Alphabet>,
) -> Result<(), AllocError>
    ensures units { OnOk result (units_at input.new ≡ (digits_next (units_at input.old)).1) }
    ensures elements { OnOk result (elements_in builder.new
        ≡ lengthened (digits_in (option_map alphabet_of alphabet)
        (digits_next (units_at input.old)).0) (elements_in builder.old)) }
{
    'digits: while let Some(digit) = input.take_digit() {
        append_digit(builder, alphabet, digit)?;
    }
    input.skip_space();
    Ok(())
}

/// Returns a digit or a point, as it is or in an alphabet.
fn digit_in(alphabet: Option<Alphabet>, digit: char) -> char
    ensures { result ≡ digit_in (option_map alphabet_of alphabet) digit }
{
    match alphabet {
        None => digit,
        Some(alphabet) => in_alphabet(alphabet, digit),
    }
}
