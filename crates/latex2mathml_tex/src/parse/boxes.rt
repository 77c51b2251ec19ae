//! Spaces of a length, and boxes.
ghost use Rattle.latex2mathml_tex_grammar.specs.Rules.{a_bar, a_box, a_rectangle, a_skip, a_smash, meaning_rule};
ghost use Rattle.latex2mathml_tex_grammar.specs.Meaning.{Highlight, InColor, Raise, SkipInBraces};
ghost use Rattle.latex2mathml_tex_commands.specs.Meanings.{box_of};
ghost use Rattle.latex2mathml_tex_units.specs.Scans.{spot_of};
ghost use Rattle.latex2mathml_tex_atoms.specs.Models.{context_of};
ghost use Rattle.latex2mathml_tex.specs.Steps.{Begins, BeginsIn, CanBegin, Advances, LeadsOn};

use crate::parse::frames::{Frame, Last};
use crate::parse::{Parser, State};
use latex2mathml_attributes::extent::Extent;
use latex2mathml_tex_atoms::atoms::{Context, Core, Kind};
use latex2mathml_tex_atoms::boxes::put_bar;
use latex2mathml_tex_atoms::heights::Height;
use latex2mathml_tex_commands::meaning::{Class, OperandBox};
use latex2mathml_tex_units::scanning::{LengthEnd, Spot};
use std::alloc::AllocError;

impl<'a> Parser<'a> {
    /// Puts a space as wide as the length that is found from this spot on.
    pub(crate) fn skip(
        &mut self,
        spot: Spot,
        place: usize,
        context: Context,
        next: &mut State,
    ) -> Result<(), AllocError>
        requires begin { CanBegin 0 self.old }
        ensures holds { LeadsOn
            (BeginsIn context (a_skip place (spot_of spot)) 0)
            self.old self.new next.new result }
        ensures step { Advances 13 self.old self.new next.new result }
    {
        let Some(width) = self.take_length(place, spot)? else {
            *next = State::Refused;
            return Ok(());
        };
        self.builder.rectangle(Extent::wide(width))?;
        *next = State::Core(Core::new(Kind::Blank, Height::Low));
        Ok(())
    }

    /// Puts a space as wide as the length that comes next in braces. A star before it is skipped.
    pub(crate) fn skip_in_braces(
        &mut self,
        place: usize,
        context: Context,
        next: &mut State,
    ) -> Result<(), AllocError>
        requires begin { CanBegin 0 self.old }
        ensures holds { LeadsOn
            (BeginsIn context (meaning_rule place (context_of context) SkipInBraces) 0)
            self.old self.new next.new result }
        ensures step { Advances 13 self.old self.new next.new result }
    {
        self.input.pass(self.alloc, Spot::BeforeStar)?;
        self.skip(Spot::BeforeLengthInBraces, place, context, next)
    }

    /// Puts a black rectangle, whose width and height come next in braces. A length in brackets before them raises it.
    pub(crate) fn rectangle(
        &mut self,
        place: usize,
        context: Context,
        next: &mut State,
    ) -> Result<(), AllocError>
        requires begin { CanBegin 0 self.old }
        ensures holds { LeadsOn (BeginsIn context (a_rectangle place) 0)
            self.old self.new next.new result }
        ensures step { Advances 13 self.old self.new next.new result }
    {
        if self.input.take_character('[') {
            let spot = Spot::InLength(LengthEnd::AtBracket);
            let Some(height) = self.take_length(place, spot)? else {
                *next = State::Refused;
                return Ok(());
            };
            return self.bar(Some(height), place, context, next);
        }
        self.bar(None, place, context, next)
    }

    /// Puts a black rectangle, which a length raises if there is one. Its width and height come next in braces.
    fn bar(
        &mut self,
        raise: Option<i32>,
        place: usize,
        context: Context,
        next: &mut State,
    ) -> Result<(), AllocError>
        requires begin { CanBegin 0 self.old }
        ensures holds { LeadsOn (BeginsIn context (a_bar place raise) 0)
            self.old self.new next.new result }
        ensures step { Advances 13 self.old self.new next.new result }
    {
        let Some(width) = self.take_length(place, Spot::BeforeLengthInBraces)? else {
            *next = State::Refused;
            return Ok(());
        };
        let Some(height) = self.take_length(place, Spot::BeforeLengthInBraces)? else {
            *next = State::Refused;
            return Ok(());
        };
        put_bar(&mut self.builder, raise, width, height)?;
        *next = State::Core(Core::new(Kind::Plain(Class::Ordinary), Height::Tall));
        Ok(())
    }

    /// Begins an operand that is raised by the length that comes next in braces.
    pub(crate) fn raise(
        &mut self,
        place: usize,
        context: Context,
        next: &mut State,
    ) -> Result<(), AllocError>
        requires begin { CanBegin 0 self.old }
        ensures holds { LeadsOn
            (BeginsIn context (meaning_rule place (context_of context) Raise) 0)
            self.old self.new next.new result }
        ensures step { Advances 13 self.old self.new next.new result }
    {
        let Some(height) = self.take_length(place, Spot::BeforeLengthInBraces)? else {
            *next = State::Refused;
            return Ok(());
        };
        self.open_box(OperandBox::Raised(height), place, context, next)
    }

    /// Begins an operand in the color that comes next.
    pub(crate) fn in_color(
        &mut self,
        place: usize,
        context: Context,
        next: &mut State,
    ) -> Result<(), AllocError>
        requires begin { CanBegin 0 self.old }
        ensures holds { LeadsOn
            (BeginsIn context (meaning_rule place (context_of context) InColor) 0)
            self.old self.new next.new result }
        ensures step { Advances 13 self.old self.new next.new result }
    {
        let Some(color) = self.take_color(place)? else {
            *next = State::Refused;
            return Ok(());
        };
        self.open_box(OperandBox::Colored(color), place, context, next)
    }

    /// Begins an operand on a background of the color that comes next.
    pub(crate) fn highlight(
        &mut self,
        place: usize,
        context: Context,
        next: &mut State,
    ) -> Result<(), AllocError>
        requires begin { CanBegin 0 self.old }
        ensures holds { LeadsOn
            (BeginsIn context (meaning_rule place (context_of context) Highlight) 0)
            self.old self.new next.new result }
        ensures step { Advances 13 self.old self.new next.new result }
    {
        let Some(color) = self.take_color(place)? else {
            *next = State::Refused;
            return Ok(());
        };
        self.open_box(OperandBox::OnColor(color), place, context, next)
    }

    /// Begins an operand in a box without height and depth, or without one of them.
    pub(crate) fn smash(
        &mut self,
        place: usize,
        context: Context,
        next: &mut State,
    ) -> Result<(), AllocError>
        requires begin { CanBegin 0 self.old }
        ensures holds { LeadsOn
            (Begins (a_smash place (context_of context)) 0)
            self.old self.new next.new result }
        ensures step { Advances 13 self.old self.new next.new result }
    {
        if self.input.take_in_brackets('t') {
            return self.open_box(OperandBox::WithoutHeight, place, context, next);
        }
        if self.input.take_in_brackets('b') {
            return self.open_box(OperandBox::WithoutDepth, place, context, next);
        }
        self.open_box(OperandBox::Smashed, place, context, next)
    }

    /// Begins an operand in a box.
    pub(crate) fn open_box(
        &mut self,
        operand_box: OperandBox,
        place: usize,
        context: Context,
        next: &mut State,
    ) -> Result<(), AllocError>
        requires begin { CanBegin 0 self.old }
        ensures holds { LeadsOn
            (Begins (a_box place (context_of context) (box_of operand_box)) 0)
            self.old self.new next.new result }
        ensures step { Advances 6 self.old self.new next.new result }
    {
        self.open(
            Frame::Last(Last::Boxed(operand_box, context.style), place, context),
            next,
        )
    }
}
