//! Fractions whose delimiters, line and style come next.
ghost use Rattle.std.specs.Prelude.{IfOk, option_map};
ghost use Rattle.latex2mathml_tex_grammar.specs.Refusal.{MissingArgument, refusal_at};
ghost use Rattle.latex2mathml_tex_grammar.specs.Rules;
ghost use Rattle.latex2mathml_tex_grammar.specs.Rules.{a_general_fraction, a_line, an_outer_delimiter, an_outline};
ghost use Rattle.latex2mathml_tex_grammar.specs.Scanning.{BeforeArgument, Number};
ghost use Rattle.latex2mathml_tex_commands.specs.{Delimiters.delimiter_text, Meanings.style_of};
ghost use Rattle.latex2mathml_tex.specs.TakenBy.{TookBy};
ghost use Rattle.latex2mathml_tex_atoms.specs.{Models.context_of, Outlines.outline_of};
ghost use Rattle.latex2mathml_tex.specs.Steps.{Begins, CanBegin, Advances, LeadsOn, TookValue};

use crate::parse::frames::{First, Frame};
use crate::parse::{Parser, State};
use latex2mathml_tex_atoms::atoms::Context;
use latex2mathml_tex_atoms::outlines::{Outline, numbered_style};
use latex2mathml_tex_commands::meaning::Style;
use latex2mathml_tex_units::error::TexErrorKind;
use latex2mathml_tex_units::scanning::{Argument, Spot};
use std::alloc::AllocError;

impl<'a> Parser<'a> {
    /// Begins a fraction that is drawn as its author says. Its parts are smaller.
    pub(crate) fn general_fraction(
        &mut self,
        place: usize,
        context: Context,
        next: &mut State,
    ) -> Result<(), AllocError>
        requires begin { CanBegin 0 self.old }
        ensures holds { LeadsOn
            (Begins (a_general_fraction place (context_of context)) 0)
            self.old self.new next.new result }
        ensures step { Advances 13 self.old self.new next.new result }
    {
        let Some(outline) = self.take_outline(place)? else {
            *next = State::Refused;
            return Ok(());
        };
        let style = outline.own.unwrap_or(context.style);
        let part = context.styled(style.smaller());
        self.open(
            Frame::First(First::Outlined(outline, style), place, part),
            next,
        )
    }

    /// Takes what says how a fraction is drawn. If it does not come next, the formula is refused and `None` is returned.
    fn take_outline(&mut self, place: usize) -> Result<Option<Outline>, AllocError>
        ensures { IfOk result (λ outline.
            TookBy (an_outline place) self.old self.new (option_map outline_of outline)) }
    {
        let Some(opening) = self.take_outer_delimiter(place) else {
            return Ok(None);
        };
        let Some(closing) = self.take_outer_delimiter(place) else {
            return Ok(None);
        };
        let Some(has_line) = self.take_line(place)? else {
            return Ok(None);
        };
        let Some(own) = self.take_style(place)? else {
            return Ok(None);
        };
        Ok(Some(Outline {
            opening,
            closing,
            has_line,
            own,
        }))
    }

    /// Takes a delimiter.
    fn take_outer_delimiter(&mut self, place: usize) -> Option<Option<char>>
        ensures { TookBy (an_outer_delimiter place) self.old self.new
            (option_map delimiter_text result) }
    {
        if let Some(delimiter) = self.input.take_outer_delimiter() {
            return Some(delimiter);
        }
        let _ = self.refuse(TexErrorKind::MissingDelimiter, place);
        None
    }

    /// Takes the width of a line, and returns whether there is a line.
    fn take_line(&mut self, place: usize) -> Result<Option<bool>, AllocError>
        ensures { IfOk result (λ has_line. TookBy (a_line place) self.old self.new has_line) }
    {
        if self.input.take_empty_braces() {
            return Ok(Some(true));
        }
        let Some(width) = self.take_length(place, Spot::BeforeLengthInBraces)? else {
            return Ok(None);
        };
        Ok(Some(width != 0))
    }

    /// Takes the number of a style.
    fn take_style(&mut self, place: usize) -> Result<Option<Option<Style>>, AllocError>
        ensures { IfOk result (λ own. TookValue place (BeforeArgument Number) Rules.numbered_style
            (λ text. refusal_at MissingArgument place) self.old self.new
            (option_map (option_map style_of) own)) }
    {
        let Some(number) = self.take_text(place, Spot::BeforeArgument(Argument::Number))? else {
            return Ok(None);
        };
        let Some(own) = numbered_style(number.as_str()) else {
            let _ = self.refuse(TexErrorKind::MissingArgument, place);
            return Ok(None);
        };
        Ok(Some(own))
    }
}
