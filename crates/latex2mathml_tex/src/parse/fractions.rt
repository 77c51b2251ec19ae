//! Fractions: what opens the operands above and below the bar.
ghost use Rattle.std.specs.Prelude.{option_map};
ghost use Rattle.latex2mathml_tex_grammar.specs.Rules.{a_continued_fraction, a_fraction};
ghost use Rattle.latex2mathml_tex_commands.specs.Meanings.{fraction_rule_of, style_of};
ghost use Rattle.latex2mathml_tex_atoms.specs.Models.{context_of};
ghost use Rattle.latex2mathml_tex.specs.Steps.{Begins, CanBegin, Advances, LeadsOn};

use crate::parse::frames::{First, Frame};
use crate::parse::{Parser, State};
use latex2mathml_tex_atoms::atoms::Context;
use latex2mathml_tex_commands::meaning::{FractionRule, Style};
use std::alloc::AllocError;

impl<'a> Parser<'a> {
    /// Begins a fraction in display style. The side to which `[l]` or `[r]` pushes its numerator is ignored.
    pub(crate) fn continued_fraction(
        &mut self,
        place: usize,
        context: Context,
        next: &mut State,
    ) -> Result<(), AllocError>
        requires begin { CanBegin 0 self.old }
        ensures holds { LeadsOn
            (Begins (a_continued_fraction place (context_of context)) 0)
            self.old self.new next.new result }
        ensures step { Advances 13 self.old self.new next.new result }
    {
        let (rule, own) = (FractionRule::Bar, Some(Style::InDisplay));
        if self.input.take_in_brackets('l') {
            return self.open_fraction(rule, own, place, context, next);
        }
        if self.input.take_in_brackets('r') {
            return self.open_fraction(rule, own, place, context, next);
        }
        self.open_fraction(rule, own, place, context, next)
    }

    /// Begins a fraction, which may have a style of its own. Its parts are smaller.
    pub(crate) fn open_fraction(
        &mut self,
        rule: FractionRule,
        own: Option<Style>,
        place: usize,
        context: Context,
        next: &mut State,
    ) -> Result<(), AllocError>
        requires begin { CanBegin 0 self.old }
        ensures holds { LeadsOn
            (Begins (a_fraction place (context_of context) (fraction_rule_of rule)
            (option_map style_of own)) 0)
            self.old self.new next.new result }
        ensures step { Advances 10 self.old self.new next.new result }
    {
        let style = own.unwrap_or(context.style);
        let part = context.styled(style.smaller());
        self.open(
            Frame::First(First::Fraction(rule, own, style), place, part),
            next,
        )
    }
}
