//! Arrows that are as long as their labels.
ghost use Rattle.latex2mathml_tex_grammar.specs.Rules.{an_arrow};
ghost use Rattle.latex2mathml_tex_atoms.specs.Models.{context_of};
ghost use Rattle.latex2mathml_tex.specs.Steps.{BeginsIn, CanBegin, Advances, LeadsOn};

use crate::parse::endings::Ending;
use crate::parse::frames::{Frame, Last};
use crate::parse::{Parser, State};
use latex2mathml_tex_atoms::arrows::put_arrow;
use latex2mathml_tex_atoms::atoms::{Context, Row};
use latex2mathml_tex_commands::meaning::Style;
use std::alloc::AllocError;

impl<'a> Parser<'a> {
    /// Begins an arrow: the label below it, if one comes next in brackets, and the label above it.
    pub(crate) fn arrow(
        &mut self,
        sign: char,
        place: usize,
        context: Context,
        next: &mut State,
    ) -> Result<(), AllocError>
        requires begin { CanBegin 0 self.old }
        ensures holds { LeadsOn
            (BeginsIn context (an_arrow place (context_of context) sign) 0)
            self.old self.new next.new result }
        ensures step { Advances 13 self.old self.new next.new result }
    {
        let small = context.styled(Style::InScript);
        if self.input.take_character('[') {
            put_arrow(&mut self.builder, sign)?;
            return self.open(
                Frame::Row(Ending::BelowArrow, place, small, Row::empty()),
                next,
            );
        }
        put_arrow(&mut self.builder, sign)?;
        self.open(Frame::Last(Last::OverArrow, place, small), next)
    }
}
