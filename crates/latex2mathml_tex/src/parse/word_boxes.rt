//! Boxes in words, as in `\text{a \underline{b}}`.
ghost use Rattle.std.specs.Prelude.{◌≡◌, OnOk};
ghost use Rattle.latex2mathml_tex_grammar.specs.WordBoxes.{a_box_of_words, box_rule};
ghost use Rattle.latex2mathml_tex_grammar.specs.{Makes.core, Rules.reads_words, Words.words_atom};
ghost use Rattle.latex2mathml_tex_commands.specs.Meanings.{box_of, style_of};
ghost use Rattle.latex2mathml_tex_atoms.specs.Models.{context_of};
ghost use Rattle.latex2mathml_tex.specs.WordCommands.{word_box_of};
ghost use Rattle.latex2mathml_tex.specs.{Frames.Start, Frames.last_count, Levels.CoreMade, Levels.RuleLeads};
ghost use Rattle.latex2mathml_tex_grammar.specs.Rules.{gives};
ghost use Rattle.latex2mathml_tex.specs.Steps.{Begins, BeginsIn, CanBegin, CanMake, Advances, Holds, LeadsOn, ShowsAtomOf, left_of, level_within, words_made};

use crate::parse::frames::{Frame, Last};
use crate::parse::word_commands::WordBox;
use crate::parse::{Parser, State};
use latex2mathml_attributes::attributes::Side;
use latex2mathml_tex_atoms::atoms::{Context, Words};
use latex2mathml_tex_atoms::words::end_accent;
use latex2mathml_tex_commands::meaning::OperandBox;
use latex2mathml_tex_units::scanning::Spot;
use std::alloc::AllocError;

impl<'a> Parser<'a> {
    /// Begins what a command makes of words, behind these words in this context.
    pub(crate) fn begin_box(
        &mut self,
        words: Words,
        word_box: WordBox,
        place: usize,
        context: Context,
        next: &mut State,
    ) -> Result<(), AllocError>
        requires { CanMake words_made words.count self.old }
        ensures holds { LeadsOn
            (ShowsAtomOf words (box_rule place (context_of context) (word_box_of word_box)))
            self.old self.new next.new result }
        ensures step { Advances 13 self.old self.new next.new result }
    {
        let words = end_accent(&mut self.builder, words)?;
        self.frames
            .push(Frame::AtomInWords(words.count, place, context))?;
        self.box_of_words(word_box, place, context, next)
    }

    /// Begins what a command makes of the words after it.
    fn box_of_words(
        &mut self,
        word_box: WordBox,
        place: usize,
        context: Context,
        next: &mut State,
    ) -> Result<(), AllocError>
        requires begin { CanBegin 0 self.old }
        ensures holds { LeadsOn
            (BeginsIn context (box_rule place (context_of context) (word_box_of word_box)) 0)
            self.old self.new next.new result }
        ensures step { Advances 13 self.old self.new next.new result }
    {
        match word_box {
            WordBox::Boxed(operand_box) => self.open_word_box(operand_box, place, context, next),
            WordBox::Raised => {
                let Some(height) = self.take_length(place, Spot::BeforeLengthInBraces)? else {
                    *next = State::Refused;
                    return Ok(());
                };
                self.open_word_box(OperandBox::Raised(height), place, context, next)
            }
            WordBox::Colored => {
                let Some(color) = self.take_color(place)? else {
                    *next = State::Refused;
                    return Ok(());
                };
                self.open_word_box(OperandBox::Colored(color), place, context, next)
            }
            WordBox::Highlighted => {
                let Some(color) = self.take_color(place)? else {
                    *next = State::Refused;
                    return Ok(());
                };
                self.open_word_box(OperandBox::OnColor(color), place, context, next)
            }
            WordBox::Marked(mark, stretch) => {
                self.open_words(
                    Last::Accent(Side::Below, mark, stretch),
                    place,
                    context,
                    next,
                )
            }
        }
    }

    /// Begins words in a box.
    fn open_word_box(
        &mut self,
        operand_box: OperandBox,
        place: usize,
        context: Context,
        next: &mut State,
    ) -> Result<(), AllocError>
        requires begin { CanBegin 0 self.old }
        ensures holds { LeadsOn
            (Begins (a_box_of_words place (context_of context) (box_of operand_box)) 0)
            self.old self.new next.new result }
        ensures step { Advances 10 self.old self.new next.new result }
    {
        self.open_words(
            Last::Boxed(operand_box, context.style),
            place,
            context,
            next,
        )
    }

    /// Begins words that are the last operand of a command, which takes no other.
    fn open_words(
        &mut self,
        last: Last,
        place: usize,
        context: Context,
        next: &mut State,
    ) -> Result<(), AllocError>
        requires begin { CanBegin 0 self.old }
        requires alone { last_count last ≡ 0 }
        ensures holds { (s : Start) → s.style ≡ style_of self.old.style
            → RuleLeads
            (reads_words place (context_of context) (λ ws. gives (core (words_atom ws))))
            (CoreMade (level_within (Frame.Last last place context) 0 s self.old))
            (left_of self.old)
            → OnOk result (Holds s self.new next.new) }
        ensures step { Advances 10 self.old self.new next.new result }
    {
        self.frames.push(Frame::Last(last, place, context))?;
        self.text(place, context, next)
    }
}
