//! From units to elements: one loop over a stack of frames. Each step is proved to lead to what the definitions say about the
//! units that were left before it, and puts what the next one has to do in place of what it had to do itself.
ghost use Rattle.std.specs.Prelude.{◌≡◌, ◌≢◌, ◌+◌, ℕ, [], IfOk, IsTrue, OnOk, Some};
ghost use Rattle.std.specs.Str.{chars};
ghost use Rattle.latex2mathml_builder.specs.Built.{nothing};
ghost use Rattle.latex2mathml_tex_grammar.specs.{Next.past_space, Next.refusal_here};
ghost use Rattle.latex2mathml_tex_grammar.specs.Refusal.{MissingDelimiter, refusal_at};
ghost use Rattle.latex2mathml_tex_units.specs.{Errors.refusal_of, Expanded.expanded_text, Left.units_at, Taking.kind_of};
ghost use Rattle.latex2mathml_tex_commands.specs.Meanings.{style_of};
ghost use Rattle.latex2mathml_tex.specs.{Frames.Start, Frames.element_count, Levels.Leads};
ghost use Rattle.latex2mathml_tex.specs.Steps.{CanMake, Holds, HoldsIn, Advances, LeadsOn, Ready, accepts, core_made, frame_weight, last_state, left_of, level_within, makes, start_of, state_weight};

mod arrows;
mod begin;
mod boxes;
mod deliver;
mod diagrams;
pub(crate) mod endings;
mod environments;
mod fractions;
pub(crate) mod frames;
mod leaves;
mod ligatures;
mod operands;
mod outlines;
mod plain;
mod rows;
pub(crate) mod scripts;
mod symbols;
mod tables;
mod values;
mod word_boxes;
mod word_commands;
mod words;

use crate::parse::frames::{Frame, Frames};
use crate::parse::plain::InRow;
use latex2mathml_builder::builder::Builder;
use latex2mathml_tex_atoms::atoms::{Context, Core, Operand, Scripts, Words};
use latex2mathml_tex_commands::meaning::Style;
use latex2mathml_tex_units::error::{TexError, TexErrorKind};
use latex2mathml_tex_units::input::Input;
use latex2mathml_tex_units::macros::table::Macros;
use latex2mathml_tex_units::unit::{Fault, Next};
use std::alloc::{AllocError, Global};
use std::mem;

/// What the next step has to do.
#[derive(Clone, Copy)]
pub(crate) enum State {
    /// Read what is due.
    Next,
    /// Give the innermost frame an atom without scripts.
    Core(Core),
    /// Go on after an atom with these scripts, in the innermost row.
    Atom(Core, Scripts),
    /// Give the innermost frame an operand.
    Operand(Operand),
    /// Read one part of words after these, in this context; this place takes it.
    Word(Words, usize, Context),
    /// Give the innermost frame these words.
    Words(Words),
    /// Nothing: the formula is read. It has this many elements.
    End(usize),
    /// Nothing: the formula is refused.
    Refused,
}

/// The form in which a formula is read.
#[derive(Clone, Copy)]
pub(crate) enum Form {
    /// Atoms next to each other.
    Atoms,
    /// Rows, like those of `aligned`.
    Rows,
}

/// Reads a formula.
#[derive(Drop)]
pub(crate) struct Parser<'a> {
    pub(crate) alloc: Global,
    pub(crate) input: Input<'a>,
    /// The style of the whole formula.
    pub(crate) style: Style,
    pub(crate) frames: Frames,
    pub(crate) builder: Builder,
    /// Why the formula is refused. It is kept here so that a state is small.
    pub(crate) refusal: TexError,
}

impl<'a> Parser<'a> {
    /// Creates a parser that has nothing to read yet.
    pub(crate) fn new(alloc: Global) -> Parser<'a> {
        Parser {
            alloc,
            input: Input::new(alloc),
            style: Style::InText,
            frames: Frames::new(alloc),
            builder: Builder::new(alloc),
            refusal: TexError::out_of_memory(),
        }
    }

    /// Begins to read a formula in this style, in which these macros hold, whatever was read before. The working memory is used
    /// again.
    pub(crate) fn restart(
        &mut self,
        macros: &Macros<'a>,
        tex: &'a str,
        style: Style,
    ) -> Result<(), AllocError>
        ensures units { OnOk result (left_of self.new
            ≡ expanded_text macros.now (chars tex.now)) }
        ensures style { OnOk result (self.new.style ≡ style) }
        ensures frames { OnOk result (self.new.frames.stack.items ≡ []) }
        ensures builder { OnOk result (self.new.builder ≡ nothing) }
    {
        self.input.refill(self.alloc, macros, tex)?;
        self.style = style;
        self.frames.clear();
        self.builder.clear();
        Ok(())
    }

    /// Runs until the formula is read or refused. Returns how many elements it has, or `None` if it is refused.
    pub(crate) fn finish(&mut self, form: Form) -> Result<Option<usize>, AllocError>
        requires { self.old.frames.stack.items ≡ [] }
        ensures holds { IfOk result (λ read.
            Holds (start_of form self.old) self.new (last_state read)) }
        ensures ready { IfOk result (λ read. Ready self.new (last_state read)) }
    {
        let mut state = State::Next;
        match form {
            Form::Atoms => self.begin_atoms()?,
            Form::Rows => self.begin_text(&mut state)?,
        }
        'steps: loop {
            match state {
                State::End(count) => return Ok(Some(count)),
                State::Refused => return Ok(None),
                _ => self.step(&mut state)?,
            }
        }
    }

    /// Begins the row of the whole formula. It is on the stack from the start, so that its first atom is added to it in place.
    fn begin_atoms(&mut self) -> Result<(), AllocError>
        requires { self.old.frames.stack.items ≡ [] }
        ensures holds { LeadsOn (HoldsIn State.Next) self.old self.new State.Next result }
        ensures ready { OnOk result (Ready self.new State.Next) }
    {
        self.frames.begin(self.style)?;
        Ok(())
    }

    /// Takes out the reason why the formula is refused.
    #[cold]
    pub(crate) fn refusal(&mut self) -> TexError
        ensures { result ≡ self.old.refusal }
    {
        mem::replace(&mut self.refusal, TexError::out_of_memory())
    }

    /// Does what the state says, and makes it the state after that. All that a step calls writes the next state to where the
    /// loop keeps it: a state is five words long, and returned in a `Result` it would be copied by each function on the way.
    fn step(&mut self, state: &mut State) -> Result<(), AllocError>
        requires going_on { ((count : ℕ) → state.old ≢ State.End count)
            × (state.old ≢ State.Refused) }
        requires ready { Ready self.old state.old }
        ensures holds { LeadsOn (HoldsIn state.old) self.old self.new state.new result }
        ensures step { Advances (state_weight state.old) self.old self.new state.new result }
    {
        match *state {
            State::Next => self.next(state),
            State::Core(core) => self.deliver_core(core, state),
            State::Atom(core, scripts) => self.go_on(core, scripts, state),
            State::Operand(operand) => self.deliver_operand(operand, state),
            State::Word(words, place, context) => self.word(words, place, context, state),
            State::Words(words) => self.deliver_words(words, state),
            State::End(_) | State::Refused => unreachable!(),
        }
    }

    /// Reads what the innermost frame waits for. In a row, reads on as long as atoms without scripts can be added in place.
    fn next(&mut self, next: &mut State) -> Result<(), AllocError>
        requires { Ready self.old State.Next }
        ensures holds { LeadsOn (HoldsIn State.Next) self.old self.new next.new result }
        ensures step { Advances 1 self.old self.new next.new result }
    {
        'atoms: loop {
            match self.symbol_in_row()? {
                InRow::Symbol(core) => {
                    if !self.add_unmarked(core) {
                        return self.go_on(core, Scripts::none(core.kind, core.limits), next);
                    }
                }
                InRow::Command(meaning) => return self.begin_command(meaning, next),
                InRow::Other => return self.begin_next(next),
            }
        }
    }

    /// Reads what the innermost frame waits for, whatever comes next.
    pub(crate) fn next_part(&mut self, next: &mut State) -> Result<(), AllocError>
        requires { Ready self.old State.Next }
        ensures holds { LeadsOn (HoldsIn State.Next) self.old self.new next.new result }
        ensures step { Advances 1 self.old self.new next.new result }
    {
        match self.frames.innermost(self.style) {
            Frame::Row(ending, place, context, row) => {
                self.next_atom(ending, place, context, row, next)
            }
            Frame::Last(_, place, _) => self.next_operand(place, next),
            Frame::First(_, place, _) => self.next_operand(place, next),
            Frame::Script(_, _, _, place, _) => self.next_operand(place, next),
            Frame::Negation(place, _) => self.next_core(place, next),
            Frame::AtomInWords(_, place, _) => self.next_core(place, next),
            Frame::Text | Frame::Words(_, _) | Frame::Resized(_, _, _) => unreachable!(),
        }
    }

    /// Pushes a frame. What it waits for is due next.
    pub(crate) fn open(&mut self, frame: Frame, next: &mut State) -> Result<(), AllocError>
        requires can { CanMake (makes frame) (element_count frame) self.old }
        requires accepts { IsTrue (accepts core_made frame) }
        ensures holds { (s : Start) → s.style ≡ style_of self.old.style
            → Leads (level_within frame 0 s self.old) (left_of self.old)
            → OnOk result (Holds s self.new next.new) }
        ensures step { Advances (frame_weight frame + 2) self.old self.new next.new result }
    {
        self.frames.push(frame)?;
        *next = State::Next;
        Ok(())
    }

    /// Refuses the formula.
    #[cold]
    pub(crate) fn refuse(&mut self, kind: TexErrorKind, place: usize) -> State
        ensures state { result ≡ State.Refused }
        ensures parser { self.new
            ≡ record self.old { refusal = record { kind = kind; place = place } } }
    {
        self.refusal = TexError { kind, place };
        State::Refused
    }

    /// Refuses what is not a unit.
    #[cold]
    pub(crate) fn refuse_fault(&mut self, fault: Fault, place: usize) -> State
        ensures state { result ≡ State.Refused }
        ensures refusal { refusal_of self.new.refusal ≡ Some (refusal_at (kind_of fault) place) }
        ensures parser { self.new ≡ record self.old { refusal = self.new.refusal } }
    {
        self.refuse(TexErrorKind::of_fault(fault), place)
    }

    /// Refuses the formula because no delimiter comes next. If what comes next is not a unit, that is refused instead.
    #[cold]
    pub(crate) fn refuse_delimiter(&mut self) -> State
        ensures state { result ≡ State.Refused }
        ensures units { units_at self.new.input ≡ past_space (units_at self.old.input) }
        ensures refusal { refusal_of self.new.refusal
            ≡ Some (refusal_here MissingDelimiter (past_space (units_at self.old.input))) }
        ensures parser { self.new
            ≡ record self.old { input = self.new.input; refusal = self.new.refusal } }
    {
        let kind = TexErrorKind::MissingDelimiter;
        self.input.skip_space();
        match self.input.peek() {
            Next::Unit(unit) => self.refuse(kind, unit.place),
            Next::End(place) => self.refuse(kind, place),
            Next::Fault(fault, place) => self.refuse_fault(fault, place),
        }
    }
}
