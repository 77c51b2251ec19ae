//! The open frames, and how much of each was read.
ghost use Rattle.std.specs.Prelude.{◌≡◌, ℕ, ◌∷◌, ◌++◌, [], false, IfSome, IsTrue, List, MatchOption, None, OnOk, Some};
ghost use Rattle.latex2mathml_tex.specs.Innermost.{IsInnermost, IsLonger, TookRow, begun_row, braced_ending, frame_context, frame_row};
ghost use Rattle.latex2mathml_tex.specs.{RowCharacters.IsRowInnermost, Steps.operand_place};
ghost use Rattle.latex2mathml_tex_atoms.specs.Models.{usual_context};

use crate::parse::endings::Ending;
use latex2mathml_attributes::attributes::{Side, Stretch};
use latex2mathml_tex_atoms::atoms::{Before, Context, Core, Operand, Row, Scripts};
use latex2mathml_tex_atoms::outlines::Outline;
use latex2mathml_tex_commands::meaning::{
    Class, FractionRule, LimitPlace, OperandBox, Style, TextSize,
};
use std::alloc::{AllocError, Global};

/// What a row in braces is.
#[derive(Clone, Copy)]
pub(crate) enum Braced {
    Group,
    Operand,
}

/// What a command makes of its last operand.
#[derive(Clone, Copy)]
pub(crate) enum Last {
    Group,
    SquareRoot,
    /// The degree is the element below.
    Root,
    Accent(Side, char, Stretch),
    Brace(Side, char),
    OperatorName(LimitPlace),
    /// A stroke through it.
    Slash,
    /// An atom of this class, in this style.
    Classed(Class, Style),
    /// An ordinary atom in a box, in this style.
    Boxed(OperandBox, Style),
    /// A denominator of a fraction in this style, which may be its own; the numerator is the element below.
    Fraction(FractionRule, Option<Style>, Style),
    /// A denominator of a fraction in this style, where the author says how it is drawn; the numerator is the element below.
    Outlined(Outline, Style),
    /// A base, in this style; its mark is the element below.
    Stack(Side, Style),
    /// A base, in this style; what is shown above it is the element below.
    StackedRelation(Style),
    /// The label above an arrow; the arrow is the element below.
    OverArrow,
    /// The label above an arrow; the next elements below are the label below the arrow, and the arrow.
    OverAndUnderArrow,
    /// What a choice shows in scripts of scripts, which is lost. In this style it shows this operand. The next elements below are
    /// what it shows in scripts, in a line of text and in a block.
    Choice(Style, Operand),
}

/// What an operand is that others follow.
#[derive(Clone, Copy)]
pub(crate) enum First {
    /// A numerator of a fraction in this style, which may be its own.
    Fraction(FractionRule, Option<Style>, Style),
    /// A numerator of a fraction in this style, where the author says how it is drawn.
    Outlined(Outline, Style),
    /// A mark.
    Stack(Side),
    /// What is shown above a relation.
    StackedRelation,
    /// What a choice shows in a block.
    InBlock,
    /// What it shows in a line of text. The one before it is the element below, and is this operand.
    InLine(Operand),
    /// What it shows in scripts. The ones before it are the elements below, and the one that is to be shown is this operand, if
    /// it is one of them.
    InScripts(Operand),
}

/// Something open that began at a place, and what it waits for.
#[derive(Clone, Copy)]
pub(crate) enum Frame {
    /// The atoms of a row, up to its ending.
    Row(Ending, usize, Context, Row),
    /// The last operand of a command, in this context.
    Last(Last, usize, Context),
    /// An operand that others follow, in this context.
    First(First, usize, Context),
    /// An atom that is negated.
    Negation(usize, Context),
    /// The operand of a script of this atom, on this side of it.
    Script(Core, Scripts, Side, usize, Context),
    /// One part of words, which is all that a command takes.
    Text,
    /// Words up to a brace, in this context.
    Words(usize, Context),
    /// An atom in words, which follows this many elements of them, in this context. The place is that of its command.
    AtomInWords(usize, usize, Context),
    /// Words after a change to this size, which follow this many elements of words in this context.
    Resized(usize, TextSize, Context),
}

impl Frame {
    /// Returns the context in which the frame's parts are read. Words are read in none.
    pub(crate) fn context(self) -> Context
        ensures { result ≡ frame_context self }
    {
        match self {
            Frame::Row(_, _, context, _)
            | Frame::Last(_, _, context)
            | Frame::First(_, _, context)
            | Frame::Negation(_, context)
            | Frame::AtomInWords(_, _, context)
            | Frame::Script(_, _, _, _, context) => context,
            Frame::Text | Frame::Words(_, _) | Frame::Resized(_, _, _) => Context::new(
                Style::InText,
                None,
            ),
        }
    }

    /// Returns its style and what precedes the next atom of its row, if it is a row.
    #[inline(always)]
    fn position(&self) -> (Style, Before)
        ensures style { result.0 ≡ (frame_context self.now).style }
        ensures before { result.1 ≡ (frame_row self.now).1.before }
    {
        match self {
            Frame::Row(_, _, context, row) => (context.style, row.before),
            other => ((*other).context().style, Before::Nothing),
        }
    }

    /// Returns its row with its context, if it is a row.
    #[inline(always)]
    fn row(&self) -> (Context, Row)
        ensures { result ≡ frame_row self.now }
    {
        match self {
            Frame::Row(_, _, context, row) => (*context, *row),
            other => ((*other).context(), Row::empty()),
        }
    }
}

/// The open frames, the innermost last. If there are none, the row of the whole formula is the innermost.
#[derive(Drop)]
pub(crate) struct Frames {
    stack: Vec<Frame>,
}

impl Frames {
    /// Creates a stack without frames.
    pub(crate) fn new(alloc: Global) -> Frames
        ensures { result.stack.items ≡ [] }
    {
        Frames {
            stack: Vec::new(alloc),
        }
    }

    pub(crate) fn clear(&mut self)
        ensures { self.new.stack.items ≡ [] }
    {
        self.stack.clear();
    }

    /// Pushes the row of a whole formula of this style, before its first atom.
    pub(crate) fn begin(&mut self, style: Style) -> Result<(), AllocError>
        ensures { OnOk result
            (self.new.stack.items ≡ self.old.stack.items ++ begun_row style ∷ []) }
    {
        self.push(text_row(style))
    }

    /// Pushes a frame.
    pub(crate) fn push(&mut self, frame: Frame) -> Result<(), AllocError>
        ensures { OnOk result (self.new.stack.items ≡ self.old.stack.items ++ frame ∷ []) }
    {
        self.stack.push(frame)?;
        Ok(())
    }

    /// Returns the innermost frame, in a formula of this style.
    #[inline(always)]
    pub(crate) fn innermost(&self, style: Style) -> Frame
        ensures { (others : List Frame) × IsInnermost style self.now.stack.items result others }
    {
        match self.stack.as_slice().last() {
            Some(&frame) => frame,
            None => text_row(style),
        }
    }

    /// Returns the innermost frame's context, if the frame is a row, in a formula of this style. A label of an arrow counts as none,
    /// because a letter may end it.
    #[inline(always)]
    pub(crate) fn row_context(&self, style: Style) -> Option<Context>
        ensures { IfSome result (λ context. IsRowInnermost style self.now.stack.items context) }
    {
        match self.stack.as_slice().last() {
            Some(Frame::Row(Ending::FirstLabel(_) | Ending::SecondLabel(_), _, _, _)) => None,
            Some(Frame::Row(_, _, context, _)) => Some(*context),
            Some(_) => None,
            None => Some(text_context(style)),
        }
    }

    /// Returns the innermost frame's row with its context, if the frame is a row, in a formula of this style. A frame is large,
    /// so no more of it is copied.
    #[inline(always)]
    pub(crate) fn row(&self, style: Style) -> (Context, Row)
        ensures { (f : Frame) × ((others : List Frame)
            × (IsInnermost style self.now.stack.items f others × (result ≡ frame_row f))) }
    {
        match self.stack.as_slice().last() {
            Some(frame) => frame.row(),
            None => text_row(style).row(),
        }
    }

    /// Returns the innermost frame's style and what precedes the next atom of its row, if the frame is a row, in a formula of this
    /// style.
    #[inline(always)]
    pub(crate) fn position(&self, style: Style) -> (Style, Before)
        ensures { (f : Frame) × ((others : List Frame)
            × (IsInnermost style self.now.stack.items f others
            × ((result.0 ≡ (frame_context f).style) × (result.1 ≡ (frame_row f).1.before)))) }
    {
        match self.stack.as_slice().last() {
            Some(frame) => frame.position(),
            None => text_row(style).position(),
        }
    }

    /// Replaces the innermost frame's row by this one, if the frame is a row, in a formula of this style.
    #[inline(always)]
    pub(crate) fn set_row(&mut self, style: Style, row: Row) -> Result<(), AllocError>
        ensures { OnOk result
            ((e : Ending) (place : ℕ) (c : Context) (old : Row) (others : List Frame)
            → IsInnermost style self.old.stack.items (Frame.Row e place c old) others
            → self.new.stack.items ≡ others ++ Frame.Row e place c row ∷ []) }
    {
        let len = self.stack.as_slice().len();
        if len == 0 {
            return self.push(Frame::Row(Ending::Text, 0, text_context(style), row));
        }
        if let Frame::Row(_, _, _, old) = &mut self.stack[len - 1] {
            *old = row;
        }
        Ok(())
    }

    /// Adds an atom to the innermost frame's row in place, if there is such a row on the stack and [`Row::add`] adds to it.
    /// Returns whether the atom was added.
    #[inline(always)]
    pub(crate) fn add(&mut self, core: Core) -> bool
        ensures added { IsTrue result → IsLonger core self.old.stack.items self.new.stack.items }
        ensures unchanged { result ≡ false → self.new.stack.items ≡ self.old.stack.items }
    {
        let len = self.stack.as_slice().len();
        if len == 0 {
            return false;
        }
        let Frame::Row(_, _, context, _) = &self.stack[len - 1] else {
            return false;
        };
        let style = context.style;
        match &mut self.stack[len - 1] {
            Frame::Row(_, _, _, row) => row.add(style, core),
            _ => false,
        }
    }

    /// Returns the place of the command or the mark that takes the operand for which the innermost frame waits, if it waits for
    /// one.
    #[inline(always)]
    pub(crate) fn operand_place(&self) -> Option<usize>
        ensures { IfSome result (λ place. (f : Frame) × (others : List Frame)
            × (self.now.stack.items ≡ others ++ f ∷ []) × (operand_place f ≡ Some place)) }
    {
        match self.stack.as_slice().last() {
            Some(
                Frame::Last(_, place, _)
                | Frame::First(_, place, _)
                | Frame::Script(_, _, _, place, _),
            ) => Some(*place),
            _ => None,
        }
    }

    /// Takes off the row of the whole formula and returns it, if it is the innermost frame on the stack and is finished.
    #[inline(always)]
    pub(crate) fn take_formula(&mut self) -> Option<Row>
        ensures { MatchOption result (self.new ≡ self.old)
            (λ row. TookRow Ending.Text row self.old.stack.items self.new.stack.items) }
    {
        let row = match self.stack.as_slice().last() {
            Some(Frame::Row(Ending::Text, _, _, row)) if row.is_finished() => *row,
            _ => return None,
        };
        self.stack.truncate(self.stack.as_slice().len() - 1);
        Some(row)
    }

    /// Takes off the row of a group or an operand in braces, if it is the innermost frame and is finished.
    #[inline(always)]
    pub(crate) fn take_braced(&mut self) -> Option<(Braced, Row)>
        ensures { MatchOption result (self.new ≡ self.old)
            (λ braced. TookRow (braced_ending braced.0) braced.1
            self.old.stack.items self.new.stack.items) }
    {
        let braced = match self.stack.as_slice().last() {
            Some(Frame::Row(Ending::Group, _, _, row)) if row.is_finished() => (
                Braced::Group,
                *row,
            ),
            Some(Frame::Row(Ending::Operand, _, _, row)) if row.is_finished() => (
                Braced::Operand,
                *row,
            ),
            _ => return None,
        };
        self.stack.truncate(self.stack.as_slice().len() - 1);
        Some(braced)
    }

    /// Takes off the innermost frame, in a formula of this style.
    pub(crate) fn take(&mut self, style: Style) -> Frame
        ensures { IsInnermost style self.old.stack.items result self.new.stack.items }
    {
        match self.stack.pop() {
            Some(frame) => frame,
            None => text_row(style),
        }
    }
}

/// Returns the row of a whole formula of this style, before its first atom.
fn text_row(style: Style) -> Frame
    ensures { result ≡ begun_row style }
{
    Frame::Row(Ending::Text, 0, text_context(style), Row::begun())
}

/// Returns the context in which the atoms of a whole formula of this style are read.
fn text_context(style: Style) -> Context
    ensures { result ≡ usual_context style None }
{
    Context::new(style, None)
}
