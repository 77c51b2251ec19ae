//! The units that are still to be expanded.
ghost use Rattle.std.specs.Prelude.{◌≡◌, [], IsTrue, option_map};
ghost use Rattle.latex2mathml_tex_grammar.specs.{Definitions.digit, Definitions.sign, Next.past_space};
ghost use Rattle.latex2mathml_tex_units.specs.{Left.units_left, Pending.next_piece, Pending.pending_units, Taking.Takes, Taking.piece_of};

use crate::lexer::Lexer;
use crate::macros::part::{digit_of, is_character};
use crate::unit::{Next, Piece, Unit};
use std::alloc::Global;

/// Units that were put in place of macros, followed by the rest of a text.
#[derive(Drop)]
pub(crate) struct Pending<'a> {
    pub(crate) lexer: Lexer<'a>,
    /// The units that were put, the next one last.
    pub(crate) put: Vec<Unit<'a>>,
}

impl<'a> Pending<'a> {
    /// Returns the units that are left of a text, to be expanded.
    pub(crate) fn new(alloc: Global, lexer: Lexer<'a>) -> Pending<'a>
        ensures { pending_units result ≡ units_left lexer.entry }
    {
        Pending {
            lexer,
            put: Vec::new(alloc),
        }
    }

    /// Takes the next unit, if there is one.
    pub(crate) fn take(&mut self) -> Next<'a>
        ensures { Takes result (pending_units self.old) (pending_units self.new) }
    {
        match self.put.pop() {
            Some(unit) => Next::Unit(unit),
            None => self.lexer.take(),
        }
    }

    /// Whether no unit that was put is left.
    #[inline(always)]
    pub(crate) fn is_text(&self) -> bool
        ensures { IsTrue result → self.now.put.items ≡ [] }
    {
        self.put.as_slice().is_empty()
    }

    /// Returns the next piece, if there is one.
    pub(crate) fn peek(&self) -> Option<Piece<'a>>
        ensures { option_map piece_of result ≡ next_piece (pending_units self.now) }
    {
        if let Some(unit) = self.put.last() {
            return Some(unit.piece);
        }
        let mut ahead = self.lexer;
        match ahead.take() {
            Next::Unit(unit) => Some(unit.piece),
            _ => None,
        }
    }

    /// Skips white space.
    pub(crate) fn skip_space(&mut self)
        ensures { pending_units self.new ≡ past_space (pending_units self.old) }
    {
        'space: while let Some(Piece::Space) = self.peek() {
            self.take();
        }
    }

    /// Skips white space, then takes this character, if it comes next.
    pub(crate) fn take_sign(&mut self, wanted: char) -> bool
        ensures { (result, pending_units self.new) ≡ sign wanted (pending_units self.old) }
    {
        self.skip_space();
        if let Some(piece) = self.peek()
            && is_character(wanted, piece)
        {
            self.take();
            return true;
        }
        false
    }

    /// Skips white space, then takes a digit, if one comes next. Returns its value.
    pub(crate) fn take_digit(&mut self) -> Option<usize>
        ensures { (result, pending_units self.new) ≡ digit (pending_units self.old) }
    {
        self.skip_space();
        let piece = self.peek()?;
        let number = digit_of(piece)?;
        self.take();
        Some(number)
    }
}
