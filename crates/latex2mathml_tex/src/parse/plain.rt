//! How what is innermost goes on or ends, while that needs no copy of its frame. Most atoms of rows are letters, numbers and
//! signs without scripts: for these, no state is made either.
ghost use Rattle.std.specs.Prelude.{◌≡◌, ◌+◌, IfOk};
ghost use Rattle.latex2mathml_tex_commands.specs.Meanings.{meaning_of};
ghost use Rattle.latex2mathml_tex.specs.{Frames.Start, RowCharacters.IsRowInnermost, RowCharacters.ends_or_marks, RowCharacters.is_symbol, RowCommands.begins_atoms};
ghost use Rattle.latex2mathml_tex.specs.RowSymbols.{IsCommandNext, IsInRow, IsNext, added_state, lone_scripts};
ghost use Rattle.latex2mathml_tex_grammar.specs.Units as units;
ghost use Rattle.latex2mathml_tex_units.specs.{Left.units_behind, Taking.unit_of};
ghost use Rattle.latex2mathml_tex.specs.Steps.{Advances, Follows, Holds, HoldsIn, LeadsOn, Ready, left_of, to_do};

use crate::parse::endings::Ending;
use crate::parse::frames::Frame;
use crate::parse::leaves::{begin_number, number};
use crate::parse::scripts::mark_of;
use crate::parse::symbols::{put_letter, put_symbol};
use crate::parse::{Parser, State};
use latex2mathml_tex_atoms::atoms::{Context, Core, Row};
use latex2mathml_tex_atoms::rows::isolate;
use latex2mathml_tex_commands::commands;
use latex2mathml_tex_commands::meaning::Meaning;
use latex2mathml_tex_commands::signs::symbol_of;
use latex2mathml_tex_units::unit::{Next, Piece, Unit};
use std::alloc::AllocError;

/// What comes next in the innermost row.
#[derive(Clone, Copy)]
pub(crate) enum InRow {
    /// A symbol or a number, which is one in each row. It was taken, and its element was put: this is the atom without scripts.
    Symbol(Core),
    /// A command of this meaning, which is no symbol. It was not taken.
    Command(&'static Meaning),
    /// Anything else, or the innermost frame is no row. Nothing was taken.
    Other,
}

impl<'a> Parser<'a> {
    /// Takes the symbol or number that comes next in the innermost row and puts its element, if it is one in each row.
    #[inline(always)]
    pub(crate) fn symbol_in_row(&mut self) -> Result<InRow, AllocError>
        requires { Ready self.old State.Next }
        ensures { IfOk result (λ next. IsInRow next self.old self.new) }
    {
        let Some(context) = self.frames.row_context(self.style) else {
            return Ok(InRow::Other);
        };
        let Next::Unit(unit) = self.input.peek() else {
            return Ok(InRow::Other);
        };
        match unit.piece {
            Piece::Character(c) => self.character_in_row(c, context),
            Piece::Command(name) => self.command_in_row(name, context),
            _ => Ok(InRow::Other),
        }
    }

    /// Takes the character that comes next in the innermost row, as `symbol_in_row` does.
    #[inline(always)]
    fn character_in_row(&mut self, c: char, context: Context) -> Result<InRow, AllocError>
        requires ready { Ready self.old State.Next }
        requires next { IsNext (Piece.Character c) self.old }
        requires row { IsRowInnermost self.old.style self.old.frames.stack.items context }
        ensures { IfOk result (λ next. IsInRow next self.old self.new) }
    {
        if c.is_ascii_digit() {
            self.input.advance();
            if self.input.may_continue_number() {
                let number = self.number(context.alphabet, c)?;
                return Ok(InRow::Symbol(number));
            }
            begin_number(&mut self.builder, context.alphabet, c)?;
            return Ok(InRow::Symbol(number()));
        }
        if c.is_ascii_alphabetic() {
            self.input.advance();
            let letter = put_letter(&mut self.builder, context.alphabet, c)?;
            return Ok(InRow::Symbol(letter));
        }
        if is_symbol(c)
            && let Some(symbol) = symbol_of(c)
        {
            self.input.advance();
            let sign = put_symbol(&mut self.builder, context, symbol)?;
            return Ok(InRow::Symbol(sign));
        }
        Ok(InRow::Other)
    }

    /// Takes the command that comes next in the innermost row if it is a symbol, as `symbol_in_row` does.
    #[inline(always)]
    fn command_in_row(&mut self, name: &'a str, context: Context) -> Result<InRow, AllocError>
        requires ready { Ready self.old State.Next }
        requires next { IsNext (Piece.Command name) self.old }
        requires row { IsRowInnermost self.old.style self.old.frames.stack.items context }
        ensures { IfOk result (λ next. IsInRow next self.old self.new) }
    {
        let Some(meaning) = commands::find(name) else {
            return Ok(InRow::Other);
        };
        let Meaning::Shows(symbol) = meaning else {
            return Ok(InRow::Command(meaning));
        };
        self.input.advance();
        let sign = put_symbol(&mut self.builder, context, *symbol)?;
        Ok(InRow::Symbol(sign))
    }

    /// Begins the command of this meaning that comes next. In a row, no frame is copied for an atom that begins in each row.
    #[inline(never)]
    pub(crate) fn begin_command(
        &mut self,
        meaning: &'static Meaning,
        next: &mut State,
    ) -> Result<(), AllocError>
        requires ready { Ready self.old State.Next }
        requires next { IsCommandNext (meaning_of meaning.now) self.old }
        ensures holds { LeadsOn (HoldsIn State.Next) self.old self.new next.new result }
        ensures step { Advances 1 self.old self.new next.new result }
    {
        if let Some(context) = self.frames.row_context(self.style)
            && let Next::Unit(unit) = self.input.peek()
            && begins_atoms(*meaning)
        {
            self.input.advance();
            return self.meaning(*meaning, unit.place, context, next);
        }
        self.next_part(next)
    }

    /// Begins or ends what comes next in the innermost frame. No frame is copied for an operand, for a character or a group that
    /// begins an atom in each row, nor where a finished row ends with a brace or with the text.
    #[inline(never)]
    pub(crate) fn begin_next(&mut self, next: &mut State) -> Result<(), AllocError>
        requires { Ready self.old State.Next }
        ensures holds { LeadsOn (HoldsIn State.Next) self.old self.new next.new result }
        ensures step { Advances 1 self.old self.new next.new result }
    {
        if let Some(place) = self.frames.operand_place() {
            return self.next_operand(place, next);
        }
        match self.input.peek() {
            Next::Unit(unit) => self.begin_unit(unit, next),
            Next::End(at) => self.end_in_row(at, next),
            Next::Fault(_, _) => self.next_part(next),
        }
    }

    /// Begins or ends what this unit, which comes next, begins or ends in the innermost frame.
    #[inline(always)]
    fn begin_unit(&mut self, unit: Unit<'a>, next: &mut State) -> Result<(), AllocError>
        requires ready { Ready self.old State.Next }
        requires next { left_of self.old
            ≡ units.Next (unit_of unit) (units_behind self.old.input) }
        ensures holds { LeadsOn (HoldsIn State.Next) self.old self.new next.new result }
        ensures step { Advances 1 self.old self.new next.new result }
    {
        if let Piece::Close = unit.piece {
            return self.end_in_braces(unit, next);
        }
        if let Some(context) = self.frames.row_context(self.style) {
            match unit.piece {
                Piece::Character(c) if !ends_or_marks(c) => {
                    self.input.advance();
                    return self.character(c, unit.place, context, next);
                }
                Piece::Open => {
                    self.input.advance();
                    let group = Frame::Row(Ending::Group, unit.place, context, Row::empty());
                    return self.open(group, next);
                }
                _ => {}
            }
        }
        self.next_part(next)
    }

    /// Ends the innermost frame with this closing brace, which comes next.
    #[inline(never)]
    fn end_in_braces(&mut self, unit: Unit<'a>, next: &mut State) -> Result<(), AllocError>
        requires ready { Ready self.old State.Next }
        requires next { left_of self.old
            ≡ units.Next (unit_of unit) (units_behind self.old.input) }
        requires is { unit.piece ≡ Piece.Close }
        ensures holds { LeadsOn (HoldsIn State.Next) self.old self.new next.new result }
        ensures step { Advances 1 self.old self.new next.new result }
    {
        match self.frames.take_braced() {
            Some((braced, row)) => {
                self.input.advance();
                self.close_braced(braced, row, next)
            }
            None => self.next_part(next),
        }
    }

    /// Ends the innermost frame where the text ends.
    #[inline(always)]
    fn end_in_row(&mut self, at: usize, next: &mut State) -> Result<(), AllocError>
        requires ready { Ready self.old State.Next }
        requires end { left_of self.old ≡ units.End at }
        ensures holds { LeadsOn (HoldsIn State.Next) self.old self.new next.new result }
        ensures step { Advances 1 self.old self.new next.new result }
    {
        match self.frames.take_formula() {
            Some(row) => {
                isolate(&mut self.builder, row.count, row.last);
                *next = State::End(row.count);
                Ok(())
            }
            None => self.next_part(next),
        }
    }

    /// Adds an atom without scripts, whose element is uppermost, to the innermost row in place, unless a mark comes next or the
    /// row has to be changed otherwise. Returns whether the atom was added. Skips white space.
    pub(crate) fn add_unmarked(&mut self, core: Core) -> bool
        requires { Ready self.old (State.Atom core (lone_scripts core)) }
        ensures holds { (s : Start) → Holds s self.old (State.Atom core (lone_scripts core))
            → Holds s self.new (added_state result core) }
        ensures step { Follows (to_do self.old + 3) self.new (added_state result core) }
    {
        self.input.skip_space();
        match self.input.peek() {
            Next::Unit(unit) => {
                if let Some(_) = mark_of(unit.piece) {
                    return false;
                }
            }
            Next::End(_) | Next::Fault(_, _) => (),
        }
        self.frames.add(core)
    }
}

/// Whether the character ends some rows, or continues an atom.
#[inline(always)]
fn ends_or_marks(c: char) -> bool
    ensures { result ≡ ends_or_marks c }
{
    matches!(c, '&' | '_' | '^' | '\'' | ']' | '$' | '@')
}

/// Whether a character that is no letter and no digit is none of those that may be something else than a symbol in a row.
#[inline(always)]
fn is_symbol(c: char) -> bool
    ensures { result ≡ is_symbol c }
{
    !matches!(
        c,
        '.' | '~' | '&' | '#' | '$' | '_' | '^' | '\'' | ']' | '@'
    )
}

/// Whether a command of this meaning begins an atom in each row, and does nothing else.
#[inline(always)]
fn begins_atoms(meaning: Meaning) -> bool
    ensures { result ≡ begins_atoms (meaning_of meaning) }
{
    match meaning {
        Meaning::Changes(_) => false,
        Meaning::Limits | Meaning::NoLimits => false,
        Meaning::Middle | Meaning::Right => false,
        Meaning::EndTable | Meaning::LineBreak => false,
        _ => true,
    }
}
