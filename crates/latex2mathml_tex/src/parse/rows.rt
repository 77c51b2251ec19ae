//! Rows: how each of their atoms begins, how it is put after the others, and how a row ends.
ghost use Rattle.std.specs.Prelude.{◌≡◌, ◌+◌, ℕ, false, OnOk, option_map};
ghost use Rattle.latex2mathml_tex_grammar.specs.{Makes.no_scripts, Meaning.Beside, Starts.change_meant, Starts.empty_base, Starts.ends};
ghost use Rattle.latex2mathml_tex_commands.specs.Meanings.{change_of, meaning_of};
ghost use Rattle.latex2mathml_tex_units.specs.Taking.{piece_of};
ghost use Rattle.latex2mathml_tex.specs.{Frames.Start, Frames.ending_count, Frames.ending_of, Innermost.braced_ending};
ghost use Rattle.latex2mathml_tex_atoms.specs.Models.{row_count};
ghost use Rattle.latex2mathml_tex.specs.Steps.{Awaits, AwaitsAtom, BeginsDivider, BeginsRest, CanBegin, CanMake, ClosesRow, EndsFormula, EndsRow, EndsText, EndsWithText, HasElements, IsEnding, HoldsIn, InnermostIs, Advances, LeadsOn, MadeAtom, Ready, Took, TookMark, TookUnmarked, atom_made, core_made, ending_weight, level, row_makes, Closes, Holds};
ghost use Rattle.latex2mathml_tex_atoms.specs.declared.atoms.{Context.Context, Row.Row};

use crate::parse::endings::{Ending, Table};
use crate::parse::frames::{Braced, Frame, Last};
use crate::parse::scripts::{Mark, mark_of};
use crate::parse::{Parser, State};
use latex2mathml_attributes::attributes::Attributes;
use latex2mathml_attributes::tag::Container;
use latex2mathml_tex_atoms::arrows::put_label_row;
use latex2mathml_tex_atoms::atoms::{Context, Core, Kind, Operand, Row, Scripts, Words};
use latex2mathml_tex_atoms::delimiters::{enclose, lower_dividers, put_divider};
use latex2mathml_tex_atoms::heights::Height;
use latex2mathml_tex_atoms::rests::{Division, Look, begin_anew, divide, finish};
use latex2mathml_tex_atoms::rows::{isolate, put_braced, put_row};
use latex2mathml_tex_atoms::shapes::{ordinary_kind, with_atom};
use latex2mathml_tex_commands::commands;
use latex2mathml_tex_commands::meaning::{Change, Class, LimitPlace, Meaning, Style};
use latex2mathml_tex_units::error::TexErrorKind;
use latex2mathml_tex_units::unit::{Next, Piece, Unit};
use std::alloc::AllocError;

impl<'a> Parser<'a> {
    /// Reads the next atom of the innermost row, or its ending.
    pub(crate) fn next_atom(
        &mut self,
        ending: Ending,
        place: usize,
        context: Context,
        row: Row,
        next: &mut State,
    ) -> Result<(), AllocError>
        requires ready { Ready self.old State.Next }
        requires due { InnermostIs (Frame.Row ending place context row) self.old }
        ensures holds { LeadsOn (HoldsIn State.Next) self.old self.new next.new result }
        ensures step { Advances 1 self.old self.new next.new result }
    {
        self.input.skip_space();
        match self.input.peek() {
            Next::Fault(fault, at) => {
                *next = self.refuse_fault(fault, at);
                Ok(())
            }
            Next::End(at) => {
                let _ = self.frames.take(self.style);
                self.end_of_text(ending, place, context.style, row, at, next)
            }
            Next::Unit(unit) => {
                self.input.advance();
                if ending.is(unit.piece) {
                    let _ = self.frames.take(self.style);
                    return self.end_row(ending, place, context.style, row, unit, next);
                }
                self.begin_atom(ending, unit, next)
            }
        }
    }

    /// Begins an atom of a row with this unit, which was taken.
    fn begin_atom(
        &mut self,
        ending: Ending,
        unit: Unit<'a>,
        next: &mut State,
    ) -> Result<(), AllocError>
        requires begin { CanBegin 0 self.old }
        requires due { (place : ℕ) × ((row : Row) × AwaitsAtom ending place row self.old) }
        requires some { (place : ℕ) → ends (ending_of ending place) (piece_of unit.piece) ≡ false }
        ensures holds { LeadsOn (Took unit.entry) self.old self.new next.new result }
        ensures step { Advances 13 self.old self.new next.new result }
    {
        if ending.is_divided_by(unit.piece) {
            return self.divider(next);
        }
        let Some(mark) = mark_of(unit.piece) else {
            return self.begin_unmarked(unit, next);
        };
        match mark {
            Mark::Prime | Mark::Script(_) => self.begin_scripts(mark, unit.place, next),
            Mark::Limits(_) => self.begin(unit, next),
        }
    }

    /// Begins an atom of a row with this unit, which was taken and is not a mark, or changes what follows it.
    fn begin_unmarked(&mut self, unit: Unit<'a>, next: &mut State) -> Result<(), AllocError>
        requires begin { CanBegin 0 self.old }
        requires row { Awaits atom_made self.old }
        ensures holds { LeadsOn (TookUnmarked unit.entry) self.old self.new next.new result }
        ensures step { Advances 13 self.old self.new next.new result }
    {
        let Piece::Command(name) = unit.piece else {
            return self.begin_whole(unit, next);
        };
        let found = commands::look_up(name);
        if let Some(change) = change_by(found) {
            return self.change(change, unit.place, next);
        }
        let context = self.frames.innermost(self.style).context();
        self.command(found, name, unit.place, context, next)
    }

    /// Changes what follows this place in the innermost row.
    fn change(&mut self, change: Change, place: usize, next: &mut State) -> Result<(), AllocError>
        requires begin { CanBegin 0 self.old }
        requires row { Awaits atom_made self.old }
        ensures holds { LeadsOn (BeginsRest (change_of change) place)
            self.old self.new next.new result }
        ensures step { Advances 13 self.old self.new next.new result }
    {
        let Frame::Row(ending, at, context, row) = self.frames.take(self.style) else {
            unreachable!()
        };
        match change {
            Change::ToAlphabet(alphabet) => {
                let context = Context {
                    alphabet: Some(alphabet),
                    ..context
                };
                self.open(Frame::Row(ending, at, context, row), next)
            }
            Change::ToStyle(style) => {
                let look = Look {
                    has_own_style: true,
                    ..row.look(context)
                };
                let row = begin_anew(&mut self.builder, context.style, row, look)?;
                self.open(Frame::Row(ending, at, context.styled(style), row), next)
            }
            Change::ToSize(size) => {
                let look = row.look(context).with_size(size, context.style);
                let row = begin_anew(&mut self.builder, context.style, row, look)?;
                self.open(Frame::Row(ending, at, context.sized(size), row), next)
            }
            Change::ToColor => {
                let Some(color) = self.take_color(place)? else {
                    *next = State::Refused;
                    return Ok(());
                };
                let look = Look {
                    color: Some(color),
                    ..row.look(context)
                };
                let row = begin_anew(&mut self.builder, context.style, row, look)?;
                self.open(Frame::Row(ending, at, context, row), next)
            }
            Change::Divides(rule) => match row.under {
                Some(_) => {
                    *next = self.refuse(TexErrorKind::SecondInfix, place);
                    Ok(())
                }
                None => {
                    let look = row.look(context);
                    let below = look.context_below(context);
                    let fraction = Division {
                        rule,
                        style: look.group,
                    };
                    let row = divide(&mut self.builder, context.style, row, fraction)?;
                    self.open(Frame::Row(ending, at, below, row), next)
                }
            },
        }
    }

    /// Begins with a mark, which was taken. Its base is a row without atoms.
    fn begin_scripts(
        &mut self,
        mark: Mark,
        place: usize,
        next: &mut State,
    ) -> Result<(), AllocError>
        requires begin { CanBegin 0 self.old }
        requires row { Awaits atom_made self.old }
        ensures holds { LeadsOn
            (λ s. TookMark mark place (level 0 s self.old) empty_base
            (no_scripts empty_base.kind Beside) s)
            self.old self.new next.new result }
        ensures step { Advances 13 self.old self.new next.new result }
    {
        self.builder
            .container(Container::Mrow, Attributes::plain(), 0)?;
        let base = Core::new(Kind::Plain(Class::Ordinary), Height::Low);
        self.take_mark(
            mark,
            place,
            base,
            Scripts::none(base.kind, LimitPlace::Beside),
            next,
        )
    }

    /// Puts a delimiter within others. It takes no scripts.
    fn divider(&mut self, next: &mut State) -> Result<(), AllocError>
        requires begin { CanBegin 0 self.old }
        requires row { Awaits atom_made self.old }
        ensures holds { LeadsOn BeginsDivider self.old self.new next.new result }
        ensures step { Advances 13 self.old self.new next.new result }
    {
        let Some(delimiter) = self.input.take_delimiter() else {
            *next = self.refuse_delimiter();
            return Ok(());
        };
        put_divider(&mut self.builder, delimiter)?;
        self.put(Core::new(Kind::Divider, Height::Low), next)
    }

    /// Puts an atom, whose element is uppermost, after the others of the innermost row.
    #[inline(always)]
    pub(crate) fn put(&mut self, core: Core, next: &mut State) -> Result<(), AllocError>
        requires { CanMake atom_made 1 self.old }
        ensures holds { LeadsOn (MadeAtom core) self.old self.new next.new result }
        ensures step { Advances 2 self.old self.new next.new result }
    {
        if self.frames.add(core) {
            *next = State::Next;
            return Ok(());
        }
        self.put_adapted(core, next)
    }

    /// Puts an atom, whose element is uppermost, after the others of the innermost row. The element may have to change.
    #[inline(never)]
    fn put_adapted(&mut self, core: Core, next: &mut State) -> Result<(), AllocError>
        requires { CanMake atom_made 1 self.old }
        ensures holds { LeadsOn (MadeAtom core) self.old self.new next.new result }
        ensures step { Advances 2 self.old self.new next.new result }
    {
        let (context, row) = self.frames.row(self.style);
        let row = with_atom(&mut self.builder, context.style, row, core)?;
        self.frames.set_row(self.style, row)?;
        *next = State::Next;
        Ok(())
    }

    /// Ends a row that was read in this style, where the text ends, at `at`. Its frame was taken off the stack.
    fn end_of_text(
        &mut self,
        ending: Ending,
        place: usize,
        style: Style,
        row: Row,
        at: usize,
        next: &mut State,
    ) -> Result<(), AllocError>
        requires can { CanMake (row_makes ending) (row_count row + ending_count ending) self.old }
        ensures holds { LeadsOn (EndsText ending place style row at)
            self.old self.new next.new result }
        ensures step { Advances (ending_weight ending + 1) self.old self.new next.new result }
    {
        let kind = match ending {
            Ending::Text => return self.end_formula(style, row, next),
            Ending::Group | Ending::Operand => TexErrorKind::UnclosedBrace,
            Ending::Degree | Ending::BelowArrow => TexErrorKind::UnclosedBracket,
            Ending::Delimiters(_) => TexErrorKind::LeftWithoutRight,
            Ending::Formula(_) => TexErrorKind::UnclosedDollar,
            Ending::Cell(table) => match table.unended() {
                Some(kind) => kind,
                None => return self.end_last_cell(table, place, style, row, at, next),
            },
            Ending::FirstLabel(_) | Ending::SecondLabel(_) => TexErrorKind::IncompleteArrow,
        };
        *next = self.refuse(kind, place);
        Ok(())
    }

    /// Ends the row of the whole formula. Its frame was taken off the stack.
    fn end_formula(&mut self, style: Style, row: Row, next: &mut State) -> Result<(), AllocError>
        requires elements { HasElements (row_count row) self.old }
        ensures holds { LeadsOn (EndsFormula style row) self.old self.new next.new result }
        ensures step { Advances 1 self.old self.new next.new result }
    {
        let row = finish(&mut self.builder, style, row)?;
        isolate(&mut self.builder, row.count, row.last);
        *next = State::End(row.count);
        Ok(())
    }

    /// Ends the rows of the whole text where the text ends, in a cell that was read in this style. The frame of the cell was
    /// taken off the stack.
    fn end_last_cell(
        &mut self,
        table: Table,
        place: usize,
        style: Style,
        row: Row,
        at: usize,
        next: &mut State,
    ) -> Result<(), AllocError>
        requires can { CanMake core_made (row_count row + (table.cells + table.rows)) self.old }
        ensures holds { LeadsOn
            (EndsWithText (Ending.Cell table) place style row at)
            self.old self.new next.new result }
        ensures step { Advances 5 self.old self.new next.new result }
    {
        let row = finish(&mut self.builder, style, row)?;
        self.end_cells(table, row.count, row.last, at, next)
    }

    /// Ends a row that was read in this style, with this unit, which was taken. Its frame was taken off the stack.
    fn end_row(
        &mut self,
        ending: Ending,
        place: usize,
        style: Style,
        row: Row,
        unit: Unit<'a>,
        next: &mut State,
    ) -> Result<(), AllocError>
        requires ends { IsEnding ending (piece_of unit.piece) }
        requires can { CanMake (row_makes ending) (row_count row + ending_count ending) self.old }
        ensures holds { LeadsOn (EndsRow ending place style row unit.entry)
            self.old self.new next.new result }
        ensures step { Advances 13 self.old self.new next.new result }
    {
        let row = finish(&mut self.builder, style, row)?;
        self.close(ending, place, row, unit, next)
    }

    /// Ends a finished row.
    fn close(
        &mut self,
        ending: Ending,
        place: usize,
        row: Row,
        unit: Unit<'a>,
        next: &mut State,
    ) -> Result<(), AllocError>
        requires ends { IsEnding ending (piece_of unit.piece) }
        requires can { CanMake (row_makes ending) (row.count + ending_count ending) self.old }
        ensures holds { LeadsOn (Closes ending place row unit.entry)
            self.old self.new next.new result }
        ensures step { Advances 13 self.old self.new next.new result }
    {
        match ending {
            Ending::Text => unreachable!(),
            Ending::Cell(table) => self.close_cell(table, place, row, unit, next),
            Ending::FirstLabel(labeled) => {
                self.close_first_label(labeled, place, row, unit, next)
            }
            Ending::SecondLabel(labeled) => {
                self.close_second_label(labeled, place, row, unit, next)
            }
            Ending::Group => self.close_braced(Braced::Group, row, next),
            Ending::Operand => self.close_braced(Braced::Operand, row, next),
            Ending::Degree => {
                put_row(&mut self.builder, row.count)?;
                let context = self.frames.innermost(self.style).context();
                self.open(Frame::Last(Last::Root, place, context), next)
            }
            Ending::BelowArrow => {
                put_label_row(&mut self.builder, row.count)?;
                let context = self.frames.innermost(self.style).context();
                let small = context.styled(Style::InScript);
                self.open(Frame::Last(Last::OverAndUnderArrow, place, small), next)
            }
            Ending::Delimiters(opening) => self.close_delimiters(opening, row, next),
            Ending::Formula(count) => {
                put_braced(&mut self.builder, row.count, row.last)?;
                // all elements of words are among those of the builder, so their number fits in a `usize`
                let _ = self.builder.len();
                *next = State::Words(Words {
                    count: count + 1,
                    last: None,
                    accent: None,
                });
                Ok(())
            }
        }
    }

    /// Ends a finished row of an operand or a group, whose closing brace was taken.
    #[inline(always)]
    pub(crate) fn close_braced(
        &mut self,
        braced: Braced,
        row: Row,
        next: &mut State,
    ) -> Result<(), AllocError>
        requires { CanMake (row_makes (braced_ending braced)) (row.count + 0) self.old }
        ensures holds { (s : Start) (place : ℕ)
            → ClosesRow (braced_ending braced) place row s self.old
            → OnOk result (Holds s self.new next.new) }
        ensures step { Advances 13 self.old self.new next.new result }
    {
        match braced {
            Braced::Group => {
                put_braced(&mut self.builder, row.count, row.last)?;
                *next = State::Core(Core::new(ordinary_kind(&self.builder), row.height));
                Ok(())
            }
            Braced::Operand => {
                put_row(&mut self.builder, row.count)?;
                *next = State::Operand(Operand {
                    class: row.class,
                    height: row.height,
                });
                Ok(())
            }
        }
    }

    /// Ends a row between delimiters, whose `\right` was taken.
    fn close_delimiters(
        &mut self,
        opening: Option<char>,
        row: Row,
        next: &mut State,
    ) -> Result<(), AllocError>
        requires { CanMake core_made row.count self.old }
        ensures holds { LeadsOn
            (ClosesRow (Ending.Delimiters opening) 0 row)
            self.old self.new next.new result }
        ensures step { Advances 13 self.old self.new next.new result }
    {
        let Some(closing) = self.input.take_delimiter() else {
            *next = self.refuse_delimiter();
            return Ok(());
        };
        if row.height.is_low() {
            lower_dividers(&mut self.builder, row.count);
        }
        put_row(&mut self.builder, row.count)?;
        enclose(&mut self.builder, row.height, opening, closing)?;
        *next = State::Core(Core::new(Kind::Plain(Class::Inner), row.height));
        Ok(())
    }
}

/// Returns what a command changes, if the table has a meaning for it that changes what follows.
#[inline(always)]
fn change_by(found: Option<Meaning>) -> Option<Change>
    ensures { option_map change_of result ≡ change_meant (option_map meaning_of found) }
{
    match found {
        Some(Meaning::Changes(change)) => Some(change),
        _ => None,
    }
}
