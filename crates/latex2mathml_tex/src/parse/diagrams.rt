//! The arrows of diagrams: how each begins, and what is made of its labels.
ghost use Rattle.std.specs.Prelude.{◌≡◌, ◌+◌, List, length, true};
ghost use Rattle.latex2mathml_elements.specs.Element.{Element};
ghost use Rattle.latex2mathml_tex_commands.specs.Diagrams.{diagram_arrow};
ghost use Rattle.latex2mathml_tex_grammar.specs.Diagrams;
ghost use Rattle.latex2mathml_tex_grammar.specs.Starts;
ghost use Rattle.latex2mathml_tex_units.specs.Taking.{piece_of};
ghost use Rattle.latex2mathml_tex.specs.Diagrams.{MakesArrow};
ghost use Rattle.latex2mathml_tex.specs.{Frames.ending_count, Tables.table_of};
ghost use Rattle.latex2mathml_tex.specs.Steps.{Advances, CanMake, ClosesBefore, ClosesCell, GoesOnTable, LeadsOn, core_made};

use crate::parse::endings::{Diagram, Ending, Labeled, is_sign_of};
use crate::parse::frames::Frame;
use crate::parse::{Parser, State};
use latex2mathml_tex_atoms::atoms::Row;
use latex2mathml_tex_atoms::diagrams::{
    put_bare_arrow, put_first_label, put_high_bars, put_labeled_arrow, put_long_equals,
};
use latex2mathml_tex_atoms::rows::{put_braced, put_row};
use latex2mathml_tex_commands::diagrams::DiagramArrow;
use latex2mathml_tex_commands::meaning::Style;
use latex2mathml_tex_units::error::TexErrorKind;
use latex2mathml_tex_units::unit::Unit;
use std::alloc::AllocError;

impl<'a> Parser<'a> {
    /// Ends a cell with this at sign, which was taken, and begins the arrow after it. The frame of the cell was taken off the
    /// stack.
    pub(crate) fn close_at_arrow(
        &mut self,
        diagram: Diagram,
        place: usize,
        row: Row,
        unit: Unit<'a>,
        next: &mut State,
    ) -> Result<(), AllocError>
        requires begins { Starts.BeginsArrow ≡ Starts.cell_end (piece_of unit.piece) }
        requires can { CanMake core_made (row.count + (diagram.cells + diagram.rows)) self.old }
        ensures holds { LeadsOn (ClosesCell (table_of diagram) place row unit.entry)
            self.old self.new next.new result }
        ensures step { Advances 13 self.old self.new next.new result }
    {
        let Some(arrow) = self.input.take_arrow() else {
            *next = self.refuse(TexErrorKind::IncompleteArrow, unit.place);
            return Ok(());
        };
        if fills_cell(arrow, diagram.cells, row.count) {
            return self.begin_arrow(arrow, diagram, place, unit.place, next);
        }
        put_braced(&mut self.builder, row.count, row.last)?;
        let _ = self.builder.len();
        let cells = diagram.cells + 1;
        self.begin_arrow(arrow, Diagram { cells, ..diagram }, place, unit.place, next)
    }

    /// Begins an arrow that is the next cell of this diagram, which began at `place`. The at sign was at `at`.
    fn begin_arrow(
        &mut self,
        arrow: DiagramArrow,
        diagram: Diagram,
        place: usize,
        at: usize,
        next: &mut State,
    ) -> Result<(), AllocError>
        requires can { CanMake core_made (diagram.cells + diagram.rows) self.old }
        ensures holds { LeadsOn (MakesArrow arrow (table_of diagram) place at)
            self.old self.new next.new result }
        ensures step { Advances 6 self.old self.new next.new result }
    {
        match arrow {
            DiagramArrow::Labeled(direction) => {
                put_bare_arrow(&mut self.builder, direction)?;
                let around = self.frames.innermost(self.style).context();
                let small = around.styled(Style::InScript);
                let labeled = Labeled {
                    direction,
                    diagram,
                    place,
                };
                self.open(
                    Frame::Row(Ending::FirstLabel(labeled), at, small, Row::empty()),
                    next,
                )
            }
            DiagramArrow::LongEquals => {
                put_long_equals(&mut self.builder)?;
                self.next_cell(diagram, place, next)
            }
            DiagramArrow::HighBars => {
                put_high_bars(&mut self.builder)?;
                self.next_cell(diagram, place, next)
            }
            DiagramArrow::Nothing => {
                put_row(&mut self.builder, 0)?;
                self.next_cell(diagram, place, next)
            }
        }
    }

    /// Ends the first label of an arrow with this unit, which was taken. The at sign was at `at`.
    pub(crate) fn close_first_label(
        &mut self,
        labeled: Labeled,
        at: usize,
        row: Row,
        unit: Unit<'a>,
        next: &mut State,
    ) -> Result<(), AllocError>
        requires can { CanMake core_made (row.count + ending_count (Ending.FirstLabel labeled))
            self.old }
        ensures holds { LeadsOn
            (ClosesBefore (Ending.FirstLabel labeled) at row unit.entry)
            self.old self.new next.new result }
        ensures step { Advances 13 self.old self.new next.new result }
    {
        if !is_sign_of(labeled.direction, unit.piece) {
            *next = self.refuse(TexErrorKind::IncompleteArrow, at);
            return Ok(());
        }
        put_first_label(&mut self.builder, labeled.direction, row.count)?;
        let around = self.frames.innermost(self.style).context();
        let small = around.styled(Style::InScript);
        self.open(
            Frame::Row(Ending::SecondLabel(labeled), at, small, Row::empty()),
            next,
        )
    }

    /// Ends the second label of an arrow with this unit, which was taken. The at sign was at `at`.
    pub(crate) fn close_second_label(
        &mut self,
        labeled: Labeled,
        at: usize,
        row: Row,
        unit: Unit<'a>,
        next: &mut State,
    ) -> Result<(), AllocError>
        requires can { CanMake core_made (row.count + ending_count (Ending.SecondLabel labeled))
            self.old }
        ensures holds { LeadsOn
            (ClosesBefore (Ending.SecondLabel labeled) at row unit.entry)
            self.old self.new next.new result }
        ensures step { Advances 13 self.old self.new next.new result }
    {
        if !is_sign_of(labeled.direction, unit.piece) {
            *next = self.refuse(TexErrorKind::IncompleteArrow, at);
            return Ok(());
        }
        put_labeled_arrow(&mut self.builder, labeled.direction, row.count)?;
        self.next_cell(labeled.diagram, labeled.place, next)
    }

    /// Goes on after one more cell of a diagram, whose element is the uppermost one.
    fn next_cell(
        &mut self,
        diagram: Diagram,
        place: usize,
        next: &mut State,
    ) -> Result<(), AllocError>
        requires can { CanMake core_made (diagram.cells + 1 + diagram.rows) self.old }
        ensures holds { LeadsOn
            (GoesOnTable (table_of (record diagram { cells = diagram.cells + 1 })) place)
            self.old self.new next.new result }
        ensures step { Advances 6 self.old self.new next.new result }
    {
        // all cells are among the elements of the builder, so their number fits in a `usize`
        let _ = self.builder.len();
        let cells = diagram.cells + 1;
        self.begin_cell(Diagram { cells, ..diagram }.table(), place, next)
    }
}

/// Whether an arrow is all of the cell in which it begins: it goes up or down, and is in the column of an object. The cell has `cells`
/// others before it, and so far `count` elements.
fn fills_cell(arrow: DiagramArrow, cells: usize, count: usize) -> bool
    ensures fills { (cell : List Element) → length cell ≡ count
        → result ≡ Diagrams.fills_cell (diagram_arrow arrow) cells cell }
    ensures empty { result ≡ true → count ≡ 0 }
{
    arrow.is_upright() && cells % 2 == 0 && count == 0
}
