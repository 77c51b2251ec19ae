//! Tables: how each cell begins and ends, and what is made of the cells.
ghost use Rattle.std.specs.Prelude.{◌≡◌, ◌+◌, ◌∷◌, ◌<◌, ◌≤◌, IfOk, List, MatchBool, OnOk, drop, length, option_map, reverse, string_bytes, take};
ghost use Rattle.latex2mathml_builder.specs.{Built.elements_in, Stacks.table_with};
ghost use Rattle.latex2mathml_attributes.specs.{Arounds.extent_of, Columns.columns_of, Lines.line_of};
ghost use Rattle.latex2mathml_elements.specs.{Attributes.styled, Element.Element};
ghost use Rattle.latex2mathml_attributes.specs.Names.{math_style_of};
ghost use Rattle.latex2mathml_tex_grammar.specs.Tables;
ghost use Rattle.latex2mathml_tex_grammar.specs.{Meaning.Substack, RowLines.lined, Starts.cell_end, Tables.row_of, Rows.lone, Rows.row_element};
ghost use Rattle.latex2mathml_tex_grammar.specs.Rules.{meaning_rule, rows_of_text};
ghost use Rattle.latex2mathml_tex_grammar.specs.Separators.{columns_by, text_columns};
ghost use Rattle.latex2mathml_tex_commands.specs.Meanings.{class_of, style_of};
ghost use Rattle.latex2mathml_tex_units.specs.{Scans.spot_of, Taking.piece_of};
ghost use Rattle.latex2mathml_tex.specs.Frames.{context_at};
ghost use Rattle.latex2mathml_tex_atoms.specs.{Models.context_of, Models.height_of, Models.kind_of};
ghost use Rattle.latex2mathml_tex_units.specs.Environments.{delimiter_texts};
ghost use Rattle.latex2mathml_tex.specs.Tables.{cell_end_of, line_count};
ghost use Rattle.latex2mathml_tex.specs.Steps.{BeginsIn, BeginsTable, CanBegin, CanMake, Begins, ClosesCell, EndsCells, EndsRows, GoesOnTable, IsEnding, Advances, LeadsOn, left_of, MakesTable, TookText, core_made, level};

use crate::parse::endings::{Diagram, Ending, Table, TableKind};
use crate::parse::frames::Frame;
use crate::parse::{Parser, State};
use latex2mathml_attributes::attributes::{Attributes, MathStyle};
use latex2mathml_attributes::columns::{Alignment, Columns, Density};
use latex2mathml_attributes::extent::Extent;
use latex2mathml_attributes::line::Line;
use latex2mathml_attributes::tag::Container;
use latex2mathml_builder::builder::Builder;
use latex2mathml_tex_atoms::atoms::{Context, Core, Kind, Row};
use latex2mathml_tex_atoms::boxes::put_strut;
use latex2mathml_tex_atoms::delimiters::enclose;
use latex2mathml_tex_atoms::heights::Height;
use latex2mathml_tex_atoms::rows::put_braced;
use latex2mathml_tex_commands::meaning::{Class, Style};
use latex2mathml_tex_units::environments::Environment;
use latex2mathml_tex_units::error::TexErrorKind;
use latex2mathml_tex_units::scanning::{Argument, Spot};
use latex2mathml_tex_units::unit::{Piece, Unit};
use std::alloc::AllocError;

/// What the end of a cell does.
#[derive(Clone, Copy)]
enum CellEnd {
    PartsCells,
    BeginsArrow,
    EndsRow,
    EndsTable,
}

impl<'a> Parser<'a> {
    /// Takes the text that is found from this spot on. If it is not here, the formula is refused and `None` is
    /// returned: a part of it may then have been taken.
    pub(crate) fn take_text(
        &mut self,
        place: usize,
        spot: Spot,
    ) -> Result<Option<String>, AllocError>
        ensures { IfOk result (λ text. TookText place (spot_of spot) self.old self.new
            (option_map string_bytes text)) }
    {
        let mut text = String::new(self.alloc);
        if let Some(error) = self.input.scan(place, spot, &mut text)? {
            self.refusal = error;
            return Ok(None);
        }
        Ok(Some(text))
    }

    /// Begins rows in braces.
    pub(crate) fn begin_substack(
        &mut self,
        place: usize,
        context: Context,
        next: &mut State,
    ) -> Result<(), AllocError>
        requires begin { CanBegin 0 self.old }
        ensures holds { LeadsOn
            (BeginsIn context (meaning_rule place (context_of context) Substack) 0)
            self.old self.new next.new result }
        ensures step { Advances 13 self.old self.new next.new result }
    {
        let Some(_brace) = self.take_text(place, Spot::BeforeBrace)? else {
            *next = State::Refused;
            return Ok(());
        };
        self.begin_first_cell(TableKind::Braces, place, next)
    }

    /// Begins the rows of the whole text.
    pub(crate) fn begin_text(&mut self, next: &mut State) -> Result<(), AllocError>
        requires begin { CanBegin 0 self.old }
        ensures holds { LeadsOn
            (λ s. Begins (rows_of_text (text_columns (left_of self.old))
            (context_at (level 0 s self.old))) 0 s)
            self.old self.new next.new result }
        ensures step { Advances 13 self.old self.new next.new result }
    {
        let columns = columns_by(self.input.has_separator());
        self.begin_first_cell(TableKind::Text(columns), 0, next)
    }

    /// Begins the first cell of a table, and the line before its row, if there is one.
    pub(crate) fn begin_first_cell(
        &mut self,
        kind: TableKind,
        place: usize,
        next: &mut State,
    ) -> Result<(), AllocError>
        requires begin { CanBegin 0 self.old }
        ensures holds { LeadsOn (BeginsTable kind place) self.old self.new next.new result }
        ensures step { Advances 12 self.old self.new next.new result }
    {
        let line = self.input.pass_lines(self.alloc)?;
        let rows = put_line(&mut self.builder, line)?;
        let table = Table {
            kind,
            rows,
            cells: 0,
        };
        self.begin_cell(table, place, next)
    }

    /// Begins the next cell of a table.
    pub(crate) fn begin_cell(
        &mut self,
        table: Table,
        place: usize,
        next: &mut State,
    ) -> Result<(), AllocError>
        requires can { CanMake core_made (table.cells + table.rows) self.old }
        ensures holds { LeadsOn (GoesOnTable table place) self.old self.new next.new result }
        ensures step { Advances 6 self.old self.new next.new result }
    {
        let around = self.frames.innermost(self.style).context();
        let context = around.styled(table.style());
        self.open(
            Frame::Row(Ending::Cell(table), place, context, table.begun_cell()),
            next,
        )
    }

    /// Ends a cell with this unit, which was taken. The frame of the cell was taken off the stack.
    pub(crate) fn close_cell(
        &mut self,
        table: Table,
        place: usize,
        row: Row,
        unit: Unit<'a>,
        next: &mut State,
    ) -> Result<(), AllocError>
        requires ends { IsEnding (Ending.Cell table) (piece_of unit.piece) }
        requires can { CanMake core_made (row.count + (table.cells + table.rows)) self.old }
        ensures holds { LeadsOn (ClosesCell table place row unit.entry)
            self.old self.new next.new result }
        ensures step { Advances 13 self.old self.new next.new result }
    {
        match cell_end(unit.piece) {
            CellEnd::PartsCells => {
                put_braced(&mut self.builder, row.count, row.last)?;
                // all cells are among the elements of the builder, so their number fits in a `usize`
                let _ = self.builder.len();
                let cells = table.cells + 1;
                self.begin_cell(Table { cells, ..table }, place, next)
            }
            CellEnd::BeginsArrow => {
                let TableKind::Diagram(environment) = table.kind else {
                    unreachable!()
                };
                let diagram = Diagram {
                    environment,
                    rows: table.rows,
                    cells: table.cells,
                };
                self.close_at_arrow(diagram, place, row, unit, next)
            }
            CellEnd::EndsRow => {
                let gap = self.input.pass_gap(self.alloc)?;
                let strut = table.kind.columns().density().strut(gap);
                put_last(&mut self.builder, row.count, row.last, strut, table.cells)?;
                let line = self.input.pass_lines(self.alloc)?;
                let lines = put_line(&mut self.builder, line)?;
                let _ = self.builder.len();
                let rows = table.rows + 1 + lines;
                self.begin_cell(
                    Table {
                        rows,
                        cells: 0,
                        ..table
                    },
                    place,
                    next,
                )
            }
            CellEnd::EndsTable => { self.end_cells(table, row.count, row.last, unit.place, next) }
        }
    }

    /// Ends a table at this place, after its last cell, which has `count` elements, and whose last atom is of this kind.
    pub(crate) fn end_cells(
        &mut self,
        table: Table,
        count: usize,
        last: Kind,
        at: usize,
        next: &mut State,
    ) -> Result<(), AllocError>
        requires can { CanMake core_made (count + (table.cells + table.rows)) self.old }
        ensures holds { LeadsOn (EndsCells table count last at)
            self.old self.new next.new result }
        ensures step { Advances 5 self.old self.new next.new result }
    {
        // an empty last row does not count
        if is_no_row(count, table) {
            return self.end_table(table.kind, table.rows, at, next);
        }
        let strut = table.kind.columns().density().strut(0);
        put_last(&mut self.builder, count, last, strut, table.cells)?;
        let _ = self.builder.len();
        let rows = table.rows + 1;
        self.end_table(table.kind, rows, at, next)
    }

    /// Ends a table of this many rows, whose end is at this place and was taken.
    fn end_table(
        &mut self,
        kind: TableKind,
        rows: usize,
        at: usize,
        next: &mut State,
    ) -> Result<(), AllocError>
        requires can { CanMake core_made rows self.old }
        requires some { 0 < rows }
        ensures holds { LeadsOn (EndsRows kind rows at) self.old self.new next.new result }
        ensures step { Advances 5 self.old self.new next.new result }
    {
        let columns = kind.columns();
        match kind {
            TableKind::Environment(environment, _) | TableKind::Diagram(environment) => {
                self.end_environment(environment, columns, rows, at, next)
            }
            TableKind::Braces => self.make_table(None, columns, Style::InScript, rows, next),
            TableKind::Text(_) => self.make_table(None, columns, Style::InDisplay, rows, next),
        }
    }

    /// Ends an environment, whose name must come next.
    fn end_environment(
        &mut self,
        environment: &'static Environment,
        columns: Columns,
        rows: usize,
        at: usize,
        next: &mut State,
    ) -> Result<(), AllocError>
        requires can { CanMake core_made rows self.old }
        requires some { 0 < rows }
        ensures holds { LeadsOn
            (EndsRows (TableKind.Environment environment.entry columns) rows at)
            self.old self.new next.new result }
        ensures step { Advances 5 self.old self.new next.new result }
    {
        let spot = Spot::BeforeArgument(Argument::Name);
        let Some(name) = self.take_text(at, spot)? else {
            *next = State::Refused;
            return Ok(());
        };
        if name.as_str() == environment.name {
            return self.make_table(
                environment.delimiters,
                columns,
                environment.style,
                rows,
                next,
            );
        }
        *next = self.refuse(TexErrorKind::OtherName, at);
        Ok(())
    }

    /// Makes a table of this many rows, whose cells have this style.
    fn make_table(
        &mut self,
        delimiters: Option<(Option<char>, Option<char>)>,
        columns: Columns,
        style: Style,
        rows: usize,
        next: &mut State,
    ) -> Result<(), AllocError>
        requires can { CanMake core_made rows self.old }
        requires some { 0 < rows }
        ensures holds { LeadsOn (MakesTable delimiters columns style rows)
            self.old self.new next.new result }
        ensures step { Advances 5 self.old self.new next.new result }
    {
        let around = self.frames.innermost(self.style).context();
        let said = said_style(style, around.style);
        put_table(&mut self.builder, delimiters, columns, said, rows)?;
        let class = table_class(delimiters);
        *next = State::Core(Core::new(Kind::Plain(class), table_height(rows)));
        Ok(())
    }
}

/// Returns the columns of rows whose cells are separated, or of rows of one cell each.
fn columns_by(are_separated: bool) -> Columns
    ensures { columns_of result ≡ columns_by are_separated }
{
    if are_separated {
        Columns::in_pairs()
    } else {
        Columns::alike(Density::Opened, Alignment::Centered)
    }
}

/// Returns the class of a table between these delimiters, if there are any.
fn table_class(delimiters: Option<(Option<char>, Option<char>)>) -> Class
    ensures { class_of result ≡ Tables.table_class (option_map delimiter_texts delimiters) }
{
    match delimiters {
        Some(_) => Class::Inner,
        None => Class::Ordinary,
    }
}

/// Makes a table of the `rows` uppermost elements, which are its rows, between its delimiters, if it has any.
fn put_table(
    builder: &mut Builder,
    delimiters: Option<(Option<char>, Option<char>)>,
    columns: Columns,
    style: Option<MathStyle>,
    rows: usize,
) -> Result<(), AllocError>
    requires some { 0 < rows }
    requires all { rows ≤ length (elements_in builder.old) }
    ensures { OnOk result (elements_in builder.new
        ≡ Tables.between_any (option_map delimiter_texts delimiters)
        (Tables.height_of (take rows (elements_in builder.old)))
        (table_with (styled (option_map math_style_of style)) (columns_of columns)
        (reverse (take rows (elements_in builder.old))))
        ∷ drop rows (elements_in builder.old)) }
{
    builder.table(style, columns, rows)?;
    if let Some((opening, closing)) = delimiters {
        return enclose(builder, table_height(rows), opening, closing);
    }
    Ok(())
}

/// Returns how high a table of this many rows is.
fn table_height(rows: usize) -> Height
    ensures { (xs : List Element) → 0 < rows → rows ≤ length xs
        → height_of result ≡ Tables.height_of (take rows xs) }
{
    match rows {
        1 => Height::Tall,
        2 => Height::Taller,
        _ => Height::VeryTall,
    }
}

/// Whether a last row does not count: it is one empty cell, and other rows come before it.
fn is_no_row(count: usize, table: Table) -> bool
    ensures { MatchBool result ((count ≡ 0) × (table.cells ≡ 0) × (0 < table.rows))
        (count ≡ 0 → table.cells ≡ 0 → table.rows ≡ 0) }
{
    count == 0 && table.cells == 0 && table.rows > 0
}

/// Returns what a unit that ends a cell does.
fn cell_end(piece: Piece) -> CellEnd
    ensures { cell_end_of result ≡ cell_end (piece_of piece.entry) }
{
    match piece {
        Piece::Character('&') => CellEnd::PartsCells,
        Piece::Character('@') => CellEnd::BeginsArrow,
        Piece::Command("\\" | "cr" | "newline") => CellEnd::EndsRow,
        _ => CellEnd::EndsTable,
    }
}

/// Makes a row of the cell of `count` elements, whose last atom is of this kind, with this strut, and the `cells` cells before it.
fn put_last(
    builder: &mut Builder,
    count: usize,
    last: Kind,
    strut: Extent,
    cells: usize,
) -> Result<(), AllocError>
    requires { count + cells ≤ length (elements_in builder.old) }
    ensures { let elements = elements_in builder.old
        in let cell = row_element (lone (kind_of last) (take count elements))
        in OnOk result (elements_in builder.new
        ≡ row_of (extent_of strut) cell (take cells (drop count elements))
        ∷ drop cells (drop count elements)) }
{
    put_braced(builder, count, last)?;
    put_strut(builder, strut)?;
    let _ = builder.len();
    builder.container(Container::Mrow, Attributes::plain(), cells + 1)
}

/// Pushes a line between rows, if there is one. Returns how many elements it is.
fn put_line(builder: &mut Builder, line: Line) -> Result<usize, AllocError>
    ensures elements { OnOk result (elements_in builder.new
        ≡ lined (line_of line) (elements_in builder.old)) }
    ensures count { IfOk result (λ n. n ≡ line_count (line_of line)) }
    ensures more { IfOk result (λ n. length (elements_in builder.new)
        ≡ n + length (elements_in builder.old)) }
{
    if !line.is_drawn() {
        return Ok(0);
    }
    builder.rectangle(line.among_rows())?;
    Ok(1)
}

/// Returns the style that a table states, where its cells have the first style and the second is the style around it.
fn said_style(style: Style, around: Style) -> Option<MathStyle>
    ensures { option_map math_style_of result
        ≡ Tables.said_style (style_of style) (style_of around) }
{
    match (style, around) {
        (Style::InText, Style::InDisplay | Style::InText) => None,
        _ => Some(style.math_style()),
    }
}
