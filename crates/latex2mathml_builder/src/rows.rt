//! Writes the rows and the cells of tables, and the lines between rows.
ghost use Rattle.std.specs.Prelude.{◌≡◌, ◌+◌, ◌-◌, ◌<◌, ◌≤◌, ◌++◌, ◌&&◌, ◌||◌, [], IfOk, IsTrue, OnOk, codes, drop, false, if◌then◌else◌, length, not, string_bytes};
ghost use Rattle.latex2mathml_elements.specs.Columns.{are_lined};
ghost use Rattle.latex2mathml_elements.specs.Print.{row_tag};
ghost use Rattle.latex2mathml_elements.specs.Lines.{NoLine, is_drawn, row_lines};
ghost use Rattle.latex2mathml_elements.specs.Tables.{last_line};
ghost use Rattle.latex2mathml_builder.specs.Built.{settled_in};
ghost use Rattle.latex2mathml_attributes.specs.Columns.{columns_of};
ghost use Rattle.latex2mathml_attributes.specs.Lines.{line_of};
ghost use Rattle.latex2mathml_builder.specs.Due.{AreIn, Begins, cell_loads, cell_prints, first_line, has_line, in_cells, load, row_loads, row_prints, run_print, run_weight, settled_from};

use crate::builder::Builder;
use crate::part::Part;
use crate::works::{Run, Work};
use latex2mathml_attributes::columns::Columns;
use latex2mathml_attributes::line::Line;
use latex2mathml_attributes::tag::Container;
use std::alloc::AllocError;

impl Builder {
    /// Writes the first of some rows up to the contents of its first cell. Returns what follows, and pushes the other rows and the
    /// end tag of their table on the list.
    #[inline(never)]
    pub(crate) fn write_rows(
        &self,
        columns: Columns,
        first: usize,
        count: usize,
        works: &mut Vec<Work>,
        out: &mut String,
    ) -> Result<Run, AllocError>
        requires some { 0 < count }
        requires all { first + count ≤ length self.now.settled }
        requires inside { AreIn self.now works.old.items }
        ensures inside { OnOk result (AreIn self.now works.new.items) }
        ensures one { IfOk result (λ run. run.end ≤ length self.now.settled) }
        ensures print { IfOk result (λ run. Begins self.now (string_bytes out.old) works.old.items
            (row_prints (columns_of columns) NoLine (settled_from self.now first count)
            ++ codes "</mtable>") (string_bytes out.new) run works.new.items) }
        ensures weight { IfOk result (λ run. load self.now works.new.items
            + run_weight self.now run < load self.now works.old.items
            + (1 + row_loads (columns_of columns) NoLine (settled_from self.now first count))) }
    {
        // No place is greater than this length, so none overflows.
        let _ = self.settled_len();
        let line = self.line_at(first);
        if !line.is_drawn() {
            return self.write_row_of_rows(columns, Line::Nothing, first, count, works, out);
        }
        if count == 1 {
            write_empty_row(columns, line, out)?;
            return Ok(self.run(0, 0, "</mtable>"));
        }
        self.write_row_of_rows(columns, line, first + 1, count - 1, works, out)
    }

    /// Writes the row that the first of some elements becomes, up to the contents of its first cell. A line may come before it.
    /// Returns what follows, and pushes the other rows and the end tag of their table on the list.
    fn write_row_of_rows(
        &self,
        columns: Columns,
        line: Line,
        first: usize,
        count: usize,
        works: &mut Vec<Work>,
        out: &mut String,
    ) -> Result<Run, AllocError>
        requires some { 0 < count }
        requires all { first + count ≤ length self.now.settled }
        requires row { (not (is_drawn (line_of line))
            && is_drawn (first_line (drop first (settled_in self.now)))) ≡ false }
        requires inside { AreIn self.now works.old.items }
        ensures inside { OnOk result (AreIn self.now works.new.items) }
        ensures one { IfOk result (λ run. run.end ≤ length self.now.settled) }
        ensures print { IfOk result (λ run. Begins self.now (string_bytes out.old) works.old.items
            (row_prints (columns_of columns) (line_of line) (settled_from self.now first count)
            ++ codes "</mtable>") (string_bytes out.new) run works.new.items) }
        ensures weight { IfOk result (λ run. load self.now works.new.items
            + run_weight self.now run < load self.now works.old.items
            + (1 + row_loads (columns_of columns) (line_of line)
            (settled_from self.now first count))) }
    {
        // No place is greater than this length, so none overflows.
        let _ = self.settled_len();
        let below = self.last_line(first, count);
        let left = rows_left(count, below);
        self.push_work(Work::Rows(columns.behind_row(), first + 1, left), works)?;
        out.push_str(row_tag(line, below))?;
        let here = if left == 0 {
            columns.in_last_row()
        } else {
            columns
        };
        self.write_row(here, first, works, out)
    }

    /// Returns the line that follows the first of some elements, if nothing else follows it.
    fn last_line(&self, first: usize, count: usize) -> Line
        requires some { 0 < count }
        requires all { first + count ≤ length self.now.settled }
        ensures { line_of result ≡ last_line (settled_from self.now (first + 1) (count - 1)) }
    {
        let _ = self.settled_len();
        if count == 2 {
            self.line_at(first + 1)
        } else {
            Line::Nothing
        }
    }

    /// Whether a table in these columns has a line, where some elements are its rows and the lines between them.
    pub(crate) fn is_lined(&self, columns: &Columns, first: usize, count: usize) -> bool
        requires { first + count ≤ length self.now.settled }
        ensures { result ≡ (are_lined (columns_of columns.now)
            || has_line (settled_from self.now first count)) }
    {
        columns.are_lined() || self.has_line(first, count)
    }

    /// Whether one of some elements is a line.
    fn has_line(&self, first: usize, count: usize) -> bool
        requires { first + count ≤ length self.now.settled }
        ensures { result ≡ has_line (settled_from self.now first count) }
    {
        let _ = self.settled_len();
        let mut place = first;
        'elements: while place < first + count {
            if self.line_at(place).is_drawn() {
                return true;
            }
            place += 1;
        }
        false
    }

    /// Returns the line among rows that a settled element is, if it is one.
    fn line_at(&self, place: usize) -> Line
        requires { place < length self.now.settled }
        ensures { line_of result ≡ first_line (drop place (settled_in self.now)) }
    {
        match self.settled_at(place) {
            Part::Rectangle(extent) => extent.line(),
            _ => Line::Nothing,
        }
    }

    /// Writes the cells of the row that a settled element becomes, up to the contents of the first one. Returns what follows, and
    /// pushes the other cells and the end tag of the row on the list.
    fn write_row(
        &self,
        columns: Columns,
        place: usize,
        works: &mut Vec<Work>,
        out: &mut String,
    ) -> Result<Run, AllocError>
        requires one { place < length self.now.settled }
        requires inside { AreIn self.now works.old.items }
        ensures inside { OnOk result (AreIn self.now works.new.items) }
        ensures one { IfOk result (λ run. run.end ≤ length self.now.settled) }
        ensures print { IfOk result (λ run. Begins self.now (string_bytes out.old) works.old.items
            (cell_prints (columns_of columns) 0 (in_cells (drop place (settled_in self.now)))
            ++ codes "</mtr>") (string_bytes out.new) run works.new.items) }
        ensures weight { IfOk result (λ run. load self.now works.new.items
            + run_weight self.now run < load self.now works.old.items
            + (1 + cell_loads (in_cells (drop place (settled_in self.now))))) }
    {
        let (first, count) = self.cells_at(place);
        self.write_cells(columns, first, first, count, works, out)
    }

    /// Returns the place of the first of the settled elements in the cells of such a row, and how many there are.
    fn cells_at(&self, place: usize) -> (usize, usize)
        requires { place < length self.now.settled }
        ensures some { 0 < result.1 }
        ensures within { result.0 + result.1 ≤ length self.now.settled }
        ensures elements { settled_from self.now result.0 result.1
            ≡ in_cells (drop place (settled_in self.now)) }
    {
        match self.settled_at(place) {
            Part::Container(tag, _, first, count) => match *tag {
                Container::Mrow if *count > 0 => (*first, *count),
                _ => (place, 1),
            },
            _ => (place, 1),
        }
    }

    /// Writes the first of some cells up to its contents. They are those of a row that begins with the settled element at `start`.
    /// Returns what follows, and pushes the other cells and the end tag of the row on the list.
    #[inline(never)]
    pub(crate) fn write_cells(
        &self,
        columns: Columns,
        start: usize,
        first: usize,
        count: usize,
        works: &mut Vec<Work>,
        out: &mut String,
    ) -> Result<Run, AllocError>
        requires some { 0 < count }
        requires row { start ≤ first }
        requires all { first + count ≤ length self.now.settled }
        requires inside { AreIn self.now works.old.items }
        ensures inside { OnOk result (AreIn self.now works.new.items) }
        ensures one { IfOk result (λ run. run.end ≤ length self.now.settled) }
        ensures print { IfOk result (λ run. Begins self.now (string_bytes out.old) works.old.items
            (cell_prints (columns_of columns) (first - start) (settled_from self.now first count)
            ++ codes "</mtr>") (string_bytes out.new) run works.new.items) }
        ensures weight { IfOk result (λ run. load self.now works.new.items
            + run_weight self.now run < load self.now works.old.items
            + (1 + cell_loads (settled_from self.now first count))) }
    {
        // No place is greater than this length, so none overflows.
        let _ = self.settled_len();
        self.push_work(Work::Cells(columns, start, first + 1, count - 1), works)?;
        self.write_cell(columns, start, first, out)
    }

    /// Writes a cell up to its contents, which are a settled element of a row that begins at `start`. Returns what follows.
    fn write_cell(
        &self,
        columns: Columns,
        start: usize,
        place: usize,
        out: &mut String,
    ) -> Result<Run, AllocError>
        requires one { place < length self.now.settled }
        requires row { start ≤ place }
        ensures one { IfOk result (λ run. run.end ≤ length self.now.settled) }
        ensures print { IfOk result (λ run. string_bytes out.new ++ run_print self.now run
            ≡ string_bytes out.old
            ++ cell_prints (columns_of columns) (place - start) (settled_from self.now place 1)) }
        ensures weight { IfOk result (λ run. run_weight self.now run
            < cell_loads (settled_from self.now place 1)) }
    {
        columns.column_at(place - start).append_tag(out)?;
        Ok(self.run(place, 1, "</mtd>"))
    }
}

/// Returns how many elements follow a row that is the first of `count`, without the line below the last row, if that is next.
fn rows_left(count: usize, below: Line) -> usize
    requires { 0 < count }
    ensures { result ≡ (if is_drawn (line_of below) then 0 else count - 1) }
{
    if below.is_drawn() { 0 } else { count - 1 }
}

/// Returns the start tag of a row with these lines above it and below it.
fn row_tag(above: Line, below: Line) -> &'static str
    ensures { result.now ≡ row_tag (row_lines (line_of above) (line_of below)) }
{
    match (above, below) {
        (Line::Nothing, Line::Nothing) => "<mtr>",
        (Line::Nothing, Line::One) => "<mtr style=\"border-bottom: thin solid\">",
        (Line::Nothing, Line::Two) => "<mtr style=\"border-bottom: 3px double\">",
        (Line::Nothing, Line::Dashes) => "<mtr style=\"border-bottom: thin dashed\">",
        (Line::One, Line::Nothing) => "<mtr style=\"border-top: thin solid\">",
        (Line::One, Line::One) =>
            "<mtr style=\"border-top: thin solid; border-bottom: thin solid\">",
        (Line::One, Line::Two) =>
            "<mtr style=\"border-top: thin solid; border-bottom: 3px double\">",
        (Line::One, Line::Dashes) =>
            "<mtr style=\"border-top: thin solid; border-bottom: thin dashed\">",
        (Line::Two, Line::Nothing) => "<mtr style=\"border-top: 3px double\">",
        (Line::Two, Line::One) =>
            "<mtr style=\"border-top: 3px double; border-bottom: thin solid\">",
        (Line::Two, Line::Two) =>
            "<mtr style=\"border-top: 3px double; border-bottom: 3px double\">",
        (Line::Two, Line::Dashes) =>
            "<mtr style=\"border-top: 3px double; border-bottom: thin dashed\">",
        (Line::Dashes, Line::Nothing) => "<mtr style=\"border-top: thin dashed\">",
        (Line::Dashes, Line::One) =>
            "<mtr style=\"border-top: thin dashed; border-bottom: thin solid\">",
        (Line::Dashes, Line::Two) =>
            "<mtr style=\"border-top: thin dashed; border-bottom: 3px double\">",
        (Line::Dashes, Line::Dashes) =>
            "<mtr style=\"border-top: thin dashed; border-bottom: thin dashed\">",
    }
}

/// Appends an empty row with this line above it.
#[tactic(auto, using(std::proofs::lemmas::Grind::common_steps))]
fn write_empty_row(columns: Columns, line: Line, out: &mut String) -> Result<(), AllocError>
    requires { IsTrue (is_drawn (line_of line)) }
    ensures { OnOk result (string_bytes out.new
        ≡ string_bytes out.old ++ row_prints (columns_of columns) (line_of line) []) }
{
    out.push_str(row_tag(line, Line::Nothing))?;
    columns.column_at(0).append_tag(out)?;
    out.push_str("</mtd></mtr>")
}
