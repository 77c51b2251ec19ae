//! The columns of tables.
ghost use Rattle.std.specs.Prelude.{◌≡◌, ◌<◌, ◌≤◌, ◌++◌, [], OnOk, get_or, pos, string_bytes};
ghost use Rattle.latex2mathml_elements.specs.Print.{cell_tag, spacing_style};
ghost use Rattle.latex2mathml_elements.specs.Struts.{deepened, least_depth, least_height, strut};
ghost use Rattle.latex2mathml_elements.specs.Columns.{Alike, AroundRelation, Broken, Centered, InDiagram, InPairs, Listed, are_lined, behind_row, between, column_at, density_in, in_last_row, spaced, unlined};
ghost use Rattle.latex2mathml_attributes.specs.Arounds.{extent_of};
ghost use Rattle.latex2mathml_attributes.specs.Columns.{IsSmall, alignment_of, are_in_diagram, behind_line, cell_start, column_of, columns_of, columns_in, density_of, has_room, line_before, listed_behind, listed_of, numbered, spacing_of};
ghost use Rattle.latex2mathml_attributes.specs.Lines.{line_of};

use crate::extent::Extent;
use crate::line::Line;
use crate::listed::ListedColumn;
use std::alloc::AllocError;

/// How many columns can be listed.
pub const MOST_COLUMNS: usize = 32;

/// How the cells of a column are aligned.
#[derive(Debug, Clone, Copy)]
pub enum Alignment {
    Centered,
    LeftAligned,
    RightAligned,
    /// Aligned left, where cells continue something ordinary, such as the other cell of a pair, or the line before them.
    Continued,
}

/// How dense a table is: how far apart its rows and its columns are.
#[derive(Debug, Clone, Copy)]
pub enum Density {
    /// As in `smallmatrix`.
    Dense,
    /// As in `array`.
    Usual,
    /// As in `cases`.
    Stretched,
    /// As in `aligned`.
    Opened,
}

/// Where space is left at the sides of a column.
#[derive(Debug, Clone, Copy)]
pub enum Spacing {
    Unspaced,
    Before,
    Around,
}

/// A column of a table.
#[derive(Debug, Clone, Copy)]
pub struct Column {
    density: Density,
    alignment: Alignment,
    spacing: Spacing,
    before: Line,
    after: Line,
}

/// All columns of a table, however many there are. Contracts refer to them as `columns_of`, as the definitions have them.
#[derive(Debug, Clone, Copy)]
pub struct Columns {
    kind: Kind,
    /// What is drawn before the first listed column.
    before: Line,
    /// The numbers of the listed columns: the lower half of each byte has that of a column, and the upper half that of the column
    /// which is sixteen columns later. It is an array, since columns are copied, and a list that allocates cannot be.
    listed: [u8; 16],
    len: u8,
}

#[derive(Debug, Clone, Copy)]
enum Kind {
    Alike(Density, Alignment),
    InPairs,
    AroundRelation,
    InDiagram,
    Broken,
    BrokenAfterFirst,
    Listed,
}

impl Alignment {
    /// Returns the start tag of a cell up to its space.
    fn start(self) -> &'static str
        ensures { result.now ≡ cell_start (alignment_of self) }
    {
        match self {
            Alignment::Centered => "<mtd style=\"",
            Alignment::LeftAligned | Alignment::Continued =>
                "<mtd columnalign=\"left\" style=\"text-align: left; ",
            Alignment::RightAligned =>
                "<mtd columnalign=\"right\" style=\"text-align: right; text-align: -webkit-right; ",
        }
    }
}

impl Density {
    /// Returns the style of a cell with this space at its sides.
    fn style(self, spacing: Spacing) -> &'static str
        ensures { result.now ≡ spacing_style (density_of self) (spacing_of spacing) }
    {
        match (self, spacing) {
            (Density::Dense, Spacing::Before) => "padding: 0 0 0 0.4em; line-height: 1",
            (Density::Dense, Spacing::Around) => "padding: 0 0.2em; line-height: 1",
            (Density::Opened, Spacing::Unspaced) => "padding: 0.15em 0; line-height: 1",
            (Density::Opened, Spacing::Before) => "padding: 0.15em 0 0.15em 1em; line-height: 1",
            (Density::Opened, Spacing::Around) => "padding: 0.15em 0.5em; line-height: 1",
            (_, Spacing::Unspaced) => "padding: 0; line-height: 1",
            (_, Spacing::Before) => "padding: 0 0 0 1em; line-height: 1",
            (_, Spacing::Around) => "padding: 0 0.5em; line-height: 1",
        }
    }

    /// Returns the strut of a row that has this space below it, in thousandths of an em.
    pub fn strut(self, gap: i32) -> Extent
        requires { IsSmall gap }
        ensures { extent_of result ≡ strut (density_of self) gap }
    {
        Extent {
            width: 0,
            height: self.least_height(),
            depth: deepened(self.least_depth(), gap),
            is_black: false,
        }
    }

    /// Returns how high a row is at least, in thousandths of an em.
    fn least_height(self) -> i32
        ensures { result ≡ pos (least_height (density_of self)) }
    {
        match self {
            Density::Dense => 600,
            Density::Usual | Density::Opened => 840,
            Density::Stretched => 1008,
        }
    }

    /// Returns how deep a row is at least, in thousandths of an em.
    fn least_depth(self) -> u32
        ensures depth { result ≡ least_depth (density_of self) }
        ensures small { result ≤ 432 }
    {
        match self {
            Density::Dense => 257,
            Density::Usual | Density::Opened => 360,
            Density::Stretched => 432,
        }
    }
}

impl Column {
    /// Returns a column without lines, and with this space.
    fn spaced(density: Density, spacing: Spacing, alignment: Alignment) -> Column
        ensures { column_of result
            ≡ spaced (density_of density) (spacing_of spacing) (alignment_of alignment) }
    {
        Column {
            density,
            alignment,
            spacing,
            before: Line::Nothing,
            after: Line::Nothing,
        }
    }

    /// Returns a listed column with this line before it.
    fn listed(column: ListedColumn, before: Line) -> Column
        ensures { column_of result ≡ behind_line (line_of before) (listed_of column) }
    {
        Column {
            density: Density::Usual,
            alignment: column.alignment(),
            spacing: Spacing::Around,
            before,
            after: column.line(),
        }
    }

    /// Returns how its cells are aligned.
    pub fn alignment(self) -> Alignment
        ensures { alignment_of result ≡ (column_of self).alignment }
    {
        self.alignment
    }

    /// Appends the start tag of a cell.
    #[tactic(auto, using(std::proofs::lemmas::Grind::common_steps))]
    pub fn append_tag(self, out: &mut String) -> Result<(), AllocError>
        ensures { OnOk result (string_bytes out.new
            ≡ string_bytes out.old ++ cell_tag (column_of self)) }
    {
        out.push_str(self.alignment.start())?;
        out.push_str(self.density.style(self.spacing))?;
        out.push_str(self.before.at_left())?;
        out.push_str(self.after.at_right())
    }
}

impl Columns {
    /// Returns columns that are all like this.
    pub fn alike(density: Density, alignment: Alignment) -> Columns
        ensures { columns_of result ≡ Alike (density_of density) (alignment_of alignment) }
    {
        Columns {
            kind: Kind::Alike(density, alignment),
            ..Columns::none(Line::Nothing)
        }
    }

    /// Returns pairs of columns, next to each other.
    pub fn in_pairs() -> Columns
        ensures { columns_of result ≡ InPairs }
    {
        Columns {
            kind: Kind::InPairs,
            ..Columns::none(Line::Nothing)
        }
    }

    /// Returns columns for the left side of a relation, the relation, and its right side, followed by centered ones.
    pub fn around_relation() -> Columns
        ensures { columns_of result ≡ AroundRelation }
    {
        Columns {
            kind: Kind::AroundRelation,
            ..Columns::none(Line::Nothing)
        }
    }

    /// Returns columns for the objects of a diagram, and the arrows between them.
    pub fn in_diagram() -> Columns
        ensures { columns_of result ≡ InDiagram }
    {
        Columns {
            kind: Kind::InDiagram,
            ..Columns::none(Line::Nothing)
        }
    }

    /// Returns columns for the lines of a formula that is broken: the first is at the left, the last at the right, and those
    /// between them are in the middle.
    pub fn broken() -> Columns
        ensures { columns_of result ≡ Broken }
    {
        Columns {
            kind: Kind::Broken,
            ..Columns::none(Line::Nothing)
        }
    }

    /// Returns an empty list of columns, with this line before the first. The listed columns are followed by centered ones.
    pub fn none(before: Line) -> Columns
        ensures { columns_of result ≡ Listed (line_of before) [] }
    {
        Columns {
            kind: Kind::Listed,
            before,
            listed: [0; 16],
            len: 0,
        }
    }

    /// Adds a column to the listed ones. Returns whether there is room, and changes nothing if there is none. Columns that are
    /// not a list have no room.
    pub fn push(&mut self, column: ListedColumn) -> bool
        ensures columns { columns_of self.new
            ≡ listed_behind (listed_of column) (columns_of self.old) }
        ensures room { result ≡ has_room (columns_of self.old) }
    {
        if !matches!(self.kind, Kind::Listed) || self.len as usize >= MOST_COLUMNS {
            return false;
        }
        let number = column.number();
        let place = self.len as usize;
        if place < 16 {
            self.listed[place] = number;
        } else {
            let before = place - 16;
            self.listed[before] = self.listed[before] % 16 + 16 * number;
        }
        self.len += 1;
        true
    }

    /// Returns the column at this place in the array, or a centered one if the place is beyond it.
    fn listed_at(&self, place: usize) -> ListedColumn
        ensures { listed_of result ≡ get_or (columns_in self.now.listed) place (unlined Centered) }
    {
        if place < 16 {
            return ListedColumn::numbered(self.listed[place] % 16);
        }
        if place < MOST_COLUMNS {
            return ListedColumn::numbered(self.listed[place - 16] / 16);
        }
        ListedColumn::Centered
    }

    /// Returns the column that follows `place` others.
    pub fn column_at(&self, place: usize) -> Column
        ensures { column_of result ≡ column_at (columns_of self.now) place }
    {
        match self.kind {
            Kind::Alike(density, alignment) => {
                Column::spaced(density, spacing_between(place), alignment)
            }
            Kind::InPairs => column_of_pair(place),
            Kind::AroundRelation => column_around_relation(place),
            Kind::InDiagram => column_of_diagram(place),
            Kind::Broken => {
                Column::spaced(
                    Density::Opened,
                    spacing_between(place),
                    Alignment::Continued,
                )
            }
            Kind::BrokenAfterFirst => {
                Column::spaced(Density::Opened, spacing_between(place), Alignment::Centered)
            }
            Kind::Listed if place < MOST_COLUMNS && place < self.len as usize => {
                Column::listed(self.listed_at(place), self.line_before(place))
            }
            Kind::Listed => Column::listed(ListedColumn::Centered, Line::Nothing),
        }
    }

    /// Returns the line before the listed column at this place, apart from the one after the column before it.
    fn line_before(&self, place: usize) -> Line
        ensures { line_of result ≡ line_before (line_of self.now.before) place }
    {
        if place == 0 {
            self.before
        } else {
            Line::Nothing
        }
    }

    /// Returns the columns of the rows that follow one in these columns.
    pub fn behind_row(self) -> Columns
        ensures { columns_of result ≡ behind_row (columns_of self) }
    {
        match self.kind {
            Kind::Broken => Columns {
                kind: Kind::BrokenAfterFirst,
                ..self
            },
            _ => self,
        }
    }

    /// Returns the columns of the last row of a table.
    pub fn in_last_row(self) -> Columns
        ensures { columns_of result ≡ in_last_row (columns_of self) }
    {
        match self.kind {
            Kind::BrokenAfterFirst => Columns::alike(Density::Opened, Alignment::RightAligned),
            _ => self,
        }
    }

    /// Returns how far apart the rows are.
    pub fn density(&self) -> Density
        ensures { density_of result ≡ density_in (columns_of self.now) }
    {
        match self.kind {
            Kind::Alike(density, _) => density,
            Kind::InPairs
            | Kind::AroundRelation
            | Kind::InDiagram
            | Kind::Broken
            | Kind::BrokenAfterFirst => Density::Opened,
            Kind::Listed => Density::Usual,
        }
    }

    /// Whether they are those of a diagram.
    pub fn are_in_diagram(&self) -> bool
        ensures { result ≡ are_in_diagram (columns_of self.now) }
    {
        matches!(self.kind, Kind::InDiagram)
    }

    /// Whether lines are drawn next to columns.
    pub fn are_lined(&self) -> bool
        ensures { result ≡ are_lined (columns_of self.now) }
    {
        if !matches!(self.kind, Kind::Listed) {
            return false;
        }
        if self.before.is_drawn() {
            return true;
        }
        let len = self.len as usize;
        let mut place = 0;
        'columns: while place < len && place < MOST_COLUMNS {
            if self.listed_at(place).line().is_drawn() {
                return true;
            }
            place += 1;
        }
        false
    }
}

/// Returns the space of a column that follows `place` others, where there is space between columns.
fn spacing_between(place: usize) -> Spacing
    ensures { spacing_of result ≡ between place }
{
    if place == 0 {
        Spacing::Unspaced
    } else {
        Spacing::Before
    }
}

/// Returns the column that follows `place` others, where columns are in pairs.
fn column_of_pair(place: usize) -> Column
    ensures { column_of result ≡ column_at InPairs place }
{
    if place == 0 {
        return Column::spaced(Density::Opened, Spacing::Unspaced, Alignment::RightAligned);
    }
    if place % 2 == 0 {
        return Column::spaced(Density::Opened, Spacing::Before, Alignment::RightAligned);
    }
    Column::spaced(Density::Opened, Spacing::Unspaced, Alignment::Continued)
}

/// Returns the column that follows `place` others, where the first three are the left side of a relation, the relation, and its
/// right side.
fn column_around_relation(place: usize) -> Column
    ensures { column_of result ≡ column_at AroundRelation place }
{
    let alignment = match place {
        0 => Alignment::RightAligned,
        2 => Alignment::LeftAligned,
        _ => Alignment::Centered,
    };
    Column::spaced(Density::Opened, Spacing::Around, alignment)
}

/// Returns the column that follows `place` others, where every other one has the objects of a diagram.
fn column_of_diagram(place: usize) -> Column
    ensures { column_of result ≡ column_at InDiagram place }
{
    if place % 2 == 0 {
        return Column::spaced(Density::Opened, Spacing::Around, Alignment::Centered);
    }
    Column::spaced(Density::Opened, Spacing::Unspaced, Alignment::Centered)
}

/// Returns this depth with this space below it. A negative space takes from it, but no more than all of it.
fn deepened(depth: u32, gap: i32) -> i32
    requires shallow { depth ≤ 432 }
    requires small { IsSmall gap }
    ensures { result ≡ pos (deepened depth gap) }
{
    if gap < 0 {
        depth.saturating_sub(gap.unsigned_abs()) as i32
    } else {
        (depth + gap as u32) as i32
    }
}
