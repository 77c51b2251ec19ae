//! The endings of rows, among them those of the cells of tables.
ghost use Rattle.std.specs.Prelude.{◌≡◌, ℕ, ◌∷◌, [], false, MatchOption, None, Some, if◌then◌else◌, option_map};
ghost use Rattle.latex2mathml_tex_commands.specs.Diagrams.{direction_of};
ghost use Rattle.latex2mathml_tex_grammar.specs.{Diagrams.direction_sign, Rules.a_character};
ghost use Rattle.latex2mathml_tex_grammar.specs.Starts.{DividerStart, atom_start, change_by, ends, ends_in_diagram, is_character, mark_of, start_of_mark};
ghost use Rattle.latex2mathml_tex_grammar.specs.{Refusal.refusal_at, Starts.unended, Tables.before_cell, Rules.InCell};
ghost use Rattle.latex2mathml_elements.specs.Columns.{column_at};
ghost use Rattle.latex2mathml_attributes.specs.Columns.{columns_of};
ghost use Rattle.latex2mathml_tex.specs.Frames.{ending_of};
ghost use Rattle.latex2mathml_tex_units.specs.Errors.{kind_of_error};
ghost use Rattle.latex2mathml_tex_commands.specs.Meanings.{style_of};
ghost use Rattle.latex2mathml_tex_atoms.specs.Models.{before_of};
ghost use Rattle.latex2mathml_tex.specs.Tables.{columns_in, style_in, table_end, table_of};
ghost use Rattle.latex2mathml_tex_atoms.specs.Models.{empty_row};
ghost use Rattle.latex2mathml_tex_units.specs.Taking.{piece_of};

use latex2mathml_attributes::columns::{Alignment, Columns, Density};
use latex2mathml_tex_atoms::atoms::{Before, Row};
use latex2mathml_tex_commands::diagrams::Direction;
use latex2mathml_tex_commands::meaning::{Class, Style};
use latex2mathml_tex_units::environments::Environment;
use latex2mathml_tex_units::error::TexErrorKind;
use latex2mathml_tex_units::unit::Piece;

/// What ends the atoms of a row, and what the row is for.
#[derive(Clone, Copy)]
pub(crate) enum Ending {
    /// The end of the text: the row is the whole formula.
    Text,
    /// A brace: the row is a group, which is an atom.
    Group,
    /// A brace: the row is an operand.
    Operand,
    /// A bracket: the row is the degree of a root.
    Degree,
    /// A bracket: the row is the label below an arrow, whose element is below the row's own.
    BelowArrow,
    /// `\right`: the row is between delimiters, of which this is the opening one.
    Delimiters(Option<char>),
    /// A dollar sign: the row is a formula in words, of which this many elements are read.
    Formula(usize),
    /// What ends a cell: the row is a cell of this table.
    Cell(Table),
    /// The sign of an arrow: the row is its first label. Below the row's own elements are the arrow and those of its table.
    FirstLabel(Labeled),
    /// The sign of an arrow: the row is its second label. Below the row's own elements are the first label, the arrow, and the
    /// elements of its table.
    SecondLabel(Labeled),
}

/// An arrow whose labels are being read.
#[derive(Clone, Copy)]
pub(crate) struct Labeled {
    pub(crate) direction: Direction,
    /// The diagram, of which the arrow is the next cell.
    pub(crate) diagram: Diagram,
    /// The place where the diagram begins.
    pub(crate) place: usize,
}

/// The kind of a table, which determines its columns and how it ends.
#[derive(Clone, Copy)]
pub(crate) enum TableKind {
    /// An environment of these columns, up to its `\end`.
    Environment(&'static Environment, Columns),
    /// An environment with arrows between its cells, up to its `\end`.
    Diagram(&'static Environment),
    /// Rows in braces, each of one cell, up to the closing brace.
    Braces,
    /// The rows of a whole text, of these columns.
    Text(Columns),
}

/// A table, one of whose cells is being read. Below the elements of that cell are those of the cells before it in its row, and
/// below them those of the rows before that row.
#[derive(Clone, Copy)]
pub(crate) struct Table {
    pub(crate) kind: TableKind,
    /// How many rows come before the one that is being read, and lines between them.
    pub(crate) rows: usize,
    /// How many cells of that row come before the one that is being read.
    pub(crate) cells: usize,
}

/// A table that is a diagram. Unlike a [`Table`] it has no columns, since all diagrams have the same: so the frames of labels are
/// no larger than those of cells.
#[derive(Clone, Copy)]
pub(crate) struct Diagram {
    pub(crate) environment: &'static Environment,
    pub(crate) rows: usize,
    pub(crate) cells: usize,
}

impl Ending {
    /// Whether the unit is the ending.
    pub(crate) fn is(self, piece: Piece) -> bool
        ensures { (place : ℕ) → result ≡ ends (ending_of self place) (piece_of piece.entry) }
    {
        match self {
            Ending::Text => false,
            Ending::Group | Ending::Operand => matches!(piece, Piece::Close),
            Ending::Degree | Ending::BelowArrow => matches!(piece, Piece::Character(']')),
            Ending::Delimiters(_) => matches!(piece, Piece::Command("right")),
            Ending::Formula(_) => matches!(piece, Piece::Character('$')),
            Ending::Cell(table) => table.is_ended_by(piece),
            Ending::FirstLabel(labeled) | Ending::SecondLabel(labeled) => {
                is_sign_of(labeled.direction, piece) || ends_in_diagram(piece)
            }
        }
    }

    /// Whether the unit comes between parts of the row, and is followed by a delimiter.
    pub(crate) fn is_divided_by(self, piece: Piece) -> bool
        ensures { (place : ℕ) → atom_start (ending_of self place) (piece_of piece.entry)
            ≡ (if result then DividerStart
            else start_of_mark (change_by (piece_of piece.entry))
            (mark_of (piece_of piece.entry))) }
    {
        match self {
            Ending::Delimiters(_) => matches!(piece, Piece::Command("middle")),
            _ => false,
        }
    }
}

impl TableKind {
    /// Returns the columns of the table.
    pub(crate) fn columns(self) -> Columns
        ensures { columns_of result ≡ columns_in self }
    {
        match self {
            TableKind::Environment(_, columns) | TableKind::Text(columns) => columns,
            TableKind::Diagram(_) => Columns::in_diagram(),
            TableKind::Braces => Columns::alike(Density::Dense, Alignment::Centered),
        }
    }
}

impl Diagram {
    /// Returns the diagram as a table.
    pub(crate) fn table(self) -> Table
        ensures { result ≡ table_of self }
    {
        Table {
            kind: TableKind::Diagram(self.environment),
            rows: self.rows,
            cells: self.cells,
        }
    }
}

impl Table {
    /// Whether the unit ends a cell.
    fn is_ended_by(self, piece: Piece) -> bool
        ensures { (place : ℕ) → result
            ≡ ends (InCell (table_end self) place) (piece_of piece.entry) }
    {
        match piece {
            Piece::Command("\\" | "cr" | "newline") => true,
            Piece::Command("end") => {
                matches!(
                    self.kind,
                    TableKind::Environment(_, _) | TableKind::Diagram(_)
                )
            }
            Piece::Character('&') => !matches!(self.kind, TableKind::Braces),
            Piece::Character('@') => matches!(self.kind, TableKind::Diagram(_)),
            Piece::Close => matches!(self.kind, TableKind::Braces),
            _ => false,
        }
    }

    /// Returns why the table is refused if its end is missing, or `None` if the end of the text ends it.
    pub(crate) fn unended(self) -> Option<TexErrorKind>
        ensures { (place : ℕ) → MatchOption result (unended (InCell (table_end self) place) ≡ None)
            (λ kind. option_map (λ k. refusal_at k place) (kind_of_error kind)
            ≡ unended (InCell (table_end self) place)) }
    {
        match self.kind {
            TableKind::Environment(_, _) | TableKind::Diagram(_) => Some(
                TexErrorKind::BeginWithoutEnd,
            ),
            TableKind::Braces => Some(TexErrorKind::UnclosedBrace),
            TableKind::Text(_) => None,
        }
    }

    /// Returns the style of its cells.
    pub(crate) fn style(self) -> Style
        ensures { style_of result ≡ style_in self.kind }
    {
        match self.kind {
            TableKind::Environment(environment, _) | TableKind::Diagram(environment) => {
                environment.style
            }
            TableKind::Braces => Style::InScript,
            TableKind::Text(_) => Style::InDisplay,
        }
    }

    /// Returns the row of the cell that is being read, before its first atom.
    pub(crate) fn begun_cell(self) -> Row
        ensures row { result ≡ record empty_row { before = result.before } }
        ensures before { before_of result.before
            ≡ before_cell (column_at (columns_in self.kind) self.cells).alignment }
    {
        let before = match self.kind.columns().column_at(self.cells).alignment() {
            Alignment::Continued => Before::After(Class::Ordinary),
            _ => Before::After(Class::Opening),
        };
        Row {
            before,
            ..Row::empty()
        }
    }
}

/// Whether the unit is the sign of this arrow.
pub(crate) fn is_sign_of(direction: Direction, piece: Piece) -> bool
    ensures is { result ≡ is_character (direction_sign (direction_of direction))
        (piece_of piece.entry) }
    ensures test { a_character (direction_sign (direction_of direction)) (piece_of piece.entry)
        ≡ (if result then Some (direction_sign (direction_of direction) ∷ []) else None) }
{
    match piece {
        Piece::Character(c) => c == direction.sign(),
        _ => false,
    }
}

/// Whether the unit ends a cell of a diagram.
fn ends_in_diagram(piece: Piece) -> bool
    ensures { result ≡ ends_in_diagram (piece_of piece.entry) }
{
    matches!(
        piece,
        Piece::Character('&' | '@') | Piece::Command("end" | "\\" | "cr" | "newline")
    )
}
