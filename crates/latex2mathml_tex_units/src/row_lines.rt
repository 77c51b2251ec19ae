//! The commands for lines between the rows of a table.
ghost use Rattle.std.specs.Prelude.{◌≡◌};
ghost use Rattle.latex2mathml_attributes.specs.Lines.{line_of};
ghost use Rattle.latex2mathml_tex_grammar.specs.RowLines;
ghost use Rattle.latex2mathml_tex_grammar.specs.RowLines.{is_line_command};
ghost use Rattle.latex2mathml_tex_grammar.specs.Scanning;
ghost use Rattle.latex2mathml_tex_units.specs.Taking.{piece_of};

use crate::unit::Piece;
use latex2mathml_attributes::line::Line;

/// Whether a unit is a command for a line between rows.
pub(crate) fn is_line_command(piece: Piece) -> bool
    ensures { result ≡ is_line_command (piece_of piece.entry) }
{
    match piece {
        Piece::Command(name) => is_line(name),
        _ => false,
    }
}

/// Returns the line between rows that a unit is a command for, where another may follow. Several are drawn as two.
pub(crate) fn line_of(piece: Piece, another: bool) -> Line
    ensures { line_of result ≡ RowLines.line_of (piece_of piece.entry) another }
{
    match piece {
        Piece::Command(name) if is_line(name) => {
            if another {
                Line::Two
            } else if name == "hdashline" {
                Line::Dashes
            } else {
                Line::One
            }
        }
        _ => Line::Nothing,
    }
}

/// Whether this is the name of a line between rows.
pub(crate) fn is_line(name: &str) -> bool
    ensures { result ≡ Scanning.is_line name.now }
{
    matches!(
        name,
        "hline" | "hdashline" | "toprule" | "midrule" | "bottomrule"
    )
}
