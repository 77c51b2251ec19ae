//! What each unit does among the columns of a table.
ghost use Rattle.std.specs.Prelude.{◌≡◌};
ghost use Rattle.latex2mathml_tex_grammar.specs.{Commands.meaning_of, Meaning.takes_words};
ghost use Rattle.latex2mathml_tex_grammar.specs.Scanning;
ghost use Rattle.latex2mathml_tex_units.specs.Scans.{argument_of, deed_of, spot_of};
ghost use Rattle.latex2mathml_tex_units.specs.Taking.{piece_of};

use crate::scanning::{Argument, Deed, Spot};
use crate::unit::Piece;
use latex2mathml_tex_commands::commands;
use latex2mathml_tex_commands::meaning::Meaning;

/// Returns what a character does among these columns.
pub(crate) fn column_deed(argument: Argument, c: char) -> Deed
    ensures { deed_of result ≡ Scanning.column_deed (argument_of argument) c }
{
    match c {
        'l' | 'c' | 'r' | '|' | ':' => Deed::Adds(c, Spot::InArgument(argument)),
        'p' | 'm' | 'b' => Deed::Adds('l', Spot::BeforeGap(argument)),
        '@' => Deed::Passes(Spot::BeforeGap(argument)),
        _ => Deed::Refuses,
    }
}

fn takes_words(name: &str) -> bool
    ensures { result ≡ takes_words (meaning_of name.now) }
{
    matches!(commands::look_up(name), Some(Meaning::Words(_)))
}

/// Returns the spot after the brace that closes the innermost of `depth` braces or, if there are none, those among columns.
fn behind_brace(argument: Argument, depth: u8) -> Spot
    ensures { spot_of result ≡ Scanning.behind_brace (argument_of argument) depth }
{
    if depth == 0 {
        return Spot::InArgument(argument);
    }
    Spot::InGap(argument, depth - 1)
}

/// Returns what a unit does in braces among columns, within `depth` more braces. More than a hundred are refused.
pub(crate) fn gap_deed(argument: Argument, depth: u8, piece: Piece) -> Deed
    ensures { deed_of result
        ≡ Scanning.gap_deed (argument_of argument) depth (piece_of piece.entry) }
{
    match piece {
        Piece::Open if depth < 100 => Deed::Passes(Spot::InGap(argument, depth + 1)),
        Piece::Open | Piece::Character('$') => Deed::Refuses,
        Piece::Close => Deed::Passes(behind_brace(argument, depth)),
        Piece::Command(name) if takes_words(name) => Deed::Refuses,
        Piece::Command(_) | Piece::Character(_) | Piece::Space => {
            Deed::Passes(Spot::InGap(argument, depth))
        }
    }
}

/// Returns what a unit does in the number of repetitions, after `count` digits. There are one or two.
pub(crate) fn times_deed(count: u8, piece: Piece) -> Deed
    ensures { deed_of result ≡ Scanning.times_deed count (piece_of piece.entry) }
{
    match piece {
        Piece::Character(c) if c.is_ascii_digit() && count < 2 => {
            Deed::Adds(c, Spot::InTimes(count + 1))
        }
        Piece::Close if count > 0 => Deed::Passes(Spot::BeforeRepeated),
        _ => Deed::Refuses,
    }
}
