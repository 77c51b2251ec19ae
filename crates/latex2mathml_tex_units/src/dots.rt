//! Dots: where they are in the middle of the line or on it, and where a thin space follows them.
ghost use Rattle.std.specs.Prelude.{◌≡◌};
ghost use Rattle.latex2mathml_tex_grammar.specs.Dots;
ghost use Rattle.latex2mathml_tex_commands.specs.Meanings.{class_of, meaning_of, symbol_of};
ghost use Rattle.latex2mathml_tex_units.specs.Taking.{piece_of};

use crate::unit::Piece;
use latex2mathml_tex_commands::meaning::{Class, Meaning, Symbol};
use latex2mathml_tex_commands::{commands, signs};

/// Dots on the line.
pub const LOW_DOTS: Symbol = Symbol::Sign(Class::Inner, '…');

/// Dots in the middle of the line.
pub const CENTERED_DOTS: Symbol = Symbol::Sign(Class::Inner, '⋯');

/// Dots in a column.
pub const COLUMN_DOTS: Symbol = Symbol::Sign(Class::Ordinary, '⋮');

/// Whether dots before this piece are in the middle of the line.
pub fn centers_dots(piece: Piece) -> bool
    ensures { result ≡ Dots.centers_dots (piece_of piece.entry) }
{
    match piece {
        Piece::Character(c) => match signs::symbol_of(c) {
            Some(symbol) => symbol_centers(symbol),
            None => false,
        },
        Piece::Command(name) => match commands::look_up(name) {
            Some(meaning) => meaning_centers(meaning),
            None => false,
        },
        Piece::Space | Piece::Open | Piece::Close => false,
    }
}

fn meaning_centers(meaning: Meaning) -> bool
    ensures { result ≡ Dots.meaning_centers (meaning_of meaning) }
{
    match meaning {
        Meaning::Shows(symbol) => symbol_centers(symbol),
        Meaning::Classed(class) => class_centers(class),
        Meaning::StackedRelation
        | Meaning::Negation
        | Meaning::Arrow(_)
        | Meaning::Implication(_) => true,
        _ => false,
    }
}

fn symbol_centers(symbol: Symbol) -> bool
    ensures { result ≡ Dots.symbol_centers (symbol_of symbol) }
{
    match symbol {
        Symbol::Sign(class, _) => class_centers(class),
        Symbol::BigOperator(_) | Symbol::Integral(_) => true,
        Symbol::Letter(_) | Symbol::UprightLetter(_) => false,
    }
}

fn class_centers(class: Class) -> bool
    ensures { result ≡ Dots.class_centers (class_of class) }
{
    matches!(class, Class::Binary | Class::Relation)
}

/// Whether a thin space is between these dots and this piece. Before a comma there is one only if they are in the middle of the line.
pub fn closes_dots(dots: char, piece: Piece) -> bool
    ensures { result ≡ Dots.closes_dots dots (piece_of piece.entry) }
{
    match piece {
        Piece::Character(',') => dots == '⋯',
        Piece::Character(c) => matches!(c, ')' | ']' | ';' | '.'),
        Piece::Command(name) => match commands::look_up(name) {
            Some(meaning) => meaning_closes(meaning),
            None => false,
        },
        Piece::Space | Piece::Open | Piece::Close => false,
    }
}

fn meaning_closes(meaning: Meaning) -> bool
    ensures { result ≡ Dots.meaning_closes (meaning_of meaning) }
{
    matches!(
        meaning,
        Meaning::Shows(Symbol::Sign(Class::Closing, _))
            | Meaning::Sized(_, Class::Closing)
            | Meaning::Right
    )
}
