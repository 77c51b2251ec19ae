//! Ligatures: characters in words that are set as one, such as two dashes.
ghost use Rattle.std.specs.Prelude.{◌≡◌};
ghost use Rattle.latex2mathml_tex_grammar.specs.Ligatures.{begins_ligature, joined};
ghost use Rattle.latex2mathml_tex_grammar.specs.Ligatures as ligatures;
ghost use Rattle.latex2mathml_tex_units.specs.{Left.SameUnits, Left.units_at, Taking.piece_of};

use crate::input::Input;
use crate::unit::{Next, Piece};

impl<'a> Input<'a> {
    /// Takes the characters that come next as long as they join the one before them. Returns what they and this character are set as.
    pub fn take_joined(&mut self, first: char) -> char
        ensures taken { joined first (units_at self.old) ≡ (result, units_at self.new) }
        ensures same { SameUnits self.old self.new }
    {
        let mut last = first;
        'characters: while let Next::Unit(unit) = self.peek()
            && let Some(whole) = joint(last, unit.piece)
        {
            self.advance();
            last = whole;
        }
        last
    }
}

/// Whether a ligature can begin with this character.
pub fn begins_ligature(c: char) -> bool
    ensures { result ≡ begins_ligature c }
{
    matches!(c, '-' | '`' | '\'')
}

/// Returns what the character and this unit are set as, if they are set as one.
fn joint(c: char, piece: Piece) -> Option<char>
    ensures { result ≡ ligatures.joint c (piece_of piece.entry) }
{
    match piece {
        Piece::Character(second) => ligature(c, second),
        _ => None,
    }
}

/// Returns the character that two are set as, if they are set as one.
fn ligature(first: char, second: char) -> Option<char>
    ensures { result ≡ ligatures.ligature first second }
{
    match (first, second) {
        ('-', '-') => Some('–'),
        ('–', '-') => Some('—'),
        ('`', '`') => Some('“'),
        ('\'', '\'') => Some('”'),
        _ => None,
    }
}
