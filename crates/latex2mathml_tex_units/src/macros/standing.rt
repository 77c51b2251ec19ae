//! Units that surely stay as they are when a text is expanded. Most units do, and few instructions tell those apart.
ghost use Rattle.std.specs.Prelude.{◌≡◌, ◌∷◌, ◌++◌, ℕ, IfSome, IsFalse, IsTrue, List, None, OnOk, Some};
ghost use Rattle.std.specs.Str.{byte, chars};
ghost use Rattle.latex2mathml_tex_grammar.specs.Units.{Spells};
ghost use Rattle.latex2mathml_tex_grammar.specs.{Definitions.word_named, Expansion.Stands, Expansion.role_of, Macros.Table, UsualMacros.usual_macros};
ghost use Rattle.latex2mathml_tex_units.specs.{Left.units_left, Taking.piece_of, TurningForms.is_frequent, TurningForms.is_turning_form, TurningForms.turns_capital, TurningForms.turns_from_m, TurningForms.turns_up_to_l};
ghost use Rattle.latex2mathml_tex_units.specs.Standing.{AreStanding, IsUsual, Moves};

use crate::lexer::Lexer;
use crate::lexer::characters::{first_ascii, first_plain, plain_bytes, skip_space};
use crate::lexer::slices::{Start, command, front};
use crate::unit::{Piece, Unit};
use std::alloc::AllocError;

impl<'a> Lexer<'a> {
    /// Takes the next units that surely stay as they are, and appends them to a list. `usual` says that only the usual macros
    /// hold: where others do, no command surely stays.
    #[inline(always)]
    pub(crate) fn take_standing(
        &mut self,
        usual: bool,
        units: &mut Vec<Unit<'a>>,
    ) -> Result<(), AllocError>
        ensures { OnOk result (Moves units.old.items units.new.items (λ taken.
            AreStanding usual taken (units_left self.old) (units_left self.new))) }
    {
        let end = self.place + self.rest.len();
        let mut rest = self.rest;
        'units: loop {
            let place = end - rest.len();
            if let Some((c, behind)) = first_plain(rest) {
                let piece = Piece::Character(c);
                units.push(Unit { piece, place })?;
                rest = behind;
                continue;
            }
            let Start::Piece(piece, behind) = front(rest) else {
                break;
            };
            if !stands(usual, piece) {
                break;
            }
            units.push(Unit { piece, place })?;
            rest = behind;
        }
        self.place = end - rest.len();
        self.rest = rest;
        Ok(())
    }

    /// Does the same with the units before the first one that is not common. Few formulas have another.
    #[inline(always)]
    pub(crate) fn take_common(
        &mut self,
        usual: bool,
        units: &mut Vec<Unit<'a>>,
    ) -> Result<(), AllocError>
        ensures { OnOk result (Moves units.old.items units.new.items (λ taken.
            AreStanding usual taken (units_left self.old) (units_left self.new))) }
    {
        let text = self.rest;
        let bytes = text.as_bytes();
        let start = self.place;
        let mut at = 0;
        'units: while at < bytes.len() {
            let byte = bytes[at];
            let place = start + at;
            if plain_bytes()[usize::from(byte)] {
                let piece = Piece::Character(char::from(byte));
                units.push(Unit { piece, place })?;
                at += 1;
                continue;
            }
            let Some((piece, behind)) = common_piece(usual, text.split_at(at).1) else {
                break;
            };
            units.push(Unit { piece, place })?;
            at = text.len() - behind.len();
        }
        self.place = start + at;
        self.rest = text.split_at(at).1;
        Ok(())
    }
}

/// Returns the piece at the start of the text and what follows it, if the piece is a common one that surely stays.
#[inline(always)]
fn common_piece(usual: bool, text: &str) -> Option<(Piece<'_>, &str)>
    ensures begins { IfSome result (λ found. (w : List ℕ)
        × (chars text.now ≡ w ++ chars found.1.now)
        × Spells w (chars found.1.now) (Some (piece_of found.0))) }
    ensures stays { IfSome result (λ found. (table : Table) → IsUsual usual table
        → role_of table (piece_of found.0) ≡ Stands (piece_of found.0)) }
{
    let (c, after) = first_ascii(text)?;
    match c {
        ' ' => Some((Piece::Space, skip_space(after))),
        '{' => Some((Piece::Open, after)),
        '}' => Some((Piece::Close, after)),
        '\\' => common_command(usual, after),
        _ => None,
    }
}

/// Returns the command and what follows it, if it surely stays. The text is what follows its backslash.
#[inline(always)]
fn common_command(usual: bool, text: &str) -> Option<(Piece<'_>, &str)>
    ensures begins { IfSome result (λ found. (w : List ℕ)
        × (byte "\\" ∷ chars text.now ≡ w ++ chars found.1.now)
        × Spells w (chars found.1.now) (Some (piece_of found.0))) }
    ensures stays { IfSome result (λ found. (table : Table) → IsUsual usual table
        → role_of table (piece_of found.0) ≡ Stands (piece_of found.0)) }
{
    let Start::Piece(piece, behind) = command(text) else {
        return None;
    };
    if !stands(usual, piece) {
        return None;
    }
    Some((piece, behind))
}

/// Whether the piece surely stays, in a text where only the usual macros hold, if `usual` says so.
#[inline(always)]
fn stands(usual: bool, piece: Piece) -> bool
    ensures { IsTrue result → (table : Table) → IsUsual usual table
        → role_of table (piece_of piece.entry) ≡ Stands (piece_of piece.entry) }
{
    match piece {
        Piece::Command(name) => usual && !may_turn(name),
        _ => true,
    }
}

/// Whether a usual macro or a word that begins definitions may have this name, by its first two bytes and its length. Those of
/// `matrix` are also those of `mathbb` and the like, those of `let` also of `leq`, and those of `index` also of `infty`, which are
/// frequent.
#[inline(always)]
pub(crate) fn may_turn(name: &str) -> bool
    ensures usual { IsFalse result → usual_macros name.now ≡ None }
    ensures word { IsFalse result → word_named name.now ≡ None }
{
    match name.as_bytes() {
        [first, second, ..] => {
            is_turning_form(*first, *second, name.len()) && !is_frequent(name)
        }
        [one] => matches!(*one, b'(' | b')' | b'*' | b'-' | b'/'),
        [] => false,
    }
}

/// Whether the name has six bytes, of which the first and the fourth are those of `mathbb`, or three or five, of which the first and
/// the last are those of `leq` or `infty`.
#[inline(always)]
fn is_frequent(name: &str) -> bool
    ensures { result ≡ is_frequent name.now }
{
    match name.as_bytes() {
        [first, _, _, fourth, _, _] => *first == b'm' && *fourth == b'h',
        [first, _, _, _, last] => *first == b'i' && *last == b'y',
        [first, _, last] => *first == b'l' && *last == b'q',
        _ => false,
    }
}

/// Whether the name of a usual macro, or of a word that begins definitions, has these first two bytes and this length.
#[inline(always)]
fn is_turning_form(first: u8, second: u8, len: usize) -> bool
    ensures { result ≡ is_turning_form first second len }
{
    if first < b'a' {
        turns_capital(first, second, len)
    } else if first < b'm' {
        turns_up_to_l(first, second, len)
    } else {
        turns_from_m(first, second, len)
    }
}

/// Whether such a name, which begins with a capital letter, has these first two bytes and this length.
#[inline(always)]
fn turns_capital(first: u8, second: u8, len: usize) -> bool
    ensures { result ≡ turns_capital first second len }
{
    match first {
        b'A' => second == b'c' && len == 5,
        b'B' => match second {
            b'a' => len == 3,
            b'b' => len == 4,
            b'r' => matches!(len, 3 | 5 | 6),
            _ => false,
        },
        b'C' => match second {
            b'h' => len == 5,
            b'o' => matches!(len, 7 | 8 | 11),
            _ => false,
        },
        b'D' => match second {
            b'O' => len == 5,
            b'd' => len == 4,
            b'e' => matches!(len, 19 | 20 | 22),
            b'o' => len == 3,
            _ => false,
        },
        b'E' => second == b'q' && matches!(len, 7 | 8),
        b'G' => second == b'r' && len == 5,
        b'H' => second == b'a' && len == 3,
        b'K' => match second {
            b'a' => len == 5,
            b'e' => matches!(len, 3 | 6),
            _ => false,
        },
        b'L' => second == b'a' && len == 5,
        b'S' => second == b'e' && len == 3,
        b'T' => match second {
            b'e' => len == 3,
            b'i' => len == 5,
            _ => false,
        },
        b'V' => second == b'e' && len == 3,
        _ => false,
    }
}

/// Whether such a name, which begins with a small letter before m, has these first two bytes and this length.
#[inline(always)]
fn turns_up_to_l(first: u8, second: u8, len: usize) -> bool
    ensures { result ≡ turns_up_to_l first second len }
{
    match first {
        b'a' => match second {
            b'd' => len == 12,
            b'l' => matches!(len, 10 | 18),
            b'p' => matches!(len, 11 | 16),
            b'r' => len == 5,
            _ => false,
        },
        b'b' => match second {
            b'b' => len == 4,
            b'e' => len == 10,
            b'f' => len == 8,
            b'g' => len == 6,
            b'i' => len == 7,
            b'm' => len == 4,
            b'r' => matches!(len, 3 | 6),
            b'u' => len == 8,
            _ => false,
        },
        b'c' => match second {
            b'a' => len == 8,
            b'e' => matches!(len, 7 | 9),
            b'l' => matches!(len, 4 | 5),
            b's' => len == 5,
            b'o' => matches!(len, 5 | 7 | 8 | 10 | 11 | 13 | 15 | 16),
            _ => false,
        },
        b'd' => match second {
            b'd' => len == 6,
            b'e' => len == 3,
            b'i' => len == 12,
            b'o' => len == 5,
            _ => false,
        },
        b'e' => match second {
            b'g' => len == 6,
            b'm' => len == 2,
            b'n' => matches!(len, 8 | 10),
            b'q' => matches!(len, 4 | 7 | 9 | 16),
            _ => false,
        },
        b'f' => second == b'b' && len == 4,
        b'g' => match second {
            b'd' => len == 4,
            b'l' => len == 6,
            _ => false,
        },
        b'h' => match second {
            b'd' => len == 5,
            b'f' => matches!(len, 4 | 5 | 6),
            b'r' => len == 4,
            b't' => matches!(len, 6 | 8 | 9),
            _ => false,
        },
        b'i' => match second {
            b'd' => len == 8,
            b'f' => len == 3,
            b'g' => len == 12,
            b'm' => matches!(len, 7 | 9),
            b'n' => matches!(len, 5 | 9),
            b't' => len == 7,
            _ => false,
        },
        b'k' => second == b'e' && matches!(len, 3 | 6),
        b'l' => match second {
            b'a' => len == 5,
            b'e' => matches!(len, 3 | 5 | 7 | 8 | 10),
            b'i' => len == 9,
            b'l' => len == 4,
            b'o' => matches!(len, 4 | 5),
            b'q' => len == 2,
            _ => false,
        },
        _ => false,
    }
}

/// Whether such a name, which begins with m or after it, has these first two bytes and this length.
#[inline(always)]
fn turns_from_m(first: u8, second: u8, len: usize) -> bool
    ensures { result ≡ turns_from_m first second len }
{
    match first {
        b'm' => match second {
            b'a' => matches!(len, 6 | 9 | 11 | 12),
            b'd' => len == 8,
            b'e' => len == 7,
            b'i' => len == 15,
            b'o' => len == 3,
            _ => false,
        },
        b'n' => match second {
            b'e' => len == 10,
            b'i' => len == 8,
            b'o' => matches!(len, 5 | 7 | 8 | 10 | 11),
            b'u' => len == 4,
            _ => false,
        },
        b'o' => match second {
            b'p' => matches!(len, 7 | 22),
            b'v' => len == 12,
            _ => false,
        },
        b'p' => match second {
            b'a' => len == 9,
            b'm' => matches!(len, 4 | 7),
            b'o' => len == 3,
            b'r' => matches!(len, 7 | 9 | 14),
            _ => false,
        },
        b'q' => second == b'e' && matches!(len, 3 | 7),
        b'r' => match second {
            b'a' => matches!(len, 5 | 8),
            b'e' => matches!(len, 5 | 7 | 12),
            b'l' | b'o' => len == 4,
            b'm' => len == 8,
            b'q' => len == 2,
            _ => false,
        },
        b's' => match second {
            b'b' => len == 2,
            b'c' => matches!(len, 2 | 3 | 7),
            b'e' => matches!(len, 3 | 9),
            b'f' => matches!(len, 5 | 8),
            b'h' => matches!(len, 9 | 10 | 14),
            b'i' => matches!(len, 7 | 8 | 13),
            b'k' => len == 4,
            b'l' => matches!(len, 2 | 5 | 7),
            b'm' => len == 9,
            b't' => len == 5,
            b'p' => matches!(len, 2 | 9 | 10),
            _ => false,
        },
        b't' => match second {
            b'a' => len == 3,
            b'e' => matches!(len, 13 | 15),
            b't' => len == 8,
            _ => false,
        },
        b'u' => match second {
            b'n' => len == 6,
            b'p' => matches!(len, 6 | 7),
            _ => false,
        },
        b'v' => match second {
            b'a' => matches!(len, 5 | 6 | 8 | 9 | 10),
            b'c' => len == 7,
            b's' => len == 6,
            b'v' => len == 2,
            _ => false,
        },
        b'x' => second == b's' && len == 6,
        _ => false,
    }
}
