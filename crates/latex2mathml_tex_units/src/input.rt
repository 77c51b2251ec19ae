//! The units that are left.
ghost use Rattle.std.specs.Prelude.{◌≡◌, ◌+◌, ◌<◌, ◌∷◌, ◌^◌, [], false, IfSome, IsTrue, MatchBool, MatchOption, None, OnOk, Some};
ghost use Rattle.std.specs.Char.{is_ascii_alphanumeric};
ghost use Rattle.std.specs.Str.{chars};
ghost use Rattle.latex2mathml_tex_grammar.specs.Delimiters.{delimiter_of, negated_of};
ghost use Rattle.latex2mathml_tex_grammar.specs.{Dots.centers_dots, Dots.closes_dots, Next.follows, Next.past_space, Separators.depth_behind, Separators.has_separator};
ghost use Rattle.latex2mathml_tex_grammar.specs.Rules.{a_character, a_digit, in_brackets};
ghost use Rattle.latex2mathml_tex_units.specs.Left.{EndsNumber, SameUnits, TakesLone, TakesNext, TakesNone, put_back, units_at, units_behind, units_end};
ghost use Rattle.latex2mathml_tex_units.specs.Expanded.{expanded_text};
ghost use Rattle.latex2mathml_tex_grammar.specs.Units as units;
ghost use Rattle.latex2mathml_tex_grammar.specs.Diagrams.{sign_of_arrow};
ghost use Rattle.latex2mathml_tex_commands.specs.{Delimiters.delimiter_text, Diagrams.arrow_sign};
ghost use Rattle.latex2mathml_tex_units.specs.Taking.{piece_of};

use crate::delimiters::{delimiter_of, negated_of};
use crate::dots::{centers_dots, closes_dots};
use crate::macros::table::Macros;
use crate::macros::whole::{End, list_units};
use crate::unit::{Next, Piece, Unit};
use latex2mathml_tex_commands::diagrams::DiagramArrow;
use std::alloc::{AllocError, Global};

/// The units of a formula, of which the first ones were taken. What is taken is only counted, so that it can be put back.
#[derive(Drop)]
pub struct Input<'a> {
    units: Vec<Unit<'a>>,
    /// How many units were taken.
    pub(crate) taken: usize,
    /// How the units end.
    end: End,
}

impl End {
    /// Returns what follows the last unit.
    fn next<'a>(self) -> Next<'a>
        ensures { (l : units.Units) → put_back result l ≡ units_end self }
    {
        match self {
            End::Text(place) => Next::End(place),
            End::Fault(fault, place) => Next::Fault(fault, place),
        }
    }
}

impl<'a> Input<'a> {
    /// Creates an input of no units, as of an empty text.
    pub fn new(alloc: Global) -> Input<'a>
        ensures { units_at result ≡ units.End 0 }
    {
        Input {
            units: Vec::new(alloc),
            taken: 0,
            end: End::Text(0),
        }
    }

    /// Replaces all units by those that a text expands to, in which these macros hold. The memory is used again. Fails only if
    /// memory runs out.
    pub fn refill(
        &mut self,
        alloc: Global,
        macros: &Macros<'a>,
        text: &'a str,
    ) -> Result<(), AllocError>
        ensures { OnOk result (units_at self.new ≡ expanded_text macros.now (chars text.now)) }
    {
        self.taken = 0;
        self.end = list_units(alloc, macros, text, &mut self.units)?;
        Ok(())
    }

    /// Returns what is next.
    #[inline(always)]
    pub fn peek(&self) -> Next<'a>
        ensures { units_at self.now ≡ put_back result (units_behind self.now) }
    {
        match self.units.as_slice().get(self.taken) {
            Some(unit) => Next::Unit(*unit),
            None => self.end.next(),
        }
    }

    /// Skips the next unit, if there is one.
    #[inline(always)]
    pub fn advance(&mut self)
        ensures left { units_at self.new ≡ units_behind self.old }
        ensures same { SameUnits self.old self.new }
    {
        if self.taken < self.units.as_slice().len() {
            self.taken += 1;
        }
    }

    /// Skips white space.
    pub fn skip_space(&mut self)
        ensures left { units_at self.new ≡ past_space (units_at self.old) }
        ensures same { SameUnits self.old self.new }
    {
        'space: while let Next::Unit(
            Unit {
                piece: Piece::Space,
                ..
            },
        ) = self.peek()
        {
            self.advance();
        }
    }

    /// Whether dots before what comes next are in the middle of the line. Takes nothing.
    pub fn centers_dots(&mut self) -> bool
        ensures answer { result ≡ follows centers_dots (units_at self.old) }
        ensures unchanged { self.new ≡ self.old }
    {
        let start = self.taken;
        self.skip_space();
        let centered = match self.peek() {
            Next::Unit(unit) => centers_dots(unit.piece),
            Next::End(_) | Next::Fault(_, _) => false,
        };
        self.taken = start;
        centered
    }

    /// Whether a thin space is between these dots and what comes next. Takes nothing.
    pub fn closes_dots(&mut self, dots: char) -> bool
        ensures answer { result ≡ follows (closes_dots dots) (units_at self.old) }
        ensures unchanged { self.new ≡ self.old }
    {
        let start = self.taken;
        self.skip_space();
        let closed = match self.peek() {
            Next::Unit(unit) => closes_dots(dots, unit.piece),
            Next::End(_) | Next::Fault(_, _) => false,
        };
        self.taken = start;
        closed
    }

    /// Whether `&` is among the units that are left, in no group and no table. Takes nothing.
    pub fn has_separator(&mut self) -> bool
        ensures answer { result ≡ has_separator 0 (units_at self.old) }
        ensures unchanged { self.new ≡ self.old }
    {
        let start = self.taken;
        let found = self.find_separator();
        self.taken = start;
        found
    }

    /// Skips the units up to an `&` that is in no group and no table, or all if there is none. Returns whether there is one.
    fn find_separator(&mut self) -> bool
        ensures answer { result ≡ has_separator 0 (units_at self.old) }
        ensures same { SameUnits self.old self.new }
    {
        // no more groups and tables are open than there are units, whose number fits in a `usize`
        let _ = self.units.as_slice().len();
        let mut depth: usize = 0;
        'units: while let Next::Unit(unit) = self.peek() {
            match unit.piece {
                Piece::Character('&') if depth == 0 => return true,
                piece => depth = depth_behind(piece, depth),
            }
            self.advance();
        }
        false
    }

    /// Takes a delimiter, if one comes next. Otherwise skips nothing.
    pub fn take_delimiter(&mut self) -> Option<Option<char>>
        ensures next { MatchOption result
            (TakesNone (delimiter_of ∷ []) self.old self.new)
            (λ d. TakesNext (delimiter_of ∷ []) (delimiter_text d) self.old self.new) }
        ensures same { SameUnits self.old self.new }
    {
        let start = self.taken;
        self.skip_space();
        if let Next::Unit(unit) = self.peek()
            && let Some(delimiter) = delimiter_of(unit.piece)
        {
            self.advance();
            return Some(delimiter);
        }
        self.taken = start;
        None
    }

    /// Takes the next unit, if it has a sign of its own when negated. Returns that sign.
    pub fn take_negated(&mut self) -> Option<char>
        ensures { MatchOption result
            (TakesNone (negated_of ∷ []) self.old self.new)
            (λ c. TakesNext (negated_of ∷ []) (delimiter_text (Some c)) self.old self.new) }
    {
        let start = self.taken;
        self.skip_space();
        if let Next::Unit(unit) = self.peek()
            && let Some(sign) = negated_of(unit.piece)
        {
            self.advance();
            return Some(sign);
        }
        self.taken = start;
        None
    }

    /// Takes the sign of an arrow of a diagram, if one comes next. Returns the arrow.
    pub fn take_arrow(&mut self) -> Option<DiagramArrow>
        ensures { MatchOption result
            (TakesNone (sign_of_arrow ∷ []) self.old self.new)
            (λ arrow. TakesNext (sign_of_arrow ∷ []) (arrow_sign arrow) self.old self.new) }
    {
        let start = self.taken;
        self.skip_space();
        if let Next::Unit(unit) = self.peek()
            && let Piece::Character(sign) = unit.piece
            && let Some(arrow) = DiagramArrow::with_sign(sign)
        {
            self.advance();
            return Some(arrow);
        }
        self.taken = start;
        None
    }

    /// Takes this ASCII character, if it comes next.
    pub fn take_character(&mut self, c: char) -> bool
        ensures next { MatchBool result
            (TakesNext (a_character c ∷ []) (c ∷ []) self.old self.new)
            (TakesNone (a_character c ∷ []) self.old self.new) }
        ensures same { SameUnits self.old self.new }
    {
        if let Next::Unit(unit) = self.peek()
            && let Piece::Character(d) = unit.piece
        {
            if c != d {
                return false;
            }
            self.advance();
            return true;
        }
        self.take_character_past_space(c)
    }

    /// Takes this ASCII character, if it comes next, possibly after white space.
    fn take_character_past_space(&mut self, c: char) -> bool
        ensures next { MatchBool result
            (TakesNext (a_character c ∷ []) (c ∷ []) self.old self.new)
            (TakesNone (a_character c ∷ []) self.old self.new) }
        ensures same { SameUnits self.old self.new }
    {
        let start = self.taken;
        self.skip_space();
        if let Next::Unit(unit) = self.peek()
            && let Piece::Character(d) = unit.piece
            && c == d
        {
            self.advance();
            return true;
        }
        self.taken = start;
        false
    }

    /// Takes this ASCII character in brackets, if it comes next.
    pub fn take_in_brackets(&mut self, c: char) -> bool
        ensures { MatchBool result
            (TakesNext (in_brackets c) (91 ∷ c ∷ 93 ∷ []) self.old self.new)
            (TakesNone (in_brackets c) self.old self.new) }
    {
        let start = self.taken;
        if self.take_character('[') && self.take_character(c) && self.take_character(']') {
            return true;
        }
        self.taken = start;
        false
    }

    /// Takes the ASCII letter or digit that comes next, by itself or in braces. If none does, takes nothing.
    #[inline(always)]
    pub fn take_lone(&mut self) -> Option<char>
        ensures taken { MatchOption result (self.new ≡ self.old)
            (λ c. TakesLone c (units_at self.old) (units_at self.new)) }
        ensures kind { IfSome result (λ c. IsTrue (is_ascii_alphanumeric c)) }
    {
        let units = self.units.as_slice();
        let taken = self.taken;
        if taken >= units.len() {
            return None;
        }
        if let Piece::Character(c) = units[taken].piece {
            if !c.is_ascii_alphanumeric() {
                return None;
            }
            self.taken = taken + 1;
            return Some(c);
        }
        if units.len() - taken >= 3
            && let Piece::Open = units[taken].piece
            && let Piece::Character(c) = units[taken + 1].piece
            && let Piece::Close = units[taken + 2].piece
            && c.is_ascii_alphanumeric()
        {
            self.taken = taken + 3;
            return Some(c);
        }
        None
    }

    /// Whether a number may go on: whether white space, a digit or a point comes next.
    #[inline(always)]
    pub fn may_continue_number(&self) -> bool
        ensures { result ≡ false → EndsNumber (units_at self.now) }
    {
        match self.peek() {
            Next::Unit(unit) => match unit.piece {
                Piece::Space => true,
                Piece::Character(c) => c == '.' || c.is_ascii_digit(),
                Piece::Open | Piece::Close | Piece::Command(_) => false,
            },
            Next::End(_) | Next::Fault(_, _) => false,
        }
    }

    /// Takes a digit, if one comes next.
    #[inline(always)]
    pub fn take_digit(&mut self) -> Option<char>
        ensures next { MatchOption result
            (TakesNone (a_digit ∷ []) self.old self.new)
            (λ c. TakesNext (a_digit ∷ []) (c ∷ []) self.old self.new) }
        ensures same { SameUnits self.old self.new }
    {
        if let Next::Unit(unit) = self.peek()
            && let Piece::Character(c) = unit.piece
        {
            if !c.is_ascii_digit() {
                return None;
            }
            self.advance();
            return Some(c);
        }
        self.take_digit_past_space()
    }

    /// Takes a digit, if one comes next, possibly after white space.
    fn take_digit_past_space(&mut self) -> Option<char>
        ensures next { MatchOption result
            (TakesNone (a_digit ∷ []) self.old self.new)
            (λ c. TakesNext (a_digit ∷ []) (c ∷ []) self.old self.new) }
        ensures same { SameUnits self.old self.new }
    {
        let start = self.taken;
        self.skip_space();
        if let Next::Unit(unit) = self.peek()
            && let Piece::Character(c) = unit.piece
            && c.is_ascii_digit()
        {
            self.advance();
            return Some(c);
        }
        self.taken = start;
        None
    }

    /// Takes a point and the digit after it, if they come next. Returns the digit.
    pub fn take_point(&mut self) -> Option<char>
        ensures { MatchOption result
            (TakesNone (a_character 46 ∷ a_digit ∷ []) self.old self.new)
            (λ c. TakesNext (a_character 46 ∷ a_digit ∷ []) (46 ∷ c ∷ []) self.old self.new) }
    {
        if let Next::Unit(unit) = self.peek()
            && let Piece::Character(c) = unit.piece
            && c != '.'
        {
            return None;
        }
        let start = self.taken;
        if self.take_character('.')
            && let Some(digit) = self.take_digit()
        {
            return Some(digit);
        }
        self.taken = start;
        None
    }
}

/// Returns how many groups and tables a unit is in that follows this one, which is in `depth` groups and tables.
fn depth_behind(piece: Piece, depth: usize) -> usize
    requires { depth + 1 < 2 ^ 64 }
    ensures { result ≡ depth_behind (piece_of piece.entry) depth }
{
    match piece {
        Piece::Open | Piece::Command("begin") => depth + 1,
        Piece::Close | Piece::Command("end") => depth.saturating_sub(1),
        _ => depth,
    }
}
