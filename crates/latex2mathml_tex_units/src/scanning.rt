//! What each unit does when the name of an environment, its columns, a color or a length is taken unit by unit. A spot is
//! where a unit is. White space is ignored.
ghost use Rattle.std.specs.Prelude.{◌≡◌, ℕ, [], IsFalse, Some};
ghost use Rattle.latex2mathml_tex_grammar.specs.Refusal.{refusal_at};
ghost use Rattle.latex2mathml_tex_grammar.specs.Scanning;
ghost use Rattle.latex2mathml_tex_grammar.specs.Scanning.{past, scan};
ghost use Rattle.latex2mathml_tex_grammar.specs.Units.{End, Next, Stop, Units, unit};
ghost use Rattle.latex2mathml_tex_units.specs.{Errors.kind_of_error, Taking.kind_of, Taking.piece_of};
ghost use Rattle.latex2mathml_tex_units.specs.Scans.{IsFound, argument_of, deed_of, length_end_of, spot_of};

use crate::columns::{column_deed, gap_deed, times_deed};
use crate::error::{TexError, TexErrorKind};
use crate::row_lines::is_line;
use crate::unit::{Fault, Piece};

/// What follows `\begin` and the like in braces.
#[derive(Clone, Copy)]
pub enum Argument {
    /// The name of an environment.
    Name,
    /// The columns of a table.
    ColumnList,
    /// Among them, columns that are repeated.
    RepeatedColumns,
    /// A number.
    Number,
    /// The name of a color.
    ColorName,
}

/// What ends a length.
#[derive(Clone, Copy)]
pub enum LengthEnd {
    AtBracket,
    AtBrace,
    /// Its unit.
    AtUnit,
}

/// Where a unit is.
#[derive(Clone, Copy)]
pub enum Spot {
    BeforeArgument(Argument),
    InArgument(Argument),
    /// Before the brace of a color, or the bracket of its model.
    BeforeColor,
    /// In the brackets of a model of colors.
    InModel,
    /// In columns, before the braces that say what is between two of them, or how wide one is.
    BeforeGap(Argument),
    /// Within this many such braces.
    InGap(Argument, u8),
    /// In columns, before the braces that say how often some are repeated.
    BeforeTimes,
    /// In that number, after so many digits.
    InTimes(u8),
    /// Before the braces around the columns that are repeated.
    BeforeRepeated,
    /// Before a brace, which is all that is taken.
    BeforeBrace,
    /// A letter in brackets that gives the position of a table in its line.
    BeforePosition,
    InPosition,
    BehindPosition,
    /// After the sign that ends a row.
    BeforeStar,
    BehindStar,
    /// Before a length in brackets, or in braces.
    BeforeLength,
    BeforeLengthInBraces,
    InLength(LengthEnd),
    BehindSign(LengthEnd),
    InNumber(LengthEnd),
    /// After the given number of decimals.
    InDecimals(LengthEnd, u8),
    /// After the first letter of a unit of length.
    BehindLetter(LengthEnd, char),
    BehindLength(LengthEnd),
    /// Before a row, where lines may be drawn.
    BeforeRow,
}

/// What a unit does.
#[derive(Clone, Copy)]
pub enum Deed {
    /// It adds nothing, and the next unit is at this spot.
    Passes(Spot),
    /// It adds this character, and the next unit is at this spot.
    Adds(char, Spot),
    /// It is the last one.
    Ends,
    /// The unit before it is the last one.
    Leaves,
    /// What was to be taken is not here.
    Misses,
    /// It is refused among columns.
    Refuses,
}

fn passes_if(test: bool, spot: Spot) -> Deed
    ensures { deed_of result ≡ Scanning.passes_if test (spot_of spot) }
{
    if test {
        Deed::Passes(spot)
    } else {
        Deed::Misses
    }
}

fn character_deed(argument: Argument, c: char) -> Deed
    ensures { deed_of result ≡ Scanning.character_deed (argument_of argument) c }
{
    match argument {
        Argument::Name | Argument::ColorName if c == '$' => Deed::Misses,
        Argument::Name | Argument::ColorName => Deed::Adds(c, Spot::InArgument(argument)),
        Argument::ColumnList if c == '*' => Deed::Adds(c, Spot::BeforeTimes),
        Argument::ColumnList | Argument::RepeatedColumns => column_deed(argument, c),
        Argument::Number => adds_if(c.is_ascii_digit(), c, Spot::InArgument(Argument::Number)),
    }
}

fn argument_deed(argument: Argument, piece: Piece) -> Deed
    ensures { deed_of result
        ≡ Scanning.argument_deed (argument_of argument) (piece_of piece.entry) }
{
    match piece {
        Piece::Character(c) => character_deed(argument, c),
        Piece::Close => match argument {
            Argument::RepeatedColumns => Deed::Adds('}', Spot::InArgument(Argument::ColumnList)),
            _ => Deed::Ends,
        },
        Piece::Open | Piece::Space | Piece::Command(_) => match argument {
            Argument::ColumnList | Argument::RepeatedColumns => Deed::Refuses,
            Argument::Name | Argument::Number | Argument::ColorName => Deed::Misses,
        },
    }
}

/// Returns what a unit does before a color.
fn color_deed(piece: Piece) -> Deed
    ensures { deed_of result ≡ Scanning.color_deed (piece_of piece.entry) }
{
    match piece {
        Piece::Open => Deed::Passes(Spot::InArgument(Argument::ColorName)),
        Piece::Character(c) => adds_if(c == '[', c, Spot::InModel),
        _ => Deed::Misses,
    }
}

/// Returns what a unit does in the brackets of a model of colors.
fn model_deed(piece: Piece) -> Deed
    ensures { deed_of result ≡ Scanning.model_deed (piece_of piece.entry) }
{
    match piece {
        Piece::Character(']') => Deed::Adds(']', Spot::BeforeArgument(Argument::ColorName)),
        Piece::Character('$') => Deed::Misses,
        Piece::Character(c) => Deed::Adds(c, Spot::InModel),
        _ => Deed::Misses,
    }
}

fn brace_deed(opened: Deed, otherwise: Deed, piece: Piece) -> Deed
    ensures { deed_of result
        ≡ Scanning.brace_deed (deed_of opened) (deed_of otherwise) (piece_of piece.entry) }
{
    match piece {
        Piece::Open => opened,
        _ => otherwise,
    }
}

fn is_unit_of_length(c: char, d: char) -> bool
    ensures { result ≡ Scanning.is_unit_of_length c d }
{
    (d == 'c' && (c == 'c' || c == 'p'))
        || (d == 'd' && c == 'd')
        || (d == 'm' && (c == 'c' || c == 'e' || c == 'm'))
        || (d == 'n' && c == 'i')
        || (d == 'p' && (c == 'b' || c == 's'))
        || (d == 't' && c == 'p')
        || (d == 'u' && c == 'm')
        || (d == 'x' && (c == 'e' || c == 'p'))
}

fn begins_unit_of_length(c: char) -> bool
    ensures { result ≡ Scanning.begins_unit_of_length c }
{
    c == 'b' || c == 'c' || c == 'd' || c == 'e' || c == 'i' || c == 'm' || c == 'p' || c == 's'
}

fn adds_if(test: bool, c: char, spot: Spot) -> Deed
    ensures { deed_of result ≡ Scanning.adds_if test c (spot_of spot) }
{
    if test {
        Deed::Adds(c, spot)
    } else {
        Deed::Misses
    }
}

fn number_deed(end: LengthEnd, c: char) -> Deed
    ensures { deed_of result ≡ Scanning.number_deed (length_end_of end) c }
{
    if c.is_ascii_digit() {
        return Deed::Adds(c, Spot::InNumber(end));
    }
    adds_if(c == '.', c, Spot::InDecimals(end, 0))
}

fn sign_deed(end: LengthEnd, c: char) -> Deed
    ensures { deed_of result ≡ Scanning.sign_deed (length_end_of end) c }
{
    if c == '-' {
        return Deed::Adds(c, Spot::BehindSign(end));
    }
    if c == '+' {
        return Deed::Passes(Spot::BehindSign(end));
    }
    number_deed(end, c)
}

fn unit_deed(end: LengthEnd, c: char) -> Deed
    ensures { deed_of result ≡ Scanning.unit_deed (length_end_of end) c }
{
    adds_if(begins_unit_of_length(c), c, Spot::BehindLetter(end, c))
}

fn digit_or_unit_deed(end: LengthEnd, c: char) -> Deed
    ensures { deed_of result ≡ Scanning.length_deed (Scanning.InNumber (length_end_of end)) c }
{
    if c.is_ascii_digit() {
        return Deed::Adds(c, Spot::InNumber(end));
    }
    if c == '.' {
        return Deed::Adds(c, Spot::InDecimals(end, 0));
    }
    unit_deed(end, c)
}

/// Returns what a character does after `count` decimals. More than five make no difference.
fn decimal_deed(end: LengthEnd, count: u8, c: char) -> Deed
    ensures { deed_of result ≡ Scanning.decimal_deed (length_end_of end) count c }
{
    if !c.is_ascii_digit() {
        return unit_deed(end, c);
    }
    if count < 5 {
        return Deed::Adds(c, Spot::InDecimals(end, count + 1));
    }
    Deed::Passes(Spot::InDecimals(end, count))
}

fn length_deed(spot: Spot, c: char) -> Deed
    ensures { deed_of result ≡ Scanning.length_deed (spot_of spot) c }
{
    match spot {
        Spot::InLength(end) => sign_deed(end, c),
        Spot::BehindSign(end) => number_deed(end, c),
        Spot::InNumber(end) => digit_or_unit_deed(end, c),
        Spot::InDecimals(end, count) => decimal_deed(end, count, c),
        Spot::BehindLetter(end, first) => {
            adds_if(is_unit_of_length(first, c), c, Spot::BehindLength(end))
        }
        _ => Deed::Misses,
    }
}

fn in_length(spot: Spot, piece: Piece) -> Deed
    ensures { deed_of result ≡ Scanning.in_length (spot_of spot) (piece_of piece.entry) }
{
    match piece {
        Piece::Character(c) => length_deed(spot, c),
        _ => Deed::Misses,
    }
}

/// Returns what a unit does after a length.
fn ending_deed(end: LengthEnd, piece: Piece) -> Deed
    ensures { deed_of result ≡ Scanning.ending_deed (length_end_of end) (piece_of piece.entry) }
{
    match end {
        LengthEnd::AtBracket => match piece {
            Piece::Character(c) => ends_if(c == ']'),
            _ => Deed::Misses,
        },
        LengthEnd::AtBrace => match piece {
            Piece::Close => Deed::Ends,
            _ => Deed::Misses,
        },
        LengthEnd::AtUnit => Deed::Leaves,
    }
}

fn ends_if(test: bool) -> Deed
    ensures { deed_of result ≡ Scanning.ends_if test }
{
    if test { Deed::Ends } else { Deed::Misses }
}

fn bracket_deed(spot: Spot, c: char) -> Deed
    ensures { deed_of result ≡ Scanning.bracket_deed (spot_of spot) c }
{
    match spot {
        Spot::BeforePosition => passes_if(c == '[', Spot::InPosition),
        Spot::InPosition => passes_if(c == 't' || c == 'b' || c == 'c', Spot::BehindPosition),
        Spot::BehindPosition => ends_if(c == ']'),
        Spot::BeforeLength => passes_if(c == '[', Spot::InLength(LengthEnd::AtBracket)),
        _ => Deed::Misses,
    }
}

fn in_brackets(spot: Spot, piece: Piece) -> Deed
    ensures { deed_of result ≡ Scanning.in_brackets (spot_of spot) (piece_of piece.entry) }
{
    match piece {
        Piece::Character(c) => bracket_deed(spot, c),
        _ => Deed::Misses,
    }
}

fn star_deed(piece: Piece) -> Deed
    ensures { deed_of result ≡ Scanning.star_deed (piece_of piece.entry) }
{
    match piece {
        Piece::Character('*') => Deed::Passes(Spot::BehindStar),
        _ => Deed::Leaves,
    }
}

fn row_deed(piece: Piece) -> Deed
    ensures { deed_of result ≡ Scanning.row_deed (piece_of piece.entry) }
{
    match piece {
        Piece::Command(name) if is_line(name) => Deed::Passes(Spot::BeforeRow),
        _ => Deed::Leaves,
    }
}

impl Spot {
    fn deed_there(self, piece: Piece) -> Deed
        ensures { deed_of result ≡ Scanning.deed_there (spot_of self) (piece_of piece.entry) }
    {
        match self {
            Spot::BeforeArgument(argument) => {
                brace_deed(
                    Deed::Passes(Spot::InArgument(argument)),
                    Deed::Misses,
                    piece,
                )
            }
            Spot::InArgument(argument) => argument_deed(argument, piece),
            Spot::BeforeColor => color_deed(piece),
            Spot::InModel => model_deed(piece),
            Spot::BeforeGap(argument) => {
                brace_deed(Deed::Passes(Spot::InGap(argument, 0)), Deed::Refuses, piece)
            }
            Spot::InGap(argument, depth) => gap_deed(argument, depth, piece),
            Spot::BeforeTimes => {
                brace_deed(Deed::Passes(Spot::InTimes(0)), Deed::Refuses, piece)
            }
            Spot::InTimes(count) => times_deed(count, piece),
            Spot::BeforeRepeated => brace_deed(
                Deed::Adds('{', Spot::InArgument(Argument::RepeatedColumns)),
                Deed::Refuses,
                piece,
            ),
            Spot::BeforeBrace => brace_deed(Deed::Ends, Deed::Misses, piece),
            Spot::BeforeStar => star_deed(piece),
            Spot::BehindStar => Deed::Leaves,
            Spot::BeforeRow => row_deed(piece),
            Spot::BeforeLengthInBraces => brace_deed(
                Deed::Passes(Spot::InLength(LengthEnd::AtBrace)),
                Deed::Misses,
                piece,
            ),
            Spot::InLength(_)
            | Spot::BehindSign(_)
            | Spot::InNumber(_)
            | Spot::InDecimals(_, _)
            | Spot::BehindLetter(_, _) => in_length(self, piece),
            Spot::BehindLength(end) => ending_deed(end, piece),
            spot => in_brackets(spot, piece),
        }
    }

    /// Returns what a unit at this spot does.
    pub fn deed(self, piece: Piece) -> Deed
        ensures { deed_of result ≡ Scanning.deed (spot_of self) (piece_of piece.entry) }
    {
        match piece {
            Piece::Space => Deed::Passes(self),
            piece => self.deed_there(piece),
        }
    }

    /// Whether something may be taken from this spot on, where this unit comes next.
    #[inline(always)]
    pub(crate) fn may_take(self, piece: Piece) -> bool
        ensures { IsFalse result → (place : ℕ) (l : Units)
            → let units = Next (unit (piece_of piece.entry) place) l
            in past (spot_of self) units ≡ units }
    {
        match (self, piece) {
            (_, Piece::Space) => true,
            (Spot::BeforeStar, Piece::Character(c)) => c == '*',
            (Spot::BeforeLength | Spot::BeforePosition, Piece::Character(c)) => c == '[',
            (Spot::BeforeStar | Spot::BeforeLength | Spot::BeforePosition, _) => false,
            (Spot::BeforeRow, Piece::Command(_)) => true,
            (Spot::BeforeRow, _) => false,
            _ => true,
        }
    }

    /// Whether nothing has to follow.
    fn may_end(self) -> bool
        ensures { result ≡ Scanning.may_end (spot_of self) }
    {
        matches!(
            self,
            Spot::BeforeStar
                | Spot::BehindStar
                | Spot::BeforeRow
                | Spot::BehindLength(LengthEnd::AtUnit)
        )
    }

    /// Returns why the end of the text is refused, unless nothing has to follow.
    pub fn end(self, place: usize) -> Option<TexError>
        ensures { (at : ℕ) → IsFound result [] (End at) (scan place (End at) (spot_of self)) }
    {
        if self.may_end() {
            return None;
        }
        Some(TexError {
            kind: self.missing(),
            place,
        })
    }

    /// Returns why what is no unit is refused, unless nothing has to follow.
    pub fn fault(self, fault: Fault, at: usize) -> Option<TexError>
        ensures { (place : ℕ) → IsFound result [] (Stop (refusal_at (kind_of fault) at))
            (scan place (Stop (refusal_at (kind_of fault) at)) (spot_of self)) }
    {
        if self.may_end() {
            return None;
        }
        Some(TexError {
            kind: TexErrorKind::of_fault(fault),
            place: at,
        })
    }

    /// Returns the kind of refusal if what was to be taken is missing at this spot.
    pub fn missing(self) -> TexErrorKind
        ensures { kind_of_error result ≡ Some (Scanning.missing (spot_of self)) }
    {
        match self {
            Spot::BeforeArgument(Argument::Name) | Spot::InArgument(Argument::Name) => {
                TexErrorKind::MissingName
            }
            Spot::BeforeLengthInBraces
            | Spot::InLength(_)
            | Spot::BehindSign(_)
            | Spot::InNumber(_)
            | Spot::InDecimals(_, _)
            | Spot::BehindLetter(_, _)
            | Spot::BehindLength(_) => TexErrorKind::MissingLength,
            _ => TexErrorKind::MissingArgument,
        }
    }
}
