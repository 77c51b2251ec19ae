//! Bars that divide an argument.
ghost use Rattle.std.specs.Prelude.{◌≡◌, IfOk, OnOk, [], ◌∷◌, map};
ghost use Rattle.latex2mathml_tex_grammar.specs.Bars.{at_place, bar_follows, bar_of, behind_bar, behind_kept, divided, divided_at, divider, group_of, has_double, is_double_bar, split, stretched_bar, takes_delimiter};
ghost use Rattle.latex2mathml_tex_units.specs.{Bodies.bars_of, Dividing.Divides, Dividing.Extends, Dividing.bar_in, Dividing.brace_in, Dividing.spot_of};
ghost use Rattle.latex2mathml_tex_units.specs.{Pending.units_in, Taking.piece_of, Taking.unit_of};

use crate::macros::part::{Bars, is_character};
use crate::unit::{Piece, Unit};
use latex2mathml_tex_commands::commands::find;
use latex2mathml_tex_commands::meaning::Meaning;
use std::alloc::{AllocError, Global};

/// The bar that a unit is.
#[derive(Clone, Copy)]
enum Bar {
    NoBar,
    /// A bar of one unit.
    Whole,
    /// The first of two single bars, which are a double bar.
    Half,
}

/// What opens or closes a group.
#[derive(Clone, Copy)]
enum Brace {
    Opening,
    Closing,
    NoBrace,
}

/// What comes next in an argument.
#[derive(Clone, Copy)]
enum Spot {
    /// A unit, which may be a dividing bar.
    AtAny,
    /// The delimiter of a command.
    AtDelimiter,
    /// The second half of a double bar.
    AtHalf,
    /// What no bar divides any more.
    AtRest,
}

/// A double bar as one piece.
const DOUBLE_BAR: Piece<'static> = Piece::Command("|");

/// Returns the units of an argument, with what takes the place of the bars that divide it.
pub(crate) fn split<'a>(
    alloc: Global,
    bars: Bars,
    units: &[Unit<'a>],
) -> Result<Vec<Unit<'a>>, AllocError>
    ensures { IfOk result (λ done.
        units_in done ≡ split (bars_of bars) (map unit_of units.now)) }
{
    let mut done = Vec::new(alloc);
    let mut depth: usize = 0;
    let mut spot = Spot::AtAny;
    let mut passed = 0;
    'units: while passed < units.len() {
        let unit = units[passed];
        passed += 1;
        if depth == 0 {
            spot = push_divided(&mut done, bars, spot, unit, &units[passed..])?;
        } else {
            spot = push_kept(&mut done, spot, unit)?;
        }
        match group_of(unit.piece) {
            Brace::Opening => depth += 1,
            Brace::Closing => depth = depth.saturating_sub(1),
            Brace::NoBrace => {}
        }
    }
    Ok(done)
}

/// Appends what a unit in no group becomes before the rest of the units. Returns what comes behind it.
fn push_divided<'a>(
    done: &mut Vec<Unit<'a>>,
    bars: Bars,
    spot: Spot,
    unit: Unit<'a>,
    rest: &[Unit<'a>],
) -> Result<Spot, AllocError>
    ensures { Divides result
        (divided_at (spot_of spot) (bars_of bars) (unit_of unit.entry) (map unit_of rest.now))
        done.old done.new }
{
    match spot {
        Spot::AtAny => push_any(done, bars, bar_of(bars, unit.piece, rest), unit),
        Spot::AtHalf => Ok(match unit.piece {
            Piece::Space => Spot::AtHalf,
            _ => behind_bar(bars),
        }),
        Spot::AtDelimiter | Spot::AtRest => push_kept(done, spot, unit),
    }
}

/// Appends what a unit becomes that is this bar. Returns what comes behind it.
fn push_any<'a>(
    done: &mut Vec<Unit<'a>>,
    bars: Bars,
    bar: Bar,
    unit: Unit<'a>,
) -> Result<Spot, AllocError>
    ensures { Divides result (divided (bars_of bars) (bar_in bar) (unit_of unit.entry))
        done.old done.new }
{
    match bar {
        Bar::NoBar => push_kept(done, Spot::AtAny, unit),
        Bar::Whole => {
            push_divider(done, bars, unit.piece, unit.place)?;
            Ok(behind_bar(bars))
        }
        Bar::Half => {
            push_divider(done, bars, DOUBLE_BAR, unit.place)?;
            Ok(Spot::AtHalf)
        }
    }
}

/// Appends a unit that stays. Returns what comes behind it.
fn push_kept<'a>(done: &mut Vec<Unit<'a>>, spot: Spot, unit: Unit<'a>) -> Result<Spot, AllocError>
    ensures { Divides result
        (unit_of unit.entry ∷ [], behind_kept (spot_of spot) (piece_of unit.entry.piece))
        done.old done.new }
{
    done.push(unit)?;
    Ok(behind_kept(spot, unit.piece))
}

/// Appends what takes the place of this bar.
fn push_divider<'a>(
    done: &mut Vec<Unit<'a>>,
    bars: Bars,
    bar: Piece<'a>,
    place: usize,
) -> Result<(), AllocError>
    ensures { OnOk result (Extends done.old done.new
        (at_place place (divider (bars_of bars) (piece_of bar.entry)))) }
{
    match bars {
        Bars::FirstAsRelation => {
            let relation = [Piece::Close, Piece::Command("mid"), Piece::Open];
            push_pieces(done, &relation, place)
        }
        Bars::FirstStretched => push_stretched(done, ";", bar, place),
        Bars::EachStretched => push_stretched(done, ",", bar, place),
    }
}

/// Appends a bar as high as what is around it, with spaces at its sides.
fn push_stretched<'a>(
    done: &mut Vec<Unit<'a>>,
    space: &'static str,
    bar: Piece<'a>,
    place: usize,
) -> Result<(), AllocError>
    ensures { OnOk result (Extends done.old done.new
        (at_place place (stretched_bar space.now (piece_of bar.entry)))) }
{
    let space = Piece::Command(space);
    let middle = Piece::Command("middle");
    let stretched = [Piece::Close, space, middle, bar, space, Piece::Open];
    push_pieces(done, &stretched, place)
}

/// Appends these pieces at this place.
fn push_pieces<'a>(
    done: &mut Vec<Unit<'a>>,
    pieces: &[Piece<'a>],
    place: usize,
) -> Result<(), AllocError>
    ensures { OnOk result (Extends done.old done.new
        (at_place place (map piece_of pieces.now))) }
{
    let mut pushed = 0;
    'pieces: while pushed < pieces.len() {
        let piece = pieces[pushed];
        done.push(Unit { piece, place })?;
        pushed += 1;
    }
    Ok(())
}

/// Returns which dividing bar this piece is, before the rest of the units.
fn bar_of(bars: Bars, piece: Piece, rest: &[Unit]) -> Bar
    ensures { bar_in result ≡ bar_of (bars_of bars) (piece_of piece.entry) (map unit_of rest.now) }
{
    if is_character('|', piece) {
        if has_double(bars) && bar_follows(rest) {
            Bar::Half
        } else {
            Bar::Whole
        }
    } else if has_double(bars) && is_double_bar(piece) {
        Bar::Whole
    } else {
        Bar::NoBar
    }
}

/// Whether a piece is a double bar.
fn is_double_bar(piece: Piece) -> bool
    ensures { result ≡ is_double_bar (piece_of piece.entry) }
{
    match piece {
        Piece::Command(name) => name == "|",
        _ => false,
    }
}

/// Whether the next unit is a single bar. White space is ignored.
fn bar_follows(units: &[Unit]) -> bool
    ensures { result ≡ bar_follows (map unit_of units.now) }
{
    let mut passed = 0;
    'units: while passed < units.len() {
        let piece = units[passed].piece;
        passed += 1;
        match piece {
            Piece::Space => {}
            _ => return is_character('|', piece),
        }
    }
    false
}

/// Whether double bars divide, too.
fn has_double(bars: Bars) -> bool
    ensures { result ≡ has_double (bars_of bars) }
{
    !matches!(bars, Bars::FirstAsRelation)
}

/// Returns what comes behind a dividing bar.
fn behind_bar(bars: Bars) -> Spot
    ensures { spot_of result ≡ behind_bar (bars_of bars) }
{
    match bars {
        Bars::EachStretched => Spot::AtAny,
        _ => Spot::AtRest,
    }
}

/// Returns what comes behind a unit that stays.
fn behind_kept(spot: Spot, piece: Piece) -> Spot
    ensures { spot_of result ≡ behind_kept (spot_of spot) (piece_of piece.entry) }
{
    match spot {
        Spot::AtRest => Spot::AtRest,
        Spot::AtDelimiter => match piece {
            Piece::Space => Spot::AtDelimiter,
            _ => Spot::AtAny,
        },
        Spot::AtAny | Spot::AtHalf => {
            if takes_delimiter(piece) {
                Spot::AtDelimiter
            } else {
                Spot::AtAny
            }
        }
    }
}

/// Returns whether a piece opens or closes a group.
fn group_of(piece: Piece) -> Brace
    ensures { brace_in result ≡ group_of (piece_of piece.entry) }
{
    match piece {
        Piece::Open => Brace::Opening,
        Piece::Close => Brace::Closing,
        Piece::Command(name) => match find(name) {
            Some(Meaning::Left | Meaning::BeginTable) => Brace::Opening,
            Some(Meaning::Right | Meaning::EndTable) => Brace::Closing,
            _ => Brace::NoBrace,
        },
        _ => Brace::NoBrace,
    }
}

/// Whether a piece takes the next unit as its delimiter.
fn takes_delimiter(piece: Piece) -> bool
    ensures { result ≡ takes_delimiter (piece_of piece.entry) }
{
    match piece {
        Piece::Command(name) => matches!(
            find(name),
            Some(Meaning::Sized(_, _) | Meaning::Left | Meaning::Middle | Meaning::Right)
        ),
        _ => false,
    }
}
