//! The bodies of macros.
ghost use Rattle.std.specs.Prelude.{◌≡◌, IfOk, map, option_map};
ghost use Rattle.latex2mathml_tex_grammar.specs.Definitions.{delimiters_macro, digit_of, enclosed_parts, is_character, operator_parts, parameter_part, parts_of, stretched_parts};
ghost use Rattle.latex2mathml_tex_grammar.specs.Arguments.{is_sign};
ghost use Rattle.latex2mathml_tex_grammar.specs.Macros.{alias, macro_taking, macro_with_default};
ghost use Rattle.latex2mathml_tex_units.specs.{Bodies.default_of, Bodies.macro_of, Bodies.part_of, Bodies.parts_in, Bodies.taken_of, Taking.piece_of, Taking.unit_of};

use crate::unit::{Piece, Unit};
use std::alloc::{AllocError, Global};

/// A part of a body.
#[derive(Clone, Copy)]
pub(crate) enum Part<'a> {
    /// A piece that stays as it is.
    Fixed(Piece<'a>),
    /// An argument, by its number, counted from 0.
    Argument(usize),
    /// The same, divided by bars.
    Split(Bars, usize),
}

/// Which bars divide an argument, and what takes their place.
#[derive(Clone, Copy)]
pub(crate) enum Bars {
    /// The first bar, as a relation.
    FirstAsRelation,
    /// The first bar, single or double, as high as what is around it.
    FirstStretched,
    /// Each such bar.
    EachStretched,
}

/// What a macro takes first, if it comes next.
#[derive(Drop)]
pub(crate) enum Lead<'a> {
    Nothing,
    /// An argument that can be left out, with its default.
    Default(Vec<Part<'a>>),
    /// A star, with which this replaces the macro.
    Star(Vec<Part<'a>>),
    /// The same. Without a star, an argument that can be left out, whose default is empty.
    StarOrDefault(Vec<Part<'a>>),
}

/// A part of what a macro takes after that.
#[derive(Clone, Copy)]
pub(crate) enum Taken<'a> {
    /// An argument. If a sign follows, the argument ends before it.
    Parameter,
    /// A sign, which must be there: a command, a character or white space.
    Sign(Piece<'a>),
}

/// All that a macro takes after that.
#[derive(Drop)]
pub(crate) enum Takes<'a> {
    /// This many arguments.
    Arguments(usize),
    /// Arguments, and signs between them.
    Mixed(Vec<Taken<'a>>),
}

/// What arguments a macro takes, and what replaces it.
#[derive(Drop)]
pub(crate) struct Macro<'a> {
    /// The piece that its name means, if the name is only another one for this piece.
    pub(crate) alias: Option<Piece<'a>>,
    pub(crate) lead: Lead<'a>,
    pub(crate) takes: Takes<'a>,
    pub(crate) body: Vec<Part<'a>>,
}

impl<'a> Macro<'a> {
    /// Creates a macro of `count` arguments, the first of which can be left out if it has a default.
    pub(crate) fn new(
        default: Option<Vec<Part<'a>>>,
        count: usize,
        body: Vec<Part<'a>>,
    ) -> Macro<'a>
        ensures { macro_of result
            ≡ macro_with_default (option_map parts_in default.entry) count (parts_in body.entry) }
    {
        match default {
            Some(default) => Macro {
                alias: None,
                lead: Lead::Default(default),
                takes: Takes::Arguments(count.saturating_sub(1)),
                body,
            },
            None => Macro {
                alias: None,
                lead: Lead::Nothing,
                takes: Takes::Arguments(count),
                body,
            },
        }
    }

    /// Creates a macro for what is between two delimiters. With a star they stretch, and otherwise the first argument, which can
    /// be left out, says their size.
    pub(crate) fn of_delimiters(
        alloc: Global,
        left: &[Part<'a>],
        right: &[Part<'a>],
    ) -> Result<Macro<'a>, AllocError>
        ensures { IfOk result (λ m. macro_of m
            ≡ delimiters_macro (map part_of left.now) (map part_of right.now)) }
    {
        Ok(Macro {
            alias: None,
            lead: Lead::StarOrDefault(stretched_parts(alloc, left, right)?),
            takes: Takes::Arguments(1),
            body: enclosed_parts(alloc, left, right)?,
        })
    }

    /// Creates a macro that takes this, and nothing that can be left out.
    pub(crate) fn taking(takes: Vec<Taken<'a>>, body: Vec<Part<'a>>) -> Macro<'a>
        ensures { macro_of result
            ≡ macro_taking (map taken_of takes.entry.items) (parts_in body.entry) }
    {
        Macro {
            alias: None,
            lead: Lead::Nothing,
            takes: Takes::Mixed(takes),
            body,
        }
    }

    /// Creates another name for this piece.
    pub(crate) fn of_alias(alloc: Global, piece: Piece<'a>) -> Macro<'a>
        ensures { macro_of result ≡ alias (piece_of piece.entry) }
    {
        Macro {
            alias: Some(piece),
            lead: Lead::Nothing,
            takes: Takes::Arguments(0),
            body: Vec::new(alloc),
        }
    }

    /// Returns the default of the first argument, if that one can be left out.
    pub(crate) fn default(&self) -> Option<&[Part<'a>]>
        ensures { option_map (λ parts. map part_of parts.now) result ≡ default_of self.now.lead }
    {
        match &self.lead {
            Lead::Nothing | Lead::Star(_) => None,
            Lead::Default(default) => Some(default),
            Lead::StarOrDefault(starred) => Some(&starred[..0]),
        }
    }
}

/// Whether the piece is this character.
pub(crate) fn is_character(wanted: char, piece: Piece) -> bool
    ensures { result ≡ is_character wanted (piece_of piece.entry) }
{
    match piece {
        Piece::Character(c) => c == wanted,
        _ => false,
    }
}

/// Whether the piece is this sign, which is a command, a character or white space.
pub(crate) fn is_sign(sign: Piece, piece: Piece) -> bool
    ensures { result ≡ is_sign (piece_of sign.entry) (piece_of piece.entry) }
{
    match (sign, piece) {
        (Piece::Command(name), Piece::Command(other)) => name == other,
        (Piece::Character(c), _) => is_character(c, piece),
        (Piece::Space, Piece::Space) => true,
        _ => false,
    }
}

/// Returns the value of the piece, if it is a digit.
pub(crate) fn digit_of(piece: Piece) -> Option<usize>
    ensures { result ≡ digit_of (piece_of piece.entry) }
{
    match piece {
        Piece::Character(c) if c.is_ascii_digit() => Some(u32::from(c) as usize - 48),
        _ => None,
    }
}

/// Returns the part that a piece after a number sign is, in a body with `arity` arguments.
fn parameter_part<'a>(arity: usize, piece: Piece<'a>) -> Option<Part<'a>>
    ensures { option_map part_of result ≡ parameter_part arity (piece_of piece.entry) }
{
    if is_character('#', piece) {
        return Some(Part::Fixed(piece));
    }
    let number = digit_of(piece)?;
    if number == 0 || arity < number {
        return None;
    }
    Some(Part::Argument(number - 1))
}

/// Returns the parts that the units of a body with `arity` arguments are.
pub(crate) fn parts_of<'a>(
    alloc: Global,
    arity: usize,
    units: &[Unit<'a>],
) -> Result<Option<Vec<Part<'a>>>, AllocError>
    ensures { IfOk result (λ parts.
        option_map parts_in parts ≡ parts_of arity (map unit_of units.now)) }
{
    let mut parts = Vec::new(alloc);
    let mut behind_sign = false;
    for unit in units {
        if behind_sign {
            let Some(part) = parameter_part(arity, unit.piece) else {
                return Ok(None);
            };
            parts.push(part)?;
            behind_sign = false;
        } else if is_character('#', unit.piece) {
            behind_sign = true;
        } else {
            parts.push(Part::Fixed(unit.piece))?;
        }
    }
    if behind_sign {
        return Ok(None);
    }
    Ok(Some(parts))
}

/// Returns the body of a macro for an operator's name. The operator has limits if there is a star.
pub(crate) fn operator_parts<'a>(
    alloc: Global,
    star: bool,
    name: &[Part<'a>],
) -> Result<Vec<Part<'a>>, AllocError>
    ensures { IfOk result (λ parts.
        parts_in parts ≡ operator_parts star (map part_of name.now)) }
{
    let mut parts = Vec::new(alloc);
    let command = Part::Fixed(Piece::Command("operatorname"));
    if star {
        let star = Part::Fixed(Piece::Character('*'));
        parts.extend_from_slice(&[command, star, Part::Fixed(Piece::Open)])?;
    } else {
        parts.extend_from_slice(&[command, Part::Fixed(Piece::Open)])?;
    }
    parts.extend_from_slice(name)?;
    parts.push(Part::Fixed(Piece::Close))?;
    Ok(parts)
}

/// Returns the body of a macro for what is between two delimiters, whose size the first argument says.
fn enclosed_parts<'a>(
    alloc: Global,
    left: &[Part<'a>],
    right: &[Part<'a>],
) -> Result<Vec<Part<'a>>, AllocError>
    ensures { IfOk result (λ parts.
        parts_in parts ≡ enclosed_parts (map part_of left.now) (map part_of right.now)) }
{
    let mut parts = Vec::new(alloc);
    let size = [Part::Fixed(Piece::Open), Part::Argument(0)];
    parts.push(Part::Fixed(Piece::Command("mathopen")))?;
    parts.extend_from_slice(&size)?;
    parts.extend_from_slice(left)?;
    parts.extend_from_slice(&[Part::Fixed(Piece::Close), Part::Argument(1)])?;
    parts.push(Part::Fixed(Piece::Command("mathclose")))?;
    parts.extend_from_slice(&size)?;
    parts.extend_from_slice(right)?;
    parts.push(Part::Fixed(Piece::Close))?;
    Ok(parts)
}

/// Returns the body of a macro for what is between two delimiters that stretch. As a whole, it has the space of an opening and of a
/// closing delimiter.
fn stretched_parts<'a>(
    alloc: Global,
    left: &[Part<'a>],
    right: &[Part<'a>],
) -> Result<Vec<Part<'a>>, AllocError>
    ensures { IfOk result (λ parts.
        parts_in parts ≡ stretched_parts (map part_of left.now) (map part_of right.now)) }
{
    let mut parts = Vec::new(alloc);
    parts.push(Part::Fixed(Piece::Command("mathopen")))?;
    parts.extend_from_slice(&[Part::Fixed(Piece::Open), Part::Fixed(Piece::Close)])?;
    parts.push(Part::Fixed(Piece::Command("mathclose")))?;
    parts.push(Part::Fixed(Piece::Open))?;
    parts.push(Part::Fixed(Piece::Command("left")))?;
    parts.extend_from_slice(left)?;
    parts.push(Part::Argument(0))?;
    parts.push(Part::Fixed(Piece::Command("right")))?;
    parts.extend_from_slice(right)?;
    parts.push(Part::Fixed(Piece::Close))?;
    Ok(parts)
}
