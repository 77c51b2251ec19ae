//! Arguments that end before a sign, and those in brackets, which can be left out.
ghost use Rattle.std.specs.Prelude.{◌≡◌, IfOk, map, option_map};
ghost use Rattle.latex2mathml_tex_grammar.specs.Arguments.{between_brackets, bracket, closes_last, is_end, is_group, optional, up_to, without_braces};
ghost use Rattle.latex2mathml_tex_grammar.specs.Next.{begins_with};
ghost use Rattle.latex2mathml_tex_grammar.specs.Refusal.{refusal_at};
ghost use Rattle.latex2mathml_tex_units.specs.{Pending.Reads, Pending.pending_units, Pending.units_in, Taking.kind_of, Taking.piece_of, Taking.unit_of};

use crate::macros::halt::Halt;
use crate::macros::part::{is_character, is_sign};
use crate::macros::pending::Pending;
use crate::unit::{Fault, Next, Piece, Unit};
use std::alloc::{AllocError, Global};

/// Whether the units after an opening brace are the rest of its group: only the last one closes it.
fn closes_last(units: &[Unit]) -> bool
    ensures { result ≡ closes_last (map unit_of units.now) 0 }
{
    let mut depth: usize = 0;
    let mut passed = 0;
    'units: while passed < units.len() {
        let piece = units[passed].piece;
        passed += 1;
        match piece {
            Piece::Open => depth += 1,
            Piece::Close => {
                if depth == 0 {
                    return passed == units.len();
                }
                depth -= 1;
            }
            _ => {}
        }
    }
    false
}

/// Whether the units are one group in braces.
fn is_group(units: &[Unit]) -> bool
    ensures { result ≡ is_group (map unit_of units.now) }
{
    if units.is_empty() {
        return false;
    }
    match units[0].piece {
        Piece::Open => closes_last(&units[1..]),
        _ => false,
    }
}

/// Returns the units without the braces around all of them.
pub(crate) fn without_braces<'a>(
    alloc: Global,
    units: Vec<Unit<'a>>,
) -> Result<Vec<Unit<'a>>, AllocError>
    ensures { IfOk result (λ inside. units_in inside ≡ without_braces (units_in units.entry)) }
{
    if !is_group(&units) {
        return Ok(units);
    }
    let mut inside = Vec::new(alloc);
    inside.extend_from_slice(&units[1..units.len() - 1])?;
    Ok(inside)
}

impl<'a> Pending<'a> {
    /// Skips white space, then takes an opening bracket, if one comes next. Returns its place.
    fn take_bracket(&mut self) -> Option<usize>
        ensures { (result, pending_units self.new) ≡ bracket (pending_units self.old) }
    {
        self.skip_space();
        let piece = self.peek()?;
        if !is_character('[', piece) {
            return None;
        }
        match self.take() {
            Next::Unit(unit) => Some(unit.place),
            _ => None,
        }
    }

    /// Whether this sign comes next, and is in no group, where `depth` groups are open.
    fn ends_here(&self, sign: Piece, depth: usize) -> bool
        ensures { result
            ≡ begins_with (is_end (piece_of sign.entry) depth) (pending_units self.now) }
    {
        match self.peek() {
            Some(piece) => depth == 0 && is_sign(sign, piece),
            None => false,
        }
    }

    /// Takes the units before this sign. If it does not come, that is this fault at this place.
    pub(crate) fn take_up_to(
        &mut self,
        alloc: Global,
        sign: Piece<'a>,
        fault: Fault,
        place: usize,
    ) -> Result<Vec<Unit<'a>>, Halt>
        ensures { Reads result units_in (λ l.
            up_to (piece_of sign.entry) (refusal_at (kind_of fault) place) l 0)
            self.old self.new }
    {
        let mut inside = Vec::new(alloc);
        let mut depth: usize = 0;
        'units: loop {
            if self.ends_here(sign, depth) {
                return Ok(inside);
            }
            match self.take() {
                Next::Unit(unit) => {
                    match unit.piece {
                        Piece::Open => depth += 1,
                        Piece::Close => {
                            if depth == 0 {
                                return Err(Halt::Refused(fault, place));
                            }
                            depth -= 1;
                        }
                        _ => {}
                    }
                    inside.push(unit)?;
                }
                Next::End(_) => return Err(Halt::Refused(fault, place)),
                Next::Fault(fault, at) => return Err(Halt::Refused(fault, at)),
            }
        }
    }

    /// Takes the units up to the `]` that closes the bracket at this place, which has been taken, without the braces around all
    /// of them.
    fn take_between_brackets(&mut self, alloc: Global, place: usize) -> Result<Vec<Unit<'a>>, Halt>
        ensures { Reads result units_in (between_brackets place) self.old self.new }
    {
        let units = self.take_up_to(alloc, Piece::Character(']'), Fault::UnclosedBracket, place)?;
        self.take();
        Ok(without_braces(alloc, units)?)
    }

    /// Takes an argument in brackets, if one comes next.
    pub(crate) fn take_optional(&mut self, alloc: Global) -> Result<Option<Vec<Unit<'a>>>, Halt>
        ensures { Reads result (option_map units_in) optional self.old self.new }
    {
        let Some(place) = self.take_bracket() else {
            return Ok(None);
        };
        Ok(Some(self.take_between_brackets(alloc, place)?))
    }
}
