//! What replaces macros.
ghost use Rattle.std.specs.Prelude.{◌≡◌, ℕ, IfOk, OnOk, [], map, option_map};
ghost use Rattle.latex2mathml_tex_grammar.specs.{Bars.split, Expansion.form_of, Expansion.replaced, Expansion.used, Macros.Fixed, Macros.Table, Macros.argument_at, Macros.put, Operands.body_as, Operands.in_braces, Operands.needs_braces, Operands.used_as};
ghost use Rattle.latex2mathml_tex_grammar.specs.Units as units;
ghost use Rattle.latex2mathml_tex_units.specs.Putting.{ArePut, Puts, Replaces, arguments_at, body_units, part_units};
ghost use Rattle.latex2mathml_tex_units.specs.{Bodies.form_in, Bodies.bars_of, Bodies.macro_of, Bodies.part_of, Pending.pending_units, Pending.units_in, Taking.unit_of};

use crate::macros::arguments::Arguments;
use crate::macros::bars::split;
use crate::macros::halt::Halt;
use crate::macros::part::{Bars, Lead, Macro, Part};
use crate::macros::pending::Pending;
use crate::unit::{Fault, Piece, Unit};
use std::alloc::{AllocError, Global};

impl<'a> Pending<'a> {
    /// Puts units before the others.
    fn put_all(&mut self, units: &[Unit<'a>]) -> Result<(), AllocError>
        ensures { OnOk result (ArePut (map unit_of units.now) self.old self.new) }
    {
        let mut left = units.len();
        'units: while left > 0 {
            left -= 1;
            self.put.push(units[left])?;
        }
        Ok(())
    }

    /// Puts units before the others, if there is room for them. Returns whether there was.
    fn put_units(&mut self, room: &mut usize, units: &[Unit<'a>]) -> Result<bool, AllocError>
        ensures { Puts result (map unit_of units.now) room.old room.new self.old self.new }
    {
        if units.len() > *room {
            return Ok(false);
        }
        *room -= units.len();
        self.put_all(units)?;
        Ok(true)
    }

    /// Puts a default, if there is room.
    fn put_default(
        &mut self,
        alloc: Global,
        room: &mut usize,
        default: &[Part<'a>],
        place: usize,
    ) -> Result<bool, AllocError>
        ensures { Puts result (put [] place (map part_of default.now)) room.old room.new
            self.old self.new }
    {
        let units = default_units(alloc, default, place)?;
        self.put_units(room, &units)
    }

    /// Puts the argument with this number, counted from 0, if there is room.
    fn put_given(
        &mut self,
        room: &mut usize,
        number: usize,
        given: &[Vec<Unit<'a>>],
    ) -> Result<bool, AllocError>
        ensures { Puts result (argument_at (map units_in given.now) number) room.old room.new
            self.old self.new }
    {
        if number < given.len() {
            self.put_units(room, &given[number])
        } else {
            Ok(true)
        }
    }

    /// Puts these units, divided by bars, if there is room.
    fn put_split(
        &mut self,
        alloc: Global,
        room: &mut usize,
        bars: Bars,
        units: &[Unit<'a>],
    ) -> Result<bool, AllocError>
        ensures { Puts result (split (bars_of bars) (map unit_of units.now)) room.old room.new
            self.old self.new }
    {
        let divided = split(alloc, bars, units)?;
        self.put_units(room, &divided)
    }

    /// Puts the argument with this number, counted from 0, divided by bars, if there is room.
    fn put_given_split(
        &mut self,
        alloc: Global,
        room: &mut usize,
        bars: Bars,
        number: usize,
        given: &[Vec<Unit<'a>>],
    ) -> Result<bool, AllocError>
        ensures { Puts result (split (bars_of bars) (argument_at (map units_in given.now) number))
            room.old room.new self.old self.new }
    {
        if number < given.len() {
            self.put_split(alloc, room, bars, &given[number])
        } else {
            Ok(true)
        }
    }

    /// Puts a default, divided by bars, if there is room.
    fn put_default_split(
        &mut self,
        alloc: Global,
        room: &mut usize,
        bars: Bars,
        default: &[Part<'a>],
        place: usize,
    ) -> Result<bool, AllocError>
        ensures { Puts result (split (bars_of bars) (put [] place (map part_of default.now)))
            room.old room.new self.old self.new }
    {
        let units = default_units(alloc, default, place)?;
        self.put_split(alloc, room, bars, &units)
    }

    /// Puts what a part of a body represents, if there is room.
    fn put_part(
        &mut self,
        alloc: Global,
        room: &mut usize,
        part: Part<'a>,
        arguments: &Arguments<'_, 'a>,
        place: usize,
    ) -> Result<bool, AllocError>
        ensures { Puts result (part_units arguments.now place part.entry) room.old room.new
            self.old self.new }
    {
        match part {
            Part::Fixed(piece) => self.put_units(room, &[Unit { piece, place }]),
            Part::Argument(number) => match arguments.default {
                None => self.put_given(room, number, &arguments.given),
                Some(default) => {
                    if number == 0 {
                        self.put_default(alloc, room, default, place)
                    } else {
                        self.put_given(room, number - 1, &arguments.given)
                    }
                }
            },
            Part::Split(bars, number) => match arguments.default {
                None => self.put_given_split(alloc, room, bars, number, &arguments.given),
                Some(default) => {
                    if number == 0 {
                        self.put_default_split(alloc, room, bars, default, place)
                    } else {
                        self.put_given_split(alloc, room, bars, number - 1, &arguments.given)
                    }
                }
            },
        }
    }

    /// Puts a body with its arguments, if there is room.
    fn put_body(
        &mut self,
        alloc: Global,
        room: &mut usize,
        body: &[Part<'a>],
        arguments: &Arguments<'_, 'a>,
        place: usize,
    ) -> Result<bool, AllocError>
        ensures { Puts result (body_units arguments.now place body.now) room.old room.new
            self.old self.new }
    {
        let mut left = body.len();
        'parts: while left > 0 {
            left -= 1;
            if !self.put_part(alloc, room, body[left], arguments, place)? {
                return Ok(false);
            }
        }
        Ok(true)
    }

    /// Puts a body with its arguments in braces, if there is room.
    fn put_in_braces(
        &mut self,
        alloc: Global,
        room: &mut usize,
        body: &[Part<'a>],
        arguments: &Arguments<'_, 'a>,
        place: usize,
    ) -> Result<bool, AllocError>
        ensures { Puts result (put (arguments_at place arguments.now) place
            (in_braces (map part_of body.now))) room.old room.new self.old self.new }
    {
        let piece = Piece::Close;
        if !self.put_units(room, &[Unit { piece, place }])? {
            return Ok(false);
        }
        if !self.put_body(alloc, room, body, arguments, place)? {
            return Ok(false);
        }
        let piece = Piece::Open;
        self.put_units(room, &[Unit { piece, place }])
    }

    /// Puts a body with its arguments, in braces if the macro is taken whole and they are needed, if there is room.
    fn put_used(
        &mut self,
        alloc: Global,
        room: &mut usize,
        body: &[Part<'a>],
        arguments: &Arguments<'_, 'a>,
        place: usize,
        whole: bool,
    ) -> Result<bool, AllocError>
        ensures { Puts result (put (arguments_at place arguments.now) place
            (body_as whole (map part_of body.now))) room.old room.new self.old self.new }
    {
        if whole && needs_braces(body) {
            self.put_in_braces(alloc, room, body, arguments, place)
        } else {
            self.put_body(alloc, room, body, arguments, place)
        }
    }

    /// Puts what replaces the macro at this place, which has this body and these arguments, if there is room.
    fn put_replacement(
        &mut self,
        alloc: Global,
        room: &mut usize,
        body: &[Part<'a>],
        arguments: &Arguments<'_, 'a>,
        place: usize,
        whole: bool,
    ) -> Result<(), Halt>
        ensures { (table : Table) (uses : ℕ) (piece : units.Piece) → Replaces result
            (replaced table uses room.old (units.unit piece place)
            (put (arguments_at place arguments.now) place (body_as whole (map part_of body.now)))
            (pending_units self.old))
            table uses room.new (pending_units self.new) }
    {
        if !self.put_used(alloc, room, body, arguments, place, whole)? {
            return Err(Halt::Refused(Fault::TooManyExpansions, place));
        }
        Ok(())
    }

    /// Takes a star, if the macro takes one and one comes next. Returns what replaces the macro then.
    fn take_star<'m>(&mut self, found: &'m Macro<'a>) -> Option<&'m [Part<'a>]>
        ensures { (form_in found.now (option_map (λ body. body.now) result), pending_units self.new)
            ≡ form_of (macro_of found.now) (pending_units self.old) }
    {
        match &found.lead {
            Lead::Star(starred) | Lead::StarOrDefault(starred) if self.take_sign('*') => {
                Some(starred)
            }
            _ => None,
        }
    }

    /// Puts what replaces a macro that is used at this place, if `uses`, the number of uses that are left, allows it. The flag
    /// says whether the macro is an operand that is taken whole.
    pub(crate) fn replace(
        &mut self,
        alloc: Global,
        found: &Macro<'a>,
        place: usize,
        whole: bool,
        uses: &mut usize,
        room: &mut usize,
    ) -> Result<(), Halt>
        ensures { (table : Table) (piece : units.Piece) → Replaces result
            (used table uses.old room.old (units.unit piece place)
            (used_as whole (macro_of found.now)) (pending_units self.old))
            table uses.new room.new (pending_units self.new) }
    {
        if *uses == 0 {
            return Err(Halt::Refused(Fault::TooManyExpansions, place));
        }
        *uses -= 1;
        let Some(starred) = self.take_star(found) else {
            let arguments = self.take_macro_arguments(alloc, found, place)?;
            return self.put_replacement(alloc, room, &found.body, &arguments, place, whole);
        };
        let given = self.take_arguments(alloc, place, &found.takes)?;
        let arguments = Arguments {
            default: None,
            given,
        };
        self.put_replacement(alloc, room, starred, &arguments, place, whole)
    }
}

/// Whether a body is in braces where its macro is taken whole: not if it is only one piece.
fn needs_braces(body: &[Part]) -> bool
    ensures { result ≡ needs_braces (map part_of body.now) }
{
    match body {
        [Part::Fixed(_)] => false,
        _ => true,
    }
}

/// Returns the units of a default. A default has no arguments.
fn default_units<'a>(
    alloc: Global,
    default: &[Part<'a>],
    place: usize,
) -> Result<Vec<Unit<'a>>, AllocError>
    ensures { IfOk result (λ units. units_in units ≡ put [] place (map part_of default.now)) }
{
    let mut units = Vec::new(alloc);
    let mut put = 0;
    'parts: while put < default.len() {
        match default[put] {
            Part::Fixed(piece) => units.push(Unit { piece, place })?,
            Part::Argument(_) | Part::Split(_, _) => {}
        }
        put += 1;
    }
    Ok(units)
}
