//! Arguments of macros and definitions.
ghost use Rattle.latex2mathml_tex_grammar.specs.Arguments.{argument, argument_before, arguments, first_sign, group, macro_arguments, the_sign};
ghost use Rattle.latex2mathml_tex_grammar.specs.Macros.{parameters};
ghost use Rattle.std.specs.Prelude.{◌≡◌, map, option_map};
ghost use Rattle.latex2mathml_tex_units.specs.{Bodies.macro_of, Bodies.taken_of, Bodies.takes_of, Putting.arguments_at, Taking.piece_of};
ghost use Rattle.latex2mathml_tex_units.specs.Pending.{Reads, lists_in, units_in};

use crate::macros::halt::Halt;
use crate::macros::optional::without_braces;
use crate::macros::part::{Macro, Part, Taken, Takes, is_sign};
use crate::macros::pending::Pending;
use crate::unit::{Fault, Next, Piece, Unit};
use std::alloc::Global;

/// The arguments of a macro that is used.
#[derive(Drop)]
pub(crate) struct Arguments<'m, 'a> {
    /// The default of the first one, if that one is left out.
    pub(crate) default: Option<&'m [Part<'a>]>,
    /// All others.
    pub(crate) given: Vec<Vec<Unit<'a>>>,
}

/// Returns the sign that comes first, if one does.
fn first_sign<'a>(takes: &[Taken<'a>]) -> Option<Piece<'a>>
    ensures { option_map piece_of result ≡ first_sign (map taken_of takes.now) }
{
    match takes.first() {
        Some(Taken::Sign(sign)) => Some(*sign),
        _ => None,
    }
}

impl<'a> Pending<'a> {
    /// Takes the units of a group that begins at this place. Its opening brace has been taken.
    fn take_group(&mut self, alloc: Global, place: usize) -> Result<Vec<Unit<'a>>, Halt>
        ensures { Reads result units_in (λ l. group place l 0) self.old self.new }
    {
        let mut inside = Vec::new(alloc);
        let mut depth: usize = 0;
        'group: loop {
            match self.take() {
                Next::Unit(unit) => {
                    match unit.piece {
                        Piece::Open => depth += 1,
                        Piece::Close => {
                            if depth == 0 {
                                return Ok(inside);
                            }
                            depth -= 1;
                        }
                        _ => {}
                    }
                    inside.push(unit)?;
                }
                Next::End(_) => return Err(Halt::Refused(Fault::UnclosedBrace, place)),
                Next::Fault(fault, at) => return Err(Halt::Refused(fault, at)),
            }
        }
    }

    /// Takes an argument of the macro or definition at this place.
    pub(crate) fn take_argument(
        &mut self,
        alloc: Global,
        place: usize,
    ) -> Result<Vec<Unit<'a>>, Halt>
        ensures { Reads result units_in (argument place) self.old self.new }
    {
        self.skip_space();
        match self.take() {
            Next::Unit(unit) => match unit.piece {
                Piece::Open => self.take_group(alloc, unit.place),
                Piece::Close => Err(Halt::Refused(Fault::MissingArgument, place)),
                _ => {
                    let mut one = Vec::new(alloc);
                    one.push(unit)?;
                    Ok(one)
                }
            },
            Next::End(_) => Err(Halt::Refused(Fault::MissingArgument, place)),
            Next::Fault(fault, at) => Err(Halt::Refused(fault, at)),
        }
    }

    /// Takes `count` arguments of the macro at this place.
    fn take_plain_arguments(
        &mut self,
        alloc: Global,
        place: usize,
        count: usize,
    ) -> Result<Vec<Vec<Unit<'a>>>, Halt>
        ensures { Reads result lists_in (arguments place (parameters count)) self.old self.new }
    {
        let mut found = Vec::new(alloc);
        let mut left = count;
        'all: while left > 0 {
            left -= 1;
            found.push(self.take_argument(alloc, place)?)?;
        }
        Ok(found)
    }

    /// Takes the argument of the macro at this place that ends before this sign, if there is one, or else its next argument.
    fn take_argument_before(
        &mut self,
        alloc: Global,
        sign: Option<Piece<'a>>,
        place: usize,
    ) -> Result<Vec<Unit<'a>>, Halt>
        ensures { Reads result units_in (argument_before (option_map piece_of sign.entry) place)
            self.old self.new }
    {
        let Some(sign) = sign else {
            return self.take_argument(alloc, place);
        };
        let units = self.take_up_to(alloc, sign, Fault::WrongUse, place)?;
        Ok(without_braces(alloc, units)?)
    }

    /// Takes the sign of the macro at this place, which must come next.
    fn take_the_sign(&mut self, sign: Piece<'a>, place: usize) -> Result<(), Halt>
        ensures { Reads result (λ done. tt) (the_sign (piece_of sign.entry) place)
            self.old self.new }
    {
        match self.take() {
            Next::Unit(unit) if is_sign(sign, unit.piece) => Ok(()),
            Next::Fault(fault, at) => Err(Halt::Refused(fault, at)),
            _ => Err(Halt::Refused(Fault::WrongUse, place)),
        }
    }

    /// Takes arguments of the macro at this place, and the signs between them.
    fn take_mixed(
        &mut self,
        alloc: Global,
        place: usize,
        takes: &[Taken<'a>],
    ) -> Result<Vec<Vec<Unit<'a>>>, Halt>
        ensures { Reads result lists_in (arguments place (map taken_of takes.now))
            self.old self.new }
    {
        let mut found = Vec::new(alloc);
        let mut passed = 0;
        'takes: while passed < takes.len() {
            let taken = takes[passed];
            passed += 1;
            match taken {
                Taken::Sign(sign) => self.take_the_sign(sign, place)?,
                Taken::Parameter => {
                    let end = first_sign(&takes[passed..]);
                    found.push(self.take_argument_before(alloc, end, place)?)?;
                }
            }
        }
        Ok(found)
    }

    /// Takes the arguments of the macro at this place, and the signs between them, if there are any.
    pub(crate) fn take_arguments(
        &mut self,
        alloc: Global,
        place: usize,
        takes: &Takes<'a>,
    ) -> Result<Vec<Vec<Unit<'a>>>, Halt>
        ensures { Reads result lists_in (arguments place (takes_of takes.now)) self.old self.new }
    {
        match takes {
            Takes::Arguments(count) => self.take_plain_arguments(alloc, place, *count),
            Takes::Mixed(takes) => self.take_mixed(alloc, place, takes),
        }
    }

    /// Takes the arguments of a macro at this place.
    pub(crate) fn take_macro_arguments<'m>(
        &mut self,
        alloc: Global,
        found: &'m Macro<'a>,
        place: usize,
    ) -> Result<Arguments<'m, 'a>, Halt>
        ensures { Reads result (arguments_at place) (macro_arguments (macro_of found.now) place)
            self.old self.new }
    {
        let Some(default) = found.default() else {
            let given = self.take_arguments(alloc, place, &found.takes)?;
            return Ok(Arguments {
                default: None,
                given,
            });
        };
        let first = self.take_optional(alloc)?;
        let mut given = self.take_arguments(alloc, place, &found.takes)?;
        match first {
            Some(first) => {
                given.insert(0, first)?;
                Ok(Arguments {
                    default: None,
                    given,
                })
            }
            None => Ok(Arguments {
                default: Some(default),
                given,
            }),
        }
    }
}
