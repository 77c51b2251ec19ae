//! All units that a text expands to.
ghost use Rattle.std.specs.Prelude.{◌≡◌, IfOk, map};
ghost use Rattle.std.specs.Str.{chars};
ghost use Rattle.latex2mathml_tex_grammar.specs.{Expanding.expansion, Expansion.most_units, Expansion.most_uses, Macros.before, Operands.due_behind_units, Operands.none_due};
ghost use Rattle.latex2mathml_tex_units.specs.{Expanded.expanded_left, Expanded.expanded_text, Left.units_end, Left.units_left, MacroTables.macros_in, Taking.unit_of};

use crate::lexer::Lexer;
use crate::macros::due::Due;
use crate::macros::expander::Expander;
use crate::macros::table::Macros;
use crate::unit::{Fault, Next, Unit};
use std::alloc::{AllocError, Global};

/// How units end.
#[derive(Clone, Copy)]
pub enum End {
    /// With the text, at this byte.
    Text(usize),
    /// With what is refused at this byte.
    Fault(Fault, usize),
}

/// Replaces a list by all units that a text expands to, in which these macros hold, and returns how they end. The memory of the
/// list is used again. Fails only if memory runs out; some of the units may then be in the list.
pub(crate) fn list_units<'a>(
    alloc: Global,
    macros: &Macros<'a>,
    text: &'a str,
    units: &mut Vec<Unit<'a>>,
) -> Result<End, AllocError>
    ensures { IfOk result (λ end. before (map unit_of units.new.items) (units_end end)
        ≡ expanded_text macros.now (chars text.now)) }
{
    units.clear();
    let mut lexer = Lexer::new(text);
    lexer.take_common(macros.is_empty(), units)?;
    match lexer.end() {
        Some(place) => Ok(End::Text(place)),
        None => list_rest(alloc, macros, lexer, units),
    }
}

/// Appends the units that the rest of a text expands to, which begins with one that is not common, and returns how they end. The
/// list has all units before it.
#[inline(never)]
fn list_rest<'a>(
    alloc: Global,
    macros: &Macros<'a>,
    rest: Lexer<'a>,
    units: &mut Vec<Unit<'a>>,
) -> Result<End, AllocError>
    ensures { IfOk result (λ end. before (map unit_of units.new.items) (units_end end)
        ≡ before (map unit_of units.old.items)
        (expansion (macros_in macros.now) most_uses most_units
        (due_behind_units (map unit_of units.old.items) none_due) (units_left rest.entry))) }
{
    let mut lexer = rest;
    lexer.take_standing(macros.is_empty(), units)?;
    match lexer.end() {
        Some(place) => Ok(End::Text(place)),
        None => expand(alloc, macros, lexer, units),
    }
}

/// Appends the units that the rest of a text expands to, and returns how they end. The list has all units before it. Few formulas
/// use macros, so only those make an expander.
#[inline(never)]
fn expand<'a>(
    alloc: Global,
    macros: &Macros<'a>,
    rest: Lexer<'a>,
    units: &mut Vec<Unit<'a>>,
) -> Result<End, AllocError>
    ensures { IfOk result (λ end. before (map unit_of units.new.items) (units_end end)
        ≡ before (map unit_of units.old.items)
        (expansion (macros_in macros.now) most_uses most_units
        (due_behind_units (map unit_of units.old.items) none_due) (units_left rest.entry))) }
{
    let mut due = Due::new(alloc);
    due.pass_all(units)?;
    Expander::new(alloc, macros, due, rest).take_all(units)
}

impl<'m, 'a> Expander<'m, 'a> {
    /// Takes all expanded units that are left, and appends them to a list. Returns how they end.
    fn take_all(&mut self, units: &mut Vec<Unit<'a>>) -> Result<End, AllocError>
        ensures { IfOk result (λ end. before (map unit_of units.new.items) (units_end end)
            ≡ before (map unit_of units.old.items) (expanded_left self.old)) }
    {
        'units: loop {
            match self.take()? {
                Next::Unit(unit) => units.push(unit)?,
                Next::End(place) => return Ok(End::Text(place)),
                Next::Fault(fault, place) => return Ok(End::Fault(fault, place)),
            }
            self.take_standing(units)?;
        }
    }
}
