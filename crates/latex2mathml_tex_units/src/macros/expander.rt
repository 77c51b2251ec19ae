//! The units of a text, with what they expand to in their place.
ghost use Rattle.std.specs.Prelude.{◌≡◌, IfOk, OnOk};
ghost use Rattle.latex2mathml_tex_grammar.specs.{Expanding.expansion, Expansion.most_units, Expansion.most_uses, Macros.before};
ghost use Rattle.latex2mathml_tex_grammar.specs.Units as units;
ghost use Rattle.latex2mathml_tex_units.specs.{Dues.due_of, Expanded.IsHalted, Expanded.Turned, Expanded.expanded_left, Expanded.own_turn, Expanded.turn_of_name, Left.units_left, MacroTables.macros_in, Standing.Moves, Taking.Takes, Taking.piece_of};

use crate::lexer::Lexer;
use crate::macros::due::Due;
use crate::macros::halt::Halt;
use crate::macros::pending::Pending;
use crate::macros::scope::Scope;
use crate::macros::standing::may_turn;
use crate::macros::table::Macros;
use crate::macros::texts::word_of;
use crate::macros::usual::usual_macro;
use crate::unit::{Fault, Next, Piece, Unit};
use std::alloc::{AllocError, Global};

/// How many macros a text can use.
const MOST_USES: usize = 1000;

/// How many units can be put in place of them.
const MOST_UNITS: usize = 100_000;

/// Units that are still to be expanded, with the macros that hold from here on.
#[derive(Drop)]
pub struct Expander<'m, 'a> {
    pub(crate) alloc: Global,
    pub(crate) pending: Pending<'a>,
    pub(crate) macros: Scope<'m, 'a>,
    /// The operands that are still to come.
    pub(crate) due: Due,
    /// How many more macros can be used.
    pub(crate) uses: usize,
    /// How many more units can be put.
    pub(crate) room: usize,
    /// What was refused, and where.
    pub(crate) refused: Option<(Fault, usize)>,
}

impl<'m, 'a> Expander<'m, 'a> {
    /// Creates an expander of the units that are left of a text, in which these macros hold, before these operands.
    pub(crate) fn new(
        alloc: Global,
        macros: &'m Macros<'a>,
        due: Due,
        lexer: Lexer<'a>,
    ) -> Expander<'m, 'a>
        ensures { expanded_left result
            ≡ expansion (macros_in macros.now) most_uses most_units (due_of due)
            (units_left lexer.entry) }
    {
        Expander {
            alloc,
            pending: Pending::new(alloc, lexer),
            macros: Scope::within(alloc, macros),
            due,
            uses: MOST_USES,
            room: MOST_UNITS,
            refused: None,
        }
    }

    /// Takes the next expanded unit, if there is one.
    pub fn take(&mut self) -> Result<Next<'a>, AllocError>
        ensures { IfOk result (λ next.
            Takes next (expanded_left self.old) (expanded_left self.new)) }
    {
        if let Some((fault, place)) = self.refused {
            return Ok(Next::Fault(fault, place));
        }
        'units: loop {
            let next = self.pending.take();
            let Next::Unit(unit) = next else {
                return Ok(next);
            };
            let Piece::Command(name) = unit.piece else {
                self.due.pass(unit.piece)?;
                return Ok(next);
            };
            let place = unit.place;
            match self.turn(name, place) {
                Ok(Some(piece)) => {
                    self.due.pass(piece)?;
                    return Ok(Next::Unit(Unit { piece, place }));
                }
                Ok(None) => {}
                Err(halt) => return self.halted(halt),
            }
        }
    }

    /// Takes the next units of the text that surely stay as they are, and appends them to a list.
    #[inline(always)]
    pub(crate) fn take_standing(&mut self, units: &mut Vec<Unit<'a>>) -> Result<(), AllocError>
        ensures { OnOk result (Moves units.old.items units.new.items (λ taken.
            expanded_left self.old ≡ before taken (expanded_left self.new))) }
    {
        if self.refused.is_some() || !self.pending.is_text() {
            return Ok(());
        }
        let usual = self.macros.is_empty();
        let listed = units.as_slice().len();
        self.pending.lexer.take_standing(usual, units)?;
        self.due.pass_all(&units[listed..])
    }

    /// Leaves nothing but this refusal.
    fn halted(&mut self, halt: Halt) -> Result<Next<'a>, AllocError>
        ensures { (l : units.Units) → IsHalted halt l
            → IfOk result (λ next. Takes next l (expanded_left self.new)) }
    {
        match halt {
            Halt::Refused(fault, place) => {
                self.refused = Some((fault, place));
                Ok(Next::Fault(fault, place))
            }
            Halt::OutOfMemory => Err(AllocError),
        }
    }

    /// Replaces the macro with this name, which was taken at this place, or takes the definition that begins with this name.
    /// Otherwise, returns the piece that the name means.
    #[inline(never)]
    fn turn(&mut self, name: &'a str, place: usize) -> Result<Option<Piece<'a>>, Halt>
        ensures turned { Turned result (turn_of_name self.old name.now place)
            self.old self.new }
        ensures refused { self.new.refused ≡ self.old.refused }
        ensures due { self.new.due ≡ self.old.due }
    {
        let piece = Piece::Command(name);
        let whole = self.due.is_due();
        if let Some(found) = self.macros.defined(name) {
            if let Some(piece) = found.alias {
                return self.define(piece, place);
            }
            self.pending.replace(
                self.alloc,
                found,
                place,
                whole,
                &mut self.uses,
                &mut self.room,
            )?;
            return Ok(None);
        }
        if !may_turn(name) {
            return Ok(Some(piece));
        }
        if let Some(found) = usual_macro(self.alloc, name)? {
            self.pending.replace(
                self.alloc,
                &found,
                place,
                whole,
                &mut self.uses,
                &mut self.room,
            )?;
            return Ok(None);
        }
        self.define(piece, place)
    }

    /// Takes the definition that begins with this piece at this place, whatever macros hold. Returns the piece if none does.
    fn define(&mut self, piece: Piece<'a>, place: usize) -> Result<Option<Piece<'a>>, Halt>
        ensures turned { (written : units.Piece) → Turned result
            (own_turn self.old (piece_of piece.entry) (units.unit written place))
            self.old self.new }
        ensures refused { self.new.refused ≡ self.old.refused }
        ensures due { self.new.due ≡ self.old.due }
    {
        let Some(word) = word_of(piece) else {
            return Ok(Some(piece));
        };
        let definition = self.pending.take_definition(self.alloc, word, place)?;
        self.macros.define(self.alloc, word, definition)?;
        Ok(None)
    }
}
