//! The operands that are still to come.
ghost use Rattle.std.specs.Prelude.{◌≡◌, ◌∷◌, OnOk, map};
ghost use Rattle.latex2mathml_tex_grammar.specs.{Commands.meaning_of, Operands.behind_brace, Operands.behind_character, Operands.behind_command, Operands.behind_operand, Operands.behind_other, Operands.behind_taking, Operands.due, Operands.due_behind, Operands.due_behind_units, Operands.is_due, Operands.none_due};
ghost use Rattle.latex2mathml_tex_grammar.specs.Operands as operands;
ghost use Rattle.latex2mathml_tex_units.specs.{Dues.around_of, Dues.due_of, Taking.piece_of, Taking.unit_of};

use crate::unit::{Piece, Unit};
use latex2mathml_tex_commands::commands::find;
use latex2mathml_tex_commands::operands::{Optional, optional_before, taken_whole};
use std::alloc::{AllocError, Global};

/// A group that is open, and how many operands are still to come behind it.
#[derive(Clone, Copy)]
pub(crate) enum Around {
    OpenBrace(u8),
    OpenBracket(u8),
}

/// The operands that are still to come.
#[derive(Drop)]
pub(crate) struct Due {
    /// How many of them a command takes whole, in the group of the next unit.
    pub(crate) here: u8,
    /// What may come before them.
    pub(crate) optional: Optional,
    /// The groups around it, the innermost last.
    pub(crate) around: Vec<Around>,
}

impl Due {
    /// Nothing precedes.
    pub(crate) fn new(alloc: Global) -> Due
        ensures { due_of result ≡ none_due }
    {
        Due {
            here: 0,
            optional: Optional::Nothing,
            around: Vec::new(alloc),
        }
    }

    /// Whether the next unit is an operand that is taken whole.
    pub(crate) fn is_due(&self) -> bool
        ensures { result ≡ is_due (due_of self.now) }
    {
        self.here > 0
    }

    /// Moves behind a piece.
    pub(crate) fn pass(&mut self, piece: Piece) -> Result<(), AllocError>
        ensures { OnOk result
            (due_of self.new ≡ due_behind (piece_of piece.entry) (due_of self.old)) }
    {
        match piece {
            Piece::Space => {}
            Piece::Open => self.open(Around::OpenBrace(self.here.saturating_sub(1)))?,
            Piece::Close => self.close(),
            Piece::Command(name) => self.pass_command(name),
            Piece::Character(c) => self.pass_character(c)?,
        }
        Ok(())
    }

    /// Moves behind what opens this group.
    fn open(&mut self, group: Around) -> Result<(), AllocError>
        ensures { OnOk result (due_of self.new
            ≡ due 0 operands.Nothing (around_of group ∷ (due_of self.old).around)) }
    {
        self.around.push(group)?;
        self.expect(0);
        Ok(())
    }

    /// Moves behind a closing brace.
    fn close(&mut self)
        ensures { due_of self.new ≡ behind_brace (due_of self.old).around }
    {
        match self.around.pop() {
            Some(Around::OpenBrace(here)) => self.expect(here),
            Some(Around::OpenBracket(here)) => self.expect(here),
            None => self.expect(0),
        }
    }

    /// Moves behind the command with this name.
    fn pass_command(&mut self, name: &str)
        ensures { due_of self.new ≡ behind_command (meaning_of name.now) (due_of self.old) }
    {
        match find(name) {
            Some(meaning) => {
                self.here = behind_taking(taken_whole(meaning), self.here);
                self.optional = optional_before(meaning);
            }
            None => self.pass_operand(),
        }
    }

    /// Moves behind a character.
    fn pass_character(&mut self, c: char) -> Result<(), AllocError>
        ensures { OnOk result (due_of self.new
            ≡ behind_character c (due_of self.old).optional (due_of self.old)) }
    {
        match self.optional {
            Optional::Star(behind) if c == '*' => self.expect(behind),
            Optional::Brackets(behind) if c == '[' => self.open(Around::OpenBracket(behind))?,
            _ => self.pass_other(c),
        }
        Ok(())
    }

    /// Moves behind a character that comes before no operands.
    fn pass_other(&mut self, c: char)
        ensures { due_of self.new ≡ behind_other c (due_of self.old) }
    {
        match self.around.last() {
            Some(&Around::OpenBracket(here)) if c == ']' => {
                self.around.pop();
                self.expect(here);
            }
            _ => self.pass_operand(),
        }
    }

    /// Moves behind an operand.
    fn pass_operand(&mut self)
        ensures { due_of self.new ≡ behind_operand (due_of self.old) }
    {
        self.expect(self.here.saturating_sub(1));
    }

    /// From here on, this many operands are to come.
    fn expect(&mut self, here: u8)
        ensures { due_of self.new ≡ due here operands.Nothing (due_of self.old).around }
    {
        self.here = here;
        self.optional = Optional::Nothing;
    }

    /// Moves behind these units.
    pub(crate) fn pass_all(&mut self, units: &[Unit]) -> Result<(), AllocError>
        ensures { OnOk result
            (due_of self.new ≡ due_behind_units (map unit_of units.now) (due_of self.old)) }
    {
        let mut passed = 0;
        'units: while passed < units.len() {
            self.pass(units[passed].piece)?;
            passed += 1;
        }
        Ok(())
    }
}

/// Returns how many operands are to come behind a command that takes this many whole, where this many were to come before it.
fn behind_taking(taken: u8, here: u8) -> u8
    ensures { result ≡ behind_taking taken here }
{
    if taken == 0 {
        here.saturating_sub(1)
    } else {
        taken
    }
}
