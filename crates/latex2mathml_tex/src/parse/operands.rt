//! Operands: how each begins. Those of one letter or digit, by itself or in braces, are whole at once.
ghost use Rattle.std.specs.Prelude.{◌≡◌, ℕ, IfOk, MatchOption, false};
ghost use Rattle.latex2mathml_tex_grammar.specs.{Starts.is_no_operand, Units.Command};
ghost use Rattle.latex2mathml_tex_units.specs.Taking.{piece_of};
ghost use Rattle.latex2mathml_tex.specs.SymbolOperands.{TookOperand};
ghost use Rattle.latex2mathml_tex.specs.Steps.{AwaitsOperand, CanBegin, HoldsIn, Advances, LeadsOn, Ready, Took};

use crate::parse::endings::Ending;
use crate::parse::frames::Frame;
use crate::parse::leaves::{begin_number, number};
use crate::parse::symbols::put_letter;
use crate::parse::{Parser, State};
use latex2mathml_builder::builder::Builder;
use latex2mathml_tex_atoms::atoms::{Context, Operand, Row};
use latex2mathml_tex_atoms::shapes::with_atom;
use latex2mathml_tex_units::error::TexErrorKind;
use latex2mathml_tex_units::input::Input;
use latex2mathml_tex_units::unit::{Next, Piece, Unit};
use std::alloc::AllocError;

impl<'a> Parser<'a> {
    /// Begins the operand that this place takes. If it is a letter or a digit, gives it to the innermost frame.
    pub(crate) fn next_operand(&mut self, place: usize, next: &mut State) -> Result<(), AllocError>
        requires ready { Ready self.old State.Next }
        requires due { AwaitsOperand place self.old }
        ensures holds { LeadsOn (HoldsIn State.Next) self.old self.new next.new result }
        ensures step { Advances 1 self.old self.new next.new result }
    {
        let context = self.frames.innermost(self.style).context();
        let put = put_symbol_operand(&mut self.input, &mut self.builder, context)?;
        if let Some(operand) = put {
            return self.deliver_operand(operand, next);
        }
        self.other_operand(place, next)
    }

    /// Begins the operand that this place takes, whatever it is.
    fn other_operand(&mut self, place: usize, next: &mut State) -> Result<(), AllocError>
        requires ready { Ready self.old State.Next }
        requires due { AwaitsOperand place self.old }
        ensures holds { LeadsOn (HoldsIn State.Next) self.old self.new next.new result }
        ensures step { Advances 1 self.old self.new next.new result }
    {
        self.input.skip_space();
        match self.input.peek() {
            Next::Fault(fault, at) => {
                *next = self.refuse_fault(fault, at);
                Ok(())
            }
            Next::End(_) => {
                *next = self.refuse(TexErrorKind::MissingArgument, place);
                Ok(())
            }
            Next::Unit(unit) => {
                if is_no_operand(unit.piece) {
                    *next = self.refuse(TexErrorKind::MissingArgument, place);
                    return Ok(());
                }
                self.input.advance();
                self.begin_operand(unit, next)
            }
        }
    }

    /// Begins an operand with this unit, which was taken.
    fn begin_operand(&mut self, unit: Unit<'a>, next: &mut State) -> Result<(), AllocError>
        requires begin { CanBegin 0 self.old }
        requires due { (place : ℕ) × AwaitsOperand place self.old }
        requires some { is_no_operand (piece_of unit.piece) ≡ false }
        ensures holds { LeadsOn (Took unit.entry) self.old self.new next.new result }
        ensures step { Advances 13 self.old self.new next.new result }
    {
        let context = self.frames.innermost(self.style).context();
        match unit.piece {
            Piece::Open => {
                self.open(
                    Frame::Row(Ending::Operand, unit.place, context, Row::empty()),
                    next,
                )
            }
            Piece::Character(c) if c.is_ascii_digit() => {
                begin_number(&mut self.builder, context.alphabet, c)?;
                self.deliver_core(number(), next)
            }
            _ => self.begin_whole(unit, next),
        }
    }
}

/// Takes the operand that comes next and puts its element, if it is a letter or a digit, by itself or in braces. Most operands
/// are, and for these no frame is opened.
#[inline(always)]
pub(crate) fn put_symbol_operand(
    input: &mut Input,
    builder: &mut Builder,
    context: Context,
) -> Result<Option<Operand>, AllocError>
    ensures { IfOk result (λ found. MatchOption found
        ((input.new ≡ input.old) × (builder.new ≡ builder.old))
        (λ operand. TookOperand operand context input.old input.new builder.old builder.new)) }
{
    let Some(c) = input.take_lone() else {
        return Ok(None);
    };
    let core = if c.is_ascii_digit() {
        begin_number(builder, context.alphabet, c)?;
        number()
    } else {
        put_letter(builder, context.alphabet, c)?
    };
    let row = with_atom(builder, context.style, Row::empty(), core)?;
    Ok(Some(Operand {
        class: row.class,
        height: row.height,
    }))
}

/// Whether no operand begins with the unit, because it ends atoms or continues one.
fn is_no_operand(piece: Piece) -> bool
    ensures { result ≡ is_no_operand (piece_of piece.entry) }
{
    match piece {
        Piece::Close | Piece::Character('&' | '_' | '^' | '\'') => true,
        Piece::Command(name) => is_no_operand_named(name),
        _ => false,
    }
}

fn is_no_operand_named(name: &str) -> bool
    ensures { result ≡ is_no_operand (Command name.now) }
{
    matches!(
        name,
        "\\" | "cr"
            | "newline"
            | "end"
            | "right"
            | "middle"
            | "limits"
            | "nolimits"
            | "displaylimits"
    )
}
