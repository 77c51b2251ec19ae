//! Names, columns and lengths, which are found among the units that are left and taken or skipped.
ghost use Rattle.std.specs.Prelude.{◌≡◌, ◌≤◌, ℕ, IfOk, OnOk, string_bytes};
ghost use Rattle.latex2mathml_attributes.specs.{Columns.IsSmall, Lines.line_of};
ghost use Rattle.latex2mathml_tex_grammar.specs.Next.{follows};
ghost use Rattle.latex2mathml_tex_grammar.specs.RowGaps.{gap_at, space_found, space_of};
ghost use Rattle.latex2mathml_tex_grammar.specs.RowLines.{is_line_command, line_next};
ghost use Rattle.latex2mathml_tex_grammar.specs.Scanning.{BeforeLength, BeforeRow, past, past_gap, scan};
ghost use Rattle.latex2mathml_tex_units.specs.{Left.SameUnits, Left.unit_count, Left.units_at, Scans.IsFound, Scans.behind_text, Scans.spot_of};

use crate::error::{TexError, TexErrorKind};
use crate::input::Input;
use crate::row_lines::{is_line_command, line_of};
use crate::scanning::{Argument, Deed, Spot};
use crate::unit::{Next, Piece};
use latex2mathml_attributes::line::Line;
use latex2mathml_tex_commands::lengths::width_of;
use std::alloc::{AllocError, Global};

impl<'a> Input<'a> {
    /// Takes what is found from this spot on, and appends its text to `text`. Returns why it is refused, if it is not there:
    /// units before the refused one may then have been skipped. The place is that of what takes it.
    pub fn scan(
        &mut self,
        place: usize,
        spot: Spot,
        text: &mut String,
    ) -> Result<Option<TexError>, AllocError>
        ensures found { IfOk result (λ error. IsFound error (string_bytes text.new)
            (units_at self.new) (behind_text (string_bytes text.old)
            (scan place (units_at self.old) (spot_of spot)))) }
        ensures fewer { unit_count (units_at self.new) ≤ unit_count (units_at self.old) }
        ensures same { SameUnits self.old self.new }
    {
        let mut spot = spot;
        'units: loop {
            self.take_name_characters(spot, text)?;
            match self.peek() {
                Next::Fault(fault, at) => return Ok(spot.fault(fault, at)),
                Next::End(_) => return Ok(spot.end(place)),
                Next::Unit(unit) => match spot.deed(unit.piece) {
                    Deed::Passes(next) => {
                        self.advance();
                        spot = next;
                    }
                    Deed::Adds(c, next) => {
                        text.push(c)?;
                        self.advance();
                        spot = next;
                    }
                    Deed::Ends => {
                        self.advance();
                        return Ok(None);
                    }
                    Deed::Leaves => return Ok(None),
                    Deed::Misses => {
                        return Ok(Some(TexError {
                            kind: spot.missing(),
                            place,
                        }));
                    }
                    Deed::Refuses => {
                        return Ok(Some(TexError {
                            kind: TexErrorKind::UnknownColumn,
                            place: unit.place,
                        }));
                    }
                },
            }
        }
    }

    /// Takes the characters that come next, if this spot is in a name, and appends them to `text`.
    #[inline(always)]
    fn take_name_characters(&mut self, spot: Spot, text: &mut String) -> Result<(), AllocError>
        ensures found { OnOk result ((place : ℕ) → behind_text (string_bytes text.new)
            (scan place (units_at self.new) (spot_of spot))
            ≡ behind_text (string_bytes text.old)
            (scan place (units_at self.old) (spot_of spot))) }
        ensures fewer { unit_count (units_at self.new) ≤ unit_count (units_at self.old) }
        ensures same { SameUnits self.old self.new }
    {
        let Spot::InArgument(Argument::Name) = spot else {
            return Ok(());
        };
        'characters: while let Next::Unit(unit) = self.peek()
            && let Piece::Character(c) = unit.piece
            && c != '$'
        {
            text.push(c)?;
            self.advance();
        }
        Ok(())
    }

    /// Skips what is found from this spot on, if it is there. Mostly nothing is, as the next unit says.
    pub fn pass(&mut self, alloc: Global, spot: Spot) -> Result<(), AllocError>
        ensures { OnOk result (units_at self.new ≡ past (spot_of spot) (units_at self.old)) }
    {
        if let Next::Unit(unit) = self.peek()
            && !spot.may_take(unit.piece)
        {
            return Ok(());
        }
        self.pass_scanned(alloc, spot)
    }

    /// Skips what is found from this spot on, if it is there, unit by unit.
    fn pass_scanned(&mut self, alloc: Global, spot: Spot) -> Result<(), AllocError>
        ensures { OnOk result (units_at self.new ≡ past (spot_of spot) (units_at self.old)) }
    {
        let start = self.taken;
        let mut text = String::new(alloc);
        if self.scan(0, spot, &mut text)?.is_some() {
            self.taken = start;
        }
        Ok(())
    }

    /// Skips the star and the length that may follow the sign that ends a row. Returns the space below the row that the length
    /// says, in thousandths of an em: none if there is no length, or one that is too large.
    pub fn pass_gap(&mut self, alloc: Global) -> Result<i32, AllocError>
        ensures gap { IfOk result (λ gap. gap ≡ gap_at (units_at self.old)) }
        ensures small { IfOk result (λ gap. IsSmall gap) }
        ensures units { OnOk result (units_at self.new ≡ past_gap (units_at self.old)) }
    {
        self.pass(alloc, Spot::BeforeStar)?;
        self.pass_length(alloc)
    }

    /// Skips a length in brackets, if it is there. Returns the space that it is, in thousandths of an em.
    fn pass_length(&mut self, alloc: Global) -> Result<i32, AllocError>
        ensures space { IfOk result (λ space.
            space ≡ space_found (scan 0 (units_at self.old) BeforeLength)) }
        ensures small { IfOk result (λ space. IsSmall space) }
        ensures units { OnOk result (units_at self.new ≡ past BeforeLength (units_at self.old)) }
    {
        let start = self.taken;
        let mut text = String::new(alloc);
        if self.scan(0, Spot::BeforeLength, &mut text)?.is_some() {
            self.taken = start;
            return Ok(0);
        }
        Ok(space_of(width_of(text.as_str())))
    }

    /// Skips the lines before a row. Returns how they are drawn.
    pub fn pass_lines(&mut self, alloc: Global) -> Result<Line, AllocError>
        ensures line { IfOk result (λ line. line_of line ≡ line_next (units_at self.old)) }
        ensures units { OnOk result (units_at self.new ≡ past BeforeRow (units_at self.old)) }
    {
        let line = self.next_line();
        self.pass(alloc, Spot::BeforeRow)?;
        Ok(line)
    }

    /// Returns how the lines that come next are drawn. Takes nothing.
    fn next_line(&mut self) -> Line
        ensures answer { line_of result ≡ line_next (units_at self.old) }
        ensures unchanged { self.new ≡ self.old }
    {
        let start = self.taken;
        self.skip_space();
        let line = match self.peek() {
            Next::Unit(unit) => {
                self.advance();
                let another = self.line_is_next();
                line_of(unit.piece, another)
            }
            Next::End(_) | Next::Fault(_, _) => Line::Nothing,
        };
        self.taken = start;
        line
    }

    /// Whether a line comes next. Takes nothing.
    fn line_is_next(&mut self) -> bool
        ensures answer { result ≡ follows is_line_command (units_at self.old) }
        ensures unchanged { self.new ≡ self.old }
    {
        let start = self.taken;
        self.skip_space();
        let is_line = match self.peek() {
            Next::Unit(unit) => is_line_command(unit.piece),
            Next::End(_) | Next::Fault(_, _) => false,
        };
        self.taken = start;
        is_line
    }
}

/// Returns the space that a width is, in thousandths of an em: none if it is too large to be one.
fn space_of(width: Option<i32>) -> i32
    ensures { result ≡ space_of width }
{
    match width {
        Some(width) => width,
        None => 0,
    }
}
