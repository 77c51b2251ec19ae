//! Lengths and colors that come next.
ghost use Rattle.std.specs.Prelude.{IfOk, option_map};
ghost use Rattle.latex2mathml_attributes.specs.Arounds.{color_of};
ghost use Rattle.latex2mathml_tex_grammar.specs.Colors;
ghost use Rattle.latex2mathml_tex_grammar.specs.Lengths;
ghost use Rattle.latex2mathml_tex_grammar.specs.Refusal.{LengthTooLarge, UnknownColor, refusal_at};
ghost use Rattle.latex2mathml_tex_grammar.specs.Scanning.{BeforeColor};
ghost use Rattle.latex2mathml_tex_units.specs.Scans.{spot_of};
ghost use Rattle.latex2mathml_tex.specs.Steps.{TookValue};

use crate::parse::Parser;
use latex2mathml_attributes::around::Color;
use latex2mathml_tex_commands::colors::color_of;
use latex2mathml_tex_commands::lengths::width_of;
use latex2mathml_tex_units::error::TexErrorKind;
use latex2mathml_tex_units::scanning::Spot;
use std::alloc::AllocError;

impl<'a> Parser<'a> {
    /// Takes the length that is found from this spot on, in thousandths of an em. If there is none, or if it is too large,
    /// the formula is refused and `None` is returned.
    pub(crate) fn take_length(
        &mut self,
        place: usize,
        spot: Spot,
    ) -> Result<Option<i32>, AllocError>
        ensures { IfOk result (λ length. TookValue place (spot_of spot) Lengths.width_of
            (λ text. refusal_at LengthTooLarge place) self.old self.new length) }
    {
        let Some(length) = self.take_text(place, spot)? else {
            return Ok(None);
        };
        let Some(width) = width_of(length.as_str()) else {
            let _ = self.refuse(TexErrorKind::LengthTooLarge, place);
            return Ok(None);
        };
        Ok(Some(width))
    }

    /// Takes the color whose name comes next in braces. If there is none, the formula is refused and `None` is returned.
    pub(crate) fn take_color(&mut self, place: usize) -> Result<Option<Color>, AllocError>
        ensures { IfOk result (λ color. TookValue place BeforeColor Colors.color_of
            (λ name. refusal_at (UnknownColor name) place) self.old self.new
            (option_map color_of color)) }
    {
        let spot = Spot::BeforeColor;
        let Some(name) = self.take_text(place, spot)? else {
            return Ok(None);
        };
        let Some(color) = color_of(name.as_str()) else {
            let _ = self.refuse(TexErrorKind::UnknownColor(name), place);
            return Ok(None);
        };
        Ok(Some(color))
    }
}
