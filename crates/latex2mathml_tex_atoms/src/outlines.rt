//! Fractions whose delimiters, line and style their authors specify.
ghost use Rattle.std.specs.Prelude.{◌≡◌, ◌≤◌, ◌∷◌, OnOk, drop, length, option_map};
ghost use Rattle.latex2mathml_builder.specs.Built.{elements_in};
ghost use Rattle.latex2mathml_tex_grammar.specs.Makes;
ghost use Rattle.latex2mathml_tex_grammar.specs.Rules;
ghost use Rattle.latex2mathml_tex_commands.specs.{Delimiters.delimiter_text, Meanings.style_of};
ghost use Rattle.latex2mathml_tex_atoms.specs.{Models.top, Outlines.outline_of};

use crate::fractions::{delimit, put_in_style, put_null_delimiters, put_without_bar};
use latex2mathml_attributes::attributes::Attributes;
use latex2mathml_attributes::tag::Pair;
use latex2mathml_builder::builder::Builder;
use latex2mathml_tex_commands::meaning::Style;
use std::alloc::AllocError;

/// How a fraction is drawn, as its author specifies.
#[derive(Clone, Copy)]
pub struct Outline {
    /// The delimiters, if it has any.
    pub opening: Option<char>,
    pub closing: Option<char>,
    pub has_line: bool,
    /// Its style, if it has one of its own.
    pub own: Option<Style>,
}

/// Returns the style with this number, if there is one. No number means the style around the fraction.
pub fn numbered_style(number: &str) -> Option<Option<Style>>
    ensures { option_map (option_map style_of) result ≡ Rules.numbered_style number.now }
{
    match number {
        "" => Some(None),
        "0" => Some(Some(Style::InDisplay)),
        "1" => Some(Some(Style::InText)),
        "2" | "3" => Some(Some(Style::InScript)),
        _ => None,
    }
}

/// Makes the two top elements a fraction in this style, as its author specifies.
pub fn put_outlined(builder: &mut Builder, outline: Outline, style: Style) -> Result<(), AllocError>
    requires { 2 ≤ length (elements_in builder.old) }
    ensures { OnOk result (elements_in builder.new
        ≡ (Makes.outlined_fraction (outline_of outline) (style_of style)
        (top (drop 1 (elements_in builder.old)))
        (top (elements_in builder.old))).atom.element ∷ drop 2 (elements_in builder.old)) }
{
    put_quotient(builder, outline.has_line)?;
    put_between_any(builder, style, outline.opening, outline.closing)?;
    put_in_style(builder, outline.own)
}

/// Makes the two top elements a fraction, with its line or without.
fn put_quotient(builder: &mut Builder, has_line: bool) -> Result<(), AllocError>
    requires { 2 ≤ length (elements_in builder.old) }
    ensures { OnOk result (elements_in builder.new
        ≡ Makes.quotient has_line (top (drop 1 (elements_in builder.old)))
        (top (elements_in builder.old)) ∷ drop 2 (elements_in builder.old)) }
{
    if has_line {
        return builder.pair(Pair::Mfrac, Attributes::plain(), false);
    }
    put_without_bar(builder)
}

/// Puts the top element, which is a fraction in this style, between delimiters, or between null delimiters if there are none.
fn put_between_any(
    builder: &mut Builder,
    style: Style,
    opening: Option<char>,
    closing: Option<char>,
) -> Result<(), AllocError>
    requires { 1 ≤ length (elements_in builder.old) }
    ensures { OnOk result (elements_in builder.new
        ≡ Makes.between_any (style_of style) (delimiter_text opening) (delimiter_text closing)
        (top (elements_in builder.old)) ∷ drop 1 (elements_in builder.old)) }
{
    if opening.is_none() && closing.is_none() {
        return put_null_delimiters(builder);
    }
    delimit(builder, style, opening, closing)
}
