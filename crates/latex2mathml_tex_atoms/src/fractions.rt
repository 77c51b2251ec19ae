//! The elements of fractions, as the top elements of the builder.
ghost use Rattle.std.specs.Prelude.{◌≡◌, ◌≤◌, ◌∷◌, true, OnOk, Some, drop, length, option_map};
ghost use Rattle.latex2mathml_builder.specs.Built.{elements_in};
ghost use Rattle.latex2mathml_attributes.specs.Names.{attributes_of, size_of};
ghost use Rattle.latex2mathml_tex_grammar.specs.Fences;
ghost use Rattle.latex2mathml_tex_grammar.specs.Makes;
ghost use Rattle.latex2mathml_tex_commands.specs.{Delimiters.delimiter_text, Meanings.fraction_rule_of, Meanings.style_of};
ghost use Rattle.latex2mathml_tex_atoms.specs.{Models.top, Shapes.ReplacesTop};

use crate::delimiters::put_sized;
use crate::rows::put_empty_operator;
use latex2mathml_attributes::attributes::{Attributes, BoxStyle, Size, Space};
use latex2mathml_attributes::tag::{Container, Pair, Token};
use latex2mathml_builder::builder::Builder;
use latex2mathml_tex_commands::meaning::{Class, FractionRule, Style};
use std::alloc::AllocError;

/// Makes the two top elements a fraction in this style, which may be its own.
pub fn put_fraction(
    builder: &mut Builder,
    rule: FractionRule,
    own: Option<Style>,
    style: Style,
) -> Result<(), AllocError>
    requires { 2 ≤ length (elements_in builder.old) }
    ensures { OnOk result (elements_in builder.new
        ≡ (Makes.fraction (fraction_rule_of rule) (option_map style_of own) (style_of style)
        (top (drop 1 (elements_in builder.old))) (top (elements_in builder.old))).atom.element
        ∷ drop 2 (elements_in builder.old)) }
{
    put_quotient(builder, rule, style)?;
    put_in_style(builder, own)
}

/// Puts the top element in a style of its own, if there is one.
pub fn put_in_style(builder: &mut Builder, own: Option<Style>) -> Result<(), AllocError>
    requires { 1 ≤ length (elements_in builder.old) }
    ensures { OnOk result (elements_in builder.new
        ≡ Makes.in_style (option_map style_of own) (top (elements_in builder.old))
        ∷ drop 1 (elements_in builder.old)) }
{
    if let Some(style) = own {
        builder.container(Container::Mstyle, style_attributes(style), 1)?;
    }
    Ok(())
}

/// Returns the attributes of an element in a style of its own.
pub fn style_attributes(style: Style) -> Attributes
    ensures { attributes_of result ≡ Makes.style_attributes (style_of style) }
{
    Attributes {
        style: Some(style.math_style()),
        ..Attributes::plain()
    }
}

/// Makes the two top elements a fraction in this style.
fn put_quotient(builder: &mut Builder, rule: FractionRule, style: Style) -> Result<(), AllocError>
    requires { 2 ≤ length (elements_in builder.old) }
    ensures { OnOk result (elements_in builder.new
        ≡ Makes.fraction_element (fraction_rule_of rule) (style_of style)
        (top (drop 1 (elements_in builder.old))) (top (elements_in builder.old))
        ∷ drop 2 (elements_in builder.old)) }
{
    match rule {
        FractionRule::Bar => {
            builder.pair(Pair::Mfrac, Attributes::plain(), false)?;
            put_null_delimiters(builder)
        }
        FractionRule::NoBar => put_between(builder, style, '(', ')'),
        FractionRule::Braced => put_between(builder, style, '{', '}'),
        FractionRule::Bracketed => put_between(builder, style, '[', ']'),
        FractionRule::Bare => {
            put_without_bar(builder)?;
            put_null_delimiters(builder)
        }
    }
}

/// Makes the two top elements a fraction in this style without its bar, between delimiters.
fn put_between(
    builder: &mut Builder,
    style: Style,
    opening: char,
    closing: char,
) -> Result<(), AllocError>
    requires { 2 ≤ length (elements_in builder.old) }
    ensures { OnOk result (elements_in builder.new
        ≡ Fences.delimited_fraction (style_of style) (delimiter_text (Some opening))
        (delimiter_text (Some closing))
        (Makes.without_bar (top (drop 1 (elements_in builder.old)))
        (top (elements_in builder.old))) ∷ drop 2 (elements_in builder.old)) }
{
    put_without_bar(builder)?;
    delimit(builder, style, Some(opening), Some(closing))
}

/// Puts delimiters around the top element, which is a fraction in this style.
pub(crate) fn delimit(
    builder: &mut Builder,
    style: Style,
    opening: Option<char>,
    closing: Option<char>,
) -> Result<(), AllocError>
    requires { 1 ≤ length (elements_in builder.old) }
    ensures { OnOk result (ReplacesTop
        (Fences.delimited_fraction (style_of style) (delimiter_text opening)
        (delimiter_text closing))
        builder.old builder.new) }
{
    let size = delimiter_size(style);
    put_sized(builder, style, size, Class::Opening, opening)?;
    put_sized(builder, style, size, Class::Closing, closing)?;
    builder.fence()
}

/// Returns the size of the delimiters of a fraction in this style.
fn delimiter_size(style: Style) -> Size
    ensures { size_of result ≡ Fences.fraction_size (style_of style) }
{
    match style {
        Style::InDisplay => Size::VeryBig,
        Style::InText | Style::InScript => Size::Big,
    }
}

/// Puts null delimiters, which are space, around the top element.
pub(crate) fn put_null_delimiters(builder: &mut Builder) -> Result<(), AllocError>
    requires { 1 ≤ length (elements_in builder.old) }
    ensures { OnOk result (ReplacesTop Makes.unfenced builder.old builder.new) }
{
    put_empty_operator(builder)?;
    let attributes = Attributes {
        box_style: Some(BoxStyle::NullDelimiters),
        ..Attributes::plain()
    };
    builder.container(Container::Mrow, attributes, 2)
}

/// Makes the two top elements a fraction without its bar.
pub fn put_without_bar(builder: &mut Builder) -> Result<(), AllocError>
    requires { 2 ≤ length (elements_in builder.old) }
    ensures { OnOk result (elements_in builder.new
        ≡ Makes.without_bar (top (drop 1 (elements_in builder.old)))
        (top (elements_in builder.old)) ∷ drop 2 (elements_in builder.old)) }
{
    let attributes = Attributes {
        no_line: true,
        ..Attributes::plain()
    };
    builder.pair(Pair::Mfrac, attributes, false)
}
