//! The elements of arrows with labels or spaces, as the top elements of the builder.
ghost use Rattle.std.specs.Prelude.{◌≡◌, ◌≤◌, ◌∷◌, OnOk, drop, length, take};
ghost use Rattle.latex2mathml_elements.specs.{Attributes.plain, Element.Mover, Element.Munderover, Element.pair, Element.triple};
ghost use Rattle.latex2mathml_builder.specs.Built.{Puts, elements_in};
ghost use Rattle.latex2mathml_tex_grammar.specs.Makes;
ghost use Rattle.latex2mathml_tex_grammar.specs.SpacedSigns;
ghost use Rattle.latex2mathml_tex_grammar.specs.Rows;
ghost use Rattle.latex2mathml_tex_atoms.specs.{Models.top, Shapes.ReplacesTop};

use crate::rows::put_row;
use crate::shapes::mark_attributes;
use latex2mathml_attributes::attributes::{Attributes, BoxStyle, Space, Stretch};
use latex2mathml_attributes::tag::{Container, Pair, Token, Triple};
use latex2mathml_builder::builder::Builder;
use std::alloc::AllocError;

/// Puts an arrow that is as long as its labels.
pub fn put_arrow(builder: &mut Builder, sign: char) -> Result<(), AllocError>
    ensures { OnOk result (Puts (Makes.arrow_sign sign) builder.old builder.new) }
{
    builder.character(Token::Mo, mark_attributes(Stretch::Stretching), sign)
}

/// Puts a long arrow with a thick space at each side.
pub fn put_implication(builder: &mut Builder, sign: char) -> Result<(), AllocError>
    ensures { OnOk result
        (Puts (SpacedSigns.implication sign).atom.element builder.old builder.new) }
{
    let attributes = Attributes {
        stretch: Some(Stretch::Rigid),
        space: Some(Space::NoSpace),
        ..Attributes::plain()
    };
    builder.space(5)?;
    builder.character(Token::Mo, attributes, sign)?;
    builder.space(5)?;
    builder.container(Container::Mrow, Attributes::plain(), 3)
}

/// Makes the top element the label of an arrow.
pub(crate) fn put_label(builder: &mut Builder) -> Result<(), AllocError>
    requires { 1 ≤ length (elements_in builder.old) }
    ensures { OnOk result (ReplacesTop Makes.arrow_label builder.old builder.new) }
{
    let attributes = Attributes {
        box_style: Some(BoxStyle::ArrowLabel),
        ..Attributes::plain()
    };
    builder.container(Container::Mrow, attributes, 1)
}

/// Makes the label of an arrow of the top `count` elements.
pub fn put_label_row(builder: &mut Builder, count: usize) -> Result<(), AllocError>
    requires { count ≤ length (elements_in builder.old) }
    ensures { OnOk result (elements_in builder.new
        ≡ Makes.arrow_label (Rows.row_element (take count (elements_in builder.old)))
        ∷ drop count (elements_in builder.old)) }
{
    put_row(builder, count)?;
    put_label(builder)
}

/// Makes the top element the label above the arrow below it.
pub fn put_over_arrow(builder: &mut Builder) -> Result<(), AllocError>
    requires { 2 ≤ length (elements_in builder.old) }
    ensures { OnOk result (elements_in builder.new
        ≡ pair Mover plain (top (drop 1 (elements_in builder.old)))
        (Makes.arrow_label (top (elements_in builder.old))) ∷ drop 2 (elements_in builder.old)) }
{
    put_label(builder)?;
    builder.pair(Pair::Mover, Attributes::plain(), false)
}

/// Makes the top element the label above an arrow. The next elements below are the label below the arrow, and the arrow.
pub fn put_over_and_under_arrow(builder: &mut Builder) -> Result<(), AllocError>
    requires { 3 ≤ length (elements_in builder.old) }
    ensures { OnOk result (elements_in builder.new
        ≡ triple Munderover plain (top (drop 1 (drop 1 (elements_in builder.old))))
        (top (drop 1 (elements_in builder.old)))
        (Makes.arrow_label (top (elements_in builder.old))) ∷ drop 3 (elements_in builder.old)) }
{
    put_label(builder)?;
    builder.triple(Triple::Munderover, Attributes::plain(), false)
}
