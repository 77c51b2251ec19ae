//! Boxes around the top element, rectangles, struts, and dots with space.
ghost use Rattle.std.specs.Prelude.{◌≡◌, ◌≤◌, OnOk, length};
ghost use Rattle.latex2mathml_elements.specs.{Element.Element, Struts.with_strut};
ghost use Rattle.latex2mathml_attributes.specs.Arounds.{element_around, extent_of};
ghost use Rattle.latex2mathml_builder.specs.Built.{Puts, elements_in};
ghost use Rattle.latex2mathml_tex_grammar.specs.Makes;
ghost use Rattle.latex2mathml_tex_grammar.specs.SpacedSigns;
ghost use Rattle.latex2mathml_tex_commands.specs.Meanings.{box_of};
ghost use Rattle.latex2mathml_tex_atoms.specs.Shapes.{ReplacesTop, within_any};

use latex2mathml_attributes::around::{Around, Boxing};
use latex2mathml_attributes::attributes::{Attributes, Space, Stretch};
use latex2mathml_attributes::extent::Extent;
use latex2mathml_attributes::tag::{Container, Token};
use latex2mathml_builder::builder::Builder;
use latex2mathml_tex_commands::meaning::OperandBox;
use std::alloc::AllocError;

/// Puts the top element in a box.
pub fn put_in_box(builder: &mut Builder, operand_box: OperandBox) -> Result<(), AllocError>
    requires { 1 ≤ length (elements_in builder.old) }
    ensures { OnOk result (ReplacesTop (Makes.in_box (box_of operand_box))
        builder.old builder.new) }
{
    let (inner, outer) = boxes(operand_box);
    if let Some(around) = inner {
        builder.surround(around)?;
    }
    builder.surround(outer)
}

/// Returns what is put around an element in a box: first the one, if there is one, and then the other.
fn boxes(operand_box: OperandBox) -> (Option<Around>, Around)
    ensures { (x : Element) → Makes.in_box (box_of operand_box) x
        ≡ element_around result.1 (within_any result.0 x) }
{
    match operand_box {
        OperandBox::Phantom => (None, Around::Unseen),
        OperandBox::PhantomWidth => (Some(Around::Unseen), Around::Boxed(Boxing::Flat)),
        OperandBox::PhantomHeight => (Some(Around::Unseen), Around::Boxed(Boxing::NoWidth)),
        OperandBox::Smashed => (None, Around::Boxed(Boxing::Flat)),
        OperandBox::WithoutHeight => (None, Around::Boxed(Boxing::NoHeight)),
        OperandBox::WithoutDepth => (None, Around::Boxed(Boxing::NoDepth)),
        OperandBox::OverRight => (None, Around::Boxed(Boxing::NoWidth)),
        OperandBox::OverLeft => (
            Some(Around::Boxed(Boxing::ByItsWidth)),
            Around::Boxed(Boxing::NoWidth),
        ),
        OperandBox::OverBoth => (
            Some(Around::Boxed(Boxing::ByHalfItsWidth)),
            Around::Boxed(Boxing::NoWidth),
        ),
        OperandBox::Frame => (None, Around::Boxed(Boxing::Framed)),
        OperandBox::StrikeUp => (None, Around::Boxed(Boxing::StruckUp)),
        OperandBox::StrikeDown => (None, Around::Boxed(Boxing::StruckDown)),
        OperandBox::StrikeTwice => (None, Around::Boxed(Boxing::StruckTwice)),
        OperandBox::Raised(height) => (None, Around::Raised(height)),
        OperandBox::Colored(color) => (None, Around::Colored(color)),
        OperandBox::OnColor(color) => (None, Around::Before(color)),
    }
}

/// Puts a black rectangle, which is raised by a length if there is one.
pub fn put_bar(
    builder: &mut Builder,
    raise: Option<i32>,
    width: i32,
    height: i32,
) -> Result<(), AllocError>
    ensures { OnOk result (Puts (Makes.bar raise width height).element builder.old builder.new) }
{
    builder.rectangle(Extent {
        width,
        height,
        depth: 0,
        is_black: true,
    })?;
    if let Some(height) = raise {
        builder.surround(Around::Raised(height))?;
    }
    Ok(())
}

/// Puts dots with a thin space after them.
pub fn put_spaced_dots(builder: &mut Builder, dots: char) -> Result<(), AllocError>
    ensures { OnOk result (Puts (SpacedSigns.spaced_dots dots).atom.element
        builder.old builder.new) }
{
    let attributes = Attributes {
        space: Some(Space::ThinAfter),
        ..Attributes::plain()
    };
    builder.character(Token::Mo, attributes, dots)
}

/// Puts the dots of a column, with space above them.
pub fn put_vertical_dots(builder: &mut Builder) -> Result<(), AllocError>
    ensures { OnOk result (Puts SpacedSigns.vertical_dots.atom.element builder.old builder.new) }
{
    let attributes = Attributes {
        space: Some(Space::NoSpace),
        stretch: Some(Stretch::Rigid),
        ..Attributes::plain()
    };
    builder.character(Token::Mo, attributes, '⋮')?;
    builder.rectangle(Extent {
        width: 0,
        height: 1500,
        depth: 0,
        is_black: false,
    })?;
    builder.container(Container::Mrow, Attributes::plain(), 2)
}

/// Puts a strut behind the top element.
pub fn put_strut(builder: &mut Builder, strut: Extent) -> Result<(), AllocError>
    requires { 1 ≤ length (elements_in builder.old) }
    ensures { OnOk result (ReplacesTop (with_strut (extent_of strut)) builder.old builder.new) }
{
    builder.rectangle(strut)?;
    builder.container(Container::Mrow, Attributes::plain(), 2)
}
