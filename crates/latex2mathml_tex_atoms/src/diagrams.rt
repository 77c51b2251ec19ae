//! The elements of the arrows of diagrams, as the top elements of the builder.
ghost use Rattle.std.specs.Prelude.{◌≡◌, ◌+◌, ◌≤◌, ◌∷◌, OnOk, drop, length, take};
ghost use Rattle.latex2mathml_builder.specs.Built.{Puts, elements_in};
ghost use Rattle.latex2mathml_elements.specs.Attributes.{Bigger};
ghost use Rattle.latex2mathml_tex_commands.specs.{Diagrams.direction_of, Meanings.box_of};
ghost use Rattle.latex2mathml_tex_grammar.specs.{Fences.sized_delimiter, Rows.row_element, Symbols.InText, Symbols.Ordinary};
ghost use Rattle.latex2mathml_tex_grammar.specs.Makes;
ghost use Rattle.latex2mathml_tex_grammar.specs.Diagrams;
ghost use Rattle.latex2mathml_tex_atoms.specs.{Models.top, Shapes.ReplacesTop};

use crate::arrows::{put_arrow, put_label, put_label_row};
use crate::boxes::put_in_box;
use crate::delimiters::put_sized;
use crate::rows::put_row;
use latex2mathml_attributes::attributes::{Attributes, MathStyle, Side, Size};
use latex2mathml_attributes::tag::{Container, Pair, Triple};
use latex2mathml_builder::builder::Builder;
use latex2mathml_tex_commands::diagrams::Direction;
use latex2mathml_tex_commands::meaning::{Class, OperandBox, Style};
use std::alloc::AllocError;

/// How long an arrow to a side is at least, in eighteenths of an em of its labels, without the space at both ends of a label.
const LEAST_LENGTH: i32 = 63;

/// Puts an arrow without its labels.
pub fn put_bare_arrow(builder: &mut Builder, direction: Direction) -> Result<(), AllocError>
    ensures { OnOk result (Puts (Diagrams.bare_arrow (direction_of direction))
        builder.old builder.new) }
{
    match direction {
        Direction::Rightwards => put_arrow(builder, '→'),
        Direction::Leftwards => put_arrow(builder, '←'),
        Direction::Upwards => put_high(builder, '↑'),
        Direction::Downwards => put_high(builder, '↓'),
    }
}

/// Puts a sign that is as high as an arrow up or down.
fn put_high(builder: &mut Builder, sign: char) -> Result<(), AllocError>
    ensures { OnOk result (Puts (sized_delimiter InText Bigger Ordinary (Makes.text sign))
        builder.old builder.new) }
{
    put_sized(
        builder,
        Style::InText,
        Size::Bigger,
        Class::Ordinary,
        Some(sign),
    )
}

/// Makes the first label of an arrow of the top `count` elements.
pub fn put_first_label(
    builder: &mut Builder,
    direction: Direction,
    count: usize,
) -> Result<(), AllocError>
    requires { count ≤ length (elements_in builder.old) }
    ensures { OnOk result (elements_in builder.new
        ≡ Diagrams.first_label (direction_of direction)
        (row_element (take count (elements_in builder.old)))
        ∷ drop count (elements_in builder.old)) }
{
    put_row(builder, count)?;
    match direction {
        Direction::Rightwards | Direction::Leftwards => put_label(builder),
        Direction::Upwards | Direction::Downwards => put_beside(builder, OperandBox::OverLeft),
    }
}

/// Makes an arrow of the top `count` elements, which are its second label, of its first label, which is below them, and of the
/// arrow itself, which is below that.
pub fn put_labeled_arrow(
    builder: &mut Builder,
    direction: Direction,
    count: usize,
) -> Result<(), AllocError>
    requires { count + 2 ≤ length (elements_in builder.old) }
    ensures { let below = drop count (elements_in builder.old)
        in OnOk result (elements_in builder.new
        ≡ (Diagrams.joined_arrow (direction_of direction) (top (drop 1 below)) (top below)
        (row_element (take count (elements_in builder.old)))).atom.element ∷ drop 2 below) }
{
    put_row(builder, count)?;
    match direction {
        Direction::Rightwards | Direction::Leftwards => {
            put_long_label(builder)?;
            builder.triple(Triple::Munderover, Attributes::plain(), true)
        }
        Direction::Upwards | Direction::Downwards => {
            put_beside(builder, OperandBox::OverRight)?;
            builder.fence()
        }
    }
}

/// Makes the top element a label beside an arrow, in this box.
fn put_beside(builder: &mut Builder, operand_box: OperandBox) -> Result<(), AllocError>
    requires { 1 ≤ length (elements_in builder.old) }
    ensures { OnOk result (ReplacesTop
        (λ x. Makes.in_box (box_of operand_box) (Diagrams.small_label x))
        builder.old builder.new) }
{
    let attributes = Attributes {
        style: Some(MathStyle::Script),
        ..Attributes::plain()
    };
    builder.container(Container::Mstyle, attributes, 1)?;
    put_in_box(builder, operand_box)
}

/// Makes the top element the label below an arrow.
fn put_long_label(builder: &mut Builder) -> Result<(), AllocError>
    requires { 1 ≤ length (elements_in builder.old) }
    ensures { OnOk result (ReplacesTop Diagrams.long_label builder.old builder.new) }
{
    builder.space(LEAST_LENGTH)?;
    let attributes = Attributes {
        accent: Some(Side::Above),
        ..Attributes::plain()
    };
    builder.pair(Pair::Mover, attributes, true)?;
    put_label(builder)
}

/// Puts an equals sign that is as long as an arrow without labels.
pub fn put_long_equals(builder: &mut Builder) -> Result<(), AllocError>
    ensures { OnOk result (Puts Diagrams.long_equals.atom.element builder.old builder.new) }
{
    put_arrow(builder, '=')?;
    put_label_row(builder, 0)?;
    put_row(builder, 0)?;
    put_long_label(builder)?;
    builder.triple(Triple::Munderover, Attributes::plain(), true)
}

/// Puts two bars that are as high as an arrow.
pub fn put_high_bars(builder: &mut Builder) -> Result<(), AllocError>
    ensures { OnOk result (Puts Diagrams.high_bars.atom.element builder.old builder.new) }
{
    put_high(builder, '‖')
}
