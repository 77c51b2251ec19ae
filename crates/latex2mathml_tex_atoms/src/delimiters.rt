//! The elements of delimiters, as the top elements of the builder.
ghost use Rattle.std.specs.Prelude.{◌≡◌, ◌≤◌, OnOk, length, option_map};
ghost use Rattle.latex2mathml_builder.specs.Built.{Puts, elements_in};
ghost use Rattle.latex2mathml_elements.specs.Attributes.{AtMost};
ghost use Rattle.latex2mathml_attributes.specs.Names.{attributes_of, form_of, size_of, space_of, stretch_of};
ghost use Rattle.latex2mathml_tex_grammar.specs.Fences;
ghost use Rattle.latex2mathml_tex_grammar.specs.Makes;
ghost use Rattle.latex2mathml_tex_commands.specs.Meanings.{class_of, style_of};
ghost use Rattle.latex2mathml_tex_commands.specs.Delimiters.{delimiter_text};
ghost use Rattle.latex2mathml_tex_atoms.specs.{Models.height_of, Shapes.ChangesAt, Shapes.ReplacesTop, Shapes.delimiter_element, Shapes.mapped_first};

use crate::heights::Height;
use crate::signs::keeps_space;
use crate::widths::room;
use latex2mathml_attributes::attributes::{Attributes, Form, Size, Space, Stretch};
use latex2mathml_attributes::tag::{Container, Token};
use latex2mathml_builder::builder::Builder;
use latex2mathml_tex_commands::meaning::{Class, Style};
use std::alloc::AllocError;

impl Height {
    /// Returns whether delimiters stretch around it.
    fn stretch(self) -> Stretch
        ensures { stretch_of result ≡ Fences.stretch_around (height_of self) }
    {
        match self {
            Height::Low => Stretch::Rigid,
            Height::Raised | Height::Tall | Height::Taller | Height::VeryTall =>
                Stretch::Stretching,
        }
    }

    /// Returns how wide a delimiter is at most around it, in thousandths of an em, if that is limited.
    fn room(self, delimiter: Option<char>) -> Option<u16>
        ensures { option_map AtMost result
            ≡ Fences.room_around (height_of self) (delimiter_text delimiter) }
    {
        match self {
            Height::Raised => room(Size::Big, delimiter),
            Height::Tall => room(Size::Bigger, delimiter),
            Height::Taller => room(Size::VeryBig, delimiter),
            Height::Low | Height::VeryTall => None,
        }
    }
}

/// Puts an operator that is a delimiter, or empty.
pub fn put_delimiter(
    builder: &mut Builder,
    attributes: Attributes,
    delimiter: Option<char>,
) -> Result<(), AllocError>
    ensures { OnOk result (Puts (delimiter_element
        (attributes_of attributes) (delimiter_text delimiter)) builder.old builder.new) }
{
    match delimiter {
        Some(c) => builder.character(Token::Mo, attributes, c),
        None => builder.token(Token::Mo, attributes),
    }
}

/// Puts a delimiter within others.
pub fn put_divider(builder: &mut Builder, delimiter: Option<char>) -> Result<(), AllocError>
    ensures { OnOk result (Puts (Makes.divider (delimiter_text delimiter)).element
        builder.old builder.new) }
{
    let attributes = Attributes {
        stretch: Some(Stretch::Stretching),
        fence: true,
        space: Some(Space::Narrow),
        room: room(Size::Bigger, delimiter),
        ..Attributes::plain()
    };
    put_delimiter(builder, attributes, delimiter)
}

/// Puts a delimiter of this size as an element that can be the base of scripts. As their base itself, some browsers would not draw it in
/// its size.
pub fn put_big(
    builder: &mut Builder,
    style: Style,
    size: Size,
    class: Class,
    delimiter: Option<char>,
) -> Result<(), AllocError>
    ensures { OnOk result (Puts
        (Makes.sized (style_of style) (size_of size) (class_of class)
        (delimiter_text delimiter)).atom.element
        builder.old builder.new) }
{
    put_sized(builder, style, size, class, delimiter)?;
    match class {
        Class::Relation => Ok(()),
        _ => builder.container(Container::Mrow, Attributes::plain(), 1),
    }
}

/// Puts a delimiter of this size. A relation has space around it, except in scripts.
pub fn put_sized(
    builder: &mut Builder,
    style: Style,
    size: Size,
    class: Class,
    delimiter: Option<char>,
) -> Result<(), AllocError>
    ensures { OnOk result (Puts
        (Fences.sized_delimiter (style_of style) (size_of size) (class_of class)
        (delimiter_text delimiter))
        builder.old builder.new) }
{
    let (form, space) = match class {
        Class::Opening => (Some(Form::Prefix), Space::NoSpace),
        Class::Closing => (Some(Form::Postfix), Space::NoSpace),
        Class::Relation if keeps_space(style) => (None, Space::Thick),
        _ => (None, Space::NoSpace),
    };
    let attributes = Attributes {
        form,
        stretch: Some(Stretch::Stretching),
        size: Some(size),
        space: Some(space),
        room: room(size, delimiter),
        ..Attributes::plain()
    };
    put_delimiter(builder, attributes, delimiter)
}

/// Puts the top element, which is this high, between delimiters.
pub fn enclose(
    builder: &mut Builder,
    height: Height,
    opening: Option<char>,
    closing: Option<char>,
) -> Result<(), AllocError>
    requires { 1 ≤ length (elements_in builder.old) }
    ensures { OnOk result (ReplacesTop
        (Fences.fenced (height_of height) (delimiter_text opening) (delimiter_text closing))
        builder.old builder.new) }
{
    put_fence(builder, height, Form::Prefix, opening)?;
    put_fence(builder, height, Form::Postfix, closing)?;
    builder.fence()
}

/// Puts an operator that opens or closes something of this height, or an empty one.
fn put_fence(
    builder: &mut Builder,
    height: Height,
    form: Form,
    delimiter: Option<char>,
) -> Result<(), AllocError>
    ensures { OnOk result (Puts
        (Fences.fence (height_of height) (form_of form) (delimiter_text delimiter))
        builder.old builder.new) }
{
    let attributes = Attributes {
        form: Some(form),
        stretch: Some(height.stretch()),
        space: fence_space(form, delimiter),
        room: height.room(delimiter),
        ..Attributes::plain()
    };
    put_delimiter(builder, attributes, delimiter)
}

/// Returns the space of a delimiter in this form, if it is not the one that browsers give it.
#[tactic(auto, using(crate::proofs::Rooms::empty_space, crate::proofs::Rooms::space_is))]
fn fence_space(form: Form, delimiter: Option<char>) -> Option<Space>
    ensures { option_map space_of result
        ≡ Fences.fence_space (form_of form) (delimiter_text delimiter) }
{
    let Some(c) = delimiter else {
        return Some(Space::NullDelimiterAfter);
    };
    if is_known(form, c) {
        None
    } else {
        Some(Space::NoSpace)
    }
}

/// Whether browsers know a delimiter in this form.
fn is_known(form: Form, c: char) -> bool
    ensures { result ≡ Fences.is_known (form_of form) c }
{
    match form {
        Form::Prefix => matches!(
            c,
            '(' | '[' | '{' | '|' | '‖' | '⌈' | '⌊' | '⟦' | '⟨' | '⟮' | '⦃'
        ),
        Form::Infix => false,
        Form::Postfix => matches!(
            c,
            ')' | ']' | '}' | '|' | '‖' | '⌉' | '⌋' | '⟧' | '⟩' | '⟯' | '⦄'
        ),
    }
}

/// Makes the dividers among the top `count` elements no higher than a letter.
pub fn lower_dividers(builder: &mut Builder, count: usize)
    ensures { elements_in builder.new
        ≡ mapped_first Makes.lowered_divider count (elements_in builder.old) }
{
    'elements: for depth in 0..count {
        lower_divider(builder, depth);
    }
}

/// Makes the element below the top `depth` elements no higher than a letter, if it is a divider.
fn lower_divider(builder: &mut Builder, depth: usize)
    ensures { ChangesAt Makes.lowered_divider depth builder.old builder.new }
{
    if let Some((_, attributes)) = builder.token_at(depth)
        && attributes.fence
    {
        builder.give(
            depth,
            Attributes {
                stretch: Some(Stretch::Rigid),
                box_style: None,
                room: None,
                ..attributes
            },
        );
    }
}
