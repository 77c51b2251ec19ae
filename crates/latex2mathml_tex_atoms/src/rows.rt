//! Rows as elements, as the top elements of the builder.
ghost use Rattle.std.specs.Prelude.{◌≡◌, ◌≤◌, ◌∷◌, OnOk, drop, length, option_map, take};
ghost use Rattle.latex2mathml_builder.specs.Built.{Puts, elements_in};
ghost use Rattle.latex2mathml_attributes.specs.Names.{form_of, space_of};
ghost use Rattle.latex2mathml_tex_grammar.specs.Rows;
ghost use Rattle.latex2mathml_tex_atoms.specs.{Models.kind_of, Shapes.is_spaced_sign_at};

use crate::atoms::Kind;
use crate::signs::{remove_space, remove_space_after};
use latex2mathml_attributes::attributes::{Attributes, Form, Space};
use latex2mathml_attributes::tag::{Container, Token};
use latex2mathml_builder::builder::Builder;
use std::alloc::AllocError;

/// Makes one element of the top `count` elements.
pub fn put_row(builder: &mut Builder, count: usize) -> Result<(), AllocError>
    requires { count ≤ length (elements_in builder.old) }
    ensures { OnOk result (elements_in builder.new
        ≡ Rows.row_element (take count (elements_in builder.old))
        ∷ drop count (elements_in builder.old)) }
{
    if count == 1 {
        return Ok(());
    }
    if !are_like_sign(builder, count) {
        return builder.container(Container::Mrow, Attributes::plain(), count);
    }
    put_empty_operator(builder)?;
    let _ = builder.len();
    builder.container(Container::Mrow, Attributes::plain(), count + 1)
}

/// Puts an operator that is empty and has no space.
pub(crate) fn put_empty_operator(builder: &mut Builder) -> Result<(), AllocError>
    ensures { OnOk result (Puts Rows.empty_operator builder.old builder.new) }
{
    let attributes = Attributes {
        space: Some(Space::NoSpace),
        ..Attributes::plain()
    };
    builder.token(Token::Mo, attributes)
}

/// Whether MathML takes a row of the top `count` elements for a sign: one of them is one, and the others are words and spaces.
fn are_like_sign(builder: &Builder, count: usize) -> bool
    requires { count ≤ length (elements_in builder.now) }
    ensures { result ≡ Rows.are_like_sign (take count (elements_in builder.now)) }
{
    let mut has_sign = false;
    'elements: for depth in 0..count {
        if is_spaced_sign(builder, depth) {
            if has_sign {
                return false;
            }
            has_sign = true;
        } else if !builder.is_space_at(depth) {
            return false;
        }
    }
    has_sign
}

/// Whether the element below `depth` others is a sign with space at its sides.
fn is_spaced_sign(builder: &Builder, depth: usize) -> bool
    ensures { result ≡ is_spaced_sign_at depth (elements_in builder.now) }
{
    let Some((tag, attributes)) = builder.token_at(depth) else {
        return false;
    };
    let Token::Mo = tag else {
        return false;
    };
    has_space(attributes.form, attributes.space)
}

/// Whether a sign of this form and space has space at its sides.
fn has_space(form: Option<Form>, space: Option<Space>) -> bool
    ensures { result ≡ Rows.has_space (option_map form_of form) (option_map space_of space) }
{
    match (form, space) {
        (Some(Form::Prefix | Form::Postfix), _) | (_, Some(Space::NoSpace)) => false,
        _ => true,
    }
}

/// Removes the space around a sign that is all of a row in braces, a cell or a formula, and the space after a relation or a comma at
/// its end. The last atom of the row is of this kind.
pub fn isolate(builder: &mut Builder, count: usize, last: Kind)
    requires { count ≤ length (elements_in builder.old) }
    ensures row { take count (elements_in builder.new)
        ≡ Rows.lone (kind_of last) (take count (elements_in builder.old)) }
    ensures below { drop count (elements_in builder.new) ≡ drop count (elements_in builder.old) }
    ensures length { length (elements_in builder.new) ≡ length (elements_in builder.old) }
{
    if count == 1 && last.is_spaced() {
        remove_space(builder, 0);
    } else if count > 1 && last.leaves_space() {
        remove_space_after(builder, 0);
    }
}

/// Makes one element of the top ones, which are those of a row in braces. A sign that is all of it has no space.
pub fn put_braced(builder: &mut Builder, count: usize, last: Kind) -> Result<(), AllocError>
    requires { count ≤ length (elements_in builder.old) }
    ensures { OnOk result (elements_in builder.new
        ≡ Rows.row_element (Rows.lone (kind_of last) (take count (elements_in builder.old)))
        ∷ drop count (elements_in builder.old)) }
{
    isolate(builder, count, last);
    put_row(builder, count)
}
