//! Signs: how they are adapted to their position in a row.
ghost use Rattle.std.specs.Prelude.{◌≡◌, ◌≢◌, Bool, false, IsTrue, option_map, pos};
ghost use Rattle.latex2mathml_attributes.specs.Names.{space_of};
ghost use Rattle.latex2mathml_elements.specs.Element.{Element};
ghost use Rattle.latex2mathml_tex_grammar.specs.Atoms;
ghost use Rattle.latex2mathml_tex_grammar.specs.Symbols;
ghost use Rattle.latex2mathml_tex_grammar.specs.Symbols.{Relation};
ghost use Rattle.latex2mathml_tex_commands.specs.Meanings.{class_of, style_of};
ghost use Rattle.latex2mathml_tex_atoms.specs.Models.{before_of, kind_of};
ghost use Rattle.latex2mathml_tex_atoms.specs.Shapes.{ChangesAt};

use crate::atoms::{Before, Kind};
use latex2mathml_attributes::attributes::{Attributes, Form, Space};
use latex2mathml_builder::builder::Builder;
use latex2mathml_tex_commands::meaning::{Class, Style};

/// Whether the element of an atom there stays as it is, with no space before it. That of most atoms does.
#[inline(always)]
pub(crate) fn is_put_as_it_is(style: Style, first: bool, before: Before, kind: Kind) -> bool
    ensures word { IsTrue result → kind ≢ Kind.UprightLetters }
    ensures letter { IsTrue result → kind ≢ Kind.UprightIdentifier }
    ensures gap { IsTrue result
        → Atoms.gap (style_of style) (before_of before) (kind_of kind) ≡ pos 0 }
    ensures element { (x : Element) → IsTrue result
        → Atoms.element_there (style_of style) first (before_of before) (kind_of kind) x ≡ x }
{
    if let Before::AfterUnspaced(_) | Before::After(Class::Inner) = before {
        return false;
    }
    match kind {
        Kind::Plain(Class::Ordinary) => true,
        Kind::Plain(Class::Operator | Class::Opening | Class::Closing | Class::Punctuation) => {
            !before.begins_operand()
        }
        Kind::Plain(_) | Kind::SignOf(Class::Inner) => false,
        Kind::SignOf(Class::Ordinary) => keeps_space(style),
        Kind::SignOf(Class::Opening) => {
            keeps_space(style) && !matches!(before, Before::After(Class::Operator))
        }
        Kind::SignOf(Class::Binary) => keeps_space(style) && !is_ordinary(first, before),
        Kind::SignOf(_) => keeps_space(style) && !before.begins_operand(),
        Kind::PlusOrMinus => keeps_space(style) && !first && !before.begins_operand(),
        Kind::UprightLetters
        | Kind::UprightIdentifier
        | Kind::Unspaced(_)
        | Kind::Divider
        | Kind::Blank => false,
    }
}

/// Whether a binary sign is ordinary, as it is where no binary operator can be, unless it begins a group.
#[inline(always)]
fn is_ordinary(first: bool, before: Before) -> bool
    ensures { result ≡ Atoms.is_ordinary first (before_of before) }
{
    match before {
        Before::Nothing => !first,
        _ => before.begins_operand(),
    }
}

/// Whether signs keep the space around them.
#[inline(always)]
pub(crate) fn keeps_space(style: Style) -> bool
    ensures tight { (x : Element) → IsTrue result → Atoms.tight (style_of style) x ≡ x }
    ensures script { result ≡ false → style ≡ Style.InScript }
    ensures other { IsTrue result → style ≢ Style.InScript }
{
    !matches!(style, Style::InScript)
}

/// Adapts the element of an atom to its position. It has `depth` others above it. A sign may be a prefix, or between two operands.
/// In scripts it has no space, nor has a binary sign where no binary operator can be. The element may be the first of its row.
pub fn adapt(
    builder: &mut Builder,
    depth: usize,
    style: Style,
    first: bool,
    before: Before,
    kind: Kind,
)
    ensures { ChangesAt
        (Atoms.element_there (style_of style) first (before_of before) (kind_of kind)) depth
        builder.old builder.new }
{
    match kind {
        Kind::SignOf(class) => adapt_sign(builder, depth, style, first, before, class),
        Kind::Plain(class) => adapt_plain(builder, depth, before, class),
        Kind::PlusOrMinus => {
            if before.begins_operand() {
                make_prefix(builder, depth);
            } else {
                make_infix(builder, depth, first);
                tighten(builder, depth, style);
            }
        }
        _ => {}
    }
}

/// Adapts an element that is a sign of this class.
fn adapt_sign(
    builder: &mut Builder,
    depth: usize,
    style: Style,
    first: bool,
    before: Before,
    class: Class,
)
    ensures { ChangesAt (Atoms.element_there (style_of style) first (before_of before)
        (Atoms.SignOf (class_of class))) depth builder.old builder.new }
{
    match class {
        Class::Binary if is_ordinary(first, before) => remove_space(builder, depth),
        Class::Relation => {
            lead(builder, depth, before.leads_relation());
            tighten(builder, depth, style);
        }
        Class::Binary | Class::Punctuation => tighten(builder, depth, style),
        Class::Operator => lead(builder, depth, before.leads_operator()),
        _ => {}
    }
}

/// Adapts an element of this class that is not a sign of its own. Only an operator may change.
fn adapt_plain(builder: &mut Builder, depth: usize, before: Before, class: Class)
    ensures { (style : Symbols.Style) (first : Bool) → ChangesAt
        (Atoms.element_there style first (before_of before) (Atoms.Plain (class_of class)))
        depth builder.old builder.new }
{
    match class {
        Class::Operator => lead(builder, depth, before.leads_operator()),
        _ => {}
    }
}

/// Removes the space around a sign, if the style is that of scripts.
fn tighten(builder: &mut Builder, depth: usize, style: Style)
    ensures { ChangesAt (Atoms.tight (style_of style)) depth builder.old builder.new }
{
    match style {
        Style::InScript => remove_space(builder, depth),
        Style::InDisplay | Style::InText => {}
    }
}

/// Removes the space around a sign.
pub(crate) fn remove_space(builder: &mut Builder, depth: usize)
    ensures { ChangesAt Atoms.without_space depth builder.old builder.new }
{
    if let Some((_, attributes)) = builder.token_at(depth) {
        builder.give(
            depth,
            Attributes {
                space: Some(Space::NoSpace),
                ..attributes
            },
        );
    }
}

/// Removes the space before a sign, if it leads what follows it.
fn lead(builder: &mut Builder, depth: usize, leads: bool)
    ensures { ChangesAt (Atoms.led leads) depth builder.old builder.new }
{
    if leads && let Some((_, attributes)) = builder.token_at(depth) {
        builder.give(
            depth,
            Attributes {
                space: only_after(attributes.space),
                ..attributes
            },
        );
    }
}

/// Returns the space of a sign that has none before it.
fn only_after(space: Option<Space>) -> Option<Space>
    ensures { option_map space_of result ≡ Atoms.only_after (option_map space_of space) }
{
    match space {
        None => Some(Space::NoSpaceBefore),
        Some(Space::Thick) => Some(Space::ThickAfter),
        space => space,
    }
}

/// Removes the space after a sign.
pub(crate) fn remove_space_after(builder: &mut Builder, depth: usize)
    ensures { ChangesAt Atoms.without_space_after depth builder.old builder.new }
{
    if let Some((_, attributes)) = builder.token_at(depth) {
        builder.give(
            depth,
            Attributes {
                space: only_before(attributes.space),
                ..attributes
            },
        );
    }
}

/// Returns the space of a sign that has none after it.
fn only_before(space: Option<Space>) -> Option<Space>
    ensures { option_map space_of result ≡ Atoms.only_before (option_map space_of space) }
{
    match space {
        None => Some(Space::NoSpaceAfter),
        Some(Space::Thick) => Some(Space::ThickBefore),
        Some(Space::NoSpaceBefore | Space::ThinAfter | Space::ThickAfter) => Some(Space::NoSpace),
        space => space,
    }
}

fn make_prefix(builder: &mut Builder, depth: usize)
    ensures { ChangesAt Atoms.as_prefix depth builder.old builder.new }
{
    if let Some((_, attributes)) = builder.token_at(depth) {
        builder.give(
            depth,
            Attributes {
                form: Some(Form::Prefix),
                ..attributes
            },
        );
    }
}

/// Makes an element a sign between two operands. It may be the first of its row.
fn make_infix(builder: &mut Builder, depth: usize, first: bool)
    ensures { ChangesAt (Atoms.as_infix first) depth builder.old builder.new }
{
    if first && let Some((_, attributes)) = builder.token_at(depth) {
        builder.give(
            depth,
            Attributes {
                form: Some(Form::Infix),
                ..attributes
            },
        );
    }
}
