//! The elements of atoms, rows and constructs, as the top elements of the builder.
ghost use Rattle.std.specs.Prelude.{◌≡◌, ◌+◌, ◌≤◌, ◌&&◌, ◌∷◌, List, true, zero, pos, IfOk, OnOk, drop, length, option_map, take};
ghost use Rattle.latex2mathml_elements.specs.{Attributes.plain, Element.Element, Element.pair, Element.space};
ghost use Rattle.latex2mathml_elements.specs.Attributes as attributes;
ghost use Rattle.latex2mathml_builder.specs.Built.{Puts, elements_in};
ghost use Rattle.latex2mathml_attributes.specs.Names.{attributes_of, form_of, pair_of, side_of, space_of, stretch_of};
ghost use Rattle.latex2mathml_tex_grammar.specs.Atoms;
ghost use Rattle.latex2mathml_tex_grammar.specs.Heights;
ghost use Rattle.latex2mathml_tex_grammar.specs.Makes;
ghost use Rattle.latex2mathml_tex_grammar.specs.Meaning;
ghost use Rattle.latex2mathml_tex_grammar.specs.Rows;
ghost use Rattle.latex2mathml_tex_commands.specs.Meanings.{class_of, style_of};
ghost use Rattle.latex2mathml_tex_atoms.specs.Models.{before_of, core_with, joining_of, kind_of, row_rest, row_with, top};
ghost use Rattle.latex2mathml_tex_atoms.specs.Shapes.{ChangesAt, ReplacesTop, mark_element};

use crate::atoms::{Before, Core, Joining, Kind, Row};
use crate::operands::before_atom;
use crate::signs::adapt;
use latex2mathml_attributes::attributes::{Attributes, BoxStyle, Form, Side, Space, Stretch};
use latex2mathml_attributes::tag::{Container, Pair, Token};
use latex2mathml_builder::builder::Builder;
use latex2mathml_tex_commands::meaning::{Class, Style};
use std::alloc::AllocError;

/// Returns what the top element is to its neighbours as an ordinary atom.
pub fn ordinary_kind(builder: &Builder) -> Kind
    ensures { kind_of result ≡ Makes.ordinary_kind (top (elements_in builder.now)) }
{
    match builder.token_at(0) {
        Some((Token::Mi, attributes)) if attributes.upright => Kind::UprightIdentifier,
        _ => Kind::Plain(Class::Ordinary),
    }
}

/// Keeps the browser from moving the limits of the operator below the top `depth` elements.
pub fn fix_limits(builder: &mut Builder, depth: usize)
    ensures { ChangesAt (Makes.fixed_base Meaning.Stacked) depth builder.old builder.new }
{
    let Some((tag, attributes)) = builder.token_at(depth) else {
        return;
    };
    if let Token::Mo = tag {
        builder.give(
            depth,
            Attributes {
                limits_stay: true,
                ..attributes
            },
        );
    }
}

/// Makes of the top element, an operand of the class `own`, the element of an atom of the class `class`.
pub fn make_base(builder: &mut Builder, style: Style, class: Class, own: Class)
    ensures elements { ChangesAt
        (Atoms.element_as (style_of style) (class_of class) (class_of own)) 0
        builder.old builder.new }
    ensures length { length (elements_in builder.new) ≡ length (elements_in builder.old) }
{
    match own {
        Class::Binary | Class::Relation => free_sign(builder, style, class),
        _ => {}
    }
}

/// Returns what the top element is to its neighbours as an atom of this class. Only a sign has a space of its own.
pub fn classed_kind(builder: &Builder, class: Class) -> Kind
    ensures { kind_of result
        ≡ Makes.classed_kind (class_of class) (top (elements_in builder.now)) }
{
    match builder.token_at(0) {
        Some((Token::Mo, attributes)) => classed_sign(class, attributes.space),
        _ => classed_other(class),
    }
}

/// Returns what a sign that says this space is to its neighbours, as an atom of this class.
fn classed_sign(class: Class, own: Option<Space>) -> Kind
    ensures { kind_of result
        ≡ Makes.classed_sign (class_of class) (option_map space_of own) }
{
    match (class, own) {
        (Class::Operator, None) => Kind::Plain(Class::Operator),
        (Class::Operator, Some(_)) => Kind::Unspaced(Class::Operator),
        (Class::Binary | Class::Relation | Class::Punctuation, _) => Kind::SignOf(class),
        _ => Kind::Plain(class),
    }
}

/// Returns what an element that is no sign is to its neighbours, as an atom of this class.
fn classed_other(class: Class) -> Kind
    ensures { kind_of result ≡ Makes.classed_other (class_of class) }
{
    match class {
        Class::Operator | Class::Binary | Class::Relation | Class::Punctuation => {
            Kind::Unspaced(class)
        }
        Class::Ordinary | Class::Opening | Class::Closing | Class::Inner => Kind::Plain(class),
    }
}

/// Makes the top element, if it is a sign, one that precedes no operand. It is all of an atom of this class.
fn free_sign(builder: &mut Builder, style: Style, class: Class)
    ensures { ChangesAt (Atoms.lone_sign (style_of style) (class_of class)) 0
        builder.old builder.new }
{
    let Some((tag, attributes)) = builder.token_at(0) else {
        return;
    };
    if let Token::Mo = tag {
        builder.give(
            0,
            Attributes {
                form: form_as(class, attributes.form),
                space: space_as(style, class, attributes.space),
                ..attributes
            },
        );
    }
}

/// Returns the form of a sign that precedes no operand. It is all of an atom of this class.
fn form_as(class: Class, form: Option<Form>) -> Option<Form>
    ensures { option_map form_of result
        ≡ Atoms.form_as (class_of class) (option_map form_of form) }
{
    match (class, form) {
        (Class::Binary | Class::Relation, Some(_)) => Some(Form::Infix),
        _ => None,
    }
}

/// Returns the space around a sign that is all of an atom of this class.
fn space_as(style: Style, class: Class, space: Option<Space>) -> Option<Space>
    ensures { option_map space_of result
        ≡ Atoms.space_as (style_of style) (class_of class) (option_map space_of space) }
{
    match style {
        Style::InScript => Some(Space::NoSpace),
        Style::InDisplay | Style::InText => match class {
            Class::Binary | Class::Relation => space,
            Class::Ordinary
            | Class::Operator
            | Class::Opening
            | Class::Closing
            | Class::Punctuation
            | Class::Inner => Some(Space::NoSpace),
        },
    }
}

/// Gives the top element, if it is a sign, the space of an atom of this class. It was of the class `own`.
pub fn space_sign(builder: &mut Builder, class: Class, own: Class)
    ensures elements { ChangesAt (Makes.spaced_as (class_of class) (class_of own)) 0
        builder.old builder.new }
    ensures length { length (elements_in builder.new) ≡ length (elements_in builder.old) }
{
    let Some((tag, attributes)) = builder.token_at(0) else {
        return;
    };
    if let Token::Mo = tag {
        builder.give(
            0,
            Attributes {
                space: class_space(class, own, attributes.space),
                ..attributes
            },
        );
    }
}

/// Returns the space of a sign that is an atom of this class, and was of the class `own`.
fn class_space(class: Class, own: Class, space: Option<Space>) -> Option<Space>
    ensures { option_map space_of result
        ≡ Makes.class_space (class_of class) (class_of own) (option_map space_of space) }
{
    match (class, own) {
        (Class::Binary, Class::Binary) | (Class::Relation, Class::Relation) => space,
        (Class::Binary, _) => Some(Space::Medium),
        (Class::Relation, _) => Some(Space::Thick),
        (Class::Punctuation, _) => Some(Space::ThinAfter),
        _ => space,
    }
}

/// Returns a row with an atom after it, whose element is the top one.
#[inline(always)]
pub fn with_atom(
    builder: &mut Builder,
    style: Style,
    row: Row,
    core: Core,
) -> Result<Row, AllocError>
    requires { row.count + 1 ≤ length (elements_in builder.old) }
    ensures row { IfOk result (λ longer. row_with longer (elements_in builder.new)
        ≡ Rows.with_atom (style_of style) (row_with row (drop 1 (elements_in builder.old)))
        (core_with core (top (elements_in builder.old))).atom) }
    ensures below { IfOk result (λ longer. drop longer.count (elements_in builder.new)
        ≡ drop (row.count + 1) (elements_in builder.old)) }
    ensures rest { IfOk result (λ longer. row_rest longer ≡ row_rest row) }
    ensures count { IfOk result (λ longer. longer.count ≤ length (elements_in builder.new)) }
{
    let mut longer = row;
    if longer.add(style, core) {
        return Ok(longer);
    }
    let row = before_atom(builder, row, core.kind);
    let joining = core.kind.joining(row.last);
    let count = put_adapted(builder, style, row.count, row.before, joining, core.kind)?;
    Ok(Row {
        count,
        before: row.before.past(core.kind),
        last: core.kind,
        height: row.height.larger(core.height),
        class: class_with(joining, row.class, row.count, core.kind),
        ..row
    })
}

/// Returns the class of a row as the base of a mark, where an atom of this kind follows `count` elements or joins the last one. The
/// row is of this class before.
fn class_with(joining: Joining, class: Class, count: usize, kind: Kind) -> Class
    ensures { (xs : List Element) → count + 1 ≤ length xs → class_of result
        ≡ Rows.class_with (joining_of joining) (class_of class) (take count (drop 1 xs))
        (kind_of kind) }
{
    match joining {
        Joining::ToWord | Joining::ToRelations => class,
        Joining::Separated | Joining::Apart => class_after(count, kind),
    }
}

/// Returns the class of a row as the base of a mark, where an atom of this kind follows `count` elements.
#[inline(always)]
pub(crate) fn class_after(count: usize, kind: Kind) -> Class
    ensures { (xs : List Element) → count + 1 ≤ length xs
        → class_of result ≡ Rows.class_after (take count (drop 1 xs)) (kind_of kind) }
{
    if count == 0 {
        kind.class()
    } else {
        Class::Ordinary
    }
}

/// Makes the top element, which may join the one before it, the last one of a row that has `count` elements. Returns how many
/// it has then.
#[inline(never)]
fn put_adapted(
    builder: &mut Builder,
    style: Style,
    count: usize,
    before: Before,
    joining: Joining,
    kind: Kind,
) -> Result<usize, AllocError>
    requires { count + 1 ≤ length (elements_in builder.old) }
    ensures elements { IfOk result (λ longer. take longer (elements_in builder.new)
        ≡ Rows.put (joining_of joining) (style_of style) (before_of before)
        (Atoms.atom (kind_of kind) Heights.Low (top (elements_in builder.old)))
        (take count (drop 1 (elements_in builder.old)))) }
    ensures below { IfOk result (λ longer. drop longer (elements_in builder.new)
        ≡ drop (count + 1) (elements_in builder.old)) }
    ensures count { IfOk result (λ longer. longer ≤ length (elements_in builder.new)) }
{
    match joining {
        Joining::ToWord => return Ok(join_word(builder, count)),
        Joining::ToRelations => return Ok(join_relations(builder, count)),
        Joining::Separated => return separate(builder, count),
        Joining::Apart => {}
    }
    adapt(builder, 0, style, count == 0, before, kind);
    let gap = before.gap(style, kind);
    if gap != 0 {
        builder.space_below(gap)?;
        // all elements of a row are among those of the builder, so their number fits in a `usize`
        let _ = builder.len();
        return Ok(count + 2);
    }
    let _ = builder.len();
    Ok(count + 1)
}

/// Puts an empty space between the top element and the `count` elements below it. Returns how many elements there are then.
fn separate(builder: &mut Builder, count: usize) -> Result<usize, AllocError>
    requires { count + 1 ≤ length (elements_in builder.old) }
    ensures elements { IfOk result (λ longer. take longer (elements_in builder.new)
        ≡ top (elements_in builder.old) ∷ space (pos zero)
        ∷ take count (drop 1 (elements_in builder.old))) }
    ensures below { IfOk result (λ longer. drop longer (elements_in builder.new)
        ≡ drop (count + 1) (elements_in builder.old)) }
    ensures count { IfOk result (λ longer. longer ≤ length (elements_in builder.new)) }
{
    builder.space_below(0)?;
    let _ = builder.len();
    Ok(count + 2)
}

/// Joins the top element to the last of the `count` elements below it, if there is one and both hold a text. Returns how many
/// there are then. A word of several letters is upright by itself.
fn join_word(builder: &mut Builder, count: usize) -> usize
    requires { count + 1 ≤ length (elements_in builder.old) }
    ensures elements { take result (elements_in builder.new)
        ≡ Rows.join (λ a. plain) (top (elements_in builder.old))
        (take count (drop 1 (elements_in builder.old))) }
    ensures below { drop result (elements_in builder.new)
        ≡ drop (count + 1) (elements_in builder.old) }
    ensures count { result ≤ length (elements_in builder.new) }
{
    if count > 0 && builder.join() {
        return count;
    }
    let _ = builder.len();
    count + 1
}

/// Joins the top element in the same way. The element that it joins keeps its attributes.
fn join_relations(builder: &mut Builder, count: usize) -> usize
    requires { count + 1 ≤ length (elements_in builder.old) }
    ensures elements { take result (elements_in builder.new)
        ≡ Rows.join (λ a. a) (top (elements_in builder.old))
        (take count (drop 1 (elements_in builder.old))) }
    ensures below { drop result (elements_in builder.new)
        ≡ drop (count + 1) (elements_in builder.old) }
    ensures count { result ≤ length (elements_in builder.new) }
{
    if let Some((_, attributes)) = builder.token_at(1)
        && count > 0
        && builder.join()
    {
        builder.give(0, attributes);
        return count;
    }
    let _ = builder.len();
    count + 1
}

/// Puts a mark on the top element.
pub fn put_accent(
    builder: &mut Builder,
    side: Side,
    mark: char,
    stretch: Stretch,
) -> Result<(), AllocError>
    requires { 1 ≤ length (elements_in builder.old) }
    ensures { OnOk result (ReplacesTop
        (Makes.accented (side_of side) mark (stretch_of stretch))
        builder.old builder.new) }
{
    let attributes = Attributes {
        accent: Some(side),
        ..Attributes::plain()
    };
    put_mark(builder, side, mark, stretch, attributes)
}

/// Puts a brace on the top element.
pub fn put_brace(builder: &mut Builder, side: Side, mark: char) -> Result<(), AllocError>
    requires { 1 ≤ length (elements_in builder.old) }
    ensures { OnOk result (ReplacesTop (λ x. (Makes.brace (side_of side) mark x).atom.element)
        builder.old builder.new) }
{
    put_mark(
        builder,
        side,
        mark,
        Stretch::Stretching,
        Attributes::plain(),
    )
}

fn put_mark(
    builder: &mut Builder,
    side: Side,
    mark: char,
    stretch: Stretch,
    attributes: Attributes,
) -> Result<(), AllocError>
    requires { 1 ≤ length (elements_in builder.old) }
    ensures { OnOk result (ReplacesTop
        (λ x. Makes.on_side (side_of side) (attributes_of attributes) x
        (mark_element mark (stretch_of stretch))) builder.old builder.new) }
{
    builder.character(Token::Mo, mark_attributes(stretch), mark)?;
    builder.pair(pair_on(side), attributes, false)
}

/// Returns the attributes of a mark.
pub(crate) fn mark_attributes(stretch: Stretch) -> Attributes
    ensures { attributes_of result ≡ Makes.mark_attributes (stretch_of stretch) }
{
    let box_style = match stretch {
        Stretch::Stretching => Some(BoxStyle::Unclipped),
        Stretch::Rigid => None,
    };
    Attributes {
        stretch: Some(stretch),
        box_style,
        ..Attributes::plain()
    }
}

/// Makes the element below the top one a mark on the top one.
pub fn put_stack(builder: &mut Builder, side: Side) -> Result<(), AllocError>
    requires { 2 ≤ length (elements_in builder.old) }
    ensures { OnOk result (elements_in builder.new
        ≡ Makes.on_side (side_of side) plain (top (elements_in builder.old))
        (top (drop 1 (elements_in builder.old))) ∷ drop 2 (elements_in builder.old)) }
{
    builder.pair(pair_on(side), Attributes::plain(), true)
}

/// Puts a mark of `primes` primes.
pub fn put_primes(builder: &mut Builder, primes: usize) -> Result<(), AllocError>
    ensures { OnOk result (Puts (Makes.prime_mark primes) builder.old builder.new) }
{
    let attributes = Attributes {
        space: Some(Space::NoSpace),
        ..Attributes::plain()
    };
    match primes {
        2 => builder.character(Token::Mo, attributes, '″'),
        3 => builder.character(Token::Mo, attributes, '‴'),
        4 => builder.character(Token::Mo, attributes, '⁗'),
        primes => {
            builder.token(Token::Mo, attributes)?;
            for _ in 0..primes {
                builder.push('′')?;
            }
            Ok(())
        }
    }
}

/// Returns the element for a mark on this side of its base.
fn pair_on(side: Side) -> Pair
    ensures { (a : attributes.Attributes) (x y : Element)
        → Makes.on_side (side_of side) a x y ≡ pair (pair_of result) a x y }
{
    match side {
        Side::Above => Pair::Mover,
        Side::Below => Pair::Munder,
    }
}
