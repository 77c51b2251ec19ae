//! What becomes of a row at a change, before what follows the change, and at the end of the group.
ghost use Rattle.std.specs.Prelude.{◌≡◌, ◌≤◌, ◌+◌, ◌∷◌, IfOk, List, None, OnOk, Some, drop, length, option_map, take};
ghost use Rattle.latex2mathml_elements.specs.Element.{Element};
ghost use Rattle.latex2mathml_attributes.specs.Arounds.{color_of};
ghost use Rattle.latex2mathml_builder.specs.Built.{elements_in};
ghost use Rattle.latex2mathml_tex_grammar.specs.Rests;
ghost use Rattle.latex2mathml_tex_grammar.specs.Rows;
ghost use Rattle.latex2mathml_tex_commands.specs.Meanings.{fraction_rule_of, style_of, text_size_of};
ghost use Rattle.latex2mathml_tex_commands.specs.declared.meaning.Class.TheVariants as class;
ghost use Rattle.latex2mathml_tex_atoms.specs.Models.{context_of, look_of, row_count, row_with, words_with};

use crate::atoms::{Before, Context, Kind, Row, Words};
use crate::fractions::{put_fraction, style_attributes};
use crate::heights::Height;
use crate::operands::end_operand;
use crate::rows::{isolate, put_row};
use latex2mathml_attributes::around::{Around, Color};
use latex2mathml_attributes::tag::Container;
use latex2mathml_builder::builder::Builder;
use latex2mathml_tex_commands::meaning::{Class, FractionRule, Style, TextSize};
use std::alloc::AllocError;

/// How what follows a change in a group looks.
#[derive(Clone, Copy)]
pub struct Look {
    /// The style of the group.
    pub group: Style,
    /// The size of the group's letters.
    pub group_size: TextSize,
    /// Whether the style was changed.
    pub has_own_style: bool,
    /// The color, if there is one.
    pub color: Option<Color>,
    /// How large letters are, in thousandths of those of the group, if they are not of the same size.
    pub scale: Option<u16>,
}

/// A fraction that is divided within its group, as by `\over`.
#[derive(Clone, Copy)]
pub struct Division {
    pub rule: FractionRule,
    pub style: Style,
}

impl Row {
    /// Returns the look of the row's last atoms, where the row is now read in this context.
    pub fn look(self, context: Context) -> Look
        ensures { (xs : List Element) → look_of result
            ≡ Rests.look_after (row_with self xs).restyled (context_of context) }
    {
        match self.restyled {
            Some(look) => look,
            None => Look::of(context),
        }
    }

    /// Returns the row as one of `count` elements, none of which follows a change.
    fn unchanged(self, count: usize) -> Row
        ensures { result
            ≡ record self { count = count; class = class.Ordinary; restyled = None; settled = 0 } }
    {
        Row {
            count,
            class: Class::Ordinary,
            restyled: None,
            settled: 0,
            ..self
        }
    }
}

impl Look {
    /// Returns the look of what is read in this context before any change.
    fn of(context: Context) -> Look
        ensures { look_of result ≡ Rests.look_after None (context_of context) }
    {
        Look {
            group: context.style,
            group_size: context.size,
            has_own_style: false,
            color: None,
            scale: None,
        }
    }

    /// Returns the look of letters of this size, where they were in this style: those of a script get their full size.
    pub fn with_size(self, size: TextSize, style: Style) -> Look
        ensures { look_of result
            ≡ Rests.with_size (text_size_of size) (style_of style) (look_of self) }
    {
        Look {
            has_own_style: self.has_own_style || style.is_script(),
            scale: size.scale_of(self.group_size),
            ..self
        }
    }

    /// Returns the context of the lower part of a fraction, which is a whole group of this look and was read in `context`.
    pub fn context_below(self, context: Context) -> Context
        ensures { context_of result ≡ Rests.context_below (context_of context) (look_of self) }
    {
        Context {
            style: self.group.smaller(),
            size: self.group_size,
            ..context
        }
    }
}

/// Makes one element of the top `count` elements, which follow a change, look like this and are read in this style.
fn put_drawn(
    builder: &mut Builder,
    style: Style,
    look: Look,
    count: usize,
) -> Result<(), AllocError>
    requires { count ≤ length (elements_in builder.old) }
    ensures { OnOk result (elements_in builder.new ≡ Rests.drawn (look_of look) (style_of style)
        (take count (elements_in builder.old)) ∷ drop count (elements_in builder.old)) }
{
    let count = put_scaled(builder, look.scale, count)?;
    put_colored(builder, style, look, count)
}

/// Makes one element of the top `count` elements, if their letters have another size than those around them. Returns how many
/// elements they are then.
fn put_scaled(builder: &mut Builder, scale: Option<u16>, count: usize) -> Result<usize, AllocError>
    requires { count ≤ length (elements_in builder.old) }
    ensures elements { IfOk result (λ n. take n (elements_in builder.new)
        ≡ Rests.scaled scale (take count (elements_in builder.old))) }
    ensures below { IfOk result (λ n. drop n (elements_in builder.new)
        ≡ drop count (elements_in builder.old)) }
    ensures count { IfOk result (λ n. n ≤ length (elements_in builder.new)) }
{
    let Some(scale) = scale else {
        return Ok(count);
    };
    put_row(builder, count)?;
    builder.surround(Around::Scaled(scale))?;
    Ok(1)
}

/// Makes one element of the top `count` elements, which has their color and their own style, if they have these.
fn put_colored(
    builder: &mut Builder,
    style: Style,
    look: Look,
    count: usize,
) -> Result<(), AllocError>
    requires { count ≤ length (elements_in builder.old) }
    ensures { OnOk result (elements_in builder.new
        ≡ Rests.in_color (option_map color_of look.color)
        (Rests.in_own_style look.has_own_style (style_of style)
        (take count (elements_in builder.old))) ∷ drop count (elements_in builder.old)) }
{
    put_styled(builder, style, look, count)?;
    if let Some(color) = look.color {
        builder.surround(Around::Colored(color))?;
    }
    Ok(())
}

/// Makes one element of the top `count` elements, which are in this style if it is their own.
fn put_styled(
    builder: &mut Builder,
    style: Style,
    look: Look,
    count: usize,
) -> Result<(), AllocError>
    requires { count ≤ length (elements_in builder.old) }
    ensures { OnOk result (elements_in builder.new
        ≡ Rests.in_own_style look.has_own_style (style_of style)
        (take count (elements_in builder.old)) ∷ drop count (elements_in builder.old)) }
{
    if look.has_own_style {
        return builder.container(Container::Mstyle, style_attributes(style), count);
    }
    put_row(builder, count)
}

/// Makes one element of what follows the last change, if anything does, in a row that is read in this style.
fn settle(builder: &mut Builder, style: Style, row: Row) -> Result<Row, AllocError>
    requires { row_count row ≤ length (elements_in builder.old) }
    ensures row { IfOk result (λ whole. row_with whole (elements_in builder.new)
        ≡ Rests.settled (style_of style) (row_with row (elements_in builder.old))) }
    ensures below { IfOk result (λ whole. drop (row_count whole) (elements_in builder.new)
        ≡ drop (row_count row) (elements_in builder.old)) }
    ensures restyled { IfOk result (λ whole. whole.restyled ≡ None) }
    ensures under { IfOk result (λ whole. whole.under ≡ row.under) }
    ensures count { IfOk result (λ whole. row_count whole ≤ length (elements_in builder.new)) }
{
    let Some(look) = row.restyled else {
        return Ok(row);
    };
    if row.count == 0 {
        return Ok(row.unchanged(row.settled));
    }
    put_drawn(builder, style, look, row.count)?;
    // all elements of a row are among those of the builder, so their number fits in a `usize`
    let _ = builder.len();
    Ok(row.unchanged(row.settled + 1))
}

/// Returns a row that was read in this style, ready for what follows a change and looks like this.
pub fn begin_anew(
    builder: &mut Builder,
    style: Style,
    row: Row,
    look: Look,
) -> Result<Row, AllocError>
    requires { row_count row ≤ length (elements_in builder.old) }
    ensures row { IfOk result (λ begun. row_with begun (elements_in builder.new)
        ≡ Rests.begun_anew (look_of look)
        (Rests.settled (style_of style) (row_with row (elements_in builder.old)))) }
    ensures below { IfOk result (λ begun. drop (row_count begun) (elements_in builder.new)
        ≡ drop (row_count row) (elements_in builder.old)) }
    ensures count { IfOk result (λ begun. row_count begun ≤ length (elements_in builder.new)) }
{
    let whole = settle(builder, style, row)?;
    Ok(Row {
        count: 0,
        last: Kind::Blank,
        height: Height::Tall.larger(whole.height),
        restyled: Some(look),
        settled: whole.count,
        ..whole
    })
}

/// Returns the row of the lower part of this fraction, whose upper part is a row that was read in this style.
pub fn divide(
    builder: &mut Builder,
    style: Style,
    row: Row,
    fraction: Division,
) -> Result<Row, AllocError>
    requires count { row_count row ≤ length (elements_in builder.old) }
    requires none { row.under ≡ None }
    ensures row { IfOk result (λ begun. row_with begun (elements_in builder.new)
        ≡ Rests.begun_below (fraction_rule_of fraction.rule) (style_of fraction.style)
        (Rests.settled (style_of style)
        (Rows.with_operand_ended (row_with row (elements_in builder.old))))) }
    ensures below { IfOk result (λ begun. drop (row_count begun) (elements_in builder.new)
        ≡ drop (row_count row) (elements_in builder.old)) }
    ensures count { IfOk result (λ begun. row_count begun ≤ length (elements_in builder.new)) }
{
    let row = end_operand(builder, row);
    let whole = settle(builder, style, row)?;
    put_row(builder, whole.count)?;
    Ok(Row {
        under: Some(fraction),
        ..Row::empty()
    })
}

/// Removes the space around a sign that is all of a row, if a change precedes it. Without a change, what
/// encloses the row does so.
fn isolate_changed(builder: &mut Builder, row: Row)
    requires { row_count row ≤ length (elements_in builder.old) }
    ensures row { row_with row (elements_in builder.new)
        ≡ Rests.with_sign_alone (row_with row (elements_in builder.old)) }
    ensures below { drop (row_count row) (elements_in builder.new)
        ≡ drop (row_count row) (elements_in builder.old) }
    ensures length { length (elements_in builder.new) ≡ length (elements_in builder.old) }
{
    let Some(_) = row.restyled else {
        return;
    };
    if row.settled == 0 {
        isolate(builder, row.count, row.last);
    }
}

/// Makes one element of the top `count` elements, if there are any, which are words after a change to this size in words that are
/// read in this context. Returns the words with it, of which `before` elements precede the change.
pub fn put_resized(
    builder: &mut Builder,
    size: TextSize,
    context: Context,
    count: usize,
    before: usize,
) -> Result<Words, AllocError>
    requires { count + before ≤ length (elements_in builder.old) }
    ensures words { IfOk result (λ words. words_with words (elements_in builder.new)
        ≡ Rests.with_resized (text_size_of size) (context_of context)
        (take before (drop count (elements_in builder.old)))
        (take count (elements_in builder.old))) }
    ensures below { IfOk result (λ words. drop words.count (elements_in builder.new)
        ≡ drop before (drop count (elements_in builder.old))) }
    ensures grown { IfOk result (λ words. length (elements_in builder.new) + (count + before)
        ≡ length (elements_in builder.old) + words.count) }
{
    if count == 0 {
        return Ok(Words::of(before));
    }
    let look = Look::of(context).with_size(size, context.style);
    put_drawn(builder, context.style.at_full_size(), look, count)?;
    // all elements of words are among those of the builder, so their number fits in a `usize`
    let _ = builder.len();
    Ok(Words::of(before + 1))
}

/// Finishes a row that was read in this style, at the end of its group. Most rows are finished already.
#[inline(always)]
pub fn finish(builder: &mut Builder, style: Style, row: Row) -> Result<Row, AllocError>
    requires { row_count row ≤ length (elements_in builder.old) }
    ensures row { IfOk result (λ whole. row_with whole (elements_in builder.new)
        ≡ Rests.finished (style_of style) (row_with row (elements_in builder.old))) }
    ensures below { IfOk result (λ whole. drop whole.count (elements_in builder.new)
        ≡ drop (row_count row) (elements_in builder.old)) }
    ensures count { IfOk result (λ whole. whole.count ≤ length (elements_in builder.new)) }
{
    let row = end_operand(builder, row);
    match (row.restyled, row.under) {
        (None, None) => Ok(row),
        _ => finish_changed(builder, style, row),
    }
}

/// Finishes a row in which there was a change, or which is the lower part of a fraction. Its last operand has ended.
#[inline(never)]
fn finish_changed(builder: &mut Builder, style: Style, row: Row) -> Result<Row, AllocError>
    requires { row_count row ≤ length (elements_in builder.old) }
    ensures row { IfOk result (λ whole. row_with whole (elements_in builder.new)
        ≡ Rests.whole_fraction (Rests.settled (style_of style)
        (Rests.with_sign_alone (row_with row (elements_in builder.old))))) }
    ensures below { IfOk result (λ whole. drop whole.count (elements_in builder.new)
        ≡ drop (row_count row) (elements_in builder.old)) }
    ensures count { IfOk result (λ whole. whole.count ≤ length (elements_in builder.new)) }
{
    isolate_changed(builder, row);
    let row = settle(builder, style, row)?;
    close_fraction(builder, row)
}

/// Returns a row in which no change is open, as a fraction if it is the lower part of one.
fn close_fraction(builder: &mut Builder, row: Row) -> Result<Row, AllocError>
    requires count { row_count row ≤ length (elements_in builder.old) }
    requires none { row.restyled ≡ None }
    ensures row { IfOk result (λ whole. row_with whole (elements_in builder.new)
        ≡ Rests.whole_fraction (row_with row (elements_in builder.old))) }
    ensures below { IfOk result (λ whole. drop whole.count (elements_in builder.new)
        ≡ drop (row_count row) (elements_in builder.old)) }
    ensures count { IfOk result (λ whole. whole.count ≤ length (elements_in builder.new)) }
{
    let Some(fraction) = row.under else {
        return Ok(row);
    };
    put_row(builder, row.count)?;
    put_fraction(builder, fraction.rule, None, fraction.style)?;
    Ok(Row {
        count: 1,
        before: Before::After(Class::Ordinary),
        last: Kind::Plain(Class::Ordinary),
        height: Height::of_fraction(fraction.style),
        ..Row::empty()
    })
}
