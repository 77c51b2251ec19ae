//! Elements that are built and written.
ghost use Rattle.std.specs.Prelude.{◌≡◌, ◌≤◌, suc, OnOk, length};
ghost use Rattle.latex2mathml_builder.specs.Built.{elements_in};

use latex2mathml_attributes::attributes::{
    Attributes, Form, MathStyle, Side, Size, Space, Stretch,
};
use latex2mathml_attributes::columns::{Alignment, Columns, Density};
use latex2mathml_attributes::line::Line;
use latex2mathml_attributes::listed::ListedColumn;
use latex2mathml_attributes::tag::{Container, Pair, Token, Triple};
use latex2mathml_builder::builder::Builder;
use latex2mathml_builder::works::Works;
use std::alloc::{AllocError, Global};
use std::test::Fail;

/// Returns the markup of the `count` uppermost elements.
fn markup(alloc: Global, builder: &Builder, count: usize) -> Result<String, AllocError>
    requires { count ≤ length (elements_in builder.now) }
{
    let mut works = Works::new(alloc);
    let mut out = String::new(alloc);
    builder.write(count, &mut works, &mut out)?;
    Ok(out)
}

/// Fails with the markup of the `count` uppermost elements unless it is this one.
fn expect(alloc: Global, builder: &Builder, count: usize, expected: &str) -> Result<(), Fail>
    requires { count ≤ length (elements_in builder.now) }
{
    let out = markup(alloc, builder, count)?;
    if out.as_str() == expected {
        Ok(())
    } else {
        Err(Fail::new(out))
    }
}

/// Pushes a row of a letter, a fraction without a line, and a space.
fn push_fraction_in_a_row(builder: &mut Builder) -> Result<(), AllocError>
    ensures { OnOk result (1 ≤ length (elements_in builder.new)) }
{
    let plain = Attributes::plain();
    let upright = Attributes {
        upright: true,
        ..plain
    };
    let sign = Attributes {
        form: Some(Form::Prefix),
        stretch: Some(Stretch::Rigid),
        space: Some(Space::Narrow),
        ..plain
    };
    let without_line = Attributes {
        no_line: true,
        ..plain
    };
    builder.character(Token::Mi, upright, 'x')?;
    builder.text(Token::Mo, sign, "<&")?;
    builder.push('é')?;
    builder.token(Token::Mn, plain)?;
    builder.push_str("12")?;
    builder.pair(Pair::Mfrac, without_line, false)?;
    builder.space(-3)?;
    builder.container(Container::Mrow, plain, 3)
}

#[test]
fn fraction_in_a_row(rt: HostRuntime) -> Result<(), Fail> {
    let mut builder = Builder::new(rt.alloc());
    push_fraction_in_a_row(&mut builder)?;
    expect(
        rt.alloc(),
        &builder,
        1,
        "<mrow><mi mathvariant=\"normal\">x</mi><mfrac linethickness=\"0\"><mo form=\"prefix\" stretchy=\"false\" lspace=\"0.05em\" rspace=\"0.05em\">&lt;&amp;é</mo><mn>12</mn></mfrac><mspace style=\"margin-left: -0.167em\"/></mrow>",
    )
}

/// Pushes an operator with two limits that stay below and above it.
fn push_operator_with_limits(builder: &mut Builder) -> Result<(), AllocError>
    ensures { OnOk result (1 ≤ length (elements_in builder.new)) }
{
    let plain = Attributes::plain();
    let limits = Attributes {
        limits_stay: true,
        ..plain
    };
    builder.text(Token::Mo, plain, "∑")?;
    builder.text(Token::Mi, plain, "n")?;
    builder.text(Token::Mn, plain, "0")?;
    builder.give(2, limits);
    builder.triple(Triple::Munderover, plain, true)
}

#[test]
fn operator_with_limits(rt: HostRuntime) -> Result<(), Fail> {
    let mut builder = Builder::new(rt.alloc());
    push_operator_with_limits(&mut builder)?;
    expect(
        rt.alloc(),
        &builder,
        1,
        "<munderover><mo movablelimits=\"false\">∑</mo><mn>0</mn><mi>n</mi></munderover>",
    )?;
    assert!(rt; builder.token_at(0).is_none());
    Ok(())
}

/// Pushes a letter between parentheses.
fn push_fence(builder: &mut Builder) -> Result<(), AllocError>
    ensures { OnOk result (length (elements_in builder.new)
        ≡ suc (length (elements_in builder.old))) }
{
    let plain = Attributes::plain();
    builder.text(Token::Mi, plain, "b")?;
    builder.text(Token::Mo, plain, "(")?;
    builder.text(Token::Mo, plain, ")")?;
    builder.fence()
}

#[test]
fn space_below_and_fence(rt: HostRuntime) -> Result<(), Fail> {
    let mut builder = Builder::new(rt.alloc());
    push_fence(&mut builder)?;
    assert!(rt; builder.len() == 1);
    builder.space_below(18)?;
    assert!(rt; builder.token_at(0).is_none() && builder.len() == 2);
    expect(
        rt.alloc(),
        &builder,
        2,
        "<mspace width=\"1em\"/><mrow><mo>(</mo><mi>b</mi><mo>)</mo></mrow>",
    )
}

/// Pushes a letter, which is the second of three.
fn push_kept(builder: &mut Builder) -> Result<(), AllocError>
    ensures { OnOk result (length (elements_in builder.new)
        ≡ suc (length (elements_in builder.old))) }
{
    let plain = Attributes::plain();
    builder.text(Token::Mi, plain, "a")?;
    builder.text(Token::Mi, plain, "b")?;
    builder.text(Token::Mi, plain, "c")?;
    builder.keep(1, 3)
}

#[test]
fn others_are_lost(rt: HostRuntime) -> Result<(), Fail> {
    let mut builder = Builder::new(rt.alloc());
    push_kept(&mut builder)?;
    assert!(rt; builder.len() == 1);
    builder.text(Token::Mi, Attributes::plain(), "d")?;
    expect(rt.alloc(), &builder, 2, "<mrow><mi>b</mi></mrow><mi>d</mi>")
}

/// Pushes a large delimiter in a style, and an empty row.
fn push_every_other_attribute(builder: &mut Builder) -> Result<(), AllocError>
    ensures { OnOk result (2 ≤ length (elements_in builder.new)) }
{
    let plain = Attributes::plain();
    let delimiter = Attributes {
        fence: true,
        separator: true,
        size: Some(Size::Bigger),
        ..plain
    };
    let style = Attributes {
        accent: Some(Side::Below),
        style: Some(MathStyle::Text),
        ..plain
    };
    builder.text(Token::Mo, delimiter, "|")?;
    builder.container(Container::Mstyle, style, 1)?;
    builder.container(Container::Mrow, plain, 0)
}

#[test]
fn every_other_attribute(rt: HostRuntime) -> Result<(), Fail> {
    let mut builder = Builder::new(rt.alloc());
    push_every_other_attribute(&mut builder)?;
    expect(
        rt.alloc(),
        &builder,
        2,
        "<mstyle accentunder=\"true\" displaystyle=\"false\" scriptlevel=\"0\"><mo fence=\"true\" separator=\"true\" symmetric=\"true\" minsize=\"1.623em\" maxsize=\"1.623em\">|</mo></mstyle><mrow></mrow>",
    )?;
    builder.clear();
    assert!(rt; builder.len() == 0);
    Ok(())
}

/// Pushes a table of a row of two letters, an empty row and a letter.
fn push_rows(builder: &mut Builder) -> Result<(), AllocError>
    ensures { OnOk result (1 ≤ length (elements_in builder.new)) }
{
    let plain = Attributes::plain();
    builder.text(Token::Mi, plain, "a")?;
    builder.text(Token::Mi, plain, "b")?;
    builder.container(Container::Mrow, plain, 2)?;
    builder.container(Container::Mrow, plain, 0)?;
    builder.text(Token::Mi, plain, "c")?;
    builder.table(Some(MathStyle::Script), Columns::in_pairs(), 3)
}

#[test]
fn rows_become_cells(rt: HostRuntime) -> Result<(), Fail> {
    let mut builder = Builder::new(rt.alloc());
    push_rows(&mut builder)?;
    expect(
        rt.alloc(),
        &builder,
        1,
        "<mtable displaystyle=\"false\" scriptlevel=\"1\"><mtr><mtd columnalign=\"right\" style=\"text-align: right; text-align: -webkit-right; padding: 0.15em 0; line-height: 1\"><mi>a</mi></mtd><mtd columnalign=\"left\" style=\"text-align: left; padding: 0.15em 0; line-height: 1\"><mi>b</mi></mtd></mtr><mtr><mtd columnalign=\"right\" style=\"text-align: right; text-align: -webkit-right; padding: 0.15em 0; line-height: 1\"><mrow></mrow></mtd></mtr><mtr><mtd columnalign=\"right\" style=\"text-align: right; text-align: -webkit-right; padding: 0.15em 0; line-height: 1\"><mi>c</mi></mtd></mtr></mtable>",
    )
}

/// Pushes a table of a row of three letters.
fn push_three_columns(builder: &mut Builder, columns: Columns) -> Result<(), AllocError>
    ensures { OnOk result (length (elements_in builder.new)
        ≡ suc (length (elements_in builder.old))) }
{
    let plain = Attributes::plain();
    builder.text(Token::Mi, plain, "a")?;
    builder.text(Token::Mi, plain, "b")?;
    builder.text(Token::Mi, plain, "c")?;
    builder.container(Container::Mrow, plain, 3)?;
    builder.table(None, columns, 1)
}

/// Pushes a table of a row of two letters.
fn push_two_columns(builder: &mut Builder, columns: Columns) -> Result<(), AllocError>
    ensures { OnOk result (length (elements_in builder.new)
        ≡ suc (length (elements_in builder.old))) }
{
    let plain = Attributes::plain();
    builder.text(Token::Mi, plain, "d")?;
    builder.text(Token::Mi, plain, "e")?;
    builder.container(Container::Mrow, plain, 2)?;
    builder.table(None, columns, 1)
}

/// Pushes a table of a letter.
fn push_one_column(builder: &mut Builder, columns: Columns) -> Result<(), AllocError>
    ensures { OnOk result (length (elements_in builder.new)
        ≡ suc (length (elements_in builder.old))) }
{
    builder.text(Token::Mi, Attributes::plain(), "f")?;
    builder.table(None, columns, 1)
}

/// Pushes three tables: one of three columns that differ, and those of these columns.
fn push_tables(builder: &mut Builder, listed: Columns, alike: Columns) -> Result<(), AllocError>
    ensures { OnOk result (3 ≤ length (elements_in builder.new)) }
{
    push_three_columns(builder, Columns::around_relation())?;
    push_two_columns(builder, listed)?;
    push_one_column(builder, alike)
}

#[test]
fn columns_of_each_kind(rt: HostRuntime) -> Result<(), Fail> {
    let mut listed = Columns::none(Line::Nothing);
    assert!(rt; listed.push(ListedColumn::LeftAlignedBeforeLine));
    let mut alike = Columns::alike(Density::Dense, Alignment::Centered);
    assert!(rt; !alike.push(ListedColumn::LeftAligned));
    let mut builder = Builder::new(rt.alloc());
    push_tables(&mut builder, listed, alike)?;
    expect(
        rt.alloc(),
        &builder,
        3,
        "<mtable><mtr><mtd columnalign=\"right\" style=\"text-align: right; text-align: -webkit-right; padding: 0.15em 0.5em; line-height: 1\"><mi>a</mi></mtd><mtd style=\"padding: 0.15em 0.5em; line-height: 1\"><mi>b</mi></mtd><mtd columnalign=\"left\" style=\"text-align: left; padding: 0.15em 0.5em; line-height: 1\"><mi>c</mi></mtd></mtr></mtable><mtable style=\"border-collapse: collapse\"><mtr><mtd columnalign=\"left\" style=\"text-align: left; padding: 0 0.5em; line-height: 1; border-right: thin solid\"><mi>d</mi></mtd><mtd style=\"padding: 0 0.5em; line-height: 1\"><mi>e</mi></mtd></mtr></mtable><mtable><mtr><mtd style=\"padding: 0; line-height: 1\"><mi>f</mi></mtd></mtr></mtable>",
    )
}

/// Pushes a letter in this many rows.
fn push_deep(builder: &mut Builder, depth: usize) -> Result<(), AllocError>
    ensures { OnOk result (1 ≤ length (elements_in builder.new)) }
{
    let plain = Attributes::plain();
    builder.character(Token::Mi, plain, 'x')?;
    for _ in 0..depth {
        builder.container(Container::Mrow, plain, 1)?;
    }
    Ok(())
}

#[test]
fn deep(rt: HostRuntime) -> Result<(), Fail> {
    let mut builder = Builder::new(rt.alloc());
    push_deep(&mut builder, 100000)?;
    assert!(rt; markup(rt.alloc(), &builder, 1)?.len() == 100000 * 13 + 10);
    Ok(())
}

/// Pushes a letter in this many tables, each in a row.
fn push_deep_tables(builder: &mut Builder, depth: usize) -> Result<(), AllocError>
    ensures { OnOk result (1 ≤ length (elements_in builder.new)) }
{
    let plain = Attributes::plain();
    builder.character(Token::Mi, plain, 'x')?;
    for _ in 0..depth {
        builder.container(Container::Mrow, plain, 1)?;
        builder.table(None, Columns::alike(Density::Usual, Alignment::Centered), 1)?;
    }
    Ok(())
}

#[test]
fn deep_tables(rt: HostRuntime) -> Result<(), Fail> {
    let mut builder = Builder::new(rt.alloc());
    push_deep_tables(&mut builder, 100000)?;
    assert!(rt; markup(rt.alloc(), &builder, 1)?.len() == 100000 * 74 + 10);
    Ok(())
}
