//! Macros that a formula uses, and texts that define them.

use crate::checks::expect_text;
use latex2mathml_tex::{DisplayStyle, Macros, TexError, tex_to_mathml};
use std::alloc::Global;
use std::test::Fail;

/// Returns the text of the error for a text of definitions.
fn refusal(alloc: Global, definitions: &str) -> Result<String, Fail> {
    match Macros::read(alloc, definitions) {
        Ok(_) => Err(Fail::new(String::from_str(alloc, definitions)?)),
        Err(error) => Ok(format!(in alloc; "{error}")?),
    }
}

/// Returns the markup of a formula that uses what was defined.
fn drawn(alloc: Global, definitions: &'static str, tex: &'static str) -> Result<String, TexError> {
    let macros = Macros::read(alloc, definitions)?;
    tex_to_mathml(alloc, &macros, tex, DisplayStyle::Inline)
}

/// Returns the markup of a formula to which nothing was defined.
fn drawn_alone(alloc: Global, tex: &'static str) -> Result<String, TexError> {
    let macros = Macros::new(alloc);
    tex_to_mathml(alloc, &macros, tex, DisplayStyle::Inline)
}

/// Fails unless a formula that uses what was defined is drawn like another one, which has no macros.
fn expect_drawn_as(
    alloc: Global,
    definitions: &'static str,
    tex: &'static str,
    other: &'static str,
) -> Result<(), Fail> {
    let expected = drawn_alone(alloc, other)?;
    expect_text(drawn(alloc, definitions, tex), expected.as_str())
}

/// Definitions, a formula that uses them, and one that is drawn like it.
static USES: [(&str, &str, &str); 7] = [
    ("\\newcommand{\\R}{\\mathbb{R}}", "\\R^2", "\\mathbb{R}^2"),
    (
        "\\def\\norm#1{\\lVert #1\\rVert}",
        "\\norm{x+y}_2",
        "\\lVert x+y\\rVert_2",
    ),
    ("\\newcommand\\pair[2]{(#2,#1)}", "\\pair ab", "(b,a)"),
    (
        "\\DeclareMathOperator*{\\argmax}{arg\\,max}",
        "\\argmax_x",
        "\\operatorname*{arg\\,max}_x",
    ),
    (
        "\\DeclarePairedDelimiter{\\norm}{\\lVert}{\\rVert}",
        "\\norm{x}+\\norm[\\big]{y}",
        "\\lVert x\\rVert+\\mathopen{\\big\\lVert}y\\mathclose{\\big\\rVert}",
    ),
    (
        "\\DeclarePairedDelimiter\\p()",
        "f\\p*{\\frac ab}",
        "f\\mathopen{}\\mathclose{\\left(\\frac ab\\right)}",
    ),
    (
        "% none\n",
        "a \\pmod n",
        "a\\mkern8mu(\\mathrm{mod}\\mkern6mu n)",
    ),
];

#[test]
fn uses(rt: HostRuntime) -> Result<(), Fail> {
    for (definitions, tex, other) in &USES {
        expect_drawn_as(rt.alloc(), *definitions, *tex, *other)?;
    }
    Ok(())
}

/// Definitions in texts of definitions and in formulas.
static DEFINITIONS: [(&str, &str, &str); 7] = [
    ("\\def\\a{x} \\newcommand{\\b}{\\a\\a}", "\\b", "xx"),
    ("\\def\\a{x}\\renewcommand{\\a}{y}", "\\a", "y"),
    ("\\def\\a{x}\\providecommand{\\a}{y}", "\\a", "x"),
    ("\\def\\a{x}", "\\a\\def\\a{y}\\a", "xy"),
    ("\\def\\alpha{z}", "\\alpha", "z"),
    ("\\def\\p(#1,#2){#2#1}", "\\p(x+1,y)", "yx+1"),
    ("", "\\def\\sq#1{#1^2}\\sq x+\\sq{ab}", "x^2+ab^2"),
];

#[test]
fn definitions(rt: HostRuntime) -> Result<(), Fail> {
    for (definitions, tex, other) in &DEFINITIONS {
        expect_drawn_as(rt.alloc(), *definitions, *tex, *other)?;
    }
    Ok(())
}

/// Texts of definitions, and the texts of their errors.
static REFUSALS: [(&str, &str); 7] = [
    ("\\def\\a{x} x", "not a definition at 10"),
    ("\\newcommand{\\a", "{ is not closed at 11"),
    (" \\newcommand{a}{x}", "no name to define at 1"),
    (
        "\\newcommand{\\a}[2]{#3}",
        "a body has no such argument at 0",
    ),
    ("\\newcommand{\\a}[1][x{#1}", "[ is not closed at 18"),
    ("\\def\\a#1#{x}", "wrong parameters of a definition at 0"),
    ("\\def\\a#2{x}", "wrong parameters of a definition at 0"),
];

#[test]
fn refusals(rt: HostRuntime) -> Result<(), Fail> {
    for (definitions, text) in &REFUSALS {
        let found = refusal(rt.alloc(), definitions)?;
        assert!(rt; found.as_str() == *text, "{found}");
    }
    Ok(())
}

/// Fails unless the two formulas are drawn alike.
fn expect_alike<'a>(
    alloc: Global,
    macros: &Macros<'a>,
    one: &'a str,
    other: &'a str,
) -> Result<(), Fail> {
    let expected = tex_to_mathml(alloc, macros, other, DisplayStyle::Inline)?;
    let found = tex_to_mathml(alloc, macros, one, DisplayStyle::Inline);
    expect_text(found, expected.as_str())
}

/// What a formula defines is forgotten after it.
#[test]
fn formulas_in_turn(rt: HostRuntime) -> Result<(), Fail> {
    let alloc = rt.alloc();
    let macros = Macros::read(alloc, "\\def\\a{x}")?;
    expect_alike(alloc, &macros, "\\def\\a{y}\\a", "y")?;
    expect_alike(alloc, &macros, "\\a", "x")
}
