//! Formulas that are read, and refusals as their readers see them.

use crate::checks::{expect_text, is_refused};
use latex2mathml_tex::{
    Converter, DisplayStyle, Macros, Position, TexError, tex_to_mathml, tex_to_mathml_with_source,
};
use latex2mathml_tex_uses::copies;
use std::alloc::{AllocError, Global};
use std::test::Fail;

const X: &str =
    "<math xmlns=\"http://www.w3.org/1998/Math/MathML\" display=\"inline\"><mi>x</mi></math>";

const X_WITH_SOURCE: &str =
    "<math xmlns=\"http://www.w3.org/1998/Math/MathML\" display=\"inline\" alttext=\"x\"><semantics><mi>x</mi><annotation encoding=\"application/x-tex\">x</annotation></semantics></math>";

/// Returns the text of the error for a formula in a line of text, and its position.
fn refusal(alloc: Global, tex: &str) -> Result<(String, Position), Fail> {
    let macros = Macros::new(alloc);
    match tex_to_mathml(alloc, &macros, tex, DisplayStyle::Inline) {
        Ok(markup) => Err(Fail::new(markup)),
        Err(error) => Ok((format!(in alloc; "{error}")?, error.position(tex))),
    }
}

#[test]
fn scripts_in_a_line(rt: HostRuntime) -> Result<(), Fail> {
    let macros = Macros::new(rt.alloc());
    let markup = tex_to_mathml(rt.alloc(), &macros, "x_i^2", DisplayStyle::Inline);
    expect_text(
        markup,
        "<math xmlns=\"http://www.w3.org/1998/Math/MathML\" display=\"inline\"><msubsup><mi>x</mi><mi>i</mi><mn>2</mn></msubsup></math>",
    )
}

#[test]
fn fraction_on_a_line_of_its_own(rt: HostRuntime) -> Result<(), Fail> {
    let macros = Macros::new(rt.alloc());
    let markup = tex_to_mathml(rt.alloc(), &macros, "\\frac1{y}", DisplayStyle::Block);
    expect_text(
        markup,
        "<math xmlns=\"http://www.w3.org/1998/Math/MathML\" display=\"block\"><mrow style=\"padding: 0 calc(0.12em - 1px)\"><mfrac><mn>1</mn><mi>y</mi></mfrac><mo lspace=\"0\" rspace=\"0\"></mo></mrow></math>",
    )
}

#[test]
fn unknown_command(rt: HostRuntime) -> Result<(), Fail> {
    let (text, position) = refusal(rt.alloc(), "\\foo")?;
    assert!(rt; text.as_str() == "unknown command \\foo at 0", "{text}");
    assert!(rt; position == Position { line: 1, column: 1 }, "{position:?}");
    Ok(())
}

#[test]
fn unknown_command_on_the_second_line(rt: HostRuntime) -> Result<(), Fail> {
    let (text, position) = refusal(rt.alloc(), "x^2\n+ \\foo")?;
    assert!(rt; text.as_str() == "unknown command \\foo at 6", "{text}");
    assert!(rt; position == Position { line: 2, column: 3 }, "{position:?}");
    Ok(())
}

#[test]
fn columns_count_characters(rt: HostRuntime) -> Result<(), Fail> {
    let (text, position) = refusal(rt.alloc(), "α\nβ𝑥\u{7}")?;
    assert!(rt;
        text.as_str() == "forbidden character U+0007 at 9",
        "{text}"
    );
    assert!(rt; position == Position { line: 2, column: 3 }, "{position:?}");
    Ok(())
}

#[test]
fn out_of_memory_is_about_no_place(rt: HostRuntime) -> Result<(), Fail> {
    let error = TexError::from(AllocError);
    let text = format!(in rt.alloc(); "{error}")?;
    assert!(rt; text.as_str() == "out of memory", "{text}");
    Ok(())
}

#[test]
fn formulas_in_turn(rt: HostRuntime) -> Result<(), Fail> {
    let macros = Macros::new(rt.alloc());
    let mut converter = Converter::new(rt.alloc());
    let mut text = String::from_str(rt.alloc(), "a: ")?;
    converter.append(&mut text, &macros, "x", DisplayStyle::Inline)?;
    let length = text.len();
    let refused = converter.append(&mut text, &macros, "{\\frac{x}{", DisplayStyle::Inline);
    assert!(rt; is_refused(refused) && text.len() == length, "{text}");
    text.push_str(", b: ")?;
    converter.append(&mut text, &macros, "x", DisplayStyle::Inline)?;
    let expected = format!(in rt.alloc(); "a: {X}, b: {X}")?;
    assert!(rt; text == expected, "{text}");
    Ok(())
}

#[test]
fn source_of_several_elements(rt: HostRuntime) -> Result<(), Fail> {
    let macros = Macros::new(rt.alloc());
    let markup = tex_to_mathml_with_source(rt.alloc(), &macros, "x<y", DisplayStyle::Block);
    expect_text(
        markup,
        "<math xmlns=\"http://www.w3.org/1998/Math/MathML\" display=\"block\" alttext=\"x&lt;y\"><semantics><mrow><mi>x</mi><mo>&lt;</mo><mi>y</mi></mrow><annotation encoding=\"application/x-tex\">x&lt;y</annotation></semantics></math>",
    )
}

#[test]
fn source_without_forbidden_characters(rt: HostRuntime) -> Result<(), Fail> {
    let markup = copies::formula(rt.alloc(), "x%\u{1}$\n", DisplayStyle::Inline);
    expect_text(
        markup,
        "<math xmlns=\"http://www.w3.org/1998/Math/MathML\" display=\"inline\" alttext=\"x%\u{FFFD}&#x24;\n\"><semantics><mi>x</mi><annotation encoding=\"application/x-tex\">x%\u{FFFD}&#x24;\n</annotation></semantics></math>",
    )
}

#[test]
fn sources_in_turn(rt: HostRuntime) -> Result<(), Fail> {
    let macros = Macros::new(rt.alloc());
    let mut converter = Converter::new(rt.alloc());
    let mut text = String::from_str(rt.alloc(), "a: ")?;
    converter.append_with_source(&mut text, &macros, "x", DisplayStyle::Inline)?;
    let length = text.len();
    let refused = converter.append_with_source(
        &mut text,
        &macros,
        "{\\frac{x}{",
        DisplayStyle::Inline,
    );
    assert!(rt; is_refused(refused) && text.len() == length, "{text}");
    text.push_str(", b: ")?;
    converter.append(&mut text, &macros, "x", DisplayStyle::Inline)?;
    text.push_str(", c: ")?;
    converter.append_with_source(&mut text, &macros, "x", DisplayStyle::Inline)?;
    let expected = format!(in rt.alloc(); "a: {X_WITH_SOURCE}, b: {X}, c: {X_WITH_SOURCE}")?;
    assert!(rt; text == expected, "{text}");
    Ok(())
}
