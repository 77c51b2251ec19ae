//! The example caller whose pages may have a preamble.

use latex2mathml_tex::DisplayStyle;
use latex2mathml_tex_uses::page::{PageError, formula};
use std::alloc::Global;
use std::test::Fail;

const PREAMBLE: &str = "\\newcommand{\\RR}{\\mathbb{R}}";

/// Returns the markup of a formula of a page in a line of text, or the text of its error after a word that says whose it is.
fn shown(alloc: Global, preamble: Option<&'static str>, tex: &'static str) -> Result<String, Fail> {
    Ok(match formula(alloc, preamble, tex, DisplayStyle::Inline) {
        Ok(markup) => markup,
        Err(PageError::Preamble(error)) => format!(in alloc; "preamble: {error}")?,
        Err(PageError::Formula(error)) => format!(in alloc; "formula: {error}")?,
    })
}

/// A page's preamble, if it has one, a formula, and what is shown for it.
static PAGES: [(Option<&str>, &str, &str); 4] = [
    (
        Some(PREAMBLE),
        "\\RR",
        "<math xmlns=\"http://www.w3.org/1998/Math/MathML\" display=\"inline\"><mi>ℝ</mi></math>",
    ),
    (None, "x\\RR", "formula: unknown command \\RR at 1"),
    (Some(PREAMBLE), "x\\Q", "formula: unknown command \\Q at 1"),
    (Some("\n\\RR"), "x", "preamble: not a definition at 1"),
];

#[test]
fn preambles(rt: HostRuntime) -> Result<(), Fail> {
    for (preamble, tex, text) in &PAGES {
        let found = shown(rt.alloc(), *preamble, *tex)?;
        assert!(rt; found.as_str() == *text, "{found}");
    }
    Ok(())
}
