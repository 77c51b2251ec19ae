//! Calls each example caller once, with memory to spare.
use latex2mathml::ast::Node;
use latex2mathml::attribute::Variant;
use latex2mathml::{Disk, DisplayStyle, LatexError, Stream};
use latex2mathml_uses::build::{built_twice, rewrite, template};
use latex2mathml_uses::cache::Cache;
use latex2mathml_uses::insert::{article, blank, insert, quotation};
use latex2mathml_uses::made::{formula, fraction};
use latex2mathml_uses::page::{paragraph, show};
use latex2mathml_uses::put::put;
use latex2mathml_uses::refusal::{Mistake, in_document, in_formula};
use latex2mathml_uses::restyle::restyle;
use latex2mathml_uses::site::publish;
use latex2mathml_uses::symbol::symbol;
use latex2mathml_uses::wiki::{Section, convert, ends_open, join};
use latex2mathml_uses::{budget, check, limit, lines, tokens};
use std::alloc::{AllocError, Global};
use std::fmt::Display;
use std::test::Fail;

/// The markup of `x` in a line of text.
const X: &str =
    "<math xmlns=\"http://www.w3.org/1998/Math/MathML\" display=\"inline\"><mi>x</mi></math>";

/// Fails unless the answer is this text.
fn expect_text<E: Display + Drop>(answer: Result<String, E>, text: &str) -> Result<(), Fail> {
    match answer {
        Ok(found) if found.as_str() == text => Ok(()),
        Ok(found) => Err(Fail::new(found)),
        Err(error) => Err(Fail::new(error)),
    }
}

/// Whether the two values are equal. They are handed over, so that their drop is proved once for all types.
fn are_equal<T: PartialEq + Drop>(one: T, other: T) -> bool {
    one == other
}

/// Whether the answer is this value.
fn is_answer<T: PartialEq + Drop, E: Drop>(answer: Result<T, E>, value: &T) -> bool {
    match answer {
        Ok(found) => found == *value,
        Err(_) => false,
    }
}

/// Whether the answer is an error.
fn is_refused<T: Drop, E: Drop>(answer: Result<T, E>) -> bool {
    answer.is_err()
}

#[test]
fn a_paragraph(rt: HostRuntime) -> Result<(), Fail> {
    let page = paragraph(rt.alloc(), "x");
    expect_text(
        page,
        "<p><math xmlns=\"http://www.w3.org/1998/Math/MathML\" display=\"block\"><mi>x</mi></math></p>",
    )
}

#[test]
fn what_is_shown(rt: HostRuntime) -> Result<(), Fail> {
    expect_text(show(rt.alloc(), "x"), X)?;
    let reason = show(rt.alloc(), "{x")?;
    assert!(rt; reason.starts_with("<math><mtext>[PARSE ERROR: Undefined(\"The token"));
    Ok(())
}

#[test]
fn what_is_put(rt: HostRuntime) -> Result<(), Fail> {
    let (held, done) = put(Vec::new(rt.alloc()), "a text");
    assert!(rt; !is_refused(done));
    assert!(rt; held.as_slice() == b"a text".as_slice());
    Ok(())
}

#[test]
fn the_symbol_of_a_command(rt: HostRuntime) -> Result<(), Fail> {
    assert!(rt; is_answer(symbol(rt.alloc(), "alpha"), &Some('α')));
    assert!(rt; is_answer(symbol(rt.alloc(), "to"), &Some('→')));
    assert!(rt; is_answer(symbol(rt.alloc(), "frac"), &None));
    Ok(())
}

#[test]
fn what_a_cache_holds(rt: HostRuntime) -> Result<(), Fail> {
    let mut cache = Cache::new(rt.alloc());
    assert!(rt; cache.get("x", DisplayStyle::Block).is_none());
    let markup = cache.markup(rt.alloc(), "x", DisplayStyle::Block)?;
    assert!(rt; cache.get("x", DisplayStyle::Block) == Some(&markup));
    assert!(rt; cache.get("x", DisplayStyle::Inline).is_none());
    assert!(rt; is_answer(cache.markup(rt.alloc(), "x", DisplayStyle::Block), &markup));
    assert!(rt; is_refused(cache.markup(rt.alloc(), "{x", DisplayStyle::Block)));
    assert!(rt; cache.get("{x", DisplayStyle::Block).is_none());
    Ok(())
}

#[test]
fn what_is_inserted(rt: HostRuntime) -> Result<(), Fail> {
    let mut page = blank(rt.alloc());
    insert(rt.alloc(), &mut page, "x", DisplayStyle::Inline)?;
    let refused = insert(rt.alloc(), &mut page, "{x", DisplayStyle::Inline);
    assert!(rt; is_refused(refused));
    assert!(rt; page.as_str() == X);
    Ok(())
}

#[test]
fn a_document_between_tags(rt: HostRuntime) -> Result<(), Fail> {
    let page = article(rt.alloc(), "<p>$x$</p>");
    expect_text(
        page,
        "<article><p><math xmlns=\"http://www.w3.org/1998/Math/MathML\" display=\"inline\"><mi>x</mi></math></p></article>",
    )?;
    let page = quotation(rt.alloc(), "$$x$$");
    expect_text(
        page,
        "<blockquote><math xmlns=\"http://www.w3.org/1998/Math/MathML\" display=\"block\"><mi>x</mi></math></blockquote>",
    )
}

/// Whether the answer is a section with this source, which is shown like this.
fn is_section(answer: Result<Section, AllocError>, source: &str, shown: &str) -> bool {
    match answer {
        Ok(section) => section.source.as_str() == source && section.shown.as_str() == shown,
        Err(_) => false,
    }
}

#[test]
fn sections_that_are_joined(rt: HostRuntime) -> Result<(), Fail> {
    let first = convert(rt.alloc(), "One is $x$, ")?;
    let second = convert(rt.alloc(), "and \\$2.")?;
    assert!(rt; !ends_open(first.source.as_str()));
    assert!(rt;
        is_section(
            join(rt.alloc(), &first, &second),
            "One is $x$, and \\$2.",
            "One is <math xmlns=\"http://www.w3.org/1998/Math/MathML\" display=\"inline\"><mi>x</mi></math>, and &#x24;2."
        )
    );
    assert!(rt; ends_open("a\\"));
    assert!(rt; !ends_open("a\\\\"));
    assert!(rt; !ends_open(""));
    Ok(())
}

/// Whether the answer is this text, or none.
fn is_text<E: Drop>(answer: Result<Option<String>, E>, text: Option<&str>) -> bool {
    match answer {
        Ok(Some(found)) => text == Some(found.as_str()),
        Ok(None) => text == None,
        Err(_) => false,
    }
}

#[test]
fn a_build_that_runs_twice(rt: HostRuntime) -> Result<(), Fail> {
    let page = built_twice(rt.alloc(), &mut Stream::new(b"$x$".as_slice()));
    expect_text(page, X)?;
    let first = rewrite(rt.alloc(), &mut Stream::new(b"$x$".as_slice()));
    assert!(rt; is_text(first, Some(X)));
    let second = rewrite(rt.alloc(), &mut Stream::new(b"<math></math>".as_slice()));
    assert!(rt; is_text(second, None));
    Ok(())
}

#[test]
fn what_a_template_is_made_of(rt: HostRuntime) -> Result<(), Fail> {
    let page = template(rt.alloc(), &mut Stream::new(b"\\$x".as_slice()));
    expect_text(page, "&#x24;x")?;
    let page = template(rt.alloc(), &mut Stream::new(b"x".as_slice()));
    expect_text(page, "x")
}

#[test]
fn what_is_checked(rt: HostRuntime) -> Result<(), Fail> {
    assert!(rt;
        is_answer(
            check::has_markup(rt.alloc(), "x", DisplayStyle::Inline),
            &true
        )
    );
    assert!(rt;
        is_answer(
            check::has_markup(rt.alloc(), "{x", DisplayStyle::Inline),
            &false
        )
    );
    Ok(())
}

#[test]
fn what_is_to_be_mended(rt: HostRuntime) -> Result<(), Fail> {
    assert!(rt; is_answer(in_formula(rt.alloc(), "x$"), &None));
    assert!(rt; is_answer(in_formula(rt.alloc(), "{x"), &Some(Mistake::Unfinished)));
    assert!(rt; is_answer(in_formula(rt.alloc(), "\\left x"), &Some(Mistake::Fence)));
    assert!(rt;
        is_answer(
            in_formula(rt.alloc(), "\\begin{box}x\\end{box}"),
            &Some(Mistake::Environment)
        )
    );
    assert!(rt; is_answer(in_document(rt.alloc(), "$x$"), &None));
    assert!(rt; is_answer(in_document(rt.alloc(), "${x$"), &Some(Mistake::Unfinished)));
    assert!(rt; is_answer(in_document(rt.alloc(), "$x"), &Some(Mistake::Dollars)));
    Ok(())
}

/// Whether the formula has markup within this limit.
fn has_markup_within(alloc: Global, formula: &str, most: u128) -> Result<bool, LatexError> {
    Ok(limit::convert(alloc, formula, DisplayStyle::Inline, most)?.is_some())
}

#[test]
fn what_is_within_a_limit(rt: HostRuntime) -> Result<(), Fail> {
    assert!(rt; is_answer(has_markup_within(rt.alloc(), "x+1", 3), &true));
    assert!(rt; is_answer(has_markup_within(rt.alloc(), "x+1", 2), &false));
    Ok(())
}

/// Returns whether the formula has markup, and how many tokens it takes, if it is within this budget.
fn counted_within(alloc: Global, formula: &str, most: usize) -> Option<(bool, u128)> {
    let (answer, steps) = budget::convert(alloc, formula, DisplayStyle::Inline, most)?;
    Some((!is_refused(answer), steps.tokens))
}

#[test]
fn what_is_within_a_budget(rt: HostRuntime) -> Result<(), Fail> {
    assert!(rt; counted_within(rt.alloc(), "\\pi", 3) == Some((true, 1)));
    assert!(rt; counted_within(rt.alloc(), "\\pi", 2) == None);
    Ok(())
}

#[test]
fn a_formula_over_two_lines(rt: HostRuntime) -> Result<(), Fail> {
    let markup = lines::convert(rt.alloc(), "x", "y", DisplayStyle::Inline);
    expect_text(
        markup,
        "<math xmlns=\"http://www.w3.org/1998/Math/MathML\" display=\"inline\"><mi>x</mi><mi>y</mi></math>",
    )
}

#[test]
fn how_many_tokens_there_are(rt: HostRuntime) -> Result<(), Fail> {
    assert!(rt; is_answer(tokens::count(rt.alloc(), "x + \\pi"), &3));
    assert!(rt; is_refused(tokens::count(rt.alloc(), "{x")));
    Ok(())
}

fn fraction_of(alloc: Global, numerator: &str, denominator: &str) -> Result<String, AllocError> {
    let numerator = String::from_str(alloc, numerator)?;
    let denominator = String::from_str(alloc, denominator)?;
    fraction(alloc, numerator, denominator)
}

#[test]
fn a_fraction_made_by_hand(rt: HostRuntime) -> Result<(), Fail> {
    let alloc = rt.alloc();
    let element = "<mfrac><mtext>a&lt;b</mtext><mtext>c</mtext></mfrac>";
    expect_text(fraction_of(alloc, "a<b", "c"), element)?;
    let markup = formula(alloc, &Node::Letter('x', Variant::Italic));
    expect_text(markup, "<math><mi>x</mi></math>")
}

#[test]
fn a_node_that_is_restyled(rt: HostRuntime) -> Result<(), Fail> {
    let mut node = Node::Letter('x', Variant::Italic);
    assert!(rt; is_answer(restyle(rt.alloc(), &mut node, Variant::Bold), &true));
    assert!(rt; is_answer(restyle(rt.alloc(), &mut node, Variant::Bold), &false));
    assert!(rt; are_equal(node, Node::Letter('x', Variant::Bold)));
    Ok(())
}

#[test]
fn a_site_where_nothing_stands(rt: HostRuntime) -> Result<(), Fail> {
    let alloc = rt.alloc();
    let published = publish(&mut Disk { rt: &rt, alloc }, alloc, "none.html");
    assert!(rt; is_answer(published, &true));
    Ok(())
}
