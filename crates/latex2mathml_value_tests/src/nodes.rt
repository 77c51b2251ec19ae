//! Tests of nodes of each kind made by hand: their markup.

use crate::checks::prints;
use latex2mathml_nodes::ast::Node;
use latex2mathml_samples::samples::{
    Frame, Pair, Sample, Triple, Words, apply, leaf, leaves as leaves_of,
};
use latex2mathml_tokens::DisplayStyle;
use latex2mathml_tokens::attribute::{Accent, ColumnAlign, LineThickness, Variant};
use std::alloc::{AllocError, Global};
use std::test::Fail;

/// Returns the first of these nodes that does not print as expected.
fn wrong(
    alloc: Global,
    rows: &[(Sample, &'static str)],
) -> Result<Option<&'static str>, AllocError> {
    for (sample, markup) in rows {
        if !prints(alloc, sample.node(alloc)?, markup)? {
            return Ok(Some(*markup));
        }
    }
    Ok(None)
}

static LEAVES: [(Sample, &str); 21] = [
    (Sample::Letter('x', Variant::Italic), "<mi>x</mi>"),
    (Sample::Letter('α', Variant::Italic), "<mi>α</mi>"),
    (
        Sample::Letter('あ', Variant::Normal),
        "<mi mathvariant=\"normal\">あ</mi>",
    ),
    (
        Sample::Letter('<', Variant::Bold),
        "<mi mathvariant=\"bold\">&lt;</mi>",
    ),
    (Sample::Letter('&', Variant::Italic), "<mi>&amp;</mi>"),
    (
        Sample::Letter('$', Variant::Bold),
        "<mi mathvariant=\"bold\">&#x24;</mi>",
    ),
    (Sample::Operator('+'), "<mo>+</mo>"),
    (Sample::Operator('>'), "<mo>&gt;</mo>"),
    (Sample::Operator('$'), "<mo>&#x24;</mo>"),
    (Sample::Operator('∑'), "<mo>∑</mo>"),
    (Sample::Operator('∂'), "<mo mathvariant=\"italic\">∂</mo>"),
    (Sample::Parenthesis("⟨"), "<mo>⟨</mo>"),
    (Sample::Parenthesis("a<b"), "<mo>a&lt;b</mo>"),
    (Sample::Parenthesis("$é$"), "<mo>&#x24;é&#x24;</mo>"),
    (Sample::Ampersand, "<mtext>[PARSE ERROR: Ampersand]</mtext>"),
    (Sample::NewLine, "<mtext>[PARSE ERROR: NewLine]</mtext>"),
    (
        Sample::Sized("1.2em", "("),
        "<mrow><mo maxsize=\"1.2em\" minsize=\"1.2em\">(</mo></mrow>",
    ),
    (
        Sample::Sized("a\"b", "<"),
        "<mrow><mo maxsize=\"a&quot;b\" minsize=\"a&quot;b\">&lt;</mo></mrow>",
    ),
    (
        Sample::Sized("<&>é", "\""),
        "<mrow><mo maxsize=\"&lt;&amp;&gt;é\" minsize=\"&lt;&amp;&gt;é\">\"</mo></mrow>",
    ),
    (
        Sample::Sized("$1", "$"),
        "<mrow><mo maxsize=\"$1\" minsize=\"$1\">&#x24;</mo></mrow>",
    ),
    (
        Sample::Words(Words::Text, "</mtext>&"),
        "<mtext>&lt;/mtext&gt;&amp;</mtext>",
    ),
];

#[test]
fn leaves(rt: HostRuntime) -> Result<(), Fail> {
    assert_eq!(rt; wrong(rt.alloc(), &LEAVES)?, None);
    Ok(())
}

static SPACES: [(i32, &str); 16] = [
    (-3, "<mspace width=\"-0.167em\"/>"),
    (0, "<mspace width=\"0em\"/>"),
    (1, "<mspace width=\"0.056em\"/>"),
    (2, "<mspace width=\"0.111em\"/>"),
    (3, "<mspace width=\"0.167em\"/>"),
    (4, "<mspace width=\"0.222em\"/>"),
    (5, "<mspace width=\"0.278em\"/>"),
    (9, "<mspace width=\"0.5em\"/>"),
    (10, "<mspace width=\"0.556em\"/>"),
    (18, "<mspace width=\"1em\"/>"),
    (19, "<mspace width=\"1.056em\"/>"),
    (36, "<mspace width=\"2em\"/>"),
    (-1, "<mspace width=\"-0.056em\"/>"),
    (-18, "<mspace width=\"-1em\"/>"),
    (i32::MAX, "<mspace width=\"119304647.056em\"/>"),
    (i32::MIN, "<mspace width=\"-119304647.111em\"/>"),
];

#[test]
fn spaces(rt: HostRuntime) -> Result<(), Fail> {
    for (width, markup) in &SPACES {
        assert!(rt; prints(rt.alloc(), Node::Space(*width), markup)?, "{width}");
    }
    Ok(())
}

static WORDS: [(Sample, &str); 15] = [
    (Sample::Words(Words::Number, "3.14"), "<mn>3.14</mn>"),
    (
        Sample::Words(Words::Number, "<&>\"'"),
        "<mn>&lt;&amp;&gt;\"'</mn>",
    ),
    (Sample::Words(Words::Function, "sin"), "<mi>sin</mi>"),
    (Sample::Words(Words::Function, ""), "<mi></mi>"),
    (
        Sample::Words(Words::Function, "a<b>&\""),
        "<mi>a&lt;b&gt;&amp;\"</mi>",
    ),
    (
        Sample::Applied("sin", 'x'),
        "<mi>sin</mi><mo>&#x2061;</mo><mi>x</mi>",
    ),
    (
        Sample::Applied("a<b", '<'),
        "<mi>a&lt;b</mi><mo>&#x2061;</mo><mo>&lt;</mo>",
    ),
    (
        Sample::Words(Words::Stretched(true), "|"),
        "<mo stretchy=\"true\">|</mo>",
    ),
    (
        Sample::Words(Words::Stretched(false), "\"&"),
        "<mo stretchy=\"false\">\"&amp;</mo>",
    ),
    (
        Sample::Words(Words::Undefined, ""),
        "<mtext>[PARSE ERROR: Undefined(\"\")]</mtext>",
    ),
    (
        Sample::Words(Words::Undefined, "<"),
        "<mtext>[PARSE ERROR: Undefined(\"&lt;\")]</mtext>",
    ),
    (
        Sample::Words(Words::Undefined, "\""),
        "<mtext>[PARSE ERROR: Undefined(\"\\\"\")]</mtext>",
    ),
    (
        Sample::Words(Words::Undefined, "$"),
        "<mtext>[PARSE ERROR: Undefined(\"&#x24;\")]</mtext>",
    ),
    (
        Sample::Words(Words::Undefined, "\\&"),
        "<mtext>[PARSE ERROR: Undefined(\"\\\\&amp;\")]</mtext>",
    ),
    (
        Sample::Words(Words::Undefined, "'é\u{1}"),
        "<mtext>[PARSE ERROR: Undefined(\"'é\u{1}\")]</mtext>",
    ),
];

#[test]
fn words(rt: HostRuntime) -> Result<(), Fail> {
    assert_eq!(rt; wrong(rt.alloc(), &WORDS)?, None);
    Ok(())
}

static COMPOUNDS: [(Sample, &str); 24] = [
    (
        Sample::Pair(Pair::Subscript, '+', '<'),
        "<msub><mo>+</mo><mo>&lt;</mo></msub>",
    ),
    (
        Sample::Pair(Pair::Superscript, '+', '<'),
        "<msup><mo>+</mo><mo>&lt;</mo></msup>",
    ),
    (
        Sample::Pair(Pair::Under, 'a', 'b'),
        "<munder><mi>a</mi><mi>b</mi></munder>",
    ),
    (
        Sample::Triple(Triple::UnderOver, 'a', 'b', 'c'),
        "<munderover><mi>a</mi><mi>b</mi><mi>c</mi></munderover>",
    ),
    (
        Sample::Triple(Triple::SubSup, 'x', '<', 'c'),
        "<msubsup><mi>x</mi><mo>&lt;</mo><mi>c</mi></msubsup>",
    ),
    (
        Sample::Frame(Frame::Over('<', Accent::True), 'x'),
        "<mover><mi>x</mi><mo accent=\"true\">&lt;</mo></mover>",
    ),
    (
        Sample::Frame(Frame::Under('_', Accent::False), 'x'),
        "<munder><mi>x</mi><mo accent=\"false\">_</mo></munder>",
    ),
    (
        Sample::Pair(Pair::Overset, 'a', 't'),
        "<mover><mi>t</mi><mi>a</mi></mover>",
    ),
    (
        Sample::Pair(Pair::Underset, 'a', 't'),
        "<munder><mi>t</mi><mi>a</mi></munder>",
    ),
    (Sample::Frame(Frame::Root, 'x'), "<msqrt><mi>x</mi></msqrt>"),
    (
        Sample::Pair(Pair::Fraction(LineThickness::Medium), 'a', 'b'),
        "<mfrac><mi>a</mi><mi>b</mi></mfrac>",
    ),
    (
        Sample::Pair(Pair::Fraction(LineThickness::Thin), 'a', 'b'),
        "<mfrac linethickness=\"thin\"><mi>a</mi><mi>b</mi></mfrac>",
    ),
    (
        Sample::Pair(Pair::Fraction(LineThickness::Thick), 'a', 'b'),
        "<mfrac linethickness=\"thick\"><mi>a</mi><mi>b</mi></mfrac>",
    ),
    (
        Sample::Pair(Pair::Fraction(LineThickness::Length(0)), 'a', 'b'),
        "<mfrac linethickness=\"0\"><mi>a</mi><mi>b</mi></mfrac>",
    ),
    (
        Sample::Pair(Pair::Fraction(LineThickness::Length(255)), 'a', 'b'),
        "<mfrac linethickness=\"255\"><mi>a</mi><mi>b</mi></mfrac>",
    ),
    (
        Sample::Frame(Frame::Fence("<", "&"), 'x'),
        "<mrow><mo stretchy=\"true\" form=\"prefix\">&lt;</mo><mi>x</mi><mo stretchy=\"true\" form=\"postfix\">&amp;</mo></mrow>",
    ),
    (
        Sample::Frame(Frame::Style(None), 'x'),
        "<mstyle><mi>x</mi></mstyle>",
    ),
    (
        Sample::Frame(Frame::Style(Some(DisplayStyle::Block)), 'x'),
        "<mstyle displaystyle=\"true\"><mi>x</mi></mstyle>",
    ),
    (
        Sample::Frame(Frame::Style(Some(DisplayStyle::Inline)), 'x'),
        "<mstyle displaystyle=\"false\"><mi>x</mi></mstyle>",
    ),
    (Sample::Row("+-"), "<mrow><mo>+</mo><mo>-</mo></mrow>"),
    (Sample::Row(""), "<mrow></mrow>"),
    (
        Sample::Matrix("", ColumnAlign::Center),
        "<mtable><mtr><mtd></mtd></mtr></mtable>",
    ),
    (
        Sample::Matrix("\n", ColumnAlign::Right),
        "<mtable columnalign=\"right\"><mtr><mtd></mtd></mtr><mtr><mtd></mtd></mtr></mtable>",
    ),
    (
        Sample::Matrix("a&b\nc", ColumnAlign::Left),
        "<mtable columnalign=\"left\"><mtr><mtd><mi>a</mi></mtd><mtd><mi>b</mi></mtd></mtr><mtr><mtd><mi>c</mi></mtd></mtr></mtable>",
    ),
];

#[test]
fn compounds(rt: HostRuntime) -> Result<(), Fail> {
    assert_eq!(rt; wrong(rt.alloc(), &COMPOUNDS)?, None);
    Ok(())
}

/// Nodes below a slash.
static SLASHED: [(Sample, &str); 6] = [
    (
        Sample::Letter('<', Variant::Italic),
        "<mi mathvariant=\"italic\">&lt;&#x0338;</mi>",
    ),
    (
        Sample::Letter('x', Variant::Bold),
        "<mi mathvariant=\"bold\">x&#x0338;</mi>",
    ),
    (Sample::Operator('∂'), "<mo>∂&#x0338;</mo>"),
    (Sample::Operator('&'), "<mo>&amp;&#x0338;</mo>"),
    (Sample::Parenthesis("("), "<mo>(</mo>"),
    (Sample::NewLine, "<mtext>[PARSE ERROR: NewLine]</mtext>"),
];

#[test]
fn slashes(rt: HostRuntime) -> Result<(), Fail> {
    let alloc = rt.alloc();
    for (sample, markup) in &SLASHED {
        let slashed = Frame::Slash.around(alloc, sample.node(alloc)?)?;
        assert!(rt; prints(alloc, slashed, markup)?, "{markup}");
    }
    Ok(())
}

fn cube_root(alloc: Global) -> Result<Node, AllocError> {
    let degree = Words::Number.of(alloc, "3")?;
    Pair::Root.of(alloc, degree, leaf('x'))
}

fn scripts(alloc: Global) -> Result<Node, AllocError> {
    let sup = Words::Number.of(alloc, "2")?;
    Triple::SubSup.of(alloc, leaf('x'), leaf('<'), sup)
}

fn function_in_a_fraction(alloc: Global) -> Result<Node, AllocError> {
    let sine = apply(alloc, "sin", leaf('x'))?;
    let two = Words::Number.of(alloc, "2")?;
    Pair::Fraction(LineThickness::Medium).of(alloc, sine, two)
}

/// Returns a matrix whose only cell contains ends of cells and of rows, which are not its direct members.
fn ends_below(alloc: Global) -> Result<Node, AllocError> {
    let mut members = Vec::new(alloc);
    members.push(Node::Row(leaves_of(alloc, "&\n")?))?;
    members.push(Words::Undefined.of(alloc, "<")?)?;
    Ok(Node::Matrix(members, ColumnAlign::Center))
}

#[test]
fn compounds_of_compounds(rt: HostRuntime) -> Result<(), Fail> {
    let alloc = rt.alloc();
    let root = "<mroot><mi>x</mi><mn>3</mn></mroot>";
    assert!(rt; prints(alloc, cube_root(alloc)?, root)?);
    let both = "<msubsup><mi>x</mi><mo>&lt;</mo><mn>2</mn></msubsup>";
    assert!(rt; prints(alloc, scripts(alloc)?, both)?);
    let fraction = "<mfrac><mi>sin</mi><mo>&#x2061;</mo><mi>x</mi><mn>2</mn></mfrac>";
    assert!(rt; prints(alloc, function_in_a_fraction(alloc)?, fraction)?);
    let matrix =
        "<mtable><mtr><mtd><mrow><mtext>[PARSE ERROR: Ampersand]</mtext><mtext>[PARSE ERROR: NewLine]</mtext></mrow><mtext>[PARSE ERROR: Undefined(\"&lt;\")]</mtext></mtd></mtr></mtable>";
    assert!(rt; prints(alloc, ends_below(alloc)?, matrix)?);
    Ok(())
}
