//! Tests of copies and equality of nodes of each kind.

use crate::checks::equals;
use latex2mathml_nodes::ast::Node;
use latex2mathml_samples::samples::{Frame, Pair, Sample, Triple, Words};
use latex2mathml_tokens::DisplayStyle;
use latex2mathml_tokens::attribute::{Accent, ColumnAlign, LineThickness, Variant};
use std::alloc::{AllocError, Global};
use std::test::Fail;

/// Each kind that holds no node, and for each a second one that differs only in its contents.
static LEAVES: [Sample; 29] = [
    Sample::Words(Words::Number, "1"),
    Sample::Words(Words::Number, "2"),
    Sample::Words(Words::Function, "sin"),
    Sample::Words(Words::Function, "cos"),
    Sample::Words(Words::Stretched(true), "|"),
    Sample::Words(Words::Stretched(false), "|"),
    Sample::Words(Words::Stretched(true), "/"),
    Sample::Words(Words::Text, "1"),
    Sample::Words(Words::Text, "2"),
    Sample::Words(Words::Undefined, "1"),
    Sample::Words(Words::Undefined, "2"),
    Sample::Letter('x', Variant::Italic),
    Sample::Letter('x', Variant::Bold),
    Sample::Letter('y', Variant::Italic),
    Sample::Operator('+'),
    Sample::Operator('-'),
    Sample::Space(0),
    Sample::Space(18),
    Sample::Space(-18),
    Sample::Parenthesis("("),
    Sample::Parenthesis(")"),
    Sample::Sized("1.2em", "("),
    Sample::Sized("2.470em", "("),
    Sample::Sized("1.2em", ")"),
    Sample::Ampersand,
    Sample::NewLine,
    Sample::Applied("sin", 'x'),
    Sample::Applied("sin", 'y'),
    Sample::Applied("cos", 'x'),
];

/// Each kind that holds one node, and for each others that differ only in their contents.
static FRAMES: [Sample; 20] = [
    Sample::Frame(Frame::Over('^', Accent::True), 'a'),
    Sample::Frame(Frame::Over('~', Accent::True), 'a'),
    Sample::Frame(Frame::Over('^', Accent::False), 'a'),
    Sample::Frame(Frame::Over('^', Accent::True), 'b'),
    Sample::Frame(Frame::Under('^', Accent::True), 'a'),
    Sample::Frame(Frame::Under('~', Accent::True), 'a'),
    Sample::Frame(Frame::Under('^', Accent::False), 'a'),
    Sample::Frame(Frame::Under('^', Accent::True), 'b'),
    Sample::Frame(Frame::Root, 'a'),
    Sample::Frame(Frame::Root, 'b'),
    Sample::Frame(Frame::Fence("(", ")"), 'a'),
    Sample::Frame(Frame::Fence("[", ")"), 'a'),
    Sample::Frame(Frame::Fence("(", "]"), 'a'),
    Sample::Frame(Frame::Fence("(", ")"), 'b'),
    Sample::Frame(Frame::Slash, 'a'),
    Sample::Frame(Frame::Slash, 'b'),
    Sample::Frame(Frame::Style(None), 'a'),
    Sample::Frame(Frame::Style(Some(DisplayStyle::Block)), 'a'),
    Sample::Frame(Frame::Style(Some(DisplayStyle::Inline)), 'a'),
    Sample::Frame(Frame::Style(None), 'b'),
];

/// Each kind that holds two nodes, and for each others that differ only in their contents.
static PAIRS: [Sample; 21] = [
    Sample::Pair(Pair::Subscript, '+', '-'),
    Sample::Pair(Pair::Subscript, '-', '+'),
    Sample::Pair(Pair::Superscript, '+', '-'),
    Sample::Pair(Pair::Superscript, '+', '+'),
    Sample::Pair(Pair::Under, 'a', 'b'),
    Sample::Pair(Pair::Under, 'x', 'b'),
    Sample::Pair(Pair::Under, 'a', 'x'),
    Sample::Pair(Pair::Overset, 'a', 'b'),
    Sample::Pair(Pair::Overset, 'x', 'b'),
    Sample::Pair(Pair::Overset, 'a', 'x'),
    Sample::Pair(Pair::Underset, 'a', 'b'),
    Sample::Pair(Pair::Underset, 'x', 'b'),
    Sample::Pair(Pair::Underset, 'a', 'x'),
    Sample::Pair(Pair::Root, 'a', 'b'),
    Sample::Pair(Pair::Root, 'x', 'b'),
    Sample::Pair(Pair::Root, 'a', 'x'),
    Sample::Pair(Pair::Fraction(LineThickness::Medium), 'a', 'b'),
    Sample::Pair(Pair::Fraction(LineThickness::Medium), 'x', 'b'),
    Sample::Pair(Pair::Fraction(LineThickness::Medium), 'a', 'x'),
    Sample::Pair(Pair::Fraction(LineThickness::Length(0)), 'a', 'b'),
    Sample::Pair(Pair::Fraction(LineThickness::Length(1)), 'a', 'b'),
];

/// Each kind that holds three nodes or any number of them, and for each others that differ only in their contents.
static MORE: [Sample; 15] = [
    Sample::Triple(Triple::SubSup, 'a', 'b', 'c'),
    Sample::Triple(Triple::SubSup, 'x', 'b', 'c'),
    Sample::Triple(Triple::SubSup, 'a', 'x', 'c'),
    Sample::Triple(Triple::SubSup, 'a', 'b', 'x'),
    Sample::Triple(Triple::UnderOver, 'a', 'b', 'c'),
    Sample::Triple(Triple::UnderOver, 'x', 'b', 'c'),
    Sample::Triple(Triple::UnderOver, 'a', 'x', 'c'),
    Sample::Triple(Triple::UnderOver, 'a', 'b', 'x'),
    Sample::Row(""),
    Sample::Row("+-"),
    Sample::Row("+&"),
    Sample::Matrix("", ColumnAlign::Center),
    Sample::Matrix("", ColumnAlign::Left),
    Sample::Matrix("a", ColumnAlign::Left),
    Sample::Matrix("b", ColumnAlign::Left),
];

/// Returns all of these nodes.
fn nodes(alloc: Global) -> Result<Vec<Node>, AllocError> {
    let mut nodes = Vec::new(alloc);
    for samples in [&LEAVES[..], &FRAMES[..], &PAIRS[..], &MORE[..]] {
        for sample in samples {
            nodes.push(sample.node(alloc)?)?;
        }
    }
    Ok(nodes)
}

#[test]
fn copies_are_equal(rt: HostRuntime) -> Result<(), Fail> {
    for node in &nodes(rt.alloc())? {
        assert!(rt; equals(node.clone(rt.alloc())?, node));
    }
    Ok(())
}

#[test]
fn different_nodes_differ(rt: HostRuntime) -> Result<(), Fail> {
    let nodes = nodes(rt.alloc())?;
    for (i, a) in nodes.iter().enumerate() {
        for (j, b) in nodes.iter().enumerate() {
            assert!(rt; (*a == *b) == (i == j), "{i} {j}");
        }
    }
    Ok(())
}
