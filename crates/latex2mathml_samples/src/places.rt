//! The places of nodes in other nodes.

use crate::samples::{Frame, Pair, Triple, apply, leaf};
use latex2mathml_nodes::ast::Node;
use latex2mathml_tokens::attribute::{Accent, ColumnAlign, LineThickness};
use std::alloc::{AllocError, Global};

/// A place of a node in another one. In lists, other nodes may be before and after it.
#[derive(Clone, Copy)]
pub enum Place {
    Argument,
    Framed(Frame),
    First(Pair),
    Second(Pair),
    Target(Triple),
    Below(Triple),
    Above(Triple),
    Row(Option<bool>, Option<bool>),
    Matrix(Option<bool>, Option<bool>),
}

/// Each place in each kind of node, with a name.
pub static PLACES: [(&str, Place); 34] = [
    ("argument", Place::Argument),
    ("below-sign", Place::Framed(Frame::Over('^', Accent::True))),
    (
        "above-sign",
        Place::Framed(Frame::Under('_', Accent::False)),
    ),
    ("root", Place::Framed(Frame::Root)),
    ("fences", Place::Framed(Frame::Fence("(", ")"))),
    ("slash", Place::Framed(Frame::Slash)),
    ("style", Place::Framed(Frame::Style(None))),
    ("base-of-subscript", Place::First(Pair::Subscript)),
    ("subscript", Place::Second(Pair::Subscript)),
    ("base-of-superscript", Place::First(Pair::Superscript)),
    ("superscript", Place::Second(Pair::Superscript)),
    ("set-over", Place::First(Pair::Overset)),
    ("base-of-set-over", Place::Second(Pair::Overset)),
    ("set-under", Place::First(Pair::Underset)),
    ("base-of-set-under", Place::Second(Pair::Underset)),
    ("base-of-limit", Place::First(Pair::Under)),
    ("limit", Place::Second(Pair::Under)),
    ("degree", Place::First(Pair::Root)),
    ("root-with-degree", Place::Second(Pair::Root)),
    (
        "numerator",
        Place::First(Pair::Fraction(LineThickness::Medium)),
    ),
    (
        "denominator",
        Place::Second(Pair::Fraction(LineThickness::Medium)),
    ),
    ("base-of-scripts", Place::Target(Triple::SubSup)),
    ("first-script", Place::Below(Triple::SubSup)),
    ("second-script", Place::Above(Triple::SubSup)),
    ("base-of-limits", Place::Target(Triple::UnderOver)),
    ("lower-limit", Place::Below(Triple::UnderOver)),
    ("upper-limit", Place::Above(Triple::UnderOver)),
    ("row", Place::Row(None, None)),
    ("first-of-row", Place::Row(None, Some(false))),
    ("last-of-row", Place::Row(Some(false), None)),
    ("first-before-compound", Place::Row(None, Some(true))),
    ("last-behind-compound", Place::Row(Some(true), None)),
    ("first-of-matrix", Place::Matrix(None, Some(false))),
    ("middle-of-matrix", Place::Matrix(Some(true), Some(true))),
];

impl Place {
    /// Returns a node that has the given one in this place.
    pub fn around(self, alloc: Global, x: Node) -> Result<Node, AllocError> {
        match self {
            Place::Argument => apply(alloc, "sin", x),
            Place::Framed(frame) => frame.around(alloc, x),
            Place::First(pair) => pair.of(alloc, x, leaf('a')),
            Place::Second(pair) => pair.of(alloc, leaf('a'), x),
            Place::Target(triple) => triple.of(alloc, x, leaf('a'), leaf('b')),
            Place::Below(triple) => triple.of(alloc, leaf('a'), x, leaf('b')),
            Place::Above(triple) => triple.of(alloc, leaf('a'), leaf('b'), x),
            Place::Row(before, after) => Ok(Node::Row(between(alloc, before, x, after)?)),
            Place::Matrix(before, after) => {
                let cells = between(alloc, before, x, after)?;
                Ok(Node::Matrix(cells, ColumnAlign::Center))
            }
        }
    }
}

/// Returns a letter inside the given number of nodes, each of which has the previous one in this place.
pub fn nested(
    alloc: Global,
    place: Place,
    levels: usize,
    letter: char,
) -> Result<Node, AllocError> {
    let mut x = leaf(letter);
    for _ in 0..levels {
        x = place.around(alloc, x)?;
    }
    Ok(x)
}

/// Returns a node that may be before or after a node in a list: one that holds no node, or one that holds a node.
fn beside(alloc: Global, is_compound: bool) -> Result<Node, AllocError> {
    if is_compound {
        Frame::Slash.around(alloc, leaf('a'))
    } else {
        Ok(leaf('a'))
    }
}

/// Adds what may be next to a node, if anything is.
fn push_beside(
    alloc: Global,
    nodes: &mut Vec<Node>,
    is_compound: Option<bool>,
) -> Result<(), AllocError> {
    if let Some(is_compound) = is_compound {
        nodes.push(beside(alloc, is_compound)?)?;
    }
    Ok(())
}

/// Returns the node between others of the list, which may be missing.
fn between(
    alloc: Global,
    before: Option<bool>,
    x: Node,
    after: Option<bool>,
) -> Result<Vec<Node>, AllocError> {
    let mut nodes = Vec::new(alloc);
    push_beside(alloc, &mut nodes, before)?;
    nodes.push(x)?;
    push_beside(alloc, &mut nodes, after)?;
    Ok(nodes)
}
