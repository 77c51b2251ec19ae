//! A node that contains each kind of node.

use latex2mathml::DisplayStyle;
use latex2mathml::ast::Node;
use latex2mathml::attribute::{Accent, ColumnAlign, LineThickness, Variant};
use latex2mathml_samples::samples::{Frame, Words, apply};
use std::alloc::{AllocError, Global};

fn number(alloc: Global) -> Result<Node, AllocError> {
    Words::Number.of(alloc, "3.14")
}

/// Returns a node that holds memory, so that a node that is not freed is noticed.
fn inner(alloc: Global) -> Result<Box<Node>, AllocError> {
    Ok(Box::new(alloc, number(alloc)?)?)
}

fn with_none(alloc: Global) -> Result<Node, AllocError> {
    let sized = Node::SizedParen {
        size: "1.2em",
        paren: "(",
    };
    let leaves = vec![in alloc;
        Node::Letter('x', Variant::Italic),
        Node::Operator('+'),
        Node::Space(3),
        Node::Ampersand,
        Node::NewLine,
        Node::OtherOperator(":="),
        sized,
    ]?;
    Ok(Node::Row(leaves))
}

fn with_text(alloc: Global) -> Result<Node, AllocError> {
    let mut nodes = Vec::new(alloc);
    for (kind, text) in [
        (Words::Number, "3.14"),
        (Words::Function, "sin"),
        (Words::Stretched(true), "|"),
        (Words::Text, "words"),
        (Words::Undefined, "foo"),
    ] {
        nodes.push(kind.of(alloc, text)?)?;
    }
    Ok(Node::Row(nodes))
}

fn under_a_sign(alloc: Global) -> Result<Node, AllocError> {
    let mut nodes = Vec::new(alloc);
    for kind in [
        Frame::Over('^', Accent::True),
        Frame::Under('_', Accent::False),
        Frame::Root,
        Frame::Slash,
    ] {
        nodes.push(kind.around(alloc, number(alloc)?)?)?;
    }
    Ok(Node::Row(nodes))
}

fn with_one(alloc: Global) -> Result<Node, AllocError> {
    let mut nodes = Vec::new(alloc);
    nodes.push(apply(alloc, "sin", number(alloc)?)?)?;
    nodes.push(Node::Style(Some(DisplayStyle::Block), inner(alloc)?))?;
    nodes.push(Node::Fenced {
        opening: "(",
        close: ")",
        content: inner(alloc)?,
    })?;
    Ok(Node::Row(nodes))
}

/// Returns the node of two nodes with this number.
fn pair(alloc: Global, number: usize) -> Result<Node, AllocError> {
    let a = inner(alloc)?;
    let b = inner(alloc)?;
    Ok(match number {
        0 => Node::Subscript(a, b),
        1 => Node::Superscript(a, b),
        2 => Node::Under(a, b),
        3 => Node::Sqrt(Some(a), b),
        4 => Node::Frac(a, b, LineThickness::Medium),
        5 => Node::Overset { over: a, target: b },
        _ => Node::Underset {
            under: a,
            target: b,
        },
    })
}

fn with_two(alloc: Global) -> Result<Node, AllocError> {
    let mut nodes = Vec::new(alloc);
    for number in 0..7 {
        nodes.push(pair(alloc, number)?)?;
    }
    Ok(Node::Row(nodes))
}

fn with_three(alloc: Global) -> Result<Node, AllocError> {
    let mut nodes = Vec::new(alloc);
    nodes.push(Node::SubSup {
        target: inner(alloc)?,
        sub: inner(alloc)?,
        sup: inner(alloc)?,
    })?;
    nodes.push(Node::UnderOver {
        target: inner(alloc)?,
        under: inner(alloc)?,
        over: inner(alloc)?,
    })?;
    Ok(Node::Row(nodes))
}

/// Returns the row of the matrix with this number.
fn row(alloc: Global, number: usize) -> Result<Node, AllocError> {
    match number {
        0 => with_none(alloc),
        1 => with_text(alloc),
        2 => under_a_sign(alloc),
        3 => with_one(alloc),
        4 => with_two(alloc),
        _ => with_three(alloc),
    }
}

/// Returns a matrix whose rows have nodes of all kinds.
pub fn every_kind(alloc: Global) -> Result<Node, AllocError> {
    let mut rows = Vec::new(alloc);
    for number in 0..6 {
        rows.push(row(alloc, number)?)?;
    }
    Ok(Node::Matrix(rows, ColumnAlign::Left))
}
