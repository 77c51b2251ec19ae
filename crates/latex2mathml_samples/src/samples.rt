//! Nodes made by hand from plain values. Only code that handles one node, text or list at a time is cheap to prove.

use latex2mathml_nodes::ast::Node;
use latex2mathml_tokens::DisplayStyle;
use latex2mathml_tokens::attribute::{Accent, ColumnAlign, LineThickness, Variant};
use std::alloc::{AllocError, Global};

/// A kind of node that holds a text.
#[derive(Clone, Copy)]
pub enum Words {
    Number,
    Function,
    Stretched(bool),
    Text,
    Undefined,
}

impl Words {
    pub fn of(self, alloc: Global, text: &str) -> Result<Node, AllocError> {
        let text = String::from_str(alloc, text)?;
        Ok(match self {
            Words::Number => Node::Number(text),
            Words::Function => Node::Function(text, None),
            Words::Stretched(is_stretchy) => Node::StrechedOp(is_stretchy, text),
            Words::Text => Node::Text(text),
            Words::Undefined => Node::Undefined(text),
        })
    }
}

/// A kind of node that holds one node.
#[derive(Clone, Copy)]
pub enum Frame {
    Over(char, Accent),
    Under(char, Accent),
    Root,
    Fence(&'static str, &'static str),
    Slash,
    Style(Option<DisplayStyle>),
}

impl Frame {
    pub fn around(self, alloc: Global, x: Node) -> Result<Node, AllocError> {
        let x = Box::new(alloc, x)?;
        Ok(match self {
            Frame::Over(c, accent) => Node::OverOp(c, accent, x),
            Frame::Under(c, accent) => Node::UnderOp(c, accent, x),
            Frame::Root => Node::Sqrt(None, x),
            Frame::Fence(opening, close) => Node::Fenced {
                opening,
                close,
                content: x,
            },
            Frame::Slash => Node::Slashed(x),
            Frame::Style(display) => Node::Style(display, x),
        })
    }
}

/// A kind of node that holds two nodes, in the order in which it names them.
#[derive(Clone, Copy)]
pub enum Pair {
    Subscript,
    Superscript,
    Overset,
    Underset,
    Under,
    Root,
    Fraction(LineThickness),
}

impl Pair {
    pub fn of(self, alloc: Global, a: Node, b: Node) -> Result<Node, AllocError> {
        let a = Box::new(alloc, a)?;
        let b = Box::new(alloc, b)?;
        Ok(match self {
            Pair::Subscript => Node::Subscript(a, b),
            Pair::Superscript => Node::Superscript(a, b),
            Pair::Overset => Node::Overset { over: a, target: b },
            Pair::Underset => Node::Underset {
                under: a,
                target: b,
            },
            Pair::Under => Node::Under(a, b),
            Pair::Root => Node::Sqrt(Some(a), b),
            Pair::Fraction(thickness) => Node::Frac(a, b, thickness),
        })
    }
}

/// A kind of node that holds three nodes: the target, what is below it, and what is above it.
#[derive(Clone, Copy)]
pub enum Triple {
    SubSup,
    UnderOver,
}

impl Triple {
    pub fn of(
        self,
        alloc: Global,
        target: Node,
        below: Node,
        above: Node,
    ) -> Result<Node, AllocError> {
        let target = Box::new(alloc, target)?;
        let below = Box::new(alloc, below)?;
        let above = Box::new(alloc, above)?;
        Ok(match self {
            Triple::SubSup => Node::SubSup {
                target,
                sub: below,
                sup: above,
            },
            Triple::UnderOver => Node::UnderOver {
                target,
                under: below,
                over: above,
            },
        })
    }
}

/// Returns a function with an argument. No formula has such a node.
pub fn apply(alloc: Global, name: &str, argument: Node) -> Result<Node, AllocError> {
    let name = String::from_str(alloc, name)?;
    let argument = Box::new(alloc, argument)?;
    Ok(Node::Function(name, Some(argument)))
}

/// Returns a letter, the end of a cell, the end of a row, or otherwise the operator of this character.
pub fn leaf(c: char) -> Node {
    match c {
        '&' => Node::Ampersand,
        '\n' => Node::NewLine,
        c if c.is_ascii_lowercase() => Node::Letter(c, Variant::Italic),
        c => Node::Operator(c),
    }
}

/// Returns the leaves of these characters.
pub fn leaves(alloc: Global, text: &str) -> Result<Vec<Node>, AllocError> {
    let mut nodes = Vec::new(alloc);
    for c in text.chars() {
        nodes.push(leaf(c))?;
    }
    Ok(nodes)
}

/// A node as plain values. Characters represent their leaves.
#[derive(Clone, Copy)]
pub enum Sample {
    Letter(char, Variant),
    Operator(char),
    Space(i32),
    Parenthesis(&'static str),
    Sized(&'static str, &'static str),
    Ampersand,
    NewLine,
    Words(Words, &'static str),
    Applied(&'static str, char),
    Frame(Frame, char),
    Pair(Pair, char, char),
    Triple(Triple, char, char, char),
    Row(&'static str),
    Matrix(&'static str, ColumnAlign),
}

impl Sample {
    pub fn node(self, alloc: Global) -> Result<Node, AllocError> {
        match self {
            Sample::Letter(c, variant) => Ok(Node::Letter(c, variant)),
            Sample::Operator(c) => Ok(Node::Operator(c)),
            Sample::Space(width) => Ok(Node::Space(width)),
            Sample::Parenthesis(paren) => Ok(Node::OtherOperator(paren)),
            Sample::Sized(size, paren) => Ok(Node::SizedParen { size, paren }),
            Sample::Ampersand => Ok(Node::Ampersand),
            Sample::NewLine => Ok(Node::NewLine),
            Sample::Words(kind, text) => kind.of(alloc, text),
            Sample::Applied(name, c) => apply(alloc, name, leaf(c)),
            Sample::Frame(kind, c) => kind.around(alloc, leaf(c)),
            Sample::Pair(kind, a, b) => kind.of(alloc, leaf(a), leaf(b)),
            Sample::Triple(kind, a, b, c) => kind.of(alloc, leaf(a), leaf(b), leaf(c)),
            Sample::Row(text) => Ok(Node::Row(leaves(alloc, text)?)),
            Sample::Matrix(text, align) => Ok(Node::Matrix(leaves(alloc, text)?, align)),
        }
    }
}
