//! Trees of formulas.
ghost use Rattle.std.specs.Prelude.{◌≡◌, IfOk, map};
ghost use Rattle.latex2mathml_nodes.specs.Nodes.{optional_tree, tree};

mod equality;
mod layer;
pub mod print;
mod style;

use latex2mathml_tokens::DisplayStyle;
use latex2mathml_tokens::attribute::{Accent, ColumnAlign, LineThickness, Variant};
use std::alloc::{AllocError, Global};

/// A part of a formula. Its `Display` prints the markup, and escapes texts and characters in it.
///
/// `Display`, copying, comparing and dropping recurse to the node's depth. [`Node::set_variant`] recurses to the depth to which
/// rows are nested.
#[derive(Debug, Drop)]
pub enum Node {
    Number(String),
    /// A letter, or any other character that represents itself, and its style.
    Letter(char, Variant),
    Operator(char),
    /// The name of a function, and its argument, if that is known.
    Function(String, Option<Box<Node>>),
    /// A space, in eighteenths of an em.
    Space(i32),
    /// A base and its subscript.
    Subscript(Box<Node>, Box<Node>),
    /// A base and its superscript.
    Superscript(Box<Node>, Box<Node>),
    /// A base, its subscript and its superscript.
    SubSup {
        target: Box<Node>,
        sub: Box<Node>,
        sup: Box<Node>,
    },
    /// A sign over a node, and whether it is the node's accent.
    OverOp(char, Accent, Box<Node>),
    /// A sign under a node, and whether it is the node's accent.
    UnderOp(char, Accent, Box<Node>),
    /// A node with another over it.
    Overset {
        over: Box<Node>,
        target: Box<Node>,
    },
    /// A node with another under it.
    Underset {
        under: Box<Node>,
        target: Box<Node>,
    },
    /// A base and the limit under it.
    Under(Box<Node>, Box<Node>),
    /// A base, the limit under it and the limit over it.
    UnderOver {
        target: Box<Node>,
        under: Box<Node>,
        over: Box<Node>,
    },
    /// The degree of a root, if it has one, and the radicand.
    Sqrt(Option<Box<Node>>, Box<Node>),
    /// The numerator, the denominator, and the line between them.
    Frac(Box<Node>, Box<Node>, LineThickness),
    /// Nodes next to each other.
    Row(Vec<Node>),
    /// A node between two fences, which grow with it.
    Fenced {
        opening: &'static str,
        close: &'static str,
        content: Box<Node>,
    },
    /// Whether the operator grows with what is next to it, and its text.
    StrechedOp(bool, String),
    /// An operator with this text.
    OtherOperator(&'static str),
    /// A parenthesis with a size of its own, such as `1.2em`.
    SizedParen {
        size: &'static str,
        paren: &'static str,
    },
    /// Words of a text.
    Text(String),
    /// A table. Its members are the cells one after another. `Ampersand` ends a cell, and `NewLine` a row of the matrix.
    Matrix(Vec<Node>, ColumnAlign),
    /// The end of a cell, if it is a member of a matrix. Elsewhere it is marked as an error.
    Ampersand,
    /// The end of a row of a matrix, if it is a member of a matrix. Elsewhere it is marked as an
    /// error.
    NewLine,
    /// A letter or an operator with a slash through it. Any other node shows no slash.
    Slashed(Box<Node>),
    /// A node set as in a block or as in a line of text, if one of the two is given.
    Style(Option<DisplayStyle>, Box<Node>),
    /// The text of a token that has no meaning where it is. It is marked as an error.
    Undefined(String),
}

impl Node {
    /// Returns a node with the same contents, or an `Err` if memory runs out for its parts. An `Err` leaves nothing allocated.
    #[cycle(clone)]
    pub fn clone(&self, alloc: Global) -> Result<Node, AllocError>
        ensures { IfOk result (λ copy. tree copy ≡ tree self.now) }
    {
        match self {
            Node::Number(digits) => Ok(Node::Number(String::from_str(alloc, digits)?)),
            Node::Letter(c, variant) => Ok(Node::Letter(*c, *variant)),
            Node::Operator(c) => Ok(Node::Operator(*c)),
            Node::Function(name, argument) => {
                let copy = String::from_str(alloc, name)?;
                Ok(Node::Function(copy, clone_optional(argument, alloc)?))
            }
            Node::Space(width) => Ok(Node::Space(*width)),
            Node::Subscript(target, sub) => {
                Ok(Node::Subscript(clone_boxed(target, alloc)?, clone_boxed(sub, alloc)?))
            }
            Node::Superscript(target, sup) => {
                Ok(Node::Superscript(clone_boxed(target, alloc)?, clone_boxed(sup, alloc)?))
            }
            Node::SubSup { target, sub, sup } => Ok(Node::SubSup {
                target: clone_boxed(target, alloc)?,
                sub: clone_boxed(sub, alloc)?,
                sup: clone_boxed(sup, alloc)?,
            }),
            Node::OverOp(c, accent, x) => Ok(Node::OverOp(*c, *accent, clone_boxed(x, alloc)?)),
            Node::UnderOp(c, accent, x) => Ok(Node::UnderOp(*c, *accent, clone_boxed(x, alloc)?)),
            Node::Overset { over, target } => Ok(Node::Overset {
                over: clone_boxed(over, alloc)?,
                target: clone_boxed(target, alloc)?,
            }),
            Node::Underset { under, target } => Ok(Node::Underset {
                under: clone_boxed(under, alloc)?,
                target: clone_boxed(target, alloc)?,
            }),
            Node::Under(target, under) => {
                Ok(Node::Under(clone_boxed(target, alloc)?, clone_boxed(under, alloc)?))
            }
            Node::UnderOver {
                target,
                under,
                over,
            } => Ok(Node::UnderOver {
                target: clone_boxed(target, alloc)?,
                under: clone_boxed(under, alloc)?,
                over: clone_boxed(over, alloc)?,
            }),
            Node::Sqrt(degree, x) => {
                Ok(Node::Sqrt(clone_optional(degree, alloc)?, clone_boxed(x, alloc)?))
            }
            Node::Frac(a, b, thickness) => {
                Ok(Node::Frac(clone_boxed(a, alloc)?, clone_boxed(b, alloc)?, *thickness))
            }
            Node::Row(members) => Ok(Node::Row(clone_all(members, alloc)?)),
            Node::Fenced {
                opening,
                close,
                content,
            } => Ok(Node::Fenced {
                opening,
                close,
                content: clone_boxed(content, alloc)?,
            }),
            Node::StrechedOp(is_stretchy, text) => {
                Ok(Node::StrechedOp(*is_stretchy, String::from_str(alloc, text)?))
            }
            Node::OtherOperator(text) => Ok(Node::OtherOperator(text)),
            Node::SizedParen { size, paren } => Ok(Node::SizedParen { size, paren }),
            Node::Text(text) => Ok(Node::Text(String::from_str(alloc, text)?)),
            Node::Matrix(members, align) => Ok(Node::Matrix(clone_all(members, alloc)?, *align)),
            Node::Ampersand => Ok(Node::Ampersand),
            Node::NewLine => Ok(Node::NewLine),
            Node::Slashed(x) => Ok(Node::Slashed(clone_boxed(x, alloc)?)),
            Node::Style(display, x) => Ok(Node::Style(*display, clone_boxed(x, alloc)?)),
            Node::Undefined(text) => Ok(Node::Undefined(String::from_str(alloc, text)?)),
        }
    }
}

#[cycle(clone)]
fn clone_boxed(node: &Node, alloc: Global) -> Result<Box<Node>, AllocError>
    ensures { IfOk result (λ copy. tree copy.value ≡ tree node.now) }
{
    let copy = node.clone(alloc)?;
    Ok(Box::new(alloc, copy)?)
}

#[cycle(clone)]
fn clone_optional(node: &Option<Box<Node>>, alloc: Global) -> Result<Option<Box<Node>>, AllocError>
    ensures { IfOk result (λ copy. optional_tree copy ≡ optional_tree node.now) }
{
    match node {
        None => Ok(None),
        Some(node) => Ok(Some(clone_boxed(node, alloc)?)),
    }
}

#[cycle(clone)]
fn clone_all(nodes: &[Node], alloc: Global) -> Result<Vec<Node>, AllocError>
    ensures { IfOk result (λ copies. map tree copies.items ≡ map tree nodes.now) }
{
    let mut copies = Vec::new(alloc);
    for node in nodes {
        copies.push(node.clone(alloc)?)?;
    }
    Ok(copies)
}
