//! Markup of nodes that are made by hand.
ghost use Rattle.std.specs.Prelude.{IfOk, string_bytes};
ghost use Rattle.latex2mathml.specs.Elements.{IsBalanced, IsOneElement};

use latex2mathml::ast::Node;
use latex2mathml::attribute::LineThickness;
use latex2mathml::laws;
use std::alloc::{AllocError, Global};

/// Returns a fraction of two texts, which may come from users. It is one element.
pub fn fraction(alloc: Global, numerator: String, denominator: String) -> Result<String, AllocError>
    ensures { IfOk result (λ element. IsOneElement (string_bytes element)) }
{
    let over = Box::new(alloc, Node::Text(numerator))?;
    let under = Box::new(alloc, Node::Text(denominator))?;
    let node = Node::Frac(over, under, LineThickness::Medium);
    laws::one_element(&node);
    format!(in alloc; "{node}")
}

/// Returns a formula that consists of this node. Its tags balance, whatever the node contains.
pub fn formula(alloc: Global, node: &Node) -> Result<String, AllocError>
    ensures { IfOk result (λ formula. IsBalanced (string_bytes formula)) }
{
    laws::balanced(node);
    laws::joined_markup();
    Ok(format!(in alloc; "<math>{node}</math>")?)
}
