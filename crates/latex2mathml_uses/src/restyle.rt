//! A style that is given to a node.
ghost use Rattle.std.specs.Prelude.{◌≡◌, ◌≢◌, ◌↔◌, IfOk, IsTrue, OnOk};
ghost use Rattle.latex2mathml.specs.{Style.styled, Tree.tree};

use latex2mathml::ast::Node;
use latex2mathml::attribute::Variant;
use std::alloc::{AllocError, Global};

/// Gives the style to the node, and returns whether that changed it.
pub fn restyle(alloc: Global, node: &mut Node, variant: Variant) -> Result<bool, AllocError>
    ensures styled { OnOk result (tree node.new ≡ styled variant (tree node.old)) }
    ensures changed { IfOk result (λ changed. IsTrue changed ↔ (tree node.new ≢ tree node.old)) }
{
    let before = node.clone(alloc)?;
    node.set_variant(variant);
    Ok(*node != before)
}
