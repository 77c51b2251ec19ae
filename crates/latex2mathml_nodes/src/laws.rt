//! Laws of nodes: of styles and markup.
ghost use Rattle.std.specs.Prelude.{◌≡◌};
ghost use Rattle.latex2mathml_trees.specs.{Arguments.HasNoArgument, Markup.IsBalanced, MathSchema.IsOneElement, Print.print, Style.styled};
ghost use Rattle.latex2mathml_nodes.specs.Nodes.{tree};

use crate::ast::Node;
use latex2mathml_tokens::attribute::Variant;

/// If a node is given two styles, the later one stays.
#[tactic(auto, using(crate::proofs::Styles::restyled))]
pub fn restyled(node: &Node, first: Variant, later: Variant)
    ensures { styled later (styled first (tree node.now)) ≡ styled later (tree node.now) }
{
    let _ = node;
    let _ = first;
    let _ = later;
}

/// The print of a node is balanced markup, whatever texts and characters the node holds.
#[tactic(auto, using(latex2mathml_trees::proofs::Elements::print_is_balanced))]
pub fn balanced(node: &Node)
    ensures { IsBalanced (print (tree node.now)) }
{
    let _ = node;
}

/// If no function in a node has an argument, the print is one element that obeys the child table.
#[tactic(auto, using(latex2mathml_trees::proofs::Elements::one_element))]
pub fn one_element(node: &Node)
    ensures { HasNoArgument (tree node.now) → IsOneElement (print (tree node.now)) }
{
    let _ = node;
}
