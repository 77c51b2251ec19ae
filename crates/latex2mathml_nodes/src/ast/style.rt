//! The style of letters.
ghost use Rattle.std.specs.Prelude.{◌≡◌};
ghost use Rattle.latex2mathml_trees.specs.Style.{all_styled, styled};
ghost use Rattle.latex2mathml_nodes.specs.Nodes.{tree, trees};

use crate::ast::Node;
use latex2mathml_tokens::attribute::Variant;

impl Node {
    /// Gives the style to a letter, or to each member of a row in the same way. Nothing else changes, and nothing is
    /// allocated.
    ///
    /// It is for callers who make nodes by hand, and does what a command such as `\mathbf` does in a formula. It recurses to
    /// the depth to which rows are nested.
    #[cycle(style)]
    pub fn set_variant(&mut self, variant: Variant)
        ensures { tree self.new ≡ styled variant (tree self.old) }
    {
        match self {
            Node::Letter(_, own) => *own = variant,
            Node::Row(members) => set_all(members, variant),
            _ => (),
        }
    }
}

#[cycle(style)]
fn set_all(nodes: &mut [Node], variant: Variant)
    ensures { trees nodes.new ≡ all_styled variant (trees nodes.old) }
{
    for node in nodes.iter_mut() {
        node.set_variant(variant);
    }
}
