//! Equality of nodes.
ghost use Rattle.std.specs.Prelude.{◌≡◌, ◌↔◌, IsTrue};
ghost use Rattle.latex2mathml_nodes.specs.{Discreteness.same_tree, Discreteness.tree-discrete, Layers.within, Nodes.tree, Nodes.trees};
ghost use Rattle.latex2mathml_tokens.specs.Same.{same_laws};

use crate::ast::Node;
use crate::ast::layer::Inner;

/// Two nodes are equal if their contents are. This is not derived, so that the contract can say so.
impl PartialEq for Node {
    ghost eq = { λ a b. same_tree (tree a) (tree b) };

    ghost laws = { same_laws tree-discrete tree };

    fn eq(&self, other: &Node) -> bool
        ensures answer { result ≡ same_tree (tree self.now) (tree other.now) }
        ensures contents { IsTrue result ↔ (tree self.now ≡ tree other.now) }
    {
        same_contents(self, other)
    }
}

/// Whether two nodes are equal: they are of the same kind, with equal values and equal nodes in them. No kind is compared
/// with each of the others.
#[cycle(same)]
#[tactic(auto, using(crate::proofs::Layers::weighs))]
fn same_contents(a: &Node, b: &Node) -> bool
    ensures { IsTrue result ↔ (tree a.now ≡ tree b.now) }
{
    let (kind, value, inner) = a.layer();
    let (other_kind, other_value, other_inner) = b.layer();
    if kind != other_kind {
        return false;
    }
    value.is(other_value) && same_inner(inner, other_inner)
}

#[cycle(same)]
fn same_inner(a: Inner, b: Inner) -> bool
    ensures { IsTrue result ↔ (within a.entry ≡ within b.entry) }
{
    match a {
        Inner::None => matches!(b, Inner::None),
        Inner::One(x) => matches!(b, Inner::One(y) if same_contents(x, y)),
        Inner::Two(x, y) =>
            matches!(b, Inner::Two(v, w) if same_contents(x, v) && same_contents(y, w)),
        Inner::Three(x, y, z) =>
            matches!(b, Inner::Three(u, v, w) if same_contents(x, u) && same_contents(y, v) && same_contents(z, w)),
        Inner::All(members) => matches!(b, Inner::All(others) if same_members(members, others)),
    }
}

#[cycle(same)]
#[tactic(auto, using(crate::proofs::Weights::weights_at, crate::proofs::Members::same_lengths, crate::proofs::Members::same_at, crate::proofs::Members::same_more))]
fn same_members(a: &[Node], b: &[Node]) -> bool
    ensures { IsTrue result ↔ (trees a.now ≡ trees b.now) }
{
    if a.len() != b.len() {
        return false;
    }
    for i in 0..a.len() {
        if !same_contents(&a[i], &b[i]) {
            return false;
        }
    }
    true
}
