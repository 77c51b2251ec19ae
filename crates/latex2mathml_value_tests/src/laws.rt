//! Calls each law of nodes. A law returns nothing, and its statement is proved, so the call only has to return.

use latex2mathml_nodes::ast::Node;
use latex2mathml_nodes::laws;
use latex2mathml_samples::samples::{Words, apply};
use std::test::Fail;

/// Calls the laws of markup for the node.
fn call(node: Node) {
    laws::balanced(&node);
    laws::one_element(&node);
}

#[test]
fn of_markup(rt: HostRuntime) -> Result<(), Fail> {
    call(Words::Number.of(rt.alloc(), "</mn><math>&")?);
    call(apply(rt.alloc(), "]]></mi><!--", Node::Operator('<'))?);
    Ok(())
}
