//! Nodes of formulas, made by hand.

pub use latex2mathml_nodes::ast::Node;
