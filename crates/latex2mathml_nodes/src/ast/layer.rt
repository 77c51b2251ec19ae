//! The topmost layer of a node: its kind, its values, and the nodes in it.
ghost use Rattle.std.specs.Prelude.{◌≡◌, ◌↔◌, IsTrue};
ghost use Rattle.latex2mathml_nodes.specs.{Layers.layer_of, Layers.own, Layers.within, Nodes.tree};

use crate::ast::Node;
use latex2mathml_tokens::DisplayStyle;
use latex2mathml_tokens::attribute::{Accent, ColumnAlign, LineThickness, Variant};

/// What is in a node in addition to nodes.
#[derive(Clone, Copy)]
pub(crate) enum Value<'a> {
    None,
    Text(&'a str),
    Texts(&'a str, &'a str),
    Sign(char),
    Styled(char, Variant),
    Accented(char, Accent),
    Width(i32),
    Line(LineThickness),
    Stretching(bool, &'a str),
    Columns(ColumnAlign),
    Display(Option<DisplayStyle>),
}

/// The nodes in a node.
#[derive(Clone, Copy)]
pub(crate) enum Inner<'a> {
    None,
    One(&'a Node),
    Two(&'a Node, &'a Node),
    Three(&'a Node, &'a Node, &'a Node),
    All(&'a [Node]),
}

impl Node {
    /// Returns a number for the kind of the node, what is in it in addition to nodes, and the nodes in it. A function with an
    /// argument is of a kind of its own, and so is a root with a degree. The kind is not an enum, because equality of 30 kinds
    /// would be proved pair by pair.
    pub(crate) fn layer(&self) -> (u8, Value<'_>, Inner<'_>)
        ensures { layer_of (tree self.now) ≡ (result.0, own result.1, within result.2) }
    {
        match self {
            Node::Number(text) => (0, Value::Text(text), Inner::None),
            Node::Letter(c, variant) => (1, Value::Styled(*c, *variant), Inner::None),
            Node::Operator(c) => (2, Value::Sign(*c), Inner::None),
            Node::Function(name, None) => (3, Value::Text(name), Inner::None),
            Node::Function(name, Some(x)) => (4, Value::Text(name), Inner::One(x)),
            Node::Space(width) => (5, Value::Width(*width), Inner::None),
            Node::Subscript(x, y) => (6, Value::None, Inner::Two(x, y)),
            Node::Superscript(x, y) => (7, Value::None, Inner::Two(x, y)),
            Node::SubSup { target, sub, sup } => (8, Value::None, Inner::Three(target, sub, sup)),
            Node::OverOp(c, accent, x) => (9, Value::Accented(*c, *accent), Inner::One(x)),
            Node::UnderOp(c, accent, x) => (10, Value::Accented(*c, *accent), Inner::One(x)),
            Node::Overset { over, target } => (11, Value::None, Inner::Two(over, target)),
            Node::Underset { under, target } => (12, Value::None, Inner::Two(under, target)),
            Node::Under(x, y) => (13, Value::None, Inner::Two(x, y)),
            Node::UnderOver {
                target: x,
                under: y,
                over: z,
            } => (14, Value::None, Inner::Three(x, y, z)),
            Node::Sqrt(Some(x), y) => (15, Value::None, Inner::Two(x, y)),
            Node::Sqrt(None, x) => (16, Value::None, Inner::One(x)),
            Node::Frac(x, y, thickness) => (17, Value::Line(*thickness), Inner::Two(x, y)),
            Node::Row(members) => (18, Value::None, Inner::All(members)),
            Node::Fenced {
                opening,
                close,
                content,
            } => (19, Value::Texts(opening, close), Inner::One(content)),
            Node::StrechedOp(grows, text) => (20, Value::Stretching(*grows, text), Inner::None),
            Node::OtherOperator(text) => (21, Value::Text(text), Inner::None),
            Node::SizedParen { size, paren } => (22, Value::Texts(size, paren), Inner::None),
            Node::Text(text) => (23, Value::Text(text), Inner::None),
            Node::Matrix(members, align) => (24, Value::Columns(*align), Inner::All(members)),
            Node::Ampersand => (25, Value::None, Inner::None),
            Node::NewLine => (26, Value::None, Inner::None),
            Node::Slashed(x) => (27, Value::None, Inner::One(x)),
            Node::Style(display, x) => (28, Value::Display(*display), Inner::One(x)),
            Node::Undefined(text) => (29, Value::Text(text), Inner::None),
        }
    }
}

impl Value<'_> {
    /// Whether two values are equal.
    pub(crate) fn is(self, other: Value) -> bool
        ensures { IsTrue result ↔ (own self.entry ≡ own other.entry) }
    {
        match self {
            Value::None => matches!(other, Value::None),
            Value::Text(text) => matches!(other, Value::Text(t) if text == t),
            Value::Texts(first, last) =>
                matches!(other, Value::Texts(t, u) if first == t && last == u),
            Value::Sign(c) => matches!(other, Value::Sign(d) if c == d),
            Value::Styled(c, variant) =>
                matches!(other, Value::Styled(d, v) if c == d && variant == v),
            Value::Accented(c, accent) =>
                matches!(other, Value::Accented(d, a) if c == d && accent == a),
            Value::Width(width) => matches!(other, Value::Width(w) if width == w),
            Value::Line(thickness) => matches!(other, Value::Line(t) if thickness == t),
            Value::Stretching(is_stretchy, text) =>
                matches!(other, Value::Stretching(s, t) if is_stretchy == s && text == t),
            Value::Columns(align) => matches!(other, Value::Columns(a) if align == a),
            Value::Display(display) => matches!(other, Value::Display(d) if display == d),
        }
    }
}
