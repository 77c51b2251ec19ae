//! An element without its children.
ghost use Rattle.std.specs.Prelude.{◌≡◌};
ghost use Rattle.latex2mathml_builder.specs.Built.{is_space_part};

use latex2mathml_attributes::around::Around;
use latex2mathml_attributes::attributes::{Attributes, MathStyle};
use latex2mathml_attributes::columns::Columns;
use latex2mathml_attributes::extent::Extent;
use latex2mathml_attributes::tag::{Container, Pair, Token, Triple};

/// An element. Its text is a part of the builder's texts. Its children are next to each other among the settled elements. Most
/// elements have no attributes, which `None` stands for.
#[derive(Clone, Copy)]
pub(crate) enum Part {
    /// A text: where it starts and where it ends in the texts, in bytes.
    Token(Token, Option<Attributes>, usize, usize),
    /// A space, in eighteenths of an em.
    Space(i32),
    /// An empty or black rectangle.
    Rectangle(Extent),
    /// The child.
    Around(Around, usize),
    /// The first child, and how many there are.
    Container(Container, Option<Attributes>, usize, usize),
    /// The first child.
    Pair(Pair, Option<Attributes>, usize),
    /// The first child, and whether the third comes before the second.
    Triple(Triple, Option<Attributes>, usize, bool),
    /// A style of its own, if any, and the columns; the first row, and how many there are.
    Table(Option<MathStyle>, Columns, usize, usize),
}

impl Part {
    /// Whether MathML takes it as space.
    pub(crate) fn is_space(&self) -> bool
        ensures { result ≡ is_space_part self.now }
    {
        matches!(
            self,
            Part::Token(Token::Mtext, _, _, _) | Part::Space(_) | Part::Rectangle(_)
        )
    }
}
