//! What is around the operands of a part, by its kind.
ghost use Rattle.std.specs.Prelude.{◌<◌};
ghost use Rattle.latex2mathml_trees.specs.Texts.{Appends};
ghost use Rattle.latex2mathml_parts.specs.{Parts.arity, Shapes.IsShapeOf, Shapes.ending_text, Shapes.opening_text};

use crate::kind::Kind;
use crate::write::shapes::Operands::{Braced, Fenced, Labelled, Named, One, Signed, Swapped, Two};
use latex2mathml_tokens::DisplayStyle;
use latex2mathml_tokens::attribute::Accent;
use latex2mathml_tokens::names::{LimitName, Paren};
use std::alloc::AllocError;

/// An element, or several around one another, of operands or members.
#[derive(Clone, Copy)]
pub(crate) enum Tag {
    Row,
    Sqrt,
    Sup,
    Sub,
    Frac,
    Over,
    Under,
    Root,
    SubSup,
    UnderOver,
    /// A superscript that is a prime, which is in the text that ends the element.
    Primed,
    /// Two elements. The second is opened after the first operand.
    TwoOver,
    TwoUnder,
    Matrix,
    LeftMatrix,
    RightMatrix,
    Binom,
    BlockBinom,
    InlineBinom,
    /// The end of a cell of a matrix, and the beginning of the next. Nothing opens it.
    Cell,
    /// The same for a row of a matrix.
    MatrixRow,
}

/// Each text has a length that is known, in a function that is not inlined. Inlined, it would be one of many branches of its
/// caller, which the compiler takes for rare, and a call would copy the text.
impl Tag {
    /// Appends what opens the element.
    #[inline(never)]
    pub(crate) fn open(self, out: &mut String) -> Result<(), AllocError>
        ensures { Appends out.old out.new (opening_text self) result }
    {
        match self {
            Tag::Row => out.push_str("<mrow>"),
            Tag::Sqrt => out.push_str("<msqrt>"),
            Tag::Sup | Tag::Primed => out.push_str("<msup>"),
            Tag::Sub => out.push_str("<msub>"),
            Tag::Frac => out.push_str("<mfrac>"),
            Tag::Over | Tag::TwoOver => out.push_str("<mover>"),
            Tag::Under | Tag::TwoUnder => out.push_str("<munder>"),
            Tag::Root => out.push_str("<mroot>"),
            Tag::SubSup => out.push_str("<msubsup>"),
            Tag::UnderOver => out.push_str("<munderover>"),
            Tag::Matrix => out.push_str("<mtable><mtr><mtd>"),
            Tag::LeftMatrix => out.push_str("<mtable columnalign=\"left\"><mtr><mtd>"),
            Tag::RightMatrix => out.push_str("<mtable columnalign=\"right\"><mtr><mtd>"),
            Tag::Binom => out.push_str(
                "<mrow><mo stretchy=\"true\" form=\"prefix\">(</mo><mfrac linethickness=\"0\">",
            ),
            Tag::BlockBinom => out.push_str(
                "<mstyle displaystyle=\"true\"><mrow><mrow><mo stretchy=\"true\" form=\"prefix\">(</mo><mfrac linethickness=\"0\">",
            ),
            Tag::InlineBinom => out.push_str(
                "<mstyle displaystyle=\"false\"><mrow><mrow><mo stretchy=\"true\" form=\"prefix\">(</mo><mfrac linethickness=\"0\">",
            ),
            Tag::Cell | Tag::MatrixRow => Ok(()),
        }
    }

    /// Appends what ends the element.
    #[inline(never)]
    #[tactic(auto, using(crate::proofs::Markups::appended), unfolding(crate::proofs::Encoding::encode_utf8))]
    pub(crate) fn end(self, out: &mut String) -> Result<(), AllocError>
        ensures { Appends out.old out.new (ending_text self) result }
    {
        match self {
            Tag::Row => out.push_str("</mrow>"),
            Tag::Sqrt => out.push_str("</msqrt>"),
            Tag::Sup => out.push_str("</msup>"),
            Tag::Sub => out.push_str("</msub>"),
            Tag::Frac => out.push_str("</mfrac>"),
            Tag::Over => out.push_str("</mover>"),
            Tag::Under => out.push_str("</munder>"),
            Tag::Root => out.push_str("</mroot>"),
            Tag::SubSup => out.push_str("</msubsup>"),
            Tag::UnderOver => out.push_str("</munderover>"),
            Tag::Primed => out.push_str("<mo>′</mo></msup>"),
            Tag::TwoOver => out.push_str("</mover></mover>"),
            Tag::TwoUnder => out.push_str("</munder></munder>"),
            Tag::Matrix | Tag::LeftMatrix | Tag::RightMatrix => {
                out.push_str("</mtd></mtr></mtable>")
            }
            Tag::Binom => out.push_str(
                "</mfrac><mo stretchy=\"true\" form=\"postfix\">)</mo></mrow>",
            ),
            Tag::BlockBinom | Tag::InlineBinom => out.push_str(
                "</mfrac><mo stretchy=\"true\" form=\"postfix\">)</mo></mrow></mrow></mstyle>",
            ),
            Tag::Cell => out.push_str("</mtd><mtd>"),
            Tag::MatrixRow => out.push_str("</mtd></mtr><mtr><mtd>"),
        }
    }
}

/// The operands of a part, and their order in the markup.
#[derive(Clone, Copy)]
pub(crate) enum Operands {
    One,
    Two,
    /// The last one, and then the one before it.
    Swapped,
    /// The first of two, and then a brace with the last one as its label.
    Labelled(char),
    /// The only one, with the name of a function before it.
    Named(LimitName),
    /// The only one, between two fences.
    Fenced(Option<Paren>, Option<Paren>),
    /// The only one, and then a brace.
    Braced(char),
    /// The only one, and then a sign.
    Signed(char, Accent),
}

/// The operands of a part in an element, with an operator before them if there is one.
#[derive(Clone, Copy)]
pub(crate) struct Shape(pub(crate) Tag, pub(crate) Option<char>, pub(crate) Operands);

/// Returns the shape of a part that has operands.
#[inline(always)]
#[tactic(auto, using(crate::proofs::Markups::binom_shapes))]
pub(crate) fn shape_of(kind: Kind) -> Shape
    requires { 0 < arity kind }
    ensures { IsShapeOf kind.entry result }
{
    match kind {
        Kind::Primed => Shape(Tag::Primed, None, One),
        Kind::Over(c, accent) => Shape(Tag::Over, None, Signed(c, accent)),
        Kind::Under(c, accent) => Shape(Tag::Under, None, Signed(c, accent)),
        Kind::Overbrace(c) => Shape(Tag::Over, None, Braced(c)),
        Kind::Underbrace(c) => Shape(Tag::Under, None, Braced(c)),
        Kind::Sqrt => Shape(Tag::Sqrt, None, One),
        Kind::LimitBelow(c) => Shape(Tag::Under, Some(c), One),
        Kind::LimitAbove(c) => Shape(Tag::Over, Some(c), One),
        Kind::LimitSub(c) => Shape(Tag::Sub, Some(c), One),
        Kind::LimitSup(c) => Shape(Tag::Sup, Some(c), One),
        Kind::LimitsBelowAbove(c) => Shape(Tag::UnderOver, Some(c), Two),
        Kind::LimitsAboveBelow(c) => Shape(Tag::UnderOver, Some(c), Swapped),
        Kind::LimitsSubSup(c) => Shape(Tag::SubSup, Some(c), Two),
        Kind::LimitsSupSub(c) => Shape(Tag::SubSup, Some(c), Swapped),
        Kind::Sub => Shape(Tag::Sub, None, Two),
        Kind::Sup => Shape(Tag::Sup, None, Two),
        Kind::Frac => Shape(Tag::Frac, None, Two),
        Kind::Binom(None) => Shape(Tag::Binom, None, Two),
        Kind::Binom(Some(DisplayStyle::Block)) => Shape(Tag::BlockBinom, None, Two),
        Kind::Binom(Some(DisplayStyle::Inline)) => Shape(Tag::InlineBinom, None, Two),
        Kind::Overset => Shape(Tag::Over, None, Swapped),
        Kind::Underset => Shape(Tag::Under, None, Swapped),
        Kind::Root => Shape(Tag::Root, None, Swapped),
        Kind::OverbraceWith(c) => Shape(Tag::TwoOver, None, Labelled(c)),
        Kind::UnderbraceWith(c) => Shape(Tag::TwoUnder, None, Labelled(c)),
        Kind::LimitUnder(name) => Shape(Tag::Under, None, Named(name)),
        Kind::Fenced(opening, close) => Shape(Tag::Row, None, Fenced(opening, close)),
        _ => unreachable!(),
    }
}
