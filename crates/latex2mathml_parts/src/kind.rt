//! What a part is.
ghost use Rattle.std.specs.Prelude.{◌≡◌};
ghost use Rattle.latex2mathml_parts.specs.Parts.{arity};

use latex2mathml_tokens::DisplayStyle;
use latex2mathml_tokens::attribute::{Accent, Variant};
use latex2mathml_tokens::names::{FunctionName, LimitName, Paren, Size};

/// What a part is, ordered by how many operands it has.
#[derive(Clone, Copy)]
pub enum Kind<'a> {
    // Parts without operands.
    Number(&'a str),
    /// A letter, or any other character that represents itself, and its style.
    Letter(char, Variant),
    Operator(char),
    Paren(Paren),
    Ampersand,
    NewLine,
    /// A space, in eighteenths of an em.
    Space(i32),
    Function(FunctionName),
    /// The name of a function that takes a limit, without one.
    Limit(LimitName),
    /// A parenthesis of a size of its own.
    SizedParen(Size, Paren),
    // Parts of one operand.
    /// A prime after the operand.
    Primed,
    /// A sign over the operand, and whether it is the operand's accent.
    Over(char, Accent),
    /// A sign under the operand, and whether it is the operand's accent.
    Under(char, Accent),
    Sqrt,
    /// A brace over the operand.
    Overbrace(char),
    /// A brace under the operand.
    Underbrace(char),
    /// An operator, and the operand as the limit under it.
    LimitBelow(char),
    /// An operator, and the operand as the limit over it.
    LimitAbove(char),
    /// An operator, and the operand as its subscript.
    LimitSub(char),
    /// An operator, and the operand as its superscript.
    LimitSup(char),
    /// The name of a function, and the operand as the limit under it.
    LimitUnder(LimitName),
    /// The operand between two fences. A missing fence is a period in the formula.
    Fenced(Option<Paren>, Option<Paren>),
    // Parts of two operands, which follow one another.
    /// A base and its subscript.
    Sub,
    /// A base and its superscript.
    Sup,
    /// The numerator and the denominator.
    Frac,
    /// The upper and the lower number of a binomial coefficient.
    Binom(Option<DisplayStyle>),
    /// What is over the base, and then the base.
    Overset,
    /// What is under the base, and then the base.
    Underset,
    /// The degree, and then the radicand.
    Root,
    /// What is under a brace, and then the label over the brace.
    OverbraceWith(char),
    /// What is over a brace, and then the label under the brace.
    UnderbraceWith(char),
    /// An operator between two limits: the one under it, and then the one over it.
    LimitsBelowAbove(char),
    /// An operator between two limits: the one over it, and then the one under it.
    LimitsAboveBelow(char),
    /// An operator with its subscript, and then its superscript.
    LimitsSubSup(char),
    /// An operator with its superscript, and then its subscript.
    LimitsSupSub(char),
}

impl Kind<'_> {
    /// Returns how many operands a part of this kind has.
    #[inline(always)]
    pub fn arity(self) -> usize
        ensures { result ≡ arity self.entry }
    {
        match self {
            Kind::Number(_) | Kind::Letter(_, _) | Kind::Operator(_) | Kind::Paren(_) => 0,
            Kind::Ampersand | Kind::NewLine | Kind::Space(_) | Kind::Function(_) => 0,
            Kind::Limit(_) | Kind::SizedParen(_, _) => 0,
            Kind::Primed | Kind::Over(_, _) | Kind::Under(_, _) | Kind::Sqrt => 1,
            Kind::Overbrace(_) | Kind::Underbrace(_) | Kind::LimitBelow(_) => 1,
            Kind::LimitAbove(_) | Kind::LimitSub(_) | Kind::LimitSup(_) => 1,
            Kind::LimitUnder(_) | Kind::Fenced(_, _) => 1,
            Kind::Sub | Kind::Sup | Kind::Frac | Kind::Binom(_) | Kind::Overset => 2,
            Kind::Underset | Kind::Root | Kind::OverbraceWith(_) => 2,
            Kind::UnderbraceWith(_) | Kind::LimitsBelowAbove(_) => 2,
            Kind::LimitsAboveBelow(_) | Kind::LimitsSubSup(_) | Kind::LimitsSupSub(_) => 2,
        }
    }
}
