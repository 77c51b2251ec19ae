//! What the list of parts holds.
ghost use Rattle.std.specs.Prelude.{◌≡◌, ℕ, List, MatchOption};
ghost use Rattle.latex2mathml_trees.specs.Tree.{Tree};
ghost use Rattle.latex2mathml_parts.specs.Forms.{HasText, IsNoOperator, IsNoRow, StretchesTo};
ghost use Rattle.latex2mathml_parts.specs.Forms.{arity_of, put_form, restyled};
ghost use Rattle.latex2mathml_parts.specs.declared.form.Form.{Form};

use crate::kind::Kind;
use latex2mathml_tokens::attribute::{ColumnAlign, Variant};
use latex2mathml_tokens::names::Paren;

/// What a part of the list is: a part of a kind, or the result of putting parts together. A text that was spelled out is
/// set aside, and the part holds the place of that text.
#[derive(Clone, Copy)]
pub(crate) enum Form<'a> {
    Of(Kind<'a>),
    // Parts without operands.
    /// The name of a function that was spelled out.
    Name(usize),
    Words(usize),
    /// The text of a token that has no meaning where it appears.
    Undefined(usize),
    /// An operator that grows.
    Stretched(char),
    StretchedParen(Paren),
    // A part of one operand.
    Slashed,
    // Parts that say how many operands they have.
    /// The number of members, and the style that was given to them.
    Row(usize, Option<Variant>),
    /// The same, and how the columns are aligned. One more operand precedes the members: the environment's name.
    Matrix(usize, Option<Variant>, ColumnAlign),
}

/// A part of the list, after its operands.
#[derive(Clone, Copy)]
pub(crate) struct Part<'a> {
    pub(crate) form: Form<'a>,
    /// How many parts its tree has, with this one.
    pub(crate) size: usize,
}

impl<'a> Form<'a> {
    /// Returns the form of a part whose tree is given a style.
    #[inline(always)]
    #[tactic(auto, using(crate::proofs::Styles::styled_members))]
    pub(crate) fn with_style(self, variant: Variant) -> Form<'a>
        ensures arity { arity_of result ≡ arity_of self.entry }
        ensures text { (texts : List (List ℕ)) → HasText texts self.entry → HasText texts result }
        ensures trees { (texts : List (List ℕ)) (ts : List Tree) → put_form texts result ts
            ≡ restyled variant (put_form texts self.entry ts) }
    {
        match self {
            Form::Of(Kind::Letter(c, _)) => Form::Of(Kind::Letter(c, variant)),
            Form::Row(count, _) => Form::Row(count, Some(variant)),
            other => other,
        }
    }

    /// Returns the form of a part whose tree grows with what surrounds it, if the tree is an operator.
    #[inline(always)]
    pub(crate) fn stretch(self) -> Option<Form<'a>>
        ensures { MatchOption result (IsNoOperator self.entry) (StretchesTo self.entry) }
    {
        match self {
            Form::Of(Kind::Operator(c)) => Some(Form::Stretched(c)),
            Form::Of(Kind::Paren(paren)) => Some(Form::StretchedParen(paren)),
            _ => None,
        }
    }

    /// Returns how many members a part has whose tree is a row, and their style.
    #[inline(always)]
    pub(crate) fn members(self) -> Option<(usize, Option<Variant>)>
        ensures { MatchOption result (IsNoRow self.entry)
            (λ row. self.entry ≡ Form.Row row.0 row.1) }
    {
        match self {
            Form::Row(count, style) => Some((count, style)),
            _ => None,
        }
    }
}
