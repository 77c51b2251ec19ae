//! The environments that exist.
ghost use Rattle.std.specs.Prelude.{◌≡◌, None, MatchOption};
ghost use Rattle.latex2mathml_trees.specs.{Productions.environment_tree, Tree.Tree};
ghost use Rattle.latex2mathml_parts.specs.Environments.{IsNamed};

use latex2mathml_tokens::attribute::ColumnAlign;
use latex2mathml_tokens::names::Paren;

/// What an environment makes of its members.
#[derive(Clone, Copy)]
pub(crate) enum Environment {
    Matrix(ColumnAlign),
    /// A matrix between two fences.
    Fenced(Paren, Paren),
}

impl Environment {
    /// Returns the environment of this name, if there is one.
    pub(crate) fn of(name: &str) -> Option<Environment>
        ensures { MatchOption result
            ((group : Tree) → environment_tree name.now group ≡ None)
            (IsNamed name.now) }
    {
        match name {
            "matrix" => Some(Environment::Matrix(ColumnAlign::Center)),
            "align" => Some(Environment::Matrix(ColumnAlign::Left)),
            "pmatrix" => Some(Environment::Fenced(Paren::LeftRound, Paren::RightRound)),
            "bmatrix" => Some(Environment::Fenced(Paren::LeftSquare, Paren::RightSquare)),
            "vmatrix" => Some(Environment::Fenced(Paren::Bar, Paren::Bar)),
            _ => None,
        }
    }
}
