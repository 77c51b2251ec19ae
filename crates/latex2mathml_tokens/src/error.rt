//! Why a formula or a document is refused.
ghost use Rattle.std.specs.Prelude.{◌≡◌, ◌↔◌, Some, IsTrue, IfOk};
ghost use Rattle.latex2mathml_tokens.specs.Discreteness.{optional_refusal-discrete, same_refusal};
ghost use Rattle.latex2mathml_tokens.specs.{Refusal.error_text, Refusal.refusal_of, Same.same_laws};
ghost use Rattle.latex2mathml_tokens.specs.declared.error.LatexError.TheVariants.{OutOfMemory};

use crate::token::Token;
use crate::token::text::TokenText;
use std::alloc::{AllocError, AllocFailed, Global};
use std::error::Error;
use std::fmt;

/// Why a formula or a document is refused, or that memory ran out. The names and texts are those of the original crate,
/// including its mistakes.
#[derive(Debug, Drop)]
pub enum LatexError {
    /// A token is expected and another one is found: a group is open at the end of the formula, or no parenthesis follows a
    /// size.
    UnexpectedToken { expected: Token, got: Token },
    /// No fence follows `\left` or `\right`, or what follows `\middle` does not stretch. `got` is what was found.
    MissingParensethis { location: Token, got: Token },
    /// No environment has this name.
    UnknownEnvironment(String),
    /// The dollar signs of a document do not pair up into formulas. No formula is refused for this.
    InvalidNumberOfDollarSigns,
    /// Out of memory. A call that allocates may return it in place of any other result.
    OutOfMemory,
}

impl LatexError {
    /// Returns an error with the same contents, or an `Err` if memory runs out for its texts. An `Err` leaves nothing allocated.
    pub fn clone(&self, alloc: Global) -> Result<LatexError, AllocError>
        ensures { IfOk result (λ copy. refusal_of copy ≡ refusal_of self.now) }
    {
        match self {
            LatexError::UnexpectedToken { expected, got } => Ok(LatexError::UnexpectedToken {
                expected: expected.clone(alloc)?,
                got: got.clone(alloc)?,
            }),
            LatexError::MissingParensethis { location, got } => Ok(
                LatexError::MissingParensethis {
                    location: location.clone(alloc)?,
                    got: got.clone(alloc)?,
                },
            ),
            LatexError::UnknownEnvironment(name) => {
                Ok(LatexError::UnknownEnvironment(String::from_str(alloc, name)?))
            }
            LatexError::InvalidNumberOfDollarSigns => Ok(LatexError::InvalidNumberOfDollarSigns),
            LatexError::OutOfMemory => Ok(LatexError::OutOfMemory),
        }
    }
}

/// Two errors are equal if their contents are.
impl PartialEq for LatexError {
    ghost eq = { λ a b. same_refusal (refusal_of a) (refusal_of b) };

    ghost laws = { same_laws optional_refusal-discrete refusal_of };

    fn eq(&self, other: &LatexError) -> bool
        ensures answer { result ≡ same_refusal (refusal_of self.now) (refusal_of other.now) }
        ensures contents { IsTrue result ↔ (refusal_of self.now ≡ refusal_of other.now) }
    {
        match self {
            LatexError::UnexpectedToken { expected, got } => matches!(
                other,
                LatexError::UnexpectedToken { expected: token, got: found } if expected == token && got == found
            ),
            LatexError::MissingParensethis { location, got } => matches!(
                other,
                LatexError::MissingParensethis { location: token, got: found } if location == token && got == found
            ),
            LatexError::UnknownEnvironment(name) =>
                matches!(other, LatexError::UnknownEnvironment(text) if name == text),
            LatexError::InvalidNumberOfDollarSigns => matches!(
                other,
                LatexError::InvalidNumberOfDollarSigns
            ),
            LatexError::OutOfMemory => matches!(other, LatexError::OutOfMemory),
        }
    }
}

/// Prints the text of the refusal, such as `Memory could not be found.`
impl fmt::Display for LatexError {
    ghost output = { λ error. Some (error_text (refusal_of error)) };

    fn fmt<W: fmt::Write>(&self, f: &mut fmt::Formatter<W>) -> fmt::Result {
        match self {
            LatexError::UnexpectedToken { expected, got } => write!(
                f,
                "The token \"{}\" is expected, but the token \"{}\" is found.\"",
                TokenText(expected),
                TokenText(got)
            ),
            LatexError::MissingParensethis { location, got } => write!(
                f,
                "There must be a parenthesis after \"{}\", but not found. Insted, \"{}\" is found.",
                TokenText(location),
                TokenText(got)
            ),
            LatexError::UnknownEnvironment(name) => {
                write!(f, "An unknown environment \"{name}\" is found")
            }
            LatexError::InvalidNumberOfDollarSigns => {
                f.write_str("The number of dollar sings found is invalid.")
            }
            LatexError::OutOfMemory => f.write_str("Memory could not be found."),
        }
    }
}

impl Error for LatexError {}

impl From<AllocError> for LatexError {
    ghost from_gives = { λ _ error. error ≡ OutOfMemory };

    fn from(_refused: AllocError) -> LatexError {
        LatexError::OutOfMemory
    }
}

impl<T: Drop> From<AllocFailed<T>> for LatexError {
    ghost from_gives = { λ _ error. error ≡ OutOfMemory };

    fn from(_refused: AllocFailed<T>) -> LatexError {
        LatexError::OutOfMemory
    }
}
