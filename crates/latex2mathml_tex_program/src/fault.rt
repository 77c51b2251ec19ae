//! Faults of a run.
ghost use Rattle.std.specs.Prelude.{Some};
ghost use Rattle.latex2mathml_tex_program.specs.Faults.{fault_text};

use latex2mathml::FileFault;
use latex2mathml_tex::{Position, TexError};
use std::error::Error;
use std::fmt;

/// Why a run stopped.
#[derive(Debug, Drop)]
pub enum Fault<'a> {
    /// The input could not be read or is not text, or the output stopped.
    File(FileFault),
    /// The formula is refused, or memory ran out.
    Refused(TexError),
    /// The file of definitions with this name could not be read, or is not text.
    UnreadDefinitions {
        name: &'a str,
        fault: FileFault,
    },
    /// A definition at this position in the file with this name is refused.
    RefusedDefinition {
        name: &'a str,
        position: Position,
        error: TexError,
    },
}

/// Prints the text of the file fault or of the error. A fault of definitions has the name of the file before it, and that
/// of a single definition also the line and the column, such as `macros.tex:3:1: not a definition`.
impl fmt::Display for Fault<'_> {
    ghost output = { λ fault. Some (fault_text fault) };

    fn fmt<W: fmt::Write>(&self, f: &mut fmt::Formatter<W>) -> fmt::Result {
        match self {
            Fault::File(fault) => write!(f, "{fault}"),
            Fault::Refused(error) => write!(f, "{error}"),
            Fault::UnreadDefinitions { name, fault } => write!(f, "{name}: {fault}"),
            Fault::RefusedDefinition {
                name,
                position,
                error,
            } => write!(
                f,
                "{name}:{}:{}: {}",
                position.line, position.column, error.kind
            ),
        }
    }
}

impl Error for Fault<'_> {}
