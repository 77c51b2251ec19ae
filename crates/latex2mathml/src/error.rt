//! Why something was not converted.
ghost use Rattle.std.specs.Prelude.{Some};
ghost use Rattle.latex2mathml.specs.Faults.{fault_text};

use latex2mathml_tokens::LatexError;
use std::error::Error;
use std::fmt;

/// Why writing stopped.
#[derive(Debug, Clone, Copy, PartialEq)]
pub enum WriteCause {
    /// The sink failed.
    Failed,
    /// The sink took no byte, although there were bytes to take.
    TookNothing,
}

/// Why something was not converted, or was not written completely.
#[derive(Debug, Drop, PartialEq)]
pub enum FileFault {
    /// The entries of the directory could not be listed.
    List,
    /// An entry of the directory could not be read, or its name is not UTF-8.
    Entry,
    /// The directory is below the 64 levels that are read.
    TooDeep,
    /// The input could not be read.
    Read,
    /// The input is not UTF-8.
    NotText,
    /// The input was refused, or memory ran out for it.
    Refused(LatexError),
    /// The file could not be opened for writing.
    Create,
    /// The output took the first `written` bytes of the text and stopped.
    Write { written: usize, cause: WriteCause },
}

/// Prints the text of the fault, such as `The output stopped after 3 bytes.`, or the text of the refusal.
impl fmt::Display for FileFault {
    ghost output = { λ fault. Some (fault_text fault) };

    fn fmt<W: fmt::Write>(&self, f: &mut fmt::Formatter<W>) -> fmt::Result {
        match self {
            FileFault::List => f.write_str("The directory could not be listed."),
            FileFault::Entry => f.write_str("An entry of the directory could not be read."),
            FileFault::TooDeep => f.write_str("The directory lies deeper than 64 levels."),
            FileFault::Read => f.write_str("The input could not be read."),
            FileFault::NotText => f.write_str("The input is not UTF-8 text."),
            FileFault::Refused(error) => write!(f, "{error}"),
            FileFault::Create => f.write_str("The file could not be created anew."),
            FileFault::Write { written, cause: _ } => write!(
                f,
                "The output stopped after {written} bytes."
            ),
        }
    }
}

impl Error for FileFault {}
