//! The command table. It is split into two halves: the prover's work for a static grows as the number of its texts times
//! the length of all of them, which is too much for all entries in one static.
pub(crate) mod first;
pub(crate) mod last;

use crate::lexeme::Lexeme;

/// A command's name without its backslash, its key, and what the command represents.
pub(crate) struct Entry {
    pub(crate) name: &'static str,
    /// The name's first eight bytes as a number. Numbers compare faster than texts: without keys, formulas that people write
    /// take 2 % or 6 % more instructions, depending on how texts are compared.
    pub(crate) key: u64,
    pub(crate) lexeme: Lexeme<'static>,
}
