//! Reads texts and documents from sources.
ghost use Rattle.std.specs.Prelude.{ℕ, List, IfErr, IfOk, IsTrue, MatchBool, string_bytes};
ghost use Rattle.std.specs.Io.KnownBytes.{IsAtEnd};
ghost use Rattle.latex2mathml.specs.{Inputs.IsReadFault, Inputs.IsReadingOf, Streams.CanGoOn, Streams.Gives, Streams.GivesAll};
ghost use Rattle.latex2mathml_grammar.specs.Dollars.{IsDollarFree};

use crate::error::FileFault;
use crate::replace;
use crate::stream::Source;
use latex2mathml_tokens::LatexError;
use std::alloc::Global;

/// A document that was read and converted.
#[derive(Debug, Drop, PartialEq)]
pub enum Reading {
    /// The converted document, which differs from the text that was read.
    Changed(String),
    /// The text that was read, which contains no dollar sign.
    Unchanged(String),
}

/// How many bytes are requested at a time.
const ROOM: usize = 4096;

/// Reads a document to its end and converts its formulas, as [`replace`] does.
///
/// Returns [`Reading::Unchanged`] exactly if the text contains no dollar sign, not even after a backslash, and otherwise
/// [`Reading::Changed`]. The source must not have failed or ended before the call. A source that fails or ends is not called
/// again.
///
/// # Errors
///
/// - [`FileFault::Read`] if the source failed.
/// - [`FileFault::NotText`] if its bytes are not UTF-8.
/// - [`FileFault::Refused`] if the document is refused or memory runs out, which also happens if a source never ends. If
///   memory runs out during the reading, the rest of the source is not read.
#[tactic(auto, using(crate::proofs::Repeating::own_answer, crate::proofs::Repeating::differs))]
pub fn read_document<S: Source>(alloc: Global, source: &mut S) -> Result<Reading, FileFault>
    requires { CanGoOn (S.state source.old) }
    ensures reading { (bytes : List ℕ)
        × Gives (S.state source.old) (S.state source.new) bytes
        × IsReadingOf bytes (S.state source.new) result }
    ensures all_read { IsTrue (S.state source.new).ended → IsAtEnd (S.state source.new).bytes }
{
    let text = read_text(alloc, source)?;
    // A document without a dollar sign is its own answer, and need not be copied.
    if !holds_dollar(text.as_str()) {
        return Ok(Reading::Unchanged(text));
    }
    match replace(alloc, text.as_str()) {
        Ok(answer) => Ok(Reading::Changed(answer)),
        Err(refusal) => Err(FileFault::Refused(refusal)),
    }
}

/// Whether a text contains a dollar sign, which may follow a backslash.
fn holds_dollar(text: &str) -> bool
    ensures { MatchBool result (¬ IsDollarFree text.now) (IsDollarFree text.now) }
{
    text.contains('$')
}

/// Reads any text to its end and returns it.
///
/// The source must not have failed or ended before the call. A source that fails or ends is not called again.
///
/// # Errors
///
/// - [`FileFault::Read`] if the source failed.
/// - [`FileFault::NotText`] if its bytes are not UTF-8.
/// - [`FileFault::Refused`] with [`LatexError::OutOfMemory`] if memory runs out, which also happens if a source never ends.
///   The rest of the source is then not read.
pub fn read_text<S: Source>(alloc: Global, source: &mut S) -> Result<String, FileFault>
    requires { CanGoOn (S.state source.old) }
    ensures whole { IfOk result (λ text.
        GivesAll (S.state source.old) (S.state source.new) (string_bytes text)) }
    ensures fault { IfErr result (λ fault. (bytes : List ℕ)
        × Gives (S.state source.old) (S.state source.new) bytes
        × IsReadFault bytes (S.state source.new) fault) }
    ensures all_read { IsTrue (S.state source.new).ended → IsAtEnd (S.state source.new).bytes }
{
    match String::from_utf8(read_whole(alloc, source)?) {
        Ok(text) => Ok(text),
        Err(_) => Err(FileFault::NotText),
    }
}

/// Returns all bytes of the source.
fn read_whole<S: Source>(alloc: Global, source: &mut S) -> Result<Vec<u8>, FileFault>
    requires { CanGoOn (S.state source.old) }
    ensures whole { IfOk result (λ bytes.
        GivesAll (S.state source.old) (S.state source.new) bytes.items) }
    ensures fault { IfErr result (λ fault. (bytes : List ℕ)
        × Gives (S.state source.old) (S.state source.new) bytes
        × IsReadFault bytes (S.state source.new) fault) }
    ensures all_read { IsTrue (S.state source.new).ended → IsAtEnd (S.state source.new).bytes }
{
    let mut bytes = Vec::new(alloc);
    let mut room = [0u8; ROOM];
    loop {
        match source.take_in(&mut room) {
            None => return Err(FileFault::Read),
            Some(0) => return Ok(bytes),
            Some(count) => {
                if bytes.extend_from_slice(&room[..count]).is_err() {
                    return Err(FileFault::Refused(LatexError::OutOfMemory));
                }
            }
        }
    }
}
