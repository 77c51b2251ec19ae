//! Runs the program, from its input to its output.
ghost use Rattle.std.specs.Prelude.{◌≡◌, ◌++◌, IfOk, IsTrue, codes, string_bytes};
ghost use Rattle.std.specs.Io.KnownBytes.{IsAtEnd};
ghost use Rattle.latex2mathml.specs.{Conversions.formula, Conversions.document, Formulas.IfRefused, Formulas.IsFormulaRefusal};
ghost use Rattle.latex2mathml.specs.Streams.{CanGoOn};
ghost use Rattle.latex2mathml_program.specs.Run.{IsMade, IsRun, IsProduct, conversion_of};

use latex2mathml::{
    DisplayStyle, FileFault, LatexError, Reading, Sink, Source, latex_to_mathml, laws,
    read_document, read_text, write_document, write_text,
};
use std::alloc::Global;

/// What the program is to convert.
#[derive(Debug, Clone, Copy, PartialEq, Eq)]
pub enum Job {
    /// One formula, for a line of text.
    Inline,
    /// One formula, for a block of its own.
    Block,
    /// A document: prose, with formulas between dollar signs.
    Document,
}

/// Converts all of the input, and writes the result to the output.
///
/// The result is the markup of the formula with a line feed, or the answer of the document. The input is read to its end.
/// Neither stream may have failed or ended before the call.
///
/// # Errors
///
/// - [`FileFault::Read`] if the input failed.
/// - [`FileFault::NotText`] if its bytes are not UTF-8.
/// - [`FileFault::Refused`] if the formula or the document is refused, or memory runs out.
/// - [`FileFault::Write`] if the output stopped. It then took the first bytes of the result, as many as the fault says.
///
/// After the first three, nothing was written, and the output can go on. If the input failed, or memory ran out while it was
/// being read, only a part of it was read.
pub fn run<R: Source, W: Sink>(
    alloc: Global,
    job: Job,
    input: &mut R,
    output: &mut W,
) -> Result<(), FileFault>
    requires input { CanGoOn (R.state input.old) }
    requires output { CanGoOn (W.state output.old) }
    ensures outcome { IsRun job (R.state input.old) (R.state input.new)
        (W.state output.old) (W.state output.new) result }
    ensures all_read { IsTrue (R.state input.new).ended → IsAtEnd (R.state input.new).bytes }
{
    let answer = make(alloc, job, input)?;
    match job {
        Job::Inline | Job::Block => write_text(output, answer.as_str()),
        Job::Document => write_document(output, answer.as_str()),
    }
}

/// Returns the result of the job for all bytes of the source.
fn make<S: Source>(alloc: Global, job: Job, source: &mut S) -> Result<String, FileFault>
    requires { CanGoOn (S.state source.old) }
    ensures made { IsMade (conversion_of job) (S.state source.old) (S.state source.new) result }
    ensures all_read { IsTrue (S.state source.new).ended → IsAtEnd (S.state source.new).bytes }
{
    match job {
        Job::Inline => line_made(alloc, DisplayStyle::Inline, source),
        Job::Block => line_made(alloc, DisplayStyle::Block, source),
        Job::Document => answer_made(alloc, source),
    }
}

/// Returns the markup of the formula that the source gives, with a line feed.
fn line_made<S: Source>(
    alloc: Global,
    display: DisplayStyle,
    source: &mut S,
) -> Result<String, FileFault>
    requires { CanGoOn (S.state source.old) }
    ensures made { IsMade (formula display) (S.state source.old) (S.state source.new) result }
    ensures all_read { IsTrue (S.state source.new).ended → IsAtEnd (S.state source.new).bytes }
{
    let text = read_text(alloc, source)?;
    match line(alloc, text.as_str(), display) {
        Ok(line) => Ok(line),
        Err(refusal) => Err(FileFault::Refused(refusal)),
    }
}

/// Returns the answer of the document that the source gives.
fn answer_made<S: Source>(alloc: Global, source: &mut S) -> Result<String, FileFault>
    requires { CanGoOn (S.state source.old) }
    ensures made { IsMade document (S.state source.old) (S.state source.new) result }
    ensures all_read { IsTrue (S.state source.new).ended → IsAtEnd (S.state source.new).bytes }
{
    match read_document(alloc, source) {
        Ok(Reading::Changed(answer)) => Ok(answer),
        Ok(Reading::Unchanged(text)) => Ok(text),
        Err(fault) => Err(fault),
    }
}

/// Returns the markup of a formula, with a line feed.
fn line(alloc: Global, latex: &str, display: DisplayStyle) -> Result<String, LatexError>
    ensures line { IfOk result (λ line. IsProduct (formula display) latex.now (string_bytes line)) }
    ensures refusal { IfRefused result (IsFormulaRefusal latex.now) }
{
    laws::dollar_free(latex);
    let mut markup = latex_to_mathml(alloc, latex, display)?;
    markup.push('\n')?;
    Ok(markup)
}
