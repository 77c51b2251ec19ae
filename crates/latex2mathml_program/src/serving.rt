//! The arguments, the lines on standard error, and the status.
ghost use Rattle.std.specs.Prelude.{◌≡◌, ◌↔◌, ℕ, List, IfNone, IfSome, IsTrue, map, string_bytes};
ghost use Rattle.std.specs.Io.KnownBytes.{IsAtEnd};
ghost use Rattle.latex2mathml.specs.Streams.{CanGoOn};
ghost use Rattle.latex2mathml_program.specs.Serving.{AllUnconvertedPrinted, ExitsAfterWalk};
ghost use Rattle.latex2mathml_program.specs.Serving.{ExitsWithLines, AskFor, AskForFiles, AskForNoFiles};
ghost use Rattle.latex2mathml_program.specs.Serving.{AskForNoJob, LinePrinted, IsServed, LineWritten};
ghost use Rattle.latex2mathml_program.specs.Serving.{UnconvertedPrinted, fault_line, word_of, wrong_words};

use crate::job::{Job, run};
use latex2mathml::{FileFault, Sink, Site, Source, Unconverted, convert_site, write_text};
use std::alloc::Global;
use thiserror::Error;

/// The error for wrong arguments.
#[derive(Debug, Drop, Error)]
#[error("usage: latex2mathml inline | block | document | html PATH")]
struct Usage;

/// The line that is printed if the walk runs out of memory. Printing it allocates nothing.
const OUT_OF_MEMORY: &str = "LaTeX2MathML Error: Memory could not be found.\n";

const DONE: u8 = 0;

const REFUSED: u8 = 1;

const WRONG_WORDS: u8 = 2;

/// Does what the arguments request and returns the exit status:
///
/// - 0 if everything is done.
/// - 1 if something is not done. `errors` then gets a line that says why. For `html` it gets a line for each file or
///   directory that was not converted.
/// - 2 if the arguments are wrong. `errors` then gets the usage line.
///
/// With wrong arguments and with `html`, the input and the output are unchanged. If memory for a line runs out, the line is
/// left out. After a line that `errors` does not take completely, no line follows. Neither changes the status.
pub fn serve<S: Site, R: Source, W: Sink, E: Sink>(
    site: &mut S,
    alloc: Global,
    words: &[String],
    input: &mut R,
    output: &mut W,
    errors: &mut E,
) -> u8
    requires input { CanGoOn (R.state input.old) }
    requires output { CanGoOn (W.state output.old) }
    requires errors { CanGoOn (E.state errors.old) }
    ensures served { IsServed (map string_bytes words.now)
        (S.answers site.old) (S.answers site.new)
        (R.state input.old) (R.state input.new)
        (W.state output.old) (W.state output.new)
        (E.state errors.old) (E.state errors.new) result }
    ensures untouched { result ≡ wrong_words
        → (input.new ≡ input.old) × (output.new ≡ output.old) }
    ensures files_alone { (path : List ℕ) → AskForFiles path (map string_bytes words.now)
        → (input.new ≡ input.old) × (output.new ≡ output.old) }
    ensures all_read { IsTrue (R.state input.new).ended → IsAtEnd (R.state input.new).bytes }
{
    if let Some(path) = path_asked(words) {
        return convert(site, alloc, path, errors);
    }
    let Some(job) = job_asked(words) else {
        put_usage(alloc, errors);
        return WRONG_WORDS;
    };
    match run(alloc, job, input, output) {
        Ok(()) => DONE,
        Err(fault) => {
            put_fault(alloc, errors, &fault);
            REFUSED
        }
    }
}

/// Returns the path of the documents to convert, if the arguments are `html` and a path.
fn path_asked(words: &[String]) -> Option<&str>
    ensures asked { IfSome result (λ path. AskForFiles path.now (map string_bytes words.now)) }
    ensures other { IfNone result (AskForNoFiles (map string_bytes words.now)) }
{
    match words {
        [word, path] if word.as_str() == "html" => Some(path.as_str()),
        _ => None,
    }
}

/// Returns the job that the arguments request.
fn job_asked(words: &[String]) -> Option<Job>
    ensures asked { IfSome result (λ job. AskFor job (map string_bytes words.now)) }
    ensures other { IfNone result (AskForNoJob (map string_bytes words.now)) }
{
    match words {
        [word] => job_named(word.as_str()),
        _ => None,
    }
}

/// Returns the job with this name.
fn job_named(word: &str) -> Option<Job>
    ensures named { IfSome result (λ job. word.now ≡ word_of job) }
    ensures unnamed { IfNone result ((job : Job) → ¬ (word.now ≡ word_of job)) }
{
    match word {
        "inline" => Some(Job::Inline),
        "block" => Some(Job::Block),
        "document" => Some(Job::Document),
        _ => None,
    }
}

/// Converts the documents under the path, writes a line for each that could not be converted, and returns the status.
fn convert<S: Site, E: Sink>(site: &mut S, alloc: Global, path: &str, errors: &mut E) -> u8
    requires { CanGoOn (E.state errors.old) }
    ensures told { ExitsAfterWalk path.now (S.answers site.old) (S.answers site.new)
        (E.state errors.old) (E.state errors.new) result }
{
    let Ok(unconverted) = convert_site(site, alloc, path) else {
        put_line(errors, OUT_OF_MEMORY);
        return REFUSED;
    };
    tell(alloc, errors, unconverted.as_slice())
}

/// Writes a line for each file or directory that was not converted, and returns the status.
fn tell<E: Sink>(alloc: Global, errors: &mut E, all: &[Unconverted]) -> u8
    requires { CanGoOn (E.state errors.old) }
    ensures told { ExitsWithLines all.now
        (E.state errors.old) (E.state errors.new) result }
{
    if all.is_empty() {
        return DONE;
    }
    put_all_unconverted(alloc, errors, all);
    REFUSED
}

/// Writes a line for each file or directory that was not converted, until the stream does not take one completely.
fn put_all_unconverted<E: Sink>(alloc: Global, errors: &mut E, all: &[Unconverted])
    requires { CanGoOn (E.state errors.old) }
    ensures put { AllUnconvertedPrinted all.now (E.state errors.old) (E.state errors.new) }
{
    for unconverted in all {
        if !put_unconverted(alloc, errors, unconverted) {
            return;
        }
    }
}

/// Writes the line that says why something was not converted, if there is memory for it, and returns whether the stream can
/// take more.
fn put_unconverted<E: Sink>(alloc: Global, errors: &mut E, unconverted: &Unconverted) -> bool
    requires { CanGoOn (E.state errors.old) }
    ensures put { UnconvertedPrinted unconverted.now (E.state errors.old) (E.state errors.new) }
    ensures ready { IsTrue result ↔ CanGoOn (E.state errors.new) }
{
    let path = unconverted.path.as_str();
    let fault = &unconverted.fault;
    match format!(in alloc; "LaTeX2MathML Error: {path}: {fault}\n") {
        Ok(line) => put_line(errors, line.as_str()),
        Err(_) => true,
    }
}

/// Writes the usage line, if there is memory for it.
fn put_usage<E: Sink>(alloc: Global, errors: &mut E)
    requires { CanGoOn (E.state errors.old) }
    // the derived `Display` of `Usage` has no contract about its text
    ensures put { (line : List ℕ) × LinePrinted line (E.state errors.old) (E.state errors.new) }
{
    if let Ok(line) = format!(in alloc; "{}\n", Usage) {
        put_line(errors, line.as_str());
    }
}

/// Writes the line that reports the fault, if there is memory for it.
fn put_fault<E: Sink>(alloc: Global, errors: &mut E, fault: &FileFault)
    requires { CanGoOn (E.state errors.old) }
    ensures put { LinePrinted (fault_line fault.now) (E.state errors.old) (E.state errors.new) }
{
    if let Ok(line) = format!(in alloc; "LaTeX2MathML Error: {fault}\n") {
        put_line(errors, line.as_str());
    }
}

/// Writes the line, or its first bytes if the stream stops, and returns whether the stream can take more.
fn put_line<E: Sink>(errors: &mut E, line: &str) -> bool
    requires { CanGoOn (E.state errors.old) }
    ensures put { LineWritten line.now (E.state errors.old) (E.state errors.new) }
    ensures ready { IsTrue result ↔ CanGoOn (E.state errors.new) }
{
    write_text(errors, line).is_ok()
}
