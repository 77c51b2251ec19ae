//! Runs the program, from its input to its exit status.
ghost use Rattle.std.specs.Prelude.{IfErr, IfOk, IfSome, IsTrue, string_bytes};
ghost use Rattle.std.specs.Io.KnownBytes.{IsAtEnd};
ghost use Rattle.latex2mathml.specs.Streams.{CanGoOn};
ghost use Rattle.latex2mathml_tex_units.specs.{Errors.refusal_of, MacroTables.Holding};
ghost use Rattle.latex2mathml_tex_program.specs.{Exits.IsServed, Exits.LinePrinted, Faults.fault_line};
ghost use Rattle.latex2mathml_tex_program.specs.Runs.{IsMade, IsNotMade, IsPut, IsRun};

use crate::definitions::{TextFiles, macros_of, read_definitions};
use crate::fault::Fault;
use crate::reply::{line, replies};
use crate::request::Request;
use latex2mathml::{Sink, Source, read_text, write_text};
use latex2mathml_tex::{Macros, TexError};
use std::alloc::Global;

const DONE: u8 = 0;

const STOPPED: u8 = 1;

/// Serves the request and returns the exit status: 0, or 1 if the run stopped. If it stopped, `errors` gets a line that
/// says why. If memory for the line runs out, it is left out. If `errors` does not take the line completely, the status
/// stays 1.
pub fn serve<F: TextFiles, R: Source, W: Sink, E: Sink>(
    alloc: Global,
    files: &F,
    request: Request,
    input: &mut R,
    output: &mut W,
    errors: &mut E,
) -> u8
    requires input { CanGoOn (R.state input.old) }
    requires output { CanGoOn (W.state output.old) }
    requires errors { CanGoOn (E.state errors.old) }
    ensures served { IsServed (F.bytes_of files.now) request.entry
        (R.state input.old) (R.state input.new)
        (W.state output.old) (W.state output.new)
        (E.state errors.old) (E.state errors.new) result }
    ensures all_read { IsTrue (R.state input.new).ended → IsAtEnd (R.state input.new).bytes }
{
    match run(alloc, files, request, input, output) {
        Ok(()) => DONE,
        Err(fault) => {
            put_fault(alloc, errors, &fault);
            STOPPED
        }
    }
}

/// Converts all of the input, and writes the result to the output: the markup of the formula with a line feed, or a reply to
/// each formula. If definitions are asked for, the macros that they define hold in each formula. Neither stream may have
/// failed or ended before the call.
///
/// # Errors
///
/// - [`Fault::UnreadDefinitions`] and [`Fault::RefusedDefinition`] if the file of definitions cannot be read, is not UTF-8, or
///   holds something that is not a definition. In that case nothing was read of the input, and nothing was written.
/// - [`Fault::File`] if the input failed or is not UTF-8, or if the output stopped. If the output stopped, it took the first
///   bytes of the result.
/// - [`Fault::Refused`] if the formula is refused, or memory runs out. In that case nothing was written.
pub fn run<'a, F: TextFiles, R: Source, W: Sink>(
    alloc: Global,
    files: &F,
    request: Request<'a>,
    input: &mut R,
    output: &mut W,
) -> Result<(), Fault<'a>>
    requires input { CanGoOn (R.state input.old) }
    requires output { CanGoOn (W.state output.old) }
    ensures outcome { IsRun (F.bytes_of files.now) request.entry
        (R.state input.old) (R.state input.new)
        (W.state output.old) (W.state output.new) result }
    ensures all_read { IsTrue (R.state input.new).ended → IsAtEnd (R.state input.new).bytes }
{
    let definitions = read_definitions(alloc, files, request)?;
    let macros = macros_of(alloc, request, definitions.as_str())?;
    let text = match read_text(alloc, input) {
        Ok(text) => text,
        Err(fault) => return Err(Fault::File(fault)),
    };
    put_product(alloc, macros, request, text.as_str(), output)
}

/// Writes the product of a text whose formulas may use these macros.
fn put_product<'a, 't, W: Sink>(
    alloc: Global,
    macros: Macros<'t>,
    request: Request<'a>,
    text: &'t str,
    output: &mut W,
) -> Result<(), Fault<'a>>
    requires { CanGoOn (W.state output.old) }
    ensures put { Holding macros.entry (λ table.
        IsPut table text.now request.entry (W.state output.old) (W.state output.new) result) }
{
    let product = match product(alloc, &macros, request, text) {
        Ok(product) => product,
        Err(error) => return Err(Fault::Refused(error)),
    };
    match write_text(output, product.as_str()) {
        Ok(()) => Ok(()),
        Err(fault) => Err(Fault::File(fault)),
    }
}

/// Returns the product of a text, which is to be written. Its formulas may use these macros.
fn product<'a>(
    alloc: Global,
    macros: &Macros<'a>,
    request: Request,
    text: &'a str,
) -> Result<String, TexError>
    ensures made { Holding macros.now (λ table. IfOk result (λ product.
        IsMade table request.entry text.now (string_bytes product))) }
    ensures refusal { Holding macros.now (λ table. IfErr result (λ error.
        IfSome (refusal_of error) (IsNotMade table request.entry text.now))) }
{
    if request.is_many {
        return Ok(replies(alloc, macros, text, request.format)?);
    }
    line(alloc, macros, text, request.format)
}

/// Writes the line that reports the fault, if there is memory for it.
fn put_fault<E: Sink>(alloc: Global, errors: &mut E, fault: &Fault)
    requires { CanGoOn (E.state errors.old) }
    ensures put { LinePrinted (fault_line fault.now) (E.state errors.old) (E.state errors.new) }
{
    if let Ok(line) = format!(in alloc; "tex2mathml: {fault}\n") {
        let _ = write_text(errors, line.as_str());
    }
}
