//! The library for C, and for languages that can call C. Its header is `include/latex2mathml.h`.
//!
//! Each call takes a text as bytes and a buffer that the caller owns, and returns a number, the code of a [`Status`]. The
//! result, which is the markup or the reason why there is none, is written into the buffer if it fits.
#![tactic(auto)]

ghost use Rattle.std.specs.Prelude.{◌≡◌, ◌≢◌, IfOk, string_bytes};
ghost use Rattle.latex2mathml_c.specs.{declared.Job.TheVariants.Document, declared.Job.TheVariants.Formula, declared.Status.Status};
ghost use Rattle.latex2mathml_c.specs.declared.Status.TheVariants.{OutOfMemory};
ghost use Rattle.latex2mathml_c.specs.Call.{IsLength, IsCallOutcome, IsPutOrTooSmall, code_of, display_of};
ghost use Rattle.latex2mathml_c.specs.TexTexts.{Given, HasTexText, IsTexText, given_by};
ghost use Rattle.latex2mathml_c.specs.Texts.{IsText, conversion_of};
ghost use Rattle.latex2mathml.specs.{Conversions.IsConverted, Conversions.IsRefusedAs, Formulas.IfRefused};

mod tex;

use crate::tex::read;
use latex2mathml::{DisplayStyle, LatexError, latex_to_mathml, laws, replace};
use latex2mathml_tex_grammar::laws as tex_laws;
use std::alloc::{AllocError, Global};

/// What is to be converted.
#[derive(Clone, Copy)]
enum Job {
    /// One formula, for this display.
    Formula(DisplayStyle),
    /// A document: prose, with formulas between dollar signs.
    Document,
}

/// The flag that requests the text of a formula as an annotation of its markup.
const ANNOTATION: u32 = 1;

/// A formula in LaTeX as authors write it, with definitions of macros that it may use.
#[derive(Clone, Copy)]
struct Request<'a> {
    definitions: &'a [u8],
    tex: &'a [u8],
    display: DisplayStyle,
    flags: u32,
}

/// The outcome of a call.
#[derive(Clone, Copy)]
enum Status {
    /// The buffer contains the markup.
    Done,
    /// The text is refused, and the buffer contains the reason.
    Refused,
    /// The bytes are not UTF-8, and the buffer contains a sentence that says so.
    NotUtf8,
    /// The buffer is too small for the text of one of the others. Nothing was written.
    TooSmall,
    /// Memory ran out. Nothing was written.
    OutOfMemory,
    /// The definitions are refused, and the buffer contains the reason.
    DefinitionRefused,
    /// A flag is set that has no meaning, and the buffer contains a sentence that says so.
    UnknownFlags,
}

impl Status {
    /// Returns the number that the header gives to this status.
    fn code(self) -> u32
        ensures { result ≡ code_of self }
    {
        match self {
            Status::Done => 0,
            Status::Refused => 1,
            Status::NotUtf8 => 2,
            Status::TooSmall => 3,
            Status::OutOfMemory => 4,
            Status::DefinitionRefused => 5,
            Status::UnknownFlags => 6,
        }
    }
}

/// Converts one formula, for a block of its own or for a line of text, and returns a code of the header.
///
/// The result is at the start of `out` if it fits. Otherwise nothing is written. `needed` is its length in bytes in both
/// cases, and 0 if memory ran out. In a second call with `needed` bytes the result fits.
#[unsafe(no_mangle)]
pub extern "C" fn latex2mathml_formula(
    alloc: Global,
    latex: &[u8],
    block: bool,
    out: &mut [u8],
    needed: &mut usize,
) -> u32
    ensures outcome { (status : Status) × (result ≡ code_of status)
        × IsCallOutcome (IsText (Formula (display_of block)) latex.now) status
        (record { old = out.old; new = out.new; needed = needed.new }) }
    ensures length { result ≢ code_of OutOfMemory →
        IsLength (IsText (Formula (display_of block)) latex.now) needed.new }
{
    laws::renderings();
    laws::answers();
    let job = Job::Formula(display(block));
    call(alloc, job, latex, out, needed).code()
}

/// Converts a document, which is prose with formulas between dollar signs, and returns a code of the header.
///
/// `out` and `needed` are as in [`latex2mathml_formula`].
#[unsafe(no_mangle)]
pub extern "C" fn latex2mathml_document(
    alloc: Global,
    document: &[u8],
    out: &mut [u8],
    needed: &mut usize,
) -> u32
    ensures outcome { (status : Status) × (result ≡ code_of status)
        × IsCallOutcome (IsText Document document.now) status
        (record { old = out.old; new = out.new; needed = needed.new }) }
    ensures length { result ≢ code_of OutOfMemory →
        IsLength (IsText Document document.now) needed.new }
{
    laws::renderings();
    laws::answers();
    call(alloc, Job::Document, document, out, needed).code()
}

/// Converts one formula in LaTeX as authors write it, and returns a code of the header. `definitions` define macros that the
/// formula may use, in addition to the usual ones. `flags` is 0, or 1 for the text of the formula as an annotation of its
/// markup.
///
/// `out` and `needed` are as in [`latex2mathml_formula`]. `place` is the byte of the formula or of the definitions where what
/// is refused begins, even if the reason does not fit. In all other cases it is 0.
#[unsafe(no_mangle)]
pub extern "C" fn latex2mathml_tex<'a>(
    alloc: Global,
    definitions: &'a [u8],
    tex: &'a [u8],
    block: bool,
    flags: u32,
    out: &mut [u8],
    needed: &mut usize,
    place: &mut usize,
) -> u32
    ensures outcome { let given : Given = record {
      definitions = definitions.now;
      tex = tex.now;
      display = display_of block;
      flags = flags;
    } in
        (status : Status) × (result ≡ code_of status)
        × IsCallOutcome (IsTexText given place.new) status
        (record { old = out.old; new = out.new; needed = needed.new }) }
    ensures no_place { result ≡ code_of OutOfMemory → place.new ≡ 0 }
    ensures length { let given : Given = record {
      definitions = definitions.now;
      tex = tex.now;
      display = display_of block;
      flags = flags;
    } in
        result ≢ code_of OutOfMemory → IsLength (HasTexText given) needed.new }
{
    tex_laws::one_reading();
    tex_laws::one_table_of_text();
    let request = Request {
        definitions,
        tex,
        display: display(block),
        flags,
    };
    call_tex(alloc, request, out, needed, place).code()
}

fn display(block: bool) -> DisplayStyle
    ensures { result ≡ display_of block }
{
    if block {
        DisplayStyle::Block
    } else {
        DisplayStyle::Inline
    }
}

/// Converts the input, and writes the result into the buffer if it fits.
fn call(alloc: Global, job: Job, input: &[u8], out: &mut [u8], needed: &mut usize) -> Status
    ensures outcome { IsCallOutcome (IsText job input.now) result
        (record { old = out.old; new = out.new; needed = needed.new }) }
{
    *needed = 0;
    let Ok(text) = str::from_utf8(input) else {
        return put(Status::NotUtf8, "The input is not UTF-8 text.", out, needed);
    };
    match text_of(alloc, job, text) {
        Ok((status, text)) => put(status, text.as_str(), out, needed),
        Err(_) => Status::OutOfMemory,
    }
}

/// Converts the formula, and writes the result into the buffer if it fits. Sets the place of what is refused even if the
/// result does not fit.
fn call_tex(
    alloc: Global,
    request: Request,
    out: &mut [u8],
    needed: &mut usize,
    place: &mut usize,
) -> Status
    ensures outcome { IsCallOutcome (IsTexText (given_by request.entry) place.new) result
        (record { old = out.old; new = out.new; needed = needed.new }) }
    ensures no_place { result ≡ OutOfMemory → place.new ≡ 0 }
{
    *needed = 0;
    *place = 0;
    if request.flags > ANNOTATION {
        return put(
            Status::UnknownFlags,
            "The flags must be 0 or LATEX2MATHML_ANNOTATION.",
            out,
            needed,
        );
    }
    let is_annotated = request.flags == ANNOTATION;
    let Ok(definitions) = str::from_utf8(request.definitions) else {
        return put(
            Status::NotUtf8,
            "The definitions are not UTF-8 text.",
            out,
            needed,
        );
    };
    let Ok(tex) = str::from_utf8(request.tex) else {
        return put(Status::NotUtf8, "The input is not UTF-8 text.", out, needed);
    };
    match read(alloc, definitions, tex, request.display, is_annotated) {
        Ok(told) => {
            *place = told.place;
            put(told.status, told.text.as_str(), out, needed)
        }
        Err(_) => Status::OutOfMemory,
    }
}

/// Returns the markup of the input, or the reason why it is refused, with the status. The only `Err` is out of memory.
fn text_of(alloc: Global, job: Job, input: &str) -> Result<(Status, String), AllocError>
    ensures { IfOk result (λ told. IsText job input.now told.0 (string_bytes told.1)) }
{
    match convert(alloc, job, input) {
        Ok(markup) => Ok((Status::Done, markup)),
        Err(error) => {
            if error == LatexError::OutOfMemory {
                return Err(AllocError);
            }
            let reason = error.to_string(alloc)?;
            Ok((Status::Refused, reason))
        }
    }
}

/// Returns the markup of the text.
fn convert(alloc: Global, job: Job, text: &str) -> Result<String, LatexError>
    ensures markup { IfOk result (λ markup.
        IsConverted (conversion_of job) text.now (string_bytes markup)) }
    ensures refusal { IfRefused result (IsRefusedAs (conversion_of job) text.now) }
{
    laws::dollar_free(text);
    match job {
        Job::Formula(display) => latex_to_mathml(alloc, text, display),
        Job::Document => replace(alloc, text),
    }
}

/// Writes the text to the start of the buffer and returns its status, or writes nothing if the buffer is too small.
fn put(status: Status, text: &str, out: &mut [u8], needed: &mut usize) -> Status
    ensures { IsPutOrTooSmall status result text.now
        (record { old = out.old; new = out.new; needed = needed.new }) }
{
    *needed = text.len();
    if out.len() < text.len() {
        return Status::TooSmall;
    }
    out[..text.len()].copy_from_slice(text.as_bytes());
    status
}
