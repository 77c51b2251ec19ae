//! Makes one call of the library, with a mark before it and one after it, and prints its answer: `tests/test_memory.py`
//! refuses requests for memory between the marks. For a formula it can also print the steps that it took.
#![tactic(auto)]

mod copies;
mod nodes;

use latex2mathml::{
    DisplayStyle, FileFault, Reading, Stream, convert_html, latex_to_mathml,
    latex_to_mathml_counted, read_document, replace,
};
use latex2mathml_tex::{Converter, Macros, TexError, tex_to_mathml};
use std::alloc::{AllocError, Global};
use std::fmt::Display;
use std::process::ExitCode;
use std::{env, io};

/// A request for this number of bytes marks the beginning of a call. Nothing else requests that many.
const BEGINNING: usize = 7919;

/// A request for this number of bytes marks the end of a call.
const END: usize = 7927;

/// Requests the given number of bytes.
fn mark(alloc: Global, size: usize) -> Result<(), AllocError> {
    let _mark: Vec<u8> = Vec::with_capacity(alloc, size)?;
    Ok(())
}

/// Marks the end of a call, and returns its answer.
fn end<T: Drop>(alloc: Global, answer: T) -> Result<T, AllocError> {
    mark(alloc, END)?;
    Ok(answer)
}

/// Prints an answer.
fn tell<T: Display + Drop, E: Display + Drop>(
    rt: &HostRuntime,
    answer: Result<T, E>,
) -> io::Result<()> {
    match answer {
        Ok(answer) => println!(rt; "answer: {answer}"),
        Err(refusal) => println!(rt; "refusal: {refusal}"),
    }
}

fn formula(rt: &HostRuntime, latex: &str) -> io::Result<()> {
    mark(rt.alloc(), BEGINNING)?;
    let answer = latex_to_mathml(rt.alloc(), latex, DisplayStyle::Inline);
    tell(rt, end(rt.alloc(), answer)?)
}

/// Prints the answer, and its tokens and frames if it is not a refusal.
fn counted_formula(rt: &HostRuntime, latex: &str) -> io::Result<()> {
    mark(rt.alloc(), BEGINNING)?;
    let counted = latex_to_mathml_counted(rt.alloc(), latex, DisplayStyle::Block);
    let (answer, steps) = end(rt.alloc(), counted)?;
    let is_markup = answer.is_ok();
    tell(rt, answer)?;
    if is_markup {
        println!(rt; "{} tokens, {} frames", steps.tokens, steps.frames)?;
    }
    Ok(())
}

/// Prints the answer or the refusal, and the steps that it took.
fn steps(rt: &HostRuntime, latex: &str) -> io::Result<()> {
    let (answer, steps) = latex_to_mathml_counted(rt.alloc(), latex, DisplayStyle::Inline);
    tell(rt, answer)?;
    println!(rt;
        "{} tokens, {} frames, {} comparisons",
        steps.tokens, steps.frames, steps.comparisons
    )
}

fn tex_formula(rt: &HostRuntime, tex: &str) -> io::Result<()> {
    let macros = Macros::new(rt.alloc());
    mark(rt.alloc(), BEGINNING)?;
    let answer = tex_to_mathml(rt.alloc(), &macros, tex, DisplayStyle::Inline);
    tell(rt, end(rt.alloc(), answer)?)
}

/// Returns what a converter answers for a formula in a line of text.
fn converted<'a>(
    alloc: Global,
    converter: &mut Converter<'a>,
    tex: &'a str,
) -> Result<String, TexError> {
    let macros = Macros::new(alloc);
    let mut text = String::new(alloc);
    converter.append(&mut text, &macros, tex, DisplayStyle::Inline)?;
    Ok(text)
}

/// Prints the answers of the converter to a formula, twice: memory may be refused only in the first of these two calls.
fn formula_twice<'a>(
    rt: &HostRuntime,
    converter: &mut Converter<'a>,
    tex: &'a str,
) -> io::Result<()> {
    mark(rt.alloc(), BEGINNING)?;
    let answer = converted(rt.alloc(), converter, tex);
    tell(rt, end(rt.alloc(), answer)?)?;
    tell(rt, converted(rt.alloc(), converter, tex))
}

/// Prints the answers of one converter to a formula, and then twice to a second one.
fn tex_formulas<'a>(rt: &HostRuntime, first: &'a str, second: &'a str) -> io::Result<()> {
    let mut converter = Converter::new(rt.alloc());
    tell(rt, converted(rt.alloc(), &mut converter, first))?;
    formula_twice(rt, &mut converter, second)
}

fn document(rt: &HostRuntime, input: &str) -> io::Result<()> {
    mark(rt.alloc(), BEGINNING)?;
    let answer = replace(rt.alloc(), input);
    tell(rt, end(rt.alloc(), answer)?)
}

/// Prints the answer for a document that is read.
fn read(rt: &HostRuntime, input: &str) -> io::Result<()> {
    let mut source = Stream::new(input.as_bytes());
    mark(rt.alloc(), BEGINNING)?;
    let reading = read_document(rt.alloc(), &mut source);
    match end(rt.alloc(), reading)? {
        Ok(Reading::Changed(answer)) => println!(rt; "changed: {answer}"),
        Ok(Reading::Unchanged(text)) => println!(rt; "unchanged: {text}"),
        Err(fault) => tell::<&str, FileFault>(rt, Err(fault)),
    }
}

/// Prints what was not converted under a path, one line each.
fn files(rt: &HostRuntime, path: &str) -> io::Result<()> {
    mark(rt.alloc(), BEGINNING)?;
    let unconverted = convert_html(rt, rt.alloc(), path);
    match end(rt.alloc(), unconverted)? {
        Ok(unconverted) => {
            for one in &unconverted {
                println!(rt; "{}: {}", one.path, one.fault)?;
            }
            Ok(())
        }
        Err(refusal) => println!(rt; "refusal: {refusal}"),
    }
}

/// Makes the call with this name on a text, and returns whether there is one.
fn call_on(rt: &HostRuntime, name: &str, text: &str) -> io::Result<bool> {
    match name {
        "latex_to_mathml" => formula(rt, text)?,
        "latex_to_mathml_counted" => counted_formula(rt, text)?,
        "steps" => steps(rt, text)?,
        "tex_to_mathml" => tex_formula(rt, text)?,
        "replace" => document(rt, text)?,
        "read_document" => read(rt, text)?,
        "convert_html" => files(rt, text)?,
        "clone" => return copies::copy(rt, text),
        _ => return Ok(false),
    }
    Ok(true)
}

/// Makes the call that the words name, and returns whether they name one.
fn call(rt: &HostRuntime) -> io::Result<bool> {
    let words: Vec<String> = env::args(rt)?.skip(1).collect(rt.alloc())?;
    match words.as_slice() {
        [name, text] => call_on(rt, name.as_str(), text.as_str()),
        [name, first, second] if name.as_str() == "tex_formulas" => {
            tex_formulas(rt, first.as_str(), second.as_str())?;
            Ok(true)
        }
        _ => Ok(false),
    }
}

fn main(rt: HostRuntime) -> ExitCode {
    match call(&rt) {
        Ok(true) => ExitCode::SUCCESS,
        Ok(false) => ExitCode::from(2),
        Err(_) => ExitCode::from(1),
    }
}
