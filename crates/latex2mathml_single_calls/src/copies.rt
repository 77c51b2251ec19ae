//! Copies of values that hold texts.

use crate::nodes::every_kind;
use crate::{BEGINNING, end, mark};
use latex2mathml::LatexError;
use latex2mathml::token::Token;
use std::alloc::{AllocError, Global};
use std::io;

fn text(alloc: Global, text: &str) -> Result<String, AllocError> {
    String::from_str(alloc, text)
}

fn token(alloc: Global) -> Result<Token, AllocError> {
    Ok(Token::Command(text(alloc, "foo")?))
}

fn refusal(alloc: Global) -> Result<LatexError, AllocError> {
    Ok(LatexError::UnexpectedToken {
        expected: token(alloc)?,
        got: Token::Number(text(alloc, "3.14")?),
    })
}

/// Marks the beginning of the call that copies the value, and returns the value.
fn begin<T: Drop>(alloc: Global, source: T) -> Result<T, AllocError> {
    mark(alloc, BEGINNING)?;
    Ok(source)
}

/// Marks the end of the call, and prints whether the copy equals its source, or why there is none.
fn compare<T: PartialEq + Drop>(
    rt: &HostRuntime,
    source: T,
    copy: Result<T, AllocError>,
) -> io::Result<()> {
    match end(rt.alloc(), copy)? {
        Ok(copy) if copy == source => println!(rt; "answer: equal"),
        Ok(_) => println!(rt; "answer: different"),
        Err(refusal) => println!(rt; "refusal: {refusal}"),
    }
}

fn copy_node(rt: &HostRuntime) -> io::Result<()> {
    let source = begin(rt.alloc(), every_kind(rt.alloc())?)?;
    let copy = source.clone(rt.alloc());
    compare(rt, source, copy)
}

fn copy_token(rt: &HostRuntime) -> io::Result<()> {
    let source = begin(rt.alloc(), token(rt.alloc())?)?;
    let copy = source.clone(rt.alloc());
    compare(rt, source, copy)
}

fn copy_refusal(rt: &HostRuntime) -> io::Result<()> {
    let source = begin(rt.alloc(), refusal(rt.alloc())?)?;
    let copy = source.clone(rt.alloc());
    compare(rt, source, copy)
}

/// Copies the value that the word names, and returns whether it names one.
pub fn copy(rt: &HostRuntime, word: &str) -> io::Result<bool> {
    match word {
        "node" => copy_node(rt)?,
        "token" => copy_token(rt)?,
        "refusal" => copy_refusal(rt)?,
        _ => return Ok(false),
    }
    Ok(true)
}
