//! Appends markup to a text. If memory runs out, each function returns an `Err`, and the text may end in the first part of what
//! was to be appended.
ghost use Rattle.std.specs.Prelude.{Some};
ghost use Rattle.latex2mathml_tokens.specs.Escape.{content, content_char};
ghost use Rattle.latex2mathml_trees.specs.{Print.print, Texts.Appends, Tree.space, Tree.undefined, Width.width_text};

use crate::text::{Place, needs_escape, write_escaped, write_undefined};
use crate::width::{write_space, write_width};
use std::alloc::AllocError;
use std::fmt;

/// A text as contents, character by character.
#[derive(Drop)]
struct Contents<'a>(&'a str);

impl fmt::Display for Contents<'_> {
    ghost output = { λ text. Some (content text.0.now) };

    fn fmt<W: fmt::Write>(&self, f: &mut fmt::Formatter<W>) -> fmt::Result {
        write_escaped(Place::Content, self.0, f)
    }
}

/// The text of a token that is marked as an error.
#[derive(Drop)]
struct Marked<'a>(&'a str);

impl fmt::Display for Marked<'_> {
    ghost output = { λ text. Some (print (undefined text.0.now)) };

    fn fmt<W: fmt::Write>(&self, f: &mut fmt::Formatter<W>) -> fmt::Result {
        write_undefined(self.0, f)
    }
}

/// A space, in eighteenths of an em.
#[derive(Drop)]
struct Space(i32);

impl fmt::Display for Space {
    ghost output = { λ width. Some (print (space width.0)) };

    fn fmt<W: fmt::Write>(&self, f: &mut fmt::Formatter<W>) -> fmt::Result {
        write_space(self.0, f)
    }
}

/// The width of a space, in eighteenths of an em.
#[derive(Drop)]
struct Width(i32);

impl fmt::Display for Width {
    ghost output = { λ width. Some (width_text width.0) };

    fn fmt<W: fmt::Write>(&self, f: &mut fmt::Formatter<W>) -> fmt::Result {
        write_width(self.0, f)
    }
}

/// Appends a text as contents to another. A text in which nothing is escaped is appended whole.
pub fn append_content(text: &str, out: &mut String) -> Result<(), AllocError>
    ensures { Appends out.old out.new (content text.now) result }
{
    match text.find(|c: char| needs_escape(c)) {
        Some(_) => write!(out, "{}", Contents(text)),
        None => out.push_str(text),
    }
}

/// Appends the text of a token that has no meaning where it is, marked as an error.
pub fn append_undefined(text: &str, out: &mut String) -> Result<(), AllocError>
    ensures { Appends out.old out.new (print (undefined text.now)) result }
{
    write!(out, "{}", Marked(text))
}

/// Appends a character as contents to the text.
#[tactic(auto, using(latex2mathml_tokens::proofs::Escapes::others))]
pub fn append_content_char(c: char, text: &mut String) -> Result<(), AllocError>
    ensures { Appends text.old text.new (content_char c) result }
{
    match c {
        '&' => text.push_str("&amp;"),
        '<' => text.push_str("&lt;"),
        '>' => text.push_str("&gt;"),
        '$' => text.push_str("&#x24;"),
        _ => text.push(c),
    }
}

/// Appends a space, in eighteenths of an em.
pub fn append_space(width: i32, out: &mut String) -> Result<(), AllocError>
    ensures { Appends out.old out.new (print (space width)) result }
{
    write!(out, "{}", Space(width))
}

/// Appends a width that is given in eighteenths of an em as a number of ems.
pub fn append_width(width: i32, out: &mut String) -> Result<(), AllocError>
    ensures { Appends out.old out.new (width_text width) result }
{
    write!(out, "{}", Width(width))
}
