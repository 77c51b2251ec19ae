//! The pieces of a document: prose, and formulas between dollar signs.
ghost use Rattle.std.specs.Prelude.{◌≡◌, ◌≢◌, ◌++◌, [], IfNone, IfSome, OnErr, OnOk};
ghost use Rattle.latex2mathml.specs.Pieces.{BeginsWith, EndsAt, EndsBefore};
ghost use Rattle.latex2mathml_grammar.specs.Dollars.{IsDollarFree, dollar};
ghost use Rattle.latex2mathml.specs.Documents.{HasCut, HasNoCut, IsPlain};

pub(crate) mod convert;
pub(crate) mod plain;
pub(crate) mod search;

use crate::document::plain::Plain;
use crate::document::search::{after_dollar, dollar_place, ends_in_backslash};

/// A piece of a document, as a slice of it, without the dollar signs around it.
#[derive(Clone, Copy)]
pub(crate) enum Piece<'a> {
    Prose(Plain<'a>),
    /// A formula in a line of text.
    Inline(&'a str),
    /// A formula in a block of its own.
    Display(&'a str),
}

/// Reports that a document has no cut into pieces.
#[derive(Clone, Copy)]
pub(crate) struct NoCut;

/// The pieces of a document, one at a time. If the document has no cut, `NoCut` comes once, and nothing follows it.
#[derive(Drop)]
pub(crate) struct Pieces<'a> {
    rest: &'a str,
}

impl<'a> Pieces<'a> {
    ghost use Rattle.std.specs.Prelude.{List};
    ghost use Rattle.std.specs.Iterator.{Yields};
    ghost use Rattle.latex2mathml.specs.Pieces.{GivesPiece, IsGiven, Item};

    /// Returns the pieces of the document. Those given so far spell the document up to the place.
    pub(crate) fn new(document: &'a str) -> Self
        ensures rest { result.rest.now ≡ document.now }
        ensures so_far { (given : List Item) (place : _) →
            Yields GivesPiece result given place → IsGiven document.now given place.rest.now }
    {
        Pieces { rest: document }
    }
}

impl<'a> Iterator for Pieces<'a> {
    ghost use Rattle.std.specs.Iterator.{at_most};
    ghost use Rattle.std.specs.Prelude.{length};
    ghost use Rattle.latex2mathml.specs.Pieces.{GivesPiece};

    type Item = Result<Piece<'a>, NoCut>;

    ghost next_gives = { GivesPiece };

    ghost remaining = { λ pieces. at_most (length pieces.rest.now) };

    #[inline(always)]
    fn next(&mut self) -> Option<Result<Piece<'a>, NoCut>> {
        if self.rest.is_empty() {
            return None;
        }
        match first_piece(self.rest) {
            Some((piece, rest)) => {
                self.rest = rest;
                Some(Ok(piece))
            }
            None => {
                self.rest = "";
                Some(Err(NoCut))
            }
        }
    }
}

/// Returns the piece at the front of a text that is not empty, and the rest.
#[inline(always)]
fn first_piece(text: &str) -> Option<(Piece<'_>, &str)>
    requires { text.now ≢ [] }
    ensures piece { IfSome result (λ found. BeginsWith text.now found.0 found.1.now) }
    ensures none { IfNone result (HasNoCut text.now) }
{
    let Some(inside) = after_dollar(text) else {
        let (prose, rest) = until_dollar(text);
        return Some((Piece::Prose(prose), rest));
    };
    let Some(inside_both) = after_dollar(inside) else {
        let (body, end) = until_dollar(inside);
        let rest = after_dollar(end)?;
        return Some((Piece::Inline(body.text), rest));
    };
    let (body, end) = until_dollar(inside_both);
    let rest = after_dollar(after_dollar(end)?)?;
    if body.text.is_empty() {
        return None;
    }
    Some((Piece::Display(body.text), rest))
}

/// Splits a text at its first dollar sign that no backslash takes, or at its end.
#[inline(always)]
fn until_dollar(text: &str) -> (Plain<'_>, &str)
    ensures joined { result.0.text.now ++ result.1.now ≡ text.now }
    ensures plain { IsPlain result.0.text.now }
    ensures ends { EndsBefore result.0.text.now result.1.now }
{
    let (front, rest) = up_to_dollar(text);
    // A backslash can take the dollar sign only from the place before it. Most texts have none there.
    if ends_in_backslash(front) {
        return by_units(text);
    }
    let plain = Plain {
        text: front,
        may_hold_dollar: false,
    };
    (plain, rest)
}

/// Splits a text at its first dollar sign, or at its end.
#[inline(always)]
fn up_to_dollar(text: &str) -> (&str, &str)
    ensures joined { result.0.now ++ result.1.now ≡ text.now }
    ensures free { IsDollarFree result.0.now }
    ensures ends { EndsAt dollar result.1.now }
{
    text.split_at(dollar_place(text))
}

/// Splits a text as `until_dollar` does, unit by unit.
fn by_units(text: &str) -> (Plain<'_>, &str)
    ensures joined { result.0.text.now ++ result.1.now ≡ text.now }
    ensures plain { IsPlain result.0.text.now }
    ensures ends { EndsBefore result.0.text.now result.1.now }
{
    let bytes = text.as_bytes();
    let mut place = 0;
    while place < bytes.len() && bytes[place] != b'$' {
        if bytes[place] == b'\\' && place + 1 < bytes.len() {
            place += 2;
        } else {
            place += 1;
        }
    }
    let (front, rest) = text.split_at(place);
    let plain = Plain {
        text: front,
        may_hold_dollar: true,
    };
    (plain, rest)
}

/// Goes through the pieces once, to see that the document has a cut.
pub(crate) fn check_cut(document: &str) -> Result<(), NoCut>
    ensures ok { OnOk result (HasCut document.now) }
    ensures err { OnErr result (HasNoCut document.now) }
{
    for piece in Pieces::new(document) {
        piece?;
    }
    Ok(())
}
