//! Converts documents to their answers, piece by piece.
ghost use Rattle.std.specs.Prelude.{◌≡◌, ◌⊎◌, ℕ, ◌++◌, [], List, IfOk, OnOk, Some, string_bytes};
ghost use Rattle.latex2mathml.specs.Pieces.{piece_of};
ghost use Rattle.latex2mathml.specs.Documents.{HasCut, HasNoCut, IsAnswer, IsPiece, IsPlain};
ghost use Rattle.latex2mathml.specs.Documents.{IsRefusal, PieceAnswer, PieceRefuses, prose_answer};
ghost use Rattle.latex2mathml_trees.specs.Texts.{Appends};
ghost use Rattle.latex2mathml_tokens.specs.Refusal.{IfRefused, InvalidNumberOfDollarSigns, refusal_of};

use crate::document::plain::Plain;
use crate::document::{NoCut, Piece, Pieces, check_cut};
use latex2mathml_parser::Converter;
use latex2mathml_tokens::{DisplayStyle, LatexError};
use std::alloc::{AllocError, Global};

impl From<NoCut> for LatexError {
    ghost use Rattle.latex2mathml_tokens.specs.declared.error.LatexError.TheVariants.{InvalidNumberOfDollarSigns};

    ghost from_gives = { λ _ error. error ≡ InvalidNumberOfDollarSigns };

    fn from(_no_cut: NoCut) -> LatexError {
        LatexError::InvalidNumberOfDollarSigns
    }
}

/// Returns the answer of the document.
pub(crate) fn convert(alloc: Global, document: &str) -> Result<String, LatexError>
    ensures answer { IfOk result (λ answer. IsAnswer document.now (string_bytes answer)) }
    ensures refusal { IfRefused result (IsRefusal document.now) }
{
    let mut answer = String::new(alloc);
    append_answer(alloc, &mut answer, document)?;
    Ok(answer)
}

/// Appends the answer of the document to an empty text.
#[inline(always)]
fn append_answer(alloc: Global, text: &mut String, document: &str) -> Result<(), LatexError>
    requires { string_bytes text.old ≡ [] }
    ensures answer { OnOk result (IsAnswer document.now (string_bytes text.new)) }
    ensures refusal { IfRefused result (IsRefusal document.now) }
{
    let mut formulas = Converter::new(alloc);
    append_pieces(&mut formulas, text, document)
}

/// Appends the answers of the document's pieces, one by one, to an empty text.
#[inline(always)]
fn append_pieces<'a>(
    formulas: &mut Converter<'a>,
    text: &mut String,
    document: &'a str,
) -> Result<(), LatexError>
    requires { string_bytes text.old ≡ [] }
    ensures answer { OnOk result (IsAnswer document.now (string_bytes text.new)) }
    ensures refusal { IfRefused result (IsRefusal document.now) }
{
    for piece in Pieces::new(document) {
        let piece = piece?;
        if let Err(error) = append_piece(formulas, text, piece) {
            return Err(refusal(document, error));
        }
    }
    Ok(())
}

/// Returns the error of a document in which a formula caused this first error. Errors of dollar signs take precedence, and the
/// dollar signs after the formula are not checked yet. Only a document that is refused is cut twice.
fn refusal(document: &str, error: LatexError) -> LatexError
    ensures { (HasNoCut document.now × (refusal_of result ≡ Some InvalidNumberOfDollarSigns))
        ⊎ (HasCut document.now × (refusal_of result ≡ refusal_of error)) }
{
    match check_cut(document) {
        Ok(()) => error,
        Err(no_cut) => LatexError::from(no_cut),
    }
}

/// Appends the answer of a piece to the text.
fn append_piece<'a>(
    formulas: &mut Converter<'a>,
    text: &mut String,
    piece: Piece<'a>,
) -> Result<(), LatexError>
    requires { IsPiece (piece_of piece) }
    ensures answer { OnOk result ((answer : List ℕ) × PieceAnswer (piece_of piece.entry) answer
        × (string_bytes text.new ≡ string_bytes text.old ++ answer)) }
    ensures refusal { IfRefused result (PieceRefuses (piece_of piece.entry)) }
{
    match piece {
        Piece::Prose(prose) => Ok(append_prose(text, prose)?),
        Piece::Inline(body) => formulas.append(text, body, DisplayStyle::Inline),
        Piece::Display(body) => formulas.append(text, body, DisplayStyle::Block),
    }
}

/// Appends prose to the text, with a character reference for each dollar sign that a backslash takes.
fn append_prose(text: &mut String, prose: Plain<'_>) -> Result<(), AllocError>
    requires { IsPlain prose.text.now }
    ensures { Appends text.old text.new (prose_answer prose.entry.text.now) result }
{
    if prose.may_hold_dollar {
        return append_escaped(text, prose.text);
    }
    text.push_str(prose.text)
}

/// Does the same for any prose, even if it holds a dollar sign.
fn append_escaped(text: &mut String, prose: &str) -> Result<(), AllocError>
    requires { IsPlain prose.now }
    ensures { Appends text.old text.new (prose_answer prose.now) result }
{
    let mut rest = prose;
    while let Some((before, after)) = rest.split_once("\\$") {
        text.push_str(before)?;
        text.push_str("&#x24;")?;
        rest = after;
    }
    text.push_str(rest)
}
