//! Texts of definitions.
ghost use Rattle.std.specs.Prelude.{◌≡◌, option_map};
ghost use Rattle.std.specs.Str.{chars};
ghost use Rattle.latex2mathml_tex_grammar.specs.{Cutting.units_of, DefinitionTexts.is_prefix, DefinitionTexts.past_prefixes, Definitions.word_of};
ghost use Rattle.latex2mathml_tex_units.specs.Defined;
ghost use Rattle.latex2mathml_tex_units.specs.{Pending.pending_units, Taking.piece_of, Texts.ReadsTo};

use crate::lexer::Lexer;
use crate::macros::definitions::{Word, word_named};
use crate::macros::halt::Halt;
use crate::macros::pending::Pending;
use crate::macros::scope::Scope;
use crate::unit::{Fault, Next, Piece};
use std::alloc::Global;

/// Returns the word that the piece is, if it begins a definition.
pub(crate) fn word_of(piece: Piece) -> Option<Word>
    ensures { option_map Defined.word_of result ≡ word_of (piece_of piece.entry) }
{
    match piece {
        Piece::Command(name) => word_named(name),
        _ => None,
    }
}

/// Whether the piece is a word that may precede a definition, and changes nothing.
fn is_prefix(piece: Piece) -> bool
    ensures { result ≡ is_prefix (piece_of piece.entry) }
{
    match piece {
        Piece::Command(name) => name == "global" || name == "long",
        _ => false,
    }
}

impl<'a> Pending<'a> {
    /// Skips white space, and words that may precede a definition.
    fn skip_prefixes(&mut self)
        ensures { pending_units self.new ≡ past_prefixes (pending_units self.old) }
    {
        'prefixes: loop {
            self.skip_space();
            let Some(piece) = self.peek() else {
                return;
            };
            if !is_prefix(piece) {
                return;
            }
            self.take();
        }
    }
}

impl<'m, 'a> Scope<'m, 'a> {
    /// Returns the macros that hold after a text of definitions, which contains nothing else but white space, and words that
    /// may precede a definition.
    pub(crate) fn read(alloc: Global, text: &'a str) -> Result<Scope<'m, 'a>, Halt>
        ensures { ReadsTo result (units_of 0 (chars text.now)) }
    {
        let mut scope = Scope::new(alloc);
        let mut pending = Pending::new(alloc, Lexer::new(text));
        'definitions: loop {
            pending.skip_prefixes();
            match pending.take() {
                Next::End(_) => return Ok(scope),
                Next::Fault(fault, at) => return Err(Halt::Refused(fault, at)),
                Next::Unit(unit) => {
                    let Some(word) = word_of(unit.piece) else {
                        return Err(Halt::Refused(Fault::NoDefinition, unit.place));
                    };
                    let definition = pending.take_definition(alloc, word, unit.place)?;
                    scope.define(alloc, word, definition)?;
                }
            }
        }
    }
}
