//! Ligatures: characters in words that are set as one.
ghost use Rattle.std.specs.Prelude.{◌≡◌, option_map};
ghost use Rattle.latex2mathml_tex_grammar.specs.Ligatures.{ligature_start};
ghost use Rattle.latex2mathml_tex_commands.specs.Meanings.{alphabet_of};
ghost use Rattle.latex2mathml_tex_units.specs.Taking.{piece_of};
ghost use Rattle.latex2mathml_tex.specs.Steps.{Advances, CanMake, JoinsWords, LeadsOn, words_made};

use crate::parse::words::word_character;
use crate::parse::{Parser, State};
use latex2mathml_tex_atoms::atoms::Words;
use latex2mathml_tex_atoms::fonts::Font;
use latex2mathml_tex_commands::meaning::Alphabet;
use latex2mathml_tex_units::ligatures::begins_ligature;
use latex2mathml_tex_units::unit::Piece;
use std::alloc::AllocError;

impl<'a> Parser<'a> {
    /// Appends to words, in this alphabet, what this character and those that join it are set as. It was taken, and they come next.
    pub(crate) fn join(
        &mut self,
        words: Words,
        first: char,
        alphabet: Option<Alphabet>,
        next: &mut State,
    ) -> Result<(), AllocError>
        requires { CanMake words_made words.count self.old }
        ensures holds { LeadsOn
            (JoinsWords words first (option_map alphabet_of alphabet))
            self.old self.new next.new result }
        ensures step { Advances 13 self.old self.new next.new result }
    {
        let whole = self.input.take_joined(first);
        self.show(words, alphabet, word_character(alphabet, whole), next)
    }
}

/// Returns the character that a unit is in words in this alphabet, if a ligature can begin with it. None begins with one that gets an
/// accent, and a typewriter has none.
pub(crate) fn ligature_start(
    accent: Option<char>,
    alphabet: Option<Alphabet>,
    piece: Piece,
) -> Option<char>
    ensures { result
        ≡ ligature_start accent (option_map alphabet_of alphabet) (piece_of piece.entry) }
{
    match (accent, Font::of_words(alphabet), piece) {
        (None, Font::Usual, Piece::Character(c)) if begins_ligature(c) => Some(c),
        _ => None,
    }
}
