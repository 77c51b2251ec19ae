//! The fonts of words.
ghost use Rattle.std.specs.Prelude.{◌≡◌, option_map};
ghost use Rattle.latex2mathml_attributes.specs.Names.{attributes_of};
ghost use Rattle.latex2mathml_tex_grammar.specs.Words as words;
ghost use Rattle.latex2mathml_tex_commands.specs.Meanings.{alphabet_of};
ghost use Rattle.latex2mathml_tex_atoms.specs.Models.{font_of};

use latex2mathml_attributes::attributes::{Attributes, BoxStyle};
use latex2mathml_tex_commands::meaning::Alphabet;

/// The font of a text.
#[derive(Clone, Copy)]
pub enum Font {
    Usual,
    /// All characters are of one width.
    Typewriter,
}

impl Font {
    /// Returns the font of words in an alphabet.
    pub fn of_words(alphabet: Option<Alphabet>) -> Font
        ensures { font_of result ≡ words.font_in (option_map alphabet_of alphabet) }
    {
        match alphabet {
            Some(Alphabet::Monospace) => Font::Typewriter,
            _ => Font::Usual,
        }
    }

    /// Returns the attributes of a text in this font.
    pub(crate) fn attributes(self) -> Attributes
        ensures { attributes_of result ≡ words.font_attributes (font_of self) }
    {
        match self {
            Font::Usual => Attributes::plain(),
            Font::Typewriter => Attributes {
                box_style: Some(BoxStyle::Monospaced),
                ..Attributes::plain()
            },
        }
    }
}
