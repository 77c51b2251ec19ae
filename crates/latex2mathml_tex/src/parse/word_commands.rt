//! What a command is in words.
ghost use Rattle.std.specs.Prelude.{◌≡◌, ℕ, List, Option, Some, false};
ghost use Rattle.latex2mathml_tex_grammar.specs.Commands;
ghost use Rattle.latex2mathml_tex_grammar.specs.Symbols;
ghost use Rattle.latex2mathml_tex_grammar.specs.Units.{Command};
ghost use Rattle.latex2mathml_tex_grammar.specs.WordBoxes.{box_meant, box_named, word_box};
ghost use Rattle.latex2mathml_tex_grammar.specs.Words.{Font as TextFont, font_in, meaning_rule, word_rule};
ghost use Rattle.latex2mathml_tex_commands.specs.Meanings.{meaning_of};
ghost use Rattle.latex2mathml_tex_units.specs.Taking.{piece_of};
ghost use Rattle.latex2mathml_tex.specs.WordCommands.{IsKept, box_in, boxed_in, is_changed, rule_of, word_of};
ghost use Rattle.latex2mathml_tex.specs.Steps.{IsChange};

use latex2mathml_attributes::attributes::{Side, Stretch};
use latex2mathml_tex_commands::commands;
use latex2mathml_tex_commands::meaning::{
    Alphabet, Change, Class, Meaning, OperandBox, Symbol, TextSize,
};
use latex2mathml_tex_commands::text_commands::{text_accent, text_character};
use latex2mathml_tex_units::dots::{CENTERED_DOTS, COLUMN_DOTS, LOW_DOTS};
use latex2mathml_tex_units::unit::Piece;

/// What a command is in words.
#[derive(Clone, Copy)]
pub(crate) enum WordCommand {
    /// A character.
    Character(char),
    /// An accent on the next character.
    Accent(char),
    /// A space.
    Space,
    /// A sign or a letter, as in a formula.
    Sign(Symbol),
    /// Words in this alphabet.
    Words(Option<Alphabet>),
    /// A change up to the end of the group.
    Change(WordChange),
    /// An atom as in a formula, which a command of this meaning makes.
    Atom(Meaning),
    /// What makes this of the words after it, in words in braces. Elsewhere it cannot appear.
    Box(WordBox),
    /// A command that cannot appear in words.
    Forbidden,
    /// No command.
    Unknown,
}

/// A change in words, up to the end of the group.
#[derive(Clone, Copy)]
pub(crate) enum WordChange {
    ToAlphabet(Alphabet),
    ToSize(TextSize),
}

/// What is made of words in words.
#[derive(Clone, Copy)]
pub(crate) enum WordBox {
    /// They are in this box.
    Boxed(OperandBox),
    /// They are raised by the length that comes next in braces.
    Raised,
    /// They are in the color that comes next.
    Colored,
    /// They are on a background of the color that comes next.
    Highlighted,
    /// This mark is below them.
    Marked(char, Stretch),
}

/// What a unit is in words in braces.
#[derive(Clone, Copy)]
pub(crate) enum InBraces {
    /// A change of the words after it.
    Change(WordChange),
    /// What makes this of the words after it.
    Box(WordBox),
    /// A part of words, as elsewhere.
    Word,
}

impl WordCommand {
    /// Returns what the command with this name is.
    pub(crate) fn of(name: &str) -> WordCommand
        ensures rule { (a : Option Symbols.Alphabet)
            → word_rule a (Command name.now) ≡ rule_of (font_in a) name.now result }
        ensures atom { (meaning : Meaning) → result ≡ WordCommand.Atom meaning
            → Commands.meaning_of name.now ≡ Some (meaning_of meaning) }
        ensures boxed { box_named name.now ≡ box_in result }
    {
        if let Some(c) = text_character(name) {
            return WordCommand::Character(c);
        }
        if let Some(accent) = text_accent(name) {
            return WordCommand::Accent(accent);
        }
        match commands::look_up(name) {
            Some(meaning) => WordCommand::of_meaning(meaning),
            None => WordCommand::Unknown,
        }
    }

    /// Returns what a command of this meaning is, if it is neither a character nor an accent.
    fn of_meaning(meaning: Meaning) -> WordCommand
        ensures rule { (font : TextFont) (name : List ℕ)
            → meaning_rule font name (Some (meaning_of meaning)) ≡ rule_of font name result }
        ensures atom { (same : Meaning) → result ≡ WordCommand.Atom same → same ≡ meaning }
        ensures boxed { box_meant (Some (meaning_of meaning)) ≡ box_in result }
    {
        match meaning {
            Meaning::Spacing(_) => WordCommand::Space,
            Meaning::Shows(symbol) => WordCommand::Sign(symbol),
            Meaning::Dots => WordCommand::Sign(LOW_DOTS),
            Meaning::CenteredDots => WordCommand::Sign(CENTERED_DOTS),
            Meaning::VerticalDots => WordCommand::Sign(COLUMN_DOTS),
            Meaning::Implication(c) => WordCommand::Sign(Symbol::Sign(Class::Relation, c)),
            Meaning::Words(alphabet) => WordCommand::Words(alphabet),
            Meaning::Changes(Change::ToAlphabet(alphabet)) => WordCommand::Change(
                WordChange::ToAlphabet(alphabet),
            ),
            Meaning::Changes(Change::ToSize(size)) => WordCommand::Change(WordChange::ToSize(size)),
            Meaning::Skip | Meaning::SkipInBraces | Meaning::Rectangle => WordCommand::Atom(
                meaning,
            ),
            Meaning::Boxed(operand_box) => WordCommand::Box(WordBox::Boxed(operand_box)),
            Meaning::Raise => WordCommand::Box(WordBox::Raised),
            Meaning::InColor => WordCommand::Box(WordBox::Colored),
            Meaning::Highlight => WordCommand::Box(WordBox::Highlighted),
            Meaning::Accent(Side::Below, mark, stretch) => WordCommand::Box(WordBox::Marked(
                mark, stretch,
            )),
            _ => WordCommand::Forbidden,
        }
    }
}

/// Returns what the unit is in words in braces.
pub(crate) fn in_braces(piece: Piece) -> InBraces
    ensures changed { (change : WordChange) → result ≡ InBraces.Change change
        → (a : Option Symbols.Alphabet) → IsChange a (piece_of piece.entry) (word_of change) }
    ensures boxed { word_box (piece_of piece.entry) ≡ boxed_in result }
    ensures kept { is_changed result ≡ false → (a : Option Symbols.Alphabet)
        → IsKept a (piece_of piece.entry) }
{
    let Piece::Command(name) = piece else {
        return InBraces::Word;
    };
    match WordCommand::of(name) {
        WordCommand::Change(change) => InBraces::Change(change),
        WordCommand::Box(word_box) => InBraces::Box(word_box),
        _ => InBraces::Word,
    }
}
