//! The operands that commands take whole.
ghost use Rattle.std.specs.Prelude.{◌≡◌};
ghost use Rattle.latex2mathml_attributes.specs.Names.{side_of};
ghost use Rattle.latex2mathml_tex_grammar.specs.Operands;
ghost use Rattle.latex2mathml_tex_commands.specs.{Meanings.meaning_of, Optionals.optional_of};

use crate::meaning::{Change, Meaning};
use latex2mathml_attributes::attributes::Side;

/// What may come before the operands of a command, and how many of them the command then takes whole.
#[derive(Clone, Copy)]
pub enum Optional {
    Nothing,
    Star(u8),
    /// An argument in brackets.
    Brackets(u8),
}

/// Returns how many operands and other arguments a command with this meaning takes whole, where a macro among them is one
/// operand, as in braces. Other commands take the first atom of what replaces the macro.
pub fn taken_whole(meaning: &Meaning) -> u8
    ensures { result ≡ Operands.taken_whole (meaning_of meaning.now) }
{
    match *meaning {
        Meaning::SkipInBraces
        | Meaning::Boxed(_)
        | Meaning::Smash
        | Meaning::Arrow(_)
        | Meaning::Styled(_)
        | Meaning::Words(_)
        | Meaning::Brace(_, _)
        | Meaning::OperatorName
        | Meaning::Slash
        | Meaning::Changes(Change::ToColor)
        | Meaning::BeginTable
        | Meaning::EndTable
        | Meaning::Substack => 1,
        Meaning::Raise
        | Meaning::InColor
        | Meaning::Highlight
        | Meaning::Rectangle
        | Meaning::Fraction(_, _)
        | Meaning::ContinuedFraction
        | Meaning::Stack(_)
        | Meaning::StackedRelation => 2,
        Meaning::GeneralFraction => 6,
        Meaning::Accent(side, mark, _) => under_accent(side, mark),
        _ => 0,
    }
}

/// Returns what may come before the operands of a command with this meaning. A root takes its operand whole behind its degree.
pub fn optional_before(meaning: &Meaning) -> Optional
    ensures { optional_of result ≡ Operands.optional_before (meaning_of meaning.now) }
{
    match *meaning {
        Meaning::SkipInBraces | Meaning::OperatorName => Optional::Star(1),
        Meaning::Root | Meaning::Arrow(_) | Meaning::Smash | Meaning::Changes(Change::ToColor) => {
            Optional::Brackets(1)
        }
        Meaning::InColor | Meaning::ContinuedFraction | Meaning::Rectangle => Optional::Brackets(2),
        _ => Optional::Nothing,
    }
}

/// Returns how many operands an accent with this mark takes whole: one, but `\overline` none.
fn under_accent(side: Side, mark: char) -> u8
    ensures { result ≡ Operands.under_accent (side_of side) mark }
{
    match side {
        Side::Above if mark == '\u{332}' => 0,
        Side::Above | Side::Below => 1,
    }
}
