//! Markup of parentheses and fences, as it is written.
ghost use Rattle.std.specs.Prelude.{◌≡◌, true};
ghost use Rattle.latex2mathml_trees.specs.{Print.print, Tree.other_operator, Tree.stretched};
ghost use Rattle.latex2mathml_parts.specs.{Parts.fence_text, Shapes.fence_close, Shapes.fence_open};
ghost use Rattle.latex2mathml_tokens.specs.Names.{paren_text};

use latex2mathml_tokens::names::Paren;

/// The text of a parenthesis between two texts.
macro_rules! between {
    ($paren:ident, $before:literal, $after:literal) => {
        between!($paren, $before, $after,
            LeftRound => "(", RightRound => ")", LeftSquare => "[", RightSquare => "]", Bar => "|",
            Assign => ":=", LeftAngle => "⟨", RightAngle => "⟩", LeftBrace => "{", RightBrace => "}",
            DoubleBar => "∥", LeftCeiling => "⌈", RightCeiling => "⌉", LeftFloor => "⌊", RightFloor => "⌋",
            LeftTortoise => "⦗", RightTortoise => "⦘", LeftDouble => "⟦", RightDouble => "⟧",
        )
    };
    ($paren:ident, $before:literal, $after:literal, $($variant:ident => $text:literal,)*) => {
        match $paren {
            $(Paren::$variant => concat!($before, $text, $after),)*
        }
    };
}

/// Returns the markup of a parenthesis.
#[inline(always)]
#[tactic(auto, unfolding(crate::proofs::Encoding::encode_utf8))]
pub(crate) fn paren_markup(paren: Paren) -> &'static str
    ensures { result.now ≡ print (other_operator (paren_text paren)) }
{
    between!(paren, "<mo>", "</mo>")
}

/// Returns the markup of a parenthesis that grows.
#[inline(always)]
#[tactic(auto, unfolding(crate::proofs::Encoding::encode_utf8))]
pub(crate) fn stretched_markup(paren: Paren) -> &'static str
    ensures { result.now ≡ print (stretched true (paren_text paren)) }
{
    between!(paren, "<mo stretchy=\"true\">", "</mo>")
}

/// Returns an opening fence, which may be missing.
#[tactic(auto, unfolding(crate::proofs::Encoding::encode_utf8))]
pub(crate) fn opening_markup(fence: Option<Paren>) -> &'static str
    ensures { result.now ≡ fence_open (fence_text fence) }
{
    match fence {
        None => "<mo stretchy=\"true\" form=\"prefix\"></mo>",
        Some(paren) => between!(paren, "<mo stretchy=\"true\" form=\"prefix\">", "</mo>"),
    }
}

/// Returns a closing fence, which may be missing.
#[tactic(auto, unfolding(crate::proofs::Encoding::encode_utf8))]
pub(crate) fn closing_markup(fence: Option<Paren>) -> &'static str
    ensures { result.now ≡ fence_close (fence_text fence) }
{
    match fence {
        None => "<mo stretchy=\"true\" form=\"postfix\"></mo>",
        Some(paren) => between!(paren, "<mo stretchy=\"true\" form=\"postfix\">", "</mo>"),
    }
}
