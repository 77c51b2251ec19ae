//! Laws of texts, of the grammar, and of renderings.
ghost use Rattle.std.specs.{Prelude.map, Str.chars};
ghost use Rattle.latex2mathml_grammar.specs.Laws.{HasOneReading, IsReadBySlices, IsRefusedBySlices, IsSliced};
ghost use Rattle.latex2mathml_grammar.specs.{Places.HasPlaces, Places.SpaceChangesNothing, TextLaws.TextsHold};
ghost use Rattle.latex2mathml_grammar.specs.RenderingLaws.{HasOneRendering, RendersDollarFree, RendersElements, RenderingsHold};
ghost use Rattle.latex2mathml_tokens.specs.Tok.{tok};
ghost use Rattle.latex2mathml_grammar.specs.TokenLists.{HasOneTokenList, TextHasOneReading};

use latex2mathml_tokens::DisplayStyle;
use latex2mathml_tokens::token::Token;

/// Each text has exactly one token list, and each list of tokens exactly one reading or exactly one refusal. There is a place
/// between any two adjacent tokens. White space there changes neither, except directly before a digit that may be an operand.
pub fn texts()
    ensures { TextsHold }
{}

/// A text has exactly one token list.
pub fn one_token_list(text: &str)
    ensures { HasOneTokenList (chars text.now) }
{
    let _ = text;
}

/// A text has exactly one token list, and that has exactly one reading or exactly one refusal.
pub fn one_reading(text: &str)
    ensures { TextHasOneReading (chars text.now) }
{
    let _ = text;
}

/// Tokens have exactly one reading or exactly one refusal.
pub fn one_reading_of(tokens: &[Token])
    ensures { HasOneReading (map tok tokens.now) }
{
    let _ = tokens;
}

/// What is read is a slice of the tokens, and the rest follows it. The slice is empty only where nothing is left.
#[tactic(auto, using(crate::proofs::Sliced::laws_of_slices))]
pub fn sliced()
    ensures { IsSliced }
{}

/// A slice is a core, a single, a node, the parts of a rule or the members of a group exactly where the rules read it and
/// leave what follows it. Tokens are consecutive nodes exactly where these are a reading of the formula.
#[tactic(auto, using(crate::proofs::Sliced::laws_of_slices), unfolding(crate::specs::Grammar::ReadsFormula))]
pub fn read_by_slices()
    ensures { IsReadBySlices }
{}

/// Tokens are refused exactly where the grammar over slices refuses them: after parts that are slices.
#[tactic(auto, using(crate::proofs::Sliced::laws_of_slices), unfolding(crate::specs::Grammar::Refuses))]
pub fn refused_by_slices()
    ensures { IsRefusedBySlices }
{}

/// Each rendering of a text is one `math` element that obeys the child table.
#[tactic(auto, using(crate::proofs::MathElements::rendering_is_math))]
pub fn rendering(text: &str, display: DisplayStyle)
    ensures { RendersElements text.now display }
{
    let _ = text;
    let _ = display;
}

/// No rendering of a formula holds a dollar sign.
#[tactic(auto, using(crate::proofs::Kept::dollar_free))]
pub fn dollar_free(text: &str)
    ensures { RendersDollarFree text.now }
{
    let _ = text;
}

/// A formula has exactly one rendering or exactly one refusal.
pub fn one_rendering(text: &str, display: DisplayStyle)
    ensures { HasOneRendering text.now display }
{
    let _ = text;
    let _ = display;
}

/// Each formula has exactly one rendering, which is one `math` element and holds no dollar sign, or exactly one refusal,
/// which is never for dollar signs. In a reading no function has an argument.
#[tactic(auto, using(crate::proofs::Renderings::renderings_hold))]
pub fn renderings()
    ensures { RenderingsHold }
{}

/// There is a place between any two adjacent tokens of a text.
#[tactic(auto, using(crate::proofs::WhiteSpace::has_places))]
pub fn places(text: &str)
    ensures { HasPlaces (chars text.now) }
{
    let _ = text;
}

/// White space at a place between two tokens changes no token, and so no answer. A digit place is excluded: `\frac12` has
/// one after `\frac`, and white space there makes it another formula.
#[tactic(auto, using(crate::proofs::WhiteSpace::space_changes_nothing))]
pub fn white_space(before: &str, space: &str, after: &str)
    ensures { SpaceChangesNothing before.now space.now after.now }
{
    let _ = before;
    let _ = space;
    let _ = after;
}
