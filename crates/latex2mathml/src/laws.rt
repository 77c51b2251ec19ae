//! Laws of the definitions: laws of documents, and re-exported laws of formulas and nodes. Each function does nothing. Its
//! contract states a fact, and a proof calls the function to use the fact.
ghost use Rattle.latex2mathml.specs.DocumentLaws.{AnswersHold, HasOneCut, HasOneOutcome, JoinsAnswers, RepeatsAnswers};

pub use latex2mathml_grammar::laws::{
    dollar_free, one_reading, one_reading_of, one_rendering, one_token_list, places,
    read_by_slices, refused_by_slices, rendering, renderings, sliced, texts, white_space,
};
pub use latex2mathml_nodes::laws::{balanced, one_element, restyled};
pub use latex2mathml_trees::laws::{joined_markup, widths_are_nearest};

/// A document has at most one cut into pieces.
pub fn one_cut(document: &str)
    ensures { HasOneCut document.now }
{
    let _ = document;
}

/// All laws of documents at once:
///
/// - A document has at most one cut.
/// - Each document has exactly one answer or exactly one refusal. The refusal is for dollar signs exactly if there is no cut.
/// - An answer is its own answer, and has one `math` element in place of each formula.
/// - Answers are joined as their documents are, under the condition of [`joined`].
/// - If the prose around the formulas is balanced markup, so is the answer. If it is that of a page, the answer is a page.
pub fn answers()
    ensures { AnswersHold }
{
    renderings();
    joined_markup();
}

/// If two documents have answers, the joined documents have the joined answers, unless the first document ends in an odd
/// number of backslashes.
pub fn joined(first: &str, second: &str)
    ensures { JoinsAnswers first.now second.now }
{
    answers();
    let _ = first;
    let _ = second;
}

/// An answer of the document is its own answer.
pub fn repeated(document: &str)
    ensures { RepeatsAnswers document.now }
{
    answers();
    let _ = document;
}

/// A document has exactly one answer or exactly one refusal.
pub fn one_outcome(document: &str)
    ensures { HasOneOutcome document.now }
{
    answers();
    let _ = document;
}
