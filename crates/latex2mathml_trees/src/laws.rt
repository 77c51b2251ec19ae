//! Laws of widths and of markup.
ghost use Rattle.latex2mathml_trees.specs.{Pages.JoinsMarkup, Width.WidthsAreNearest};

/// The width of a space is the thousandth of an em that is nearest to it.
#[tactic(auto, using(crate::proofs::Widths::nearest, crate::proofs::Widths::only_nearest))]
pub fn widths_are_nearest()
    ensures { WidthsAreNearest }
{}

/// Balanced markup stays balanced when it is joined or put into an element. So do pages: markup in which each element that
/// the child table names obeys it. A `math` element may be in either.
#[tactic(auto, using(crate::proofs::Pages::joins_markup))]
pub fn joined_markup()
    ensures { JoinsMarkup }
{}
