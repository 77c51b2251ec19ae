//! Laws of the definitions.
ghost use Rattle.latex2mathml_elements.specs.Laws.{AnnotatedPrintAsElements, PrintAsElements};

/// The print of an element is one balanced element, and so is that of a formula. Both obey the child table of MathML.
/// The print of a formula holds no dollar sign, and no character that XML forbids if its texts hold none.
#[tactic(auto, using(crate::proofs::OneElement::print_as_elements))]
pub fn print_as_elements()
    ensures { PrintAsElements }
{}

/// The print of a formula with an annotation is one balanced element, which obeys the child table of MathML with the
/// elements `semantics` and `annotation`. It holds no dollar sign, and no character that XML forbids if its texts hold none.
#[tactic(auto, using(crate::proofs::Annotated::annotated_print_as_elements))]
pub fn annotated_print_as_elements()
    ensures { AnnotatedPrintAsElements }
{}
