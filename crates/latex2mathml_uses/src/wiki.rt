//! Pages of sections that are converted once.
ghost use Rattle.std.specs.Prelude.{◌≡◌, ◌==◌, ◌++◌, ◌↔◌, IsTrue, IfOk, string_bytes};
ghost use Rattle.std.specs.List.{suffix_len};
ghost use Rattle.latex2mathml.specs.{Documents.IsAnswer, Documents.IsRefusal, DocumentLaws.EndsInOddBackslashes, Dollars.backslash};
ghost use Rattle.latex2mathml.specs.Formulas.{IfRefused};
ghost use Rattle.latex2mathml_uses.specs.Sections.{ShowsAnswer};

use latex2mathml::{LatexError, laws, replace};
use std::alloc::{AllocError, Global};

/// A section: the text of its author, and the converted text.
#[derive(Drop)]
pub struct Section {
    pub source: String,
    pub shown: String,
}

/// Converts a source to a section. An error is the refusal of the source, or out of memory.
pub fn convert(alloc: Global, source: &str) -> Result<Section, LatexError>
    ensures source { IfOk result (λ section. string_bytes section.source ≡ source.now) }
    ensures shown { IfOk result ShowsAnswer }
    ensures refusal { IfRefused result (IsRefusal source.now) }
{
    let shown = replace(alloc, source)?;
    let source = String::from_str(alloc, source)?;
    Ok(Section { source, shown })
}

/// Joins two sections without converting either again: the text shown is the answer for the joined sources. The first source
/// must not end in an odd number of backslashes ([`ends_open`]). The only error is out of memory.
pub fn join(alloc: Global, first: &Section, second: &Section) -> Result<Section, AllocError>
    requires first { ShowsAnswer first.now }
    requires second { ShowsAnswer second.now }
    requires whole { ¬ EndsInOddBackslashes (string_bytes first.now.source) }
    ensures source { IfOk result (λ section.
        string_bytes section.source
        ≡ string_bytes first.now.source ++ string_bytes second.now.source) }
    ensures shown { IfOk result ShowsAnswer }
{
    laws::joined(first.source.as_str(), second.source.as_str());
    let source = format!(in alloc; "{}{}", first.source, second.source)?;
    let shown = format!(in alloc; "{}{}", first.shown, second.shown)?;
    Ok(Section { source, shown })
}

/// Returns whether a backslash at the end of the text would take the first character of a text after it.
pub fn ends_open(text: &str) -> bool
    ensures { IsTrue result ↔ EndsInOddBackslashes text.now }
{
    trailing_backslashes(text) % 2 == 1
}

/// Returns the number of backslashes at the end of the text.
fn trailing_backslashes(text: &str) -> usize
    ensures { result ≡ suffix_len (λ b. b == backslash) text.now }
{
    text.as_bytes()
        .iter()
        .rev()
        .take_while(|b| **b == b'\\')
        .count()
}
