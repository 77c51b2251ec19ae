//! A build that may run again over its own output.
ghost use Rattle.std.specs.Prelude.{◌≡◌, ℕ, List, Err, IfErr, IfOk, MatchOption, string_bytes};
ghost use Rattle.latex2mathml.specs.{Documents.IsAnswer, DocumentLaws.IsOwnAnswer, Dollars.IsDollarFree, Inputs.IsReadingOf};
ghost use Rattle.latex2mathml.specs.Streams.{CanGoOn, Gives};
ghost use Rattle.latex2mathml_uses.specs.Builds.{IsFaultOf, page_text};

use latex2mathml::{FileFault, Reading, Source, Stream, laws, read_document};
use std::alloc::Global;

/// Reads a page, and returns what a run of the build writes in its place: the answer of the page if the page contains a dollar
/// sign, and otherwise nothing, because the page is its own answer. What it writes is also its own answer, so the next run
/// writes nothing. An error is the one that reading the page reports.
pub fn rewrite<S: Source>(alloc: Global, source: &mut S) -> Result<Option<String>, FileFault>
    requires { CanGoOn (S.state source.old) }
    ensures written { IfOk result (λ written. (page : List ℕ)
        × Gives (S.state source.old) (S.state source.new) page
        × MatchOption written (IsDollarFree page × IsOwnAnswer page) (λ answer.
        (¬ IsDollarFree page) × IsAnswer page (string_bytes answer)
        × IsOwnAnswer (string_bytes answer))) }
    ensures fault { IfErr result (λ fault. (page : List ℕ)
        × Gives (S.state source.old) (S.state source.new) page
        × IsReadingOf page (S.state source.new) (Err fault)) }
{
    laws::answers();
    match read_document(alloc, source)? {
        Reading::Changed(answer) => Ok(Some(answer)),
        Reading::Unchanged(_) => Ok(None),
    }
}

/// Returns the page that a run leaves, for a template engine in which a dollar sign begins a name. The page contains no dollar
/// sign. An error is the one that reading the document reports.
pub fn template<S: Source>(alloc: Global, source: &mut S) -> Result<String, FileFault>
    requires { CanGoOn (S.state source.old) }
    ensures page { IfOk result (λ page. (document : List ℕ)
        × Gives (S.state source.old) (S.state source.new) document
        × IsAnswer document (string_bytes page)) }
    ensures dollar_free { IfOk result (λ page. IsDollarFree (string_bytes page)) }
    ensures fault { IfErr result (λ fault. (document : List ℕ)
        × Gives (S.state source.old) (S.state source.new) document
        × IsReadingOf document (S.state source.new) (Err fault)) }
{
    Ok(page_of(read_document(alloc, source)?))
}

/// Returns the page that two runs of a build make of a document. The second run does not change the page of the first, and
/// refuses nothing in it.
pub fn built_twice<S: Source>(alloc: Global, source: &mut S) -> Result<String, FileFault>
    requires { CanGoOn (S.state source.old) }
    ensures page { IfOk result (λ page. (document : List ℕ)
        × Gives (S.state source.old) (S.state source.new) document
        × IsAnswer document (string_bytes page)
        × IsOwnAnswer (string_bytes page)) }
    ensures fault { IfErr result (λ fault. (document : List ℕ)
        × Gives (S.state source.old) (S.state source.new) document
        × IsFaultOf document fault) }
{
    laws::answers();
    let page = page_of(read_document(alloc, source)?);
    let mut written = Stream::new(page.as_bytes());
    match read_document(alloc, &mut written) {
        Ok(Reading::Changed(_)) => unreachable!(),
        Ok(Reading::Unchanged(again)) => Ok(again),
        Err(fault) => Err(fault),
    }
}

/// Returns the page after a run of the build.
fn page_of(reading: Reading) -> String
    ensures { string_bytes result ≡ page_text reading }
{
    match reading {
        Reading::Changed(answer) => answer,
        Reading::Unchanged(page) => page,
    }
}
