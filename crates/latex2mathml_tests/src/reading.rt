//! Tests of documents from readers that give a few bytes per call, or fail.

use crate::checks::is_error;
use crate::streams::{Reader, stream};
use latex2mathml::{FileFault, LatexError, Reading, read_document};
use std::alloc::Global;
use std::test::Fail;

const ENOUGH: usize = 100_000;

/// Whether the document, read this many bytes per call, is read to its end and converted to this answer, or is unchanged if no
/// answer is given.
fn is_read(alloc: Global, document: &str, step: usize, answer: Option<&str>) -> Result<bool, Fail> {
    let mut from = stream(Reader {
        bytes: document.as_bytes(),
        step,
        calls_left: ENOUGH,
    });
    let is_due = match read_document(alloc, &mut from)? {
        Reading::Changed(text) => answer == Some(text.as_str()),
        Reading::Unchanged(text) => answer == None && text.as_str() == document,
    };
    Ok(is_due && from.ended && !from.failed && from.inner.bytes.is_empty())
}

/// Documents, and their answers if they change. A dollar sign outside formulas changes the document too.
const DOCUMENTS: [(&str, Option<&str>); 7] = [
    ("", None),
    ("no sign", None),
    ("é\r\n", None),
    (r"a\", None),
    (r"\a\\", None),
    (r"\$5", Some("&#x24;5")),
    (
        "$a$ é",
        Some(
            "<math xmlns=\"http://www.w3.org/1998/Math/MathML\" display=\"inline\"><mi>a</mi></math> é",
        ),
    ),
];

#[test]
fn documents(rt: HostRuntime) -> Result<(), Fail> {
    for (document, answer) in DOCUMENTS {
        for step in [1, 2, 3, 5, 4096] {
            assert!(rt; is_read(rt.alloc(), document, step, answer)?, "{document}");
        }
    }
    Ok(())
}

/// Whether reading these bytes, one at a time in this many calls, results in the fault.
fn comes_to(alloc: Global, bytes: &[u8], calls: usize, fault: &FileFault) -> bool {
    let mut from = stream(Reader {
        bytes,
        step: 1,
        calls_left: calls,
    });
    let is_due = is_error(read_document(alloc, &mut from), fault);
    let has_failed = *fault == FileFault::Read;
    is_due && from.failed == has_failed && from.ended != has_failed
}

/// A reader that fails at each call in turn, including the one that would report the end.
#[test]
fn failing_reader(rt: HostRuntime) {
    for calls in 0..4 {
        assert!(rt;
            comes_to(rt.alloc(), b"$a$", calls, &FileFault::Read),
            "{calls}"
        );
    }
}

#[test]
fn no_text(rt: HostRuntime) {
    for bytes in [
        b"\xff".as_slice(),
        b"\xed\xa0\x80".as_slice(),
        b"$\xc3".as_slice(),
        b"$a$\x80".as_slice(),
    ] {
        assert!(rt; comes_to(rt.alloc(), bytes, ENOUGH, &FileFault::NotText));
    }
}

#[test]
fn refused_document(rt: HostRuntime) {
    let refused = FileFault::Refused(LatexError::InvalidNumberOfDollarSigns);
    assert!(rt; comes_to(rt.alloc(), b"$$$", ENOUGH, &refused));
}
