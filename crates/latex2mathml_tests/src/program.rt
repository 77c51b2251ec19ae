//! Tests of what the program does, called as its `main` calls it.
use crate::checks::are_equal;
use crate::streams::{Writer, stream};
use latex2mathml::{Disk, FileFault, LatexError, Stream, WriteCause};
use latex2mathml_program::{Job, run, serve};
use std::alloc::{AllocError, Global};
use std::test::Fail;

/// The markup of `x<y`, as the upstream crate writes it, and a line feed.
const LINE: &str =
    "<math xmlns=\"http://www.w3.org/1998/Math/MathML\" display=\"inline\"><mi>x</mi><mo>&lt;</mo><mi>y</mi></math>\n";

const BLOCK: &str =
    "<math xmlns=\"http://www.w3.org/1998/Math/MathML\" display=\"block\"><mi>x</mi><mo>&lt;</mo><mi>y</mi></math>\n";

const USAGE: &str = "usage: latex2mathml inline | block | document | html PATH\n";

/// Whether the job makes the product of the text.
fn makes(alloc: Global, job: Job, text: &str, product: &str) -> bool {
    let mut input = Stream::new(text.as_bytes());
    let mut output = Stream::new(Vec::new(alloc));
    let done = run(alloc, job, &mut input, &mut output);
    are_equal(done, Ok(())) && output.inner.as_slice() == product.as_bytes()
}

#[test]
fn each_job_is_run(rt: HostRuntime) -> Result<(), Fail> {
    let runs = [
        (Job::Inline, "x<y", LINE),
        (Job::Block, "x<y", BLOCK),
        (Job::Document, "no sign", "no sign"),
        (Job::Document, "\\$5", "&#x24;5"),
    ];
    for (job, text, product) in runs {
        assert!(rt; makes(rt.alloc(), job, text, product), "{text}");
    }
    Ok(())
}

/// Whether the job has this fault for these bytes, and writes nothing.
fn writes_nothing(alloc: Global, job: Job, bytes: &[u8], fault: FileFault) -> bool {
    let mut input = Stream::new(bytes);
    let mut output = Stream::new(Vec::new(alloc));
    let done = run(alloc, job, &mut input, &mut output);
    are_equal(done, Err(fault)) && output.inner.is_empty()
}

#[test]
fn a_run_that_makes_nothing_writes_nothing(rt: HostRuntime) -> Result<(), Fail> {
    let no_text = FileFault::NotText;
    assert!(rt; writes_nothing(rt.alloc(), Job::Block, b"\xff".as_slice(), no_text));
    let refused = FileFault::Refused(LatexError::InvalidNumberOfDollarSigns);
    assert!(rt; writes_nothing(rt.alloc(), Job::Document, b"$$$".as_slice(), refused));
    Ok(())
}

/// Whether a run whose output behaves like this stops with the cause, after these bytes.
fn stops(alloc: Global, writer: Writer, cause: WriteCause, written: &[u8]) -> bool {
    let mut input = Stream::new(b"abc".as_slice());
    let mut output = stream(writer);
    let fault = FileFault::Write {
        written: written.len(),
        cause,
    };
    let done = run(alloc, Job::Document, &mut input, &mut output);
    are_equal(done, Err(fault)) && output.inner.held.as_slice() == written
}

/// The output takes one byte per call and fails at each call in turn, or takes two bytes and then none.
#[test]
fn a_run_whose_output_stops(rt: HostRuntime) -> Result<(), Fail> {
    for calls in 0..3 {
        let writer = Writer {
            held: Vec::new(rt.alloc()),
            step: 1,
            calls_left: calls,
            fails: true,
        };
        let written = &b"abc".as_slice()[..calls];
        assert!(rt;
            stops(rt.alloc(), writer, WriteCause::Failed, written),
            "{calls}"
        );
    }
    let writer = Writer {
        held: Vec::new(rt.alloc()),
        step: 2,
        calls_left: 1,
        fails: false,
    };
    assert!(rt;
        stops(
            rt.alloc(),
            writer,
            WriteCause::TookNothing,
            b"ab".as_slice()
        )
    );
    Ok(())
}

fn owned(alloc: Global, words: &[&str]) -> Result<Vec<String>, AllocError> {
    let mut owned = Vec::new(alloc);
    for word in words {
        owned.push(String::from_str(alloc, word)?)?;
    }
    Ok(owned)
}

/// Whether the words and the text result in this status, this product and this line on standard error.
fn are_served(
    rt: &HostRuntime,
    words: &[String],
    text: &[u8],
    status: u8,
    product: &str,
    line: &str,
) -> bool {
    let alloc = rt.alloc();
    let mut input = Stream::new(text);
    let mut output = Stream::new(Vec::new(alloc));
    let mut errors = Stream::new(Vec::new(alloc));
    let mut disk = Disk { rt, alloc };
    let told = serve(
        &mut disk,
        alloc,
        words,
        &mut input,
        &mut output,
        &mut errors,
    );
    told == status
        && output.inner.as_slice() == product.as_bytes()
        && errors.inner.as_slice() == line.as_bytes()
}

#[test]
fn the_words_are_served(rt: HostRuntime) -> Result<(), Fail> {
    let nothing: [&str; 0] = [];
    let asked = [
        (["inline"].as_slice(), b"x<y".as_slice(), 0, LINE, ""),
        (
            ["block"].as_slice(),
            b"\xff".as_slice(),
            1,
            "",
            "LaTeX2MathML Error: The input is not UTF-8 text.\n",
        ),
        (nothing.as_slice(), b"x<y".as_slice(), 2, "", USAGE),
        (["html"].as_slice(), b"x<y".as_slice(), 2, "", USAGE),
    ];
    for (words, text, status, product, line) in asked {
        let words = owned(rt.alloc(), words)?;
        assert!(rt; are_served(&rt, words.as_slice(), text, status, product, line));
    }
    Ok(())
}
