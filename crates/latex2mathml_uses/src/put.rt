//! A text that is written to a writer.
ghost use Rattle.std.specs.{Prelude.IfErr, Prelude.OnOk, Io.KnownBytes.Appends};
ghost use Rattle.latex2mathml_uses.specs.Puts.{TakesStart};

use latex2mathml::{FileFault, Stream, write_text};
use std::io::Write;

/// Writes the whole text to a writer, after what the writer took before. Returns the writer and the result. On an error, the
/// writer took the first bytes of the text, as many as the error says.
pub fn put<W: Write>(writer: W, text: &str) -> (W, Result<(), FileFault>)
    ensures taken { OnOk result.1 (Appends (W.contents writer) (W.contents result.0) text.now) }
    ensures stopped { IfErr result.1 (λ fault.
        TakesStart fault text.now (W.contents writer) (W.contents result.0)) }
{
    let mut sink = Stream::new(writer);
    let done = write_text(&mut sink, text);
    (sink.inner, done)
}
