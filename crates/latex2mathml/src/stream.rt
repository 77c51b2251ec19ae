//! Sources and sinks of bytes.
ghost use Rattle.std.specs.Prelude.{◌≡◌, ◌≤◌, length, take, is_none, IsFalse, IsTrue, IfErr, IfSome, MatchOption, OnOk};
ghost use Rattle.std.specs.Io.KnownBytes.{Appends, Consumes, IsAtEnd, Keeps};
ghost use Rattle.latex2mathml.specs.Streams.{CanGoOn, IsStopped, StreamState, Takes, meets_end};

use crate::error::{FileFault, WriteCause};
use std::io::{Read, Write};

/// A source of bytes. It is called until it fails or ends, and never again.
pub trait Source {
    /// What is known of the source: the bytes that later calls give, and whether it has failed or ended.
    ghost state: { Self → StreamState };

    /// Writes bytes to the start of `room` and returns how many, or returns `None` if the source fails.
    ///
    /// The source must not have failed or ended. It has failed exactly if the result is `None`, and no byte is then lost. It
    /// has ended exactly if the result is `Some(0)` and `room` is not empty.
    fn take_in(&mut self, room: &mut [u8]) -> Option<usize>
        requires { CanGoOn (state self.old) }
        ensures bound { IfSome result (λ n. n ≤ length room.new) }
        ensures bytes { MatchOption result
            (Keeps (state self.old).bytes (state self.new).bytes)
            (λ n. Consumes (state self.old).bytes (state self.new).bytes (take n room.new)) }
        ensures failed { (state self.new).failed ≡ is_none result }
        ensures ended { (state self.new).ended ≡ meets_end result (length room.old) }
        ensures end { IsTrue (state self.new).ended → IsAtEnd (state self.new).bytes };
}

/// A sink of bytes. It is called until it fails or ends, and never again.
pub trait Sink {
    /// What is known of the sink: the bytes that it took, and whether it has failed or ended.
    ghost state: { Self → StreamState };

    /// Takes the first of the bytes and returns how many, or returns `None` if the sink fails.
    ///
    /// The sink must not have failed or ended. It has failed exactly if the result is `None`, and the call then took no byte.
    /// It has ended exactly if the result is `Some(0)` and `bytes` is not empty.
    fn put_out(&mut self, bytes: &[u8]) -> Option<usize>
        requires { CanGoOn (state self.old) }
        ensures bound { IfSome result (λ n. n ≤ length bytes.now) }
        ensures bytes { MatchOption result
            (Keeps (state self.old).bytes (state self.new).bytes)
            (λ n. Appends (state self.old).bytes (state self.new).bytes (take n bytes.now)) }
        ensures failed { (state self.new).failed ≡ is_none result }
        ensures ended { (state self.new).ended ≡ meets_end result (length bytes.now) };
}

/// A reader as a source, or a writer as a sink. Each of their errors, even an interruption, is a failure.
///
/// [`Stream::new`] makes one that has neither failed nor ended.
#[derive(Debug, Drop)]
pub struct Stream<T> {
    pub inner: T,
    /// Whether a call has returned `None`.
    pub failed: bool,
    /// Whether a call has moved no byte, although there was room or there were bytes.
    pub ended: bool,
}

impl<T> Stream<T> {
    /// Returns the reader or writer as a stream that has neither failed nor ended.
    pub fn new(inner: T) -> Stream<T>
        ensures inner { result.inner ≡ inner }
        ensures failed { IsFalse result.failed }
        ensures ended { IsFalse result.ended }
    {
        Stream {
            inner,
            failed: false,
            ended: false,
        }
    }
}

impl<T: Read> Source for Stream<T> {
    ghost state = { λ stream. record {
      bytes = T.remaining stream.inner;
      failed = stream.failed;
      ended = stream.ended;
    } };

    fn take_in(&mut self, room: &mut [u8]) -> Option<usize> {
        match self.inner.read(room) {
            Ok(count) => {
                self.ended = count == 0 && !room.is_empty();
                Some(count)
            }
            Err(_) => {
                self.failed = true;
                None
            }
        }
    }
}

impl<T: Write> Sink for Stream<T> {
    ghost state = { λ stream. record {
      bytes = T.contents stream.inner;
      failed = stream.failed;
      ended = stream.ended;
    } };

    fn put_out(&mut self, bytes: &[u8]) -> Option<usize> {
        match self.inner.write(bytes) {
            Ok(count) => {
                self.ended = count == 0 && !bytes.is_empty();
                Some(count)
            }
            Err(_) => {
                self.failed = true;
                None
            }
        }
    }
}

/// Writes the whole text to the sink, and allocates nothing.
///
/// The sink must not have failed or ended before the call. On `Ok` it took exactly the text and can go on.
///
/// # Errors
///
/// Only [`FileFault::Write`]: the sink took exactly the first `written` bytes of the text, then failed or took nothing, and
/// was not called again. `cause` says which.
#[tactic(auto, using(crate::proofs::StreamLemmas::appends_front, crate::proofs::StreamLemmas::goes_on))]
pub fn write_text<S: Sink>(sink: &mut S, text: &str) -> Result<(), FileFault>
    requires { CanGoOn (S.state sink.old) }
    ensures taken { OnOk result (Takes (S.state sink.old) (S.state sink.new) text.now) }
    ensures ready { OnOk result (CanGoOn (S.state sink.new)) }
    ensures stopped { IfErr result (λ fault.
        IsStopped fault text.now (S.state sink.old) (S.state sink.new)) }
{
    let bytes = text.as_bytes();
    let mut written = 0;
    while written < bytes.len() {
        match sink.put_out(&bytes[written..]) {
            None => {
                let cause = WriteCause::Failed;
                return Err(FileFault::Write { written, cause });
            }
            Some(0) => {
                let cause = WriteCause::TookNothing;
                return Err(FileFault::Write { written, cause });
            }
            Some(count) => written += count,
        }
    }
    Ok(())
}

/// Writes the text of a document, as [`write_text`] writes any text.
pub fn write_document<S: Sink>(writer: &mut S, text: &str) -> Result<(), FileFault>
    requires { CanGoOn (S.state writer.old) }
    ensures taken { OnOk result (Takes (S.state writer.old) (S.state writer.new) text.now) }
    ensures ready { OnOk result (CanGoOn (S.state writer.new)) }
    ensures stopped { IfErr result (λ fault.
        IsStopped fault text.now (S.state writer.old) (S.state writer.new)) }
{
    write_text(writer, text)
}
