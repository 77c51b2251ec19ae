//! Tests of readers and writers that fail.
ghost use Rattle.std.specs.Prelude.{◌≤◌, IfOk, IsFalse};

use crate::checks::are_equal;
use latex2mathml::{FileFault, Sink, Source, Stream, WriteCause, write_document};
use std::alloc::Global;
use std::io;
use std::io::{Read, Write};
use std::test::Fail;

/// A writer that takes `step` bytes per call. After `calls_left` calls it takes none, or fails.
#[derive(Drop)]
pub struct Writer {
    pub held: Vec<u8>,
    pub step: usize,
    pub calls_left: usize,
    pub fails: bool,
}

impl Write for Writer {
    fn write(&mut self, bytes: &[u8]) -> io::Result<usize> {
        if self.calls_left == 0 {
            return if self.fails {
                Err(io::Error::from(io::ErrorKind::Other))
            } else {
                Ok(0)
            };
        }
        self.calls_left -= 1;
        let count = self.step.min(bytes.len());
        self.held.extend_from_slice(&bytes[..count])?;
        Ok(count)
    }

    fn flush(&mut self) -> io::Result<()> {
        Ok(())
    }
}

/// A reader that gives `step` bytes per call, and fails after `calls_left` calls.
#[derive(Drop)]
pub struct Reader<'a> {
    pub bytes: &'a [u8],
    pub step: usize,
    pub calls_left: usize,
}

impl Read for Reader<'_> {
    fn read(&mut self, room: &mut [u8]) -> io::Result<usize> {
        if self.calls_left == 0 {
            return Err(io::Error::from(io::ErrorKind::Other));
        }
        self.calls_left -= 1;
        let count = self.step.min(room.len()).min(self.bytes.len());
        room[..count].copy_from_slice(&self.bytes[..count]);
        self.bytes = &self.bytes[count..];
        Ok(count)
    }
}

pub fn stream<T>(inner: T) -> Stream<T>
    ensures unfailed { IsFalse result.failed }
    ensures unended { IsFalse result.ended }
{
    Stream {
        inner,
        failed: false,
        ended: false,
    }
}

/// What is written to a writer, and how the writer behaves: it takes `step` bytes per call, and after `calls` calls it takes
/// none, or fails.
#[derive(Clone, Copy)]
struct Writing {
    text: &'static str,
    step: usize,
    calls: usize,
    fails: bool,
}

impl Writing {
    /// Whether the writer then has exactly the bytes that the result reports, and the result has the cause, or is `Ok` if all
    /// bytes were taken.
    fn ends(self, alloc: Global, cause: Option<WriteCause>, written: usize) -> bool {
        let mut sink = stream(Writer {
            held: Vec::new(alloc),
            step: self.step,
            calls_left: self.calls,
            fails: self.fails,
        });
        let ended = write_document(&mut sink, self.text);
        let is_told = match cause {
            None => are_equal(ended, Ok(())) && written == self.text.len(),
            Some(cause) => are_equal(ended, Err(FileFault::Write { written, cause })),
        };
        is_told
            && self.text.as_bytes().get(..written) == Some(sink.inner.held.as_slice())
            && sink.failed == (cause == Some(WriteCause::Failed))
            && sink.ended == (cause == Some(WriteCause::TookNothing))
    }
}

#[test]
fn writes_all(rt: HostRuntime) {
    for step in 1..8 {
        let writing = Writing {
            text: "a𝑥c",
            step,
            calls: 9,
            fails: true,
        };
        assert!(rt; writing.ends(rt.alloc(), None, 6), "{step}");
    }
    for fails in [true, false] {
        let nothing = Writing {
            text: "",
            step: 0,
            calls: 0,
            fails,
        };
        assert!(rt; nothing.ends(rt.alloc(), None, 0), "{fails}");
    }
}

/// A writer that takes one byte per call and fails at each call in turn.
#[test]
fn writer_fails(rt: HostRuntime) {
    for calls in 0..3 {
        let writing = Writing {
            text: "abc",
            step: 1,
            calls,
            fails: true,
        };
        assert!(rt;
            writing.ends(rt.alloc(), Some(WriteCause::Failed), calls),
            "{calls}"
        );
    }
}

#[test]
fn writer_takes_nothing(rt: HostRuntime) {
    for (calls, taken) in [(0, 0), (1, 2)] {
        let writing = Writing {
            text: "abc",
            step: 2,
            calls,
            fails: false,
        };
        assert!(rt;
            writing.ends(rt.alloc(), Some(WriteCause::TookNothing), taken),
            "{calls}"
        );
    }
}

/// A reader that gives one byte per call, and ends. The rest of the room is unchanged.
#[test]
fn reader_gives(rt: HostRuntime) {
    let mut room = [7u8; 4];
    let mut source = stream(Reader {
        bytes: b"ab",
        step: 1,
        calls_left: 9,
    });
    assert!(rt; source.take_in(&mut room) == Some(1));
    assert!(rt; room == [b'a', 7, 7, 7] && !source.failed && !source.ended);
    assert!(rt; source.take_in(&mut room) == Some(1));
    assert!(rt; room == [b'b', 7, 7, 7] && !source.failed && !source.ended);
    assert!(rt; source.take_in(&mut []) == Some(0));
    assert!(rt; !source.failed && !source.ended);
    assert!(rt; source.take_in(&mut room) == Some(0));
    assert!(rt; !source.failed && source.ended);
}

#[test]
fn reader_fails(rt: HostRuntime) {
    let mut room = [0u8; 4];
    let mut source = stream(Reader {
        bytes: b"ab",
        step: 1,
        calls_left: 0,
    });
    assert!(rt; source.take_in(&mut room) == None);
    assert!(rt; source.failed && !source.ended);
}

/// What a sink returns, called with and without bytes.
#[test]
fn sink_answers(rt: HostRuntime) {
    let mut sink = stream(Writer {
        held: Vec::new(rt.alloc()),
        step: 2,
        calls_left: 2,
        fails: false,
    });
    assert!(rt; sink.put_out(b"") == Some(0));
    assert!(rt; !sink.failed && !sink.ended);
    assert!(rt; sink.put_out(b"abc") == Some(2));
    assert!(rt; !sink.failed && !sink.ended);
    assert!(rt; sink.put_out(b"c") == Some(0));
    assert!(rt; !sink.failed && sink.ended);
}

/// A reader and a writer. It fails once, and gives or takes one byte at each later call.
#[derive(Drop)]
struct Flawed {
    kind: io::ErrorKind,
    calls: u32,
}

impl Flawed {
    /// Returns how many of these bytes this call moves.
    fn take_step(&mut self, due: usize) -> io::Result<usize>
        ensures { IfOk result (λ n. n ≤ due) }
    {
        self.calls = self.calls.saturating_add(1);
        if self.calls == 1 {
            return Err(io::Error::from(self.kind));
        }
        Ok(due.min(1))
    }
}

impl Read for Flawed {
    fn read(&mut self, room: &mut [u8]) -> io::Result<usize> {
        self.take_step(room.len())
    }
}

impl Write for Flawed {
    fn write(&mut self, bytes: &[u8]) -> io::Result<usize> {
        self.take_step(bytes.len())
    }

    fn flush(&mut self) -> io::Result<()> {
        Ok(())
    }
}

fn failing_once(kind: io::ErrorKind) -> Stream<Flawed>
    ensures unfailed { IsFalse result.failed }
    ensures unended { IsFalse result.ended }
{
    stream(Flawed { kind, calls: 0 })
}

/// Whether the stream has failed, has not ended, and made one call.
fn failed_once(stream: &Stream<Flawed>) -> bool {
    stream.failed && !stream.ended && stream.inner.calls == 1
}

/// No error is an end, and no error causes a second call.
const KINDS: [io::ErrorKind; 6] = [
    io::ErrorKind::Interrupted,
    io::ErrorKind::WouldBlock,
    io::ErrorKind::UnexpectedEof,
    io::ErrorKind::WriteZero,
    io::ErrorKind::BrokenPipe,
    io::ErrorKind::Other,
];

#[test]
fn each_error_of_a_reader_is_none(rt: HostRuntime) -> Result<(), Fail> {
    let mut room = [0u8; 4];
    for kind in KINDS {
        let mut source = failing_once(kind);
        assert!(rt; source.take_in(&mut room) == None);
        assert!(rt; failed_once(&source));
    }
    Ok(())
}

#[test]
fn each_error_of_a_writer_is_none(rt: HostRuntime) -> Result<(), Fail> {
    for kind in KINDS {
        let mut sink = failing_once(kind);
        assert!(rt; sink.put_out(b"ab") == None);
        assert!(rt; failed_once(&sink));
    }
    Ok(())
}

#[test]
fn a_writing_stops_at_each_error(rt: HostRuntime) -> Result<(), Fail> {
    for kind in KINDS {
        let mut sink = failing_once(kind);
        let ended = write_document(&mut sink, "ab");
        let fault = FileFault::Write {
            written: 0,
            cause: WriteCause::Failed,
        };
        assert!(rt; are_equal(ended, Err(fault)));
        assert!(rt; failed_once(&sink));
    }
    Ok(())
}

/// A writer that takes nothing is not called for an empty text.
#[test]
fn nothing_is_asked_for_nothing(rt: HostRuntime) -> Result<(), Fail> {
    let mut sink = failing_once(io::ErrorKind::Other);
    assert!(rt; are_equal(write_document(&mut sink, ""), Ok(())));
    assert!(rt; sink.inner.calls == 0 && !sink.failed && !sink.ended);
    Ok(())
}
