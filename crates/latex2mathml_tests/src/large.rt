//! Tests of each call that reads or writes, and of the text of a fault, at small and at large sizes. Each call succeeds if
//! there is memory.

use crate::checks::are_equal;
use crate::streams::stream;
use latex2mathml::{FileFault, LatexError, Sink, Source, write_document};
use std::alloc::{AllocError, Global};
use std::fmt::Display;
use std::io;
use std::io::{Read, Write};
use std::test::Fail;

/// Returns the given number of copies of the character.
fn repeat(alloc: Global, c: char, count: usize) -> Result<String, AllocError> {
    let mut text = String::new(alloc);
    for _ in 0..count {
        text.push(c)?;
    }
    Ok(text)
}

/// Whether a text consists of these parts, with `part` repeated `count` times.
fn is_repeated(text: &str, before: &str, part: &str, count: usize, after: &str) -> bool {
    let Some(mut rest) = text.strip_prefix(before) else {
        return false;
    };
    for _ in 0..count {
        match rest.strip_prefix(part) {
            Some(behind) => rest = behind,
            None => return false,
        }
    }
    rest == after
}

/// Whether the value prints as these texts, with `part` repeated `count` times between them.
fn prints_repeated<T: Display + Drop>(
    alloc: Global,
    value: T,
    before: &str,
    part: &str,
    count: usize,
    after: &str,
) -> Result<bool, AllocError> {
    let printed = value.to_string(alloc)?;
    Ok(is_repeated(printed.as_str(), before, part, count, after))
}

/// Sizes around a page of memory, and beyond what a buffer or a limit would hold.
const SIZES: [usize; 4] = [1, 4096, 4097, 8 << 20];

/// Whether a fault whose refusal has a text of this length prints.
fn fault_is_told(alloc: Global, size: usize) -> Result<bool, AllocError> {
    let refusal = LatexError::UnknownEnvironment(repeat(alloc, 'z', size)?);
    let before = "An unknown environment \"";
    let after = "\" is found";
    prints_repeated(alloc, FileFault::Refused(refusal), before, "z", size, after)
}

#[test]
fn faults(rt: HostRuntime) -> Result<(), Fail> {
    for size in SIZES {
        assert!(rt; fault_is_told(rt.alloc(), size)?, "{size}");
    }
    Ok(())
}

/// A reader and a writer. It gives as many bytes as there is room for, takes all bytes, and counts them and the calls.
#[derive(Drop)]
struct Pipe {
    taken: u64,
    calls: u64,
}

impl Pipe {
    fn new() -> Pipe {
        Pipe { taken: 0, calls: 0 }
    }
}

impl Read for Pipe {
    fn read(&mut self, room: &mut [u8]) -> io::Result<usize> {
        room.fill(b'x');
        Ok(room.len())
    }
}

impl Write for Pipe {
    fn write(&mut self, bytes: &[u8]) -> io::Result<usize> {
        self.taken = self.taken.saturating_add(bytes.len() as u64);
        self.calls = self.calls.saturating_add(1);
        Ok(bytes.len())
    }

    fn flush(&mut self) -> io::Result<()> {
        Ok(())
    }
}

fn bytes_are_moved(alloc: Global, size: usize) -> Result<bool, AllocError> {
    let mut room = vec![in alloc; 0u8; size]?;
    let mut source = stream(Pipe::new());
    let given = source.take_in(room.as_mut_slice());
    let mut sink = stream(Pipe::new());
    let taken = sink.put_out(room.as_slice());
    Ok(given == Some(size) && taken == Some(size) && sink.inner.taken == size as u64)
}

fn text_is_written(alloc: Global, size: usize) -> Result<bool, AllocError> {
    let text = repeat(alloc, 'x', size)?;
    let mut sink = stream(Pipe::new());
    let ended = write_document(&mut sink, text.as_str());
    let is_done = are_equal(ended, Ok(()));
    Ok(is_done && sink.inner.taken == size as u64 && sink.inner.calls == 1)
}

#[test]
fn streams(rt: HostRuntime) -> Result<(), Fail> {
    for size in SIZES {
        assert!(rt; bytes_are_moved(rt.alloc(), size)?, "{size}");
        assert!(rt; text_is_written(rt.alloc(), size)?, "{size}");
    }
    Ok(())
}
