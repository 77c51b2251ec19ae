//! Converts a formula or a document on standard input to MathML on standard output, or the documents under a path in
//! place.
#![tactic(auto)]

ghost use Rattle.std.specs.Prelude.{◌≡◌, IfErr};
ghost use Rattle.std.specs.IoError.{error_kind};

use latex2mathml::{Disk, LatexError, Stream};
use latex2mathml_program::serve;
use std::io::{ErrorKind, Write};
use std::process::ExitCode;
use std::{env, io};

/// Returns the arguments after the program's name, or an empty list if one of them is not UTF-8. The only `Err` is out of memory.
fn words(rt: &HostRuntime) -> io::Result<Vec<String>>
    ensures { IfErr result (λ fault. error_kind fault ≡ ErrorKind.OutOfMemory) }
{
    let words = env::args(rt);
    match words {
        Ok(words) => Ok(words.skip(1).collect(rt.alloc())?),
        Err(fault) if fault.kind() == ErrorKind::OutOfMemory => Err(fault),
        Err(_) => Ok(Vec::new(rt.alloc())),
    }
}

fn main(rt: HostRuntime) -> ExitCode {
    let Ok(words) = words(&rt) else {
        let _ = eprintln!(rt; "LaTeX2MathML Error: {}", LatexError::OutOfMemory);
        return ExitCode::from(1);
    };
    let mut input = Stream::new(rt.stdin());
    let mut output = Stream::new(rt.stdout());
    let mut errors = Stream::new(rt.stderr());
    let alloc = rt.alloc();
    let status = serve(
        &mut Disk { rt: &rt, alloc },
        alloc,
        words.as_slice(),
        &mut input,
        &mut output,
        &mut errors,
    );
    if status == 0 && output.inner.flush().is_err() {
        return ExitCode::from(1);
    }
    ExitCode::from(status)
}
