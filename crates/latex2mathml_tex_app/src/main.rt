//! Converts a LaTeX formula on standard input to MathML on standard output.
#![tactic(auto)]

use latex2mathml::{Disk, Stream};
use latex2mathml_tex_program::{requested, serve, status_of_error};
use std::io::{ErrorKind, Write};
use std::process::ExitCode;
use std::{env, io};

/// Returns the arguments, the program's name first.
///
/// # Errors
///
/// If memory runs out, or if one of them is not UTF-8.
fn words(rt: &HostRuntime) -> io::Result<Vec<String>> {
    Ok(env::args(rt)?.collect(rt.alloc())?)
}

fn main(rt: HostRuntime) -> ExitCode {
    let words = match words(&rt) {
        Ok(words) => words,
        Err(fault) if fault.kind() == ErrorKind::OutOfMemory => {
            let _ = eprintln!(rt; "tex2mathml: out of memory");
            return ExitCode::from(1);
        }
        Err(_) => {
            let _ = eprintln!(rt; "tex2mathml: an argument is not UTF-8");
            return ExitCode::from(2);
        }
    };
    let alloc = rt.alloc();
    let request = match requested(alloc, words.as_slice()) {
        Ok(request) => request,
        Err(error) => {
            let _ = error.print(&rt);
            return ExitCode::from(status_of_error(&error));
        }
    };
    let mut input = Stream::new(rt.stdin());
    let mut output = Stream::new(rt.stdout());
    let mut errors = Stream::new(rt.stderr());
    let status = serve(
        alloc,
        &Disk { rt: &rt, alloc },
        request,
        &mut input,
        &mut output,
        &mut errors,
    );
    if status == 0 && output.inner.flush().is_err() {
        return ExitCode::from(1);
    }
    ExitCode::from(status)
}
