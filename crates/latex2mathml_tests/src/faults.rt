//! Tests of the texts of faults.

use crate::checks::prints;
use latex2mathml::{FileFault, LatexError, WriteCause};
use std::test::Fail;

/// The texts of the faults, kind by kind.
static FAULTS: [&str; 8] = [
    "The directory could not be listed.",
    "An entry of the directory could not be read.",
    "The directory lies deeper than 64 levels.",
    "The input could not be read.",
    "The input is not UTF-8 text.",
    "Memory could not be found.",
    "The file could not be created anew.",
    "The output stopped after 2 bytes.",
];

/// Returns the fault with this number.
fn fault(number: usize) -> FileFault {
    match number {
        0 => FileFault::List,
        1 => FileFault::Entry,
        2 => FileFault::TooDeep,
        3 => FileFault::Read,
        4 => FileFault::NotText,
        5 => FileFault::Refused(LatexError::OutOfMemory),
        6 => FileFault::Create,
        _ => FileFault::Write {
            written: 2,
            cause: WriteCause::Failed,
        },
    }
}

#[test]
fn faults(rt: HostRuntime) -> Result<(), Fail> {
    for (number, text) in FAULTS.iter().enumerate() {
        assert!(rt; prints(rt.alloc(), fault(number), text)?, "{text}");
    }
    Ok(())
}
