//! Why the reading of units ends.
ghost use Rattle.std.specs.Prelude.{◌≡◌};
ghost use Rattle.latex2mathml_tex_units.specs.declared.macros.halt.Halt.TheVariants.{OutOfMemory};

use crate::unit::Fault;
use std::alloc::{AllocError, AllocFailed};

/// Why an argument or a definition is not read.
#[derive(Drop, Clone, Copy)]
pub(crate) enum Halt {
    /// It is refused, at this byte.
    Refused(Fault, usize),
    /// Out of memory.
    OutOfMemory,
}

impl From<AllocError> for Halt {
    ghost from_gives = { λ _ halt. halt ≡ OutOfMemory };

    fn from(_refused: AllocError) -> Halt {
        Halt::OutOfMemory
    }
}

impl<T: Drop> From<AllocFailed<T>> for Halt {
    ghost from_gives = { λ _ halt. halt ≡ OutOfMemory };

    fn from(_refused: AllocFailed<T>) -> Halt {
        Halt::OutOfMemory
    }
}
