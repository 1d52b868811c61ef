//! What stops a pass over the parts of a program.
ghost use Rattle.std.specs.Prelude.{◌≡◌};
ghost use Rattle.asm_program.specs.declared.stop.Stop.TheVariants.{At, NoMemory};

use asm_expressions::Fault;
use std::alloc::{AllocError, AllocFailed};

/// What stops a pass.
#[derive(Clone, Copy)]
pub(crate) enum Stop {
    /// A fault.
    At(Fault),
    /// Memory was refused.
    NoMemory,
}

impl From<Fault> for Stop {
    ghost from_gives = { λ fault made. made ≡ At fault };

    fn from(fault: Fault) -> Stop {
        Stop::At(fault)
    }
}

impl From<AllocError> for Stop {
    ghost from_gives = { λ _ made. made ≡ NoMemory };

    fn from(_refused: AllocError) -> Stop {
        Stop::NoMemory
    }
}

impl<T: Drop> From<AllocFailed<T>> for Stop {
    ghost from_gives = { λ _ made. made ≡ NoMemory };

    fn from(_refused: AllocFailed<T>) -> Stop {
        Stop::NoMemory
    }
}
