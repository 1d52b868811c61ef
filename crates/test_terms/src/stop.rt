//! Why a test ends early.
use guest_programs::RunFault;
use std::alloc::{AllocError, AllocFailed};
use std::io;
use test_report::Unwritten;

/// Why the files were not all tested.
#[derive(Drop)]
pub enum Stop {
    /// Memory was refused.
    NoMemory,
    /// A board is outside of its limits.
    BadBoard,
    /// A call of the system failed.
    System(io::Error),
    /// A file could not be written.
    Unwritten(Unwritten),
}

impl From<AllocError> for Stop {
    fn from(_: AllocError) -> Stop {
        Stop::NoMemory
    }
}

impl<T: Drop> From<AllocFailed<T>> for Stop {
    fn from(_: AllocFailed<T>) -> Stop {
        Stop::NoMemory
    }
}

impl From<RunFault> for Stop {
    fn from(fault: RunFault) -> Stop {
        match fault {
            RunFault::BadConfig => Stop::BadBoard,
            RunFault::NoMemory | RunFault::NoThread => Stop::NoMemory,
        }
    }
}

impl From<io::Error> for Stop {
    fn from(error: io::Error) -> Stop {
        if error.kind() == io::ErrorKind::OutOfMemory {
            return Stop::NoMemory;
        }
        Stop::System(error)
    }
}
