//! Ends of runs, and why there was no run.
ghost use Rattle.std.specs.Prelude.{◌≡◌};
ghost use Rattle.guest_programs.specs.Faults.{run_fault_number};
ghost use Rattle.guest_programs.specs.declared.ends.RunFault.TheVariants.{NoMemory};

use board_core::Board;
use std::alloc::AllocError;
use thiserror::Error;

/// How a run ended: the first of these that applies (profile).
#[derive(Clone, Copy, Debug, PartialEq, Eq, Hash)]
pub enum End {
    /// A gate ended the work of an actor.
    GateLimit,
    /// The power is off.
    Off,
    /// An operation was refused because the history was full.
    HistoryFull,
    /// Each hart is STOPPED, or STARTED with its block done and in no fence call.
    Quiet,
    /// Some hart isn't quiet, and no actor can continue.
    Stuck,
}

/// A run that ended.
#[derive(Drop)]
pub struct RunEnd {
    /// How it ended.
    pub end: End,
    /// The board, whose history is the record of the run.
    pub board: Board,
}

/// Why there was no run (profile).
#[derive(Clone, Copy, Debug, PartialEq, Eq, Error)]
pub enum RunFault {
    /// A number of the board line is outside the limits.
    #[error("bad board")]
    BadConfig,
    /// Out of memory.
    #[error("no memory")]
    NoMemory,
    /// A thread couldn't be started. Those that ran have ended.
    #[error("no thread")]
    NoThread,
}

impl RunFault {
    /// The fault's number (profile).
    pub fn number(self) -> u64
        ensures { result ≡ run_fault_number self }
    {
        match self {
            RunFault::BadConfig => 1,
            RunFault::NoMemory => 2,
            RunFault::NoThread => 3,
        }
    }
}

impl From<AllocError> for RunFault {
    ghost from_gives = { λ _ run. run ≡ NoMemory };

    fn from(_: AllocError) -> RunFault {
        RunFault::NoMemory
    }
}
