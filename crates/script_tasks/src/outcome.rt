//! The outcome of a task, and its number.
ghost use Rattle.std.specs.Prelude.{◌≡◌};
ghost use Rattle.std.specs.IoError.{error_kind};
ghost use Rattle.script_tasks.specs.Outcomes.{FailsAs, is_reported, status_of};

use std::io::{self, ErrorKind};
use thiserror::Error;

/// How a run of the program's library ended. Its text is what the program says of it on standard error.
#[derive(Clone, Copy, Debug, PartialEq, Eq, Error)]
pub enum Outcome {
    /// All was done.
    #[error("good")]
    Good,
    /// The bytes are no script.
    #[error("line {line}: fault {number}")]
    Script {
        /// The line of the first fault, from 1; 0 is the script as a whole.
        line: u64,
        /// The fault's number.
        number: u64,
    },
    /// The board line is outside the board's limits.
    #[error("bad board")]
    BadBoard,
    /// The script is of another kind.
    #[error("wrong kind of script")]
    WrongKind,
    /// A step was refused since the history was full.
    #[error("history full")]
    HistoryFull,
    /// A run ended with a hart that is neither STOPPED nor through with its block.
    #[error("stuck")]
    Stuck,
    /// A trace differs from what the board answers.
    #[error("differs")]
    Differs,
    /// Memory was refused, or a thread.
    #[error("no memory")]
    NoMemory,
    /// A read or a write failed.
    #[error("input or output failed")]
    Io,
}

impl Outcome {
    /// The program's exit status (profile).
    pub fn status(self) -> u8
        ensures { result ≡ status_of self }
    {
        match self {
            Outcome::Good => 0,
            Outcome::Script { .. } | Outcome::BadBoard | Outcome::WrongKind => 1,
            Outcome::HistoryFull => 3,
            Outcome::Stuck => 4,
            Outcome::Differs => 5,
            Outcome::NoMemory => 6,
            Outcome::Io => 7,
        }
    }

    /// Whether a line on standard error says how the run ended (profile).
    pub fn is_reported(self) -> bool
        ensures { result ≡ is_reported self }
    {
        !matches!(self, Outcome::Good | Outcome::Differs)
    }
}

/// How a run ends where a call of the system failed.
impl From<io::Error> for Outcome {
    ghost from_gives = { λ error outcome. FailsAs (error_kind error) outcome };

    fn from(error: io::Error) -> Outcome {
        match error.kind() {
            ErrorKind::OutOfMemory => Outcome::NoMemory,
            _ => Outcome::Io,
        }
    }
}
