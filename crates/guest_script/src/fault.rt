//! Why a text is no script, and where.
ghost use Rattle.std.specs.Prelude.{◌≡◌};
ghost use Rattle.guest_script.specs.FirstFault.{fault_number};

use thiserror::Error;

/// What is wrong with a line, or with the whole script (profile).
#[derive(Clone, Copy, Debug, PartialEq, Eq, Error)]
pub enum FaultKind {
    /// A byte that is neither printable ASCII nor a tab.
    #[error("a byte that is neither printable ASCII nor a tab")]
    BadByte,
    /// The first line with words isn't a board line, or no line has words.
    #[error("the first line with words isn't a board line, or no line has words")]
    NoBoardLine,
    /// No operation or reply has this name, or its block doesn't allow the operation.
    #[error("no operation or reply has this name, or its block doesn't allow the operation")]
    UnknownWord,
    /// A word that should be a number and isn't, or a number too large for its place.
    #[error("not a number, or a number too large for its place")]
    BadNumber,
    /// Too few or too many words.
    #[error("too few or too many words")]
    WordCount,
    /// A line of another kind of script, or an operation before any block.
    #[error("a line of another kind of script, or an operation before any block")]
    OtherKind,
    /// A second block with the same address, or a second block of the clock.
    #[error("a second block with the same address, or a second block of the clock")]
    SecondBlock,
    /// More than 16,777,216 bytes.
    #[error("more than 16,777,216 bytes")]
    TooLong,
    /// Memory was refused.
    #[error("no memory")]
    NoMemory,
}

impl FaultKind {
    /// The fault's number (profile).
    pub fn number(self) -> u64
        ensures { result ≡ fault_number self }
    {
        match self {
            FaultKind::BadByte => 1,
            FaultKind::NoBoardLine => 2,
            FaultKind::UnknownWord => 3,
            FaultKind::BadNumber => 4,
            FaultKind::WordCount => 5,
            FaultKind::OtherKind => 6,
            FaultKind::SecondBlock => 7,
            FaultKind::TooLong => 8,
            FaultKind::NoMemory => 9,
        }
    }
}

/// A fault and its line. Lines count from 1; 0 is the script as a whole.
#[derive(Clone, Copy, Debug, PartialEq, Eq, Error)]
#[error("line {line}: {fault}")]
pub struct ScriptFault {
    /// The line.
    pub line: u64,
    /// What is wrong.
    pub fault: FaultKind,
}

impl ScriptFault {
    /// The number of what is wrong (profile).
    pub fn number(self) -> u64
        ensures { result ≡ fault_number self.fault }
    {
        self.fault.number()
    }
}
