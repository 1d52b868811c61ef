//! What is wrong with a condition's text, and where.
ghost use Rattle.std.specs.Prelude.{◌≡◌};
ghost use Rattle.condition_script.specs.declared.faults.Wrong.TheVariants.{NoMemory as Lacks};

use std::alloc::{AllocError, AllocFailed};
use thiserror::Error;

/// What is wrong with a condition (profile).
#[derive(Clone, Copy, Debug, PartialEq, Eq, Error)]
pub enum Wrong {
    /// No condition begins with this word.
    #[error("unknown condition")]
    UnknownCondition,
    /// No operation, reply or end has this name.
    #[error("unknown word")]
    UnknownWord,
    /// A word that should be a number, `_` or a dash, but isn't, or a number too large for its place.
    #[error("not a number")]
    BadNumber,
    /// Too few or too many words.
    #[error("too few or too many words")]
    WordCount,
    /// `before` has no comma behind its first pattern.
    #[error("no comma")]
    NoComma,
    /// A star, where `_` stands for any word.
    #[error("any word is '_'")]
    Star,
    /// Conditions are about accepted steps, and no accepted step is refused.
    #[error("no accepted step is refused")]
    Refused,
    /// A `#!` behind other words of its line.
    #[error("a condition stands alone on its line")]
    NotAlone,
    /// Memory was refused.
    #[error("no memory")]
    NoMemory,
}

/// A condition that can't be read.
#[derive(Clone, Copy, PartialEq, Eq)]
pub struct Fault {
    /// The line's number, from 1.
    pub line: u64,
    /// The column of the word, from 1; behind the last one where a word is missing.
    pub column: u64,
    /// What is wrong.
    pub wrong: Wrong,
}

/// What is wrong with a line, and in which column.
#[derive(Clone, Copy)]
pub(crate) struct Unread {
    pub(crate) column: u64,
    pub(crate) wrong: Wrong,
}

impl From<AllocError> for Wrong {
    ghost from_gives = { λ _ wrong. wrong ≡ Lacks };

    fn from(_: AllocError) -> Wrong {
        Wrong::NoMemory
    }
}

impl<T: Drop> From<AllocFailed<T>> for Wrong {
    ghost from_gives = { λ _ wrong. wrong ≡ Lacks };

    fn from(_: AllocFailed<T>) -> Wrong {
        Wrong::NoMemory
    }
}

impl From<AllocError> for Unread {
    ghost from_gives = { λ _ unread. unread.wrong ≡ Lacks };

    fn from(_: AllocError) -> Unread {
        Unread {
            column: 0,
            wrong: Wrong::NoMemory,
        }
    }
}

impl<T: Drop> From<AllocFailed<T>> for Unread {
    ghost from_gives = { λ _ unread. unread.wrong ≡ Lacks };

    fn from(_: AllocFailed<T>) -> Unread {
        Unread {
            column: 0,
            wrong: Wrong::NoMemory,
        }
    }
}
