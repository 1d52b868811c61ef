//! A script that comes in pieces.
ghost use Rattle.std.specs.Prelude.{◌≡◌, ◌+◌, ◌≤◌, ◌++◌, [], ℕ, List, IfOk, length};
ghost use Rattle.guest_script.specs.Grammar.{most_bytes};
ghost use Rattle.guest_script.specs.Pieces.{AreWhole, HasRead, IsAnswered, Part};
ghost use Rattle.guest_script.specs.Reading.{plainly};
ghost use Rattle.guest_script.specs.Inside.Progress.{grown, part_of};

use crate::fault::ScriptFault;
use crate::progress::{Progress, Stage};
use crate::wrong::{Misread, NO_MEMORY, Wrong};
use script_lines::Script;
use std::alloc::{AllocError, Global};
use std::marker::Model;

/// How many bytes a script may have.
const MOST_BYTES: usize = 16_777_216;

/// A script that is read in pieces, so that its bytes need not be in memory at one time.
#[derive(Drop)]
pub struct Reader {
    size: usize,
    expected: usize,
    progress: Progress,
}

impl Model for Reader {
    ghost Value = { Part };

    ghost view = { λ r. part_of r.size r.progress };

    ghost invariant = { λ r. (r.size ≤ most_bytes + 1) × (r.progress.next ≤ r.size + 1) };
}

impl Reader {
    /// A reader that has read nothing. About this many bytes will come, or 0 if unknown: only a hint for how much memory to
    /// reserve at once.
    pub fn expecting(bytes: usize) -> Reader
        ensures { HasRead result [] }
    {
        Reader {
            size: 0,
            expected: bytes.min(MOST_BYTES),
            progress: Progress {
                next: 1,
                stage: Stage::Nothing,
            },
        }
    }

    /// Reads the next lines, each with its line feed, and returns the reader of all lines so far. A fault is reported at the
    /// end.
    ///
    /// # Errors
    ///
    /// Memory was refused. The reading ends there: no reader is left that more could be given to.
    pub fn read(self, alloc: Global, lines: &[u8]) -> Result<Reader, AllocError>
        requires { AreWhole lines.now }
        ensures { (before : List ℕ) → HasRead self before
            → IfOk result (λ reader. HasRead reader (before ++ lines.now)) }
    {
        let Reader {
            size,
            expected,
            mut progress,
        } = self;
        let size = grown(size, lines.len());
        if size > MOST_BYTES {
            return Ok(Reader {
                size,
                expected,
                progress,
            });
        }
        progress.read_lines(alloc, expected, lines)?;
        Ok(Reader {
            size,
            expected,
            progress,
        })
    }

    /// Reads the last bytes, and answers the script that all bytes are, or their first fault.
    pub fn end(self, alloc: Global, rest: &[u8]) -> Result<Script, ScriptFault>
        ensures { (before : List ℕ) → HasRead self before → IsAnswered (before ++ rest.now) result }
    {
        match self.locate(alloc, rest) {
            Ok(script) => Ok(script),
            Err(misread) => Err(misread.fault()),
        }
    }

    /// Reads the last bytes, and answers the script that all bytes are, or their first fault with its place.
    pub fn locate(self, alloc: Global, rest: &[u8]) -> Result<Script, Misread>
        ensures { (before : List ℕ) → HasRead self before → IsAnswered (before ++ rest.now) (plainly result) }
    {
        let Reader {
            size,
            expected,
            mut progress,
        } = self;
        if grown(size, rest.len()) > MOST_BYTES {
            return Err(Misread {
                line: 0,
                column: 0,
                wrong: Wrong::TooLong,
            });
        }
        match progress.read_lines(alloc, expected, rest) {
            Ok(()) => progress.script(alloc),
            Err(_) => Err(NO_MEMORY),
        }
    }
}

/// The size with this many more bytes, at most one byte more than a script may have.
fn grown(size: usize, more: usize) -> usize
    ensures { result ≡ grown size more }
{
    size.saturating_add(more).min(MOST_BYTES + 1)
}
