//! How far a reader is: before the board line, or at a line after it.
ghost use Rattle.std.specs.Prelude.{◌≡◌, ◌+◌, ◌<◌, ◌≤◌, ◌++◌, ◌∷◌, [], List, Ok, IfOk, OnOk, ℕ, length};
ghost use Rattle.std.specs.Str.Lines.{lines};
ghost use Rattle.guest_script.specs.Inside.Drafts.{draft_of};
ghost use Rattle.guest_script.specs.Grammar.{written};
ghost use Rattle.guest_script.specs.Inside.Progress.{script_after, stage_after};
ghost use Rattle.guest_script.specs.Reading.{GivesOrLacks, plainly, script_from, with_config};

use crate::board_line::board_words;
use crate::draft::BodyDraft;
use crate::fault::FaultKind;
use crate::wrong::{Misread, NO_MEMORY, Wrong};
use board_terms::Config;
use line_words::{column, next_line};
use script_lines::{MOST_LINES, Script};
use std::alloc::{AllocError, Global};

/// What the lines of a script so far say.
#[derive(Drop)]
pub enum Stage {
    /// Nothing: there was no line with words.
    Nothing,
    /// The board's line, and lines after it.
    Lines {
        /// The board.
        config: Config,
        /// What the lines after its line say.
        draft: BodyDraft,
    },
    /// There was a fault.
    Faulty(Misread),
}

/// How far a script is read.
#[derive(Drop)]
pub struct Progress {
    /// The next line's number.
    pub next: u64,
    /// What the lines before it say.
    pub stage: Stage,
}

impl Progress {
    /// Reads all lines of the bytes.
    ///
    /// # Errors
    ///
    /// Memory was refused.
    pub fn read_lines(
        &mut self,
        alloc: Global,
        expected: usize,
        bytes: &[u8],
    ) -> Result<(), AllocError>
        requires { self.old.next + length bytes.now < MOST_LINES }
        ensures read { OnOk result
            ((more : List (List ℕ)) → script_after self.old (lines bytes.now ++ more) ≡ script_after self.new more) }
        ensures within { OnOk result (self.new.next ≤ self.old.next + length bytes.now) }
    {
        let mut rest = bytes;
        while !rest.is_empty() {
            rest = self.read_some(alloc, expected, rest)?;
        }
        Ok(())
    }

    /// Reads the line that the bytes begin with, or more lines from it on, and answers the bytes after them. After a fault
    /// nothing more is read.
    fn read_some<'a>(
        &mut self,
        alloc: Global,
        expected: usize,
        bytes: &'a [u8],
    ) -> Result<&'a [u8], AllocError>
        requires some { 0 < length bytes.now }
        requires number { self.old.next + length bytes.now < MOST_LINES }
        ensures read { IfOk result
            (λ rest. (more : List (List ℕ))
            → script_after self.old (lines bytes.now ++ more) ≡ script_after self.new (lines rest.now ++ more)) }
        ensures within { IfOk result (λ rest. self.new.next + length rest.now ≤ self.old.next + length bytes.now) }
        ensures shorter { IfOk result (λ rest. length rest.now < length bytes.now) }
    {
        match &mut self.stage {
            Stage::Nothing => {
                let (text, rest) = next_line(bytes);
                self.stage = first_stage(self.next, text);
                self.next += 1;
                Ok(rest)
            }
            Stage::Lines { config: _, draft } => {
                match draft.read_some(alloc, expected, self.next, bytes) {
                    Ok((next, rest)) => {
                        self.next = next;
                        Ok(rest)
                    }
                    Err(misread) => match misread.wrong.fault() {
                        FaultKind::NoMemory => Err(AllocError),
                        _ => {
                            self.stage = Stage::Faulty(misread);
                            Ok(&bytes[bytes.len()..])
                        }
                    },
                }
            }
            Stage::Faulty(_) => Ok(&bytes[bytes.len()..]),
        }
    }

    /// The script, where no line follows.
    pub fn script(self, alloc: Global) -> Result<Script, Misread>
        ensures { GivesOrLacks written (plainly result) (script_after self []) }
    {
        let Progress { next: _, stage } = self;
        match stage {
            Stage::Nothing => Err(Misread {
                line: 0,
                column: 0,
                wrong: Wrong::NoBoardLine,
            }),
            Stage::Lines { config, draft } => script_with(alloc, config, draft),
            Stage::Faulty(misread) => Err(misread),
        }
    }
}

/// What line `n` says, which is the board's if it has words.
fn first_stage(n: u64, text: &[u8]) -> Stage
    ensures { (others : List (List ℕ)) → script_from n (text.now ∷ others) ≡ stage_after result (n + 1) others }
{
    match board_words(text) {
        Ok(None) => Stage::Nothing,
        Ok(Some(config)) => Stage::Lines {
            config,
            draft: BodyDraft::Nothing,
        },
        Err(unread) => Stage::Faulty(Misread {
            line: n,
            column: column(text, unread.left),
            wrong: unread.wrong,
        }),
    }
}

/// The script of a board and all that its lines say.
fn script_with(alloc: Global, config: Config, draft: BodyDraft) -> Result<Script, Misread>
    ensures { GivesOrLacks written (plainly result) (with_config config (Ok (draft_of draft))) }
{
    match draft.body(alloc) {
        Ok(body) => Ok(Script { config, body }),
        Err(_) => Err(NO_MEMORY),
    }
}
