//! What the lines so far say, of a script whose kind they decide.
ghost use Rattle.std.specs.Prelude.{◌≡◌, ◌⊎◌, ◌∷◌, [], ◌++◌, Bool, ℕ, List, true, false, is_some, None, IfOk, OnOk, Err, MatchOption, MatchResult, ◌+◌, ◌<◌, ◌≤◌, length};
ghost use Rattle.std.specs.Str.Lines.{lines};
ghost use Rattle.script_lines.specs.Packing.{DoingFits};
ghost use Rattle.guest_script.specs.declared.wrong.Wrong.TheVariants.{NoMemory, SecondBlock};
ghost use Rattle.guest_script.specs.declared.line_kind.LineKind.TheVariants.{Head, Operation, Step};
ghost use Rattle.guest_script.specs.Inside.Drafts.{draft_of};
ghost use Rattle.guest_script.specs.FirstFault.{byte_test, kind_tests, line_tests, may_follow, no_memory};
ghost use Rattle.guest_script.specs.Grammar.{Blocked, content, content_of, guest_at, has_block, OfClock, opened};
ghost use Rattle.guest_script.specs.Inside.PlainLines.{BeginsLine};
ghost use Rattle.guest_script.specs.Reading.{GivesOrLacks, GivesOrWants, GoesOn, line_from, lines_from, plainly, tested, told};
ghost use Rattle.guest_script.specs.Values.{clock_in, guests_in, next_in, next_of, words_in, with_step};

use crate::blocks::BlocksDraft;
use crate::line_kind::LineKind;
use crate::plain::read_plain_lines;
use crate::step::{one_number, step_line};
use crate::wrong::{Misread, NO_MEMORY, Unread, Wrong};
use line_words::{from_bad_byte, from_next, from_word, is_clean, next_line, next_word};
use script_lines::{Body, Line, Lines, MOST_LINES};
use std::alloc::{AllocError, Global};

/// What the lines so far say.
#[derive(Drop)]
pub enum BodyDraft {
    /// Nothing: there was no line with words.
    Nothing,
    /// Blocks of a program.
    Blocks(BlocksDraft),
    /// Steps of a schedule.
    Steps(Lines),
    /// Steps of a trace.
    Trace(Lines),
}

impl BodyDraft {
    /// Reads line `n`.
    pub fn read_line(&mut self, alloc: Global, n: u64, text: &[u8]) -> Result<(), Misread>
        requires number { n < MOST_LINES }
        ensures { GivesOrLacks (λ _. draft_of self.new) (plainly result) (line_from n (draft_of self.old) text.now) }
    {
        match self.line(alloc, n, text) {
            Ok(()) => Ok(()),
            Err(unread) => Err(Misread::of(n, text, unread)),
        }
    }

    /// Reads line `n`, which the bytes begin with, or more lines from it on: all that stand in the form in which steps are
    /// printed, and one more. It answers the next line's number, and the bytes from it on. About so many bytes are expected
    /// in all.
    pub fn read_some<'a>(
        &mut self,
        alloc: Global,
        expected: usize,
        n: u64,
        bytes: &'a [u8],
    ) -> Result<(u64, &'a [u8]), Misread>
        requires some { 0 < length bytes.now }
        requires number { n + length bytes.now < MOST_LINES }
        ensures read { MatchResult (plainly result)
            (λ found. GoesOn n (draft_of self.old) bytes.now found.0 (draft_of self.new) found.1.now)
            (λ e. (e ≡ no_memory)
            ⊎ ((more : List (List ℕ)) → lines_from n (draft_of self.old) (lines bytes.now ++ more) ≡ Err e)) }
        ensures within { IfOk result (λ found. found.0 + length found.1.now ≤ n + length bytes.now) }
        ensures shorter { IfOk result (λ found. length found.1.now < length bytes.now) }
    {
        let Ok((next, rest)) = self.read_printed(expected, n, bytes) else {
            return Err(NO_MEMORY);
        };
        if rest.is_empty() {
            return Ok((next, rest));
        }
        let (text, after) = next_line(rest);
        self.read_line(alloc, next, text)?;
        Ok((next + 1, after))
    }

    /// Reads the lines of a schedule, of a trace or of a guest's block from number `n` on, as long as they stand in the form in
    /// which steps are printed, and answers the next line's number, and the bytes from it on.
    fn read_printed<'a>(
        &mut self,
        expected: usize,
        n: u64,
        bytes: &'a [u8],
    ) -> Result<(u64, &'a [u8]), AllocError>
        requires number { n + length bytes.now < MOST_LINES }
        ensures read { IfOk result
            (λ found. GoesOn n (draft_of self.old) bytes.now found.0 (draft_of self.new) found.1.now) }
        ensures within { IfOk result (λ found. found.0 + length found.1.now ≤ n + length bytes.now) }
        ensures shorter { IfOk result (λ found. length found.1.now ≤ length bytes.now) }
    {
        match self {
            BodyDraft::Steps(steps) => {
                steps.expect(expected);
                read_plain_lines(steps, n, false, bytes)
            }
            BodyDraft::Trace(steps) => {
                steps.expect(expected);
                read_plain_lines(steps, n, true, bytes)
            }
            BodyDraft::Blocks(blocks) => blocks.read_plain(n, bytes),
            BodyDraft::Nothing => Ok((n, bytes)),
        }
    }

    /// One line more, which has bytes that may stand in a script, or doesn't.
    fn line(&mut self, alloc: Global, n: u64, text: &[u8]) -> Result<(), Unread>
        requires number { n < MOST_LINES }
        ensures { GivesOrWants (λ _. draft_of self.new) (told result)
            (tested (byte_test text.now ∷ line_tests (draft_of self.old) (words_in text.now))
            (next_in n (draft_of self.old) (words_in text.now))) }
    {
        if !is_clean(text) {
            return Err(Unread {
                left: from_bad_byte(text),
                wrong: Wrong::BadByte,
            });
        }
        match next_word(text) {
            None => Ok(()),
            Some((first, rest)) => self.words(alloc, n, first, rest),
        }
    }

    /// Reads the words of line `n`.
    fn words(&mut self, alloc: Global, n: u64, first: &[u8], rest: &[u8]) -> Result<(), Unread>
        requires number { n < MOST_LINES }
        ensures { GivesOrWants (λ _. draft_of self.new) (told result)
            (tested (line_tests (draft_of self.old) (first.now ∷ words_in rest.now))
            (next_in n (draft_of self.old) (first.now ∷ words_in rest.now))) }
    {
        let kind = LineKind::of(first, rest);
        if !self.may_follow(kind) {
            return Err(Unread {
                left: from_word(first, rest),
                wrong: Wrong::OtherKind,
            });
        }
        match kind {
            LineKind::Head => self.head(alloc, first, rest),
            LineKind::Step { in_trace } => {
                let line = step_line(n, in_trace, first, rest)?;
                self.step(alloc, in_trace, &line)?;
                Ok(())
            }
            LineKind::Operation => self.operation(first, rest),
        }
    }

    /// Whether a line of this kind may follow.
    fn may_follow(&self, kind: LineKind) -> bool
        ensures { result ≡ may_follow (draft_of self.now) kind }
    {
        match self {
            BodyDraft::Nothing => !matches!(kind, LineKind::Operation),
            BodyDraft::Blocks(_) => !matches!(kind, LineKind::Step { .. }),
            BodyDraft::Steps(_) => matches!(kind, LineKind::Step { in_trace: false }),
            BodyDraft::Trace(_) => matches!(kind, LineKind::Step { in_trace: true }),
        }
    }

    /// Reads a block's head.
    fn head(&mut self, alloc: Global, first: &[u8], rest: &[u8]) -> Result<(), Unread>
        requires { may_follow (draft_of self.old) Head ≡ true }
        ensures { GivesOrWants (λ _. draft_of self.new) (told result)
            (tested (kind_tests Head (draft_of self.old) first.now (words_in rest.now))
            (next_of Head 0 (draft_of self.old) first.now (words_in rest.now))) }
    {
        if first == b"at".as_slice() {
            let addr = one_number(rest)?;
            match self.open_guest(alloc, addr) {
                Ok(()) => Ok(()),
                Err(wrong) => Err(Unread {
                    left: from_next(rest),
                    wrong,
                }),
            }
        } else if let Some((word, after)) = next_word(rest) {
            Err(Unread {
                left: from_word(word, after),
                wrong: Wrong::WordTooMany,
            })
        } else {
            match self.open_clock(alloc) {
                Ok(()) => Ok(()),
                Err(wrong) => Err(Unread {
                    left: from_word(first, rest),
                    wrong,
                }),
            }
        }
    }

    /// A guest's block begins.
    fn open_guest(&mut self, alloc: Global, addr: u64) -> Result<(), Wrong>
        requires { may_follow (draft_of self.old) Head ≡ true }
        ensures { MatchResult result
            (λ _. (has_block (guests_in (draft_of self.old)) addr ≡ false)
            × (draft_of self.new ≡ Blocked
            (opened (guests_in (draft_of self.old)) (clock_in (draft_of self.old)) (guest_at addr))))
            (λ wrong. (wrong ≡ NoMemory)
            ⊎ ((wrong ≡ SecondBlock) × (has_block (guests_in (draft_of self.old)) addr ≡ true))) }
    {
        match self {
            BodyDraft::Blocks(blocks) => blocks.open_guest(alloc, addr),
            _ => {
                *self = BodyDraft::Blocks(BlocksDraft::of_guest(alloc, addr)?);
                Ok(())
            }
        }
    }

    /// The clock's block begins.
    fn open_clock(&mut self, alloc: Global) -> Result<(), Wrong>
        requires { may_follow (draft_of self.old) Head ≡ true }
        ensures { MatchResult result
            (λ _. (clock_in (draft_of self.old) ≡ None)
            × (draft_of self.new ≡ Blocked (opened (guests_in (draft_of self.old)) None (OfClock []))))
            (λ wrong. (wrong ≡ NoMemory) ⊎ ((wrong ≡ SecondBlock) × (is_some (clock_in (draft_of self.old)) ≡ true))) }
    {
        match self {
            BodyDraft::Blocks(blocks) => blocks.open_clock(alloc),
            _ => {
                *self = BodyDraft::Blocks(BlocksDraft::of_clock(alloc));
                Ok(())
            }
        }
    }

    /// A step more.
    fn step(&mut self, alloc: Global, in_trace: bool, line: &Line) -> Result<(), AllocError>
        requires kind { may_follow (draft_of self.old) (Step in_trace) ≡ true }
        requires number { line.now.number < MOST_LINES }
        requires actor { DoingFits line.now.doing }
        ensures { OnOk result (draft_of self.new ≡ with_step in_trace (draft_of self.old) line.now) }
    {
        match self {
            BodyDraft::Steps(lines) => lines.push(line),
            BodyDraft::Trace(lines) => lines.push(line),
            _ => {
                let mut lines = Lines::new(alloc);
                lines.push(line)?;
                *self = if in_trace {
                    BodyDraft::Trace(lines)
                } else {
                    BodyDraft::Steps(lines)
                };
                Ok(())
            }
        }
    }

    /// Reads an operation of the open block.
    fn operation(&mut self, first: &[u8], rest: &[u8]) -> Result<(), Unread>
        requires { may_follow (draft_of self.old) Operation ≡ true }
        ensures { GivesOrWants (λ _. draft_of self.new) (told result)
            (tested (kind_tests Operation (draft_of self.old) first.now (words_in rest.now))
            (next_of Operation 0 (draft_of self.old) first.now (words_in rest.now))) }
    {
        match self {
            BodyDraft::Blocks(blocks) => blocks.line(first, rest),
            _ => Err(Unread {
                left: from_word(first, rest),
                wrong: Wrong::OtherKind,
            }),
        }
    }

    /// All that the lines say.
    ///
    /// # Errors
    ///
    /// Memory was refused.
    pub fn body(self, alloc: Global) -> Result<Body, AllocError>
        ensures { IfOk result (λ body. content body ≡ content_of (draft_of self)) }
    {
        match self {
            BodyDraft::Nothing => Ok(Body::Empty),
            BodyDraft::Blocks(blocks) => blocks.body(alloc),
            BodyDraft::Steps(lines) => Ok(Body::Schedule(lines)),
            BodyDraft::Trace(lines) => Ok(Body::Trace(lines)),
        }
    }
}
