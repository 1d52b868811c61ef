//! A trace, compared with what the board answers.
ghost use Rattle.std.specs.Prelude.{◌≡◌, ◌↔◌, ◌^◌, ◌<◌, true, IfSome, List, MatchOption, MatchResult, OnOk, take, Some, decimal, ◌++◌};
ghost use Rattle.script_lines.specs.declared.script.Line.{Line};
ghost use Rattle.script_lines.specs.Agreeing.{said_of};
ghost use Rattle.printed_lines.specs.Sinks.{Puts};
ghost use Rattle.script_tasks.specs.Check.{AllAgree, Checks, DiffersFirst, EndsCheck, agrees_text, differs_text};
ghost use Rattle.script_tasks.specs.Running.{CountsEnd, EndsFlushed, EndsRead, StopsAtCut, Writes, new_course};
ghost use Rattle.script_tasks.specs.Sources.{ReadsUpTo, read_limit};

use crate::device::Source;
use crate::outcome::Outcome;
use crate::running::{Job, answer_to, run};
use board_core::{Board, Config, Refusal, Reply};
use guest_script::{KeptLine, Lines};
use itoa::Buffer;
use monitor::{Failed, Sink, print_reply, write_all};
use std::alloc::{AllocError, Global};

/// Reads a trace to its end, makes its board, does the trace's steps on it, and writes whether each line has the board's
/// answer: `agrees K` with the number of lines, or `differs at line L: REPLY` with the board's own reply or refusal at the
/// first line that differs. A line `cut` cuts the board's history. Nothing is written before the trace is read and the board
/// made; at most 16,777,217 bytes are read, and after a failed read the writer is as it was. An empty script is a trace without
/// lines; a program or a schedule is of the wrong kind.
pub fn check<R: Source, W: Sink>(alloc: Global, reader: &mut R, writer: &mut W) -> Outcome
    requires reader_counts { R.failures reader.old < 2 ^ 63 }
    requires writer_counts { W.failures writer.old < 2 ^ 63 }
    ensures writes { IfSome (R.left reader.old) (λ bytes.
        Writes (EndsCheck (take read_limit bytes)) result (W.written writer.old) (W.written writer.new)) }
    ensures to_the_end { EndsRead result (R.left reader.new) }
    ensures at_most { ReadsUpTo read_limit (R.left reader.old) (R.left reader.new) }
    ensures untouched { R.failures reader.old < R.failures reader.new → writer.new ≡ writer.old }
    ensures flushed { EndsFlushed result (W.is_flushed writer.new) }
    ensures failed { CountsEnd result (R.failures reader.old) (R.failures reader.new)
        (W.failures writer.old) (W.failures writer.new) }
{
    run(Job::Check, alloc, reader, writer)
}

/// The first line of a trace that differs from the board's answer.
#[derive(Clone, Copy)]
struct Difference {
    /// The line's number.
    number: u64,
    /// What the board answers.
    answer: Result<Reply, Refusal>,
}

/// Checks the lines on a new board.
pub fn check_lines<W: Sink>(
    alloc: Global,
    config: &Config,
    lines: &Lines,
    board: &mut Board,
    writer: &mut W,
) -> Outcome
    requires at_opening { board.old ≡ new_course config.now }
    requires counts { W.failures writer.old < 2 ^ 63 }
    ensures writes { Writes (Checks config.now lines.now) result (W.written writer.old) (W.written writer.new) }
    ensures flushed { EndsFlushed result (W.is_flushed writer.new) }
    ensures failed { CountsEnd result 0 0 (W.failures writer.old) (W.failures writer.new) }
{
    match first_difference(alloc, lines, board) {
        Ok(None) => match print_agrees(lines.len(), writer) {
            Ok(()) => Outcome::Good,
            Err(Failed) => Outcome::Io,
        },
        Ok(Some(difference)) => match print_difference(difference, writer) {
            Ok(()) => Outcome::Differs,
            Err(Failed) => Outcome::Io,
        },
        Err(AllocError) => Outcome::NoMemory,
    }
}

/// Does the lines on the board, up to the first that differs.
///
/// # Errors
///
/// An allocation for a cut failed; all lines before it agree.
fn first_difference(
    alloc: Global,
    lines: &Lines,
    board: &mut Board,
) -> Result<Option<Difference>, AllocError>
    ensures { MatchResult result
        (λ found. MatchOption found (AllAgree board.old lines.now)
        (λ difference. DiffersFirst board.old lines.now difference.number difference.answer))
        (λ _. (before : List Line) × StopsAtCut lines.now before × AllAgree board.old before) }
{
    for line in lines.iter() {
        let answer = answer_to(alloc, &line, board)?;
        if !agrees(&line, &answer) {
            return Ok(Some(Difference {
                number: line.number(),
                answer,
            }));
        }
    }
    Ok(None)
}

/// Whether a line has this answer.
fn agrees(line: &KeptLine, answer: &Result<Reply, Refusal>) -> bool
    ensures { (result ≡ true) ↔ (line.now.said ≡ Some (said_of answer.now)) }
{
    match line.said() {
        Some(said) => said.agrees(answer),
        None => false,
    }
}

/// Writes that a trace agrees, and how many lines it has.
fn print_agrees<W: Sink>(count: usize, writer: &mut W) -> Result<(), Failed>
    requires { W.failures writer.old < 2 ^ 63 }
    ensures text { Puts W.written W.failures writer.old writer.new result (agrees_text count) }
    ensures flushed { OnOk result (W.is_flushed writer.new ≡ true) }
{
    print_numbered(b"agrees ", count as u64, writer)?;
    write_all(writer, b"\n")?;
    writer.flush()
}

/// Writes the first line where a trace differs, and the board's own answer.
fn print_difference<W: Sink>(difference: Difference, writer: &mut W) -> Result<(), Failed>
    requires { W.failures writer.old < 2 ^ 63 }
    ensures text { Puts W.written W.failures writer.old writer.new result
        (differs_text difference.number difference.answer) }
    ensures flushed { OnOk result (W.is_flushed writer.new ≡ true) }
{
    print_numbered(b"differs at line ", difference.number, writer)?;
    write_all(writer, b": ")?;
    print_reply(difference.answer, writer)?;
    write_all(writer, b"\n")?;
    writer.flush()
}

/// Prints a text with a number behind it.
fn print_numbered<W: Sink>(text: &[u8], number: u64, writer: &mut W) -> Result<(), Failed>
    requires { W.failures writer.old < 2 ^ 63 }
    ensures { Puts W.written W.failures writer.old writer.new result (text.now ++ decimal number) }
{
    let mut buffer = Buffer::new();
    write_all(writer, text)?;
    write_all(writer, buffer.format(number).as_bytes())
}
