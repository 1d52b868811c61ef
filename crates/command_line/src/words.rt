//! What the command line asks for.
ghost use Rattle.std.specs.Prelude.{◌≡◌, IfErr, IfOk, List, Some, false, is_some, map, true};
ghost use Rattle.std.specs.List.{All};
ghost use Rattle.std.specs.Str.{IsUtf8};
ghost use Rattle.std.specs.String.{string_bytes};
ghost use Rattle.clap.specs.Words.{Text, app_of, kind_of, shape_of};
ghost use Rattle.clap.specs.declared.builder.command.Command.TheViews.{out-Command as fields_of};
ghost use Rattle.command_line.specs.CommandLine.{asked, of_a_run, of_one_file, sbiboard, task_words, invocation_of};

use clap::error::ErrorKind;
use clap::{Arg, Command, Error};
use std::alloc::{AllocError, Global};

/// What the program is asked to do.
#[derive(Clone, Copy, PartialEq, Eq)]
pub enum Subcommand<'a> {
    /// Run the program in this file on threads.
    Run {
        /// The program's file.
        file: &'a str,
        /// The file that the record is kept in while it grows, if one is named.
        keep: Option<&'a str>,
    },
    /// Replay the schedule in this file.
    Replay(&'a str),
    /// Check the trace in this file.
    Check(&'a str),
}

const RUN: &str = "run";

const REPLAY: &str = "replay";

const CHECK: &str = "check";

const FILE: &str = "FILE";

const KEEP: &str = "keep";

const VERSION: &str = "0.1.0";

const EXAMPLE: &str = "\
Examples:
  sbiboard run examples/three-harts.program
  sbiboard run --keep kept.trace examples/three-harts.program
  sbiboard replay examples/version.sched
  sbiboard check examples/version.trace

A program is one board line and then what each hart does, from an address on:
  board 1 1 10 0 0x80000000 0x0   # harts, pages, limit, boot hart, address, opaque
  at 0x80000000                   # what a hart does that is entered here
  ecall 0x10 0                    # it asks for the specification's version
A schedule is one board line and then a line for each step:
  0 advance                       # hart 0 enters its start
  0 ecall 0x10 0                  # and asks for the specification's version
A trace says of each step what it gave, as a run and a replay print it:
  0 advance -> entry 0x80000000 0 0x0
docs/FORMATS.md describes scripts and what is printed.

Exit status: 0 good, 1 bad script or board, 2 usage, 3 history full, 4 stuck,
5 a trace differs, 6 no memory or no thread, 7 input or output failed.";

const NUMBERS: &str = "\
Faults of a script, of which the first is said as `line L: fault N` (line 0 is the whole):
  1  a byte that is neither printable ASCII nor a tab
  2  the first line with words isn't a board line, or no line has words
  3  no operation or reply has this name, or its block doesn't allow the operation
  4  not a number, or a number too large for its place
  5  too few or too many words
  6  a line of another kind of script, or an operation before any block
  7  a second block with the same address, or a second block of the clock
  8  more than 16,777,216 bytes

Refusals of a step, printed as `refused N`; a refused step changes nothing, and a run's record
has none:
  1  the power is off
  2  the hart isn't there, or isn't in a state for this operation, or it is another actor's;
     inside a fence call a hart's guest does nothing
  3  nothing to do: no transition is pending, no interrupt wakes the hart, no fence waits to
     be served, or the fence of the call that is polled still waits at a hart
  4  the history is full
  5  the time would pass 2^64-2

Exit status:
  0  all was replayed, whatever was refused but for a full history; all lines agree; a run
     ended with the power off, or quiet: each hart is stopped, or started with nothing to do
  1  a fault of the script, another kind of script, or a bad board: nothing is printed
  2  a fault of usage
  3  a step of a run or a line of a replay was refused since the history was full
  4  a run ended stuck: not quiet, and yet no hart could go on
  5  a line of a trace differs
  6  no memory, or no thread
  7  a file could not be opened, which one whose name isn't UTF-8 never can, or a read or a
     write failed; a run whose record could not be kept has printed all it had to";

/// The task that the words of a command line name, the program's own name first, or what clap says of
/// them: a fault of usage, or the help or the version that was asked for. Words that name a task are refused
/// for want of memory alone.
pub fn command<'a>(alloc: Global, words: &'a [String]) -> Result<Subcommand<'a>, Error>
    ensures task { IfOk result (λ task. asked (map string_bytes words.entry.now) ≡ Some (task_words task)) }
    ensures refused { IfErr result (λ e. is_some (asked (map string_bytes words.entry.now)) ≡ true
        → kind_of e ≡ ErrorKind.OutOfMemory) }
{
    let mut sbiboard = described(alloc)?;
    let matches = sbiboard.try_get_matches_from_mut(words)?;
    if let Some((name, found)) = matches.subcommand()
        && let Some(file) = found.get_str(FILE)
    {
        return Ok(match name {
            RUN => Subcommand::Run {
                file,
                keep: found.get_str(KEEP),
            },
            CHECK => Subcommand::Check(file),
            _ => Subcommand::Replay(file),
        });
    }
    Err(sbiboard.error(
        ErrorKind::MissingSubcommand,
        "a subcommand and its FILE are wanted",
    )?)
}

/// What clap finds in the words of a command line is what is written there: the program's own name, a subcommand's, and
/// FILE.
pub fn asked_as_written()
    ensures { (words : List Text) → All IsUtf8 words → asked words ≡ invocation_of words }
{}

/// The command line, as clap reads it.
fn described<'a>(alloc: Global) -> Result<Command<'a>, AllocError>
    ensures { IfOk result (λ c. app_of c ≡ sbiboard) }
{
    let run = of_run(alloc)?.about(
        "Run a program's blocks on threads, one for each hart and one for the clock, and print the record, the board and how it ended",
    );
    let replay = of_file(
        alloc,
        REPLAY,
        "The file of the schedule, such as examples/version.sched",
    )?
    .about("Replay a schedule on a new board, and print each reply and the board");
    let check = of_file(
        alloc,
        CHECK,
        "The file of the trace, such as examples/version.trace",
    )?
    .about("Check a trace on a new board, and print the first reply that differs");
    Command::new(alloc, "sbiboard")
        .version(VERSION)
        .about(
            "Run programs, replay schedules and check traces on a proved SBI 1.0 firmware of a modelled RV64 board",
        )
        .after_help(EXAMPLE)
        .subcommand_required(true)
        .subcommand(run)?
        .subcommand(replay)?
        .subcommand(check)
}

/// The subcommand of a run.
fn of_run<'a>(alloc: Global) -> Result<Command<'a>, AllocError>
    ensures { IfOk result (λ c. (shape_of c ≡ of_a_run) × ((fields_of c).has_globals ≡ false)) }
{
    let keep = Arg::new(alloc, KEEP).long(KEEP).value_name("FILE2").help(
        "Write the record into FILE2 while it grows: what a killed run leaves there is a trace",
    );
    of_file(
        alloc,
        RUN,
        "The file of the program, such as examples/three-harts.program",
    )?
    .arg(keep)
}

/// A subcommand of one file.
fn of_file<'a>(alloc: Global, name: &'a str, help: &'a str) -> Result<Command<'a>, AllocError>
    ensures { IfOk result (λ c. (shape_of c ≡ of_one_file name.entry.now) × ((fields_of c).has_globals ≡ false)) }
{
    let file = Arg::new(alloc, FILE).required(true).help(help);
    Command::new(alloc, name).after_help(NUMBERS).arg(file)
}
