//! A program, run on threads, and its record printed.
ghost use Rattle.std.specs.Prelude.{◌≡◌, ◌^◌, ◌<◌, true, ℕ, IfOk, IfSome, List, OnErr, OnOk, is_some, reverse, take};
ghost use Rattle.std.specs.List.{AllByRecursion};
ghost use Rattle.board_terms.specs.Limits.{IsGood};
ghost use Rattle.guest_script.specs.Grammar.{Reads, content, written};
ghost use Rattle.printed_lines.specs.Sinks.{Puts};
ghost use Rattle.sbiboard.specs.Inside.Fitting.{EventFits};
ghost use Rattle.sbiboard.specs.Keeping.{reported_as};
ghost use Rattle.script_tasks.specs.Running.{CountsEnd, EndsFlushed, EndsRead, Writes};
ghost use Rattle.script_tasks.specs.Sources.{ReadsUpTo, read_limit};
ghost use Rattle.sbiboard.specs.Threaded.{EndsRun, end_line, end_name, events_text, open_lets, outcome_of, programmed, run_text};

use crate::keeping::{KeepFault, Keeper};
use board_core::Event;
use guest_script::{Body, Script};
use hart_threads::{End, Gate, Open, RunEnd, RunFault, run};
use monitor::{Failed, Page, Sink, print, print_head, write_all};
use script_tasks::{Device, NoOutcome, Outcome, Source, answer_fits, op_fits, read_script, unread};
use std::fs;
use std::rt::Files;
use std::sync::Wait;
use std::thread::Threads;

/// How a run ended, and whether all of its record was kept.
#[derive(Clone, Copy, Debug, PartialEq, Eq)]
pub struct KeptRun {
    /// How it ended.
    pub outcome: Outcome,
    /// Whether all of its record was kept.
    pub kept: Result<(), KeepFault>,
}

impl KeptRun {
    /// The outcome that is reported: a record that was kept in part comes before how the run ended.
    pub fn reported(self) -> Outcome
        ensures { result ≡ reported_as self.outcome self.kept }
    {
        match self.kept {
            Ok(()) => self.outcome,
            Err(KeepFault::Failed) => Outcome::Io,
            Err(KeepFault::NoMemory) => Outcome::NoMemory,
        }
    }
}

/// Reads a program to its end, runs it on threads, one for each hart and one for the clock, and writes the board line, the
/// events of the record, the board's table and how it ended. If this has at most 16,777,216 bytes, it is a trace with which
/// `check` agrees. Nothing is written before the threads have ended; at most 16,777,217 bytes are read, and after a failed read
/// the writer is as it was. An empty script is a program without blocks; a schedule or a trace is of the wrong kind. Each
/// thread asks the gate before each of its operations.
pub fn run_script<S: Source, W: Sink, G: Gate + Sync, R: AllocGlobal + Threads + Wait + Sync>(
    rt: &R,
    reader: &mut S,
    writer: &mut W,
    gate: &G,
) -> Outcome
    requires reader_counts { S.failures reader.old < 2 ^ 63 }
    requires writer_counts { W.failures writer.old < 2 ^ 63 }
    ensures writes { IfSome (S.left reader.old) (λ bytes.
        Writes (EndsRun (G.lets gate.now) (take read_limit bytes)) result (W.written writer.old)
        (W.written writer.new)) }
    ensures to_the_end { EndsRead result (S.left reader.new) }
    ensures at_most { ReadsUpTo read_limit (S.left reader.old) (S.left reader.new) }
    ensures untouched { S.failures reader.old < S.failures reader.new → writer.new ≡ writer.old }
    ensures flushed { EndsFlushed result (W.is_flushed writer.new) }
    ensures failed { CountsEnd result (S.failures reader.old) (S.failures reader.new)
        (W.failures writer.old) (W.failures writer.new) }
{
    match read_script(rt.alloc(), reader) {
        Ok(script) => run_read(rt, &script, writer, gate),
        Err(fault) => unread(fault),
    }
}

/// Like `run_script` with a gate that is always open, but the record is also written into a file of this name while it grows:
/// the board line, and a line for each event, whole lines in the order of their places. The file is created or emptied once the
/// program is read and its board's numbers are good. If the file can't be written any more, the run goes on to its end without
/// it.
///
/// # Errors
///
/// The file can't be made, and nothing was run or written.
pub fn run_and_keep<S: Source, W: Sink, R: AllocGlobal + Files + Threads + Wait + Sync>(
    rt: &R,
    reader: &mut S,
    writer: &mut W,
    path: &str,
) -> Result<KeptRun, NoOutcome>
where
    R::File: Send,
    requires reader_counts { S.failures reader.old < 2 ^ 63 }
    requires writer_counts { W.failures writer.old < 2 ^ 63 }
    ensures writes { IfOk result (λ run. IfSome (S.left reader.old) (λ bytes.
        Writes (EndsRun open_lets (take read_limit bytes)) run.outcome (W.written writer.old) (W.written writer.new))) }
    ensures to_the_end { IfOk result (λ run. EndsRead run.outcome (S.left reader.new)) }
    ensures at_most { ReadsUpTo read_limit (S.left reader.old) (S.left reader.new) }
    ensures untouched { S.failures reader.old < S.failures reader.new → writer.new ≡ writer.old }
    ensures flushed { IfOk result (λ run. EndsFlushed run.outcome (W.is_flushed writer.new)) }
    ensures failed { IfOk result (λ run. CountsEnd run.outcome (S.failures reader.old) (S.failures reader.new)
        (W.failures writer.old) (W.failures writer.new)) }
    ensures unmade { OnErr result (writer.new ≡ writer.old) }
{
    match read_script(rt.alloc(), reader) {
        Ok(script) => keep_read(rt, &script, writer, path),
        Err(fault) => Ok(unkept(unread(fault))),
    }
}

/// Runs a script, if it is a program, and keeps its record, if its board's numbers are good.
///
/// # Errors
///
/// The file can't be made, and nothing was run or written.
fn keep_read<W: Sink, R: AllocGlobal + Files + Threads + Wait + Sync>(
    rt: &R,
    script: &Script,
    writer: &mut W,
    path: &str,
) -> Result<KeptRun, NoOutcome>
where
    R::File: Send,
    requires { W.failures writer.old < 2 ^ 63 }
    ensures writes { IfOk result (λ run. (bytes : List ℕ) → Reads bytes (written script.now)
        → Writes (EndsRun open_lets bytes) run.outcome (W.written writer.old) (W.written writer.new)) }
    ensures flushed { IfOk result (λ run. EndsFlushed run.outcome (W.is_flushed writer.new)) }
    ensures failed { IfOk result (λ run. CountsEnd run.outcome 0 0 (W.failures writer.old) (W.failures writer.new)) }
    ensures unmade { OnErr result (writer.new ≡ writer.old) }
{
    if !is_program(&script.body) || !script.config.is_good() {
        return Ok(unkept(run_read(rt, script, writer, &Open)));
    }
    let file = Device::new(fs::create(rt, path)?);
    let keeper = Keeper::new(rt, rt.alloc(), &script.config, file);
    let outcome = run_read(rt, script, writer, &keeper);
    Ok(KeptRun {
        outcome,
        kept: keeper.met(),
    })
}

/// A run without a kept record.
fn unkept(outcome: Outcome) -> KeptRun
    ensures { result.outcome ≡ outcome }
{
    KeptRun {
        outcome,
        kept: Ok(()),
    }
}

/// Runs a script, if it is a program.
fn run_read<W: Sink, G: Gate + Sync, R: AllocGlobal + Threads + Wait + Sync>(
    rt: &R,
    script: &Script,
    writer: &mut W,
    gate: &G,
) -> Outcome
    requires { W.failures writer.old < 2 ^ 63 }
    ensures writes { (bytes : List ℕ) → Reads bytes (written script.now)
        → Writes (EndsRun (G.lets gate.now) bytes) result (W.written writer.old) (W.written writer.new) }
    ensures flushed { EndsFlushed result (W.is_flushed writer.new) }
    ensures failed { CountsEnd result 0 0 (W.failures writer.old) (W.failures writer.new) }
{
    if !is_program(&script.body) {
        return Outcome::WrongKind;
    }
    match run(rt, script, gate) {
        Ok(run) => match print_run(&run, writer) {
            Ok(()) => outcome_of(run.end),
            Err(Failed) => Outcome::Io,
        },
        Err(RunFault::BadConfig) => Outcome::BadBoard,
        Err(RunFault::NoMemory | RunFault::NoThread) => Outcome::NoMemory,
    }
}

/// Whether a script is a program. An empty script is of each kind.
fn is_program(body: &Body) -> bool
    ensures { result ≡ is_some (programmed (content body.now)) }
{
    match body {
        Body::Empty | Body::Program { .. } => true,
        Body::Schedule(_) | Body::Trace(_) => false,
    }
}

/// The outcome with an end (profile).
fn outcome_of(end: End) -> Outcome
    ensures { result ≡ outcome_of end }
{
    match end {
        End::Off | End::Quiet => Outcome::Good,
        End::HistoryFull => Outcome::HistoryFull,
        End::GateLimit | End::Stuck => Outcome::Stuck,
    }
}

/// Writes all that a run prints.
fn print_run<W: Sink>(run: &RunEnd, writer: &mut W) -> Result<(), Failed>
    requires { W.failures writer.old < 2 ^ 63 }
    ensures text { Puts W.written W.failures writer.old writer.new result
        (run_text run.now.board.opening run.now.board.past run.now.end) }
    ensures flushed { OnOk result (W.is_flushed writer.new ≡ true) }
    ensures good { IsGood run.now.board.opening.config }
    ensures fits { OnOk result (AllByRecursion EventFits (reverse run.now.board.past)) }
{
    print_head(run.board.config(), writer)?;
    print_events(run.board.history(), writer)?;
    print(&run.board, writer)?;
    print_end(run.end, writer)?;
    writer.flush()
}

/// Writes each event with its reply.
fn print_events<W: Sink>(events: &[Event], writer: &mut W) -> Result<(), Failed>
    requires { W.failures writer.old < 2 ^ 63 }
    ensures text { Puts W.written W.failures writer.old writer.new result (events_text events.now) }
    ensures fits { OnOk result (AllByRecursion EventFits events.now) }
{
    let mut page = Page::new();
    for event in events {
        let actor = event.actor();
        let op = event.op();
        let answer = Ok(event.reply());
        op_fits(op);
        answer_fits(answer);
        page.print_step(actor, &op, answer, writer)?;
    }
    page.put(writer)
}

/// Writes how a run ended, as a comment of a trace.
fn print_end<W: Sink>(end: End, writer: &mut W) -> Result<(), Failed>
    requires { W.failures writer.old < 2 ^ 63 }
    ensures { Puts W.written W.failures writer.old writer.new result (end_line end) }
{
    write_all(writer, b"# end ")?;
    write_all(writer, end_name(end))?;
    write_all(writer, b"\n")
}

/// The name of an end (profile).
fn end_name(end: End) -> &'static [u8]
    ensures { result.now ≡ end_name end }
{
    match end {
        End::GateLimit => b"gate-limit",
        End::Off => b"off",
        End::HistoryFull => b"history-full",
        End::Quiet => b"quiet",
        End::Stuck => b"stuck",
    }
}
