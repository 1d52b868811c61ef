//! Each task of the library, with a reader or a writer whose calls fail, each in turn.

ghost use Rattle.std.specs.Prelude.{◌^◌, ◌<◌};

use crate::devices::failing::{ANSWERS, Answer, Failing};
use crate::judging::{ScriptTask, judged};
use anyhow::{Result, ensure};
use hart_threads::Open;
use monitor::Sink;
use sbiboard::{Device, Outcome, Source};
use std::sync::Wait;
use std::thread::Threads;

pub const SCHEDULE: &[u8] = b"board 2 1 9 0 0x80000000 0\n0 advance\n0 ecall 0x10 0\n1 advance\n";

const REPLAYED: &[u8] = b"\
board 2 1 9 0 0x80000000 0x0
0 advance -> entry 0x80000000 0 0x0
0 ecall 0x10 0x0 0x0 0x0 0x0 0x0 0x0 0x0 -> ret 0 0x1000000
1 advance -> refused 3
# time 0000000000000000 events       2 power on reset none
# starts 1 entries 1 pending 0 asked 0 applied 0 waiting 0
# hart state           wait out ss st ie se satp             deadline         tlb ic
#    0 STARTED            0   -  0  0 00  0 0000000000000000 ----------------   0  0
#    1 STOPPED            0   -  0  0 00  0 0000000000000000 ----------------   0  0
";

const TRACE: &[u8] =
    b"board 2 1 9 0 0x80000000 0\n0 advance -> entry 0x80000000 0 0\n1 advance -> refused 3\n";

const CHECKED: &[u8] = b"agrees 2\n";

/// The operations of its only hart have one order, whatever its threads do.
const PROGRAM: &[u8] = b"board 1 1 9 0 0x80000000 0\nat 0x80000000\nsip\necall 0x53525354 0\n";

const RAN: &[u8] = b"\
board 1 1 9 0 0x80000000 0x0
0 advance -> entry 0x80000000 0 0x0
0 sip -> value 0x0
0 ecall 0x53525354 0x0 0x0 0x0 0x0 0x0 0x0 0x0 -> gone
# time 0000000000000000 events       3 power off reset 00000000 00000000
# starts 0 entries 0 pending 0 asked 0 applied 0 waiting 0
# hart state           wait out ss st ie se satp             deadline         tlb ic
#    0 STOPPED            0   -  0  0 00  0 0000000000000000 ----------------   0  0
# end off
";

/// A task of the library.
#[derive(Clone, Copy)]
pub enum LibraryTask {
    /// A schedule is replayed.
    Replay,
    /// A trace is checked.
    Check,
    /// A program is run, under the gate that is always open.
    Run,
}

impl LibraryTask {
    /// A script for it.
    fn script(self) -> &'static [u8] {
        match self {
            LibraryTask::Replay => SCHEDULE,
            LibraryTask::Check => TRACE,
            LibraryTask::Run => PROGRAM,
        }
    }

    /// All that it prints.
    pub fn text(self) -> &'static [u8] {
        match self {
            LibraryTask::Replay => REPLAYED,
            LibraryTask::Check => CHECKED,
            LibraryTask::Run => RAN,
        }
    }

    /// Runs a task over devices of which a call fails.
    fn run<I: Source, O: Sink, R: AllocGlobal + Threads + Wait + Sync>(
        self,
        rt: &R,
        reader: &mut I,
        writer: &mut O,
    ) -> Outcome
        requires reads { I.failures reader.old < 2 ^ 63 }
        requires writes { O.failures writer.old < 2 ^ 63 }
    {
        match self {
            LibraryTask::Replay => judged(rt.alloc(), ScriptTask::Replay, reader, writer),
            LibraryTask::Check => judged(rt.alloc(), ScriptTask::Check, reader, writer),
            LibraryTask::Run => sbiboard::run_script(rt, reader, writer, &Open),
        }
    }
}

/// Which calls of a task fail.
#[derive(Clone, Copy, Debug)]
pub enum Side {
    /// Its reads.
    Reads,
    /// Its writes, with the flush at the end.
    Writes,
}

impl Side {
    /// How a task ends of which a call has this answer. A flush moves no bytes, so it ends well where it answers so. A read
    /// of nothing is the end, and not tried.
    fn wanted(self, answer: Answer, is_last: bool) -> Option<Outcome> {
        match (self, answer) {
            (Side::Reads, Answer::Zero) => None,
            (Side::Writes, Answer::Zero) if is_last => Some(Outcome::Good),
            _ => Some(Outcome::Io),
        }
    }
}

/// What stands between a task and what fails.
#[derive(Clone, Copy, Debug)]
enum Behind {
    /// Nothing: it is the source, or the sink.
    Nothing,
    /// A device, which calls it as a reader or a writer of the system.
    Device,
}

const BEHIND: [Behind; 2] = [Behind::Nothing, Behind::Device];

/// A task of which one call, from 0, has another answer.
#[derive(Clone, Copy)]
struct Attempt {
    task: LibraryTask,
    behind: Behind,
    at: u64,
    answer: Answer,
}

/// How a task ends, how many calls it made of what fails, and what it printed.
type Ended = (Outcome, u64, Vec<u8>);

/// The same of a task that reads three bytes at a call.
fn run_from<R: AllocGlobal + Threads + Wait + Sync>(rt: &R, attempt: Attempt) -> Ended {
    let (alloc, task) = (rt.alloc(), attempt.task);
    let mut reader = Failing::new(alloc, task.script(), 3, attempt.at, attempt.answer);
    let mut writer = Device::new(Vec::new(alloc));
    match attempt.behind {
        Behind::Nothing => {
            let outcome = task.run(rt, &mut reader, &mut writer);
            (outcome, reader.calls, writer.into_inner())
        }
        Behind::Device => {
            let mut device = Device::new(reader);
            let outcome = task.run(rt, &mut device, &mut writer);
            (outcome, device.into_inner().calls, writer.into_inner())
        }
    }
}

/// The same of a task that writes three bytes at a call.
fn run_to<R: AllocGlobal + Threads + Wait + Sync>(rt: &R, attempt: Attempt) -> Ended {
    let task = attempt.task;
    let mut reader = Device::new(task.script());
    let mut writer = Failing::new(rt.alloc(), b"", 3, attempt.at, attempt.answer);
    match attempt.behind {
        Behind::Nothing => {
            let outcome = task.run(rt, &mut reader, &mut writer);
            (outcome, writer.calls, writer.taken)
        }
        Behind::Device => {
            let mut device = Device::new(writer);
            let outcome = task.run(rt, &mut reader, &mut device);
            let writer = device.into_inner();
            (outcome, writer.calls, writer.taken)
        }
    }
}

/// The same of a task whose reads or writes are of three bytes.
fn run_by<R: AllocGlobal + Threads + Wait + Sync>(rt: &R, side: Side, attempt: Attempt) -> Ended {
    match side {
        Side::Reads => run_from(rt, attempt),
        Side::Writes => run_to(rt, attempt),
    }
}

/// How many reads or writes a task makes, each of which failed or moved nothing in turn: no call is made after it, and if a
/// read fails, nothing is written.
pub fn check_calls<R: AllocGlobal + Threads + Wait + Sync>(
    rt: &R,
    task: LibraryTask,
    side: Side,
) -> Result<u64> {
    let mut count = 0;
    for behind in BEHIND {
        let whole = Attempt {
            task,
            behind,
            at: u64::MAX,
            answer: Answer::Moves,
        };
        let (outcome, last, printed) = run_by(rt, side, whole);
        let is_right = outcome == Outcome::Good && printed.as_slice() == task.text();
        ensure!(is_right, "{side:?}, {behind:?}: {outcome}");
        for at in 0..last {
            check_call(rt, side, Attempt { at, ..whole }, last)?;
        }
        count = last;
    }
    Ok(count)
}

/// One call has each other answer in turn.
fn check_call<R: AllocGlobal + Threads + Wait + Sync>(
    rt: &R,
    side: Side,
    attempt: Attempt,
    last: u64,
) -> Result<()> {
    let made = attempt.at.wrapping_add(1);
    for answer in ANSWERS {
        if let Some(wanted) = side.wanted(answer, made == last) {
            let (outcome, calls, printed) = run_by(rt, side, Attempt { answer, ..attempt });
            let is_silent = printed.is_empty() || matches!(side, Side::Writes);
            let is_right = outcome == wanted && calls == made && is_silent;
            ensure!(
                is_right,
                "{side:?} {made}, {answer:?}, {:?}: {outcome}, {calls} calls",
                attempt.behind
            );
        }
    }
    Ok(())
}
