//! Calls of the library that many rows make, each at one place: a row needs little of what they promise.

ghost use Rattle.std.specs.Prelude.{◌^◌, ◌<◌};

use monitor::Sink;
use sbiboard::{Outcome, Source};
use std::alloc::Global;

/// What is done with a script.
#[derive(Clone, Copy)]
pub enum ScriptTask {
    /// It is replayed.
    Replay,
    /// It is checked as a trace.
    Check,
}

/// How a task ends.
pub fn judged<I: Source, O: Sink>(
    alloc: Global,
    task: ScriptTask,
    reader: &mut I,
    writer: &mut O,
) -> Outcome
    requires reads { I.failures reader.old < 2 ^ 63 }
    requires writes { O.failures writer.old < 2 ^ 63 }
{
    match task {
        ScriptTask::Replay => sbiboard::replay(alloc, reader, writer),
        ScriptTask::Check => sbiboard::check(alloc, reader, writer),
    }
}
