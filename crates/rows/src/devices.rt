//! Rows of the library's tasks over sources and sinks whose calls fail, each in turn, and of scripts that are cut anywhere: how
//! many calls there were, and the answers.

mod calls;
mod cuts;
mod failing;
mod failures;

use crate::devices::failures::{LibraryTask, Side, check_calls};
use anyhow::Result;
use std::sync::Wait;
use std::thread::Threads;

/// Shows all of them.
pub fn show_devices<R: AllocGlobal + Print + Threads + Wait + Sync>(rt: &R) -> Result<()> {
    println!(rt; "devices")?;
    calls::show_calls(rt)?;
    calls::show_pieces(rt)?;
    show_failures(rt, LibraryTask::Replay, "replay")?;
    show_failures(rt, LibraryTask::Check, "check")?;
    show_failures(rt, LibraryTask::Run, "run")?;
    cuts::show_cuts(rt)?;
    cuts::show_lengths(rt)
}

/// Prints how many reads and writes a task makes, each of which failed in turn.
fn show_failures<R: AllocGlobal + Print + Threads + Wait + Sync>(
    rt: &R,
    task: LibraryTask,
    name: &str,
) -> Result<()> {
    let reads = check_calls(rt, task, Side::Reads)?;
    let writes = check_calls(rt, task, Side::Writes)?;
    println!(rt; "{name}: {reads} reads, {writes} writes")?;
    Ok(())
}
