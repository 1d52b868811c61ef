//! Programs on threads, some of which a gate holds back.

mod gates;
mod held;
mod places;
mod scripts;
mod seen;
mod shown;

use crate::threads::held::{show_held, show_long};
use crate::threads::shown::show;
use hart_threads::{Open, RunFault};
use std::io;
use std::sync::Wait;
use std::thread::Threads;
use std::time::Clock;

/// How often a held thread looks, a millisecond apart, for the one that it waits for: only a thread that never comes takes so long.
const LOOKS: u32 = 60_000;

/// The same where a run is to end soon.
const FEW_LOOKS: u32 = 3_000;

/// Runs with each end but the gate's.
const ENDS: [(&str, &[u8]); 15] = [
    ("empty", scripts::EMPTY),
    ("off", scripts::SHUTDOWN),
    ("history-full", scripts::LONG),
    ("stuck", scripts::SLEEPING),
    ("quiet", scripts::STOPPING),
    ("no-harts", scripts::NO_HARTS),
    ("off-and-stuck", scripts::UNFINISHED),
    ("off-at-the-limit", scripts::LAST),
    ("quiet-at-the-limit", scripts::EXACT),
    ("stuck-at-the-limit", scripts::ASLEEP),
    ("run-ends, quiet", scripts::ONE_ORDER),
    ("run-ends, stuck", scripts::NEVER_WOKEN),
    ("run-history-full", scripts::ENTERING),
    ("run-off", scripts::SHUTDOWN),
    ("run-clock", scripts::ONE_TICK),
];

/// Shows all runs. A thread that a gate holds back gives up after a minute, or soon.
pub fn show_runs<R: AllocGlobal + Clock + Print + Threads + Wait + Sync>(
    rt: &R,
    is_soon: bool,
) -> io::Result<()> {
    for (name, script) in ENDS {
        show(rt, name, script, &Open)?;
    }
    show_faults(rt)?;
    let looks = if is_soon { FEW_LOOKS } else { LOOKS };
    show_held(rt, looks)?;
    show_long(rt, looks)
}

/// What is said of each fault.
fn show_faults<R: Print>(rt: &R) -> io::Result<()> {
    for fault in [RunFault::BadConfig, RunFault::NoMemory, RunFault::NoThread] {
        println!(rt; "fault {}: {fault}", fault.number())?;
    }
    Ok(())
}
