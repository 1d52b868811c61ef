//! Runs that are printed.

use crate::calls;
use crate::threads::seen::{Seen, Why};
use hart_threads::{Gate, RunEnd};
use std::io;
use std::sync::Wait;
use std::thread::Threads;

/// Reads a script, which is a program, and runs it.
pub fn ran_script<G: Gate + Sync, R: AllocGlobal + Threads + Wait + Sync>(
    rt: &R,
    bytes: &[u8],
    gate: &G,
) -> Result<RunEnd, Why> {
    let script = calls::script(rt.alloc(), bytes)?;
    Ok(calls::ran_program(rt, &script, gate)?)
}

/// Runs a script, and prints what was seen.
pub fn show<G: Gate + Sync, R: AllocGlobal + Print + Threads + Wait + Sync>(
    rt: &R,
    name: &str,
    bytes: &[u8],
    gate: &G,
) -> io::Result<()> {
    match ran_script(rt, bytes, gate) {
        Ok(run) => println!(rt; "{name}: {:?}", Seen::of(&run)),
        Err(why) => println!(rt; "{name}: {why}"),
    }
}
