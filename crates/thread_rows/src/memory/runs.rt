//! A program that runs on threads.

use crate::calls::{ran_program, script};
use crate::memory::scripts::PROGRAM;
use crate::memory::telling::{begin, is_made};
use guest_script::Script;
use hart_threads::{End, Open, RunFault};
use std::sync::Wait;
use std::thread::Threads;

/// Runs the program, and again if memory or a thread was refused.
pub fn run_program<R: AllocGlobal + Print + Threads + Wait + Sync>(rt: &R) {
    if let Ok(script) = script(rt.alloc(), PROGRAM) {
        run_twice(rt, &script);
    }
}

fn run_twice<R: AllocGlobal + Print + Threads + Wait + Sync>(rt: &R, script: &Script) {
    for _ in 0..2 {
        begin(rt, "run");
        if is_made(rt, "run", &end(rt, script)) {
            break;
        }
    }
}

/// Runs a program: how it ended, and how many events there were.
fn end<R: AllocGlobal + Threads + Wait + Sync>(
    rt: &R,
    script: &Script,
) -> Result<(End, usize), RunFault> {
    let ran = ran_program(rt, script, &Open)?;
    Ok((ran.end, ran.board.history().len()))
}
