//! Calls whose allocations fail: each is made once, and again if it failed.

mod boards;
mod locked;
mod runs;
mod scripts;
mod telling;

use std::sync::Wait;
use std::thread::Threads;

/// Makes all calls.
pub fn show_refusals<R: AllocGlobal + Print + Threads + Wait + Sync>(rt: &R) {
    scripts::read_all(rt);
    boards::make(rt);
    boards::cut(rt);
    locked::open(rt);
    locked::adopt(rt);
    runs::run_program(rt);
}
