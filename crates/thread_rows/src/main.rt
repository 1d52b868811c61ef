//! Rows of what stands round a board: its lock, refused memory, and programs on threads. The program prints only what holds of
//! every schedule, and must print its file stdout. Its first word names one of the parts; without such a word it shows all.
//!
//! - `locks`: real threads make calls by their seats, and keep their receipts (`locks.rt` has further words).
//! - `memory`: calls whose allocations fail. Each call is made once; if it fails, the program prints what it returned, and makes
//!   it again. A line that is only the name of a call stands directly before it: allocations from there to the next line are the
//!   call's. `tests/test_refused_calls.py` refuses each allocation of each call in turn.
//! - `threads`: programs on threads, some of which a gate holds back. With a second word, a thread that a gate holds back gives up
//!   after some seconds, and not after a minute. So a run ends soon in which the thread that it waits for was refused
//!   (`tests/test_rows.py`).
#![tactic(auto)]

mod calls;
mod locks;
mod memory;
mod threads;

use std::env::FillError;
use std::io;
use std::rt::Env;
use std::sync::Wait;
use std::thread::Threads;

fn main(rt: HostRuntime) -> io::Result<()> {
    let word = first_word(&rt);
    if is_asked(&word, b"locks") {
        println!(rt; "locks")?;
        locks::show_locks(&rt)?;
    }
    if is_asked(&word, b"memory") {
        println!(rt; "memory")?;
        memory::show_refusals(&rt);
    }
    if is_asked(&word, b"threads") {
        println!(rt; "threads")?;
        threads::show_runs(&rt, has_second_word(&rt))?;
    }
    Ok(())
}

/// The first word, with zeros behind it. (No memory is taken for it: it may be refused.)
fn first_word<R: Env>(rt: &R) -> [u8; 64] {
    let mut word = [0; 64];
    let _ = rt.arg(1, &mut word);
    word
}

/// Whether a part is shown: its name is the first word, or that names none.
fn is_asked(word: &[u8], part: &[u8]) -> bool {
    word.starts_with(part) || !is_name(word)
}

fn is_name(word: &[u8]) -> bool {
    word.starts_with(b"locks") || word.starts_with(b"memory") || word.starts_with(b"threads")
}

fn has_second_word<R: Env>(rt: &R) -> bool {
    !matches!(rt.arg(2, &mut [0; 64]), Err(FillError::NotPresent))
}
