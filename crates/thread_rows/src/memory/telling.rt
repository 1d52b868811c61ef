//! The lines that are printed.
ghost use Rattle.std.specs.Prelude.{◌<◌};

use board_core::{Board, Event};
use std::fmt::Debug;

/// Says that the call comes next.
pub fn begin<R: Print>(rt: &R, call: &str) {
    let _ = println!(rt; "{call}");
}

/// Tells the answer of a call: whether it was made.
pub fn is_made<R: Print, T: Debug, E: Debug>(rt: &R, call: &str, answer: &Result<T, E>) -> bool {
    let _ = match answer {
        Ok(made) => println!(rt; "{call}: {made:?}"),
        Err(fault) => println!(rt; "{call}: {fault:?}"),
    };
    answer.is_ok()
}

/// Prints what a call gets, and returns if it fails.
pub fn tell<R: Print, T: Debug>(rt: &R, call: &str, what: &T) {
    let _ = println!(rt; "{call} has {what:?}");
}

/// Prints all of a board that a call gets: its events, and what they left.
pub fn show<R: Print>(rt: &R, call: &str, board: &Board) {
    show_events(rt, call, board.history());
    for h in 0..board.config().harts {
        show_hart(rt, call, board, h);
    }
    tell(rt, call, &(board.places(), board.time(), board.totals()));
}

fn show_events<R: Print>(rt: &R, call: &str, events: &[Event]) {
    for event in events {
        tell(rt, call, &(event.actor(), event.op(), event.reply()));
    }
}

fn show_hart<R: Print>(rt: &R, call: &str, board: &Board, h: u64)
    requires { h < board.now.opening.config.harts }
{
    let calls = (board.state(h), board.phase(h), board.waiting_len(h));
    let interrupts = (board.ssip(h), board.deadline(h), board.satp(h));
    tell(rt, call, &(h, calls, interrupts));
}
