//! Rows whose threads are held up by a gate.

use crate::threads::gates::{Hold, Holding, Turn};
use crate::threads::places::is_after;
use crate::threads::scripts;
use crate::threads::seen::Questions;
use crate::threads::shown::{ran_script, show};
use hart_threads::Open;
use std::alloc::{AllocError, Global};
use std::io;
use std::sync::Wait;
use std::thread::Threads;
use std::time::Clock;

/// The turn of an actor with this many accepted operations.
fn turn(actor: usize, ordinal: usize) -> Turn {
    Turn { actor, ordinal }
}

/// A turn that comes after another one.
fn hold(turn: Turn, after: Turn) -> Hold {
    Hold { turn, after }
}

/// A script under a gate with holds, which is closed for one turn.
#[derive(Clone, Copy)]
struct Held<'a> {
    name: &'a str,
    script: &'a [u8],
    holds: &'a [Hold],
    closed: Option<Turn>,
}

/// Runs a script under its gate. A thread that this holds back looks so often for the one that it waits for.
fn show_under<R: AllocGlobal + Clock + Print + Threads + Wait + Sync>(
    rt: &R,
    looks: u32,
    row: Held<'_>,
) -> io::Result<()> {
    let gate = Holding::new(rt, looks, row.holds, row.closed);
    show(rt, row.name, row.script, &gate)
}

/// The same, and what the gate was asked.
fn show_asked<R: AllocGlobal + Clock + Print + Threads + Wait + Sync>(
    rt: &R,
    looks: u32,
    row: Held<'_>,
) -> io::Result<()> {
    let gate = Holding::new(rt, looks, row.holds, row.closed);
    show(rt, row.name, row.script, &gate)?;
    println!(rt; "{:?}", Questions::of(&gate))
}

/// Shows the rows whose scripts stand as they are.
pub fn show_held<R: AllocGlobal + Clock + Print + Threads + Wait + Sync>(
    rt: &R,
    looks: u32,
) -> io::Result<()> {
    show_crossing(rt, looks)?;
    held_until_recorded(rt, looks)?;
    show_questions(rt, looks)?;
    show_closed(rt, looks)
}

/// The gate closes for the second operation of the only hart. Each of two harts comes to its fence call before either makes it: no
/// thread waits for another, and no lock is held.
fn show_crossing<R: AllocGlobal + Clock + Print + Threads + Wait + Sync>(
    rt: &R,
    looks: u32,
) -> io::Result<()> {
    let limit = Held {
        name: "gate-limit",
        script: scripts::SHUTDOWN,
        holds: &[],
        closed: Some(turn(0, 1)),
    };
    let crossing = Held {
        name: "two_fences_cross",
        script: scripts::CROSSING,
        holds: &[hold(turn(0, 2), turn(1, 1)), hold(turn(1, 1), turn(0, 2))],
        closed: None,
    };
    show_under(rt, looks, limit)?;
    show_under(rt, looks, crossing)
}

/// The fourth operation of hart 0 comes after two of hart 1 are recorded.
fn held_until_recorded<R: AllocGlobal + Clock + Print + Threads + Wait + Sync>(
    rt: &R,
    looks: u32,
) -> io::Result<()> {
    let row = Held {
        name: "held_until_recorded",
        script: scripts::READING,
        holds: &[hold(turn(0, 3), turn(1, 2))],
        closed: None,
    };
    show_under(rt, looks, row)?;
    match ran_script(rt, row.script, &Holding::new(rt, looks, row.holds, None)) {
        Ok(run) => {
            let after = is_after(run.board.history(), turn(0, 3), turn(1, 1));
            println!(rt; "recorded before: {after}")
        }
        Err(why) => println!(rt; "recorded before: {why}"),
    }
}

/// Each actor asks for its operations in order, once for each. Then hart 1 is let go on with an operation, and the board is rebooted
/// before it: the operation is refused, and what comes next asks with the same ordinal. The gate closes for the second reboot.
fn show_questions<R: AllocGlobal + Clock + Print + Threads + Wait + Sync>(
    rt: &R,
    looks: u32,
) -> io::Result<()> {
    let in_order = Held {
        name: "asked_in_order",
        script: scripts::THREE,
        holds: &[],
        closed: None,
    };
    let again = Held {
        name: "refused_asks_again",
        script: scripts::REBOOTING,
        holds: &[hold(turn(0, 2), turn(1, 1)), hold(turn(1, 1), turn(0, 3))],
        closed: Some(turn(0, 5)),
    };
    show_asked(rt, looks, in_order)?;
    show_asked(rt, looks, again)
}

/// The gate closes for a tick of the clock, whose number comes after the harts': it does no further one. A closed gate comes before
/// the power, and before a full history: the clock's gate closes for its first tick.
fn show_closed<R: AllocGlobal + Clock + Print + Threads + Wait + Sync>(
    rt: &R,
    looks: u32,
) -> io::Result<()> {
    for (name, script, closed) in [
        ("clocks_gate", scripts::TICKING, turn(1, 1)),
        ("closed_gate_and_off", scripts::LEAVING, turn(1, 0)),
        ("closed_gate_and_full", scripts::CROWDED, turn(1, 0)),
    ] {
        let row = Held {
            name,
            script,
            holds: &[],
            closed: Some(closed),
        };
        show_under(rt, looks, row)?;
    }
    Ok(())
}

/// Shows the rows whose scripts have thousands of lines. A clock does all of three thousand ticks, or as many as there is room for
/// beside a hart that is through.
pub fn show_long<R: AllocGlobal + Clock + Print + Threads + Wait + Sync>(
    rt: &R,
    looks: u32,
) -> io::Result<()> {
    for (name, head, line) in [
        ("many_ticks", scripts::CLOCK, scripts::TICK_LINE),
        (
            "clocks_full_history",
            scripts::SHORT_CLOCK,
            scripts::NO_TIME,
        ),
    ] {
        match with_lines(rt.alloc(), head, 3000, line) {
            Ok(script) => show(rt, name, &script, &Open)?,
            Err(_) => println!(rt; "{name}: no memory")?,
        }
    }
    show_resting(rt, looks)
}

/// Harts rest until a deadline, and meanwhile the clock is held back from its first tick, which wakes all of them. Then the gate
/// closes for one actor, a hart or the clock, while a hart rests; long after that another actor wakes this one, which goes on.
///
/// Hart 0 does its first `sip` after harts 1 and 2 have set their deadlines, and the clock ticks first after hundreds of those. Or it
/// does its first `sip` after the clock's gate has closed, the second after hart 1's entry, which would clear an IPI, and hart 2 its
/// first operation after hundreds of those.
fn show_resting<R: AllocGlobal + Clock + Print + Threads + Wait + Sync>(
    rt: &R,
    looks: u32,
) -> io::Result<()> {
    let deadlines = [
        hold(turn(0, 3), turn(1, 2)),
        hold(turn(0, 4), turn(2, 2)),
        hold(turn(3, 0), turn(0, 1000)),
    ];
    let ipi = [
        hold(turn(0, 3), turn(3, 0)),
        hold(turn(0, 4), turn(1, 1)),
        hold(turn(2, 1), turn(0, 1000)),
    ];
    for (name, script, holds, closed) in [
        ("rests_before_the_clock", scripts::RESTING, &deadlines, None),
        (
            "gate_of_a_hart",
            scripts::RESTING,
            &deadlines,
            Some(turn(2, 2)),
        ),
        (
            "gate_of_the_clock",
            scripts::WOKEN_BY_AN_IPI,
            &ipi,
            Some(turn(3, 0)),
        ),
    ] {
        let row = Held {
            name,
            script,
            holds,
            closed,
        };
        show_reading(rt, looks, row)?;
    }
    Ok(())
}

/// Runs a script under its gate, with two thousand reads of sip behind it.
fn show_reading<R: AllocGlobal + Clock + Print + Threads + Wait + Sync>(
    rt: &R,
    looks: u32,
    row: Held<'_>,
) -> io::Result<()> {
    match with_lines(rt.alloc(), row.script, 2000, scripts::SIP_LINE) {
        Ok(script) => {
            let long = Held {
                name: row.name,
                script: &script,
                holds: row.holds,
                closed: row.closed,
            };
            show_under(rt, looks, long)
        }
        Err(_) => println!(rt; "{}: no memory", row.name),
    }
}

/// A script, and a line this often.
fn with_lines(alloc: Global, head: &[u8], times: u64, line: &[u8]) -> Result<Vec<u8>, AllocError> {
    let mut text = Vec::new(alloc);
    text.extend_from_slice(head)?;
    for _ in 0..times {
        text.extend_from_slice(line)?;
    }
    Ok(text)
}
