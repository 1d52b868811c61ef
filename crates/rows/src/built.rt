//! Schedules and traces that a caller builds, line by line.

use anyhow::Result;
use board_core::{Actor, Op, Reply};
use guest_script::{Body, Doing, Line, Lines, Said};
use std::alloc::Global;

/// The most that a line's number can be.
const MOST: u64 = (1 << 28) - 1;

/// A line of hart `h` that says something, or nothing.
fn advance(number: u64, h: u64, said: Option<Said>) -> Line {
    let doing = Doing::Step {
        actor: Actor::Hart(h),
        op: Op::Advance,
    };
    Line {
        number,
        doing,
        said,
    }
}

/// Adds lines one by one, and prints for each whether it could follow, and how many there are then.
fn show_added<R: AllocGlobal + Print>(rt: &R, added: &[Line]) -> Result<Lines> {
    let mut lines = Lines::new(rt.alloc());
    for line in added {
        let answer = lines.add(line);
        println!(rt;
            "{} {:?} {answer:?}: {}",
            line.number,
            line.doing,
            lines.len()
        )?;
    }
    Ok(lines)
}

/// Builds a schedule and a trace, and shows which lines can't follow.
pub fn show_built<R: AllocGlobal + Print>(rt: &R) -> Result<()> {
    let done = Some(Said::of(&Ok(Reply::Done)));
    let schedule = [
        advance(1, 0, None),
        advance(1, 127, None),
        advance(2, 128, None),
        advance(3, 0, done),
        advance(MOST, 1, None),
        advance(MOST + 1, 1, None),
    ];
    show_body(rt, &Body::Schedule(show_added(rt, &schedule)?))?;
    let trace = [
        advance(1, 0, done),
        advance(2, 0, None),
        advance(3, 2, done),
    ];
    show_body(rt, &Body::Trace(show_added(rt, &trace)?))
}

/// Prints the lines of a schedule or a trace.
fn show_body<R: AllocGlobal + Print>(rt: &R, body: &Body) -> Result<()> {
    println!(rt; "built:{}", told(body, rt.alloc())?)?;
    Ok(())
}

/// The lines of a schedule or a trace, one behind the other.
fn told(body: &Body, alloc: Global) -> Result<String> {
    let mut text = String::new(alloc);
    if let Body::Schedule(lines) | Body::Trace(lines) = body {
        for line in lines.iter() {
            text.push_str(&format!(in alloc; " ({} {:?})", line.number(), line.doing())?)?;
        }
    }
    Ok(text)
}
