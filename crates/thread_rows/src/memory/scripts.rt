//! Scripts, and the call that reads them.

use crate::calls::script;
use crate::memory::telling::{begin, is_made};
use guest_script::{Body, ScriptFault};
use std::alloc::Global;

/// A program of three harts and the clock.
pub const PROGRAM: &[u8] = b"board 3 2 60 0 0x80000000 0x0
at 0x80000000
ecall 0x48534d 0 1 0x80001000 0
ecall 0x48534d 0 2 0x80001000 0
sip
at 0x80001000
ecall 0x735049 0 0x1 0
sip
clock
tick 3
tick 4
";

/// Steps after which three harts have state of every kind, one of them inside a fence call.
pub const SCHEDULE: &[u8] = b"board 3 8 60 0 0x80000000 0x0
0 advance
0 ecall 0x48534d 0 1 0x80000100 7
1 advance
0 ecall 0x48534d 0 2 0x80000200 8
0 sie 0x22
1 ecall 0x54494d45 0 100
0 ecall 0x735049 0 0x2 0
c tick 3
0 store 0x80001010 0x200000cf
0 satp 0x8000000000080001
0 load 0x80000008
0 fetch 0x80000008
0 ecall 0x52464e43 1 0x2 0 0x1000 0x1000
";

const TRACE: &[u8] = b"board 1 1 10 0 0x80000000 0x0
0 advance -> entry 0x80000000 0 0x0
0 ecall 0x10 0 -> ret 0 0x1000000
cut -> done
0 sip -> value 0
";

/// A schedule whose last line names no operation.
const FAULTY: &[u8] = b"board 1 1 10 0 0x80000000 0x0
0 advance
0 sip
0 fly
";

/// Reads a script of each kind, and one that is none.
pub fn read_all<R: AllocGlobal + Print>(rt: &R) {
    read(rt, "parse of a program", PROGRAM);
    read(rt, "parse of a schedule", SCHEDULE);
    read(rt, "parse of a trace", TRACE);
    read(rt, "parse of a fault", FAULTY);
}

/// Reads a script, and again where memory was refused.
fn read<R: AllocGlobal + Print>(rt: &R, call: &str, bytes: &[u8]) {
    for _ in 0..2 {
        begin(rt, call);
        let answer = size(rt.alloc(), bytes);
        if is_made(rt, call, &answer) || !is_refused(&answer) {
            break;
        }
    }
}

fn is_refused(answer: &Result<usize, (ScriptFault, u64)>) -> bool {
    matches!(answer, Err((_, 9)))
}

/// Reads a script: how many lines it has, or blocks and ticks; or its fault and that one's number.
fn size(alloc: Global, bytes: &[u8]) -> Result<usize, (ScriptFault, u64)> {
    match script(alloc, bytes) {
        Ok(script) => Ok(size_of(&script.body)),
        Err(fault) => Err((fault, fault.number())),
    }
}

fn size_of(body: &Body) -> usize {
    match body {
        Body::Empty => 0,
        Body::Program { blocks, clock } => blocks.len().saturating_add(clock.len()),
        Body::Schedule(lines) | Body::Trace(lines) => lines.len(),
    }
}
