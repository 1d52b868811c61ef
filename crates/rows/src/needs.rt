//! How many serves fence calls need: by steps on a board of three harts, and where all harts fence each other.
ghost use Rattle.std.specs.Prelude.{◌<◌};

use anyhow::Result;
use board_core::{Actor, Board, Config, Op, Phase, Refusal, USUAL_ASID_LEN, USUAL_WIDTH};
use sbi_abi::Regs;
use std::alloc::Global;
use std::io;

const RFENCE: u64 = 0x5246_4e43;

const HSM: u64 = 0x48_534d;

const SRST: u64 = 0x5352_5354;

const START: u64 = 0x8000_0000;

/// A call by its first three arguments.
fn ecall(eid: u64, fid: u64, first: u64, second: u64, third: u64) -> Op {
    let a = [first, second, third, 0, 0, 0];
    Op::Ecall(Regs { eid, fid, a })
}

/// A full fence of the harts of a hart list.
fn fence(mask: u64, base: u64) -> Op {
    ecall(RFENCE, 1, mask, base, 0)
}

/// A board of this many harts, all started by hart 0.
fn started(alloc: Global, harts: u64) -> Result<Board> {
    let config = Config {
        harts,
        pages: 1,
        limit: 20_000,
        boot_hart: 0,
        boot_addr: START,
        boot_opaque: 0,
        asid_len: USUAL_ASID_LEN,
        width: USUAL_WIDTH,
    };
    let mut board = Board::new(alloc, &config)?;
    start_all(&mut board, harts)?;
    Ok(board)
}

/// A step of a hart.
fn step(board: &mut Board, h: u64, op: Op) -> Result<(), Refusal> {
    match board.step(Actor::Hart(h), op) {
        Ok(_) => Ok(()),
        Err(refusal) => Err(refusal),
    }
}

/// Starts all harts.
fn start_all(board: &mut Board, harts: u64) -> Result<(), Refusal> {
    step(board, 0, Op::Advance)?;
    for h in 1..harts {
        step(board, 0, ecall(HSM, 0, h, START, 0))?;
        step(board, h, Op::Advance)?;
    }
    Ok(())
}

/// Makes a step, and prints whether it was accepted, which harts are inside a fence call now, and what their calls need.
fn show_step<R: Print>(rt: &R, board: &mut Board, h: u64, name: &str, op: Op) -> io::Result<()> {
    let accepted = step(board, h, op).is_ok();
    print!(rt; "{h} {name}: {accepted}")?;
    for caller in 0..board.config().harts {
        show_call(rt, board, caller)?;
    }
    println!(rt; "")
}

/// Prints whether hart `caller` is inside a fence call, and what its call needs of each hart.
fn show_call<R: Print>(rt: &R, board: &Board, caller: u64) -> io::Result<()>
    requires { caller < board.now.opening.config.harts }
{
    if board.phase(caller) == Phase::Inside {
        print!(rt; " {caller} is inside")?;
    }
    for t in 0..board.config().harts {
        show_need(rt, board, caller, t)?;
    }
    Ok(())
}

/// What the call of hart `caller` needs of hart `t`.
fn need(board: &Board, caller: u64, t: u64) -> u64 {
    board.need(caller, t)
}

fn show_need<R: Print>(rt: &R, board: &Board, caller: u64, t: u64) -> io::Result<()> {
    let need = need(board, caller, t);
    if need > 0 {
        print!(rt; " ({caller} {t} {need})")?;
    }
    Ok(())
}

/// What calls need of harts, and of harts that don't exist, while harts 0 and 2 fence hart 1, which then does this instead of
/// its first serve.
fn show_three<R: AllocGlobal + Print>(rt: &R, name: &str, instead: Op) -> Result<()> {
    let mut board = started(rt.alloc(), 3)?;
    show_three_on(rt, &mut board, name, instead)?;
    Ok(())
}

/// The same on this board.
fn show_three_on<R: Print>(rt: &R, board: &mut Board, name: &str, instead: Op) -> io::Result<()> {
    let asked = fence(0b010, 0);
    show_steps(rt, board, &[(0, "fences 1", asked), (2, "fences 1", asked)])?;
    show_absent(rt, board)?;
    let then = [
        (1, name, instead),
        (0, "polls", Op::Poll),
        (2, "polls", Op::Poll),
        (1, "serves", Op::Serve),
        (2, "polls", Op::Poll),
        (2, "fences all", fence(0, u64::MAX)),
    ];
    show_steps(rt, board, &then)
}

/// Makes steps, each by its hart, and shows them.
fn show_steps<R: Print>(rt: &R, board: &mut Board, steps: &[(u64, &str, Op)]) -> io::Result<()> {
    for (h, name, op) in steps {
        show_step(rt, board, *h, name, *op)?;
    }
    Ok(())
}

/// What is needed by harts that aren't there, and of such.
fn show_absent<R: Print>(rt: &R, board: &Board) -> io::Result<()> {
    for (caller, t) in [(0, 3), (3, 1), (0, u64::MAX), (u64::MAX, 1)] {
        print!(rt; "{} ", need(board, caller, t))?;
    }
    println!(rt; "where no hart is")
}

/// Hart `t` serves as often as the call of hart `caller` needs of it. Returns whether the call could be polled before a serve.
fn serve_all(board: &mut Board, caller: u64, t: u64) -> Result<bool, Refusal> {
    let mut polled = false;
    for _ in 0..need(board, caller, t) {
        polled |= step(board, caller, Op::Poll).is_ok();
        step(board, t, Op::Serve)?;
    }
    Ok(polled)
}

/// All harts of a board fence all of it, each in its turn, so that the last one's fence waits behind all others. It can be
/// polled after the serves that it needs, and not before.
fn show_crossfire<R: AllocGlobal + Print>(rt: &R, harts: u64) -> Result<()> {
    let mut board = started(rt.alloc(), harts)?;
    show_crossfire_on(rt, &mut board, harts)
}

/// The same on this board.
fn show_crossfire_on<R: Print>(rt: &R, board: &mut Board, harts: u64) -> Result<()> {
    for h in 0..harts {
        step(board, h, fence(0, u64::MAX))?;
    }
    let last = harts.saturating_sub(1);
    let busiest = need(board, last, 0);
    let before = board.history().len();
    let mut early = false;
    for t in 0..last {
        early |= serve_all(board, last, t)?;
    }
    let serves = board.history().len().saturating_sub(before);
    let polled = step(board, last, Op::Poll).is_ok();
    println!(rt;
        "{harts} harts: {busiest} serves of hart 0, {serves} of all; polled before: {early}, then: {polled}"
    )?;
    Ok(())
}

/// Shows what fence calls need.
pub fn show_needs<R: AllocGlobal + Print>(rt: &R) -> Result<()> {
    show_three(rt, "serves", Op::Serve)?;
    show_three(rt, "stops", ecall(HSM, 1, 0, 0, 0))?;
    show_three(rt, "resets", ecall(SRST, 0, 2, 0, 0))?;
    for harts in [1, 2, 8, 128] {
        show_crossfire(rt, harts)?;
    }
    Ok(())
}
