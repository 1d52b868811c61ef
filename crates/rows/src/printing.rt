//! Printed lines that no schedule gives.
ghost use Rattle.std.specs.Prelude.{◌≡◌, ◌<◌, ◌^◌, OnOk};

use anyhow::{Context, Result};
use board_core::{Actor, Board, Config, Op, Refusal, Reply, USUAL_ASID_LEN, USUAL_WIDTH};
use guest_script::Doing;
use monitor::{Failed, Sink, print_event, print_head, print_line, print_reply};
use sbi_abi::{Regs, Sbiret};
use sbiboard::Device;
use std::alloc::Global;

/// Room for what is printed, in bytes: a sink that grows while it is written would take refused memory for a failed write.
const ROOM: usize = 0x10_0000;

const CONFIG: Config = Config {
    harts: 1,
    pages: 1,
    limit: 10,
    boot_hart: 0,
    boot_addr: 0x8000_0000,
    boot_opaque: 0,
    asid_len: USUAL_ASID_LEN,
    width: USUAL_WIDTH,
};

fn ecall(eid: u64, a: [u64; 6]) -> Op {
    Op::Ecall(Regs { eid, fid: 0, a })
}

fn step(actor: Actor, op: Op) -> Doing {
    Doing::Step { actor, op }
}

fn ret(error: i64, value: u64) -> Reply {
    Reply::Ret(Sbiret { error, value })
}

/// Prints each form of a line, at both ends of its numbers.
pub fn show_lines<R: AllocGlobal + Print>(rt: &R) -> Result<()> {
    let mut out = Device::new(Vec::with_capacity(rt.alloc(), ROOM)?);
    put_lines(rt.alloc(), &mut out)?;
    let text = String::from_utf8(out.into_inner()).ok().context("no text")?;
    println!(rt; "{text}")?;
    Ok(())
}

/// Prints the board line, an event and replies.
fn put_lines<W: Sink>(alloc: Global, out: &mut W) -> Result<()>
    requires { W.failures out.old < 2 ^ 63 }
{
    print_head(&CONFIG, out)?;
    put_event(alloc, out)?;
    put_replies(out)?;
    Ok(())
}

/// Prints an event of a board.
fn put_event<W: Sink>(alloc: Global, out: &mut W) -> Result<()>
    requires { W.failures out.old < 2 ^ 63 }
    ensures { OnOk result (W.failures out.new ≡ W.failures out.old) }
{
    let mut board = Board::new(alloc, &CONFIG)?;
    put_event_of(&mut board, out)
}

/// Prints an event of this board.
fn put_event_of<W: Sink>(board: &mut Board, out: &mut W) -> Result<()>
    requires { W.failures out.old < 2 ^ 63 }
    ensures { OnOk result (W.failures out.new ≡ W.failures out.old) }
{
    for op in [Op::Advance, ecall(0x10, [0; 6])] {
        board.step(Actor::Hart(0), op)?;
    }
    let event = board.history().last().context("no event")?;
    print_event(event, out)?;
    Ok(())
}

/// Prints a line.
fn put_line<W: Sink>(
    doing: Doing,
    answer: Result<Reply, Refusal>,
    out: &mut W,
) -> Result<(), Failed>
    requires { W.failures out.old < 2 ^ 63 }
    ensures { OnOk result (W.failures out.new ≡ W.failures out.old) }
{
    print_line(doing, answer, out)?;
    Ok(())
}

/// Prints lines with the largest numbers, and a cut's.
fn put_replies<W: Sink>(out: &mut W) -> Result<(), Failed>
    requires { W.failures out.old < 2 ^ 63 }
{
    let most = u64::MAX;
    let long = ecall(0xabcdef, [most, 1, 0x10, 0x9f, 0, 0xfedc_ba98_7654_3210]);
    let entry = Reply::Entry {
        addr: most,
        hart: most,
        opaque: most,
    };
    let ticks = step(Actor::Clock, Op::Advance);
    put_line(ticks, Err(Refusal::WrongPhase), out)?;
    let calls = step(Actor::Hart(most), long);
    put_line(calls, Ok(ret(i64::MIN, most)), out)?;
    let enters = step(Actor::Hart(127), Op::Advance);
    put_line(enters, Ok(entry), out)?;
    put_line(Doing::Cut, Ok(Reply::Done), out)?;
    print_reply(Ok(ret(-2, 0)), out)
}
