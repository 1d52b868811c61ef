//! What a seat does on a thread of its own.

use crate::calls::{called, called_and_viewed, called_only, rested, viewed};
use board_core::{Actor, Op};
use board_lock::{HartView, Receipt, Rest, Room, Seat, SharedBoard};
use sbi_abi::Regs;
use std::alloc::{AllocError, Global};
use std::sync::Wait;

/// How often each hart fences all, and the clock ticks.
const FENCES: u64 = 1;

/// Which seats make a call.
#[derive(Clone, Copy)]
pub enum Callers {
    All,
    /// The first harts.
    First(u64),
}

/// A call that seats make this often.
#[derive(Clone, Copy)]
pub struct RepeatedCall {
    pub callers: Callers,
    pub calls: u64,
    pub op: Op,
}

/// What each seat does.
#[derive(Clone, Copy)]
pub enum Work {
    /// It fences all harts, or ticks, and serves, until every seat rests.
    Fence,
    /// It rests until every rest is over. The clock ticks twice and calls for the end.
    Rest,
    /// It makes its calls, and keeps their receipts.
    Keep(RepeatedCall),
    /// It makes its calls, and drops their receipts.
    Repeat(RepeatedCall),
}

/// A seat that is back, with the receipts of its calls.
#[derive(Drop)]
pub struct Worked<K: Room> {
    pub seat: Seat<K>,
    pub receipts: Vec<Receipt<K>>,
}

/// A call of the firmware.
pub fn call(eid: u64, fid: u64, a: [u64; 6]) -> Op {
    Op::Ecall(Regs { eid, fid, a })
}

/// An IPI to all harts.
pub fn ipi() -> Op {
    call(0x735049, 0, [0, u64::MAX, 0, 0, 0, 0])
}

/// A hundred IPIs to all harts by each seat; the clock's are refused.
pub fn ipis() -> RepeatedCall {
    RepeatedCall {
        callers: Callers::All,
        calls: 100,
        op: ipi(),
    }
}

/// Does a seat's work. If there is no memory for its receipts, it ends the rests of the others.
pub fn do_work<K: Room, R: Wait>(
    rt: &R,
    alloc: Global,
    shared: &SharedBoard<K>,
    seat: Seat<K>,
    work: Work,
) -> Result<Worked<K>, AllocError> {
    let mut seat = seat;
    let mut receipts = Vec::new(alloc);
    match done(rt, shared, &mut seat, &mut receipts, work) {
        Ok(()) => Ok(Worked { seat, receipts }),
        Err(error) => {
            shared.end(rt);
            Err(error)
        }
    }
}

fn done<K: Room, R: Wait>(
    rt: &R,
    shared: &SharedBoard<K>,
    seat: &mut Seat<K>,
    receipts: &mut Vec<Receipt<K>>,
    work: Work,
) -> Result<(), AllocError> {
    match work {
        Work::Fence => return fence(rt, shared, seat, receipts),
        Work::Keep(todo) => return keep(rt, shared, seat, receipts, todo),
        Work::Rest if seat.actor() == Actor::Clock => end(rt, shared, seat),
        Work::Rest => rest(rt, shared, seat),
        Work::Repeat(todo) => repeat(rt, shared, seat, todo),
    }
    Ok(())
}

/// What a seat can do now, if anything, with this many fences or ticks left.
fn next(view: &HartView, left: u64) -> Option<Op> {
    let Some(hart) = view.hart else {
        return if left > 0 { Some(Op::Tick(1)) } else { None };
    };
    if hart.waiting > 0 {
        return Some(Op::Serve);
    }
    match hart.outstanding {
        Some(harts) if harts.is_empty() => Some(Op::Poll),
        Some(_) => None,
        None if left > 0 => Some(call(0x52464E43, 1, [0, u64::MAX, 0, 0, 0, 0])),
        None => None,
    }
}

/// Works until every seat rests.
fn fence<K: Room, R: Wait>(
    rt: &R,
    shared: &SharedBoard<K>,
    seat: &mut Seat<K>,
    receipts: &mut Vec<Receipt<K>>,
) -> Result<(), AllocError> {
    let mut left = FENCES;
    let mut view = viewed(rt, shared, seat);
    for _ in rt.forever() {
        let Some(op) = next(&view, left) else {
            if rested(rt, shared, seat, view.events) == Rest::AllRest {
                break;
            }
            view = viewed(rt, shared, seat);
            continue;
        };
        let Ok((receipt, after)) = called_and_viewed(rt, shared, seat, op) else {
            view = viewed(rt, shared, seat);
            continue;
        };
        if matches!(op, Op::Ecall(_) | Op::Tick(_)) {
            left = left.saturating_sub(1);
        }
        receipts.push(receipt)?;
        view = after;
    }
    Ok(())
}

/// Rests until every rest is over.
fn rest<K: Room, R: Wait>(rt: &R, shared: &SharedBoard<K>, seat: &mut Seat<K>) {
    for _ in rt.forever() {
        let seen = viewed(rt, shared, seat).events;
        if rested(rt, shared, seat, seen) == Rest::AllRest {
            break;
        }
    }
}

/// Makes two events, and calls for the end.
fn end<K: Room, R: Wait>(rt: &R, shared: &SharedBoard<K>, clock: &mut Seat<K>) {
    for _ in 0..2 {
        let _ = called_only(rt, shared, clock, Op::Tick(1));
    }
    shared.end(rt);
}

/// How often the actor makes the call.
fn calls_of(actor: Actor, todo: RepeatedCall) -> u64 {
    match (todo.callers, actor) {
        (Callers::All, _) => todo.calls,
        (Callers::First(harts), Actor::Hart(h)) if h < harts => todo.calls,
        (Callers::First(_), _) => 0,
    }
}

/// Makes its calls, and keeps their receipts.
fn keep<K: Room, R: Wait>(
    rt: &R,
    shared: &SharedBoard<K>,
    seat: &mut Seat<K>,
    receipts: &mut Vec<Receipt<K>>,
    todo: RepeatedCall,
) -> Result<(), AllocError> {
    for _ in 0..calls_of(seat.actor(), todo) {
        if let Ok(receipt) = called(rt, shared, seat, todo.op) {
            receipts.push(receipt)?;
        }
    }
    Ok(())
}

/// Makes its calls, and drops their receipts.
fn repeat<K: Room, R: Wait>(
    rt: &R,
    shared: &SharedBoard<K>,
    seat: &mut Seat<K>,
    todo: RepeatedCall,
) {
    for _ in 0..calls_of(seat.actor(), todo) {
        let _ = called_only(rt, shared, seat, todo.op);
    }
}
