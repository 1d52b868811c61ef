//! Every hart and the clock on a thread of its own.

use crate::calls::called_only;
use crate::locks::seen::{Noted, Why};
use crate::locks::working::{Work, Worked, call, do_work};
use board_core::{Actor, Op, Refusal};
use board_lock::{Receipt, Room, Seat, SharedBoard};
use std::alloc::AllocError;
use std::sync::Wait;
use std::thread::{JoinHandle, Threads};
use std::time::{Clock, Instant};
use std::{mem, thread};

/// Starts all harts: hart 0 by its pending start, and it the others. The last seat is the clock's.
fn start<K: Room, R: Wait>(
    rt: &R,
    shared: &SharedBoard<K>,
    seats: &mut [Seat<K>],
) -> Result<(), Refusal> {
    let Some((boot, others)) = seats.split_first_mut() else {
        return Ok(());
    };
    called_only(rt, shared, boot, Op::Advance)?;
    for seat in others {
        if let Actor::Hart(hart) = seat.actor() {
            let start = call(0x48534D, 0, [hart, 0x8000_0000, 0, 0, 0, 0]);
            called_only(rt, shared, boot, start)?;
            called_only(rt, shared, seat, Op::Advance)?;
        }
    }
    Ok(())
}

/// Puts back a seat, and its receipts.
fn put<K: Room>(
    worked: Result<Worked<K>, AllocError>,
    seats: &mut Vec<Seat<K>>,
    receipts: &mut Vec<Receipt<K>>,
) -> Result<(), AllocError> {
    let mut worked = worked?;
    receipts.append(&mut worked.receipts)?;
    seats.push(worked.seat)?;
    Ok(())
}

/// Waits for the threads, and puts back the seats, and the receipts of all.
fn gather<K: Room, R: Threads>(
    rt: &R,
    threads: Vec<JoinHandle<Result<Worked<K>, AllocError>>>,
    seats: &mut Vec<Seat<K>>,
    receipts: &mut Vec<Receipt<K>>,
) -> Result<(), AllocError> {
    for thread in threads {
        put(thread.join(rt), seats, receipts)?;
    }
    Ok(())
}

/// Each seat works on a thread of its own. Where a thread is refused, or memory for its handle, the rests of those that run are
/// ended, and so they come to their end.
pub fn at_once<K: Room + Send + Sync, R: AllocGlobal + Threads + Wait + Sync>(
    rt: &R,
    shared: &SharedBoard<K>,
    seats: &mut Vec<Seat<K>>,
    receipts: &mut Vec<Receipt<K>>,
    todo: Work,
) -> Result<(), Why> {
    let alloc = rt.alloc();
    let all = mem::replace(seats, Vec::new(alloc));
    thread::scope(thread::scope_env(), rt, |scope| -> Result<(), Why> {
        let mut threads = Vec::new(alloc);
        for seat in all {
            let Ok(thread) = scope.spawn(move || do_work(rt, alloc, shared, seat, todo)) else {
                shared.end(rt);
                return Err(Why::Thread);
            };
            if threads.push(thread).is_err() {
                shared.end(rt);
                return Err(Why::Memory(AllocError));
            }
        }
        Ok(gather(rt, threads, seats, receipts)?)
    })
}

/// The same, where all harts are started first.
pub fn storm<K: Room + Send + Sync, R: AllocGlobal + Threads + Wait + Sync>(
    rt: &R,
    shared: &SharedBoard<K>,
    seats: &mut Vec<Seat<K>>,
    receipts: &mut Vec<Receipt<K>>,
    todo: Work,
) -> Result<Noted, Why> {
    start(rt, shared, seats)?;
    at_once(rt, shared, seats, receipts, todo)?;
    Ok(Noted::Receipts)
}

fn now<R: Clock>(rt: &R) -> Result<Instant, Why> {
    match Instant::now(rt) {
        Ok(now) => Ok(now),
        Err(_) => Err(Why::Clock),
    }
}

/// All harts are started, and then work: how long that took, from before the first thread is started until after the last
/// has ended.
pub fn timed<K: Room + Send + Sync, R: AllocGlobal + Clock + Threads + Wait + Sync>(
    rt: &R,
    shared: &SharedBoard<K>,
    seats: &mut Vec<Seat<K>>,
    receipts: &mut Vec<Receipt<K>>,
    todo: Work,
) -> Result<Noted, Why> {
    start(rt, shared, seats)?;
    let began = now(rt)?;
    at_once(rt, shared, seats, receipts, todo)?;
    Ok(Noted::Nanoseconds(now(rt)?.duration_since(began).as_nanos()))
}
