//! Rests that end: after another event, and when the end is called.

use crate::calls::rested;
use crate::locks::many::at_once;
use crate::locks::seen::{Noted, Why};
use crate::locks::working::Work;
use board_lock::{Receipt, Rest, Room, Seat, SharedBoard};
use std::sync::Wait;
use std::thread::Threads;

/// A rest of the clock, which has seen this many events.
fn rest<K: Room, R: Wait>(
    rt: &R,
    shared: &SharedBoard<K>,
    seats: &mut [Seat<K>],
    seen: u64,
) -> Result<Rest, Why> {
    match seats.last_mut() {
        Some(clock) => Ok(rested(rt, shared, clock, seen)),
        None => Err(Why::Seats),
    }
}

/// The harts rest on threads of their own, and the clock ends their rests: what a rest of the clock before, and two after it
/// were told.
pub fn rests<K: Room + Send + Sync, R: AllocGlobal + Threads + Wait + Sync>(
    rt: &R,
    shared: &SharedBoard<K>,
    seats: &mut Vec<Seat<K>>,
    receipts: &mut Vec<Receipt<K>>,
) -> Result<Noted, Why> {
    let changed = rest(rt, shared, seats, 1)?;
    at_once(rt, shared, seats, receipts, Work::Rest)?;
    let over = rest(rt, shared, seats, 0)?;
    let stays = rest(rt, shared, seats, 2)?;
    Ok(Noted::Rests([changed, over, stays]))
}
