//! Row lock-receipts: what the receipts of one thread say, and the look of a receipt.

use crate::calls::{called_and_viewed, looked_up};
use crate::locks::record::events_of;
use crate::locks::seen::{Noted, Seen, Told, Why};
use board_core::{Actor, Op, Refusal};
use board_lock::{HartView, Receipt, Record, Room, Seat, SharedBoard};
use std::alloc::AllocError;
use std::sync::Wait;

/// A call that is accepted, its receipt kept, and the view that comes with it.
fn accepted<K: Room, R: Wait>(
    rt: &R,
    shared: &SharedBoard<K>,
    seat: &mut Seat<K>,
    receipts: &mut Vec<Receipt<K>>,
    op: Op,
) -> Result<HartView, Why> {
    let (receipt, view) = called_and_viewed(rt, shared, seat, op)?;
    match receipts.push(receipt) {
        Ok(()) => Ok(view),
        Err(_) => Err(Why::Memory(AllocError)),
    }
}

/// A poll outside of a call, which is refused.
fn refused<K: Room, R: Wait>(
    rt: &R,
    shared: &SharedBoard<K>,
    hart: &mut Seat<K>,
) -> Result<Refusal, Why> {
    match called_and_viewed(rt, shared, hart, Op::Poll) {
        Ok(_) => Err(Why::Accepted),
        Err(refusal) => Ok(refusal),
    }
}

/// Three calls of a hart and the clock by one thread, and one that is refused. The board has one hart.
pub fn calls<K: Room, R: Wait>(
    rt: &R,
    shared: &SharedBoard<K>,
    seats: &mut [Seat<K>],
    receipts: &mut Vec<Receipt<K>>,
) -> Result<Noted, Why> {
    let Some((clock, harts)) = seats.split_last_mut() else {
        return Err(Why::Seats);
    };
    let Some(hart) = harts.first_mut() else {
        return Err(Why::Seats);
    };
    let views = [
        accepted(rt, shared, hart, receipts, Op::Advance)?,
        accepted(rt, shared, clock, receipts, Op::Tick(3))?,
        accepted(rt, shared, hart, receipts, Op::ReadSip)?,
    ];
    Ok(Noted::Single(views, refused(rt, shared, hart)?))
}

/// What the receipts and the record say of the calls, and what the look of the last receipt finds.
pub fn seen<K: Room>(
    record: &Record<K>,
    receipts: &[Receipt<K>],
    views: &[HartView; 3],
    refusal: Refusal,
) -> Result<Seen, Why> {
    let [first, second, third] = receipts else {
        return Err(Why::Receipt);
    };
    let event = looked_up(record, third);
    let told = [Told::of(first), Told::of(second), Told::of(third)];
    let of_hart = events_of(record.events(), Actor::Hart(0));
    let of_clock = events_of(record.events(), Actor::Clock);
    let found = (event.actor(), event.op(), event.reply());
    Ok(Seen::Single(
        told,
        [views[0], views[1], views[2]],
        refusal,
        of_hart,
        of_clock,
        found,
    ))
}
