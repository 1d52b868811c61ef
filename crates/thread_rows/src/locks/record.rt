//! What a record must say, whatever the schedule was.

ghost use Rattle.std.specs.Prelude.{◌≡◌, [], IfOk};

use crate::calls::{fresh_board, looked_up, parted, step};
use crate::locks::seen::Why;
use board_core::{Actor, Board, BuildFault, Config, Event};
use board_lock::{Past, Receipt, Record, Room};
use std::alloc::{AllocError, Global};

/// How many of the events are the actor's.
pub fn events_of(events: &[Event], actor: Actor) -> usize {
    events.iter().filter(|event| event.actor() == actor).count()
}

/// Where the actor's count stands.
fn number(actor: Actor) -> usize {
    match actor {
        Actor::Hart(h) => h as usize,
        Actor::Clock => 128,
    }
}

/// For each event, how many events its actor has before it.
fn ordinals(alloc: Global, events: &[Event]) -> Result<Vec<u64>, AllocError> {
    let mut counts = [0u64; 129];
    let mut ordinals = Vec::with_capacity(alloc, events.len())?;
    for event in events {
        if let Some(count) = counts.get_mut(number(event.actor())) {
            ordinals.push(*count)?;
            *count = count.saturating_add(1);
        }
    }
    Ok(ordinals)
}

/// The past that a record leaves, and its board.
pub fn split<K: Room>(alloc: Global, record: Record<K>) -> Result<(Past<K>, Board), Why>
    ensures { IfOk result (λ r. r.1.past ≡ []) }
{
    match parted(alloc, record) {
        Ok((past, board)) => Ok((past, board)),
        Err((_, fault)) => Err(Why::Board(fault)),
    }
}

/// Whether an event is what the receipt says.
pub fn tells<K: Room>(receipt: &Receipt<K>, event: &Event) -> bool {
    event.actor() == receipt.actor()
        && event.op() == receipt.op()
        && event.reply() == receipt.reply()
}

/// Whether the receipt's event is what it says, and stands where it says.
fn stands<K: Room>(record: &Record<K>, ordinals: &[u64], receipt: &Receipt<K>) -> bool {
    let event = looked_up(record, receipt);
    let place = receipt.place() as usize;
    tells(receipt, event)
        && record.events().get(place) == Some(event)
        && ordinals.get(place) == Some(&receipt.ordinal())
}

/// Whether the board makes the same steps with the same replies.
fn steps_again(board: &mut Board, events: &[Event]) -> bool {
    for event in events {
        if step(board, event.actor(), event.op()) != Ok(event.reply()) {
            return false;
        }
    }
    true
}

/// Whether one thread that makes the same steps on a new board gets the same events.
fn is_replayed(alloc: Global, config: &Config, events: &[Event]) -> Result<bool, BuildFault> {
    let mut board = fresh_board(alloc, config)?;
    Ok(steps_again(&mut board, events) && board.history() == events)
}

/// Looks each receipt up, and replays the record by one thread.
pub fn check<K: Room>(
    alloc: Global,
    config: &Config,
    record: &Record<K>,
    receipts: &[Receipt<K>],
) -> Result<(), Why> {
    let ordinals = ordinals(alloc, record.events())?;
    for receipt in receipts {
        if !stands(record, &ordinals, receipt) {
            return Err(Why::Receipt);
        }
    }
    if is_replayed(alloc, config, record.events())? {
        Ok(())
    } else {
        Err(Why::Replies)
    }
}
