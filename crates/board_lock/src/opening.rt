//! Putting a board behind a lock, with new seats.
ghost use Rattle.std.specs.Prelude.{◌≡◌, ◌+◌, ◌<◌, ◌≤◌, [], IfErr, IfOk, OnOk, false, replicate};
ghost use Rattle.board_terms.specs.declared.config.BuildFault.TheVariants.{NoMemory};
ghost use Rattle.board_terms.specs.Limits.{IsGood};
ghost use Rattle.board_lock.specs.Events.{IsActor};
ghost use Rattle.board_lock.specs.Inside.Rests.{held, none_rest};
ghost use Rattle.board_lock.specs.Seats.{new_seats, sitting};

use crate::desk::Desk;
use crate::rests::Rests;
use crate::rooms::{NewRoom, Room};
use crate::seats::Seat;
use board_core::{Actor, Board, BuildFault, Event};
use ghost_log::Log;
use std::alloc::{AllocError, Global};
use std::sync::ledger::Share;

/// What the lock of a board with an empty history protects, and new seats. No seat rests, and no end was asked for.
///
/// # Errors
///
/// Out of memory. It returns the board.
pub(crate) fn open_desk<K: Room>(
    alloc: Global,
    room: NewRoom,
    board: Board,
) -> Result<(Desk<K>, Vec<Seat<K>>), (Board, BuildFault)>
    requires board { (board.opening ≡ K.opening) × (board.past ≡ []) }
    requires room { (room.config ≡ K.opening.config) × (room.log ≡ K.log) }
    requires ledger { (room.ledger ≡ K.name) × (room.parts ≡ K.parts) × (K.all ≡ K.parts) }
    requires good { IsGood K.opening.config }
    ensures desk { IfOk result (λ r. r.0 ≡ held board none_rest false) }
    ensures seats { IfOk result (λ r. r.1.items ≡ new_seats K.opening.config) }
    ensures all { K.all ≡ K.opening.config.harts + 1 }
    ensures back { IfErr result (λ e. (e.0 ≡ board) × (e.1 ≡ NoMemory)) }
{
    let NewRoom {
        config,
        ledger,
        mut log,
    } = room;
    let (book, mut left) = ledger.open::<K>();
    let Ok(counts) = zeros(alloc, config.harts as usize + 1) else {
        return Err((board, BuildFault::NoMemory));
    };
    let Ok(seats) = seats(alloc, config.harts, &mut left, &mut log) else {
        return Err((board, BuildFault::NoMemory));
    };
    let desk = Desk {
        board,
        counts,
        rests: Rests::new(),
        ended: false,
        book,
        left,
        log,
    };
    Ok((desk, seats))
}

/// A count of 0 for each actor.
fn zeros(alloc: Global, len: usize) -> Result<Vec<u64>, AllocError>
    ensures { IfOk result (λ v. v.items ≡ replicate len 0) }
{
    vec![in alloc; 0; len]
}

/// The seats of a board with an empty history.
///
/// # Errors
///
/// Out of memory.
fn seats<K: Room>(
    alloc: Global,
    harts: u64,
    left: &mut Share<K>,
    log: &mut Log<Event>,
) -> Result<Vec<Seat<K>>, AllocError>
    requires harts { (harts ≡ K.opening.config.harts) × (harts ≤ 128) }
    requires parts { (left.old.parts ≡ harts + 1) × (left.old.amount ≡ 0) }
    requires log { (log.old.name ≡ K.log) × (log.old.list ≡ []) }
    ensures seats { IfOk result (λ v. v.items ≡ new_seats K.opening.config) }
    ensures left { OnOk result ((left.new.parts ≡ 0) × (left.new.amount ≡ 0)) }
    ensures log { log.new ≡ log.old }
{
    let mut seats = Vec::with_capacity(alloc, harts as usize + 1)?;
    for h in 0..harts {
        seats.push(seat(Actor::Hart(h), left, log))?;
    }
    seats.push(seat(Actor::Clock, left, log))?;
    Ok(seats)
}

/// The seat of an actor that has made no call.
fn seat<K: Room>(actor: Actor, left: &mut Share<K>, log: &mut Log<Event>) -> Seat<K>
    requires acting { IsActor K.opening.config actor }
    requires part { (0 < left.old.parts) × (left.old.amount ≡ 0) }
    requires log { (log.old.name ≡ K.log) × (log.old.list ≡ []) }
    ensures seat { result ≡ sitting actor 0 [] [] }
    ensures left { (left.new.parts + 1 ≡ left.old.parts) × (left.new.amount ≡ 0) }
    ensures log { log.new ≡ log.old }
{
    Seat {
        actor,
        count: 0,
        share: left.split_off(1, 0),
        seen: log.prefix(),
        saw: log.prefix(),
    }
}
