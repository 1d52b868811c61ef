//! Row record-split: a record is split, and its board goes on behind another lock.

ghost use Rattle.std.specs.Prelude.{◌≡◌, []};

use crate::calls::{adopted_board, called, looked_up, looked_up_in_past};
use crate::locks::closing::closed;
use crate::locks::record::split;
use crate::locks::seen::{Found, Left, Seen, Told, Why};
use board_core::{Board, Op};
use board_lock::{NewRoom, Past, Receipt, Record, Room, Seat, SharedBoard};
use std::marker::Brand;
use std::sync::Wait;

/// What the past of a record has, what is left of its board, and the answer to a call on that board.
pub fn seen<K: Room, R: AllocGlobal + Wait>(
    rt: &R,
    record: Record<K>,
    receipts: &[Receipt<K>],
) -> Result<Seen, Why> {
    let (past, board) = split(rt.alloc(), record)?;
    of_parts(rt, &past, board, receipts)
}

/// The same of the two parts of a record.
fn of_parts<K: Room, R: AllocGlobal + Wait>(
    rt: &R,
    past: &Past<K>,
    board: Board,
    receipts: &[Receipt<K>],
) -> Result<Seen, Why>
    requires { board.past ≡ [] }
{
    let found = found(past, receipts)?;
    let left = Left::of(&board);
    let (seats, told) = again(rt, board)?;
    Ok(Seen::Split(found, left, seats, told))
}

/// What the past finds by the last receipt.
fn found<K: Room>(past: &Past<K>, receipts: &[Receipt<K>]) -> Result<Found, Why> {
    let Some(receipt) = receipts.last() else {
        return Err(Why::Receipt);
    };
    Ok(Found::of(past.events(), looked_up_in_past(past, receipt)))
}

/// Puts the board behind a lock again, in a room of its own: how many seats it has there, and the answer to a call by the
/// first.
fn again<R: AllocGlobal + Wait>(rt: &R, board: Board) -> Result<(usize, Told), Why>
    requires { board.past ≡ [] }
{
    in_room::<Brand, R>(rt, NewRoom::new(board.config()), board)
}

/// The same in this room.
fn in_room<K: Room, R: AllocGlobal + Wait>(
    rt: &R,
    room: NewRoom,
    board: Board,
) -> Result<(usize, Told), Why>
    requires board { (board.opening ≡ K.opening) × (board.past ≡ []) }
    requires room { (room.config ≡ K.opening.config) × (room.log ≡ K.log) }
    requires ledger { (room.ledger ≡ K.name) × (room.parts ≡ K.parts) × (K.all ≡ K.parts) }
{
    match adopted_board::<K>(rt.alloc(), room, board) {
        Ok((shared, seats)) => called_again(rt, shared, seats),
        Err((_, fault)) => Err(Why::Board(fault)),
    }
}

/// A call by the first seat, whose receipt is looked up: how many seats there are, and the answer.
fn called_again<K: Room, R: Wait>(
    rt: &R,
    shared: SharedBoard<K>,
    seats: Vec<Seat<K>>,
) -> Result<(usize, Told), Why>
    requires { K.all ≡ K.parts }
{
    let mut seats = seats;
    let many = seats.len();
    let receipt = call_first(rt, &shared, &mut seats)?;
    let (record, _) = closed(shared, seats, 0)?;
    answer(&record, &receipt, many)
}

fn answer<K: Room>(
    record: &Record<K>,
    receipt: &Receipt<K>,
    many: usize,
) -> Result<(usize, Told), Why> {
    if looked_up(record, receipt).reply() == receipt.reply() {
        Ok((many, Told::of(receipt)))
    } else {
        Err(Why::Receipt)
    }
}

fn call_first<K: Room, R: Wait>(
    rt: &R,
    shared: &SharedBoard<K>,
    seats: &mut [Seat<K>],
) -> Result<Receipt<K>, Why> {
    match seats.first_mut() {
        Some(hart) => Ok(called(rt, shared, hart, Op::ReadSip)?),
        None => Err(Why::Seats),
    }
}
