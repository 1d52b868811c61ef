//! Closes with all seats, and before it closes that lack some.

ghost use Rattle.std.specs.Prelude.{◌≡◌};

use crate::calls::closed_board;
use crate::locks::seen::Why;
use board_lock::{NotAll, Record, Room, Seat, SharedBoard};
use std::alloc::AllocError;

/// A close that lacks a seat: board and seats are back.
fn refused<K: Room>(open: NotAll<K>) -> Result<NotAll<K>, Why>
    requires { K.all ≡ K.parts }
{
    match closed_board(open) {
        Ok(_) => Err(Why::Accepted),
        Err(not_all) => Ok(not_all),
    }
}

/// Moves the last seat of one to the end of the other.
fn hand<K: Room>(from: &mut Vec<Seat<K>>, to: &mut Vec<Seat<K>>) -> Result<(), Why> {
    match from.pop() {
        Some(seat) => to.push(seat).map_err(|_| Why::Memory(AllocError)),
        None => Err(Why::Seats),
    }
}

/// Closes that are refused while seats are missing; after each, the last missing seat is added. Returns how many seats came
/// back from the first three.
fn refusals<K: Room>(
    open: NotAll<K>,
    missing: &mut Vec<Seat<K>>,
) -> Result<(NotAll<K>, [usize; 3]), Why>
    requires { K.all ≡ K.parts }
{
    let mut open = open;
    let mut back = [0; 3];
    for turn in 0..missing.len() {
        open = refused(open)?;
        if let Some(count) = back.get_mut(turn) {
            *count = open.seats.len();
        }
        hand(missing, &mut open.seats)?;
    }
    Ok((open, back))
}

/// Closes that lack fewer and fewer of the last seats, and then the one with all: the record, and how many seats came back from
/// the first three refused ones.
pub fn closed<K: Room>(
    shared: SharedBoard<K>,
    seats: Vec<Seat<K>>,
    lacking: usize,
) -> Result<(Record<K>, [usize; 3]), Why>
    requires { K.all ≡ K.parts }
{
    let mut seats = seats;
    let given = seats.len().saturating_sub(lacking);
    let mut missing = seats.split_off(given)?;
    let open = NotAll {
        board: shared,
        seats,
    };
    let (open, back) = refusals(open, &mut missing)?;
    match closed_board(open) {
        Ok(record) => Ok((record, back)),
        Err(_) => Err(Why::Seats),
    }
}
