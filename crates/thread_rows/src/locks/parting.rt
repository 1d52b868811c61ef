//! A board that goes on as long as wanted: it is behind one lock after another, and each part of its history is split off.

ghost use Rattle.std.specs.Prelude.{◌≡◌, [], IfOk};

use crate::calls::{adopted_board, fresh_board, looked_up_in_past};
use crate::locks::closing::closed;
use crate::locks::many::{at_once, storm};
use crate::locks::record::{split, tells};
use crate::locks::seen::{Seen, Why};
use crate::locks::working::{Callers, RepeatedCall, Work};
use board_core::{Board, Config, Op};
use board_lock::{NewRoom, Past, Receipt, Room, Seat, SharedBoard};
use std::marker::Brand;
use std::sync::Wait;
use std::thread::Threads;

/// How many parts there are, and in each how many harts read sip how often.
#[derive(Clone, Copy, Debug)]
pub struct Parts {
    pub parts: u64,
    pub harts: u64,
    pub calls: u64,
}

/// A new board goes on for this many parts.
pub fn go_on<R: AllocGlobal + Threads + Wait + Sync>(
    rt: &R,
    config: &Config,
    todo: Parts,
) -> Result<Seen, Why> {
    let mut board = fresh_board(rt.alloc(), config)?;
    let mut looks = 0;
    for _ in 0..todo.parts {
        let (left, found) = next_part(rt, board, todo)?;
        board = left;
        looks = found.saturating_add(looks);
    }
    Ok(Seen::Parts {
        events: board.place(),
        kept: board.history().len(),
        looks,
    })
}

/// The next part of the board's history, in a room of its own: the board after it, and how many receipts were looked up.
fn next_part<R: AllocGlobal + Threads + Wait + Sync>(
    rt: &R,
    board: Board,
    todo: Parts,
) -> Result<(Board, usize), Why>
    requires { board.past ≡ [] }
    ensures { IfOk result (λ r. r.0.past ≡ []) }
{
    in_room::<Brand, R>(rt, NewRoom::new(board.config()), board, todo)
}

/// The same in this room.
fn in_room<K: Room + Send + Sync, R: AllocGlobal + Threads + Wait + Sync>(
    rt: &R,
    room: NewRoom,
    board: Board,
    todo: Parts,
) -> Result<(Board, usize), Why>
    requires board { (board.opening ≡ K.opening) × (board.past ≡ []) }
    requires room { (room.config ≡ K.opening.config) × (room.log ≡ K.log) }
    requires ledger { (room.ledger ≡ K.name) × (room.parts ≡ K.parts) × (K.all ≡ K.parts) }
    ensures { IfOk result (λ r. r.0.past ≡ []) }
{
    let is_new = board.places() == 0;
    match adopted_board::<K>(rt.alloc(), room, board) {
        Ok((shared, seats)) => part(rt, shared, seats, is_new, todo),
        Err((_, fault)) => Err(Why::Board(fault)),
    }
}

/// All harts work, the lock is closed, and its record split.
fn part<K: Room + Send + Sync, R: AllocGlobal + Threads + Wait + Sync>(
    rt: &R,
    shared: SharedBoard<K>,
    seats: Vec<Seat<K>>,
    is_new: bool,
    todo: Parts,
) -> Result<(Board, usize), Why>
    requires { K.all ≡ K.parts }
    ensures { IfOk result (λ r. r.0.past ≡ []) }
{
    let mut seats = seats;
    let mut receipts = Vec::new(rt.alloc());
    work(rt, &shared, &mut seats, &mut receipts, is_new, todo)?;
    let (record, _) = closed(shared, seats, 0)?;
    let (past, board) = split(rt.alloc(), record)?;
    looked(&past, board, &receipts)
}

/// All harts work, which on a new board are started first.
fn work<K: Room + Send + Sync, R: AllocGlobal + Threads + Wait + Sync>(
    rt: &R,
    shared: &SharedBoard<K>,
    seats: &mut Vec<Seat<K>>,
    receipts: &mut Vec<Receipt<K>>,
    is_new: bool,
    todo: Parts,
) -> Result<(), Why> {
    let work = Work::Keep(RepeatedCall {
        callers: Callers::First(todo.harts),
        calls: todo.calls,
        op: Op::ReadSip,
    });
    if !is_new {
        return at_once(rt, shared, seats, receipts, work);
    }
    storm(rt, shared, seats, receipts, work)?;
    Ok(())
}

/// The board after a part whose receipts are looked up.
fn looked<K: Room>(
    past: &Past<K>,
    board: Board,
    receipts: &[Receipt<K>],
) -> Result<(Board, usize), Why>
    ensures { IfOk result (λ r. r.0.past ≡ board.past) }
{
    let found = looks(past, receipts)?;
    Ok((board, found))
}

/// Looks each receipt up in its part: how many there were.
fn looks<K: Room>(past: &Past<K>, receipts: &[Receipt<K>]) -> Result<usize, Why> {
    for receipt in receipts {
        let event = looked_up_in_past(past, receipt);
        let index = receipt.place().saturating_sub(past.opening().places());
        if !tells(receipt, event) || past.events().get(index as usize) != Some(event) {
            return Err(Why::Receipt);
        }
    }
    Ok(receipts.len())
}
