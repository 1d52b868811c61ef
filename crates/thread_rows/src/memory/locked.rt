//! Boards that come behind a lock, and records that are split.
ghost use Rattle.std.specs.Prelude.{◌≡◌, [], IfSome};
ghost use Rattle.board_core.specs.Opening.{opening_at};

use crate::calls::{adopted_board, called, closed_board, looked_up, opened_board, parted};
use crate::memory::boards::{CONFIG, busy, segment};
use crate::memory::telling::{begin, is_made, show, tell};
use board_core::{Board, BuildFault, Op};
use board_lock::{NewRoom, NotAll, Past, Receipt, Record, Room, Seat, SharedBoard};
use std::marker::Brand;
use std::sync::Wait;

const OPEN: &str = "SharedBoard::open";

const ADOPT: &str = "SharedBoard::adopt";

const SPLIT: &str = "Record::split";

/// Opens a board, and again if an allocation failed; then splits its record.
pub fn open<R: AllocGlobal + Print + Wait>(rt: &R) {
    for _ in 0..2 {
        if is_open::<Brand, R>(rt, NewRoom::new(&CONFIG)) {
            break;
        }
    }
}

/// Opens a board in this room, and returns whether there was memory. Then its record is split.
fn is_open<K: Room, R: AllocGlobal + Print + Wait>(rt: &R, room: NewRoom) -> bool
    requires room { (K.opening ≡ opening_at room.config) × (room.log ≡ K.log) }
    requires ledger { (room.ledger ≡ K.name) × (room.parts ≡ K.parts) × (K.all ≡ K.parts) }
{
    begin(rt, OPEN);
    match opened_board::<K>(rt.alloc(), room) {
        Ok((shared, seats)) => {
            tell_seats(rt, OPEN, &seats);
            split(rt, shared, seats);
            true
        }
        Err(fault) => tell_fault(rt, OPEN, fault),
    }
}

fn tell_seats<K: Room, R: Print>(rt: &R, call: &str, seats: &[Seat<K>]) {
    is_made(rt, call, &Result::<usize, BuildFault>::Ok(seats.len()));
}

fn tell_fault<R: Print>(rt: &R, call: &str, fault: BuildFault) -> bool {
    is_made(rt, call, &Result::<usize, BuildFault>::Err(fault))
}

/// Makes a call by the first seat, closes the board, and splits its record.
fn split<K: Room, R: AllocGlobal + Print + Wait>(
    rt: &R,
    shared: SharedBoard<K>,
    seats: Vec<Seat<K>>,
)
    requires { K.all ≡ K.parts }
{
    let mut seats = seats;
    let receipt = first_call(rt, &shared, &mut seats);
    let open = NotAll {
        board: shared,
        seats,
    };
    if let (Ok(record), Some(receipt)) = (closed_board(open), receipt) {
        split_twice(rt, record, &receipt);
    }
}

fn first_call<K: Room, R: Wait>(
    rt: &R,
    shared: &SharedBoard<K>,
    seats: &mut [Seat<K>],
) -> Option<Receipt<K>> {
    called(rt, shared, seats.first_mut()?, Op::Advance).ok()
}

/// Splits a record, and again where memory was refused.
fn split_twice<K: Room, R: AllocGlobal + Print>(rt: &R, record: Record<K>, receipt: &Receipt<K>) {
    if let Some(record) = not_split(rt, record, receipt) {
        not_split(rt, record, receipt);
    }
}

/// Splits a record: the record, where memory was refused.
fn not_split<K: Room, R: AllocGlobal + Print>(
    rt: &R,
    record: Record<K>,
    receipt: &Receipt<K>,
) -> Option<Record<K>> {
    show(rt, SPLIT, record.board());
    tell(rt, SPLIT, &looked_up(&record, receipt).reply());
    begin(rt, SPLIT);
    match parted(rt.alloc(), record) {
        Ok((past, board)) => {
            tell_parts(rt, &past, &board);
            None
        }
        Err((record, fault)) => {
            tell_fault(rt, SPLIT, fault);
            Some(record)
        }
    }
}

fn tell_parts<K: Room, R: Print>(rt: &R, past: &Past<K>, board: &Board) {
    let parts = (past.events().len(), board.places());
    is_made(rt, SPLIT, &Result::<(usize, u64), BuildFault>::Ok(parts));
}

/// Puts a board whose history was cut behind a lock, and again if an allocation failed.
pub fn adopt<R: AllocGlobal + Print>(rt: &R) {
    if let Some(mut board) = busy(rt.alloc()) {
        if segment(rt.alloc(), &mut board).is_ok() {
            adopt_twice(rt, board);
        }
    }
}

fn adopt_twice<R: AllocGlobal + Print>(rt: &R, board: Board)
    requires { board.past ≡ [] }
{
    if let Some(board) = not_adopted(rt, board) {
        not_adopted(rt, board);
    }
}

/// Puts a board behind a lock. Returns the board if an allocation failed.
fn not_adopted<R: AllocGlobal + Print>(rt: &R, board: Board) -> Option<Board>
    requires { board.past ≡ [] }
    ensures { IfSome result (λ b. b.past ≡ []) }
{
    show(rt, ADOPT, &board);
    not_adopted_in::<Brand, R>(rt, NewRoom::new(board.config()), board)
}

/// The same in this room.
fn not_adopted_in<K: Room, R: AllocGlobal + Print>(
    rt: &R,
    room: NewRoom,
    board: Board,
) -> Option<Board>
    requires board { (board.opening ≡ K.opening) × (board.past ≡ []) }
    requires room { (room.config ≡ K.opening.config) × (room.log ≡ K.log) }
    requires ledger { (room.ledger ≡ K.name) × (room.parts ≡ K.parts) × (K.all ≡ K.parts) }
    ensures { IfSome result (λ b. b.past ≡ []) }
{
    begin(rt, ADOPT);
    match adopted_board::<K>(rt.alloc(), room, board) {
        Ok((_, seats)) => {
            tell_seats(rt, ADOPT, &seats);
            None
        }
        Err((board, fault)) => {
            tell_fault(rt, ADOPT, fault);
            Some(board)
        }
    }
}
