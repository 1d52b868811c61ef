//! Rows of boards behind a lock: real threads make calls by their seats, and keep their receipts.
//!
//! With the words `locks HARTS CALLS sip` or `locks HARTS CALLS ipi` it does no row: HARTS of eight harts each read sip CALLS
//! times, or send IPIs to all, and it prints how long that took (`bench/lock.py`). With the words `locks HARTS CALLS parts PARTS`
//! it does one row: HARTS harts each read sip CALLS times in each of PARTS parts of one board's history, which are split off.

ghost use Rattle.std.specs.Prelude.{◌≡◌};
ghost use Rattle.board_core.specs.Opening.{opening_at};

mod closing;
mod many;
mod parting;
mod record;
mod resting;
mod seen;
mod single;
mod splitting;
mod working;

use crate::calls::opened_board;
use crate::locks::closing::closed;
use crate::locks::parting::{Parts, go_on};
use crate::locks::seen::{Noted, Seen, Why};
use crate::locks::working::{Callers, RepeatedCall, Work, ipi, ipis};
use board_core::{Config, Op, USUAL_ASID_LEN, USUAL_WIDTH};
use board_lock::{NewRoom, Receipt, Room, Seat, SharedBoard};
use std::marker::Brand;
use std::rt::Env;
use std::sync::Wait;
use std::thread::Threads;
use std::time::Clock;
use std::{env, io};

/// What is done on a board.
#[derive(Clone, Copy, Debug)]
enum Row {
    LockReceipts,
    RecordSplit,
    SeatsMissing,
    IpiStorm,
    AllFence,
    EndOfRests,
    Repeat { harts: u64, calls: u64, op: Op },
}

/// Five parts of a board's history; the limit has room for one.
const PARTS: Parts = Parts {
    parts: 5,
    harts: 4,
    calls: 20,
};

/// The rows: the harts of a board, the limit of its history, and what is done on it.
const ROWS: [(u64, u64, Row); 10] = [
    (1, 10, Row::LockReceipts),
    (1, 10, Row::RecordSplit),
    (2, 3, Row::SeatsMissing),
    (8, 1000, Row::IpiStorm),
    (4, 10, Row::EndOfRests),
    (3, 10_000, Row::AllFence),
    (128, 100_000, Row::AllFence),
    (0, 1, Row::LockReceipts),
    (129, 1, Row::LockReceipts),
    (u64::MAX, 1, Row::LockReceipts),
];

/// Does what the words ask for.
pub fn show_locks<R: AllocGlobal + Clock + Env + Print + Threads + Wait + Sync>(
    rt: &R,
) -> io::Result<()> {
    let words = env::args(rt)?.collect::<Vec<String>>(rt.alloc())?;
    if let Some(todo) = parts_asked(&words) {
        return show_parts(rt, &board(8, 1_000_000), todo);
    }
    match asked(&words) {
        Some(row) => show(rt, &board(8, 1_000_000), row),
        None => show_rows(rt),
    }
}

/// The calls that the words ask for.
fn asked(words: &[String]) -> Option<Row> {
    let [_, _, harts, calls, op] = words else {
        return None;
    };
    let op = match op.as_str() {
        "sip" => Op::ReadSip,
        "ipi" => ipi(),
        _ => return None,
    };
    Some(Row::Repeat {
        harts: number(harts)?,
        calls: number(calls)?,
        op,
    })
}

fn number(word: &str) -> Option<u64> {
    word.parse().ok()
}

/// The parts that the words ask for.
fn parts_asked(words: &[String]) -> Option<Parts> {
    let [_, _, harts, calls, word, parts] = words else {
        return None;
    };
    if word.as_str() != "parts" {
        return None;
    }
    Some(Parts {
        parts: number(parts)?,
        harts: number(harts)?,
        calls: number(calls)?,
    })
}

fn show_rows<R: AllocGlobal + Clock + Print + Threads + Wait + Sync>(rt: &R) -> io::Result<()> {
    for (harts, limit, row) in ROWS {
        show(rt, &board(harts, limit), row)?;
    }
    show_parts(rt, &board(4, 100), PARTS)
}

/// A board of one page, whose hart 0 is the boot hart.
fn board(harts: u64, limit: u64) -> Config {
    Config {
        harts,
        pages: 1,
        limit,
        boot_hart: 0,
        boot_addr: 0x8000_0000,
        boot_opaque: 0,
        asid_len: USUAL_ASID_LEN,
        width: USUAL_WIDTH,
    }
}

/// Does the row on a board, and prints what was seen.
fn show<R: AllocGlobal + Clock + Print + Threads + Wait + Sync>(
    rt: &R,
    config: &Config,
    row: Row,
) -> io::Result<()> {
    match done(rt, config, row) {
        Ok(seen) => println!(rt; "{row:?} on {} harts: {seen:?}", config.harts),
        Err(why) => println!(rt; "{row:?} on {} harts: {why}", config.harts),
    }
}

/// A board goes on for this many parts. Prints what was seen.
fn show_parts<R: AllocGlobal + Print + Threads + Wait + Sync>(
    rt: &R,
    config: &Config,
    todo: Parts,
) -> io::Result<()> {
    match go_on(rt, config, todo) {
        Ok(seen) => println!(rt; "{} parts on {} harts: {seen:?}", todo.parts, config.harts),
        Err(why) => println!(rt; "{} parts on {} harts: {why}", todo.parts, config.harts),
    }
}

/// Opens a board behind a lock, in a room of its own, and does the row on it.
fn done<R: AllocGlobal + Clock + Threads + Wait + Sync>(
    rt: &R,
    config: &Config,
    row: Row,
) -> Result<Seen, Why> {
    in_room::<Brand, R>(rt, NewRoom::new(config), config, row)
}

/// Does the row on the board of this room.
fn in_room<K: Room + Send + Sync, R: AllocGlobal + Clock + Threads + Wait + Sync>(
    rt: &R,
    room: NewRoom,
    config: &Config,
    row: Row,
) -> Result<Seen, Why>
    requires room { (K.opening ≡ opening_at room.config) × (room.log ≡ K.log) }
    requires ledger { (room.ledger ≡ K.name) × (room.parts ≡ K.parts) × (K.all ≡ K.parts) }
{
    let (shared, seats) = opened_board::<K>(rt.alloc(), room)?;
    do_row(rt, shared, seats, config, row)
}

/// Does the row, and closes its board.
fn do_row<K: Room + Send + Sync, R: AllocGlobal + Clock + Threads + Wait + Sync>(
    rt: &R,
    shared: SharedBoard<K>,
    seats: Vec<Seat<K>>,
    config: &Config,
    row: Row,
) -> Result<Seen, Why>
    requires { K.all ≡ K.parts }
{
    let mut seats = seats;
    let mut receipts = Vec::new(rt.alloc());
    let noted = work(rt, &shared, &mut seats, &mut receipts, row)?;
    end(rt, config, shared, seats, &receipts, &noted)
}

/// What comes before the close.
fn work<K: Room + Send + Sync, R: AllocGlobal + Clock + Threads + Wait + Sync>(
    rt: &R,
    shared: &SharedBoard<K>,
    seats: &mut Vec<Seat<K>>,
    receipts: &mut Vec<Receipt<K>>,
    row: Row,
) -> Result<Noted, Why> {
    match row {
        Row::LockReceipts => single::calls(rt, shared, seats, receipts),
        Row::RecordSplit => {
            single::calls(rt, shared, seats, receipts)?;
            Ok(Noted::Split)
        }
        Row::SeatsMissing => Ok(Noted::Closes),
        Row::IpiStorm => many::storm(rt, shared, seats, receipts, Work::Keep(ipis())),
        Row::AllFence => many::storm(rt, shared, seats, receipts, Work::Fence),
        Row::EndOfRests => resting::rests(rt, shared, seats, receipts),
        Row::Repeat { harts, calls, op } => {
            let callers = Callers::First(harts);
            let todo = Work::Repeat(RepeatedCall { callers, calls, op });
            many::timed(rt, shared, seats, receipts, todo)
        }
    }
}

/// The close, and what the record says.
fn end<K: Room, R: AllocGlobal + Wait>(
    rt: &R,
    config: &Config,
    shared: SharedBoard<K>,
    seats: Vec<Seat<K>>,
    receipts: &[Receipt<K>],
    noted: &Noted,
) -> Result<Seen, Why>
    requires { K.all ≡ K.parts }
{
    let (record, back) = closed(shared, seats, noted.lacking())?;
    Seen::of(rt, config, record, receipts, noted, back)
}
