//! Calls of the libraries that many rows make, each at one place: a row needs little of what they promise.

ghost use Rattle.std.specs.Prelude.{◌≡◌, [], IfErr, IfOk};
ghost use Rattle.board_core.specs.Opening.{opening_at};

use board_core::{Actor, Board, BuildFault, Config, Event, Op, Refusal, Reply};
use board_lock::{HartView, NewRoom, NotAll, Past, Receipt, Record, Rest, Room, Seat, SharedBoard};
use guest_script::{Body, Script, ScriptFault, parse};
use hart_threads::{Gate, RunEnd, RunFault, run};
use std::alloc::Global;
use std::sync::Wait;
use std::thread::Threads;

/// A new board.
pub fn fresh_board(alloc: Global, config: &Config) -> Result<Board, BuildFault>
    ensures { IfOk result (λ b. b.past ≡ []) }
{
    let board = Board::new(alloc, config)?;
    Ok(board)
}

/// A step of a board.
pub fn step(board: &mut Board, actor: Actor, op: Op) -> Result<Reply, Refusal> {
    board.step(actor, op)
}

/// A new board behind a lock, and its seats.
pub fn opened_board<K: Room>(
    alloc: Global,
    room: NewRoom,
) -> Result<(SharedBoard<K>, Vec<Seat<K>>), BuildFault>
    requires room { (K.opening ≡ opening_at room.config) × (room.log ≡ K.log) }
    requires ledger { (room.ledger ≡ K.name) × (room.parts ≡ K.parts) × (K.all ≡ K.parts) }
{
    SharedBoard::<K>::open(alloc, room)
}

/// A board without events behind a lock, and its seats.
pub fn adopted_board<K: Room>(
    alloc: Global,
    room: NewRoom,
    board: Board,
) -> Result<(SharedBoard<K>, Vec<Seat<K>>), (Board, BuildFault)>
    requires board { (board.opening ≡ K.opening) × (board.past ≡ []) }
    requires room { (room.config ≡ K.opening.config) × (room.log ≡ K.log) }
    requires ledger { (room.ledger ≡ K.name) × (room.parts ≡ K.parts) × (K.all ≡ K.parts) }
    ensures { IfErr result (λ e. e.0.past ≡ []) }
{
    match SharedBoard::<K>::adopt(alloc, room, board) {
        Ok(locked) => Ok(locked),
        Err((board, fault)) => Err((board, fault)),
    }
}

/// A call by a seat: its receipt.
pub fn called<K: Room, R: Wait>(
    rt: &R,
    shared: &SharedBoard<K>,
    seat: &mut Seat<K>,
    op: Op,
) -> Result<Receipt<K>, Refusal> {
    shared.call(rt, seat, op)
}

/// A call by a seat, whose receipt is dropped.
pub fn called_only<K: Room, R: Wait>(
    rt: &R,
    shared: &SharedBoard<K>,
    seat: &mut Seat<K>,
    op: Op,
) -> Result<(), Refusal> {
    let _ = called(rt, shared, seat, op)?;
    Ok(())
}

/// A call by a seat: its receipt, and the view after it.
pub fn called_and_viewed<K: Room, R: Wait>(
    rt: &R,
    shared: &SharedBoard<K>,
    seat: &mut Seat<K>,
    op: Op,
) -> Result<(Receipt<K>, HartView), Refusal> {
    shared.call_and_view(rt, seat, op)
}

/// What a seat sees.
pub fn viewed<K: Room, R: Wait>(rt: &R, shared: &SharedBoard<K>, seat: &mut Seat<K>) -> HartView {
    shared.view(rt, seat)
}

/// A rest of a seat, which has seen this many events.
pub fn rested<K: Room, R: Wait>(
    rt: &R,
    shared: &SharedBoard<K>,
    seat: &mut Seat<K>,
    seen: u64,
) -> Rest {
    shared.rest(rt, seat, seen)
}

/// The record of a board that is closed with these seats.
pub fn closed_board<K: Room>(open: NotAll<K>) -> Result<Record<K>, NotAll<K>>
    requires { K.all ≡ K.parts }
{
    open.board.close(open.seats)
}

/// The past that a record leaves, and its board.
pub fn parted<K: Room>(
    alloc: Global,
    record: Record<K>,
) -> Result<(Past<K>, Board), (Record<K>, BuildFault)>
    ensures { IfOk result (λ r. r.1.past ≡ []) }
{
    match record.split(alloc) {
        Ok((past, board)) => Ok((past, board)),
        Err(unsplit) => Err(unsplit),
    }
}

/// The event of a receipt.
pub fn looked_up<'a, K: Room>(record: &'a Record<K>, receipt: &Receipt<K>) -> &'a Event {
    record.look(receipt)
}

/// The event of a receipt, after the split.
pub fn looked_up_in_past<'a, K: Room>(past: &'a Past<K>, receipt: &Receipt<K>) -> &'a Event {
    past.look(receipt)
}

/// The script that the bytes have.
pub fn script(alloc: Global, bytes: &[u8]) -> Result<Script, ScriptFault> {
    parse(alloc, bytes)
}

/// The run of a script, which is a program.
pub fn ran_program<G: Gate + Sync, R: AllocGlobal + Threads + Wait + Sync>(
    rt: &R,
    script: &Script,
    gate: &G,
) -> Result<RunEnd, RunFault> {
    match &script.body {
        Body::Empty | Body::Program { .. } => run(rt, script, gate),
        Body::Schedule(_) | Body::Trace(_) => Err(RunFault::BadConfig),
    }
}
