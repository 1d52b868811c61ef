//! A program's run on threads, from its board to its record.
ghost use Rattle.std.specs.Prelude.{◌≡◌, ◌↔◌, All, IfOk, IsErrOf, map};
ghost use Rattle.board_terms.specs.declared.op.Actor.TheVariants.{Clock};
ghost use Rattle.board_terms.specs.Limits.{IsGood};
ghost use Rattle.board_core.specs.Opening.{opening_at};
ghost use Rattle.board_core.specs.Replies.{IsLegal};
ghost use Rattle.board_laws.specs.Headline.{Headline};
ghost use Rattle.board_lock.specs.Events.{events_in, ops_of};
ghost use Rattle.board_lock.specs.Seats.{new_seats};
ghost use Rattle.guest_script.specs.Grammar.{content};
ghost use Rattle.guest_programs.specs.Ends.{IsEnd};
ghost use Rattle.hart_threads.specs.Inside.Works.{met_by_all, IsGate};
ghost use Rattle.guest_programs.specs.Programs.{AreFirst, IsProgram, blocks_of, ticks_of};
ghost use Rattle.hart_threads.specs.Shares.{AreThreads, AreTold, IsRun};
ghost use Rattle.guest_programs.specs.declared.ends.RunFault.TheVariants.{BadConfig};

use crate::gate::Gate;
use crate::plans::Plan;
use crate::starting::work_all;
use crate::work::{Work, Worked};
use board_core::{Board, BuildFault};
use board_laws::headline;
use board_lock::{NewRoom, Seat, SharedBoard};
use guest_programs::{Guests, Met, RunEnd, RunFault, end_of, program_in};
use guest_script::{Body, Script};
use std::alloc::{AllocError, Global};
use std::marker::Brand;
use std::sync::Wait;
use std::thread::Threads;

/// Runs a program on a new board behind a lock: a thread for each hart does the blocks of its entries, and one for the clock
/// does its ticks. Each asks the gate before each of its operations, and holds no lock then. The run ends when none can go on.
pub fn run<G: Gate + Sync, R: AllocGlobal + Threads + Wait + Sync>(
    rt: &R,
    script: &Script,
    gate: &G,
) -> Result<RunEnd, RunFault>
    requires { IsProgram (content script.now.body) }
    ensures bad { IsErrOf result BadConfig ↔ ¬ IsGood script.now.config }
    ensures opening { IfOk result (λ run. run.board.opening ≡ opening_at script.now.config) }
    ensures legal { IfOk result (λ run. IsLegal run.board.opening run.board.past) }
    ensures headline { IfOk result (λ run. Headline run.board.opening run.board.past) }
    ensures ticks { IfOk result
        (λ run. AreFirst (ticks_of (content script.now.body)) (ops_of Clock (events_in run.board))) }
    ensures end { IfOk result
        (λ run. IsEnd run.end run.board.opening run.board.past (blocks_of (content script.now.body))) }
    ensures threads { IfOk result
        (λ run. IsRun (G.lets gate.now) run.board.opening (blocks_of (content script.now.body))
        (ticks_of (content script.now.body)) run.board.past run.end) }
    ensures told { IfOk result (λ run. AreTold (G.heard gate.now) run.board.opening run.board.past) }
{
    run_in::<Brand, G, R>(rt, NewRoom::new(&script.config), &script.body, gate)
}

/// Runs a program on the board of this room.
fn run_in<K: Plan + Send + Sync, G: Gate + Sync, R: AllocGlobal + Threads + Wait + Sync>(
    rt: &R,
    room: NewRoom,
    body: &Body,
    gate: &G,
) -> Result<RunEnd, RunFault>
    requires program { IsProgram (content body.now) }
    requires room { (K.opening ≡ opening_at room.config) × (room.log ≡ K.log) }
    requires ledger { (room.ledger ≡ K.name) × (room.parts ≡ K.parts) × (K.all ≡ K.parts) }
    requires ticks { ticks_of (content body.now) ≡ K.ticks }
    requires guests { blocks_of (content body.now) ≡ K.guests }
    requires gate { IsGate (G.lets gate.now) K.lets (G.heard gate.now) K.heard }
    ensures bad { IsErrOf result BadConfig ↔ ¬ IsGood K.opening.config }
    ensures opening { IfOk result (λ run. run.board.opening ≡ K.opening) }
    ensures legal { IfOk result (λ run. IsLegal run.board.opening run.board.past) }
    ensures headline { IfOk result (λ run. Headline run.board.opening run.board.past) }
    ensures ticks { IfOk result (λ run. AreFirst K.ticks (ops_of Clock (events_in run.board))) }
    ensures end { IfOk result (λ run. IsEnd run.end run.board.opening run.board.past K.guests) }
    ensures threads { IfOk result (λ run. IsRun K.lets run.board.opening K.guests K.ticks run.board.past run.end) }
    ensures told { IfOk result (λ run. AreTold K.heard run.board.opening run.board.past) }
{
    let (shared, seats) = opened::<K>(rt.alloc(), room)?;
    let program = program_in(rt.alloc(), body)?;
    let (board, met) = run_on(rt, shared, seats, &program, program.ticks, gate)?;
    let end = end_of(rt.alloc(), &board, &program, met)?;
    let _legal = board.history();
    headline(&board);
    Ok(RunEnd { end, board })
}

/// Runs a thread for each seat of a new board, whatever its guests do. Returns the board, and what the threads met.
fn run_on<
    K: Plan + Send + Sync,
    G: Gate + Sync,
    P: Guests + Sync,
    R: AllocGlobal + Threads + Wait + Sync,
>(
    rt: &R,
    board: SharedBoard<K>,
    seats: Vec<Seat<K>>,
    guests: &P,
    ticks: &[u64],
    gate: &G,
) -> Result<(Board, Met), RunFault>
where
    P::Place: Send + Sync,
    requires whole { K.all ≡ K.parts }
    requires seats { seats.items ≡ new_seats K.opening.config }
    requires ticks { ticks.now ≡ K.ticks }
    requires guests { P.next guests.now ≡ K.guests }
    requires gate { IsGate (G.lets gate.now) K.lets (G.heard gate.now) K.heard }
    ensures board { ¬ IsErrOf result BadConfig }
    ensures opening { IfOk result (λ r. r.0.opening ≡ K.opening) }
    ensures ticks { IfOk result (λ r. AreFirst K.ticks (ops_of Clock (events_in r.0))) }
    ensures threads { IfOk result (λ r. AreThreads K.lets K.heard K.opening K.guests K.ticks r.0.past r.1) }
{
    let work = Work {
        board: &board,
        gate,
        guests,
        ticks,
        harts: seats.len() as u64 - 1,
    };
    let all = work_all(rt, &work, seats)?;
    let (seats, met) = parted(rt.alloc(), all)?;
    match board.close(seats) {
        Ok(record) => Ok((record.into_board(), met)),
        Err(_) => unreachable!(),
    }
}

/// The board of a room behind its lock, and its seats.
fn opened<K: Plan>(alloc: Global, room: NewRoom) -> Result<(SharedBoard<K>, Vec<Seat<K>>), RunFault>
    requires room { (K.opening ≡ opening_at room.config) × (room.log ≡ K.log) }
    requires ledger { (room.ledger ≡ K.name) × (room.parts ≡ K.parts) × (K.all ≡ K.parts) }
    ensures bad { IsErrOf result BadConfig ↔ ¬ IsGood K.opening.config }
    ensures seats { IfOk result (λ r. r.1.items ≡ new_seats K.opening.config) }
{
    match SharedBoard::open(alloc, room) {
        Ok(opened) => Ok(opened),
        Err(BuildFault::BadConfig) => Err(RunFault::BadConfig),
        Err(BuildFault::NoMemory) => Err(RunFault::NoMemory),
        // (no history is cut here)
        Err(BuildFault::CutFull) => unreachable!(),
    }
}

/// The seats of the threads, and what they met.
fn parted<K: Plan>(alloc: Global, all: Vec<Worked<K>>) -> Result<(Vec<Seat<K>>, Met), AllocError>
    ensures seats { IfOk result
        (λ r. map (λ seat. seat.actor) r.0.items ≡ map (λ worked. worked.seat.actor) all.items) }
    ensures same { IfOk result (λ r. r.0.items ≡ map (λ worked. worked.seat) all.items) }
    ensures ticks { IfOk result (λ r. All (λ seat. seat.actor ≡ Clock → AreFirst K.ticks seat.ops) r.0.items) }
    ensures met { IfOk result (λ r. r.1 ≡ met_by_all (map (λ worked. worked.met) all.items)) }
{
    let mut seats = Vec::with_capacity(alloc, all.len())?;
    let mut met = Met::Nothing;
    for worked in all {
        met = met.and(worked.met);
        seats.push(worked.seat)?;
    }
    Ok((seats, met))
}
