//! Starts threads, and waits for them.
ghost use Rattle.std.specs.Prelude.{◌≡◌, All, IfOk, IsErrOf, map};
ghost use Rattle.hart_threads.specs.Inside.Works.{IsFresh, IsGate, WorkedAt, task};
ghost use Rattle.guest_programs.specs.declared.ends.RunFault.TheVariants.{BadConfig};

use crate::clock::tick;
use crate::gate::Gate;
use crate::harts::follow;
use crate::plans::Plan;
use crate::work::{Work, Worked};
use board_core::Actor;
use board_lock::Seat;
use guest_programs::{Guests, Met, RunFault};
use std::alloc::{AllocError, Global};
use std::sync::Wait;
use std::thread::{self, Promise, Threads};

/// The actor whose seat a thread returns, with its work done.
#[derive(Clone, Copy)]
struct SeatOf(Actor);

impl<K: Plan> Promise<Worked<K>> for SeatOf {
    ghost kept_by = { λ p worked. (worked.seat.actor ≡ p.0)
        × WorkedAt (task K.lets K.heard K.opening K.guests K.ticks) worked.seat worked.met };
}

/// Runs a thread for each seat, and returns what they did once all have ended. If a thread is refused, those that run are
/// ended.
pub(crate) fn work_all<
    K: Plan + Send + Sync,
    G: Gate + Sync,
    P: Guests + Sync,
    R: AllocGlobal + Threads + Wait + Sync,
>(rt: &R, work: &Work<'_, K, G, P>, seats: Vec<Seat<K>>) -> Result<Vec<Worked<K>>, RunFault>
where
    P::Place: Send + Sync,
    requires fresh { All (IsFresh K.opening.config) seats.items }
    requires gate { IsGate (G.lets work.now.gate.now) K.lets (G.heard work.now.gate.now) K.heard }
    ensures seats { IfOk result
        (λ all. map (λ worked. worked.seat.actor) all.items ≡ map (λ seat. seat.actor) seats.items) }
    ensures worked { IfOk result (λ all.
        All (λ worked. WorkedAt (task K.lets K.heard K.opening K.guests K.ticks) worked.seat worked.met) all.items) }
    ensures board { ¬ IsErrOf result BadConfig }
{
    thread::scope(
        thread::scope_env(),
        rt,
        |scope| -> Result<Vec<Worked<K>>, RunFault>
            requires fresh { All (IsFresh K.opening.config) seats.items }
            requires gate { IsGate (G.lets work.now.gate.now) K.lets (G.heard work.now.gate.now) K.heard }
            ensures board { ¬ IsErrOf result BadConfig }
            ensures seats { IfOk result
                (λ all. map (λ worked. worked.seat.actor) all.items ≡ map (λ seat. seat.actor) seats.items) }
            ensures worked { IfOk result (λ all.
                All (λ worked. WorkedAt (task K.lets K.heard K.opening K.guests K.ticks) worked.seat worked.met) all.items) }
        {
            let mut threads = Vec::new(rt.alloc());
            for seat in seats {
                let Ok(thread) = scope.spawn_with(
                    SeatOf(seat.actor()),
                    move ||
                        requires fresh { IsFresh K.opening.config seat }
                        requires gate { IsGate (G.lets work.now.gate.now) K.lets (G.heard work.now.gate.now) K.heard }
                    { work_at(rt, work, seat) },
                ) else {
                    work.board.end(rt);
                    return Err(RunFault::NoThread);
                };
                if threads.push(thread).is_err() {
                    work.board.end(rt);
                    return Err(RunFault::NoMemory);
                }
            }
            match thread::join_promised(rt, threads) {
                Ok(all) => Ok(all),
                Err(_) => Err(RunFault::NoMemory),
            }
        },
    )
}

/// The work of a seat's thread.
fn work_at<K: Plan, G: Gate, P: Guests, R: Wait>(
    rt: &R,
    work: &Work<'_, K, G, P>,
    seat: Seat<K>,
) -> Worked<K>
    requires fresh { IsFresh K.opening.config seat }
    requires gate { IsGate (G.lets work.now.gate.now) K.lets (G.heard work.now.gate.now) K.heard }
    ensures actor { result.seat.actor ≡ seat.actor }
    ensures worked { WorkedAt (task K.lets K.heard K.opening K.guests K.ticks) result.seat result.met }
{
    match seat.actor() {
        Actor::Hart(_) => follow(rt, work, seat),
        Actor::Clock => tick(rt, work, seat),
    }
}
