//! The clock's thread: each tick in its turn.
ghost use Rattle.std.specs.Prelude.{◌≡◌, [], reverse};
ghost use Rattle.board_terms.specs.declared.op.Actor.TheVariants.{Clock};
ghost use Rattle.board_lock.specs.Events.{IsActor};
ghost use Rattle.board_lock.specs.Seats.{sitting};
ghost use Rattle.guest_programs.specs.Programs.{AreFirst};
ghost use Rattle.hart_threads.specs.Inside.Works.{IsGate, WorkedAt, task};

use crate::gate::Gate;
use crate::plans::Plan;
use crate::work::{Work, Worked};
use board_core::Op;
use board_lock::{Awaits, Seat};
use guest_programs::{Guests, Met};
use std::sync::Wait;

/// The clock's thread: it does its ticks in order, up to a refused one, and then rests.
pub(crate) fn tick<K: Plan, G: Gate, P: Guests, R: Wait>(
    rt: &R,
    work: &Work<'_, K, G, P>,
    seat: Seat<K>,
) -> Worked<K>
    requires fresh { seat ≡ sitting Clock 0 [] [] }
    requires gate { IsGate (G.lets work.now.gate.now) K.lets (G.heard work.now.gate.now) K.heard }
    ensures actor { result.seat.actor ≡ seat.actor }
    ensures worked { WorkedAt (task K.lets K.heard K.opening K.guests K.ticks) result.seat result.met }
{
    let mut seat = seat;
    let met = tick_all(rt, work, &mut seat);
    work.board.rest_for(rt, &mut seat, Awaits::End);
    Worked { seat, met }
}

/// Does the ticks in order, up to a refused one.
fn tick_all<K: Plan, G: Gate, P: Guests, R: Wait>(
    rt: &R,
    work: &Work<'_, K, G, P>,
    seat: &mut Seat<K>,
) -> Met
    requires fresh { seat.old ≡ sitting Clock 0 [] [] }
    requires gate { IsGate (G.lets work.now.gate.now) K.lets (G.heard work.now.gate.now) K.heard }
    ensures actor { seat.new.actor ≡ Clock }
    ensures ticks { AreFirst K.ticks seat.new.ops }
    ensures worked { WorkedAt (task K.lets K.heard K.opening K.guests K.ticks) seat.new result }
{
    for n in work.ticks {
        if !work.is_let(seat) {
            return Met::ClosedGate;
        }
        match work.board.call(rt, seat, Op::Tick(*n)) {
            Ok(receipt) => work.tell(receipt),
            Err(refusal) => return Met::by_refusal(refusal),
        }
    }
    Met::Nothing
}
