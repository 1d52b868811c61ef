//! What a thread gets, and what it returns.
ghost use Rattle.std.specs.Prelude.{◌≡◌};
ghost use Rattle.board_terms.specs.declared.op.Actor.TheVariants.{Clock};
ghost use Rattle.guest_programs.specs.Programs.{AreFirst};
ghost use Rattle.hart_threads.specs.Shares.{gate_number};
ghost use Rattle.hart_threads.specs.Inside.Works.{IsGate};

use crate::gate::Gate;
use crate::plans::Plan;
use board_core::Actor;
use board_lock::{Receipt, Seat, SharedBoard};
use guest_programs::{Guests, Met};

/// What all threads of a run share.
#[derive(Drop)]
pub(crate) struct Work<'a, K: Plan, G: Gate, P: Guests> {
    pub(crate) board: &'a SharedBoard<K>,
    pub(crate) gate: &'a G,
    /// What the harts' guests do.
    pub(crate) guests: &'a P,
    /// What the clock does.
    pub(crate) ticks: &'a [u64],
    /// How many harts the board has.
    pub(crate) harts: u64,
    ghost planned: { ticks.now ≡ K.ticks },
    ghost guided: { P.next guests.now ≡ K.guests },
    ghost counted: { harts ≡ K.opening.config.harts },
}

impl<'a, K: Plan, G: Gate, P: Guests> Work<'a, K, G, P> {
    /// Whether the gate allows the seat's actor an operation. No lock is held.
    pub(crate) fn is_let(&self, seat: &Seat<K>) -> bool
        requires { IsGate (G.lets self.now.gate.now) K.lets (G.heard self.now.gate.now) K.heard }
        ensures { K.lets (gate_number K.opening.config seat.now.actor) seat.now.count result }
    {
        let number = match seat.actor() {
            Actor::Hart(h) => h,
            Actor::Clock => self.harts,
        };
        self.gate.turn(number as usize, seat.count() as usize)
    }

    /// Tells the gate of an event, and gives the receipt away. No lock is held.
    pub(crate) fn tell(&self, receipt: Receipt<K>)
        requires { IsGate (G.lets self.now.gate.now) K.lets (G.heard self.now.gate.now) K.heard }
        ensures { K.heard receipt }
    {
        self.gate.told(receipt);
    }
}

/// A thread's seat after its work, and what it met. The clock's events are the first of its ticks, in order.
#[derive(Drop)]
pub(crate) struct Worked<K: Plan> {
    pub(crate) seat: Seat<K>,
    pub(crate) met: Met,
    ghost ticked: { seat.actor ≡ Clock → AreFirst K.ticks seat.ops },
}
