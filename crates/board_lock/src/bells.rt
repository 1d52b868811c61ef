//! Bells: the thread of a resting seat sleeps by its bell, and others wake it.
ghost use Rattle.std.specs.Prelude.{◌≡◌, ◌≤◌, ◌∷◌, ◌++◌, [], IfOk, map};
ghost use Rattle.board_lock.specs.Inside.Bells.{actors};

use crate::desk::Desk;
use crate::rooms::Room;
use crate::seats::Seat;
use board_core::Actor;
use ghost_log::Log;
use std::alloc::{AllocError, Global};
use std::marker::Model;
use std::sync::{Condvar, MutexGuard, Wait};

/// The bell of an actor's seat.
#[derive(Drop)]
pub(crate) struct Bell {
    pub(crate) actor: Actor,
    condvar: Condvar,
}

impl Bell {
    /// The bell of this actor.
    fn new(actor: Actor) -> Bell
        ensures { result.actor ≡ actor }
    {
        Bell {
            actor,
            condvar: Condvar::new(),
        }
    }

    /// Releases the lock, sleeps until the bell rings, and takes the lock again. No seat sleeps by the bell of another. The
    /// sleep can also end without a ring.
    pub(crate) fn wait<'b, K: Room, R: Wait>(
        &self,
        rt: &R,
        seat: &Seat<K>,
        desk: MutexGuard<'b, Desk<K>>,
    ) -> MutexGuard<'b, Desk<K>>
        requires { self.now.actor ≡ seat.now.actor }
    {
        self.condvar.wait(rt, desk)
    }

    /// Wakes the thread that sleeps by the bell, if one does. The bell is then one of those that rang.
    pub(crate) fn ring(&self, rung: &mut Rung)
        ensures { rung.new ≡ rung.old ++ self.now.actor ∷ [] }
    {
        self.condvar.notify_one();
        rung.log.push(&self.actor);
    }
}

/// The bells that rang, by their actors, in order. Only a ring adds one. It doesn't exist at run time.
#[derive(Drop)]
pub(crate) struct Rung {
    log: Log<Actor>,
}

impl Model for Rung {
    ghost use Rattle.std.specs.Prelude.{List};
    ghost use Rattle.board_terms.specs.declared.op.Actor.{Actor};

    ghost Value = { List Actor };

    ghost view = { λ r. r.log.list };
}

impl Rung {
    /// No bell rang.
    pub(crate) fn none() -> Rung
        ensures { result ≡ [] }
    {
        Rung { log: Log::new() }
    }
}

/// The bells of so many harts in order, then the clock's.
///
/// # Errors
///
/// Out of memory.
pub(crate) fn new_bells(alloc: Global, harts: u64) -> Result<Vec<Bell>, AllocError>
    requires { harts ≤ 128 }
    ensures { IfOk result (λ bells. map (λ b. b.actor) bells.items ≡ actors harts) }
{
    let mut bells = Vec::with_capacity(alloc, harts as usize + 1)?;
    for h in 0..harts {
        bells.push(Bell::new(Actor::Hart(h)))?;
    }
    bells.push(Bell::new(Actor::Clock))?;
    Ok(bells)
}
