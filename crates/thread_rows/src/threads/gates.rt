//! A gate that makes threads wait for each other, and records what it was asked.

use board_lock::{Receipt, Room};
use hart_threads::Gate;
use std::sync::atomic::{AtomicUsize, Ordering};
use std::thread;
use std::time::{Clock, Duration};

/// A question that a gate is asked: by which actor, and how many of its operations were accepted.
#[derive(Clone, Copy, Debug, PartialEq, Eq)]
pub struct Turn {
    pub actor: usize,
    pub ordinal: usize,
}

/// A turn that comes after another one.
#[derive(Clone, Copy, Debug)]
pub struct Hold {
    pub turn: Turn,
    pub after: Turn,
}

/// What a gate was asked by an actor.
#[derive(Drop)]
struct Asked {
    /// One more than the last ordinal.
    next: AtomicUsize,
    /// How many questions there were.
    many: AtomicUsize,
    /// How many of them had neither the ordinal before nor the one after it.
    out_of_order: AtomicUsize,
}

impl Asked {
    fn new() -> Asked {
        Asked {
            next: AtomicUsize::new(0),
            many: AtomicUsize::new(0),
            out_of_order: AtomicUsize::new(0),
        }
    }

    /// The actor asks. It has one thread, so no other question of it comes in between.
    fn ask(&self, ordinal: usize) {
        let next = self.next.load(Ordering::SeqCst);
        if ordinal == next {
            self.next.store(next.wrapping_add(1), Ordering::SeqCst);
        } else if ordinal.wrapping_add(1) != next {
            self.out_of_order.fetch_add(1, Ordering::SeqCst);
        }
        self.many.fetch_add(1, Ordering::SeqCst);
    }

    /// How many questions there were.
    fn questions(&self) -> usize {
        self.many.load(Ordering::SeqCst)
    }

    /// Whether the ordinal was asked.
    fn is_reached(&self, ordinal: usize) -> bool {
        self.next.load(Ordering::SeqCst) > ordinal
    }
}

/// A gate with holds, which is closed for one turn.
#[derive(Drop)]
pub struct Holding<'a, R: Clock> {
    clock: &'a R,
    /// How often a held thread looks before it gives up.
    looks: u32,
    holds: &'a [Hold],
    closed: Option<Turn>,
    asked: [Asked; 4],
}

impl<'a, R: Clock> Holding<'a, R> {
    pub fn new(
        clock: &'a R,
        looks: u32,
        holds: &'a [Hold],
        closed: Option<Turn>,
    ) -> Holding<'a, R> {
        Holding {
            clock,
            looks,
            holds,
            closed,
            asked: [Asked::new(), Asked::new(), Asked::new(), Asked::new()],
        }
    }

    /// Waits until the turn's question was asked: it looks, sleeps for a millisecond, and looks again. While it sleeps all other
    /// threads can go on, however slow the machine is.
    fn waits_for(&self, turn: Turn) -> bool {
        let Some(asked) = self.asked.get(turn.actor) else {
            return false;
        };
        for _ in 0..self.looks {
            if asked.is_reached(turn.ordinal) {
                return true;
            }
            thread::sleep(self.clock, Duration::from_millis(1));
        }
        false
    }

    /// How many questions each actor asked.
    pub fn questions(&self) -> [usize; 4] {
        let [a, b, c, d] = &self.asked;
        [a.questions(), b.questions(), c.questions(), d.questions()]
    }

    /// Whether each actor asked for its ordinals in order.
    pub fn is_in_order(&self) -> bool {
        self.asked
            .iter()
            .all(|asked| asked.out_of_order.load(Ordering::SeqCst) == 0)
    }
}

impl<'a, R: Clock> Gate for Holding<'a, R> {
    ghost use Rattle.std.specs.Prelude.{◌≡◌, false, Some};

    ghost lets = { λ gate actor ordinal answer.
        gate.closed ≡ Some (record { actor = actor; ordinal = ordinal }) → answer ≡ false };

    fn turn(&self, actor: usize, ordinal: usize) -> bool {
        let turn = Turn { actor, ordinal };
        if let Some(asked) = self.asked.get(actor) {
            asked.ask(ordinal);
        }
        if self.closed == Some(turn) {
            return false;
        }
        self.holds
            .iter()
            .all(|hold| hold.turn != turn || self.waits_for(hold.after))
    }

    fn told<K: Room>(&self, _receipt: Receipt<K>) {}
}
