//! A gate holds threads back before their operations.
use board_lock::{Receipt, Room};

/// Decides which thread may go on. Each thread asks it before each of its operations, and reports each accepted operation. It
/// holds no lock meanwhile.
pub trait Gate {
    ghost use Rattle.std.specs.Prelude.{ℕ, Bool};
    ghost use Rattle.board_lock.specs.Receipts.{AcceptedCall};

    // What it may answer an actor, by its number and how many of its operations were accepted.
    ghost lets: { Self → ℕ → ℕ → Bool → Type 0 };

    // That it was told of an event.
    ghost heard: { Self → AcceptedCall → Type 0 } = { λ _ _. Unit {0} };

    /// Whether an actor with this number of accepted operations may go on. The actor's number is a hart's id, or, behind those,
    /// the clock's. Returning false ends the work of its thread. The call may wait for other threads.
    fn turn(&self, actor: usize, ordinal: usize) -> bool
        ensures { lets self.now actor ordinal result };

    /// Called with the receipt of each event. The actor's thread gives it away, before it goes on, and holds no lock. So no
    /// event is told twice, and one actor's events come in order; those of several may come in another order than in the record.
    fn told<K: Room>(&self, receipt: Receipt<K>)
        ensures { heard self.now receipt };
}

/// The gate that is always open.
#[derive(Clone, Copy, Debug)]
pub struct Open;

impl Gate for Open {
    ghost use Rattle.std.specs.Prelude.{◌≡◌, true};

    ghost lets = { λ _ _ _ answer. answer ≡ true };

    fn turn(&self, _actor: usize, _ordinal: usize) -> bool {
        true
    }

    fn told<K: Room>(&self, _receipt: Receipt<K>) {}
}
