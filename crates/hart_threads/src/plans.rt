//! What a run's threads share, for proofs.
use board_lock::Room;
use std::marker::Brand;

/// A room whose threads have this work. Like a room, it is a type whose values exist only in proofs.
pub(crate) trait Plan: Room {
    ghost use Rattle.std.specs.Prelude.{ℕ, Bool, List};
    ghost use Rattle.board_lock.specs.Receipts.{AcceptedCall};
    ghost use Rattle.guest_programs.specs.Guests.{Next};

    // The clock's ticks, in order.
    ghost ticks: { List ℕ };
    // What guests do.
    ghost guests: { Next };
    // What the gate may answer an actor, by its number and how many of its operations were accepted.
    ghost lets: { ℕ → ℕ → Bool → Type 0 };
    // That the gate was told of an event.
    ghost heard: { AcceptedCall → Type 0 };
}

impl Plan for Brand {
    ghost use Rattle.std.specs.Prelude.{[], None};

    ghost ticks = { [] };

    ghost guests = { λ _ _. None };

    ghost lets = { λ _ _ _. Unit {0} };

    ghost heard = { λ _. Unit {0} };
}
