//! Guests: what each does next, and its place.
ghost use Rattle.std.specs.Prelude.{◌≡◌, ◌∷◌, ◌++◌, ℕ, List, []};
ghost use Rattle.board_terms.specs.declared.op.Actor.TheVariants.{Hart};
ghost use Rattle.board_core.specs.History.{Event};
ghost use Rattle.guest_programs.specs.Guests.{IsAt, is_guest};

use board_core::{Op, Reply};
use std::alloc::AllocError;

/// The guests of a board's harts: what each does from its entry on, given the replies that it got.
pub trait Guests {
    ghost use Rattle.std.specs.Prelude.{◌≡◌, ◌∷◌, ◌++◌, ℕ, List, [], IfOk, None};
    ghost use Rattle.guest_programs.specs.Guests.{Did, Next, Rest};

    /// The place of a guest in its program.
    type Place: Copy;

    // What guests do.
    ghost next: { Self → Next };

    // What a guest does from a place on.
    ghost rest: { Self → Self.Place → Rest };

    // The words of a place, which identify it.
    ghost words: { Self.Place → List ℕ };

    /// The place of a guest whose hart wasn't entered yet: it does nothing.
    fn nowhere(&self) -> Self::Place
        ensures { (more : Did) → rest self.now result more ≡ None };

    /// The place of a guest after an entry of its hart.
    fn entered(&self, addr: u64, hart: u64, opaque: u64) -> Self::Place
        ensures { (more : Did) → rest self.now result more
            ≡ next self.now (record { addr = addr; hart = hart; opaque = opaque }) more };

    /// The place after an operation with this reply. The operation needn't be the guest's next.
    fn behind(&self, place: Self::Place, op: Op, reply: Reply) -> Self::Place
        ensures { (more : Did) → rest self.now result more ≡ rest self.now place (more ++ (op, reply) ∷ []) };

    /// The guest's next operation, if it has one.
    fn op_at(&self, place: Self::Place) -> Option<Op>
        ensures { result ≡ rest self.now place [] };

    /// Appends the words of a place.
    ///
    /// # Errors
    ///
    /// Out of memory.
    fn put_words(out: &mut Vec<u64>, place: Self::Place) -> Result<(), AllocError>
        ensures { IfOk result (λ _. out.new.items ≡ out.old.items ++ words place) };

    // Places with the same words are the same, whatever follows the words.
    ghost told: { (a b : Self.Place) (front back : List ℕ) → words a ++ front ≡ words b ++ back → (a ≡ b) × (front ≡ back) };
}

/// The place of a guest after an accepted operation of its hart.
pub fn guest_place_after<G: Guests>(guests: &G, place: G::Place, op: Op, reply: Reply) -> G::Place
    ensures { (past : List Event) (h : ℕ) (e : Event) → e.actor ≡ Hart h → e.op ≡ op → e.reply ≡ reply
        → IsAt (G.rest guests.now place) (G.next guests.now) past h
        → IsAt (G.rest guests.now result) (G.next guests.now) (e ∷ past) h }
{
    if let Reply::Entry { addr, hart, opaque } = reply {
        return guests.entered(addr, hart, opaque);
    }
    if is_guest(op) {
        return guests.behind(place, op, reply);
    }
    place
}

/// Whether an operation is a guest's: neither the firmware's own nor the clock's.
pub fn is_guest(op: Op) -> bool
    ensures { result ≡ is_guest op }
{
    !matches!(op, Op::Poll | Op::Serve | Op::Advance | Op::Tick(_))
}
