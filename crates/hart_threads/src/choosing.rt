//! What a hart's thread does next, by its view.
ghost use Rattle.std.specs.Prelude.{◌≡◌, ℕ, List, IfSome, None};
ghost use Rattle.board_core.specs.History.{Event};
ghost use Rattle.board_core.specs.Opening.{Opening};
ghost use Rattle.board_core.specs.Refusals.{IsAccepted, Situation, situation};
ghost use Rattle.board_core.specs.Replies.{IsLegal};
ghost use Rattle.board_lock.specs.Coming.{Sees};
ghost use Rattle.hart_threads.specs.Choices.{HasNothing, first_choice, goes};

use board_core::Op;
use board_laws::calls_are_made_started;
use board_lock::HartNow;
use guest_programs::is_guest;

/// The next operation of a hart, if there is one, by its view and its guest's next operation. The firmware's comes first;
/// inside a fence call the guest does nothing.
pub(crate) fn choice(now: &HartNow, guest: Option<Op>) -> Option<Op>
    ensures exact { result ≡ first_choice now.now guest }
    ensures happens { (s : Situation) → Sees s now.now → IfSome result (λ op. IsAccepted op s) }
    ensures rests { (o : Opening) (past : List Event) (h : ℕ) → IsLegal o past → Sees (situation o past h) now.now
        → result ≡ None → HasNothing guest (situation o past h) }
{
    if let Some(op) = now.firmware_choice() {
        return Some(*op);
    }
    if now.outstanding.is_some() {
        calls_are_made_started();
        return None;
    }
    match guest {
        Some(op) if now.state.is_started() && goes(op, now.wake) => Some(op),
        _ => None,
    }
}

/// Whether an operation is a guest's that doesn't wait.
fn goes(op: Op, wake: bool) -> bool
    ensures { result ≡ goes op wake }
{
    match op {
        Op::Wfi => wake,
        op => is_guest(op),
    }
}
