//! Laws of remote and local fences.
ghost use Rattle.std.specs.Prelude.{◌≡◌, ℕ, ◌+◌, List, ◌∷◌};
ghost use Rattle.tlb_model.specs.declared.fence.Flush.{Flush};
ghost use Rattle.rfence.specs.declared.opened.FenceCall.{FenceCall};
ghost use Rattle.rfence.specs.Laws.{times_met, total_remote};
ghost use Rattle.rfence.specs.Right.{IsRight};
ghost use Rattle.board_core.specs.Opening.{Opening};
ghost use Rattle.board_core.specs.Fences.{turns};
ghost use Rattle.board_core.specs.History.{Event};
ghost use Rattle.board_terms.specs.Limits.{IsGood};
ghost use Rattle.board_core.specs.Replies.{IsLegal};
ghost use Rattle.board_core.specs.Totals.{totals};
ghost use Rattle.board_laws.specs.Fences.{AppliedOnce, Asks, CallsAreMadeStarted, LeavesNothing, OpenedOnce, StopsHart};
ghost use Rattle.board_laws.specs.Places.{IsAtPlace};

/// In every legal history of a board with numbers within the limits, each turn was possible: a hart asks while it is in
/// no call, and asks harts that exist; it serves if a fence waits there; it polls if its call waits for no hart (SBI 8;
/// profile).
pub fn turns_are_right()
    ensures { (o : Opening) (past : List Event)
        → IsGood o.config
        → IsLegal o past
        → IsRight o.fences o.config.harts (turns o past) }
{}

/// In every such history, each fence asked of a hart, by itself or by another hart, was applied there once, or waits
/// there once (SBI 8).
pub fn applied_once()
    ensures { (o : Opening) (past : List Event) (t place : ℕ) (event : Event)
        → IsGood o.config
        → IsLegal o past
        → IsAtPlace o past place event
        → AppliedOnce o past t place event }
{}

/// The same for the fence of a call that was open at the opening: at each hart that it asked, it was applied once,
/// before the opening or since, or waits there once (SBI 8).
pub fn opened_once()
    ensures { (o : Opening) (past : List Event) (c t : ℕ) (call : FenceCall Flush)
        → IsGood o.config
        → IsLegal o past
        → OpenedOnce o past c t call }
{}

/// In particular, each remote fence asked of a hart was applied there once, or waits there once (SBI 8).
pub fn asked_once()
    ensures { (o : Opening) (past : List Event) (x t place : ℕ) (flush : Flush)
        → IsGood o.config
        → IsLegal o past
        → Asks o past x t place flush
        → times_met o.fences place (turns o past) t ≡ 1 }
{}

/// In every such history, the totals agree: the remote fences asked are as many as those applied plus those that wait,
/// at all harts together (SBI 8; the counts: profile).
pub fn fences_are_counted()
    ensures { (o : Opening) (past : List Event)
        → IsGood o.config
        → IsLegal o past
        → (totals o past).asked ≡ (totals o past).applied + (totals o past).waiting }
{}

/// In every such history, the total of applied fences is the opening's plus the remote fences applied since, at all
/// harts together. Local fences don't count (profile).
pub fn applied_is_counted()
    ensures { (o : Opening) (past : List Event)
        → IsGood o.config
        → IsLegal o past
        → (totals o past).applied ≡ o.fences.applied + total_remote o.fences o.config.harts (turns o past) }
{}

/// Right after a hart's stop, nothing is live in its caches, and no fence waits there (profile).
pub fn stops_leave_nothing()
    ensures { (o : Opening) (event : Event) (past : List Event) (t : ℕ)
        → StopsHart event t
        → LeavesNothing o (event ∷ past) t }
{}

/// In every legal history a hart inside a fence call is STARTED (SBI 8; that a call waits: profile).
pub fn calls_are_made_started()
    ensures { (o : Opening) (past : List Event) → IsLegal o past → CallsAreMadeStarted o past }
{}
