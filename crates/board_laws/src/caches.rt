//! The live items in the caches of harts.
ghost use Rattle.std.specs.Prelude.{ℕ, ◌<◌, List, ◌∷◌, ◌++◌};
ghost use Rattle.tlb_model.specs.declared.fence.Flush.{Flush};
ghost use Rattle.rfence.specs.declared.opened.FenceCall.{FenceCall};
ghost use Rattle.board_core.specs.Cuts.{IsOpened};
ghost use Rattle.board_core.specs.Opening.{Opening};
ghost use Rattle.board_core.specs.History.{Event};
ghost use Rattle.board_core.specs.Replies.{IsLegal};
ghost use Rattle.board_laws.specs.Fences.{OpenedReached, Reached};
ghost use Rattle.board_laws.specs.Lives.{LivesFromItsDate, NoneLives, Struck};
ghost use Rattle.board_laws.specs.Seams.{AreLegal, joined, left_by};

/// In every legal history, a live TLB entry is the leaf that the page tables of its date gave an access of the hart, by
/// the satp of its date. A live word of an instruction cache is the memory's word of its date (Privileged 4.2.1;
/// Zifencei). Either may also have been live at the opening.
pub fn lives_from_its_date()
    ensures { (o : Opening) (past : List Event) (t : ℕ) → IsLegal o past → LivesFromItsDate o past t }
{}

/// After a fence was applied to the caches of a hart, or they were emptied, nothing is live there that the fence covers
/// and that was filled before (Privileged 4.2.1; Zifencei).
pub fn struck_is_gone()
    ensures { (o : Opening) (past : List Event) (t place : ℕ) (flush : Flush)
        → Struck o past t place flush
        → NoneLives o past t place flush }
{}

/// A fence that has reached a hart was applied to its caches, or they were emptied, when the fence was asked or later.
pub fn fences_strike()
    ensures { (o : Opening) (past : List Event) (t place : ℕ) (flush : Flush)
        → o.config.boot_hart < o.config.harts
        → IsLegal o past
        → Reached o past t place flush
        → Struck o past t place flush }
{}

/// After a fence has reached a hart, nothing is live in the hart's caches that the fence covers and that was filled
/// before the fence was asked (Privileged 4.2.1; SBI 8; Zifencei).
pub fn fenced_is_gone()
    ensures { (o : Opening) (past : List Event) (t place : ℕ) (flush : Flush)
        → o.config.boot_hart < o.config.harts
        → IsLegal o past
        → Reached o past t place flush
        → NoneLives o past t place flush }
{}

/// The same for a call that was open when the history was cut, once it has succeeded: at each hart that it asked,
/// nothing is live that its fence covers and that was filled before the call (Privileged 4.2.1; SBI 8; Zifencei).
pub fn opened_is_gone()
    ensures { (o : Opening) (past : List Event) (c t : ℕ) (call : FenceCall Flush)
        → IsOpened o
        → IsLegal o past
        → OpenedReached o past c t call
        → NoneLives o past t call.place call.flush }
{}

/// The same for any number of cuts: whichever parts have the ask and the poll, after the newest part nothing is live
/// that the fence covers and that was filled before the fence was asked (Privileged 4.2.1; SBI 8; Zifencei).
pub fn fences_outlast_cuts()
    ensures { (o : Opening) (newer : List Event) (parts : List (List Event)) (t place : ℕ) (flush : Flush)
        → IsOpened o
        → AreLegal o (newer ∷ parts)
        → Reached o (newer ++ joined parts) t place flush
        → NoneLives (left_by o parts) newer t place flush }
{}
