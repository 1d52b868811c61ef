//! Accesses of this board by entries that the page tables no longer give.
ghost use Rattle.std.specs.Prelude.{◌≡◌, ℕ, List, ◌∷◌, Some};
ghost use Rattle.tlb_model.specs.declared.fence.Flush.TheVariants.{Entries};
ghost use Rattle.hart_access.specs.AccessKinds.{kind_of};
ghost use Rattle.board_core.specs.Cuts.{IsOpened};
ghost use Rattle.board_core.specs.History.{Event, Reach, access_of};
ghost use Rattle.board_core.specs.Opening.{Opening};
ghost use Rattle.board_core.specs.Replies.{IsLegal};
ghost use Rattle.board_terms.specs.declared.op.Actor.TheVariants.{Hart};
ghost use Rattle.board_laws.specs.Fences.{Asks};
ghost use Rattle.any_tlb.specs.Stale.{IsMissed, IsStale};
ghost use Rattle.any_tlb.specs.Steady.{IsSteady};

/// An access that a fence call missed is stale.
pub fn missed_is_stale()
    ensures { (o : Opening) (past : List Event) (h : ℕ) (event : Event) (reach : Reach)
        → IsMissed o past h event reach
        → IsStale o past h event reach }
{}

/// In every legal history, a stale access isn't steady.
pub fn stale_is_unsteady()
    ensures { (o : Opening) (event : Event) (past : List Event) (h : ℕ) (reach : Reach)
        → IsLegal o (event ∷ past)
        → event.actor ≡ Hart h
        → access_of event.op ≡ Some reach
        → IsStale o past h event reach
        → IsSteady o past h reach.va (kind_of reach.access)
        → ⊥ }
{}

/// In every legal history on an opening that a board can reach, a fence call that asked a hart misses no access of
/// that hart (SBI 8).
pub fn asked_harts_miss_nothing()
    ensures { (o : Opening) (event : Event) (past : List Event) (h : ℕ) (reach : Reach)
        → IsOpened o
        → IsLegal o (event ∷ past)
        → event.actor ≡ Hart h
        → access_of event.op ≡ Some reach
        → (x : IsMissed o past h event reach)
        → Asks o past x.caller h x.place (Entries x.fence)
        → ⊥ }
{}
