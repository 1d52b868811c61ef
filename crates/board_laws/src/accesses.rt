//! The answers of accesses after fences.
ghost use Rattle.std.specs.Prelude.{◌≡◌, ℕ, ◌<◌, List, Result, Some};
ghost use Rattle.sv39.specs.declared.cause.Cause.{Cause};
ghost use Rattle.sv39.specs.declared.page.Leaf.{Leaf};
ghost use Rattle.tlb_model.specs.Entries.{Entry};
ghost use Rattle.tlb_model.specs.declared.fence.Fence.{Fence};
ghost use Rattle.hart_access.specs.Translations.{IsTranslated};
ghost use Rattle.hart_access.specs.Ways.{phys_at};
ghost use Rattle.board_core.specs.Cuts.{IsOpened};
ghost use Rattle.board_core.specs.Opening.{Opening};
ghost use Rattle.board_core.specs.History.{Event, Reach};
ghost use Rattle.board_core.specs.Memory.{satp};
ghost use Rattle.board_core.specs.Replies.{IsLegal};
ghost use Rattle.board_laws.specs.Fresh.{FencedAccess, FencedFetch, GivenAfter, StoodAfter};
ghost use Rattle.board_laws.specs.Limits.{with_limit};
ghost use Rattle.board_laws.specs.Places.{past_at};
ghost use Rattle.board_laws.specs.Steady.{IsDecidedBy, TablesAreSteady};

/// Let an access use a translation, after a fence that covers it has reached the hart. Then the page tables gave that
/// translation at some time after the fence was asked, and not later than the access (Privileged 4.2.1; SBI 8). This
/// holds on every opening of a board, also after cuts, and for any limit; so it also holds for the joined parts of a
/// history that was cut.
pub fn translations_are_fresh()
    ensures { (o : Opening) (past : List Event) (limit t a p : ℕ) (fence : Fence) (reach : Reach) (entry : Entry)
        → IsOpened (with_limit limit o)
        → IsLegal o past
        → (x : FencedAccess o past t a p fence reach)
        → x.event.translation ≡ Some entry
        → GivenAfter o past t a p reach.va entry.leaf }
{}

/// A fetch after a FENCE.I answers a word that the memory had there after the fence was asked, and not later than the
/// fetch (Zifencei; SBI 8).
pub fn fetches_are_fresh()
    ensures { (o : Opening) (past : List Event) (t a p va value : ℕ)
        → o.config.boot_hart < o.config.harts
        → IsLegal o past
        → (x : FencedFetch o past t a p va value)
        → StoodAfter o past a p (phys_at x.event.translation va) value }
{}

/// Let a hart make an access that satp translates, after a fence that covers it has reached the hart. If satp and the
/// page tables' result for the access haven't changed since the fence was asked, that result decides the access, as on
/// a board without TLBs (Privileged 4.2.1; SBI 8). This holds on every opening of a board, as above.
pub fn steady_tables_decide()
    ensures { (o : Opening) (past : List Event) (limit t a p : ℕ) (fence : Fence) (reach : Reach) (result : Result Leaf Cause)
        → IsOpened (with_limit limit o)
        → IsLegal o past
        → (x : FencedAccess o past t a p fence reach)
        → IsTranslated (satp o (past_at o past p) t) reach.va
        → TablesAreSteady o past t a p reach result
        → IsDecidedBy o (past_at o past p) t x.event reach result }
{}
