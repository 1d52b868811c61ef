//! What the marks of a history say of all of it.
ghost use Rattle.std.specs.Prelude.{◌≡◌, List, false};
ghost use Rattle.std.specs.List.{All};
ghost use Rattle.board_core.specs.History.{Event};
ghost use Rattle.board_core.specs.Opening.{Opening};
ghost use Rattle.any_tlb.specs.Firm.{AllAreFirm};
ghost use Rattle.any_tlb.specs.Steady.{AllAreSteady};
ghost use Rattle.access_marks.specs.declared.marks.Marks.{Marks as Said};
ghost use Rattle.access_marks.specs.Marks.{AreMarked, AreWalksMarked};

/// If no access of a history is marked as unsteady, all are steady: then each board with any caches gives the same replies to
/// the same steps (`any_tlb::steady_boards_agree`). A law: there is nothing to run.
pub fn unmarked_is_steady()
    ensures { (o : Opening) (past : List Event) (marks : List Said) → AreMarked o past marks
        → All (λ (m : Said). m.unsteady ≡ false) marks
        → AllAreSteady o past }
{}

/// If no access of a history is marked as unfirm, all are firm (`any_tlb::firm_walks_decide`). A law: there is nothing to run.
pub fn unmarked_is_firm()
    ensures { (o : Opening) (past : List Event) (marks : List Said) → AreWalksMarked o past marks
        → All (λ (m : Said). m.unfirm ≡ false) marks
        → AllAreFirm o past }
{}
