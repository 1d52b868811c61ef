//! Histories and their steps.
ghost use Rattle.std.specs.Prelude.{◌≡◌, ◌↔◌, List};
ghost use Rattle.board_core.specs.Opening.{IsOpening, Opening};
ghost use Rattle.board_core.specs.History.{Event};
ghost use Rattle.board_core.specs.Replies.{IsLegal};
ghost use Rattle.board_laws.specs.Again.{again, actor_steps};

/// A history is legal if and only if its actors and operations determine it: the same steps, taken again, are all
/// accepted, get the same replies and use the same entries. So a history of steps alone loses nothing.
pub fn recorded_is_recomputed()
    ensures { (o : Opening) (past : List Event) → IsOpening o → IsLegal o past ↔ (again o (actor_steps past) ≡ past) }
{}
