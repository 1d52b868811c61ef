//! Logs of walks and histories.
ghost use Rattle.std.specs.Prelude.{◌∷◌, ℕ, List};
ghost use Rattle.board_core.specs.History.{Event};
ghost use Rattle.board_core.specs.Opening.{Opening};
ghost use Rattle.any_tlb.specs.Quiet.{HasNoEffect};
ghost use Rattle.walk_watch.specs.Logged.{IsLogged, LoggedWalks};

/// A log that doesn't note an event is that of the history with it, if the event does nothing to caches and changes neither the
/// memory nor a satp. A law: there is nothing to run.
pub fn logs_outlast_quiet_events()
    ensures { (o : Opening) (event : Event) (past : List Event) (log : LoggedWalks)
        → ((h : ℕ) → HasNoEffect o event past h)
        → IsLogged o past log
        → IsLogged o (event ∷ past) log }
{}
