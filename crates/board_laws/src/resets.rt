//! The state after a system reset.
ghost use Rattle.std.specs.Prelude.{◌≡◌, List, ◌∷◌, Some};
ghost use Rattle.sbi_abi.specs.declared.reset.Reset.{Reset};
ghost use Rattle.board_core.specs.Opening.{Opening};
ghost use Rattle.board_core.specs.History.{Event};
ghost use Rattle.board_core.specs.Replies.{IsLegal};
ghost use Rattle.board_core.specs.Resets.{reset_by};
ghost use Rattle.board_laws.specs.Resets.{IsFresh};

/// A system reset, of any kind and at any point of a legal history, keeps only the time and, unless it is a cold
/// reboot, the memory. After a shutdown every step is refused (SBI 10.1; profile).
pub fn resets_are_fresh()
    ensures { (o : Opening) (event : Event) (past : List Event) (reset : Reset)
        → IsLegal o (event ∷ past)
        → reset_by event.op event.reply ≡ Some reset
        → IsFresh o reset past (event ∷ past) }
{}
