//! Records of threads are histories of their program.
ghost use Rattle.std.specs.Prelude.{ℕ, List};
ghost use Rattle.board_core.specs.History.{Event};
ghost use Rattle.board_core.specs.Opening.{Opening};
ghost use Rattle.board_core.specs.Replies.{IsLegal};
ghost use Rattle.guest_programs.specs.Guests.{Next};
ghost use Rattle.guest_programs.specs.Histories.{IsHistory};
ghost use Rattle.guest_programs.specs.declared.ends.End.{End};
ghost use Rattle.hart_threads.specs.Shares.{IsRun};

use crate::gate::Gate;

/// The record of a run is a history of its program: each event was its actor's own. So what holds of all histories of a program
/// holds of each record of its threads. A law: there is nothing to run.
pub fn runs_are_histories<G: Gate>(gate: &G)
    ensures { (o : Opening) (guests : Next) (ticks : List ℕ) (past : List Event) (end : End) → IsLegal o past
        → IsRun (G.lets gate.now) o guests ticks past end
        → IsHistory o (record { guests = guests; ticks = ticks }) past }
{}
