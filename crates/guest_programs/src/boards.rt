//! A new board for a run.
ghost use Rattle.std.specs.Prelude.{◌≡◌, ◌↔◌, ◌⊎◌, [], IfErr, IfOk, IsErrOf};
ghost use Rattle.board_terms.specs.Limits.{IsGood};
ghost use Rattle.board_core.specs.Opening.{opening_at};
ghost use Rattle.guest_programs.specs.declared.ends.RunFault.TheVariants.{BadConfig, NoMemory};

use crate::ends::RunFault;
use board_core::{Board, BuildFault, Config};
use std::alloc::Global;

/// A new board with these numbers, for a run.
///
/// # Errors
///
/// `BadConfig`: a number is outside the limits. `NoMemory`: out of memory.
pub fn new_board(alloc: Global, config: &Config) -> Result<Board, RunFault>
    ensures bad { IsErrOf result BadConfig ↔ ¬ IsGood config.now }
    ensures fault { IfErr result (λ fault. (fault ≡ BadConfig) ⊎ (fault ≡ NoMemory)) }
    ensures made { IfOk result (λ b. b ≡ record { opening = opening_at config.now; past = [] }) }
{
    match Board::new(alloc, config) {
        Ok(board) => Ok(board),
        Err(BuildFault::BadConfig) => Err(RunFault::BadConfig),
        Err(BuildFault::NoMemory) => Err(RunFault::NoMemory),
        // (no history is cut here)
        Err(BuildFault::CutFull) => unreachable!(),
    }
}
