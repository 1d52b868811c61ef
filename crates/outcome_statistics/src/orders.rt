//! Orders of a seed, tried one after the other.
ghost use Rattle.std.specs.Prelude.{◌≡◌, ◌≤◌, ◌↔◌, ◌⊎◌, IfErr, IfOk, IsErrOf};
ghost use Rattle.board_terms.specs.Limits.{IsGood};
ghost use Rattle.guest_script.specs.Grammar.{Content, content};
ghost use Rattle.guest_programs.specs.declared.ends.RunFault.TheVariants.{BadConfig, NoMemory};
ghost use Rattle.guest_programs.specs.Programs.{IsProgram};
ghost use Rattle.guest_programs.specs.Steps.{task_in, task_of};
ghost use Rattle.outcome_statistics.specs.Findings.{AreFoundOf};

use crate::batch::Batch;
use crate::findings::Findings;
use crate::marking::marks_asked;
use board_core::Board;
use guest_programs::{Program, RunFault, new_board, program_in};
use seeded_orders::try_order_on;
use std::alloc::{AllocError, Global};

/// Tries the orders of a batch, and judges each record.
///
/// # Errors
///
/// The board line is outside the board's limits, or memory was refused.
pub fn try_orders(alloc: Global, batch: &Batch<'_>) -> Result<Findings, RunFault>
    requires program { IsProgram (content batch.now.script.now.body) }
    requires up { batch.now.from ≤ batch.now.to }
    ensures bad { IsErrOf result BadConfig ↔ ¬ IsGood batch.now.script.now.config }
    ensures fault { IfErr result (λ fault. (fault ≡ BadConfig) ⊎ (fault ≡ NoMemory)) }
    ensures found { IfOk result (AreFoundOf batch.now.script.now.config (content batch.now.script.now.body)
        batch.now.conditions.now batch.now.seed batch.now.from batch.now.to) }
{
    let mut board = new_board(alloc, &batch.script.config)?;
    Ok(tried_on(alloc, batch, &mut board)?)
}

/// The same on a given board, which begins anew for each order.
fn tried_on(alloc: Global, batch: &Batch<'_>, board: &mut Board) -> Result<Findings, AllocError>
    requires program { IsProgram (content batch.now.script.now.body) }
    requires up { batch.now.from ≤ batch.now.to }
    ensures { IfOk result (AreFoundOf board.old.opening.config (content batch.now.script.now.body)
        batch.now.conditions.now batch.now.seed batch.now.from batch.now.to) }
{
    let program = program_in(alloc, &batch.script.body)?;
    each_tried(alloc, &program, batch, board)
}

/// The same for a program.
fn each_tried(
    alloc: Global,
    program: &Program<'_>,
    batch: &Batch<'_>,
    board: &mut Board,
) -> Result<Findings, AllocError>
    requires { batch.now.from ≤ batch.now.to }
    ensures { (body : Content) → task_in program.now ≡ task_of body
        → IfOk result (AreFoundOf board.old.opening.config body batch.now.conditions.now batch.now.seed batch.now.from batch.now.to) }
{
    let mut found = Findings::new(alloc, batch.conditions.len())?;
    for order in batch.from..batch.to {
        let end = try_order_on(alloc, program, program.ticks, board, batch.seed, order)?;
        let marks = marks_asked(alloc, batch.conditions, board)?;
        found.see(alloc, batch.conditions, order, board, &marks, end)?;
    }
    Ok(found)
}
