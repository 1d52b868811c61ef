//! The marks of records, where conditions ask of them.
ghost use Rattle.std.specs.Prelude.{◌≡◌, IfOk, length, true};
ghost use Rattle.board_core.specs.Opening.{opening_at};
ghost use Rattle.outcome_statistics.specs.Findings.{AreMarkedFor, AskOfMarks, AskOfWalks};

use access_marks::{Marks, marks_of};
use board_core::Board;
use conditions::Condition;
use marked_conditions::{asks_of_marks, asks_of_walks};
use std::alloc::{AllocError, Global};

/// The marks of a board's history, if a condition asks of them; otherwise none. They say which accesses aren't firm or lenient, if a
/// condition asks of that.
///
/// # Errors
///
/// Memory was refused.
pub fn marks_asked(
    alloc: Global,
    conditions: &[Condition],
    board: &Board,
) -> Result<Vec<Marks>, AllocError>
    requires { board.now.opening ≡ opening_at board.now.opening.config }
    ensures marked { IfOk result (λ marks. AskOfMarks conditions.now
        → AreMarkedFor conditions.now board.now.opening.config board.now.past marks.items) }
    ensures length { IfOk result (λ marks. AskOfMarks conditions.now → length board.now.past ≡ length marks.items) }
{
    if !ask_of_marks(conditions) {
        return Ok(Vec::new(alloc));
    }
    let events = board.history();
    match marks_of(alloc, board.config(), events, ask_of_walks(conditions))? {
        Some(marks) => Ok(marks),
        None => unreachable!(),
    }
}

/// Whether some condition asks of marks.
pub fn ask_of_marks(conditions: &[Condition]) -> bool
    ensures { AskOfMarks conditions.now → result ≡ true }
{
    for condition in conditions {
        if asks_of_marks(&condition.rule) {
            return true;
        }
    }
    false
}

/// Whether some condition asks which accesses aren't firm or lenient.
pub fn ask_of_walks(conditions: &[Condition]) -> bool
    ensures { AskOfWalks conditions.now → result ≡ true }
{
    for condition in conditions {
        if asks_of_walks(&condition.rule) {
            return true;
        }
    }
    false
}
