//! The headline: what holds of every board.
ghost use Rattle.board_laws.specs.Headline.{Headline};

use crate::caches::{fenced_is_gone, opened_is_gone};
use crate::fences::{applied_once, opened_once};
use crate::need::{needed_serves_are_accepted, needs_are_few, served_calls_can_end};
use board_core::{Board, starts_are_entered};

/// What holds of every board, whatever steps were made. Its history follows the written rules. Its starts are entered.
/// Each fence was applied once or waits once. What a successful fence covers is gone. A fence call needs a bounded
/// number of serves, and then it can end.
pub fn headline(board: &Board)
    ensures { Headline board.now.opening board.now.past }
{
    let _config = board.config();
    let _history = board.history();
    starts_are_entered();
    applied_once();
    opened_once();
    fenced_is_gone();
    opened_is_gone();
    needs_are_few();
    needed_serves_are_accepted();
    served_calls_can_end();
}
