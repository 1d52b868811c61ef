//! Boards that are made, and whose histories are cut.

ghost use Rattle.std.specs.Prelude.{◌≡◌, [], OnOk};

use crate::calls::{fresh_board, script, step};
use crate::memory::scripts::SCHEDULE;
use crate::memory::telling::{begin, is_made, show};
use board_core::{Board, BuildFault, Config, Totals, USUAL_ASID_LEN, USUAL_WIDTH};
use guest_script::{Body, Doing, Lines};
use std::alloc::Global;

/// A board of three harts and two pages.
pub const CONFIG: Config = Config {
    harts: 3,
    pages: 2,
    limit: 60,
    boot_hart: 0,
    boot_addr: 0x8000_0000,
    boot_opaque: 7,
    asid_len: USUAL_ASID_LEN,
    width: USUAL_WIDTH,
};

/// Makes a board, and again where memory was refused.
pub fn make<R: AllocGlobal + Print>(rt: &R) {
    for _ in 0..2 {
        begin(rt, "Board::new");
        if is_made(rt, "Board::new", &made(rt.alloc())) {
            break;
        }
    }
}

fn made(alloc: Global) -> Result<Totals, BuildFault> {
    let board = fresh_board(alloc, &CONFIG)?;
    Ok(board.totals())
}

/// A board after the steps of the schedule.
pub fn busy(alloc: Global) -> Option<Board> {
    let script = script(alloc, SCHEDULE).ok()?;
    let board = fresh_board(alloc, &script.config).ok()?;
    match &script.body {
        Body::Schedule(lines) => Some(after(board, lines)),
        _ => None,
    }
}

fn after(board: Board, lines: &Lines) -> Board {
    let mut board = board;
    for line in lines.iter() {
        if let Doing::Step { actor, op } = line.doing() {
            let _ = step(&mut board, actor, op);
        }
    }
    board
}

/// Cuts the history of a board, and of one whose history was cut.
pub fn cut<R: AllocGlobal + Print>(rt: &R) {
    if let Some(mut board) = busy(rt.alloc()) {
        cut_off(rt, "Board::cut", &mut board);
        cut_off(rt, "Board::cut, again", &mut board);
    }
}

/// Cuts the history of a board, and again if an allocation failed.
fn cut_off<R: AllocGlobal + Print>(rt: &R, call: &str, board: &mut Board) {
    for _ in 0..2 {
        show(rt, call, board);
        begin(rt, call);
        if is_made(rt, call, &segment(rt.alloc(), board)) {
            break;
        }
    }
}

/// Cuts a history: how many events it had, and how many came before it.
pub fn segment(alloc: Global, board: &mut Board) -> Result<(usize, u64), BuildFault>
    ensures { OnOk result (board.new.past ≡ []) }
{
    let segment = board.cut(alloc)?;
    Ok((segment.events.len(), segment.opening.places()))
}
