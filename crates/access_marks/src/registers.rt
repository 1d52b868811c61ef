//! The harts' registers.
ghost use Rattle.std.specs.Prelude.{◌≡◌, ◌<◌, ℕ, IfOk, length};
ghost use Rattle.board_core.specs.Memory.{satp};
ghost use Rattle.tlb_watch.specs.Tracked.{satp_in};

use board_core::Board;
use std::alloc::{AllocError, Global};
use sv39::Satp;

/// The satp of each hart.
///
/// # Errors
///
/// Out of memory.
pub(crate) fn satps(alloc: Global, board: &Board) -> Result<Vec<Satp>, AllocError>
    ensures length { IfOk result (λ satps. length satps.items ≡ board.now.opening.config.harts) }
    ensures each { IfOk result (λ satps. (h : ℕ) → h < board.now.opening.config.harts
        → satp_in satps.items h ≡ satp board.now.opening board.now.past h) }
{
    let view = board.view();
    let mut satps = Vec::new(alloc);
    for hart in 0..board.config().harts {
        satps.push(view.satp_register(hart))?;
    }
    Ok(satps)
}
