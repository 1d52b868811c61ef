//! Where harts stand.
ghost use Rattle.std.specs.Prelude.{◌<◌};

use crate::answers::Search;
use crate::source::put_source;
use asm_guests::{AsmGuest, Code, Lost};
use board_core::{Board, HartState};
use std::alloc::{AllocError, Global};
use std::fmt::Write;

/// Where each hart stands that isn't done, if its guest is in this place, one a line.
///
/// # Errors
///
/// Memory was refused.
pub(crate) fn standing<C: Code>(
    alloc: Global,
    search: &Search<'_, C>,
    board: &Board,
    places: &[AsmGuest],
) -> Result<Vec<String>, AllocError> {
    let mut all = Vec::new(alloc);
    for h in 0..board.config().harts {
        if let Some(guest) = places.get(h as usize)
            && !is_done(board, h, guest)
        {
            all.push(stand(alloc, search, board, h, guest)?)?;
        }
    }
    Ok(all)
}

/// Whether a hart is STOPPED, or is STARTED with a guest that is through.
fn is_done(board: &Board, h: u64, guest: &AsmGuest) -> bool
    requires { h < board.now.opening.config.harts }
{
    match board.state(h) {
        HartState::Stopped => true,
        HartState::Started => {
            board.outstanding(h).is_none()
                && matches!(guest, AsmGuest::Nowhere | AsmGuest::Through(_))
        }
        _ => false,
    }
}

/// Where a hart stands, and what could wake it.
fn stand<C: Code>(
    alloc: Global,
    search: &Search<'_, C>,
    board: &Board,
    h: u64,
    guest: &AsmGuest,
) -> Result<String, AllocError>
    requires { h < board.now.opening.config.harts }
{
    let mut text = format!(in alloc; "hart {h}: ")?;
    put_guest(search, guest, &mut text)?;
    let sie = board.sie(h);
    let state = state_name(board.state(h));
    let ssip = u64::from(board.ssip(h));
    let stip = u64::from(board.stip(h));
    let ssie = u64::from(sie.ssie);
    let stie = u64::from(sie.stie);
    write!(
        text,
        ": {state}, SSIP is {ssip}, STIP is {stip}, SSIE is {ssie}, STIE is {stie}"
    )?;
    Ok(text)
}

/// Adds where a guest is.
///
/// # Errors
///
/// Memory was refused.
pub(crate) fn put_guest<C: Code>(
    search: &Search<'_, C>,
    guest: &AsmGuest,
    out: &mut String,
) -> Result<(), AllocError> {
    match guest {
        AsmGuest::Nowhere => out.push_str("not entered"),
        AsmGuest::Through(_) => out.push_str("through"),
        AsmGuest::Before(state) | AsmGuest::Trapping(state) => put_source(search, state.pc, out),
        AsmGuest::Astray(lost, at) => put_lost(search, *lost, *at, out),
    }
}

/// Adds why a guest is lost, and where.
///
/// # Errors
///
/// Memory was refused.
pub(crate) fn put_lost<C: Code>(
    search: &Search<'_, C>,
    lost: Lost,
    at: u64,
    out: &mut String,
) -> Result<(), AllocError> {
    out.push_str("lost at ")?;
    put_source(search, at, out)?;
    out.push_str(why_lost(lost))
}

/// Why a guest is lost.
fn why_lost(lost: Lost) -> &'static str {
    match lost {
        Lost::NoInstruction => ", where no instruction is",
        Lost::Endless => ", after 100,000 instructions without an operation",
        Lost::NoHandler => ", by a trap before stvec is written",
        Lost::UserMode => ", by an sret to user mode",
    }
}

/// The name of a hart's state (SBI 9).
fn state_name(state: HartState) -> &'static str {
    match state {
        HartState::Started => "STARTED",
        HartState::Stopped => "STOPPED",
        HartState::StartPending => "START_PENDING",
        HartState::StopPending => "STOP_PENDING",
        HartState::Suspended => "SUSPENDED",
        HartState::SuspendPending => "SUSPEND_PENDING",
        HartState::ResumePending => "RESUME_PENDING",
    }
}
