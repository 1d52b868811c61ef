//! Why a program is stuck: what each hart waits for.
ghost use Rattle.std.specs.Prelude.{◌<◌};

use board_core::{Actor, Board, Event, HartState, Reply, Sie};
use diagnostics::Case;
use guest_programs::is_guest;
use std::alloc::{AllocError, Global};
use std::fmt;

/// A hart that can't go on: the line that it stands at, and what could wake it.
#[derive(Drop)]
pub struct StuckHart {
    hart: u64,
    line: u64,
    said: String,
    ssip: bool,
    stip: bool,
    sie: Sie,
}

impl fmt::Display for StuckHart {
    fn fmt<W: fmt::Write>(&self, f: &mut fmt::Formatter<W>) -> fmt::Result {
        let StuckHart {
            hart,
            line,
            said,
            ssip,
            stip,
            sie,
        } = self;
        let ssip = u64::from(*ssip);
        let stip = u64::from(*stip);
        let ssie = u64::from(sie.ssie);
        let stie = u64::from(sie.stie);
        write!(
            f,
            "hart {hart}: line {line} '{said}': SSIP is {ssip}, STIP is {stip}, SSIE is {ssie}, STIE is {stie}"
        )
    }
}

/// How far the guest of a hart is: the address of its last entry, and how many operations it did since.
#[derive(Clone, Copy)]
pub(crate) struct Place {
    pub(crate) addr: u64,
    pub(crate) done: u64,
}

/// The harts of a stuck board that are not through.
pub fn stuck_harts(
    alloc: Global,
    case: &Case<'_>,
    board: &Board,
) -> Result<Vec<StuckHart>, AllocError> {
    let mut found = Vec::new(alloc);
    for h in 0..board.config().harts {
        if let Some(place) = place_of(board.history(), h)
            && let Some(hart) = stuck_at(alloc, case, board, h, place)?
        {
            found.push(hart)?;
        }
    }
    Ok(found)
}

/// How far the guest of a hart is, where it was entered.
pub(crate) fn place_of(events: &[Event], h: u64) -> Option<Place> {
    let mut found: Option<Place> = None;
    for event in events {
        if event.actor() != Actor::Hart(h) {
            continue;
        }
        if let Reply::Entry { addr, .. } = event.reply() {
            found = Some(Place { addr, done: 0 });
        } else if is_guest(event.op())
            && let Some(place) = found
        {
            found = Some(Place {
                addr: place.addr,
                done: place.done.saturating_add(1),
            });
        }
    }
    found
}

/// A hart at the line that it stands at, unless it is stopped or has done its block. If no step can be taken, no fence waits;
/// so the hart waits for an interrupt, at a `wfi` or suspended by the operation before.
fn stuck_at(
    alloc: Global,
    case: &Case<'_>,
    board: &Board,
    h: u64,
    place: Place,
) -> Result<Option<StuckHart>, AllocError>
    requires { h < board.now.opening.config.harts }
{
    let before = match board.state(h) {
        HartState::Started => place.done,
        HartState::Suspended => place.done.saturating_sub(1),
        _ => return Ok(None),
    };
    let Some((line, said)) = case.op_line(place.addr, before) else {
        return Ok(None);
    };
    Ok(Some(StuckHart {
        hart: h,
        line,
        said: String::from_str(alloc, said)?,
        ssip: board.ssip(h),
        stip: board.stip(h),
        sie: board.sie(h),
    }))
}
