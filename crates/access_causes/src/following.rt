//! Follows a record on a fresh board, and finds why accesses are stale, unsteady, or not firm.
ghost use Rattle.std.specs.Prelude.{IfSome};
ghost use Rattle.board_terms.specs.Limits.{IsGood};

use crate::cause::{AccessCause, Asked, Fencing};
use crate::fences::{Fenced, next_behind, see_served};
use crate::look::Look;
use crate::seen::Seen;
use crate::sight::Sight;
use board_core::{Actor, Board, Config, Event, Op};
use std::alloc::{AllocError, Global};
use tlb_watch::is_quiet;

/// Why these accesses of a record are stale, unsteady, or not firm, on a board with these numbers from its first opening on. Their
/// places ascend. An access that isn't has no cause, nor has one of a record with more events than a history can have. The cost is
/// linear in the events, and for each that changes the memory, a satp or a TLB in the accesses.
///
/// # Errors
///
/// Out of memory.
pub fn causes_of(
    alloc: Global,
    config: &Config,
    events: &[Event],
    asked: &[Asked],
) -> Result<Vec<AccessCause>, AllocError> {
    let mut causes = Vec::new(alloc);
    let Some(config) = with_room(config, events.len() as u64) else {
        return Ok(causes);
    };
    let mut course = Course::new(alloc, &config, events)?;
    let mut looks = looks_at(alloc, &config, &course, asked)?;
    for at in 0..looks.len() {
        if let Some(cause) = next_cause(alloc, &mut course, &mut looks, at)? {
            causes.push(cause)?;
        }
    }
    course.follow(alloc, events.len(), &mut looks)?;
    see_next(&mut causes, &course.fences);
    Ok(causes)
}

/// The same board with a history of so many events, in which a record with cuts has room. None: no history has so many (profile).
pub fn with_room(config: &Config, events: u64) -> Option<Config>
    ensures { IfSome result IsGood }
{
    let mut roomy = *config;
    roomy.limit = events.max(1);
    if !roomy.is_good() {
        return None;
    }
    Some(roomy)
}

/// A record, whose events a board takes one by one, and its fences so far.
#[derive(Drop)]
struct Course<'a> {
    board: Board,
    events: &'a [Event],
    fences: Vec<Fenced>,
}

impl<'a> Course<'a> {
    /// Before the first event.
    fn new(alloc: Global, config: &Config, events: &'a [Event]) -> Result<Course<'a>, AllocError> {
        Ok(Course {
            board: new_board(alloc, config)?,
            events,
            fences: Vec::new(alloc),
        })
    }

    /// Takes the events up to this place, and shows the looks each that can change what they look at.
    fn follow(
        &mut self,
        alloc: Global,
        place: usize,
        looks: &mut [Look],
    ) -> Result<(), AllocError> {
        let events = self.events;
        let from = self.board.history().len();
        if let Some(left) = events.get(from..place) {
            for (after, event) in left.iter().enumerate() {
                self.take(alloc, from.saturating_add(after), event, looks)?;
            }
        }
        Ok(())
    }

    /// Takes the event of this place.
    fn take(
        &mut self,
        alloc: Global,
        place: usize,
        event: &Event,
        looks: &mut [Look],
    ) -> Result<(), AllocError> {
        if is_quiet(event.op()) {
            take(&mut self.board, event);
            return Ok(());
        }
        let seen = Seen::of(&self.board, place, event);
        if let Some((from, hart)) = served_by(&self.board, event) {
            see_served(&mut self.fences, from, hart);
        }
        take(&mut self.board, event);
        if let Some(fence) = Fenced::of(&self.board, &seen, event) {
            self.fences.push(fence)?;
        }
        show(alloc, &self.board, &seen, looks)
    }
}

/// The hart whose fence an event serves, and the hart that serves it, on the board as it is before it.
fn served_by(board: &Board, event: &Event) -> Option<(u64, u64)> {
    let Actor::Hart(hart) = event.actor() else {
        return None;
    };
    if hart >= board.config().harts || event.op() != Op::Serve {
        return None;
    }
    let request = board.waiting(hart).next()?;
    Some((request.from, hart))
}

/// The looks for these accesses, on a board before its first event.
fn looks_at(
    alloc: Global,
    config: &Config,
    course: &Course<'_>,
    asked: &[Asked],
) -> Result<Vec<Look>, AllocError> {
    let mut looks = Vec::new(alloc);
    let mut board = new_board(alloc, config)?;
    for one in asked {
        let Asked { place, asks } = *one;
        advance(&mut board, course.events, place);
        if let Some(event) = course.events.get(place)
            && let Some(sight) = Sight::of(&board, place, event)
        {
            looks.push(Look::new(alloc, &course.board, sight, asks))?;
        }
    }
    Ok(looks)
}

/// Makes the board take the steps of a record up to this place.
fn advance(board: &mut Board, events: &[Event], place: usize) {
    let from = board.history().len();
    if let Some(left) = events.get(from..place) {
        for event in left {
            take(board, event);
        }
    }
}

/// Makes the board take the step of an event.
fn take(board: &mut Board, event: &Event) {
    let _ = board.step(event.actor(), event.op());
}

/// An event was the board's last.
fn show(alloc: Global, board: &Board, seen: &Seen, looks: &mut [Look]) -> Result<(), AllocError> {
    for look in looks.iter_mut() {
        look.happened(alloc, board, seen)?;
    }
    Ok(())
}

/// Follows the record up to one of the accesses, and finds its cause.
fn next_cause(
    alloc: Global,
    course: &mut Course<'_>,
    looks: &mut [Look],
    at: usize,
) -> Result<Option<AccessCause>, AllocError> {
    let place = match looks.get(at) {
        Some(look) => look.place(),
        None => return Ok(None),
    };
    course.follow(alloc, place, looks)?;
    match looks.get(at) {
        Some(look) => look.cause(alloc, &course.board, &course.fences),
        None => Ok(None),
    }
}

/// Adds to causes without a fence the next one of the record.
fn see_next(causes: &mut [AccessCause], fences: &[Fenced]) {
    for cause in causes.iter_mut() {
        if let Fencing::Absent { before, .. } = cause.fencing {
            let next = next_behind(&*cause, fences);
            cause.fencing = Fencing::Absent { before, next };
        }
    }
}

/// A board with these numbers before its first event.
fn new_board(alloc: Global, config: &Config) -> Result<Board, AllocError> {
    match Board::new(alloc, config) {
        Ok(board) => Ok(board),
        Err(_) => Err(AllocError),
    }
}
