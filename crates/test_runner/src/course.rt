//! A board that does the lines of a schedule or a trace.
ghost use Rattle.std.specs.Prelude.{◌≡◌};
ghost use Rattle.board_terms.specs.Limits.{IsGood};

use crate::stale::Expected;
use board_core::{Board, Config, Event, Op, Refusal, Reply};
use guest_script::{Doing, KeptLine};
use std::alloc::{AllocError, Global};
use test_report::{RecordParts, Stale};

/// What is odd about a line.
#[derive(Clone, Copy)]
pub(crate) enum Odd {
    /// The step of this line was refused, by this number.
    Refused(u64, u64),
    /// The access of this line, the event in this place, was stale.
    Stale {
        line: u64,
        place: usize,
        stale: Stale,
    },
}

/// A board that does a schedule or a trace, with the events before its cuts.
#[derive(Drop)]
pub(crate) struct Course {
    board: Board,
    /// The events before each cut, since the one before.
    segments: Vec<Vec<Event>>,
    /// The line of each event.
    lines: Vec<u64>,
    /// Stale accesses, and refused steps.
    pub(crate) odd: Vec<Odd>,
}

impl Course {
    /// A board without a cut.
    pub(crate) fn of(alloc: Global, board: Board) -> Course {
        Course {
            board,
            segments: Vec::new(alloc),
            lines: Vec::new(alloc),
            odd: Vec::new(alloc),
        }
    }

    /// Makes the board do a line. A cut always succeeds.
    pub(crate) fn answer(
        &mut self,
        alloc: Global,
        line: &KeptLine<'_>,
    ) -> Result<Result<Reply, Refusal>, AllocError> {
        let Doing::Step { actor, op } = line.doing() else {
            let Ok(segment) = self.board.cut(alloc) else {
                return Err(AllocError);
            };
            self.segments.push(segment.events)?;
            return Ok(Ok(Reply::Done));
        };
        let expected = Expected::of(&self.board, actor, op);
        let answer = self.board.step(actor, op);
        if answer.is_ok()
            && let Some(expected) = expected
            && let Some(event) = self.board.history().last()
            && let Some(stale) = expected.stale(&self.board, event)
        {
            let place = self.lines.len();
            let line = line.number();
            self.odd.push(Odd::Stale { line, place, stale })?;
        }
        if answer.is_ok() {
            self.lines.push(line.number())?;
        }
        Ok(answer)
    }

    /// The board's numbers.
    pub(crate) fn config(&self) -> &Config
        ensures { IsGood result.now }
    {
        self.board.config()
    }

    /// All events, also those before cuts, oldest first.
    pub(crate) fn events(&self, alloc: Global) -> Result<Vec<Event>, AllocError> {
        let mut events = Vec::new(alloc);
        for segment in self.segments.iter() {
            events.extend_from_slice(segment)?;
        }
        events.extend_from_slice(self.board.history())?;
        Ok(events)
    }

    /// Whether a fence call can have missed an access of these events: one was stale, and a hart's call has ended.
    pub(crate) fn can_have_missed(&self, events: &[Event]) -> bool {
        let has_stale = self.odd.iter().any(|odd| matches!(odd, Odd::Stale { .. }));
        has_stale && events.iter().any(|event| matches!(event.op(), Op::Poll))
    }

    /// The record, whose events these are.
    pub(crate) fn record<'a>(&'a self, events: &'a [Event]) -> RecordParts<'a>
        ensures { result.events.now ≡ events.now }
    {
        RecordParts {
            board: &self.board,
            segments: &self.segments,
            events,
            end: None,
            lines: Some(&self.lines[..]),
        }
    }
}
