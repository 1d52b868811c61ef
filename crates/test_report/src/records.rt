//! Steps and records as text.
ghost use Rattle.std.specs.Prelude.{◌≡◌};

use board_core::{Board, Event, Refusal, Reply};
use guest_programs::End;
use guest_script::Doing;
use monitor::{Failed, Sink, print, print_event, print_head, print_line};
use std::alloc::{AllocError, Global};

/// Bytes in memory that text is put into.
#[derive(Drop)]
struct Text {
    bytes: Vec<u8>,
    failures: u64,
    flushed: bool,
}

impl Text {
    /// A text without bytes, to which no call failed.
    fn new(alloc: Global) -> Text
        ensures { result.failures ≡ 0 }
    {
        Text {
            bytes: Vec::new(alloc),
            failures: 0,
            flushed: false,
        }
    }

    /// The bytes, where they were all taken.
    fn taken(self, put: Result<(), Failed>) -> Result<Vec<u8>, AllocError> {
        let Text {
            bytes,
            failures: _,
            flushed: _,
        } = self;
        match put {
            Ok(()) => Ok(bytes),
            Err(Failed) => Err(AllocError),
        }
    }
}

impl Sink for Text {
    ghost use Rattle.std.specs.Prelude.{Some};

    ghost written = { λ t. Some t.bytes.items };

    ghost is_flushed = { λ t. t.flushed };

    ghost failures = { λ t. t.failures };

    fn write(&mut self, piece: &[u8]) -> Result<usize, Failed> {
        self.flushed = false;
        match self.bytes.extend_from_slice(piece) {
            Ok(()) => Ok(piece.len()),
            Err(_) => {
                self.failures += 1;
                Err(Failed)
            }
        }
    }

    fn flush(&mut self) -> Result<(), Failed> {
        self.flushed = true;
        Ok(())
    }
}

/// The line of an event, as a trace has it.
pub(crate) fn event_line(alloc: Global, event: &Event) -> Result<Vec<u8>, AllocError> {
    let mut text = Text::new(alloc);
    let put = print_event(event, &mut text);
    text.taken(put)
}

/// A record: the board after it, the events before each cut of its history, all events, and of a program how it ended.
#[derive(Clone, Copy)]
pub struct RecordParts<'a> {
    /// The board.
    pub board: &'a Board,
    /// The events before each cut, since the one before.
    pub segments: &'a [Vec<Event>],
    /// All events, oldest first.
    pub events: &'a [Event],
    /// How it ended, where that counts.
    pub end: Option<End>,
    /// The lines of the events in the file, 0 of one that has none; of a program of blocks the guests' places tell them.
    pub lines: Option<&'a [u64]>,
}

impl<'a> RecordParts<'a> {
    /// The record of a board whose history was never cut.
    pub fn of(board: &'a Board, end: Option<End>) -> RecordParts<'a> {
        RecordParts {
            board,
            segments: &[],
            events: board.history(),
            end,
            lines: None,
        }
    }
}

/// The line of a step or of a cut, and its answer, as a trace has it.
pub fn step_line(
    alloc: Global,
    doing: Doing,
    answer: Result<Reply, Refusal>,
) -> Result<Vec<u8>, AllocError> {
    let mut text = Text::new(alloc);
    let put = print_line(doing, answer, &mut text);
    text.taken(put)
}

/// A record as a trace: the line of its board, its events and cuts, and the board's table behind.
pub fn record(alloc: Global, told: RecordParts<'_>) -> Result<Vec<u8>, AllocError> {
    let mut head = Text::new(alloc);
    let put = print_head(told.board.config(), &mut head);
    let mut bytes = head.taken(put)?;
    for segment in told.segments {
        put_events(alloc, segment, &mut bytes)?;
        let line = step_line(alloc, Doing::Cut, Ok(Reply::Done))?;
        bytes.extend_from_slice(&line)?;
    }
    put_events(alloc, told.board.history(), &mut bytes)?;
    let mut table = Text::new(alloc);
    let put = print(told.board, &mut table);
    let table = table.taken(put)?;
    bytes.extend_from_slice(&table)?;
    Ok(bytes)
}

/// Puts the line of each event.
fn put_events(alloc: Global, events: &[Event], bytes: &mut Vec<u8>) -> Result<(), AllocError> {
    for event in events {
        let line = event_line(alloc, event)?;
        bytes.extend_from_slice(&line)?;
    }
    Ok(())
}
