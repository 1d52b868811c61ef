//! What a row has seen.

use crate::locks::record::check;
use crate::locks::{single, splitting};
use board_core::{Actor, Board, BuildFault, Config, Event, Op, Refusal, Reply};
use board_lock::{HartView, Receipt, Record, Rest, Room};
use std::alloc::AllocError;
use std::sync::Wait;
use thiserror::Error;

/// What a row has seen: it is the same whatever the schedule was.
#[derive(Clone, Copy, Debug)]
pub enum Seen {
    /// Receipts, the views that came with them, a refusal, the events of hart 0 and of the clock, and what the look of the last
    /// receipt found.
    Single([Told; 3], [HartView; 3], Refusal, usize, usize, (Actor, Op, Reply)),
    /// What the past of a split record finds by the last receipt, what is left of its board, how many seats that has behind a
    /// new lock, and what a call by the first is told.
    Split(Found, Left, usize, Told),
    /// How many seats came back of each refused close.
    Closes(usize, usize, usize),
    /// How many receipts there were, how many events, and which pairs were asked and applied, at what time.
    Many {
        receipts: usize,
        events: usize,
        asked: u64,
        applied: u64,
        time: u64,
    },
    /// Rests that were over at once, and how many events there were.
    Rests(Rest, Rest, Rest, usize),
    /// How many events there were of a board that went on, how many of them are left, and how many receipts were looked up.
    Parts {
        events: u64,
        kept: usize,
        looks: usize,
    },
    /// How many events there were, and how long the calls took. (Only this depends on the schedule.)
    Repeats {
        events: usize,
        nanoseconds: u128,
    },
}

/// What a row notes before its close.
#[derive(Clone, Copy)]
pub enum Noted {
    /// The views that came with accepted calls, and the refusal of the call that is refused.
    Single([HartView; 3], Refusal),
    /// Nothing: the row is of its record.
    Split,
    /// Nothing: the row is of its closes.
    Closes,
    /// Nothing: the row is of its receipts.
    Receipts,
    /// What rests returned.
    Rests([Rest; 3]),
    /// How long the calls took.
    Nanoseconds(u128),
}

impl Noted {
    /// How many of the last seats the first close lacks.
    pub fn lacking(&self) -> usize {
        match self {
            Noted::Single(..) => 1,
            Noted::Closes => 3,
            Noted::Split | Noted::Receipts | Noted::Rests(_) | Noted::Nanoseconds(_) => 0,
        }
    }
}

impl Noted {
    fn is_timed(&self) -> bool {
        match self {
            Noted::Nanoseconds(_) => true,
            _ => false,
        }
    }

    fn is_split(&self) -> bool {
        match self {
            Noted::Split => true,
            _ => false,
        }
    }
}

impl Seen {
    /// What the record and the receipts say, with what was noted, and how many seats came back of refused closes. Each receipt
    /// is looked up, and the record replayed by one thread, but for calls that are timed.
    pub fn of<K: Room, R: AllocGlobal + Wait>(
        rt: &R,
        config: &Config,
        record: Record<K>,
        receipts: &[Receipt<K>],
        noted: &Noted,
        back: [usize; 3],
    ) -> Result<Seen, Why> {
        if !noted.is_timed() {
            check(rt.alloc(), config, &record, receipts)?;
        }
        if noted.is_split() {
            return splitting::seen(rt, record, receipts);
        }
        Seen::of_whole(&record, receipts, noted, back)
    }

    /// The same of a record that isn't split.
    fn of_whole<K: Room>(
        record: &Record<K>,
        receipts: &[Receipt<K>],
        noted: &Noted,
        back: [usize; 3],
    ) -> Result<Seen, Why> {
        let events = record.events().len();
        match noted {
            Noted::Single(views, refusal) => single::seen(record, receipts, views, *refusal),
            Noted::Closes => Ok(Seen::Closes(back[0], back[1], back[2])),
            Noted::Rests(told) => Ok(Seen::Rests(told[0], told[1], told[2], events)),
            Noted::Split | Noted::Receipts => Ok(Seen::of_many(record, receipts.len())),
            Noted::Nanoseconds(nanoseconds) => Ok(Seen::Repeats {
                events,
                nanoseconds: *nanoseconds,
            }),
        }
    }

    fn of_many<K: Room>(record: &Record<K>, receipts: usize) -> Seen {
        let totals = record.board().totals();
        Seen::Many {
            receipts,
            events: record.events().len(),
            asked: totals.asked,
            applied: totals.applied,
            time: record.board().time(),
        }
    }
}

/// What a receipt says.
#[derive(Clone, Copy, Debug)]
pub struct Told {
    actor: Actor,
    ordinal: u64,
    place: u64,
    op: Op,
    reply: Reply,
}

impl Told {
    pub fn of<K: Room>(receipt: &Receipt<K>) -> Told {
        Told {
            actor: receipt.actor(),
            ordinal: receipt.ordinal(),
            place: receipt.place(),
            op: receipt.op(),
            reply: receipt.reply(),
        }
    }
}

/// What a past finds: how many events it has, where among them the event stands that was found, and that event.
#[derive(Clone, Copy, Debug)]
pub struct Found {
    events: usize,
    place: Option<usize>,
    event: (Actor, Op, Reply),
}

impl Found {
    pub fn of(events: &[Event], event: &Event) -> Found {
        Found {
            events: events.len(),
            place: events.iter().position(|other| other == event),
            event: (event.actor(), event.op(), event.reply()),
        }
    }
}

/// What is left of a board after a cut: how many events it has, its time, and the starts and entries that it counts.
#[derive(Clone, Copy, Debug)]
pub struct Left {
    events: usize,
    time: u64,
    starts: u64,
    entries: u64,
}

impl Left {
    pub fn of(board: &Board) -> Left {
        let totals = board.totals();
        Left {
            events: board.history().len(),
            time: board.time(),
            starts: totals.starts,
            entries: totals.entries,
        }
    }
}

/// Why nothing was seen.
#[derive(Clone, Copy, Debug, Error)]
pub enum Why {
    #[error("{0}")]
    Board(#[from] BuildFault),
    #[error("refused: {0}")]
    Refused(#[from] Refusal),
    #[error("no memory")]
    Memory(#[from] AllocError),
    #[error("no thread")]
    Thread,
    #[error("a seat was lost, or was missing where none should be")]
    Seats,
    #[error("accepted where it should be refused")]
    Accepted,
    #[error("a receipt doesn't stand in the record")]
    Receipt,
    #[error("one thread gets other replies")]
    Replies,
    #[error("no clock")]
    Clock,
}
