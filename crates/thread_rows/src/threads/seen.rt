//! What a run shows.

use crate::threads::gates::Holding;
use board_core::{Board, Event, Op};
use guest_script::ScriptFault;
use hart_threads::{End, RunEnd, RunFault};
use std::time::Clock;
use thiserror::Error;

/// What a run shows that is the same whatever the schedule was.
#[derive(Clone, Copy, Debug)]
pub struct Seen {
    end: End,
    events: usize,
    asked: u64,
    applied: u64,
    waiting: u64,
    time: u64,
}

impl Seen {
    pub fn of(run: &RunEnd) -> Seen {
        let totals = run.board.totals();
        Seen {
            end: run.end,
            events: run.board.history().len(),
            asked: totals.asked,
            applied: totals.applied,
            waiting: totals.waiting,
            time: run.board.time(),
        }
    }
}

/// What a gate was asked.
#[derive(Clone, Copy, Debug)]
pub struct Questions {
    /// By each actor.
    of: [usize; 4],
    in_order: bool,
}

impl Questions {
    pub fn of<R: Clock>(gate: &Holding<'_, R>) -> Questions {
        Questions {
            of: gate.questions(),
            in_order: gate.is_in_order(),
        }
    }
}

/// Why nothing was seen.
#[derive(Clone, Copy, Debug, Error)]
pub enum Why {
    #[error("{0}")]
    Script(#[from] ScriptFault),
    #[error("{0}")]
    Run(#[from] RunFault),
}
