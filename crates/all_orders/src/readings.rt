//! The values that a program's loads, fetches and AMOs give.
use board_core::{Actor, Event, Op, Reply};
use indexmap::IndexSet;
use outcome_statistics::Spot;
use std::alloc::{AllocError, Global};
use test_report::Given;

/// A load, a fetch or an AMO of a program: its hart, and where it stands.
#[derive(Clone, Copy, PartialEq, Eq, Hash)]
pub(crate) struct Load {
    pub(crate) hart: u64,
    pub(crate) spot: Spot,
}

/// What one load gave; the load is a place in the list of loads.
#[derive(Clone, Copy, PartialEq, Eq, Hash)]
pub(crate) struct Reading {
    pub(crate) load: usize,
    pub(crate) given: Given,
}

/// The loads of all orders, and all values that they gave.
#[derive(Drop)]
pub(crate) struct Readings {
    pub(crate) loads: IndexSet<Load>,
    all: IndexSet<Reading>,
}

impl Readings {
    /// Before any step.
    pub(crate) fn new(alloc: Global) -> Readings {
        Readings {
            loads: IndexSet::new(alloc),
            all: IndexSet::new(alloc),
        }
    }

    /// The number, from 1, of what a step read whose guest is at this place; 0 if it read nothing.
    pub(crate) fn number(
        &mut self,
        event: &Event,
        guest: Option<Spot>,
    ) -> Result<usize, AllocError> {
        let (Some(spot), Some(given)) = (guest, given_by(event)) else {
            return Ok(0);
        };
        let Actor::Hart(hart) = event.actor() else {
            return Ok(0);
        };
        let (load, _) = self.loads.insert_full(Load { hart, spot })?;
        let (place, _) = self.all.insert_full(Reading { load, given })?;
        Ok(place.saturating_add(1))
    }

    /// The reading of a number, if there is one.
    pub(crate) fn reading(&self, number: usize) -> Option<Reading> {
        self.all.get_index(number.checked_sub(1)?).copied()
    }
}

/// What an operation gave that reads the memory.
fn given_by(event: &Event) -> Option<Given> {
    if !is_reading(event.op()) {
        return None;
    }
    match event.reply() {
        Reply::Value(value) => Some(Given::Value(value)),
        Reply::Fault(cause) => Some(Given::Fault(cause.number())),
        _ => None,
    }
}

/// Whether an operation reads the memory.
fn is_reading(op: Op) -> bool {
    match op {
        Op::Load(_) | Op::Fetch(_) => true,
        Op::Amo(_, amo) => amo.reads(),
        _ => false,
    }
}
