//! Writes a run's record while it grows.

ghost use Rattle.std.specs.Prelude.{◌≡◌, ◌^◌, ◌<◌, true, [], Ok, OnOk};
ghost use Rattle.printed_lines.specs.Sinks.{Passes};
ghost use Rattle.printed_lines.specs.Words.{event_words, as_line};
ghost use Rattle.sbiboard.specs.Keeping.{AppendsLines};

use board_core::{Actor, Config, Op, Reply};
use board_lock::{Receipt, Room};
use hart_threads::Gate;
use monitor::{Failed, Page, Sink, print_head};
use std::alloc::{AllocFailed, Global};
use std::collections::BTreeMap;
use std::sync::{Mutex, Wait};
use thiserror::Error;

/// Why a record was kept in part.
#[derive(Clone, Copy, Debug, PartialEq, Eq, Error)]
pub enum KeepFault {
    /// A write failed.
    #[error("output failed")]
    Failed,
    /// Memory was refused for an event that came before one that stands in front of it.
    #[error("no memory")]
    NoMemory,
}

impl From<Failed> for KeepFault {
    fn from(_failed: Failed) -> KeepFault {
        KeepFault::Failed
    }
}

impl From<AllocFailed<(u64, Step)>> for KeepFault {
    fn from(_refused: AllocFailed<(u64, Step)>) -> KeepFault {
        KeepFault::NoMemory
    }
}

/// An accepted operation, with its reply.
#[derive(Clone, Copy)]
pub(crate) struct Step {
    actor: Actor,
    op: Op,
    reply: Reply,
}

/// The lines of a record on their way into a sink, in their order.
#[derive(Drop)]
struct Lines<K: Sink> {
    sink: K,
    page: Page,
    /// The place of the next line.
    next: u64,
    /// Steps that arrived before an earlier step, by their places.
    early: BTreeMap<u64, Step>,
}

impl<K: Sink> Lines<K> {
    /// Takes the step of a place, and writes the lines of all steps up to the first that is missing, with one call if they fit
    /// on a page.
    ///
    /// # Errors
    ///
    /// A write failed, or memory was refused.
    fn add(&mut self, place: u64, step: Step) -> Result<(), KeepFault>
        requires counts { K.failures self.old.sink < 2 ^ 63 }
        requires none { self.old.page ≡ [] }
        ensures lines { OnOk result (AppendsLines (K.written self.old.sink) (K.written self.new.sink)) }
        ensures failed { OnOk result (K.failures self.new.sink ≡ K.failures self.old.sink) }
        ensures none { OnOk result (self.new.page ≡ []) }
    {
        if place != self.next {
            self.early.insert(place, step)?;
            return Ok(());
        }
        self.put(step)?;
        while let Some(step) = self.early.remove(&self.next) {
            self.put(step)?;
        }
        Ok(self.page.put(&mut self.sink)?)
    }

    /// Appends the next line to those that wait on the page.
    fn put(&mut self, step: Step) -> Result<(), Failed>
        requires { K.failures self.old.sink < 2 ^ 63 }
        ensures line { Passes K.written K.failures self.old.sink self.new.sink result self.old.page self.new.page
            (as_line (event_words step.actor step.op (Ok step.reply))) }
        ensures early { self.new.early ≡ self.old.early }
    {
        self.next = self.next.wrapping_add(1);
        self.page
            .print_step(step.actor, &step.op, Ok(step.reply), &mut self.sink)
    }
}

/// The lines that were written, and the first fault.
#[derive(Drop)]
struct Growing<K: Sink> {
    lines: Lines<K>,
    met: Result<(), KeepFault>,
    ghost counts: { met ≡ Ok tt → K.failures lines.sink < 2 ^ 63 },
    ghost none: { met ≡ Ok tt → lines.page ≡ [] },
}

impl<K: Sink> Growing<K> {
    /// Takes the step of a place; after a fault nothing more.
    fn add(&mut self, place: u64, step: Step) {
        if let Ok(()) = self.met {
            self.met = self.lines.add(place, step);
        }
    }
}

/// A gate that is always open, and writes each event into a sink: whole lines, in the order of their places.
#[derive(Drop)]
pub(crate) struct Keeper<'r, R, K: Sink> {
    rt: &'r R,
    growing: Mutex<Growing<K>>,
}

impl<'r, R: Wait, K: Sink> Keeper<'r, R, K> {
    /// A keeper of a new record, whose board line is written.
    pub(crate) fn new(rt: &'r R, alloc: Global, config: &Config, sink: K) -> Keeper<'r, R, K>
        requires { K.failures sink < 2 ^ 63 }
    {
        Keeper {
            rt,
            growing: Mutex::new(begun(alloc, config, sink)),
        }
    }

    /// The first fault, if there was one.
    pub(crate) fn met(&self) -> Result<(), KeepFault> {
        self.growing.lock(self.rt).met
    }
}

/// The board line is written.
fn begun<K: Sink>(alloc: Global, config: &Config, sink: K) -> Growing<K>
    requires { K.failures sink < 2 ^ 63 }
{
    let mut sink = sink;
    let met = match print_head(config, &mut sink) {
        Ok(()) => Ok(()),
        Err(Failed) => Err(KeepFault::Failed),
    };
    Growing {
        lines: Lines {
            sink,
            page: Page::new(),
            next: 0,
            early: BTreeMap::new(alloc),
        },
        met,
    }
}

impl<'r, R: Wait, K: Sink> Gate for Keeper<'r, R, K> {
    ghost lets = { λ _ _ _ answer. answer ≡ true };

    fn turn(&self, _actor: usize, _ordinal: usize) -> bool {
        true
    }

    fn told<B: Room>(&self, receipt: Receipt<B>) {
        let step = Step {
            actor: receipt.actor(),
            op: receipt.op(),
            reply: receipt.reply(),
        };
        self.growing.lock(self.rt).add(receipt.place(), step);
    }
}
