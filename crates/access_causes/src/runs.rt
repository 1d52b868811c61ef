//! The runs of the entries that walks gave a hart for an address.
use board_core::{Entry, Flush, Leaf};
use std::alloc::{AllocError, Global};
use tlb_model::Cached;

/// An entry that walks gave, since the event in one place, up to the one in another, or to now.
#[derive(Clone, Copy)]
pub(crate) struct Run {
    leaf: Leaf,
    asid: u16,
    pub(crate) from: usize,
    pub(crate) until: Option<usize>,
}

impl Run {
    /// Walks have given an entry since the event in this place.
    fn new(entry: &Entry, from: usize) -> Run {
        Run {
            leaf: entry.leaf(),
            asid: entry.asid(),
            from,
            until: None,
        }
    }

    /// The entry.
    pub(crate) fn entry(&self) -> Entry {
        Entry::new(self.leaf, self.asid)
    }

    /// Whether this is an entry's.
    fn is_of(&self, entry: &Entry) -> bool {
        self.leaf == entry.leaf() && self.asid == entry.asid()
    }
}

/// Of two runs the one in which walks gave the entry last; of equal ones the second.
pub(crate) fn later(a: Option<Run>, b: Run) -> Run {
    match a {
        Some(a) if is_later(a.until, b.until) => a,
        _ => b,
    }
}

/// Whether the first of two runs ended later than the second: not yet, or at a later place.
fn is_later(a: Option<usize>, b: Option<usize>) -> bool {
    match (a, b) {
        (None, Some(_)) => true,
        (Some(until), Some(other)) => until > other,
        (_, None) => false,
    }
}

/// The runs behind an event in this place, after which walks give these entries. It applied this fence, if it did.
///
/// # Errors
///
/// Memory was refused.
pub(crate) fn runs_after(
    alloc: Global,
    runs: &[Run],
    given: &[Entry],
    flush: Option<Flush>,
    place: usize,
) -> Result<Vec<Run>, AllocError> {
    let mut after = Vec::new(alloc);
    for run in runs {
        if let Some(kept) = run_after(run, is_given(run, given), flush, place) {
            after.push(kept)?;
        }
    }
    for entry in given {
        if !is_running(&after, entry) {
            after.push(Run::new(entry, place))?;
        }
    }
    Ok(after)
}

/// A run behind an event in this place. None: it begins anew, or a fence ended it.
fn run_after(run: &Run, goes_on: bool, flush: Option<Flush>, place: usize) -> Option<Run> {
    if goes_on {
        return if run.until.is_none() {
            Some(*run)
        } else {
            None
        };
    }
    if let Some(flush) = flush
        && run.entry().is_covered_by(flush)
    {
        return None;
    }
    Some(Run {
        until: Some(run.until.unwrap_or(place)),
        ..*run
    })
}

/// Whether an entry has a run that goes on.
fn is_running(runs: &[Run], entry: &Entry) -> bool {
    for run in runs {
        if run.is_of(entry) && run.until.is_none() {
            return true;
        }
    }
    false
}

/// Whether a run's entry is among these.
pub(crate) fn is_given(run: &Run, given: &[Entry]) -> bool {
    for entry in given {
        if run.is_of(entry) {
            return true;
        }
    }
    false
}
