//! What fence calls have done for one access.
ghost use Rattle.std.specs.Prelude.{◌≡◌, ◌<◌, ◌∷◌, ◌↔◌, [], IfOk, List, false, if◌then◌else◌, true};
ghost use Rattle.board_core.specs.History.{Event as Step};
ghost use Rattle.access_marks.specs.Inside.Missing.{IsOther, IsWatch, asking_after, call_step, is_among, missed_after, with_hart};

use crate::call_step::CallStep;
use crate::entry_use::EntryUse;
use board_core::Board;
use std::alloc::{AllocError, Global};

/// An access by a TLB entry, and what fence calls have done for it.
#[derive(Drop)]
pub(crate) struct UseWatch {
    pub(crate) of: EntryUse,
    /// Whether the page tables give the access something else.
    is_other: bool,
    /// The harts that asked for a fence that is of the access, since the page tables have given something else.
    asking: Vec<u64>,
    /// Whether the call of such a hart succeeded.
    pub(crate) is_missed: bool,
}

impl UseWatch {
    /// The watch of an access on a board before its first event.
    pub(crate) fn new(alloc: Global, board: &Board, of: EntryUse) -> UseWatch
        requires { of.at.hart < board.now.opening.config.harts }
        ensures of { result.of ≡ of }
        ensures watch { board.now.past ≡ [] → IsWatch board.now.opening [] result }
    {
        let is_other = of.is_other(board);
        UseWatch {
            of,
            is_other,
            asking: Vec::new(alloc),
            is_missed: false,
        }
    }

    /// An event of this kind was the board's last.
    ///
    /// # Errors
    ///
    /// Out of memory. Then the watch has no meaning any more.
    pub(crate) fn happened(&mut self, board: &Board, step: CallStep) -> Result<(), AllocError>
        requires { self.old.of.at.hart < board.now.opening.config.harts }
        ensures of { IfOk result (λ _. self.new.of ≡ self.old.of) }
        ensures watch { IfOk result (λ _. (event : Step) (past : List Step) → board.now.past ≡ event ∷ past
            → step ≡ call_step board.now.opening event
            → IsWatch board.now.opening past self.old
            → IsWatch board.now.opening (event ∷ past) self.new) }
    {
        self.follow(step)?;
        self.look(board);
        Ok(())
    }

    /// Notes whether the page tables give the access something else on this board. If they don't, no call has been asked since, and
    /// none has missed it.
    fn look(&mut self, board: &Board)
        requires { self.old.of.at.hart < board.now.opening.config.harts }
        ensures of { self.new.of ≡ self.old.of }
        ensures other { (self.new.is_other ≡ true) ↔ IsOther board.now.opening board.now.past self.old.of }
        ensures asking { self.new.asking.items ≡ (if self.new.is_other then self.old.asking.items else []) }
        ensures missed { self.new.is_missed ≡ (if self.new.is_other then self.old.is_missed else false) }
    {
        self.is_other = self.of.is_other(board);
        if !self.is_other {
            self.asking.clear();
            self.is_missed = false;
        }
    }

    /// Notes a step of a call.
    ///
    /// # Errors
    ///
    /// Out of memory.
    fn follow(&mut self, step: CallStep) -> Result<(), AllocError>
        ensures of { IfOk result (λ _. self.new.of ≡ self.old.of) }
        ensures asking { IfOk result
            (λ _. self.new.asking.items ≡ asking_after step self.old.of self.old.is_other self.old.asking.items) }
        ensures missed { IfOk result (λ _. self.new.is_missed ≡ missed_after step self.old.asking.items self.old.is_missed) }
    {
        match step {
            CallStep::Asked(hart, fence) => {
                if self.is_other && self.of.is_fenced_by(fence) {
                    put(&mut self.asking, hart)?;
                }
            }
            CallStep::Polled(hart) => {
                self.is_missed = self.is_missed || is_among(&self.asking, hart);
            }
            CallStep::Dropped => self.asking.clear(),
            CallStep::Other => {}
        }
        Ok(())
    }
}

/// Puts a hart behind the others, and drops an older place of it.
///
/// # Errors
///
/// Out of memory.
fn put(harts: &mut Vec<u64>, hart: u64) -> Result<(), AllocError>
    ensures { IfOk result (λ _. harts.new.items ≡ with_hart hart harts.old.items) }
{
    harts.retain(|other| *other != hart);
    harts.push(hart)?;
    Ok(())
}

/// Whether a hart is among these.
fn is_among(harts: &[u64], hart: u64) -> bool
    ensures { result ≡ is_among harts.now hart }
{
    let mut found = false;
    for other in harts {
        found = found || *other == hart;
    }
    found
}
