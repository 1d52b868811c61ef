//! Accesses that fence calls missed.
ghost use Rattle.std.specs.Prelude.{◌≡◌, ◌<◌, ◌∷◌, ◌↔◌, [], IfOk, IfSome, List, reverse, true};
ghost use Rattle.std.specs.List.{All, Contains};
ghost use Rattle.board_terms.specs.Limits.{IsGood};
ghost use Rattle.board_core.specs.History.{Event as Step};
ghost use Rattle.board_core.specs.Opening.{opening_at};
ghost use Rattle.board_core.specs.Replies.{IsLegal};
ghost use Rattle.access_marks.specs.declared.use_watch.UseWatch.{UseWatch as Watch};
ghost use Rattle.access_marks.specs.Inside.Missing.{HasMissed, IsKept, IsWatch, call_step};

use crate::call_step::CallStep;
use crate::entry_use::EntryUse;
use crate::taking::takes;
use crate::use_watch::UseWatch;
use board_core::{Board, Config, Event};
use std::alloc::{AllocError, Global};

/// Accesses that were stale, each once, and what fence calls have done for them since the board's first event.
#[derive(Drop)]
pub(crate) struct UseWatches {
    watches: Vec<UseWatch>,
}

impl UseWatches {
    /// No accesses yet.
    pub(crate) fn new(alloc: Global) -> UseWatches
        ensures { result.watches.items ≡ [] }
    {
        UseWatches {
            watches: Vec::new(alloc),
        }
    }

    /// Whether fence calls have missed an access so far, on a board from its first opening on. An access that wasn't met before is
    /// watched from now on.
    ///
    /// # Errors
    ///
    /// Out of memory.
    pub(crate) fn has_missed(
        &mut self,
        alloc: Global,
        board: &Board,
        of: EntryUse,
    ) -> Result<bool, AllocError>
        requires first { board.now.opening ≡ opening_at board.now.opening.config }
        requires present { of.at.hart < board.now.opening.config.harts }
        requires kept { All (IsKept board.now.opening board.now.past) self.old.watches.items }
        ensures kept { All (IsKept board.now.opening board.now.past) self.new.watches.items }
        ensures missed { IfOk result (λ missed. (missed ≡ true) ↔ HasMissed board.now.opening board.now.past of) }
    {
        if let Some(missed) = known(&self.watches, &of) {
            return Ok(missed);
        }
        let watch = watch_after(alloc, board.config(), board.history(), of)?;
        let missed = watch.is_missed;
        self.watches.push(watch)?;
        Ok(missed)
    }

    /// An event of this kind was the board's last.
    ///
    /// # Errors
    ///
    /// Out of memory.
    pub(crate) fn happened(
        self,
        alloc: Global,
        board: &Board,
        step: CallStep,
    ) -> Result<UseWatches, AllocError>
        requires { All (λ (w : Watch). w.of.at.hart < board.now.opening.config.harts) self.watches.items }
        ensures { IfOk result (λ after. (event : Step) (past : List Step) → board.now.past ≡ event ∷ past
            → step ≡ call_step board.now.opening event
            → All (IsKept board.now.opening past) self.watches.items
            → All (IsKept board.now.opening (event ∷ past)) after.watches.items) }
    {
        let mut after = Vec::with_capacity(alloc, self.watches.len())?;
        for watch in self.watches {
            let mut watch = watch;
            watch.happened(board, step)?;
            after.push(watch)?;
        }
        Ok(UseWatches { watches: after })
    }
}

/// Whether fence calls have missed an access, if it is watched.
fn known(watches: &[UseWatch], of: &EntryUse) -> Option<bool>
    ensures { IfSome result (λ missed. (w : Watch) × Contains watches.now w × (w.of ≡ of.now) × (w.is_missed ≡ missed)) }
{
    for watch in watches {
        if watch.of.is(of) {
            return Some(watch.is_missed);
        }
    }
    None
}

/// The watch of an access after a record's events, on a board with these numbers.
///
/// # Errors
///
/// Out of memory.
fn watch_after(
    alloc: Global,
    config: &Config,
    events: &[Event],
    of: EntryUse,
) -> Result<UseWatch, AllocError>
    requires good { IsGood config.now }
    requires present { of.at.hart < config.now.harts }
    requires legal { IsLegal (opening_at config.now) (reverse events.now) }
    ensures of { IfOk result (λ w. w.of ≡ of) }
    ensures watch { IfOk result (λ w. IsWatch (opening_at config.now) (reverse events.now) w) }
{
    let Ok(mut board) = Board::new(alloc, config) else {
        return Err(AllocError);
    };
    let mut watch = UseWatch::new(alloc, &board, of);
    for event in events {
        let _taken = takes(&mut board, event);
        watch.happened(&board, CallStep::of(config, event))?;
    }
    Ok(watch)
}
