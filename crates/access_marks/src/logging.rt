//! What an event means for the log of walks.
ghost use Rattle.std.specs.Prelude.{◌≡◌, ◌∷◌, ◌<◌, ℕ, IfOk, IfSome, List, is_some};
ghost use Rattle.board_core.specs.History.{Event as Step};
ghost use Rattle.board_core.specs.Memory.{memory, satp};
ghost use Rattle.any_tlb.specs.Effects.{effect_at};
ghost use Rattle.tlb_watch.specs.Effects.{effect_on};
ghost use Rattle.walk_watch.specs.Logged.{IsLogged, listed};
ghost use Rattle.access_marks.specs.Inside.Accessed.{IsPresent};
ghost use Rattle.access_marks.specs.Inside.Changes.{SaysWritten};
ghost use Rattle.access_marks.specs.Inside.Logging.{IsFormerOf, IsSatpChange, SaysSatp};

use crate::changes::{Written, changed};
use board_core::{Actor, Board, Event, View};
use std::alloc::AllocError;
use tlb_watch::CacheEffect;
use walk_watch::{FormerSatp, FormerWord, WalkLog};

/// The satp of the hart that makes an event, on a board as it is before. None: the clock makes it.
pub(crate) fn satp_before(board: &Board, event: &Event) -> Option<FormerSatp>
    requires { IsPresent board.now.opening.config.harts event.now.actor }
    ensures { SaysSatp board.now.opening board.now.past event.now.actor result }
{
    match event.actor() {
        Actor::Hart(hart) => Some(FormerSatp {
            hart,
            satp: board.view().satp_register(hart),
        }),
        Actor::Clock => None,
    }
}

/// Logs the board's last event: this it wrote, this satp its hart had before, and this it did to caches.
///
/// # Errors
///
/// Out of memory.
pub(crate) fn log_event(
    log: &mut WalkLog,
    board: &Board,
    written: Option<Written>,
    former: Option<FormerSatp>,
    effect: CacheEffect,
) -> Result<(), AllocError>
    requires { IfSome former (λ f. f.hart < board.now.opening.config.harts) }
    ensures { IfOk result (λ _. (event : Step) (past : List Step) → board.now.past ≡ event ∷ past
        → SaysWritten board.now.opening past event written
        → SaysSatp board.now.opening past event.actor former
        → ((h : ℕ) → effect_on effect h ≡ effect_at board.now.opening past event h)
        → IsLogged board.now.opening past (listed log.old)
        → IsLogged board.now.opening (event ∷ past) (listed log.new)) }
{
    let _legal = board.history();
    let view = board.view();
    let word = former_word(&view, written);
    let satp = changed_satp(&view, former);
    log.happened(effect, word, satp)
}

/// Logs the board's last event, if there is a log.
///
/// # Errors
///
/// Out of memory.
pub(crate) fn log_if_there(
    log: &mut Option<WalkLog>,
    board: &Board,
    written: Option<Written>,
    former: Option<FormerSatp>,
    effect: CacheEffect,
) -> Result<(), AllocError>
    requires { IfSome former (λ f. f.hart < board.now.opening.config.harts) }
    ensures there { IfOk result (λ _. is_some log.new ≡ is_some log.old) }
    ensures logged { IfOk result (λ _. (event : Step) (past : List Step) → board.now.past ≡ event ∷ past
        → SaysWritten board.now.opening past event written
        → SaysSatp board.now.opening past event.actor former
        → ((h : ℕ) → effect_on effect h ≡ effect_at board.now.opening past event h)
        → IfSome log.old (λ l. IsLogged board.now.opening past (listed l))
        → IfSome log.new (λ l. IsLogged board.now.opening (event ∷ past) (listed l))) }
{
    match log {
        Some(log) => log_event(log, board, written, former, effect),
        None => Ok(()),
    }
}

/// The word that changed, as it was before: the written one, if the board has another word there now.
fn former_word(view: &View<'_>, written: Option<Written>) -> Option<FormerWord>
    ensures { IsFormerOf written (memory view.now.opening view.now.past) result }
{
    let at = changed(view, written)?;
    let written = written?;
    Some(FormerWord {
        at,
        word: written.word,
    })
}

/// The satp that changed, as it was before: this one, if its hart has another now.
fn changed_satp(view: &View<'_>, former: Option<FormerSatp>) -> Option<FormerSatp>
    requires { IfSome former (λ f. f.hart < view.now.opening.config.harts) }
    ensures { IsSatpChange former (satp view.now.opening view.now.past) result }
{
    let former = former?;
    if view.satp_register(former.hart).bits() == former.satp.bits() {
        None
    } else {
        Some(former)
    }
}
