//! What events do to the harts' caches, whatever they keep.
ghost use Rattle.std.specs.Prelude.{◌≡◌, ◌<◌, ℕ, List, true};
ghost use Rattle.board_terms.specs.Limits.{IsGood};
ghost use Rattle.board_core.specs.Fences.{turn_by};
ghost use Rattle.board_core.specs.History.{Event as Step};
ghost use Rattle.board_core.specs.Opening.{Opening};
ghost use Rattle.any_tlb.specs.Quiet.{HasNoEffect};
ghost use Rattle.tlb_watch.specs.Effects.{effect_on, effect_there, turn_effect};
ghost use Rattle.tlb_watch.specs.QuietOps.{is_quiet};

use crate::effect::CacheEffect;
use crate::ready::Ready;
use board_core::{Actor, Board, Config, Event, Op, Reply, View};

/// What an event does to the harts' caches, whatever they keep, on a board as it is before the event. If its actor isn't there, it
/// does nothing.
pub fn effect_of(board: &Board, event: &Event) -> CacheEffect
    ensures { (h : ℕ) → effect_on result h ≡ effect_there board.now.opening board.now.past event.now h }
{
    effect_seen(board.config(), &board.view(), event)
}

/// The same on a board that is viewed, with its numbers.
pub fn effect_seen(config: &Config, view: &View<'_>, event: &Event) -> CacheEffect
    requires good { IsGood config.now }
    requires config { config.now ≡ view.now.opening.config }
    ensures { (h : ℕ) → effect_on result h ≡ effect_there view.now.opening view.now.past event.now h }
{
    match event.actor() {
        Actor::Hart(hart) => {
            if hart >= config.harts {
                return CacheEffect::Nothing;
            }
            hart_effect(config, view, hart, event.op(), event.reply())
        }
        Actor::Clock => CacheEffect::Nothing,
    }
}

/// What an operation of a hart, with this reply, does to caches.
fn hart_effect(config: &Config, view: &View<'_>, hart: u64, op: Op, reply: Reply) -> CacheEffect
    requires good { IsGood config.now }
    requires config { config.now ≡ view.now.opening.config }
    requires there { hart < config.now.harts }
    ensures { (h : ℕ) → effect_on result h
        ≡ turn_effect view.now.opening view.now.past (turn_by view.now.opening view.now.past hart op reply) h }
{
    let ready = Ready::seen(view, hart);
    ready.effect(config, op, reply)
}

/// Whether an operation does nothing to caches, and changes neither the memory nor a satp, whatever its reply.
pub fn is_quiet(op: Op) -> bool
    ensures { result ≡ is_quiet op }
{
    match op {
        Op::Load(_) | Op::Fetch(_) => true,
        Op::WriteSie(_) | Op::WriteSstatusSie(_) | Op::ReadSip | Op::ClearSsip | Op::Wfi => true,
        Op::Poll | Op::Tick(_) => true,
        _ => false,
    }
}

/// An event of a quiet operation changes nothing that is watched. A law: there is nothing to run.
pub fn quiet_operations_have_no_effect()
    ensures { (o : Opening) (event : Step) (past : List Step) → is_quiet event.op ≡ true → (h : ℕ) → HasNoEffect o event past h }
{}
