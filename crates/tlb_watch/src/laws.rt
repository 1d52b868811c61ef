//! What is watched follows the board's history.
ghost use Rattle.std.specs.Prelude.{◌≡◌, ◌↔◌, ◌<◌, [], ◌∷◌, ℕ, IsTrue, List, Option, map};
ghost use Rattle.std.specs.List.{All, AllZip, Contains};
ghost use Rattle.rfence.specs.Applied.{Effect};
ghost use Rattle.sv39.specs.declared.cause.Kind.{Kind};
ghost use Rattle.tlb_model.specs.declared.fence.Flush.{Flush};
ghost use Rattle.board_terms.specs.declared.config.Config.{Config};
ghost use Rattle.board_core.specs.History.{Event};
ghost use Rattle.board_core.specs.Memory.{memory, satp};
ghost use Rattle.board_core.specs.Opening.{Opening, opening_at};
ghost use Rattle.any_tlb.specs.declared.watcher.Walking.TheVariants.{Had};
ghost use Rattle.any_tlb.specs.Effects.{effect_at};
ghost use Rattle.any_tlb.specs.Quiet.{HasNoEffect};
ghost use Rattle.any_tlb.specs.Steady.{IsSteady};
ghost use Rattle.tlb_watch.specs.declared.effect.CacheEffect.{CacheEffect};
ghost use Rattle.tlb_watch.specs.declared.hart_address.HartAddress.{HartAddress};
ghost use Rattle.tlb_watch.specs.Deciding.{is_steady_in};
ghost use Rattle.tlb_watch.specs.Effects.{effect_on};
ghost use Rattle.tlb_watch.specs.Kept.{all_kept_after};
ghost use Rattle.tlb_watch.specs.Tracked.{Follows, IsTracking, first_watch, satp_in};
ghost use Rattle.tlb_watch.specs.Watched.{WatchedAddress, after_event, looked, opened_entries, watch_of};

use any_tlb::watched_decide;

/// What is watched of an address by a board's history begins with what lives in the hart's TLB at the opening, and each event
/// changes it by its effect at the hart, and by the memory and the satp that it leaves. A law: there is nothing to run.
pub fn watches_follow_histories()
    ensures begins { (o : Opening) (at : HartAddress)
        → looked (memory o []) at (Had (satp o [] at.hart) ∷ []) (opened_entries o at.hart) ≡ watch_of o [] at }
    ensures goes_on { (o : Opening) (event : Event) (past : List Event) (at : HartAddress)
        → after_event (effect_at o past event at.hart) (memory o (event ∷ past)) (satp o (event ∷ past) at.hart)
        (watch_of o past at)
        ≡ watch_of o (event ∷ past) at }
{}

/// At a board's first opening a tracker has what is watched of its addresses. A law: there is nothing to run.
pub fn first_watches_are_watches()
    ensures { (c : Config) (addresses : List HartAddress)
        → All (λ (at : HartAddress). at.hart < c.harts) addresses
        → IsTracking (opening_at c) [] addresses (map first_watch addresses) }
{}

/// A tracker that follows an event has what is watched of its addresses after it: given the event's effect, and the memory and the
/// satps that it leaves. A law: there is nothing to run.
pub fn trackers_follow_histories()
    ensures { (o : Opening) (event : Event) (past : List Event) (addresses : List HartAddress) (effect : CacheEffect)
        (satps : List ℕ) (before after : List WatchedAddress)
        → ((h : ℕ) → effect_on effect h ≡ effect_at o past event h)
        → ((h : ℕ) → h < o.config.harts → satp_in satps h ≡ satp o (event ∷ past) h)
        → IsTracking o past addresses before
        → AllZip (Follows effect (memory o (event ∷ past)) satps) before after
        → IsTracking o (event ∷ past) addresses after }
{}

/// So has a tracker that doesn't follow an event, if the event does nothing to caches and changes neither the memory nor a satp. A
/// law: there is nothing to run.
pub fn trackers_outlast_quiet_events()
    ensures { (o : Opening) (event : Event) (past : List Event) (addresses : List HartAddress) (watches : List WatchedAddress)
        → ((h : ℕ) → HasNoEffect o event past h)
        → IsTracking o past addresses watches
        → IsTracking o (event ∷ past) addresses watches }
{}

/// So has a tracker that keeps each entry and each satp once, given what the event does to the caches of each hart of the board, and
/// the memory and the satps that it leaves. A law: there is nothing to run.
pub fn kept_watches_are_watches()
    ensures { (o : Opening) (event : Event) (past : List Event) (addresses : List HartAddress) (watches : List WatchedAddress)
        (does : ℕ → Effect Flush) (leaves : ℕ → Option ℕ) (satps : ℕ → ℕ)
        → ((h : ℕ) → h < o.config.harts → does h ≡ effect_at o past event h)
        → leaves ≡ memory o (event ∷ past)
        → ((h : ℕ) → h < o.config.harts → satps h ≡ satp o (event ∷ past) h)
        → IsTracking o past addresses watches
        → IsTracking o (event ∷ past) addresses (all_kept_after does leaves satps watches) }
{}

/// What is watched of an address decides which accesses to it are steady. A law: there is nothing to run.
pub fn watches_decide()
    ensures { (o : Opening) (past : List Event) (addresses : List HartAddress) (watches : List WatchedAddress) (at : HartAddress)
        (kind : Kind) → IsTracking o past addresses watches
        → Contains addresses at
        → IsTrue (is_steady_in watches at (memory o past) (satp o past at.hart) kind)
        ↔ IsSteady o past at.hart at.address kind }
{
    watched_decide();
}
