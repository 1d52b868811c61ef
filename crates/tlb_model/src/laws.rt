//! Laws about the definitions of the caches.
ghost use Rattle.std.specs.Prelude.{◌≡◌, ◌<◌, ◌≤◌, ◌+◌, ◌↔◌, ℕ, Bool, true, false, List, ◌∷◌, ◌++◌, length};
ghost use Rattle.tlb_model.specs.Fences.{HaveInCommon, meets};
ghost use Rattle.tlb_model.specs.declared.fence.Range.{Range};
ghost use Rattle.tlb_model.specs.Acts.{ClearedIsGone, CoveredIsGone, GoesOnFromACut, HitIsTheLast, KeepsWhatLives, LiveWasFilled};

/// A range meets a page if and only if some address lies in both; ends don't wrap at 2^64. A law: there is nothing to
/// run.
pub fn common_address()
    ensures { (range : Range) (page size : ℕ) → meets range page size ≡ true ↔ HaveInCommon range page size }
{}

/// The cache after one more act is the act's effect on the cache before it. So a cache's operations keep exactly the
/// *live* fills. A law: there is nothing to run.
pub fn caches_keep_what_lives<E>()
    ensures { KeepsWhatLives E }
{}

/// The hit in a cache is the last live fill that matches the key. A law: there is nothing to run.
pub fn hit_is_the_last<E, K>()
    ensures { HitIsTheLast E K }
{}

/// A live item was filled at its date, or was live at the opening. A law: there is nothing to run.
pub fn live_was_filled<E>()
    ensures { LiveWasFilled E }
{}

/// After a fence no item is live that it covers and that was filled before it. A law: there is nothing to run.
pub fn covered_is_gone<E>()
    ensures { CoveredIsGone E }
{}

/// After a cache is cleared, no item is live that was filled before. A law: there is nothing to run.
pub fn cleared_is_gone<E>()
    ensures { ClearedIsGone E }
{}

/// Acts that continue from the cache after older acts, with the dates after theirs, give the same cache as all acts
/// from the first opening. A law: there is nothing to run.
pub fn caches_go_on<E>()
    ensures { GoesOnFromACut E }
{}
