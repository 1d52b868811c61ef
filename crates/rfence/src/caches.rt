//! The effect of fences on the caches of harts.
ghost use Rattle.std.specs.Prelude.{◌≡◌, ◌<◌, length, map, if◌then◌else◌};
ghost use Rattle.rfence.specs.Effects.{changed_at};

use tlb_model::{Caches, Flush};

/// The caches of one hart, from which fences drop items.
pub trait Fenced<F> {
    ghost dropped: { F → Self → Self };

    ghost emptied: { Self → Self };

    /// Drops exactly what the fence covers.
    fn apply(&mut self, flush: F)
        ensures { self.new ≡ dropped flush self.old };

    /// Drops everything.
    fn clear(&mut self)
        ensures { self.new ≡ emptied self.old };
}

/// A hart's two caches. An SFENCE.VMA drops the translations that it covers, and a FENCE.I all fetched words
/// (Privileged 4.2.1; Zifencei).
impl Fenced<Flush> for Caches {
    ghost use Rattle.rfence.specs.Inside.HartCaches.{dropped_of, emptied_of};

    ghost dropped = { dropped_of };

    ghost emptied = { emptied_of };

    fn apply(&mut self, flush: Flush) {
        Caches::apply(self, flush);
    }

    fn clear(&mut self) {
        Caches::clear(self);
    }
}

/// Drops what the fence covers from the caches of hart `t`.
pub fn apply_at<F: Copy, C: Fenced<F>>(caches: &mut [C], t: u64, flush: F)
    requires { t < length caches.old }
    ensures { caches.new ≡ changed_at (C.dropped flush) caches.old t }
{
    caches[t as usize].apply(flush);
}

/// The same, if `asked` is true.
pub fn apply_where<F: Copy, C: Fenced<F>>(caches: &mut [C], t: u64, asked: bool, flush: F)
    requires { t < length caches.old }
    ensures { caches.new ≡ (if asked then changed_at (C.dropped flush) caches.old t else caches.old) }
{
    if asked {
        apply_at(caches, t, flush);
    }
}

/// Drops everything from the caches of hart `t`.
pub fn clear_at<F: Copy, C: Fenced<F>>(caches: &mut [C], t: u64)
    requires { t < length caches.old }
    ensures { caches.new ≡ changed_at C.emptied caches.old t }
{
    caches[t as usize].clear();
}

/// Drops everything from the caches of all harts.
pub fn clear_all<F: Copy, C: Fenced<F>>(caches: &mut [C])
    ensures { caches.new ≡ map C.emptied caches.old }
{
    for cache in caches {
        cache.clear();
    }
}
