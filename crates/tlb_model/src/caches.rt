//! The two caches of a hart.
ghost use Rattle.std.specs.Prelude.{◌≡◌, ◌&&◌, Ok, is_none};
ghost use Rattle.tlb_model.specs.Contents.{cleared, empty, fenced};
ghost use Rattle.tlb_model.specs.Entries.{covers_entry};
ghost use Rattle.tlb_model.specs.Words.{covers_word};

use crate::cache::Cache;
use crate::entry::Entry;
use crate::fence::{Fence, Flush};
use crate::word::FetchWord;
use std::alloc::AllocError;

/// The cache of a hart's translations (Privileged 4.2.1).
pub type Tlb = Cache<Entry>;

/// The instruction cache: the words that a hart fetched (Zifencei).
pub type ICache = Cache<FetchWord>;

/// The caches of a hart.
#[derive(Debug, Drop)]
pub struct Caches {
    /// The translations.
    pub tlb: Tlb,
    /// The fetched words.
    pub words: ICache,
}

impl Caches {
    /// Empty caches.
    pub fn new() -> Caches
        ensures { result ≡ record { tlb = empty; words = empty } }
    {
        Caches {
            tlb: Cache::new(),
            words: Cache::new(),
        }
    }

    /// Drops exactly what the fence covers in each cache. An SFENCE.VMA covers no fetched word, and a FENCE.I no
    /// translation (Privileged 4.2.1; Zifencei).
    pub fn apply(&mut self, flush: Flush)
        ensures tlb { self.new.tlb ≡ fenced covers_entry self.old.tlb flush }
        ensures words { self.new.words ≡ fenced covers_word self.old.words flush }
    {
        match flush {
            Flush::Words => self.words.clear(),
            Flush::Entries(fence) => {
                if covers_all(fence) {
                    self.tlb.clear();
                } else {
                    self.tlb.apply(flush);
                }
            }
        }
    }

    /// A copy. It allocates nothing, and never fails.
    #[inline(always)]
    pub fn try_copy(&self) -> Result<Caches, AllocError>
        ensures { result ≡ Ok self.now }
    {
        Ok(Caches {
            tlb: self.tlb.try_copy()?,
            words: self.words.try_copy()?,
        })
    }

    /// Becomes a copy of other caches.
    pub fn copy_from(&mut self, from: &Caches)
        ensures { self.new ≡ from.now }
    {
        self.tlb.copy_from(&from.tlb);
        self.words.copy_from(&from.words);
    }

    /// Drops everything in both caches, as a stop of the hart or a reset does (profile).
    pub fn clear(&mut self)
        ensures tlb { self.new.tlb ≡ cleared self.old.tlb }
        ensures words { self.new.words ≡ cleared self.old.words }
    {
        self.tlb.clear();
        self.words.clear();
    }
}

/// Whether the fence covers every translation: those of all addresses in all address spaces.
fn covers_all(fence: Fence) -> bool
    ensures { result ≡ (is_none fence.asid && is_none fence.range) }
{
    fence.asid.is_none() && fence.range.is_none()
}
