//! The words that an instruction cache may hold for one physical address, as a program keeps them.
ghost use Rattle.std.specs.Prelude.{◌≡◌, ◌++◌, ◌↔◌, [], IfOk, IsTrue, Some};
ghost use Rattle.std.specs.List.{All};
ghost use Rattle.rfence.specs.Applied.{Drops};
ghost use Rattle.sv39.specs.Memory.{word_in};
ghost use Rattle.any_tlb.specs.WatchedWords.{spared_words, word_or_none};

use std::alloc::{AllocError, Global};
use sv39::Ram;
use tlb_model::Flush;

/// The words that an instruction cache of one hart may hold for one physical address (Zifencei).
#[derive(Drop)]
pub struct WordWatch {
    /// The physical address.
    pub pa: u64,
    /// The words.
    pub words: Vec<u64>,
}

impl WordWatch {
    /// Watches an address, with no word yet.
    pub fn new(alloc: Global, pa: u64) -> WordWatch
        ensures words { result.words.items ≡ [] }
        ensures pa { result.pa ≡ pa }
    {
        WordWatch {
            pa,
            words: Vec::new(alloc),
        }
    }

    /// Drops all words when a FENCE.I is applied at the hart, and none at a fence of translations (Zifencei;
    /// Privileged 4.2.1).
    pub fn fence(&mut self, flush: Flush)
        ensures words { self.new.words.items ≡ spared_words (Drops flush) self.old.words.items }
        ensures pa { self.new.pa ≡ self.old.pa }
    {
        match flush {
            Flush::Words => self.words.clear(),
            Flush::Entries(_) => {}
        }
    }

    /// Drops all words, at a reset (profile).
    pub fn clear(&mut self)
        ensures words { self.new.words.items ≡ [] }
        ensures pa { self.new.pa ≡ self.old.pa }
    {
        self.words.clear();
    }

    /// Adds the memory's word, after each event that changes the memory, and after each FENCE.I or reset.
    ///
    /// # Errors
    ///
    /// Out of memory.
    pub fn look(&mut self, ram: &Ram) -> Result<(), AllocError>
        ensures words { IfOk result (λ done. self.new.words.items ≡ self.old.words.items ++ word_or_none (word_in ram.now self.old.pa)) }
        ensures pa { self.new.pa ≡ self.old.pa }
    {
        if ram.holds(self.pa) {
            let word = ram.load(self.pa);
            self.words.push(word)?;
        }
        Ok(())
    }

    /// Whether the word is steady for fetches: each watched word is the memory's.
    pub fn is_steady(&self, ram: &Ram) -> bool
        ensures { IsTrue result ↔ All (λ word. word_in ram.now self.now.pa ≡ Some word) self.now.words.items }
    {
        for word in &self.words {
            if !ram.holds(self.pa) || ram.load(self.pa) != *word {
                return false;
            }
        }
        true
    }
}
