//! Laws about the definitions of an access.
ghost use Rattle.std.specs.Prelude.{◌≡◌, ◌↔◌, ◌⊎◌, ℕ, Option, Some, Ok};
ghost use Rattle.tlb_model.specs.declared.entry.Address.{Address};
ghost use Rattle.tlb_model.specs.Entries.{Entry};
ghost use Rattle.tlb_model.specs.declared.word.FetchWord.{FetchWord};
ghost use Rattle.hart_access.specs.declared.accesses.Access.{Access};
ghost use Rattle.hart_access.specs.Accesses.{filling, place, used, word_filling};
ghost use Rattle.hart_access.specs.Translations.{Fetches, Fills, Hits};
ghost use Rattle.hart_access.specs.Ways.{phys_at};

/// An access fills an entry if and only if it is aligned, satp translates, the address is valid, no entry is hit, and
/// the page tables give the entry's leaf. A law: there is nothing to run.
pub fn entry_is_filled()
    ensures { (memory : ℕ → Option ℕ) (satp : ℕ) (tlb : Address → Option Entry) (va : ℕ) (access : Access)
        (entry : Entry) → filling memory satp tlb va access ≡ Some entry ↔ Fills memory satp tlb va access entry }
{}

/// An access uses exactly the entry that it hits or fills. A law: there is nothing to run.
pub fn entry_is_used()
    ensures { (memory : ℕ → Option ℕ) (satp : ℕ) (tlb : Address → Option Entry) (va : ℕ) (access : Access)
        (entry : Entry) → used memory satp tlb va access ≡ Some entry
        ↔ (Hits satp tlb va entry ⊎ Fills memory satp tlb va access entry) }
{}

/// The physical address of an access that doesn't fail follows from the virtual address and the entry used. A law:
/// there is nothing to run.
pub fn place_is_of_the_entry()
    ensures { (memory : ℕ → Option ℕ) (satp : ℕ) (tlb : Address → Option Entry) (va : ℕ) (access : Access) (pa : ℕ)
        → place memory satp tlb va access ≡ Ok pa → pa ≡ phys_at (used memory satp tlb va access) va }
{}

/// An access fills a word into the instruction cache if and only if it is a fetch that doesn't fail, the cache has no
/// word of that address, and the word is the memory's. A law: there is nothing to run.
pub fn word_is_filled()
    ensures { (memory : ℕ → Option ℕ) (satp : ℕ) (tlb : Address → Option Entry) (words : ℕ → Option FetchWord) (va : ℕ)
        (access : Access) (fetched : FetchWord)
        → word_filling memory satp tlb words va access ≡ Some fetched
        ↔ Fetches memory satp tlb words va access fetched }
{}
