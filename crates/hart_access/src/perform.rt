//! One whole access: address, translation, memory, caches.
ghost use Rattle.std.specs.Prelude.{◌≡◌, ◌<◌, ◌^◌, IsTrue, is_some};
ghost use Rattle.sv39.specs.Memory.{pages_of, word_in};
ghost use Rattle.tlb_model.specs.Contents.{filled_if, hit};
ghost use Rattle.tlb_model.specs.Entries.{matches};
ghost use Rattle.tlb_model.specs.Words.{is_at};
ghost use Rattle.hart_access.specs.Accesses.{answer, filling, read_at, stored, stored_at, used, word_filling, word_filling_at};

use crate::accesses::{Access, Accessed};
use crate::way::Way;
use sv39::{Ram, Satp};
use tlb_model::{FetchWord, ICache, Tlb};

/// An access of a hart to the word of 8 bytes at a virtual address, with the hart's satp and caches. What it fills has
/// this date. An address that isn't aligned to 8 is a fault (profile). A leaf found in the page tables stays filled
/// even if the access then fails (profile).
pub fn access(
    ram: &mut Ram,
    satp: Satp,
    tlb: &mut Tlb,
    words: &mut ICache,
    va: u64,
    access: Access,
    date: u64,
) -> Accessed
    requires entries { tlb.old.next < 2 ^ 63 }
    requires words { words.old.next < 2 ^ 63 }
    ensures result { result.result
        ≡ answer (word_in ram.old) satp (λ at. hit matches at tlb.old) (λ pa. hit is_at pa words.old) va access }
    ensures used { result.used ≡ used (word_in ram.old) satp (λ at. hit matches at tlb.old) va access }
    ensures memory { word_in ram.new ≡ stored (word_in ram.old) satp (λ at. hit matches at tlb.old) va access }
    ensures pages { pages_of ram.new ≡ pages_of ram.old }
    ensures tlb { tlb.new
        ≡ filled_if tlb.old date (filling (word_in ram.old) satp (λ at. hit matches at tlb.old) va access) }
    ensures words { words.new
        ≡ filled_if words.old date
        (word_filling (word_in ram.old) satp (λ at. hit matches at tlb.old) (λ pa. hit is_at pa words.old) va access) }
{
    let kind = access.kind();
    let way = Way::of(ram, satp, tlb, va, kind);
    if let Way::Fill(entry) = &way {
        tlb.fill(date, *entry);
    }
    let result = match way.place(ram, va, kind) {
        Ok(pa) => Ok(carry_out(ram, words, pa, access, date)),
        Err(cause) => Err(cause),
    };
    Accessed {
        result,
        used: way.used(),
    }
}

/// Performs an access at the physical address of a word of the RAM, and returns what it reads, or 0 for a store. A word
/// that it fills has this date.
fn carry_out(ram: &mut Ram, words: &mut ICache, pa: u64, access: Access, date: u64) -> u64
    requires place { IsTrue (is_some (word_in ram.old pa)) }
    requires words { words.old.next < 2 ^ 63 }
    ensures read { result ≡ read_at (word_in ram.old) (λ pa. hit is_at pa words.old) pa access }
    ensures memory { word_in ram.new ≡ stored_at (word_in ram.old) pa access }
    ensures pages { pages_of ram.new ≡ pages_of ram.old }
    ensures words { words.new
        ≡ filled_if words.old date (word_filling_at (word_in ram.old) (λ pa. hit is_at pa words.old) pa access) }
{
    match access {
        Access::Load => ram.load(pa),
        Access::Store(value) => {
            ram.store(pa, value);
            0
        }
        Access::Fetch => fetch(ram, words, pa, date),
        Access::Amo(at, amo) => {
            let word = ram.load(pa);
            ram.store(pa, amo.new_word(at, word));
            amo.old_value(at, word)
        }
    }
}

/// The cached word of a physical address. If the cache has none, it is the RAM's, which is filled with this date
/// (Zifencei).
fn fetch(ram: &Ram, words: &mut ICache, pa: u64, date: u64) -> u64
    requires place { IsTrue (is_some (word_in ram.now pa)) }
    requires words { words.old.next < 2 ^ 63 }
    ensures read { result ≡ read_at (word_in ram.now) (λ pa. hit is_at pa words.old) pa Access.Fetch }
    ensures words { words.new
        ≡ filled_if words.old date (word_filling_at (word_in ram.now) (λ pa. hit is_at pa words.old) pa Access.Fetch) }
{
    match words.lookup(pa) {
        Some(fetched) => fetched.word,
        None => {
            let word = ram.load(pa);
            words.fill(date, FetchWord { pa, word });
            word
        }
    }
}
