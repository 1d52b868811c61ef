//! The RAM.
ghost use Rattle.std.specs.Prelude.{◌≡◌, ◌<◌, ◌≤◌, ◌+◌, ◌-◌, ◌/◌, ◌++◌, IfOk, IsTrue, MatchOption, Some, is_some, length, replicate, slice_set, vec_capacity, vec_len};
ghost use Rattle.sv39.specs.Memory.{IsRam, is_in_ram, pages_of, word_in, written, zero_memory, zero_words};
ghost use Rattle.sv39.specs.Nonzero.{IsClear, IsNextSet};

use crate::lines::{LINE_WORDS, clear_marked, copy_marked, mark};
use crate::nonzero::next_set;
use std::alloc::{AllocError, Global};
use std::marker::Model;

/// The RAM's first address (profile).
pub const RAM_START: u64 = 0x8000_0000;

/// The number of words in a page.
pub const PAGE_WORDS: usize = 512;

/// The RAM: from 1 to 256 pages of 4,096 bytes from 0x80000000 on, in words of 8 bytes (profile).
#[derive(Debug, Drop)]
pub struct Ram {
    words: Vec<u64>,
    // (a bit for each line of 8 words: if it is 0, the line's words are 0)
    marks: Vec<u64>,
}

impl Model for Ram {
    ghost use Rattle.std.specs.Prelude.{◌≡◌, ◌*◌, List, ℕ, length, vec_capacity, vec_len};
    ghost use Rattle.sv39.specs.Memory.{IsRam};
    ghost use Rattle.sv39.specs.Inside.Lines.{AreMarked};

    ghost Value = { List ℕ };

    ghost view = { λ ram. ram.words.items };

    ghost invariant = { λ ram. IsRam ram.words.items × (vec_capacity ram.words ≡ vec_len ram.words)
        × (length ram.words.items ≡ 512 * length ram.marks.items) × AreMarked ram.words.items ram.marks.items };
}

impl Ram {
    /// A RAM of so many pages, with every word 0.
    ///
    /// # Errors
    ///
    /// Out of memory.
    pub fn new(alloc: Global, pages: u64) -> Result<Ram, AllocError>
        requires some { 1 ≤ pages }
        requires limit { pages ≤ 256 }
        ensures words { IfOk result (λ ram. word_in ram ≡ zero_memory pages) }
        ensures pages { IfOk result (λ ram. pages_of ram ≡ pages) }
        ensures ram { IfOk result IsRam }
    {
        Ram::blank(alloc, pages as usize)
    }

    /// A RAM of so many pages, as the list of its words.
    ///
    /// # Errors
    ///
    /// Out of memory.
    pub(crate) fn blank(alloc: Global, pages: usize) -> Result<Ram, AllocError>
        requires some { 1 ≤ pages }
        requires limit { pages ≤ 256 }
        ensures words { IfOk result (λ ram. ram ≡ zero_words pages) }
        ensures ram { IfOk result IsRam }
    {
        let words = zeros(alloc, PAGE_WORDS * pages)?;
        let marks = zeros(alloc, pages)?;
        Ok(Ram { words, marks })
    }

    /// A copy.
    ///
    /// # Errors
    ///
    /// Out of memory.
    pub fn try_copy(&self, alloc: Global) -> Result<Ram, AllocError>
        ensures copy { IfOk result (λ copy. copy ≡ self.now) }
        ensures pages { IsRam self.now }
    {
        let mut copy = Ram::blank(alloc, self.marks.len())?;
        copy.copy_from(self);
        Ok(copy)
    }

    /// Becomes a copy of a RAM with as many pages. It allocates nothing, and visits only lines that were written in one
    /// of the two.
    pub fn copy_from(&mut self, from: &Ram)
        requires { pages_of self.old ≡ pages_of from.now }
        ensures copy { self.new ≡ from.now }
        ensures pages { IsRam from.now }
    {
        copy_marked(&mut self.words, &self.marks, &from.words, &from.marks);
        self.marks.copy_from_slice(&from.marks);
    }

    /// The words, from the RAM's first address on.
    pub fn words(&self) -> &[u64]
        ensures words { result.now ≡ self.now }
        ensures ram { IsRam self.now }
    {
        &self.words
    }

    /// The place of the first word that isn't 0, from this place on.
    pub fn next_set(&self, from: usize) -> Option<usize>
        ensures { MatchOption result (IsClear self.now from (length self.now)) (IsNextSet self.now from) }
    {
        next_set(&self.words, &self.marks, from)
    }

    /// Whether the RAM has a word at the physical address: it lies in the RAM and is aligned to 8.
    #[tactic(auto, using(crate::proofs::Words::nat_tests, crate::proofs::Words::word_at), unfolding(crate::specs::Memory::is_in_ram))]
    pub fn holds(&self, at: u64) -> bool
        ensures word { result ≡ is_some (word_in self.now at) }
        ensures place { result ≡ is_in_ram (pages_of self.now) at }
    {
        let Some(offset) = at.checked_sub(RAM_START) else {
            return false;
        };
        offset % 8 == 0 && offset / 8 < self.words.len() as u64
    }

    /// The word at the physical address.
    pub fn load(&self, at: u64) -> u64
        requires { IsTrue (is_some (word_in self.now at)) }
        ensures { word_in self.now at ≡ Some result }
    {
        let place = word_place(at);
        self.words[place]
    }

    /// Writes a word at the physical address. All other words stay.
    pub fn store(&mut self, at: u64, value: u64)
        requires { IsTrue (is_some (word_in self.old at)) }
        ensures words { word_in self.new ≡ written (word_in self.old) at value }
        ensures pages { pages_of self.new ≡ pages_of self.old }
    {
        let there = word_place(at);
        self.put(there, value);
    }

    /// Writes the word at a place.
    #[inline(always)]
    pub(crate) fn put(&mut self, place: usize, value: u64)
        requires { place < length self.old }
        ensures { self.new ≡ slice_set self.old place value }
    {
        self.words[place] = value;
        mark(&mut self.marks, place / LINE_WORDS);
    }

    /// Every word becomes 0.
    pub fn clear(&mut self)
        ensures words { word_in self.new ≡ zero_memory (pages_of self.old) }
        ensures pages { pages_of self.new ≡ pages_of self.old }
    {
        self.wipe();
    }

    /// Every word becomes 0, as a list.
    pub(crate) fn wipe(&mut self)
        ensures words { self.new ≡ replicate (length self.old) 0 }
        ensures ram { IsRam self.old }
    {
        clear_marked(&mut self.words, &self.marks);
        self.marks.fill(0);
    }
}

/// So many words, all 0, without spare capacity.
///
/// # Errors
///
/// Out of memory.
fn zeros(alloc: Global, count: usize) -> Result<Vec<u64>, AllocError>
    ensures items { IfOk result (λ words. words.items ≡ replicate count 0) }
    ensures room { IfOk result (λ words. vec_capacity words ≡ count) }
{
    let mut words = Vec::with_capacity(alloc, count)?;
    put_zeros(&mut words, count);
    Ok(words)
}

/// Appends so many words that are 0, for which there is room.
fn put_zeros(words: &mut Vec<u64>, count: usize)
    requires { vec_len words.old + count ≤ vec_capacity words.old }
    ensures items { words.new.items ≡ words.old.items ++ replicate count 0 }
    ensures room { vec_capacity words.new ≡ vec_capacity words.old }
{
    for _ in 0..count {
        words.push_reserved(0);
    }
}

/// The place among the RAM's words of the word at a physical address.
fn word_place(at: u64) -> usize
    requires { RAM_START ≤ at }
    ensures { result ≡ (at - RAM_START) / 8 }
{
    ((at - RAM_START) / 8) as usize
}
