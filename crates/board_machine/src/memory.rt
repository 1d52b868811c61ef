//! The RAM, the harts' satp and their caches, and an access through them.
ghost use Rattle.std.specs.Prelude.{◌≡◌, ◌<◌, ◌≤◌, IfOk, [], if◌then◌else◌, length, replicate, slice_set};
ghost use Rattle.sv39.specs.Memory.{IsRam, pages_of, word_in, zero_memory};
ghost use Rattle.sv39.specs.Satp.{satp_written};
ghost use Rattle.tlb_model.specs.Contents.{fenced, filled_if};
ghost use Rattle.tlb_model.specs.Entries.{covers_entry};
ghost use Rattle.tlb_model.specs.Words.{covers_word};
ghost use Rattle.hart_access.specs.Accesses.{answer, filling, stored, used, word_filling};
ghost use Rattle.board_terms.specs.Limits.{IsGood};
ghost use Rattle.board_rules.specs.Opening.{opening_at};
ghost use Rattle.board_machine.specs.Stands.{CanFill, MemoryStand, caches_at, satp_at, tlb_hit, word_hit};

use board_terms::Config;
use hart_access::{Access, Accessed, access};
use std::alloc::{AllocError, Global};
use sv39::{Ram, Satp, Spaces};
use tlb_model::{Caches, Flush};

/// The RAM, and each hart's satp and caches.
#[derive(Drop)]
pub struct Memory {
    pub ram: Ram,
    pub satps: Vec<Satp>,
    pub caches: Vec<Caches>,
}

impl Memory {
    /// The memory of a board at its first opening: every word is 0, each satp is 0, and all caches are empty (profile).
    ///
    /// # Errors
    ///
    /// Out of memory.
    pub(crate) fn new(alloc: Global, config: &Config) -> Result<Memory, AllocError>
        requires { IsGood config.now }
        ensures stands { IfOk result (λ memory. MemoryStand (opening_at config.now) [] memory) }
        ensures ram { IfOk result (λ memory. IsRam memory.ram) }
    {
        let ram = Ram::new(alloc, config.pages)?;
        let mut satps = Vec::with_capacity(alloc, config.harts as usize)?;
        let mut caches = Vec::with_capacity(alloc, config.harts as usize)?;
        for h in 0..config.harts {
            satps.push(Satp::bare())?;
            caches.push(Caches::new())?;
        }
        Ok(Memory { ram, satps, caches })
    }

    /// A copy.
    ///
    /// # Errors
    ///
    /// Out of memory.
    pub(crate) fn try_copy(&self, alloc: Global) -> Result<Memory, AllocError>
        ensures ram { IfOk result (λ copy. copy.ram ≡ self.now.ram) }
        ensures satps { IfOk result (λ copy. copy.satps.items ≡ self.now.satps.items) }
        ensures caches { IfOk result (λ copy. copy.caches.items ≡ self.now.caches.items) }
        ensures pages { IsRam self.now.ram }
    {
        let ram = self.ram.try_copy(alloc)?;
        let mut satps = Vec::with_capacity(alloc, self.satps.len())?;
        satps.extend_from_slice(&self.satps)?;
        let mut caches = Vec::with_capacity(alloc, self.caches.len())?;
        for h in 0..self.caches.len() {
            let copy = self.caches[h].try_copy()?;
            caches.push_reserved(copy);
        }
        Ok(Memory { ram, satps, caches })
    }

    /// Becomes a copy of a memory with as many pages and harts. It allocates nothing.
    pub(crate) fn copy_from(&mut self, from: &Memory)
        requires pages { pages_of self.old.ram ≡ pages_of from.now.ram }
        requires satps { length self.old.satps.items ≡ length from.now.satps.items }
        requires caches { length self.old.caches.items ≡ length from.now.caches.items }
        ensures ram { self.new.ram ≡ from.now.ram }
        ensures satps { self.new.satps.items ≡ from.now.satps.items }
        ensures caches { self.new.caches.items ≡ from.now.caches.items }
        ensures pages { IsRam from.now.ram }
    {
        self.ram.copy_from(&from.ram);
        self.copy_harts(&from.satps, &from.caches);
    }

    /// Makes each hart's satp and caches copies of those of as many harts. It allocates nothing.
    pub fn copy_harts(&mut self, satps: &[Satp], caches: &[Caches])
        requires satps { length self.old.satps.items ≡ length satps.now }
        requires caches { length self.old.caches.items ≡ length caches.now }
        ensures satps { self.new.satps.items ≡ satps.now }
        ensures caches { self.new.caches.items ≡ caches.now }
        ensures ram { self.new.ram ≡ self.old.ram }
    {
        self.satps.copy_from_slice(satps);
        copy_caches(&mut self.caches, caches);
    }

    /// satp of hart `h`.
    pub fn satp(&self, h: u64) -> Satp
        requires { h < length self.now.satps.items }
        ensures { result ≡ satp_at self.now h }
    {
        self.satps[h as usize]
    }

    /// Writes satp of hart `h`, on a board with these widths (Privileged 4.1.11).
    pub(crate) fn write_satp(&mut self, h: u64, value: u64, spaces: Spaces)
        requires in_range { h < length self.old.satps.items }
        requires limit { spaces.asid_len ≤ 16 }
        ensures satps { self.new.satps.items
            ≡ slice_set self.old.satps.items h (satp_written spaces (satp_at self.old h) value) }
        ensures ram { self.new.ram ≡ self.old.ram }
        ensures caches { self.new.caches.items ≡ self.old.caches.items }
    {
        self.satps[h as usize] = self.satps[h as usize].write(value, spaces);
    }

    /// The entry of a start or a resume of hart `h`: satp becomes 0 (SBI 9.1, 9.4).
    pub(crate) fn make_bare(&mut self, h: u64)
        requires { h < length self.old.satps.items }
        ensures satps { self.new.satps.items ≡ slice_set self.old.satps.items h 0 }
        ensures ram { self.new.ram ≡ self.old.ram }
        ensures caches { self.new.caches.items ≡ self.old.caches.items }
    {
        self.satps[h as usize] = Satp::bare();
    }

    /// A reset: each hart's satp becomes 0 and, if `cold` is true, every word of the RAM (profile).
    pub(crate) fn reset(&mut self, cold: bool)
        ensures satps { self.new.satps.items ≡ replicate (length self.old.satps.items) 0 }
        ensures ram { word_in self.new.ram
            ≡ (if cold then zero_memory (pages_of self.old.ram) else word_in self.old.ram) }
        ensures pages { pages_of self.new.ram ≡ pages_of self.old.ram }
        ensures caches { self.new.caches ≡ self.old.caches }
    {
        self.satps.fill(Satp::bare());
        if cold {
            self.ram.clear();
        }
    }

    /// Performs an access of hart `h` to a virtual address; what it fills has this date.
    pub(crate) fn access(&mut self, date: u64, h: u64, va: u64, what: Access) -> Accessed
        requires { CanFill self.old h }
        ensures result { result.result
            ≡ answer (word_in self.old.ram) (satp_at self.old h) (tlb_hit (caches_at self.old h))
            (word_hit (caches_at self.old h)) va what }
        ensures used { result.used
            ≡ used (word_in self.old.ram) (satp_at self.old h) (tlb_hit (caches_at self.old h)) va what }
        ensures ram { word_in self.new.ram
            ≡ stored (word_in self.old.ram) (satp_at self.old h) (tlb_hit (caches_at self.old h)) va what }
        ensures pages { pages_of self.new.ram ≡ pages_of self.old.ram }
        ensures satps { self.new.satps.items ≡ self.old.satps.items }
        ensures caches { self.new.caches.items ≡ slice_set self.old.caches.items h (record {
          tlb = filled_if (caches_at self.old h).tlb date
              (filling (word_in self.old.ram) (satp_at self.old h) (tlb_hit (caches_at self.old h)) va what);
          words = filled_if (caches_at self.old h).words date
              (word_filling (word_in self.old.ram) (satp_at self.old h) (tlb_hit (caches_at self.old h))
              (word_hit (caches_at self.old h)) va what);
        }) }
    {
        let satp = self.satps[h as usize];
        let caches = &mut self.caches[h as usize];
        access(
            &mut self.ram,
            satp,
            &mut caches.tlb,
            &mut caches.words,
            va,
            what,
            date,
        )
    }

    /// A local fence of hart `h` drops what it covers from its caches (Privileged 4.2.1; Zifencei).
    pub(crate) fn fence(&mut self, h: u64, flush: Flush)
        requires { h < length self.old.caches.items }
        ensures caches { self.new.caches.items ≡ slice_set self.old.caches.items h (record {
          tlb = fenced covers_entry (caches_at self.old h).tlb flush;
          words = fenced covers_word (caches_at self.old h).words flush;
        }) }
        ensures ram { self.new.ram ≡ self.old.ram }
        ensures satps { self.new.satps.items ≡ self.old.satps.items }
    {
        self.caches[h as usize].apply(flush);
    }
}

/// Makes caches copies of as many others.
fn copy_caches(caches: &mut Vec<Caches>, from: &[Caches])
    requires { length caches.old.items ≡ length from.now }
    ensures { caches.new.items ≡ from.now }
{
    for h in 0..from.len() {
        caches[h].copy_from(&from[h]);
    }
}
