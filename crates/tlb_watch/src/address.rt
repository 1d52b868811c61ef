//! What the TLB of one hart may hold for one address.
ghost use Rattle.std.specs.Prelude.{◌≡◌, ◌↔◌, [], ◌∷◌, IfOk, IsTrue};
ghost use Rattle.std.specs.List.{All};
ghost use Rattle.sv39.specs.Memory.{word_in};
ghost use Rattle.hart_access.specs.Translations.{IsTranslated};
ghost use Rattle.any_tlb.specs.declared.watcher.Walking.TheVariants.{Had};
ghost use Rattle.any_tlb.specs.Watch.{AgreesWithTables, spared};
ghost use Rattle.tlb_watch.specs.Deciding.{all_agree};
ghost use Rattle.tlb_watch.specs.Effects.{effect_on};
ghost use Rattle.tlb_watch.specs.Kept.{kept_after, logged_once};
ghost use Rattle.tlb_watch.specs.Tracked.{first_watch};
ghost use Rattle.tlb_watch.specs.Watched.{WatchTheSame, after_event, looked};

use crate::effect::CacheEffect;
use crate::hart_address::HartAddress;
use crate::kept::{log_fence, renew};
use any_tlb::{EntryWatch, Walking, Walks};
use std::alloc::{AllocError, Global};
use std::marker::Model;
use sv39::{Kind, Ram, Satp};
use tlb_model::Entry;

/// The entries that the TLB of one hart may hold for one address, and the walks by which more may come.
#[derive(Drop)]
pub struct AddressWatch {
    at: HartAddress,
    walks: Walks,
    entries: EntryWatch,
}

impl Model for AddressWatch {
    ghost use Rattle.tlb_watch.specs.Watched.{WatchedAddress};

    ghost Value = { WatchedAddress };

    ghost view = { λ w. record { at = w.at; walks = w.walks.items.items; entries = w.entries.entries.items } };

    ghost use Rattle.std.specs.Prelude.{◌≡◌};

    ghost invariant = { λ w. w.entries.va ≡ w.at.address };
}

impl AddressWatch {
    /// What is watched of the address while these entries live in the hart's TLB: they, and those that walks may give by this RAM
    /// and the hart's satp.
    ///
    /// # Errors
    ///
    /// Out of memory.
    pub fn new(
        alloc: Global,
        at: HartAddress,
        live: Vec<Entry>,
        ram: &Ram,
        satp: Satp,
    ) -> Result<AddressWatch, AllocError>
        ensures { IfOk result (λ w. w ≡ looked (word_in ram.now) at (Had satp ∷ []) live.items) }
    {
        let mut walks = Walks::new(alloc);
        walks.has(satp)?;
        let mut entries = EntryWatch {
            va: at.address,
            entries: live,
        };
        entries.watch(alloc, ram, &walks)?;
        Ok(AddressWatch { at, walks, entries })
    }

    /// What is watched of the address at a board's first opening: its hart has satp 0, and nothing lives in its TLB.
    ///
    /// # Errors
    ///
    /// Out of memory.
    pub fn first(alloc: Global, at: HartAddress) -> Result<AddressWatch, AllocError>
        ensures { IfOk result (λ w. w ≡ first_watch at) }
    {
        let mut walks = Walks::new(alloc);
        walks.has(Satp::bare())?;
        let entries = EntryWatch::new(alloc, at.address);
        Ok(AddressWatch { at, walks, entries })
    }

    /// A copy.
    ///
    /// # Errors
    ///
    /// Out of memory.
    pub fn try_copy(&self, alloc: Global) -> Result<AddressWatch, AllocError>
        ensures { IfOk result (λ copy. copy ≡ self.now) }
    {
        let mut walks = Walks::new(alloc);
        walks.items.extend_from_slice(&self.walks.items)?;
        let mut entries = EntryWatch::new(alloc, self.entries.va);
        entries.entries.extend_from_slice(&self.entries.entries)?;
        Ok(AddressWatch {
            at: self.at,
            walks,
            entries,
        })
    }

    /// The address and its hart.
    pub fn at(&self) -> HartAddress
        ensures { result ≡ self.now.at }
    {
        self.at
    }

    /// What happened to the hart's walks.
    pub fn walks(&self) -> &[Walking]
        ensures { result.now ≡ self.now.walks }
    {
        &self.walks.items
    }

    /// The entries.
    pub fn entries(&self) -> &[Entry]
        ensures { result.now ≡ self.now.entries }
    {
        &self.entries.entries
    }

    /// An event with this effect happened. The RAM and the hart's satp are those after it. What is watched is kept as sets: each
    /// entry, each satp and each fence once.
    ///
    /// # Errors
    ///
    /// Out of memory. Then what is watched has no meaning any more.
    pub fn happened(
        &mut self,
        alloc: Global,
        effect: CacheEffect,
        ram: &Ram,
        satp: Satp,
    ) -> Result<(), AllocError>
        ensures kept { IfOk result (λ _. self.new
            ≡ kept_after (effect_on effect self.old.at.hart) (word_in ram.now) satp self.old) }
        ensures after { IfOk result (λ _. WatchTheSame self.new
            (after_event (effect_on effect self.old.at.hart) (word_in ram.now) satp self.old)) }
    {
        self.keep(alloc, effect, ram, satp)
    }

    /// The same, by what is kept.
    fn keep(
        &mut self,
        alloc: Global,
        effect: CacheEffect,
        ram: &Ram,
        satp: Satp,
    ) -> Result<(), AllocError>
        ensures { IfOk result (λ _. self.new
            ≡ kept_after (effect_on effect self.old.at.hart) (word_in ram.now) satp self.old) }
    {
        self.apply(effect)?;
        renew(alloc, &mut self.walks, &mut self.entries, ram, satp)
    }

    /// Drops what the effect ends at the hart, and notes it for walks.
    fn apply(&mut self, effect: CacheEffect) -> Result<(), AllocError>
        ensures at { IfOk result (λ _. self.new.at ≡ self.old.at) }
        ensures walks { IfOk result (λ _. self.new.walks ≡ logged_once (effect_on effect self.old.at.hart) self.old.walks) }
        ensures entries { IfOk result
            (λ _. self.new.entries ≡ spared (effect_on effect self.old.at.hart) self.old.entries) }
    {
        match effect {
            CacheEffect::Nothing => {}
            CacheEffect::Applied(hart, flush) => {
                if hart == self.at.hart {
                    log_fence(&mut self.walks, flush)?;
                    self.entries.fence(flush);
                }
            }
            CacheEffect::Reset => {
                self.walks.clear();
                self.entries.clear();
            }
        }
        Ok(())
    }

    /// Whether an access of this kind to the address is steady, with this RAM and the hart's satp: each watched entry that matches
    /// gives it what the page tables give.
    pub fn is_steady(&self, ram: &Ram, satp: Satp, kind: Kind) -> bool
        ensures decides { IsTrue result ↔ (IsTranslated satp self.now.at.address
            → All (AgreesWithTables (word_in ram.now) satp self.now.at.address kind) self.now.entries) }
        ensures is { result ≡ all_agree (word_in ram.now) satp self.now.at.address kind self.now.entries }
    {
        !is_translated(satp, self.at.address) || self.entries.is_steady(ram, satp, kind)
    }
}

/// Whether satp translates the address: it is aligned to 8 (profile), and valid by satp's paging mode.
fn is_translated(satp: Satp, va: u64) -> bool
    ensures { IsTrue result ↔ IsTranslated satp va }
{
    va.is_multiple_of(8) && satp.translates() && satp.is_valid(va)
}
