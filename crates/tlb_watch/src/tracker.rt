//! A tracker: what the TLBs of a board's harts may hold for addresses that are watched.
ghost use Rattle.std.specs.Prelude.{◌≡◌, ◌↔◌, IfOk, IsTrue, List, MatchOption, map};
ghost use Rattle.std.specs.List.{All, AllZip, Contains};
ghost use Rattle.sv39.specs.Memory.{word_in};
ghost use Rattle.board_core.specs.History.{Event};
ghost use Rattle.board_core.specs.Memory.{memory, satp};
ghost use Rattle.board_core.specs.Opening.{Opening};
ghost use Rattle.any_tlb.specs.Steady.{IsSteady};
ghost use Rattle.tlb_watch.specs.declared.hart_address.HartAddress.{HartAddress as Place};
ghost use Rattle.tlb_watch.specs.Deciding.{is_steady_by, is_steady_in};
ghost use Rattle.tlb_watch.specs.Effects.{effect_on};
ghost use Rattle.tlb_watch.specs.Kept.{all_kept_after};
ghost use Rattle.tlb_watch.specs.Tracked.{Follows, IsTracking, addresses_of, first_watch, satp_in};

use crate::address::AddressWatch;
use crate::effect::CacheEffect;
use crate::hart_address::HartAddress;
use any_tlb::watched_decide;
use std::alloc::{AllocError, Global};
use std::marker::Model;
use sv39::{Kind, Ram, Satp};

/// Addresses at harts, and what is watched of each.
#[derive(Drop)]
pub struct Tracker {
    watches: Vec<AddressWatch>,
}

impl Model for Tracker {
    ghost use Rattle.std.specs.Prelude.{List};
    ghost use Rattle.tlb_watch.specs.Watched.{WatchedAddress};

    ghost Value = { List WatchedAddress };

    ghost view = { λ t. t.watches.items };
}

impl Tracker {
    /// What is watched of each address.
    pub fn watches(&self) -> &[AddressWatch]
        ensures { result.now ≡ self.now }
    {
        &self.watches
    }

    /// What is watched of these addresses at a board's first opening.
    ///
    /// # Errors
    ///
    /// Out of memory.
    pub fn first(alloc: Global, addresses: &[HartAddress]) -> Result<Tracker, AllocError>
        ensures { IfOk result (λ t. t ≡ map first_watch addresses.now) }
    {
        let mut watches = Vec::with_capacity(alloc, addresses.len())?;
        for at in addresses {
            watches.push(AddressWatch::first(alloc, *at)?)?;
        }
        Ok(Tracker { watches })
    }

    /// A copy.
    ///
    /// # Errors
    ///
    /// Out of memory.
    pub fn try_copy(&self, alloc: Global) -> Result<Tracker, AllocError>
        ensures { IfOk result (λ copy. copy ≡ self.now) }
    {
        let mut watches = Vec::with_capacity(alloc, self.watches.len())?;
        for watch in &self.watches {
            watches.push(watch.try_copy(alloc)?)?;
        }
        Ok(Tracker { watches })
    }

    /// An event with this effect happened. The RAM and the harts' satps are those after it.
    ///
    /// # Errors
    ///
    /// Out of memory. The tracker is gone.
    pub fn happened(
        self,
        alloc: Global,
        effect: CacheEffect,
        ram: &Ram,
        satps: &[Satp],
    ) -> Result<Tracker, AllocError>
        ensures follows { IfOk result (λ t. AllZip (Follows effect (word_in ram.now) satps.now) self t) }
        ensures kept { IfOk result
            (λ t. t ≡ all_kept_after (effect_on effect) (word_in ram.now) (satp_in satps.now) self) }
    {
        let mut after = Vec::with_capacity(alloc, self.watches.len())?;
        for watch in self.watches {
            let mut watch = watch;
            let satp = satp_in(satps, watch.at().hart);
            watch.happened(alloc, effect, ram, satp)?;
            after.push(watch)?;
        }
        Ok(Tracker { watches: after })
    }

    /// Whether an access of this kind to the address, by its hart, is steady now, with the board's RAM and the hart's satp: each
    /// entry that its TLB may hold for the address gives the access what the page tables give. None: the address isn't watched.
    pub fn is_steady(&self, at: HartAddress, ram: &Ram, register: Satp, kind: Kind) -> Option<bool>
        ensures { (o : Opening) (past : List Event) (addresses : List Place) → IsTracking o past addresses self.now
            → word_in ram.now ≡ memory o past → register ≡ satp o past at.hart
            → MatchOption result (¬ Contains addresses at) (λ steady. IsTrue steady ↔ IsSteady o past at.hart at.address kind) }
    {
        watched_decide();
        match watch_at(&self.watches, at) {
            Some(watch) => Some(watch.is_steady(ram, register, kind)),
            None => None,
        }
    }

    /// The same, by what is watched alone: whether each watch of the address says so.
    pub fn are_steady(&self, at: HartAddress, ram: &Ram, satp: Satp, kind: Kind) -> bool
        ensures { result ≡ is_steady_in self.now at (word_in ram.now) satp kind }
    {
        let mut steady = true;
        for watch in &self.watches {
            steady = steady && is_steady_for(watch, at, ram, satp, kind);
        }
        steady
    }
}

/// satp of a hart, among those of all harts; 0 for a hart that isn't there.
fn satp_in(satps: &[Satp], hart: u64) -> Satp
    ensures { result ≡ satp_in satps.now hart }
{
    match satps.get(hart as usize) {
        Some(satp) => *satp,
        None => Satp::bare(),
    }
}

/// Whether an access of this kind is steady by a watch, unless that is of another address.
fn is_steady_for(watch: &AddressWatch, at: HartAddress, ram: &Ram, satp: Satp, kind: Kind) -> bool
    ensures { result ≡ is_steady_by at (word_in ram.now) satp kind watch.now }
{
    let own = watch.at();
    if own.hart != at.hart || own.address != at.address {
        return true;
    }
    watch.is_steady(ram, satp, kind)
}

/// The watch of the address, if it has one.
fn watch_at(watches: &[AddressWatch], at: HartAddress) -> Option<&AddressWatch>
    ensures { MatchOption result (¬ Contains (addresses_of watches.now) at)
        (λ watch. Contains watches.now watch.now × (watch.now.at ≡ at)) }
{
    for watch in watches {
        if watch.at() == at {
            return Some(watch);
        }
    }
    None
}
