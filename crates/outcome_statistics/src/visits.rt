//! Which entries, blocks and calls guests met.
ghost use Rattle.std.specs.Prelude.{◌≡◌, ◌↔◌, ◌<◌, ◌∷◌, ◌++◌, [], ℕ, List, OnOk, IfOk, Some, None, length, replicate, reverse, true};
ghost use Rattle.board_core.specs.Course.{is_hart};
ghost use Rattle.board_core.specs.ErrorLaw.{is_error};
ghost use Rattle.board_core.specs.History.{Event as Step};
ghost use Rattle.outcome_statistics.specs.Records.{Tried};
ghost use Rattle.outcome_statistics.specs.Visits.{AreVisited, Calls, Enters, HasKey, IsCallAt, IsWith, entry_at, is_call, place_behind, spot_at, spot_of};
ghost use Rattle.outcome_statistics.specs.Inside.Guests.{AreGuests};

use board_core::{Actor, Event, Op, Reply};
use guest_programs::is_guest;
use std::alloc::{AllocError, Global};
use std::collections::{BTreeMap, BTreeSet};

/// An operation of a block: the block's address, and how many operations stand before it.
#[derive(Clone, Copy, PartialEq, Eq, PartialOrd, Ord, Hash)]
pub struct Spot {
    /// The address.
    pub addr: u64,
    /// The number of operations before it.
    pub before: u64,
}

/// A step by its actor and its place in the script: a guest's in its block, the firmware's by its operation, the clock's by its
/// ticks.
#[derive(Clone, Copy, PartialEq, Eq, PartialOrd, Ord)]
pub struct Deed {
    /// The hart; none for the clock.
    pub hart: Option<u64>,
    /// Its place in a block, if it is a guest's.
    pub spot: Option<Spot>,
    /// Distinguishes steps of the firmware and the clock.
    other: u64,
}

impl Deed {
    /// A step that was made while its hart's guest was at this place.
    fn of(guest: Option<Spot>, event: &Event) -> Deed {
        let hart = match event.actor() {
            Actor::Hart(h) => Some(h),
            Actor::Clock => None,
        };
        let spot = if is_guest(event.op()) { guest } else { None };
        let other = match event.op() {
            Op::Poll => 1,
            Op::Serve => 2,
            Op::Advance => 3,
            Op::Tick(n) => n,
            _ => 0,
        };
        Deed { hart, spot, other }
    }
}

/// What the guests of many orders met.
#[derive(Drop)]
pub struct Visits {
    /// The addresses at which harts were entered.
    pub entered: BTreeSet<u64>,
    /// The calls that some time succeeded: they returned SUCCESS, waited for their poll, or didn't return.
    pub succeeded: BTreeSet<Spot>,
    /// The calls that some time returned with an error.
    pub failed: BTreeSet<Spot>,
    /// The different steps, each with one event, of orders without a step that a condition needs.
    pub deeds: BTreeMap<Deed, Event>,
}

impl Visits {
    /// Before any order was tried.
    pub fn new(alloc: Global) -> Visits
        ensures { (harts : ℕ) → AreVisited harts [] result }
    {
        Visits {
            entered: BTreeSet::new(alloc),
            succeeded: BTreeSet::new(alloc),
            failed: BTreeSet::new(alloc),
            deeds: BTreeMap::new(alloc),
        }
    }

    /// Adds an order of this many harts; its different steps are kept or not.
    ///
    /// # Errors
    ///
    /// Memory was refused.
    pub fn see(
        &mut self,
        alloc: Global,
        harts: u64,
        events: &[Event],
        with_deeds: bool,
    ) -> Result<(), AllocError>
        ensures { OnOk result (IsWith (Enters (reverse events.now)) (Calls harts (reverse events.now)) self.old self.new) }
    {
        self.see_steps(alloc, harts, events)?;
        if with_deeds {
            see_deeds(&mut self.deeds, alloc, harts, events)?;
        }
        Ok(())
    }

    /// Adds the entries and calls of an order of this many harts.
    fn see_steps(&mut self, alloc: Global, harts: u64, events: &[Event]) -> Result<(), AllocError>
        ensures { OnOk result (IsWith (Enters (reverse events.now)) (Calls harts (reverse events.now)) self.old self.new) }
    {
        let mut guests = nowhere(alloc, harts)?;
        for event in events {
            let next = self.see_step(guest_of(&guests, event.actor()), event)?;
            put_guest(&mut guests, event.actor(), next);
        }
        Ok(())
    }

    /// Adds a step that was made while its hart's guest was at this place.
    ///
    /// # Errors
    ///
    /// Memory was refused.
    pub fn see_deed(&mut self, guest: Option<Spot>, event: &Event) -> Result<(), AllocError> {
        see_deed(&mut self.deeds, guest, event)
    }

    /// Adds a step of a hart whose guest was at this place, if in a block. Returns the guest's place after it.
    ///
    /// # Errors
    ///
    /// Memory was refused.
    pub fn see_step(
        &mut self,
        guest: Option<Spot>,
        event: &Event,
    ) -> Result<Option<Spot>, AllocError>
        ensures next { IfOk result (λ next. (past : List Step) (h : ℕ) → is_hart h event.now.actor ≡ true
            → guest ≡ spot_of past h → next ≡ spot_of (event.now ∷ past) h) }
        ensures seen { OnOk result
            (IsWith (λ addr. entry_at event.now.reply ≡ Some addr) (IsCallAt guest event.now) self.old self.new) }
    {
        self.see_entry(event.reply())?;
        self.see_call(guest, event)?;
        Ok(guest_after(guest, event))
    }

    /// Adds the address at which a reply enters a hart.
    fn see_entry(&mut self, reply: Reply) -> Result<(), AllocError>
        ensures { OnOk result (IsWith (λ addr. entry_at reply ≡ Some addr) (λ spot fails. ⊥) self.old self.new) }
    {
        match entry_at(reply) {
            Some(addr) => {
                self.entered.insert(addr)?;
                Ok(())
            }
            None => Ok(()),
        }
    }

    /// Adds a call of a guest at this place, if the step is one.
    fn see_call(&mut self, guest: Option<Spot>, event: &Event) -> Result<(), AllocError>
        ensures { OnOk result (IsWith (λ addr. ⊥) (IsCallAt guest event.now) self.old self.new) }
    {
        let Some(spot) = guest else {
            return Ok(());
        };
        if !is_call(event.op()) {
            return Ok(());
        }
        if is_error(event.reply()) {
            self.failed.insert(spot)?;
            return Ok(());
        }
        self.succeeded.insert(spot)?;
        Ok(())
    }

    /// Whether a call was made, and failed each time.
    pub fn is_only_failed(&self, spot: &Spot) -> bool
        ensures { (result ≡ true) ↔ (HasKey self.now.failed.keys spot.now × ¬ HasKey self.now.succeeded.keys spot.now) }
    {
        self.failed.contains(spot) && !self.succeeded.contains(spot)
    }

    /// Adds what other orders met.
    ///
    /// # Errors
    ///
    /// Memory was refused.
    pub fn add(&mut self, later: &mut Visits) -> Result<(), AllocError>
        ensures { OnOk result ((harts : ℕ) (tried more : List Tried) → AreVisited harts tried self.old
            → AreVisited harts more later.old → AreVisited harts (more ++ tried) self.new) }
    {
        self.entered.append(&mut later.entered)?;
        self.succeeded.append(&mut later.succeeded)?;
        self.failed.append(&mut later.failed)?;
        self.deeds.append(&mut later.deeds)
    }
}

/// Adds the different steps of an order of this many harts.
///
/// # Errors
///
/// Memory was refused.
fn see_deeds(
    deeds: &mut BTreeMap<Deed, Event>,
    alloc: Global,
    harts: u64,
    events: &[Event],
) -> Result<(), AllocError> {
    let mut guests = nowhere(alloc, harts)?;
    for event in events {
        let guest = guest_of(&guests, event.actor());
        see_deed(deeds, guest, event)?;
        put_guest(&mut guests, event.actor(), guest_after(guest, event));
    }
    Ok(())
}

/// Adds a step that was made while its hart's guest was at this place.
///
/// # Errors
///
/// Memory was refused.
fn see_deed(
    deeds: &mut BTreeMap<Deed, Event>,
    guest: Option<Spot>,
    event: &Event,
) -> Result<(), AllocError> {
    let deed = Deed::of(guest, event);
    if !deeds.contains_key(&deed) {
        deeds.insert(deed, *event)?;
    }
    Ok(())
}

/// The places of the guests of this many harts that weren't entered yet.
fn nowhere(alloc: Global, harts: u64) -> Result<Vec<Option<Spot>>, AllocError>
    ensures { IfOk result (λ guests. guests.items ≡ replicate harts None) }
{
    let mut guests = Vec::with_capacity(alloc, harts as usize)?;
    for _ in 0..harts {
        guests.push(None)?;
    }
    Ok(guests)
}

/// The place of the guest of an event's hart, if it is in a block.
fn guest_of(guests: &[Option<Spot>], actor: Actor) -> Option<Spot>
    ensures { (harts : ℕ) (past : List Step) → AreGuests harts past guests.now → result ≡ spot_at harts past actor }
{
    match actor {
        Actor::Hart(h) => {
            if h < guests.len() as u64 {
                guests[h as usize]
            } else {
                None
            }
        }
        Actor::Clock => None,
    }
}

/// The guest of an event's hart is at this place now.
fn put_guest(guests: &mut [Option<Spot>], actor: Actor, next: Option<Spot>)
    ensures many { length guests.new ≡ length guests.old }
    ensures at { (harts : ℕ) (past : List Step) (e : Step) → e.actor ≡ actor → AreGuests harts past guests.old
        → ((h : ℕ) → h < harts → is_hart h actor ≡ true → next ≡ spot_of (e ∷ past) h)
        → AreGuests harts (e ∷ past) guests.new }
{
    match actor {
        Actor::Hart(h) => {
            if h < guests.len() as u64 {
                guests[h as usize] = next;
            }
        }
        Actor::Clock => {}
    }
}

/// Where a guest is after a step of its hart.
fn guest_after(guest: Option<Spot>, event: &Event) -> Option<Spot>
    ensures { (past : List Step) (h : ℕ) → is_hart h event.now.actor ≡ true → guest ≡ spot_of past h
        → result ≡ spot_of (event.now ∷ past) h }
{
    match entry_at(event.reply()) {
        Some(addr) => Some(Spot { addr, before: 0 }),
        None => {
            if is_guest(event.op()) {
                behind(guest)
            } else {
                guest
            }
        }
    }
}

/// The place behind an operation of a guest.
fn behind(guest: Option<Spot>) -> Option<Spot>
    ensures { result ≡ place_behind guest }
{
    let spot = guest?;
    Some(Spot {
        addr: spot.addr,
        before: spot.before.saturating_add(1),
    })
}

/// The address at which a reply enters a hart.
fn entry_at(reply: Reply) -> Option<u64>
    ensures { result ≡ entry_at reply }
{
    match reply {
        Reply::Entry { addr, .. } => Some(addr),
        _ => None,
    }
}

/// Whether an operation is a call.
fn is_call(op: Op) -> bool
    ensures { result ≡ is_call op }
{
    matches!(op, Op::Ecall(_))
}

/// Whether a reply is a call's error.
fn is_error(reply: Reply) -> bool
    ensures { result ≡ is_error reply }
{
    match reply {
        Reply::Ret(found) => found.error != 0,
        _ => false,
    }
}
