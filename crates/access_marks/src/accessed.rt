//! The addresses that a record accesses.
ghost use Rattle.std.specs.Prelude.{◌≡◌, ◌↔◌, ◌<◌, IfOk, MatchOption, true};
ghost use Rattle.std.specs.List.{All, Contains};
ghost use Rattle.board_core.specs.History.{Event as Step};
ghost use Rattle.tlb_watch.specs.declared.hart_address.HartAddress.{HartAddress as Place};
ghost use Rattle.access_marks.specs.Inside.Accessed.{IsGrown, IsPresent, IsPut, IsWatched, address_of};

use board_core::{Actor, Event};
use board_rules::access_of;
use std::alloc::{AllocError, Global};
use tlb_watch::HartAddress;

/// The addresses that a record accesses, each once. None: an actor isn't there on a board of so many harts.
///
/// # Errors
///
/// Out of memory.
pub(crate) fn accessed(
    alloc: Global,
    harts: u64,
    events: &[Event],
) -> Result<Option<Vec<HartAddress>>, AllocError>
    ensures { IfOk result (λ found. MatchOption found (¬ All (λ (e : Step). IsPresent harts e.actor) events.now)
        (λ addresses. All (λ (at : Place). at.hart < harts) addresses.items
        × All (IsWatched harts addresses.items) events.now)) }
{
    let mut addresses = Vec::new(alloc);
    for event in events {
        if !is_present(harts, event.actor()) {
            return Ok(None);
        }
        put_address(&mut addresses, event)?;
    }
    Ok(Some(addresses))
}

/// Whether the actor is there: the clock, or one of so many harts.
fn is_present(harts: u64, actor: Actor) -> bool
    ensures { (result ≡ true) ↔ IsPresent harts actor }
{
    match actor {
        Actor::Hart(hart) => hart < harts,
        Actor::Clock => true,
    }
}

/// The address that an event accesses, with its hart.
fn address_of(event: &Event) -> Option<HartAddress>
    ensures { result ≡ address_of event.now }
{
    match event.actor() {
        Actor::Hart(hart) => match access_of(event.op()) {
            Some((address, _)) => Some(HartAddress { hart, address }),
            None => None,
        },
        Actor::Clock => None,
    }
}

/// Puts the address that an event accesses behind the others, unless it is among them.
///
/// # Errors
///
/// Out of memory.
fn put_address(addresses: &mut Vec<HartAddress>, event: &Event) -> Result<(), AllocError>
    ensures { IfOk result (λ _. IsGrown (address_of event.now) addresses.old.items addresses.new.items) }
{
    match address_of(event) {
        Some(at) => put(addresses, at),
        None => Ok(()),
    }
}

/// Puts an address behind the others, unless it is among them.
///
/// # Errors
///
/// Out of memory.
fn put(addresses: &mut Vec<HartAddress>, at: HartAddress) -> Result<(), AllocError>
    ensures { IfOk result (λ _. IsPut at addresses.old.items addresses.new.items) }
{
    if has(addresses, at) {
        return Ok(());
    }
    addresses.push(at)?;
    Ok(())
}

/// Whether an address is among these.
fn has(addresses: &[HartAddress], at: HartAddress) -> bool
    ensures { result ≡ true → Contains addresses.now at }
{
    for other in addresses {
        if *other == at {
            return true;
        }
    }
    false
}
