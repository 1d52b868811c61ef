//! How a run ended, found from its record.
ghost use Rattle.std.specs.Prelude.{◌≡◌, ◌∷◌, ◌<◌, ◌↔◌, ℕ, true, IfOk, List, MatchOption, None, Option, length};
ghost use Rattle.board_terms.specs.declared.op.Actor.TheVariants.{Hart};
ghost use Rattle.board_core.specs.History.{Event};
ghost use Rattle.guest_programs.specs.Ends.{AreQuiet, IsEnd, IsEndBy, IsQuiet};
ghost use Rattle.guest_programs.specs.Guests.{AreNext, Did, Entered, next_for};
ghost use Rattle.guest_programs.specs.Places.{AllFollowed, IsFollowed, IsFollowedTo};

use crate::ends::End;
use crate::guests::{Guests, is_guest};
use crate::met::Met;
use crate::places::all_alike;
use board_core::{Actor, Board, Event, HartState, Op, Reply};
use std::alloc::{AllocError, Global};

/// How a board's run ended, from its history and its guests' programs. It trusts the actors on two points only, which
/// the history doesn't show: whether a gate closed, and whether an actor met a full history.
///
/// # Errors
///
/// Out of memory.
pub fn end_of<G: Guests>(
    alloc: Global,
    board: &Board,
    guests: &G,
    met: Met,
) -> Result<End, AllocError>
    ensures end { IfOk result (λ end. IsEnd end board.now.opening board.now.past (G.next guests.now)) }
    ensures by { IfOk result (λ end. IsEndBy met board.now.opening board.now.past (G.next guests.now) end) }
{
    if met == Met::ClosedGate {
        return Ok(End::GateLimit);
    }
    if board.is_off() {
        return Ok(End::Off);
    }
    if met == Met::FullHistory && board.history().len() as u64 == board.config().limit {
        return Ok(End::HistoryFull);
    }
    let found = found_after(alloc, board, guests)?;
    Ok(match first_unquiet(board, guests, &found) {
        None => End::Quiet,
        Some(_) => End::Stuck,
    })
}

/// What a history shows about a hart's guest.
#[derive(Clone, Copy)]
enum Followed<P: Copy> {
    /// Since its last entry the guest did only its next operations, and is at this place.
    To(P),
    /// The guest did something else.
    Strayed,
}

/// What is shown after one more accepted operation of the guest's hart.
fn followed_after<G: Guests>(
    guests: &G,
    found: Followed<G::Place>,
    op: Op,
    reply: Reply,
) -> Followed<G::Place>
    ensures { (past : List Event) (h : ℕ) (e : Event) → e.actor ≡ Hart h → e.op ≡ op → e.reply ≡ reply
        → IsFollowed (G.rest guests.now) (G.next guests.now) past h found
        → IsFollowed (G.rest guests.now) (G.next guests.now) (e ∷ past) h result }
{
    if let Reply::Entry { addr, hart, opaque } = reply {
        return Followed::To(guests.entered(addr, hart, opaque));
    }
    if is_guest(op) {
        return followed_behind(guests, found, op, reply);
    }
    found
}

/// What is shown after one more operation of the guest.
#[tactic(auto, using(crate::proofs::Following::strayed_before))]
fn followed_behind<G: Guests>(
    guests: &G,
    found: Followed<G::Place>,
    op: Op,
    reply: Reply,
) -> Followed<G::Place>
    ensures { (entry : Option Entered) (before : Did)
        → IsFollowedTo (G.rest guests.now) (G.next guests.now) entry before found
        → IsFollowedTo (G.rest guests.now) (G.next guests.now) entry ((op, reply) ∷ before) result }
{
    let Followed::To(place) = found else {
        return Followed::Strayed;
    };
    let Some(next) = guests.op_at(place) else {
        return Followed::Strayed;
    };
    if !is_same(next, op) {
        return Followed::Strayed;
    }
    Followed::To(guests.behind(place, op, reply))
}

/// Whether the guest did only its next operations, and has none left.
fn is_through<G: Guests>(guests: &G, found: &Followed<G::Place>) -> bool
    ensures { (entry : Option Entered) (before : Did)
        → IsFollowedTo (G.rest guests.now) (G.next guests.now) entry before found.now
        → (result ≡ true) ↔ (AreNext (G.next guests.now) entry before × (next_for (G.next guests.now) entry before ≡ None)) }
{
    match found {
        Followed::To(place) => guests.op_at(*place).is_none(),
        Followed::Strayed => false,
    }
}

/// Whether two operations are the same.
fn is_same(a: Op, b: Op) -> bool
    ensures { (result ≡ true) ↔ (a ≡ b) }
{
    a == b
}

/// What the history shows about each hart's guest.
///
/// # Errors
///
/// Out of memory.
fn found_after<G: Guests>(
    alloc: Global,
    board: &Board,
    guests: &G,
) -> Result<Vec<Followed<G::Place>>, AllocError>
    ensures many { IfOk result (λ v. length v.items ≡ board.now.opening.config.harts) }
    ensures followed { IfOk result
        (λ v. AllFollowed (G.rest guests.now) (G.next guests.now) v.items board.now.past) }
{
    let start = Followed::To(guests.nowhere());
    let mut found = all_alike(alloc, start, board.config().harts)?;
    for event in board.history() {
        see(guests, &mut found, event);
    }
    Ok(found)
}

/// What is shown after one more event.
fn see<G: Guests>(guests: &G, found: &mut [Followed<G::Place>], event: &Event)
    ensures many { length found.new ≡ length found.old }
    ensures followed { (past : List _) → AllFollowed (G.rest guests.now) (G.next guests.now) found.old past
        → AllFollowed (G.rest guests.now) (G.next guests.now) found.new (event.now ∷ past) }
{
    if let Actor::Hart(h) = event.actor()
        && (h as usize) < found.len()
    {
        let before = found[h as usize];
        found[h as usize] = followed_after(guests, before, event.op(), event.reply());
    }
}

/// The first hart that isn't quiet, if there is one.
fn first_unquiet<G: Guests>(board: &Board, guests: &G, found: &[Followed<G::Place>]) -> Option<u64>
    requires many { length found.now ≡ board.now.opening.config.harts }
    requires followed { AllFollowed (G.rest guests.now) (G.next guests.now) found.now board.now.past }
    ensures { MatchOption result (AreQuiet board.now.opening board.now.past (G.next guests.now))
        (λ h. (h < board.now.opening.config.harts)
        × ¬ IsQuiet board.now.opening board.now.past (G.next guests.now) h) }
{
    for (h, one) in found.iter().enumerate() {
        if !is_quiet(board, guests, h as u64, one) {
            return Some(h as u64);
        }
    }
    None
}

/// Whether a hart is quiet: STOPPED; or STARTED, in no fence call, and with its guest through.
fn is_quiet<G: Guests>(board: &Board, guests: &G, h: u64, found: &Followed<G::Place>) -> bool
    requires hart { h < board.now.opening.config.harts }
    requires followed { IsFollowed (G.rest guests.now) (G.next guests.now) board.now.past h found.now }
    ensures { (result ≡ true) ↔ IsQuiet board.now.opening board.now.past (G.next guests.now) h }
{
    match board.state(h) {
        HartState::Stopped => true,
        HartState::Started => board.outstanding(h).is_none() && is_through(guests, found),
        _ => false,
    }
}
