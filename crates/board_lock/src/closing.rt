//! Taking a board back from its lock, with all seats.
ghost use Rattle.std.specs.Prelude.{◌≡◌, ◌+◌, ◌↔◌, ℕ, All, IsTrue, length};
ghost use mathlib.Core.List.{IsPrefix};
ghost use Rattle.board_terms.specs.declared.config.Config.{Config};
ghost use Rattle.board_core.specs.Replies.{IsLegal};
ghost use Rattle.board_terms.specs.Limits.{IsGood};
ghost use Rattle.board_lock.specs.Events.{events_in, events_of, ops_of};
ghost use Rattle.board_lock.specs.Seats.{IsOneEach, seats_of};

use crate::desk::Desk;
use crate::records::Record;
use crate::rooms::Room;
use crate::seats::Seat;
use board_core::{Actor, Config};
use std::marker::PhantomData;

/// Whether there is one seat for each actor.
pub(crate) fn is_one_each<K: Room>(config: &Config, seats: &[Seat<K>]) -> bool
    requires { IsGood config.now }
    ensures { IsTrue result ↔ IsOneEach config.now seats.now }
{
    if seats.len() as u64 != config.harts + 1 || seats_of(Actor::Clock, seats) != 1 {
        return false;
    }
    for h in 0..config.harts {
        if seats_of(Actor::Hart(h), seats) != 1 {
            return false;
        }
    }
    true
}

/// The number of the actor's seats.
fn seats_of<K: Room>(actor: Actor, seats: &[Seat<K>]) -> usize
    ensures { result ≡ seats_of actor seats.now }
{
    let mut many = 0;
    for seat in seats {
        if seat.actor == actor {
            many += 1;
        }
    }
    many
}

/// The record of a board, once all seats are back.
pub(crate) fn settle<K: Room>(desk: Desk<K>, seats: Vec<Seat<K>>) -> Record<K>
    requires parts { (K.all ≡ K.parts) × (K.all ≡ K.opening.config.harts + 1) }
    requires all { IsOneEach K.opening.config seats.items }
    ensures opening { result.opening ≡ K.opening }
    ensures legal { IsLegal result.opening result.past }
    ensures counts { All (λ s. length (events_of s.actor (events_in result)) ≡ s.count) seats.items }
    ensures ops { All (λ s. ops_of s.actor (events_in result) ≡ s.ops) seats.items }
    ensures saw { All (λ s. IsPrefix s.saw (events_in result)) seats.items }
    ensures own { All (λ s. length (events_of s.actor s.saw) ≡ s.count) seats.items }
{
    let Desk {
        board,
        mut book,
        left,
        log,
        ..
    } = desk;
    let log = log.close();
    let mut all = left;
    for seat in seats {
        log.begins_with(&seat.seen);
        log.begins_with(&seat.saw);
        all.merge(seat.share);
    }
    book.audit(&mut all);
    let _legal = board.history();
    Record {
        board,
        log,
        room: PhantomData,
    }
}
