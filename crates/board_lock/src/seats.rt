//! Seats: each is the right of one actor to make calls.
ghost use Rattle.std.specs.Prelude.{◌≡◌};
ghost use Rattle.board_lock.specs.Events.{IsActor};

use crate::rooms::Room;
use board_core::{Actor, Event};
use ghost_log::Prefix;
use std::marker::Model;
use std::sync::ledger::Share;

/// The right of one actor to make calls. Each actor has one seat.
#[derive(Drop)]
pub struct Seat<K: Room> {
    pub(crate) actor: Actor,
    pub(crate) count: u64,
    pub(crate) share: Share<K>,
    /// The events after its last accepted call.
    pub(crate) seen: Prefix<Event>,
    /// The events when it last looked.
    pub(crate) saw: Prefix<Event>,
}

impl<K: Room> Model for Seat<K> {
    ghost use Rattle.board_lock.specs.Events.{ops_of};
    ghost use Rattle.board_lock.specs.Inside.Kept.{IsSeated, counter};
    ghost use Rattle.board_lock.specs.Seats.{Sitting, sitting};

    ghost Value = { Sitting };

    ghost view = { λ s. sitting s.actor s.count (ops_of s.actor s.seen.list) s.saw.list };

    ghost invariant = { λ s. IsSeated K.opening.config K.log
        (counter s.actor s.count s.share.parts s.share.amount) s.seen s.saw };
}

impl<K: Room> Seat<K> {
    /// The actor of the seat.
    pub fn actor(&self) -> Actor
        ensures actor { result ≡ self.now.actor }
        ensures acting { IsActor K.opening.config self.now.actor }
    {
        self.actor
    }

    /// The number of its accepted calls.
    pub fn count(&self) -> u64
        ensures { result ≡ self.now.count }
    {
        self.count
    }
}
