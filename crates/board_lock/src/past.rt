//! The past that a record leaves when it is split. Receipts still stand in it.
ghost use Rattle.std.specs.Prelude.{◌≡◌, ℕ, ◌+◌, ◌≤◌, Some, slice_get, length};
ghost use Rattle.board_terms.specs.Limits.{IsGood};
ghost use Rattle.board_core.specs.Cuts.{IsOpened};
ghost use Rattle.board_core.specs.Replies.{IsLegal};
ghost use Rattle.board_lock.specs.Events.{StandsAt, events_in, placed_of};

use crate::receipts::Receipt;
use crate::records::find;
use crate::rooms::Room;
use board_core::{Event, Opening, Segment};
use ghost_log::ClosedLog;
use std::marker::{Model, PhantomData};

/// What a record left when its board continued: the opening and the history since, in which the event of every receipt
/// of the room stands.
#[derive(Drop)]
pub struct Past<K: Room> {
    pub(crate) segment: Segment,
    pub(crate) log: ClosedLog<Event>,
    pub(crate) room: PhantomData<K>,
}

impl<K: Room> Model for Past<K> {
    ghost use Rattle.std.specs.Prelude.{reverse};
    ghost use Rattle.board_core.specs.Course.{Course};
    ghost use Rattle.board_lock.specs.Inside.Kept.{IsPast};

    ghost Value = { Course };

    ghost view = { λ p. record { opening = p.segment.opening; past = reverse p.segment.events.items } };

    ghost invariant = { λ p. IsPast K.opening K.log p.segment.opening p.segment.events.items p.log };
}

impl<K: Room> Past<K> {
    /// The opening of this segment of the history.
    pub fn opening(&self) -> &Opening
        ensures { result.now ≡ self.now.opening }
    {
        &self.segment.opening
    }

    /// The accepted events, oldest first: a legal history within the limit, on an opening that a board can reach. So
    /// each law of `board_laws` applies to them.
    pub fn events(&self) -> &[Event]
        ensures events { result.now ≡ events_in self.now }
        ensures good { IsGood self.now.opening.config }
        ensures opened { IsOpened self.now.opening }
        ensures legal { IsLegal self.now.opening self.now.past }
        ensures within { length result.now ≤ self.now.opening.config.limit }
    {
        &self.segment.events
    }

    /// The event of a receipt. It has the receipt's actor, operation and reply, and stands at the receipt's place.
    /// Among its actor's events it has the receipt's ordinal.
    pub fn look(&self, receipt: &Receipt<K>) -> &Event
        ensures call { (result.now.actor ≡ receipt.now.actor) × (result.now.op ≡ receipt.now.op)
            × (result.now.reply ≡ receipt.now.reply) }
        ensures place { StandsAt self.now receipt.now.place result.now }
        ensures member { slice_get (placed_of self.now receipt.now.actor) receipt.now.ordinal
            ≡ Some (receipt.now.place, result.now) }
    {
        let first = self.segment.opening.places();
        find(&self.segment.events, first, &self.log, receipt)
    }
}
