//! The one record of a closed board, in which receipts can be looked up.
ghost use Rattle.std.specs.Prelude.{◌≡◌, ℕ, ◌+◌, ◌<◌, ◌≤◌, List, [], IfOk, IfErr, IsErr, OnOk, Some, slice_get, length};
ghost use Rattle.board_core.specs.Cuts.{IsOpened, IsUnseen, last_cut, opening_of};
ghost use Rattle.board_terms.specs.declared.op.Actor.{Actor};
ghost use Rattle.board_core.specs.History.{Event};
ghost use Rattle.board_terms.specs.Limits.{IsGood};
ghost use Rattle.board_core.specs.Opening.{place_after};
ghost use Rattle.board_core.specs.Replies.{IsLegal};
ghost use Rattle.board_lock.specs.Events.{StandsAt, events_from, events_in, placed_of};
ghost use Rattle.board_lock.specs.Inside.Kept.{IsKeptLog};
ghost use Rattle.board_lock.specs.Splits.{split_fault};

use crate::past::Past;
use crate::receipts::Receipt;
use crate::rooms::Room;
use board_core::{Board, BuildFault, Event};
use ghost_log::ClosedLog;
use std::alloc::Global;
use std::marker::{Model, PhantomData};

/// A board that was taken from its lock, with its history, in which the event of every receipt of its room stands.
#[derive(Drop)]
pub struct Record<K: Room> {
    pub(crate) board: Board,
    pub(crate) log: ClosedLog<Event>,
    pub(crate) room: PhantomData<K>,
}

impl<K: Room> Model for Record<K> {
    ghost use Rattle.board_core.specs.Course.{Course};
    ghost use Rattle.board_lock.specs.Inside.Kept.{IsRecord};

    ghost Value = { Course };

    ghost view = { λ r. r.board };

    ghost invariant = { λ r. IsRecord K.opening K.log r.board r.log };
}

impl<K: Room> Record<K> {
    /// The accepted events, oldest first: a legal history within the limit, on an opening that a board can reach. So
    /// each law of `board_laws` applies to them.
    pub fn events(&self) -> &[Event]
        ensures events { result.now ≡ events_in self.now }
        ensures good { IsGood self.now.opening.config }
        ensures opened { IsOpened self.now.opening }
        ensures legal { IsLegal self.now.opening self.now.past }
        ensures within { length result.now ≤ self.now.opening.config.limit }
    {
        self.board.history()
    }

    /// The board.
    pub fn board(&self) -> &Board
        ensures { result.now ≡ self.now }
    {
        &self.board
    }

    /// The board. The record is gone.
    pub fn into_board(self) -> Board
        ensures { result ≡ self }
    {
        self.board
    }

    /// The event of a receipt. It has the receipt's actor, operation and reply, and stands at the receipt's place.
    /// Among its actor's events it has the receipt's ordinal.
    pub fn look(&self, receipt: &Receipt<K>) -> &Event
        ensures call { (result.now.actor ≡ receipt.now.actor) × (result.now.op ≡ receipt.now.op)
            × (result.now.reply ≡ receipt.now.reply) }
        ensures place { StandsAt self.now receipt.now.place result.now }
        ensures member { slice_get (placed_of self.now receipt.now.actor) receipt.now.ordinal
            ≡ Some (receipt.now.place, result.now) }
    {
        let events = self.board.history();
        find(events, self.board.places(), &self.log, receipt)
    }

    /// Cuts the history of the record's board. It returns the past, in which every receipt of the room still stands,
    /// and the board, which continues with an empty history. It allocates what `Board::cut` does.
    ///
    /// # Errors
    ///
    /// `CutFull`: more than 2^56 - 1,000,000 events were accepted since the first opening. `NoMemory`: out of memory.
    /// It returns the record.
    pub fn split(self, alloc: Global) -> Result<(Past<K>, Board), (Record<K>, BuildFault)>
        ensures full { last_cut < place_after self.opening self.past → IsErr result }
        ensures past { IfOk result (λ r. r.0 ≡ self) }
        ensures board { IfOk result (λ r. r.1 ≡ record { opening = opening_of self.opening self.past; past = [] }) }
        ensures unseen { OnOk result (IsUnseen self.opening self.past) }
        ensures back { IfErr result (λ e. (e.0 ≡ self) × (e.1 ≡ split_fault self)) }
    {
        let Record {
            mut board,
            log,
            room,
        } = self;
        let _legal = board.history();
        match board.cut(alloc) {
            Ok(segment) => Ok((Past { segment, log, room }, board)),
            Err(fault) => Err((Record { board, log, room }, fault)),
        }
    }
}

/// The event of a receipt among the events of its room, the first of which has this place.
pub(crate) fn find<'a, K: Room>(
    events: &'a [Event],
    first: u64,
    log: &ClosedLog<Event>,
    receipt: &Receipt<K>,
) -> &'a Event
    requires first { first ≡ K.opening.places }
    requires log { IsKeptLog K.log log.now events.now }
    ensures call { (result.now.actor ≡ receipt.now.actor) × (result.now.op ≡ receipt.now.op)
        × (result.now.reply ≡ receipt.now.reply) }
    ensures place { (index : ℕ) × (receipt.now.place ≡ first + index) × (slice_get events.now index ≡ Some result.now) }
    ensures member { slice_get (events_from first receipt.now.actor events.now) receipt.now.ordinal
        ≡ Some (receipt.now.place, result.now) }
{
    log.begins_with(&receipt.seen);
    &events[(receipt.place - first) as usize]
}

/// Of two events of an actor, the later one has the later place. So of two receipts of a seat, the one with the larger
/// ordinal has the later place. A law: there is nothing to run.
pub fn later_calls_are_later()
    ensures { (first : ℕ) (a : Actor) (es : List Event) (k l p q : ℕ) (e f : Event) → k < l →
        slice_get (events_from first a es) k ≡ Some (p, e) → slice_get (events_from first a es) l ≡ Some (q, f)
        → p < q }
{}
