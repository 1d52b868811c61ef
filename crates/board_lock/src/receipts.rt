//! Receipts of accepted calls.
ghost use Rattle.std.specs.Prelude.{◌≡◌};
ghost use Rattle.board_lock.specs.Inside.Kept.{IsReceiptOf};
ghost use Rattle.board_lock.specs.Receipts.{accepted_call};

use crate::rooms::Room;
use board_core::{Actor, Event, Op, Reply};
use ghost_log::Prefix;
use std::marker::{Model, PhantomData};

/// The part of a receipt that needs the lock. The caller has the rest, and adds it after it released the lock.
#[derive(Drop)]
pub(crate) struct Answered {
    /// The number of the board's events accepted before it.
    pub(crate) place: u64,
    /// The reply.
    pub(crate) reply: Reply,
    /// The events up to the call's own.
    pub(crate) seen: Prefix<Event>,
}

impl Answered {
    /// The receipt of a call with this answer: its actor, the number of its seat's accepted calls before it, and its
    /// operation.
    pub(crate) fn receipt<K: Room>(self, actor: Actor, ordinal: u64, op: Op) -> Receipt<K>
        requires call { IsReceiptOf K.opening.places K.log (accepted_call actor ordinal self.place op self.reply) self.seen }
        ensures receipt { result ≡ accepted_call actor ordinal self.place op self.reply }
    {
        let Answered { place, reply, seen } = self;
        Receipt {
            actor,
            ordinal,
            place,
            op,
            reply,
            seen,
            room: PhantomData,
        }
    }
}

/// The receipt of an accepted call. It proves the call's event, and stays true of the record.
#[derive(Drop)]
pub struct Receipt<K: Room> {
    pub(crate) actor: Actor,
    pub(crate) ordinal: u64,
    pub(crate) place: u64,
    pub(crate) op: Op,
    pub(crate) reply: Reply,
    pub(crate) seen: Prefix<Event>,
    pub(crate) room: PhantomData<K>,
}

impl<K: Room> Model for Receipt<K> {
    ghost use Rattle.board_lock.specs.Inside.Kept.{IsReceiptOf};
    ghost use Rattle.board_lock.specs.Receipts.{AcceptedCall, accepted_call};

    ghost Value = { AcceptedCall };

    ghost view = { λ r. accepted_call r.actor r.ordinal r.place r.op r.reply };

    ghost invariant = { λ r. IsReceiptOf K.opening.places K.log (accepted_call r.actor r.ordinal r.place r.op r.reply) r.seen };
}

impl<K: Room> Receipt<K> {
    /// The actor that made the call.
    pub fn actor(&self) -> Actor
        ensures { result ≡ self.now.actor }
    {
        self.actor
    }

    /// The number of its seat's calls accepted before it.
    pub fn ordinal(&self) -> u64
        ensures { result ≡ self.now.ordinal }
    {
        self.ordinal
    }

    /// The place of its event: the number of the board's events accepted before it, including those before a cut.
    pub fn place(&self) -> u64
        ensures { result ≡ self.now.place }
    {
        self.place
    }

    /// The operation.
    pub fn op(&self) -> Op
        ensures { result ≡ self.now.op }
    {
        self.op
    }

    /// The reply.
    pub fn reply(&self) -> Reply
        ensures { result ≡ self.now.reply }
    {
        self.reply
    }
}
