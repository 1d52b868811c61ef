//! The desk: what the lock protects, and the operations under it.
ghost use Rattle.std.specs.Prelude.{◌≡◌, ◌+◌, ◌<◌, ◌∷◌, ◌++◌, [], IfOk, IfErr, OnOk, OnErr, Ok, length, false, true};
ghost use mathlib.Core.List.{IsPrefix};
ghost use Rattle.board_core.specs.Replies.{answer, stepped};
ghost use Rattle.board_terms.specs.Limits.{IsGood};
ghost use Rattle.board_lock.specs.Events.{IsActor, events_in};
ghost use Rattle.board_lock.specs.Inside.Kept.{IsReceiptOf, number_of};
ghost use Rattle.board_lock.specs.Receipts.{accepted_call};
ghost use Rattle.board_lock.specs.Inside.Rests.{IsPause, IsPauseFor, IsStay, held};
ghost use Rattle.board_lock.specs.Seats.{seeing};
ghost use Rattle.board_lock.specs.Views.{IsDone, IsRefused, IsView, Shows};

use crate::receipts::Answered;
use crate::rests::{Awaits, Rest, Rests, Until};
use crate::rooms::Room;
use crate::seats::Seat;
use crate::views::{HartNow, HartView};
use crate::waking::has_come;
use board_core::{Actor, Board, Config, Event, Op, Refusal};
use ghost_log::Log;
use std::marker::Model;
use std::sync::ledger::{Book, Share};

/// What the lock protects: the board, the number of each actor's events, and the seats that rest.
#[derive(Drop)]
pub(crate) struct Desk<K: Room> {
    pub(crate) board: Board,
    pub(crate) counts: Vec<u64>,
    pub(crate) rests: Rests,
    pub(crate) ended: bool,
    pub(crate) book: Book<K>,
    pub(crate) left: Share<K>,
    pub(crate) log: Log<Event>,
}

impl<K: Room> Model for Desk<K> {
    ghost use Rattle.board_lock.specs.Inside.Kept.{IsDesk, tally};
    ghost use Rattle.board_lock.specs.Inside.Rests.{Held, held};

    ghost Value = { Held };

    ghost view = { λ d. held d.board d.rests d.ended };

    ghost invariant = { λ d. IsDesk K.opening K.log d.board d.rests
        (tally d.counts.items d.book.total d.left.parts d.left.amount) d.log };
}

/// The result of a seat's attempt to rest.
#[derive(Clone, Copy, Debug)]
pub(crate) enum Pause {
    /// The seat waits.
    Waits,
    /// The rest is over at once, for this reason.
    Over(Rest),
    /// The seat was the last that didn't rest, so all rests are over.
    Last,
}

impl<K: Room> Desk<K> {
    /// One step of the seat's actor. It returns the part of a receipt that needs the lock.
    ///
    /// # Errors
    ///
    /// The board's refusal, or `WrongPhase`, if the seat's count isn't that of its actor's events. Nothing changes.
    pub(crate) fn call(&mut self, seat: &mut Seat<K>, op: &Op) -> Result<Answered, Refusal>
        ensures receipt { IfOk result (λ r. IsReceiptOf K.opening.places K.log
            (accepted_call seat.old.actor seat.old.count r.place op.now r.reply) r.seen) }
        ensures place { IfOk result (λ r. K.opening.places + length seat.new.saw ≡ r.place + 1) }
        ensures reply { IfOk result
            (λ r. answer self.old.board.opening self.old.board.past seat.old.actor op.now ≡ Ok r.reply) }
        ensures after { OnOk result
            (self.new ≡ held (stepped self.old.board seat.old.actor op.now) self.old.rests self.old.ended) }
        ensures actor { seat.new.actor ≡ seat.old.actor }
        ensures accepted { OnOk result (seat.new.count ≡ seat.old.count + 1) }
        ensures ops { OnOk result (seat.new.ops ≡ seat.old.ops ++ op.now ∷ []) }
        ensures done { IfOk result (λ r. IsDone K.opening seat.old seat.new op.now r.reply) }
        ensures refused { OnErr result
            ((seat.new ≡ seeing seat.old (events_in self.old.board)) × (self.new ≡ self.old)) }
        ensures refusal { IfErr result (λ r. IsRefused K.opening seat.new op.now r) }
        ensures later { IsPrefix seat.old.saw seat.new.saw }
        ensures now { seat.new.saw ≡ events_in self.new.board }
    {
        self.see(seat);
        let number = self.number(seat.actor);
        if self.counts[number] != seat.count {
            return Err(Refusal::WrongPhase);
        }
        let place = self.board.place();
        let index = self.board.history().len();
        let reply = self.board.step(seat.actor, *op)?;
        self.log.push(&self.board.history()[index]);
        self.counts[number] += 1;
        self.book.add(&mut seat.share, 1);
        seat.count += 1;
        seat.seen = self.log.prefix();
        seat.saw = self.log.prefix();
        Ok(Answered {
            place,
            reply,
            seen: self.log.prefix(),
        })
    }

    /// The same as `call`, together with a view after the event.
    pub(crate) fn call_and_view(
        &mut self,
        seat: &mut Seat<K>,
        op: &Op,
    ) -> Result<(Answered, HartView), Refusal>
        ensures receipt { IfOk result (λ r. IsReceiptOf K.opening.places K.log
            (accepted_call seat.old.actor seat.old.count r.0.place op.now r.0.reply) r.0.seen) }
        ensures place { IfOk result (λ r. K.opening.places + length seat.new.saw ≡ r.0.place + 1) }
        ensures view { IfOk result (λ r. IsView K.opening seat.new r.1) }
        ensures actor { seat.new.actor ≡ seat.old.actor }
        ensures accepted { OnOk result (seat.new.count ≡ seat.old.count + 1) }
        ensures ops { OnOk result (seat.new.ops ≡ seat.old.ops ++ op.now ∷ []) }
        ensures done { IfOk result (λ r. IsDone K.opening seat.old seat.new op.now r.0.reply) }
        ensures refused { OnErr result (seat.new ≡ seeing seat.old seat.new.saw) }
        ensures refusal { IfErr result (λ r. IsRefused K.opening seat.new op.now r) }
        ensures later { IsPrefix seat.old.saw seat.new.saw }
    {
        let answered = self.call(seat, op)?;
        let view = self.view(seat);
        Ok((answered, view))
    }

    /// The seat sees the events as they are now.
    fn see(&mut self, seat: &mut Seat<K>)
        ensures seat { seat.new ≡ seeing seat.old (events_in self.old.board) }
        ensures later { IsPrefix seat.old.saw seat.new.saw }
        ensures opening { self.old.board.opening ≡ K.opening }
        ensures same { self.new ≡ self.old }
    {
        self.log.begins_with(&seat.seen);
        self.log.begins_with(&seat.saw);
        seat.saw = self.log.prefix();
    }

    /// The seat's view of the board as it is now.
    pub(crate) fn view(&mut self, seat: &mut Seat<K>) -> HartView
        ensures view { IsView K.opening seat.new result }
        ensures seat { seat.new ≡ seeing seat.old (events_in self.old.board) }
        ensures later { IsPrefix seat.old.saw seat.new.saw }
        ensures same { self.new ≡ self.old }
    {
        self.see(seat);
        let hart = match seat.actor {
            Actor::Hart(h) => Some(self.hart_now(h)),
            Actor::Clock => None,
        };
        HartView {
            hart,
            is_off: self.board.is_off(),
            events: self.events(),
        }
    }

    /// Hart `h` as it is now.
    pub(crate) fn hart_now(&self, h: u64) -> HartNow
        requires { h < K.opening.config.harts }
        ensures { Shows self.now.board h result }
    {
        HartNow {
            state: self.board.state(h),
            outstanding: self.board.outstanding(h),
            waiting: self.board.waiting_len(h),
            wake: self.board.wake(h),
        }
    }

    /// The number of events.
    fn events(&self) -> u64
        ensures { result ≡ length self.now.board.past }
    {
        self.board.history().len() as u64
    }

    /// The seat asks to rest until the number of events isn't `seen`. No event happens.
    pub(crate) fn rest(&mut self, seat: &mut Seat<K>, seen: u64) -> Pause
        ensures pause { IsPause result self.old self.new seat.old.actor seen }
        ensures seat { seat.new ≡ seeing seat.old (events_in self.old.board) }
        ensures later { IsPrefix seat.old.saw seat.new.saw }
    {
        self.see(seat);
        if self.ended {
            return Pause::Over(Rest::AllRest);
        }
        if self.events() != seen {
            return Pause::Over(Rest::Changed);
        }
        self.stay(seat.actor, Until::Event)
    }

    /// The seat asks to rest until what it waits for has come, and gets a view. No event happens.
    pub(crate) fn rest_for(&mut self, seat: &mut Seat<K>, awaits: Awaits) -> (Pause, HartView)
        ensures pause { IsPauseFor result.0 self.old self.new seat.old.actor awaits result.1.hart }
        ensures view { IsView K.opening seat.new result.1 }
        ensures seat { seat.new ≡ seeing seat.old (events_in self.old.board) }
        ensures later { IsPrefix seat.old.saw seat.new.saw }
    {
        let shown = self.view(seat);
        if self.ended {
            return (Pause::Over(Rest::AllRest), shown);
        }
        if let Some(now) = &shown.hart
            && has_come(awaits, now)
        {
            return (Pause::Over(Rest::Changed), shown);
        }
        (self.stay(seat.actor, Until::For(awaits)), shown)
    }

    /// The actor's seat rests. If it was the last that didn't, all rests are over. No event happens.
    fn stay(&mut self, actor: Actor, until: Until) -> Pause
        requires acting { IsActor K.opening.config actor }
        requires going { self.old.ended ≡ false }
        ensures { IsStay result self.old self.new actor until }
    {
        self.rests.insert(actor, until);
        if !self.rests.is_all(self.board.config().harts) {
            return Pause::Waits;
        }
        self.ended = true;
        Pause::Last
    }

    /// Ends every rest, for good. No event happens.
    pub(crate) fn end(&mut self)
        ensures { self.new ≡ held self.old.board self.old.rests true }
    {
        self.ended = true;
    }

    /// An actor's number: a hart's id, or for the clock the number of harts.
    fn number(&self, actor: Actor) -> usize
        requires { IsActor K.opening.config actor }
        ensures { result ≡ number_of K.opening.config actor }
    {
        actor_number(self.board.config(), actor)
    }
}

/// An actor's number on a board with these numbers.
pub(crate) fn actor_number(config: &Config, actor: Actor) -> usize
    requires { (IsGood config.now) × IsActor config.now actor }
    ensures { result ≡ number_of config.now actor }
{
    match actor {
        Actor::Hart(h) => h as usize,
        Actor::Clock => config.harts as usize,
    }
}
