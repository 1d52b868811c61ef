//! A board behind its lock, for threads.
ghost use Rattle.std.specs.Prelude.{◌≡◌, ◌≢◌, ◌⊎◌, ℕ, ◌+◌, ◌<◌, ◌≤◌, ◌↔◌, ◌∷◌, ◌++◌, [], All, IfOk, IfErr, IfSome, IsOk, IsErrOf, OnOk, OnErr, length, map, true};
ghost use mathlib.Core.List.{IsPrefix};
ghost use Rattle.board_terms.specs.declared.config.BuildFault.TheVariants.{BadConfig, NoMemory};
ghost use Rattle.board_terms.specs.Limits.{IsGood};
ghost use Rattle.board_core.specs.Opening.{opening_at};
ghost use Rattle.board_core.specs.Replies.{IsLegal};
ghost use Rattle.hart_mask.specs.Ids.{has};
ghost use Rattle.board_lock.specs.Events.{IsActor, events_in, events_of, ops_of};
ghost use Rattle.board_lock.specs.Seats.{IsOneEach, new_seats, seeing};
ghost use Rattle.board_lock.specs.Views.{IsDone, IsRefused, IsView};
ghost use Rattle.board_lock.specs.Coming.{has_come_to};
ghost use Rattle.board_lock.specs.Inside.Bells.{actors, actors_of};
ghost use Rattle.board_lock.specs.declared.rests.Rest.TheVariants.{Changed};

use crate::bells::{Bell, Rung, new_bells};
use crate::closing::{is_one_each, settle};
use crate::desk::{Desk, Pause, actor_number};
use crate::opening::open_desk;
use crate::receipts::Receipt;
use crate::records::Record;
use crate::rests::{Awaits, Rest, Woken};
use crate::rooms::{NewRoom, Room};
use crate::seats::Seat;
use crate::views::HartView;
use board_core::{Actor, Board, BuildFault, Config, HartSet, Op, Refusal};
use std::alloc::Global;
use std::fmt::{self, Write};
use std::marker::PhantomData;
use std::sync::{Mutex, MutexGuard, Wait};
use std::thread::yield_now;
use thiserror::Error;

/// How often a thread checks for what it waits for, and yields, before it sleeps.
const LOOKS: u32 = 6;

/// A board behind one lock.
#[derive(Drop)]
pub struct SharedBoard<K: Room> {
    config: Config,
    desk: Mutex<Desk<K>>,
    /// The bell of each seat: the harts' in order, then the clock's.
    bells: Vec<Bell>,
    ghost opening: { config ≡ K.opening.config },
    ghost belled: { map (λ b. b.actor) bells.items ≡ actors config.harts },
    ghost good: { IsGood config },
    ghost whole: { K.all ≡ K.opening.config.harts + 1 },
}

/// Why a board can't be closed: there isn't one seat for each actor. It gives back the board and the seats.
#[derive(Drop, Error)]
#[error("the seats aren't one for each actor")]
pub struct NotAll<K: Room> {
    /// The board.
    pub board: SharedBoard<K>,
    /// The seats.
    pub seats: Vec<Seat<K>>,
}

impl<K: Room> fmt::Debug for NotAll<K> {
    fn fmt<W: Write>(&self, f: &mut fmt::Formatter<W>) -> fmt::Result {
        f.write_str("NotAll")
    }
}

impl<K: Room> SharedBoard<K> {
    /// A new board behind a lock, and its seats: the harts' in order, then the clock's. All memory is allocated here;
    /// no later call allocates.
    ///
    /// # Errors
    ///
    /// `BadConfig`: a number of the board is outside the limits. `NoMemory`: out of memory.
    pub fn open(alloc: Global, room: NewRoom) -> Result<(SharedBoard<K>, Vec<Seat<K>>), BuildFault>
        requires room { (K.opening ≡ opening_at room.config) × (room.log ≡ K.log) }
        requires ledger { (room.ledger ≡ K.name) × (room.parts ≡ K.parts) × (K.all ≡ K.parts) }
        ensures bad { IsErrOf result BadConfig ↔ ¬ IsGood K.opening.config }
        ensures fault { IfErr result (λ fault. (fault ≡ BadConfig) ⊎ (fault ≡ NoMemory)) }
        ensures seats { IfOk result (λ r. r.1.items ≡ new_seats K.opening.config) }
    {
        let board = Board::new(alloc, &room.config)?;
        match SharedBoard::adopt(alloc, room, board) {
            Ok(opened) => Ok(opened),
            Err((_, fault)) => Err(fault),
        }
    }

    /// An existing board with an empty history behind a lock, and new seats: the harts' in order, then the clock's. All
    /// memory for the lock and the seats is allocated here; no later call allocates.
    ///
    /// # Errors
    ///
    /// Out of memory. It returns the board.
    pub fn adopt(
        alloc: Global,
        room: NewRoom,
        board: Board,
    ) -> Result<(SharedBoard<K>, Vec<Seat<K>>), (Board, BuildFault)>
        requires board { (board.opening ≡ K.opening) × (board.past ≡ []) }
        requires room { (room.config ≡ K.opening.config) × (room.log ≡ K.log) }
        requires ledger { (room.ledger ≡ K.name) × (room.parts ≡ K.parts) × (K.all ≡ K.parts) }
        ensures seats { IfOk result (λ r. r.1.items ≡ new_seats K.opening.config) }
        ensures back { IfErr result (λ e. (e.0 ≡ board) × (e.1 ≡ NoMemory)) }
    {
        let config = *board.config();
        let Ok(bells) = new_bells(alloc, config.harts) else {
            return Err((board, BuildFault::NoMemory));
        };
        let (desk, seats) = open_desk(alloc, room, board)?;
        let shared = SharedBoard {
            config,
            desk: Mutex::new(desk),
            bells,
        };
        Ok((shared, seats))
    }

    /// One step of the seat's actor. It returns a receipt for the recorded event. The lock is held only for this step.
    ///
    /// # Errors
    ///
    /// The board's refusal after the events of this moment, which the seat has then seen; or `WrongPhase`, if the
    /// seat's count isn't that of its actor's events. Nothing changes.
    #[inline(always)]
    pub fn call(&self, rt: &impl Wait, seat: &mut Seat<K>, op: Op) -> Result<Receipt<K>, Refusal>
        ensures receipt { IfOk result (λ r. (r.actor ≡ seat.old.actor) × (r.op ≡ op) × (r.ordinal ≡ seat.old.count)) }
        ensures place { IfOk result (λ r. K.opening.places + length seat.new.saw ≡ r.place + 1) }
        ensures actor { seat.new.actor ≡ seat.old.actor }
        ensures accepted { OnOk result (seat.new.count ≡ seat.old.count + 1) }
        ensures ops { OnOk result (seat.new.ops ≡ seat.old.ops ++ op ∷ []) }
        ensures done { IfOk result (λ r. IsDone K.opening seat.old seat.new op r.reply) }
        ensures refused { OnErr result (seat.new ≡ seeing seat.old seat.new.saw) }
        ensures refusal { IfErr result (λ r. IsRefused K.opening seat.new op r) }
        ensures later { IsPrefix seat.old.saw seat.new.saw }
    {
        let (actor, ordinal) = (seat.actor(), seat.count());
        let mut desk = self.desk.lock(rt);
        let told = desk.call(seat, &op);
        self.let_go(desk, &op, told.is_ok());
        let answered = told?;
        Ok(answered.receipt(actor, ordinal, op))
    }

    /// The same as `call`, together with the seat's view after the event. The lock is held once for both.
    ///
    /// # Errors
    ///
    /// Those of `call`.
    #[inline(always)]
    pub fn call_and_view(
        &self,
        rt: &impl Wait,
        seat: &mut Seat<K>,
        op: Op,
    ) -> Result<(Receipt<K>, HartView), Refusal>
        ensures receipt { IfOk result
            (λ r. (r.0.actor ≡ seat.old.actor) × (r.0.op ≡ op) × (r.0.ordinal ≡ seat.old.count)) }
        ensures place { IfOk result (λ r. K.opening.places + length seat.new.saw ≡ r.0.place + 1) }
        ensures view { IfOk result (λ r. IsView K.opening seat.new r.1) }
        ensures actor { seat.new.actor ≡ seat.old.actor }
        ensures accepted { OnOk result (seat.new.count ≡ seat.old.count + 1) }
        ensures ops { OnOk result (seat.new.ops ≡ seat.old.ops ++ op ∷ []) }
        ensures done { IfOk result (λ r. IsDone K.opening seat.old seat.new op r.0.reply) }
        ensures refused { OnErr result (seat.new ≡ seeing seat.old seat.new.saw) }
        ensures refusal { IfErr result (λ r. IsRefused K.opening seat.new op r) }
        ensures later { IsPrefix seat.old.saw seat.new.saw }
    {
        let (actor, ordinal) = (seat.actor(), seat.count());
        let mut desk = self.desk.lock(rt);
        let told = desk.call_and_view(seat, &op);
        self.let_go(desk, &op, told.is_ok());
        let (answered, view) = told?;
        Ok((answered.receipt(actor, ordinal, op), view))
    }

    /// Releases the lock and, if the operation was accepted, rings the bells of the seats whose rest it ends.
    fn let_go(&self, desk: MutexGuard<'_, Desk<K>>, op: &Op, has_more: bool) {
        let mut desk = desk;
        if has_more {
            let woken = desk.wake(op);
            drop(desk);
            self.ring(woken);
        }
    }

    /// Rings the bells of these seats.
    fn ring(&self, woken: Woken) -> Rung
        requires { (h : ℕ) → has woken.harts h ≡ true → h < K.opening.config.harts }
        ensures { result ≡ actors_of woken }
    {
        let mut rung = Rung::none();
        let mut left = woken.harts;
        while let Some(h) = left.pop_first() {
            self.bell(Actor::Hart(h)).ring(&mut rung);
        }
        if woken.clock {
            self.bell(Actor::Clock).ring(&mut rung);
        }
        rung
    }

    /// Rings the bells of all seats.
    fn ring_all(&self) -> Rung
        ensures { result ≡ actors K.opening.config.harts }
    {
        self.ring(Woken {
            harts: HartSet::below(self.config.harts),
            clock: true,
        })
    }

    /// The bell of the actor's seat.
    fn bell(&self, actor: Actor) -> &Bell
        requires { IsActor K.opening.config actor }
        ensures { result.now.actor ≡ actor }
    {
        &self.bells[actor_number(&self.config, actor)]
    }

    /// The seat's view after the events of this moment, which the seat has then seen. It is a hint: more events can
    /// follow before the caller uses it.
    pub fn view(&self, rt: &impl Wait, seat: &mut Seat<K>) -> HartView
        ensures view { IsView K.opening seat.new result }
        ensures seat { seat.new ≡ seeing seat.old seat.new.saw }
        ensures later { IsPrefix seat.old.saw seat.new.saw }
    {
        self.desk.lock(rt).view(seat)
    }

    /// Waits until the number of events isn't `seen`, or every seat rests, or an end was asked for.
    pub fn rest<R: Wait>(&self, rt: &R, seat: &mut Seat<K>, seen: u64) -> Rest
        ensures changed { result ≡ Changed → length seat.new.saw ≢ seen }
        ensures seat { seat.new ≡ seeing seat.old seat.new.saw }
        ensures later { IsPrefix seat.old.saw seat.new.saw }
    {
        let mut desk = self.desk.lock(rt);
        for _ in rt.forever() {
            match desk.rest(seat, seen) {
                Pause::Over(rest) => return rest,
                Pause::Last => {
                    drop(desk);
                    self.ring_all();
                    return Rest::AllRest;
                }
                Pause::Waits => {}
            }
            desk = self.bell(seat.actor()).wait(rt, seat, desk);
        }
        unreachable!()
    }

    /// Waits until what the seat waits for has come to its hart, and returns a view. None: every seat rests, or an end
    /// was asked for. The lock is released while it waits, and only events that may concern the hart wake it. It checks
    /// a few times before the thread sleeps, because most waits are shorter than a sleep and a wake-up.
    pub fn rest_for<R: Wait>(&self, rt: &R, seat: &mut Seat<K>, awaits: Awaits) -> Option<HartView>
        ensures view { IfSome result (λ v. IsView K.opening seat.new v) }
        ensures come { IfSome result (λ v. has_come_to awaits v.hart ≡ true) }
        ensures seat { seat.new ≡ seeing seat.old seat.new.saw }
        ensures later { IsPrefix seat.old.saw seat.new.saw }
    {
        let mut desk = self.desk.lock(rt);
        let mut looks = LOOKS;
        for _ in rt.forever() {
            let (pause, view) = desk.rest_for(seat, awaits);
            match pause {
                Pause::Over(Rest::Changed) => return Some(view),
                Pause::Over(Rest::AllRest) => return None,
                Pause::Last => {
                    drop(desk);
                    self.ring_all();
                    return None;
                }
                Pause::Waits if looks > 0 => {
                    looks -= 1;
                    drop(desk);
                    yield_now();
                    desk = self.desk.lock(rt);
                }
                Pause::Waits => desk = self.bell(seat.actor()).wait(rt, seat, desk),
            }
        }
        unreachable!()
    }

    /// Ends every rest, also later ones.
    pub fn end(&self, rt: &impl Wait) {
        self.desk.lock(rt).end();
        self.ring_all();
    }

    /// Takes the board from its lock, with all seats. It returns the record, in which each receipt's event stands.
    ///
    /// # Errors
    ///
    /// There isn't one seat for each actor. It returns the board and the seats.
    pub fn close(self, seats: Vec<Seat<K>>) -> Result<Record<K>, NotAll<K>>
        requires { K.all ≡ K.parts }
        ensures all { IsOk result ↔ IsOneEach K.opening.config seats.items }
        ensures opening { IfOk result (λ r. r.opening ≡ K.opening) }
        ensures legal { IfOk result (λ r. IsLegal r.opening r.past) }
        ensures counts { IfOk result (λ r. All (λ s. length (events_of s.actor (events_in r)) ≡ s.count) seats.items) }
        ensures ops { IfOk result (λ r. All (λ s. ops_of s.actor (events_in r) ≡ s.ops) seats.items) }
        ensures saw { IfOk result (λ r. All (λ s. IsPrefix s.saw (events_in r)) seats.items) }
        ensures own { IfOk result (λ _. All (λ s. length (events_of s.actor s.saw) ≡ s.count) seats.items) }
        ensures back { IfErr result (λ n. n.seats.items ≡ seats.items) }
    {
        if !is_one_each(&self.config, &seats) {
            return Err(NotAll { board: self, seats });
        }
        Ok(settle(self.desk.into_inner(), seats))
    }
}
