//! All remote fences of a board: those that wait, the open calls, and the counts.
ghost use Rattle.std.specs.Prelude.{◌≡◌, ℕ, ◌<◌, ◌≤◌, [], true, Some, None, ◌==◌, not, unwrap_or, IfOk, if◌then◌else◌, is_some, length, slice_get, sum_by};
ghost use Rattle.hart_mask.specs.Ids.{has};
ghost use Rattle.fence_queue.specs.Positions.{position_of};
ghost use Rattle.fence_queue.specs.Queues.{IsQueue, is_from, queue_at};
ghost use Rattle.rfence.specs.Need.{IsNeed};
ghost use Rattle.rfence.specs.Turns.{Ask, Serve, Poll, Stop, Reset};
ghost use Rattle.rfence.specs.Opening.{nothing_before};
ghost use Rattle.rfence.specs.State.{AreAffected, HasRoom, IsLater, IsTaken, IsTakenAt, StandsFor, TakesAt, call_at, opened_at};

use crate::awaited::Awaited;
use crate::caches::{Fenced, apply_at, apply_where, clear_all, clear_at};
use crate::calls::{close_all, forget, forget_all, no_calls};
use crate::opened::FenceCall;
use crate::pending::{Pending, Waiting};
use fence_queue::Request;
use hart_mask::HartSet;
use std::alloc::{AllocError, Global};
use std::marker::Model;

/// The remote fences of a board's harts (SBI 8): the fences that wait at each hart, each open fence call with the harts
/// that it waits for, and the numbers of fences asked and applied.
#[derive(Drop)]
pub struct Fences<F> {
    queues: Pending<F>,
    calls: Vec<Option<Awaited>>,
    opened: Vec<Option<FenceCall<F>>>,
    asked: u64,
    applied: u64,
}

impl<F> Model for Fences<F> {
    ghost use Rattle.rfence.specs.State.{HasTurns, State};

    ghost Value = { State F };

    ghost view = { λ f.
        record { queues = f.queues; calls = f.calls.items; opened = f.opened.items; asked = f.asked; applied = f.applied } };

    ghost invariant = { λ f. HasTurns
        (record { queues = f.queues; calls = f.calls.items; opened = f.opened.items; asked = f.asked; applied = f.applied }) };
}

impl<F: Copy> Fences<F> {
    /// No fence waits, and no hart is in a call. `idle` is any fence: it fills the places of harts that asked none.
    /// Only this call and `try_copy` allocate.
    ///
    /// # Errors
    ///
    /// Out of memory.
    pub fn new(alloc: Global, harts: u64, idle: F) -> Result<Fences<F>, AllocError>
        requires { harts ≤ 128 }
        ensures { IfOk result (λ fences. StandsFor (nothing_before harts) harts [] fences) }
    {
        let queues = Pending::new(alloc, harts, idle)?;
        let calls = no_calls(alloc, harts)?;
        let opened = no_calls(alloc, harts)?;
        Ok(Fences {
            queues,
            calls,
            opened,
            asked: 0,
            applied: 0,
        })
    }

    /// A copy.
    ///
    /// # Errors
    ///
    /// Out of memory.
    pub fn try_copy(&self, alloc: Global) -> Result<Fences<F>, AllocError>
        ensures { IfOk result (λ copy. copy ≡ self.now) }
    {
        let queues = self.queues.try_copy(alloc)?;
        let mut calls = Vec::with_capacity(alloc, self.calls.len())?;
        calls.extend_from_slice(&self.calls)?;
        let mut opened = Vec::with_capacity(alloc, self.opened.len())?;
        opened.extend_from_slice(&self.opened)?;
        Ok(Fences {
            queues,
            calls,
            opened,
            asked: self.asked,
            applied: self.applied,
        })
    }

    /// Becomes a copy of the fences of as many harts. It allocates nothing.
    pub fn copy_from(&mut self, from: &Fences<F>)
        requires { length self.old.calls ≡ length from.now.calls }
        ensures { self.new ≡ from.now }
    {
        self.queues.copy_from(&from.queues);
        self.calls.copy_from_slice(&from.calls);
        self.opened.copy_from_slice(&from.opened);
        self.asked = from.asked;
        self.applied = from.applied;
    }

    /// Hart `c`, which is in no call, asks these harts for a fence, by the event at this place (SBI 8). At the hart
    /// itself, if it is one of them, the fence is applied at once; at each other hart it waits (profile). The hart is
    /// now inside its call. The place is later than those of all open calls.
    pub fn ask<C: Fenced<F>>(
        &mut self,
        caches: &mut [C],
        place: u64,
        c: u64,
        asked: HartSet,
        flush: F,
    )
        requires caller { c < length self.old.calls }
        requires targets { (t : ℕ) → has asked t ≡ true → t < length self.old.calls }
        requires outside { call_at self.old c ≡ None }
        requires place { IsLater place self.old }
        requires room { HasRoom self.old }
        requires caches { length caches.old ≡ length self.old.calls }
        ensures made { TakesAt place self.old (Ask c (has asked) flush) }
        ensures taken { IsTakenAt place self.old (Ask c (has asked) flush) self.new }
        ensures affected { AreAffected C.dropped C.emptied self.old (Ask c (has asked) flush) caches.old caches.new }
    {
        let applied = self.applied;
        let own = asked.contains(c);
        apply_where(caches, c, own, flush);
        self.applied = applied + one_if(own);
        self.asked += asked.len();
        let mut others = asked;
        others.remove(c);
        self.queues.ask(others, Request { from: c, flush });
        self.calls[c as usize] = Some(Awaited::new(others));
        self.opened[c as usize] = Some(FenceCall {
            place,
            asked,
            flush,
        });
    }

    /// Hart `t` applies the first fence that waits there. The hart that asked it no longer waits for `t` (profile).
    pub fn serve<C: Fenced<F>>(&mut self, caches: &mut [C], t: u64)
        requires in_range { t < length self.old.queues }
        requires waits { 0 < length (queue_at self.old.queues t) }
        requires room { HasRoom self.old }
        requires caches { length caches.old ≡ length self.old.calls }
        ensures taken { IsTaken self.old (Serve t) self.new }
        ensures affected { AreAffected C.dropped C.emptied self.old (Serve t) caches.old caches.new }
    {
        let Some(request) = self.queues.pop(t) else {
            unreachable!()
        };
        apply_at(caches, t, request.flush);
        forget(&mut self.calls, request.from, t);
        self.applied += 1;
    }

    /// Ends the call of hart `c`, which waits for no hart any more (profile).
    pub fn poll(&mut self, c: u64)
        requires in_range { c < length self.old.calls }
        requires over { call_at self.old c ≡ Some [] }
        ensures { IsTaken self.old (Poll c) self.new }
    {
        self.calls[c as usize] = None;
        self.opened[c as usize] = None;
    }

    /// Hart `t` stops. All fences that wait there count as applied, its caches are emptied, and no call waits for it
    /// any more (profile).
    pub fn discharge_all<C: Fenced<F>>(&mut self, caches: &mut [C], t: u64)
        requires in_range { t < length self.old.queues }
        requires room { HasRoom self.old }
        requires caches { length caches.old ≡ length self.old.calls }
        ensures taken { IsTaken self.old (Stop t) self.new }
        ensures affected { AreAffected C.dropped C.emptied self.old (Stop t) caches.old caches.new }
    {
        self.applied += self.queues.len(t);
        self.queues.drain(t);
        forget_all(&mut self.calls, t);
        clear_at(caches, t);
    }

    /// The board is reset. All waiting fences count as applied, all caches are emptied, and all calls are dropped
    /// (profile).
    pub fn reset<C: Fenced<F>>(&mut self, caches: &mut [C])
        requires { HasRoom self.old }
        ensures taken { IsTaken self.old Reset self.new }
        ensures affected { AreAffected C.dropped C.emptied self.old Reset caches.old caches.new }
    {
        self.applied += self.queues.total();
        self.queues.clear();
        close_all(&mut self.calls);
        close_all(&mut self.opened);
        clear_all(caches);
    }

    /// Whether hart `c` is inside a fence call.
    pub fn is_open(&self, c: u64) -> bool
        requires { c < length self.now.calls }
        ensures { result ≡ is_some (call_at self.now c) }
    {
        self.calls[c as usize].is_some()
    }

    /// The harts that hart `c`'s fence call waits for. None: it is in no call.
    pub fn outstanding(&self, c: u64) -> Option<HartSet>
        requires { c < length self.now.calls }
        ensures { result ≡ call_at self.now c }
    {
        self.calls[c as usize].map(|call| call.harts())
    }

    /// The fence call of hart `c`. None: it is in no call.
    pub fn call(&self, c: u64) -> Option<FenceCall<F>>
        requires { c < length self.now.calls }
        ensures { result ≡ opened_at self.now c }
    {
        self.opened[c as usize]
    }

    /// Whether hart `c` is inside a fence call that waits for a hart.
    pub fn is_waiting(&self, c: u64) -> bool
        requires { c < length self.now.calls }
        ensures { result ≡ not (length (unwrap_or (call_at self.now c) []) == 0) }
    {
        self.calls[c as usize].is_some_and(|call| call.is_some())
    }

    /// The requests that wait at hart `t`, in their order.
    pub fn iter(&self, t: u64) -> Waiting<'_, F>
        requires { t < length self.now.queues }
        ensures requests { result ≡ queue_at self.now.queues t }
        ensures queue { IsQueue (length self.now.queues) t (queue_at self.now.queues t) }
    {
        self.queues.iter(t)
    }

    /// The first request that waits at hart `t`, if one does.
    pub fn front(&self, t: u64) -> Option<Request<F>>
        requires { t < length self.now.queues }
        ensures { result ≡ slice_get (queue_at self.now.queues t) 0 }
    {
        self.queues.front(t)
    }

    /// The number of requests that wait at hart `t`, fewer than there are harts.
    pub fn len(&self, t: u64) -> u64
        requires { t < length self.now.queues }
        ensures count { result ≡ length (queue_at self.now.queues t) }
        ensures limit { result < length self.now.queues }
    {
        self.queues.len(t)
    }

    /// The number of serves by hart `t` after which the call of hart `c` no longer waits for `t`: the position, counted
    /// from 1, of its request among those that wait at `t`. It is 0 if the call doesn't wait for `t`, if `c` is in no
    /// call, or if one of the harts doesn't exist.
    pub fn need(&self, c: u64, t: u64) -> u64
        ensures position { result ≡ position_of (is_from c) (queue_at self.now.queues t) }
        ensures need { IsNeed self.now c t result }
    {
        self.queues.position(t, c)
    }

    /// The number of fences asked by calls: one for each hart that a call asked.
    pub fn asked(&self) -> u64
        ensures { result ≡ self.now.asked }
    {
        self.asked
    }

    /// The number of these fences that were applied, at all harts together.
    pub fn applied(&self) -> u64
        ensures { result ≡ self.now.applied }
    {
        self.applied
    }

    /// The number of fences that wait, at all harts together.
    pub fn waiting(&self) -> u64
        ensures { result ≡ sum_by length self.now.queues }
    {
        self.queues.total()
    }
}

/// 1 for true, 0 for false.
fn one_if(holds: bool) -> u64
    ensures { result ≡ (if holds then 1 else 0) }
{
    if holds { 1 } else { 0 }
}
