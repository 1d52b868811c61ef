//! The time, each hart's deadline, and the harts whose deadlines are due.

ghost use Rattle.std.specs.Prelude.{◌≡◌, ◌<◌, ◌≤◌, ◌-◌, ◌^◌, false, length, nat_le, IfOk, if◌then◌else◌, Some, None, is_ok, is_some, replicate, unwrap_or, vec_capacity};
ghost use Rattle.std.specs.List.{All};
ghost use Rattle.interrupts.specs.declared.ahead.Member.{Member};
ghost use Rattle.interrupts.specs.Inside.Ahead.{IsLater, without_hart};
ghost use Rattle.interrupts.specs.Inside.Listed.{due_after, is_ahead, left_after};
ghost use Rattle.interrupts.specs.Timing.{deadline_of, is_timer_pending, last_time, opening_timing, ticked, with_deadline, without_deadlines};

use crate::ahead::Ahead;
use hart_mask::HartSet;
use std::alloc::{AllocError, Global};
use std::marker::Model;
use thiserror::Error;

/// The last time, in ticks (profile). A deadline of `u64::MAX` lies after it.
const LAST_TIME: u64 = u64::MAX - 1;

/// Why a tick is refused: the time would exceed 2^64-2 (profile).
#[derive(Clone, Copy, Debug, PartialEq, Eq, Error)]
#[error("the time would go past its end")]
pub struct TimeFull;

/// The time in ticks, and the deadlines of a board's harts, by their ids (SBI 6). A second list keeps the deadlines
/// that aren't due yet in order, and a set keeps the harts whose deadlines are due. So a tick visits only the deadlines
/// that come due, and the next.
#[derive(Debug, Drop)]
pub struct Timers {
    time: u64,
    deadlines: Vec<Option<u64>>,
    ahead: Ahead,
    due: HartSet,
}

impl Model for Timers {
    ghost use Rattle.std.specs.Prelude.{◌≡◌, ◌≤◌, vec_capacity, vec_len};
    ghost use Rattle.interrupts.specs.Timing.{Timing, last_time};
    ghost use Rattle.interrupts.specs.Inside.Ahead.{IsLater};
    ghost use Rattle.interrupts.specs.Inside.Listed.{IsListed};

    ghost Value = { Timing };

    ghost view = { λ t. record { time = t.time; deadlines = t.deadlines.items } };

    ghost invariant = { λ t. (t.time ≤ last_time)
        × IsListed t.time t.deadlines.items t.ahead t.due
        × IsLater t.time t.ahead
        × (vec_capacity t.deadlines ≡ vec_len t.deadlines) };
}

impl Timers {
    /// The time is 0, and no hart has a deadline.
    ///
    /// # Errors
    ///
    /// Out of memory.
    pub fn new(alloc: Global, harts: u64) -> Result<Timers, AllocError>
        requires { harts ≤ 128 }
        ensures { IfOk result (λ timers. timers ≡ opening_timing harts) }
    {
        let deadlines = no_deadlines(alloc, harts)?;
        Ok(Timers {
            time: 0,
            deadlines,
            ahead: Ahead::new(),
            due: HartSet::new(),
        })
    }

    /// A copy.
    ///
    /// # Errors
    ///
    /// Out of memory.
    pub fn try_copy(&self, alloc: Global) -> Result<Timers, AllocError>
        ensures { IfOk result (λ copy. copy ≡ self.now) }
    {
        let mut deadlines = Vec::with_capacity(alloc, self.deadlines.len())?;
        for deadline in &self.deadlines {
            deadlines.push_reserved(*deadline);
        }
        Ok(Timers {
            time: self.time,
            deadlines,
            ahead: self.ahead.copy(),
            due: self.due,
        })
    }

    /// Becomes a copy of the time and the deadlines of as many harts. It allocates nothing.
    pub fn copy_from(&mut self, from: &Timers)
        requires { length self.old.deadlines ≡ length from.now.deadlines }
        ensures { self.new ≡ from.now }
    {
        self.time = from.time;
        self.deadlines.copy_from_slice(&from.deadlines);
        self.ahead.copy_from(&from.ahead);
        self.due = from.due;
    }

    /// Sets the deadline of hart `h`, in ticks, whatever it was (SBI 6.1). Afterwards its timer interrupt is pending if
    /// and only if the new deadline is due.
    pub fn set(&mut self, h: u64, deadline: u64)
        requires { h < length self.old.deadlines }
        ensures after { self.new ≡ with_deadline self.old h (Some deadline) }
        ensures pending { is_timer_pending self.new h ≡ nat_le deadline self.old.time }
    {
        self.forget(h);
        self.deadlines[h as usize] = Some(deadline);
        if deadline <= self.time {
            self.due.insert(h);
        } else {
            self.ahead.insert(deadline, h);
        }
    }

    /// Removes the deadline of hart `h` (profile).
    pub fn forget(&mut self, h: u64)
        requires { h < length self.old.deadlines }
        ensures { self.new ≡ with_deadline self.old h None }
    {
        let is_ahead = self.is_ahead(h);
        take_out_where(&mut self.ahead, h, is_ahead);
        self.due.remove(h);
        self.deadlines[h as usize] = None;
    }

    /// The deadline of hart `h`, in ticks, if it has one.
    pub fn deadline(&self, h: u64) -> Option<u64>
        requires { h < length self.now.deadlines }
        ensures { result ≡ deadline_of self.now h }
    {
        self.deadlines[h as usize]
    }

    /// STIP of hart `h`: whether its deadline is due (SBI 6.1). A deadline of 2^64-1 never is.
    pub fn pending(&self, h: u64) -> bool
        requires { h < length self.now.deadlines }
        ensures answer { result ≡ is_timer_pending self.now h }
        ensures infinitely_far { deadline_of self.now h ≡ Some (2 ^ 64 - 1) → result ≡ false }
    {
        self.due.contains(h)
    }

    /// Whether hart `h` has a deadline that isn't due yet.
    fn is_ahead(&self, h: u64) -> bool
        requires { h < length self.now.deadlines }
        ensures { result ≡ is_ahead self.now.time (deadline_of self.now h) }
    {
        self.deadlines[h as usize].is_some_and(|deadline| deadline > self.time)
    }

    /// The time advances by `n` ticks.
    ///
    /// # Errors
    ///
    /// It would exceed 2^64-2 (profile). Nothing changes.
    pub fn tick(&mut self, n: u64) -> Result<(), TimeFull>
        ensures answer { is_ok result ≡ is_some (ticked self.old n) }
        ensures after { self.new ≡ unwrap_or (ticked self.old n) self.old }
    {
        if n > LAST_TIME - self.time {
            return Err(TimeFull);
        }
        self.time += n;
        move_due(&mut self.ahead, &mut self.due, self.time);
        Ok(())
    }

    /// The time, in ticks since the opening.
    pub fn time(&self) -> u64
        ensures time { result ≡ self.now.time }
        ensures within { result ≤ last_time }
    {
        self.time
    }

    /// The number of harts.
    pub fn len(&self) -> u64
        ensures { result ≡ length self.now.deadlines }
    {
        self.deadlines.len() as u64
    }

    /// Removes all deadlines, as at a reset of the board. The time stays (profile).
    pub fn reset(&mut self)
        ensures { self.new ≡ without_deadlines self.old }
    {
        self.deadlines.fill(None);
        self.ahead.clear();
        self.due = HartSet::new();
    }
}

/// No deadline for each of so many harts, in exactly the room that they need.
///
/// # Errors
///
/// Out of memory.
fn no_deadlines(alloc: Global, harts: u64) -> Result<Vec<Option<u64>>, AllocError>
    ensures items { IfOk result (λ deadlines. deadlines.items ≡ replicate harts None) }
    ensures room { IfOk result (λ deadlines. vec_capacity deadlines ≡ harts) }
{
    let mut deadlines = Vec::with_capacity(alloc, harts as usize)?;
    for _ in 0..harts {
        deadlines.push_reserved(None);
    }
    Ok(deadlines)
}

/// Removes the deadline of hart `h` if it is in the list, which `is_ahead` says.
fn take_out_where(ahead: &mut Ahead, h: u64, is_ahead: bool)
    ensures { ahead.new ≡ (if is_ahead then without_hart h ahead.old else ahead.old) }
{
    if is_ahead {
        ahead.take_out(h);
    }
}

/// Moves the harts of the deadlines that are due at this time from the list to the set.
fn move_due(ahead: &mut Ahead, due: &mut HartSet, time: u64)
    requires { All (λ (member : Member). member.hart < 128) ahead.old }
    ensures left { ahead.new ≡ left_after time ahead.old }
    ensures moved { due.new ≡ due_after time due.old ahead.old }
    ensures later { IsLater time ahead.new }
{
    while let Some(hart) = ahead.pop_due(time) {
        due.insert(hart);
    }
}
