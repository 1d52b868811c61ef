//! The queues of waiting fences, one ring buffer for each hart.

ghost use Rattle.std.specs.Prelude.{◌≡◌, ◌<◌, ◌≤◌, ◌==◌, false, length, drop, IfOk, replicate, sum_by, [], slice_get};
ghost use Rattle.circular_buffer.specs.Buffer.{buffer};
ghost use Rattle.fence_queue.specs.Positions.{position_of};
ghost use Rattle.fence_queue.specs.Queues.{IsQueue, drained, has_from, is_from, popped, pushed, queue_at};

use crate::request::Request;
use crate::waiting::Waiting;
use circular_buffer::HeapCircularBuffer;
use std::alloc::{AllocError, Global};
use std::marker::Model;

/// For each hart of a board, by its id, the requests that wait there, in the order in which they arrived (profile).
#[derive(Drop)]
pub struct Queues<F> {
    rings: Vec<HeapCircularBuffer<Request<F>>>,
    total: u64,
}

impl<F> Model for Queues<F> {
    ghost use Rattle.std.specs.Prelude.{List};
    ghost use Rattle.fence_queue.specs.declared.request.Request.{Request};

    ghost Value = { List (List (Request F)) };

    ghost use Rattle.fence_queue.specs.Inside.Rings.{AreKept, queues_of};

    ghost view = { λ q. queues_of q.rings.items };

    ghost invariant = { λ q. AreKept q.rings.items q.total };
}

impl<F: Copy> Queues<F> {
    /// Empty queues. Only this call and `try_copy` allocate.
    ///
    /// # Errors
    ///
    /// Out of memory.
    pub fn new(alloc: Global, harts: u64) -> Result<Queues<F>, AllocError>
        requires { harts ≤ 128 }
        ensures { IfOk result (λ queues. queues ≡ replicate harts []) }
    {
        let room = harts.saturating_sub(1) as usize;
        let mut rings = Vec::with_capacity(alloc, harts as usize)?;
        for _ in 0..harts {
            rings.push(HeapCircularBuffer::with_capacity(alloc, room)?)?;
        }
        Ok(Queues { rings, total: 0 })
    }

    /// A copy.
    ///
    /// # Errors
    ///
    /// Out of memory.
    pub fn try_copy(&self, alloc: Global) -> Result<Queues<F>, AllocError>
        ensures { IfOk result (λ copy. copy ≡ self.now) }
    {
        let mut rings = Vec::with_capacity(alloc, self.rings.len())?;
        for t in 0..self.rings.len() {
            rings.push(copy_of(alloc, &self.rings[t])?)?;
        }
        Ok(Queues {
            rings,
            total: self.total,
        })
    }

    /// Becomes a copy of the queues of as many harts. It allocates nothing.
    pub fn copy_from(&mut self, from: &Queues<F>)
        requires { length self.old ≡ length from.now }
        ensures { self.new ≡ from.now }
    {
        for t in 0..self.rings.len() {
            copy_ring(&mut self.rings[t], &from.rings[t]);
        }
        self.total = from.total;
    }

    /// Appends a request to hart `t`'s queue. Its caller is another hart that has no request there, so there is room
    /// for it.
    pub fn push(&mut self, t: u64, request: Request<F>)
        requires in_range { t < length self.old }
        requires caller { request.from < length self.old }
        requires other { (request.from == t) ≡ false }
        requires once { has_from request.from (queue_at self.old t) ≡ false }
        ensures { self.new ≡ pushed self.old t request }
    {
        self.rings[t as usize].push_back(request);
        self.total += 1;
    }

    /// The first request that waits at hart `t`, if one does.
    pub fn front(&self, t: u64) -> Option<Request<F>>
        requires { t < length self.now }
        ensures { result ≡ slice_get (queue_at self.now t) 0 }
    {
        self.rings[t as usize].front().copied()
    }

    /// Removes the first request from hart `t`'s queue and returns it, if one waits.
    pub fn pop(&mut self, t: u64) -> Option<Request<F>>
        requires { t < length self.old }
        ensures answer { result ≡ slice_get (queue_at self.old t) 0 }
        ensures after { self.new ≡ popped self.old t }
        ensures queue { IsQueue (length self.old) t (queue_at self.old t) }
    {
        let request = pop_first(&mut self.rings[t as usize])?;
        self.total -= 1;
        Some(request)
    }

    /// Removes all requests from hart `t`'s queue.
    pub fn drain(&mut self, t: u64)
        requires { t < length self.old }
        ensures { self.new ≡ drained self.old t }
    {
        self.total -= self.len(t);
        self.rings[t as usize].clear();
    }

    /// Removes all requests from all queues.
    pub fn clear(&mut self)
        ensures { self.new ≡ replicate (length self.old) [] }
    {
        for ring in self.rings.iter_mut() {
            ring.clear();
        }
        self.total = 0;
    }

    /// The requests that wait at hart `t`, in their order. They come from distinct other harts.
    pub fn iter(&self, t: u64) -> Waiting<'_, F>
        requires { t < length self.now }
        ensures requests { result ≡ queue_at self.now t }
        ensures queue { IsQueue (length self.now) t (queue_at self.now t) }
    {
        Waiting::of(&self.rings[t as usize])
    }

    /// The number of requests that wait at hart `t`, fewer than there are harts.
    pub fn len(&self, t: u64) -> u64
        requires { t < length self.now }
        ensures count { result ≡ length (queue_at self.now t) }
        ensures limit { result < length self.now }
    {
        self.rings[t as usize].len() as u64
    }

    /// The position, counted from 1, of hart `from`'s request in hart `t`'s queue. It is 0 if the queue has none, or if
    /// there is no hart `t`. It scans only this queue.
    pub fn position(&self, t: u64, from: u64) -> u64
        ensures { result ≡ position_of (is_from from) (queue_at self.now t) }
    {
        if t >= self.rings.len() as u64 {
            return 0;
        }
        let ring = &self.rings[t as usize];
        match ring.iter().position(|request| request.from == from) {
            Some(before) => before as u64 + 1,
            None => 0,
        }
    }

    /// The number of requests that wait at all harts together.
    pub fn total(&self) -> u64
        ensures { result ≡ sum_by length self.now }
    {
        self.total
    }
}

/// A copy of a ring.
///
/// # Errors
///
/// Out of memory.
fn copy_of<T: Copy + Drop>(
    alloc: Global,
    ring: &HeapCircularBuffer<T>,
) -> Result<HeapCircularBuffer<T>, AllocError>
    ensures { IfOk result (λ copy. copy ≡ ring.now) }
{
    let mut copy = HeapCircularBuffer::with_capacity(alloc, ring.capacity())?;
    let (front, back) = ring.as_slices();
    copy.fill_from_slice(front);
    copy.fill_from_slice(back);
    Ok(copy)
}

/// Makes a ring a copy of another one with the same capacity. It copies only items.
fn copy_ring<T: Copy + Drop>(ring: &mut HeapCircularBuffer<T>, from: &HeapCircularBuffer<T>)
    requires { ring.old.capacity ≡ from.now.capacity }
    ensures { ring.new ≡ from.now }
{
    let count = from.len();
    if count == 0 && ring.is_empty() {
        return;
    }
    ring.clear();
    let (front, back) = from.as_slices();
    ring.fill_from_slice(front);
    ring.fill_from_slice(back);
}

/// Removes the first item of a ring and returns it. A lone item is removed from the back, so the next item takes its
/// place: a ring with few items touches little memory.
fn pop_first<T>(ring: &mut HeapCircularBuffer<T>) -> Option<T>
    ensures value { result ≡ slice_get ring.old.items 0 }
    ensures items { ring.new ≡ buffer (drop 1 ring.old.items) ring.old.capacity }
{
    if ring.len() == 1 {
        ring.pop_back()
    } else {
        ring.pop_front()
    }
}
