//! The requests that wait at a board's harts.
ghost use Rattle.std.specs.Prelude.{◌≡◌, ◌<◌, ◌≤◌, ◌==◌, false, length, IfOk, replicate, sum_by, [], slice_get};
ghost use Rattle.std.specs.Iterator.{YieldsFirst, item_count};
ghost use Rattle.fence_queue.specs.Positions.{position_of};
ghost use Rattle.fence_queue.specs.Queues.{IsQueue, drained, has_from, is_from, popped, queue_at};
ghost use Rattle.rfence.specs.Inside.Marks.{CanAsk, requested};
ghost use Rattle.rfence.specs.Inside.ByCaller.{IsOut, request_by};

use crate::calls::ask_each;
use fence_queue::{Queues, Request};
use hart_mask::HartSet;
use std::alloc::{AllocError, Global};
use std::marker::Model;

/// The fences that wait at the harts of a board, by hart. A hart asks one fence at a time. So its fence is stored once,
/// and the queues hold only the ids of callers.
#[derive(Drop)]
pub struct Pending<F> {
    callers: Queues<()>,
    fences: Vec<F>,
    idle: F,
}

impl<F> Model for Pending<F> {
    ghost use Rattle.std.specs.Prelude.{◌≡◌, List, length};
    ghost use Rattle.fence_queue.specs.declared.request.Request.{Request};
    ghost use Rattle.rfence.specs.Inside.ByCaller.{queues_by};

    ghost Value = { List (List (Request F)) };

    ghost view = { λ p. queues_by p.fences.items p.idle p.callers };

    ghost invariant = { λ p. length p.fences.items ≡ length p.callers };
}

impl<F: Copy> Pending<F> {
    /// No fence waits at any hart. `idle` fills the places of harts that asked none. Only this call and `try_copy`
    /// allocate.
    ///
    /// # Errors
    ///
    /// Out of memory.
    pub fn new(alloc: Global, harts: u64, idle: F) -> Result<Pending<F>, AllocError>
        requires { harts ≤ 128 }
        ensures { IfOk result (λ pending. pending ≡ replicate harts []) }
    {
        let callers = Queues::new(alloc, harts)?;
        let fences = vec![in alloc; idle; harts as usize]?;
        Ok(Pending {
            callers,
            fences,
            idle,
        })
    }

    /// A copy.
    ///
    /// # Errors
    ///
    /// Out of memory.
    pub fn try_copy(&self, alloc: Global) -> Result<Pending<F>, AllocError>
        ensures { IfOk result (λ copy. copy ≡ self.now) }
    {
        let callers = self.callers.try_copy(alloc)?;
        let mut fences = Vec::with_capacity(alloc, self.fences.len())?;
        fences.extend_from_slice(&self.fences)?;
        Ok(Pending {
            callers,
            fences,
            idle: self.idle,
        })
    }

    /// Becomes a copy of what waits at as many harts. It allocates nothing.
    pub fn copy_from(&mut self, from: &Pending<F>)
        requires { length self.old ≡ length from.now }
        ensures { self.new ≡ from.now }
    {
        self.callers.copy_from(&from.callers);
        self.fences.copy_from_slice(&from.fences);
        self.idle = from.idle;
    }

    /// Appends a request to the queue of each target. No other request of its caller waits anywhere.
    pub fn ask(&mut self, targets: HartSet, request: Request<F>)
        requires caller { request.from < length self.old }
        requires out { IsOut request.from self.old }
        requires can { CanAsk self.old targets request }
        ensures { self.new ≡ requested self.old targets request }
    {
        let Request { from, flush } = request;
        self.fences[from as usize] = flush;
        ask_each(&mut self.callers, targets, Request { from, flush: () });
    }

    /// Removes the first request from hart `t`'s queue and returns it, if one waits.
    pub fn pop(&mut self, t: u64) -> Option<Request<F>>
        requires { t < length self.old }
        ensures answer { result ≡ slice_get (queue_at self.old t) 0 }
        ensures after { self.new ≡ popped self.old t }
    {
        let caller = self.callers.pop(t)?;
        let flush = self.fences[caller.from as usize];
        Some(Request {
            from: caller.from,
            flush,
        })
    }

    /// Removes all requests from hart `t`'s queue.
    pub fn drain(&mut self, t: u64)
        requires { t < length self.old }
        ensures { self.new ≡ drained self.old t }
    {
        self.callers.drain(t);
    }

    /// Removes all requests from all queues.
    pub fn clear(&mut self)
        ensures { self.new ≡ replicate (length self.old) [] }
    {
        self.callers.clear();
    }

    /// The first request that waits at hart `t`, if one does.
    pub fn front(&self, t: u64) -> Option<Request<F>>
        requires { t < length self.now }
        ensures { result ≡ slice_get (queue_at self.now t) 0 }
    {
        let caller = self.callers.front(t)?;
        Some(request_of(&self.fences, self.idle, caller))
    }

    /// The requests that wait at hart `t`, in their order. They come from distinct other harts.
    pub fn iter(&self, t: u64) -> Waiting<'_, F>
        requires { t < length self.now }
        ensures requests { result ≡ queue_at self.now t }
        ensures queue { IsQueue (length self.now) t (queue_at self.now t) }
    {
        Waiting {
            callers: self.callers.iter(t),
            fences: &self.fences,
            idle: self.idle,
        }
    }

    /// The number of requests that wait at hart `t`, fewer than there are harts.
    pub fn len(&self, t: u64) -> u64
        requires { t < length self.now }
        ensures count { result ≡ length (queue_at self.now t) }
        ensures limit { result < length self.now }
    {
        self.callers.len(t)
    }

    /// The position, counted from 1, of hart `from`'s request in hart `t`'s queue. It is 0 if the queue has none, or if
    /// there is no hart `t`.
    pub fn position(&self, t: u64, from: u64) -> u64
        ensures { result ≡ position_of (is_from from) (queue_at self.now t) }
    {
        self.callers.position(t, from)
    }

    /// The number of requests that wait at all harts together.
    pub fn total(&self) -> u64
        ensures { result ≡ sum_by length self.now }
    {
        self.callers.total()
    }
}

/// An iterator over the requests that wait at a hart.
#[derive(Drop)]
pub struct Waiting<'a, F> {
    callers: fence_queue::Waiting<'a, ()>,
    fences: &'a [F],
    idle: F,
}

impl<'a, F> Model for Waiting<'a, F> {
    ghost use Rattle.std.specs.Prelude.{List};
    ghost use Rattle.fence_queue.specs.declared.request.Request.{Request};
    ghost use Rattle.rfence.specs.Inside.ByCaller.{queue_by};

    ghost Value = { List (Request F) };

    ghost view = { λ w. queue_by w.fences.now w.idle w.callers };
}

impl<'a, F: Copy> Iterator for Waiting<'a, F> {
    type Item = Request<F>;

    ghost next_gives = { YieldsFirst (λ requests. requests) };

    ghost remaining = { item_count (λ requests. requests) };

    fn next(&mut self) -> Option<Request<F>> {
        let caller = self.callers.next()?;
        Some(request_of(self.fences, self.idle, caller))
    }
}

/// The request of a caller.
#[inline(always)]
fn request_of<F: Copy>(fences: &[F], idle: F, caller: Request<()>) -> Request<F>
    ensures { result ≡ request_by fences.now idle caller }
{
    Request {
        from: caller.from,
        flush: match fences.get(caller.from as usize) {
            Some(flush) => *flush,
            None => idle,
        },
    }
}
