//! An iterator over the requests that wait at a hart.

ghost use Rattle.std.specs.Prelude.{◌≡◌};
ghost use Rattle.std.specs.Iterator.{YieldsFirst, item_count};

use crate::request::Request;
use circular_buffer::{HeapCircularBuffer, Iter};
use std::marker::Model;

/// The requests of a queue that are still to come, in their order.
#[derive(Drop)]
pub struct Waiting<'a, F> {
    rest: Iter<'a, Request<F>>,
}

impl<'a, F> Model for Waiting<'a, F> {
    ghost use Rattle.std.specs.Prelude.{List};
    ghost use Rattle.fence_queue.specs.declared.request.Request.{Request};

    ghost Value = { List (Request F) };

    ghost view = { λ w. w.rest };
}

impl<'a, F: Copy> Waiting<'a, F> {
    /// The requests of a ring.
    pub(crate) fn of(ring: &'a HeapCircularBuffer<Request<F>>) -> Waiting<'a, F>
        ensures { result ≡ ring.now.items }
    {
        Waiting { rest: ring.iter() }
    }
}

impl<'a, F: Copy> Iterator for Waiting<'a, F> {
    type Item = Request<F>;

    ghost next_gives = { YieldsFirst (λ requests. requests) };

    ghost remaining = { item_count (λ requests. requests) };

    fn next(&mut self) -> Option<Request<F>> {
        self.rest.next().copied()
    }
}
