//! The open fence calls of harts.
ghost use Rattle.std.specs.Prelude.{◌≡◌, ◌<◌, ◌≤◌, IfOk, length, map, replicate, None};
ghost use Rattle.rfence.specs.Inside.Marks.{CanAsk, forgotten, forgotten_at, requested};

use crate::awaited::Awaited;
use fence_queue::{Queues, Request};
use hart_mask::HartSet;
use std::alloc::{AllocError, Global};

/// Appends a request to the queue of each target.
pub fn ask_each<F: Copy>(queues: &mut Queues<F>, targets: HartSet, request: Request<F>)
    requires { CanAsk queues.old targets request }
    ensures { queues.new ≡ requested queues.old targets request }
{
    let mut left = targets;
    while let Some(t) = left.pop_first() {
        queues.push(t, request);
    }
}

/// The call of hart `c` no longer waits for hart `t`.
pub fn forget(calls: &mut Vec<Option<Awaited>>, c: u64, t: u64)
    requires in_range { c < length calls.old.items }
    requires id { t < 128 }
    ensures { calls.new.items ≡ forgotten_at calls.old.items c t }
{
    forget_in(&mut calls[c as usize], t);
}

/// A call no longer waits for hart `t`.
fn forget_in(call: &mut Option<Awaited>, t: u64)
    requires { t < 128 }
    ensures { call.new ≡ forgotten t call.old }
{
    if let Some(harts) = call {
        harts.remove(t);
    }
}

/// No call waits for hart `t` any more.
pub fn forget_all(calls: &mut Vec<Option<Awaited>>, t: u64)
    requires { t < 128 }
    ensures { calls.new.items ≡ map (forgotten t) calls.old.items }
{
    for call in calls.iter_mut() {
        forget_in(call, t);
    }
}

/// No open call, for each of so many harts.
///
/// # Errors
///
/// Out of memory.
pub fn no_calls<T: Copy>(alloc: Global, harts: u64) -> Result<Vec<Option<T>>, AllocError>
    requires { harts ≤ 128 }
    ensures { IfOk result (λ calls. calls.items ≡ replicate harts None) }
{
    vec![in alloc; None; harts as usize]
}

/// No hart is in a call any more.
pub fn close_all<T: Copy>(calls: &mut Vec<Option<T>>)
    ensures { calls.new.items ≡ replicate (length calls.old.items) None }
{
    for call in calls.iter_mut() {
        close(call);
    }
}

/// Closes a hart's call. It writes nothing if the hart is in no call.
fn close<T: Copy>(call: &mut Option<T>)
    ensures { call.new ≡ None }
{
    if call.is_some() {
        *call = None;
    }
}
