//! Appends events to a history. The most frequent operations have branches of their own, which write only their own
//! fields.
ghost use Rattle.std.specs.Prelude.{◌≡◌, ◌<◌, ◌++◌, [], ◌∷◌, None, vec_capacity, vec_len};
ghost use Rattle.board_terms.specs.declared.op.Actor.TheVariants.{Hart};
ghost use Rattle.board_rules.specs.History.{access_of, access_op, by_hart, using};
ghost use Rattle.board_rules.specs.Room.{IsShort};

use crate::event::Event;
use board_terms::{Actor, Op, Reply};
use hart_access::Access;
use tlb_model::Entry;

/// Appends an access of hart `h` to the history, in which there is room.
#[inline(always)]
pub fn record_access(
    events: &mut Vec<Event>,
    h: u64,
    va: u64,
    what: Access,
    reply: Reply,
    used: Option<Entry>,
)
    requires room { vec_len events.old < vec_capacity events.old }
    requires short { IsShort (Hart h) (access_op va what) reply }
    ensures items { events.new.items ≡ events.old.items ++ using h (access_op va what) reply used ∷ [] }
    ensures capacity { vec_capacity events.new ≡ vec_capacity events.old }
{
    let actor = Actor::Hart(h);
    match what {
        Access::Load => events.push_reserved(Event::new(actor, Op::Load(va), reply, used)),
        Access::Store(value) => {
            events.push_reserved(Event::new(actor, Op::Store(va, value), reply, used))
        }
        Access::Fetch => events.push_reserved(Event::new(actor, Op::Fetch(va), reply, used)),
        Access::Amo(at, amo) => {
            events.push_reserved(Event::new(actor, Op::Amo(at, amo), reply, used))
        }
    }
}

/// Appends an operation of hart `h` that is no access to the history, in which there is room.
#[inline(always)]
pub fn record(events: &mut Vec<Event>, h: u64, op: Op, reply: Reply)
    requires room { vec_len events.old < vec_capacity events.old }
    requires other { access_of op ≡ None }
    requires short { IsShort (Hart h) op reply }
    ensures items { events.new.items ≡ events.old.items ++ by_hart h op reply ∷ [] }
    ensures capacity { vec_capacity events.new ≡ vec_capacity events.old }
{
    let actor = Actor::Hart(h);
    match op {
        Op::Ecall(regs) => events.push_reserved(Event::new(actor, Op::Ecall(regs), reply, None)),
        Op::ReadSip => events.push_reserved(Event::new(actor, Op::ReadSip, reply, None)),
        Op::ClearSsip => events.push_reserved(Event::new(actor, Op::ClearSsip, reply, None)),
        Op::Poll => events.push_reserved(Event::new(actor, Op::Poll, reply, None)),
        Op::Serve => events.push_reserved(Event::new(actor, Op::Serve, reply, None)),
        Op::Advance => events.push_reserved(Event::new(actor, Op::Advance, reply, None)),
        _ => events.push_reserved(Event::new(actor, op, reply, None)),
    }
}
