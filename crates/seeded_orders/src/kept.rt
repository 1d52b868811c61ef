//! The choices of a record, which identify it.
ghost use Rattle.std.specs.Prelude.{◌≡◌, List, IfOk, map, reverse};
ghost use Rattle.board_core.specs.Opening.{Opening};
ghost use Rattle.board_core.specs.History.{Event};
ghost use Rattle.board_terms.specs.Limits.{IsGood};
ghost use Rattle.board_core.specs.Replies.{IsLegal};
ghost use Rattle.seeded_orders.specs.Choices.{choice_of, own_number};
ghost use Rattle.guest_programs.specs.Steps.{AreOwn, Task};

use board_core::{Actor, Event, Op};
use std::alloc::{AllocError, Global};

/// The choices of a record: for each step, oldest first, its actor and its kind.
///
/// # Errors
///
/// Out of memory.
pub fn choices(alloc: Global, events: &[Event]) -> Result<Vec<u16>, AllocError>
    ensures { IfOk result (λ v. v.items ≡ map choice_of events.now) }
{
    let mut found = Vec::with_capacity(alloc, events.len())?;
    for event in events {
        found.push(choice_of(event))?;
    }
    Ok(found)
}

/// The number of a step's choice, from its actor and its kind. Hart ids are below 128.
fn choice_of(event: &Event) -> u16
    ensures { result ≡ choice_of event.now }
{
    match event.actor() {
        Actor::Hart(h) => 4 * (h % 128) as u16 + own_number(event.op()),
        Actor::Clock => 512,
    }
}

/// The number of an operation's kind, of a hart's four.
fn own_number(op: Op) -> u16
    ensures { result ≡ own_number op }
{
    match op {
        Op::Serve => 1,
        Op::Poll => 2,
        Op::Advance => 3,
        _ => 0,
    }
}

/// Two records of the same program on the same board are equal if their choices are. A law: there is nothing to run.
pub fn choices_tell_records()
    ensures { (o : Opening) (p : Task) (one other : List Event) → IsGood o.config → IsLegal o one → IsLegal o other
        → AreOwn p one → AreOwn p other
        → map choice_of (reverse one) ≡ map choice_of (reverse other) → one ≡ other }
{}
