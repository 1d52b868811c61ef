//! Packed lines, without their numbers.
ghost use Rattle.std.specs.Prelude.{◌≡◌, ◌+◌, ◌≤◌, ◌++◌, vec_len, vec_capacity};
ghost use Rattle.script_lines.specs.KeptLines.{number_count};
ghost use Rattle.script_lines.specs.Packing.{DoingFits, FitsKept, doing_made, doing_numbers, actor_made};

use crate::op_shape::{OP_NUMBERS, OpShape};
use crate::said_shape::SaidShape;
use crate::script::Doing;
use board_terms::Actor;

/// A packed line without its numbers, which are stored after those of the lines before it.
#[derive(Clone, Copy, Debug)]
pub struct LineShape {
    /// The line's number.
    pub number: u32,
    /// The line's action.
    pub doing: DoingShape,
    /// The number of the action's numbers.
    pub op_count: u8,
    /// The reply or refusal, whose numbers follow the action's.
    pub said: SaidShape,
}

impl LineShape {
    /// The number of the line's numbers.
    #[inline(always)]
    pub fn number_count(&self) -> usize
        ensures { result ≡ number_count self.now }
    {
        self.op_count as usize + self.said.count()
    }
}

/// A line's action, without its numbers.
#[derive(Clone, Copy, Debug)]
pub enum DoingShape {
    /// A step of an actor.
    Step {
        /// The actor.
        actor: ActorShape,
        /// The operation.
        op: OpShape,
    },
    /// The history is cut.
    Cut,
}

impl DoingShape {
    /// The shape of an action. Its numbers are appended.
    pub fn put(doing: Doing, numbers: &mut Vec<u64>) -> DoingShape
        requires room { vec_len numbers.old + OP_NUMBERS ≤ vec_capacity numbers.old }
        requires actor { DoingFits doing }
        ensures numbers { numbers.new.items ≡ numbers.old.items ++ doing_numbers doing }
        ensures made { doing_made result (doing_numbers doing) ≡ doing }
        ensures len { vec_len numbers.new ≤ vec_len numbers.old + OP_NUMBERS }
        ensures more { vec_len numbers.old ≤ vec_len numbers.new }
        ensures capacity { vec_capacity numbers.new ≡ vec_capacity numbers.old }
    {
        match doing {
            Doing::Step { actor, op } => DoingShape::Step {
                actor: ActorShape::of(actor),
                op: OpShape::put(op, numbers),
            },
            Doing::Cut => DoingShape::Cut,
        }
    }

    /// The action of this shape, with these numbers.
    #[inline(always)]
    pub fn doing(self, numbers: &[u64]) -> Doing
        ensures { result ≡ doing_made self numbers.now }
    {
        match self {
            DoingShape::Step { actor, op } => Doing::Step {
                actor: actor.actor(),
                op: op.op(numbers),
            },
            DoingShape::Cut => Doing::Cut,
        }
    }
}

/// An actor, packed.
#[derive(Clone, Copy, Debug)]
pub enum ActorShape {
    /// The hart of this id.
    Hart(u8),
    /// The clock.
    Clock,
}

impl ActorShape {
    /// The shape of an actor.
    #[inline(always)]
    pub fn of(actor: Actor) -> ActorShape
        requires { FitsKept actor }
        ensures { actor_made result ≡ actor }
    {
        match actor {
            Actor::Hart(hart) => ActorShape::Hart(hart as u8),
            Actor::Clock => ActorShape::Clock,
        }
    }

    /// The actor of this shape.
    #[inline(always)]
    pub fn actor(self) -> Actor
        ensures { result ≡ actor_made self }
    {
        match self {
            ActorShape::Hart(hart) => Actor::Hart(u64::from(hart)),
            ActorShape::Clock => Actor::Clock,
        }
    }
}
