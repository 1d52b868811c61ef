//! Replies and refusals, as a trace says them.
ghost use Rattle.std.specs.Prelude.{◌↔◌, ◌≡◌, true};
ghost use Rattle.script_lines.specs.Agreeing.{said_of};

use board_terms::{Refusal, Reply};

/// The answer of a step as a trace says it: a reply or a refusal, with its numbers as written (profile).
#[derive(Clone, Copy, Debug, PartialEq, Eq)]
pub enum Said {
    /// `ret`: a call returned.
    Ret {
        /// The error, in a0.
        error: i64,
        /// The value, in a1.
        value: u64,
    },
    /// `waiting`: the hart waits inside a call.
    Waiting,
    /// `gone`: the call doesn't return.
    Gone,
    /// `entry`: the hart begins at an address.
    Entry {
        /// The address.
        addr: u64,
        /// The hart's id, in a0.
        hart: u64,
        /// The opaque value, in a1.
        opaque: u64,
    },
    /// `value`: the value read.
    Value(u64),
    /// `fault`: the exception code of a fault.
    Fault(u64),
    /// `served`: a waiting fence was applied.
    Served,
    /// `moved`: the number of the hart's new state.
    Moved(u64),
    /// `done`: the step is done, and has no value.
    Done,
    /// `refused`: the number of a refusal.
    Refused(u64),
}

impl Said {
    /// An answer as a trace says it (profile).
    pub fn of(answer: &Result<Reply, Refusal>) -> Said
        ensures { result ≡ said_of answer.now }
    {
        match answer {
            Ok(Reply::Ret(answer)) => Said::Ret {
                error: answer.error,
                value: answer.value,
            },
            Ok(Reply::Waiting) => Said::Waiting,
            Ok(Reply::Gone) => Said::Gone,
            Ok(Reply::Entry { addr, hart, opaque }) => Said::Entry {
                addr: *addr,
                hart: *hart,
                opaque: *opaque,
            },
            Ok(Reply::Value(value)) => Said::Value(*value),
            Ok(Reply::Fault(cause)) => Said::Fault(cause.number()),
            Ok(Reply::Served) => Said::Served,
            Ok(Reply::Moved(state)) => Said::Moved(state.number()),
            Ok(Reply::Done) => Said::Done,
            Err(refusal) => Said::Refused(refusal.number()),
        }
    }

    /// Whether a trace says this answer so (profile).
    pub fn agrees(&self, answer: &Result<Reply, Refusal>) -> bool
        ensures { (result ≡ true) ↔ (self.now ≡ said_of answer.now) }
    {
        *self == Said::of(answer)
    }
}
