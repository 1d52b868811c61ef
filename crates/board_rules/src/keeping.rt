//! How an event packs its actor, its reply and its operation into less room than the three take side by side.

ghost use Rattle.std.specs.Prelude.{◌≡◌};
ghost use Rattle.board_rules.specs.Inside.Keeping.{actor_of, first_in, head_in, op_in, opaque_in, opaque_of, reply_of, said_of, used_in, what_of};
ghost use Rattle.board_rules.specs.Room.{FitsBeside, IsByte, IsByteError, by_of, first_of};

use amo::AmoName;
use board_terms::{Actor, Op, Reply};
use hsm::HartState;
use sbi_abi::{Regs, Sbiret};
use sv39::Cause;
use tlb_model::Entry;

/// The number that stands for the clock; a hart's number is below it.
const CLOCK: u8 = 255;

/// A reply without its 64-bit numbers. An error code fits into one byte.
#[derive(Clone, Copy, Debug, PartialEq, Eq)]
pub enum Said {
    Ret(i8),
    Waiting,
    Gone,
    Entry,
    Value,
    Fault(Cause),
    Served,
    Moved(HartState),
    Done,
}

/// The actor of a step, in one byte, and the reply without its 64-bit numbers.
#[derive(Clone, Copy, Debug, PartialEq, Eq)]
pub struct Head {
    pub by: u8,
    pub said: Said,
}

/// The operation of a step, and the first number of its reply. An access's entry, a call's eight registers and the
/// opaque value of an entered advance never occur together, so they share room. The head, a call's value and an AMO's
/// name fill the padding beside the tag.
#[derive(Clone, Copy, Debug, PartialEq, Eq)]
pub enum What {
    Ecall(Head, u32, Regs),
    Load(Head, u64, u64, Option<Entry>),
    Store(Head, u64, u64, Option<Entry>),
    Fetch(Head, u64, u64, Option<Entry>),
    Amo(Head, AmoName, u64, u64, u64, u64, Option<Entry>),
    WriteSatp(Head, u64),
    WriteSie(Head, u64),
    WriteSstatusSie(Head, bool),
    ReadSip(Head, u64),
    ClearSsip(Head),
    Wfi(Head),
    Sfence(Head, Option<u64>, Option<u64>),
    FenceI(Head),
    Poll(Head),
    Serve(Head),
    Advance(Head, u64, u64),
    Tick(Head, u64),
}

/// An actor as a byte; a hart's number is below 255.
#[inline(always)]
pub fn by_of(actor: Actor) -> u8
    requires { IsByte actor }
    ensures { result ≡ by_of actor }
{
    match actor {
        Actor::Hart(h) => h as u8,
        Actor::Clock => CLOCK,
    }
}

impl Said {
    /// A reply without its numbers, then its first number, then the opaque value of an entry; a missing number is 0.
    #[inline(always)]
    pub fn of(reply: Reply) -> (Said, u64, u64)
        requires { IsByteError reply }
        ensures said { result.0 ≡ said_of reply }
        ensures first { result.1 ≡ first_of reply }
        ensures opaque { result.2 ≡ opaque_of reply }
    {
        match reply {
            Reply::Ret(ret) => (Said::Ret(ret.error as i8), ret.value, 0),
            Reply::Waiting => (Said::Waiting, 0, 0),
            Reply::Gone => (Said::Gone, 0, 0),
            Reply::Entry { addr, opaque, .. } => (Said::Entry, addr, opaque),
            Reply::Value(value) => (Said::Value, value, 0),
            Reply::Fault(cause) => (Said::Fault(cause), 0, 0),
            Reply::Served => (Said::Served, 0, 0),
            Reply::Moved(state) => (Said::Moved(state), 0, 0),
            Reply::Done => (Said::Done, 0, 0),
        }
    }
}

impl Head {
    /// The actor.
    pub fn actor(self) -> Actor
        ensures { result ≡ actor_of self.by }
    {
        if self.by < CLOCK {
            Actor::Hart(u64::from(self.by))
        } else {
            Actor::Clock
        }
    }

    /// The reply, with these numbers.
    pub fn reply(self, first: u64, opaque: u64) -> Reply
        ensures { result ≡ reply_of self.said self.by first opaque }
    {
        match self.said {
            Said::Ret(error) => Reply::Ret(Sbiret {
                error: i64::from(error),
                value: first,
            }),
            Said::Waiting => Reply::Waiting,
            Said::Gone => Reply::Gone,
            Said::Entry => Reply::Entry {
                addr: first,
                hart: u64::from(self.by),
                opaque,
            },
            Said::Value => Reply::Value(first),
            Said::Fault(cause) => Reply::Fault(cause),
            Said::Served => Reply::Served,
            Said::Moved(state) => Reply::Moved(state),
            Said::Done => Reply::Done,
        }
    }
}

impl What {
    /// An operation with its reply's first number, if it has one; an access also with its entry, and an advance with
    /// the opaque value of an entry.
    #[inline(always)]
    pub fn of(head: Head, op: Op, used: Option<Entry>, first: u64, opaque: u64) -> What
        requires { FitsBeside op first }
        ensures { result ≡ what_of head op used first opaque }
    {
        match op {
            Op::Ecall(regs) => What::Ecall(head, first as u32, regs),
            Op::Load(va) => What::Load(head, va, first, used),
            Op::Store(va, value) => What::Store(head, va, value, used),
            Op::Fetch(va) => What::Fetch(head, va, first, used),
            Op::Amo(at, amo) => What::Amo(
                head,
                AmoName::of(amo),
                at,
                amo.first(),
                amo.second(),
                first,
                used,
            ),
            Op::WriteSatp(value) => What::WriteSatp(head, value),
            Op::WriteSie(value) => What::WriteSie(head, value),
            Op::WriteSstatusSie(value) => What::WriteSstatusSie(head, value),
            Op::ReadSip => What::ReadSip(head, first),
            Op::ClearSsip => What::ClearSsip(head),
            Op::Wfi => What::Wfi(head),
            Op::Sfence(va, asid) => What::Sfence(head, va, asid),
            Op::FenceI => What::FenceI(head),
            Op::Poll => What::Poll(head),
            Op::Serve => What::Serve(head),
            Op::Advance => What::Advance(head, first, opaque),
            Op::Tick(n) => What::Tick(head, n),
        }
    }

    /// The actor, and the reply without its 64-bit numbers.
    pub fn head(&self) -> Head
        ensures { result ≡ head_in self.now }
    {
        match self {
            What::Ecall(head, ..) => *head,
            What::Load(head, ..) | What::Store(head, ..) | What::Fetch(head, ..) => *head,
            What::Amo(head, ..) => *head,
            What::WriteSatp(head, _) | What::WriteSie(head, _) => *head,
            What::WriteSstatusSie(head, _) => *head,
            What::ReadSip(head, _) | What::ClearSsip(head) | What::Wfi(head) => *head,
            What::Sfence(head, ..) | What::FenceI(head) => *head,
            What::Poll(head) | What::Serve(head) => *head,
            What::Advance(head, ..) | What::Tick(head, _) => *head,
        }
    }

    /// The operation.
    pub fn op(&self) -> Op
        ensures { result ≡ op_in self.now }
    {
        match *self {
            What::Ecall(_, _, regs) => Op::Ecall(regs),
            What::Load(_, va, ..) => Op::Load(va),
            What::Store(_, va, value, _) => Op::Store(va, value),
            What::Fetch(_, va, ..) => Op::Fetch(va),
            What::Amo(_, name, at, one, two, ..) => Op::Amo(at, name.amo(one, two)),
            What::WriteSatp(_, value) => Op::WriteSatp(value),
            What::WriteSie(_, value) => Op::WriteSie(value),
            What::WriteSstatusSie(_, value) => Op::WriteSstatusSie(value),
            What::ReadSip(..) => Op::ReadSip,
            What::ClearSsip(_) => Op::ClearSsip,
            What::Wfi(_) => Op::Wfi,
            What::Sfence(_, va, asid) => Op::Sfence(va, asid),
            What::FenceI(_) => Op::FenceI,
            What::Poll(_) => Op::Poll,
            What::Serve(_) => Op::Serve,
            What::Advance(..) => Op::Advance,
            What::Tick(_, n) => Op::Tick(n),
        }
    }

    /// The entry that an access used.
    pub fn used(&self) -> Option<Entry>
        ensures { result ≡ used_in self.now }
    {
        match *self {
            What::Load(.., used) | What::Store(.., used) | What::Fetch(.., used) => used,
            What::Amo(.., used) => used,
            _ => None,
        }
    }

    /// The first number of the reply, or 0 if it has none.
    pub fn first(&self) -> u64
        ensures { result ≡ first_in self.now }
    {
        match *self {
            What::Ecall(_, first, _) => u64::from(first),
            What::Load(_, _, first, _) | What::Fetch(_, _, first, _) => first,
            What::Amo(_, _, _, _, _, first, _) => first,
            What::ReadSip(_, first) | What::Advance(_, first, _) => first,
            _ => 0,
        }
    }

    /// The opaque value of an entry, or 0 if there is none.
    pub fn opaque(&self) -> u64
        ensures { result ≡ opaque_in self.now }
    {
        match *self {
            What::Advance(.., opaque) => opaque,
            _ => 0,
        }
    }
}
