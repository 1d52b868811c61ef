//! An accepted step, as the history stores it.
ghost use Rattle.std.specs.Prelude.{◌≡◌, None, option_map};
ghost use Rattle.board_rules.specs.History.{access_of, entry_of};
ghost use Rattle.board_rules.specs.Room.{IsShort};

use crate::keeping::{Head, Said, What, by_of};
use board_terms::{Actor, Op, Reply};
use hart_access::Access;
use std::marker::Model;
use tlb_model::Entry;

// (an event takes no more room than a call's registers and eight bytes)
const _: () = prove!(size_of::<Event>() == 72);

/// An accepted step: its actor, its operation, its reply, and the TLB entry that an access used.
#[derive(Clone, Copy, Debug, PartialEq, Eq)]
pub struct Event {
    what: What,
}

impl Model for Event {
    ghost use Rattle.board_rules.specs.History.{Event as Seen};
    ghost use Rattle.board_rules.specs.Inside.Keeping.{IsKeptWell, actor_in, op_in, reply_in, used_in, what_of_event};

    ghost Value = { Seen };

    ghost view = { λ e. record {
      actor = actor_in e.what;
      op = op_in e.what;
      reply = reply_in e.what;
      translation = used_in e.what;
    } };

    ghost invariant = { λ e. IsKeptWell e.what };

    ghost inverse = { λ e. record { what = what_of_event e.actor e.op e.reply e.translation } };

    ghost inverse_ok = { λ e well i. record { what = well i } };
}

impl Event {
    /// The event of an accepted step whose numbers fit (`IsShort`). It keeps the entry only if the operation is an
    /// access.
    #[inline(always)]
    pub fn new(actor: Actor, op: Op, reply: Reply, used: Option<Entry>) -> Event
        requires { IsShort actor op reply }
        ensures { result ≡ record {
          actor = actor;
          op = op;
          reply = reply;
          translation = entry_of (access_of op) used;
        } }
    {
        let (said, first, opaque) = Said::of(reply);
        let by = by_of(actor);
        Event {
            what: What::of(Head { by, said }, op, used, first, opaque),
        }
    }

    /// The actor that made the step.
    pub fn actor(&self) -> Actor
        ensures { result ≡ self.now.actor }
    {
        self.what.head().actor()
    }

    /// The operation.
    pub fn op(&self) -> Op
        ensures { result ≡ self.now.op }
    {
        self.what.op()
    }

    /// The reply.
    pub fn reply(&self) -> Reply
        ensures { result ≡ self.now.reply }
    {
        self.what
            .head()
            .reply(self.what.first(), self.what.opaque())
    }

    /// The TLB entry that a translated access hit or filled (profile). None: any other step.
    pub fn translation(&self) -> Option<Entry>
        ensures { result ≡ self.now.translation }
    {
        self.what.used()
    }
}

/// The operation's access and its virtual address. None: the operation is no access.
pub fn access_of(op: Op) -> Option<(u64, Access)>
    ensures { option_map (λ at. record { va = at.0; access = at.1 }) result ≡ access_of op }
{
    match op {
        Op::Load(va) => Some((va, Access::Load)),
        Op::Store(va, value) => Some((va, Access::Store(value))),
        Op::Fetch(va) => Some((va, Access::Fetch)),
        Op::Amo(at, amo) => Some((amo.word_at(at), Access::Amo(at, amo))),
        _ => None,
    }
}
