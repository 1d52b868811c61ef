//! A step on a machine, which returns its event.

ghost use Rattle.std.specs.Prelude.{◌≡◌, ◌+◌, ◌<◌, ◌≤◌, List, ◌∷◌};
ghost use Rattle.interrupts.specs.Timing.{last_time};
ghost use Rattle.board_rules.specs.Accesses.{used};
ghost use Rattle.board_terms.specs.declared.op.Op.TheVariants.{Tick};
ghost use Rattle.board_terms.specs.declared.reply.Reply.TheVariants.{Done};
ghost use Rattle.board_rules.specs.History.{Event, by_clock, using};
ghost use Rattle.board_terms.specs.Limits.{IsGood};
ghost use Rattle.board_rules.specs.Opening.{Opening, on, place_after};
ghost use Rattle.board_rules.specs.Refusals.{IsAccepted};
ghost use Rattle.board_rules.specs.Replies.{reply};
ghost use Rattle.board_machine.specs.Stands.{IsSized, IsStandingAt, StandsFor, situation_in};

use crate::machine::Machine;
use board_rules::{Event, access_of};
use board_terms::{Actor, Config, Op, Reply};
use tlb_model::Entry;

impl Machine {
    /// Performs an operation of hart `h` that isn't refused, as the event at this place, and returns the event.
    pub fn hart_event(&mut self, config: &Config, place: u64, h: u64, op: Op) -> Event
        requires good { IsGood config.now }
        requires sized { IsSized config.now self.old }
        requires in_range { h < config.now.harts }
        requires standing { IsStandingAt config.now place self.old }
        requires accepted { IsAccepted op (situation_in self.old h) }
        ensures event { (o : Opening) (past : List Event) → StandsFor (on config.now o) past self.old →
            result ≡ using h op (reply (on config.now o) past h op) (used (on config.now o) past h op) }
        ensures after { (o : Opening) (past : List Event) → place ≡ place_after o past
            → StandsFor (on config.now o) past self.old →
            StandsFor (on config.now o) (result ∷ past) self.new }
    {
        let actor = Actor::Hart(h);
        match access_of(op) {
            Some((va, what)) => {
                let (reply, used) = self.access(place, h, va, what);
                Event::new(actor, op, reply, used)
            }
            None => {
                let reply = self.perform(config, place, h, op);
                Event::new(actor, op, reply, None)
            }
        }
    }

    /// Performs a tick for which the time has room, and returns its event.
    #[inline(always)]
    pub fn tick_event(&mut self, n: u64) -> Event
        requires { self.old.interrupts.timers.time + n ≤ last_time }
        ensures event { result ≡ by_clock (Tick n) Done }
        ensures after { (o : Opening) (past : List Event) → StandsFor o past self.old
            → StandsFor o (result ∷ past) self.new }
    {
        let Ok(()) = self.interrupts.timers.tick(n) else {
            unreachable!()
        };
        Event::new(Actor::Clock, Op::Tick(n), Reply::Done, None)
    }
}
