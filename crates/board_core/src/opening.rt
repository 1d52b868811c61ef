//! The opening of a board: its state before the first event of its kept history.
ghost use Rattle.std.specs.Prelude.{◌≡◌, ◌⊎◌, ◌+◌, ◌<◌, ◌≤◌, ◌↔◌, IfErr, IfOk, IsErrOf, MatchOption, Ok, [], ◌∷◌, length, None};
ghost use Rattle.board_core.specs.Cuts.{last_cut, opening_of};
ghost use Rattle.board_core.specs.Inside.Packing.{machine_in};
ghost use Rattle.board_core.specs.Inside.Stands.{opening_in};
ghost use Rattle.board_core.specs.Taking.{event_with, refusal_at, reply_at, step_from, taken_in};
ghost use Rattle.board_terms.specs.declared.config.BuildFault.TheVariants.{CutFull, NoMemory};
ghost use Rattle.sv39.specs.Memory.{IsRam};
ghost use Rattle.sv39.specs.Nonzero.{IsClear, IsNextSet};
ghost use Rattle.board_terms.specs.Limits.{IsGood};
ghost use Rattle.board_core.specs.Memory.{caches_of};
ghost use Rattle.board_core.specs.Opening.{IsOpening, opening_at};
ghost use Rattle.board_core.specs.Inside.Stands.{IsKept, StandsFor};
ghost use Rattle.rfence.specs.Opening.{called_at};

use crate::board::LAST_CUT;
use crate::packed::PackedMachine;
use crate::view::View;
use board_machine::{Csrs, Machine};
use board_rules::Event;
use board_terms::{Actor, BuildFault, Config, Op, Refusal};
use hart_mask::HartSet;
use rfence::FenceCall;
use std::alloc::{AllocError, Global};
use std::marker::Model;
use tlb_model::Flush;

/// The opening of a board: its numbers, and its state before the first event of the kept history, with the places,
/// dates and fill numbers of earlier events. Its `view` gives the look-ups of a board at this opening.
#[derive(Drop)]
pub struct Opening {
    config: Config,
    places: u64,
    machine: Machine,
}

/// The result of an accepted step: its event, and the opening that it leaves.
#[derive(Drop)]
pub struct Taken {
    /// The event.
    pub event: Event,
    /// The opening that it leaves.
    pub opening: Opening,
}

impl Model for Opening {
    ghost use Rattle.std.specs.Prelude.{[]};
    ghost use Rattle.board_core.specs.Opening.{Opening};

    ghost Value = { Opening };

    ghost use Rattle.board_core.specs.Inside.Stands.{opening_in};
    ghost use Rattle.board_core.specs.Inside.Stands.{IsKept, StandsFor};

    ghost view = { λ o. opening_in o.config o.places o.machine };

    ghost invariant = { λ o. IsKept (opening_in o.config o.places o.machine) []
        × StandsFor (opening_in o.config o.places o.machine) [] o.machine };
}

impl Opening {
    /// The first opening of a board with these numbers.
    ///
    /// # Errors
    ///
    /// Out of memory.
    pub fn first(alloc: Global, config: &Config) -> Result<Opening, AllocError>
        requires { IsGood config.now }
        ensures { IfOk result (λ o. o ≡ opening_at config.now) }
    {
        let machine = Machine::new(alloc, config)?;
        Ok(Opening {
            config: *config,
            places: 0,
            machine,
        })
    }

    /// The machine's state as an opening, before the event at this place.
    pub(crate) fn of(config: Config, places: u64, machine: Machine) -> Opening
        requires kept { IsKept (opening_in config places machine) [] }
        requires stands { StandsFor (opening_in config places machine) [] machine }
        ensures { result ≡ opening_in config places machine }
    {
        Opening {
            config,
            places,
            machine,
        }
    }

    /// A copy.
    ///
    /// # Errors
    ///
    /// Out of memory.
    pub fn try_copy(&self, alloc: Global) -> Result<Opening, AllocError>
        ensures { IfOk result (λ copy. copy ≡ self.now) }
    {
        let machine = self.machine.try_copy(alloc)?;
        Ok(Opening {
            config: self.config,
            places: self.places,
            machine,
        })
    }

    /// Becomes a copy of an opening of a board with the same numbers. It allocates nothing.
    pub fn copy_from(&mut self, from: &Opening)
        requires { self.old.config ≡ from.now.config }
        ensures { self.new ≡ from.now }
    {
        self.places = from.places;
        self.machine.copy_from(&from.machine);
    }

    /// Becomes the opening before the event at this place, with the state of a packed machine.
    pub(crate) fn unpack(&mut self, places: u64, packed: &PackedMachine)
        requires kept { IsKept (opening_in self.old.config places (machine_in packed.now)) [] }
        requires stands { StandsFor (opening_in self.old.config places (machine_in packed.now)) [] (machine_in packed.now) }
        ensures { self.new ≡ opening_in self.old.config places (machine_in packed.now) }
    {
        packed.unpack_into(&mut self.machine);
        self.places = places;
    }

    /// The machine, which stands for this opening and an empty history.
    pub(crate) fn into_machine(self) -> Machine
        ensures kept { IsKept self [] }
        ensures stands { StandsFor self [] result }
        ensures same { opening_in self.config self.places result ≡ self }
    {
        self.machine
    }

    /// One step of one actor on a board that continues from this opening and whose history has room, as by
    /// `Board::step`. It returns the event and the opening that it leaves, or the refusal. It copies the board's state,
    /// unless the step is refused.
    ///
    /// # Errors
    ///
    /// `CutFull`: 2^56 - 1,000,000 or more events were accepted since the first opening. `NoMemory`: out of memory.
    pub fn after(
        &self,
        alloc: Global,
        actor: Actor,
        op: Op,
    ) -> Result<Result<Taken, Refusal>, BuildFault>
        ensures full { IsErrOf result CutFull ↔ last_cut < self.now.places + 1 }
        ensures fault { IfErr result (λ fault. (fault ≡ CutFull) ⊎ (fault ≡ NoMemory)) }
        ensures step { IfOk result (λ step. step ≡ step_from self.now actor op) }
    {
        if self.places >= LAST_CUT {
            return Err(BuildFault::CutFull);
        }
        if let Some(refusal) = self.refusal(actor, op) {
            return Ok(Err(refusal));
        }
        let Ok(machine) = self.machine.try_copy(alloc) else {
            return Err(BuildFault::NoMemory);
        };
        Ok(Ok(self.taken(machine, actor, op)))
    }

    /// The same step as by `after`, with the opening that it leaves made in `left`, an opening of a board with the same
    /// numbers. It returns the event, or the refusal. If the step is refused, or fails, `left` stays as it is. It
    /// allocates nothing.
    ///
    /// # Errors
    ///
    /// `CutFull`: as by `after`.
    pub fn after_in(
        &self,
        left: &mut Opening,
        actor: Actor,
        op: Op,
    ) -> Result<Result<Event, Refusal>, BuildFault>
        requires { left.old.config ≡ self.now.config }
        ensures full { IsErrOf result CutFull ↔ last_cut < self.now.places + 1 }
        ensures fault { IfErr result (λ fault. (fault ≡ CutFull) × (left.new ≡ left.old)) }
        ensures step { IfOk result (λ step. taken_in step left.new ≡ step_from self.now actor op) }
        ensures refused { IfOk result (λ step. IfErr step (λ _. left.new ≡ left.old)) }
        ensures config { left.new.config ≡ self.now.config }
    {
        if self.places >= LAST_CUT {
            return Err(BuildFault::CutFull);
        }
        if let Some(refusal) = self.refusal(actor, op) {
            return Ok(Err(refusal));
        }
        Ok(Ok(self.take_in(left, actor, op)))
    }

    /// Makes the opening that a step leaves, which isn't refused, and returns the step's event.
    fn take_in(&self, left: &mut Opening, actor: Actor, op: Op) -> Event
        requires early { self.now.places < last_cut }
        requires config { left.old.config ≡ self.now.config }
        requires unrefused { refusal_at self.now actor op ≡ None }
        ensures step { taken_in (Ok result) left.new ≡ step_from self.now actor op }
        ensures config { left.new.config ≡ self.now.config }
    {
        left.machine.copy_from(&self.machine);
        let event = self.event(&mut left.machine, actor, op);
        left.places = self.places + 1;
        event
    }

    /// The refusal of a step of one actor, on a board that continues from this opening and whose history has room.
    /// None: the step would be accepted.
    pub fn refusal(&self, actor: Actor, op: Op) -> Option<Refusal>
        ensures { result ≡ refusal_at self.now actor op }
    {
        // (the limit of a history is at least 1, so it has room for an event)
        let _good = self.config();
        self.view().refusal(actor, op)
    }

    /// The result of a step that isn't refused, on a copy of the machine.
    fn taken(&self, mut machine: Machine, actor: Actor, op: Op) -> Taken
        requires early { self.now.places < last_cut }
        requires stands { StandsFor self.now [] machine }
        requires ram { IsRam machine.memory.ram }
        requires unrefused { refusal_at self.now actor op ≡ None }
        ensures { Ok result ≡ step_from self.now actor op }
    {
        let event = self.event(&mut machine, actor, op);
        let opening = Opening::of(self.config, self.places + 1, machine);
        Taken { event, opening }
    }

    /// Performs a step that isn't refused on a machine that stands for this opening, and returns its event.
    fn event(&self, machine: &mut Machine, actor: Actor, op: Op) -> Event
        requires stands { StandsFor self.now [] machine.old }
        requires unrefused { refusal_at self.now actor op ≡ None }
        ensures event { result ≡ event_with self.now actor op (reply_at self.now actor op) }
        ensures stands { StandsFor self.now (result ∷ []) machine.new }
    {
        match (actor, op) {
            (Actor::Hart(h), _) => machine.hart_event(&self.config, self.places, h, op),
            (Actor::Clock, Op::Tick(n)) => machine.tick_event(n),
            (Actor::Clock, _) => unreachable!(),
        }
    }

    /// The board's numbers. A board can have this opening, and the look-ups here and of `view` determine it.
    pub fn config(&self) -> &Config
        ensures config { result.now ≡ self.now.config }
        ensures good { IsGood self.now.config }
        ensures opens { IsOpening self.now }
        ensures whole { opening_of self.now [] ≡ self.now }
    {
        &self.config
    }

    /// A view of a board at this opening, with an empty history.
    #[inline(always)]
    pub fn view(&self) -> View<'_>
        ensures { result ≡ record { opening = self.now; past = [] } }
    {
        View {
            config: &self.config,
            places: self.places,
            opened: Some(self),
            events: &[],
            machine: &self.machine,
        }
    }

    /// The number of events accepted before it, since the first opening.
    pub fn places(&self) -> u64
        ensures { result ≡ self.now.places }
    {
        self.places
    }

    /// The supervisor CSRs of the harts: sstatus.SIE and sie (Privileged 4.1).
    pub fn csrs(&self) -> Csrs
        ensures { result ≡ record { sstatus_sie = self.now.sstatus_sie; ssie = self.now.ssie; stie = self.now.stie } }
    {
        self.machine.interrupts.csrs
    }

    /// The harts at which SSIP is 1 (Privileged 4.1.3).
    pub fn ssip_harts(&self) -> HartSet
        ensures { result ≡ self.now.ssip }
    {
        self.machine.interrupts.ipis.harts()
    }

    /// The words of the RAM, from its first address on.
    pub fn ram(&self) -> &[u64]
        ensures { result.now ≡ self.now.ram }
    {
        self.machine.memory.ram.words()
    }

    /// The place of the first word of the RAM that isn't 0, from this place on.
    pub fn next_set_word(&self, from: usize) -> Option<usize>
        ensures { MatchOption result (IsClear self.now.ram from (length self.now.ram)) (IsNextSet self.now.ram from) }
    {
        self.machine.memory.ram.next_set(from)
    }

    /// The number of the next fill of hart `h`'s TLB, which is the number of fills so far.
    pub fn tlb_fills(&self, h: u64) -> u64
        requires { h < self.now.config.harts }
        ensures { result ≡ (caches_of self.now [] h).tlb.next }
    {
        self.machine.memory.caches[h as usize].tlb.fills()
    }

    /// The number of the next fill of hart `h`'s instruction cache, which is the number of fills so far.
    pub fn fetched_fills(&self, h: u64) -> u64
        requires { h < self.now.config.harts }
        ensures { result ≡ (caches_of self.now [] h).words.next }
    {
        self.machine.memory.caches[h as usize].words.fills()
    }

    /// The fence call of hart `h`: the place of its event, the harts that it asked, and its fence. None: it is in no
    /// call.
    pub fn call(&self, h: u64) -> Option<FenceCall<Flush>>
        requires { h < self.now.config.harts }
        ensures { result ≡ called_at self.now.fences h }
    {
        self.machine.fences.call(h)
    }
}
