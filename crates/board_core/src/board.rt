//! The board: its opening, its kept history, one atomic step, and the look-ups.
ghost use Rattle.std.specs.Prelude.{◌≡◌, ◌⊎◌, ◌-◌, ◌*◌, ◌<◌, ◌≤◌, ◌↔◌, List, [], ◌∷◌, ◌++◌, true, IfErr, IfOk, IsErrOf, None, Ok, OnErr, OnOk, Some, length, reverse};
ghost use Rattle.hsm.specs.declared.hart.HartState.{HartState};
ghost use Rattle.interrupts.specs.Timing.{last_time};
ghost use Rattle.sv39.specs.Maps.{maps};
ghost use Rattle.board_terms.specs.declared.config.BuildFault.TheVariants.{BadConfig, CutFull, NoMemory};
ghost use Rattle.board_core.specs.Cuts.{IsOpened, IsUnseen, last_cut, opening_of};
ghost use Rattle.board_core.specs.Inside.Opened.{first_of};
ghost use Rattle.board_core.specs.Refusals.{first_refusal};
ghost use Rattle.board_core.specs.History.{Event, IsReach, access_of, access_op};
ghost use Rattle.board_terms.specs.declared.op.Actor.TheVariants.{Hart, Clock};
ghost use Rattle.board_core.specs.Csrs.{sie, sstatus_sie};
ghost use Rattle.board_core.specs.Interrupts.{deadline, ssip, stip, time, wake};
ghost use Rattle.board_terms.specs.Limits.{IsGood};
ghost use Rattle.board_core.specs.Opening.{Opening, opening_at, place_after};
ghost use Rattle.board_core.specs.Memory.{caches_of, memory, satp};
ghost use Rattle.board_core.specs.Fences.{outstanding, phase, waiting};
ghost use Rattle.board_core.specs.Need.{need, total_need};
ghost use Rattle.board_core.specs.Serves.{CanEnd, GoesOn, HaveServed, IsLeft, KeepsNeeds};
ghost use Rattle.board_core.specs.Resets.{is_off, last_reset};
ghost use Rattle.board_core.specs.States.{state};
ghost use Rattle.board_core.specs.Starts.{kept, StartsAreEntered};
ghost use Rattle.board_core.specs.Replies.{answer, stepped, IsLegal};
ghost use Rattle.board_core.specs.Totals.{totals};

use crate::opening::Opening;
use crate::view::View;
use board_machine::Machine;
use board_rules::{Event, Phase, Sie, Totals, access_of, record, record_access};
use board_terms::{Actor, BuildFault, Config, Op, Refusal, Reply};
use hart_access::Access;
use hart_mask::HartSet;
use hsm::{EntryPoint, HartState};
use rfence::Waiting;
use sbi_abi::Reset;
use std::alloc::{AllocError, Global};
use std::marker::Model;
use std::mem;
use sv39::{Cause, Kind, Leaf};
use tlb_model::{Entry, FetchWord, Flush, Live};

/// The most events since the first opening before a cut (profile). Places, fill numbers and counts then have room for a
/// full history more.
pub(crate) const LAST_CUT: u64 = (1 << 56) - 1_000_000;

/// A board of harts: its opening and the history of accepted steps.
#[derive(Drop)]
pub struct Board {
    config: Config,
    // (the number of events accepted before the kept history, and the opening that a cut left, if there was a cut)
    places: u64,
    opened: Option<Opening>,
    events: Vec<Event>,
    machine: Machine,
}

/// A segment of a board's history, which a cut returns: its opening, and the events since.
#[derive(Drop)]
pub struct Segment {
    /// The opening, before the first event.
    pub opening: Opening,
    /// The events, oldest first.
    pub events: Vec<Event>,
}

impl Model for Board {
    ghost use Rattle.std.specs.Prelude.{◌≡◌, reverse, vec_capacity};
    ghost use Rattle.board_core.specs.Course.{Course};
    ghost use Rattle.board_core.specs.Inside.Opened.{IsOpenedBy, opened_by};

    ghost Value = { Course };

    ghost use Rattle.board_core.specs.Inside.Stands.{IsKept, StandsFor};

    ghost view = { λ b. record { opening = opened_by b.config b.places b.opened; past = reverse b.events.items } };

    ghost invariant = { λ b. IsKept (opened_by b.config b.places b.opened) (reverse b.events.items)
        × StandsFor (opened_by b.config b.places b.opened) (reverse b.events.items) b.machine × (vec_capacity b.events ≡ b.config.limit)
        × IsOpenedBy b.config b.places b.opened };
}

impl Board {
    /// A board at its first opening: the boot hart's start is pending, and nothing has happened yet. Memory for the
    /// whole history is reserved here.
    ///
    /// # Errors
    ///
    /// `BadConfig`: a number of `config` is outside the limits. `NoMemory`: out of memory.
    pub fn new(alloc: Global, config: &Config) -> Result<Board, BuildFault>
        ensures bad { IsErrOf result BadConfig ↔ ¬ IsGood config.now }
        ensures fault { IfErr result (λ fault. (fault ≡ BadConfig) ⊎ (fault ≡ NoMemory)) }
        ensures made { IfOk result
            (λ b. IsGood config.now × (b ≡ record { opening = opening_at config.now; past = [] })) }
    {
        if !config.is_good() {
            return Err(BuildFault::BadConfig);
        }
        let Ok(machine) = Machine::new(alloc, config) else {
            return Err(BuildFault::NoMemory);
        };
        let Ok(events) = Vec::with_capacity(alloc, config.limit as usize) else {
            return Err(BuildFault::NoMemory);
        };
        Ok(Board {
            config: *config,
            places: 0,
            opened: None,
            events,
            machine,
        })
    }

    /// Puts the board back to its first opening. It keeps the memory reserved for the history, so the cost doesn't
    /// depend on the limit.
    ///
    /// # Errors
    ///
    /// Out of memory. The board doesn't change.
    pub fn begin_anew(&mut self, alloc: Global) -> Result<(), AllocError>
        ensures opening { OnOk result (self.new ≡ record { opening = opening_at self.old.opening.config; past = [] }) }
        ensures kept { OnErr result (self.new ≡ self.old) }
    {
        self.machine = Machine::new(alloc, &self.config)?;
        self.events.clear();
        self.places = 0;
        self.opened = None;
        Ok(())
    }

    /// Cuts the history, and returns the segment so far. The board continues with its present state as the opening, and
    /// an empty history. It allocates a new history and a copy of the board's state; the first cut also allocates the
    /// first opening.
    ///
    /// # Errors
    ///
    /// `CutFull`: more than 2^56 - 1,000,000 events were accepted since the first opening. `NoMemory`: out of memory.
    /// The board doesn't change.
    pub fn cut(&mut self, alloc: Global) -> Result<Segment, BuildFault>
        ensures full { IsErrOf result CutFull ↔ last_cut < place_after self.old.opening self.old.past }
        ensures fault { IfErr result (λ fault. (fault ≡ CutFull) ⊎ (fault ≡ NoMemory)) }
        ensures unchanged { OnErr result (self.new ≡ self.old) }
        ensures segment { IfOk result (λ s. (s.opening ≡ self.old.opening) × (reverse s.events.items ≡ self.old.past)) }
        ensures after { OnOk result
            (self.new ≡ record { opening = opening_of self.old.opening self.old.past; past = [] }) }
        ensures unseen { OnOk result (IsUnseen self.old.opening self.old.past) }
    {
        let place = self.place();
        if place > LAST_CUT {
            return Err(BuildFault::CutFull);
        }
        let Ok(empty) = Vec::with_capacity(alloc, self.config.limit as usize) else {
            return Err(BuildFault::NoMemory);
        };
        let Ok(first) = first_opening(alloc, &self.config, &self.opened) else {
            return Err(BuildFault::NoMemory);
        };
        let Ok(machine) = self.machine.try_copy(alloc) else {
            return Err(BuildFault::NoMemory);
        };
        let left = Opening::of(self.config, place, machine);
        let events = mem::replace(&mut self.events, empty);
        let opened = mem::replace(&mut self.opened, Some(left));
        self.places = place;
        let Some(opening) = opened.or(first) else {
            unreachable!()
        };
        Ok(Segment { opening, events })
    }

    /// A board that continues from an opening, with an empty history. Memory for the whole history is reserved here.
    ///
    /// # Errors
    ///
    /// Out of memory.
    pub fn at(alloc: Global, opening: &Opening) -> Result<Board, AllocError>
        ensures { IfOk result (λ b. b ≡ record { opening = opening.now; past = [] }) }
    {
        let config = *opening.config();
        let events = Vec::with_capacity(alloc, config.limit as usize)?;
        let left = opening.try_copy(alloc)?;
        let copy = opening.try_copy(alloc)?;
        let machine = copy.into_machine();
        Ok(Board {
            config,
            places: opening.places(),
            opened: Some(left),
            events,
            machine,
        })
    }

    /// The opening that the history leaves, as after a cut: a board can continue from it. It copies the board's state.
    ///
    /// # Errors
    ///
    /// `CutFull`: more than 2^56 - 1,000,000 events were accepted since the first opening. `NoMemory`: out of memory.
    pub fn left(&self, alloc: Global) -> Result<Opening, BuildFault>
        ensures full { IsErrOf result CutFull ↔ last_cut < place_after self.now.opening self.now.past }
        ensures fault { IfErr result (λ fault. (fault ≡ CutFull) ⊎ (fault ≡ NoMemory)) }
        ensures left { IfOk result (λ o. o ≡ opening_of self.now.opening self.now.past) }
    {
        let here = self.place();
        if here > LAST_CUT {
            return Err(BuildFault::CutFull);
        }
        let Ok(machine) = self.machine.try_copy(alloc) else {
            return Err(BuildFault::NoMemory);
        };
        Ok(Opening::of(self.config, here, machine))
    }

    /// One step of one actor. An accepted step records one event and returns its reply. It allocates nothing.
    ///
    /// # Errors
    ///
    /// The first refusal that applies (profile). Nothing changes.
    pub fn step(&mut self, actor: Actor, op: Op) -> Result<Reply, Refusal>
        ensures answer { result ≡ answer self.old.opening self.old.past actor op }
        ensures after { self.new ≡ stepped self.old actor op }
        ensures needs { KeepsNeeds self.old self.new actor op result }
    {
        // (the clause of needs rests on the board's invariant)
        let _invariant = &self.config;
        if let Some(refusal) = self.refusal(actor, op) {
            return Err(refusal);
        }
        match (actor, access_of(op)) {
            (Actor::Hart(h), Some((va, what))) => Ok(self.access_step(h, va, what)),
            (Actor::Hart(h), None) => Ok(self.other_step(h, op)),
            (Actor::Clock, _) => Ok(self.clock_step(op)),
        }
    }

    /// The refusal that `step` would return: the first that applies (profile). None: the step would be accepted.
    #[inline(always)]
    pub fn refusal(&self, actor: Actor, op: Op) -> Option<Refusal>
        ensures { result ≡ first_refusal self.now.opening self.now.past actor op }
    {
        self.view().refusal(actor, op)
    }

    /// Performs and records an access of hart `h` that isn't refused, and returns the reply.
    #[inline(always)]
    fn access_step(&mut self, h: u64, va: u64, what: Access) -> Reply
        requires unrefused { first_refusal self.old.opening self.old.past (Hart h) (access_op va what) ≡ None }
        requires reach { IsReach va what }
        ensures answer { Ok result ≡ answer self.old.opening self.old.past (Hart h) (access_op va what) }
        ensures after { self.new ≡ stepped self.old (Hart h) (access_op va what) }
    {
        let place = self.place();
        let (reply, used) = self.machine.access(place, h, va, what);
        record_access(&mut self.events, h, va, what, reply, used);
        reply
    }

    /// Performs and records an operation of hart `h` that isn't refused and is no access, and returns the reply.
    #[inline(always)]
    fn other_step(&mut self, h: u64, op: Op) -> Reply
        requires unrefused { first_refusal self.old.opening self.old.past (Hart h) op ≡ None }
        requires other { access_of op ≡ None }
        ensures answer { Ok result ≡ answer self.old.opening self.old.past (Hart h) op }
        ensures after { self.new ≡ stepped self.old (Hart h) op }
    {
        let place = self.place();
        let reply = self.machine.perform(&self.config, place, h, op);
        record(&mut self.events, h, op, reply);
        reply
    }

    /// Performs and records a tick that isn't refused, and returns the reply.
    fn clock_step(&mut self, op: Op) -> Reply
        requires { first_refusal self.old.opening self.old.past Clock op ≡ None }
        ensures answer { Ok result ≡ answer self.old.opening self.old.past Clock op }
        ensures after { self.new ≡ stepped self.old Clock op }
    {
        let Op::Tick(n) = op else { unreachable!() };
        let event = self.machine.tick_event(n);
        self.events.push_reserved(event);
        Reply::Done
    }

    /// The place of the next event: the number of events accepted since the first opening.
    pub fn place(&self) -> u64
        ensures { result ≡ place_after self.now.opening self.now.past }
    {
        self.places + self.events.len() as u64
    }

    /// The accepted events, oldest first: a legal history of at most the limit.
    pub fn history(&self) -> &[Event]
        ensures events { reverse result.now ≡ self.now.past }
        ensures good { IsGood self.now.opening.config }
        ensures opened { IsOpened self.now.opening }
        ensures legal { IsLegal self.now.opening self.now.past }
        ensures within { length result.now ≤ self.now.opening.config.limit }
    {
        &self.events
    }

    /// The place of the kept history's first event: the number of events accepted before it.
    pub fn places(&self) -> u64
        ensures { result ≡ self.now.opening.places }
    {
        self.places
    }

    /// The numbers that the board was opened with.
    pub fn config(&self) -> &Config
        ensures config { result.now ≡ self.now.opening.config }
        ensures good { IsGood self.now.opening.config }
    {
        &self.config
    }

    /// A view of the board, for look-ups.
    #[inline(always)]
    pub fn view(&self) -> View<'_>
        ensures { result ≡ self.now }
    {
        View {
            config: &self.config,
            places: self.places,
            opened: self.opened.as_ref(),
            events: &self.events,
            machine: &self.machine,
        }
    }

    /// The state of hart `h` (SBI 9).
    pub fn state(&self, h: u64) -> HartState
        requires { h < self.now.opening.config.harts }
        ensures { result ≡ state self.now.opening self.now.past h }
    {
        self.view().state(h)
    }

    /// The entry point of hart `h`: of its pending start, or of the non-retentive suspend that it is in (SBI 9.1, 9.4).
    pub fn kept(&self, h: u64) -> Option<EntryPoint>
        requires { h < self.now.opening.config.harts }
        ensures { result ≡ kept self.now.opening self.now.past h }
    {
        self.view().kept(h)
    }

    /// Whether sstatus.SIE of hart `h` is 1 (Privileged 4.1.1).
    pub fn sstatus_sie(&self, h: u64) -> bool
        requires { h < self.now.opening.config.harts }
        ensures { result ≡ sstatus_sie self.now.opening self.now.past h }
    {
        self.view().sstatus_sie(h)
    }

    /// The interrupts that sie of hart `h` enables (Privileged 4.1.3).
    pub fn sie(&self, h: u64) -> Sie
        requires { h < self.now.opening.config.harts }
        ensures { result ≡ sie self.now.opening self.now.past h }
    {
        self.view().sie(h)
    }

    /// Whether SSIP of hart `h` is 1: a software interrupt is pending (Privileged 4.1.3, SBI 7).
    pub fn ssip(&self, h: u64) -> bool
        requires { h < self.now.opening.config.harts }
        ensures { result ≡ ssip self.now.opening self.now.past h }
    {
        self.view().ssip(h)
    }

    /// Whether STIP of hart `h` is 1: its deadline is due (Privileged 4.1.3, SBI 6).
    pub fn stip(&self, h: u64) -> bool
        requires { h < self.now.opening.config.harts }
        ensures { result ≡ stip self.now.opening self.now.past h }
    {
        self.view().stip(h)
    }

    /// Whether a pending interrupt of hart `h` is enabled in its sie (Privileged 3.3.3, WFI).
    pub fn wake(&self, h: u64) -> bool
        requires { h < self.now.opening.config.harts }
        ensures { result ≡ wake self.now.opening self.now.past h }
    {
        self.view().wake(h)
    }

    /// satp of hart `h` (Privileged 4.1.11).
    pub fn satp(&self, h: u64) -> u64
        requires { h < self.now.opening.config.harts }
        ensures { result ≡ satp self.now.opening self.now.past h }
    {
        self.view().satp(h)
    }

    /// The word of the RAM at a physical address. None: the address is outside the RAM, or isn't aligned to 8.
    pub fn word(&self, at: u64) -> Option<u64>
        ensures { result ≡ memory self.now.opening self.now.past at }
    {
        self.view().word(at)
    }

    /// The result of a page table walk by the satp of hart `h`, whatever its TLB holds: the leaf that maps the address
    /// and allows an access of this kind, or why the access fails (Privileged 4.3.2). It has no meaning if satp's MODE
    /// is Bare.
    pub fn walk(&self, h: u64, va: u64, kind: Kind) -> Result<Leaf, Cause>
        requires { h < self.now.opening.config.harts }
        ensures { result ≡ maps (memory self.now.opening self.now.past)
            (satp self.now.opening self.now.past h) va kind }
    {
        self.view().walk(h, va, kind)
    }

    /// The live entries of the TLB of hart `h`, oldest first.
    pub fn tlb(&self, h: u64) -> Live<'_, Entry>
        requires { h < self.now.opening.config.harts }
        ensures { reverse result ≡ (caches_of self.now.opening self.now.past h).tlb.live }
    {
        self.view().tlb(h)
    }

    /// The live words of the instruction cache of hart `h`, oldest first.
    pub fn fetched(&self, h: u64) -> Live<'_, FetchWord>
        requires { h < self.now.opening.config.harts }
        ensures { reverse result ≡ (caches_of self.now.opening self.now.past h).words.live }
    {
        self.view().fetched(h)
    }

    /// The fences that wait at hart `h`, in the order in which it serves them.
    pub fn waiting(&self, h: u64) -> Waiting<'_, Flush>
        requires { h < self.now.opening.config.harts }
        ensures { result ≡ waiting self.now.opening self.now.past h }
    {
        self.view().waiting(h)
    }

    /// The number of fences that wait at hart `h`, fewer than there are harts.
    pub fn waiting_len(&self, h: u64) -> u64
        requires { h < self.now.opening.config.harts }
        ensures count { result ≡ length (waiting self.now.opening self.now.past h) }
        ensures limit { result < self.now.opening.config.harts }
    {
        self.view().waiting_len(h)
    }

    /// Whether hart `h` is inside a fence call (SBI 8; that a call waits: profile).
    pub fn phase(&self, h: u64) -> Phase
        requires { h < self.now.opening.config.harts }
        ensures { result ≡ phase self.now.opening self.now.past h }
    {
        self.view().phase(h)
    }

    /// The harts that the fence call of hart `h` waits for. None: the hart is in no fence call.
    pub fn outstanding(&self, h: u64) -> Option<HartSet>
        requires { h < self.now.opening.config.harts }
        ensures { result ≡ outstanding self.now.opening self.now.past h }
    {
        self.view().outstanding(h)
    }

    /// The number of serves by hart `t` after which the fence call of hart `caller` no longer waits for `t` (profile).
    /// It is less than the number of harts. It is 0 if `caller` is in no fence call, the call doesn't wait for `t`, or
    /// one of the harts doesn't exist. While the call is open, without a reset and without a poll by `caller`, each
    /// serve by `t` lowers it by one, down to 0. Once each hart has served as often as needed, or has stopped, the call
    /// can end, if the history has room.
    pub fn need(&self, caller: u64, t: u64) -> u64
        ensures need { result ≡ need self.now.opening self.now.past caller t }
        ensures limit { result < self.now.opening.config.harts }
        ensures total { total_need self.now.opening self.now.past caller
            ≤ (self.now.opening.config.harts - 1) * (self.now.opening.config.harts - 1) }
        ensures no_caller { self.now.opening.config.harts ≤ caller → result ≡ 0 }
        ensures no_target { self.now.opening.config.harts ≤ t → result ≡ 0 }
        ensures left { (newer : List Event) → GoesOn self.now.opening newer self.now.past caller
            → IsLeft self.now.opening newer self.now.past caller t }
        ensures ends { (newer : List Event) → GoesOn self.now.opening newer self.now.past caller
            → length (newer ++ self.now.past) < self.now.opening.config.limit
            → HaveServed self.now.opening newer self.now.past caller
            → CanEnd self.now.opening (newer ++ self.now.past) caller }
    {
        self.view().need(caller, t)
    }

    /// The last system reset, if there was one (SBI 10).
    pub fn last_reset(&self) -> Option<Reset>
        ensures { result ≡ last_reset self.now.opening self.now.past }
    {
        self.view().last_reset()
    }

    /// Whether the power is off: the last reset is a shutdown (SBI 10.1).
    pub fn is_off(&self) -> bool
        ensures { result ≡ is_off self.now.opening self.now.past }
    {
        self.view().is_off()
    }

    /// The deadline of hart `h`, in ticks, if it has one (SBI 6.1).
    pub fn deadline(&self, h: u64) -> Option<u64>
        requires { h < self.now.opening.config.harts }
        ensures { result ≡ deadline self.now.opening self.now.past h }
    {
        self.view().deadline(h)
    }

    /// The time, in ticks since the first opening: at most 2^64-2 (profile).
    pub fn time(&self) -> u64
        ensures time { result ≡ time self.now.opening self.now.past }
        ensures within { result ≤ last_time }
    {
        self.view().time()
    }

    /// The counts of the board's table (profile). Each hart's starts are its entries, and then its pending start.
    pub fn totals(&self) -> Totals
        ensures counts { result ≡ totals self.now.opening self.now.past }
        ensures starts { StartsAreEntered self.now.opening self.now.past }
    {
        self.view().totals()
    }
}

/// The first opening, if the board stores none because its history was never cut.
fn first_opening(
    alloc: Global,
    config: &Config,
    opened: &Option<Opening>,
) -> Result<Option<Opening>, AllocError>
    requires { IsGood config.now }
    ensures { IfOk result (λ first. first ≡ first_of config.now opened.now) }
{
    if opened.is_some() {
        return Ok(None);
    }
    let opening = Opening::first(alloc, config)?;
    Ok(Some(opening))
}
