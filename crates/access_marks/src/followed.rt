//! A board that takes the events of a record, and what any caches may hold after each.
ghost use Rattle.std.specs.Prelude.{◌≡◌, ◌<◌, ◌↔◌, [], ◌∷◌, ℕ, IfOk, IfSome, List, MatchOption, false, is_some, true};
ghost use Rattle.std.specs.List.{All, Contains};
ghost use Rattle.hart_access.specs.Accesses.{place};
ghost use Rattle.board_terms.specs.Limits.{IsGood};
ghost use Rattle.board_core.specs.History.{Event as Step, access_of};
ghost use Rattle.board_core.specs.Memory.{memory, satp};
ghost use Rattle.board_core.specs.Opening.{Opening, opening_at};
ghost use Rattle.board_core.specs.Replies.{IsLegal};
ghost use Rattle.board_laws.specs.Steady.{no_tlb};
ghost use Rattle.any_tlb.specs.Effects.{effect_at};
ghost use Rattle.any_tlb.specs.Firm.{IsFirm, IsFirmReach, IsLenient, IsLenientReach};
ghost use Rattle.any_tlb.specs.Stale.{IsMissed};
ghost use Rattle.any_tlb.specs.Steady.{IsSteady, IsSteadyFetch, IsSteadyReach};
ghost use Rattle.tlb_watch.specs.declared.hart_address.HartAddress.{HartAddress as Place};
ghost use Rattle.tlb_watch.specs.Effects.{effect_on};
ghost use Rattle.tlb_watch.specs.Tracked.{IsTracking};
ghost use Rattle.access_marks.specs.Inside.Accessed.{IsPresent, IsWatched};
ghost use Rattle.access_marks.specs.Inside.Changes.{SaysWritten};
ghost use Rattle.access_marks.specs.Inside.Following.{IsNext};
ghost use Rattle.access_marks.specs.Inside.Words.{AreNoted};
ghost use Rattle.walk_watch.specs.Logged.{IsLogged, listed, nothing_logged};
ghost use Rattle.access_marks.specs.Marks.{IsMarkedAs, IsMarkedStep, IsWalkMarkedAs, IsWalkMarkedStep};

use crate::call_step::CallStep;
use crate::changes::{Written, changed, written_by};
use crate::entry_use::EntryUse;
use crate::logging::{log_if_there, satp_before};
use crate::marks::Marks;
use crate::missing::UseWatches;
use crate::registers::satps;
use crate::taking::takes;
use crate::words::{WordNote, differs, note_change, note_effect};
use any_tlb::{firm_is_lenient, missed_is_stale, watched_words_decide};
use board_core::{Actor, Board, Cause, Config, Entry, Event, Kind, Op};
use board_rules::access_of;
use hart_access::{Access, Way};
use std::alloc::{AllocError, Global};
use std::marker::Model;
use tlb_model::Tlb;
use tlb_watch::{
    CacheEffect, HartAddress, Tracker, effect_of, first_watches_are_watches, is_quiet, is_stale,
    quiet_operations_have_no_effect, trackers_follow_histories, trackers_outlast_quiet_events,
};
use walk_watch::WalkLog;

/// A board at a place of a record, and what its harts' caches may hold there for the addresses that the record accesses.
#[derive(Drop)]
pub(crate) struct Followed {
    board: Board,
    tracker: Tracker,
    notes: Vec<WordNote>,
    uses: UseWatches,
    /// None: walks aren't asked for.
    log: Option<WalkLog>,
}

impl Model for Followed {
    ghost use Rattle.std.specs.Prelude.{IfSome, is_some};
    ghost use Rattle.std.specs.List.{All};
    ghost use Rattle.tlb_watch.specs.Tracked.{IsTracking, addresses_of};
    ghost use Rattle.walk_watch.specs.Logged.{IsLogged, listed};
    ghost use Rattle.access_marks.specs.Inside.Following.{Following};
    ghost use Rattle.access_marks.specs.Inside.Missing.{IsKept};
    ghost use Rattle.access_marks.specs.Inside.Words.{AreNoted};

    ghost Value = { Following };

    ghost view = { λ f. record { course = f.board; addresses = addresses_of f.tracker; walks = is_some f.log } };

    ghost invariant = { λ f. IsTracking f.board.opening f.board.past (addresses_of f.tracker) f.tracker
        × AreNoted f.board.opening f.board.past f.notes.items
        × All (IsKept f.board.opening f.board.past) f.uses.watches.items
        × IfSome f.log (λ log. IsLogged f.board.opening f.board.past (listed log)) };
}

impl Followed {
    /// A board with these numbers before its first event, the addresses to watch, and whether to log walks.
    ///
    /// # Errors
    ///
    /// Out of memory.
    pub(crate) fn new(
        alloc: Global,
        config: &Config,
        addresses: &[HartAddress],
        walks: bool,
    ) -> Result<Followed, AllocError>
        requires good { IsGood config.now }
        requires present { All (λ (at : Place). at.hart < config.now.harts) addresses.now }
        ensures made { IfOk result (λ f. f ≡ record {
          course = record { opening = opening_at config.now; past = [] };
          addresses = addresses.now;
          walks = walks;
        }) }
        ensures legal { IfOk result (λ _. IsLegal (opening_at config.now) []) }
    {
        first_watches_are_watches();
        let Ok(board) = Board::new(alloc, config) else {
            return Err(AllocError);
        };
        let tracker = Tracker::first(alloc, addresses)?;
        let _legal = board.history();
        Ok(Followed {
            board,
            tracker,
            notes: Vec::new(alloc),
            uses: UseWatches::new(alloc),
            log: first_log(alloc, walks),
        })
    }

    /// The marks of the next event, on a board from its first opening on.
    ///
    /// # Errors
    ///
    /// Out of memory.
    pub(crate) fn marks(&mut self, alloc: Global, event: &Event) -> Result<Marks, AllocError>
        requires first { self.old.course.opening ≡ opening_at self.old.course.opening.config }
        requires watched { IsWatched self.old.course.opening.config.harts self.old.addresses event.now }
        ensures same { IfOk result (λ _. self.new ≡ self.old) }
        ensures marked { IfOk result (λ marks. IsMarkedStep self.old.course.opening self.old.course.past event.now event.now.actor
            (access_of event.now.op) marks) }
        ensures walks { IfOk result (λ marks. self.old.walks ≡ true
            → IsWalkMarkedStep self.old.course.opening self.old.course.past event.now.actor (access_of event.now.op) marks) }
    {
        match event.actor() {
            Actor::Hart(hart) => match access_of(event.op()) {
                Some((address, access)) => {
                    let at = HartAddress { hart, address };
                    self.access_marks(alloc, at, access, event.translation())
                }
                None => Ok(Marks::none()),
            },
            Actor::Clock => Ok(Marks::none()),
        }
    }

    /// The marks of an access that uses this entry.
    ///
    /// # Errors
    ///
    /// Out of memory.
    fn access_marks(
        &mut self,
        alloc: Global,
        at: HartAddress,
        access: Access,
        used: Option<Entry>,
    ) -> Result<Marks, AllocError>
        requires first { self.old.course.opening ≡ opening_at self.old.course.opening.config }
        requires present { at.hart < self.old.course.opening.config.harts }
        requires watched { Contains self.old.addresses at }
        ensures same { IfOk result (λ _. self.new ≡ self.old) }
        ensures marked { IfOk result (λ marks. (event : Step) → event.translation ≡ used
            → IsMarkedAs self.old.course.opening self.old.course.past at.hart event
            (record { va = at.address; access = access }) marks) }
        ensures walks { IfOk result (λ marks. self.old.walks ≡ true
            → IsWalkMarkedAs self.old.course.opening self.old.course.past at.hart
            (record { va = at.address; access = access }) marks) }
    {
        let unsteady = !self.is_steady(at, access);
        let (unfirm, unlenient) = self.walk_marks(alloc, at, access)?;
        let by = used;
        let stale = is_stale(&self.board, at, access, by);
        let missed = self.is_missed(alloc, at, access, used)?;
        Ok(Marks {
            stale,
            missed,
            unsteady,
            unfirm,
            unlenient,
        })
    }

    /// Whether an access isn't firm, and whether it isn't lenient, if walks are logged.
    ///
    /// # Errors
    ///
    /// Out of memory.
    fn walk_marks(
        &self,
        alloc: Global,
        at: HartAddress,
        access: Access,
    ) -> Result<(bool, bool), AllocError>
        requires first { self.now.course.opening ≡ opening_at self.now.course.opening.config }
        requires present { at.hart < self.now.course.opening.config.harts }
        ensures firm { IfOk result (λ said. self.now.walks ≡ true
            → (said.0 ≡ false) ↔ IsFirmReach self.now.course.opening self.now.course.past at.hart
            (record { va = at.address; access = access })) }
        ensures lenient { IfOk result (λ said. self.now.walks ≡ true
            → (said.1 ≡ false) ↔ IsLenientReach self.now.course.opening self.now.course.past at.hart
            (record { va = at.address; access = access })) }
    {
        let Some(log) = &self.log else {
            return Ok((false, false));
        };
        let firm = self.is_firm(log, alloc, at, access)?;
        let lenient = self.is_lenient_or(log, alloc, at, access, firm)?;
        Ok((!firm, !lenient))
    }

    /// Whether a fence call missed an access that uses this entry.
    ///
    /// # Errors
    ///
    /// Out of memory.
    fn is_missed(
        &mut self,
        alloc: Global,
        at: HartAddress,
        access: Access,
        used: Option<Entry>,
    ) -> Result<bool, AllocError>
        requires first { self.old.course.opening ≡ opening_at self.old.course.opening.config }
        requires present { at.hart < self.old.course.opening.config.harts }
        ensures same { IfOk result (λ _. self.new ≡ self.old) }
        ensures missed { IfOk result (λ missed. (event : Step) → event.translation ≡ used
            → (missed ≡ true) ↔ IsMissed self.old.course.opening self.old.course.past at.hart event
            (record { va = at.address; access = access })) }
    {
        missed_is_stale();
        let by = used;
        if !is_stale(&self.board, at, access, by) {
            return Ok(false);
        }
        let Some(entry) = used else {
            return Ok(false);
        };
        let of = EntryUse {
            at,
            kind: access.kind(),
            entry,
            satp: self.board.view().satp_register(at.hart),
        };
        self.uses.has_missed(alloc, &self.board, of)
    }

    /// Whether an access is steady, with the word that it fetches.
    fn is_steady(&self, at: HartAddress, access: Access) -> bool
        requires present { at.hart < self.now.course.opening.config.harts }
        requires watched { Contains self.now.addresses at }
        ensures { (result ≡ true) ↔ IsSteadyReach self.now.course.opening self.now.course.past at.hart
            (record { va = at.address; access = access }) }
    {
        self.is_translated_steadily(at, access.kind()) && self.is_fetched_steadily(at, access)
    }

    /// Whether an access is firm, with the word that it fetches.
    ///
    /// # Errors
    ///
    /// Out of memory.
    fn is_firm(
        &self,
        log: &WalkLog,
        alloc: Global,
        at: HartAddress,
        access: Access,
    ) -> Result<bool, AllocError>
        requires first { self.now.course.opening ≡ opening_at self.now.course.opening.config }
        requires present { at.hart < self.now.course.opening.config.harts }
        requires logged { IsLogged self.now.course.opening self.now.course.past (listed log.now) }
        ensures { IfOk result (λ firm. (firm ≡ true) ↔ IsFirmReach self.now.course.opening self.now.course.past at.hart
            (record { va = at.address; access = access })) }
    {
        if !self.is_fetched_steadily(at, access) {
            return Ok(false);
        }
        self.is_translated_firmly(log, alloc, at, access.kind())
    }

    /// Whether the translation of an access of this kind is firm.
    fn is_translated_firmly(
        &self,
        log: &WalkLog,
        alloc: Global,
        at: HartAddress,
        kind: Kind,
    ) -> Result<bool, AllocError>
        requires first { self.now.course.opening ≡ opening_at self.now.course.opening.config }
        requires present { at.hart < self.now.course.opening.config.harts }
        requires logged { IsLogged self.now.course.opening self.now.course.past (listed log.now) }
        ensures { IfOk result (λ firm. (firm ≡ true)
            ↔ IsFirm self.now.course.opening self.now.course.past at.hart at.address kind) }
    {
        let view = self.board.view();
        let register = view.satp_register(at.hart);
        log.is_firm(alloc, at, view.ram(), register, kind)
    }

    /// Whether an access is lenient, if one knows whether it is firm.
    ///
    /// # Errors
    ///
    /// Out of memory.
    fn is_lenient_or(
        &self,
        log: &WalkLog,
        alloc: Global,
        at: HartAddress,
        access: Access,
        firm: bool,
    ) -> Result<bool, AllocError>
        requires first { self.now.course.opening ≡ opening_at self.now.course.opening.config }
        requires present { at.hart < self.now.course.opening.config.harts }
        requires logged { IsLogged self.now.course.opening self.now.course.past (listed log.now) }
        requires known { firm ≡ true → IsFirmReach self.now.course.opening self.now.course.past at.hart
            (record { va = at.address; access = access }) }
        ensures { IfOk result (λ lenient. (lenient ≡ true) ↔ IsLenientReach self.now.course.opening self.now.course.past at.hart
            (record { va = at.address; access = access })) }
    {
        firm_is_lenient();
        if firm {
            return Ok(true);
        }
        self.is_lenient(log, alloc, at, access)
    }

    /// Whether an access is lenient, with the word that it fetches.
    ///
    /// # Errors
    ///
    /// Out of memory.
    fn is_lenient(
        &self,
        log: &WalkLog,
        alloc: Global,
        at: HartAddress,
        access: Access,
    ) -> Result<bool, AllocError>
        requires first { self.now.course.opening ≡ opening_at self.now.course.opening.config }
        requires present { at.hart < self.now.course.opening.config.harts }
        requires logged { IsLogged self.now.course.opening self.now.course.past (listed log.now) }
        ensures { IfOk result (λ lenient. (lenient ≡ true) ↔ IsLenientReach self.now.course.opening self.now.course.past at.hart
            (record { va = at.address; access = access })) }
    {
        if !self.is_fetched_steadily(at, access) {
            return Ok(false);
        }
        self.is_translated_leniently(log, alloc, at, access.kind())
    }

    /// Whether the translation of an access of this kind is lenient.
    fn is_translated_leniently(
        &self,
        log: &WalkLog,
        alloc: Global,
        at: HartAddress,
        kind: Kind,
    ) -> Result<bool, AllocError>
        requires first { self.now.course.opening ≡ opening_at self.now.course.opening.config }
        requires present { at.hart < self.now.course.opening.config.harts }
        requires logged { IsLogged self.now.course.opening self.now.course.past (listed log.now) }
        ensures { IfOk result (λ lenient. (lenient ≡ true)
            ↔ IsLenient self.now.course.opening self.now.course.past at.hart at.address kind) }
    {
        let view = self.board.view();
        let register = view.satp_register(at.hart);
        log.is_lenient(alloc, at, view.ram(), register, kind)
    }

    /// Whether the translation of an access of this kind is steady.
    fn is_translated_steadily(&self, at: HartAddress, kind: Kind) -> bool
        requires present { at.hart < self.now.course.opening.config.harts }
        requires watched { Contains self.now.addresses at }
        ensures { (result ≡ true)
            ↔ IsSteady self.now.course.opening self.now.course.past at.hart at.address kind }
    {
        let view = self.board.view();
        let register = view.satp_register(at.hart);
        match self.tracker.is_steady(at, view.ram(), register, kind) {
            Some(steady) => steady,
            None => false,
        }
    }

    /// Whether the word that an access fetches, if it is a fetch, is steady.
    fn is_fetched_steadily(&self, at: HartAddress, access: Access) -> bool
        requires { at.hart < self.now.course.opening.config.harts }
        ensures { (result ≡ true) ↔ IsSteadyFetch self.now.course.opening self.now.course.past at.hart
            (record { va = at.address; access = access }) }
    {
        match access {
            Access::Fetch => self.is_word_steady(at),
            _ => true,
        }
    }

    /// Whether the word that a fetch reads by the page tables is steady, if it reads one.
    fn is_word_steady(&self, at: HartAddress) -> bool
        requires { at.hart < self.now.course.opening.config.harts }
        ensures { (result ≡ true) ↔ IsSteadyFetch self.now.course.opening self.now.course.past at.hart
            (record { va = at.address; access = Access.Fetch }) }
    {
        watched_words_decide();
        match self.fetched(at) {
            Ok(address) => {
                let at = HartAddress {
                    hart: at.hart,
                    address,
                };
                !differs(&self.notes, at)
            }
            Err(_) => true,
        }
    }

    /// The physical address of the word that a fetch reads by the page tables, or why it fails.
    fn fetched(&self, at: HartAddress) -> Result<u64, Cause>
        requires { at.hart < self.now.course.opening.config.harts }
        ensures { result ≡ place (memory self.now.course.opening self.now.course.past)
            (satp self.now.course.opening self.now.course.past at.hart) no_tlb at.address Access.Fetch }
    {
        let view = self.board.view();
        let ram = view.ram();
        let register = view.satp_register(at.hart);
        let way = Way::of(ram, register, &Tlb::new(), at.address, Kind::Fetch);
        way.place(ram, at.address, Kind::Fetch)
    }

    /// Takes the next event. None: the board makes another step of its actor and operation, or refuses it.
    ///
    /// # Errors
    ///
    /// Out of memory. The board is gone.
    pub(crate) fn step(self, alloc: Global, event: &Event) -> Result<Option<Followed>, AllocError>
        requires { IsPresent self.course.opening.config.harts event.now.actor }
        ensures { IfOk result (λ found. MatchOption found
            (¬ IsNext self.course.opening self.course.past event.now)
            (λ f. IsNext self.course.opening self.course.past event.now × (f ≡ record {
              course = record { opening = self.course.opening; past = event.now ∷ self.course.past };
              addresses = self.addresses;
              walks = self.walks;
            }))) }
    {
        let Followed {
            mut board,
            tracker,
            mut notes,
            uses,
            mut log,
        } = self;
        let call = CallStep::of(board.config(), event);
        let effect = effect_of(&board, event);
        let word = written_by(&board.view(), event);
        let former = satp_before(&board, event);
        if !takes(&mut board, event) {
            return Ok(None);
        }
        note(&mut notes, &board, word, effect)?;
        log_if_there(&mut log, &board, word, former, effect)?;
        let tracker = track(alloc, tracker, &board, event.op(), effect)?;
        let uses = uses.happened(alloc, &board, call)?;
        Ok(Some(Followed {
            board,
            tracker,
            notes,
            uses,
            log,
        }))
    }
}

/// A log of nothing, if walks are asked for.
fn first_log(alloc: Global, walks: bool) -> Option<WalkLog>
    ensures there { is_some result ≡ walks }
    ensures empty { IfSome result (λ log. listed log ≡ nothing_logged) }
{
    if walks {
        Some(WalkLog::new(alloc))
    } else {
        None
    }
}

/// Notes what the board's last event did to words: this it wrote, and this it did to caches.
///
/// # Errors
///
/// Out of memory.
fn note(
    notes: &mut Vec<WordNote>,
    board: &Board,
    written: Option<Written>,
    effect: CacheEffect,
) -> Result<(), AllocError>
    ensures { IfOk result (λ _. (event : Step) (past : List Step) → board.now.past ≡ event ∷ past
        → SaysWritten board.now.opening past event written
        → ((h : ℕ) → effect_on effect h ≡ effect_at board.now.opening past event h)
        → AreNoted board.now.opening past notes.old.items
        → AreNoted board.now.opening (event ∷ past) notes.new.items) }
{
    let _legal = board.history();
    note_change(notes, changed(&board.view(), written))?;
    note_effect(notes, effect)
}

/// Watches the addresses after the board's last event, which was of this operation, and did this to caches. Most events need no
/// look.
///
/// # Errors
///
/// Out of memory.
fn track(
    alloc: Global,
    tracker: Tracker,
    board: &Board,
    op: Op,
    effect: CacheEffect,
) -> Result<Tracker, AllocError>
    ensures { IfOk result (λ after. (event : Step) (past : List Step) (addresses : List Place)
        → board.now.past ≡ event ∷ past
        → event.op ≡ op
        → ((h : ℕ) → effect_on effect h ≡ effect_at board.now.opening past event h)
        → IsTracking board.now.opening past addresses tracker
        → IsTracking board.now.opening (event ∷ past) addresses after) }
{
    quiet_operations_have_no_effect();
    trackers_outlast_quiet_events();
    trackers_follow_histories();
    if is_quiet(op) {
        return Ok(tracker);
    }
    let satps = satps(alloc, board)?;
    tracker.happened(alloc, effect, board.view().ram(), &satps)
}
