//! The fences of a record, and which of them would have ended what a hart holds.
ghost use Rattle.std.specs.Prelude.{◌<◌};
ghost use Rattle.board_terms.specs.Limits.{IsGood};

use crate::cause::{AccessCause, Fencing, Finding, Held, Reach, Walked};
use crate::seen::Seen;
use board_core::{Actor, Board, Config, Entry, Event, Fence, Flush, HartSet, Op, Range, Reply};
use sbi_abi::call::RfenceCall;
use sbi_abi::{Call, decode};
use sv39::PAGE_BYTES;
use tlb_watch::HartAddress;

/// A fence of a record.
#[derive(Drop)]
pub(crate) struct Fenced {
    pub(crate) place: usize,
    /// The hart that made it, or asked for it.
    by: u64,
    pub(crate) flush: Flush,
    /// The harts that are fenced.
    harts: HartSet,
    /// Those that have applied it.
    applied: HartSet,
    /// It is a remote fence, whose call waits.
    is_call: bool,
}

impl Fenced {
    /// The fence that an event is, on the board as it is after it.
    pub(crate) fn of(board: &Board, seen: &Seen, event: &Event) -> Option<Fenced> {
        let Actor::Hart(by) = event.actor() else {
            return None;
        };
        if by >= board.config().harts {
            return None;
        }
        match event.op() {
            Op::Sfence(..) | Op::FenceI => Fenced::own(seen, by),
            Op::Ecall(regs) if event.reply() == Reply::Waiting => match decode(&regs) {
                Call::Rfence(call) => Some(Fenced::asked(board, seen, by, call)),
                _ => None,
            },
            _ => None,
        }
    }

    /// A hart's own fence.
    fn own(seen: &Seen, by: u64) -> Option<Fenced>
        requires { by < 128 }
    {
        let mut harts = HartSet::new();
        harts.insert(by);
        Some(Fenced {
            place: seen.place,
            by,
            flush: seen.flush_at(by)?,
            harts,
            applied: harts,
            is_call: false,
        })
    }

    /// A remote fence, on the board as it is after its call (SBI 8).
    fn asked(board: &Board, seen: &Seen, by: u64, call: RfenceCall) -> Fenced
        requires { by < board.now.opening.config.harts }
    {
        let config = board.config();
        let mut harts = board.outstanding(by).unwrap_or(HartSet::new());
        let mut applied = HartSet::new();
        if seen.flush_at(by).is_some() {
            harts.insert(by);
            applied.insert(by);
        }
        Fenced {
            place: seen.place,
            by,
            flush: flush_of(config, call),
            harts,
            applied,
            is_call: true,
        }
    }

    /// Whether a hart is fenced.
    fn is_at(&self, hart: u64) -> bool {
        hart < 128 && self.harts.contains(hart)
    }

    /// Whether a call asked for it that covers an address, and a hart, which may have been asked, hasn't applied it.
    pub(crate) fn is_missing(&self, at: HartAddress) -> bool {
        let has_applied = at.hart < 128 && self.applied.contains(at.hart);
        let covers = match self.flush {
            Flush::Entries(fence) => is_of_page(fence.range, at.address),
            Flush::Words => false,
        };
        self.is_call && !has_applied && covers
    }

    /// Whether the fence covers what a hart holds for an address (Privileged 4.2.1; Zifencei).
    fn ends(&self, held: &Held, address: u64) -> bool {
        match (self.flush, held) {
            (Flush::Entries(fence), Held::Entry(entry)) => {
                is_of_page(fence.range, address) && is_of_space(fence.asid, entry)
            }
            (Flush::Entries(fence), Held::Walked(walked)) => {
                is_of_kinds(fence, Kinds::of(walked), address)
            }
            (Flush::Words, Held::Word(_)) => true,
            _ => false,
        }
    }
}

/// The kinds of fences that end what walks may see.
#[derive(Clone, Copy)]
pub(crate) struct Kinds {
    /// Those of this ASID, and those without one.
    pub(crate) asid: u16,
    /// Only those without an address.
    pub(crate) is_whole: bool,
    /// Only those without an ASID.
    pub(crate) is_global: bool,
}

impl Kinds {
    fn of(walked: &Walked) -> Kinds {
        Kinds {
            asid: walked.asid,
            is_whole: walked.is_whole,
            is_global: walked.is_global,
        }
    }
}

/// Whether a fence that covers an address is of these kinds (Privileged 4.2.1).
pub(crate) fn is_of_kinds(fence: Fence, kinds: Kinds, address: u64) -> bool {
    let is_of_space = match fence.asid {
        None => true,
        Some(asid) => !kinds.is_global && asid == kinds.asid,
    };
    let is_there = fence.range.is_none() || (!kinds.is_whole && is_of_page(fence.range, address));
    is_of_space && is_there
}

/// What a remote fence drops whose call waits: its range is good (SBI 8).
fn flush_of(config: &Config, call: RfenceCall) -> Flush
    requires { IsGood config.now }
{
    let spaces = config.spaces();
    match call {
        RfenceCall::RemoteFenceI { .. } => Flush::Words,
        RfenceCall::RemoteSfenceVma { start, size, .. } => {
            Flush::Entries(Fence::of_range(spaces, start, size, None))
        }
        RfenceCall::RemoteSfenceVmaAsid {
            start,
            size,
            asid,
            ..
        } => Flush::Entries(Fence::of_range(spaces, start, size, Some(asid))),
    }
}

/// Whether a fence of this address space, or of all (None), is of the entry's. One of an address space spares global entries.
fn is_of_space(asid: Option<u16>, entry: &Entry) -> bool {
    match asid {
        None => true,
        Some(asid) => !entry.leaf().global && entry.asid() == asid,
    }
}

/// Whether a fence of these addresses, or of all (None), is of the address's page.
fn is_of_page(range: Option<Range>, va: u64) -> bool {
    match range {
        None => true,
        Some(range) => range.meets(va / PAGE_BYTES * PAGE_BYTES, PAGE_BYTES),
    }
}

/// A hart has served the fence of a caller's last call.
pub(crate) fn see_served(fences: &mut [Fenced], from: u64, hart: u64) {
    if hart >= 128 {
        return;
    }
    for fence in fences.iter_mut().rev() {
        if fence.is_call && fence.by == from {
            fence.applied.insert(hart);
            return;
        }
    }
}

/// The fence that would have ended what an access used or may use, by the record's fences so far, on the board before the access.
pub(crate) fn fencing_of(
    board: &Board,
    at: HartAddress,
    finding: &Finding,
    fences: &[Fenced],
) -> Fencing {
    fencing_by(board, at, finding, first_call(at, finding, fences), fences)
}

/// The same, if this is the call, or none.
pub(crate) fn fencing_by(
    board: &Board,
    at: HartAddress,
    finding: &Finding,
    call: Option<&Fenced>,
    fences: &[Fenced],
) -> Fencing {
    match call {
        Some(call) => Fencing::Asked {
            place: call.place,
            harts: call.harts,
            reach: reach_of(board, at.hart, call),
        },
        None => Fencing::Absent {
            before: last_before(at, finding, fences),
            next: None,
        },
    }
}

/// The fences up to a place, and those behind it. Their places ascend.
pub(crate) fn parted(fences: &[Fenced], place: usize) -> (&[Fenced], &[Fenced]) {
    fences.split_at(fences.partition_point(|fence| fence.place <= place))
}

/// The first call behind the change that covers what an access used or may use.
fn first_call<'a>(at: HartAddress, finding: &Finding, fences: &'a [Fenced]) -> Option<&'a Fenced> {
    let (_, behind) = parted(fences, finding.changed);
    for fence in behind {
        if fence.is_call && fence.ends(&finding.held, at.address) {
            return Some(fence);
        }
    }
    None
}

/// The place of the hart's last fence before the change that covers what an access used or may use. (No fence is a change.)
fn last_before(at: HartAddress, finding: &Finding, fences: &[Fenced]) -> Option<usize> {
    let (before, _) = parted(fences, finding.changed);
    for fence in before.iter().rev() {
        if fence.is_at(at.hart) && fence.ends(&finding.held, at.address) {
            return Some(fence.place);
        }
    }
    None
}

/// The place of the hart's first fence behind the access of a cause that covers what it used or may use.
pub(crate) fn next_behind(cause: &AccessCause, fences: &[Fenced]) -> Option<usize> {
    let (_, behind) = parted(fences, cause.place);
    for fence in behind {
        if fence.is_at(cause.hart) && fence.ends(&cause.held, cause.address) {
            return Some(fence.place);
        }
    }
    None
}

/// What became of the fence of a call at a hart.
fn reach_of(board: &Board, hart: u64, call: &Fenced) -> Reach {
    if !call.is_at(hart) {
        Reach::NotAsked
    } else if is_waiting(board, hart, call) {
        Reach::Waits
    } else {
        Reach::Stopped
    }
}

/// Whether the fence of a call waits at a hart.
fn is_waiting(board: &Board, hart: u64, call: &Fenced) -> bool {
    if hart >= board.config().harts {
        return false;
    }
    for request in board.waiting(hart) {
        if request.from == call.by && request.flush == call.flush {
            return true;
        }
    }
    false
}
