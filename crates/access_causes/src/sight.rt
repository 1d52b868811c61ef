//! What an access used, as the board is before it.
ghost use Rattle.std.specs.Prelude.{◌<◌};

use any_tlb::agrees;
use board_core::{Actor, Board, Cause, Entry, Event, FetchWord, Kind, Leaf, Reply};
use board_rules::access_of;
use hart_access::{Access, Way};
use sv39::Satp;
use tlb_model::Tlb;
use tlb_watch::HartAddress;

/// An access of a record, and what it used.
#[derive(Drop)]
pub(crate) struct Sight {
    pub(crate) place: usize,
    pub(crate) at: HartAddress,
    pub(crate) kind: Kind,
    /// The hart's satp.
    pub(crate) satp: Satp,
    /// What the page tables give.
    pub(crate) walked: Result<Leaf, Cause>,
    pub(crate) used: Used,
    /// Of a fetch the physical address that the page tables give, if they give one.
    pub(crate) fetched: Option<u64>,
}

/// What an access used that is stale.
#[derive(Clone, Copy)]
pub(crate) enum Used {
    /// An entry that was filled at this place. By the result it gives another physical address or fault than the page tables, else
    /// another leaf.
    Entry {
        entry: Entry,
        filled: usize,
        by_result: bool,
    },
    /// A fetched word that was filled at this place.
    Word {
        word: FetchWord,
        filled: usize,
    },
    /// Nothing.
    Nothing,
}

impl Sight {
    /// An event in this place, on the board as it is before. None: it is no access of a hart that is there.
    pub(crate) fn of(board: &Board, place: usize, event: &Event) -> Option<Sight> {
        let Actor::Hart(hart) = event.actor() else {
            return None;
        };
        let (address, access) = access_of(event.op())?;
        if hart >= board.config().harts {
            return None;
        }
        let at = HartAddress { hart, address };
        let kind = access.kind();
        let walked = board.walk(hart, address, kind);
        Some(Sight {
            place,
            at,
            kind,
            satp: board.view().satp_register(hart),
            walked,
            used: used_by(board, at, access, walked, event),
            fetched: match access {
                Access::Fetch => fetched(board, at),
                _ => None,
            },
        })
    }

    /// Whether an entry gives the access a page fault where the page tables give a leaf.
    pub(crate) fn only_faults(&self, entry: &Entry) -> bool {
        self.walked.is_ok() && !entry.leaf().allows(self.kind)
    }
}

/// What an access used that is stale.
fn used_by(
    board: &Board,
    at: HartAddress,
    access: Access,
    walked: Result<Leaf, Cause>,
    event: &Event,
) -> Used
    requires { at.hart < board.now.opening.config.harts }
{
    if let Some(entry) = event.translation()
        && let Some(used) = used_entry(board, at, access.kind(), walked, entry)
    {
        return used;
    }
    match access {
        Access::Fetch => used_word(board, at, event),
        _ => Used::Nothing,
    }
}

/// The entry that an access used, if it is stale.
fn used_entry(
    board: &Board,
    at: HartAddress,
    kind: Kind,
    walked: Result<Leaf, Cause>,
    entry: Entry,
) -> Option<Used>
    requires { at.hart < board.now.opening.config.harts }
{
    let by_result = !agrees(&entry, at.address, kind, walked);
    if !by_result && !is_other_leaf(&entry, walked) {
        return None;
    }
    let filled = entry_filled(board, at.hart, &entry)?;
    Some(Used::Entry {
        entry,
        filled,
        by_result,
    })
}

/// Whether a walk gives another leaf than the entry's.
fn is_other_leaf(entry: &Entry, walked: Result<Leaf, Cause>) -> bool {
    match walked {
        Ok(leaf) => leaf != entry.leaf(),
        Err(_) => false,
    }
}

/// The place at which the hart's latest live entry that is this one was filled, if there is one.
fn entry_filled(board: &Board, hart: u64, entry: &Entry) -> Option<usize>
    requires { hart < board.now.opening.config.harts }
{
    let mut filled = None;
    for fill in board.tlb(hart) {
        if fill.item.leaf() == entry.leaf() && fill.item.asid() == entry.asid() {
            filled = Some(fill.date as usize);
        }
    }
    filled
}

/// The word that a fetch used, if the memory has another.
fn used_word(board: &Board, at: HartAddress, event: &Event) -> Used
    requires { at.hart < board.now.opening.config.harts }
{
    let pa = match event.translation() {
        Some(entry) => entry
            .pa()
            .wrapping_add(at.address.wrapping_sub(entry.page())),
        None => at.address,
    };
    if let Reply::Value(word) = event.reply()
        && board.word(pa) != Some(word)
        && let Some(filled) = word_filled(board, at.hart, pa)
    {
        return Used::Word {
            word: FetchWord { pa, word },
            filled,
        };
    }
    Used::Nothing
}

/// The place at which the hart's latest live word of this physical address was filled, if there is one.
fn word_filled(board: &Board, hart: u64, pa: u64) -> Option<usize>
    requires { hart < board.now.opening.config.harts }
{
    let mut filled = None;
    for fill in board.fetched(hart) {
        if fill.item.pa == pa {
            filled = Some(fill.date as usize);
        }
    }
    filled
}

/// The physical address of the word that a fetch reads by the page tables, if it reads one.
fn fetched(board: &Board, at: HartAddress) -> Option<u64>
    requires { at.hart < board.now.opening.config.harts }
{
    let view = board.view();
    let ram = view.ram();
    let register = view.satp_register(at.hart);
    let way = Way::of(ram, register, &Tlb::new(), at.address, Kind::Fetch);
    match way.place(ram, at.address, Kind::Fetch) {
        Ok(pa) => Some(pa),
        Err(_) => None,
    }
}
