//! Why an access is stale, unsteady, or not firm, as data. Places count a record's events from 0.
use board_core::{Entry, FetchWord, HartSet};

/// What is asked of an access.
#[derive(Clone, Copy)]
pub enum Asks {
    /// Why it is stale or unsteady.
    Held,
    /// Why it isn't firm, though it is steady.
    Firm,
    /// Why it isn't lenient, though it is steady.
    Lenient,
    /// Why it isn't lenient, nor steady.
    LenientOrHeld,
}

/// An access of a record, and what is asked of it.
#[derive(Clone, Copy)]
pub struct Asked {
    /// The place of the access.
    pub place: usize,
    /// What is asked.
    pub asks: Asks,
}

/// Why an access is stale, unsteady, or not firm.
#[derive(Clone, Copy)]
pub struct AccessCause {
    /// The place of the access.
    pub place: usize,
    /// Its hart.
    pub hart: u64,
    /// Its virtual address.
    pub address: u64,
    /// What it used, or may use.
    pub held: Held,
    /// Since when the hart holds that, or may hold it.
    pub origin: Origin,
    /// The place of the event since which the page tables, or the memory, don't give it.
    pub changed: usize,
    /// The fence that would have ended it.
    pub fencing: Fencing,
}

/// What an access used, or may use, though the page tables or the memory give another.
#[derive(Clone, Copy)]
pub enum Held {
    /// A translation.
    Entry(Entry),
    /// A fetched word.
    Word(FetchWord),
    /// What a walk may see, though it stood before.
    Walked(Walked),
}

/// What a walk may see, though it stood before: a TLB may keep it, and walks may read words of different times (Privileged 4.2.1, 4.3.2).
#[derive(Clone, Copy)]
pub struct Walked {
    /// What stood before.
    pub former: Former,
    /// The ASID of the hart's satp.
    pub asid: u16,
    /// Only a fence without an address ends it.
    pub is_whole: bool,
    /// Only a fence without an ASID ends it.
    pub is_global: bool,
}

/// What stood before.
#[derive(Clone, Copy)]
pub enum Former {
    /// A word of a page table.
    Word {
        /// Its physical address.
        pa: u64,
        /// The word.
        word: u64,
    },
    /// The hart's satp.
    Satp(u64),
}

/// Since when a hart holds something, or may hold it.
#[derive(Clone, Copy)]
pub enum Origin {
    /// An access filled it at this place.
    Filled(usize),
    /// It may hold a translation that the page tables gave from one place to another (Privileged 4.3.2).
    Given {
        /// The event since which they gave it.
        from: usize,
        /// The event since which they don't.
        until: usize,
    },
    /// It may hold a translation that the page tables still give by a former satp (Privileged 4.2.1).
    BySatp {
        /// The former satp.
        satp: u64,
        /// The event since which the hart had it.
        from: usize,
        /// The event that wrote the next one.
        until: usize,
    },
    /// It may hold a word that the memory had, or a satp that the hart had, up to this place (Zifencei; Privileged 4.2.1).
    Had(usize),
}

/// The fence that would have ended what a hart holds.
#[derive(Clone, Copy)]
pub enum Fencing {
    /// A call asked for one between the change and the access. This is the first that covers the address.
    Asked {
        /// The place of the call.
        place: usize,
        /// The harts that it asked.
        harts: HartSet,
        /// What became of it at the hart of the access.
        reach: Reach,
    },
    /// No call asked for one between the change and the access.
    Absent {
        /// The last that was asked of the hart, or made there, before the change.
        before: Option<usize>,
        /// The first one after the access.
        next: Option<usize>,
    },
}

/// What became of a call's fence at the hart of an access.
#[derive(Clone, Copy)]
pub enum Reach {
    /// The call didn't ask the hart.
    NotAsked,
    /// It still waited there.
    Waits,
    /// The hart stopped before it served it.
    Stopped,
}

/// What an access used, or may use, and since when: a cause without its fence.
#[derive(Clone, Copy)]
pub(crate) struct Finding {
    pub(crate) held: Held,
    pub(crate) origin: Origin,
    pub(crate) changed: usize,
}
