//! The word of the memory that an event changes.
ghost use Rattle.std.specs.Prelude.{◌≡◌};
ghost use Rattle.hart_access.specs.Ways.{phys_at};
ghost use Rattle.board_core.specs.Memory.{memory};
ghost use Rattle.access_marks.specs.Inside.Changes.{IsChange, SaysWritten, place_by, place_of};

use board_core::{Entry, Event, Op, Reply, View};

/// A word that an event writes: where it stands, and the memory's word there before the event, if the RAM has one.
#[derive(Clone, Copy, PartialEq, Eq)]
pub(crate) struct Written {
    pub(crate) at: u128,
    pub(crate) word: Option<u64>,
}

/// The word that an event writes, as the board has it before. None: it writes none, or is a cold reboot.
pub(crate) fn written_by(view: &View<'_>, event: &Event) -> Option<Written>
    ensures { SaysWritten view.now.opening view.now.past event.now result }
{
    match place_of(event) {
        Some(at) => Some(Written {
            at,
            word: word(view, at),
        }),
        None => None,
    }
}

/// Where the word stands that changed: the written one, if the board has another word there now.
pub(crate) fn changed(view: &View<'_>, written: Option<Written>) -> Option<u128>
    ensures { IsChange written (memory view.now.opening view.now.past) result }
{
    match written {
        Some(written) => {
            if word(view, written.at) == written.word {
                None
            } else {
                Some(written.at)
            }
        }
        None => None,
    }
}

/// The word of the RAM at a physical address, if it has one.
fn word(view: &View<'_>, at: u128) -> Option<u64>
    ensures { result ≡ memory view.now.opening view.now.past at }
{
    if at > u128::from(u64::MAX) {
        // (no word of a RAM stands there)
        let _ram = view.ram();
        return None;
    }
    view.word(at as u64)
}

/// The physical address of the word that an event writes.
fn place_of(event: &Event) -> Option<u128>
    ensures { result ≡ place_of event.now }
{
    place_by(event.op(), event.reply(), event.translation())
}

/// The physical address of the word that a store or an AMO with this reply writes, by the entry that it used.
fn place_by(op: Op, reply: Reply, used: Option<Entry>) -> Option<u128>
    ensures { result ≡ place_by op reply used }
{
    match op {
        Op::Store(va, _) => match reply {
            Reply::Done => Some(phys_at(used, va)),
            _ => None,
        },
        Op::Amo(at, amo) => match reply {
            Reply::Done | Reply::Value(_) => Some(phys_at(used, amo.word_at(at))),
            _ => None,
        },
        _ => None,
    }
}

/// The physical address of an address by the entry used; without one it is the address itself.
fn phys_at(used: Option<Entry>, va: u64) -> u128
    ensures { result ≡ phys_at used va }
{
    match used {
        Some(entry) => { u128::from(entry.pa()) + u128::from(va.saturating_sub(entry.page())) }
        None => u128::from(va),
    }
}
