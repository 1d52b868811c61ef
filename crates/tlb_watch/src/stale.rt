//! Accesses that are stale.
ghost use Rattle.std.specs.Prelude.{◌≡◌, ◌<◌, ◌↔◌, IsTrue};
ghost use Rattle.board_core.specs.History.{Event};
ghost use Rattle.board_core.specs.Memory.{memory, satp};
ghost use Rattle.hart_access.specs.AccessKinds.{kind_of};
ghost use Rattle.any_tlb.specs.Stale.{IsStale};
ghost use Rattle.tlb_watch.specs.Deciding.{is_stale_use};

use crate::hart_address::HartAddress;
use any_tlb::agrees;
use board_core::{Board, Entry, View};
use hart_access::Access;

/// Whether an access that uses this entry, on a board as it is before the access, is stale: the entry gives it another
/// physical address or fault than the page tables.
pub fn is_stale(board: &Board, at: HartAddress, access: Access, used: Option<Entry>) -> bool
    requires { at.hart < board.now.opening.config.harts }
    ensures { (event : Event) → event.translation ≡ used
        → IsTrue result
        ↔ IsStale board.now.opening board.now.past at.hart event (record { va = at.address; access = access }) }
{
    match used {
        Some(entry) => {
            let kind = access.kind();
            let walked = board.walk(at.hart, at.address, kind);
            !agrees(&entry, at.address, kind, walked)
        }
        None => false,
    }
}

/// The same, on a board that is viewed.
pub fn is_stale_use(view: &View<'_>, at: HartAddress, access: Access, used: Option<Entry>) -> bool
    requires { at.hart < view.now.opening.config.harts }
    ensures { result ≡ is_stale_use used (memory view.now.opening view.now.past)
        (satp view.now.opening view.now.past at.hart) at.address (kind_of access) }
{
    match used {
        Some(entry) => {
            let kind = access.kind();
            let walked = view.walk(at.hart, at.address, kind);
            !agrees(&entry, at.address, kind, walked)
        }
        None => false,
    }
}
