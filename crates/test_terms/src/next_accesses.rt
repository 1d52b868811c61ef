//! What the page tables give the accesses that harts can make next.
ghost use Rattle.std.specs.Prelude.{◌<◌};

use any_tlb::agrees;
use board_core::{Actor, Cause, Event, Kind, Leaf, Opening, View};
use board_rules::access_of;
use guest_programs::Guests;
use std::alloc::{AllocError, Global};

/// What the page tables give the access that a hart's guest can make next.
#[derive(Clone, Copy)]
struct NextAccess {
    address: u64,
    kind: Kind,
    walked: Result<Leaf, Cause>,
}

/// The same of each hart, in a state of a program.
#[derive(Drop)]
pub struct NextAccesses {
    all: Vec<Option<NextAccess>>,
}

impl NextAccesses {
    /// Before any state.
    pub fn new(alloc: Global) -> NextAccesses {
        NextAccesses {
            all: Vec::new(alloc),
        }
    }

    /// Takes a state: its board, and the place of each hart's guest.
    ///
    /// # Errors
    ///
    /// Memory was refused.
    pub fn see<G: Guests>(
        &mut self,
        guests: &G,
        opening: &Opening,
        places: &[G::Place],
    ) -> Result<(), AllocError> {
        self.all.clear();
        let view = opening.view();
        for hart in 0..opening.config().harts {
            let next = match places.get(hart as usize) {
                Some(place) => next_access(guests, &view, hart, *place),
                None => None,
            };
            self.all.push(next)?;
        }
        Ok(())
    }

    /// Whether a step of that state is a stale access: the TLB entry that it used gives it another physical address, or another fault,
    /// than the page tables.
    pub fn is_stale(&self, event: &Event) -> bool {
        if let Actor::Hart(hart) = event.actor()
            && let Some(entry) = event.translation()
            && let Some(Some(next)) = self.all.get(hart as usize)
        {
            return !agrees(&entry, next.address, next.kind, next.walked);
        }
        false
    }
}

/// The next access of a hart, if its guest's next operation is one.
fn next_access<G: Guests>(
    guests: &G,
    view: &View<'_>,
    hart: u64,
    place: G::Place,
) -> Option<NextAccess>
    requires { hart < view.now.opening.config.harts }
{
    let (address, access) = access_of(guests.op_at(place)?)?;
    let kind = access.kind();
    let walked = view.walk(hart, address, kind);
    Some(NextAccess {
        address,
        kind,
        walked,
    })
}
