//! Rooms: they tie a board, its seats, its receipts and its record together.
ghost use Rattle.std.specs.Prelude.{◌≡◌};

use board_core::{Config, Event};
use ghost_log::Log;
use std::marker::{Brand, Model};
use std::sync::ledger::{Blank, Ledger};

/// The board that a seat, a receipt and a record belong to, as a type that exists only in proofs. What belongs to one
/// room doesn't type-check with another.
pub trait Room: Ledger {
    ghost use Rattle.std.specs.Prelude.{ℕ};
    ghost use Rattle.board_core.specs.Opening.{Opening};

    // The opening of the board: the first, or that of a cut.
    ghost opening: { Opening };
    // The name of the log of its events.
    ghost log: { ℕ };
    // The number of its seats.
    ghost all: { ℕ };
}

impl Room for Brand {
    ghost use Rattle.board_core.specs.Opening.{opening_at};

    ghost opening = { opening_at (record {
      harts = 0;
      pages = 0;
      limit = 0;
      boot_hart = 0;
      boot_addr = 0;
      boot_opaque = 0;
      asid_len = 0;
      width = 0;
    }) };

    ghost log = { 0 };

    ghost all = { 0 };
}

/// A new room, for a board that isn't behind a lock yet.
#[derive(Drop)]
pub struct NewRoom {
    pub(crate) config: Config,
    pub(crate) ledger: Blank,
    pub(crate) log: Log<Event>,
}

impl Model for NewRoom {
    ghost use Rattle.std.specs.Prelude.{◌≡◌, ◌+◌, []};
    ghost use Rattle.board_terms.specs.Limits.{IsGood};
    ghost use Rattle.board_lock.specs.Rooms.{RoomNames};

    ghost Value = { RoomNames };

    ghost view = { λ r. record {
      config = r.config;
      ledger = r.ledger.name;
      parts = r.ledger.parts;
      log = r.log.name;
    } };

    ghost invariant = { λ r. (r.log.list ≡ []) × (IsGood r.config → r.ledger.parts ≡ r.config.harts + 1) };
}

impl NewRoom {
    /// A room for a board with these numbers.
    pub fn new(config: &Config) -> NewRoom
        ensures { result.config ≡ config.now }
    {
        NewRoom {
            config: *config,
            ledger: Blank::new(config.harts.saturating_add(1)),
            log: Log::new(),
        }
    }
}
