//! Stale accesses: those that used a translation or a word that a walk, or memory, no longer gives.
use board_core::{Actor, Board, Cause, Event, Kind, Leaf, Op, Reply};
use board_rules::access_of;
use test_report::Stale;

/// What a walk would give for an access, on the board before it.
#[derive(Clone, Copy)]
pub(crate) struct Expected {
    kind: Kind,
    walked: Result<Leaf, Cause>,
}

impl Expected {
    /// What a walk gives an existing hart, if the step is an access.
    pub(crate) fn of(board: &Board, actor: Actor, op: Op) -> Option<Expected> {
        let Actor::Hart(h) = actor else {
            return None;
        };
        let (va, access) = access_of(op)?;
        if h >= board.config().harts {
            return None;
        }
        let kind = access.kind();
        let walked = board.walk(h, va, kind);
        Some(Expected { kind, walked })
    }

    /// What the access used that is stale, after it was made.
    pub(crate) fn stale(&self, board: &Board, event: &Event) -> Option<Stale> {
        let used = event.translation();
        if let Some(entry) = &used
            && self.is_other(&entry.leaf())
        {
            return Some(Stale::Translation);
        }
        let (Op::Fetch(va), Reply::Value(word)) = (event.op(), event.reply()) else {
            return None;
        };
        let at = match &used {
            Some(entry) => entry.pa().wrapping_add(va.wrapping_sub(entry.page())),
            None => va,
        };
        if board.word(at) == Some(word) {
            None
        } else {
            Some(Stale::Word)
        }
    }

    /// Whether a walk gave another leaf. If the leaf lacks the right, the access fails, and so does the walk.
    fn is_other(&self, leaf: &Leaf) -> bool {
        match self.walked {
            Ok(walked) => walked != *leaf,
            Err(_) => leaf.allows(self.kind),
        }
    }
}
