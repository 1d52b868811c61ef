//! An access of a record, and what is followed for it up to its place.
use crate::cause::{AccessCause, Asks, Fencing, Finding};
use crate::entry_look::EntryLook;
use crate::fences::{Fenced, fencing_of};
use crate::possible_look::PossibleLook;
use crate::seen::Seen;
use crate::sight::{Sight, Used};
use crate::walk_look::WalkLook;
use crate::word_look::{WordLook, WordPast};
use board_core::Board;
use std::alloc::{AllocError, Global};
use tlb_watch::HartAddress;

/// What is followed for an access.
#[derive(Drop)]
enum Followed {
    /// It used this entry.
    Entry(EntryLook),
    /// It used this word.
    Word(WordLook),
    /// It used nothing stale, and may use one of these entries, or words.
    Possible(PossibleLook, Option<WordPast>),
    /// What walks for it may see.
    Walks(WalkLook),
    /// One of these entries or words or, if there is none, what walks for it may see.
    Either(PossibleLook, Option<WordPast>, WalkLook),
}

impl Followed {
    /// What is followed for an access, on a board before its first event.
    fn new(alloc: Global, board: &Board, sight: &Sight, asks: Asks) -> Followed {
        match asks {
            Asks::Held => Followed::held(alloc, board, sight),
            Asks::LenientOrHeld => Followed::lenient_or_held(alloc, board, sight),
            Asks::Firm => Followed::Walks(WalkLook::new(alloc, false)),
            Asks::Lenient => Followed::Walks(WalkLook::new(alloc, true)),
        }
    }

    /// What is followed for an access that is stale or unsteady.
    fn held(alloc: Global, board: &Board, sight: &Sight) -> Followed {
        match sight.used {
            Used::Entry {
                entry,
                filled,
                by_result,
            } => Followed::Entry(EntryLook::new(entry, filled, by_result)),
            Used::Word { word, filled } => Followed::Word(WordLook::new(word, filled)),
            Used::Nothing => Followed::Possible(
                PossibleLook::new(alloc, false),
                word_past(board, sight),
            ),
        }
    }

    /// The same for one that isn't lenient: of entries that only fault where the page tables give a leaf none counts.
    fn lenient_or_held(alloc: Global, board: &Board, sight: &Sight) -> Followed {
        match sight.used {
            Used::Entry {
                entry,
                filled,
                by_result: true,
            } if !sight.only_faults(&entry) => {
                Followed::Entry(EntryLook::new(entry, filled, true))
            }
            Used::Word { word, filled } => Followed::Word(WordLook::new(word, filled)),
            _ => Followed::Either(
                PossibleLook::new(alloc, true),
                word_past(board, sight),
                WalkLook::new(alloc, true),
            ),
        }
    }
}

/// The words that a fetch may get, on a board before its first event.
fn word_past(board: &Board, sight: &Sight) -> Option<WordPast> {
    let pa = sight.fetched?;
    Some(WordPast::new(board, sight.at.hart, pa))
}

/// An access, and what is followed for it.
#[derive(Drop)]
pub(crate) struct Look {
    sight: Sight,
    followed: Followed,
}

impl Look {
    /// The look for an access, on a board before its first event.
    pub(crate) fn new(alloc: Global, board: &Board, sight: Sight, asks: Asks) -> Look {
        let followed = Followed::new(alloc, board, &sight, asks);
        Look { sight, followed }
    }

    /// The place of the access.
    pub(crate) fn place(&self) -> usize {
        self.sight.place
    }

    /// An event was the board's last. Those behind the access don't count.
    ///
    /// # Errors
    ///
    /// Memory was refused.
    pub(crate) fn happened(
        &mut self,
        alloc: Global,
        board: &Board,
        seen: &Seen,
    ) -> Result<(), AllocError> {
        let sight = &self.sight;
        if seen.place >= sight.place || sight.at.hart >= board.config().harts {
            return Ok(());
        }
        match &mut self.followed {
            Followed::Entry(look) => {
                look.happened(sight, board, seen);
                Ok(())
            }
            Followed::Word(look) => {
                look.happened(board, seen);
                Ok(())
            }
            Followed::Possible(look, word) => {
                if let Some(word) = word {
                    word.happened(board, seen);
                }
                look.happened(alloc, sight, board, seen)
            }
            Followed::Walks(look) => look.happened(sight, board, seen),
            Followed::Either(look, word, walks) => {
                if let Some(word) = word {
                    word.happened(board, seen);
                }
                look.happened(alloc, sight, board, seen)?;
                walks.happened(sight, board, seen)
            }
        }
    }

    /// Why the access is stale, unsteady, or not firm, on the board before it, by the record's fences so far.
    ///
    /// # Errors
    ///
    /// Memory was refused.
    pub(crate) fn cause(
        &self,
        alloc: Global,
        board: &Board,
        fences: &[Fenced],
    ) -> Result<Option<AccessCause>, AllocError> {
        let Some((finding, fencing)) = self.found(alloc, board, fences)? else {
            return Ok(None);
        };
        let HartAddress { hart, address } = self.sight.at;
        let Finding {
            held,
            origin,
            changed,
        } = finding;
        Ok(Some(AccessCause {
            place: self.sight.place,
            hart,
            address,
            held,
            origin,
            changed,
            fencing,
        }))
    }

    /// What the access used, or may use, and the fence that would have ended it.
    fn found(
        &self,
        alloc: Global,
        board: &Board,
        fences: &[Fenced],
    ) -> Result<Option<(Finding, Fencing)>, AllocError> {
        if let Some(finding) = self.held(alloc, board)? {
            let fencing = fencing_of(board, self.sight.at, &finding, fences);
            return Ok(Some((finding, fencing)));
        }
        match &self.followed {
            Followed::Walks(look) | Followed::Either(_, _, look) => {
                look.found(alloc, &self.sight, board, fences)
            }
            _ => Ok(None),
        }
    }

    /// The entry or the word that the access used, or may use.
    fn held(&self, alloc: Global, board: &Board) -> Result<Option<Finding>, AllocError> {
        match &self.followed {
            Followed::Entry(look) => Ok(look.finding()),
            Followed::Word(look) => Ok(look.finding()),
            Followed::Possible(look, word) | Followed::Either(look, word, _) => {
                match look.finding(alloc, &self.sight, board.view().ram())? {
                    Some(finding) => Ok(Some(finding)),
                    None => Ok(word.and_then(|word| word.finding())),
                }
            }
            Followed::Walks(_) => Ok(None),
        }
    }
}
