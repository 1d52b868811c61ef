//! What conditions say of an access beside its reply.
ghost use Rattle.std.specs.Prelude.{◌≡◌, MatchOption, None};
ghost use Rattle.condition_script.specs.Grammar.{mark_name, mark_named};

/// What a condition says of an access beside its reply, by a word in the place of a reply.
#[derive(Clone, Copy, PartialEq, Eq)]
pub enum Mark {
    /// `stale`: the entry that the access used gave it another physical address, or another fault, than the page tables.
    Stale,
    /// `missed`: a fence call that covers the access succeeded, and the page tables haven't given what its entry gave since the call.
    Missed,
    /// `unsteady`: what the access gets depends on what a TLB or an instruction cache holds.
    Unsteady,
    /// `unfirm`: the same, where a TLB may also keep pointers and invalid entries.
    Unfirm,
    /// `unlenient`: the same, aside from a page fault where the page tables give a leaf.
    Unlenient,
}

impl Mark {
    /// The mark that a word names.
    #[tactic(auto, unfolding(crate::specs::Grammar::mark_named))]
    pub(crate) fn of(word: &[u8]) -> Option<Mark>
        ensures { MatchOption result (mark_named word.now ≡ None) (λ mark. word.now ≡ mark_name mark) }
    {
        match word {
            b"stale" => Some(Mark::Stale),
            b"missed" => Some(Mark::Missed),
            b"unsteady" => Some(Mark::Unsteady),
            b"unfirm" => Some(Mark::Unfirm),
            b"unlenient" => Some(Mark::Unlenient),
            _ => None,
        }
    }

    /// The word that names the mark.
    pub fn word(self) -> &'static [u8]
        ensures { result.now ≡ mark_name self }
    {
        match self {
            Mark::Stale => b"stale",
            Mark::Missed => b"missed",
            Mark::Unsteady => b"unsteady",
            Mark::Unfirm => b"unfirm",
            Mark::Unlenient => b"unlenient",
        }
    }
}
