//! What a condition asks, as values.
ghost use Rattle.std.specs.Prelude.{◌≡◌, MatchOption, None};
ghost use Rattle.condition_script.specs.Grammar.{ending_named, ending_word};

use crate::patterns::Pattern;

/// How a run ended, as conditions name it.
#[derive(Clone, Copy, PartialEq, Eq)]
pub enum Ending {
    /// `off`
    Off,
    /// `history-full`
    HistoryFull,
    /// `quiet`
    Quiet,
    /// `stuck`
    Stuck,
}

impl Ending {
    /// The end that a word names.
    #[tactic(auto, unfolding(crate::specs::Grammar::ending_named))]
    pub(crate) fn of(word: &[u8]) -> Option<Ending>
        ensures { MatchOption result (ending_named word.now ≡ None) (λ ending. word.now ≡ ending_word ending) }
    {
        if word == b"off".as_slice() {
            return Some(Ending::Off);
        }
        if word == b"history-full".as_slice() {
            return Some(Ending::HistoryFull);
        }
        if word == b"quiet".as_slice() {
            return Some(Ending::Quiet);
        }
        if word == b"stuck".as_slice() {
            return Some(Ending::Stuck);
        }
        None
    }
}

/// A condition on records.
#[derive(Drop)]
pub enum Rule {
    /// `never P`: P matches no step. So are `never MARK`, of any step, and `steady P`, `firm P` and `lenient P`, of the marks
    /// `unsteady`, `unfirm` and `unlenient`.
    Never(Pattern),
    /// `never P after Q`: no step that P matches comes later than one that Q matches.
    NeverAfter(Pattern, Pattern),
    /// `some P`: P matches some step.
    OfSome(Pattern),
    /// `each P`: each step whose actor and operation fit P has a reply that fits.
    Each(Pattern),
    /// `end E ..`: the run ended in one of these ways.
    End(Vec<Ending>),
    /// `before P, Q`: the first step that P matches comes before the first that Q matches, if both come.
    Before(Pattern, Pattern),
    /// `can end E ..`: from each state that an order reaches, some order ends in one of these ways. No record alone says so.
    CanEnd(Vec<Ending>),
}
