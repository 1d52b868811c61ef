//! Watched lists over cuts of the history.
ghost use Rattle.std.specs.Prelude.{◌≡◌, ℕ, ◌<◌, List, ◌∷◌, ◌++◌};
ghost use Rattle.board_core.specs.Cuts.{IsOpened, opening_of};
ghost use Rattle.board_core.specs.History.{Event};
ghost use Rattle.board_core.specs.Opening.{Opening};
ghost use Rattle.board_core.specs.Replies.{IsLegal};
ghost use Rattle.board_laws.specs.Seams.{AreLegal, joined, left_by};
ghost use Rattle.any_tlb.specs.Carried.{watched_from, watched_words_from};
ghost use Rattle.any_tlb.specs.Effects.{effect_at};
ghost use Rattle.any_tlb.specs.Watch.{walks_of, watched};
ghost use Rattle.any_tlb.specs.WatchedWords.{watched_words};

/// Wherever a legal history is cut, an event does the same to the caches of each hart, whatever they keep.
pub fn effects_go_on_over_cuts()
    ensures { (o : Opening) (newer older : List Event) (event : Event) (h : ℕ)
        → IsOpened o
        → IsLegal o (newer ++ older)
        → effect_at (opening_of o older) newer event h ≡ effect_at o (newer ++ older) event h }
{}

/// Wherever a legal history is cut, the watched entries continue: from those of the older events, and from the log of
/// their walks, the newer events give the list that all events give without the cut. So it decides which accesses are
/// steady by the whole history.
pub fn watched_go_on_over_cuts()
    ensures { (o : Opening) (newer older : List Event) (h va : ℕ)
        → IsOpened o
        → IsLegal o (newer ++ older)
        → h < o.config.harts
        → watched_from (watched o older h va) (walks_of o older h) (opening_of o older) newer h va
        ≡ watched o (newer ++ older) h va }
{}

/// The same of watched words.
pub fn watched_words_go_on_over_cuts()
    ensures { (o : Opening) (newer older : List Event) (h pa : ℕ)
        → IsOpened o
        → IsLegal o (newer ++ older)
        → watched_words_from (watched_words o older h pa) (opening_of o older) newer h pa
        ≡ watched_words o (newer ++ older) h pa }
{}

/// The same of any number of cuts, if each part is legal within the limit: after the newest part, the watched entries
/// carried over all cuts are those of the whole history from the first opening on.
pub fn watched_go_on_over_many_cuts()
    ensures { (o : Opening) (newer : List Event) (parts : List (List Event)) (h va : ℕ)
        → IsOpened o
        → AreLegal o (newer ∷ parts)
        → h < o.config.harts
        → watched_from (watched o (joined parts) h va) (walks_of o (joined parts) h) (left_by o parts) newer h va
        ≡ watched o (newer ++ joined parts) h va }
{}

/// The same of watched words, and any number of cuts.
pub fn watched_words_go_on_over_many_cuts()
    ensures { (o : Opening) (newer : List Event) (parts : List (List Event)) (h pa : ℕ)
        → IsOpened o
        → AreLegal o (newer ∷ parts)
        → watched_words_from (watched_words o (joined parts) h pa) (left_by o parts) newer h pa
        ≡ watched_words o (newer ++ joined parts) h pa }
{}
