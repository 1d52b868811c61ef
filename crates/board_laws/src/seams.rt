//! Laws about cuts of the history.
ghost use Rattle.std.specs.Prelude.{List, ◌∷◌, ◌++◌};
ghost use Rattle.board_core.specs.Cuts.{IsOpened};
ghost use Rattle.board_core.specs.Opening.{Opening};
ghost use Rattle.board_core.specs.History.{Event};
ghost use Rattle.board_core.specs.Replies.{IsLegal};
ghost use Rattle.board_laws.specs.Seams.{AreLegal, AreOne, IsSeamless};

/// A cut changes no later answer (profile). However often a history was cut, the newest part, on the opening that the
/// others left, gives the same look-ups, totals and answers as the joined history on the first opening, except for a
/// full history; and both leave the same opening. Wherever a legal history is parted in two, the newer events are a
/// legal history on the opening that the older ones leave, and give the same as all events together.
pub fn cuts_are_never_seen()
    ensures joined { (o : Opening) (newer : List Event) (parts : List (List Event))
        → IsOpened o
        → AreLegal o (newer ∷ parts)
        → AreOne o newer parts }
    ensures parted { (o : Opening) (newer older : List Event)
        → IsOpened o
        → IsLegal o (newer ++ older)
        → IsSeamless o newer older }
{}
