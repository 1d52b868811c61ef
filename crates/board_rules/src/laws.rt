//! Laws of legal histories. There is nothing to run.
ghost use Rattle.std.specs.Prelude.{◌≡◌, List, ◌∷◌, true};
ghost use Rattle.board_rules.specs.Cuts.{IsHeld, IsUnseen, opening_of};
ghost use Rattle.board_rules.specs.ErrorLaw.{LooksSame, is_error};
ghost use Rattle.board_rules.specs.History.{Event};
ghost use Rattle.board_rules.specs.Opening.{IsOpening, Opening};
ghost use Rattle.board_rules.specs.Replies.{IsLegal};
ghost use Rattle.board_rules.specs.Starts.{StartsAreEntered};

/// The opening that a history leaves is one that a board can have. A law: there is nothing to run.
pub fn cuts_open_boards()
    ensures { (o : Opening) (past : List Event) → IsHeld o past → IsOpening (opening_of o past) }
{}

/// A cut isn't visible. On the opening that a history leaves, each look-up gives what it gave on the history, and each
/// step gets the same answer, except that the history has room again (profile). A law: there is nothing to run.
pub fn cuts_are_not_seen()
    ensures { (o : Opening) (past : List Event) → IsHeld o past → IsUnseen o past }
{}

/// In every legal history the starts of a hart are its entries followed by its pending start. Each start is entered
/// with its own address and opaque value (SBI 9.1). A law: there is nothing to run.
pub fn starts_are_entered()
    ensures { (o : Opening) (past : List Event) → IsLegal o past → StartsAreEntered o past }
{}

/// In every legal history an event whose reply is an SBI error changes nothing: each look-up gives what it gave before
/// (profile). A law: there is nothing to run.
pub fn errors_change_nothing()
    ensures { (o : Opening) (event : Event) (past : List Event) →
        IsLegal o (event ∷ past) → is_error event.reply ≡ true → LooksSame o past (event ∷ past) }
{}
