//! Laws about the number of serves that fence calls need.
ghost use Rattle.std.specs.Prelude.{◌≡◌, ℕ, ◌≤◌, ◌<◌, List, ◌∷◌, ◌++◌, length, true, is_some, suc};
ghost use Rattle.board_core.specs.Cuts.{IsOpened};
ghost use Rattle.board_core.specs.Opening.{Opening};
ghost use Rattle.board_core.specs.Fences.{outstanding};
ghost use Rattle.board_core.specs.History.{Event};
ghost use Rattle.board_terms.specs.Limits.{IsGood};
ghost use Rattle.board_core.specs.Need.{need};
ghost use Rattle.board_core.specs.Replies.{IsLegal};
ghost use Rattle.board_core.specs.Serves.{AreFew, CanEnd, GoesOn, HaveServed, IsLeft, ServeIsAccepted, serves};

/// In every legal history on an opening of a board, also after cuts: while a fence call needs serves of a hart, a serve
/// by that hart is accepted, unless the history is full (profile).
pub fn needed_serves_are_accepted()
    ensures { (o : Opening) (past : List Event) (h t : ℕ)
        → IsOpened o
        → IsLegal o past
        → 0 < need o past h t
        → ServeIsAccepted o past t }
{}

/// In every legal history of a board with numbers within the limits, each serve by a hart lowers the need of each fence
/// call that needs the hart by exactly one (profile).
pub fn serves_lower_needs()
    ensures { (o : Opening) (event : Event) (past : List Event) (h t : ℕ)
        → IsGood o.config
        → IsLegal o (event ∷ past)
        → serves t event ≡ true
        → 0 < need o past h t
        → suc (need o (event ∷ past) h t) ≡ need o past h t }
{}

/// In every such history, no step raises the need of an open fence call (profile).
pub fn no_step_raises_needs()
    ensures { (o : Opening) (event : Event) (past : List Event) (h t : ℕ)
        → IsGood o.config
        → IsLegal o (event ∷ past)
        → is_some (outstanding o past h) ≡ true
        → need o (event ∷ past) h t ≤ need o past h t }
{}

/// In every such history of a board of N harts, a fence call needs at most N - 1 serves of each hart, and at most (N -
/// 1) * (N - 1) in all (profile).
pub fn needs_are_few()
    ensures { (o : Opening) (past : List Event) (h : ℕ) → IsGood o.config → IsLegal o past → AreFew o past h }
{}

/// While such a history continues without a reset and without a poll by the caller, a fence call's need of a hart is
/// the earlier need less the hart's serves since, or 0 if the hart has stopped since (profile).
pub fn needs_are_left()
    ensures { (o : Opening) (newer past : List Event) (h t : ℕ)
        → IsGood o.config
        → GoesOn o newer past h
        → IsLeft o newer past h t }
{}

/// Once each hart has served as often as a fence call needed, or has stopped, without a reset and without a poll by the
/// caller, the call waits for no hart. Its poll then returns success, if the history has room. This holds on every
/// opening of a board, also after cuts (SBI 8; that a call waits: profile).
pub fn served_calls_can_end()
    ensures { (o : Opening) (newer past : List Event) (h : ℕ)
        → IsOpened o
        → GoesOn o newer past h
        → length (newer ++ past) < o.config.limit
        → HaveServed o newer past h
        → CanEnd o (newer ++ past) h }
{}
