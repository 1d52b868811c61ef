//! Laws about the number of serves that a fence call still needs.
ghost use Rattle.rfence.specs.Need.{NeedsAreBounded, NeedsAreLeft, NoneRaisesNeeds, ServedCallsCanEnd, ServesLowerNeeds};

/// While a fence call needs serves of a hart, that hart can serve, and each of its serves lowers the need by exactly
/// one (profile). A law: there is nothing to run.
pub fn serves_lower_needs<F>()
    ensures { ServesLowerNeeds F }
{}

/// No turn raises the need of an open fence call (profile). A law: there is nothing to run.
pub fn none_raises_needs<F>()
    ensures { NoneRaisesNeeds F }
{}

/// On a board of n harts a fence call needs at most n - 1 serves of each hart, and at most (n - 1) * (n - 1) in all. It
/// needs none of its own hart, and none of a hart that doesn't exist (profile). A law: there is nothing to run.
pub fn needs_are_bounded<F>()
    ensures { NeedsAreBounded F }
{}

/// While a fence call is open, without a poll or a reset since, its need of a hart is the earlier need less the hart's
/// serves since, or 0 if the hart has stopped since (profile). A law: there is nothing to run.
pub fn needs_are_left<F>()
    ensures { NeedsAreLeft F }
{}

/// Once each hart has served as often as a fence call needed, or has stopped, the call waits for no hart, and its poll
/// can end it (profile). A law: there is nothing to run.
pub fn served_calls_can_end<F>()
    ensures { ServedCallsCanEnd F }
{}
