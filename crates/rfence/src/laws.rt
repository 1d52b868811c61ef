//! Laws of fences, for all sequences of possible turns.
ghost use Rattle.rfence.specs.Laws.{AppliedIsCounted, AppliedOnce, BoardsAreSmall, CountsAgree, OpenedOnce, OthersChangeNothing, SuccessStrikes, TurnsComeLater, WaitsAreOfOpenCalls};

/// The fences that wait at a hart come from distinct other harts, each inside the call by which it asked. So fewer wait
/// at a hart than there are harts (profile). A law: there is nothing to run.
pub fn waits_are_of_open_calls<F>()
    ensures { WaitsAreOfOpenCalls F }
{}

/// Each fence that is asked of a hart, by itself or by another hart, was applied there once, or waits there once. A
/// law: there is nothing to run.
pub fn applied_once<F>()
    ensures { AppliedOnce F }
{}

/// Each fence that a call open at the opening asked of a hart was applied there once, before the opening or since, or
/// waits there once. A law: there is nothing to run.
pub fn opened_once<F>()
    ensures { OpenedOnce F }
{}

/// If a hart asked a fence and polled later, its call succeeded: at each hart that it asked, the fence was applied or
/// the caches were emptied, at the ask or later (SBI 8). A law: there is nothing to run.
pub fn success_strikes<F>()
    ensures { SuccessStrikes F }
{}

/// The harts that a call waits for are the set that is stored. At most 128 fences were asked, and at most 128 applied,
/// for each turn so far (profile). A law: there is nothing to run.
pub fn boards_are_small<F>()
    ensures { BoardsAreSmall F }
{}

/// The fences asked are as many as those applied and those that wait, at all harts together. Local fences don't count
/// (profile). A law: there is nothing to run.
pub fn counts_agree<F>()
    ensures { CountsAgree F }
{}

/// The count of applied fences is the opening's count plus the fences of calls applied since, at all harts together.
/// Local fences don't count (profile). A law: there is nothing to run.
pub fn applied_is_counted<F>()
    ensures { AppliedIsCounted F }
{}

/// A local fence, and a turn that concerns no fence, don't change the stored state. A law: there is nothing to run.
pub fn others_change_nothing<F>()
    ensures { OthersChangeNothing F }
{}

/// The next turn has a later place than each open call, so a hart can ask by it (profile). A law: there is nothing to
/// run.
pub fn turns_come_later<F>()
    ensures { TurnsComeLater F }
{}
