//! Laws about fences and cuts of the history.
ghost use Rattle.rfence.specs.Cuts.{BeginsRight, CutsAreSeamless, KeptIsTheOpening, StandsAfterACut};

/// A board of at most 128 harts can open with no waiting fence and no open call (profile). A law: there is nothing to
/// run.
pub fn begins_right<F>()
    ensures { BeginsRight F }
{}

/// The stored state of the fences is the opening for the turns to come: each waiting fence with the place of its turn,
/// each open call with its place, its harts and its fence, and the counts (profile). A law: there is nothing to run.
pub fn kept_is_the_opening<F>()
    ensures { KeptIsTheOpening F }
{}

/// The stored state of the fences stands for the opening that the turns so far leave (profile). A law: there is nothing
/// to run.
pub fn stands_after_a_cut<F>()
    ensures { StandsAfterACut F }
{}

/// A cut is seamless: the newer turns, from the opening that the older turns leave, give the same waiting fences, open
/// calls and counts as all turns together (profile). A law: there is nothing to run.
pub fn cuts_are_seamless<F>()
    ensures { CutsAreSeamless F }
{}
