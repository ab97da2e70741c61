//! Laws of runs over regions, for those who read the definitions alone.

ghost use Rattle.run_core.specs.Laws.{HearingsKeepBounds, PassesEnd, PassesEndInAgreement, AdvancesEnd, FewAdvances, LimitsEndTheRun, AdvancesStayAtFloors};
ghost use Rattle.run_core.specs.Interleavings.{PlayedStand, InterleavingsTellTheRun};

/// Regions that stand on a state go on standing on it whatever they hear from each other, and each of their bounds
/// stays a bound: so hearing never lowers the commit horizon.
pub fn hearings_keep_bounds()
    ensures { HearingsKeepBounds }
{}

/// Passes of hearings, up to the first that rewinds none, end: each pass that rewinds takes an entry away.
pub fn passes_end()
    ensures { PassesEnd }
{}

/// After them each region has heard from each linked one exactly what that one sent.
pub fn passes_end_in_agreement()
    ensures { PassesEndInAgreement }
{}

/// Each advance that isn't the last comes nearer to the end, so a run ends after some of them.
pub fn advances_end()
    ensures { AdvancesEnd }
{}

/// A run takes at most one advance more than it has actions, crossings among them, whatever the regions did before each.
pub fn few_advances()
    ensures { FewAdvances }
{}

/// The limit that an advance answers is the one at which the cell run ends, right after the actions that it committed.
/// It is never one that a region met only on its own way.
pub fn limits_end_the_run()
    ensures { LimitsEndTheRun }
{}

/// An advance from a state whose floor comes after its last action leads to such a state of the same run. So regions
/// that stand are told by the floor alone to stand on the same state.
pub fn advances_stay_at_floors()
    ensures { AdvancesStayAtFloors }
{}

/// Each interleaving of steps and hearings tells the run. Regions that stand on a state may make the calls of any list, in
/// its order, and stand on it then. Whatever lists they play before each advance, the collisions that are final are the
/// first of the scene's run, and at the end they are that run, with its outcome.
pub fn interleavings_tell_the_run()
    ensures stand { PlayedStand }
    ensures run { InterleavingsTellTheRun }
{}
