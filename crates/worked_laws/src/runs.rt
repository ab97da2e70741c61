//! That a scene has exactly one run, at two disks that meet head on.

ghost use Rattle.std.specs.Prelude.{◌≡◌, List, [], ◌∷◌};
ghost use Rattle.event_rules.specs.declared.change.Change.{Change};
ghost use Rattle.event_rules.specs.declared.outcome.Outcome.{Outcome};
ghost use Rattle.event_rules.specs.declared.outcome.Outcome.TheVariants.{Done};
ghost use Rattle.event_rules.specs.Run.{IsRun};
ghost use Rattle.worked_laws.specs.Pair.{pair_scene, the_hit, pair_end};

use event_rules::{each_scene_runs, one_run};

/// By `one_run` the two have no run but the hit at tick 3, and the end. A law of the changes alone, or of the outcome
/// alone, doesn't say it.
pub fn the_pair_has_one_run()
    ensures { (changes : List Change) (outcome : Outcome) → IsRun pair_scene changes outcome →
        (changes ≡ the_hit ∷ []) × (outcome ≡ Done pair_end) }
{
    one_run();
}

/// By `each_scene_runs` they have a run, which by the definitions can only be that one. A law that leaves out some valid
/// scenes doesn't say it.
pub fn the_pair_runs()
    ensures { IsRun pair_scene (the_hit ∷ []) (Done pair_end) }
{
    each_scene_runs();
}
