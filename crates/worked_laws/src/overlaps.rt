//! That no two disks overlap, at two that meet head on.

ghost use Rattle.std.specs.Prelude.{pos, List, []};
ghost use Rattle.plane_vectors.specs.Vectors.{vector};
ghost use Rattle.fixed_motion.specs.Motion.{Overlaps};
ghost use Rattle.event_rules.specs.declared.outcome.Spot.{Spot};
ghost use Rattle.event_rules.specs.declared.outcome.Outcome.TheVariants.{Done};
ghost use Rattle.event_rules.specs.Run.{IsRun};
ghost use Rattle.worked_laws.specs.Rows.{FitTogether, meeting, scene_until};
ghost use Rattle.worked_laws.specs.Pair.{pair_disks, pair_scene};

use event_rules::{never_overlaps, never_overlaps_between};

/// By `never_overlaps` the two fit together at tick 3, where they touch, and at tick 5, the last. Nor can they pass
/// through each other: without an event they would be at x = 14 and 16 at tick 4. A law for a lesser distance, or for
/// ticks before the last alone, doesn't say it.
pub fn the_pair_never_overlaps()
    ensures touching { FitTogether (vector (pos 13) (pos 10)) (vector (pos 17) (pos 10)) }
    ensures last { FitTogether (vector (pos 11) (pos 10)) (vector (pos 19) (pos 10)) }
    ensures passing { (spots : List Spot) → ¬ IsRun (scene_until 4 pair_disks) [] (Done spots) }
{
    never_overlaps();
}

/// By `never_overlaps_between` they don't overlap where tick 2 ends, nor half a tick after tick 3; lengths are in half
/// units here. Two disks at the speed 8 can't change places within tick 0, of which half a tick sees them at x = 14 and
/// 16. A law of whole ticks, or for a lesser distance, doesn't say it.
pub fn the_pair_never_overlaps_between()
    ensures touching { ¬ Overlaps (pos 8) (vector (pos 26) (pos 20)) (vector (pos 34) (pos 20)) }
    ensures receding { ¬ Overlaps (pos 8) (vector (pos 25) (pos 20)) (vector (pos 35) (pos 20)) }
    ensures passing { (spots : List Spot) → ¬ IsRun (scene_until 1 (meeting (pos 8))) [] (Done spots) }
{
    never_overlaps_between();
}
