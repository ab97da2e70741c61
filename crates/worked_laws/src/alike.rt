//! Runs that are alike, at two disks that meet head on or aslant.

ghost use Rattle.std.specs.Prelude.{◌≡◌, pos, neg_ℤ, List, [], ◌∷◌, length, slice_get, Some};
ghost use Rattle.event_rules.specs.declared.change.Change.{Change};
ghost use Rattle.event_rules.specs.declared.outcome.Spot.{Spot};
ghost use Rattle.event_rules.specs.declared.outcome.Outcome.{Outcome};
ghost use Rattle.event_rules.specs.declared.outcome.Outcome.TheVariants.{Done};
ghost use Rattle.event_rules.specs.Run.{IsRun, Runs, Steps, effect, state_at};
ghost use Rattle.alike_runs.specs.Limits.{with_limits};
ghost use Rattle.alike_runs.specs.Groups.{HitsNoOther, group_changes};
ghost use Rattle.alike_runs.specs.Bystander.{MeetsNone, IsNotEndedBy, changes_without, outcome_without};
ghost use Rattle.alike_runs.specs.Exchanged.{exchanged_rules};
ghost use Rattle.worked_laws.specs.Rows.{disk_at, spot_at, scene_until};
ghost use Rattle.worked_laws.specs.Pair.{pair_rules, pair_disks, the_hit, pair_end};
ghost use Rattle.worked_laws.specs.Others.{exchanged_disks, three_disks, hit_beside, three_end, is_of_pair, one_less, far_disks, is_of_left};
ghost use Rattle.worked_laws.specs.Glance.{upright_disks, upright_glance, upright_landing, upright_end};

use alike_runs::{
    bystanders_dont_matter, far_groups_hit_no_other, groups_run_alone, limits_only_end,
    renumbered_runs_go_alike, runs_exchange,
};

/// By `limits_only_end` the run is the same with a speed limit of 100 in place of 8, and the same round limit. A law that
/// asks for two greater limits, or that is of beginnings alone, doesn't say it.
pub fn greater_limits_change_nothing()
    ensures run { Runs (with_limits pair_rules (pos 100) 8) pair_disks (the_hit ∷ []) (Done pair_end) }
    ensures beginning { Steps (with_limits pair_rules (pos 100) 8) pair_disks (the_hit ∷ []) (effect pair_disks the_hit) }
{
    limits_only_end();
}

/// By `groups_run_alone` the two do the same beside a disk that stands and that they don't hit: of its events and theirs,
/// theirs are the hit, and they end where they end alone. The three have such a run. A law of the events alone, or of the
/// spots alone, doesn't say it.
pub fn the_pair_runs_alone()
    ensures beside { Runs pair_rules three_disks (hit_beside ∷ []) (Done three_end) × HitsNoOther is_of_pair (hit_beside ∷ []) }
    ensures alone { (changes : List Change) (spots : List Spot) → Runs pair_rules three_disks changes (Done spots) →
        HitsNoOther is_of_pair changes →
        (group_changes is_of_pair one_less changes ≡ the_hit ∷ [])
        × (slice_get spots 1 ≡ Some (spot_at (pos 11) (neg_ℤ (pos 1)))) × (slice_get spots 2 ≡ Some (spot_at (pos 19) (pos 1))) }
{
    groups_run_alone();
}

/// By `renumbered_runs_go_alike` the two do the same with their numbers exchanged: one event, after which the disk at the
/// right, now number 0, is at x = 17 with the velocity 1, and in the end at x = 19. A law of the ends alone, or of the
/// states alone, doesn't say it.
pub fn the_exchanged_pair_runs_alike()
    ensures { (others : List Change) (outcome : Outcome) → Runs pair_rules exchanged_disks others outcome →
        (length others ≡ 1)
        × (slice_get (state_at exchanged_disks others 4) 0 ≡ Some (disk_at (pos 17) (pos 1) 3 1))
        × ((spots : List Spot) × (outcome ≡ Done spots)
        × (slice_get spots 0 ≡ Some (spot_at (pos 19) (pos 1))) × (slice_get spots 1 ≡ Some (spot_at (pos 11) (neg_ℤ (pos 1))))) }
{
    renumbered_runs_go_alike();
}

/// By `bystanders_dont_matter` the two go on alike if the disk that stands beside them, which they don't hit, is left out:
/// the hit has their own numbers then. A law that keeps the numbers, or that is of the changes alone, doesn't say it.
pub fn the_standing_disk_doesnt_matter()
    ensures { (changes : List Change) (outcome : Outcome) → Runs pair_rules three_disks changes outcome →
        MeetsNone 0 changes → IsNotEndedBy 0 outcome →
        (changes_without 0 changes ≡ the_hit ∷ []) × (outcome_without 0 outcome ≡ Done pair_end) }
{
    bystanders_dont_matter();
}

/// By `far_groups_hit_no_other` two disks that start 20 = 4 + 2 · 8 · 1 units apart don't hit each other before tick 1. A law
/// that asks for more doesn't say it.
pub fn far_disks_dont_meet()
    ensures { (changes : List Change) (outcome : Outcome) → IsRun (scene_until 1 far_disks) changes outcome →
        HitsNoOther is_of_left changes }
{
    far_groups_hit_no_other();
}

/// By `runs_exchange` two that meet aslant do the same with x and y exchanged, and the box upright: the second meets the left
/// side in place of the bottom. A law of heads on alone, or with another side, doesn't say it.
pub fn the_exchanged_glance_runs()
    ensures { Runs (exchanged_rules pair_rules) upright_disks (upright_glance ∷ upright_landing ∷ []) (Done upright_end) }
{
    runs_exchange();
}
