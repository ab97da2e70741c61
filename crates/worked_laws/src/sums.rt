//! What the sums of runs say, at two that meet aslant, of which one then meets the bottom.

ghost use Rattle.std.specs.Prelude.{◌≡◌, ℕ, ◌+◌, ◌<◌, ◌^◌, pos, neg_ℤ, List, ◌∷◌, Some};
ghost use Rattle.plane_vectors.specs.Vectors.{vector};
ghost use Rattle.fixed_motion.specs.declared.disk.Disk.{Disk};
ghost use Rattle.event_rules.specs.declared.change.Change.{Change};
ghost use Rattle.event_rules.specs.declared.outcome.Spot.{Spot};
ghost use Rattle.event_rules.specs.declared.outcome.Outcome.{Outcome};
ghost use Rattle.event_rules.specs.declared.outcome.Outcome.TheVariants.{Done};
ghost use Rattle.event_rules.specs.Run.{IsRun, Runs, spots_of, state_at};
ghost use Rattle.event_rules.specs.Conservation.{total_of, spot_velocity};
ghost use Rattle.resume.specs.Parts.{before_scene, rest_scene};
ghost use Rattle.collision_sums.specs.Sums.{disks_in, squares_in, virial_of};
ghost use Rattle.sampled_laws.specs.Laws.{sums_of_run};
ghost use Rattle.sampled_laws.specs.Virial.{outward, pushed_from_places, IsWithinAbove};
ghost use Rattle.sampled_laws.specs.InParts.{together};
ghost use Rattle.worked_laws.specs.Pair.{pair_rules};
ghost use Rattle.worked_laws.specs.Glance.{glance_disks, glance_scene, glance_stamp, glance_changes, glance_end, glance_sums};

use sampled_laws::{
    sides_take_momentum, sides_tell_the_virial, squares_are_energy, sums_never_stop,
    sums_of_parts_add_up, virial_theorem, virials_are_pushes,
};

/// By `virial_theorem` the sum of r · v, 20 at the start, is 38 at tick 3, with 12 flown and the virial 6; at the end it is
/// 50, with 20 flown and 4 that the bottom turned. A law without one of these doesn't say it.
pub fn the_virial_of_the_glance()
    ensures tick { outward (spots_of 3 (state_at glance_disks glance_changes 3)) ≡ pos 38 }
    ensures end { (changes : List Change) (spots : List Spot) → IsRun glance_scene changes (Done spots) → outward spots ≡ pos 50 }
{
    virial_theorem();
}

/// By `sides_tell_the_virial` the bottom's 2, times its place for such a disk, is -4 = 20 + 6 + 20 - 50 or up to 16 more. A law
/// with the diameter for the radius, or without the virial, doesn't say it.
pub fn the_bottom_tells_the_virial()
    ensures { (changes : List Change) (spots : List Spot) → IsRun glance_scene changes (Done spots) →
        IsWithinAbove (neg_ℤ (pos 4)) 16 (pushed_from_places pair_rules (pos 2) (sums_of_run 0 glance_scene changes)) }
{
    sides_tell_the_virial();
}

/// By `sums_of_parts_add_up` a cut at tick 3 parts the sums: those up to there and those of the rest add up to one pair with
/// the virial 6, and one disk at the bottom, which took 2. A law of the first part alone, or of one margin, doesn't say it.
pub fn the_parts_of_the_glance_add_up()
    ensures { (first : List Change) (more : List Change) (spots : List Spot) (outcome : Outcome) →
        IsRun (before_scene glance_scene 3) first (Done spots) → IsRun (rest_scene glance_scene 3 spots) more outcome →
        together (sums_of_run 0 (before_scene glance_scene 3) first) (sums_of_run 0 (rest_scene glance_scene 3 spots) more) ≡ glance_sums }
{
    sums_of_parts_add_up();
}

/// By `squares_are_energy` the sum of squared speeds at tick 3 and at the end is 4, of two disks, as two components of each
/// are 1. A law that leaves out the end, or a disk, doesn't say it.
pub fn the_squares_of_the_glance()
    ensures tick { (disks_in pair_rules 0 (spots_of 3 (state_at glance_disks glance_changes 3)) ≡ 2)
        × (squares_in pair_rules 0 (spots_of 3 (state_at glance_disks glance_changes 3)) ≡ 4) }
    ensures end { (disks_in pair_rules 0 glance_end ≡ 2) × (squares_in pair_rules 0 glance_end ≡ 4) }
{
    squares_are_energy();
}

/// By `sides_take_momentum` the sum of velocities, (2, 0) at the start, is (2, 2) at the end, as the bottom took 2. A law
/// that takes a bottom for a top doesn't say it.
pub fn the_bottom_takes_momentum()
    ensures { (changes : List Change) (spots : List Spot) → IsRun glance_scene changes (Done spots) →
        total_of spot_velocity spots ≡ vector (pos 2) (pos 2) }
{
    sides_take_momentum();
}

/// By `virials_are_pushes` the hit adds r · J = 6 to the virial, with r = (-3, 3) and J = (-1, 1). A law with r of another
/// tick, or the other impulse, doesn't say it.
pub fn the_push_of_the_glance()
    ensures { (c : Change) (later : Disk) (after : List Change) (outcome : Outcome) → Runs pair_rules glance_disks (c ∷ after) outcome →
        c.stamp ≡ glance_stamp → c.second ≡ Some later → virial_of (vector (pos 2) (pos 0)) c.first later ≡ 6 }
{
    virials_are_pushes();
}

/// By `sums_never_stop` the virial of each run of the two, 5 units from the sides, is below 2^124. A law of the whole box
/// alone doesn't say it.
pub fn the_sums_of_the_glance_never_stop()
    ensures { (changes : List Change) (outcome : Outcome) → IsRun glance_scene changes outcome →
        (sums_of_run 5 glance_scene changes).virial < 2 ^ 124 }
{
    sums_never_stop();
}
