//! When disks collide, and what they do then, at two that meet head on and at one that meets a side.

ghost use Rattle.std.specs.Prelude.{◌≡◌, ℕ, ◌<◌, pos, neg_ℤ, ◌≤ℤ◌, List, ◌∷◌, Some};
ghost use Rattle.plane_vectors.specs.Vectors.{vector};
ghost use Rattle.fixed_motion.specs.declared.disk.Disk.{Disk};
ghost use Rattle.fixed_motion.specs.Motion.{velocity_of};
ghost use Rattle.event_stamps.specs.declared.Kind.TheVariants.{Wall, Pair};
ghost use Rattle.event_rules.specs.declared.change.Change.{Change};
ghost use Rattle.event_rules.specs.declared.outcome.Outcome.{Outcome};
ghost use Rattle.event_rules.specs.Run.{Runs};
ghost use Rattle.event_rules.specs.Moments.{OverlapAt};
ghost use Rattle.worked_laws.specs.Rows.{box_until, disk_at};
ghost use Rattle.worked_laws.specs.Bounce.{bounce_disks, bounce_stamp};
ghost use Rattle.worked_laws.specs.Pair.{pair_rules, pair_disks, hit_stamp};

use real_collisions::{events_are_elastic, events_are_elastic_at_the_touch, events_are_real};

/// By `events_are_real` the first collision of the two is at tick 3: in each tick before it they come no nearer than
/// 4 units, and at a later one they overlap. The disk that meets the right side does so at tick 0, as at tick 1 it would
/// be past it. A law that allows the tick before or after, or another side, doesn't say it.
pub fn events_come_when_due()
    ensures pair { (c : Change) (after : List Change) (outcome : Outcome) → Runs pair_rules pair_disks (c ∷ after) outcome →
        c.stamp.kind ≡ Pair → c.stamp.tick ≡ 3 }
    ensures side { (c : Change) (after : List Change) (outcome : Outcome) → Runs (box_until 5) bounce_disks (c ∷ after) outcome →
        c.stamp.kind ≡ Wall → (c.stamp.tick ≡ 0) × (c.stamp.second ≡ 1) }
{
    events_are_real();
}

/// By `events_are_elastic` the hit swaps the velocities (1, 0) and (-1, 0): the exact impulse on the first is (-2, 0), and
/// no other is less than a unit from it. The side turns (2, 0) to (-2, 0). A law that allows a whole unit, or rounds at
/// sides, doesn't say it.
pub fn events_turn_velocities()
    ensures pair { (c : Change) (after : List Change) (outcome : Outcome) → Runs pair_rules pair_disks (c ∷ after) outcome →
        c.stamp ≡ hit_stamp →
        (velocity_of c.first ≡ vector (neg_ℤ (pos 1)) (pos 0))
        × ((later : Disk) × (c.second ≡ Some later) × (velocity_of later ≡ vector (pos 1) (pos 0))) }
    ensures side { (c : Change) (after : List Change) (outcome : Outcome) → Runs (box_until 5) bounce_disks (c ∷ after) outcome →
        c.stamp ≡ bounce_stamp → velocity_of c.first ≡ vector (neg_ℤ (pos 2)) (pos 0) }
{
    events_are_elastic();
}

/// By `events_are_elastic_at_the_touch` the impulse on the first disk is at most 1 + 4 / 4 = 2 from (-2, 0), as u² is 4
/// and D is 4, so the disk goes on at -3 to 1; and about the middle between the two the impulse turns less than 4, so it
/// has no component upwards. They touch at tick 3 itself: however fine the tick is parted, they overlap one part later. A
/// law with a wider bound, one that lets an impulse turn 4, or one that leaves open when in the tick they touch, doesn't
/// say it.
pub fn the_touch_is_at_tick_three()
    ensures impulse { (c : Change) (after : List Change) (outcome : Outcome) → Runs pair_rules pair_disks (c ∷ after) outcome →
        c.stamp ≡ hit_stamp → (neg_ℤ (pos 3) ≤ℤ c.first.vx) × (c.first.vx ≤ℤ pos 1) × (c.first.vy ≡ pos 0) }
    ensures touch { (c : Change) (after : List Change) (outcome : Outcome) → Runs pair_rules pair_disks (c ∷ after) outcome →
        c.stamp ≡ hit_stamp → (most : ℕ) → (whole : ℕ) × (most < whole)
        × OverlapAt (record { tick = 3; part = 1; whole = whole }) (disk_at (pos 10) (pos 1) 0 0) (disk_at (pos 20) (neg_ℤ (pos 1)) 0 0) }
{
    events_are_elastic_at_the_touch();
}
