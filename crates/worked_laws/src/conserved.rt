//! What runs conserve, at two disks that meet head on and at one that meets a side.

ghost use Rattle.std.specs.Prelude.{◌≡◌, ◌+◌, ◌≤◌, pos, neg_ℤ, List, [], ◌∷◌};
ghost use Rattle.plane_vectors.specs.Vectors.{vector};
ghost use Rattle.fixed_motion.specs.declared.disk.Disk.{Disk};
ghost use Rattle.event_rules.specs.declared.change.Change.{Change};
ghost use Rattle.event_rules.specs.Run.{Steps, effect};
ghost use Rattle.event_rules.specs.Conservation.{momentum, energy, pairs};
ghost use Rattle.worked_laws.specs.Rows.{box_until};
ghost use Rattle.worked_laws.specs.Pair.{pair_rules, pair_disks};
ghost use Rattle.worked_laws.specs.Bounce.{bounce_disks, the_bounce};

use event_rules::{energy_nearly_stays, momentum_turns_at_sides};

/// By `momentum_turns_at_sides` the velocities of the two that meet have the sum (0, 0) after any beginning of their
/// run, and the side turns (2, 0) to (-2, 0). A law that lets a side take twice the velocity or nothing, or that lets
/// two disks change the sum, doesn't say it.
pub fn momentum_in_the_rows()
    ensures pair { (changes : List Change) (later : List Disk) → Steps pair_rules pair_disks changes later →
        momentum later ≡ vector (pos 0) (pos 0) }
    ensures side { (later : List Disk) → Steps (box_until 5) bounce_disks (the_bounce ∷ []) later →
        momentum later ≡ vector (neg_ℤ (pos 2)) (pos 0) }
    ensures bounces { Steps (box_until 5) bounce_disks (the_bounce ∷ []) (effect bounce_disks the_bounce) }
{
    momentum_turns_at_sides();
}

/// By `energy_nearly_stays` one collision of the two changes the sum of their squared speeds, 2, by at most
/// 12 · 8 + 4 = 100, and sides keep that of the other disk, 4. A law with a wider bound, or one that lets sides change
/// it, doesn't say it.
pub fn energy_in_the_rows()
    ensures pair { (changes : List Change) (later : List Disk) → Steps pair_rules pair_disks changes later → pairs changes ≡ 1 →
        (energy later ≤ 102) × (2 ≤ energy later + 100) }
    ensures side { (changes : List Change) (later : List Disk) → Steps (box_until 5) bounce_disks changes later → pairs changes ≡ 0 →
        energy later ≡ 4 }
{
    energy_nearly_stays();
}
