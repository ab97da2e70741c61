//! When a disk hits the sides of the box next.

ghost use Rattle.std.specs.Prelude.{◌≡◌, ◌↔◌, ℕ, ◌+◌, ◌^◌, ◌<◌, ◌≤◌, pos, IsTrue, IsNone, IfSome, MatchOption};
ghost use Rattle.fixed_motion.specs.Rules.{IsChecked};
ghost use Rattle.fixed_motion.specs.Motion.{IsValidDisk};
ghost use Rattle.event_stamps.specs.declared.Stamp.{Stamp};
ghost use Rattle.event_stamps.specs.Least.{IsOnly, IsLeastOf};
ghost use Rattle.event_rules.specs.Events.{IsWallEvent, IsWallBelow, IsPast, IsLastInside, wall_stamp};
ghost use Rattle.event_rules.specs.Predict.{IsFirstPast};

use contact_predictor::stay;
use event_stamps::{Kind, Stamp};
use fixed_motion::{Disk, Rules, sooner};
use plane_vectors::Vector;

// The sides of the box.
const SIDES: u32 = 4;

/// The stamp at which a disk next hits a side of the box if it keeps its course, before the last tick of the run.
///
/// `disk` is the number of the disk, and `side` is 0 left, 1 right, 2 bottom, 3 top. None if the disk doesn't hit that
/// side.
pub fn wall_event(rules: &Rules, disk: u32, a: &Disk, side: u32) -> Option<Stamp>
    requires checked { IsChecked rules.now }
    requires valid { IsValidDisk rules.now a.now }
    requires side { side < 4 }
    ensures { MatchOption result ((s : Stamp) → IsWallEvent rules.now disk a.now side s → ⊥)
        (IsOnly (IsWallEvent rules.now disk a.now side)) }
{
    let tick = last_inside(rules, a)?;
    if tick < rules.end && is_past(rules, a, side, a.centre_at(rules, tick + 1)) {
        Some(wall_at(disk, a, side, tick))
    } else {
        None
    }
}

/// The stamp at which a disk first hits a side of the box if it keeps its course, before the last tick of the run.
///
/// `disk` is the number of the disk. None if it hits no side. If it hits two sides in one tick, the side with the lower
/// number counts.
pub fn first_wall(rules: &Rules, disk: u32, a: &Disk) -> Option<Stamp>
    requires checked { IsChecked rules.now }
    requires valid { IsValidDisk rules.now a.now }
    ensures { IsLeastOf (IsWallBelow rules.now disk a.now 4) result }
{
    let tick = last_inside(rules, a)?;
    if tick >= rules.end {
        return None;
    }
    let side = first_past(rules, a, a.centre_at(rules, tick + 1))?;
    Some(wall_at(disk, a, side, tick))
}

fn wall_at(disk: u32, a: &Disk, side: u32, tick: u64) -> Stamp
    ensures { result ≡ wall_stamp disk a.now side tick }
{
    Stamp {
        tick,
        round: a.mark_at(tick),
        kind: Kind::Wall,
        first: disk,
        second: side,
    }
}

// The last tick at which a disk that keeps its course is inside the box; none if it stands still.
pub(crate) fn last_inside(rules: &Rules, a: &Disk) -> Option<u64>
    requires checked { IsChecked rules.now }
    requires valid { IsValidDisk rules.now a.now }
    ensures still { IsNone result ↔ ((a.now.vx ≡ pos 0) × (a.now.vy ≡ pos 0)) }
    ensures last { IfSome result (IsLastInside rules.now a.now) }
    ensures near { IfSome result (λ last. last ≤ a.now.base + 2 ^ 30) }
{
    let radius = a.radius();
    let across = stay(radius, rules.width - radius, a.x, a.vx);
    let upwards = stay(radius, rules.height - radius, a.y, a.vy);
    let ticks = sooner(across, upwards)?;
    Some(a.base + ticks)
}

fn is_past(rules: &Rules, a: &Disk, side: u32, place: Vector) -> bool
    requires checked { IsChecked rules.now }
    requires valid { IsValidDisk rules.now a.now }
    requires side { side < 4 }
    ensures { IsTrue result ↔ IsPast rules.now a.now side place }
{
    let radius = a.radius();
    match side {
        0 => place.x < radius,
        1 => place.x > rules.width - radius,
        2 => place.y < radius,
        _ => place.y > rules.height - radius,
    }
}

fn first_past(rules: &Rules, a: &Disk, place: Vector) -> Option<u32>
    requires checked { IsChecked rules.now }
    requires valid { IsValidDisk rules.now a.now }
    ensures { MatchOption result ((side : ℕ) → IsPast rules.now a.now side place → ⊥)
        (IsFirstPast rules.now a.now place) }
{
    for side in 0..SIDES {
        if is_past(rules, a, side, place) {
            return Some(side);
        }
    }
    None
}
