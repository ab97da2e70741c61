//! Bounds of coordinates, and when a coordinate of a disk is past them.

ghost use Rattle.std.specs.Prelude.{◌≡◌, ◌↔◌, ℤ, pos, ◌*◌, ◌^◌, ◌<◌, ◌≤◌, ◌-ℤ◌, ◌<ℤ◌, IsTrue, IfSome};
ghost use Rattle.fixed_motion.specs.Rules.{IsChecked};
ghost use Rattle.fixed_motion.specs.Motion.{IsValidDisk, radius_of};
ghost use Rattle.cell_grid.specs.Leaving.{EndsAt, IsWithinBounds, IsWithinAfter, AreSmall, IsSlowCourse, AreOfColumn};

use fixed_motion::{Disk, MAX_SIDE, Rules};

// A side of the box, cut into `count` cells, each `side` units of length long; the last may be longer.
#[derive(Clone, Copy)]
pub(crate) struct Division {
    pub(crate) side: u32,
    pub(crate) count: u32,
}

// The least and the greatest of some coordinates, in units of length.
#[derive(Clone, Copy)]
pub(crate) struct Bounds {
    pub(crate) least: i64,
    pub(crate) greatest: i64,
}

// One coordinate of a disk that keeps its course, in units of length and units per tick.
#[derive(Clone, Copy)]
pub(crate) struct Course {
    pub(crate) start: i64,
    pub(crate) velocity: i64,
}

impl Division {
    // The coordinates in the box that are in the cell of this index.
    pub(crate) fn bounds(self, index: u32) -> Bounds
        requires side { 1 ≤ self.side }
        requires index { index < self.count }
        requires size { self.count * self.side ≤ 2 ^ 30 }
        ensures column { AreOfColumn self.side self.count index result }
        ensures small { AreSmall result }
    {
        let start = index * self.side;
        if index + 1 < self.count {
            Bounds {
                least: i64::from(start),
                greatest: i64::from(start + self.side - 1),
            }
        } else {
            Bounds {
                least: i64::from(start),
                greatest: MAX_SIDE,
            }
        }
    }
}

impl Bounds {
    // Where a disk is between the left and the right side of the box.
    pub(crate) fn across_box(rules: &Rules, a: &Disk) -> Bounds
        requires checked { IsChecked rules.now }
        requires valid { IsValidDisk rules.now a.now }
        ensures least { result.least ≡ radius_of a.now }
        ensures greatest { result.greatest ≡ rules.now.width -ℤ radius_of a.now }
        ensures small { AreSmall result }
    {
        let radius = a.radius();
        Bounds {
            least: radius,
            greatest: rules.width - radius,
        }
    }

    // Where it is between the bottom and the top.
    pub(crate) fn upwards_in_box(rules: &Rules, a: &Disk) -> Bounds
        requires checked { IsChecked rules.now }
        requires valid { IsValidDisk rules.now a.now }
        ensures least { result.least ≡ radius_of a.now }
        ensures greatest { result.greatest ≡ rules.now.height -ℤ radius_of a.now }
        ensures small { AreSmall result }
    {
        let radius = a.radius();
        Bounds {
            least: radius,
            greatest: rules.height - radius,
        }
    }

    // The coordinates within both.
    pub(crate) fn shared(self, other: Bounds) -> Bounds
        requires own { AreSmall self }
        requires other { AreSmall other }
        ensures both { (n : ℤ) → (IsWithinBounds result n ↔ (IsWithinBounds self n × IsWithinBounds other n)) }
        ensures small { AreSmall result }
    {
        Bounds {
            least: self.least.max(other.least),
            greatest: self.greatest.min(other.greatest),
        }
    }

    pub(crate) fn holds(self, coordinate: i64) -> bool
        ensures { IsTrue result ↔ IsWithinBounds self coordinate }
    {
        self.least <= coordinate && coordinate <= self.greatest
    }

    // After how many ticks the coordinate is past the bound that it goes towards; none if it stands still.
    pub(crate) fn ticks_until_past(self, course: Course) -> Option<u64>
        requires small { AreSmall self }
        requires slow { IsSlowCourse course }
        ensures ends { EndsAt (IsWithinAfter self course) result }
        ensures near { IfSome result (λ ticks. ticks ≤ 2 ^ 33) }
    {
        if course.velocity == 0 {
            return None;
        }
        let ahead = self.length_ahead(course);
        if ahead < 0 {
            return Some(0);
        }
        // Both have 32 bits, and a division of 32 bits is faster than one of 64.
        let ticks = ahead as u32 / course.velocity.unsigned_abs() as u32;
        Some(u64::from(ticks) + 1)
    }

    // How far ahead the bound is that the coordinate goes towards, in units of length; below 0 if it is past that
    // bound.
    #[inline(always)]
    fn length_ahead(self, course: Course) -> i64
        requires small { AreSmall self }
        requires slow { IsSlowCourse course }
        ensures rising { pos 0 <ℤ course.velocity → result ≡ self.greatest -ℤ course.start }
        ensures falling { course.velocity <ℤ pos 0 → result ≡ course.start -ℤ self.least }
    {
        if course.velocity > 0 {
            self.greatest - course.start
        } else {
            course.start - self.least
        }
    }
}
