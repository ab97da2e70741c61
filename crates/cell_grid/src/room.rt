//! The places at which a disk is inside the box and in a cell, and when it is past them.

ghost use Rattle.std.specs.Prelude.{◌↔◌, ◌^◌, ◌≤◌, ℤ, IsTrue, IfSome};
ghost use Rattle.fixed_motion.specs.Rules.{IsChecked};
ghost use Rattle.fixed_motion.specs.Motion.{IsValidDisk};
ghost use Rattle.cell_grid.specs.Grid.{IsGridOf, IsCell};
ghost use Rattle.cell_grid.specs.Leaving.{EndsAt, IsWithinBounds, AreSmall, IsAcross, IsUpwards, IsInRoom, IsInRoomAfter, IsRoomOf, IsSmallRoom, IsSlowDisk};

use crate::Grid;
use crate::bounds::{Bounds, Course};
use fixed_motion::{Disk, Rules, sooner};
use plane_vectors::Vector;

// The coordinates at which a disk is inside the box and in a cell.
#[derive(Clone, Copy)]
pub(crate) struct Room {
    across: Bounds,
    upwards: Bounds,
}

impl Room {
    // Whether the disk is in the room after `ticks` ticks, at most 2^33, from its base tick on.
    pub(crate) fn holds_after(self, a: &Disk, ticks: u64) -> bool
        requires slow { IsSlowDisk a.now }
        requires ticks { ticks ≤ 2 ^ 33 }
        ensures { IsTrue result ↔ IsInRoomAfter self a.now ticks }
    {
        self.holds(a.centre().after(a.velocity(), ticks))
    }

    fn holds(self, place: Vector) -> bool
        ensures { IsTrue result ↔ IsInRoom self place }
    {
        self.across.holds(place.x) && self.upwards.holds(place.y)
    }

    // After how many ticks the disk is past the end of the room that it goes towards, on either axis; none if it stands
    // still.
    #[inline(always)]
    pub(crate) fn ticks_until_past(self, a: &Disk) -> Option<u64>
        requires small { IsSmallRoom self }
        requires slow { IsSlowDisk a.now }
        ensures ends { EndsAt (IsInRoomAfter self a.now) result }
        ensures near { IfSome result (λ ticks. ticks ≤ 2 ^ 33) }
    {
        let across = Course {
            start: a.x,
            velocity: a.vx,
        };
        let upwards = Course {
            start: a.y,
            velocity: a.vy,
        };
        sooner(
            self.across.ticks_until_past(across),
            self.upwards.ticks_until_past(upwards),
        )
    }
}

impl Grid {
    // The room of a disk in a cell.
    #[inline(always)]
    pub(crate) fn room(&self, rules: &Rules, a: &Disk, cell: u32) -> Room
        requires checked { IsChecked rules.now }
        requires grid { IsGridOf rules.now self.now }
        requires valid { IsValidDisk rules.now a.now }
        requires cell { IsCell self.now cell }
        ensures places { IsRoomOf rules.now self.now a.now cell result }
        ensures small { IsSmallRoom result }
    {
        Room {
            across: self.across(rules, a, cell),
            upwards: self.upwards(rules, a, cell),
        }
    }

    #[inline(always)]
    fn across(&self, rules: &Rules, a: &Disk, cell: u32) -> Bounds
        requires checked { IsChecked rules.now }
        requires grid { IsGridOf rules.now self.now }
        requires valid { IsValidDisk rules.now a.now }
        requires cell { IsCell self.now cell }
        ensures coordinates { (n : ℤ) →
            (IsWithinBounds result n ↔ IsAcross rules.now self.now a.now cell n) }
        ensures small { AreSmall result }
    {
        let column = self.width_cut().bounds(self.column(cell));
        Bounds::across_box(rules, a).shared(column)
    }

    #[inline(always)]
    fn upwards(&self, rules: &Rules, a: &Disk, cell: u32) -> Bounds
        requires checked { IsChecked rules.now }
        requires grid { IsGridOf rules.now self.now }
        requires valid { IsValidDisk rules.now a.now }
        requires cell { IsCell self.now cell }
        ensures coordinates { (n : ℤ) →
            (IsWithinBounds result n ↔ IsUpwards rules.now self.now a.now cell n) }
        ensures small { AreSmall result }
    {
        let row = self.height_cut().bounds(self.row(cell));
        Bounds::upwards_in_box(rules, a).shared(row)
    }
}
