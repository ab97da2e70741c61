//! How a disk leaves its recorded cell if it does so after its base tick, as nearly all do.

ghost use Rattle.std.specs.Prelude.{ℕ, MatchOption};
ghost use Rattle.fixed_motion.specs.Rules.{IsChecked};
ghost use Rattle.fixed_motion.specs.Motion.{IsValidDisk};
ghost use Rattle.cell_grid.specs.Grid.{IsGridOf, IsCell};
ghost use Rattle.cell_grid.specs.Later.{IsLaterTick, LeavesEarly, IsDeparture};

use crate::Grid;
use fixed_motion::{Disk, Rules};

/// How a disk leaves its recorded cell.
#[derive(Clone, Copy)]
pub enum Departure {
    /// By a crossing at this tick, which is after its base tick: so the round is 0.
    At(u64),
    /// After its base tick, but by no crossing: it isn't inside the box then, or the run is over.
    Never,
    /// At no tick after its base tick. The answer doesn't tell whether it leaves by a crossing.
    Unknown,
}

impl Grid {
    /// What [`crossing`](Grid::crossing) tells of a disk that leaves its recorded cell after its base tick. If the disk
    /// is in the cell and moves, that is all that `crossing` tells, in one pass.
    #[inline(always)]
    pub fn leaving(&self, rules: &Rules, a: &Disk, cell: u32) -> Departure
        requires checked { IsChecked rules.now }
        requires grid { IsGridOf rules.now self.now }
        requires valid { IsValidDisk rules.now a.now }
        requires cell { IsCell self.now cell }
        ensures { (disk : ℕ) → IsDeparture rules.now self.now disk a.now cell result }
    {
        let Some(tick) = self.later_tick(rules, a, cell) else {
            return Departure::Unknown;
        };
        if tick < rules.end && a.is_inside(rules, a.centre_at(rules, tick)) {
            Departure::At(tick)
        } else {
            Departure::Never
        }
    }

    // The tick at which a disk leaves its recorded cell, if that is after its base tick.
    #[inline(always)]
    fn later_tick(&self, rules: &Rules, a: &Disk, cell: u32) -> Option<u64>
        requires checked { IsChecked rules.now }
        requires grid { IsGridOf rules.now self.now }
        requires valid { IsValidDisk rules.now a.now }
        requires cell { IsCell self.now cell }
        ensures { MatchOption result (LeavesEarly rules.now self.now a.now cell)
            (IsLaterTick rules.now self.now a.now cell) }
    {
        let room = self.room(rules, a, cell);
        let ticks = room.ticks_until_past(a)?;
        // A disk that is ever in the cell is in it at the last tick before it is past an end of it.
        if room.holds_after(a, ticks.saturating_sub(1)) {
            Some(a.base + ticks)
        } else {
            None
        }
    }
}
