//! When a disk leaves its recorded cell.

ghost use Rattle.std.specs.Prelude.{ℕ, MatchOption};
ghost use Rattle.fixed_motion.specs.Rules.{IsChecked};
ghost use Rattle.fixed_motion.specs.Motion.{IsValidDisk};
ghost use Rattle.event_stamps.specs.Least.{HasNone, IsOnly};
ghost use Rattle.cell_grid.specs.Grid.{IsGridOf, IsCell};
ghost use Rattle.cell_grid.specs.Crossing.{IsLeavingTick, IsCrossEvent};

use crate::Grid;
use event_stamps::{Kind, Stamp};
use fixed_motion::{Disk, Rules};

impl Grid {
    /// The stamp at which a disk that keeps its course leaves its recorded cell, inside the box and before the last
    /// tick of the run.
    ///
    /// `disk` is the number of the disk. It leaves the cell at the first tick from which on it is at no tick inside the
    /// box and in the cell: after its last tick there, or at its base tick if it is never there. None if it doesn't
    /// leave.
    pub fn crossing(&self, rules: &Rules, disk: u32, a: &Disk, cell: u32) -> Option<Stamp>
        requires checked { IsChecked rules.now }
        requires grid { IsGridOf rules.now self.now }
        requires valid { IsValidDisk rules.now a.now }
        requires cell { IsCell self.now cell }
        ensures { MatchOption result (HasNone (IsCrossEvent rules.now self.now disk a.now cell))
            (IsOnly (IsCrossEvent rules.now self.now disk a.now cell)) }
    {
        let tick = self.leaving_tick(rules, a, cell)?;
        if tick < rules.end && a.is_inside(rules, a.centre_at(rules, tick)) {
            Some(Stamp {
                tick,
                round: a.mark_at(tick),
                kind: Kind::Cross,
                first: disk,
                second: 0,
            })
        } else {
            None
        }
    }

    // The tick at which a disk leaves its recorded cell; none if it never does.
    fn leaving_tick(&self, rules: &Rules, a: &Disk, cell: u32) -> Option<u64>
        requires checked { IsChecked rules.now }
        requires grid { IsGridOf rules.now self.now }
        requires valid { IsValidDisk rules.now a.now }
        requires cell { IsCell self.now cell }
        ensures { MatchOption result ((tick : ℕ) → IsLeavingTick rules.now self.now a.now cell tick → ⊥)
            (IsLeavingTick rules.now self.now a.now cell) }
    {
        let room = self.room(rules, a, cell);
        let ticks = room.ticks_until_past(a);
        // A disk that is ever in the cell is in it at the last tick before it is past an end of it.
        let last = ticks.unwrap_or(0).saturating_sub(1);
        if !room.holds_after(a, last) {
            return Some(a.base);
        }
        Some(a.base + ticks?)
    }
}
