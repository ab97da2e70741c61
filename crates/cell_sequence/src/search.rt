//! The next event of a cell state.

ghost use Rattle.std.specs.Prelude.{◌≡◌, ◌<◌, ◌≤◌, length, Some, slice_get};
ghost use Rattle.fixed_motion.specs.Rules.{IsChecked};
ghost use Rattle.event_stamps.specs.Least.{IsLeastOf};
ghost use Rattle.cell_grid.specs.Grid.{IsGridOf};
ghost use Rattle.region_view.specs.declared.action.Placed.{Placed};
ghost use Rattle.region_view.specs.Placing.{IsValidPlacing};
ghost use Rattle.cell_sequence.specs.Run.{IsStateCandidate};
ghost use Rattle.cell_sequence.specs.Search.{IsNearBelow, IsOfFirstDisk};

use cell_grid::Grid;
use event_stamps::{Stamp, earlier};
use fixed_motion::Rules;
use region_view::{Placed, first_alone, near_event};

// The first event of all disks.
pub(crate) fn next(rules: &Rules, grid: &Grid, placed: &[Placed]) -> Option<Stamp>
    requires checked { IsChecked rules.now }
    requires grid { IsGridOf rules.now grid.now }
    requires valid { IsValidPlacing rules.now grid.now (slice_get placed.now) }
    requires count { length placed.now ≤ 65536 }
    ensures { IsLeastOf (IsStateCandidate rules.now grid.now placed.now) result }
{
    let mut first = None;
    for i in 0..placed.len() {
        first = earlier(first, first_of(rules, grid, placed, i));
    }
    first
}

// The first event of disk `i`, by itself or with a higher disk.
fn first_of(rules: &Rules, grid: &Grid, placed: &[Placed], i: usize) -> Option<Stamp>
    requires checked { IsChecked rules.now }
    requires grid { IsGridOf rules.now grid.now }
    requires valid { IsValidPlacing rules.now grid.now (slice_get placed.now) }
    requires count { length placed.now ≤ 65536 }
    requires within { i < length placed.now }
    ensures { IsLeastOf (IsOfFirstDisk (IsStateCandidate rules.now grid.now placed.now) i) result }
{
    let alone = first_alone(rules, grid, i as u32, &placed[i]);
    earlier(alone, first_near(rules, grid, placed, i))
}

// The first event of disk `i` with any higher disk in an adjacent cell.
fn first_near(rules: &Rules, grid: &Grid, placed: &[Placed], i: usize) -> Option<Stamp>
    requires checked { IsChecked rules.now }
    requires grid { IsGridOf rules.now grid.now }
    requires valid { IsValidPlacing rules.now grid.now (slice_get placed.now) }
    requires count { length placed.now ≤ 65536 }
    requires within { i < length placed.now }
    ensures { (p : Placed) → slice_get placed.now i ≡ Some p →
        IsLeastOf (IsNearBelow rules.now grid.now placed.now i p (length placed.now)) result }
{
    let mut first = None;
    for j in i + 1..placed.len() {
        let event = near_event(rules, grid, i as u32, &placed[i], j as u32, &placed[j]);
        first = earlier(first, event);
    }
    first
}
