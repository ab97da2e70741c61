//! The next event of a state.

ghost use Rattle.std.specs.Prelude.{◌≡◌, ◌<◌, length, Some, slice_get};
ghost use Rattle.fixed_motion.specs.Rules.{IsChecked};
ghost use Rattle.fixed_motion.specs.declared.disk.Disk.{Disk};
ghost use Rattle.event_rules.specs.Run.{IsCandidate, IsValidState};
ghost use Rattle.event_stamps.specs.Least.{IsLeastOf};
ghost use Rattle.all_pairs.specs.Search.{IsPairBelow};

use event_rules::{first_wall, pair_event};
use event_stamps::{Stamp, earlier};
use fixed_motion::{Disk, Rules};

// The first event of disk `i` with any higher disk.
fn first_pair(rules: &Rules, disks: &[Disk], i: usize) -> Option<Stamp>
    requires checked { IsChecked rules.now }
    requires valid { IsValidState rules.now disks.now }
    requires within { i < length disks.now }
    ensures { (a : Disk) → slice_get disks.now i ≡ Some a →
        IsLeastOf (IsPairBelow rules.now disks.now i a (length disks.now)) result }
{
    let mut first = None;
    for j in i + 1..disks.len() {
        first = earlier(
            first,
            pair_event(rules, i as u32, &disks[i], j as u32, &disks[j]),
        );
    }
    first
}

/// The next event of a state.
pub fn next(rules: &Rules, disks: &[Disk]) -> Option<Stamp>
    requires checked { IsChecked rules.now }
    requires valid { IsValidState rules.now disks.now }
    ensures { IsLeastOf (IsCandidate rules.now disks.now) result }
{
    let mut first = None;
    for i in 0..disks.len() {
        let wall = first_wall(rules, i as u32, &disks[i]);
        let own = earlier(wall, first_pair(rules, disks, i));
        first = earlier(first, own);
    }
    first
}
