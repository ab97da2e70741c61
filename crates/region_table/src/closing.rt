//! The regions that a closed table gives back.

ghost use Rattle.std.specs.Prelude.{◌≡◌, ℕ, ◌<◌, ◌≤◌, [], length, slice_get, vec_capacity, Some, IfSome};
ghost use Rattle.std.specs.Slots.{slots_items, slots_len, IsFull};
ghost use Rattle.fixed_motion.specs.Rules.{IsChecked};
ghost use Rattle.event_stamps.specs.Order.{Before, end_stamp};
ghost use Rattle.cell_grid.specs.Grid.{IsGridOf};
ghost use Rattle.local_run.specs.LocalRun.{IsInPlace};
ghost use Rattle.local_run.specs.Opening.{RegionData};
ghost use Rattle.region_table.specs.Rule.{IsHomeWord};
ghost use Rattle.region_table.specs.Tables.{spent_at, ComesOfSlot};

use atomic_table::Closed;
use cell_grid::Grid;
use event_stamps::Stamp;
use fixed_motion::Rules;
use region_core::Region;
use std::alloc::Global;

/// The regions in the slots of a closed table, with a spent region in the place of one that is out.
pub(crate) fn gather(
    mut closed: Closed<Option<Region>, Global>,
    mut regions: Vec<Region>,
    rules: &Rules,
    grid: &Grid,
    floor: Stamp,
) -> Vec<Region>
    requires full { IsFull closed.words × IsFull closed.slots × (slots_len closed.words ≡ slots_len closed.slots) }
    requires room { (regions.items ≡ []) × (slots_len closed.slots ≤ vec_capacity regions) }
    requires few { slots_len closed.slots ≤ grid.now.regions }
    requires checked { IsChecked rules.now × IsGridOf rules.now grid.now }
    requires in_time { ¬ Before (end_stamp rules.now.end) floor }
    ensures count { length result.items ≡ slots_len closed.slots }
    ensures each { (k : ℕ) (region : RegionData) → slice_get result.items k ≡ Some region →
        ComesOfSlot (slots_items closed.words) (slots_items closed.slots) rules.now grid.now floor k region }
{
    for k in 0..closed.slot_count() {
        let word = closed.word(k);
        let content = closed.take(k);
        let region = region_of(content, word, k as u32, rules, grid, floor);
        let Ok(()) = regions.push(region) else {
            unreachable!()
        };
    }
    closed.free();
    regions
}

// The region that was at home in a slot, or a spent one.
fn region_of(
    content: Option<Region>,
    word: u64,
    number: u32,
    rules: &Rules,
    grid: &Grid,
    floor: Stamp,
) -> Region
    requires place { IsInPlace (record { number = number; rules = rules.now; grid = grid.now }) }
    requires in_time { ¬ Before (end_stamp rules.now.end) floor }
    ensures home { IsHomeWord word → IfSome content (λ region. result ≡ region) }
    ensures out { (¬ IsHomeWord word) → result ≡ spent_at number rules.now grid.now floor }
{
    let Some(region) = content else {
        return Region::spent(number, rules, grid, floor);
    };
    let is_home = word % 2 == 0;
    if is_home {
        region
    } else {
        Region::spent(number, rules, grid, floor)
    }
}
