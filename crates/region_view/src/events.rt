//! The events of disks with recorded cells: when they come, and what they do.

ghost use Rattle.std.specs.Prelude.{◌≡◌, ◌<◌, ◌≤◌, ◌^◌, option_copied, MatchOption, IfSome};
ghost use Rattle.std.specs.Option.{ForSome};
ghost use Rattle.fixed_motion.specs.Rules.{IsChecked};
ghost use Rattle.fixed_motion.specs.Motion.{IsValidDisk, IsInside, place_of};
ghost use Rattle.event_stamps.specs.Least.{HasNone, IsOnly, IsLeastOf};
ghost use Rattle.cell_grid.specs.Grid.{IsGridOf, IsCell};
ghost use Rattle.event_rules.specs.declared.change.Limit.TheVariants.{Rounds};
ghost use Rattle.region_view.specs.declared.action.Action.TheVariants.{Cross};
ghost use Rattle.region_view.specs.Events.{IsAlone, IsNear, IsEventBy};
ghost use Rattle.region_view.specs.Acting.{action_of, crossed};

use crate::{Action, Placed};
use cell_grid::Grid;
use event_rules::{Limit, apply, first_wall, pair_event};
use event_stamps::{Kind, Stamp};
use fixed_motion::{Disk, Rules};

/// The stamp of the first event of a placed disk by itself: it leaves its recorded cell, or hits a side of the box.
/// `number` is the number of the disk. None if it has no such event.
pub fn first_alone(rules: &Rules, grid: &Grid, number: u32, row: &Placed) -> Option<Stamp>
    requires checked { IsChecked rules.now }
    requires grid { IsGridOf rules.now grid.now }
    requires valid { IsValidDisk rules.now row.now.disk }
    requires cell { IsCell grid.now row.now.cell }
    ensures { IsLeastOf (IsAlone rules.now grid.now number row.now) result }
{
    match grid.crossing(rules, number, &row.disk, row.cell) {
        // The disk is inside the box then, so it hits no side before.
        Some(crossing) => Some(crossing),
        None => first_wall(rules, number, &row.disk),
    }
}

/// The stamp of the next event of two placed disks with each other, if their recorded cells are adjacent. `i` and `j`
/// are the numbers of the disks. None if they have no such event, and if the cells aren't adjacent.
pub fn near_event(
    rules: &Rules,
    grid: &Grid,
    i: u32,
    first: &Placed,
    j: u32,
    second: &Placed,
) -> Option<Stamp>
    requires checked { IsChecked rules.now }
    requires order { i < j }
    requires first_valid { IsValidDisk rules.now first.now.disk }
    requires second_valid { IsValidDisk rules.now second.now.disk }
    requires first_cell { IsCell grid.now first.now.cell }
    requires second_cell { IsCell grid.now second.now.cell }
    ensures { MatchOption result (HasNone (IsNear rules.now grid.now i first.now j second.now))
        (IsOnly (IsNear rules.now grid.now i first.now j second.now)) }
{
    if grid.adjacent(first.cell, second.cell) {
        pair_event(rules, i, &first.disk, j, &second.disk)
    } else {
        None
    }
}

/// Runs the event of this stamp on a placed disk, and on the other disk if there are two.
///
/// # Errors
/// The limit at which the event fails.
#[inline(always)]
pub fn act(
    rules: &Rules,
    grid: &Grid,
    stamp: &Stamp,
    row: &Placed,
    partner: Option<&Disk>,
) -> Result<Action, Limit>
    requires checked { IsChecked rules.now }
    requires first { IsValidDisk rules.now row.now.disk }
    requires second { ForSome (option_copied partner) (IsValidDisk rules.now) }
    requires event { IsEventBy rules.now grid.now stamp.now row.now (option_copied partner) stamp.now.kind }
    ensures { result ≡
        action_of rules.now grid.now stamp.now row.now.disk (option_copied partner.entry) stamp.now.kind }
{
    match stamp.kind {
        Kind::Cross => match crossed_cell(rules, grid, stamp, &row.disk) {
            Some(cell) => Ok(Action::Cross {
                stamp: *stamp,
                cell,
            }),
            None => Err(Limit::Rounds(*stamp)),
        },
        Kind::Wall | Kind::Pair => {
            let change = apply(rules, stamp, &row.disk, partner)?;
            Ok(Action::Hit(change))
        }
    }
}

/// The cell that a disk enters by the crossing of this stamp. None if and only if the round of the stamp is the round
/// limit, at which the crossing fails.
///
/// The disk is inside the box at the tick of the stamp, which isn't before its base tick.
#[inline(always)]
pub fn crossed_cell(rules: &Rules, grid: &Grid, stamp: &Stamp, a: &Disk) -> Option<u32>
    requires checked { IsChecked rules.now }
    requires valid { IsValidDisk rules.now a.now }
    requires base { a.now.base ≤ stamp.now.tick }
    requires tick { stamp.now.tick ≤ 2 ^ 40 }
    requires inside { IsInside rules.now a.now (place_of a.now stamp.now.tick) }
    ensures crossed { MatchOption result (crossed rules.now grid.now stamp.now a.now ≡ Err (Rounds stamp.now))
        (λ cell. crossed rules.now grid.now stamp.now a.now ≡ Ok (Cross stamp.now cell)) }
    ensures cell { IfSome result (IsCell grid.now) }
{
    if stamp.round == rules.round_limit {
        return None;
    }
    let place = a.centre_at(rules, stamp.tick);
    Some(grid.cell_of(place.x, place.y))
}
