//! The rows that an action sets, and what other regions are told of them.

ghost use Rattle.std.specs.Prelude.{◌≡◌, map as each, IfSome, option_copied};
ghost use Rattle.std.specs.Option.{option_to_list};
ghost use Rattle.std.specs.FinMap as map;
ghost use Rattle.cell_grid.specs.Grid.{IsRegion, IsCell};
ghost use Rattle.region_view.specs.Laws.{HasCells};
ghost use Rattle.region_view.specs.Acting.{redisked};
ghost use Rattle.region_view.specs.Views.{rows_in};
ghost use Rattle.region_view.specs.Setting.{rows_set, IsInOrder};
ghost use Rattle.region_view.specs.Messages.{message_of, told_rows, told_row, sees, RecordsCell, HaveCells};

use crate::{Action, Message, Placed, Rows, View};
use cell_grid::Grid;
use fixed_motion::Disk;

/// The rows that an action sets, given the view before it.
#[inline(always)]
pub fn rows_of(before: &View, action: &Action) -> Rows
    requires order { IsInOrder action.now }
    ensures { result ≡ rows_set (rows_in before.now) action.now }
{
    match action {
        Action::Cross { stamp, cell } => match before.get(stamp.first) {
            Some(row) => {
                let moved = Placed {
                    disk: row.disk,
                    cell: *cell,
                };
                Rows::one((stamp.first, Some(moved)))
            }
            None => Rows::none(),
        },
        Action::Hit(change) => Rows::some_of(
            row_with(before, change.stamp.first, Some(&change.first)),
            row_with(before, change.stamp.second, change.second.as_ref()),
        ),
    }
}

// The row of a disk with this record, in the cell in which the view has the disk.
fn row_with(before: &View, number: u32, disk: Option<&Disk>) -> Option<(u32, Option<Placed>)>
    ensures row { option_to_list result ≡ each (λ r. (r.0, Some r.1))
        (redisked number (option_copied disk.entry) (map.get before.now number)) }
    ensures number { IfSome result (λ r. r.0 ≡ number) }
{
    match (before.get(number), disk) {
        (Some(row), Some(disk)) => Some((
            number,
            Some(Placed {
                disk: *disk,
                cell: row.cell,
            }),
        )),
        _ => None,
    }
}

/// The message of an action to a region, given the view before the action. None if and only if the region saw none of
/// the disks that the action changes, and sees none of them after it.
pub fn message_for(before: &View, action: &Action, grid: &Grid, to: u32) -> Option<Message>
    requires order { IsInOrder action.now }
    requires cells { HasCells grid.now (rows_in before.now) }
    requires cell { RecordsCell grid.now action.now }
    requires region { IsRegion grid.now to }
    ensures { result ≡ message_of grid.now to (rows_in before.now) action.now }
{
    let rows = told_rows(before, &rows_of(before, action), grid, to);
    if rows.as_slice().is_empty() {
        return None;
    }
    Some(Message {
        stamp: action.stamp(),
        rows,
    })
}

// What the region is told of the rows that an action sets.
fn told_rows(before: &View, changed: &Rows, grid: &Grid, to: u32) -> Rows
    requires cells { HasCells grid.now (rows_in before.now) }
    requires new_cells { HaveCells grid.now changed.now }
    requires region { IsRegion grid.now to }
    ensures { result ≡ told_rows grid.now to (rows_in before.now) changed.now }
{
    match changed.as_slice() {
        [] => Rows::none(),
        [row] => Rows::some_of(told_row(before, row, grid, to), None),
        [first, second, ..] => Rows::some_of(
            told_row(before, first, grid, to),
            told_row(before, second, grid, to),
        ),
    }
}

// What the region is told of a row that is set; none if it saw nothing there before and sees nothing after.
fn told_row(
    before: &View,
    row: &(u32, Option<Placed>),
    grid: &Grid,
    to: u32,
) -> Option<(u32, Option<Placed>)>
    requires cells { HasCells grid.now (rows_in before.now) }
    requires cell { IfSome row.now.1 (λ p. IsCell grid.now p.cell) }
    requires region { IsRegion grid.now to }
    ensures told { option_to_list result ≡ told_row grid.now to (rows_in before.now) row.now }
    ensures number { IfSome result (λ told. told.0 ≡ row.now.0) }
{
    let (disk, after) = *row;
    if sees(grid, to, after.as_ref()) {
        Some((disk, after))
    } else if sees(grid, to, before.get(disk).as_ref()) {
        Some((disk, None))
    } else {
        None
    }
}

// Whether the region sees a row, if there is one.
fn sees(grid: &Grid, region: u32, row: Option<&Placed>) -> bool
    requires cell { IfSome (option_copied row) (λ p. IsCell grid.now p.cell) }
    requires region { IsRegion grid.now region }
    ensures { result ≡ sees grid.now region (option_copied row.entry) }
{
    match row {
        Some(placed) => grid.in_reach(region, placed.cell),
        None => false,
    }
}
