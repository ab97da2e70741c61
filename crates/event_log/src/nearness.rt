//! Which entries of a log may have to do with some rows, told by disks and cells alone.

ghost use Rattle.std.specs.Prelude.{◌≡◌, ◌<◌, ◌≤◌, length, All, IfSome, false};
ghost use Rattle.region_view.specs.Setting.{RowList};
ghost use Rattle.cell_grid.specs.Grid.{IsAdjacent};
ghost use Rattle.event_log.specs.Heads.{row_at};
ghost use Rattle.event_log.specs.Nearness.{IsFarHead, HasNarrow, AllUpTo, IsPutAt, AreSidesOf, AreUnnamed, IsAwayFrom, BoundCells};

use crate::heads::{Form, Head};
use cell_grid::Grid;
use event_stamps::Stamp;
use region_view::{Compact, Placed, Rows};

/// The first head, from a place on, whose entry may have to do with some rows: the entry is kept whole, its stamp has
/// the number of one of their disks, or the narrow row of what stood there has a cell that may be adjacent to one of
/// theirs. None if there is no such head.
#[inline(always)]
pub(crate) fn first_near(
    heads: &[Head],
    narrow: &[Compact],
    from: usize,
    rows: &Rows,
    grid: &Grid,
) -> Option<usize>
    requires narrow { All (HasNarrow narrow.now) heads.now }
    ensures place { IfSome result (λ i. (from ≤ i) × (i < length heads.now)) }
    ensures far { AllUpTo (IsFarHead grid.now rows.now narrow.now) heads.now from result }
{
    let sides = sides_of(rows, grid);
    for i in from..heads.len() {
        if may_be_near(&heads[i], narrow, &sides, grid) {
            return Some(i);
        }
    }
    None
}

// Whether the entry of a head may have to do with rows that put disks at these places.
#[inline(always)]
fn may_be_near(head: &Head, narrow: &[Compact], sides: &Sides, grid: &Grid) -> bool
    requires narrow { HasNarrow narrow.now head.now }
    requires bounds { BoundCells grid.now sides.now }
    ensures { result ≡ false → (rows : RowList) → AreSidesOf sides.now rows →
        IsFarHead grid.now rows narrow.now head.now }
{
    if may_name(&head.stamp, sides) {
        return true;
    }
    let row = head.row as usize;
    match head.form {
        Form::Crossing | Form::Single => may_be_beside(narrow, row, sides, grid),
        Form::Double => {
            may_be_beside(narrow, row, sides, grid) || may_be_beside(narrow, row + 1, sides, grid)
        }
        Form::Whole => true,
    }
}

// The cell in which a row puts a disk.
#[derive(Clone, Copy)]
struct Side {
    disk: u32,
    // If the row puts the disk nowhere, any number.
    cell: u32,
}

// The cells in which at most two rows put disks; if there is one row, it is there twice.
#[derive(Clone, Copy)]
struct Sides {
    first: Side,
    second: Side,
    // No cell below this one, or above that one, is adjacent to either.
    low: u32,
    high: u32,
}

// A number beyond all cells.
const NO_CELL: u32 = u32::MAX;

// The side of no row.
const NOWHERE: Side = Side {
    disk: u32::MAX,
    cell: NO_CELL,
};

// A row that puts its disk nowhere gets the cell of the other, so that both bounds stay narrow.
#[inline(always)]
fn sides_of(rows: &Rows, grid: &Grid) -> Sides
    ensures sides { AreSidesOf result rows.now }
    ensures bounds { BoundCells grid.now result }
{
    match rows.as_slice() {
        [] => bounded(NOWHERE, NOWHERE, grid),
        [row] => {
            let side = side_of(row, NO_CELL);
            bounded(side, side, grid)
        }
        [first, second, ..] => bounded(
            side_of(first, cell_in(second, NO_CELL)),
            side_of(second, cell_in(first, NO_CELL)),
            grid,
        ),
    }
}

// Two sides with their bounds. The numbers of adjacent cells differ by at most the number of columns and one.
#[inline(always)]
fn bounded(first: Side, second: Side, grid: &Grid) -> Sides
    ensures first { result.first ≡ first }
    ensures second { result.second ≡ second }
    ensures bounds { BoundCells grid.now result }
{
    let reach = grid.columns() + 1;
    Sides {
        first,
        second,
        low: first.cell.min(second.cell).saturating_sub(reach),
        high: first.cell.max(second.cell).saturating_add(reach),
    }
}

#[inline(always)]
fn side_of(row: &(u32, Option<Placed>), elsewhere: u32) -> Side
    ensures { IsPutAt result row.now }
{
    Side {
        disk: row.0,
        cell: cell_in(row, elsewhere),
    }
}

// The cell in which a row puts its disk, or another one if it puts it nowhere.
#[inline(always)]
fn cell_in(row: &(u32, Option<Placed>), elsewhere: u32) -> u32
    ensures { IfSome row.now.1 (λ p. p.cell ≡ result) }
{
    match &row.1 {
        Some(placed) => placed.cell,
        None => elsewhere,
    }
}

// Whether an event may be one of these disks.
#[inline(always)]
fn may_name(stamp: &Stamp, sides: &Sides) -> bool
    ensures { result ≡ false → AreUnnamed stamp.now sides.now }
{
    (stamp.first == sides.first.disk)
        | (stamp.first == sides.second.disk)
        | (stamp.second == sides.first.disk)
        | (stamp.second == sides.second.disk)
}

// Whether what stands in a narrow row may be in a cell that is adjacent to one of the disks'. Most cells are passed by
// their bounds alone, and nothing but the cell is read.
#[inline(always)]
fn may_be_beside(narrow: &[Compact], place: usize, sides: &Sides, grid: &Grid) -> bool
    requires within { place < length narrow.now }
    requires bounds { BoundCells grid.now sides.now }
    ensures { result ≡ false → IsAwayFrom grid.now sides.now (row_at narrow.now place) }
{
    let cell = narrow[place].cell();
    if cell < sides.low || sides.high < cell {
        return false;
    }
    may_be_adjacent(grid, cell, sides.first.cell) || may_be_adjacent(grid, cell, sides.second.cell)
}

// False only if two cells aren't adjacent, and mostly if they aren't. The numbers of adjacent cells differ by at most
// one, or by the number of columns, one more or one less.
#[inline(always)]
fn may_be_adjacent(grid: &Grid, a: u32, b: u32) -> bool
    ensures { result ≡ false → ¬ IsAdjacent grid.now a b }
{
    let columns = grid.columns();
    let apart = a.abs_diff(b);
    apart <= columns + 1 && (apart <= 1 || columns <= apart + 1)
}
