//! Whether a region stands on a cell state.

ghost use Rattle.std.specs.Prelude.{◌≡◌, ◌↔◌, ℕ, ◌<◌, ◌≤◌, length, slice_get, option_copied, Some, IsTrue, MatchOption};
ghost use Rattle.std.specs.FinMap as map;
ghost use Rattle.region_view.specs.declared.action.Placed.{Placed};
ghost use Rattle.cell_grid.specs.Grid.{HasSizes, IsRegion, IsCell, IsStripOf, Reaches, column_of};
ghost use Rattle.region_view.specs.Laws.{HasCells};
ghost use Rattle.region_view.specs.Views.{IsViewOf, IsNextRow};
ghost use Rattle.local_run.specs.Keeping.{IsKept};
ghost use Rattle.local_run.specs.Standing.{TellsStanding, SeesRow, IsUnseenFirst};
ghost use Rattle.region_core.specs.Live.{base_in};

use crate::Differs;
use crate::live::Live;
use crate::region::Region;
use cell_grid::{Grid, Strip};
use cell_sequence::CellState;
use fixed_motion::MAX_DISKS;
use region_view::Placed;

impl Region {
    /// Whether it stands on a cell state with a number: it is the region of this number, with the rules, the grid and
    /// the floor of the state, and begins in this region's view of the state.
    ///
    /// # Errors
    /// The first difference, in the order of [`Differs`].
    pub fn stands_on(&self, state: &CellState, number: u32) -> Result<(), Differs>
        ensures value { TellsStanding state.now number self.now result }
        ensures kept { IsKept self.now }
    {
        let Some(live) = &self.live else {
            return Err(Differs::Spent);
        };
        let own = self.number();
        if own != number {
            return Err(Differs::Number {
                kept: number,
                given: own,
            });
        }
        if self.rules() != state.rules() {
            return Err(Differs::Rules);
        }
        let grid = state.grid();
        if self.grid() != grid {
            return Err(Differs::Grid);
        }
        let floor = state.floor();
        if self.floor() != floor {
            return Err(Differs::Floor {
                kept: floor,
                given: self.floor(),
            });
        }
        match first_apart(live, state.placed(), grid, number) {
            Some(disk) => Err(Differs::Row(disk)),
            None => Ok(()),
        }
    }
}

// The least number at which the view at the floor isn't what a region sees of placed disks; none if the two are the
// same.
fn first_apart(live: &Live, placed: &[Placed], grid: &Grid, number: u32) -> Option<u32>
    requires region { IsRegion grid.now number }
    requires cells { HasCells grid.now (slice_get placed.now) }
    requires count { length placed.now ≤ 65536 }
    requires few { (i : ℕ) (p : Placed) → map.get (base_in live.now) i ≡ Some p → i < 65536 }
    ensures { MatchOption result (IsViewOf grid.now number (slice_get placed.now) (base_in live.now))
        (IsUnseenFirst grid.now number (slice_get placed.now) (base_in live.now)) }
{
    // These are computed once for all rows, since they take divisions and there are many rows.
    let strip = grid.strip(number);
    let factor = u32::MAX / grid.columns();
    for (i, row) in placed.iter().enumerate() {
        let disk = i as u32;
        if !is_same(
            live.log.first_row(&live.view, disk),
            seen_of(row, grid, strip, factor),
        ) {
            return Some(disk);
        }
    }
    let (disk, _) = next_first_row(live, placed.len())?;
    Some(disk)
}

// The first disk from a number on that has a row in the view at the floor: its number and the row.
fn next_first_row(live: &Live, from: usize) -> Option<(u32, Placed)>
    requires few { (i : ℕ) (p : Placed) → map.get (base_in live.now) i ≡ Some p → i < 65536 }
    ensures { IsNextRow (base_in live.now) from result }
{
    let end = live.log.first_room(&live.view).min(MAX_DISKS);
    for disk in from..end {
        if let Some(row) = live.log.first_row(&live.view, disk as u32) {
            return Some((disk as u32, row));
        }
    }
    None
}

// Whether a row is the one that is seen there.
fn is_same(row: Option<Placed>, seen: Option<&Placed>) -> bool
    ensures { IsTrue result ↔ (row ≡ option_copied seen.entry) }
{
    row == seen.copied()
}

// What the region of a strip sees of a row: the row, or none if the region doesn't reach its cell.
fn seen_of<'a>(row: &'a Placed, grid: &Grid, strip: Strip, factor: u32) -> Option<&'a Placed>
    requires sizes { HasSizes grid.now }
    requires cell { IsCell grid.now row.now.cell }
    ensures { (k : ℕ) → IsStripOf grid.now k strip →
        SeesRow grid.now k (Some row.now) (option_copied result) }
{
    if reaches(strip, grid, factor, row.cell) {
        Some(row)
    } else {
        None
    }
}

// Whether a cell is in a column of a strip or in one beside it.
fn reaches(strip: Strip, grid: &Grid, factor: u32, cell: u32) -> bool
    requires sizes { HasSizes grid.now }
    requires cell { IsCell grid.now cell }
    ensures { (k : ℕ) → IsStripOf grid.now k strip → (IsTrue result ↔ Reaches grid.now k cell) }
{
    let column = column_by(grid, factor, cell);
    strip.first <= column + 1 && column <= strip.end
}

// The column of a cell. If the factor is 2^32 by the number of columns, rounded down, the row is mostly found by a
// product. The proof needs to know nothing of the factor, since a wrong row is noticed.
fn column_by(grid: &Grid, factor: u32, cell: u32) -> u32
    requires { IsCell grid.now cell }
    ensures value { result ≡ column_of grid.now cell }
    ensures in_range { result < grid.now.columns }
{
    let columns = u64::from(grid.columns());
    let index = u64::from(cell);
    let start = (((index + 1) * u64::from(factor)) >> 32) * columns;
    if start <= index && index - start < columns {
        (index - start) as u32
    } else {
        grid.column(cell)
    }
}
