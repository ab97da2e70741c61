//! The grid of cells.

use std::marker::Model;

/// The greatest number of cells along a side of the box.
pub const MAX_CELLS_ALONG: u32 = 1_024;

/// The greatest number of regions.
pub const MAX_REGIONS: u32 = 64;

const COLUMNS_SCALE: u64 = 1 << 32;

const SIDE_SCALE: u64 = 1 << 62;

/// Columns and rows of cells, and the strips of columns that the regions own.
///
/// Cells are numbered row by row from the bottom left, regions from the left.
#[derive(Clone, Copy, Debug, PartialEq, Eq)]
pub struct Grid {
    columns: u32,
    rows: u32,
    // The sides of a cell, in units of length; the last column and the last row may be wider.
    side_x: u32,
    side_y: u32,
    regions: u32,
    // One more than 2^32 by the columns, and than 2^62 by each side: a product with one of them and a shift take the
    // place of a division, which takes much longer.
    columns_reciprocal: u64,
    reciprocal_x: u64,
    reciprocal_y: u64,
}

/// The columns that a region owns: those from `first` on, below `end`.
#[derive(Clone, Copy, Debug, PartialEq, Eq)]
pub struct Strip {
    /// The first column.
    pub first: u32,
    /// One past the last column.
    pub end: u32,
}

impl Model for Grid {
    ghost use Rattle.std.specs.Prelude.{◌^◌};
    ghost use Rattle.std.proofs.Common.{sym};
    ghost use Rattle.cell_grid.specs.Grid.{GridData, HasReciprocals, reciprocal_of};

    ghost Value = { GridData };

    ghost view = { λ g. record {
      columns = g.columns;
      rows = g.rows;
      side_x = g.side_x;
      side_y = g.side_y;
      regions = g.regions;
    } };

    ghost invariant = { λ g. HasReciprocals (record {
      columns = g.columns;
      rows = g.rows;
      side_x = g.side_x;
      side_y = g.side_y;
      regions = g.regions;
    }) g.columns_reciprocal g.reciprocal_x g.reciprocal_y };

    ghost inverse = { λ d. record {
      columns = d.columns;
      rows = d.rows;
      side_x = d.side_x;
      side_y = d.side_y;
      regions = d.regions;
      columns_reciprocal = reciprocal_of (2 ^ 32) d.columns;
      reciprocal_x = reciprocal_of (2 ^ 62) d.side_x;
      reciprocal_y = reciprocal_of (2 ^ 62) d.side_y;
    } };

    ghost inverse_ok = { λ g h i. record {
      columns = g.columns;
      rows = g.rows;
      side_x = g.side_x;
      side_y = g.side_y;
      regions = g.regions;
      columns_reciprocal = sym h.columns i;
      reciprocal_x = sym h.x i;
      reciprocal_y = sym h.y i;
    } };
}

ghost use Rattle.std.specs.Prelude.{◌≡◌, ◌↔◌, ℕ, ◌+◌, ◌*◌, ◌/◌, ◌^◌, ◌≤◌, ◌<◌, IsTrue};
ghost use Rattle.plane_vectors.specs.Vectors.{vector};
ghost use Rattle.fixed_motion.specs.Rules.{IsChecked};
ghost use Rattle.fixed_motion.specs.Motion.{IsInBox};
ghost use Rattle.cell_grid.specs.Grid.{grid_of, cells_along, IsAsked, IsGridOf, HasSizes, IsCell, IsRegion, IsAdjacent, IsBeside, IsStripOf, Owns, Reaches, AreLinked, cell_at, column_of, row_of, strip_start, reciprocal_of};

use crate::bounds::Division;
use fixed_motion::Rules;

impl Grid {
    /// The grid of checked rules, with `regions` regions, 1 to [`MAX_REGIONS`], or one for each column if there are
    /// fewer columns.
    pub fn new(rules: &Rules, regions: u32) -> Grid
        requires checked { IsChecked rules.now }
        requires asked { IsAsked regions }
        ensures value { result ≡ grid_of rules.now regions }
        ensures of_rules { IsGridOf rules.now result }
    {
        let width = rules.width as u32;
        let height = rules.height as u32;
        let least = (rules.diameter + 2 * rules.speed_limit) as u32;
        let columns = cells_along(width, least);
        let rows = cells_along(height, least);
        let side_x = width / columns;
        let side_y = height / rows;
        Grid {
            columns,
            rows,
            side_x,
            side_y,
            regions: regions.min(columns),
            columns_reciprocal: COLUMNS_SCALE / u64::from(columns) + 1,
            reciprocal_x: SIDE_SCALE / u64::from(side_x) + 1,
            reciprocal_y: SIDE_SCALE / u64::from(side_y) + 1,
        }
    }

    /// The number of columns, 1 to [`MAX_CELLS_ALONG`].
    pub fn columns(&self) -> u32
        ensures value { result ≡ self.now.columns }
        ensures kept { HasSizes self.now }
    {
        self.columns
    }

    /// The number of rows, 1 to [`MAX_CELLS_ALONG`].
    pub fn rows(&self) -> u32
        ensures value { result ≡ self.now.rows }
        ensures kept { HasSizes self.now }
    {
        self.rows
    }

    /// The number of regions, 1 to [`MAX_REGIONS`], and at most that of columns.
    pub fn regions(&self) -> u32
        ensures value { result ≡ self.now.regions }
        ensures kept { HasSizes self.now }
    {
        self.regions
    }

    /// The cell of a place, whose coordinates are 0 to 2^30 units of length.
    #[inline(always)]
    pub fn cell_of(&self, x: i64, y: i64) -> u32
        requires { IsInBox (vector x y) }
        ensures value { result ≡ cell_at self.now (vector x y) }
        ensures cell { IsCell self.now result }
    {
        let column = sides_before(x as u32, self.reciprocal_x).min(self.columns - 1);
        let row = sides_before(y as u32, self.reciprocal_y).min(self.rows - 1);
        row * self.columns + column
    }

    /// The column of a cell.
    #[inline(always)]
    pub fn column(&self, cell: u32) -> u32
        requires { IsCell self.now cell }
        ensures value { result ≡ column_of self.now cell }
        ensures in_range { result < self.now.columns }
    {
        cell - self.row(cell) * self.columns
    }

    /// The row of a cell.
    #[inline(always)]
    pub fn row(&self, cell: u32) -> u32
        requires { IsCell self.now cell }
        ensures value { result ≡ row_of self.now cell }
        ensures in_range { result < self.now.rows }
    {
        ((u64::from(cell) * self.columns_reciprocal) >> 32) as u32
    }

    // The width of the box, cut into columns.
    pub(crate) fn width_cut(&self) -> Division
        ensures side { result.side ≡ self.now.side_x }
        ensures count { result.count ≡ self.now.columns }
    {
        Division {
            side: self.side_x,
            count: self.columns,
        }
    }

    // The height of the box, cut into rows.
    pub(crate) fn height_cut(&self) -> Division
        ensures side { result.side ≡ self.now.side_y }
        ensures count { result.count ≡ self.now.rows }
    {
        Division {
            side: self.side_y,
            count: self.rows,
        }
    }

    /// Whether columns and rows of two cells differ by at most one.
    pub fn adjacent(&self, a: u32, b: u32) -> bool
        requires first { IsCell self.now a }
        requires second { IsCell self.now b }
        ensures { IsTrue result ↔ IsAdjacent self.now a b }
    {
        is_beside(self.column(a), self.column(b)) && is_beside(self.row(a), self.row(b))
    }

    /// The region that owns a cell.
    pub fn owner(&self, cell: u32) -> u32
        requires { IsCell self.now cell }
        ensures region { IsRegion self.now result }
        ensures owns { Owns self.now result cell }
        ensures only { (region : ℕ) → IsRegion self.now region → Owns self.now region cell → region ≡ result }
    {
        ((cell % self.columns + 1) * self.regions - 1) / self.columns
    }

    /// The columns of a region.
    pub fn strip(&self, region: u32) -> Strip
        requires { IsRegion self.now region }
        ensures strip { IsStripOf self.now region result }
        ensures kept { HasSizes self.now }
    {
        Strip {
            first: self.strip_start(region),
            end: self.strip_start(region + 1),
        }
    }

    /// Whether a cell is in one of a region's columns or beside them.
    pub fn in_reach(&self, region: u32, cell: u32) -> bool
        requires first { IsRegion self.now region }
        requires second { IsCell self.now cell }
        ensures { IsTrue result ↔ Reaches self.now region cell }
    {
        let column = self.column(cell);
        let strip = self.strip(region);
        strip.first <= column + 1 && column <= strip.end
    }

    /// Whether two regions are different and reach a cell in common.
    pub fn linked(&self, a: u32, b: u32) -> bool
        requires first { IsRegion self.now a }
        requires second { IsRegion self.now b }
        ensures { IsTrue result ↔ AreLinked self.now a b }
    {
        a != b && self.strip_start(a.max(b)) <= self.strip_start(a.min(b) + 1) + 1
    }

    // The first column of a region; for the number one past the last region, one past the last column.
    fn strip_start(&self, region: u32) -> u32
        requires { region ≤ self.now.regions }
        ensures value { result ≡ strip_start self.now region }
        ensures most { result ≤ 1024 }
        ensures kept { HasSizes self.now }
    {
        region * self.columns / self.regions
    }
}

fn cells_along(length: u32, least: u32) -> u32
    requires { 1 ≤ least }
    ensures { result ≡ cells_along length least }
{
    (length / least).clamp(1, MAX_CELLS_ALONG)
}

// How many whole sides there are before a coordinate, by the reciprocal of the side.
#[inline(always)]
fn sides_before(coordinate: u32, reciprocal: u64) -> u32
    requires { reciprocal ≤ 2 ^ 62 + 1 }
    ensures { (side : ℕ) → 1 ≤ side → coordinate * side < 2 ^ 62 → reciprocal ≡ reciprocal_of (2 ^ 62) side →
        result ≡ coordinate / side }
{
    ((u128::from(coordinate) * u128::from(reciprocal)) >> 62) as u32
}

fn is_beside(a: u32, b: u32) -> bool
    ensures { IsTrue result ↔ IsBeside a b }
{
    a.abs_diff(b) <= 1
}
