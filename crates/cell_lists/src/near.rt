//! The cells near one.

ghost use Rattle.std.specs.Prelude.{◌↔◌, ℕ};
ghost use Rattle.cell_grid.specs.Grid.{IsCell, IsAdjacent};
ghost use Rattle.cell_lists.specs.Nearby.{IsBlock, IsWithinBlock};

use cell_grid::Grid;

/// The cells in columns from `left` on, below `right`, and in rows from `low` on, below `high`.
#[derive(Clone, Copy)]
pub struct Block {
    /// The first column.
    pub left: u32,
    /// One past the last column.
    pub right: u32,
    /// The first row.
    pub low: u32,
    /// One past the last row.
    pub high: u32,
}

/// The cells adjacent to one of the grid, and this cell itself.
pub fn block_around(grid: &Grid, cell: u32) -> Block
    requires { IsCell grid.now cell }
    ensures block { IsBlock grid.now result }
    ensures around { (other : ℕ) → IsCell grid.now other → (IsAdjacent grid.now cell other ↔ IsWithinBlock grid.now result other) }
{
    let column = grid.column(cell);
    let row = grid.row(cell);
    Block {
        left: column.saturating_sub(1),
        right: grid.columns().min(column + 2),
        low: row.saturating_sub(1),
        high: grid.rows().min(row + 2),
    }
}
