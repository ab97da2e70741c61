//! The cells around one cell that aren't around another one.

ghost use Rattle.std.specs.Prelude.{◌+◌, ◌*◌, ◌≤◌, IfSome, IsTrue};
ghost use Rattle.cell_grid.specs.Grid.{IsCell};
ghost use Rattle.region_queue.specs.Outside.{AreParts, HasAllBeyond, IsInside, IsStepBeyond};

use cell_grid::Grid;
use cell_lists::Block;

// Four blocks that make up the part of a block outside a second one. No cell is in two of them.
#[derive(Clone, Copy)]
pub(crate) struct Parts {
    // The columns to the left of the second block.
    pub left: Block,
    // The columns to its right.
    pub right: Block,
    // The rows below it, in the other columns.
    pub low: Block,
    // The rows above it, in these columns.
    pub high: Block,
}

// The part of `block` outside `known`.
pub(crate) fn parts_outside(block: Block, known: Block) -> Parts
    requires columns { block.left ≤ block.right }
    requires rows { block.low ≤ block.high }
    requires known_columns { known.left ≤ known.right }
    requires known_rows { known.low ≤ known.high }
    ensures { AreParts block known result }
{
    let left = known.left.clamp(block.left, block.right);
    let right = known.right.clamp(block.left, block.right);
    let low = known.low.clamp(block.low, block.high);
    let high = known.high.clamp(block.low, block.high);
    let between = Block {
        left,
        right,
        ..block
    };
    Parts {
        left: Block {
            right: left,
            ..block
        },
        right: Block {
            left: right,
            ..block
        },
        low: Block {
            high: low,
            ..between
        },
        high: Block {
            low: high,
            ..between
        },
    }
}

// Three cells in a line: the first, and those one step and two steps from it.
#[derive(Clone, Copy)]
pub(crate) struct Line {
    pub first: u32,
    pub step: u32,
}

// The cells adjacent to one cell that aren't adjacent to another one, if these are three in a line, as they are when a
// disk comes from one side into a cell with neighbours on all sides.
#[inline(always)]
pub(crate) fn line_beyond(grid: &Grid, cell: u32, old: u32) -> Option<Line>
    requires { IsCell grid.now cell }
    ensures cells { IfSome result (λ line. IsCell grid.now (line.first + 2 * line.step)) }
    ensures beyond { IfSome result (λ line. HasAllBeyond grid.now cell old line) }
{
    if !is_inside(grid, cell) {
        return None;
    }
    let step = step_beyond(cell.abs_diff(old), grid.columns())?;
    // The middle one of the three is as far from the cell as the cell is from the old one.
    Some(Line {
        first: 2 * cell - old - step,
        step,
    })
}

// The step of the line beyond two cells, by how far apart their numbers are: the line is a column if they are side by
// side, and a row if one is above the other.
#[inline(always)]
fn step_beyond(apart: u32, columns: u32) -> Option<u32>
    ensures { IfSome result (IsStepBeyond apart columns) }
{
    if apart != 1 && apart != columns {
        return None;
    }
    Some(if apart == 1 { columns } else { 1 })
}

// Whether a cell has neighbours on all sides.
#[inline(always)]
fn is_inside(grid: &Grid, cell: u32) -> bool
    requires { IsCell grid.now cell }
    ensures { IsTrue result → IsInside grid.now cell }
{
    let columns = grid.columns();
    let rows = grid.rows();
    let column = grid.column(cell);
    let row = grid.row(cell);
    column > 0 && column + 1 < columns && row > 0 && row + 1 < rows
}
