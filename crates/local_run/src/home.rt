//! The region whose local run it is.

ghost use Rattle.std.specs.Prelude.{◌↔◌, IsTrue};
ghost use Rattle.cell_grid.specs.Grid.{IsRegion};

use cell_grid::Grid;
use fixed_motion::Rules;

/// How far apart the numbers of linked regions are at most: a region has one column at least, and reaches one beside it.
pub const FARTHEST: u32 = 2;

/// A region of a grid: the logical process that runs the events of its own columns.
#[derive(Clone, Copy, PartialEq, Eq)]
pub struct Home {
    /// The number of the region, below the number of regions of the grid.
    pub number: u32,
    /// The rules of the scene.
    pub rules: Rules,
    /// The grid.
    pub grid: Grid,
}

impl Home {
    ghost use Rattle.local_run.specs.Keeping.{SendsTo, HearsOf};

    /// Whether it sends messages to a region.
    pub fn sends_to(&self, to: u32) -> bool
        requires { IsRegion self.now.grid self.now.number }
        ensures { IsTrue result ↔ SendsTo self.now to }
    {
        to < self.grid.regions() && self.grid.linked(self.number, to)
    }

    /// Whether it hears messages from a region.
    pub fn hears_of(&self, from: u32) -> bool
        requires { IsRegion self.now.grid self.now.number }
        ensures { IsTrue result ↔ HearsOf self.now from }
    {
        from < self.grid.regions() && self.grid.linked(from, self.number)
    }
}
