//! A region's place: the region whose run it is, the columns that no other region sees, so that nobody is told of what
//! happens there, and the stamp at which its log begins.

ghost use Rattle.std.specs.Prelude.{◌↔◌, IsTrue};
ghost use Rattle.cell_grid.specs.Grid.{IsCell};
ghost use Rattle.region_parts.specs.Border.{IsFarFromOthers};
ghost use Rattle.region_parts.specs.Place.{IsPlace};

use crate::border::Border;
use event_stamps::Stamp;
use local_run::Home;

/// Where a region is, in the grid and in virtual time.
#[derive(Clone, Copy)]
pub struct Place {
    /// The region, with the rules and the grid.
    pub home: Home,
    /// The columns that no other region sees.
    pub border: Border,
    /// The stamp from which on its log begins.
    pub floor: Stamp,
}

impl Place {
    /// Whether no other region sees a cell.
    #[inline(always)]
    pub fn is_far(&self, cell: u32) -> bool
        requires place { IsPlace self.now }
        requires cell { IsCell self.now.home.grid cell }
        ensures { IsTrue result ↔ IsFarFromOthers self.now.home cell }
    {
        let column = self.home.grid.column(cell);
        self.border.first <= column && column < self.border.end
    }

    /// Whether no other region sees either of two cells.
    #[inline(always)]
    pub fn are_far(&self, cell: u32, other: u32) -> bool
        requires place { IsPlace self.now }
        requires cell { IsCell self.now.home.grid cell }
        requires other { IsCell self.now.home.grid other }
        ensures { IsTrue result → IsFarFromOthers self.now.home cell × IsFarFromOthers self.now.home other }
    {
        self.is_far(cell) && self.is_far(other)
    }
}
