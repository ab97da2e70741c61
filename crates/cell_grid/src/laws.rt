//! Laws of grids, for those who read the definitions alone.

ghost use Rattle.cell_grid.specs.Laws.{GridsHaveSizes, EachCellHasOneOwner, ReachIsBesideOwn, NeighboursAreInReach, OwnIsInReach, LinksAreMutual, PlacesHaveCells, MovesToAdjacent, FarUnlessAdjacent, TouchInAdjacent, LeavesAfterLast, CrossesLater, OneCrossing};

/// The grid of checked rules has columns and rows, sides and regions in their ranges.
pub fn grids_have_sizes()
    ensures { GridsHaveSizes }
{}

/// Each cell has exactly one owner.
pub fn each_cell_has_one_owner()
    ensures { EachCellHasOneOwner }
{}

/// A region reaches exactly the cells that are adjacent to one of its own.
pub fn reach_is_beside_own()
    ensures { ReachIsBesideOwn }
{}

/// A region reaches each cell that is adjacent to one of its own.
pub fn neighbours_are_in_reach()
    ensures { NeighboursAreInReach }
{}

/// A region reaches its own cells.
pub fn own_is_in_reach()
    ensures { OwnIsInReach }
{}

/// A region is linked to those that are linked to it.
pub fn links_are_mutual()
    ensures { LinksAreMutual }
{}

/// The cell of a place is one of the grid.
pub fn places_have_cells()
    ensures { PlacesHaveCells }
{}

/// In one tick inside the box a disk moves by at most one cell on each axis.
pub fn moves_to_adjacent()
    ensures { MovesToAdjacent }
{}

/// Places in cells that aren't adjacent are further apart on an axis than the diameter of the rules and
/// twice the speed limit together.
pub fn far_unless_adjacent()
    ensures { FarUnlessAdjacent }
{}

/// Two disks that are at their last whole tick before they overlap are in adjacent cells.
pub fn touch_in_adjacent()
    ensures { TouchInAdjacent }
{}

/// A disk that is in a cell at a tick, and inside the box but not in the cell one tick later, crosses
/// then.
pub fn leaves_after_last()
    ensures { LeavesAfterLast }
{}

/// A disk that is in its cell at a tick crosses later, if at all.
pub fn crosses_later()
    ensures { CrossesLater }
{}

/// A disk that keeps its course leaves a cell at most once.
pub fn one_crossing()
    ensures { OneCrossing }
{}
