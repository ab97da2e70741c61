//! The grid of cells, the strips of columns that regions own, and when a disk leaves its cell.
//!
//! Only disks in adjacent cells can meet within a tick, so only their pairs have to be looked at.
#![tactic(auto)]

mod bounds;
mod crossing;
mod grid;
mod later;
mod laws;
mod room;

pub use grid::{Grid, MAX_CELLS_ALONG, MAX_REGIONS, Strip};
pub use later::Departure;
pub use laws::{
    crosses_later, each_cell_has_one_owner, far_unless_adjacent, grids_have_sizes,
    leaves_after_last, links_are_mutual, moves_to_adjacent, neighbours_are_in_reach, one_crossing,
    own_is_in_reach, places_have_cells, reach_is_beside_own, touch_in_adjacent,
};
