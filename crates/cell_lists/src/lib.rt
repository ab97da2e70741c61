//! Which disks are listed in which cells, and which cells are around one.
#![tactic(auto)]

mod chains;
mod gathered;
mod gathering;
mod lists;
mod near;
mod places;
mod pointer;
mod slot;

pub use gathered::{Gathered, MOST_GATHERED};
pub use lists::Lists;
pub use near::{Block, block_around};
