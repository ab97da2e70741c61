//! The cell run: collisions are sought between disks in adjacent cells alone, and disks that leave their
//! cells are events too. Its collisions are the changes of the run over all pairs.
#![tactic(auto)]

mod laws;
mod search;
mod state;

pub use laws::{
    actions_rise, cell_states_are_orderly, cell_steps_begin, each_scene_cell_runs,
    hits_are_changes, hits_are_steps, hits_join, next_actions_are_seen, one_cell_run, runs_join,
    steps_join,
};
pub use state::CellState;
