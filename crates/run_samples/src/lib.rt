//! What a run is sampled to in place of a report with all collisions: the states of all disks, or sums over the
//! collisions, from which pressure, temperature and the rate of collisions follow.
//!
//! States are written as in a report, and sums as the lines of [`collision_sums`] say: both at each multiple of the
//! scene's `every` below the end, and at the end.
#![tactic(auto)]

mod blocks;
mod laws;
mod sample;
mod sampler;

pub use laws::{samples_begin, samples_break_off, samples_join, states_are_of_lines};
pub use sample::Sample;
pub use sampler::Sampler;
