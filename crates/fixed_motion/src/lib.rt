//! Rules, disks that move on straight lines, and scenes, all in whole numbers.
#![tactic(auto)]

mod disk;
mod laws;
mod rules;
mod scene;
mod ticks;

pub use disk::{Disk, overlap};
pub use laws::{ranges_agree, sizes_are_bounded};
pub use rules::{MAX_END, MAX_ROUNDS, MAX_SIDE, MAX_SPEED, RuleFault, Rules};
pub use scene::{MAX_DISKS, Scene};
pub use ticks::sooner;
