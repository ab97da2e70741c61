//! A scene mirrored left to right, or bottom to top, has the mirrored run and the mirrored report.
//!
//! With x and y exchanged that is so only while no disk comes into a corner: `runs_exchange` of `alike_runs`. In the
//! corner at the left and the bottom the event at the left side comes first in both scenes.
#![tactic(auto)]

mod laws;

pub use laws::{mirrors_are_valid, reports_mirror, runs_mirror};
