//! What the program does by the clock beside its run: the line that says how far the run is, pieces that are written in
//! time, and workers that give their processors away.
//!
//! A [`ProgressLine`] shows on a terminal what another thread sees on a board, and a [`BesideLine`] is a sink that may
//! write to the same terminal. A [`Timely`] is a sink that gathers, and holds no piece for long. [`TimeSharing`] is the
//! gate of the program's workers.
#![tactic(auto)]

mod forecast;
mod foreground;
mod moments;
mod progress_line;
mod time_sharing;
mod timely;

pub use foreground::{Terminal, is_in_foreground};
pub use progress_line::{BesideLine, ProgressLine};
pub use time_sharing::TimeSharing;
pub use timely::Timely;
