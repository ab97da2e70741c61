//! One module for each kind of run.

mod bursts;
mod cases;
mod cell_runs;
mod listeners;
mod scenes;
mod told;
mod workers;
