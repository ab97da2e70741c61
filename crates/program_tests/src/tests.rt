//! One module for each part.

mod bursts;
mod expecting;
mod faults;
mod gathering;
mod helpers;
mod line;
mod live;
mod made_scenes;
mod process;
mod progress;
mod samples;
mod time_sharing;
mod words;
mod workers;
