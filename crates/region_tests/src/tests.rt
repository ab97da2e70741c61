//! Scripts worked out by hand and tests with drawn numbers, and the code that plays them.

mod cases;
mod commits;
mod horizons;
mod logs;
mod news;
mod opened;
mod regions;
mod scripts;
mod strangers;
mod weaving;
