//! One module for each part.

mod beside_bursts;
mod cases;
mod locks;
mod many_bursts;
mod pace;
mod pauses;
mod regions;
mod seats;
mod table_workers;
mod waiting;
