//! One module for each part.

mod cell_steps;
mod cells;
mod codes;
mod contacts;
mod gathering;
mod helpers;
mod impulses;
mod motion;
mod ports;
mod predictions;
mod queues;
mod rows;
mod stamps;
mod sums;
mod views;
