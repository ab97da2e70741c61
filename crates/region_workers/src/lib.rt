//! Workers: threads that run the regions side by side between two commits.
//!
//! How far regions came in their last slices ([`marks`]) is public since the workers on a table go by it too, in
//! `region_table`. How far they run before they hear each other ([`pace`]), virtual time in numbers ([`virtual_time`])
//! and where a burst stands ([`roll`], [`rendezvous`]) are public for the tests alone, which stand in a crate of their
//! own.
#![tactic(auto)]

mod bell;
mod by_run_call;
mod crowd;
mod job;
mod letters;
pub mod marks;
pub mod pace;
pub mod rendezvous;
pub mod roll;
mod run_call;
mod schedule;
mod shared;
mod turns;
pub mod virtual_time;
mod workers;

pub use bell::Bell;
pub use by_run_call::ByRunCall;
pub use crowd::doublings;
pub use run_call::RunCall;
pub use workers::{MAX_WORKERS, Workers};
