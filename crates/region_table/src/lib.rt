//! Regions in the slots of one table: any worker takes out any region that is at home, and puts it back.
//!
//! A worker that finds a region away doesn't wait for it: it goes on with the next.
#![tactic(auto)]

mod calm;
mod closing;
mod job;
mod laws;
mod order;
mod pace;
mod rule;
mod seat;
mod table;
mod take_out;
mod workers;

pub use laws::{homes_still_stand, taken_still_stand};
pub use seat::TableSeat;
pub use table::RegionTable;
pub use take_out::TakeOut;
pub use workers::burst_in_table;
