//! What a report in lines says, read from its text alone.
#![tactic(auto)]

mod laws;

pub use laws::{parts_read_as_one, reports_read_back, reports_say_runs};
